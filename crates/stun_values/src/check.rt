//! Tests of lengths.

ghost use Rattle.std.specs.Prelude.{◌≡◌, ◌≤◌, MatchResult, None, Some, length};
ghost use Rattle.stun_grammar.specs.Lengths.{range_fault, exact_fault};

use stun_base::StunParseError;

/// Tests that a length is at least `least` and at most `greatest`.
///
/// # Errors
///
/// `Truncated { expected: least, actual: length }` if it is less than `least`. Otherwise
/// `TooLarge { expected: greatest, actual: length }` if it is greater than `greatest`.
pub fn check_range(length: usize, least: usize, greatest: usize) -> Result<(), StunParseError>
    ensures { MatchResult result
        (λ _. (range_fault least greatest length ≡ None) × (least ≤ length) × (length ≤ greatest))
        (λ e. range_fault least greatest length ≡ Some e) }
{
    if length < least {
        return Err(StunParseError::Truncated {
            expected: least,
            actual: length,
        });
    }
    if length > greatest {
        return Err(StunParseError::TooLarge {
            expected: greatest,
            actual: length,
        });
    }
    Ok(())
}

/// Tests that a value has exactly `wanted` bytes.
///
/// # Errors
///
/// `Truncated { expected: wanted, actual }` if it has fewer, and
/// `TooLarge { expected: wanted, actual }` if it has more.
///
/// # Examples
///
/// ```
/// use stun_types::attribute::check_length;
/// use stun_types::message::StunParseError;
///
/// assert_eq!(rt; check_length(&[1, 2, 3, 4], 4), Ok(()));
/// let refused = StunParseError::TooLarge { expected: 2, actual: 4 };
/// assert_eq!(rt; check_length(&[1, 2, 3, 4], 2), Err(refused));
/// ```
pub fn check_length(value: &[u8], wanted: usize) -> Result<(), StunParseError>
    ensures { MatchResult result
        (λ _. (exact_fault wanted (length value.now) ≡ None) × (length value.now ≡ wanted))
        (λ e. exact_fault wanted (length value.now) ≡ Some e) }
{
    check_range(value.len(), wanted, wanted)
}
