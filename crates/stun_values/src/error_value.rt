//! A code and a reason as the bytes of a value, written, read and printed (RFC 8489, section 14.8).

ghost use Rattle.std.specs.Prelude.{◌≡◌, ◌≤◌, ◌++◌, true, false, Some, None, MatchOption, MatchResult, OnOk, length, drop};
ghost use Rattle.stun_values.specs.TextValues.{text_max};
ghost use Rattle.stun_values.specs.ErrorValues.{error_value, making_fault, reported_code, tells_code, error_fault, error_text};

use crate::printed::put_type;
use crate::{TEXT_MAX, check_range};
use stun_base::{AttributeType, StunParseError, StunWriteError};
use stun_grammar::attribute_types;
use stun_text::{TextSink, put_decimal};

/// Tests that a value may be made of a code and a reason: the code is one of 300 to 699, and the
/// reason has at most 763 bytes.
///
/// # Errors
///
/// `OutOfRange { value, min: 300, max: 699 }` if the code is below 300 or above 699, otherwise
/// `TooLarge { expected: 763, actual }` if the reason has more than 763 bytes.
#[tactic(auto, using(crate::proofs::ErrorValuesLemmas::below_range, crate::proofs::ErrorValuesLemmas::above_range, crate::proofs::ErrorValuesLemmas::long_reason, crate::proofs::ErrorValuesLemmas::can_be_made))]
pub fn check_error(code: u16, reason: &[u8]) -> Result<(), StunWriteError>
    ensures { MatchResult result
        (λ _. (making_fault code reason.now ≡ None) × (300 ≤ code) × (code ≤ 699)
        × (length reason.now ≤ text_max))
        (λ e. making_fault code reason.now ≡ Some e) }
{
    if !(300..=699).contains(&code) {
        return Err(StunWriteError::OutOfRange {
            value: code as usize,
            min: 300,
            max: 699,
        });
    }
    if reason.len() > TEXT_MAX as usize {
        return Err(StunWriteError::TooLarge {
            expected: TEXT_MAX as usize,
            actual: reason.len(),
        });
    }
    Ok(())
}

/// Writes the value of a code and a reason at the start of `dest`: two zeros, the class of the code
/// (its hundreds) in a byte, its number (0 to 99) in a byte, and the reason.
///
/// # Requires
///
/// `code` is at most 699, and `dest.len()` at least `4 + reason.len()`.
pub fn write_error(code: u16, reason: &[u8], dest: &mut [u8])
    requires code { code ≤ 699 }
    requires room { length (error_value code reason.now) ≤ length dest.old }
    ensures { dest.new
        ≡ error_value code reason.now ++ drop (length (error_value code reason.now)) dest.old }
{
    let (start, rest) = dest.split_at_mut(4);
    start.copy_from_slice(&[0, 0, (code / 100) as u8, (code % 100) as u8]);
    rest[..reason.len()].copy_from_slice(reason);
}

/// The code in a value of four bytes or more, if its class is 3 to 6 and its number at most 99.
#[tactic(auto, using(crate::proofs::ErrorValuesLemmas::tells, crate::proofs::ErrorValuesLemmas::low_class, crate::proofs::ErrorValuesLemmas::high_class, crate::proofs::ErrorValuesLemmas::high_number))]
fn read_code(value: &[u8]) -> Option<u16>
    requires { 4 ≤ length value.now }
    ensures { MatchOption result
        (tells_code value.now ≡ false)
        (λ code. (tells_code value.now ≡ true) × (code ≡ reported_code value.now) × (300 ≤ code)
        × (code ≤ 699)) }
{
    let code_class = value[2] % 8;
    let number = value[3];
    if code_class < 3 || code_class > 6 || number > 99 {
        return None;
    }
    Some(100 * code_class as u16 + number as u16)
}

/// Reads a value as a code and a reason, which is borrowed: the value has 4 to 767 bytes, the code
/// is one of 300 to 699, and the reason is UTF-8. The first two bytes and the high five bits of the
/// third are ignored.
///
/// # Errors
///
/// `Truncated { expected: 4, actual }` if there are fewer than four bytes, and
/// `TooLarge { expected: 767, actual }` if there are more than 767. Otherwise
/// `InvalidAttributeData` if the class isn't 3 to 6, the number is above 99, or the reason isn't
/// UTF-8.
///
/// # Examples
///
/// ```
/// use stun_types::attribute::read_error;
///
/// assert_eq!(rt; read_error(b"\x00\x00\x04\x26Stale Nonce"), Ok((438, "Stale Nonce")));
/// assert!(rt; read_error(b"\x00\x00\x07\x00").is_err()); // the code 700
/// ```
#[tactic(auto, using(crate::proofs::ErrorValuesLemmas::wrong_length, crate::proofs::ErrorValuesLemmas::no_code, crate::proofs::ErrorValuesLemmas::no_text, crate::proofs::ErrorValuesLemmas::is_error))]
pub fn read_error(value: &[u8]) -> Result<(u16, &str), StunParseError>
    ensures { MatchResult result
        (λ reported. (error_fault value.now ≡ None) × (reported.0 ≡ reported_code value.now)
        × (reported.1.now ≡ drop 4 value.now) × (300 ≤ reported.0) × (reported.0 ≤ 699)
        × (length reported.1.now ≤ text_max))
        (λ e. error_fault value.now ≡ Some e) }
{
    check_range(value.len(), 4, 4 + TEXT_MAX as usize)?;
    let Some(code) = read_code(value) else {
        return Err(StunParseError::InvalidAttributeData);
    };
    let (_, reason) = value.split_at(4);
    match str::from_utf8(reason) {
        Ok(reason) => Ok((code, reason)),
        Err(_) => Err(StunParseError::InvalidAttributeData),
    }
}

/// Prints an ERROR-CODE of this code and this reason: the type, and after it the code in decimal
/// and the reason between `'` and `'`, as it is. It takes no memory.
///
/// # Errors
///
/// That of the sink.
pub fn print_error<S: TextSink>(sink: &mut S, code: u16, reason: &str) -> Result<(), S::Error>
    ensures { OnOk result (S.wrote sink.old (error_text code reason.now) sink.new) }
{
    put_type(sink, AttributeType(attribute_types::ERROR_CODE))?;
    put_decimal(sink, code as u64)?;
    sink.put(" '")?;
    sink.put(reason)?;
    sink.put("'")?;
    Ok(())
}
