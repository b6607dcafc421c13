ghost use Rattle.std.specs.Prelude.{◌≡◌, ◌≢◌, ◌<◌, ◌≤◌, MatchResult, None, Some};
ghost use Rattle.stun_grammar.specs.declared.error.StunParseError.TheVariants.{WrongAttributeImplementation};
ghost use Rattle.stun_attributes.specs.Raw.{raw_type, raw_value};
ghost use Rattle.stun_attributes.specs.Checks.{start_fault, end_fault, check_fault};

use crate::wire::{Attribute, RawAttribute};
use std::ops::Bound;
use stun_base::{AttributeType, StunParseError};

/// The length of a value as a header states it, in two bytes.
///
/// # Errors
///
/// `TooLarge { expected: 65535, actual: length }` if it is greater than 65535.
pub(crate) fn checked_length(length: usize) -> Result<u16, StunParseError>
    ensures { MatchResult result
        (λ stated. (stated ≡ length) × (length ≤ 65535))
        (λ e. (65535 < length) × (e ≡ StunParseError.TooLarge 65535 length)) }
{
    if length > 65535 {
        return Err(StunParseError::TooLarge {
            expected: 65535,
            actual: length,
        });
    }
    Ok(length as u16)
}

/// Tests that a raw attribute has the wanted type.
///
/// # Errors
///
/// `WrongAttributeImplementation` if it has another one.
pub fn check_type(raw: &RawAttribute<'_>, wanted: AttributeType) -> Result<(), StunParseError>
    ensures { MatchResult result
        (λ _. raw_type raw.now ≡ wanted.0)
        (λ e. (raw_type raw.now ≢ wanted.0) × (e ≡ WrongAttributeImplementation)) }
{
    if raw.get_type() != wanted {
        return Err(StunParseError::WrongAttributeImplementation);
    }
    Ok(())
}

/// Tests that a length is not below the start.
fn check_start(length: usize, start: Bound<usize>) -> Result<(), StunParseError>
    ensures { MatchResult result
        (λ _. start_fault start length ≡ None)
        (λ e. start_fault start length ≡ Some e) }
{
    match start {
        Bound::Included(least) if length < least => Err(StunParseError::Truncated {
            expected: least,
            actual: length,
        }),
        Bound::Excluded(below) if length <= below => Err(StunParseError::Truncated {
            expected: below.saturating_add(1),
            actual: length,
        }),
        _ => Ok(()),
    }
}

/// Tests that a length is not above the end.
fn check_end(length: usize, end: Bound<usize>) -> Result<(), StunParseError>
    ensures { MatchResult result
        (λ _. end_fault end length ≡ None)
        (λ e. end_fault end length ≡ Some e) }
{
    match end {
        Bound::Included(most) if most < length => Err(StunParseError::TooLarge {
            expected: most,
            actual: length,
        }),
        Bound::Excluded(above) if above <= length => Err(StunParseError::TooLarge {
            expected: above.saturating_sub(1),
            actual: length,
        }),
        _ => Ok(()),
    }
}

impl RawAttribute<'_> {
    /// Tests that the attribute has the type `atype`, and that the length of its value is within
    /// the bounds. The reading of an attribute begins with this test.
    ///
    /// # Errors
    ///
    /// The first of these that applies, where `actual` is the length of the value:
    ///
    /// - `WrongAttributeImplementation` if the type is another one;
    /// - `Truncated { expected, actual }` if the length is less than `start` allows. `expected`
    ///   is the least length allowed: the bound, or one more if it is excluded, but at most
    ///   `usize::MAX`;
    /// - `TooLarge { expected, actual }` if the length is greater than `end` allows. `expected`
    ///   is the greatest length allowed: the bound, or one less if it is excluded, but at least
    ///   0. An excluded end of 0 allows no length.
    ///
    /// # Examples
    ///
    /// ```
    /// use std::ops::Bound;
    /// use stun_types::attribute::{AttributeType, RawAttribute};
    /// use stun_types::message::StunParseError;
    ///
    /// let (atype, four) = (AttributeType(0x8851), Bound::Included(4));
    /// let raw = RawAttribute::new(atype, &[0, 1, 2, 3])?;
    /// assert_eq!(rt; raw.check_type_and_len(atype, four, four), Ok(()));
    /// let eight = Bound::Included(8);
    /// let refused = StunParseError::Truncated { expected: 8, actual: 4 };
    /// assert_eq!(rt; raw.check_type_and_len(atype, eight, Bound::Unbounded), Err(refused));
    /// ```
    pub fn check_type_and_len(
        &self,
        atype: AttributeType,
        start: Bound<usize>,
        end: Bound<usize>,
    ) -> Result<(), StunParseError>
        ensures { MatchResult result
            (λ _. check_fault atype.0 start end (raw_type self.now) (raw_value self.now) ≡ None)
            (λ e. check_fault atype.0 start end (raw_type self.now) (raw_value self.now) ≡ Some e) }
    {
        check_type(self, atype)?;
        let length = self.length() as usize;
        check_start(length, start)?;
        check_end(length, end)
    }
}
