//! A value that is a text, read.

ghost use Rattle.std.specs.Prelude.{◌≡◌, MatchResult, None, Some};
ghost use Rattle.stun_values.specs.TextValues.{text_fault};

use crate::check_range;
use stun_base::StunParseError;

/// Reads a text, which is borrowed: a value of at most `most` bytes, which are UTF-8. The text is
/// borrowed.
///
/// # Errors
///
/// `TooLarge { expected: most, actual }` if the value has more than `most` bytes. Otherwise
/// `InvalidAttributeData` if they aren't UTF-8.
///
/// # Examples
///
/// ```
/// use stun_types::attribute::read_text;
///
/// assert_eq!(rt; read_text(b"example.org", 763), Ok("example.org"));
/// assert!(rt; read_text(b"\xFF", 763).is_err());
/// ```
#[tactic(auto, using(crate::proofs::TextValuesLemmas::refused, crate::proofs::TextValuesLemmas::not_utf8, crate::proofs::TextValuesLemmas::is_text))]
pub fn read_text(value: &[u8], most: u16) -> Result<&str, StunParseError>
    ensures { MatchResult result
        (λ text. (text_fault most value.now ≡ None) × (text.now ≡ value.now))
        (λ e. text_fault most value.now ≡ Some e) }
{
    check_range(value.len(), 0, most as usize)?;
    match str::from_utf8(value) {
        Ok(text) => Ok(text),
        Err(_) => Err(StunParseError::InvalidAttributeData),
    }
}
