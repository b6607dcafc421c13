//! Values of attributes: their places, texts, and errors.

ghost use Rattle.std.specs.Prelude.{◌≡◌, true, false, MatchOption};
ghost use Rattle.std.specs.Str.{is_utf8};
ghost use Rattle.std.specs.Option.{option_map};
ghost use Rattle.stun_types_c.specs.Values.{value_of, ErrorOut, ReadsError};

use crate::attribute::ShownAttribute;
use crate::call_result::{CResult, parse_result, plain};
use crate::codes;
use stun_types::attribute::read_error;

/// The offset of the first value that a message can have: after its header and that of an attribute.
const FIRST_VALUE: usize = 24;

/// The value of an attribute; `None` if the bytes have none there.
pub(crate) fn value_in<'a>(bytes: &'a [u8], attribute: &ShownAttribute) -> Option<&'a [u8]>
    ensures { value_of attribute.now bytes.now ≡ option_map (λ value. value.now) result }
{
    let length = attribute.length as usize;
    if attribute.value_at < FIRST_VALUE || attribute.value_at > bytes.len() {
        return None;
    }
    if length > bytes.len() - attribute.value_at {
        return None;
    }
    Some(&bytes[attribute.value_at..attribute.value_at + length])
}

/// The text that C's bytes are; `None` if they aren't UTF-8.
#[tactic(auto, using(crate::proofs::CredentialsLemmas::is_text, crate::proofs::CredentialsLemmas::is_no_text))]
pub(crate) fn text_in(bytes: &[u8]) -> Option<&str>
    ensures { MatchOption result (is_utf8 bytes.now ≡ false)
        (λ text. (is_utf8 bytes.now ≡ true) × (text.now ≡ bytes.now)) }
{
    str::from_utf8(bytes).ok()
}

/// Reads the code in an ERROR-CODE, and where its reason is in the message.
#[unsafe(no_mangle)]
pub extern "C" fn stun_types_read_error(
    bytes: &[u8],
    attribute: &ShownAttribute,
    code: &mut u16,
    reason_at: &mut usize,
    reason_length: &mut usize,
) -> CResult
    ensures { ReadsError attribute.now bytes.now result
        (record { code = code.old; reason_at = reason_at.old; reason_length = reason_length.old })
        (record { code = code.new; reason_at = reason_at.new; reason_length = reason_length.new }) }
{
    let Some(value) = value_in(bytes, attribute) else {
        return plain(codes::BAD_ARGUMENT);
    };
    match read_error(value) {
        Ok((reported, reason)) => {
            *code = reported;
            *reason_at = attribute.value_at + 4;
            *reason_length = reason.len();
            plain(codes::OK)
        }
        Err(error) => parse_result(error),
    }
}
