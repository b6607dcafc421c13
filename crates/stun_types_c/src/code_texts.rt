//! The texts of codes.

ghost use Rattle.std.specs.Prelude.{◌≡◌, ◌+◌, length};
ghost use Rattle.stun_text.specs.Slices.{laid_over};
ghost use Rattle.stun_types_c.specs.CodeTexts.{code_text, ended};

use crate::codes;

/// A short English text for a code.
fn code_text(code: u32) -> &'static str
    ensures { result.now ≡ code_text code }
{
    match code {
        codes::OK => "no error",
        codes::NOT_STUN => "not a STUN message",
        codes::TRUNCATED => "bytes are missing",
        codes::TOO_LARGE => "too many bytes",
        codes::FINGERPRINT_MISMATCH => "the FINGERPRINT is wrong",
        codes::MISSING_ATTRIBUTE => "an attribute is missing",
        codes::INVALID_DATA => "the value of an attribute is invalid",
        codes::INTEGRITY_FAILED => "the HMAC is wrong",
        codes::OUT_OF_MEMORY => "out of memory",
        codes::TOO_SMALL => "the slice is too small",
        codes::EXISTS => "an attribute that is written blocks the addition",
        codes::ENDING_TYPE => "attributes of this type have an add of their own",
        codes::OUT_OF_RANGE => "a number is out of range",
        codes::BAD_ARGUMENT => "an argument is invalid",
        codes::NO_KEY => "there is no key",
        codes::NOT_PADDED => "the length field is no multiple of 4",
        codes::NOT_A_REQUEST => "the message is no request",
        codes::NOT_SIGNED => "the request isn't signed",
        codes::SIGNED => "the request is signed",
        codes::NOT_A_CHALLENGE => "the response asks for no credentials",
        codes::BID_DOWN => "the response may have been tampered with",
        codes::INCOMPLETE => "REALM or NONCE is missing",
        codes::NO_ALGORITHM => "no password algorithm is supported",
        codes::SAME_CREDENTIALS => "the credentials were refused already",
        codes::HMAC_TOO_SHORT => "the HMAC is cut to too few bytes",
        codes::FULL => "there is no room",
        codes::OTHER_FAMILY => "the address is of another family",
        _ => "unknown code",
    }
}

/// Writes a text, and a 0 after it, at the start of a slice: as much of the text as fits with the 0.
fn put_ended(text: &mut [u8], whole: &[u8])
    ensures { text.new ≡ laid_over (ended (length text.old) whole.now) text.old }
{
    if text.is_empty() {
        return;
    }
    let length = whole.len().min(text.len() - 1);
    text[..length].copy_from_slice(&whole[..length]);
    text[length] = 0;
}

/// Writes the text of a code, and a 0 after it, at the start of a slice. A text that is too long for that
/// is cut, and ends with a 0 too. Returns how many bytes the whole text has with its 0.
#[unsafe(no_mangle)]
pub extern "C" fn stun_types_text(code: u32, text: &mut [u8]) -> usize
    ensures count { result ≡ length (code_text code) + 1 }
    ensures text { text.new ≡ laid_over (ended (length text.old) (code_text code)) text.old }
{
    let whole = code_text(code).as_bytes();
    put_ended(text, whole);
    whole.len() + 1
}
