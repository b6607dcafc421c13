//! The code that a response has (RFC 8489, section 14.8).

ghost use Rattle.std.specs.Prelude.{◌≡◌};
ghost use Rattle.stun_types.specs.Message.{message_bytes};
ghost use Rattle.stun_authentication.specs.Codes.{shown_code, response_code, is_challenge};

use stun_types::attribute::{AttributeStaticType, ErrorCode, read_error};
use stun_types::message::{Message, MessageClass};

/// Returns the code in the first ERROR-CODE that a message shows, if it has one: 300 to 699, with a
/// reason that is a text.
///
/// # Examples
///
/// ```
/// use stun_authentication::shown_code;
/// use stun_types::message::Message;
///
/// let response = Message::from_bytes(
///     b"\x01\x13\x00\x14\x21\x12\xA4\x42\xA5\x62\x50\xD3\xF1\x7A\xBE\x67\x94\x22\xDE\x85\
///       \x00\x09\x00\x10\x00\x00\x04\x01Unauthorized",
/// )?;
/// assert_eq!(rt; shown_code(&response), Some(401));
/// ```
pub fn shown_code(message: &Message<'_>) -> Option<u16>
    ensures { result ≡ shown_code (message_bytes message.now) }
{
    let raw = message.raw_attribute(ErrorCode::TYPE)?;
    match read_error(raw.value().as_bytes()) {
        Ok((code, _reason)) => Some(code),
        Err(_) => None,
    }
}

/// Returns the code of an error response; `None` for a message of another class.
///
/// # Examples
///
/// ```
/// use stun_authentication::response_code;
/// use stun_types::message::Message;
///
/// let response = Message::from_bytes(
///     b"\x01\x13\x00\x14\x21\x12\xA4\x42\xA5\x62\x50\xD3\xF1\x7A\xBE\x67\x94\x22\xDE\x85\
///       \x00\x09\x00\x10\x00\x00\x04\x01Unauthorized",
/// )?;
/// assert_eq!(rt; response_code(&response), Some(401));
/// // A request has no code, whatever it shows.
/// let request = Message::from_bytes(
///     b"\x00\x01\x00\x00\x21\x12\xA4\x42\xB7\xE7\xA7\x01\xBC\x34\xD6\x86\xFA\x87\xDF\xAE",
/// )?;
/// assert_eq!(rt; response_code(&request), None);
/// ```
pub fn response_code(message: &Message<'_>) -> Option<u16>
    ensures { result ≡ response_code (message_bytes message.now) }
{
    match message.class() {
        MessageClass::Error => shown_code(message),
        _ => None,
    }
}

/// Returns `true` if a message asks for credentials: if it is an error response with the code 401
/// or 438.
///
/// # Examples
///
/// ```
/// use stun_authentication::is_challenge;
/// use stun_types::message::Message;
///
/// let response = Message::from_bytes(
///     b"\x01\x13\x00\x14\x21\x12\xA4\x42\xA5\x62\x50\xD3\xF1\x7A\xBE\x67\x94\x22\xDE\x85\
///       \x00\x09\x00\x10\x00\x00\x04\x01Unauthorized",
/// )?;
/// assert!(rt; is_challenge(&response));
/// ```
pub fn is_challenge(message: &Message<'_>) -> bool
    ensures { result ≡ is_challenge (message_bytes message.now) }
{
    matches!(
        response_code(message),
        Some(ErrorCode::UNAUTHORIZED | ErrorCode::STALE_NONCE)
    )
}
