//! The names of attribute types, methods and password algorithms, as the RFCs spell them.

use std::alloc::AllocError;
use stun_base::Hex;
use stun_plain_text::known_type;
use stun_types::attribute::{AttributeStaticType, AttributeType, PasswordAlgorithms};
use stun_types::message::Method;

/// The name of a type; `None` for one that neither STUN nor ICE, TURN and NAT discovery have. The
/// library prints an underscore in that of PASSWORD-ALGORITHMS.
fn type_name(atype: AttributeType) -> Option<&'static str> {
    if atype == PasswordAlgorithms::TYPE {
        return Some("PASSWORD-ALGORITHMS");
    }
    Some(known_type(atype.value())?.name)
}

/// Appends the name of a type, or `unknown` and its number in hexadecimal.
pub fn push_name(text: &mut String, atype: AttributeType) -> Result<(), AllocError> {
    match type_name(atype) {
        Some(name) => text.push_str(name),
        None => {
            let number = atype.value().to_be_bytes();
            write!(text, "unknown 0x{}", Hex(&number))
        }
    }
}

/// The name of a method (RFC 8489, section 18.2; RFC 8656, section 17; RFC 6062, section 6.1);
/// `unknown` for any other.
pub fn method_name(method: Method) -> &'static str {
    match method.value() {
        1 => "Binding",
        3 => "Allocate",
        4 => "Refresh",
        6 => "Send",
        7 => "Data",
        8 => "CreatePermission",
        9 => "ChannelBind",
        10 => "Connect",
        11 => "ConnectionBind",
        12 => "ConnectionAttempt",
        _ => "unknown",
    }
}

/// Appends the name of a password algorithm (RFC 8489, section 18.5.1), or `unknown` and its number
/// in hexadecimal.
pub fn push_algorithm(text: &mut String, number: u16) -> Result<(), AllocError> {
    match number {
        1 => text.push_str("MD5"),
        2 => text.push_str("SHA-256"),
        _ => write!(text, "unknown 0x{}", Hex(&number.to_be_bytes())),
    }
}
