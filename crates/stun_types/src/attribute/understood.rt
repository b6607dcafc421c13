//! The types that an implementation of RFC 8489 understands.

use crate::attribute::AttributeType;
use stun_grammar::attribute_types;

/// The types of RFC 8489 that must be understood (section 18.3), for
/// [`Message::check_attribute_types`](crate::message::Message::check_attribute_types). The optional
/// types need not be in such a list.
///
/// # Examples
///
/// ```
/// use stun_types::attribute::{KNOWN, Software, Username};
/// use stun_types::prelude::*;
///
/// assert!(rt; KNOWN.contains(&Username::TYPE));
/// assert!(rt; !KNOWN.contains(&Software::TYPE)); // optional
/// ```
pub const KNOWN: [AttributeType; 11] = [
    AttributeType(attribute_types::MAPPED_ADDRESS),
    AttributeType(attribute_types::USERNAME),
    AttributeType(attribute_types::MESSAGE_INTEGRITY),
    AttributeType(attribute_types::ERROR_CODE),
    AttributeType(attribute_types::UNKNOWN_ATTRIBUTES),
    AttributeType(attribute_types::REALM),
    AttributeType(attribute_types::NONCE),
    AttributeType(attribute_types::MESSAGE_INTEGRITY_SHA256),
    AttributeType(attribute_types::PASSWORD_ALGORITHM),
    AttributeType(attribute_types::USERHASH),
    AttributeType(attribute_types::XOR_MAPPED_ADDRESS),
];
