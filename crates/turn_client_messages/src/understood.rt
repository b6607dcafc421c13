//! The types that a client understands.

ghost use Rattle.std.specs.Prelude.{◌≡◌};
ghost use Rattle.stun_types.specs.Message.{message_bytes};
ghost use Rattle.turn_client_messages.specs.Understood.{is_understood};

use stun_grammar::attribute_types::{
    ERROR_CODE, MAPPED_ADDRESS, MESSAGE_INTEGRITY, MESSAGE_INTEGRITY_SHA256, NONCE,
    PASSWORD_ALGORITHM, REALM, UNKNOWN_ATTRIBUTES, USERHASH, USERNAME, XOR_MAPPED_ADDRESS,
};
use stun_types::attribute::AttributeType;
use stun_types::message::{Message, UnknownTypes};
use turn_attrs::attribute_types::{
    CHANNEL_NUMBER, DATA, DONT_FRAGMENT, EVEN_PORT, LIFETIME, REQUESTED_ADDRESS_FAMILY,
    REQUESTED_TRANSPORT, RESERVATION_TOKEN, XOR_PEER_ADDRESS, XOR_RELAYED_ADDRESS,
};

/// The types below 0x8000 that a client understands: those of RFC 8489 and of RFC 8656. A message
/// that shows another one is discarded, or ends its transaction (RFC 8489, sections 6.3.2 to
/// 6.3.4).
pub const UNDERSTOOD: [AttributeType; 21] = [
    AttributeType(MAPPED_ADDRESS),
    AttributeType(USERNAME),
    AttributeType(MESSAGE_INTEGRITY),
    AttributeType(ERROR_CODE),
    AttributeType(UNKNOWN_ATTRIBUTES),
    AttributeType(REALM),
    AttributeType(NONCE),
    AttributeType(MESSAGE_INTEGRITY_SHA256),
    AttributeType(PASSWORD_ALGORITHM),
    AttributeType(USERHASH),
    AttributeType(XOR_MAPPED_ADDRESS),
    AttributeType(CHANNEL_NUMBER),
    AttributeType(LIFETIME),
    AttributeType(XOR_PEER_ADDRESS),
    AttributeType(DATA),
    AttributeType(XOR_RELAYED_ADDRESS),
    AttributeType(REQUESTED_ADDRESS_FAMILY),
    AttributeType(EVEN_PORT),
    AttributeType(REQUESTED_TRANSPORT),
    AttributeType(DONT_FRAGMENT),
    AttributeType(RESERVATION_TOKEN),
];

/// Whether all that a message shows is understood.
pub(crate) fn is_understood(message: &Message<'_>) -> bool
    ensures { result ≡ is_understood (message_bytes message.now) }
{
    let mut unknown = UnknownTypes::new(message.as_bytes(), &UNDERSTOOD);
    unknown.next().is_none()
}
