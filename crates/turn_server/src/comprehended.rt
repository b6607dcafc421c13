//! The types that the server comprehends.

ghost use Rattle.std.specs.Prelude.{◌≡◌};
ghost use Rattle.stun_types.specs.Message.{message_bytes};
ghost use Rattle.turn_server.specs.Comprehended.{comprehended, is_comprehended};

use stun_grammar::attribute_types::{
    ERROR_CODE, MAPPED_ADDRESS, MESSAGE_INTEGRITY, MESSAGE_INTEGRITY_SHA256, NONCE,
    PASSWORD_ALGORITHM, REALM, UNKNOWN_ATTRIBUTES, USERHASH, USERNAME, XOR_MAPPED_ADDRESS,
};
use stun_types::attribute::AttributeType;
use stun_types::message::{Message, UnknownTypes};
use turn_attrs::attribute_types::{
    CHANNEL_NUMBER, DATA, DONT_FRAGMENT, EVEN_PORT, LIFETIME, REQUESTED_ADDRESS_FAMILY,
    REQUESTED_TRANSPORT, RESERVATION_TOKEN, XOR_PEER_ADDRESS, XOR_RELAYED_ADDRESS,
};

/// The types below 0x8000 that a server without `Limits::dont_fragment` comprehends in a request or an
/// indication: those of RFC 8489 and of RFC 8656 but DONT-FRAGMENT, since it can't set the DF bit (RFC 8656,
/// sections 7.2 and 11.2). One of them that means nothing in a message is ignored, as USERNAME in a Binding
/// request (RFC 8489, section 6.3). With this list [`UnknownTypes::new`] lists the others that a request
/// shows, for a 420.
///
/// With `dont_fragment` the list is [`COMPREHENDED_WITH_DONT_FRAGMENT`].
///
/// # Examples
///
/// ```
/// use stun_types::attribute::AttributeType;
/// use turn_attrs::attribute_types::{DONT_FRAGMENT, LIFETIME};
/// use turn_server::COMPREHENDED;
///
/// assert!(rt; COMPREHENDED.contains(&AttributeType(LIFETIME)));
/// assert!(rt; !COMPREHENDED.contains(&AttributeType(DONT_FRAGMENT)));
/// ```
pub const COMPREHENDED: [AttributeType; 20] = [
    AttributeType(MAPPED_ADDRESS),
    AttributeType(USERNAME),
    AttributeType(MESSAGE_INTEGRITY),
    AttributeType(ERROR_CODE),
    AttributeType(UNKNOWN_ATTRIBUTES),
    AttributeType(REALM),
    AttributeType(NONCE),
    AttributeType(MESSAGE_INTEGRITY_SHA256),
    AttributeType(PASSWORD_ALGORITHM),
    AttributeType(USERHASH),
    AttributeType(XOR_MAPPED_ADDRESS),
    AttributeType(CHANNEL_NUMBER),
    AttributeType(LIFETIME),
    AttributeType(XOR_PEER_ADDRESS),
    AttributeType(DATA),
    AttributeType(XOR_RELAYED_ADDRESS),
    AttributeType(REQUESTED_ADDRESS_FAMILY),
    AttributeType(EVEN_PORT),
    AttributeType(REQUESTED_TRANSPORT),
    AttributeType(RESERVATION_TOKEN),
];

/// The types below 0x8000 that a server with `Limits::dont_fragment` comprehends: DONT-FRAGMENT, which only
/// an Allocate request and a Send indication have a use for, and those of [`COMPREHENDED`].
///
/// # Examples
///
/// ```
/// use stun_types::attribute::AttributeType;
/// use turn_attrs::attribute_types::DONT_FRAGMENT;
/// use turn_server::{COMPREHENDED, COMPREHENDED_WITH_DONT_FRAGMENT};
///
/// assert!(rt; COMPREHENDED_WITH_DONT_FRAGMENT[0] == AttributeType(DONT_FRAGMENT));
/// assert!(rt; COMPREHENDED_WITH_DONT_FRAGMENT[1..] == COMPREHENDED[..]);
/// ```
pub const COMPREHENDED_WITH_DONT_FRAGMENT: [AttributeType; 21] = [
    AttributeType(DONT_FRAGMENT),
    AttributeType(MAPPED_ADDRESS),
    AttributeType(USERNAME),
    AttributeType(MESSAGE_INTEGRITY),
    AttributeType(ERROR_CODE),
    AttributeType(UNKNOWN_ATTRIBUTES),
    AttributeType(REALM),
    AttributeType(NONCE),
    AttributeType(MESSAGE_INTEGRITY_SHA256),
    AttributeType(PASSWORD_ALGORITHM),
    AttributeType(USERHASH),
    AttributeType(XOR_MAPPED_ADDRESS),
    AttributeType(CHANNEL_NUMBER),
    AttributeType(LIFETIME),
    AttributeType(XOR_PEER_ADDRESS),
    AttributeType(DATA),
    AttributeType(XOR_RELAYED_ADDRESS),
    AttributeType(REQUESTED_ADDRESS_FAMILY),
    AttributeType(EVEN_PORT),
    AttributeType(REQUESTED_TRANSPORT),
    AttributeType(RESERVATION_TOKEN),
];

/// The types that a server comprehends that sets the DF bit, or doesn't.
pub(crate) fn comprehended_by(sets_df: bool) -> &'static [AttributeType]
    ensures { result.now ≡ comprehended sets_df }
{
    if sets_df {
        &COMPREHENDED_WITH_DONT_FRAGMENT
    } else {
        &COMPREHENDED
    }
}

/// Whether all that a message shows is comprehended.
pub(crate) fn is_comprehended(message: &Message<'_>, sets_df: bool) -> bool
    ensures { result ≡ is_comprehended sets_df (message_bytes message.now) }
{
    let mut unknown = UnknownTypes::new(message.as_bytes(), comprehended_by(sets_df));
    unknown.next().is_none()
}
