//! What an agent reads of a message.

ghost use Rattle.std.specs.Prelude.{◌≡◌};
ghost use Rattle.std.specs.Option.{option_map};
ghost use Rattle.stun_types.specs.Message.{message_bytes};
ghost use Rattle.ice_checks.specs.Judging.{address_read, mapped_in, number_of, priority_in, role_by, role_in, role_with};
ghost use Rattle.ice_checks.specs.Types.{is_understood, understood};

use byteorder::{BigEndian, ByteOrder};
use ice_attrs::attribute_types::{PRIORITY, USE_CANDIDATE};
use ice_attrs::{IceControlled, IceControlling, Priority};
use ice_machine::Role;
use stun_authentication::attributes::value_of;
use stun_endpoints::Endpoint;
use stun_grammar::attribute_types::{
    ERROR_CODE, MAPPED_ADDRESS, MESSAGE_INTEGRITY, MESSAGE_INTEGRITY_SHA256, NONCE,
    PASSWORD_ALGORITHM, REALM, UNKNOWN_ATTRIBUTES, USERHASH, USERNAME, XOR_MAPPED_ADDRESS,
};
use stun_types::attribute::{AttributeStaticType, AttributeType, XorMappedAddress};
use stun_types::message::{Message, TransactionId, UnknownTypes};
use stun_values::{read_address, xor_addr};

/// The types below 0x8000 that an agent understands: those of RFC 8489, PRIORITY and USE-CANDIDATE.
pub const UNDERSTOOD: [AttributeType; 13] = [
    AttributeType(MAPPED_ADDRESS),
    AttributeType(USERNAME),
    AttributeType(MESSAGE_INTEGRITY),
    AttributeType(ERROR_CODE),
    AttributeType(UNKNOWN_ATTRIBUTES),
    AttributeType(REALM),
    AttributeType(NONCE),
    AttributeType(MESSAGE_INTEGRITY_SHA256),
    AttributeType(PASSWORD_ALGORITHM),
    AttributeType(USERHASH),
    AttributeType(XOR_MAPPED_ADDRESS),
    AttributeType(PRIORITY),
    AttributeType(USE_CANDIDATE),
];

/// The types that an agent understands.
pub(crate) fn understood() -> &'static [AttributeType]
    ensures { result.now ≡ understood }
{
    &UNDERSTOOD
}

/// Whether an agent understands all that a message shows and that must be understood.
pub(crate) fn is_understood(message: &Message<'_>) -> bool
    ensures { result ≡ is_understood (message_bytes message.now) }
{
    let mut unknown = UnknownTypes::new(message.as_bytes(), understood());
    unknown.next().is_none()
}

/// The number in a value of four bytes. `None` for a value of another length.
fn number_of_four(value: &[u8]) -> Option<u32>
    ensures { result ≡ number_of 4 value.now }
{
    if value.len() == 4 {
        return Some(BigEndian::read_u32(value));
    }
    None
}

/// The number in a value of eight bytes. `None` for a value of another length.
fn number_of_eight(value: &[u8]) -> Option<u64>
    ensures { result ≡ number_of 8 value.now }
{
    if value.len() == 8 {
        return Some(BigEndian::read_u64(value));
    }
    None
}

/// The PRIORITY of a check.
pub(crate) fn priority_in(message: &Message<'_>) -> Option<u32>
    ensures { result ≡ priority_in (message_bytes message.now) }
{
    let value = value_of(message, Priority::TYPE)?;
    number_of_four(value)
}

/// A role, with the tiebreaker in its value.
fn role_with(role: Role, value: &[u8]) -> Option<(Role, u64)>
    ensures { result ≡ role_with role value.now }
{
    let tiebreaker = number_of_eight(value)?;
    Some((role, tiebreaker))
}

/// The role by the values of ICE-CONTROLLING and ICE-CONTROLLED. `None` if there are both, or none.
fn role_by(controlling: Option<&[u8]>, controlled: Option<&[u8]>) -> Option<(Role, u64)>
    ensures { result ≡ role_by (option_map (λ value. value.now) controlling.entry)
        (option_map (λ value. value.now) controlled.entry) }
{
    match (controlling, controlled) {
        (Some(value), None) => role_with(Role::Controlling, value),
        (None, Some(value)) => role_with(Role::Controlled, value),
        _ => None,
    }
}

/// The role that a check shows, and its tiebreaker.
pub(crate) fn role_in(message: &Message<'_>) -> Option<(Role, u64)>
    ensures { result ≡ role_in (message_bytes message.now) }
{
    let controlling = value_of(message, IceControlling::TYPE);
    let controlled = value_of(message, IceControlled::TYPE);
    role_by(controlling, controlled)
}

/// The address in the value of an XOR-MAPPED-ADDRESS, in a message with this transaction ID. `None` if the
/// value is malformed.
fn address_read(value: &[u8], id: TransactionId) -> Option<Endpoint>
    ensures { result ≡ address_read id value.now }
{
    let written = read_address(value).ok()?;
    Some(Endpoint::from(xor_addr(written, id)))
}

/// The address in the XOR-MAPPED-ADDRESS of a response.
pub(crate) fn mapped_in(message: &Message<'_>) -> Option<Endpoint>
    ensures { result ≡ mapped_in (message_bytes message.now) }
{
    let value = value_of(message, XorMappedAddress::TYPE)?;
    address_read(value, message.transaction_id())
}
