//! The values of attributes, each of the first one of its type.

ghost use Rattle.std.specs.Prelude.{◌≡◌};
ghost use Rattle.stun_types.specs.Message.{message_bytes};
ghost use Rattle.turn_attrs.specs.Turn.{icmp_in};
ghost use Rattle.turn_client_messages.specs.Values.{read_xored, xored_in, read_plain, of_family, alternate_in, read_seconds, lifetime_in, read_eight, token_in, icmp_error_in};

use byteorder::{BigEndian, ByteOrder};
use std::net::SocketAddr;
use stun_authentication::attributes::value_of;
use stun_endpoints::Endpoint;
use stun_grammar::attribute_types::ALTERNATE_SERVER;
use stun_types::attribute::{AttributeType, PackedKind};
use stun_types::message::{Message, TransactionId};
use stun_values::{read_address, xor_addr};
use turn_attrs::attribute_types::{ICMP, LIFETIME, RESERVATION_TOKEN};
use turn_attrs::{IcmpError, IcmpKind};

/// The address in a value that is XORed with the cookie and this transaction ID.
fn read_xored(value: &[u8], id: TransactionId) -> Option<Endpoint>
    ensures { result ≡ read_xored id value.now }
{
    let written = read_address(value).ok()?;
    Some(Endpoint::from(xor_addr(written, id)))
}

/// The XORed address in the first attribute of a type.
pub(crate) fn xored_in(message: &Message<'_>, atype: u16) -> Option<Endpoint>
    ensures { result ≡ xored_in atype (message_bytes message.now) }
{
    let value = value_of(message, AttributeType(atype))?;
    read_xored(value, message.transaction_id())
}

/// The address in a value.
fn read_plain(value: &[u8]) -> Option<Endpoint>
    ensures { result ≡ read_plain value.now }
{
    let address: SocketAddr = read_address(value).ok()?;
    Some(Endpoint::from(address))
}

/// An address, if it is of this family.
fn of_family(address: Endpoint, family: u8) -> Option<Endpoint>
    ensures { result ≡ of_family family address }
{
    if address.ip.family == family {
        Some(address)
    } else {
        None
    }
}

/// The alternate server, if it has an address of this family (RFC 8489, section 14.15).
pub(crate) fn alternate_in(message: &Message<'_>, family: u8) -> Option<Endpoint>
    ensures { result ≡ alternate_in family (message_bytes message.now) }
{
    let value = value_of(message, AttributeType(ALTERNATE_SERVER))?;
    of_family(read_plain(value)?, family)
}

/// The seconds in a value.
fn read_seconds(value: &[u8]) -> Option<u32>
    ensures { result ≡ read_seconds value.now }
{
    if value.len() == 4 {
        Some(BigEndian::read_u32(value))
    } else {
        None
    }
}

/// The lifetime in seconds (RFC 8656, section 18.2).
pub(crate) fn lifetime_in(message: &Message<'_>) -> Option<u32>
    ensures { result ≡ lifetime_in (message_bytes message.now) }
{
    read_seconds(value_of(message, AttributeType(LIFETIME))?)
}

/// The number in a value of eight bytes.
fn read_eight(value: &[u8]) -> Option<u64>
    ensures { result ≡ read_eight value.now }
{
    if value.len() == 8 {
        Some(BigEndian::read_u64(value))
    } else {
        None
    }
}

/// The token of a reservation (RFC 8656, section 18.10).
pub(crate) fn token_in(message: &Message<'_>) -> Option<u64>
    ensures { result ≡ token_in (message_bytes message.now) }
{
    read_eight(value_of(message, AttributeType(RESERVATION_TOKEN))?)
}

/// The ICMP error that is reported (RFC 8656, section 18.13).
pub(crate) fn icmp_error_in(message: &Message<'_>) -> Option<IcmpError>
    ensures { result ≡ icmp_error_in (message_bytes message.now) }
{
    IcmpKind::from_number(read_eight(value_of(message, AttributeType(ICMP))?)?)
}
