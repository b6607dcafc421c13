//! What a client learns of an ICMP packet about a datagram that went to a peer (RFC 8656, section 11.5).

ghost use Rattle.std.specs.Prelude.{◌≡◌, ◌≤◌, [], ◌∷◌, length, take};
ghost use Rattle.std.specs.Net.Socket.{socket_ip};
ghost use Rattle.stun_grammar.specs.Attributes.{canonical};
ghost use Rattle.stun_grammar.specs.Writing.{message_encoding};
ghost use Rattle.stun_base.specs.declared.message_class.MessageClass.TheVariants.{Indication};
ghost use Rattle.stun_base.specs.MessageTypes.{type_of};
ghost use Rattle.stun_values.specs.Addresses.{octets, octets_count};
ghost use Rattle.stun_endpoints.specs.Conversions.{socket_of};
ghost use Rattle.turn_attrs.specs.Heads.{peer_attribute};
ghost use Rattle.turn_attrs.specs.Turn.{ICMP};
ghost use Rattle.turn_server.specs.Icmp.{is_too_large, icmp_of, icmp_value, icmp_indication, IsNotified};

use crate::IcmpDelivery;
use crate::responding::copied;
use std::net::{IpAddr, SocketAddr};
use stun_endpoints::{Endpoint, FiveTuple};
use stun_types::attribute::{AttributeType, EncodeValue};
use stun_types::message::write::{append_encoded, append_value, write_message_header};
use stun_types::message::{MessageClass, MessageType, TransactionId};
use turn_attrs::attribute_types::{ICMP, XOR_PEER_ADDRESS};
use turn_attrs::{IcmpError, XorPeerAddress, methods};

/// The length of the indication about a peer with an IPv6 address; with IPv4 it is 44.
const GREATEST: usize = 56;

/// Whether the datagram was too large for the next hop.
fn is_too_large(family: u8, error: IcmpError) -> bool
    ensures { result ≡ is_too_large family error }
{
    if family == 1 {
        error.icmp_type == 3 && error.code == 4
    } else {
        error.icmp_type == 2
    }
}

/// The data of the ICMP attribute.
fn data_for(family: u8, error: IcmpError) -> u32
    ensures { result ≡ (icmp_of family error).error_data }
{
    if is_too_large(family, error) {
        error.data
    } else {
        0
    }
}

/// The value of the ICMP attribute.
fn value_for(family: u8, error: IcmpError) -> [u8; 8]
    ensures { result ≡ icmp_value (icmp_of family error) }
{
    let data = data_for(family, error).to_be_bytes();
    [
        0,
        0,
        error.icmp_type,
        error.code,
        data[0],
        data[1],
        data[2],
        data[3],
    ]
}

/// An address has 4 or 16 octets. The function does nothing: its contract is the law.
fn octets_are_counted(peer: SocketAddr)
    ensures { length (octets (socket_ip peer)) ≡ octets_count (socket_ip peer) }
{
    match peer.ip() {
        IpAddr::V4(ip) => {
            let _octets = ip.octets();
        }
        IpAddr::V6(ip) => {
            let _octets = ip.octets();
        }
    }
}

/// Writes the indication at the start of a slice, and returns its length.
fn write_indication(id: TransactionId, peer: SocketAddr, value: &[u8], message: &mut [u8]) -> usize
    requires room { length message.old ≡ 56 }
    requires value { length value.now ≡ 8 }
    ensures text { take result message.new
        ≡ message_encoding (type_of Indication 7) id
        (peer_attribute id peer ∷ canonical ICMP value.now ∷ []) }
    ensures bound { result ≤ 56 }
    ensures room { length message.new ≡ 56 }
{
    octets_are_counted(peer);
    let mtype = MessageType::from_class_method(MessageClass::Indication, methods::DATA);
    let address = XorPeerAddress::new(peer, id);
    let len = 24 + address.value_length() as usize;
    write_message_header(mtype, id, message);
    append_encoded(AttributeType(XOR_PEER_ADDRESS), &address, 20, message);
    append_value(AttributeType(ICMP), value, len, message);
    len + 12
}

/// Writes a Data indication about an ICMP packet at the start of `buffer`, and returns where it goes. `None`
/// if the buffer is shorter.
pub(crate) fn notify(
    to: FiveTuple,
    id: TransactionId,
    peer: Endpoint,
    error: IcmpError,
    buffer: &mut [u8],
) -> Option<IcmpDelivery>
    ensures { IsNotified to (icmp_indication id (socket_of peer) (icmp_of peer.ip.family error)) buffer.old
        buffer.new result }
{
    let value = value_for(peer.ip.family, error);
    let mut message = [0; GREATEST];
    let length = write_indication(id, SocketAddr::from(peer), &value, &mut message);
    match copied(&message[..length], buffer) {
        Ok(length) => Some(IcmpDelivery { to, length }),
        Err(_) => None,
    }
}
