//! The heads of ChannelData messages and of Send and Data indications, written before data that is in
//! place.

ghost use Rattle.std.specs.Prelude.{◌≡◌, ◌+◌, ◌-◌, ◌^◌, ◌<◌, ◌≤◌, ◌++◌, length, take, drop, ℕ, List, IfOk, OnOk, MatchResult, Some, None};
ghost use Rattle.std.specs.Net.Socket.{socket_ip};
ghost use Rattle.stun_grammar.specs.Adding.{grown_length};
ghost use Rattle.stun_grammar.specs.Writing.{greatest_length};
ghost use Rattle.stun_values.specs.Addresses.{octets, octets_count};
ghost use Rattle.turn_attrs.specs.ChannelMessages.{channel_message};
ghost use Rattle.turn_attrs.specs.Heads.{padding_of, padded_message, peer_indication, send_indication, data_indication, IsHead, data_head_length, head_fault, channel_head_fault, data_head_fault, value_header, opened, peer_head};

use crate::attribute_types::{DATA, XOR_PEER_ADDRESS};
use crate::{Channel, XorPeerAddress, methods};
use std::net::{IpAddr, SocketAddr};
use stun_types::attribute::{AttributeHeader, AttributeType, EncodeValue, pad_attribute_len};
use stun_types::message::write::{append_encoded, write_message_header};
use stun_types::message::{MessageClass, MessageType, Method, StunWriteError, TransactionId};

/// What is around data: a head before it, at the end of the slice that it was written into, and
/// zeros after it.
#[derive(Clone, Copy, Debug, PartialEq, Eq)]
pub struct Head {
    /// How many bytes the head has.
    pub length: usize,
    /// How many zeros follow the data: 0 to 3.
    pub padding: usize,
}

/// How many zeros follow so many bytes.
fn padding_of(data_length: usize) -> usize
    ensures value { result ≡ padding_of data_length }
    ensures few { result < 4 }
{
    (4 - data_length % 4) % 4
}

/// How many bytes the head of a Send or Data indication has.
fn data_head_length(peer: SocketAddr) -> usize
    ensures value { result ≡ data_head_length peer }
    ensures octets { length (octets (socket_ip peer)) ≡ octets_count (socket_ip peer) }
    ensures bound { result ≤ 48 }
{
    match peer.ip() {
        IpAddr::V4(ip) => 32 + ip.octets().len(),
        IpAddr::V6(ip) => 32 + ip.octets().len(),
    }
}

/// Tests that a head of `own` bytes can be written before the data.
fn check_head(
    own: usize,
    padding: usize,
    data_length: usize,
    greatest: usize,
    room: usize,
) -> Result<(), StunWriteError>
    requires own { own ≤ 48 }
    requires padding { padding < 4 }
    ensures { MatchResult result
        (λ _. head_fault own padding data_length greatest room ≡ None)
        (λ e. head_fault own padding data_length greatest room ≡ Some e) }
{
    if data_length > 65535 {
        return Err(StunWriteError::TooLarge {
            expected: 65535,
            actual: data_length,
        });
    }
    let expected = greatest.min(65555);
    let actual = own + data_length + padding;
    if actual > expected {
        return Err(StunWriteError::TooLarge { expected, actual });
    }
    if room < own {
        return Err(StunWriteError::TooSmall {
            expected: own,
            actual: room,
        });
    }
    Ok(())
}

/// Writes the head of a ChannelData message at the end of `before`, four bytes, for `data_length`
/// bytes of data that follow it in place: the number of the channel and the length of the data in
/// two bytes each, big-endian (RFC 8656, section 12.4). What is before the head stays.
///
/// Over TCP and TLS the `padding` of the result follows the data, as zeros (section 12.5). Over UDP
/// it may, and nothing has to.
///
/// `greatest` is the length of the greatest message that the transport to the client takes, in
/// bytes: 65507 over UDP and IPv4, 65527 over UDP and IPv6, and on a stream
/// [`GREATEST_MESSAGE`](stun_types::message::GREATEST_MESSAGE). The padding doesn't count.
///
/// # Errors
///
/// The first of these that applies. `before` stays as it was then.
///
/// - `TooLarge { expected: 65535, actual }` if there are more than 65535 bytes of data;
/// - `TooLarge { expected, actual }` if the head and the data are longer than `greatest`;
/// - `TooSmall { expected: 4, actual }` if `before` has fewer than four bytes.
///
/// # Examples
///
/// ```
/// use turn_attrs::{Channel, Head, write_channel_head};
///
/// let channel = Channel::new(0x4001).ok_or("no channel")?;
/// // A datagram of a peer was received behind room for a head.
/// let mut buffer = *b"....hello...";
/// let (before, _) = buffer.split_at_mut(4);
/// let head = write_channel_head(channel, 5, 65507, before)?;
/// assert_eq!(rt; head, Head { length: 4, padding: 3 });
/// assert_eq!(rt; &buffer[..9], b"\x40\x01\x00\x05hello".as_slice());
/// ```
pub fn write_channel_head(
    channel: Channel,
    data_length: usize,
    greatest: usize,
    before: &mut [u8],
) -> Result<Head, StunWriteError>
    ensures four { IfOk result (λ head. head.length ≡ 4) }
    ensures in_a_datagram { OnOk result ((bytes : List ℕ) → length bytes ≡ data_length
        → drop (length before.old - 4) before.new ++ bytes ≡ channel_message channel bytes) }
    ensures on_a_stream { MatchResult result
        (λ head. (channel_head_fault data_length greatest (length before.old) ≡ None)
        × IsHead data_length (padded_message channel) before.old before.new head)
        (λ e. (channel_head_fault data_length greatest (length before.old) ≡ Some e)
        × (before.new ≡ before.old)) }
{
    check_head(4, 0, data_length, greatest, before.len())?;
    let header = AttributeHeader {
        atype: AttributeType(channel.number()),
        length: data_length as u16,
    };
    let from = before.len() - 4;
    header.write_into(&mut before[from..]);
    Ok(Head {
        length: 4,
        padding: padding_of(data_length),
    })
}

/// The header of an attribute whose value has `data_length` bytes.
#[tactic(auto, unfolding(crate::specs::Heads::value_header))]
fn value_header(atype: AttributeType, data_length: u16) -> [u8; 4]
    ensures { result ≡ value_header atype.0 data_length }
{
    let mut bytes = [0; 4];
    let header = AttributeHeader {
        atype,
        length: data_length,
    };
    header.write_into(&mut bytes);
    bytes
}

/// Copies bytes to the place after the first `at` bytes of `message`.
fn copy_at(message: &mut [u8], at: usize, bytes: &[u8])
    requires { at + length bytes.now ≤ length message.old }
    ensures { message.new
        ≡ take at message.old ++ bytes.now ++ drop (at + length bytes.now) message.old }
{
    message[at..at + bytes.len()].copy_from_slice(bytes);
}

/// Writes the header of an attribute, whose value of `data_length` bytes follows, after the first
/// `len` bytes of `message`, and sets the length field of the message.
fn open_attribute(atype: AttributeType, data_length: u16, len: usize, message: &mut [u8])
    requires header { 20 ≤ len }
    requires room { len + 4 ≤ length message.old }
    requires fits { grown_length len data_length ≤ greatest_length }
    ensures { message.new ≡ opened (take len message.old) atype.0 data_length
        ++ drop (len + 4) message.old }
{
    let field = len + 4 + pad_attribute_len(data_length as usize) - 20;
    let header = value_header(atype, data_length);
    copy_at(message, len, &header);
    let stated = (field as u16).to_be_bytes();
    copy_at(message, 2, &stated);
}

/// Writes the header of an indication, the peer's address and the header of DATA at the start of
/// `head`.
#[tactic(auto, using(crate::proofs::HeadsLemmas::octets_kept, crate::proofs::HeadsLemmas::few_octets))]
fn write_peer_start(
    method: Method,
    id: TransactionId,
    peer: SocketAddr,
    data_length: u16,
    head: &mut [u8],
)
    requires room { data_head_length peer ≤ length head.old }
    requires fits { data_head_length peer + data_length + padding_of data_length ≤ greatest_length }
    requires octets { length (octets (socket_ip peer)) ≡ octets_count (socket_ip peer) }
    ensures { head.new
        ≡ peer_head method id peer data_length ++ drop (data_head_length peer) head.old }
{
    let mtype = MessageType::from_class_method(MessageClass::Indication, method);
    let address = XorPeerAddress::new(peer, id);
    let len = 24 + address.value_length() as usize;
    write_message_header(mtype, id, head);
    append_encoded(AttributeType(XOR_PEER_ADDRESS), &address, 20, head);
    open_attribute(AttributeType(DATA), data_length, len, head);
}

/// Writes the head of an indication of a method at the end of `before`.
fn write_peer_head(
    method: Method,
    id: TransactionId,
    peer: SocketAddr,
    data_length: usize,
    greatest: usize,
    before: &mut [u8],
) -> Result<Head, StunWriteError>
    ensures own { IfOk result (λ head. head.length ≡ data_head_length peer) }
    ensures in_place { MatchResult result
        (λ head. (data_head_fault peer data_length greatest (length before.old) ≡ None)
        × IsHead data_length (peer_indication method id peer) before.old before.new head)
        (λ e. (data_head_fault peer data_length greatest (length before.old) ≡ Some e)
        × (before.new ≡ before.old)) }
{
    let own = data_head_length(peer);
    let padding = padding_of(data_length);
    check_head(own, padding, data_length, greatest, before.len())?;
    let from = before.len() - own;
    write_peer_start(method, id, peer, data_length as u16, &mut before[from..]);
    Ok(Head {
        length: own,
        padding,
    })
}

/// Writes the head of a Send indication at the end of `before`, for `data_length` bytes of data that
/// follow it in place, as a client sends them to a peer: 36 bytes for a peer with an IPv4 address, and
/// 48 with IPv6. It has the header of the message, XOR-PEER-ADDRESS, and the type and the length of
/// DATA (RFC 8656, section 11.1); no DONT-FRAGMENT. What is before the head stays.
///
/// The `padding` of the result follows the data, as zeros, on every transport.
///
/// `greatest` is as for [`write_channel_head`], of the transport to the server; the padding counts.
///
/// # Errors
///
/// Those of [`write_data_head`]. `before` stays as it was then.
///
/// # Examples
///
/// ```
/// use std::net::SocketAddr;
/// use stun_types::message::{Message, TransactionId};
/// use turn_attrs::{Head, PeerData, methods, write_send_head};
///
/// let peer: SocketAddr = "192.0.2.210:49191".parse()?;
/// // The data is after 48 bytes, and zeros follow it.
/// let mut buffer = [0; 56];
/// buffer[48..53].copy_from_slice(b"hello");
/// let (before, _) = buffer.split_at_mut(48);
/// let head = write_send_head(TransactionId::from(7), peer, 5, 65507, before)?;
/// assert_eq!(rt; head, Head { length: 36, padding: 3 });
/// // The message is the 44 bytes from offset 12 on.
/// let message = Message::from_bytes(&buffer[12..])?;
/// assert!(rt; message.has_method(methods::SEND));
/// assert_eq!(rt; message.attribute::<PeerData>(alloc)?.data(), b"hello".as_slice());
/// ```
pub fn write_send_head(
    id: TransactionId,
    peer: SocketAddr,
    data_length: usize,
    greatest: usize,
    before: &mut [u8],
) -> Result<Head, StunWriteError>
    ensures own { IfOk result (λ head. head.length ≡ data_head_length peer) }
    ensures in_place { MatchResult result
        (λ head. (data_head_fault peer data_length greatest (length before.old) ≡ None)
        × IsHead data_length (send_indication id peer) before.old before.new head)
        (λ e. (data_head_fault peer data_length greatest (length before.old) ≡ Some e)
        × (before.new ≡ before.old)) }
{
    write_peer_head(methods::SEND, id, peer, data_length, greatest, before)
}

/// Writes the head of a Data indication at the end of `before`, for `data_length` bytes of data that
/// follow it in place: 36 bytes for a peer with an IPv4 address, and 48 with IPv6. It has the header
/// of the message, XOR-PEER-ADDRESS, and the type and the length of DATA (RFC 8656, section 11.3).
/// What is before the head stays.
///
/// The `padding` of the result follows the data, as zeros, on every transport.
///
/// `greatest` is as for [`write_channel_head`]; the padding counts.
///
/// # Errors
///
/// The first of these that applies. `before` stays as it was then.
///
/// - `TooLarge { expected: 65535, actual }` if there are more than 65535 bytes of data;
/// - `TooLarge { expected, actual }` if the message is longer than `greatest`, or than 65555 bytes,
///   a header and what its length field can state;
/// - `TooSmall { expected, actual }` if `before` has fewer than 36 or 48 bytes.
///
/// # Examples
///
/// ```
/// use std::net::SocketAddr;
/// use stun_types::message::TransactionId;
/// use turn_attrs::{Head, write_data_head};
///
/// let peer: SocketAddr = "192.0.2.210:49191".parse()?;
/// // A datagram of the peer was received after 48 bytes.
/// let mut buffer = [0; 1500];
/// let (before, _) = buffer.split_at_mut(48);
/// let head = write_data_head(TransactionId::from(7), peer, 5, 65507, before)?;
/// assert_eq!(rt; head, Head { length: 36, padding: 3 });
/// // The message is the 44 bytes from offset 12 on.
/// assert_eq!(rt; &buffer[12..16], b"\x00\x17\x00\x18".as_slice());
/// assert_eq!(rt; &buffer[44..48], b"\x00\x13\x00\x05".as_slice());
/// ```
pub fn write_data_head(
    id: TransactionId,
    peer: SocketAddr,
    data_length: usize,
    greatest: usize,
    before: &mut [u8],
) -> Result<Head, StunWriteError>
    ensures own { IfOk result (λ head. head.length ≡ data_head_length peer) }
    ensures in_place { MatchResult result
        (λ head. (data_head_fault peer data_length greatest (length before.old) ≡ None)
        × IsHead data_length (data_indication id peer) before.old before.new head)
        (λ e. (data_head_fault peer data_length greatest (length before.old) ≡ Some e)
        × (before.new ≡ before.old)) }
{
    write_peer_head(methods::DATA, id, peer, data_length, greatest, before)
}
