//! ICMP errors about packets to peers (RFC 8656, section 11.6), and the tokens of reservations.

ghost use Rattle.std.specs.Prelude.{◌≡◌};
ghost use Rattle.stun_base.specs.MessageTypes.{class_of, method_of};
ghost use Rattle.stun_grammar.specs.Headers.{type_field};
ghost use Rattle.stun_types.specs.Message.{message_bytes};
ghost use Rattle.turn_client_messages.specs.PeerErrors.{error_shown, error_by, error_of, peer_error, reservation_token};

use crate::understood::is_understood;
use crate::values::{icmp_error_in, token_in, xored_in};
use stun_endpoints::Endpoint;
use stun_types::message::{Message, MessageClass};
use turn_attrs::attribute_types::XOR_PEER_ADDRESS;
use turn_attrs::{IcmpError, methods};

/// An ICMP error about a packet to a peer, as the server reports it.
#[derive(Clone, Copy, Debug, PartialEq, Eq)]
pub struct PeerError {
    /// The peer. Its port is 0 if the server doesn't know it. By its family the type and the code of
    /// the error have a meaning.
    pub peer: Endpoint,
    /// The type, the code and the data of the ICMP message (section 18.13).
    pub error: IcmpError,
}

/// The peer and the error that an indication shows.
fn error_shown(message: &Message<'_>) -> Option<PeerError>
    ensures { result ≡ error_shown (message_bytes message.now) }
{
    let peer = xored_in(message, XOR_PEER_ADDRESS)?;
    let error = icmp_error_in(message)?;
    Some(PeerError { peer, error })
}

/// The error that an indication reports.
fn error_by(message: &Message<'_>) -> Option<PeerError>
    ensures { let d = message_bytes message.now in result ≡ error_by (method_of (type_field d)) d }
{
    if message.method() == methods::DATA && is_understood(message) {
        return error_shown(message);
    }
    None
}

/// Returns the ICMP error that a Data indication reports (RFC 8656, sections 11.5 and 11.6): it shows
/// XOR-PEER-ADDRESS and ICMP, and no type below 0x8000 but those of
/// [`UNDERSTOOD`](crate::UNDERSTOOD). [`judge`](crate::judge) returns [`Judged::Stray`](crate::Judged::Stray)
/// for it: it is never data. It takes no memory.
///
/// # Examples
///
/// ```
/// use turn_attrs::IcmpError;
/// use turn_client_messages::peer_error;
///
/// // A packet to 192.0.2.150 was too long for a hop that takes 1400 bytes.
/// let indication = b"\x00\x17\x00\x18\x21\x12\xA4\x42\0\0\0\0\0\0\0\0\0\0\0\x07\
///                    \x00\x12\x00\x08\x00\x01\x21\x12\xE1\x12\xA6\xD4\
///                    \x80\x04\x00\x08\x00\x00\x03\x04\x00\x00\x05\x78";
/// let reported = peer_error(indication).ok_or("no error")?;
/// assert_eq!(rt; reported.peer.ip.number, 0xC000_0296);
/// assert_eq!(rt; reported.error, IcmpError { icmp_type: 3, code: 4, data: 1400 });
/// ```
pub fn peer_error(datagram: &[u8]) -> Option<PeerError>
    ensures { result ≡ peer_error datagram.now }
{
    let message = Message::from_bytes(datagram).ok()?;
    match message.class() {
        MessageClass::Indication => error_by(&message),
        MessageClass::Request | MessageClass::Success | MessageClass::Error => None,
    }
}

/// Returns the token of the reservation that a response to an Allocate request has (RFC 8656, sections
/// 7.3 and 18.10), big-endian as a number; `None` if the datagram doesn't parse, or shows no
/// RESERVATION-TOKEN of eight bytes. Whether the response is authentic, [`judge`](crate::judge) says.
pub fn reservation_token(datagram: &[u8]) -> Option<u64>
    ensures { result ≡ reservation_token datagram.now }
{
    token_in(&Message::from_bytes(datagram).ok()?)
}
