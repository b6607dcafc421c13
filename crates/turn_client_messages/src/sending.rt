//! What is around data for a peer (RFC 8656, sections 11.1, 12.4 and 12.5).

ghost use Rattle.std.specs.Prelude.{◌≡◌, length, MatchResult, None, Some};
ghost use Rattle.turn_client_messages.specs.Heads.{channel_text, carried, Surrounds, head_fault_of};
ghost use Rattle.turn_attrs.specs.Heads.{channel_head_fault};

use crate::whole::write_whole_head;
use std::net::SocketAddr;
use stun_endpoints::Endpoint;
use stun_types::TransportType;
use stun_types::message::{StunWriteError, TransactionId};
use turn_attrs::{Channel, Head, write_channel_head, write_send_head};

/// The message that carries data to a peer.
#[derive(Clone, Copy, Debug, PartialEq, Eq)]
pub enum Carrier {
    /// A ChannelData message on this channel (RFC 8656, section 12.5).
    Channel(Channel),
    /// A Send indication (section 11.1).
    Indication {
        /// Its transaction ID.
        id: TransactionId,
        /// The peer.
        peer: Endpoint,
    },
    /// A Send indication with DONT-FRAGMENT (sections 11.1 and 18.9), which is the first attribute.
    Whole {
        /// Its transaction ID.
        id: TransactionId,
        /// The peer.
        peer: Endpoint,
    },
}

/// Writes the head of a ChannelData message.
fn write_channel(
    transport: TransportType,
    channel: Channel,
    data_length: usize,
    greatest: usize,
    before: &mut [u8],
) -> Result<Head, StunWriteError>
    ensures { MatchResult result
        (λ head. (channel_head_fault data_length greatest (length before.old) ≡ None)
        × Surrounds data_length (channel_text transport channel) before.old before.new head)
        (λ e. (channel_head_fault data_length greatest (length before.old) ≡ Some e)
        × (before.new ≡ before.old)) }
{
    let head = write_channel_head(channel, data_length, greatest, before)?;
    match transport {
        TransportType::Udp => Ok(Head {
            length: head.length,
            padding: 0,
        }),
        TransportType::Tcp => Ok(head),
    }
}

/// Writes the head of the message that carries `data_length` bytes of data to a peer, at the end of
/// `before`, for data that follows it in place. What is before the head stays. As many zeros as the
/// `padding` of the result follow the data: none after ChannelData over UDP, otherwise as many as
/// make its length a multiple of 4 (RFC 8656, section 12.5, and RFC 8489, section 14).
///
/// The head has four bytes before ChannelData, and in a Send indication 36 for a peer with an IPv4
/// address and 48 with IPv6, and four more with DONT-FRAGMENT. `greatest` is the length of the greatest message that the transport to
/// the server takes, in bytes: 65507 over UDP and IPv4, 65527 over UDP and IPv6, and on a stream
/// [`GREATEST_MESSAGE`](stun_types::message::GREATEST_MESSAGE).
///
/// # Errors
///
/// Those of [`write_channel_head`] and [`write_send_head`]; a `TooLarge` with DONT-FRAGMENT counts its
/// four bytes neither in `expected` nor in `actual`. `before` stays as it was then.
///
/// # Examples
///
/// ```
/// use stun_types::TransportType;
/// use turn_attrs::{Channel, Head};
/// use turn_client_messages::{Carrier, write_head};
///
/// let channel = Channel::new(0x4001).ok_or("no channel")?;
/// let mut buffer = *b"....hello";
/// let (before, _) = buffer.split_at_mut(4);
/// let head = write_head(TransportType::Udp, Carrier::Channel(channel), 5, 65507, before)?;
/// assert_eq!(rt; head, Head { length: 4, padding: 0 });
/// assert_eq!(rt; buffer.as_slice(), b"\x40\x01\x00\x05hello".as_slice());
/// ```
pub fn write_head(
    transport: TransportType,
    carrier: Carrier,
    data_length: usize,
    greatest: usize,
    before: &mut [u8],
) -> Result<Head, StunWriteError>
    ensures { MatchResult result
        (λ head. (head_fault_of carrier data_length greatest (length before.old) ≡ None)
        × Surrounds data_length (carried transport carrier) before.old before.new head)
        (λ e. (head_fault_of carrier data_length greatest (length before.old) ≡ Some e)
        × (before.new ≡ before.old)) }
{
    match carrier {
        Carrier::Channel(channel) => {
            write_channel(transport, channel, data_length, greatest, before)
        }
        Carrier::Indication { id, peer } => {
            write_send_head(id, SocketAddr::from(peer), data_length, greatest, before)
        }
        Carrier::Whole { id, peer } => {
            write_whole_head(id, SocketAddr::from(peer), data_length, greatest, before)
        }
    }
}
