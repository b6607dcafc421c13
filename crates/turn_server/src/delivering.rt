//! What is around the data of a peer that goes to a client (RFC 8656, sections 11.3 and 12.4 to 12.7).

ghost use Rattle.std.specs.Prelude.{◌≡◌, length};
ghost use Rattle.turn_attrs.specs.Heads.{data_indication};
ghost use Rattle.turn_server.specs.Delivering.{greatest_to, message_on, message_by, has_channel_head, has_data_head, has_head, WritesHead, DeliversTo};
ghost use Rattle.stun_endpoints.specs.Conversions.{socket_of};

use crate::Delivery;
use std::net::SocketAddr;
use stun_endpoints::{Endpoint, FiveTuple};
use stun_framing::ChannelRange;
use stun_types::message::{GREATEST_MESSAGE, TransactionId};
use turn_allocations::ToClient;
use turn_attrs::{Channel, write_channel_head, write_data_head};

/// The protocol number of UDP.
const UDP: u8 = 17;

/// The length of the greatest message that the transport to a client takes.
fn greatest_to(tuple: &FiveTuple) -> usize
    ensures { result ≡ greatest_to tuple.now }
{
    if tuple.transport != UDP {
        GREATEST_MESSAGE
    } else if tuple.client.ip.family == 1 {
        65507
    } else {
        65527
    }
}

/// What is around the data on a channel; `None` if it is dropped.
fn channel_head(
    tuple: &FiveTuple,
    number: u16,
    data_length: usize,
    head: &mut [u8],
) -> Option<(u16, u16)>
    ensures { WritesHead (has_channel_head tuple.now number data_length (length head.old)) data_length
        (message_on tuple.now number) head.old head.new result }
{
    let channel = Channel::in_range(number, ChannelRange::Rfc5766)?;
    let written = write_channel_head(channel, data_length, greatest_to(tuple), head).ok()?;
    let padding = if tuple.transport == UDP {
        0
    } else {
        written.padding as u16
    };
    Some((written.length as u16, padding))
}

/// What is around the data in a Data indication; `None` if it is dropped.
fn data_head(
    tuple: &FiveTuple,
    id: TransactionId,
    peer: SocketAddr,
    data_length: usize,
    head: &mut [u8],
) -> Option<(u16, u16)>
    ensures { WritesHead (has_data_head tuple.now peer data_length (length head.old)) data_length
        (data_indication id peer) head.old head.new result }
{
    let written = write_data_head(id, peer, data_length, greatest_to(tuple), head).ok()?;
    Some((written.length as u16, written.padding as u16))
}

/// What is around the data that goes to a client; `None` if it is dropped.
fn head_for(
    to: &ToClient,
    id: TransactionId,
    peer: Endpoint,
    data_length: usize,
    head: &mut [u8],
) -> Option<(u16, u16)>
    ensures { WritesHead (has_head to.now.tuple to.now.channel (socket_of peer) data_length (length head.old))
        data_length (message_by to.now.tuple to.now.channel id (socket_of peer)) head.old head.new result }
{
    match to.channel {
        Some(number) => channel_head(&to.tuple, number, data_length, head),
        None => data_head(&to.tuple, id, SocketAddr::from(peer), data_length, head),
    }
}

/// Writes what comes before data of a peer, and returns where it goes. `None` if it is dropped.
pub(crate) fn deliver(
    to: &ToClient,
    id: TransactionId,
    peer: Endpoint,
    length: usize,
    before: &mut [u8],
) -> Option<Delivery>
    ensures { DeliversTo to.now length id (socket_of peer) before.old before.new result }
{
    let (head_length, padding) = head_for(to, id, peer, length, before)?;
    Some(Delivery {
        to: to.tuple,
        head_length,
        padding,
    })
}
