//! Why no message begins with the bytes of a stream.

ghost use Rattle.std.specs.Prelude.{◌≡◌, ◌≤◌, length, take, MatchResult, None, Some};
ghost use Rattle.stun_grammar.specs.Headers.{begins};
ghost use Rattle.stun_framing.specs.Framing.{room_of, begins_channel, begins_carried, begins_either, stated_length, header_refusal, size_refusal, field_refusal, length_refusal, stream_fault};
ghost use Rattle.stun_framing.specs.Gathering.{wanted_for};

use crate::channel_range::ChannelRange;
use crate::error::StreamFault;
use crate::stream_kind::StreamKind;
use stun_base::{MessageHeader, StunParseError, check_header, number_at, pad_attribute_len};

/// How many bytes state the length of a message: its type, or the number of a channel, and its
/// length field.
pub(crate) const START: usize = 4;

/// The numbers of any channel: the first two bits are 01, those of a STUN message 00 (RFC 5766,
/// section 11).
const ANY_CHANNEL: ChannelRange = ChannelRange::Rfc5766;

/// Whether a header can begin with these bytes.
fn may_begin(bytes: &[u8]) -> bool
    ensures { result ≡ begins bytes.now }
{
    match check_header(bytes) {
        Ok(()) => true,
        Err(refused) => match refused {
            StunParseError::NotStun => false,
            _ => true,
        },
    }
}

/// Whether a ChannelData message on a channel of the range begins with these bytes.
fn begins_channel(range: ChannelRange, bytes: &[u8]) -> bool
    ensures { result ≡ begins_channel range bytes.now }
{
    match bytes.first() {
        Some(first) => range.begins_with(*first),
        None => false,
    }
}

/// Whether a ChannelData message that the stream carries begins with these bytes.
fn begins_carried(carries: StreamKind, bytes: &[u8]) -> bool
    ensures { result ≡ begins_carried carries bytes.now }
{
    match carries {
        StreamKind::Messages => false,
        StreamKind::ChannelDataToo(range) => begins_channel(range, bytes),
    }
}

/// Whether a header of a message that the stream carries can begin with these bytes.
fn begins_either(carries: StreamKind, bytes: &[u8]) -> bool
    ensures { result ≡ begins_either carries bytes.now }
{
    may_begin(bytes) || begins_carried(carries, bytes)
}

/// How many bytes the message has that begins with these.
fn stated_length(bytes: &[u8]) -> usize
    requires { 4 ≤ length bytes.now }
    ensures { result ≡ stated_length bytes.now }
{
    let field = number_at(bytes, 2) as usize;
    if begins_channel(ANY_CHANNEL, bytes) {
        return pad_attribute_len(4 + field);
    }
    MessageHeader::LENGTH + field
}

/// Why no header begins with these bytes, whatever follows them.
fn header_refusal(carries: StreamKind, bytes: &[u8]) -> Option<StreamFault>
    ensures { result ≡ header_refusal carries bytes.now }
{
    if begins_either(carries, bytes) {
        return None;
    }
    Some(StreamFault::NotStun)
}

/// Why there is no room for a message of this length.
fn size_refusal(room: usize, length: usize) -> Option<StreamFault>
    ensures { result ≡ size_refusal room length }
{
    if length > room {
        return Some(StreamFault::TooLong(length));
    }
    None
}

/// Why no STUN message for which there is room has this length field.
fn field_refusal(room: usize, field: u16) -> Option<StreamFault>
    ensures { result ≡ field_refusal room field }
{
    if field % 4 != 0 {
        return Some(StreamFault::NotPadded(field));
    }
    size_refusal(room, MessageHeader::LENGTH + field as usize)
}

/// The same of the length field of these bytes, once it is there.
fn length_refusal(room: usize, bytes: &[u8]) -> Option<StreamFault>
    ensures { result ≡ length_refusal room bytes.now }
{
    if bytes.len() < START {
        return None;
    }
    if begins_channel(ANY_CHANNEL, bytes) {
        return size_refusal(room, stated_length(bytes));
    }
    field_refusal(room, number_at(bytes, 2))
}

/// The first four bytes, as far as they are there.
fn first_four(bytes: &[u8]) -> &[u8]
    ensures { result.now ≡ take 4 bytes.now }
{
    &bytes[..START.min(bytes.len())]
}

/// Why no message for which there is room begins with these bytes.
#[tactic(auto, unfolding(crate::specs::Framing::stream_fault))]
pub(crate) fn stream_fault(carries: StreamKind, room: usize, bytes: &[u8]) -> Option<StreamFault>
    ensures { result ≡ stream_fault (room_of carries room) bytes.now }
{
    header_refusal(carries, first_four(bytes))
        .or_else(|| length_refusal(room, bytes))
        .or_else(|| header_refusal(carries, bytes))
}

/// How many bytes of a message that begins with these are wanted: four, and once they are there, as
/// many as they state.
///
/// # Errors
///
/// Why no message for which there is room begins with them.
pub(crate) fn wanted_length(
    carries: StreamKind,
    room: usize,
    bytes: &[u8],
) -> Result<usize, StreamFault>
    ensures { MatchResult result
        (λ wanted. (stream_fault (room_of carries room) bytes.now ≡ None)
        × (wanted ≡ wanted_for bytes.now))
        (λ fault. stream_fault (room_of carries room) bytes.now ≡ Some fault) }
{
    if let Some(fault) = stream_fault(carries, room, bytes) {
        return Err(fault);
    }
    if bytes.len() < START {
        return Ok(START);
    }
    Ok(stated_length(bytes))
}
