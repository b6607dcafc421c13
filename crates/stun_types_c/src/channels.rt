//! Which protocol a packet is of, and ChannelData (RFC 7983 and RFC 8656, section 12.4).

ghost use Rattle.std.specs.Prelude.{◌≡◌};
ghost use Rattle.turn_attrs.specs.Protocols.{protocol};
ghost use Rattle.stun_types_c.specs.Channels.{protocol_number, channel_answer, FramesChannel, ReadsChannel, WritesChannel};

use crate::call_result::{CResult, counted, plain, write_result};
use crate::codes;
use turn_attrs::{
    Channel, ChannelData, ChannelDataError, Protocol, channel_data_length, protocol_of,
};

/// A ChannelData message, as in its bytes.
#[repr(C)]
#[derive(Clone, Copy, Drop)]
pub struct CChannelMessage {
    /// The offset of the data.
    pub data_at: usize,
    /// The number of the channel, 0x4000 to 0x4FFF.
    pub channel: u16,
    /// The length of the data.
    pub length: u16,
}

/// The number of the protocol of a packet that begins with this byte.
#[unsafe(no_mangle)]
pub extern "C" fn stun_types_protocol_of(first: u8) -> u32
    ensures { result ≡ protocol_number (protocol first) }
{
    match protocol_of(first) {
        None => 0,
        Some(Protocol::Stun) => 1,
        Some(Protocol::Zrtp) => 2,
        Some(Protocol::Dtls) => 3,
        Some(Protocol::TurnChannel) => 4,
        Some(Protocol::Rtp) => 5,
        Some(Protocol::Quic) => 6,
    }
}

/// Why bytes are no ChannelData message.
fn channel_answer(error: ChannelDataError) -> CResult
    ensures { result ≡ channel_answer error }
{
    match error {
        ChannelDataError::NotChannelData => plain(codes::NOT_STUN),
        ChannelDataError::Truncated { expected, actual } => {
            counted(codes::TRUNCATED, expected, actual)
        }
        ChannelDataError::TooLarge { expected, actual } => {
            counted(codes::TOO_LARGE, expected, actual)
        }
    }
}

/// How many bytes the ChannelData message has that begins here on a stream; 0 if more bytes are
/// needed to decide.
#[unsafe(no_mangle)]
pub extern "C" fn stun_types_channel_data_length(bytes: &[u8], whole: &mut usize) -> CResult
    ensures { FramesChannel bytes.now result whole.old whole.new }
{
    match channel_data_length(bytes) {
        Ok(Some(length)) => {
            *whole = length;
            plain(codes::OK)
        }
        Ok(None) => {
            *whole = 0;
            plain(codes::OK)
        }
        Err(error) => channel_answer(error),
    }
}

/// Reads a ChannelData message.
#[unsafe(no_mangle)]
pub extern "C" fn stun_types_read_channel_data(
    bytes: &[u8],
    message: &mut CChannelMessage,
) -> CResult
    ensures { ReadsChannel bytes.now result message.old message.new }
{
    match ChannelData::from_bytes(bytes) {
        Ok(read) => {
            *message = CChannelMessage {
                data_at: 4,
                channel: read.channel().number(),
                length: read.data().len() as u16,
            };
            plain(codes::OK)
        }
        Err(error) => channel_answer(error),
    }
}

/// Writes a ChannelData message at the start of a slice, padded to a multiple of 4 if that is
/// asked for.
#[unsafe(no_mangle)]
pub extern "C" fn stun_types_write_channel_data(
    channel: u16,
    data: &[u8],
    padded: bool,
    room: &mut [u8],
    written: &mut usize,
) -> CResult
    ensures { WritesChannel padded channel «data».now result
        (record { slice = room.old; count = written.old })
        (record { slice = room.new; count = written.new }) }
{
    let Some(channel) = Channel::new(channel) else {
        return counted(codes::OUT_OF_RANGE, 0x4FFF, channel as usize);
    };
    let message = match ChannelData::new(channel, data) {
        Ok(message) => message,
        Err(error) => return write_result(error),
    };
    let answer = if padded {
        message.write_padded_into(room)
    } else {
        message.write_into(room)
    };
    match answer {
        Ok(length) => {
            *written = length;
            plain(codes::OK)
        }
        Err(error) => write_result(error),
    }
}
