//! The messages of a stream that comes in pieces.

ghost use Rattle.std.specs.Prelude.{◌≡◌};
ghost use Rattle.stun_types_c.specs.Streams.{kind_numbered, fault_result, PushesPiece};

use crate::call_result::{CResult, counted, plain};
use crate::codes;
use stun_framing::{ChannelRange, StreamFault, StreamKind, push_raw};

/// A stream, as C keeps it.
#[repr(C)]
#[derive(Clone, Copy, Drop)]
pub struct CStream {
    /// The offset in the stream of the bytes that are pending.
    pub offset: u64,
    /// How many bytes at the start of the buffer belong to a message that isn't whole.
    pub pending: usize,
    /// How many bytes the message there has that the last call completed, or 0.
    pub message: usize,
    /// The number of what the stream carries: 0 for STUN messages alone, and 1 for ChannelData too,
    /// or 2 for ChannelData on channels of RFC 5766.
    pub carries: u32,
    /// 0.
    pub reserved: u32,
}

/// What a stream carries, by its number.
fn kind_numbered(number: u32) -> Option<StreamKind>
    ensures { result ≡ kind_numbered number }
{
    match number {
        0 => Some(StreamKind::Messages),
        1 => Some(StreamKind::ChannelDataToo(ChannelRange::Rfc8656)),
        2 => Some(StreamKind::ChannelDataToo(ChannelRange::Rfc5766)),
        _ => None,
    }
}

/// Why no message begins after the last one.
fn fault_result(fault: StreamFault, size: usize) -> CResult
    ensures { result ≡ fault_result size fault }
{
    match fault {
        StreamFault::NotStun => plain(codes::NOT_STUN),
        StreamFault::NotPadded(field) => counted(codes::NOT_PADDED, 0, field as usize),
        StreamFault::TooLong(stated) => counted(codes::TOO_LARGE, size, stated),
    }
}

/// Takes the bytes at the start of a piece that belong to the message that is coming.
#[unsafe(no_mangle)]
pub extern "C" fn stun_types_stream_push(
    kept: &mut CStream,
    buffer: &mut [u8],
    piece: &[u8],
    taken: &mut usize,
) -> CResult
    ensures { PushesPiece piece.now buffer.old buffer.new result kept.old kept.new
        taken.old taken.new }
{
    if kept.reserved != 0 {
        return plain(codes::BAD_ARGUMENT);
    }
    let Some(carries) = kind_numbered(kept.carries) else {
        return plain(codes::BAD_ARGUMENT);
    };
    let size = buffer.len();
    let Some(answer) = push_raw(carries, buffer, kept.pending, kept.offset, piece) else {
        return plain(codes::BAD_ARGUMENT);
    };
    match answer {
        Ok(pushed) => {
            *taken = pushed.taken;
            *kept = CStream {
                offset: pushed.offset,
                pending: pushed.pending,
                message: pushed.message.unwrap_or(0),
                carries: kept.carries,
                reserved: 0,
            };
            plain(codes::OK)
        }
        Err(error) => {
            kept.message = 0;
            fault_result(error.fault, size)
        }
    }
}
