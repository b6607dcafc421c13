//! A stream of messages whose bytes are read straight to their places in the caller's buffer.

ghost use Rattle.std.specs.Prelude.{◌≡◌, ◌+◌, ◌-◌, ◌≤◌, ◌++◌, length, take, drop, true, false, IfOk, MatchOption, MatchResult};
ghost use Rattle.stun_framing.specs.Framing.{room_of};
ghost use Rattle.stun_framing.specs.Gathering.{wanted_for, IsGathered, HoldsFirst, Refuses};
ghost use Rattle.stun_framing.specs.Streams.{resumed, can_resume, can_receive, pushed, left, StandsIn};

use crate::error::{StreamError, StreamFault};
use crate::fault::wanted_length;
use crate::gather::{Gathered, held_part};
use crate::message_stream::{offset_behind, pending_of};
use crate::stored_stream::{Pushed, whole_length};
use crate::stream_kind::StreamKind;

/// Returns how many bytes of a stream may be read to the place after the first `held` bytes of
/// `buffer`, with no copy: those that are missing of the message that is coming, or of its first
/// four, which state its length. At least one; `buffer` has room for them. [`receive_raw`] then
/// takes those that came.
///
/// `None` if `held` isn't what a stream leaves, as for
/// [`MessageStream::resume`](crate::MessageStream::resume).
///
/// # Examples
///
/// ```
/// use stun_framing::{StreamKind, missing_raw};
///
/// let mut buffer = [0; 1500];
/// assert_eq!(rt; missing_raw(StreamKind::Messages, &buffer, 0), Some(4));
/// // The first four bytes of a message of 20 + 8 bytes.
/// buffer[..4].copy_from_slice(b"\x00\x01\x00\x08");
/// assert_eq!(rt; missing_raw(StreamKind::Messages, &buffer, 4), Some(24));
/// ```
pub fn missing_raw(carries: StreamKind, buffer: &[u8], held: usize) -> Option<usize>
    ensures { MatchOption result (can_resume carries buffer.now held ≡ false)
        (λ missing. (can_resume carries buffer.now held ≡ true)
        × (missing ≡ wanted_for (take held buffer.now) - held)) }
{
    let part = held_part(carries, buffer, held)?;
    Some(part.wanted - held)
}

/// Looks at what is gathered of a message, with `count` more bytes that were read after it.
fn gather_read(
    carries: StreamKind,
    buffer: &[u8],
    gathered: Gathered,
    count: usize,
) -> Result<Gathered, StreamFault>
    requires within { gathered.held + count ≤ gathered.wanted }
    requires gathered { IsGathered (room_of carries (length buffer.now))
        (take gathered.held buffer.now) gathered.wanted }
    requires there { gathered.held + count ≤ length buffer.now }
    ensures count { IfOk result (λ new. new.held ≡ gathered.held + count) }
    ensures first { let piece = take count (drop gathered.held buffer.now) in MatchResult result
        (λ new. HoldsFirst carries (take gathered.held buffer.now ++ piece) new buffer.now)
        (λ fault. Refuses carries gathered.held piece fault buffer.now buffer.now) }
{
    let held = gathered.held + count;
    match wanted_length(carries, buffer.len(), &buffer[..held]) {
        Ok(wanted) => Ok(Gathered { held, wanted }),
        Err(fault) => Err(fault),
    }
}

/// Takes the `count` bytes that were read to the place after the first `held` bytes of `buffer`, as
/// [`push_raw`](crate::push_raw) takes a piece: the result is the same, and `taken` is `count`.
///
/// `None` if `held` isn't what a stream leaves, or `count` is more than [`missing_raw`] returns.
///
/// # Errors
///
/// As for [`push_raw`](crate::push_raw).
///
/// # Examples
///
/// ```
/// use stun_framing::{StreamKind, missing_raw, receive_raw};
///
/// // A binding request, which comes from a socket.
/// let mut socket = b"\x00\x01\x00\x00\x21\x12\xA4\x42\
///                    \xB7\xE7\xA7\x01\xBC\x34\xD6\x86\xFA\x87\xDF\xAE"
///     .as_slice();
/// let mut buffer = [0; 1500];
/// let (mut held, mut offset, mut messages) = (0, 0, 0);
/// while !socket.is_empty() {
///     let missing = missing_raw(StreamKind::Messages, &buffer, held).ok_or("no stream")?;
///     let count = missing.min(socket.len());
///     buffer[held..held + count].copy_from_slice(&socket[..count]);
///     socket = &socket[count..];
///     let result = receive_raw(StreamKind::Messages, &buffer, held, offset, count);
///     let received = result.ok_or("no stream")??;
///     (held, offset) = (received.pending, received.offset);
///     if received.message == Some(20) {
///         messages += 1;
///     }
/// }
/// assert!(rt; messages == 1 && held == 0 && offset == 20);
/// ```
pub fn receive_raw(
    carries: StreamKind,
    buffer: &[u8],
    held: usize,
    offset: u64,
    count: usize,
) -> Option<Result<Pushed, StreamError>>
    ensures { let stream = resumed (room_of carries (length buffer.now)) offset
        (take held buffer.now) in
        let piece = take count (drop held buffer.now) in
        MatchOption result (can_receive carries buffer.now held count ≡ false)
        (λ answered. (can_receive carries buffer.now held count ≡ true)
        × (answered ≡ pushed stream piece) × StandsIn (left stream piece) buffer.now) }
{
    let part = held_part(carries, buffer, held)?;
    if part.wanted - held < count {
        return None;
    }
    Some(match gather_read(carries, buffer, part, count) {
        Ok(gathered) => Ok(Pushed {
            taken: count,
            offset: offset_behind(offset, gathered),
            pending: pending_of(gathered).held,
            message: whole_length(gathered),
        }),
        Err(fault) => Err(StreamError { offset, fault }),
    })
}
