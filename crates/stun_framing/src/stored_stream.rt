//! A stream of messages of which the caller keeps the buffer.

ghost use Rattle.std.specs.Prelude.{◌≡◌, length, take, true, false, Some, None, if◌then◌else◌, MatchOption};
ghost use Rattle.stun_framing.specs.Framing.{room_of};
ghost use Rattle.stun_framing.specs.Fields.{is_all};
ghost use Rattle.stun_framing.specs.Streams.{resumed, can_resume, pushed, left, StandsIn};

use crate::error::StreamError;
use crate::gather::{Gathered, gather, held_part};
use crate::message_stream::{offset_behind, pending_of};
use crate::stream_kind::StreamKind;

/// The result of pushing a piece to a stream of which the caller keeps the buffer.
#[derive(Clone, Copy, Debug, PartialEq, Eq)]
pub struct Pushed {
    /// The length of the start of the piece that was taken, in bytes.
    pub taken: usize,
    /// The offset in the stream of the pending bytes, as [`MessageStream::offset`] returns it.
    ///
    /// [`MessageStream::offset`]: crate::MessageStream::offset
    pub offset: u64,
    /// The length of the start of the buffer that belongs to a message that isn't complete, in
    /// bytes.
    pub pending: usize,
    /// The length in bytes of the message at the start of the buffer, if the piece completed one.
    pub message: Option<usize>,
}

/// How many bytes are the message, if it is complete.
pub(crate) fn whole_length(gathered: Gathered) -> Option<usize>
    ensures { result ≡ (if is_all gathered then Some gathered.held else None) }
{
    if gathered.held == gathered.wanted {
        return Some(gathered.held);
    }
    None
}

/// Takes the bytes at the start of `piece` that belong to the message that is coming, for a caller
/// that keeps the buffer and two numbers, and no stream: as [`MessageStream::push`] does if
/// [`MessageStream::resume`] resumed `held` and `offset`. Both are 0 at first, and then the
/// `pending` and the `offset` of [`Pushed`].
///
/// A complete message is at the start of `buffer` until the next call; otherwise the bytes that
/// are pending are there.
///
/// `None` if `held` isn't what a stream leaves, as for [`MessageStream::resume`]. `buffer` then
/// stays as it was.
///
/// # Errors
///
/// As for [`MessageStream::push`]. The bytes that were pending stay at the start of `buffer`. That
/// the stream has ended is for the caller to keep: a further call looks at its own piece.
///
/// # Examples
///
/// ```
/// use stun_framing::{StreamKind, push_raw};
///
/// // A binding request, whose bytes come in two pieces.
/// let request = b"\x00\x01\x00\x00\x21\x12\xA4\x42\
///                 \xB7\xE7\xA7\x01\xBC\x34\xD6\x86\xFA\x87\xDF\xAE";
/// let mut buffer = [0; 1500];
/// let (mut held, mut offset, mut messages) = (0, 0, 0);
/// for piece in [&request[..7], &request[7..]] {
///     let mut rest = piece;
///     while !rest.is_empty() {
///         let result = push_raw(StreamKind::Messages, &mut buffer, held, offset, rest);
///         let pushed = result.ok_or("no stream left these numbers")??;
///         (held, offset) = (pushed.pending, pushed.offset);
///         rest = &rest[pushed.taken..];
///         if let Some(length) = pushed.message {
///             assert_eq!(rt; &buffer[..length], request.as_slice());
///             messages += 1;
///         }
///     }
/// }
/// assert!(rt; messages == 1 && held == 0 && offset == 20);
/// ```
///
/// [`MessageStream::push`]: crate::MessageStream::push
/// [`MessageStream::resume`]: crate::MessageStream::resume
#[tactic(auto, using(crate::proofs::StoredLemmas::resumed_gathered))]
pub fn push_raw(
    carries: StreamKind,
    buffer: &mut [u8],
    held: usize,
    offset: u64,
    piece: &[u8],
) -> Option<Result<Pushed, StreamError>>
    ensures { let stream = resumed (room_of carries (length buffer.old)) offset
        (take held buffer.old) in
        MatchOption result ((can_resume carries buffer.old held ≡ false) × (buffer.new ≡ buffer.old))
        (λ answered. (can_resume carries buffer.old held ≡ true)
        × (answered ≡ pushed stream piece.now) × StandsIn (left stream piece.now) buffer.new) }
{
    let part = held_part(carries, buffer, held)?;
    Some(match gather(carries, buffer, part, piece) {
        Ok(gathered) => Ok(Pushed {
            taken: gathered.held - held,
            offset: offset_behind(offset, gathered),
            pending: pending_of(gathered).held,
            message: whole_length(gathered),
        }),
        Err(fault) => Err(StreamError { offset, fault }),
    })
}
