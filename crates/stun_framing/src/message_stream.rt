//! A stream of messages.

ghost use Rattle.std.specs.Prelude.{◌≡◌};
ghost use Rattle.stun_framing.specs.Fields.{pending_of, offset_behind};

use crate::error::StreamError;
use crate::gather::{Gathered, NOTHING, gather, held_part};
use crate::stream_kind::StreamKind;
use std::marker::Model;

/// What is gathered of a message that isn't whole.
pub(crate) fn pending_of(gathered: Gathered) -> Gathered
    ensures { result ≡ pending_of gathered }
{
    if gathered.held == gathered.wanted {
        return NOTHING;
    }
    gathered
}

/// The offset of what comes next, if what is gathered began at `offset`.
pub(crate) fn offset_behind(offset: u64, gathered: Gathered) -> u64
    ensures { result ≡ offset_behind offset gathered }
{
    if gathered.held == gathered.wanted {
        return offset.saturating_add(gathered.held as u64);
    }
    offset
}

/// The messages of a stream of bytes that comes in pieces of any size, as over TCP and TLS: one
/// after the other, with nothing between them (RFC 8489, section 6.2.2). A stream between a TURN
/// client and its server has ChannelData messages among them (RFC 8656, section 12.5); it is made
/// by [`MessageStream::carrying`].
///
/// It gathers the bytes of one message at a time in a buffer of the caller's, where each is copied
/// once, and allocates nothing. What it yields doesn't depend on how the stream was cut.
///
/// # Examples
///
/// ```
/// use stun_framing::MessageStream;
/// use stun_types::message::GREATEST_MESSAGE;
///
/// // A binding request, whose bytes come in two pieces.
/// let request = b"\x00\x01\x00\x00\x21\x12\xA4\x42\
///                 \xB7\xE7\xA7\x01\xBC\x34\xD6\x86\xFA\x87\xDF\xAE";
/// let mut buffer = [0; GREATEST_MESSAGE];
/// let mut stream = MessageStream::new(&mut buffer);
/// let mut messages = 0;
/// for piece in [&request[..7], &request[7..]] {
///     let mut rest = piece;
///     while !rest.is_empty() {
///         let taken = stream.push(rest)?;
///         rest = &rest[taken..];
///         if let Some(message) = stream.message() {
///             assert_eq!(rt; message, request.as_slice());
///             messages += 1;
///         }
///     }
/// }
/// // The connection may end here: no message is cut.
/// assert!(rt; messages == 1 && stream.pending().is_empty());
/// ```
#[derive(Debug, Drop)]
pub struct MessageStream<'b> {
    carries: StreamKind,
    buffer: &'b mut [u8],
    gathered: Gathered,
    offset: u64,
    error: Option<StreamError>,
}

impl<'b> Model for MessageStream<'b> {
    ghost use Rattle.stun_framing.specs.Streams.{Stream};
    ghost use Rattle.stun_framing.specs.Fields.{stream_of, IsStream};

    ghost Value = { Stream };

    ghost view = { λ s. stream_of s.carries s.buffer.now s.gathered s.offset s.error };

    ghost invariant = { λ s. IsStream s.carries s.buffer.now s.gathered s.error };
}

impl<'b> MessageStream<'b> {
    ghost use Rattle.std.specs.Prelude.{◌≡◌, ◌≤◌, ◌<◌, length, take, true, false, Some, None, IfOk, IfSome, MatchOption};
    ghost use Rattle.stun_framing.specs.declared.stream_kind.StreamKind.TheVariants.{Messages};
    ghost use Rattle.stun_framing.specs.Framing.{room_of, IsMessage};
    ghost use Rattle.stun_framing.specs.Streams.{begun, resumed, can_resume, answer, left};

    /// Returns a stream of STUN messages, which gathers them in `buffer`. `buffer` may hold
    /// anything. A message that is longer than it ends the stream.
    ///
    /// # Requires
    ///
    /// `buffer` has at least twenty bytes, those of a header.
    pub fn new(buffer: &'b mut [u8]) -> MessageStream<'b>
        requires { 20 ≤ length buffer.old }
        ensures { result ≡ begun (room_of Messages (length buffer.old)) }
    {
        Self::carrying(StreamKind::Messages, buffer)
    }

    /// Returns a stream of the messages that `carries` names, which gathers them in `buffer`. A
    /// message of [`MessageStream::message`] is ChannelData, with its padding, if its first byte is
    /// 0x40 or more; `ChannelData::from_bytes_in` of `turn_attrs` reads it.
    ///
    /// # Requires
    ///
    /// `buffer` has at least twenty bytes, those of a header.
    ///
    /// # Examples
    ///
    /// ```
    /// use stun_framing::{ChannelRange, MessageStream, StreamKind};
    ///
    /// // Three bytes of data on the channel 0x4000, and one of padding (RFC 8656, section 12.5).
    /// let carries = StreamKind::ChannelDataToo(ChannelRange::Rfc8656);
    /// let mut buffer = [0; 1500];
    /// let mut stream = MessageStream::carrying(carries, &mut buffer);
    /// assert_eq!(rt; stream.push(b"\x40\x00\x00\x03abc\x00"), Ok(8));
    /// assert_eq!(rt; stream.message(), Some(b"\x40\x00\x00\x03abc\x00".as_slice()));
    /// ```
    pub fn carrying(carries: StreamKind, buffer: &'b mut [u8]) -> MessageStream<'b>
        requires { 20 ≤ length buffer.old }
        ensures { result ≡ begun (room_of carries (length buffer.old)) }
    {
        MessageStream {
            carries,
            buffer,
            gathered: NOTHING,
            offset: 0,
            error: None,
        }
    }

    /// Resumes a stream, for a caller that keeps the buffer and two numbers between its calls: the
    /// first `held` bytes of `buffer` are those that [`MessageStream::pending`] returned then, and
    /// `offset` is what [`MessageStream::offset`] returned. A complete message is gone.
    ///
    /// The arguments are tested. `None` if they aren't what a stream leaves: `buffer` has fewer
    /// than twenty bytes, or fewer than `held`; no message begins with those, or none for which
    /// there is room, as [`MessageStream::push`] would answer; or they are a complete message.
    ///
    /// # Examples
    ///
    /// ```
    /// use stun_framing::{StreamKind, MessageStream};
    ///
    /// let mut buffer = [0; 1500];
    /// let mut stream = MessageStream::new(&mut buffer);
    /// stream.push(b"\x00\x01\x00\x00\x21\x12\xA4\x42")?;
    /// let (held, offset) = (stream.pending().len(), stream.offset());
    /// // Later, with the same buffer:
    /// let resumed = MessageStream::resume(StreamKind::Messages, &mut buffer, held, offset);
    /// let mut stream = resumed.ok_or("no stream left these numbers")?;
    /// assert_eq!(rt; stream.push(b"\xB7\xE7\xA7\x01\xBC\x34\xD6\x86\xFA\x87\xDF\xAE"), Ok(12));
    /// assert!(rt; stream.message().is_some_and(|message| message.len() == 20));
    /// ```
    pub fn resume(
        carries: StreamKind,
        buffer: &'b mut [u8],
        held: usize,
        offset: u64,
    ) -> Option<MessageStream<'b>>
        ensures { MatchOption result (can_resume carries buffer.old held ≡ false)
            (λ stream. (can_resume carries buffer.old held ≡ true)
            × (stream ≡ resumed (room_of carries (length buffer.old)) offset
            (take held buffer.old))) }
    {
        match held_part(carries, buffer, held) {
            Some(gathered) => Some(MessageStream {
                carries,
                buffer,
                gathered,
                offset,
                error: None,
            }),
            None => None,
        }
    }

    /// Takes the bytes at the start of `piece` that belong to the message that is coming, and
    /// returns how many these are. [`MessageStream::message`] then has the message, if they made it
    /// whole. The next piece begins with the first byte that wasn't taken.
    ///
    /// All of `piece` is taken, unless a message ends before, and at least one byte if there is
    /// one. A message that an earlier call completed is gone.
    ///
    /// # Errors
    ///
    /// No message begins after the last one: the stream has ended, and each further call returns
    /// this error, and changes nothing. It is returned with the first byte that shows it, whatever
    /// follows:
    ///
    /// - `NotStun` with the first byte, or with one of the magic cookie, the fifth to the eighth of
    ///   a STUN message;
    /// - `NotPadded`, otherwise `TooLong`, with the fourth byte, the last of the length field.
    ///
    /// # Examples
    ///
    /// ```
    /// use stun_framing::{MessageStream, StreamError, StreamFault};
    ///
    /// let mut buffer = [0; 1500];
    /// let mut stream = MessageStream::new(&mut buffer);
    /// // A message of 20 bytes, and the first three of the next one.
    /// let piece = b"\x00\x01\x00\x00\x21\x12\xA4\x42\
    ///               \xB7\xE7\xA7\x01\xBC\x34\xD6\x86\xFA\x87\xDF\xAE\x00\x01\x00";
    /// assert_eq!(rt; stream.push(piece), Ok(20));
    /// assert_eq!(rt; stream.push(&piece[20..]), Ok(3));
    /// // With its fourth byte the length field is 1, which is no multiple of 4.
    /// let error = StreamError { offset: 20, fault: StreamFault::NotPadded(1) };
    /// assert_eq!(rt; stream.push(b"\x01"), Err(error));
    /// ```
    pub fn push(&mut self, piece: &[u8]) -> Result<usize, StreamError>
        ensures answer { result ≡ answer self.old piece.now }
        ensures left { self.new ≡ left self.old piece.now }
        ensures bound { IfOk result (λ taken. taken ≤ length piece.now) }
        ensures progress { IfOk result (λ taken. 0 < length piece.now → 0 < taken) }
    {
        if let Some(error) = self.error {
            return Err(error);
        }
        let pending = pending_of(self.gathered);
        match gather(self.carries, self.buffer, pending, piece) {
            Ok(gathered) => {
                self.offset = offset_behind(self.offset, gathered);
                self.gathered = gathered;
                Ok(gathered.held - pending.held)
            }
            Err(fault) => {
                let error = StreamError {
                    offset: self.offset,
                    fault,
                };
                self.gathered = pending;
                self.error = Some(error);
                Err(error)
            }
        }
    }

    /// Returns the bytes of the message that the last call of [`MessageStream::push`] completed: a
    /// header and as many bytes as it states, and the padding of a ChannelData message. The rest of
    /// a message is for `Message::from_bytes` to judge.
    ///
    /// `None` if that call left a message pending or was refused, and before the first one.
    pub fn message(&self) -> Option<&[u8]>
        ensures is { MatchOption result (self.now.message ≡ None)
            (λ message. self.now.message ≡ Some message.now) }
        ensures whole { IfSome result (λ message. IsMessage self.now.room message.now) }
    {
        if self.gathered.held < self.gathered.wanted {
            return None;
        }
        Some(&self.buffer[..self.gathered.held])
    }

    /// Returns the bytes that have come of a message that isn't complete. If there are none, the
    /// stream may end here; otherwise it was cut within a message.
    ///
    /// Once the stream has ended by an error, these are the bytes before the refused piece.
    ///
    /// # Examples
    ///
    /// ```
    /// use stun_framing::MessageStream;
    ///
    /// let mut buffer = [0; 1500];
    /// let mut stream = MessageStream::new(&mut buffer);
    /// stream.push(b"\x00\x01\x00\x00\x21\x12")?;
    /// // If the connection ends now, a message is cut after six bytes.
    /// assert_eq!(rt; stream.pending(), b"\x00\x01\x00\x00\x21\x12".as_slice());
    /// assert_eq!(rt; stream.message(), None);
    /// ```
    pub fn pending(&self) -> &[u8]
        ensures { result.now ≡ self.now.pending }
    {
        &self.buffer[..pending_of(self.gathered).held]
    }

    /// Returns the offset in the stream, in bytes, at which the pending bytes begin, or the next
    /// byte if there are none: the lengths of all messages that were yielded. `u64::MAX` if they
    /// are more.
    ///
    /// # Examples
    ///
    /// ```
    /// use stun_framing::MessageStream;
    ///
    /// let request = b"\x00\x01\x00\x00\x21\x12\xA4\x42\
    ///                 \xB7\xE7\xA7\x01\xBC\x34\xD6\x86\xFA\x87\xDF\xAE";
    /// let mut buffer = [0; 1500];
    /// let mut stream = MessageStream::new(&mut buffer);
    /// stream.push(request)?;
    /// stream.push(&request[..6])?;
    /// // One message of 20 bytes was yielded, and the pending bytes follow it.
    /// assert!(rt; stream.offset() == 20 && stream.pending().len() == 6);
    /// ```
    pub fn offset(&self) -> u64
        ensures { result ≡ self.now.offset }
    {
        self.offset
    }

    /// Returns the error by which the stream ended, if it did: the one that [`MessageStream::push`]
    /// returns.
    ///
    /// # Examples
    ///
    /// ```
    /// use stun_framing::{MessageStream, StreamError, StreamFault};
    ///
    /// let mut buffer = [0; 1500];
    /// let mut stream = MessageStream::new(&mut buffer);
    /// assert!(rt; stream.push(b"GET / HTTP/1.1").is_err());
    /// let error = StreamError { offset: 0, fault: StreamFault::NotStun };
    /// assert_eq!(rt; stream.error(), Some(error));
    /// ```
    pub fn error(&self) -> Option<StreamError>
        ensures { result ≡ self.now.error }
    {
        self.error
    }
}
