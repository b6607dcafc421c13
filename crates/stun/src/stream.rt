//! A run of the program over a stream of requests, over any reader and writer.

ghost use Rattle.std.specs.Prelude.{◌≡◌, ℕ, ◌<◌, List, [], length, Option, Err, MatchResult};
ghost use Rattle.std.specs.Io.KnownBytes.{Keeps, Appends};
ghost use Rattle.stun_framing.specs.Streams.{begun};
ghost use Rattle.stun.specs.StreamRun.{room, answer_to, EndsStream};
ghost use Rattle.stun.specs.StreamSteps.{end_of, Gives, Fails, Takes, Stops, Serving};

use crate::end::{RunEnd, StunError};
use std::alloc::Global;
use std::io::{ErrorKind, Read, Write};
use std::net::SocketAddr;
use stun_framing::MessageStream;
use stun_programs::{RunError, write_all};
use stun_server::reply;
use stun_types::message::GREATEST_MESSAGE;

/// Reads what is there, or waits for it. A read that is interrupted is tried again.
pub fn read_piece<R: Read>(reader: &mut R, piece: &mut [u8]) -> Result<usize, RunError>
    requires { 0 < length piece.old }
    ensures { MatchResult result
        (λ count. Gives (R.remaining reader.old) (R.remaining reader.new) count piece.new)
        (λ error. (error ≡ RunError.ReadFailed)
        × Keeps (R.remaining reader.old) (R.remaining reader.new)) }
{
    for _turn in 0..u64::MAX {
        match reader.read(piece) {
            Ok(count) => return Ok(count),
            Err(e) => {
                if e.kind() != ErrorKind::Interrupted {
                    return Err(RunError::ReadFailed);
                }
            }
        }
    }
    Err(RunError::ReadFailed)
}

/// Writes the reply to a message, if it gets one.
fn answer<W: Write>(
    alloc: Global,
    source: SocketAddr,
    message: &[u8],
    writer: &mut W,
) -> Result<(), RunError>
    ensures { MatchResult result
        (λ _. Appends (W.contents writer.old) (W.contents writer.new)
        (answer_to source message.now))
        (λ error. Fails error (W.contents writer.old) (W.contents writer.new)
        (answer_to source message.now)) }
{
    match reply(alloc, source, message) {
        Ok(Some(text)) => Ok(write_all(&text, writer)?),
        Ok(None) => Ok(()),
        Err(_) => Err(RunError::NoMemory),
    }
}

/// Passes bytes to a stream, and answers the message that they complete, if they do. Returns how
/// many it took.
fn take<W: Write>(
    alloc: Global,
    source: SocketAddr,
    stream: &mut MessageStream<'_>,
    piece: &[u8],
    writer: &mut W,
) -> Result<usize, StunError>
    ensures { MatchResult result
        (λ taken. Takes source stream.old stream.new piece.now taken
        (W.contents writer.old) (W.contents writer.new))
        (λ error. Stops source stream.old piece.now error
        (W.contents writer.old) (W.contents writer.new)) }
{
    let taken = stream.push(piece)?;
    if let Some(message) = stream.message() {
        answer(alloc, source, message, writer)?;
    }
    Ok(taken)
}

/// Passes all of a piece to a stream, and answers the messages that it completes.
fn take_all<W: Write>(
    alloc: Global,
    source: SocketAddr,
    stream: &mut MessageStream<'_>,
    piece: &[u8],
    writer: &mut W,
) -> Result<(), StunError>
    ensures { (left left' held : Option (List ℕ))
        → Serving source left left' held (W.contents writer.old) stream.old piece.now
        → MatchResult result
        (λ _. Serving source left left' held (W.contents writer.new) stream.new [])
        (λ error. EndsStream source (Err error) left left' held (W.contents writer.new)) }
{
    let mut rest = piece;
    while !rest.is_empty() {
        let taken = take(alloc, source, stream, rest, writer)?;
        rest = &rest[taken..];
    }
    Ok(())
}

/// How the run ends if the input does.
fn end_of(stream: &MessageStream<'_>) -> Result<RunEnd, StunError>
    ensures { result ≡ end_of stream.now }
{
    if stream.pending().is_empty() {
        Ok(RunEnd::Complete)
    } else {
        Err(StunError::Cut(stream.offset()))
    }
}

/// Reads pieces up to the end of the input, and answers the messages in them.
fn serve<R: Read, W: Write>(
    alloc: Global,
    source: SocketAddr,
    stream: &mut MessageStream<'_>,
    piece: &mut [u8],
    reader: &mut R,
    writer: &mut W,
) -> Result<RunEnd, StunError>
    requires begun { stream.old ≡ begun room }
    requires piece { 0 < length piece.old }
    ensures { EndsStream source result
        (R.remaining reader.old) (R.remaining reader.new)
        (W.contents writer.old) (W.contents writer.new) }
{
    for _turn in 0..u64::MAX {
        let count = read_piece(reader, piece)?;
        if count == 0 {
            return end_of(stream);
        }
        take_all(alloc, source, stream, &piece[..count], writer)?;
    }
    Err(StunError::Run(RunError::ReadFailed))
}

/// Reads a stream of messages that come from `source`, up to the end of `reader`, and writes the
/// reply to each that gets one, in their order, as soon as the message is complete.
///
/// It takes memory for one message of the greatest length, and for one reply at a time.
///
/// The run ends with `Complete` if the input ended after a message, or was empty.
///
/// # Errors
///
/// `Cut` if the input ended within a message. `NoMessage` at the first byte that shows that no
/// message begins where one had to. With both of these, and with `Complete`, the replies to all
/// messages before were written; with `ReadFailed` and `NoMemory` those to the first messages of what
/// was read; and with `WriteFailed` a prefix of them.
pub fn run_stream<R: Read, W: Write>(
    alloc: Global,
    source: SocketAddr,
    reader: &mut R,
    writer: &mut W,
) -> Result<RunEnd, StunError>
    ensures { EndsStream source result
        (R.remaining reader.old) (R.remaining reader.new)
        (W.contents writer.old) (W.contents writer.new) }
{
    let Ok(mut buffer) = vec![in alloc; 0; GREATEST_MESSAGE] else {
        return Err(StunError::Run(RunError::NoMemory));
    };
    let mut stream = MessageStream::new(&mut buffer);
    serve(alloc, source, &mut stream, &mut [0; 4096], reader, writer)
}
