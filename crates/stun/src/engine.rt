//! Runs over any reader and writer, but for those over a stream.

ghost use Rattle.std.specs.Prelude.{◌≡◌};
ghost use Rattle.stun.specs.AskRun.{EndsAsking};
ghost use Rattle.stun.specs.ReplyRun.{EndsReplying};

use crate::binding::request;
use crate::end::RunEnd;
use crate::input::LONGEST_DATAGRAM;
use crate::query::Query;
use std::alloc::Global;
use std::io::{Read, Write};
use std::net::SocketAddr;
use stun_programs::{RunError, read_all, write_all};
use stun_server::reply;

/// Reads a datagram that came from `source`, up to the end of `reader`, and writes the reply that
/// it gets, if any.
///
/// It reads at most 65555 bytes, makes the reply in memory that `alloc` gives, and only then writes
/// it.
///
/// The run ends with `Replied` if the whole reply was written, and with `NoReply` if there is none:
/// nothing was written then.
///
/// # Errors
///
/// `WriteFailed` if a prefix of the reply was written, and then a write failed or took no bytes. With
/// every other error nothing was written: `TooLong` if there are more than 65555 bytes to read,
/// `ReadFailed` if a read failed, `NoMemory` if an allocation failed.
pub fn reply_to<R: Read, W: Write>(
    alloc: Global,
    source: SocketAddr,
    reader: &mut R,
    writer: &mut W,
) -> Result<RunEnd, RunError>
    ensures { EndsReplying source result
        (R.remaining reader.old) (R.remaining reader.new)
        (W.contents writer.old) (W.contents writer.new) }
{
    let input = read_all(alloc, LONGEST_DATAGRAM, reader)?;
    let Ok(replied) = reply(alloc, source, &input) else {
        return Err(RunError::NoMemory);
    };
    let Some(text) = replied else {
        return Ok(RunEnd::NoReply);
    };
    write_all(&text, writer)?;
    Ok(RunEnd::Replied)
}

/// Writes the binding request of a query, made in memory that `alloc` gives.
///
/// The run ends with `Asked` once the whole request is written.
///
/// # Errors
///
/// `WriteFailed` if a prefix of the request was written, and `NoMemory` if an allocation failed, and
/// nothing was written.
pub fn ask<W: Write>(alloc: Global, query: &Query, writer: &mut W) -> Result<RunEnd, RunError>
    ensures { EndsAsking query.now result (W.contents writer.old) (W.contents writer.new) }
{
    let text = request(alloc, query)?;
    write_all(&text, writer)?;
    Ok(RunEnd::Asked)
}
