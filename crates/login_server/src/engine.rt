//! A run over any reader and writer.

ghost use Rattle.login_server.specs.LoginRun.{EndsLogin};

use crate::arguments::LoginTask;
use crate::end::{LoginError, RunEnd};
use crate::users::{AuthenticatedReply, Issued, answer_to};
use std::alloc::Global;
use std::io::{Read, Write};
use stun_programs::{RunError, read_all, write_all};
use stun_types::message::StunWriteError;

/// The most bytes that are read of a datagram: a header, and as many as its length field can state.
const LONGEST_DATAGRAM: usize = 65555;

/// Reads a datagram up to the end of `reader`, at most 65555 bytes, and answers it as the server of
/// two users does.
///
/// The run ends with `Accepted` if the message is a user's, and the reply to a request is written,
/// with `Refused` if an error response is written, and with `Discarded` if nothing is.
///
/// # Errors
///
/// `WriteFailed` if a prefix of the reply was written, and then a write failed or took no bytes. With
/// every other error nothing was written: `TooLong` if there are more than 65555 bytes to read,
/// `ReadFailed` if a read failed, `NoMemory` if an allocation failed, and `NoReply` if a nonce is too
/// long for its attribute.
pub fn log_in<R: Read, W: Write>(
    alloc: Global,
    task: &LoginTask,
    reader: &mut R,
    writer: &mut W,
) -> Result<RunEnd, LoginError>
    ensures { EndsLogin result
        (R.remaining reader.old) (R.remaining reader.new)
        (W.contents writer.old) (W.contents writer.new) }
{
    let input = match read_all(alloc, LONGEST_DATAGRAM, reader) {
        Ok(input) => input,
        Err(e) => return Err(LoginError::Run(RunError::from(e))),
    };
    let issued = task.nonces.as_ref().map(|(fresh, stale)| Issued {
        fresh: fresh.as_str(),
        stale: stale.as_str(),
    });
    let (text, end) = match answer_to(alloc, task.policy, issued, task.source, &input) {
        Ok(AuthenticatedReply::Accepted(None)) => return Ok(RunEnd::Accepted),
        Ok(AuthenticatedReply::Accepted(Some(text))) => (text, RunEnd::Accepted),
        Ok(AuthenticatedReply::Refused(text)) => (text, RunEnd::Refused),
        Ok(AuthenticatedReply::Discarded) => return Ok(RunEnd::Discarded),
        Err(StunWriteError::OutOfMemory) => return Err(LoginError::Run(RunError::NoMemory)),
        Err(_) => return Err(LoginError::NoReply),
    };
    match write_all(&text, writer) {
        Ok(()) => Ok(end),
        Err(_) => Err(LoginError::Run(RunError::WriteFailed)),
    }
}
