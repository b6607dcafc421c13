//! How a run ends, and the status that the program ends with.

ghost use Rattle.std.specs.Prelude.{◌≡◌};
ghost use Rattle.stun.specs.Ends.{exit_status};

use crate::finding::Finding;
use std::alloc::AllocError;
use std::io;
use std::io::Write;
use stun_framing::StreamError;
use stun_programs::{InputError, RunError, WriteFailed};

/// What a run came to.
#[derive(Clone, Copy, PartialEq, Eq)]
pub enum RunEnd {
    /// The help or the version was printed.
    Printed,
    /// Each message was shown, has no malformed value, and is valid if credentials are given.
    Shown,
    /// Something that was shown is no message, has a malformed value, or isn't valid.
    Rejected,
    /// The reply to a datagram was written.
    Replied,
    /// A datagram gets no reply.
    NoReply,
    /// The input ended after a message of the stream, or there was none.
    Complete,
    /// The request was written.
    Asked,
    /// The message that was piped in asks for no further request.
    NotAsked(&'static str),
    /// The response says this of the request.
    Checked(Finding),
}

/// Why a run stopped early.
#[derive(Clone, Copy, PartialEq, Eq)]
pub enum StunError {
    /// The arguments are wrong, for a reason that is printed then, or was.
    Usage(&'static str),
    /// The input ended within the message of a stream that begins at this offset.
    Cut(u64),
    /// No message begins after the last one of a stream.
    NoMessage(StreamError),
    /// Reading, writing or an allocation failed.
    Run(RunError),
}

impl From<RunError> for StunError {
    ghost use Rattle.stun.specs.declared.end.StunError.TheVariants.{Run};

    ghost from_gives = { λ error made. made ≡ Run error };

    fn from(error: RunError) -> Self {
        StunError::Run(error)
    }
}

impl From<StreamError> for StunError {
    ghost use Rattle.stun.specs.declared.end.StunError.TheVariants.{NoMessage};

    ghost from_gives = { λ error made. made ≡ NoMessage error };

    fn from(error: StreamError) -> Self {
        StunError::NoMessage(error)
    }
}

impl From<InputError> for StunError {
    ghost use Rattle.stun_programs.specs.RunErrors.{run_error_of};
    ghost use Rattle.stun.specs.declared.end.StunError.TheVariants.{Run};

    ghost from_gives = { λ error made. made ≡ Run (run_error_of error) };

    fn from(error: InputError) -> Self {
        StunError::Run(RunError::from(error))
    }
}

impl From<AllocError> for StunError {
    ghost use Rattle.stun_programs.specs.declared.run_error.RunError.TheVariants.{NoMemory};
    ghost use Rattle.stun.specs.declared.end.StunError.TheVariants.{Run};

    ghost from_gives = { λ _ made. made ≡ Run NoMemory };

    fn from(_failed: AllocError) -> Self {
        StunError::Run(RunError::NoMemory)
    }
}

impl From<WriteFailed> for StunError {
    ghost use Rattle.stun_programs.specs.declared.run_error.RunError.TheVariants.{WriteFailed};
    ghost use Rattle.stun.specs.declared.end.StunError.TheVariants.{Run};

    ghost from_gives = { λ _ made. made ≡ Run WriteFailed };

    fn from(_failed: WriteFailed) -> Self {
        StunError::Run(RunError::WriteFailed)
    }
}

/// Returns the exit status of the program by how its run ended: 0 for what was asked for, 1 for a
/// refusal or a negative answer, 2 for wrong usage, and 3 if reading, writing or an allocation
/// failed.
pub fn status_of(end: Result<RunEnd, StunError>) -> u8
    ensures { result ≡ exit_status end }
{
    match end {
        Ok(
            RunEnd::Printed
            | RunEnd::Shown
            | RunEnd::Replied
            | RunEnd::Complete
            | RunEnd::Asked
            | RunEnd::Checked(Finding::Mapped(_)),
        ) => 0,
        Ok(_) | Err(StunError::Cut(_) | StunError::NoMessage(_)) => 1,
        Err(StunError::Usage(_) | StunError::Run(RunError::Usage)) => 2,
        Err(StunError::Run(_)) => 3,
    }
}

/// The line on standard error for a run that failed, if it doesn't depend on the input.
fn line_of(error: StunError) -> &'static str {
    match error {
        StunError::Usage(line) => line,
        StunError::Run(RunError::Usage) => "an argument isn't UTF-8: give it in UTF-8",
        StunError::Run(RunError::TooLong) => {
            "the input is too long: give one message, or to stun show a capture with --lines"
        }
        StunError::Run(RunError::ReadFailed) => {
            "reading failed: check that the input exists, and that you may read it"
        }
        StunError::Run(RunError::WriteFailed) => "writing failed: check where the output goes",
        StunError::Run(RunError::NoMemory) => "out of memory: give a smaller input",
        StunError::Cut(_) | StunError::NoMessage(_) => "",
    }
}

/// Writes to standard error why a run failed, or had no positive end, and what to do about it.
pub fn write_line<W: Write>(end: Result<RunEnd, StunError>, errors: &mut W) -> io::Result<()> {
    match end {
        Ok(RunEnd::NotAsked(line)) => writeln!(errors, "stun: {line}"),
        Ok(RunEnd::NoReply) => {
            writeln!(
                errors,
                "stun: no reply: the input isn't a request that gets one"
            )
        }
        Ok(_) => Ok(()),
        Err(StunError::NoMessage(error)) => writeln!(errors, "stun: {error}"),
        Err(StunError::Cut(offset)) => {
            writeln!(
                errors,
                "stun: the input ends within the message at offset {offset} of the stream"
            )
        }
        Err(error) => match line_of(error) {
            "" => Ok(()),
            line => writeln!(errors, "stun: {line}"),
        },
    }
}
