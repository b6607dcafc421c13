//! How a run ends.

ghost use Rattle.std.specs.Prelude.{◌≡◌};
ghost use Rattle.login_server.specs.LoginRun.{exit_status};

use stun_programs::{FAILED, RunError};

/// What a run came to.
#[derive(Clone, Copy, PartialEq, Eq)]
pub enum RunEnd {
    /// A message is a user's, and the reply to a request was written.
    Accepted,
    /// A request was refused, since it isn't shown to be a user's: the error response was written.
    Refused,
    /// A message is neither accepted nor refused, and nothing was written.
    Discarded,
}

/// Why a run stopped early.
#[derive(Clone, Copy, PartialEq, Eq)]
pub enum LoginError {
    /// An error response can't be written: a nonce is too long for its attribute.
    NoReply,
    /// The arguments are wrong, or reading, writing or an allocation failed.
    Run(RunError),
}

/// The line on standard error if the arguments are wrong.
const USAGE: &str = "usage: login_server ADDRESS PORT [sha1|sha256|cut].. [NONCE STALE]\n";

/// Returns the exit status of the program by how it ended, and the line that is then written to
/// standard error, which is empty if the run ended as it should.
pub fn status_of(end: Result<RunEnd, LoginError>) -> (u8, &'static str)
    ensures { result.0 ≡ exit_status end }
{
    match end {
        Ok(RunEnd::Accepted) => (0, ""),
        Ok(RunEnd::Refused) => (1, ""),
        Ok(RunEnd::Discarded) => (3, ""),
        Err(LoginError::NoReply) => (FAILED, "no answer\n"),
        Err(LoginError::Run(error)) => (FAILED, error.line(USAGE)),
    }
}
