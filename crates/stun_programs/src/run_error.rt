//! How a run of a program fails.

ghost use Rattle.std.specs.Prelude.{◌≡◌, ◌≢◌};
ghost use Rattle.stun_programs.specs.RunErrors.{run_error_of, line_of};

use crate::input_output::{InputError, WriteFailed};
use std::alloc::AllocError;
use std::io::ErrorKind;

/// Why a run of a program failed.
#[derive(Debug, Clone, Copy, PartialEq, Eq)]
pub enum RunError {
    /// The arguments are wrong, or couldn't be read.
    Usage,
    /// The input has more bytes than may be read.
    TooLong,
    /// A read of the input failed.
    ReadFailed,
    /// A write of the output failed, or took no bytes.
    WriteFailed,
    /// An allocation of the run failed.
    NoMemory,
}

/// The exit status of a run that failed.
pub const FAILED: u8 = 2;

impl From<InputError> for RunError {
    ghost from_gives = { λ e made. made ≡ run_error_of e };

    fn from(e: InputError) -> Self {
        match e {
            InputError::TooLong => RunError::TooLong,
            InputError::ReadFailed => RunError::ReadFailed,
            InputError::NoMemory => RunError::NoMemory,
        }
    }
}

impl From<WriteFailed> for RunError {
    ghost use Rattle.stun_programs.specs.declared.run_error.RunError.TheVariants.{WriteFailed};

    ghost from_gives = { λ _ made. made ≡ WriteFailed };

    fn from(_failed: WriteFailed) -> Self {
        RunError::WriteFailed
    }
}

impl From<AllocError> for RunError {
    ghost use Rattle.stun_programs.specs.declared.run_error.RunError.TheVariants.{NoMemory};

    ghost from_gives = { λ _ made. made ≡ NoMemory };

    fn from(_failed: AllocError) -> Self {
        RunError::NoMemory
    }
}

/// Returns how a run fails when its arguments can't be read, by the kind of the error.
///
/// # Examples
///
/// ```
/// use std::io::ErrorKind;
/// use stun_programs::{RunError, arguments_error};
///
/// // An argument that isn't UTF-8.
/// assert_eq!(rt; arguments_error(ErrorKind::InvalidData), RunError::Usage);
/// assert_eq!(rt; arguments_error(ErrorKind::OutOfMemory), RunError::NoMemory);
/// ```
pub fn arguments_error(kind: ErrorKind) -> RunError
    ensures memory { kind ≡ ErrorKind.OutOfMemory → result ≡ RunError.NoMemory }
    ensures other { kind ≢ ErrorKind.OutOfMemory → result ≡ RunError.Usage }
{
    match kind {
        ErrorKind::OutOfMemory => RunError::NoMemory,
        _ => RunError::Usage,
    }
}

impl RunError {
    /// Returns the line that a program prints last: `usage` if its arguments are wrong, and nothing
    /// if a write failed.
    ///
    /// # Examples
    ///
    /// ```
    /// use stun_programs::RunError;
    ///
    /// let usage = "usage: stun_show < MESSAGE\n";
    /// assert_eq!(rt; RunError::Usage.line(usage), usage);
    /// assert_eq!(rt; RunError::TooLong.line(usage), "input too long\n");
    /// ```
    pub fn line<'a>(self, usage: &'a str) -> &'a str
        ensures { result.now ≡ line_of self usage.now }
    {
        match self {
            RunError::Usage => usage,
            RunError::TooLong => "input too long\n",
            RunError::ReadFailed => "read failed\n",
            RunError::WriteFailed => "",
            RunError::NoMemory => "out of memory\n",
        }
    }
}
