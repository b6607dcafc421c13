//! The program: its arguments, and the command that they name.

use crate::arguments::source_in;
use crate::ask::run_ask;
use crate::check::run_check;
use crate::command::command;
use crate::end::{RunEnd, StunError};
use crate::engine::reply_to;
use crate::showing::run_show;
use crate::stream::run_stream;
use clap::ArgMatches;
use clap::error::ErrorKind;
use std::alloc::Global;
use std::env::Args;
use std::io::{Read, Write};
use std::random::RandomSource;
use std::rt::{Env, Files};
use stun_programs::RunError;

/// Prints what `clap` answers instead of the arguments: the help or the version, or what is wrong
/// with them.
fn print_answer<W: Write, E: Write>(
    error: &clap::Error,
    writer: &mut W,
    errors: &mut E,
) -> Result<RunEnd, StunError> {
    match error.kind() {
        ErrorKind::DisplayHelp | ErrorKind::DisplayVersion => match write!(writer, "{error}") {
            Ok(()) => Ok(RunEnd::Printed),
            Err(_) => Err(StunError::Run(RunError::WriteFailed)),
        },
        ErrorKind::OutOfMemory => Err(StunError::Run(RunError::NoMemory)),
        _ => {
            let _ = write!(errors, "{error}");
            Err(StunError::Usage(""))
        }
    }
}

/// Runs `stun reply`.
fn run_reply<R: Read, W: Write>(
    alloc: Global,
    matches: &ArgMatches<'_>,
    reader: &mut R,
    writer: &mut W,
) -> Result<RunEnd, StunError> {
    let address = matches.get_str("ADDRESS").unwrap_or("");
    let port = matches.get_str("PORT").unwrap_or("");
    let Some(source) = source_in(address, port) else {
        return Err(StunError::Usage(
            "no address: give an IP address, in square brackets or not, and a port up to 65535",
        ));
    };
    if matches.get_flag("stream") {
        run_stream(alloc, source, reader, writer)
    } else {
        Ok(reply_to(alloc, source, reader, writer)?)
    }
}

/// Runs the command that was parsed.
fn run_command<S: AllocGlobal + Files + Env + RandomSource, R: Read, W: Write, E: Write>(
    system: &S,
    matches: &ArgMatches<'_>,
    reader: &mut R,
    writer: &mut W,
    errors: &mut E,
) -> Result<RunEnd, StunError> {
    match matches.subcommand() {
        Some(("show", matches)) => run_show(system, matches, reader, writer, errors),
        Some(("ask", matches)) => run_ask(system, matches, reader, writer, errors),
        Some(("reply", matches)) => run_reply(system.alloc(), matches, reader, writer),
        Some(("check", matches)) => run_check(system, matches, reader, writer, errors),
        _ => Err(StunError::Usage("no such command: see stun --help")),
    }
}

/// Runs the command that the arguments name.
///
/// # Errors
///
/// The arguments are checked before anything is read: if they are wrong, the run fails with `Usage`,
/// and nothing is read or written. The other errors are those of the command.
pub fn run_on<S: AllocGlobal + Files + Env + RandomSource, R: Read, W: Write, E: Write>(
    system: &S,
    arguments: Args,
    reader: &mut R,
    writer: &mut W,
    errors: &mut E,
) -> Result<RunEnd, StunError> {
    let alloc = system.alloc();
    let words: Vec<String> = arguments.collect(alloc)?;
    let command = command(alloc)?;
    match command.try_get_matches_from(words.as_slice()) {
        Ok(matches) => run_command(system, &matches, reader, writer, errors),
        Err(error) => print_answer(&error, writer, errors),
    }
}
