//! The program: what its arguments mean, and the status that it ends with.

ghost use Rattle.std.specs.Prelude.{◌≡◌, map, MatchResult, Ok, Err};
ghost use Rattle.std.specs.Option.{option_map};
ghost use Rattle.std.specs.String.{string_bytes};
ghost use Rattle.std.specs.Vec.Iter.{into_iter_items};
ghost use Rattle.stun_show.specs.ShowProgram.{given_password, EndsOn, exit_status, last_line};

use crate::engine::run;
use crate::report::RunEnd;
use std::alloc::Global;
use std::env::Args;
use std::io::{Read, Write};
use stun_programs::{FAILED, RunError};

/// The password that the arguments give: the one after the program's name, if there is one. With
/// more than one the usage is wrong.
#[tactic(auto, using(crate::proofs::ShowProgramLemmas::none_left))]
fn password_of(arguments: Args) -> Result<Option<String>, RunError>
    ensures { MatchResult result
        (λ given. given_password (map string_bytes (into_iter_items arguments))
        ≡ Ok (option_map string_bytes given))
        (λ e. given_password (map string_bytes (into_iter_items arguments)) ≡ Err e) }
{
    let mut arguments = arguments;
    let Some(_name) = arguments.next() else {
        return Ok(None);
    };
    let Some(password) = arguments.next() else {
        return Ok(None);
    };
    match arguments.next() {
        Some(_) => Err(RunError::Usage),
        None => Ok(Some(password)),
    }
}

/// Runs with the password that the arguments give. The arguments are checked before anything is
/// read: if they are wrong, the run fails with `Usage`, and nothing is read or written.
pub fn run_on<R: Read, W: Write>(
    alloc: Global,
    arguments: Args,
    reader: &mut R,
    writer: &mut W,
) -> Result<RunEnd, RunError>
    ensures { EndsOn (map string_bytes (into_iter_items arguments)) result
        (R.remaining reader.old) (R.remaining reader.new)
        (W.contents writer.old) (W.contents writer.new) }
{
    match password_of(arguments) {
        Ok(given) => run(alloc, reader, given.as_deref(), writer),
        Err(error) => Err(error),
    }
}

/// Returns the exit status of a run by how it ended, and the line that is printed then; the line is
/// empty if the run has written a report, or a part of it.
pub fn status_of(end: Result<RunEnd, RunError>) -> (u8, &'static str)
    ensures status { result.0 ≡ exit_status end }
    ensures line { result.1.now ≡ last_line end }
{
    match end {
        Ok(RunEnd::Shown) => (0, ""),
        Ok(RunEnd::Refused) => (1, ""),
        Err(error) => (FAILED, error.line("usage: stun_show [password]\n")),
    }
}
