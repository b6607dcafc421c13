//! `stun`, a program for the command line: it shows messages (`show`), writes requests (`ask`) and
//! replies (`reply`), and says what a client learns from a response (`check`).
#![tactic(auto)]

mod arguments;
mod ask;
mod binding;
mod check;
mod command;
mod end;
mod engine;
mod fault;
mod finding;
mod hexadecimal;
mod input;
mod json;
mod names;
mod program;
mod protection;
mod query;
mod readings;
mod refused;
mod secret;
mod show;
mod showing;
mod stream;
mod validation;
mod values;

use end::{StunError, status_of, write_line};
use program::run_on;
use std::env;
use std::process::ExitCode;
use stun_programs::arguments_error;

fn main(rt: HostRuntime) -> ExitCode {
    let end = match env::args(&rt) {
        Ok(arguments) => run_on(
            &rt,
            arguments,
            &mut rt.stdin(),
            &mut rt.stdout(),
            &mut rt.stderr(),
        ),
        Err(e) => Err(StunError::Run(arguments_error(e.kind()))),
    };
    let _ = write_line(end, &mut rt.stderr());
    ExitCode::from(status_of(end))
}
