//! An example of a server that serves users: it reads a datagram from standard input, and writes the
//! reply to it, by short-term credentials, or by long-term ones if it is given nonces.
#![tactic(auto)]

mod arguments;
mod end;
mod engine;
mod users;

use arguments::login_task_of;
use end::{LoginError, RunEnd, status_of};
use engine::log_in;
use std::alloc::Global;
use std::env;
use std::env::Args;
use std::io::{Read, Write};
use std::process::ExitCode;
use stun_programs::{RunError, arguments_error};

/// Runs with the arguments after the program's name.
fn run_on<R: Read, W: Write>(
    alloc: Global,
    arguments: Args,
    reader: &mut R,
    writer: &mut W,
) -> Result<RunEnd, LoginError> {
    let mut arguments = arguments;
    let Some(_name) = arguments.next() else {
        return Err(LoginError::Run(RunError::Usage));
    };
    match login_task_of(arguments) {
        Some(task) => log_in(alloc, &task, reader, writer),
        None => Err(LoginError::Run(RunError::Usage)),
    }
}

fn main(rt: HostRuntime) -> ExitCode {
    let end = match env::args(&rt) {
        Ok(arguments) => run_on(rt.alloc(), arguments, &mut rt.stdin(), &mut rt.stdout()),
        Err(e) => Err(LoginError::Run(arguments_error(e.kind()))),
    };
    let (status, line) = status_of(end);
    let _ = rt.stderr().write_all(line.as_bytes());
    ExitCode::from(status)
}
