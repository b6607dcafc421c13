//! Prints the header and the attributes of a STUN message on standard input.
//!
//! The message has at most 131072 bytes. The argument, even an empty one, is a short-term password. It
//! prints `<class> method=<m> id=0x<hex> length=<n>`; for each shown attribute `<offset> 0x<type>
//! <length> <value>`, the value in hexadecimal, or `-`; with a password `integrity: ` and `Sha1`,
//! `Sha256`, `missing`, `malformed` or `failed`. Of a refused message it prints `not STUN`, `truncated
//! <expected> <actual>`, `too large <expected> <actual>` or `fingerprint mismatch` alone.
//!
//! Status 0: the message was shown and, with a password, is valid. 1: it was refused or isn't valid. 2:
//! anything else, such as a failed read or out of memory.
#![tactic(auto)]

mod engine;
mod program;
mod report;

use program::{run_on, status_of};
use std::env;
use std::io::Write;
use std::process::ExitCode;
use stun_programs::arguments_error;

fn main(rt: HostRuntime) -> ExitCode {
    let end = match env::args(&rt) {
        Ok(arguments) => run_on(rt.alloc(), arguments, &mut rt.stdin(), &mut rt.stdout()),
        Err(e) => Err(arguments_error(e.kind())),
    };
    let (status, line) = status_of(end);
    let _ = rt.stdout().write_all(line.as_bytes());
    ExitCode::from(status)
}
