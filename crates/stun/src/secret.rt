//! The password: of a file, an argument, or the environment.

use crate::end::StunError;
use crate::input::open_input;
use clap::ArgMatches;
use std::env;
use std::env::VarError;
use std::io::Write;
use std::rt::{Env, Files};
use stun_programs::{RunError, read_all};
use stun_types::message::ShortTermCredentials;

/// The most bytes of a file with a password.
const LONGEST_PASSWORD_FILE: usize = 65_536;

/// The environment variable that has the password if no argument names it.
const VARIABLE: &str = "STUN_PASSWORD";

/// The number of bytes that a text has before its first line break.
fn first_line(text: &[u8]) -> usize {
    let length = match text.iter().position(|byte| *byte == b'\n') {
        Some(at) => at,
        None => text.len(),
    };
    match text.get(..length) {
        Some([before @ .., b'\r']) => before.len(),
        _ => length,
    }
}

/// The password in a file: its first line. Its memory is overwritten before it is freed.
fn password_in<S: AllocGlobal + Files, E: Write>(
    system: &S,
    path: &str,
    errors: &mut E,
) -> Result<ShortTermCredentials, StunError> {
    let mut file = open_input(system, path, errors)?;
    let mut bytes = read_all(system.alloc(), LONGEST_PASSWORD_FILE, &mut file)?;
    bytes.truncate(first_line(&bytes));
    match String::from_utf8(bytes) {
        Ok(text) => Ok(ShortTermCredentials::new(text)),
        Err(_) => Err(StunError::Usage(
            "the password isn't UTF-8: write it in UTF-8 into its file",
        )),
    }
}

/// The password of the environment, if there is one that isn't empty.
fn password_of_environment<S: AllocGlobal + Env>(
    system: &S,
) -> Result<Option<ShortTermCredentials>, StunError> {
    match env::var(system, VARIABLE) {
        Ok(password) if password.is_empty() => Ok(None),
        Ok(password) => Ok(Some(ShortTermCredentials::new(password))),
        Err(VarError::NotPresent) => Ok(None),
        Err(VarError::NotUnicode) => Err(StunError::Usage(
            "STUN_PASSWORD isn't UTF-8: set it to a password in UTF-8",
        )),
        Err(VarError::OutOfMemory) => Err(StunError::Run(RunError::NoMemory)),
    }
}

/// A password that is given. An empty one is refused: an unset variable of a shell would sign with a
/// key that everybody knows.
fn not_empty(password: ShortTermCredentials) -> Result<Option<ShortTermCredentials>, StunError> {
    if password.password().is_empty() {
        return Err(StunError::Usage("the password is empty: give one that isn't"));
    }
    Ok(Some(password))
}

/// The password that is given: in the file that the arguments name, otherwise in the argument,
/// otherwise in the environment.
pub fn password_of<S: AllocGlobal + Files + Env, E: Write>(
    system: &S,
    matches: &ArgMatches<'_>,
    errors: &mut E,
) -> Result<Option<ShortTermCredentials>, StunError> {
    if let Some(path) = matches.get_str("password-file") {
        return not_empty(password_in(system, path, errors)?);
    }
    if let Some(password) = matches.get_str("password") {
        let password = String::from_str(system.alloc(), password)?;
        return not_empty(ShortTermCredentials::new(password));
    }
    password_of_environment(system)
}
