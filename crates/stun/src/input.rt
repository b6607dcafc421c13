//! Inputs: standard input, or a file that an argument names.

use crate::end::StunError;
use std::fs;
use std::io::{Read, Write};
use std::rt::Files;
use stun_programs::{RunError, read_all};

/// The most bytes that are read of a datagram: a header, and as many as its length field can state.
/// More never parse; three more than [`GREATEST_MESSAGE`](stun_types::message::GREATEST_MESSAGE) may.
pub const LONGEST_DATAGRAM: usize = 65555;

/// Opens a file; if that fails, standard error has a line that names it.
pub fn open_input<S: AllocGlobal + Files, E: Write>(
    system: &S,
    path: &str,
    errors: &mut E,
) -> Result<S::File, StunError> {
    match fs::open(system, path) {
        Ok(file) => Ok(file),
        Err(error) => {
            let _ = writeln!(errors, "stun: {path}: {error}");
            Err(StunError::Run(RunError::ReadFailed))
        }
    }
}

/// Reads all of an input: of the file, if one is named, else of the reader.
pub fn read_input<S: AllocGlobal + Files, R: Read, E: Write>(
    system: &S,
    path: Option<&str>,
    most: usize,
    reader: &mut R,
    errors: &mut E,
) -> Result<Vec<u8>, StunError> {
    match path {
        None => Ok(read_all(system.alloc(), most, reader)?),
        Some(path) => {
            let mut file = open_input(system, path, errors)?;
            Ok(read_all(system.alloc(), most, &mut file)?)
        }
    }
}
