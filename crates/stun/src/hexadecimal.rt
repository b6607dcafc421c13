//! Octets that are written in hexadecimal.

use hex::FromHexError;
use std::alloc::{AllocError, Global};

/// Why a text is no octets.
#[derive(Clone, Copy, PartialEq, Eq)]
pub enum HexError {
    /// It has something else than digits, spaces, colons, line breaks and `0x`.
    Character,
    /// It has an odd number of digits.
    Odd,
    /// It has no digits.
    Empty,
    /// An allocation failed.
    NoMemory,
}

impl From<AllocError> for HexError {
    fn from(_failed: AllocError) -> Self {
        HexError::NoMemory
    }
}

impl From<FromHexError> for HexError {
    fn from(error: FromHexError) -> Self {
        match error {
            FromHexError::OutOfMemory => HexError::NoMemory,
            FromHexError::OddLength => HexError::Odd,
            _ => HexError::Character,
        }
    }
}

impl HexError {
    /// The words for the error.
    pub fn words(self) -> &'static str {
        match self {
            HexError::Character => {
                "not hexadecimal: give digits, with spaces, colons, line breaks and 0x between them"
            }
            HexError::Odd => "an odd number of hexadecimal digits: give two for each octet",
            HexError::Empty => "empty: give a message in hexadecimal",
            HexError::NoMemory => "out of memory",
        }
    }

    /// The code of the error in JSON.
    pub fn code(self) -> &'static str {
        match self {
            HexError::Character => "not_hexadecimal",
            HexError::Odd => "odd_digits",
            HexError::Empty => "empty",
            HexError::NoMemory => "out_of_memory",
        }
    }
}

/// Whether a byte may be between digits.
fn is_between(byte: u8) -> bool {
    matches!(byte, b' ' | b'\t' | b'\r' | b'\n' | b':')
}

/// The digits of a text: what is between them is left out, and so is each `0x`.
fn digits_of(alloc: Global, text: &[u8]) -> Result<Vec<u8>, AllocError> {
    let mut digits = Vec::new(alloc);
    for byte in text {
        if matches!(*byte, b'x' | b'X') && digits.last() == Some(&b'0') {
            digits.pop();
        } else if !is_between(*byte) {
            digits.push(*byte)?;
        }
    }
    Ok(digits)
}

/// Reads octets that are written in hexadecimal: two digits for each, in upper or lower case, with
/// spaces, tabs, colons, line breaks and `0x` between them or not.
pub fn octets_of(alloc: Global, text: &[u8]) -> Result<Vec<u8>, HexError> {
    let digits = digits_of(alloc, text)?;
    if digits.is_empty() {
        return Err(HexError::Empty);
    }
    if !digits.iter().all(u8::is_ascii_hexdigit) {
        return Err(HexError::Character);
    }
    Ok(hex::decode(alloc, digits.as_slice())?)
}

/// Whether octets look as if they were a text in hexadecimal.
pub fn looks_hexadecimal(text: &[u8]) -> bool {
    text.iter().all(|byte| is_between(*byte)
        || matches!(*byte, b'x' | b'X')
        || byte.is_ascii_hexdigit())
}
