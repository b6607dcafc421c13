//! Reading an input to its end and writing an output whole, over any reader and writer.

ghost use Rattle.std.specs.Prelude.{MatchResult};
ghost use Rattle.std.specs.Io.KnownBytes.{Appends};
ghost use Rattle.stun_programs.specs.InputOutput.{ReadsAll, StopsReading, WritesPart};

use std::alloc::Global;
use std::io::{ErrorKind, Read, Write};

/// Why an input wasn't read to its end.
#[derive(Debug, Clone, Copy, PartialEq, Eq)]
pub enum InputError {
    /// The input has more bytes than may be read.
    TooLong,
    /// The reader failed with an error.
    ReadFailed,
    /// An allocation for the bytes failed.
    NoMemory,
}

/// The error of a write that failed, or that took no bytes.
#[derive(Debug, Clone, Copy, PartialEq, Eq)]
pub struct WriteFailed;

/// Reads to the end of `reader`, at most `most` bytes, into memory from `alloc`. A read that is
/// interrupted is tried again.
///
/// # Errors
///
/// `TooLong` if there are more bytes, otherwise `ReadFailed` or `NoMemory`.
///
/// # Examples
///
/// ```
/// use stun_programs::{InputError, read_all};
///
/// let mut input = b"0001 0000".as_slice();
/// assert_eq!(rt; read_all(alloc, 1000, &mut input)?.as_slice(), b"0001 0000".as_slice());
/// let mut input = b"0001 0000".as_slice();
/// assert_eq!(rt; read_all(alloc, 8, &mut input).err(), Some(InputError::TooLong));
/// ```
pub fn read_all<R: Read>(alloc: Global, most: usize, reader: &mut R) -> Result<Vec<u8>, InputError>
    ensures { MatchResult result
        (λ input. ReadsAll most (R.remaining reader.old) (R.remaining reader.new) input.items)
        (λ e. StopsReading most e (R.remaining reader.old) (R.remaining reader.new)) }
{
    let mut input = Vec::new(alloc);
    let mut piece = [0; 4096];
    for _turn in 0..u64::MAX {
        match reader.read(&mut piece) {
            Ok(0) => return Ok(input),
            Ok(count) => {
                if count > most - input.len() {
                    return Err(InputError::TooLong);
                }
                if input.extend_from_slice(&piece[..count]).is_err() {
                    return Err(InputError::NoMemory);
                }
            }
            Err(e) => {
                if e.kind() != ErrorKind::Interrupted {
                    return Err(InputError::ReadFailed);
                }
            }
        }
    }
    Err(InputError::ReadFailed)
}

/// Writes all of the bytes, or, if a write fails or takes none, a prefix of them. A write that is
/// interrupted is tried again.
///
/// # Errors
///
/// `WriteFailed` if not all was written.
///
/// # Examples
///
/// ```
/// use stun_programs::{WriteFailed, write_all};
///
/// let mut output = Vec::new(alloc);
/// assert_eq!(rt; write_all(b"one message", &mut output), Ok(()));
/// assert_eq!(rt; output.as_slice(), b"one message".as_slice());
/// // A slice of four bytes takes no more.
/// let mut output = [0; 4];
/// assert_eq!(rt; write_all(b"one message", &mut output.as_mut_slice()), Err(WriteFailed));
/// ```
pub fn write_all<W: Write>(bytes: &[u8], writer: &mut W) -> Result<(), WriteFailed>
    ensures { MatchResult result
        (λ _. Appends (W.contents writer.old) (W.contents writer.new) bytes.now)
        (λ _. WritesPart (W.contents writer.old) (W.contents writer.new) bytes.now) }
{
    let mut written = 0;
    for _turn in 0..u64::MAX {
        if written == bytes.len() {
            break;
        }
        match writer.write(&bytes[written..]) {
            Ok(0) => break,
            Ok(count) => written += count,
            Err(e) => {
                if e.kind() != ErrorKind::Interrupted {
                    break;
                }
            }
        }
    }
    if written < bytes.len() {
        return Err(WriteFailed);
    }
    Ok(())
}
