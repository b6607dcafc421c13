//! A run of the program, over any reader and writer.

ghost use Rattle.std.specs.Option.{option_map};
ghost use Rattle.stun_show.specs.ShowRun.{Ends};

use crate::report::{RunEnd, report};
use std::alloc::Global;
use std::io::{Read, Write};
use stun_programs::{RunError, read_all, write_all};

/// The most bytes that are read: 128 KiB.
const LONGEST_INPUT: usize = 131_072;

/// Reads a message, up to the end of `reader`, and writes its report.
///
/// It reads at most 131072 bytes, makes the report in memory that `alloc` gives, and only then
/// writes it. It takes memory for the input, the report and a key alone. With a password, the
/// message's integrity is checked with it as a short-term key, and the result is the last line of
/// the report.
///
/// The run ends with `Shown` or `Refused` once the whole report is written: with `Refused` if the
/// bytes are refused, or the message isn't valid with the password.
///
/// # Errors
///
/// `WriteFailed` if a prefix of the report was written, and then a write failed or took no bytes.
/// With every other error nothing was written: `TooLong` if there are more than 131072 bytes to
/// read, `ReadFailed` if a read failed, `NoMemory` if an allocation failed. It never fails with
/// `Usage`.
pub fn run<R: Read, W: Write>(
    alloc: Global,
    reader: &mut R,
    password: Option<&str>,
    writer: &mut W,
) -> Result<RunEnd, RunError>
    ensures { Ends (option_map (λ given. given.now) password.entry) result
        (R.remaining reader.old) (R.remaining reader.new)
        (W.contents writer.old) (W.contents writer.new) }
{
    let input = read_all(alloc, LONGEST_INPUT, reader)?;
    let (text, end) = report(alloc, &input, password)?;
    write_all(text.as_bytes(), writer)?;
    Ok(end)
}
