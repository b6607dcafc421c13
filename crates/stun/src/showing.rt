//! `stun show`: runs over messages.

ghost use Rattle.std.specs.Prelude.{◌≡◌, IfOk, option_map};
ghost use Rattle.stun_types.specs.Message.{message_bytes};
ghost use Rattle.stun.specs.Shows.{end_by, EndsMessage, EndsOctets};

use crate::end::{RunEnd, StunError};
use crate::hexadecimal::{HexError, looks_hexadecimal, octets_of};
use crate::input::{open_input, read_input};
use crate::json::{push_error, push_object, push_refused_object};
use crate::refused::{Refusal, push_refused};
use crate::secret::password_of;
use crate::show::{facts_of, push_message};
use crate::stream::read_piece;
use crate::validation::Validated;
use clap::ArgMatches;
use std::alloc::{AllocError, Global};
use std::io::{Read, Write};
use std::rt::{Env, Files};
use stun_programs::{RunError, write_all};
use stun_types::message::{LongTermKeyCredentials, Message, MessageIntegrityCredentials};

/// The most bytes that are read of a message in hexadecimal, or of a line of a capture.
const LONGEST_TEXT: usize = 1_048_576;

/// How messages are shown.
#[derive(Clone, Copy)]
pub struct Manner<'a> {
    pub(crate) credentials: Option<&'a MessageIntegrityCredentials>,
    pub(crate) json: bool,
}

/// How a run ends after one that ended so, and another that did.
fn worse(one: RunEnd, other: RunEnd) -> RunEnd {
    if one == RunEnd::Shown { other } else { one }
}

/// How a run ends by a message that has a malformed value or not, and by what its validation answers.
fn end_by(malformed: bool, validated: Option<Validated>) -> RunEnd
    ensures { result ≡ end_by malformed validated }
{
    match validated {
        Some(Err(_)) => RunEnd::Rejected,
        Some(Ok(_)) | None => {
            if malformed {
                RunEnd::Rejected
            } else {
                RunEnd::Shown
            }
        }
    }
}

/// Appends the text of a message, and returns how the run ends.
fn push_shown(
    alloc: Global,
    text: &mut String,
    message: &Message<'_>,
    manner: &Manner<'_>,
) -> Result<RunEnd, AllocError>
    ensures { IfOk result
        (EndsMessage (option_map (λ given. given.now) manner.now.credentials) (message_bytes message.now)) }
{
    let facts = facts_of(alloc, message, manner.credentials)?;
    if manner.json {
        push_object(alloc, text, message, &facts)?;
    } else {
        push_message(text, message, &facts)?;
    }
    Ok(end_by(facts.malformed, facts.validated))
}

/// Appends the text of octets that are no message.
fn push_no_message(
    alloc: Global,
    text: &mut String,
    bytes: &[u8],
    refusal: Refusal,
    manner: &Manner<'_>,
) -> Result<(), AllocError> {
    if manner.json {
        push_refused_object(alloc, text, bytes, refusal)
    } else {
        push_refused(text, bytes, refusal)
    }
}

/// Appends the text of octets, and returns how the run ends.
fn push_octets(
    alloc: Global,
    text: &mut String,
    bytes: &[u8],
    manner: &Manner<'_>,
) -> Result<RunEnd, AllocError>
    ensures { IfOk result (EndsOctets (option_map (λ given. given.now) manner.now.credentials) bytes.now) }
{
    match Message::from_bytes(bytes) {
        Ok(message) => push_shown(alloc, text, &message, manner),
        Err(error) => {
            push_no_message(alloc, text, bytes, Refusal::new(bytes, error), manner)?;
            Ok(RunEnd::Rejected)
        }
    }
}

/// Appends the text of a message in hexadecimal, and returns how the run ends.
fn push_line(
    alloc: Global,
    text: &mut String,
    line: &[u8],
    manner: &Manner<'_>,
) -> Result<RunEnd, StunError> {
    match octets_of(alloc, line) {
        Ok(bytes) => Ok(push_octets(alloc, text, &bytes, manner)?),
        Err(HexError::Empty) => Ok(RunEnd::Shown),
        Err(HexError::NoMemory) => Err(StunError::Run(RunError::NoMemory)),
        Err(error) => {
            if manner.json {
                push_error(alloc, text, error.code(), error.words())?;
            } else {
                text.push_str(error.words())?;
                text.push_str("\n")?;
            }
            Ok(RunEnd::Rejected)
        }
    }
}

/// Shows a message. Nothing is written if an allocation fails.
pub fn show_one<W: Write>(
    alloc: Global,
    bytes: &[u8],
    manner: &Manner<'_>,
    writer: &mut W,
) -> Result<RunEnd, StunError>
    ensures { IfOk result
        (EndsOctets (option_map (λ given. given.now) manner.now.credentials) bytes.now) }
{
    let mut text = String::new(alloc);
    let end = push_octets(alloc, &mut text, bytes, manner)?;
    write_all(text.as_bytes(), writer)?;
    Ok(end)
}

/// Shows a message in raw octets.
fn show_raw<W: Write>(
    alloc: Global,
    bytes: &[u8],
    manner: &Manner<'_>,
    writer: &mut W,
) -> Result<RunEnd, StunError>
    ensures { IfOk result
        (EndsOctets (option_map (λ given. given.now) manner.now.credentials) bytes.now) }
{
    if bytes.is_empty() {
        return Err(StunError::Usage("the input is empty: give a message"));
    }
    if looks_hexadecimal(bytes) {
        return Err(StunError::Usage(
            "the input looks like hexadecimal: read it with --hex, or with --lines if each line is \
            a message",
        ));
    }
    show_one(alloc, bytes, manner, writer)
}

/// Shows a message in hexadecimal.
fn show_hex<W: Write>(
    alloc: Global,
    text: &[u8],
    manner: &Manner<'_>,
    writer: &mut W,
) -> Result<RunEnd, StunError> {
    match octets_of(alloc, text) {
        Ok(bytes) => show_one(alloc, &bytes, manner, writer),
        Err(HexError::NoMemory) => Err(StunError::Run(RunError::NoMemory)),
        Err(HexError::Empty) => Err(StunError::Usage(
            "the input is empty: give a message in hexadecimal",
        )),
        Err(HexError::Odd) => Err(StunError::Usage(
            "the input has an odd number of hexadecimal digits: give two for each octet",
        )),
        Err(HexError::Character) => Err(StunError::Usage(
            "the input isn't hexadecimal: leave out --hex if it is raw",
        )),
    }
}

/// Shows the message of a line.
fn show_line<W: Write>(
    alloc: Global,
    line: &[u8],
    manner: &Manner<'_>,
    writer: &mut W,
) -> Result<RunEnd, StunError> {
    let mut text = String::new(alloc);
    let end = push_line(alloc, &mut text, line, manner)?;
    write_all(text.as_bytes(), writer)?;
    Ok(end)
}

/// Takes a byte of a capture, and shows the message of the line that it ends.
fn take_byte<W: Write>(
    alloc: Global,
    line: &mut Vec<u8>,
    byte: u8,
    manner: &Manner<'_>,
    writer: &mut W,
) -> Result<RunEnd, StunError> {
    if byte == b'\n' {
        let end = show_line(alloc, line, manner, writer)?;
        line.clear();
        return Ok(end);
    }
    if line.len() >= LONGEST_TEXT {
        return Err(StunError::Run(RunError::TooLong));
    }
    match line.push(byte) {
        Ok(()) => Ok(RunEnd::Shown),
        Err(_) => Err(StunError::Run(RunError::NoMemory)),
    }
}

/// Shows the messages of a capture, each in a line in hexadecimal, as soon as its line has ended.
fn show_lines<R: Read, W: Write>(
    alloc: Global,
    reader: &mut R,
    manner: &Manner<'_>,
    writer: &mut W,
) -> Result<RunEnd, StunError> {
    let mut line = Vec::new(alloc);
    let mut piece = [0; 4096];
    let mut end = RunEnd::Shown;
    for _turn in 0..u64::MAX {
        let count = read_piece(reader, &mut piece)?;
        if count == 0 {
            let last = show_line(alloc, &line, manner, writer)?;
            return Ok(worse(end, last));
        }
        for byte in &piece[..count] {
            end = worse(end, take_byte(alloc, &mut line, *byte, manner, writer)?);
        }
    }
    Ok(end)
}

/// Shows the messages of a capture in a file, or on standard input.
fn show_capture<S: AllocGlobal + Files, R: Read, W: Write, E: Write>(
    system: &S,
    path: Option<&str>,
    manner: &Manner<'_>,
    reader: &mut R,
    writer: &mut W,
    errors: &mut E,
) -> Result<RunEnd, StunError> {
    match path {
        None => show_lines(system.alloc(), reader, manner, writer),
        Some(path) => {
            let mut file = open_input(system, path, errors)?;
            show_lines(system.alloc(), &mut file, manner, writer)
        }
    }
}

/// The credentials that the arguments give, if they give some.
fn credentials_of<S: AllocGlobal + Files + Env, E: Write>(
    system: &S,
    matches: &ArgMatches<'_>,
    errors: &mut E,
) -> Result<Option<MessageIntegrityCredentials>, StunError> {
    let (user, realm) = (matches.get_str("user"), matches.get_str("realm"));
    let Some(password) = password_of(system, matches, errors)? else {
        if user.is_some() {
            return Err(StunError::Usage(
                "a user is named, and no password: give it by --password-file or STUN_PASSWORD",
            ));
        }
        return Ok(None);
    };
    let (Some(user), Some(realm)) = (user, realm) else {
        return Ok(Some(MessageIntegrityCredentials::ShortTerm(password)));
    };
    let (alloc, text) = (system.alloc(), password.password());
    let (user, realm) = (
        String::from_str(alloc, user)?,
        String::from_str(alloc, realm)?,
    );
    let text = String::from_str(alloc, text)?;
    let credentials = LongTermKeyCredentials::new(user, text, realm);
    Ok(Some(MessageIntegrityCredentials::LongTerm(credentials)))
}

/// Runs `stun show`.
pub fn run_show<S: AllocGlobal + Files + Env, R: Read, W: Write, E: Write>(
    system: &S,
    matches: &ArgMatches<'_>,
    reader: &mut R,
    writer: &mut W,
    errors: &mut E,
) -> Result<RunEnd, StunError> {
    let credentials = credentials_of(system, matches, errors)?;
    let manner = Manner {
        credentials: credentials.as_ref(),
        json: matches.get_flag("json"),
    };
    let path = matches.get_str("FILE");
    if matches.get_flag("lines") {
        return show_capture(system, path, &manner, reader, writer, errors);
    }
    let input = read_input(system, path, LONGEST_TEXT, reader, errors)?;
    if matches.get_flag("hex") {
        show_hex(system.alloc(), &input, &manner, writer)
    } else {
        show_raw(system.alloc(), &input, &manner, writer)
    }
}
