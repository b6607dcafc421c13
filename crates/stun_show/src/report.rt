//! The report of a message.

ghost use Rattle.std.specs.Prelude.{◌≡◌, ◌++◌, OnOk, IfOk, MatchResult, None, Some, string_bytes};
ghost use Rattle.stun_grammar.specs.Parsing.{parse_fault};
ghost use Rattle.stun_grammar.specs.Showing.{shown};
ghost use Rattle.std.specs.List.{flat_map};
ghost use Rattle.stun_base.specs.MessageTypes.{header_of};
ghost use Rattle.stun_attributes.specs.Raw.{raw_type, raw_value};
ghost use Rattle.stun_types.specs.Message.{message_bytes};
ghost use Rattle.stun_show.specs.Report.{header_line, value_text, attribute_line, refusal_line, password_verdict, integrity_line, integrity_lines, end_of_verdict, end_of_message, report, end_of};
ghost use Rattle.std.specs.Option.{option_map};

use std::alloc::{AllocError, Global};
use stun_base::Hex;
use stun_keys::keys::key_of_bytes;
use stun_types::attribute::RawAttribute;
use stun_types::message::{
    IntegrityAlgorithm, Message, MessageHeader, StunParseError, ValidateError,
};

/// How a run ends that has written a report.
#[derive(Debug, Clone, Copy, PartialEq, Eq)]
pub enum RunEnd {
    /// The message was shown.
    Shown,
    /// The report says why the bytes are refused, or that the password doesn't validate the
    /// message.
    Refused,
}

/// Writes the line of a header.
fn write_header(text: &mut String, header: &MessageHeader) -> Result<(), AllocError>
    ensures { OnOk result
        (string_bytes text.new ≡ string_bytes text.old ++ header_line header.now) }
{
    let class = header.get_type().class();
    let method = header.get_type().method().value();
    let id = header.transaction_id();
    let length = header.data_length();
    write!(text, "{class:?} method={method} id={id} length={length}\n")
}

/// Writes a value in hexadecimal, or a dash if it is empty.
fn write_value(text: &mut String, value: &[u8]) -> Result<(), AllocError>
    ensures { OnOk result (string_bytes text.new ≡ string_bytes text.old ++ value_text value.now) }
{
    if value.is_empty() {
        return text.push_str("-");
    }
    write!(text, "{}", Hex(value))
}

/// Writes the line of an attribute.
fn write_attribute(
    text: &mut String,
    offset: usize,
    attribute: &RawAttribute<'_>,
) -> Result<(), AllocError>
    ensures { OnOk result (string_bytes text.new ≡ string_bytes text.old ++ attribute_line
        (record {
          offset = offset;
          type = raw_type attribute.now;
          value = raw_value attribute.now;
        })) }
{
    let header = attribute.header();
    let atype = header.get_type().value().to_be_bytes();
    let length = header.length();
    write!(text, "{offset} 0x{} {length} ", Hex(&atype))?;
    write_value(text, attribute.value().as_bytes())?;
    text.push_str("\n")
}

/// Writes the line of each attribute that is shown.
fn write_attributes(text: &mut String, message: &Message<'_>) -> Result<(), AllocError>
    ensures { OnOk result (string_bytes text.new ≡ string_bytes text.old ++ flat_map attribute_line
        (shown (message_bytes message.now))) }
{
    for (offset, attribute) in message.iter_attributes() {
        write_attribute(text, offset, &attribute)?;
    }
    Ok(())
}

/// Writes the line that says why bytes are refused.
fn write_refusal(text: &mut String, refusal: StunParseError) -> Result<(), AllocError>
    ensures { OnOk result (string_bytes text.new ≡ string_bytes text.old ++ refusal_line refusal) }
{
    match refusal {
        StunParseError::NotStun => text.push_str("not STUN\n"),
        StunParseError::Truncated { expected, actual } => {
            write!(text, "truncated {expected} {actual}\n")
        }
        StunParseError::TooLarge { expected, actual } => {
            write!(text, "too large {expected} {actual}\n")
        }
        StunParseError::FingerprintMismatch => text.push_str("fingerprint mismatch\n"),
        _ => Ok(()),
    }
}

/// Parses bytes, and returns the header and the message.
fn parsed(bytes: &[u8]) -> Result<(MessageHeader, Message<'_>), StunParseError>
    ensures { MatchResult result
        (λ found. (parse_fault bytes.now ≡ None) × (found.0 ≡ header_of bytes.now)
        × (message_bytes found.1 ≡ bytes.now))
        (λ e. parse_fault bytes.now ≡ Some e) }
{
    let message = Message::from_bytes(bytes)?;
    Ok((message.header(), message))
}

/// Checks a message's integrity with a password as a short-term key.
fn verdict_of(
    alloc: Global,
    message: &Message<'_>,
    password: &str,
) -> Result<Result<IntegrityAlgorithm, ValidateError>, AllocError>
    ensures { IfOk result
        (λ answer. answer ≡ password_verdict (message_bytes message.now) password.now) }
{
    let key = key_of_bytes(alloc, password.as_bytes(), None)?;
    Ok(message.validate_integrity_with_key(&key))
}

/// The line that states the result of checking a message's integrity.
fn line_of(answer: Result<IntegrityAlgorithm, ValidateError>) -> &'static str
    ensures { result.now ≡ integrity_line answer }
{
    match answer {
        Ok(IntegrityAlgorithm::Sha1) => "integrity: Sha1\n",
        Ok(IntegrityAlgorithm::Sha256) => "integrity: Sha256\n",
        Err(ValidateError::Parse(StunParseError::MissingAttribute(_))) => "integrity: missing\n",
        Err(ValidateError::Parse(_)) => "integrity: malformed\n",
        Err(ValidateError::IntegrityFailed) => "integrity: failed\n",
    }
}

/// How the run ends once a message with this result was shown.
fn end_with(answer: Result<IntegrityAlgorithm, ValidateError>) -> RunEnd
    ensures { result ≡ end_of_verdict answer }
{
    match answer {
        Ok(_) => RunEnd::Shown,
        Err(_) => RunEnd::Refused,
    }
}

/// Writes the line on a message's integrity, if a password is given, and returns how the run
/// ends.
fn write_integrity(
    alloc: Global,
    text: &mut String,
    message: &Message<'_>,
    password: Option<&str>,
) -> Result<RunEnd, AllocError>
    ensures text { OnOk result (string_bytes text.new ≡ string_bytes text.old ++ integrity_lines
        (message_bytes message.now) (option_map (λ given. given.now) password.entry)) }
    ensures end { IfOk result (λ end. end ≡ end_of_message (message_bytes message.now)
        (option_map (λ given. given.now) password.entry)) }
{
    let Some(password) = password else {
        return Ok(RunEnd::Shown);
    };
    let answer = verdict_of(alloc, message, password)?;
    text.push_str(line_of(answer))?;
    Ok(end_with(answer))
}

/// The report of bytes, and how the run ends once it is written; the error says that an allocation
/// failed.
pub fn report(
    alloc: Global,
    bytes: &[u8],
    password: Option<&str>,
) -> Result<(String, RunEnd), AllocError>
    ensures { IfOk result (λ made.
        (string_bytes made.0 ≡ report bytes.now (option_map (λ given. given.now) password.entry))
        × (made.1 ≡ end_of bytes.now (option_map (λ given. given.now) password.entry))) }
{
    let mut text = String::new(alloc);
    match parsed(bytes) {
        Ok((header, message)) => {
            write_header(&mut text, &header)?;
            write_attributes(&mut text, &message)?;
            let end = write_integrity(alloc, &mut text, &message, password)?;
            Ok((text, end))
        }
        Err(refusal) => {
            write_refusal(&mut text, refusal)?;
            Ok((text, RunEnd::Refused))
        }
    }
}
