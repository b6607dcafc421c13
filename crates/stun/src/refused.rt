//! Octets that are no message, and why.

use crate::names::push_name;
use crate::readings::pair_in;
use crate::show::push_header;
use std::alloc::AllocError;
use stun_attributes::attribute_at;
use stun_types::attribute::AttributeType;
use stun_types::message::{MessageHeader, StunParseError};

/// An attribute that isn't whole: it overruns the message.
#[derive(Clone, Copy)]
pub struct Overrun {
    /// The offset of the attribute.
    pub offset: usize,
    /// Its type, and the octets of its value by its length field; `None` if its header isn't whole.
    pub stated: Option<(AttributeType, usize)>,
    /// The octets that are left for its value, or for its header.
    pub left: usize,
}

/// Why octets are no message.
#[derive(Clone, Copy)]
pub enum Refusal {
    /// There are none.
    Empty,
    /// They begin as no message does.
    NotStun,
    /// There are fewer than their header, or their length field, says.
    Cut { needed: usize, octets: usize },
    /// There are more.
    TooLong { needed: usize, octets: usize },
    /// An attribute isn't whole.
    Overrun(Overrun),
    /// The FINGERPRINT has so many octets, and not 4.
    FingerprintLength(usize),
    /// The FINGERPRINT is wrong.
    FingerprintWrong,
}

/// The octets from the attribute on that isn't whole, if one isn't.
fn cut_attribute(message: &[u8]) -> Option<&[u8]> {
    let mut rest = message.get(20..)?;
    for _turn in 0..message.len() {
        match attribute_at(rest, 0) {
            Ok(Some((_, behind))) => rest = &rest[behind..],
            Ok(None) => return None,
            Err(_) => return Some(rest),
        }
    }
    None
}

/// The attribute that isn't whole, whose octets begin so.
fn overrun_of(offset: usize, rest: &[u8]) -> Overrun {
    match rest {
        [a, b, high, low, value @ ..] => Overrun {
            offset,
            stated: Some((
                AttributeType(u16::from_be_bytes([*a, *b])),
                usize::from(u16::from_be_bytes([*high, *low])),
            )),
            left: value.len(),
        },
        _ => Overrun {
            offset,
            stated: None,
            left: rest.len(),
        },
    }
}

/// The attribute of a message that isn't whole, if the message is as long as its length field says.
fn overrun_in(bytes: &[u8]) -> Option<Overrun> {
    let field = usize::from(pair_in(bytes.get(2..)?)?);
    if bytes.len().checked_sub(20) != Some(field) {
        return None;
    }
    let rest = cut_attribute(bytes)?;
    Some(overrun_of(bytes.len().saturating_sub(rest.len()), rest))
}

impl Refusal {
    /// Why the library refuses octets as a message by this error.
    pub fn new(bytes: &[u8], error: StunParseError) -> Refusal {
        match error {
            _ if bytes.is_empty() => Refusal::Empty,
            StunParseError::FingerprintMismatch => Refusal::FingerprintWrong,
            StunParseError::Truncated {
                expected: 4,
                actual,
            }
            | StunParseError::TooLarge {
                expected: 4,
                actual,
            } => Refusal::FingerprintLength(actual),
            StunParseError::Truncated { expected, actual } => match overrun_in(bytes) {
                Some(overrun) => Refusal::Overrun(overrun),
                None => Refusal::Cut {
                    needed: expected,
                    octets: actual,
                },
            },
            StunParseError::TooLarge { expected, actual } => Refusal::TooLong {
                needed: expected,
                octets: actual,
            },
            _ => Refusal::NotStun,
        }
    }

    /// The code of the refusal in JSON.
    pub fn code(self) -> &'static str {
        match self {
            Refusal::Empty => "empty",
            Refusal::NotStun => "not_stun",
            Refusal::Cut { .. } => "too_short",
            Refusal::TooLong { .. } => "too_long",
            Refusal::Overrun(_) => "overrun",
            Refusal::FingerprintLength(_) => "malformed_fingerprint",
            Refusal::FingerprintWrong => "wrong_fingerprint",
        }
    }

    /// The attribute that isn't whole.
    pub fn overrun(self) -> Option<Overrun> {
        match self {
            Refusal::Overrun(overrun) => Some(overrun),
            _ => None,
        }
    }
}

/// Appends the words for a refusal.
pub fn push_refusal(text: &mut String, refusal: Refusal) -> Result<(), AllocError> {
    match refusal {
        Refusal::Empty => text.push_str("no message: there are no octets"),
        Refusal::NotStun => text.push_str("no message: it begins as none does"),
        Refusal::Cut { needed, octets } => write!(
            text,
            "no whole message: {needed} octets are needed, and there are {octets}"
        ),
        Refusal::TooLong { needed, octets } => write!(
            text,
            "more than a message: it ends after {needed} octets of {octets}"
        ),
        Refusal::Overrun(_) => text.push_str("no message: an attribute overruns it"),
        Refusal::FingerprintLength(octets) => write!(
            text,
            "no message: its FINGERPRINT has {octets} octets, and not 4"
        ),
        Refusal::FingerprintWrong => text.push_str("no message: its FINGERPRINT is wrong"),
    }
}

/// Appends the line of an attribute that isn't whole.
fn push_overrun(text: &mut String, overrun: Overrun) -> Result<(), AllocError> {
    let (offset, left) = (overrun.offset, overrun.left);
    write!(text, "{offset:>6}  ")?;
    match overrun.stated {
        Some((atype, octets)) if octets > left => {
            push_name(text, atype)?;
            write!(text, ": overruns, {octets} octets stated and {left} left\n")
        }
        Some((atype, octets)) => {
            push_name(text, atype)?;
            write!(
                text,
                ": overruns, {octets} octets stated and {left} left, without its padding\n"
            )
        }
        None => write!(text, "overruns, a header of 4 octets and {left} left\n"),
    }
}

/// Appends the line of what is wrong in a message.
fn push_flaw(text: &mut String, refusal: Refusal) -> Result<(), AllocError> {
    match refusal {
        Refusal::Overrun(overrun) => push_overrun(text, overrun),
        Refusal::FingerprintWrong => text.push_str("        FINGERPRINT: wrong\n"),
        _ => Ok(()),
    }
}

/// Appends the block of octets that are no message, with the header if they have one.
pub fn push_refused(text: &mut String, bytes: &[u8], refusal: Refusal) -> Result<(), AllocError> {
    if let Ok(header) = MessageHeader::from_bytes(bytes) {
        push_header(text, &header, bytes.len())?;
        push_flaw(text, refusal)?;
        text.push_str("        ")?;
    }
    push_refusal(text, refusal)?;
    text.push_str("\n")
}
