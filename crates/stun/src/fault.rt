//! Why a value isn't what its type asks for, in words and as a code.

use crate::values::number_in;
use std::alloc::AllocError;
use stun_grammar::attribute_types::{
    ERROR_CODE, MESSAGE_INTEGRITY_SHA256, PASSWORD_ALGORITHM, PASSWORD_ALGORITHMS,
};
use stun_plain_text::value_form;
use stun_types::attribute::{AttributeType, ValueForm};
use stun_types::message::StunParseError;
use turn_attrs::attribute_types::ADDRESS_ERROR_CODE;

/// Why a value isn't what its type asks for.
#[derive(Clone, Copy, PartialEq, Eq)]
pub enum Fault {
    /// It has fewer octets than the least that it may have.
    TooShort {
        least: usize,
        octets: usize,
    },
    /// It has more octets than the most that it may have.
    TooLong {
        most: usize,
        octets: usize,
    },
    /// The number of its octets is no multiple of 4.
    NotFours(usize),
    /// A password algorithm states so many octets of parameters, and has none.
    Parameters(usize),
    /// The number is below the least one, or above the greatest.
    OutOfRange {
        number: u64,
        least: u64,
        greatest: u64,
    },
    /// The address family is neither IPv4 nor IPv6.
    Family(u8),
    /// The code of an error isn't 300 to 699.
    NoCode,
    /// The text isn't UTF-8.
    NotUtf8,
}

/// The fault of a number that is out of range.
fn of_number(value: &[u8], width: usize, least: u64, greatest: u64) -> Fault {
    Fault::OutOfRange {
        number: number_in(value, width).unwrap_or(0),
        least,
        greatest,
    }
}

/// The octet at an index of a value.
fn octet_at(value: &[u8], index: usize) -> u8 {
    value.get(index).copied().unwrap_or(0)
}

/// The fault of an error, after the family if it has one.
fn of_error(value: &[u8]) -> Fault {
    let (class, number) = (octet_at(value, 2) % 8, octet_at(value, 3));
    if matches!(class, 3..=6) && number <= 99 {
        Fault::NotUtf8
    } else {
        Fault::NoCode
    }
}

/// The fault of the error of a family.
fn of_family_error(value: &[u8]) -> Fault {
    match octet_at(value, 0) {
        1 | 2 => of_error(value),
        family => Fault::Family(family),
    }
}

/// The fault of a value that has a length that its type allows.
fn of_content(atype: AttributeType, value: &[u8]) -> Fault {
    match atype.value() {
        MESSAGE_INTEGRITY_SHA256 | PASSWORD_ALGORITHM | PASSWORD_ALGORITHMS => {
            Fault::NotFours(value.len())
        }
        ERROR_CODE => of_error(value),
        ADDRESS_ERROR_CODE => of_family_error(value),
        number => match value_form(number) {
            Some(
                ValueForm::Number {
                    width,
                    least,
                    greatest,
                }
                | ValueForm::PaddedNumber {
                    width,
                    least,
                    greatest,
                },
            ) => of_number(value, width, least, greatest),
            Some(ValueForm::Address | ValueForm::XorAddress) => Fault::Family(octet_at(value, 1)),
            _ => Fault::NotUtf8,
        },
    }
}

impl Fault {
    /// Why the library refuses a value of a type by this error.
    pub fn new(atype: AttributeType, value: &[u8], error: StunParseError) -> Fault {
        match error {
            StunParseError::Truncated { expected, actual } => Fault::TooShort {
                least: expected,
                octets: actual,
            },
            StunParseError::TooLarge { actual, .. }
                if matches!(atype.value(), PASSWORD_ALGORITHM | PASSWORD_ALGORITHMS) => {
                Fault::Parameters(actual.saturating_sub(4))
            }
            StunParseError::TooLarge { expected, actual } => Fault::TooLong {
                most: expected,
                octets: actual,
            },
            _ => of_content(atype, value),
        }
    }

    /// The code of the fault in JSON.
    pub fn code(self) -> &'static str {
        match self {
            Fault::TooShort { .. } => "too_short",
            Fault::TooLong { .. } => "too_long",
            Fault::NotFours(_) => "not_fours",
            Fault::Parameters(_) => "parameters",
            Fault::OutOfRange { .. } => "out_of_range",
            Fault::Family(_) => "unknown_family",
            Fault::NoCode => "no_error_code",
            Fault::NotUtf8 => "not_utf8",
        }
    }
}

/// The word for octets of this number.
fn unit(octets: usize) -> &'static str {
    if octets == 1 { "octet" } else { "octets" }
}

/// Appends the words for a number that is out of range.
fn push_range(text: &mut String, number: u64, least: u64, greatest: u64) -> Result<(), AllocError> {
    if least == greatest {
        return write!(text, "{number} is not {least}");
    }
    write!(text, "{number} is not {least} to {greatest}")
}

/// Appends the words for a fault.
pub fn push_fault(text: &mut String, fault: Fault) -> Result<(), AllocError> {
    match fault {
        Fault::TooShort { least, octets } => {
            let unit = unit(octets);
            write!(text, "{octets} {unit}, fewer than {least}")
        }
        Fault::TooLong { most, octets } => {
            let unit = unit(octets);
            write!(text, "{octets} {unit}, more than {most}")
        }
        Fault::NotFours(octets) => write!(text, "{octets} octets, no multiple of 4"),
        Fault::Parameters(octets) => {
            let unit = unit(octets);
            write!(text, "an algorithm with {octets} {unit} of parameters")
        }
        Fault::OutOfRange {
            number,
            least,
            greatest,
        } => push_range(text, number, least, greatest),
        Fault::Family(family) => write!(text, "address family {family}, neither 1 nor 2"),
        Fault::NoCode => text.push_str("its code isn't 300 to 699"),
        Fault::NotUtf8 => text.push_str("not UTF-8"),
    }
}
