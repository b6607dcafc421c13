//! What the value of an attribute is, by its type.

use crate::fault::{Fault, push_fault};
use crate::names::{push_algorithm, push_name};
use crate::values::{fault_of, number_in};
use std::alloc::AllocError;
use std::net::SocketAddr;
use stun_base::Hex;
use stun_grammar::attribute_types::{PASSWORD_ALGORITHM, PASSWORD_ALGORITHMS};
use stun_plain_text::value_form;
use stun_types::attribute::{AttributeType, ValueForm};
use stun_types::message::TransactionId;
use stun_values::{TypedValue, read_address, read_text, read_value, xor_addr};
use turn_attrs::attribute_types::THIRD_PARTY_AUTHORIZATION;

/// What a value is.
#[derive(Clone, Copy)]
pub enum Reading<'a> {
    /// A number.
    Number(u64),
    /// A text.
    Text(&'a str),
    /// An address, which is no longer XORed.
    Address(SocketAddr),
    /// The code and the reason of an error.
    Failure(u16, &'a str),
    /// The number of a password algorithm.
    Algorithm(u16),
    /// A list of password algorithms, four octets each.
    Algorithms(&'a [u8]),
    /// A list of attribute types, two octets each.
    Types(&'a [u8]),
    /// No octets.
    Empty,
    /// Octets, of no form that is known.
    Octets(&'a [u8]),
    /// Octets that are not what their type asks for, and why.
    Malformed(Fault, &'a [u8]),
}

/// The first two octets as a number.
pub fn pair_in(octets: &[u8]) -> Option<u16> {
    match octets {
        [high, low, ..] => Some(u16::from_be_bytes([*high, *low])),
        _ => None,
    }
}

/// The reading of a value that the library has read.
fn of_typed<'a>(typed: TypedValue<'a>, id: TransactionId, value: &'a [u8]) -> Reading<'a> {
    match typed {
        TypedValue::Plain(text) | TypedValue::Quoted(text) => Reading::Text(text),
        TypedValue::ErrorCode(code, reason) => Reading::Failure(code, reason),
        TypedValue::Types(list) => Reading::Types(list),
        TypedValue::Address(address) => Reading::Address(address),
        TypedValue::XorAddress(address) => Reading::Address(xor_addr(address, id)),
        TypedValue::Bytes(_)
        | TypedValue::Checksum(_)
        | TypedValue::Algorithm(_)
        | TypedValue::Algorithms(_) => Reading::Octets(value),
    }
}

/// The reading of octets of no form that is known.
fn of_octets(value: &[u8]) -> Reading<'_> {
    if value.is_empty() {
        return Reading::Empty;
    }
    Reading::Octets(value)
}

/// The reading of a number in the first octets of a value.
fn of_number(value: &[u8], width: usize) -> Reading<'_> {
    match number_in(value, width) {
        Some(number) => Reading::Number(number),
        None => of_octets(value),
    }
}

/// The reading of an address, which was XORed or not.
fn of_address(value: &[u8], id: Option<TransactionId>) -> Reading<'_> {
    match (read_address(value), id) {
        (Ok(address), None) => Reading::Address(address),
        (Ok(address), Some(id)) => Reading::Address(xor_addr(address, id)),
        (Err(_), _) => of_octets(value),
    }
}

/// The reading of a text.
fn of_text(value: &[u8]) -> Reading<'_> {
    match read_text(value, u16::MAX) {
        Ok(text) => Reading::Text(text),
        Err(_) => of_octets(value),
    }
}

/// The reading of a value by the form of the values of its type.
fn of_form(atype: u16, id: TransactionId, value: &[u8]) -> Reading<'_> {
    match value_form(atype) {
        Some(ValueForm::Number { width, .. } | ValueForm::PaddedNumber { width, .. }) => {
            of_number(value, width)
        }
        Some(ValueForm::Address) => of_address(value, None),
        Some(ValueForm::XorAddress) => of_address(value, Some(id)),
        _ => of_octets(value),
    }
}

/// The reading of a value that is what its type asks for.
fn of_sound<'a>(atype: AttributeType, id: TransactionId, value: &'a [u8]) -> Reading<'a> {
    match atype.value() {
        PASSWORD_ALGORITHM => Reading::Algorithm(pair_in(value).unwrap_or(0)),
        PASSWORD_ALGORITHMS => Reading::Algorithms(value),
        THIRD_PARTY_AUTHORIZATION => of_text(value),
        number => match read_value(atype, value) {
            Some(Ok(typed)) => of_typed(typed, id, value),
            _ => of_form(number, id, value),
        },
    }
}

/// Reads the value of an attribute of this type, in a message with this transaction ID.
pub fn read_as<'a>(atype: AttributeType, id: TransactionId, value: &'a [u8]) -> Reading<'a> {
    match fault_of(atype, value) {
        Some(error) => Reading::Malformed(Fault::new(atype, value, error), value),
        None => of_sound(atype, id, value),
    }
}

/// Appends a text in quotation marks, in printable ASCII: a backslash, a quotation mark and what is
/// not printable are `\x` and two hexadecimal digits for each octet, so the text can't steer a
/// terminal.
pub fn push_escaped(text: &mut String, given: &str) -> Result<(), AllocError> {
    text.push('"')?;
    for byte in given.as_bytes() {
        if matches!(*byte, b' '..=b'~') && !matches!(*byte, b'\\' | b'"') {
            text.push(char::from(*byte))?;
        } else {
            write!(text, "\\x{}", Hex(&[*byte]))?;
        }
    }
    text.push('"')
}

/// Appends what is before an entry of a list: a comma and a space, unless it is the first.
fn push_comma(text: &mut String, is_first: bool) -> Result<(), AllocError> {
    if is_first {
        return Ok(());
    }
    text.push_str(", ")
}

/// Appends the names of a list of types, with a comma and a space between them.
fn push_types(text: &mut String, list: &[u8]) -> Result<(), AllocError> {
    let mut is_first = true;
    for entry in list.chunks_exact(2) {
        if let Some(number) = pair_in(entry) {
            push_comma(text, is_first)?;
            push_name(text, AttributeType(number))?;
            is_first = false;
        }
    }
    Ok(())
}

/// Appends the names of a list of password algorithms, with a comma and a space between them.
fn push_algorithms(text: &mut String, list: &[u8]) -> Result<(), AllocError> {
    let mut is_first = true;
    for entry in list.chunks_exact(4) {
        if let Some(number) = pair_in(entry) {
            push_comma(text, is_first)?;
            push_algorithm(text, number)?;
            is_first = false;
        }
    }
    Ok(())
}

/// Appends what is wrong with a value, and its octets, if it has some.
fn push_malformed(text: &mut String, fault: Fault, value: &[u8]) -> Result<(), AllocError> {
    text.push_str("malformed (")?;
    push_fault(text, fault)?;
    text.push_str(")")?;
    if value.is_empty() {
        return Ok(());
    }
    write!(text, " 0x{}", Hex(value))
}

/// Appends a reading as a text of one line.
pub fn push_reading(text: &mut String, reading: Reading<'_>) -> Result<(), AllocError> {
    match reading {
        Reading::Number(number) => write!(text, "{number}"),
        Reading::Text(given) => push_escaped(text, given),
        Reading::Address(address) => write!(text, "{address}"),
        Reading::Failure(code, reason) => {
            write!(text, "{code} ")?;
            push_escaped(text, reason)
        }
        Reading::Algorithm(number) => push_algorithm(text, number),
        Reading::Algorithms(list) => push_algorithms(text, list),
        Reading::Types(list) => push_types(text, list),
        Reading::Empty => text.push_str("(empty)"),
        Reading::Octets(value) => write!(text, "0x{}", Hex(value)),
        Reading::Malformed(fault, value) => push_malformed(text, fault, value),
    }
}
