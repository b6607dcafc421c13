//! Numbers of 8, 16, 32 and 64 bits as the values of attributes.

ghost use Rattle.std.specs.Prelude.{◌≡◌, ◌≤◌, ◌∷◌, [], length, None, Ok, Err, MatchResult};
ghost use Rattle.std.specs.Option.{option_map};
ghost use Rattle.stun_grammar.specs.Numbers.{be16, be32, be64};
ghost use Rattle.stun_types_c.specs.CResults.{parse_result};
ghost use Rattle.stun_types_c.specs.Numbers.{width_in, has_width, zeros_of, range_of, is_in_range, number_answer, AddsPadded, AddsNumber, length_fault, value_with_number, ReadsNumber};

use crate::attribute::ShownAttribute;
use crate::call_result::{CResult, counted, parse_result, plain};
use crate::codes;
use crate::values::value_in;
use crate::writing::add_short;
use byteorder::{BigEndian, ByteOrder};
use discovery_attrs::attribute_types::RESPONSE_PORT;
use stun_attributes::copy_to_start;
use stun_grammar::attribute_types::is_ending;
use stun_plain_text::value_form;
use stun_types::attribute::{ValueForm, check_length};
use stun_types::message::ResumePoint;

/// The numbers that the value of a type may hold.
#[derive(Clone, Copy)]
struct Range {
    least: u64,
    greatest: u64,
}

/// How many bytes the number in a value of a form has: 0 if the value is no number.
fn width_in(form: ValueForm) -> usize
    ensures { result ≡ width_in form }
{
    match form {
        ValueForm::Number { width, .. }
        | ValueForm::PaddedNumber { width, .. }
        | ValueForm::Octets { width } => width,
        ValueForm::Address | ValueForm::XorAddress | ValueForm::Other => 0,
    }
}

/// Whether a number of so many bytes may be the value of a type. An add refuses the ending types
/// by another error.
fn has_width(width: usize, atype: u16) -> bool
    ensures { result ≡ has_width width atype }
{
    if is_ending(atype) {
        return true;
    }
    match value_form(atype) {
        Some(form) => width_in(form) == width,
        None => true,
    }
}

/// How many bytes that are 0 follow it.
fn zeros_of(atype: u16) -> usize
    ensures zeros { result ≡ zeros_of atype }
    ensures few { result ≤ 4 }
{
    match value_form(atype) {
        Some(ValueForm::PaddedNumber { width, .. }) => 4usize.saturating_sub(width),
        _ => 0,
    }
}

/// From which number to which.
fn range_of(atype: u16) -> Range
    ensures { result ≡ range_of atype }
{
    match value_form(atype) {
        Some(
            ValueForm::Number {
                least,
                greatest,
                ..
            }
            | ValueForm::PaddedNumber {
                least,
                greatest,
                ..
            },
        ) => Range { least, greatest },
        _ => Range {
            least: 0,
            greatest: u64::MAX,
        },
    }
}

/// Whether a number is one of these.
fn is_in_range(atype: u16, number: u64) -> bool
    ensures { result ≡ is_in_range atype number }
{
    let range = range_of(atype);
    range.least <= number && number <= range.greatest
}

/// Why a number of so many bytes isn't added as the value of a type.
fn number_answer(width: usize, atype: u16, number: u64) -> Option<CResult>
    ensures { result ≡ number_answer width atype number }
{
    if !has_width(width, atype) {
        return Some(plain(codes::BAD_ARGUMENT));
    }
    if !is_in_range(atype, number) {
        let greatest = range_of(atype).greatest;
        return Some(counted(codes::OUT_OF_RANGE, greatest as usize, number as usize));
    }
    None
}

/// Adds a number, by its bytes, with the zeros that follow it.
fn add_padded(room: &mut [u8], written: &mut usize, atype: u16, octets: &[u8]) -> CResult
    requires { length octets.now ≤ 8 }
    ensures { AddsPadded atype octets.now result
        (record { slice = room.old; count = written.old })
        (record { slice = room.new; count = written.new }) }
{
    let mut value = [0; 12];
    let length = octets.len() + zeros_of(atype);
    copy_to_start(octets, &mut value);
    add_short(room, written, atype, &value[..length])
}

/// Adds a number, by its bytes, if it may be the value of the type.
fn add_number(
    room: &mut [u8],
    written: &mut usize,
    atype: u16,
    number: u64,
    octets: &[u8],
) -> CResult
    requires { length octets.now ≤ 8 }
    ensures { AddsNumber atype number octets.now result
        (record { slice = room.old; count = written.old })
        (record { slice = room.new; count = written.new }) }
{
    match number_answer(octets.len(), atype, number) {
        Some(answer) => match ResumePoint::check(room, *written) {
            Ok(_) => answer,
            Err(_) => plain(codes::BAD_ARGUMENT),
        },
        None => add_padded(room, written, atype, octets),
    }
}

/// Adds a number of 8 bits.
#[unsafe(no_mangle)]
pub extern "C" fn stun_types_add_u8(
    room: &mut [u8],
    written: &mut usize,
    atype: u16,
    number: u8,
) -> CResult
    ensures { AddsNumber atype number (number ∷ []) result
        (record { slice = room.old; count = written.old })
        (record { slice = room.new; count = written.new }) }
{
    add_number(room, written, atype, u64::from(number), &[number])
}

/// Adds a number of 16 bits.
#[unsafe(no_mangle)]
pub extern "C" fn stun_types_add_u16(
    room: &mut [u8],
    written: &mut usize,
    atype: u16,
    number: u16,
) -> CResult
    ensures { AddsNumber atype number (be16 number) result
        (record { slice = room.old; count = written.old })
        (record { slice = room.new; count = written.new }) }
{
    add_number(
        room,
        written,
        atype,
        u64::from(number),
        &number.to_be_bytes(),
    )
}

/// Adds a number of 32 bits.
#[unsafe(no_mangle)]
pub extern "C" fn stun_types_add_u32(
    room: &mut [u8],
    written: &mut usize,
    atype: u16,
    number: u32,
) -> CResult
    ensures { AddsNumber atype number (be32 number) result
        (record { slice = room.old; count = written.old })
        (record { slice = room.new; count = written.new }) }
{
    add_number(
        room,
        written,
        atype,
        u64::from(number),
        &number.to_be_bytes(),
    )
}

/// Adds a number of 64 bits.
#[unsafe(no_mangle)]
pub extern "C" fn stun_types_add_u64(
    room: &mut [u8],
    written: &mut usize,
    atype: u16,
    number: u64,
) -> CResult
    ensures { AddsNumber atype number (be64 number) result
        (record { slice = room.old; count = written.old })
        (record { slice = room.new; count = written.new }) }
{
    add_number(room, written, atype, number, &number.to_be_bytes())
}

/// Checks the length of a value that is a number of so many bytes, with the zeros that follow it.
fn length_answer(width: usize, atype: u16, value: &[u8]) -> Option<CResult>
    requires { width ≤ 8 }
    ensures answer { result
        ≡ option_map parse_result (length_fault width atype (length value.now)) }
    ensures enough { result ≡ None → width ≤ length value.now }
{
    if atype == RESPONSE_PORT && value.len() == width {
        return None;
    }
    match check_length(value, width + zeros_of(atype)) {
        Ok(()) => None,
        Err(error) => Some(parse_result(error)),
    }
}

/// The value of an attribute that begins with a number of so many bytes.
fn value_with_number<'a>(
    bytes: &'a [u8],
    attribute: &ShownAttribute,
    width: usize,
) -> Result<&'a [u8], CResult>
    requires least { 1 ≤ width }
    requires greatest { width ≤ 8 }
    ensures { MatchResult result
        (λ value. (value_with_number width attribute.now bytes.now ≡ Ok value.now)
        × (width ≤ length value.now))
        (λ answer. value_with_number width attribute.now bytes.now ≡ Err answer) }
{
    let Some(value) = value_in(bytes, attribute) else {
        return Err(plain(codes::BAD_ARGUMENT));
    };
    if !has_width(width, attribute.atype) {
        return Err(plain(codes::BAD_ARGUMENT));
    }
    if let Some(answer) = length_answer(width, attribute.atype, value) {
        return Err(answer);
    }
    if !is_in_range(attribute.atype, BigEndian::read_uint(value, width)) {
        return Err(plain(codes::INVALID_DATA));
    }
    Ok(value)
}

/// Reads the number of so many bytes in an attribute's value, by an expression over the value.
macro_rules! read_number {
    ($bytes:ident, $attribute:ident, $number:ident, $width:literal, $value:ident => $read:expr) => {
        match value_with_number($bytes, $attribute, $width) {
            Ok($value) => {
                *$number = $read;
                plain(codes::OK)
            }
            Err(answer) => answer,
        }
    };
}

/// Reads a number of 8 bits.
#[unsafe(no_mangle)]
pub extern "C" fn stun_types_read_u8(
    bytes: &[u8],
    attribute: &ShownAttribute,
    number: &mut u8,
) -> CResult
    ensures { ReadsNumber 1 attribute.now bytes.now result number.old number.new }
{
    read_number!(bytes, attribute, number, 1, value => value[0])
}

/// Reads a number of 16 bits.
#[unsafe(no_mangle)]
pub extern "C" fn stun_types_read_u16(
    bytes: &[u8],
    attribute: &ShownAttribute,
    number: &mut u16,
) -> CResult
    ensures { ReadsNumber 2 attribute.now bytes.now result number.old number.new }
{
    read_number!(bytes, attribute, number, 2, value => BigEndian::read_u16(value))
}

/// Reads a number of 32 bits.
#[unsafe(no_mangle)]
pub extern "C" fn stun_types_read_u32(
    bytes: &[u8],
    attribute: &ShownAttribute,
    number: &mut u32,
) -> CResult
    ensures { ReadsNumber 4 attribute.now bytes.now result number.old number.new }
{
    read_number!(bytes, attribute, number, 4, value => BigEndian::read_u32(value))
}

/// Reads a number of 64 bits.
#[unsafe(no_mangle)]
pub extern "C" fn stun_types_read_u64(
    bytes: &[u8],
    attribute: &ShownAttribute,
    number: &mut u64,
) -> CResult
    ensures { ReadsNumber 8 attribute.now bytes.now result number.old number.new }
{
    read_number!(bytes, attribute, number, 8, value => BigEndian::read_u64(value))
}
