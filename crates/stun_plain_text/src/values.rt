//! How attributes are printed.

ghost use Rattle.std.specs.Prelude.{OnOk};
ghost use Rattle.stun_attributes.specs.Raw.{raw_type, raw_value};
ghost use Rattle.stun_plain_text.specs.PlainValues.{octets_text, number_text, address_text, xor_address_text, other_value_text, type_text, other_text, malformed_type_text, malformed_text, typed_or_other_text, attribute_text};

use crate::names::{type_name, value_form};
use crate::types::print_unknown_attributes;
use byteorder::{BigEndian, ByteOrder};
use stun_base::Hex;
use stun_grammar::attribute_types::UNKNOWN_ATTRIBUTES;
use stun_grammar::put_numbered;
use stun_text::put_socket;
use stun_types::attribute::{Attribute, AttributeType, RawAttribute, ValueForm};
use stun_types::{PrintText, TextSink, put_decimal};
use stun_values::{read_address, read_value, write_xored};

/// Writes bytes in hexadecimal.
fn put_octets<S: TextSink>(sink: &mut S, value: &[u8]) -> Result<(), S::Error>
    ensures { OnOk result (S.wrote sink.old (octets_text value.now) sink.new) }
{
    sink.put("0x")?;
    Hex(value).print(sink)?;
    Ok(())
}

/// Writes a number of four bytes in decimal.
fn put_number<S: TextSink>(sink: &mut S, value: &[u8]) -> Result<(), S::Error>
    ensures { OnOk result (S.wrote sink.old (number_text value.now) sink.new) }
{
    if value.len() == 4 {
        put_decimal(sink, u64::from(BigEndian::read_u32(value)))
    } else {
        put_octets(sink, value)
    }
}

/// Writes an address.
fn put_address<S: TextSink>(sink: &mut S, value: &[u8]) -> Result<(), S::Error>
    ensures { OnOk result (S.wrote sink.old (address_text value.now) sink.new) }
{
    match read_address(value) {
        Ok(addr) => put_socket(sink, addr),
        Err(_) => put_octets(sink, value),
    }
}

/// Writes an address that is XORed.
fn put_xor_address<S: TextSink>(sink: &mut S, value: &[u8]) -> Result<(), S::Error>
    ensures { OnOk result (S.wrote sink.old (xor_address_text value.now) sink.new) }
{
    match read_address(value) {
        Ok(addr) => write_xored(sink, addr),
        Err(_) => put_octets(sink, value),
    }
}

/// Writes a value of a type that has no typed attribute of RFC 8489.
fn put_other_value<S: TextSink>(sink: &mut S, atype: u16, value: &[u8]) -> Result<(), S::Error>
    ensures { OnOk result (S.wrote sink.old (other_value_text atype value.now) sink.new) }
{
    match value_form(atype) {
        Some(ValueForm::Number { .. }) => put_number(sink, value),
        Some(ValueForm::Address) => put_address(sink, value),
        Some(ValueForm::XorAddress) => put_xor_address(sink, value),
        _ => put_octets(sink, value),
    }
}

/// Writes a type, by its number and its name.
pub(crate) fn put_type<S: TextSink>(sink: &mut S, atype: AttributeType) -> Result<(), S::Error>
    ensures { OnOk result (S.wrote sink.old (type_text atype.0) sink.new) }
{
    put_numbered(sink, atype.value(), type_name(atype))
}

/// Prints an attribute of such a type.
fn print_other<S: TextSink>(
    sink: &mut S,
    atype: AttributeType,
    value: &[u8],
) -> Result<(), S::Error>
    ensures { OnOk result (S.wrote sink.old (other_text atype.0 value.now) sink.new) }
{
    put_type(sink, atype)?;
    sink.put(": ")?;
    put_other_value(sink, atype.value(), value)?;
    Ok(())
}

/// Writes the type of an attribute whose value isn't what it asks for.
#[tactic(auto, using(stun_text::proofs::Joining::both, stun_text::proofs::Joining::spelled_so))]
fn put_malformed_type<S: TextSink>(sink: &mut S, atype: AttributeType) -> Result<(), S::Error>
    ensures { OnOk result (S.wrote sink.old (malformed_type_text atype.0) sink.new) }
{
    put_type(sink, atype)?;
    sink.put("(Malformed): ")?;
    Ok(())
}

/// Prints an attribute whose value isn't what its type asks for.
#[tactic(auto, using(stun_text::proofs::Joining::both, stun_text::proofs::Joining::spelled_so))]
pub(crate) fn print_malformed<S: TextSink>(
    sink: &mut S,
    atype: AttributeType,
    value: &[u8],
) -> Result<(), S::Error>
    ensures { OnOk result (S.wrote sink.old (malformed_text atype.0 value.now) sink.new) }
{
    put_malformed_type(sink, atype)?;
    put_octets(sink, value)?;
    Ok(())
}

/// Prints an attribute that is no UNKNOWN-ATTRIBUTES.
fn print_typed_or_other<S: TextSink>(
    sink: &mut S,
    atype: AttributeType,
    value: &[u8],
) -> Result<(), S::Error>
    ensures { OnOk result (S.wrote sink.old (typed_or_other_text atype.0 value.now) sink.new) }
{
    match read_value(atype, value) {
        Some(Ok(typed)) => typed.print(sink, atype),
        Some(Err(_)) => print_malformed(sink, atype, value),
        None => print_other(sink, atype, value),
    }
}

/// Prints an attribute.
pub(crate) fn print_attribute<S: TextSink>(
    raw: &RawAttribute<'_>,
    sink: &mut S,
) -> Result<(), S::Error>
    ensures { OnOk result
        (S.wrote sink.old (attribute_text (raw_type raw.now) (raw_value raw.now)) sink.new) }
{
    let atype = raw.get_type();
    let value = raw.value().as_bytes();
    if atype.value() == UNKNOWN_ATTRIBUTES {
        print_unknown_attributes(sink, value)
    } else {
        print_typed_or_other(sink, atype, value)
    }
}
