//! How an UNKNOWN-ATTRIBUTES is printed (RFC 8489, section 14.13).

ghost use Rattle.std.specs.Prelude.{◌≡◌, ◌++◌, OnOk};
ghost use Rattle.stun_text.specs.Lists.{with_commas, comma_before};
ghost use Rattle.stun_values.specs.TypeLists.{types_in};
ghost use Rattle.stun_plain_text.specs.PlainValues.{type_text, listed_types_text, unknown_attributes_text};

use crate::values::{print_malformed, put_type};
use stun_base::number_at;
use stun_grammar::attribute_types::UNKNOWN_ATTRIBUTES;
use stun_text::put_comma;
use stun_types::TextSink;
use stun_types::attribute::AttributeType;
use stun_values::check_types;

/// Writes the type at an index of the list, and what precedes it.
#[tactic(auto, using(stun_text::proofs::Joining::both, stun_text::proofs::Joining::spelled_so))]
fn put_listed<S: TextSink>(sink: &mut S, index: usize, atype: AttributeType) -> Result<(), S::Error>
    ensures { OnOk result (S.wrote sink.old (comma_before index ++ type_text atype.0) sink.new) }
{
    put_comma(sink, index)?;
    put_type(sink, atype)?;
    Ok(())
}

/// Writes the types in a value, two bytes for each, with a comma and a space between them.
fn put_types_in<S: TextSink>(sink: &mut S, value: &[u8]) -> Result<(), S::Error>
    ensures { OnOk result
        (S.wrote sink.old (with_commas type_text (types_in value.now)) sink.new) }
{
    for i in 0..value.len() / 2 {
        put_listed(sink, i, AttributeType(number_at(value, 2 * i)))?;
    }
    Ok(())
}

/// Prints an UNKNOWN-ATTRIBUTES whose value is a list of types.
fn print_listed<S: TextSink>(sink: &mut S, value: &[u8]) -> Result<(), S::Error>
    ensures { OnOk result (S.wrote sink.old (listed_types_text value.now) sink.new) }
{
    put_type(sink, AttributeType(UNKNOWN_ATTRIBUTES))?;
    sink.put(": [")?;
    put_types_in(sink, value)?;
    sink.put("]")?;
    Ok(())
}

/// Prints an UNKNOWN-ATTRIBUTES: its types, by their numbers and names.
pub(crate) fn print_unknown_attributes<S: TextSink>(
    sink: &mut S,
    value: &[u8],
) -> Result<(), S::Error>
    ensures { OnOk result (S.wrote sink.old (unknown_attributes_text value.now) sink.new) }
{
    match check_types(value) {
        Ok(()) => print_listed(sink, value),
        Err(_) => print_malformed(sink, AttributeType(UNKNOWN_ATTRIBUTES), value),
    }
}
