//! A list of attribute types in two bytes each, tested and printed (RFC 8489, section 14.13).

ghost use Rattle.std.specs.Prelude.{◌≡◌, ◌<◌, ◌≤◌, ◌%◌, ◌++◌, Some, None, MatchResult, OnOk, length};
ghost use Rattle.stun_grammar.specs.Names.{attribute_type_debug};
ghost use Rattle.stun_text.specs.Lists.{with_commas, comma_before};
ghost use Rattle.stun_values.specs.TypeLists.{types_fault, types_in, types_text, listed_text};

use stun_base::{AttributeType, StunParseError, StunWriteError, number_at};
use stun_grammar::{attribute_types, put_type_debug};
use stun_text::{PrintText, TextSink, put_comma};

/// The most types in a list: those of 65534 bytes, since a value has at most 65535.
pub const TYPES_MAX: usize = 32767;

/// Tests that a list of so many types may be made.
///
/// # Errors
///
/// `TooLarge { expected: 32767, actual: count }`, which counts types and not bytes, if there are
/// more than 32767.
pub fn check_type_count(count: usize) -> Result<(), StunWriteError>
    ensures { MatchResult result (λ _. count ≤ 32767)
        (λ e. (32767 < count) × (e ≡ StunWriteError.TooLarge 32767 count)) }
{
    if count > TYPES_MAX {
        return Err(StunWriteError::TooLarge {
            expected: TYPES_MAX,
            actual: count,
        });
    }
    Ok(())
}

/// Tests that a value is a list of types: it has an even number of bytes.
///
/// # Errors
///
/// `Truncated { expected: n + 1, actual: n }` if it has an odd number n of bytes.
pub fn check_types(value: &[u8]) -> Result<(), StunParseError>
    ensures { MatchResult result
        (λ _. (types_fault value.now ≡ None) × (length value.now % 2 ≡ 0))
        (λ e. types_fault value.now ≡ Some e) }
{
    let length = value.len();
    if length % 2 != 0 {
        return Err(StunParseError::Truncated {
            expected: length + 1,
            actual: length,
        });
    }
    Ok(())
}

/// Writes a type at an index of a list, as `{:?}` prints it, and what precedes it.
#[tactic(auto, using(stun_text::proofs::Joining::both, stun_text::proofs::Joining::spelled_so))]
fn put_listed<S: TextSink>(sink: &mut S, index: usize, atype: AttributeType) -> Result<(), S::Error>
    ensures { OnOk result
        (S.wrote sink.old (comma_before index ++ attribute_type_debug atype.0) sink.new) }
{
    put_comma(sink, index)?;
    put_type_debug(sink, atype)?;
    Ok(())
}

/// Writes the types with a comma and a space between them.
fn put_types<S: TextSink>(sink: &mut S, types: &[AttributeType]) -> Result<(), S::Error>
    ensures { OnOk result
        (S.wrote sink.old (with_commas (λ type. attribute_type_debug type.0) types.now) sink.new) }
{
    for i in 0..types.len() {
        put_listed(sink, i, types[i])?;
    }
    Ok(())
}

/// Writes in the same way the types in a value of an even number of bytes, two for each.
fn put_types_in<S: TextSink>(sink: &mut S, value: &[u8]) -> Result<(), S::Error>
    ensures { OnOk result
        (S.wrote sink.old (with_commas attribute_type_debug (types_in value.now)) sink.new) }
{
    for i in 0..value.len() / 2 {
        put_listed(sink, i, AttributeType(number_at(value, 2 * i)))?;
    }
    Ok(())
}

/// Prints an UNKNOWN-ATTRIBUTES of these types: its own type, and after it the list of types as
/// `{:?}` prints it. It takes no memory.
///
/// # Errors
///
/// That of the sink.
pub fn print_types<S: TextSink>(sink: &mut S, types: &[AttributeType]) -> Result<(), S::Error>
    ensures { OnOk result (S.wrote sink.old (listed_text types.now) sink.new) }
{
    AttributeType(attribute_types::UNKNOWN_ATTRIBUTES).print(sink)?;
    sink.put(": [")?;
    put_types(sink, types)?;
    sink.put("]")?;
    Ok(())
}

/// Prints in the same way the value of an UNKNOWN-ATTRIBUTES that [`check_types`] accepts. It takes
/// no memory.
///
/// # Errors
///
/// That of the sink.
pub fn print_types_in<S: TextSink>(sink: &mut S, value: &[u8]) -> Result<(), S::Error>
    ensures { OnOk result (S.wrote sink.old (types_text (types_in value.now)) sink.new) }
{
    AttributeType(attribute_types::UNKNOWN_ATTRIBUTES).print(sink)?;
    sink.put(": [")?;
    put_types_in(sink, value)?;
    sink.put("]")?;
    Ok(())
}
