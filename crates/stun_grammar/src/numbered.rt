//! Numbers that have names.

ghost use Rattle.std.specs.Prelude.{OnOk};
ghost use Rattle.stun_grammar.specs.Names.{numbered_text};

use stun_text::{TextSink, put_decimal, put_hex};

/// Writes a number that has a name: the number in decimal, and in parentheses the number in
/// hexadecimal, in lower case and without leading zeros, and the name: `1(0x1: BINDING)`.
///
/// # Errors
///
/// That of the sink.
pub fn put_numbered<S: TextSink>(sink: &mut S, number: u16, name: &str) -> Result<(), S::Error>
    ensures { OnOk result (S.wrote sink.old (numbered_text number name.now) sink.new) }
{
    put_decimal(sink, number as u64)?;
    sink.put("(0x")?;
    put_hex(sink, number as u128)?;
    sink.put(": ")?;
    sink.put(name)?;
    sink.put(")")?;
    Ok(())
}
