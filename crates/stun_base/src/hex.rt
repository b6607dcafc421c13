//! Bytes in hexadecimal.

ghost use Rattle.std.specs.Prelude.{OnOk};
ghost use Rattle.stun_grammar.specs.Names.{hex_byte};

use std::fmt;
use stun_text::{PrintText, TextSink, hex_digit};

/// Bytes that print in hexadecimal, two digits for each, in lower case: `000aff`. It takes no
/// memory.
#[derive(Clone, Copy)]
pub struct Hex<'a>(pub &'a [u8]);

/// Writes a byte as two hexadecimal digits, in lower case.
fn put_byte<S: TextSink>(sink: &mut S, byte: u8) -> Result<(), S::Error>
    ensures { OnOk result (S.wrote sink.old (hex_byte byte) sink.new) }
{
    sink.put(hex_digit(byte / 16))?;
    sink.put(hex_digit(byte % 16))?;
    Ok(())
}

impl PrintText for Hex<'_> {
    ghost use Rattle.stun_grammar.specs.Names.{hex};

    ghost text = { λ bytes. hex bytes.0.now };

    fn print<S: TextSink>(&self, sink: &mut S) -> Result<(), S::Error> {
        for byte in self.0 {
            put_byte(sink, *byte)?;
        }
        Ok(())
    }
}

impl fmt::Display for Hex<'_> {
    ghost use Rattle.std.specs.Prelude.{Some};
    ghost use Rattle.stun_grammar.specs.Names.{hex};

    ghost output = { λ bytes. Some (hex bytes.0.now) };

    fn fmt<W: fmt::Write>(&self, f: &mut fmt::Formatter<W>) -> fmt::Result {
        self.print(f)
    }
}
