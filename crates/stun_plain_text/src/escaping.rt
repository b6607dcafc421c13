//! A slice that takes text and keeps it in printable ASCII.

ghost use Rattle.std.specs.Prelude.{◌≡◌, [], ◌∷◌, true, OnOk};
ghost use Rattle.stun_grammar.specs.Names.{hex_byte};
ghost use Rattle.stun_plain_text.specs.Escaping.{is_plain, escaped_byte, escaped};

use std::convert::Infallible;
use stun_text::hex_digit;
use stun_types::{TextSink, TextSlice};

/// A slice that takes text, through which text becomes printable ASCII. What isn't is escaped: a
/// backslash, `x`, and two hexadecimal digits stand for a byte of it, and for a backslash.
#[derive(Drop)]
pub(crate) struct Escaper<'s, 'a> {
    pub(crate) slice: &'s mut TextSlice<'a>,
}

/// Whether a byte stands for itself.
fn is_plain(byte: u8) -> bool
    ensures { result ≡ is_plain byte }
{
    0x20 <= byte && byte < 0x7F && byte != 0x5C
}

/// Writes a byte of a text.
fn put_byte<S: TextSink>(sink: &mut S, byte: u8) -> Result<(), S::Error>
    ensures { OnOk result (S.wrote sink.old (escaped_byte byte) sink.new) }
{
    if is_plain(byte) {
        put_plain(sink, byte)
    } else {
        put_escape(sink, byte)
    }
}

/// Writes a byte that stands for itself.
#[tactic(auto, using(crate::proofs::EscapingLemmas::plain_is_text))]
fn put_plain<S: TextSink>(sink: &mut S, byte: u8) -> Result<(), S::Error>
    requires { is_plain byte ≡ true }
    ensures { OnOk result (S.wrote sink.old (byte ∷ []) sink.new) }
{
    let bytes = [byte];
    match str::from_utf8(&bytes) {
        Ok(text) => sink.put(text),
        Err(_) => Ok(()),
    }
}

/// Writes the escape of a byte.
fn put_escape<S: TextSink>(sink: &mut S, byte: u8) -> Result<(), S::Error>
    ensures { OnOk result (S.wrote sink.old (0x5C ∷ 0x78 ∷ hex_byte byte) sink.new) }
{
    sink.put("\\x")?;
    sink.put(hex_digit(byte / 16))?;
    sink.put(hex_digit(byte % 16))?;
    Ok(())
}

/// Writes a text.
fn put_text<S: TextSink>(sink: &mut S, text: &[u8]) -> Result<(), S::Error>
    ensures { OnOk result (S.wrote sink.old (escaped text.now) sink.new) }
{
    for byte in text {
        put_byte(sink, *byte)?;
    }
    Ok(())
}

impl TextSink for Escaper<'_, '_> {
    ghost use Rattle.stun_plain_text.specs.Escaping.{EscapedWrote};
    ghost use Rattle.stun_plain_text.specs.EscapingLaws.{escaped_nothing, escaped_joins};

    type Error = Infallible;

    ghost wrote = { EscapedWrote };

    fn put(&mut self, text: &str) -> Result<(), Infallible> {
        put_text(self.slice, text.as_bytes())
    }

    ghost nothing = { escaped_nothing };

    ghost joins = { escaped_joins };
}
