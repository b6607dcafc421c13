//! How a raw attribute is printed.

ghost use Rattle.std.specs.Prelude.{OnOk, ◌++◌, codes, decimal};
ghost use Rattle.stun_text.specs.Lists.{comma_before};
ghost use Rattle.stun_base.specs.Data.{data_bytes, is_borrowed};
ghost use Rattle.stun_attributes.specs.Raw.{raw_type, raw_data, raw_value};
ghost use Rattle.stun_attributes.specs.PrintedAttributes.{bytes_in_decimal, data_shown, length_and_data, malformed_text, untyped_text};

use crate::wire::{Attribute, RawAttribute};
use std::fmt;
use stun_base::Data;
use stun_grammar::put_type_debug;
use stun_text::{PrintText, TextSink, TextTooLong, put_comma, put_decimal, write_text};
use stun_values::read_value;

/// Writes a byte at an index of a list in decimal, and what precedes it.
#[tactic(auto, using(stun_text::proofs::Joining::both, stun_text::proofs::Joining::spelled_so))]
fn put_byte<S: TextSink>(sink: &mut S, index: usize, byte: u8) -> Result<(), S::Error>
    ensures { OnOk result (S.wrote sink.old (comma_before index ++ decimal byte) sink.new) }
{
    put_comma(sink, index)?;
    put_decimal(sink, byte as u64)?;
    Ok(())
}

/// Writes bytes in decimal, with a comma and a space between them.
fn put_bytes<S: TextSink>(sink: &mut S, bytes: &[u8]) -> Result<(), S::Error>
    ensures { OnOk result (S.wrote sink.old (bytes_in_decimal bytes.now) sink.new) }
{
    for i in 0..bytes.len() {
        put_byte(sink, i, bytes[i])?;
    }
    Ok(())
}

/// Writes bytes between two texts.
fn put_between<S: TextSink>(
    sink: &mut S,
    before: &str,
    bytes: &[u8],
    after: &str,
) -> Result<(), S::Error>
    ensures { OnOk result
        (S.wrote sink.old (before.now ++ bytes_in_decimal bytes.now ++ after.now) sink.new) }
{
    sink.put(before)?;
    put_bytes(sink, bytes)?;
    sink.put(after)?;
    Ok(())
}

/// Writes bytes and whether they are borrowed.
fn put_data<S: TextSink>(sink: &mut S, value: &Data<'_>) -> Result<(), S::Error>
    ensures { OnOk result
        (S.wrote sink.old (data_shown (is_borrowed value.now) (data_bytes value.now)) sink.new) }
{
    let bytes = value.as_bytes();
    match value {
        Data::Borrowed(_) => put_between(sink, "Borrowed(DataSlice([", bytes, "]))"),
        Data::Owned(_) => put_between(sink, "Owned(DataOwned([", bytes, "]))"),
    }
}

/// Writes the length and the bytes of a value, and the parenthesis after them.
fn put_value<S: TextSink>(sink: &mut S, raw: &RawAttribute<'_>) -> Result<(), S::Error>
    ensures { OnOk result (S.wrote sink.old
        (length_and_data (raw_value raw.now) (is_borrowed (raw_data raw.now))) sink.new) }
{
    sink.put("len: ")?;
    put_decimal(sink, raw.length() as u64)?;
    sink.put(", data: ")?;
    put_data(sink, raw.value())?;
    sink.put(")")?;
    Ok(())
}

/// Prints an attribute whose value is not what its type asks for: the type, the length of the value
/// and its bytes, as in
/// `32(0x20: XOR-MAPPED-ADDRESS)(Malformed): len: 3, data: Borrowed(DataSlice([0, 1, 6])))`. It
/// takes no memory.
///
/// # Errors
///
/// That of the sink.
pub fn print_malformed<S: TextSink>(raw: &RawAttribute<'_>, sink: &mut S) -> Result<(), S::Error>
    ensures { OnOk result (S.wrote sink.old
        (malformed_text (raw_type raw.now) (raw_value raw.now) (is_borrowed (raw_data raw.now)))
        sink.new) }
{
    raw.get_type().print(sink)?;
    sink.put("(Malformed): ")?;
    put_value(sink, raw)?;
    Ok(())
}

/// Prints an attribute of a type that has no typed attribute.
fn print_untyped<S: TextSink>(raw: &RawAttribute<'_>, sink: &mut S) -> Result<(), S::Error>
    ensures { OnOk result (S.wrote sink.old
        (untyped_text (raw_type raw.now) (raw_value raw.now) (is_borrowed (raw_data raw.now)))
        sink.new) }
{
    sink.put("RawAttribute (type: ")?;
    put_type_debug(sink, raw.get_type())?;
    sink.put(", ")?;
    put_value(sink, raw)?;
    Ok(())
}

impl PrintText for RawAttribute<'_> {
    ghost use Rattle.stun_base.specs.Data.{is_borrowed};
    ghost use Rattle.stun_attributes.specs.Raw.{raw_type, raw_data, raw_value};
    ghost use Rattle.stun_attributes.specs.PrintedAttributes.{attribute_text};

    ghost text = { λ raw.
        attribute_text (raw_type raw) (raw_value raw) (is_borrowed (raw_data raw)) };

    fn print<S: TextSink>(&self, sink: &mut S) -> Result<(), S::Error> {
        let atype = self.get_type();
        match read_value(atype, self.value().as_bytes()) {
            Some(Ok(value)) => value.print(sink, atype),
            Some(Err(_)) => print_malformed(self, sink),
            None => print_untyped(self, sink),
        }
    }
}

impl RawAttribute<'_> {
    ghost use Rattle.std.specs.Prelude.{◌≡◌, length};
    ghost use Rattle.stun_base.specs.Data.{is_borrowed};
    ghost use Rattle.stun_attributes.specs.Raw.{raw_type, raw_data, raw_value};
    ghost use Rattle.stun_attributes.specs.PrintedAttributes.{attribute_text};
    ghost use Rattle.stun_text.specs.Slices.{laid_over, text_answer};

    /// Writes the text that the attribute prints, in UTF-8, at the start of `to`, and returns the
    /// number of its bytes. The bytes of `to` after the text stay as they were. It takes no memory,
    /// and if `to` has room it succeeds.
    ///
    /// # Errors
    ///
    /// [`TextTooLong`] if the text has more bytes than `to`, with the length of the text: a
    /// slice of that length has room. `to` then holds the first bytes of the text, as many as it
    /// has room for, and a character may be cut at its end.
    ///
    /// # Examples
    ///
    /// ```
    /// use stun_types::attribute::{RawAttribute, Software};
    /// use stun_types::prelude::*;
    ///
    /// let raw = RawAttribute::new(Software::TYPE, b"my client")?;
    /// let mut text = [0; 64];
    /// let length = raw.write_text(&mut text)?;
    /// assert_eq!(rt; &text[..length], b"32802(0x8022: SOFTWARE): 'my client'".as_slice());
    /// ```
    pub fn write_text(&self, to: &mut [u8]) -> Result<usize, TextTooLong>
        ensures answer { result ≡ text_answer (length (attribute_text (raw_type self.now)
            (raw_value self.now) (is_borrowed (raw_data self.now)))) (length to.old) }
        ensures text { to.new ≡ laid_over (attribute_text (raw_type self.now) (raw_value self.now)
            (is_borrowed (raw_data self.now))) to.old }
    {
        write_text(self, to)
    }
}

/// An attribute of a type that has a typed attribute prints as that one, if reading accepts its
/// value, otherwise as [`print_malformed`] does. Any other prints its type, the length of its value
/// and its bytes:
/// `RawAttribute (type: AttributeType(65535), len: 2, data: Borrowed(DataSlice([4, 0])))`.
/// Printing takes no memory.
impl fmt::Display for RawAttribute<'_> {
    ghost use Rattle.std.specs.Prelude.{Some};
    ghost use Rattle.stun_base.specs.Data.{is_borrowed};
    ghost use Rattle.stun_attributes.specs.Raw.{raw_type, raw_data, raw_value};
    ghost use Rattle.stun_attributes.specs.PrintedAttributes.{attribute_text};

    ghost output = { λ raw.
        Some (attribute_text (raw_type raw) (raw_value raw) (is_borrowed (raw_data raw))) };

    fn fmt<W: fmt::Write>(&self, f: &mut fmt::Formatter<W>) -> fmt::Result {
        self.print(f)
    }
}
