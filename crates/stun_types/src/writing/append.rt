//! Writing the bytes of one more attribute into those of a message.

ghost use Rattle.std.specs.Prelude.{◌≡◌, ◌+◌, ◌≤◌, ◌++◌, length, take, drop};
ghost use Rattle.stun_grammar.specs.Writing.{greatest_length};
ghost use Rattle.stun_grammar.specs.Adding.{appended, grown_length};

use crate::attribute::{AttributeType, AttributeWrite, EncodeValue};
use byteorder::{BigEndian, ByteOrder};
use stun_attributes::{write_attribute, write_encoded};
use stun_base::pad_attribute_len;

/// Copies `more` to the place after the first `len` bytes of `slice`.
pub(crate) fn write_at(slice: &mut [u8], len: usize, more: &[u8])
    requires { len + length more.now ≤ length slice.old }
    ensures { slice.new ≡ take len slice.old ++ more.now ++ drop (len + length more.now) slice.old }
{
    slice[len..len + more.len()].copy_from_slice(more);
}

/// As [`append_attribute`], for a caller that knows how many bytes the message then has.
#[inline]
#[tactic(auto, unfolding(stun_grammar::specs::Adding::appended))]
pub(crate) fn append_sized(
    attribute: &dyn AttributeWrite,
    len: usize,
    longer: usize,
    message: &mut [u8],
)
    requires header { 20 ≤ len }
    requires longer { longer ≡ grown_length len (length (value attribute.now)) }
    requires room { longer ≤ length message.old }
    requires fits { longer ≤ greatest_length }
    ensures { message.new
        ≡ appended (take len message.old) (atype attribute.now) (value attribute.now)
        ++ drop longer message.old }
{
    let field = longer - 20;
    attribute.write_into_unchecked(&mut message[len..]);
    BigEndian::write_u16(&mut message[2..4], field as u16);
}

/// Writes an attribute after the first `len` bytes of `message`, which hold the message so far, and
/// sets the length field (its bytes 2 and 3) to the number of bytes that follow the header. What
/// comes after the attribute stays. A writer that keeps its bytes in a slice can be built on it.
///
/// # Requires
///
/// `len` is at least 20, and `len + attribute.padded_len()` at most 65555 and at most
/// `message.len()`.
///
/// # Examples
///
/// ```
/// use stun_types::attribute::Software;
/// use stun_types::message::write::append_attribute;
///
/// let mut message = *b"\x00\x01\x00\x00\x21\x12\xA4\x42abcdefghijkl--------";
/// append_attribute(&Software::new(alloc, "STUN")?, 20, &mut message);
/// assert_eq!(rt; message, *b"\x00\x01\x00\x08\x21\x12\xA4\x42abcdefghijkl\x80\x22\x00\x04STUN");
/// ```
pub fn append_attribute(attribute: &dyn AttributeWrite, len: usize, message: &mut [u8])
    requires header { 20 ≤ len }
    requires room { grown_length len (length (value attribute.now)) ≤ length message.old }
    requires fits { grown_length len (length (value attribute.now)) ≤ greatest_length }
    ensures { message.new
        ≡ appended (take len message.old) (atype attribute.now) (value attribute.now)
        ++ drop (grown_length len (length (value attribute.now))) message.old }
{
    append_sized(attribute, len, len + attribute.padded_len(), message);
}

/// Writes an attribute, of which a type and a value are given, after the first `len` bytes of
/// `message`, as [`append_attribute`] does.
///
/// # Requires
///
/// `value.len()` is at most 65535, `len` at least 20, and
/// `len + 4 + pad_attribute_len(value.len())` at most 65555 and at most `message.len()`.
///
/// # Examples
///
/// ```
/// use stun_types::attribute::AttributeType;
/// use stun_types::message::write::append_value;
///
/// let mut message = *b"\x00\x01\x00\x00\x21\x12\xA4\x42abcdefghijkl--------";
/// append_value(AttributeType(0x8022), b"STUN", 20, &mut message);
/// assert_eq!(rt; message, *b"\x00\x01\x00\x08\x21\x12\xA4\x42abcdefghijkl\x80\x22\x00\x04STUN");
/// ```
#[tactic(auto, unfolding(stun_grammar::specs::Adding::appended))]
pub fn append_value(atype: AttributeType, value: &[u8], len: usize, message: &mut [u8])
    requires header { 20 ≤ len }
    requires value { length value.now ≤ 65535 }
    requires room { grown_length len (length value.now) ≤ length message.old }
    requires fits { grown_length len (length value.now) ≤ greatest_length }
    ensures { message.new ≡ appended (take len message.old) atype.0 value.now
        ++ drop (grown_length len (length value.now)) message.old }
{
    let field = len + 4 + pad_attribute_len(value.len()) - 20;
    write_attribute(atype, value, &mut message[len..]);
    BigEndian::write_u16(&mut message[2..4], field as u16);
}

/// Writes an attribute, of which a type and a value are given, after the first `len` bytes of
/// `message`, as [`append_attribute`] does; the value is encoded straight into the message.
///
/// # Requires
///
/// `len` is at least 20, and `len + 4 + pad_attribute_len(value.value_length())` at most 65555 and
/// at most `message.len()`.
#[tactic(auto, unfolding(stun_grammar::specs::Adding::appended))]
pub fn append_encoded<V: EncodeValue>(
    atype: AttributeType,
    value: &V,
    len: usize,
    message: &mut [u8],
)
    requires header { 20 ≤ len }
    requires room { grown_length len (length (V.bytes value.now)) ≤ length message.old }
    requires fits { grown_length len (length (V.bytes value.now)) ≤ greatest_length }
    ensures { message.new ≡ appended (take len message.old) atype.0 (V.bytes value.now)
        ++ drop (grown_length len (length (V.bytes value.now))) message.old }
{
    let field = len + 4 + pad_attribute_len(value.value_length() as usize) - 20;
    write_encoded(atype, value, &mut message[len..]);
    BigEndian::write_u16(&mut message[2..4], field as u16);
}
