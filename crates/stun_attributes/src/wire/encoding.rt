//! The encoding of an attribute: header, value and padding, written from a type and a value.

ghost use Rattle.std.specs.Prelude.{◌≡◌, ℕ, Bool, List, ◌+◌, ◌-◌, ◌≤◌, ◌++◌, true, false, IfOk, IfErr, MatchOption, length, drop, replicate};
ghost use Rattle.stun_grammar.specs.Numbers.{padded_length};
ghost use Rattle.stun_grammar.specs.Attributes.{attribute_encoding, attribute_length};
ghost use Rattle.stun_base.specs.Data.{is_borrowed};
ghost use Rattle.stun_attributes.specs.Raw.{raw_data, IsRawOf};

use crate::wire::{RawAttribute, owned_attribute};
use byteorder::{BigEndian, ByteOrder};
use std::alloc::Global;
use stun_base::{AttributeHeader, AttributeType, StunWriteError, pad_attribute_len};

/// A value of an attribute, and its encoding: at most 65535 bytes (RFC 8489, section 14).
///
/// In contracts `bytes` is the encoding, and `is_held` says whether the value holds it, so that it
/// can be borrowed.
pub trait EncodeValue {
    ghost bytes: { Self → List ℕ };

    ghost is_held: { Self → Bool } = { λ _. false };

    /// The number of bytes of the encoding.
    fn value_length(&self) -> u16
        ensures { result ≡ length (bytes self.now) };

    /// Writes the encoding of the value at the start of `dest`. What follows is unchanged.
    ///
    /// # Requires
    ///
    /// `dest.len()` is at least [`EncodeValue::value_length`].
    fn write_value(&self, dest: &mut [u8])
        requires { length (bytes self.now) ≤ length dest.old }
        ensures { dest.new ≡ bytes self.now ++ drop (length (bytes self.now)) dest.old };

    /// The encoding, if the value holds it, and `None` if it has to be computed.
    fn held_bytes(&self) -> Option<&[u8]>
        ensures { MatchOption result (is_held self.now ≡ false)
            (λ held. (is_held self.now ≡ true) × (held.now ≡ bytes self.now)) };
}

/// A value that is held as bytes, at most 65535 of them.
#[derive(Drop)]
struct Bytes<'a> {
    bytes: &'a [u8],
    ghost short: { length bytes.now ≤ 65535 },
}

impl EncodeValue for Bytes<'_> {
    ghost bytes = { λ value. value.bytes.now };

    ghost is_held = { λ _. true };

    fn value_length(&self) -> u16 {
        self.bytes.len() as u16
    }

    fn held_bytes(&self) -> Option<&[u8]> {
        Some(self.bytes)
    }

    fn write_value(&self, dest: &mut [u8]) {
        copy_to_start(self.bytes, dest);
    }
}

/// Writes bytes at the start of `dest`. What follows is unchanged.
///
/// # Requires
///
/// `dest.len()` is at least `bytes.len()`.
pub fn copy_to_start(bytes: &[u8], dest: &mut [u8])
    requires { length bytes.now ≤ length dest.old }
    ensures { dest.new ≡ bytes.now ++ drop (length bytes.now) dest.old }
{
    // A count that the compiler knows saves a call, which a short value costs more than its copy.
    match bytes.len() {
        0 => {}
        4 => dest[..4].copy_from_slice(&bytes[..4]),
        8 => dest[..8].copy_from_slice(&bytes[..8]),
        count => dest[..count].copy_from_slice(bytes),
    }
}

/// Writes zeros from `end` up to the next multiple of 4, of which there are at most three, as one
/// number of four bytes: it also clears bytes before `end`, which the caller writes afterwards.
#[tactic(auto, using(crate::proofs::EncodingLemmas::put_zeros))]
fn clear_padding(end: usize, dest: &mut [u8])
    requires { padded_length end ≤ length dest.old }
    ensures size { length dest.new ≡ length dest.old }
    ensures zeros { drop end dest.new
        ≡ replicate (padded_length end - end) 0 ++ drop (padded_length end) dest.old }
{
    let padded = pad_attribute_len(end);
    if end < padded {
        BigEndian::write_u32(&mut dest[padded - 4..padded], 0);
    }
}

/// Writes a value at the start of `dest`, and then zeros up to a multiple of 4.
fn write_padded<V: EncodeValue>(value: &V, dest: &mut [u8])
    requires { padded_length (length (V.bytes value.now)) ≤ length dest.old }
    ensures { dest.new ≡ V.bytes value.now
        ++ (replicate (padded_length (length (V.bytes value.now)) - length (V.bytes value.now)) 0
        ++ drop (padded_length (length (V.bytes value.now))) dest.old) }
{
    clear_padding(value.value_length() as usize, dest);
    value.write_value(dest);
}

/// Writes the attribute of this type and value at the start of `dest`: the type and the length of
/// the value in two bytes each, big-endian, the value, and zeros up to a multiple of 4 (RFC 8489,
/// section 14). What follows is unchanged.
///
/// # Requires
///
/// `dest.len()` is at least 4 and the length of the value with its padding:
/// `4 + pad_attribute_len(value.value_length() as usize)`.
#[tactic(auto, unfolding(stun_grammar::specs::Attributes::encoding))]
pub fn write_encoded<V: EncodeValue>(atype: AttributeType, value: &V, dest: &mut [u8])
    requires { attribute_length (length (V.bytes value.now)) ≤ length dest.old }
    ensures { dest.new ≡ attribute_encoding atype.0 (V.bytes value.now)
        ++ drop (attribute_length (length (V.bytes value.now))) dest.old }
{
    let header = AttributeHeader {
        atype,
        length: value.value_length(),
    };
    header.write_into(dest);
    write_padded(value, &mut dest[4..]);
}

/// As [`write_encoded`], for the bytes of a value.
///
/// # Requires
///
/// `value.len()` is at most 65535, and `dest.len()` at least `4 + pad_attribute_len(value.len())`.
pub fn write_attribute(atype: AttributeType, value: &[u8], dest: &mut [u8])
    requires value { length value.now ≤ 65535 }
    requires room { attribute_length (length value.now) ≤ length dest.old }
    ensures { dest.new ≡ attribute_encoding atype.0 value.now
        ++ drop (attribute_length (length value.now)) dest.old }
{
    write_encoded(atype, &Bytes { bytes: value }, dest);
}

/// The raw attribute of this type and value, which it owns in memory that `alloc` gives.
///
/// # Errors
///
/// `OutOfMemory` alone.
pub fn to_owned_raw<'a, V: EncodeValue>(
    alloc: Global,
    atype: AttributeType,
    value: &V,
) -> Result<RawAttribute<'a>, StunWriteError>
    ensures ok { IfOk result (IsRawOf atype.0 (V.bytes value.now)) }
    ensures owned { IfOk result (λ raw. is_borrowed (raw_data raw) ≡ false) }
    ensures err { IfErr result (λ e. e ≡ StunWriteError.OutOfMemory) }
{
    let mut bytes = Vec::new(alloc);
    bytes.resize(value.value_length() as usize, 0)?;
    value.write_value(&mut bytes);
    Ok(owned_attribute(atype, bytes.into_boxed_slice()))
}
