ghost use Rattle.std.specs.Prelude.{◌≡◌, length};
ghost use Rattle.stun_base.specs.Data.{data_bytes};

use crate::wire::check::checked_length;
use crate::wire::{Attribute, AttributeWrite, borrowed_attribute, write_attribute};
use std::alloc::Global;
use std::boxed::BoxedSlice;
use stun_base::{AttributeHeader, AttributeType, Data, StunParseError, StunWriteError};

/// An attribute as its type and the bytes of its value, at most 65535, borrowed or owned (RFC 8489,
/// section 14).
#[derive(Debug, PartialEq, Eq, Drop)]
pub struct RawAttribute<'a> {
    header: AttributeHeader,
    value: Data<'a>,
    ghost same_length: { header.length ≡ length (data_bytes value) },
}

impl<'a> RawAttribute<'a> {
    ghost use Rattle.std.specs.Prelude.{◌≡◌, ◌+◌, ◌<◌, ◌≤◌, true, false, IfOk, IfErr, IsOk, MatchResult, Result, Ok, Err, Some, None, length, slice_range};
    ghost use Rattle.stun_base.specs.Data.{data_bytes, is_borrowed};
    ghost use Rattle.stun_grammar.specs.Numbers.{number};
    ghost use Rattle.stun_grammar.specs.Chains.{stated_length};
    ghost use Rattle.std.specs.Box.{boxed_slice_items};
    ghost use Rattle.stun_grammar.specs.Attributes.{attribute_encoding};
    ghost use Rattle.stun_attributes.specs.Raw.{raw_type, raw_data, raw_value, IsRawOf, Borrows, raw_fault};

    /// An attribute of this header that borrows its value.
    pub(crate) fn borrowed(header: AttributeHeader, value: &'a [u8]) -> Self
        requires { header.length ≡ length value.now }
        ensures { Borrows header.atype.0 value.now result }
    {
        RawAttribute {
            header,
            value: Data::from(value),
        }
    }

    /// An attribute of this header that owns its value.
    pub(crate) fn owned(header: AttributeHeader, value: BoxedSlice<u8>) -> Self
        requires { header.length ≡ length (boxed_slice_items value) }
        ensures raw { IsRawOf header.atype.0 (boxed_slice_items value) result }
        ensures owned { is_borrowed (raw_data result) ≡ false }
    {
        RawAttribute {
            header,
            value: Data::from(value),
        }
    }

    /// An attribute of the type `atype` that borrows the value `value`.
    ///
    /// # Errors
    ///
    /// `TooLarge { expected: 65535, actual }` if the value is longer than its length field can
    /// state.
    ///
    /// # Examples
    ///
    /// ```
    /// use stun_types::attribute::{AttributeType, RawAttribute};
    /// use stun_types::prelude::*;
    ///
    /// let raw = RawAttribute::new(AttributeType(0x8851), &[4, 0])?;
    /// assert_eq!(rt; raw.length(), 2);
    /// assert_eq!(rt; raw.to_bytes(alloc)?.as_slice(), [0x88, 0x51, 0, 2, 4, 0, 0, 0].as_slice());
    /// ```
    pub fn new(atype: AttributeType, value: &'a [u8]) -> Result<Self, StunParseError>
        ensures ok { length value.now ≤ 65535 → IfOk result (Borrows atype.0 value.now) }
        ensures atype { (raw : _) → result ≡ Ok raw → raw_type raw ≡ atype.0 }
        ensures fits { length value.now ≤ 65535 → IsOk result }
        ensures large { 65535 < length value.now
            → result ≡ Err (StunParseError.TooLarge 65535 (length value.now)) }
    {
        checked_length(value.len())?;
        Ok(borrowed_attribute(atype, value))
    }

    /// An attribute of the type `atype` that owns the value `value`.
    ///
    /// # Errors
    ///
    /// `TooLarge { expected: 65535, actual }` if the value is longer than its length field can
    /// state. The value is dropped then.
    ///
    /// # Examples
    ///
    /// ```
    /// use stun_types::attribute::{AttributeType, RawAttribute};
    /// use stun_types::data::Data;
    ///
    /// let value = [4, 0].to_vec(alloc)?.into_boxed_slice();
    /// let raw = RawAttribute::new_owned(AttributeType(0x8851), value)?;
    /// assert!(rt; matches!(raw.value(), Data::Owned(_)));
    /// ```
    pub fn new_owned(atype: AttributeType, value: BoxedSlice<u8>) -> Result<Self, StunParseError>
        ensures ok { IfOk result (IsRawOf atype.0 (boxed_slice_items value)) }
        ensures atype { (raw : _) → result ≡ Ok raw → raw_type raw ≡ atype.0 }
        ensures owned { IfOk result (λ raw. is_borrowed (raw_data raw) ≡ false) }
        ensures fits { length (boxed_slice_items value) ≤ 65535 → IsOk result }
        ensures large { 65535 < length (boxed_slice_items value)
            → result ≡ Err (StunParseError.TooLarge 65535 (length (boxed_slice_items value))) }
    {
        let length = checked_length(value.len())?;
        Ok(RawAttribute {
            header: AttributeHeader { atype, length },
            value: Data::from(value),
        })
    }

    /// Reads the attribute at the start of `bytes`: a header of four bytes, and the value whose
    /// length the header states, which is borrowed. What follows is not looked at, so the padding
    /// may be missing.
    ///
    /// # Errors
    ///
    /// `Truncated { expected: 4, actual }` if there are fewer than four bytes. Otherwise
    /// `Truncated { expected, actual }` if the header states more bytes than follow it:
    /// `expected` is how many it states, and `actual` how many follow.
    ///
    /// # Examples
    ///
    /// ```
    /// use stun_types::attribute::{AttributeType, RawAttribute};
    /// use stun_types::message::StunParseError;
    /// use stun_types::prelude::*;
    ///
    /// let raw = RawAttribute::from_bytes(&[0x88, 0x51, 0, 2, 4, 0, 0, 0])?;
    /// assert_eq!(rt; raw.get_type(), AttributeType(0x8851));
    /// assert_eq!(rt; raw.value().as_bytes(), [4, 0].as_slice());
    /// let cut_off = RawAttribute::from_bytes(&[0x88, 0x51, 0, 2, 4]).err();
    /// assert_eq!(rt; cut_off, Some(StunParseError::Truncated { expected: 2, actual: 1 }));
    /// ```
    pub fn from_bytes(bytes: &'a [u8]) -> Result<Self, StunParseError>
        ensures { MatchResult result
            (λ raw. (raw_fault bytes.now ≡ None) × Borrows (number (slice_range bytes.now 0 2))
            (slice_range bytes.now 4 (4 + stated_length bytes.now)) raw)
            (λ e. raw_fault bytes.now ≡ Some e) }
    {
        let header = AttributeHeader::from_bytes(bytes)?;
        let length = header.length() as usize;
        if bytes.len() < 4 + length {
            return Err(StunParseError::Truncated {
                expected: length,
                actual: bytes.len() - 4,
            });
        }
        Ok(Self::borrowed(header, &bytes[4..4 + length]))
    }

    /// The header of the attribute: the type, and the length of the value.
    pub fn header(&self) -> AttributeHeader
        ensures atype { result.atype.0 ≡ raw_type self.now }
        ensures length { result.length ≡ length (raw_value self.now) }
    {
        let RawAttribute { header, value: _ } = self;
        *header
    }

    /// The value of the attribute, borrowed or owned.
    pub fn value(&self) -> &Data<'a>
        ensures { result.now ≡ raw_data self.now }
    {
        &self.value
    }

    /// Converts the attribute into its value. A value that is borrowed stays borrowed for `'a`, and
    /// so outlives the attribute.
    ///
    /// # Examples
    ///
    /// ```
    /// use stun_types::attribute::RawAttribute;
    /// use stun_types::data::Data;
    ///
    /// let bytes = [0x88, 0x51, 0, 2, 4, 0];
    /// let value = RawAttribute::from_bytes(&bytes)?.into_value();
    /// assert!(rt; matches!(value, Data::Borrowed(slice) if slice.take() == &bytes[4..]));
    /// ```
    pub fn into_value(self) -> Data<'a>
        ensures { result ≡ raw_data self.entry }
    {
        let RawAttribute { header: _, value } = self;
        value
    }

    /// Converts the attribute into one that owns its value. A borrowed value is copied into memory
    /// that `alloc` gives; an owned value is kept, which takes no memory.
    ///
    /// # Errors
    ///
    /// `OutOfMemory` alone, and only for a borrowed value.
    ///
    /// # Examples
    ///
    /// ```
    /// use stun_types::attribute::{AttributeType, RawAttribute};
    /// use stun_types::data::Data;
    ///
    /// let bytes = [0x88, 0x51, 0, 2, 4, 0];
    /// let owned = RawAttribute::from_bytes(&bytes)?.into_owned(alloc)?;
    /// assert!(rt; matches!(owned.value(), Data::Owned(_)));
    /// assert_eq!(rt; owned.value().as_bytes(), [4, 0].as_slice());
    /// ```
    pub fn into_owned(self, alloc: Global) -> Result<RawAttribute<'static>, StunWriteError>
        ensures same { IfOk result (IsRawOf (raw_type self.entry) (raw_value self.entry)) }
        ensures owned { IfOk result (λ raw. is_borrowed (raw_data raw) ≡ false) }
        ensures err { IfErr result (λ e. e ≡ StunWriteError.OutOfMemory) }
        ensures free { is_borrowed (raw_data self.entry) ≡ false → IsOk result }
    {
        let RawAttribute { header, value } = self;
        let value = value.into_owned(alloc)?;
        Ok(RawAttribute { header, value })
    }

    /// The encoding of the attribute, in memory that `alloc` gives: the type and the length of the
    /// value in two bytes each, big-endian, the value, and zeros up to a multiple of 4.
    ///
    /// # Errors
    ///
    /// `OutOfMemory` alone.
    ///
    /// # Examples
    ///
    /// ```
    /// use stun_types::attribute::{AttributeType, RawAttribute};
    ///
    /// let raw = RawAttribute::new(AttributeType(0x8851), b"abcde")?;
    /// let bytes = raw.to_bytes(alloc)?;
    /// assert_eq!(rt; bytes.as_slice(), b"\x88\x51\x00\x05abcde\x00\x00\x00".as_slice());
    /// ```
    pub fn to_bytes(&self, alloc: Global) -> Result<Vec<u8>, StunWriteError>
        ensures text { IfOk result
            (λ bytes. bytes.items ≡ attribute_encoding (raw_type self.now) (raw_value self.now)) }
        ensures err { IfErr result (λ e. e ≡ StunWriteError.OutOfMemory) }
    {
        let mut bytes = Vec::new(alloc);
        bytes.resize(self.padded_len(), 0)?;
        self.write_into_unchecked(&mut bytes);
        Ok(bytes)
    }

    /// Clones the raw attribute. A borrowed value stays borrowed, which takes no memory; an owned
    /// value is copied into memory that `alloc` gives.
    ///
    /// # Errors
    ///
    /// `OutOfMemory` alone, and only for an owned value.
    pub fn clone(&self, alloc: Global) -> Result<RawAttribute<'a>, StunWriteError>
        ensures same { IfOk result (IsRawOf (raw_type self.now) (raw_value self.now)) }
        ensures borrowed { IfOk result
            (λ copy. is_borrowed (raw_data copy) ≡ is_borrowed (raw_data self.now)) }
        ensures err { IfErr result (λ e. e ≡ StunWriteError.OutOfMemory) }
        ensures free { is_borrowed (raw_data self.now) ≡ true → IsOk result }
    {
        let value = self.value.clone(alloc)?;
        Ok(RawAttribute {
            header: self.header,
            value,
        })
    }
}

impl Attribute for RawAttribute<'_> {
    ghost use Rattle.stun_attributes.specs.Raw.{raw_type, raw_value};

    ghost atype = { raw_type };

    ghost value = { raw_value };

    fn get_type(&self) -> AttributeType {
        self.header().get_type()
    }

    fn length(&self) -> u16 {
        self.header().length()
    }
}

/// A raw attribute is written as it is, and `to_raw` is its `clone`.
impl AttributeWrite for RawAttribute<'_> {
    ghost use Rattle.stun_base.specs.Data.{is_borrowed};
    ghost use Rattle.stun_attributes.specs.Raw.{raw_data};

    ghost to_raw_borrows = { λ raw. is_borrowed (raw_data raw) };

    fn write_into_unchecked(&self, dest: &mut [u8]) {
        write_attribute(self.header().get_type(), self.value.as_bytes(), dest);
    }

    fn to_raw(&self, alloc: Global) -> Result<RawAttribute<'_>, StunWriteError> {
        self.clone(alloc)
    }
}
