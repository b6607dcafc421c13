//! The traits of attributes: what an attribute is, and how one is read and written.

ghost use Rattle.std.specs.Prelude.{◌≡◌, ℕ, Bool, true, ⊤, List, Result, IsOk, Ok, Err, ◌+◌, ◌<◌, ◌≤◌, ◌++◌, IfOk, IfErr, length, drop};
ghost use Rattle.stun_grammar.specs.declared.error.StunParseError.{StunParseError};
ghost use Rattle.stun_grammar.specs.declared.attribute_type.AttributeType.{AttributeType};
ghost use Rattle.stun_base.specs.Data.{is_borrowed};
ghost use Rattle.stun_attributes.specs.Raw.{raw_type, raw_data, raw_value, IsRawOf};
ghost use Rattle.stun_grammar.specs.Attributes.{header_encoding, attribute_encoding, attribute_length};

use crate::wire::RawAttribute;
use std::alloc::Global;
use stun_base::{
    AttributeHeader, AttributeType, StunParseError, StunWriteError, pad_attribute_len,
};

/// An attribute of a message: a type, and a value of at most 65535 bytes (RFC 8489, section 14).
///
/// In contracts `atype` and `value` are the type and the value of the object's current state.
///
/// # Examples
///
/// ```
/// use stun_types::attribute::Software;
/// use stun_types::prelude::*;
///
/// let software = Software::new(alloc, "my client")?;
/// assert_eq!(rt; software.get_type().value(), 0x8022);
/// assert_eq!(rt; software.length(), 9);
/// assert_eq!(rt; software.padded_len(), 16); // four bytes of header, nine and three of padding
/// ```
pub trait Attribute {
    ghost atype: { Self → ℕ };

    ghost value: { Self → List ℕ };

    /// The type of the attribute.
    fn get_type(&self) -> AttributeType
        ensures { result.0 ≡ atype self.now };

    /// The number of bytes of the value, without its padding.
    fn length(&self) -> u16
        ensures { result ≡ length (value self.now) };

    /// The number of bytes that the attribute takes in a message: four of header, and the value
    /// with its padding. This is a multiple of 4, at most 65540.
    fn padded_len(&self) -> usize
        ensures value { result ≡ attribute_length (length (value self.now)) }
        ensures bound { result ≤ 65540 }
    {
        4 + pad_attribute_len(self.length() as usize)
    }
}

/// An attribute whose Rust type determines its attribute type.
///
/// In contracts the law `has_that_type` says that every value of the Rust type has this type.
pub trait AttributeStaticType: Attribute {
    ghost TYPE: { AttributeType };

    ghost has_that_type: { (attribute : Self) → Self.atype attribute ≡ TYPE.0 };

    /// The type of every attribute of the Rust type, which is what [`Attribute::get_type`] returns
    /// of each.
    const TYPE: AttributeType;
}

/// An attribute that can be read from a raw one, which may borrow its value for `'a`.
///
/// In contracts `reads_ref` and `reads` say what `from_raw_ref` and `from_raw` may return for a
/// type and a value. They differ if only one of the two may need memory. `reads_borrowed` says
/// what else holds of what `from_raw` returns if the value is borrowed, as every value that is found
/// in a message is: an attribute that keeps it says here that it still borrows it. It has a default,
/// which says nothing.
pub trait AttributeFromRaw<'a>: Attribute {
    ghost reads_ref: { ℕ → List ℕ → Result Self StunParseError → Type 0 };

    ghost reads: { ℕ → List ℕ → Result Self StunParseError → Type 0 };

    ghost reads_borrowed: { ℕ → List ℕ → Result Self StunParseError → Type 0 } = { λ _ _ _. ⊤ };

    /// Reads a raw attribute that the caller keeps. `alloc` gives the memory that the attribute
    /// needs, if it needs any.
    ///
    /// # Errors
    ///
    /// Each implementation lists its own: `WrongAttributeImplementation` if the type is another
    /// one, errors of the value, and `OutOfMemory` if an allocation failed.
    ///
    /// # Examples
    ///
    /// ```
    /// use stun_types::attribute::{RawAttribute, Realm, Software};
    /// use stun_types::message::StunParseError;
    /// use stun_types::prelude::*;
    ///
    /// let raw = RawAttribute::new(Software::TYPE, b"my client")?;
    /// assert_eq!(rt; Software::from_raw_ref(alloc, &raw)?.software(), "my client");
    /// let other = StunParseError::WrongAttributeImplementation;
    /// assert_eq!(rt; Realm::from_raw_ref(alloc, &raw), Err(other));
    /// ```
    fn from_raw_ref(alloc: Global, raw: &RawAttribute<'_>) -> Result<Self, StunParseError>
    where
        Self: Sized,
        ensures { reads_ref (raw_type raw.now) (raw_value raw.now) result };

    /// Reads a raw attribute that the caller passes by value, so that its value need not be copied.
    ///
    /// # Errors
    ///
    /// As [`AttributeFromRaw::from_raw_ref`].
    ///
    /// # Examples
    ///
    /// ```
    /// use stun_types::attribute::{RawAttribute, Software};
    /// use stun_types::prelude::*;
    ///
    /// let raw = RawAttribute::new(Software::TYPE, b"my client")?;
    /// assert_eq!(rt; Software::from_raw(alloc, raw)?.software(), "my client");
    /// ```
    fn from_raw(alloc: Global, raw: RawAttribute<'a>) -> Result<Self, StunParseError>
    where
        Self: Sized,
        ensures reads { reads (raw_type raw.entry) (raw_value raw.entry) result }
        ensures borrowed { is_borrowed (raw_data raw.entry) ≡ true
            → reads_borrowed (raw_type raw.entry) (raw_value raw.entry) result };
}

/// An attribute that can be written.
///
/// An implementation provides [`AttributeWrite::write_into_unchecked`] and
/// [`AttributeWrite::to_raw`]; the other methods have bodies. `crate::wire::write_attribute` writes
/// a whole attribute from its type and its value.
///
/// In contracts `to_raw_borrows` says whether `to_raw` borrows the value or owns a copy of it.
pub trait AttributeWrite: Attribute {
    ghost to_raw_borrows: { Self → Bool };

    /// Writes the attribute at the start of `dest`: the type and the length of the value in two
    /// bytes each, big-endian, the value, and zeros up to a multiple of 4. What follows is
    /// unchanged.
    ///
    /// # Requires
    ///
    /// `dest.len()` is at least [`Attribute::padded_len`], which [`AttributeWrite::write_into`]
    /// tests.
    fn write_into_unchecked(&self, dest: &mut [u8])
        requires { attribute_length (length (Self.value self.now)) ≤ length dest.old }
        ensures { dest.new ≡ attribute_encoding (Self.atype self.now) (Self.value self.now)
            ++ drop (attribute_length (length (Self.value self.now))) dest.old };

    /// The raw attribute with the type and the value of the attribute. Each implementation says
    /// whether the result borrows the value, which takes no memory, or owns a copy of it in memory
    /// that `alloc` gives; [`RawAttribute::into_owned`] of a result that owns it takes no more.
    ///
    /// # Errors
    ///
    /// `OutOfMemory` alone, and no error if the value is borrowed.
    ///
    /// # Examples
    ///
    /// ```
    /// use stun_types::attribute::Software;
    /// use stun_types::prelude::*;
    ///
    /// let software = Software::new(alloc, "my client")?;
    /// let raw = software.to_raw(alloc)?;
    /// assert_eq!(rt; raw.get_type(), Software::TYPE);
    /// assert_eq!(rt; raw.value().as_bytes(), b"my client".as_slice());
    /// ```
    fn to_raw(&self, alloc: Global) -> Result<RawAttribute<'_>, StunWriteError>
        ensures ok { IfOk result (IsRawOf (Self.atype self.now) (Self.value self.now)) }
        ensures err { IfErr result (λ e. e ≡ StunWriteError.OutOfMemory) }
        ensures borrowed { IfOk result
            (λ raw. is_borrowed (raw_data raw) ≡ to_raw_borrows self.now) }
        ensures free { to_raw_borrows self.now ≡ true → IsOk result };

    /// Writes the header of the attribute, four bytes, at the start of `dest`, and returns 4. What
    /// follows is unchanged.
    ///
    /// # Requires
    ///
    /// `dest.len()` is at least 4, which [`AttributeWrite::write_header`] tests.
    fn write_header_unchecked(&self, dest: &mut [u8]) -> usize
        requires { 4 ≤ length dest.old }
        ensures four { result ≡ 4 }
        ensures written { dest.new
            ≡ header_encoding (Self.atype self.now) (length (Self.value self.now))
            ++ drop 4 dest.old }
    {
        let header = AttributeHeader {
            atype: self.get_type(),
            length: self.length(),
        };
        header.write_into(dest);
        4
    }

    /// Writes the header of the attribute, four bytes, at the start of `dest`, and returns 4.
    ///
    /// # Errors
    ///
    /// `TooSmall { expected: 4, actual }` if `dest` has fewer than four bytes; they are
    /// unchanged then.
    ///
    /// # Examples
    ///
    /// ```
    /// use stun_types::attribute::Software;
    /// use stun_types::prelude::*;
    ///
    /// let software = Software::new(alloc, "my client")?;
    /// let mut header = [0; 4];
    /// assert_eq!(rt; software.write_header(&mut header), Ok(4));
    /// assert_eq!(rt; header, [0x80, 0x22, 0x00, 0x09]);
    /// assert!(rt; software.write_header(&mut header[..3]).is_err());
    /// ```
    fn write_header(&self, dest: &mut [u8]) -> Result<usize, StunWriteError>
        ensures short { length dest.old < 4
            → (result ≡ Err (StunWriteError.TooSmall 4 (length dest.old)))
            × (dest.new ≡ dest.old) }
        ensures ok { 4 ≤ length dest.old → (result ≡ Ok 4)
            × (dest.new ≡ header_encoding (Self.atype self.now) (length (Self.value self.now))
            ++ drop 4 dest.old) }
    {
        if dest.len() < 4 {
            return Err(StunWriteError::TooSmall {
                expected: 4,
                actual: dest.len(),
            });
        }
        Ok(self.write_header_unchecked(dest))
    }

    /// Writes the attribute at the start of `dest`, as [`AttributeWrite::write_into_unchecked`]
    /// does, and returns the number of bytes that it takes: [`Attribute::padded_len`].
    ///
    /// # Errors
    ///
    /// `TooSmall { expected, actual }` if `dest` has fewer bytes than that; they are unchanged
    /// then. `expected` is [`Attribute::padded_len`], and `actual` the length of `dest`.
    ///
    /// # Examples
    ///
    /// ```
    /// use stun_types::attribute::Software;
    /// use stun_types::message::StunWriteError;
    /// use stun_types::prelude::*;
    ///
    /// let mut bytes = [0xFF; 12];
    /// assert_eq!(rt; Software::new(alloc, "ab")?.write_into(&mut bytes), Ok(8));
    /// assert_eq!(rt; bytes, *b"\x80\x22\x00\x02ab\x00\x00\xFF\xFF\xFF\xFF");
    /// let refused = StunWriteError::TooSmall { expected: 8, actual: 7 };
    /// assert_eq!(rt; Software::new(alloc, "ab")?.write_into(&mut bytes[..7]), Err(refused));
    /// ```
    fn write_into(&self, dest: &mut [u8]) -> Result<usize, StunWriteError>
        ensures short { length dest.old < attribute_length (length (Self.value self.now))
            → (result ≡ Err (StunWriteError.TooSmall
            (attribute_length (length (Self.value self.now))) (length dest.old)))
            × (dest.new ≡ dest.old) }
        ensures ok { attribute_length (length (Self.value self.now)) ≤ length dest.old
            → (result ≡ Ok (attribute_length (length (Self.value self.now))))
            × (dest.new ≡ attribute_encoding (Self.atype self.now) (Self.value self.now)
            ++ drop (attribute_length (length (Self.value self.now))) dest.old) }
    {
        let len = self.padded_len();
        if dest.len() < len {
            return Err(StunWriteError::TooSmall {
                expected: len,
                actual: dest.len(),
            });
        }
        self.write_into_unchecked(dest);
        Ok(len)
    }
}
