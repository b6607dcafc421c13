//! Attributes whose value is any bytes.

ghost use Rattle.std.specs.Prelude.{◌≤◌, length};
ghost use Rattle.stun_base.specs.Data.{data_bytes};

use crate::kinds::AttributeKind;
use crate::wire::{
    Attribute, AttributeFromRaw, AttributeStaticType, AttributeWrite, BorrowValue, RawAttribute,
    borrowed_attribute, check_type, write_attribute,
};
use std::alloc::Global;
use std::fmt;
use std::marker::PhantomData;
use stun_base::{AttributeType, Data, Hex, StunParseError, StunWriteError};
use stun_text::{PrintText, TextSink};

/// At most 65535 bytes, borrowed or owned: the value of a [`BytesAttribute`].
#[derive(Debug, Drop)]
pub struct ValueBytes<'a> {
    bytes: Data<'a>,
    ghost short: { length (data_bytes bytes) ≤ 65535 },
}

/// An attribute whose value is any bytes, at most 65535 of them, which are borrowed or owned. `B`
/// is [`ValueBytes`]: it is a type parameter, since the prover takes no associated constant, as
/// `TYPE` is, of a type with a lifetime.
///
/// # Examples
///
/// ```
/// use discovery_attrs::Padding;
/// use stun_types::prelude::*;
///
/// // `Padding<'a>` is a `BytesAttribute<PaddingKind, ValueBytes<'a>>`
/// let padding = Padding::new(&[0; 1400])?;
/// assert_eq!(rt; padding.length(), 1400);
/// assert_eq!(rt; padding.data(), [0; 1400].as_slice());
/// ```
#[derive(Drop)]
#[derive_where(Debug; B)]
pub struct BytesAttribute<K, B> {
    value: B,
    #[derive_where(skip)]
    kind: PhantomData<K>,
}

/// What has the type of a kind.
pub trait HasKind<K: AttributeKind>: Attribute {
    ghost use Rattle.std.specs.Prelude.{◌≡◌};

    ghost has_that_type: { (attribute : Self) → Self.atype attribute ≡ K.NUMBER };
}

impl<'a, K: AttributeKind> BytesAttribute<K, ValueBytes<'a>> {
    ghost use Rattle.std.specs.Prelude.{◌≡◌, ◌<◌, ◌≤◌, true, Err, IfOk, IsOkAnd, length};
    ghost use Rattle.stun_attributes.specs.Kinds.{bytes_of, bytes_are_borrowed};

    /// An attribute with the bytes `bytes`, which are borrowed.
    ///
    /// # Errors
    ///
    /// `TooLarge { expected: 65535, actual }` if there are more than 65535 bytes.
    pub fn new(bytes: &'a [u8]) -> Result<Self, StunWriteError>
        ensures ok { length bytes.now ≤ 65535
            → IsOkAnd result (λ made. bytes_of made ≡ bytes.now) }
        ensures borrowed { IfOk result (λ made. bytes_are_borrowed made ≡ true) }
        ensures large { 65535 < length bytes.now
            → result ≡ Err (StunWriteError.TooLarge 65535 (length bytes.now)) }
    {
        let raw = RawAttribute::new(AttributeType(K::NUMBER), bytes)?;
        Ok(BytesAttribute {
            value: ValueBytes {
                bytes: raw.into_value(),
            },
            kind: PhantomData,
        })
    }

    /// The bytes that the attribute holds.
    pub fn data(&self) -> &[u8]
        ensures bytes { result.now ≡ bytes_of self.now }
        ensures short { length result.now ≤ 65535 }
    {
        self.value.bytes.as_bytes()
    }
}

impl<K: AttributeKind, B> AttributeStaticType for BytesAttribute<K, B>
where
    BytesAttribute<K, B>: HasKind<K>,
{
    ghost use Rattle.std.proofs.Common.{rules};

    ghost TYPE = { record { 0 = K.NUMBER } };

    ghost has_that_type = { Prim.search rules };

    const TYPE: AttributeType = AttributeType(K::NUMBER);
}

impl<K: AttributeKind> HasKind<K> for BytesAttribute<K, ValueBytes<'_>> {
    ghost use Rattle.std.specs.Prelude.{refl};

    ghost has_that_type = { λ _. refl };
}

impl<K: AttributeKind> Attribute for BytesAttribute<K, ValueBytes<'_>> {
    ghost use Rattle.stun_attributes.specs.Kinds.{bytes_of};

    ghost atype = { λ _. K.NUMBER };

    ghost value = { bytes_of };

    fn get_type(&self) -> AttributeType {
        AttributeType(K::NUMBER)
    }

    fn length(&self) -> u16 {
        self.data().len() as u16
    }
}

impl<K: AttributeKind> AttributeWrite for BytesAttribute<K, ValueBytes<'_>> {
    ghost use Rattle.std.specs.Prelude.{true};

    ghost to_raw_borrows = { λ _. true };

    fn write_into_unchecked(&self, dest: &mut [u8]) {
        write_attribute(AttributeType(K::NUMBER), self.data(), dest);
    }

    /// The raw attribute borrows the bytes, which takes no memory.
    fn to_raw(&self, _alloc: Global) -> Result<RawAttribute<'_>, StunWriteError> {
        Ok(borrowed_attribute(AttributeType(K::NUMBER), self.data()))
    }
}

impl<K: AttributeKind> BorrowValue for BytesAttribute<K, ValueBytes<'_>> {
    fn value_bytes(&self) -> &[u8] {
        self.data()
    }
}

/// Reading refuses another type, as `WrongAttributeImplementation`, and no value. `from_raw` keeps
/// the value as it is, so that one that is borrowed stays borrowed, and takes no memory;
/// `from_raw_ref` copies it into memory that `alloc` gives, or answers `OutOfMemory`.
impl<'a, K: AttributeKind> AttributeFromRaw<'a> for BytesAttribute<K, ValueBytes<'a>> {
    ghost use Rattle.std.specs.Prelude.{◌≡◌, true, false, IfOk};
    ghost use Rattle.stun_base.specs.Data.{is_borrowed};
    ghost use Rattle.stun_attributes.specs.Raw.{raw_type, raw_data, raw_value};
    ghost use Rattle.stun_attributes.specs.Kinds.{bytes_are_borrowed, ReadsBytes, ReadsBytesInMemory};

    ghost reads_ref = { ReadsBytesInMemory K.NUMBER };

    ghost reads = { ReadsBytes K.NUMBER };

    ghost reads_borrowed = { λ _ _ result. IfOk result (λ read. bytes_are_borrowed read ≡ true) };

    fn from_raw_ref(alloc: Global, raw: &RawAttribute<'_>) -> Result<Self, StunParseError>
        ensures reads { ReadsBytesInMemory K.NUMBER (raw_type raw.now) (raw_value raw.now) result }
        ensures owned { IfOk result (λ read. bytes_are_borrowed read ≡ false) }
    {
        check_type(raw, AttributeType(K::NUMBER))?;
        let mut copy = Vec::with_capacity(alloc, raw.length() as usize)?;
        copy.extend_from_slice(raw.value().as_bytes())?;
        Ok(BytesAttribute {
            value: ValueBytes {
                bytes: Data::from(copy.into_boxed_slice()),
            },
            kind: PhantomData,
        })
    }

    fn from_raw(_alloc: Global, raw: RawAttribute<'a>) -> Result<Self, StunParseError>
        ensures reads { ReadsBytes K.NUMBER (raw_type raw.entry) (raw_value raw.entry) result }
        ensures borrowed { is_borrowed (raw_data raw.entry) ≡ true
            → IfOk result (λ read. bytes_are_borrowed read ≡ true) }
        ensures kept { IfOk result
            (λ read. bytes_are_borrowed read ≡ is_borrowed (raw_data raw.entry)) }
    {
        check_type(&raw, AttributeType(K::NUMBER))?;
        Ok(BytesAttribute {
            value: ValueBytes {
                bytes: raw.into_value(),
            },
            kind: PhantomData,
        })
    }
}

impl<K: AttributeKind> PrintText for BytesAttribute<K, ValueBytes<'_>> {
    ghost use Rattle.std.specs.Prelude.{◌++◌, codes};
    ghost use Rattle.stun_grammar.specs.Names.{hex};
    ghost use Rattle.stun_attributes.specs.Kinds.{bytes_of, named_text};

    ghost text = { λ attribute. named_text K.NAME (codes "0x" ++ hex (bytes_of attribute)) };

    fn print<S: TextSink>(&self, sink: &mut S) -> Result<(), S::Error> {
        sink.put(K::name())?;
        sink.put(": 0x")?;
        Hex(self.data()).print(sink)?;
        Ok(())
    }
}

/// The name, and the bytes in hexadecimal: `DATA: 0x0102ff`.
impl<K: AttributeKind> fmt::Display for BytesAttribute<K, ValueBytes<'_>> {
    ghost use Rattle.std.specs.Prelude.{Some, ◌++◌, codes};
    ghost use Rattle.stun_grammar.specs.Names.{hex};
    ghost use Rattle.stun_attributes.specs.Kinds.{bytes_of, named_text};

    ghost output = { λ attribute.
        Some (named_text K.NAME (codes "0x" ++ hex (bytes_of attribute))) };

    fn fmt<W: fmt::Write>(&self, f: &mut fmt::Formatter<W>) -> fmt::Result {
        self.print(f)
    }
}
