ghost use Rattle.std.specs.Prelude.{◌≡◌, Option};

use crate::kinds::AttributeKind;
use crate::kinds::printed::put_named;
use crate::wire::{EncodeValue, ReadValue, TypedAttribute};
use std::alloc::Global;
use std::fmt;
use std::marker::PhantomData;
use stun_base::StunParseError;
use stun_text::{PrintText, TextSink};

/// A kind of attribute whose value is a number in a few fixed bytes, of which some bits hold a `V`,
/// and others are 0 or ignored.
///
/// In contracts `number_of` is the number that a `V` is written as, and `fields_of` the `V` that a
/// number holds, if it holds one.
pub trait PackedKind<V>: AttributeKind {
    /// The Rust type of the number that a value is written as.
    type Number;

    ghost number_of: { V → Self.Number };

    ghost fields_of: { Self.Number → Option V };

    /// The number that a value is written as.
    fn to_number(value: &V) -> Self::Number
        ensures { result ≡ number_of value.now };

    /// The value that a number holds, or `None` if the number holds none.
    fn from_number(number: Self::Number) -> Option<V>
        ensures { result ≡ fields_of number };
}

/// An attribute whose value is fields of a number, big-endian. It prints if `V` does, by
/// [`PrintText`].
///
/// Reading refuses a value of another length than `wanted`, that of the number, as
/// `Truncated { expected: wanted, actual }` or `TooLarge { expected: wanted, actual }`, and fields
/// that the kind has no value for as `InvalidAttributeData`. It takes no memory.
///
/// # Examples
///
/// ```
/// use discovery_attrs::{Change, ChangeRequest};
/// use stun_types::prelude::*;
///
/// // `ChangeRequest` is a `PackedAttribute<ChangeRequestKind, Change>`
/// let request = ChangeRequest::new(Change { ip: true, port: false });
/// assert!(rt; request.value().ip);
/// assert_eq!(rt; request.to_raw(alloc)?.value().as_bytes(), [0, 0, 0, 4].as_slice());
/// ```
#[derive_where(Clone, Copy, Debug, PartialEq, Eq; V)]
pub struct PackedAttribute<K, V> {
    value: V,
    #[derive_where(skip)]
    kind: PhantomData<K>,
}

impl<K, V> PackedAttribute<K, V> {
    ghost use Rattle.stun_attributes.specs.Kinds.{fields_held};

    /// An attribute with the value `value`.
    pub fn new(value: V) -> Self
        ensures { fields_held result ≡ value }
    {
        PackedAttribute {
            value,
            kind: PhantomData,
        }
    }
}

impl<K, V: Copy> PackedAttribute<K, V> {
    ghost use Rattle.stun_attributes.specs.Kinds.{fields_held};

    /// The value that the attribute holds.
    pub fn value(&self) -> V
        ensures { result ≡ fields_held self.now }
    {
        self.value
    }
}

impl<K, V> TypedAttribute for PackedAttribute<K, V>
where
    K: PackedKind<V>,
    K::Number: EncodeValue + Drop,
{
    ghost NUMBER = { K.NUMBER };

    const NUMBER: u16 = K::NUMBER;
}

impl<K, V> EncodeValue for PackedAttribute<K, V>
where
    K: PackedKind<V>,
    K::Number: EncodeValue + Drop,
{
    ghost use Rattle.stun_attributes.specs.Kinds.{fields_held};

    ghost bytes = { λ attribute. K.Number.bytes (K.number_of (fields_held attribute)) };

    fn value_length(&self) -> u16 {
        K::to_number(&self.value).value_length()
    }

    fn write_value(&self, dest: &mut [u8]) {
        K::to_number(&self.value).write_value(dest);
    }

    fn held_bytes(&self) -> Option<&[u8]> {
        None
    }
}

/// [`PackedAttribute`] lists what reading refuses.
impl<K, V> ReadValue for PackedAttribute<K, V>
where
    K: PackedKind<V>,
    K::Number: ReadValue + Drop,
{
    ghost use Rattle.stun_attributes.specs.Kinds.{ReadsFields};

    ghost reads_value = { ReadsFields K.Number.reads_value K.fields_of };

    fn read_value(alloc: Global, value: &[u8]) -> Result<Self, StunParseError> {
        let number = K::Number::read_value(alloc, value)?;
        match K::from_number(number) {
            Some(value) => Ok(PackedAttribute::new(value)),
            None => Err(StunParseError::InvalidAttributeData),
        }
    }
}

impl<K: AttributeKind, V: PrintText> PrintText for PackedAttribute<K, V> {
    ghost use Rattle.stun_attributes.specs.Kinds.{fields_held, named_text};

    ghost text = { λ attribute. named_text K.NAME (V.text (fields_held attribute)) };

    fn print<S: TextSink>(&self, sink: &mut S) -> Result<(), S::Error> {
        put_named(sink, K::name(), &self.value)
    }
}

/// The name and the value: `REQUESTED-TRANSPORT: 17`.
impl<K: AttributeKind, V: PrintText> fmt::Display for PackedAttribute<K, V> {
    ghost use Rattle.std.specs.Prelude.{Some};
    ghost use Rattle.stun_attributes.specs.Kinds.{fields_held, named_text};

    ghost output = { λ attribute. Some (named_text K.NAME (V.text (fields_held attribute))) };

    fn fmt<W: fmt::Write>(&self, f: &mut fmt::Formatter<W>) -> fmt::Result {
        self.print(f)
    }
}
