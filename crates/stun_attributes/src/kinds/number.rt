ghost use Rattle.std.specs.Prelude.{◌≡◌};

use crate::kinds::AttributeKind;
use crate::kinds::printed::put_named;
use crate::wire::{EncodeValue, ReadValue, TypedAttribute};
use std::alloc::Global;
use std::fmt;
use std::marker::PhantomData;
use stun_base::StunParseError;
use stun_text::{PrintText, TextSink};

/// An attribute whose value is a number `N`, which is a `u8`, a `u16`, a `u32` or a `u64`: one, two,
/// four or eight bytes, big-endian.
///
/// Reading refuses a value of another length than `wanted`, that of the number, as
/// `Truncated { expected: wanted, actual }` or `TooLarge { expected: wanted, actual }`. It takes no
/// memory.
///
/// # Examples
///
/// ```
/// use ice_attrs::Priority;
/// use stun_types::prelude::*;
///
/// // `Priority` is a `NumberAttribute<PriorityKind, u32>`
/// let priority = Priority::new(1_862_270_975);
/// assert_eq!(rt; priority.value(), 1_862_270_975);
/// assert_eq!(rt; priority.to_raw(alloc)?.value().as_bytes(), [0x6E, 0xFF, 0xFF, 0xFF].as_slice());
/// ```
#[derive_where(Clone, Copy, Debug, PartialEq, Eq; N)]
pub struct NumberAttribute<K, N> {
    number: N,
    #[derive_where(skip)]
    kind: PhantomData<K>,
}

impl<K, N> NumberAttribute<K, N> {
    ghost use Rattle.stun_attributes.specs.Kinds.{number_of};

    /// An attribute with the number `number`.
    pub fn new(number: N) -> Self
        ensures { number_of result ≡ number }
    {
        NumberAttribute {
            number,
            kind: PhantomData,
        }
    }
}

impl<K, N: Copy> NumberAttribute<K, N> {
    ghost use Rattle.stun_attributes.specs.Kinds.{number_of};

    /// The number that the attribute holds.
    pub fn value(&self) -> N
        ensures { result ≡ number_of self.now }
    {
        self.number
    }
}

impl<K: AttributeKind, N: EncodeValue> TypedAttribute for NumberAttribute<K, N> {
    ghost NUMBER = { K.NUMBER };

    const NUMBER: u16 = K::NUMBER;
}

impl<K, N: EncodeValue> EncodeValue for NumberAttribute<K, N> {
    ghost use Rattle.stun_attributes.specs.Kinds.{number_of};

    ghost bytes = { λ attribute. N.bytes (number_of attribute) };

    fn value_length(&self) -> u16 {
        self.number.value_length()
    }

    fn write_value(&self, dest: &mut [u8]) {
        self.number.write_value(dest);
    }

    fn held_bytes(&self) -> Option<&[u8]> {
        None
    }
}

/// [`NumberAttribute`] lists what reading refuses.
impl<K, N: ReadValue> ReadValue for NumberAttribute<K, N> {
    ghost use Rattle.stun_attributes.specs.Kinds.{ReadsHeld, number_of};

    ghost reads_value = { ReadsHeld number_of N.reads_value };

    fn read_value(alloc: Global, value: &[u8]) -> Result<Self, StunParseError> {
        Ok(NumberAttribute::new(N::read_value(alloc, value)?))
    }
}

impl<K: AttributeKind, N: PrintText> PrintText for NumberAttribute<K, N> {
    ghost use Rattle.stun_attributes.specs.Kinds.{named_text, number_of};

    ghost text = { λ attribute. named_text K.NAME (N.text (number_of attribute)) };

    fn print<S: TextSink>(&self, sink: &mut S) -> Result<(), S::Error> {
        put_named(sink, K::name(), &self.number)
    }
}

/// The name and the number: `PRIORITY: 1862270975`.
impl<K: AttributeKind, N: PrintText> fmt::Display for NumberAttribute<K, N> {
    ghost use Rattle.std.specs.Prelude.{Some};
    ghost use Rattle.stun_attributes.specs.Kinds.{named_text, number_of};

    ghost output = { λ attribute. Some (named_text K.NAME (N.text (number_of attribute))) };

    fn fmt<W: fmt::Write>(&self, f: &mut fmt::Formatter<W>) -> fmt::Result {
        self.print(f)
    }
}
