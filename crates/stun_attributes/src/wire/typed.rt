//! Attributes of one type, whose value is encoded and read by one rule.

ghost use Rattle.std.specs.Prelude.{◌≤◌, ℕ, List, Result, length};
ghost use Rattle.stun_grammar.specs.declared.error.StunParseError.{StunParseError};
ghost use Rattle.stun_attributes.specs.Raw.{raw_type, raw_value};
ghost use Rattle.stun_attributes.specs.Reading.{ReadsTyped};

use crate::wire::{
    Attribute, AttributeFromRaw, AttributeStaticType, AttributeWrite, EncodeValue, RawAttribute,
    borrowed_attribute, check_type, to_owned_raw, write_encoded,
};
use std::alloc::Global;
use stun_base::{AttributeType, StunParseError, StunWriteError};

/// An attribute of one type, whose value is encoded by one rule (RFC 8489, section 14). It has
/// [`Attribute`], [`AttributeStaticType`] and [`AttributeWrite`], and if it is a [`ReadValue`],
/// [`AttributeFromRaw`] too.
///
/// In contracts `NUMBER` is the number of the type.
pub trait TypedAttribute: EncodeValue {
    ghost NUMBER: { ℕ };

    /// The number of the attribute type.
    const NUMBER: u16;
}

/// A value that an attribute may have, and how it is read. [`EncodeValue`] says how it is encoded.
///
/// In contracts `reads_value` says what reading some bytes may return.
pub trait ReadValue: EncodeValue {
    ghost reads_value: { List ℕ → Result Self StunParseError → Type 0 };

    /// Reads a value from the bytes of an attribute. `alloc` gives the memory that it needs, if it
    /// needs any.
    ///
    /// # Requires
    ///
    /// `value.len()` is at most 65535, as it is of the value of every raw attribute.
    ///
    /// # Errors
    ///
    /// Each implementation lists its own; `OutOfMemory` if an allocation failed.
    fn read_value(alloc: Global, value: &[u8]) -> Result<Self, StunParseError>
    where
        Self: Sized,
        requires { length value.now ≤ 65535 }
        ensures { reads_value value.now result };
}

/// Reads a raw attribute: checks its type, and then reads its value.
#[inline(always)]
fn read_typed<A: TypedAttribute + ReadValue>(
    alloc: Global,
    raw: &RawAttribute<'_>,
) -> Result<A, StunParseError>
    ensures { ReadsTyped A.NUMBER A.reads_value (raw_type raw.now) (raw_value raw.now) result }
{
    check_type(raw, AttributeType(A::NUMBER))?;
    // For the prover: the value has at most 65535 bytes.
    let _length = raw.length();
    A::read_value(alloc, raw.value().as_bytes())
}

impl<A: TypedAttribute> Attribute for A {
    ghost atype = { λ _. A.NUMBER };

    ghost value = { A.bytes };

    fn get_type(&self) -> AttributeType {
        AttributeType(A::NUMBER)
    }

    fn length(&self) -> u16 {
        self.value_length()
    }
}

impl<A: TypedAttribute> AttributeStaticType for A {
    ghost use Rattle.std.specs.Prelude.{refl};

    ghost TYPE = { record { 0 = A.NUMBER } };

    ghost has_that_type = { λ _. refl };

    const TYPE: AttributeType = AttributeType(A::NUMBER);
}

impl<A: TypedAttribute> AttributeWrite for A {
    ghost to_raw_borrows = { A.is_held };

    fn write_into_unchecked(&self, dest: &mut [u8]) {
        write_encoded(AttributeType(A::NUMBER), self, dest);
    }

    /// The value is borrowed if the attribute holds it as it is encoded, which takes no memory,
    /// otherwise owned, in memory that `alloc` gives.
    fn to_raw(&self, alloc: Global) -> Result<RawAttribute<'_>, StunWriteError> {
        // For the prover: the encoding has at most 65535 bytes.
        let _length = self.value_length();
        match self.held_bytes() {
            Some(bytes) => Ok(borrowed_attribute(AttributeType(A::NUMBER), bytes)),
            None => to_owned_raw(alloc, AttributeType(A::NUMBER), self),
        }
    }
}

/// Reading reports another type as `WrongAttributeImplementation`, and then what reading the value
/// reports.
impl<A: TypedAttribute + ReadValue> AttributeFromRaw<'_> for A {
    ghost reads_ref = { ReadsTyped A.NUMBER A.reads_value };

    ghost reads = { ReadsTyped A.NUMBER A.reads_value };

    fn from_raw_ref(alloc: Global, raw: &RawAttribute<'_>) -> Result<Self, StunParseError> {
        read_typed(alloc, raw)
    }

    fn from_raw(alloc: Global, raw: RawAttribute<'_>) -> Result<Self, StunParseError> {
        read_typed(alloc, &raw)
    }
}
