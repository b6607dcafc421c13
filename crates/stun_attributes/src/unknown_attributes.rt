ghost use Rattle.std.specs.Prelude.{◌≡◌, ◌*◌, ◌≤◌, ◌++◌, length, drop};
ghost use Rattle.stun_values.specs.TypeLists.{types_encoding};

use crate::wire::{EncodeValue, ReadValue, TypedAttribute};
use byteorder::{BigEndian, ByteOrder};
use std::alloc::{AllocError, Global};
use std::fmt;
use stun_base::{AttributeType, StunParseError, StunWriteError, number_at};
use stun_grammar::attribute_types;
use stun_text::{PrintText, TextSink};
use stun_values::{check_type_count, check_types, print_types};

/// Writes two bytes for each type at the start of `dest`, which has room for them, in order.
fn write_types(types: &[AttributeType], dest: &mut [u8])
    requires { 2 * length types.now ≤ length dest.old }
    ensures { dest.new ≡ types_encoding types.now ++ drop (2 * length types.now) dest.old }
{
    for i in 0..types.len() {
        BigEndian::write_u16(&mut dest[2 * i..], types[i].value());
    }
}

/// UNKNOWN-ATTRIBUTES: the types that the server did not understand (RFC 8489, section 14.13).
///
/// Its value has two bytes for each type, big-endian, in order.
#[derive(Debug, PartialEq, Eq, Drop)]
pub struct UnknownAttributes {
    types: Vec<AttributeType>,
    ghost few: { length types.items ≤ 32767 },
}

impl UnknownAttributes {
    ghost use Rattle.std.specs.Prelude.{◌<◌, ◌↔◌, [], ◌∷◌, ◌%◌, Err, Ok, IfOk, IfErr, OnOk, OnErr, IsTrue, Contains, MatchResult};
    ghost use Rattle.stun_attributes.specs.Unknown.{listed};

    /// An UNKNOWN-ATTRIBUTES with the types `attrs`, in order and with repeats, copied into memory
    /// from `alloc`.
    ///
    /// # Errors
    ///
    /// `TooLarge { expected: 32767, actual }`, which counts types and not bytes, if there are more
    /// than 32767 types, and `OutOfMemory` if an allocation failed.
    ///
    /// # Examples
    ///
    /// ```
    /// use stun_types::attribute::{AttributeType, UnknownAttributes};
    /// use stun_types::prelude::*;
    ///
    /// let types = [AttributeType(0x0014), AttributeType(0x0015)];
    /// let unknown = UnknownAttributes::new(alloc, &types)?;
    /// assert_eq!(rt; unknown.to_raw(alloc)?.value().as_bytes(), [0, 0x14, 0, 0x15].as_slice());
    /// ```
    pub fn new(alloc: Global, attrs: &[AttributeType]) -> Result<Self, StunWriteError>
        ensures ok { IfOk result (λ made. listed made ≡ attrs.now) }
        ensures large { 32767 < length attrs.now
            → result ≡ Err (StunWriteError.TooLarge 32767 (length attrs.now)) }
        ensures err { length attrs.now ≤ 32767
            → IfErr result (λ e. e ≡ StunWriteError.OutOfMemory) }
    {
        check_type_count(attrs.len())?;
        let types = Vec::from_slice(alloc, attrs)?;
        Ok(UnknownAttributes { types })
    }

    /// Copies the UNKNOWN-ATTRIBUTES: the list of the copy is in memory from `alloc`.
    ///
    /// # Errors
    ///
    /// `OutOfMemory` if an allocation failed.
    pub fn clone(&self, alloc: Global) -> Result<Self, StunWriteError>
        ensures same { IfOk result (λ copy. listed copy ≡ listed self.now) }
        ensures err { IfErr result (λ e. e ≡ StunWriteError.OutOfMemory) }
    {
        Self::new(alloc, self.attributes())
    }

    /// The types that the server did not understand, in order and with repeats.
    pub fn attributes(&self) -> &[AttributeType]
        ensures types { result.now ≡ listed self.now }
        ensures few { length result.now ≤ 32767 }
    {
        &self.types
    }

    /// Whether the list, of at most 32767 types, has the type `attr`.
    ///
    /// # Examples
    ///
    /// ```
    /// use stun_types::attribute::{AttributeType, Realm, UnknownAttributes};
    /// use stun_types::prelude::*;
    ///
    /// let unknown = UnknownAttributes::new(alloc, &[Realm::TYPE])?;
    /// assert!(rt; unknown.has_attribute(AttributeType(0x0014)));
    /// assert!(rt; !unknown.has_attribute(AttributeType(0x0015)));
    /// ```
    pub fn has_attribute(&self, attr: AttributeType) -> bool
        ensures has { IsTrue result ↔ Contains (listed self.now) attr }
        ensures few { length (listed self.now) ≤ 32767 }
    {
        self.attributes().contains(&attr)
    }

    /// Adds a type at the end of the list, unless the list has the type already. The list grows by
    /// the allocator that it was made with.
    ///
    /// # Errors
    ///
    /// `TooLarge { expected: 32767, actual: 32768 }`, which counts types and not bytes, for a new
    /// type if there are 32767 already, and `OutOfMemory` if an allocation failed. The list is then
    /// unchanged.
    ///
    /// # Examples
    ///
    /// ```
    /// use stun_types::attribute::{AttributeType, UnknownAttributes};
    ///
    /// let mut unknown = UnknownAttributes::new(alloc, &[])?;
    /// unknown.add_attribute(AttributeType(0x0014))?;
    /// unknown.add_attribute(AttributeType(0x0015))?;
    /// unknown.add_attribute(AttributeType(0x0014))?;
    /// assert_eq!(rt; unknown.attributes().len(), 2);
    /// ```
    pub fn add_attribute(&mut self, attr: AttributeType) -> Result<(), StunWriteError>
        ensures few { length (listed self.old) ≤ 32767 × length (listed self.new) ≤ 32767 }
        ensures there { Contains (listed self.old) attr
            → (result ≡ Ok tt) × (listed self.new ≡ listed self.old) }
        ensures added { ¬ (Contains (listed self.old) attr)
            → OnOk result (listed self.new ≡ listed self.old ++ attr ∷ []) }
        ensures large { ¬ (Contains (listed self.old) attr) → length (listed self.old) ≡ 32767
            → result ≡ Err (StunWriteError.TooLarge 32767 32768) }
        ensures err { length (listed self.old) < 32767
            → IfErr result (λ e. e ≡ StunWriteError.OutOfMemory) }
        ensures refused { OnErr result (listed self.new ≡ listed self.old) }
    {
        if self.has_attribute(attr) {
            return Ok(());
        }
        check_type_count(self.types.len() + 1)?;
        self.types.push(attr).map_err(AllocError::from)?;
        Ok(())
    }

    /// The types in a value of an even number of bytes.
    fn list_of(alloc: Global, value: &[u8]) -> Result<Vec<AttributeType>, StunParseError>
        requires { length value.now % 2 ≡ 0 }
        ensures { MatchResult result
            (λ list. (types_encoding list.items ≡ value.now)
            × (length value.now ≡ 2 * length list.items))
            (λ e. e ≡ StunParseError.OutOfMemory) }
    {
        let mut list = Vec::new(alloc);
        for i in 0..value.len() / 2 {
            let atype = AttributeType(number_at(value, 2 * i));
            match list.push(atype) {
                Ok(()) => {}
                Err(refused) => return Err(StunParseError::from(AllocError::from(refused))),
            }
        }
        Ok(list)
    }
}

impl TypedAttribute for UnknownAttributes {
    ghost use Rattle.stun_grammar.specs.AttributeTypes.{UNKNOWN_ATTRIBUTES};

    ghost NUMBER = { UNKNOWN_ATTRIBUTES };

    const NUMBER: u16 = attribute_types::UNKNOWN_ATTRIBUTES;
}

impl EncodeValue for UnknownAttributes {
    ghost use Rattle.stun_attributes.specs.Unknown.{listed};

    ghost bytes = { λ attribute. types_encoding (listed attribute) };

    #[tactic(auto, using(stun_values::proofs::ListsLemmas::length_of_twos))]
    fn value_length(&self) -> u16 {
        2 * self.attributes().len() as u16
    }

    #[tactic(auto, using(stun_values::proofs::ListsLemmas::length_of_twos))]
    fn write_value(&self, dest: &mut [u8]) {
        write_types(self.attributes(), dest);
    }

    fn held_bytes(&self) -> Option<&[u8]> {
        None
    }
}

/// Reading reports the first of these: an odd
/// number n of bytes as `Truncated { expected: n + 1, actual: n }`; and a failed allocation as
/// `OutOfMemory`, since the list is kept in memory from `alloc`.
impl ReadValue for UnknownAttributes {
    ghost use Rattle.stun_attributes.specs.Unknown.{ReadsTypes};

    ghost reads_value = { ReadsTypes };

    fn read_value(alloc: Global, value: &[u8]) -> Result<Self, StunParseError> {
        check_types(value)?;
        let types = Self::list_of(alloc, value)?;
        Ok(UnknownAttributes { types })
    }
}

impl PrintText for UnknownAttributes {
    ghost use Rattle.stun_values.specs.TypeLists.{listed_text};
    ghost use Rattle.stun_attributes.specs.Unknown.{listed};

    ghost text = { λ attribute. listed_text (listed attribute) };

    fn print<S: TextSink>(&self, sink: &mut S) -> Result<(), S::Error> {
        print_types(sink, self.attributes())
    }
}

/// The type and the list: `10(0xa: UNKNOWN-ATTRIBUTES): [AttributeType(20), AttributeType(21)]`.
impl fmt::Display for UnknownAttributes {
    ghost use Rattle.std.specs.Prelude.{Some};
    ghost use Rattle.stun_values.specs.TypeLists.{listed_text};
    ghost use Rattle.stun_attributes.specs.Unknown.{listed};

    ghost output = { λ attribute. Some (listed_text (listed attribute)) };

    fn fmt<W: fmt::Write>(&self, f: &mut fmt::Formatter<W>) -> fmt::Result {
        self.print(f)
    }
}
