//! Laws of the kinds: the value of an attribute has one reading (`HasOneReading`), that attribute. It
//! is the condition of `stun_types::typed_is_read_back`, by which what is written of it is read back.
//! Each function does nothing: its contract is the law.

ghost use Rattle.std.specs.Prelude.{◌≡◌, ◌<◌, ◌^◌, ℕ, Some, Result, IsOkAnd};
ghost use Rattle.stun_grammar.specs.declared.error.StunParseError.{StunParseError};
ghost use Rattle.stun_attributes.specs.ReadBack.{HasOneReading, IsReadBackInMemory};
ghost use Rattle.stun_values.specs.Addresses.{IsInRange, IsPlain};
ghost use Rattle.stun_attributes.specs.declared.kinds.address.AddressAttribute.{AddressAttribute};
ghost use Rattle.stun_attributes.specs.declared.kinds.bytes.BytesAttribute.{BytesAttribute};
ghost use Rattle.stun_attributes.specs.declared.kinds.bytes.ValueBytes.{ValueBytes};
ghost use Rattle.stun_attributes.specs.declared.kinds.empty.EmptyAttribute.{EmptyAttribute};
ghost use Rattle.stun_attributes.specs.declared.kinds.packed.PackedAttribute.{PackedAttribute};
ghost use Rattle.stun_attributes.specs.declared.kinds.number.NumberAttribute.{NumberAttribute};
ghost use Rattle.stun_attributes.specs.declared.kinds.xored.XorAddressAttribute.{XorAddressAttribute};
ghost use Rattle.stun_attributes.specs.Kinds.{addr_of, bytes_of, fields_held, number_of, xored_of};

use crate::kinds::{
    AddressAttribute, AttributeKind, BytesAttribute, EmptyAttribute, NumberAttribute,
    PackedAttribute, PackedKind, ValueBytes, XorAddressAttribute,
};
use crate::wire::{Attribute, AttributeFromRaw, EncodeValue, ReadValue};

/// A number of one, two, four or eight bytes has one reading.
pub fn number_is_read_back()
    ensures one { (n : ℕ) → n < 2 ^ 8
        → HasOneReading ⟦<u8 as EncodeValue>⟧.bytes ⟦<u8 as ReadValue>⟧.reads_value n
        (λ read. read ≡ n) }
    ensures two { (n : ℕ) → n < 2 ^ 16
        → HasOneReading ⟦<u16 as EncodeValue>⟧.bytes ⟦<u16 as ReadValue>⟧.reads_value n
        (λ read. read ≡ n) }
    ensures four { (n : ℕ) → n < 2 ^ 32
        → HasOneReading ⟦<u32 as EncodeValue>⟧.bytes ⟦<u32 as ReadValue>⟧.reads_value n
        (λ read. read ≡ n) }
    ensures eight { (n : ℕ) → n < 2 ^ 64
        → HasOneReading ⟦<u64 as EncodeValue>⟧.bytes ⟦<u64 as ReadValue>⟧.reads_value n
        (λ read. read ≡ n) }
{}

/// An attribute of a number has one reading if its number has one.
pub fn number_attribute_is_read_back<K: AttributeKind, N: ReadValue>()
    ensures { (attribute : NumberAttribute K N)
        → HasOneReading N.bytes N.reads_value (number_of attribute)
        (λ read. read ≡ number_of attribute)
        → HasOneReading ⟦<NumberAttribute<K, N> as EncodeValue>⟧.bytes
        ⟦<NumberAttribute<K, N> as ReadValue>⟧.reads_value attribute
        (λ read. read ≡ attribute) }
{}

/// An attribute of fields has one reading if its number has one, and if the number holds the fields
/// that it was made of.
pub fn packed_attribute_is_read_back<K: PackedKind<V>, V>()
where
    K::Number: ReadValue + Drop,
    ensures { (attribute : PackedAttribute K V)
        → K.fields_of (K.number_of (fields_held attribute)) ≡ Some (fields_held attribute)
        → HasOneReading K.Number.bytes K.Number.reads_value (K.number_of (fields_held attribute))
        (λ read. read ≡ K.number_of (fields_held attribute))
        → HasOneReading ⟦<PackedAttribute<K, V> as EncodeValue>⟧.bytes
        ⟦<PackedAttribute<K, V> as ReadValue>⟧.reads_value attribute
        (λ read. read ≡ attribute) }
{}

/// An attribute without a value has one reading.
pub fn empty_is_read_back<K: AttributeKind>()
    ensures { (attribute : EmptyAttribute K)
        → HasOneReading ⟦<EmptyAttribute<K> as EncodeValue>⟧.bytes
        ⟦<EmptyAttribute<K> as ReadValue>⟧.reads_value attribute (λ read. read ≡ attribute) }
{}

/// Any bytes are read back, by `from_raw` with no error, and by `from_raw_ref`, which copies them,
/// unless out of memory. Neither is a `ReadValue`, since what is read may borrow them.
pub fn bytes_are_read_back<'a, K: AttributeKind>()
    ensures either { (attribute : BytesAttribute K ValueBytes) → IsReadBackInMemory
        ⟦<BytesAttribute<K, ValueBytes<'a>> as Attribute>⟧.atype
        ⟦<BytesAttribute<K, ValueBytes<'a>> as Attribute>⟧.value
        ⟦<BytesAttribute<K, ValueBytes<'a>> as AttributeFromRaw<'a>>⟧.reads_ref
        ⟦<BytesAttribute<K, ValueBytes<'a>> as AttributeFromRaw<'a>>⟧.reads attribute
        (λ read. bytes_of read ≡ bytes_of attribute) }
    ensures kept { (attribute : BytesAttribute K ValueBytes)
        (result : Result (BytesAttribute K ValueBytes) StunParseError)
        → ⟦<BytesAttribute<K, ValueBytes<'a>> as AttributeFromRaw<'a>>⟧.reads K.NUMBER
        (bytes_of attribute) result
        → IsOkAnd result (λ read. bytes_of read ≡ bytes_of attribute) }
{}

/// An address without flow info and scope ID has one reading, and so has an address that is XORed.
pub fn address_attribute_is_read_back<K: AttributeKind>()
    ensures plain { (attribute : AddressAttribute K)
        → IsPlain (addr_of attribute) → IsInRange (addr_of attribute)
        → HasOneReading ⟦<AddressAttribute<K> as EncodeValue>⟧.bytes
        ⟦<AddressAttribute<K> as ReadValue>⟧.reads_value attribute
        (λ read. IsInRange (addr_of read) → addr_of read ≡ addr_of attribute) }
    ensures xored { (attribute : XorAddressAttribute K)
        → IsInRange (xored_of attribute)
        → HasOneReading ⟦<XorAddressAttribute<K> as EncodeValue>⟧.bytes
        ⟦<XorAddressAttribute<K> as ReadValue>⟧.reads_value attribute
        (λ read. IsInRange (xored_of read) → xored_of read ≡ xored_of attribute) }
{}
