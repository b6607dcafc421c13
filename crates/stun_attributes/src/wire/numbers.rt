//! Numbers as values: big-endian, in as many bytes as the Rust type has.

ghost use Rattle.std.specs.Prelude.{◌≡◌};

use crate::wire::{EncodeValue, ReadValue};
use byteorder::{BigEndian, ByteOrder};
use std::alloc::Global;
use stun_base::StunParseError;
use stun_values::check_length;

impl EncodeValue for u8 {
    ghost use Rattle.std.specs.Prelude.{[], ◌∷◌};

    ghost bytes = { λ byte. byte ∷ [] };

    fn value_length(&self) -> u16 {
        1
    }

    fn write_value(&self, dest: &mut [u8]) {
        dest[0] = *self;
    }

    fn held_bytes(&self) -> Option<&[u8]> {
        None
    }
}

/// Reading refuses a value of another length than one byte, as `Truncated { expected: 1, actual }`
/// or `TooLarge { expected: 1, actual }`.
impl ReadValue for u8 {
    ghost use Rattle.stun_attributes.specs.Reading.{ReadsNumber};

    ghost reads_value = { ReadsNumber 1 };

    fn read_value(_alloc: Global, value: &[u8]) -> Result<Self, StunParseError> {
        check_length(value, 1)?;
        Ok(value[0])
    }
}

impl EncodeValue for u16 {
    ghost use Rattle.stun_grammar.specs.Numbers.{be16};

    ghost bytes = { be16 };

    fn value_length(&self) -> u16 {
        2
    }

    fn write_value(&self, dest: &mut [u8]) {
        BigEndian::write_u16(dest, *self);
    }

    fn held_bytes(&self) -> Option<&[u8]> {
        None
    }
}

/// Reading refuses a value of another length than two bytes, as `Truncated { expected: 2, actual }`
/// or `TooLarge { expected: 2, actual }`.
impl ReadValue for u16 {
    ghost use Rattle.stun_attributes.specs.Reading.{ReadsNumber};

    ghost reads_value = { ReadsNumber 2 };

    fn read_value(_alloc: Global, value: &[u8]) -> Result<Self, StunParseError> {
        check_length(value, 2)?;
        Ok(BigEndian::read_u16(value))
    }
}

impl EncodeValue for u32 {
    ghost use Rattle.stun_grammar.specs.Numbers.{be32};

    ghost bytes = { be32 };

    fn value_length(&self) -> u16 {
        4
    }

    fn write_value(&self, dest: &mut [u8]) {
        BigEndian::write_u32(dest, *self);
    }

    fn held_bytes(&self) -> Option<&[u8]> {
        None
    }
}

/// Reading refuses a value of another length than four bytes, as
/// `Truncated { expected: 4, actual }` or `TooLarge { expected: 4, actual }`.
impl ReadValue for u32 {
    ghost use Rattle.stun_attributes.specs.Reading.{ReadsNumber};

    ghost reads_value = { ReadsNumber 4 };

    fn read_value(_alloc: Global, value: &[u8]) -> Result<Self, StunParseError> {
        check_length(value, 4)?;
        Ok(BigEndian::read_u32(value))
    }
}

impl EncodeValue for u64 {
    ghost use Rattle.stun_grammar.specs.Numbers.{be64};

    ghost bytes = { be64 };

    fn value_length(&self) -> u16 {
        8
    }

    fn write_value(&self, dest: &mut [u8]) {
        BigEndian::write_u64(dest, *self);
    }

    fn held_bytes(&self) -> Option<&[u8]> {
        None
    }
}

/// Reading refuses a value of another length than eight bytes, as
/// `Truncated { expected: 8, actual }` or `TooLarge { expected: 8, actual }`.
impl ReadValue for u64 {
    ghost use Rattle.stun_attributes.specs.Reading.{ReadsNumber};

    ghost reads_value = { ReadsNumber 8 };

    fn read_value(_alloc: Global, value: &[u8]) -> Result<Self, StunParseError> {
        check_length(value, 8)?;
        Ok(BigEndian::read_u64(value))
    }
}
