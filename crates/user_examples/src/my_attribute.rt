//! An attribute of a user's own, over the public items of `stun_types`.

ghost use Rattle.std.specs.Prelude.{◌≡◌, ◌<◌, ◌^◌, Result, Ok};
ghost use Rattle.stun_grammar.specs.declared.error.StunParseError.{StunParseError};
ghost use Rattle.stun_grammar.specs.Numbers.{be32};
ghost use Rattle.stun_attributes.specs.Raw.{raw_type, raw_value};
ghost use Rattle.user_examples.specs.declared.my_attribute.MyAttribute.{MyAttribute};
ghost use Rattle.user_examples.specs.MyValue.{ReadsNumber};

use byteorder::{BigEndian, ByteOrder};
use std::alloc::Global;
use std::fmt;
use std::ops::Bound;
use stun_types::attribute::{AttributeType, RawAttribute};
use stun_types::message::{StunParseError, StunWriteError};
use stun_types::prelude::*;

/// An attribute of type 0x8851 that holds a number of 32 bits: four bytes, big-endian.
#[derive(Clone, Copy, Debug, PartialEq, Eq)]
pub struct MyAttribute {
    /// The number.
    pub value: u32,
}

impl AttributeStaticType for MyAttribute {
    ghost use Rattle.std.specs.Prelude.{refl};

    ghost TYPE = { record { 0 = 0x8851 } };

    ghost has_that_type = { λ _. refl };

    const TYPE: AttributeType = AttributeType(0x8851);
}

impl Attribute for MyAttribute {
    ghost use Rattle.stun_grammar.specs.Numbers.{be32};

    ghost atype = { λ _. 0x8851 };

    ghost value = { λ attribute. be32 attribute.value };

    fn get_type(&self) -> AttributeType {
        Self::TYPE
    }

    fn length(&self) -> u16 {
        4
    }
}

impl AttributeWrite for MyAttribute {
    ghost use Rattle.std.specs.Prelude.{false};

    ghost to_raw_borrows = { λ _. false };

    #[tactic(auto, unfolding(stun_grammar::specs::Attributes::encoding))]
    fn write_into_unchecked(&self, dest: &mut [u8]) {
        self.write_header_unchecked(dest);
        BigEndian::write_u32(&mut dest[4..], self.value);
    }

    /// The value of the raw attribute is owned, in memory that `alloc` gives.
    fn to_raw(&self, alloc: Global) -> Result<RawAttribute<'_>, StunWriteError> {
        let value = self.value.to_be_bytes();
        RawAttribute::new(Self::TYPE, &value)?.into_owned(alloc)
    }
}

impl AttributeFromRaw<'_> for MyAttribute {
    ghost use Rattle.user_examples.specs.MyValue.{ReadsNumber};

    ghost reads_ref = { ReadsNumber };

    ghost reads = { ReadsNumber };

    fn from_raw_ref(_alloc: Global, raw: &RawAttribute<'_>) -> Result<Self, StunParseError> {
        read(raw)
    }

    fn from_raw(_alloc: Global, raw: RawAttribute<'_>) -> Result<Self, StunParseError> {
        read(&raw)
    }
}

/// The number in decimal: `MyAttribute: 18217`.
impl fmt::Display for MyAttribute {
    ghost use Rattle.std.specs.Prelude.{Some, codes, ◌++◌};
    ghost use Rattle.std.specs.Fmt.{decimal};

    ghost output = { λ attribute. Some (codes "MyAttribute: " ++ decimal attribute.value) };

    fn fmt<W: fmt::Write>(&self, f: &mut fmt::Formatter<W>) -> fmt::Result {
        let value = self.value;
        write!(f, "MyAttribute: {value}")
    }
}

/// Checks the type and that the value has exactly four bytes, and reads the number from them.
fn read(raw: &RawAttribute<'_>) -> Result<MyAttribute, StunParseError>
    ensures { ReadsNumber (raw_type raw.now) (raw_value raw.now) result }
{
    let four = Bound::Included(4);
    raw.check_type_and_len(MyAttribute::TYPE, four, four)?;
    let value = BigEndian::read_u32(raw.value().as_bytes());
    Ok(MyAttribute { value })
}

/// What is written of a number reads back as that number: its postcondition is the theorem.
pub fn my_attribute_is_read_back()
    ensures { (attribute : MyAttribute) (result : Result MyAttribute StunParseError)
        → attribute.value < 2 ^ 32 → ReadsNumber 0x8851 (be32 attribute.value) result
        → result ≡ Ok attribute }
{}
