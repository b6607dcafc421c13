use byteorder::{BigEndian, ByteOrder};
use std::alloc::Global;
use std::fmt;
use stun_types::attribute::{EncodeValue, ReadValue, TypedAttribute, check_length};
use stun_types::message::StunParseError;

/// VERSION: the version of the program that sent the message. The value is two numbers of two bytes
/// each, big-endian.
#[derive(Clone, Copy, Debug, PartialEq, Eq)]
pub struct Version {
    /// It changes when programs no longer understand one another.
    pub major: u16,
    /// It changes with each release.
    pub minor: u16,
}

impl TypedAttribute for Version {
    ghost use Rattle.examples.specs.Own.{VERSION};

    ghost NUMBER = { VERSION };

    const NUMBER: u16 = 0x8F02;
}

impl EncodeValue for Version {
    ghost use Rattle.examples.specs.Own.{version_value};

    ghost bytes = { version_value };

    fn value_length(&self) -> u16 {
        4
    }

    fn write_value(&self, dest: &mut [u8]) {
        BigEndian::write_u16(&mut dest[..2], self.major);
        BigEndian::write_u16(&mut dest[2..], self.minor);
    }

    fn held_bytes(&self) -> Option<&[u8]> {
        None
    }
}

/// Reading refuses a value of another length than four bytes as
/// `Truncated { expected: 4, actual }` or `TooLarge { expected: 4, actual }`. It allocates nothing.
impl ReadValue for Version {
    ghost use Rattle.examples.specs.Own.{ReadsVersion};

    ghost reads_value = { ReadsVersion };

    fn read_value(_alloc: Global, value: &[u8]) -> Result<Self, StunParseError> {
        check_length(value, 4)?;
        Ok(Version {
            major: BigEndian::read_u16(&value[..2]),
            minor: BigEndian::read_u16(&value[2..]),
        })
    }
}

/// `VERSION: 2.14`.
impl fmt::Display for Version {
    ghost use Rattle.std.specs.Prelude.{Some, codes, ◌++◌};
    ghost use Rattle.std.specs.Fmt.{decimal};

    ghost output = { λ version. Some (codes "VERSION: "
        ++ (decimal version.major ++ (codes "." ++ decimal version.minor))) };

    fn fmt<W: fmt::Write>(&self, f: &mut fmt::Formatter<W>) -> fmt::Result {
        let (major, minor) = (self.major, self.minor);
        write!(f, "VERSION: {major}.{minor}")
    }
}
