use crate::attribute_types;
use byteorder::{BigEndian, ByteOrder};
use std::alloc::Global;
use std::fmt;
use stun_types::attribute::{EncodeValue, ReadValue, TypedAttribute, check_length};
use stun_types::message::StunParseError;
use stun_types::{PrintText, TextSink};

/// LIFETIME: for how many seconds the server keeps an allocation that isn't refreshed (RFC 8656,
/// section 18.2). The value is four bytes, big-endian.
#[derive(Clone, Copy, Debug, PartialEq, Eq)]
pub struct Lifetime {
    seconds: u32,
}

impl Lifetime {
    ghost use Rattle.std.specs.Prelude.{◌≡◌};
    ghost use Rattle.turn_attrs.specs.Turn.{seconds_of};

    /// Makes the attribute of this lifetime, in seconds.
    ///
    /// # Examples
    ///
    /// ```
    /// use stun_types::prelude::*;
    /// use turn_attrs::Lifetime;
    ///
    /// // The hour that the client of section 20 of RFC 8656 asks for.
    /// let mut bytes = [0; 8];
    /// assert_eq!(rt; Lifetime::new(3600).write_into(&mut bytes), Ok(8));
    /// assert_eq!(rt; bytes, [0x00, 0x0D, 0x00, 0x04, 0x00, 0x00, 0x0E, 0x10]);
    /// ```
    pub fn new(seconds: u32) -> Self
        ensures { seconds_of result ≡ seconds }
    {
        Lifetime { seconds }
    }

    /// Returns the lifetime in seconds.
    pub fn seconds(&self) -> u32
        ensures { result ≡ seconds_of self.now }
    {
        self.seconds
    }
}

impl TypedAttribute for Lifetime {
    ghost use Rattle.turn_attrs.specs.Turn.{LIFETIME};

    ghost NUMBER = { LIFETIME };

    const NUMBER: u16 = attribute_types::LIFETIME;
}

impl EncodeValue for Lifetime {
    ghost use Rattle.stun_grammar.specs.Numbers.{be32};
    ghost use Rattle.turn_attrs.specs.Turn.{seconds_of};

    ghost bytes = { λ lifetime. be32 (seconds_of lifetime) };

    fn value_length(&self) -> u16 {
        4
    }

    fn write_value(&self, dest: &mut [u8]) {
        BigEndian::write_u32(dest, self.seconds);
    }

    fn held_bytes(&self) -> Option<&[u8]> {
        None
    }
}

/// Reading refuses a value of another length than four bytes as
/// `Truncated { expected: 4, actual }` or `TooLarge { expected: 4, actual }`. It takes no memory.
impl ReadValue for Lifetime {
    ghost use Rattle.turn_attrs.specs.Turn.{ReadsLifetime};

    ghost reads_value = { ReadsLifetime };

    fn read_value(_alloc: Global, value: &[u8]) -> Result<Self, StunParseError> {
        check_length(value, 4)?;
        Ok(Lifetime::new(BigEndian::read_u32(value)))
    }
}

impl PrintText for Lifetime {
    ghost use Rattle.std.specs.Prelude.{codes, ◌++◌};
    ghost use Rattle.std.specs.Fmt.{decimal};
    ghost use Rattle.turn_attrs.specs.Turn.{seconds_of};

    ghost text = { λ lifetime. codes "LIFETIME: " ++ decimal (seconds_of lifetime) };

    fn print<S: TextSink>(&self, sink: &mut S) -> Result<(), S::Error> {
        sink.put("LIFETIME: ")?;
        self.seconds.print(sink)?;
        Ok(())
    }
}

/// `LIFETIME: 600`.
impl fmt::Display for Lifetime {
    ghost use Rattle.std.specs.Prelude.{Some, codes, ◌++◌};
    ghost use Rattle.std.specs.Fmt.{decimal};
    ghost use Rattle.turn_attrs.specs.Turn.{seconds_of};

    ghost output = { λ lifetime. Some (codes "LIFETIME: " ++ decimal (seconds_of lifetime)) };

    fn fmt<W: fmt::Write>(&self, f: &mut fmt::Formatter<W>) -> fmt::Result {
        self.print(f)
    }
}
