use crate::IcmpKind;
use std::fmt;
use stun_types::attribute::PackedKind;
use stun_types::{PrintText, TextSink};

/// An ICMP message about a packet that a peer did not get: its type, its code and its data. What
/// type and code mean depends on whether it came over IPv4 or IPv6.
#[derive(Clone, Copy, Debug, PartialEq, Eq)]
pub struct IcmpError {
    /// The type of the ICMP message.
    pub icmp_type: u8,
    /// The code of the ICMP message.
    pub code: u8,
    /// The MTU of the next hop if the packet was too large, else 0.
    pub data: u32,
}

impl PrintText for IcmpError {
    ghost use Rattle.turn_attrs.specs.Turn.{icmp_text};

    ghost text = { icmp_text };

    fn print<S: TextSink>(&self, sink: &mut S) -> Result<(), S::Error> {
        sink.put("type ")?;
        self.icmp_type.print(sink)?;
        sink.put(", code ")?;
        self.code.print(sink)?;
        sink.put(", data ")?;
        self.data.print(sink)?;
        Ok(())
    }
}

/// `type 3, code 4, data 1500`.
impl fmt::Display for IcmpError {
    ghost use Rattle.std.specs.Prelude.{Some};
    ghost use Rattle.turn_attrs.specs.Turn.{icmp_text};

    ghost output = { λ error. Some (icmp_text error) };

    fn fmt<W: fmt::Write>(&self, f: &mut fmt::Formatter<W>) -> fmt::Result {
        self.print(f)
    }
}

impl PackedKind<IcmpError> for IcmpKind {
    ghost use Rattle.turn_attrs.specs.Turn.{icmp_in, icmp_number};

    type Number = u64;

    ghost number_of = { icmp_number };

    ghost fields_of = { icmp_in };

    fn to_number(error: &IcmpError) -> u64 {
        error.icmp_type as u64 * 0x100_0000_0000
            + error.code as u64 * 0x1_0000_0000
            + error.data as u64
    }

    fn from_number(number: u64) -> Option<IcmpError> {
        Some(IcmpError {
            icmp_type: (number / 0x100_0000_0000 % 256) as u8,
            code: (number / 0x1_0000_0000 % 256) as u8,
            data: (number % 0x1_0000_0000) as u32,
        })
    }
}
