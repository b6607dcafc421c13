ghost use Rattle.std.specs.Prelude.{◌≡◌};
ghost use Rattle.turn_attrs.specs.Turn.{family_byte, family_of_byte};

use crate::{
    AdditionalAddressFamilyKind, EvenPortKind, RequestedAddressFamilyKind, RequestedTransportKind,
};
use std::fmt;
use stun_types::attribute::PackedKind;
use stun_types::{AddressFamily, PrintText, TextSink};

/// The family IPv6, the one that may be asked for beside IPv4.
#[derive(Clone, Copy, Debug, PartialEq, Eq)]
pub struct Ipv6AddressFamily;

impl PrintText for Ipv6AddressFamily {
    ghost use Rattle.std.specs.Prelude.{codes};

    ghost text = { λ _. codes "IPV6" };

    fn print<S: TextSink>(&self, sink: &mut S) -> Result<(), S::Error> {
        sink.put("IPV6")
    }
}

/// `IPV6`.
impl fmt::Display for Ipv6AddressFamily {
    ghost use Rattle.std.specs.Prelude.{Some, codes};

    ghost output = { λ _. Some (codes "IPV6") };

    fn fmt<W: fmt::Write>(&self, f: &mut fmt::Formatter<W>) -> fmt::Result {
        self.print(f)
    }
}

/// The byte that encodes a family: 1 for IPv4 and 2 for IPv6 (RFC 8489, section 14.1).
pub(crate) fn family_to_byte(family: AddressFamily) -> u8
    ensures { result ≡ family_byte family }
{
    match family {
        AddressFamily::IPV4 => 1,
        AddressFamily::IPV6 => 2,
    }
}

/// The family that a byte encodes, if it encodes one.
pub(crate) fn family_from_byte(byte: u8) -> Option<AddressFamily>
    ensures { result ≡ family_of_byte byte }
{
    match byte {
        1 => Some(AddressFamily::IPV4),
        2 => Some(AddressFamily::IPV6),
        _ => None,
    }
}

impl PackedKind<AddressFamily> for RequestedAddressFamilyKind {
    ghost use Rattle.turn_attrs.specs.Turn.{family_in, family_number};

    type Number = u32;

    ghost number_of = { family_number };

    ghost fields_of = { family_in };

    fn to_number(family: &AddressFamily) -> u32 {
        family_to_byte(*family) as u32 * 0x100_0000
    }

    fn from_number(number: u32) -> Option<AddressFamily> {
        family_from_byte((number / 0x100_0000) as u8)
    }
}

impl PackedKind<Ipv6AddressFamily> for AdditionalAddressFamilyKind {
    ghost use Rattle.turn_attrs.specs.Turn.{ipv6_in, ipv6_number};

    type Number = u32;

    ghost number_of = { ipv6_number };

    ghost fields_of = { ipv6_in };

    fn to_number(_family: &Ipv6AddressFamily) -> u32 {
        0x200_0000
    }

    fn from_number(number: u32) -> Option<Ipv6AddressFamily> {
        if number / 0x100_0000 == 2 {
            Some(Ipv6AddressFamily)
        } else {
            None
        }
    }
}

impl PackedKind<bool> for EvenPortKind {
    ghost use Rattle.turn_attrs.specs.Turn.{reserve_in, reserve_number};

    type Number = u8;

    ghost number_of = { reserve_number };

    ghost fields_of = { reserve_in };

    fn to_number(reserve: &bool) -> u8 {
        if *reserve { 128 } else { 0 }
    }

    fn from_number(number: u8) -> Option<bool> {
        Some(number >= 128)
    }
}

impl PackedKind<u8> for RequestedTransportKind {
    ghost use Rattle.turn_attrs.specs.Turn.{protocol_in, protocol_number};

    type Number = u32;

    ghost number_of = { protocol_number };

    ghost fields_of = { protocol_in };

    fn to_number(protocol: &u8) -> u32 {
        *protocol as u32 * 0x100_0000
    }

    fn from_number(number: u32) -> Option<u8> {
        Some((number / 0x100_0000) as u8)
    }
}
