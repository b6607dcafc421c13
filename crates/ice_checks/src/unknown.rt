//! The types that a message shows, and that an agent doesn't understand.

ghost use Rattle.std.specs.Prelude.{◌≡◌, ◌+◌, ◌*◌, ◌≤◌, ◌++◌, length, take, drop};
ghost use Rattle.stun_grammar.specs.AttributeTypes.{UNKNOWN_ATTRIBUTES};
ghost use Rattle.stun_grammar.specs.Numbers.{be16};
ghost use Rattle.stun_values.specs.TypeLists.{types_encoding};
ghost use Rattle.ice_checks.specs.Types.{listed_types};

use crate::reading::understood;
use byteorder::{BigEndian, ByteOrder};
use std::alloc::Global;
use stun_attributes::{to_owned_raw, write_encoded};
use stun_types::attribute::{
    Attribute, AttributeStaticType, AttributeType, AttributeWrite, EncodeValue, RawAttribute,
    UnknownAttributes,
};
use stun_types::message::{StunWriteError, UnknownTypes};

/// The most types that an attribute has room for.
const MOST: u16 = 32767;

/// How many types are listed.
fn unknown_count(message: &[u8]) -> u16
    ensures count { result ≡ length (listed_types message.now) }
    ensures few { result ≤ 32767 }
{
    let mut count = 0;
    for _atype in UnknownTypes::new(message, understood()) {
        if count == MOST {
            return MOST;
        }
        count += 1;
    }
    count
}

/// Writes two bytes for a type at a place.
fn write_type(atype: AttributeType, place: usize, dest: &mut [u8])
    requires { place + 2 ≤ length dest.old }
    ensures { dest.new
        ≡ take place dest.old ++ (be16 atype.0 ++ drop 2 (drop place dest.old)) }
{
    BigEndian::write_u16(&mut dest[place..], atype.value());
}

/// Writes two bytes for each type that is listed at the start of `dest`, which has room for them, in order.
fn write_unknown(message: &[u8], dest: &mut [u8])
    requires { 2 * length (listed_types message.now) ≤ length dest.old }
    ensures { dest.new ≡ types_encoding (listed_types message.now)
        ++ drop (2 * length (listed_types message.now)) dest.old }
{
    let mut count = 0;
    for atype in UnknownTypes::new(message, understood()) {
        if count == MOST {
            return;
        }
        write_type(atype, 2 * count as usize, dest);
        count += 1;
    }
}

/// An UNKNOWN-ATTRIBUTES (RFC 8489, section 14.13) with the types below 0x8000 that a message shows, but those
/// of [`UNDERSTOOD`](crate::UNDERSTOOD), in order and as often as shown, for a 420. It borrows the message, and
/// takes no memory.
///
/// An attribute has room for 32767 types, which are more than a datagram of UDP shows: what follows them isn't
/// listed.
///
/// # Examples
///
/// ```
/// use ice_checks::UnknownList;
/// use stun_types::prelude::*;
///
/// let message = b"\x00\x01\x00\x08\x21\x12\xA4\x42abcdefghijkl\x77\x77\x00\x01a\0\0\0";
/// let list = UnknownList::of(message);
/// assert_eq!(rt; list.to_raw(alloc)?.value().as_bytes(), b"\x77\x77".as_slice());
/// ```
#[derive(Clone, Copy, Debug)]
pub struct UnknownList<'m> {
    message: &'m [u8],
    count: u16,
    ghost count_is: { count ≡ length (listed_types message.now) },
    ghost few: { count ≤ 32767 },
}

impl<'m> UnknownList<'m> {
    ghost use Rattle.std.specs.Prelude.{◌≡◌};
    ghost use Rattle.ice_checks.specs.Types.{listed_types};
    ghost use Rattle.ice_checks.specs.Views.{types_in};

    /// Returns the list of a message, of which only the attributes are read.
    pub fn of(message: &'m [u8]) -> Self
        ensures { types_in result ≡ listed_types message.now }
    {
        UnknownList {
            message,
            count: unknown_count(message),
        }
    }
}

impl EncodeValue for UnknownList<'_> {
    ghost use Rattle.ice_checks.specs.Views.{types_in};

    ghost bytes = { λ list. types_encoding (types_in list) };

    #[tactic(auto, using(stun_values::proofs::ListsLemmas::length_of_twos))]
    fn value_length(&self) -> u16 {
        2 * self.count
    }

    #[tactic(auto, using(stun_values::proofs::ListsLemmas::length_of_twos))]
    fn write_value(&self, dest: &mut [u8]) {
        write_unknown(self.message, dest);
    }

    fn held_bytes(&self) -> Option<&[u8]> {
        None
    }
}

impl Attribute for UnknownList<'_> {
    ghost use Rattle.ice_checks.specs.Views.{types_in};

    ghost atype = { λ _. UNKNOWN_ATTRIBUTES };

    ghost value = { λ list. types_encoding (types_in list) };

    fn get_type(&self) -> AttributeType {
        UnknownAttributes::TYPE
    }

    fn length(&self) -> u16 {
        self.value_length()
    }
}

impl AttributeWrite for UnknownList<'_> {
    ghost use Rattle.std.specs.Prelude.{false};

    ghost to_raw_borrows = { λ _. false };

    fn write_into_unchecked(&self, dest: &mut [u8]) {
        write_encoded(UnknownAttributes::TYPE, self, dest);
    }

    /// The raw attribute owns the value, in memory from `alloc`.
    fn to_raw(&self, alloc: Global) -> Result<RawAttribute<'_>, StunWriteError> {
        to_owned_raw(alloc, UnknownAttributes::TYPE, self)
    }
}
