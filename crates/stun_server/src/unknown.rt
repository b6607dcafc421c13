//! The types that a request shows and that the server doesn't comprehend.

ghost use Rattle.std.specs.Prelude.{◌≡◌, ◌+◌, ◌*◌, ◌≤◌, ◌++◌, length, take, drop};
ghost use Rattle.stun_grammar.specs.Numbers.{IsBytes, be16};
ghost use Rattle.stun_values.specs.TypeLists.{types_encoding};
ghost use Rattle.stun_types.specs.Replies.{unknown_types};

use byteorder::{BigEndian, ByteOrder};
use stun_types::attribute::{AttributeType, EncodeValue};
use stun_types::message::{Message, UnknownTypes};

/// Each number in a slice is below 256. The function does nothing: its contract is the law.
fn are_bytes(bytes: &[u8])
    ensures { IsBytes bytes.now }
{}

/// How many types a request shows that aren't comprehended.
fn unknown_count(request: &[u8], supported: &[AttributeType]) -> u16
    requires { length (unknown_types supported.now request.now) ≤ 16384 }
    ensures { result ≡ length (unknown_types supported.now request.now) }
{
    let mut count = 0;
    for _atype in UnknownTypes::new(request, supported) {
        count += 1;
    }
    count
}

/// Writes two bytes for a type at a place.
fn write_type(atype: AttributeType, place: usize, dest: &mut [u8])
    requires { place + 2 ≤ length dest.old }
    ensures { dest.new
        ≡ take place dest.old ++ (be16 atype.0 ++ drop 2 (drop place dest.old)) }
{
    BigEndian::write_u16(&mut dest[place..], atype.value());
}

/// Writes two bytes for each of them at the start of `dest`, which has room for them, in order.
fn write_unknown(request: &[u8], supported: &[AttributeType], dest: &mut [u8])
    requires { 2 * length (unknown_types supported.now request.now) ≤ length dest.old }
    ensures { dest.new ≡ types_encoding (unknown_types supported.now request.now)
        ++ drop (2 * length (unknown_types supported.now request.now)) dest.old }
{
    let mut end = 0;
    for atype in UnknownTypes::new(request, supported) {
        write_type(atype, end, dest);
        end += 2;
    }
}

/// The value of an UNKNOWN-ATTRIBUTES with these types, in order and as often as the request shows
/// them (RFC 8489, section 14.13). It takes no memory: it is written straight from the request.
#[derive(Drop)]
pub(crate) struct ListedTypes<'m> {
    request: &'m [u8],
    supported: &'m [AttributeType],
    count: u16,
    ghost count_is: { count ≡ length (unknown_types supported.now request.now) },
    ghost few: { count ≤ 16384 },
}

impl<'m> ListedTypes<'m> {
    ghost use Rattle.stun_types.specs.Message.{message_bytes};

    /// Those of a request that aren't supported.
    #[inline(always)]
    pub(crate) fn of(request: &Message<'m>, supported: &'m [AttributeType]) -> ListedTypes<'m>
        ensures request { result.request.now ≡ message_bytes request.now }
        ensures supported { result.supported.now ≡ supported.now }
    {
        let request = request.as_bytes();
        are_bytes(request);
        ListedTypes {
            request,
            supported,
            count: unknown_count(request, supported),
        }
    }

    /// How many types there are.
    pub(crate) fn count(&self) -> usize
        ensures count { result
            ≡ length (unknown_types self.now.supported.now self.now.request.now) }
        ensures few { result ≤ 16384 }
    {
        self.count as usize
    }
}

impl EncodeValue for ListedTypes<'_> {
    ghost bytes = { λ listed.
        types_encoding (unknown_types listed.supported.now listed.request.now) };

    #[tactic(auto, using(stun_values::proofs::ListsLemmas::length_of_twos))]
    fn value_length(&self) -> u16 {
        2 * self.count
    }

    #[tactic(auto, using(stun_values::proofs::ListsLemmas::length_of_twos))]
    fn write_value(&self, dest: &mut [u8]) {
        write_unknown(self.request, self.supported, dest);
    }

    fn held_bytes(&self) -> Option<&[u8]> {
        None
    }
}
