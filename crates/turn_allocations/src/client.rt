//! The relayed addresses of one client.

ghost use Rattle.std.specs.Prelude.{◌≡◌, ℕ, ◌&&◌, ◌==◌, not, find, is_some, Some};
ghost use Rattle.std.specs.List.{list_any};
ghost use Rattle.std.specs.Option.{option_map, option_map_or};
ghost use Rattle.stun_endpoints.specs.declared.endpoints.FiveTuple.{FiveTuple};
ghost use Rattle.turn_slots.specs.Users.{user_number};
ghost use Rattle.turn_machine.specs.Relays.{is_for, is_owned};
ghost use Rattle.turn_machine.specs.Times.{earlier_of, first_end};
ghost use Rattle.turn_machine.specs.Opening.{has_of, given_to};
ghost use Rattle.turn_machine.specs.Rows.{has_any, has_of_another, has_wanted};
ghost use Rattle.turn_relays.specs.Relayed.{Table, state_of, IsSlotFor};
ghost use Rattle.turn_allocations.specs.Answers.{given_list};
ghost use Rattle.turn_allocations.specs.Clients.{IsFound, place_of, in_place, place_any, given_at, AreSound, Owns};
ghost use Rattle.turn_allocations.specs.Requests.{number_in};

use crate::answer::Given;
use crate::families::Families;
use stun_endpoints::FiveTuple;
use turn_relays::{Relayed, Relays, list_follows_slots, lists_have_slots, users_are_numbers};
use turn_slots::UserId;

/// A relayed address and its slot.
#[derive(Clone, Copy)]
pub(crate) struct Place {
    pub(crate) slot: usize,
    pub(crate) relayed: Relayed,
}

/// The relayed addresses of one client, of each family.
#[derive(Clone, Copy)]
pub(crate) struct Client {
    pub(crate) ipv4: Option<Place>,
    pub(crate) ipv6: Option<Place>,
}

/// The relayed address in a slot, if there is one.
fn place_in<const P: usize, const C: usize>(
    relays: &Relays<P, C>,
    slot: Option<usize>,
) -> Option<Place>
    ensures { (tuple : FiveTuple) (family : ℕ) → IsSlotFor relays.now tuple family slot
        → IsFound relays.now tuple family result }
{
    let slot = slot?;
    let relayed = relays.get(slot)?;
    users_are_numbers(relayed.user);
    Some(Place { slot, relayed })
}

/// Finds a client's relayed addresses.
pub(crate) fn client_of<const P: usize, const C: usize>(
    relays: &Relays<P, C>,
    tuple: &FiveTuple,
) -> Client
    requires { AreSound relays.now }
    ensures { Owns relays.now tuple.now result }
{
    list_follows_slots();
    lists_have_slots();
    relays.numbers_are_distinct();
    let (ipv4, ipv6) = relays.find_by_client(tuple);
    Client {
        ipv4: place_in(relays, ipv4),
        ipv6: place_in(relays, ipv6),
    }
}

/// Whether there is a place, and it belongs to another user.
fn is_anothers(place: Option<Place>, user: UserId) -> bool
    ensures { result ≡ place_any (λ i. not (i.user == user_number user)) place }
{
    match place {
        Some(place) => !place.relayed.user.is_same(user),
        None => false,
    }
}

/// Whether there is a place, and the user's request with this transaction ID opened it.
fn is_opened_by(place: Option<Place>, user: UserId, id: u128) -> bool
    ensures { result ≡ place_any (λ i. (i.user == user_number user) && (i.transaction_id == id)) place }
{
    match place {
        Some(place) => place.relayed.user.is_same(user) && place.relayed.transaction_id == id,
        None => false,
    }
}

/// The earlier of two ends.
fn earlier(one: Option<u128>, other: Option<u128>) -> Option<u128>
    ensures { result ≡ option_map_or (λ end. Some (earlier_of end other)) one other }
{
    match (one, other) {
        (Some(one), Some(other)) => Some(one.min(other)),
        (Some(one), None) => Some(one),
        (None, other) => other,
    }
}

/// When the relayed address in a place expires.
fn end_of(place: Option<Place>) -> Option<u128>
    ensures { result ≡ option_map (λ p. p.relayed.expires_at) place }
{
    match place {
        Some(place) => Some(place.relayed.expires_at),
        None => None,
    }
}

/// The number and the address of a relayed address.
fn given(place: Option<Place>) -> Option<Given>
    ensures { result ≡ option_map given_at place }
{
    match place {
        Some(place) => Some(Given {
            number: place.relayed.number,
            address: place.relayed.address,
        }),
        None => None,
    }
}

impl Client {
    /// Whether the client has no relayed address.
    pub(crate) fn is_none(&self) -> bool
        ensures { (t : Table) (tuple : FiveTuple) → Owns t tuple self.now
            → result ≡ not (has_any tuple (state_of t)) }
    {
        !(self.ipv4.is_some() | self.ipv6.is_some())
    }

    /// Whether one of them belongs to another user.
    pub(crate) fn is_anothers(&self, user: UserId) -> bool
        ensures { (t : Table) (tuple : FiveTuple) → Owns t tuple self.now
            → result ≡ has_of_another tuple (user_number user) (state_of t) }
    {
        is_anothers(self.ipv4, user) | is_anothers(self.ipv6, user)
    }

    /// Whether the user's request with this transaction ID opened one of them.
    pub(crate) fn is_opened_by(&self, user: UserId, id: u128) -> bool
        ensures { (t : Table) (tuple : FiveTuple) → Owns t tuple self.now
            → result ≡ list_any (λ a. is_owned tuple (user_number user) a && (a.transaction_id == id))
            (state_of t).relays }
    {
        is_opened_by(self.ipv4, user, id) | is_opened_by(self.ipv6, user, id)
    }

    /// The place of a family.
    pub(crate) fn of_family(&self, family: u8) -> Option<Place>
        ensures place { result ≡ place_of family self.now }
        ensures found { (t : Table) (tuple : FiveTuple) → Owns t tuple self.now
            → IsFound t tuple family result }
        ensures relay { (t : Table) (tuple : FiveTuple) → Owns t tuple self.now
            → in_place t result ≡ find (is_for tuple family) (state_of t).relays }
        ensures some { (t : Table) (tuple : FiveTuple) → Owns t tuple self.now
            → is_some result ≡ has_of tuple family (state_of t) }
    {
        lists_have_slots();
        if family == 1 {
            return self.ipv4;
        }
        if family == 2 {
            return self.ipv6;
        }
        None
    }

    /// Whether the client has a relayed address of the family, or no family is given.
    pub(crate) fn has_wanted(&self, family: Option<u8>) -> bool
        ensures { (t : Table) (tuple : FiveTuple) → Owns t tuple self.now
            → result ≡ has_wanted tuple family (state_of t) }
    {
        match family {
            Some(family) => self.of_family(family).is_some(),
            None => true,
        }
    }

    /// When the first of them expires.
    pub(crate) fn first_end(&self) -> Option<u128>
        ensures { (t : Table) (tuple : FiveTuple) → Owns t tuple self.now
            → result ≡ first_end tuple (state_of t).relays }
    {
        earlier(end_of(self.ipv4), end_of(self.ipv6))
    }

    /// Their numbers and addresses.
    pub(crate) fn given(&self) -> Families<Option<Given>>
        ensures list { (t : Table) (tuple : FiveTuple) → Owns t tuple self.now
            → given_list result ≡ given_to tuple (state_of t) }
        ensures ipv4 { (t : Table) (tuple : FiveTuple) → Owns t tuple self.now
            → number_in result.ipv4 ≡ option_map_or (λ a. a.number) (find (is_for tuple 1) (state_of t).relays) 0 }
        ensures ipv6 { (t : Table) (tuple : FiveTuple) → Owns t tuple self.now
            → number_in result.ipv6 ≡ option_map_or (λ a. a.number) (find (is_for tuple 2) (state_of t).relays) 0 }
    {
        Families {
            ipv4: given(self.ipv4),
            ipv6: given(self.ipv6),
        }
    }
}
