//! Refresh requests (RFC 8656, section 8.2).

ghost use Rattle.std.specs.Prelude.{◌≡◌, ℕ, ◌+◌, ◌<◌, ◌≤◌, ◌&&◌, ◌++◌, [], ◌∷◌, false, length, MatchOption};
ghost use Rattle.stun_endpoints.specs.declared.endpoints.FiveTuple.{FiveTuple};
ghost use Rattle.turn_slots.specs.Deadlines.{never};
ghost use Rattle.turn_slots.specs.Users.{user_number};
ghost use Rattle.turn_machine.specs.Relays.{seconds, Setup, Rules, is_owned};
ghost use Rattle.turn_machine.specs.Events.{nothing, refresh};
ghost use Rattle.turn_machine.specs.Rows.{has_of_another};
ghost use Rattle.turn_machine.specs.Steps.{changed, closing, is_wanted, lasting};
ghost use Rattle.turn_relays.specs.Relayed.{state_of};
ghost use Rattle.turn_allocations.specs.Clients.{lifetime_max, in_place, AreSound, Becomes, Owns};
ghost use Rattle.turn_allocations.specs.Granting.{changed_in};
ghost use Rattle.turn_allocations.specs.Refreshing.{if_wanted, ends_at, ended_in};
ghost use Rattle.turn_allocations.specs.Serving.{IsDone, Serves};

use crate::answer::{Answer, Refusal};
use crate::client::{Client, Place};
use crate::ended::Ended;
use crate::owning::owner_fault;
use crate::sweeping::end_at;
use turn_machine::refresh_lifetime;
use turn_relays::{Relays, list_follows_slots, lists_have_slots};
use turn_slots::UserId;

/// Nanoseconds of a second.
const SECOND: u128 = 1_000_000_000;

/// The place of the family `of`, if a Refresh request with this family, or with none, is for it.
fn if_wanted(place: Option<Place>, of: u8, family: Option<u8>) -> Option<Place>
    ensures { result ≡ if_wanted place of family }
{
    match family {
        Some(family) if family != of => None,
        _ => place,
    }
}

/// Ends the relayed address in a place, if there is one.
fn end_in<const P: usize, const C: usize>(
    relays: &mut Relays<P, C>,
    ended: &mut Ended,
    place: Option<Place>,
)
    requires room { length ended.old.numbers + length (state_of relays.old).relays ≤ ended.old.room }
    ensures slots { relays.new ≡ ended_in place relays.old }
    ensures ended { MatchOption (in_place relays.old place) (ended.new ≡ ended.old)
        (λ r. ended.new ≡ record ended.old { numbers = ended.old.numbers ++ r.number ∷ [] }) }
    ensures room { length ended.new.numbers + length (state_of relays.new).relays ≤ ended.new.room }
    ensures sound { AreSound relays.old → AreSound relays.new }
{
    if let Some(place) = place {
        end_at(relays, ended, place.slot);
    }
}

/// Ends a client's relayed addresses of the families that a request is for.
fn end_wanted<const P: usize, const C: usize>(
    relays: &mut Relays<P, C>,
    ended: &mut Ended,
    client: &Client,
    family: Option<u8>,
)
    requires room { length ended.old.numbers + length (state_of relays.old).relays ≤ ended.old.room }
    requires sound { AreSound relays.old }
    ensures done { (tuple : FiveTuple) (user : ℕ) → Owns relays.old tuple client.now
        → has_of_another tuple user (state_of relays.old) ≡ false
        → IsDone (closing (λ a. is_owned tuple user a && is_wanted family a) nothing (state_of relays.old))
        relays.old relays.new ended.old ended.new }
    ensures sound { AreSound relays.new }
{
    list_follows_slots();
    lists_have_slots();
    relays.numbers_are_distinct();
    end_in(relays, ended, if_wanted(client.ipv4, 1, family));
    relays.numbers_are_distinct();
    end_in(relays, ended, if_wanted(client.ipv6, 2, family));
}

/// Sets when the relayed address in a place expires, if there is one.
fn set_end_in<const P: usize, const C: usize>(
    relays: &mut Relays<P, C>,
    place: Option<Place>,
    expires_at: u128,
)
    requires { expires_at < never }
    ensures { relays.new ≡ changed_in place (ends_at expires_at) relays.old }
{
    if let Some(place) = place {
        relays.set_end(place.slot, expires_at);
    }
}

/// Sets when a client's relayed addresses of the families that a request is for expire.
fn set_ends<const P: usize, const C: usize>(
    relays: &mut Relays<P, C>,
    client: &Client,
    family: Option<u8>,
    expires_at: u128,
)
    requires soon { expires_at ≤ relays.old.clock + seconds lifetime_max }
    requires expires_at { expires_at < never }
    requires sound { AreSound relays.old }
    ensures becomes { (tuple : FiveTuple) (user : ℕ) → Owns relays.old tuple client.now
        → has_of_another tuple user (state_of relays.old) ≡ false
        → Becomes relays.old relays.new (changed tuple user (lasting family expires_at) (state_of relays.old)) }
    ensures sound { AreSound relays.new }
{
    list_follows_slots();
    lists_have_slots();
    set_end_in(relays, if_wanted(client.ipv4, 1, family), expires_at);
    set_end_in(relays, if_wanted(client.ipv6, 2, family), expires_at);
}

/// Answers a Refresh request of a client with these relayed addresses.
pub(crate) fn refresh<const P: usize, const C: usize>(
    relays: &mut Relays<P, C>,
    ended: &mut Ended,
    client: &Client,
    user: UserId,
    family: Option<u8>,
    lifetime: Option<u32>,
    greatest_lifetime: u32,
) -> Answer
    requires room { length ended.old.numbers + length (state_of relays.old).relays ≤ ended.old.room }
    requires sound { AreSound relays.old }
    ensures serves { (setup : Setup) (rules : Rules) (tuple : FiveTuple)
        → setup.greatest_lifetime ≡ greatest_lifetime → Owns relays.old tuple client.now
        → Serves setup rules tuple (user_number user) (refresh family lifetime)
        relays.old relays.new ended.old ended.new result }
    ensures sound { AreSound relays.new }
{
    if let Some(refusal) = owner_fault(client, user) {
        return Answer::Refused(refusal);
    }
    if !client.has_wanted(family) {
        return Answer::Refused(Refusal::PeerAddressFamilyMismatch);
    }
    let lifetime = refresh_lifetime(lifetime, greatest_lifetime);
    if lifetime == 0 {
        end_wanted(relays, ended, client, family);
    } else {
        set_ends(
            relays,
            client,
            family,
            relays.clock() + SECOND * lifetime as u128,
        );
    }
    Answer::Refreshed(lifetime)
}
