//! Ending relayed addresses: those that have expired, and those that the caller ends.

ghost use Rattle.std.specs.Prelude.{◌≡◌, ◌+◌, ◌≤◌, ◌++◌, ◌∷◌, [], Bool, None, MatchOption, length};
ghost use Rattle.turn_slots.specs.Users.{user_number};
ghost use Rattle.turn_machine.specs.Relays.{Relay, is_users, is_at};
ghost use Rattle.turn_machine.specs.Events.{nothing};
ghost use Rattle.turn_machine.specs.Times.{at, over_at};
ghost use Rattle.turn_machine.specs.Steps.{closing};
ghost use Rattle.turn_relays.specs.Relayed.{state_of, at_slot, with_slot};
ghost use Rattle.turn_allocations.specs.Clients.{Becomes, AreSound};
ghost use Rattle.turn_allocations.specs.Serving.{Appends, IsDone, IsOnly};

use crate::ended::Ended;
use turn_relays::{Relays, list_follows_slots, lists_have_slots};
use turn_slots::UserId;

/// Ends what has expired by the clock.
fn end_expired<const P: usize, const C: usize>(relays: &mut Relays<P, C>, ended: &mut Ended)
    requires { length ended.old.numbers + length (state_of relays.old).relays ≤ ended.old.room }
    ensures left { Becomes relays.old relays.new (at relays.old.clock (state_of relays.old)) }
    ensures ended { Appends ended.old ended.new (over_at relays.old.clock (state_of relays.old)) }
    ensures room { length ended.new.numbers + length (state_of relays.new).relays ≤ ended.new.room }
{
    list_follows_slots();
    lists_have_slots();
    'expired: loop {
        relays.numbers_are_distinct();
        let Some(number) = relays.end_due() else {
            return;
        };
        ended.push(number);
    }
}

/// Advances the clock, and ends what has expired. The numbers of earlier calls are removed.
pub(crate) fn sweep<const P: usize, const C: usize>(
    relays: &mut Relays<P, C>,
    ended: &mut Ended,
    now: u64,
)
    requires room { length relays.old.slots ≡ ended.old.room }
    requires sound { AreSound relays.old }
    ensures left { Becomes relays.old relays.new (at now (state_of relays.old)) }
    ensures ended { Appends (record ended.old { numbers = [] }) ended.new (over_at now (state_of relays.old)) }
    ensures room { length ended.new.numbers + length (state_of relays.new).relays ≤ ended.new.room }
    ensures sound { AreSound relays.new }
{
    lists_have_slots();
    ended.clear();
    relays.advance(now);
    end_expired(relays, ended);
}

/// Ends the relayed address in a slot.
pub(crate) fn end_at<const P: usize, const C: usize>(
    relays: &mut Relays<P, C>,
    ended: &mut Ended,
    slot: usize,
)
    requires room { length ended.old.numbers + length (state_of relays.old).relays ≤ ended.old.room }
    ensures done { (test : Relay → Bool) → IsOnly relays.old test slot
        → IsDone (closing test nothing (state_of relays.old)) relays.old relays.new ended.old ended.new }
    ensures slots { relays.new ≡ with_slot slot None relays.old }
    ensures ended { MatchOption (at_slot relays.old slot) (ended.new ≡ ended.old)
        (λ r. ended.new ≡ record ended.old { numbers = ended.old.numbers ++ r.number ∷ [] }) }
    ensures room { length ended.new.numbers + length (state_of relays.new).relays ≤ ended.new.room }
    ensures sound { AreSound relays.old → AreSound relays.new }
{
    list_follows_slots();
    lists_have_slots();
    relays.numbers_are_distinct();
    if let Some(number) = relays.end(slot) {
        ended.push(number);
    }
}

/// Ends the relayed address with a number.
pub(crate) fn end_number<const P: usize, const C: usize>(
    relays: &mut Relays<P, C>,
    ended: &mut Ended,
    number: u64,
)
    requires room { length ended.old.numbers + length (state_of relays.old).relays ≤ ended.old.room }
    ensures done { IsDone (closing (is_at number) nothing (state_of relays.old)) relays.old relays.new
        ended.old ended.new }
    ensures sound { AreSound relays.old → AreSound relays.new }
{
    list_follows_slots();
    lists_have_slots();
    if let Some(slot) = relays.find_by_number(number) {
        end_at(relays, ended, slot);
    }
}

/// Ends all relayed addresses of a user.
pub(crate) fn end_users<const P: usize, const C: usize>(
    relays: &mut Relays<P, C>,
    ended: &mut Ended,
    user: UserId,
)
    requires room { length ended.old.numbers + length (state_of relays.old).relays ≤ ended.old.room }
    ensures done { IsDone (closing (is_users (user_number user)) nothing (state_of relays.old)) relays.old
        relays.new ended.old ended.new }
    ensures sound { AreSound relays.old → AreSound relays.new }
{
    list_follows_slots();
    lists_have_slots();
    'users: loop {
        let Some(slot) = relays.find_by_user(user) else {
            return;
        };
        relays.numbers_are_distinct();
        end_at(relays, ended, slot);
    }
}
