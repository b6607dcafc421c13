//! Relayed addresses are opened, and get other deadlines.

ghost use Rattle.std.specs.Prelude.{◌≡◌, ◌+◌, ◌<◌, ◌==◌, true, false, None, Some, IfSome, IfNone, MatchOption, slice_set};
ghost use Rattle.turn_slots.specs.Relays.{is_relay};
ghost use Rattle.turn_slots.specs.Deadlines.{never};
ghost use Rattle.turn_slots.specs.Keys.{IsFullOf};
ghost use Rattle.turn_slots.specs.Numbers.{number_at};
ghost use Rattle.turn_slots.specs.Slots.{at_slot, Each, IsClosed, Opens};
ghost use Rattle.turn_slots.specs.Tables.{IsPlaceOf};

use crate::keys::Keys;
use crate::relay_key::RelayKey;
use crate::slots::{Entry, PLACES, Slots};
use crate::users::UserId;

/// The most openings that there can be.
const ROUNDS: u64 = 1_099_511_627_776;

/// Returns the place of a user, a new one if the user has none.
fn place_of(users: &mut Keys<UserId>, user: UserId) -> usize
    requires { IsFullOf users.old.1 → ⊥ }
    ensures place { IsPlaceOf user users.old.1 result users.new.1 }
    ensures secret { users.new.0 ≡ users.old.0 }
{
    if let Some(place) = users.find(&user) {
        return place;
    }
    match users.add(user) {
        Some(place) => place,
        None => unreachable!(),
    }
}

impl Slots {
    /// Opens a relayed address, and returns its slot. Its number is in the slot's entry.
    ///
    /// Returns `None`, and changes nothing, if no slot is free, or if 2^40 relayed addresses have been
    /// opened: then no number is left, and `Slots` never opens another.
    ///
    /// # Requires
    ///
    /// No relayed address has the key, so that [`Slots::find_by_key`] returns `None`, and `deadline` is
    /// below `u128::MAX`.
    pub fn open(&mut self, key: RelayKey, user: UserId, deadline: u128) -> Option<usize>
        requires key { Each self.old (λ e. is_relay key e.key ≡ false) }
        requires deadline { deadline < never }
        ensures some { IfSome result (λ slot. Opens slot (record {
          key = key;
          user = user;
          number = number_at self.old.round slot;
          deadline = deadline;
        }) self.old self.new) }
        ensures none { IfNone result (IsClosed self.old × (self.new ≡ self.old)) }
    {
        if self.round == ROUNDS {
            return None;
        }
        let slot = self.keys.add(key)?;
        let holder = place_of(&mut self.users, user);
        self.holders.move_to(slot, holder);
        self.deadlines.set(slot, deadline);
        let number = self.round * PLACES + slot as u64;
        self.round += 1;
        self.entries[slot] = Some(Entry {
            key,
            user,
            number,
            deadline,
        });
        Some(slot)
    }

    /// Gives the relayed address in a slot another deadline.
    ///
    /// Returns `false`, and changes nothing, if the slot is free or not below the capacity.
    ///
    /// # Requires
    ///
    /// `deadline` is below `u128::MAX`.
    ///
    /// ```
    /// use turn_slots::{RelayKey, Slots, UserId};
    ///
    /// let mut slots = Slots::new(alloc, 4, [1, 2])?;
    /// let slot = slots.open(RelayKey::default(), UserId::default(), 600).unwrap_or(0);
    /// assert!(rt; slots.set_deadline(slot, 900));
    /// assert_eq!(rt; slots.next_deadline(), Some(900));
    /// assert_eq!(rt; slots.end(slot).map(|entry| entry.deadline), Some(900));
    /// assert!(rt; !slots.set_deadline(slot, 1000));
    /// assert_eq!(rt; slots.next_deadline(), None);
    /// ```
    pub fn set_deadline(&mut self, slot: usize, deadline: u128) -> bool
        requires { deadline < never }
        ensures { MatchOption (at_slot self.old slot) ((result ≡ false) × (self.new ≡ self.old))
            (λ e. (result ≡ true) × (self.new ≡ record self.old {
              entries
                  = slice_set self.old.entries slot (Some (record e { deadline = deadline }));
            })) }
    {
        let entry = match self.entries.get(slot) {
            Some(Some(entry)) => *entry,
            _ => return false,
        };
        self.deadlines.set(slot, deadline);
        self.entries[slot] = Some(Entry { deadline, ..entry });
        true
    }
}
