//! Relayed addresses found by client, number and user, and their next deadline.

ghost use Rattle.std.specs.Prelude.{◌≡◌, ◌≢◌, ℕ, ◌<◌, ◌≤◌, ◌==◌, true, false, length, None, Some, IfSome, IfNone, count_by};
ghost use Rattle.turn_slots.specs.Relays.{is_relay};
ghost use Rattle.turn_slots.specs.Users.{is_user};
ghost use Rattle.turn_slots.specs.Slots.{at_slot, Holds, Each, IsSlotOf, is_users};

use crate::deadlines::NEVER;
use crate::relay_key::RelayKey;
use crate::slots::{PLACES, Slots};
use crate::users::UserId;
use stun_endpoints::FiveTuple;

impl Slots {
    /// Returns the slot of the client's relayed address of a family, or `None` if the client has none.
    ///
    /// ```
    /// use turn_slots::{RelayKey, Slots, UserId};
    ///
    /// let mut slots = Slots::new(alloc, 4, [1, 2])?;
    /// let ipv4 = RelayKey { family: 1, ..RelayKey::default() };
    /// let ipv6 = RelayKey { family: 2, ..ipv4 };
    /// let slot = slots.open(ipv4, UserId::default(), 600);
    /// assert_eq!(rt; slots.find_by_key(&ipv4), slot);
    /// assert_eq!(rt; slots.find_by_key(&ipv6), None);
    /// ```
    pub fn find_by_key(&self, key: &RelayKey) -> Option<usize>
        ensures some { IfSome result (λ slot. (e : _) × Holds self.now slot e
            × (is_relay key.now e.key ≡ true)) }
        ensures none { IfNone result (Each self.now (λ e. is_relay key.now e.key ≡ false)) }
        ensures only { (slot : ℕ) (e : _) → Holds self.now slot e
            → is_relay key.now e.key ≡ true → result ≡ Some slot }
    {
        self.keys.find(key)
    }

    /// Returns the slots of the client's relayed addresses for IPv4 and IPv6, each as [`Slots::find_by_key`]
    /// returns it, with one hash for both.
    ///
    /// ```
    /// use turn_slots::{RelayKey, Slots, UserId};
    ///
    /// let mut slots = Slots::new(alloc, 4, [1, 2])?;
    /// let ipv6 = RelayKey { family: 2, ..RelayKey::default() };
    /// let slot = slots.open(ipv6, UserId::default(), 600);
    /// assert_eq!(rt; slots.find_by_client(&ipv6.tuple), (None, slot));
    /// ```
    pub fn find_by_client(&self, tuple: &FiveTuple) -> (Option<usize>, Option<usize>)
        ensures ipv4 { IsSlotOf self.now (record { tuple = tuple.now; family = 1 }) result.0 }
        ensures ipv6 { IsSlotOf self.now (record { tuple = tuple.now; family = 2 }) result.1 }
    {
        let ipv4 = RelayKey {
            tuple: *tuple,
            family: 1,
        };
        let ipv6 = RelayKey {
            tuple: *tuple,
            family: 2,
        };
        self.keys.find_both(&ipv4, &ipv6)
    }

    /// Returns the slot of the relayed address with a number, or `None` if no relayed address has it.
    pub fn find_by_number(&self, number: u64) -> Option<usize>
        ensures some { IfSome result (λ slot. (e : _) × Holds self.now slot e × (e.number ≡ number)) }
        ensures none { IfNone result (Each self.now (λ e. e.number ≢ number)) }
        ensures only { (slot : ℕ) (e : _) → Holds self.now slot e → e.number ≡ number
            → result ≡ Some slot }
    {
        let slot = (number % PLACES) as usize;
        match self.entries.get(slot) {
            Some(Some(entry)) if entry.number == number => Some(slot),
            _ => None,
        }
    }

    /// Returns the slot of one of the user's relayed addresses, or `None` if the user has none.
    pub fn find_by_user(&self, user: UserId) -> Option<usize>
        ensures some { IfSome result (λ slot. (e : _) × Holds self.now slot e
            × (is_user user e.user ≡ true)) }
        ensures none { IfNone result (Each self.now (λ e. is_user user e.user ≡ false)) }
    {
        let place = self.users.find(&user)?;
        self.holders.first(place)
    }

    /// Returns the number of the user's relayed addresses.
    pub fn count_by_user(&self, user: UserId) -> usize
        ensures { result ≡ count_by (is_users user) self.now.entries }
    {
        match self.users.find(&user) {
            Some(place) => self.holders.count(place),
            None => 0,
        }
    }

    /// Returns the least deadline of all relayed addresses, or `None` if there are none.
    pub fn next_deadline(&self) -> Option<u128>
        ensures some { IfSome result (λ due. ((slot : ℕ) × (e : _) × Holds self.now slot e
            × (e.deadline ≡ due)) × Each self.now (λ e. due ≤ e.deadline)) }
        ensures none { IfNone result ((slot : ℕ) → slot < length self.now.entries
            → at_slot self.now slot ≡ None) }
    {
        let least = self.deadlines.least();
        if least == NEVER {
            return None;
        }
        Some(least)
    }
}
