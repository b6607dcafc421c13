//! Relayed addresses end: by slot, number and user, and when they are due.

ghost use Rattle.std.specs.Prelude.{◌≡◌, ◌≢◌, ◌<◌, ◌≤◌, ◌==◌, true, false, None, Some, IfSome, IfNone};
ghost use Rattle.turn_slots.specs.Users.{is_user};
ghost use Rattle.turn_slots.specs.Slots.{at_slot, Holds, Each, without, Ends};

use crate::deadlines::NEVER;
use crate::slots::{Entry, Slots};
use crate::users::UserId;

impl Slots {
    /// Ends the relayed address in a slot, and returns it. The slot is free at once.
    ///
    /// Returns `None`, and changes nothing, if the slot is free or not below the capacity.
    pub fn end(&mut self, slot: usize) -> Option<Entry>
        ensures entry { result ≡ at_slot self.old slot }
        ensures state { self.new ≡ without slot self.old }
    {
        let entry = match self.entries.get(slot) {
            Some(Some(entry)) => *entry,
            _ => return None,
        };
        let holder = self.holders.group_of(slot);
        self.keys.remove(slot);
        self.holders.move_to(slot, self.entries.len());
        if self.holders.count(holder) == 0 {
            self.users.remove(holder);
        }
        self.deadlines.set(slot, NEVER);
        self.entries[slot] = None;
        Some(entry)
    }

    /// Ends the relayed address with a number, and returns it with its slot.
    ///
    /// Returns `None`, and changes nothing, if no relayed address has the number.
    pub fn end_by_number(&mut self, number: u64) -> Option<(usize, Entry)>
        ensures some { IfSome result (λ ended. Ends (λ e. e.number ≡ number)
            ended.0 ended.1 self.old self.new) }
        ensures none { IfNone result (Each self.old (λ e. e.number ≢ number)
            × (self.new ≡ self.old)) }
    {
        let slot = self.find_by_number(number)?;
        let entry = self.end(slot)?;
        Some((slot, entry))
    }

    /// Ends one of the user's relayed addresses, and returns it with its slot. Call it until it returns
    /// `None` to end them all.
    ///
    /// Returns `None`, and changes nothing, if the user has no relayed addresses.
    ///
    /// ```
    /// use stun_endpoints::{Endpoint, FiveTuple};
    /// use turn_slots::{RelayKey, Slots, UserId};
    ///
    /// let mut slots = Slots::new(alloc, 4, [1, 2])?;
    /// let user = UserId::from([1; 32]);
    /// for port in 1..4 {
    ///     let client = Endpoint { port, ..Endpoint::default() };
    ///     let tuple = FiveTuple { client, ..FiveTuple::default() };
    ///     assert!(rt; slots.open(RelayKey { tuple, family: 1 }, user, 600).is_some());
    /// }
    /// assert_eq!(rt; (slots.len(), slots.count_by_user(user)), (3, 3));
    /// assert_eq!(rt; slots.count_by_user(UserId::default()), 0);
    /// for left in 0..3 {
    ///     assert!(rt; slots.end_by_user(user).is_some());
    ///     assert_eq!(rt; slots.count_by_user(user), 2 - left);
    /// }
    /// assert!(rt; slots.end_by_user(user).is_none());
    /// ```
    pub fn end_by_user(&mut self, user: UserId) -> Option<(usize, Entry)>
        ensures some { IfSome result (λ ended. Ends (λ e. is_user user e.user ≡ true)
            ended.0 ended.1 self.old self.new) }
        ensures none { IfNone result (Each self.old (λ e. is_user user e.user ≡ false)
            × (self.new ≡ self.old)) }
    {
        let slot = self.find_by_user(user)?;
        let entry = self.end(slot)?;
        Some((slot, entry))
    }

    /// Returns the slot with the least deadline, if that is at most `now`.
    fn first_due(&self, now: u128) -> Option<usize>
        ensures some { IfSome result (λ slot. (e : _) × Holds self.now slot e × (e.deadline ≤ now)
            × Each self.now (λ other. e.deadline ≤ other.deadline)) }
        ensures none { IfNone result (Each self.now (λ e. now < e.deadline)) }
    {
        let least = self.deadlines.least();
        if least == NEVER || now < least {
            return None;
        }
        Some(self.deadlines.first())
    }

    /// Ends a relayed address whose deadline is the least of all and at most `now`, and returns it with its
    /// slot. Call it until it returns `None` to end all that are due.
    ///
    /// Returns `None`, and changes nothing, if every deadline is after `now`.
    ///
    /// ```
    /// use turn_slots::{RelayKey, Slots, UserId};
    ///
    /// let mut slots = Slots::new(alloc, 4, [1, 2])?;
    /// for (family, deadline) in [(1, 700), (2, 600)] {
    ///     let key = RelayKey { family, ..RelayKey::default() };
    ///     assert!(rt; slots.open(key, UserId::default(), deadline).is_some());
    /// }
    /// assert_eq!(rt; slots.next_deadline(), Some(600));
    /// let ended = slots.end_due(800);
    /// assert!(rt; ended.is_some_and(|(_slot, entry)| entry.key.family == 2));
    /// assert_eq!(rt; slots.next_deadline(), Some(700));
    /// ```
    pub fn end_due(&mut self, now: u128) -> Option<(usize, Entry)>
        ensures some { IfSome result (λ ended. Ends (λ e. (e.deadline ≤ now)
            × Each self.old (λ other. e.deadline ≤ other.deadline))
            ended.0 ended.1 self.old self.new) }
        ensures none { IfNone result (Each self.old (λ e. now < e.deadline)
            × (self.new ≡ self.old)) }
    {
        let slot = self.first_due(now)?;
        let entry = self.end(slot)?;
        Some((slot, entry))
    }
}
