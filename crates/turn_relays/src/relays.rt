//! The relayed addresses of a server.

ghost use Rattle.std.specs.Prelude.{◌≡◌, ◌≢◌, ℕ, ◌<◌, ◌≤◌, ◌^◌, true, false, length, None, Some, IfOk, IfSome, IfNone, MatchOption, count_by, max, replicate, slice_index_or};
ghost use Rattle.turn_slots.specs.Deadlines.{never};
ghost use Rattle.turn_slots.specs.Hashes.{secret_of};
ghost use Rattle.turn_slots.specs.Users.{user_number};
ghost use Rattle.turn_machine.specs.Relays.{Relay, is_for, is_users, is_at};
ghost use Rattle.turn_relays.specs.Facts.{IsFirstEnd};
ghost use Rattle.turn_relays.specs.Relayed.{relay_of, new_grants, Table, state_of, at_slot, Holds, Each, IsSlotFor, with_slot, opened, Opens, IsClosed, NumbersLast};

use crate::kept::Kept;
use std::alloc::{AllocError, Global};
use std::marker::Model;
use stun_endpoints::{Endpoint, FiveTuple};
use turn_slots::{Entry, RelayKey, Slots, UserId};

/// The relayed addresses of a TURN server, each with up to `P` permissions and `C` channels (RFC 8656,
/// sections 6, 9 and 12).
///
/// An allocation has one relayed address, or one for IPv4 and one for IPv6. Each is in a slot, an index
/// below the capacity, which stays the same until the relayed address ends. Each has a number too, for its
/// socket, which is above the numbers of all opened before.
///
/// Moments are nanoseconds from a beginning of the caller's choice, and the clock is the latest moment
/// passed to [`Relays::advance`]. A relayed address has expired if its end is not after the clock. It is
/// still found and counted until [`Relays::end_due`] ends it: call that until it returns `None` whenever the
/// clock has advanced.
///
/// [`Relays::new`] takes all memory; no other call allocates. The cost of a call doesn't depend on how many
/// relayed addresses there are. A look-up by client or user hashes it, and walks over one bucket of a hash
/// table, which without the seed nobody can fill at will. To set when a relayed address ends, as an opening
/// and an end do too, takes up to log2 of the capacity steps. [`Relays::iter`] alone walks over all slots.
///
/// ```
/// use stun_endpoints::Endpoint;
/// use turn_relays::Relays;
/// use turn_slots::{RelayKey, UserId};
///
/// let mut relays = Relays::<16, 8>::new(alloc, 100, [1, 2])?;
/// let key = RelayKey { family: 1, ..RelayKey::default() };
/// let user = UserId::from([1; 32]);
/// let address = Endpoint { port: 49_152, ..Endpoint::default() };
/// let minute: u64 = 60_000_000_000;
/// let number = relays.open(key, user, 7, address, 10 * minute as u128);
/// assert!(rt; number.is_some());
/// assert_eq!(rt; (relays.clock(), relays.len()), (0, 1));
/// assert_eq!(rt; relays.count_by_user(user), 1);
/// assert_eq!(rt; relays.count_by_user(UserId::default()), 0);
/// assert_eq!(rt; relays.find_by_key(&RelayKey { family: 2, ..key }), None);
///
/// let slot = relays.find_by_key(&key).unwrap_or(0);
/// relays.set_end(slot, 15 * minute as u128);
/// relays.advance(15 * minute - 1);
/// assert_eq!(rt; relays.end_due(), None);
/// relays.advance(15 * minute);
/// assert_eq!(rt; relays.end_due(), number);
/// assert_eq!(rt; relays.len(), 0);
/// ```
#[derive(Drop)]
pub struct Relays<const P: usize, const C: usize> {
    pub(crate) clock: u128,
    /// Above the numbers of all relayed addresses that were opened.
    next: u64,
    pub(crate) slots: Slots,
    /// What is kept of the relayed address in each slot besides its entry.
    pub(crate) kept: Vec<Option<Kept<P, C>>>,
}

impl<const P: usize, const C: usize> Model for Relays<P, C> {
    ghost use Rattle.std.specs.Prelude.{◌<◌, ◌≤◌, ◌^◌};
    ghost use Rattle.turn_relays.specs.Relayed.{Table, relays_in};
    ghost use Rattle.turn_relays.specs.Tables.{IsTable};

    ghost Value = { Table };

    ghost view = { λ t. record {
      clock = t.clock;
      next = t.next;
      openings = t.slots.round;
      secret = t.slots.secret;
      slots = relays_in t.slots.entries t.kept.items;
    } };

    ghost invariant = { λ t. record {
      table : IsTable t.next t.slots t.kept.items;
      early : t.clock < 2 ^ 64;
      permissions : P ≤ 65_535;
      channels : C ≤ 65_535;
    } };
}

/// Each half of a user's number has 128 bits. The function does nothing: its contract is the law.
fn are_halves(user: UserId)
    ensures { user.low < 2 ^ 128 }
{}

/// Returns the number of the entry in a slot.
fn number_in(entries: &[Option<Entry>], slot: usize) -> u64
    requires { slice_index_or entries.now slot None ≢ None }
    ensures { MatchOption (slice_index_or entries.now slot None) ⊥ (λ e. result ≡ e.number) }
{
    match entries.get(slot) {
        Some(Some(entry)) => entry.number,
        _ => unreachable!(),
    }
}

/// Makes a list with `None` for each slot.
fn nothing_kept<const P: usize, const C: usize>(
    alloc: Global,
    capacity: u32,
) -> Result<Vec<Option<Kept<P, C>>>, AllocError>
    requires permissions { P ≤ 65_535 }
    requires channels { C ≤ 65_535 }
    ensures { IfOk result (λ kept. kept.items ≡ replicate capacity None) }
{
    let mut kept = Vec::with_capacity(alloc, capacity as usize)?;
    for _ in 0..capacity {
        kept.push(None)?;
    }
    Ok(kept)
}

impl<const P: usize, const C: usize> Relays<P, C> {
    /// Makes a table with no relayed address and the clock at 0. `capacity` is the most relayed addresses
    /// at a time, and `seed` keys the hashes of clients and users: pass random numbers.
    ///
    /// It takes all memory that the table ever needs: for each slot 616 bytes, and 48 for each of `P`
    /// permissions and 80 for each of `C` channels, whether they are used or not.
    ///
    /// # Requires
    ///
    /// `capacity` is below 2^24, and `P` and `C` are at most 65,535.
    ///
    /// # Errors
    ///
    /// Only if an allocation of memory failed.
    pub fn new(alloc: Global, capacity: u32, seed: [u64; 2]) -> Result<Self, AllocError>
        requires capacity { capacity < 2 ^ 24 }
        requires permissions { P ≤ 65_535 }
        requires channels { C ≤ 65_535 }
        ensures { IfOk result (λ table. table ≡ record {
          clock = 0;
          next = 0;
          openings = 0;
          secret = secret_of seed;
          slots = replicate capacity None;
        }) }
    {
        let slots = Slots::new(alloc, capacity, seed)?;
        let kept = nothing_kept(alloc, capacity)?;
        Ok(Relays {
            clock: 0,
            next: 0,
            slots,
            kept,
        })
    }

    /// Returns the clock: the latest moment passed to [`Relays::advance`], or 0.
    pub fn clock(&self) -> u128
        ensures clock { result ≡ self.now.clock }
        ensures early { result < 2 ^ 64 }
    {
        self.clock
    }

    /// Returns a lower bound of the number of the next relayed address: it is above the numbers of all opened
    /// so far.
    ///
    /// It is at most 2^24 times the number of openings so far, and less by at most 2^24. So numbers last for
    /// 2^40 openings.
    pub fn next_number(&self) -> u64
        ensures next { result ≡ self.now.next }
        ensures last { NumbersLast self.now }
    {
        self.next
    }

    /// Advances the clock to `now`, or leaves it if `now` is before it: a clock that steps back counts as
    /// stopped. Ends nothing.
    pub fn advance(&mut self, now: u64)
        ensures { self.new ≡ record self.old { clock = max self.old.clock now } }
    {
        self.clock = self.clock.max(now as u128);
    }

    /// Returns the number of slots, which is the most relayed addresses at a time: each slot is below it.
    ///
    /// ```
    /// use turn_relays::Relays;
    ///
    /// let relays = Relays::<16, 8>::new(alloc, 100, [1, 2])?;
    /// assert_eq!(rt; (relays.capacity(), relays.len()), (100, 0));
    /// ```
    pub fn capacity(&self) -> usize
        ensures { result ≡ length self.now.slots }
    {
        self.slots.capacity()
    }

    /// Returns the number of relayed addresses.
    pub fn len(&self) -> usize
        ensures { result ≡ length (state_of self.now).relays }
    {
        self.slots.len()
    }

    /// Returns the number of the user's relayed addresses: a dual allocation counts as two.
    pub fn count_by_user(&self, user: UserId) -> usize
        ensures { result ≡ count_by (is_users (user_number user)) (state_of self.now).relays }
    {
        are_halves(user);
        self.slots.count_by_user(user)
    }

    /// Returns the slot of the client's relayed address of a family, or `None` if the client has none.
    pub fn find_by_key(&self, key: &RelayKey) -> Option<usize>
        ensures some { IfSome result (λ slot. (r : Relay) × Holds self.now slot r
            × (is_for key.now.tuple key.now.family r ≡ true)) }
        ensures none { IfNone result (Each self.now (λ r. is_for key.now.tuple key.now.family r ≡ false)) }
        ensures only { (slot : ℕ) (r : Relay) → Holds self.now slot r
            → is_for key.now.tuple key.now.family r ≡ true → result ≡ Some slot }
    {
        self.slots.find_by_key(key)
    }

    /// Returns the slots of the client's relayed addresses for IPv4 and IPv6, each as
    /// [`Relays::find_by_key`] returns it, with one hash for both.
    ///
    /// ```
    /// use stun_endpoints::Endpoint;
    /// use turn_relays::Relays;
    /// use turn_slots::{RelayKey, UserId};
    ///
    /// let mut relays = Relays::<16, 8>::new(alloc, 2, [1, 2])?;
    /// let ipv6 = RelayKey { family: 2, ..RelayKey::default() };
    /// assert!(rt; relays.open(ipv6, UserId::default(), 7, Endpoint::default(), 600).is_some());
    /// let slot = relays.find_by_key(&ipv6);
    /// assert!(rt; slot.is_some());
    /// assert_eq!(rt; relays.find_by_client(&ipv6.tuple), (None, slot));
    /// ```
    pub fn find_by_client(&self, tuple: &FiveTuple) -> (Option<usize>, Option<usize>)
        ensures ipv4 { IsSlotFor self.now tuple.now 1 result.0 }
        ensures ipv6 { IsSlotFor self.now tuple.now 2 result.1 }
    {
        self.slots.find_by_client(tuple)
    }

    /// Returns the slot of the relayed address with a number, or `None` if no relayed address has it.
    ///
    /// ```
    /// use stun_endpoints::Endpoint;
    /// use turn_relays::Relays;
    /// use turn_slots::{RelayKey, UserId};
    ///
    /// let mut relays = Relays::<16, 8>::new(alloc, 1, [1, 2])?;
    /// let (key, user, address) = (RelayKey::default(), UserId::default(), Endpoint::default());
    /// let first = relays.open(key, user, 7, address, 600).unwrap_or(0);
    /// assert_eq!(rt; relays.find_by_number(first), Some(0));
    /// assert_eq!(rt; relays.end(0), Some(first));
    /// let second = relays.open(key, user, 8, address, 600).unwrap_or(0);
    /// assert!(rt; first < second);
    /// assert_eq!(rt; relays.find_by_number(first), None);
    /// assert_eq!(rt; relays.end(0), Some(second));
    /// ```
    pub fn find_by_number(&self, number: u64) -> Option<usize>
        ensures some { IfSome result (λ slot. (r : Relay) × Holds self.now slot r
            × (is_at number r ≡ true)) }
        ensures none { IfNone result (Each self.now (λ r. is_at number r ≡ false)) }
        ensures only { (slot : ℕ) (r : Relay) → Holds self.now slot r
            → is_at number r ≡ true → result ≡ Some slot }
    {
        self.slots.find_by_number(number)
    }

    /// Returns the slot of one of the user's relayed addresses, or `None` if the user has none. Which one is
    /// unspecified.
    pub fn find_by_user(&self, user: UserId) -> Option<usize>
        ensures some { IfSome result (λ slot. (r : Relay) × Holds self.now slot r
            × (is_users (user_number user) r ≡ true)) }
        ensures none { IfNone result (Each self.now (λ r. is_users (user_number user) r ≡ false)) }
    {
        are_halves(user);
        self.slots.find_by_user(user)
    }

    /// Opens a relayed address with no permissions and no channels, and returns its number, which is above
    /// the numbers of all opened before.
    ///
    /// `transaction_id` is the transaction ID of the request, `address` the relayed transport address, and
    /// `expires_at` when it ends.
    ///
    /// Returns `None`, and changes nothing, if no slot is free, or if 2^40 relayed addresses have been
    /// opened: then no number is left, and no other is ever opened.
    ///
    /// # Requires
    ///
    /// No relayed address has the key, so that [`Relays::find_by_key`] returns `None`, and `expires_at` is below
    /// `u128::MAX`.
    pub fn open(
        &mut self,
        key: RelayKey,
        user: UserId,
        transaction_id: u128,
        address: Endpoint,
        expires_at: u128,
    ) -> Option<u64>
        requires key { Each self.old (λ r. is_for key.tuple key.family r ≡ false) }
        requires expires_at { expires_at < never }
        ensures some { IfSome result (λ number. (slot : ℕ) × Opens slot
            (opened key (user_number user) transaction_id address expires_at number) self.old self.new) }
        ensures none { IfNone result (IsClosed self.old × (self.new ≡ self.old)) }
    {
        are_halves(user);
        let slot = self.slots.open(key, user, expires_at)?;
        let number = number_in(self.slots.entries(), slot);
        self.kept[slot] = Some(Kept::new(transaction_id, address));
        self.next = number + 1;
        Some(number)
    }

    /// Returns the earliest end of all relayed addresses, in nanoseconds of the caller's clock, or `None` if
    /// there are none.
    ///
    /// If it is not after the clock, [`Relays::end_due`] ends a relayed address.
    ///
    /// ```
    /// use stun_endpoints::Endpoint;
    /// use turn_relays::Relays;
    /// use turn_slots::{RelayKey, UserId};
    ///
    /// let mut relays = Relays::<16, 8>::new(alloc, 2, [1, 2])?;
    /// assert_eq!(rt; relays.next_due(), None);
    /// let (key, user, address) = (RelayKey::default(), UserId::default(), Endpoint::default());
    /// assert!(rt; relays.open(key, user, 7, address, 600).is_some());
    /// assert_eq!(rt; relays.next_due(), Some(600));
    /// let other = RelayKey { family: 1, ..key };
    /// assert!(rt; relays.open(other, user, 7, address, 500).is_some());
    /// assert_eq!(rt; relays.next_due(), Some(500));
    /// relays.advance(500);
    /// assert!(rt; relays.end_due().is_some());
    /// assert_eq!(rt; relays.next_due(), Some(600));
    /// ```
    pub fn next_due(&self) -> Option<u128>
        ensures some { IfSome result (λ due. IsFirstEnd due self.now) }
        ensures none { IfNone result (Each self.now (λ r. ⊥)) }
    {
        self.slots.next_deadline()
    }

    /// Ends a relayed address that has expired, and returns its number. Call it until it returns `None` to
    /// end them all.
    ///
    /// Returns `None`, and changes nothing, if none has expired.
    pub fn end_due(&mut self) -> Option<u64>
        ensures some { IfSome result (λ number. (slot : ℕ) × (r : Relay) × Holds self.old slot r
            × (r.number ≡ number) × (r.expires_at ≤ self.old.clock)
            × (self.new ≡ with_slot slot None self.old)) }
        ensures none { IfNone result (Each self.old (λ r. self.old.clock < r.expires_at)
            × (self.new ≡ self.old)) }
    {
        let (slot, entry) = self.slots.end_due(self.clock)?;
        self.kept[slot] = None;
        Some(entry.number)
    }

    /// Gives the relayed address in a slot another end, before the old one or after it.
    ///
    /// Changes nothing if the slot is free or not below the capacity.
    ///
    /// # Requires
    ///
    /// `expires_at` is below `u128::MAX`.
    ///
    /// ```
    /// use stun_endpoints::Endpoint;
    /// use turn_relays::Relays;
    /// use turn_slots::{RelayKey, UserId};
    ///
    /// let mut relays = Relays::<16, 8>::new(alloc, 1, [1, 2])?;
    /// let (key, user, address) = (RelayKey::default(), UserId::default(), Endpoint::default());
    /// let number = relays.open(key, user, 7, address, 600);
    /// relays.advance(500);
    /// assert_eq!(rt; relays.end_due(), None);
    /// relays.set_end(0, 400);
    /// assert_eq!(rt; relays.end_due(), number);
    /// ```
    pub fn set_end(&mut self, slot: usize, expires_at: u128)
        requires { expires_at < never }
        ensures { MatchOption (at_slot self.old slot) (self.new ≡ self.old)
            (λ r. self.new ≡ with_slot slot (Some (record r { expires_at = expires_at })) self.old) }
    {
        self.slots.set_deadline(slot, expires_at);
    }

    /// Ends the relayed address in a slot, with its permissions and channels, and returns its number. The
    /// slot is free at once.
    ///
    /// Returns `None`, and changes nothing, if the slot is free or not below the capacity.
    pub fn end(&mut self, slot: usize) -> Option<u64>
        ensures { MatchOption (at_slot self.old slot)
            ((result ≡ None) × (self.new ≡ self.old))
            (λ r. (result ≡ Some r.number) × (self.new ≡ with_slot slot None self.old)) }
    {
        let entry = self.slots.end(slot)?;
        self.kept[slot] = None;
        Some(entry.number)
    }
}
