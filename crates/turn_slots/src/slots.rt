//! The slots of a TURN server's relayed addresses.

ghost use Rattle.std.specs.Prelude.{◌≡◌, ◌+◌, ◌-◌, ◌<◌, ◌^◌, ◌==◌, length, None, IfOk, count_by, replicate};
ghost use Rattle.turn_slots.specs.Hashes.{secret_of};
ghost use Rattle.turn_slots.specs.Iterating.{taken_from, taken_left};
ghost use Rattle.turn_slots.specs.Slots.{is_live};

use crate::deadlines::Deadlines;
use crate::groups::Groups;
use crate::iter::Iter;
use crate::keys::Keys;
use crate::relay_key::RelayKey;
use crate::users::UserId;
use std::alloc::{AllocError, Global};
use std::marker::Model;

/// A number modulo this is its slot.
pub(crate) const PLACES: u64 = 16_777_216;

/// A relayed address in its slot.
#[derive(Clone, Copy, Debug, PartialEq, Eq)]
pub struct Entry {
    /// The client, and the family of the relayed address.
    pub key: RelayKey,
    /// The user who opened it.
    pub user: UserId,
    /// The relay number: the slot in its low 24 bits, and above them how many relayed addresses were opened
    /// before this one. So each number is above those of all openings before
    /// ([`numbers_grow`](crate::numbers_grow)), and no number is used again.
    pub number: u64,
    /// When it ends, in the units of the caller's clock.
    pub deadline: u128,
}

/// The relayed addresses of a TURN server's clients, each in a slot of its own (RFC 8656, section 6).
///
/// An allocation has one relayed address, or two: one for IPv4 and one for IPv6. Each of them has a slot,
/// found by its [`RelayKey`], and ends by itself.
///
/// A slot is an index below the capacity, and stays the same until its relayed address ends: a caller can
/// keep more of a relayed address in a `Vec` of its own, by slot.
///
/// [`Slots::new`] takes all memory; no other call allocates. The cost of a call doesn't depend on how many
/// relayed addresses there are. A look-up by key or user hashes it, and walks over one bucket of a hash
/// table, which without the seed nobody can fill at will. To set a deadline, as an opening and an end do
/// too, takes up to log2 of the capacity steps. [`Slots::iter`] alone walks over all slots.
///
/// ```
/// use turn_slots::{RelayKey, Slots, UserId};
///
/// let mut slots = Slots::new(alloc, 100, [1, 2])?;
/// let key = RelayKey { family: 1, ..RelayKey::default() };
/// let user = UserId::from([1; 32]);
/// assert!(rt; slots.find_by_key(&key).is_none());
///
/// let slot = slots.open(key, user, 600).unwrap_or(0);
/// let number = slots.entries()[slot].map_or(0, |entry| entry.number);
/// assert_eq!(rt; slots.find_by_key(&key), Some(slot));
/// assert_eq!(rt; slots.find_by_number(number), Some(slot));
/// assert_eq!(rt; slots.count_by_user(user), 1);
///
/// assert!(rt; slots.end_due(599).is_none());
/// assert!(rt; slots.end_due(600).is_some());
/// assert!(rt; slots.is_empty());
/// ```
#[derive(Drop)]
pub struct Slots {
    /// How many relayed addresses were opened.
    pub(crate) round: u64,
    pub(crate) entries: Vec<Option<Entry>>,
    /// The key of each slot.
    pub(crate) keys: Keys<RelayKey>,
    /// The users with relayed addresses.
    pub(crate) users: Keys<UserId>,
    /// The slots of each user's place, and after them the free slots.
    pub(crate) holders: Groups,
    pub(crate) deadlines: Deadlines,
}

impl Model for Slots {
    ghost use Rattle.std.specs.Prelude.{◌≡◌};
    ghost use Rattle.turn_slots.specs.Slots.{State};
    ghost use Rattle.turn_slots.specs.Tables.{IsTable};

    ghost Value = { State };

    ghost view = { λ t. record {
      entries = t.entries.items;
      round = t.round;
      secret = t.keys.0;
    } };

    ghost invariant = { λ t. record {
      table : IsTable t.round t.entries.items t.keys.1 t.users.1 t.holders t.deadlines;
      secret : t.users.0 ≡ t.keys.0;
    } };
}

impl Slots {
    /// Makes slots that are all free. `seed` keys the hashes of clients and users: pass random numbers.
    ///
    /// It takes all memory that the slots ever need, 504 bytes for each.
    ///
    /// # Requires
    ///
    /// `capacity` is below 2^24.
    ///
    /// # Errors
    ///
    /// Only if an allocation failed.
    pub fn new(alloc: Global, capacity: u32, seed: [u64; 2]) -> Result<Self, AllocError>
        requires { capacity < 2 ^ 24 }
        ensures { IfOk result (λ slots. slots
            ≡ record { entries = replicate capacity None; round = 0; secret = secret_of seed }) }
    {
        let places = capacity as usize;
        let mut entries = Vec::new(alloc);
        entries.resize(places, None)?;
        Ok(Slots {
            round: 0,
            entries,
            keys: Keys::new(alloc, places, seed)?,
            users: Keys::new(alloc, places, seed)?,
            holders: Groups::new(alloc, places + 1, places)?,
            deadlines: Deadlines::new(alloc, places)?,
        })
    }

    /// Returns the number of slots.
    pub fn capacity(&self) -> usize
        ensures { result ≡ length self.now.entries }
    {
        self.entries.len()
    }

    /// Returns the number of relayed addresses.
    pub fn len(&self) -> usize
        ensures { result ≡ count_by is_live self.now.entries }
    {
        let places = self.entries.len();
        places - self.holders.count(places)
    }

    /// Whether there are no relayed addresses.
    pub fn is_empty(&self) -> bool
        ensures { result ≡ (count_by is_live self.now.entries == 0) }
    {
        self.len() == 0
    }

    /// Borrows the relayed address of each slot, `None` for a free one.
    pub fn entries(&self) -> &[Option<Entry>]
        ensures { result.now ≡ self.now.entries }
    {
        &self.entries
    }

    /// Iterates over the relayed addresses with their slots, in the order of the slots. A whole walk takes a
    /// step for each slot, however few are taken.
    pub fn iter(&self) -> Iter<'_>
        ensures { taken_left result ≡ taken_from 0 self.now.entries }
    {
        Iter {
            entries: &self.entries,
            slot: 0,
        }
    }
}
