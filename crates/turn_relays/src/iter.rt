//! Iterating over the relayed addresses.

ghost use Rattle.std.specs.Prelude.{◌≡◌, map};
ghost use Rattle.std.specs.List.Sorted.{IsPermutation};
ghost use Rattle.turn_relays.specs.Iterating.{taken, relayed_left};
ghost use Rattle.turn_relays.specs.Relayed.{state_of};
ghost use Rattle.turn_relays.specs.Shown.{relayed_of};

use crate::relayed::Relayed;
use crate::relays::Relays;

/// An iterator over the relayed addresses, in the order of their slots, which [`Relays::iter`] returns.
///
/// After its first `None` it returns `None` forever.
#[derive(Drop)]
pub struct Iter<'a, const P: usize, const C: usize> {
    relays: &'a Relays<P, C>,
    slot: usize,
}

impl<const P: usize, const C: usize> Iterator for Iter<'_, P, C> {
    ghost use Rattle.std.specs.Iterator.{YieldsFirst, item_count};
    ghost use Rattle.turn_relays.specs.Iterating.{relayed_left};

    type Item = Relayed;

    ghost next_gives = { YieldsFirst relayed_left };

    ghost remaining = { item_count relayed_left };

    fn next(&mut self) -> Option<Relayed> {
        'walk: while self.slot < self.relays.capacity() {
            let slot = self.slot;
            self.slot += 1;
            if let Some(relayed) = self.relays.get(slot) {
                return Some(relayed);
            }
        }
        None
    }
}

impl<const P: usize, const C: usize> Relays<P, C> {
    /// Iterates over the relayed addresses, without their permissions and channels, in the order of their
    /// slots. It yields each that [`Relays::len`] counts exactly once, so also those that have expired and
    /// that [`Relays::end_due`] has not ended yet.
    ///
    /// A whole walk takes a step for each slot, however few are taken, and allocates nothing.
    ///
    /// ```
    /// use stun_endpoints::Endpoint;
    /// use turn_relays::Relays;
    /// use turn_slots::{RelayKey, UserId};
    ///
    /// let mut relays = Relays::<16, 8>::new(alloc, 100, [1, 2])?;
    /// let (user, address) = (UserId::default(), Endpoint::default());
    /// for (family, until) in [(1, 600), (2, 700)] {
    ///     let key = RelayKey { family, ..RelayKey::default() };
    ///     assert!(rt; relays.open(key, user, 7, address, until).is_some());
    /// }
    /// relays.advance(650);
    /// assert_eq!(rt; relays.iter().count(), 2);
    /// assert!(rt; relays.iter().any(|relayed| relayed.key.family == 1));
    /// assert!(rt; relays.end_due().is_some());
    /// let left = relays.iter().next().ok_or("no relayed address")?;
    /// assert_eq!(rt; (left.key.family, left.expires_at), (2, 700));
    /// ```
    pub fn iter(&self) -> Iter<'_, P, C>
        ensures slots { relayed_left result ≡ map relayed_of (taken self.now.slots) }
        ensures all { IsPermutation (map relayed_of (state_of self.now).relays) (relayed_left result) }
    {
        Iter {
            relays: self,
            slot: 0,
        }
    }
}
