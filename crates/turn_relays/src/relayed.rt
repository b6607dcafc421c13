//! Relayed addresses without their permissions and channels.

ghost use Rattle.std.specs.Prelude.{◌≡◌, ℕ, ◌==◌, None, option_map, slice_index_or};
ghost use Rattle.turn_slots.specs.Users.{is_user, user_number};
ghost use Rattle.turn_relays.specs.Relayed.{at_slot};
ghost use Rattle.turn_relays.specs.Shown.{user_of_number, relayed_of};

use crate::granting::kept_at;
use crate::relays::Relays;
use stun_endpoints::Endpoint;
use turn_slots::{Entry, RelayKey, UserId};

/// A relayed address without its permissions and channels: a copy, which [`Relays::get`] returns.
#[derive(Clone, Copy, Debug, PartialEq, Eq)]
pub struct Relayed {
    /// The 5-tuple of the client, and the family of the relayed address.
    pub key: RelayKey,
    /// The user whose request opened it.
    pub user: UserId,
    /// The transaction ID of the request that opened it.
    pub transaction_id: u128,
    /// The number of its socket, above the numbers of all relayed addresses opened before.
    pub number: u64,
    /// The relayed transport address.
    pub address: Endpoint,
    /// When it expires, in nanoseconds of the caller's clock.
    pub expires_at: u128,
}

/// Users and their numbers correspond one to one: two users are the same if and only if their numbers are
/// equal. The call does nothing: its contract is the law.
pub fn users_are_numbers(user: UserId)
    ensures user { user_of_number (user_number user) ≡ user }
    ensures number { (number : ℕ) → user_number (user_of_number number) ≡ number }
    ensures same { (number : ℕ) → is_user (user_of_number number) user ≡ (number == user_number user) }
{}

/// The entry in a slot.
pub(crate) fn entry_at(entries: &[Option<Entry>], slot: usize) -> Option<Entry>
    ensures { result ≡ slice_index_or entries.now slot None }
{
    match entries.get(slot) {
        Some(Some(entry)) => Some(*entry),
        _ => None,
    }
}

impl<const P: usize, const C: usize> Relays<P, C> {
    /// Returns the relayed address in a slot, without its permissions and channels, or `None` if the slot is
    /// free or not below the capacity.
    ///
    /// ```
    /// use stun_endpoints::Endpoint;
    /// use turn_relays::{Relayed, Relays};
    /// use turn_slots::{RelayKey, UserId};
    ///
    /// let mut relays = Relays::<16, 8>::new(alloc, 2, [1, 2])?;
    /// let key = RelayKey { family: 1, ..RelayKey::default() };
    /// let user = UserId::from([1; 32]);
    /// let address = Endpoint { port: 49_152, ..Endpoint::default() };
    /// let number = relays.open(key, user, 7, address, 600).unwrap_or(0);
    /// let slot = relays.find_by_key(&key).unwrap_or(0);
    /// let relayed = Relayed { key, user, transaction_id: 7, number, address, expires_at: 600 };
    /// assert_eq!(rt; relays.get(slot), Some(relayed));
    /// assert_eq!(rt; relays.get(1 - slot), None);
    /// assert_eq!(rt; relays.get(2), None);
    /// ```
    pub fn get(&self, slot: usize) -> Option<Relayed>
        ensures { result ≡ option_map relayed_of (at_slot self.now slot) }
    {
        let entry = entry_at(self.slots.entries(), slot)?;
        let kept = kept_at(&self.kept, slot)?;
        users_are_numbers(entry.user);
        Some(Relayed {
            key: entry.key,
            user: entry.user,
            transaction_id: kept.transaction_id,
            number: entry.number,
            address: kept.address,
            expires_at: entry.deadline,
        })
    }
}
