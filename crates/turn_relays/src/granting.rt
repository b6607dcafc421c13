//! What a relayed address grants, by its slot.

ghost use Rattle.std.specs.Prelude.{◌≡◌, ◌&&◌, ◌+◌, ◌<◌, ◌≤◌, ◌^◌, [], ◌∷◌, None, Some, false, find, length, nat_lt, option_copied, option_map, slice_index_or};
ghost use Rattle.std.specs.List.{list_any};
ghost use Rattle.std.specs.Option.{option_map_or};
ghost use Rattle.turn_machine.specs.Relays.{seconds, is_permitted, is_channel, is_channel_of};
ghost use Rattle.turn_machine.specs.Rows.{permissions_after, with_channel, clashes};
ghost use Rattle.turn_machine.specs.Steps.{permitting, binding};
ghost use Rattle.turn_relays.specs.Relayed.{at_slot, changed_slot, permitted, bound};

use crate::kept::Kept;
use crate::relays::Relays;
use stun_endpoints::{Endpoint, Ip};
use turn_slots::Entry;

/// What is kept beside a slot.
pub(crate) fn kept_at<const P: usize, const C: usize>(
    kept: &[Option<Kept<P, C>>],
    slot: usize,
) -> Option<&Kept<P, C>>
    ensures { option_copied result ≡ slice_index_or kept.now slot None }
{
    match kept.get(slot) {
        Some(Some(kept)) => Some(kept),
        _ => None,
    }
}

/// The family of the relayed address in a slot, or 0 if the slot is free.
fn family_at(entries: &[Option<Entry>], slot: usize) -> u8
    ensures { result ≡ option_map_or (λ e. e.key.family) (slice_index_or entries.now slot None) 0 }
{
    match entries.get(slot) {
        Some(Some(entry)) => entry.key.family,
        _ => 0,
    }
}

/// Inserts permissions in what is kept beside a slot.
fn permit_in<const P: usize, const C: usize>(
    kept: &mut Option<Kept<P, C>>,
    now: u128,
    family: u8,
    peers: &[Endpoint],
)
    requires time { now + seconds 300 < 2 ^ 128 }
    requires room { option_map_or (λ g. length (permitted now family peers.now g).permissions)
        kept.old 0 ≤ P }
    ensures { kept.new ≡ option_map (permitted now family peers.now) kept.old }
{
    match kept {
        Some(kept) => kept.permit(now, family, peers),
        None => {}
    }
}

/// Inserts a permission and binds a channel in what is kept beside a slot.
fn bind_in<const P: usize, const C: usize>(
    kept: &mut Option<Kept<P, C>>,
    now: u128,
    number: u16,
    peer: Endpoint,
    permission_seconds: u32,
)
    requires time { now < 2 ^ 64 }
    requires permissions { option_map_or
        (λ g. length (bound permission_seconds now number peer g).permissions) kept.old 0 ≤ P }
    requires channels { option_map_or
        (λ g. length (bound permission_seconds now number peer g).channels) kept.old 0 ≤ C }
    ensures { kept.new ≡ option_map (bound permission_seconds now number peer) kept.old }
{
    match kept {
        Some(kept) => kept.bind(now, number, peer, permission_seconds),
        None => {}
    }
}

impl<const P: usize, const C: usize> Relays<P, C> {
    /// Whether the relayed address in a slot has a permission for an IP address that hasn't expired (RFC
    /// 8656, section 9). `false` if the slot is free or not below the capacity.
    pub fn is_permitted(&self, slot: usize, ip: Ip) -> bool
        ensures { result ≡ option_map_or (is_permitted self.now.clock ip) (at_slot self.now slot) false }
    {
        match kept_at(&self.kept, slot) {
            Some(kept) => kept.is_permitted(self.clock, ip),
            None => false,
        }
    }

    /// Returns the peer that a channel of the relayed address in a slot is bound to (RFC 8656, section
    /// 12.6).
    ///
    /// Returns `None` if the number is not bound, or its binding has expired, or the slot is free or not
    /// below the capacity.
    pub fn peer_on(&self, slot: usize, number: u16) -> Option<Endpoint>
        ensures { result ≡ option_map_or
            (λ r. option_map (λ c. c.peer) (find (is_channel self.now.clock number) r.channels))
            (at_slot self.now slot) None }
    {
        kept_at(&self.kept, slot)?.peer_on(self.clock, number)
    }

    /// Returns the number of the channel of the relayed address in a slot that is bound to a peer, by its
    /// IP address and port (RFC 8656, section 12.7).
    ///
    /// Returns `None` if no channel is bound to the peer, or the binding has expired, or the slot is free or
    /// not below the capacity.
    pub fn channel_to(&self, slot: usize, peer: Endpoint) -> Option<u16>
        ensures { result ≡ option_map_or
            (λ r. option_map (λ c. c.number) (find (is_channel_of self.now.clock peer) r.channels))
            (at_slot self.now slot) None }
    {
        kept_at(&self.kept, slot)?.channel_to(self.clock, peer)
    }

    /// Whether, in the relayed address in a slot, the channel number is bound to another peer, or the peer
    /// to another number (RFC 8656, section 12.2). `false` if the slot is free or not below the capacity.
    pub fn clashes(&self, slot: usize, number: u16, peer: Endpoint) -> bool
        ensures { result ≡ option_map_or
            (λ r. list_any (clashes self.now.clock number peer) r.channels)
            (at_slot self.now slot) false }
    {
        match kept_at(&self.kept, slot) {
            Some(kept) => kept.clashes(self.clock, number, peer),
            None => false,
        }
    }

    /// Whether the relayed address in a slot has no room for a channel: `C` others are bound that haven't
    /// expired. `false` if the slot is free or not below the capacity.
    pub fn lacks_channel(&self, slot: usize, number: u16, peer: Endpoint) -> bool
        ensures { result ≡ option_map_or
            (λ r. nat_lt C (length (with_channel self.now.clock number peer r.channels)))
            (at_slot self.now slot) false }
    {
        match kept_at(&self.kept, slot) {
            Some(kept) => kept.lacks_channel(self.clock, number, peer),
            None => false,
        }
    }

    /// Whether the relayed address in a slot has no room for permissions for all peers of its family: more
    /// than `P`, with those that it has and that haven't expired. `false` if the slot is free or not below
    /// the capacity.
    pub fn lacks_permissions(&self, slot: usize, peers: &[Endpoint]) -> bool
        ensures { result ≡ option_map_or
            (λ r. nat_lt P (length (permissions_after self.now.clock peers.now r)))
            (at_slot self.now slot) false }
    {
        let family = family_at(self.slots.entries(), slot);
        match kept_at(&self.kept, slot) {
            Some(kept) => kept.lacks_permissions(self.clock, family, peers),
            None => false,
        }
    }

    /// Inserts permissions of 300 seconds for the peers of the family of the relayed address in a slot (RFC
    /// 8656, section 9). With the first, those that have expired are removed. Changes nothing if the slot is
    /// free or not below the capacity.
    ///
    /// # Requires
    ///
    /// There is room for all: [`Relays::lacks_permissions`] returns `false`.
    pub fn permit(&mut self, slot: usize, peers: &[Endpoint])
        requires { option_map_or (λ r. length (permissions_after self.old.clock peers.now r))
            (at_slot self.old slot) 0 ≤ P }
        ensures { self.new ≡ changed_slot slot (permitting self.old.clock peers.now) self.old }
    {
        let family = family_at(self.slots.entries(), slot);
        if slot < self.kept.len() {
            permit_in(&mut self.kept[slot], self.clock, family, peers);
        }
    }

    /// Binds a channel number to a peer for 600 seconds in the relayed address in a slot, and inserts a
    /// permission for the peer's IP address, as a ChannelBind request does (RFC 8656, sections 9 and 12.2).
    ///
    /// The permission lasts `permission_seconds`, 300 by section 9, and replaces one for the same IP address,
    /// even if that expires later. The channel replaces one with the same number. Permissions and channels
    /// that have expired are removed.
    ///
    /// The call checks neither the range of the number, nor whether the number or the peer is bound
    /// otherwise, which [`Relays::clashes`] returns.
    ///
    /// Changes nothing if the relayed address is of another family than the peer, or the slot is free or not
    /// below the capacity.
    ///
    /// # Requires
    ///
    /// There is room for both: [`Relays::lacks_permissions`] for this peer alone and
    /// [`Relays::lacks_channel`] return `false`.
    ///
    /// ```
    /// use stun_endpoints::{Endpoint, Ip};
    /// use turn_relays::Relays;
    /// use turn_slots::{RelayKey, UserId};
    ///
    /// let mut relays = Relays::<16, 8>::new(alloc, 1, [1, 2])?;
    /// let key = RelayKey { family: 1, ..RelayKey::default() };
    /// let (user, address) = (UserId::default(), Endpoint::default());
    /// let hour = 3_600_000_000_000;
    /// assert!(rt; relays.open(key, user, 7, address, hour).is_some());
    /// let peer = Endpoint { ip: Ip { family: 1, ..Ip::default() }, port: 9 };
    /// relays.bind(0, 0x4000, peer, 300);
    /// relays.advance(300_000_000_000 - 1);
    /// assert!(rt; relays.is_permitted(0, peer.ip));
    /// relays.advance(300_000_000_000);
    /// assert!(rt; !relays.is_permitted(0, peer.ip));
    /// assert_eq!(rt; relays.peer_on(0, 0x4000), Some(peer));
    /// let other = Endpoint { ip: Ip { family: 2, ..peer.ip }, port: 9 };
    /// relays.bind(0, 0x4001, other, 300);
    /// assert_eq!(rt; relays.peer_on(0, 0x4001), None);
    /// relays.bind(0, 0x4000, peer, 600);
    /// relays.advance(900_000_000_000 - 1);
    /// assert!(rt; relays.is_permitted(0, peer.ip));
    /// assert_eq!(rt; relays.channel_to(0, peer), Some(0x4000));
    /// relays.advance(900_000_000_000);
    /// assert!(rt; !relays.is_permitted(0, peer.ip));
    /// assert_eq!(rt; relays.channel_to(0, peer), None);
    /// ```
    pub fn bind(&mut self, slot: usize, number: u16, peer: Endpoint, permission_seconds: u32)
        requires permissions { option_map_or
            (λ r. length (permissions_after self.old.clock (peer ∷ []) r)) (at_slot self.old slot) 0 ≤ P }
        requires channels { option_map_or
            (λ r. length (with_channel self.old.clock number peer r.channels)) (at_slot self.old slot) 0 ≤ C }
        ensures { self.new
            ≡ changed_slot slot (binding permission_seconds self.old.clock number peer) self.old }
    {
        let family = family_at(self.slots.entries(), slot);
        if peer.ip.family != family {
            return;
        }
        if slot < self.kept.len() {
            bind_in(
                &mut self.kept[slot],
                self.clock,
                number,
                peer,
                permission_seconds,
            );
        }
    }
}
