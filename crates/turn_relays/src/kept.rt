//! What is kept of a relayed address besides its entry in the slots.

use crate::binding::{has_room, put as put_channel};
use crate::flows::Flow;
use crate::permitting::{copy_of, put as put_permission, put_all};
use arrayvec::ArrayVec;
use std::marker::Model;
use stun_endpoints::{Endpoint, Ip};
use turn_machine::{Channel, Permission};
use turn_slots::Entry;

/// What is kept of a relayed address besides its entry in the slots. Permissions and channels are inline.
#[derive(Drop)]
pub(crate) struct Kept<const P: usize, const C: usize> {
    /// The transaction ID of the request that opened it.
    pub(crate) transaction_id: u128,
    /// The relayed transport address.
    pub(crate) address: Endpoint,
    /// Who may send to it.
    pub(crate) permissions: ArrayVec<Permission, P>,
    /// The peers with channel numbers.
    pub(crate) channels: ArrayVec<Channel, C>,
}

impl<const P: usize, const C: usize> Model for Kept<P, C> {
    ghost use Rattle.std.specs.Prelude.{◌≤◌};
    ghost use Rattle.turn_relays.specs.Relayed.{Grants};
    ghost use Rattle.turn_relays.specs.Granted.{AreDistinct};

    ghost Value = { Grants };

    ghost view = { λ kept. record {
      transaction_id = kept.transaction_id;
      address = kept.address;
      permissions = kept.permissions.items;
      channels = kept.channels.items;
    } };

    ghost invariant = { λ kept. record {
      distinct : AreDistinct kept.permissions.items;
      permissions : P ≤ 65_535;
      channels : C ≤ 65_535;
    } };
}

impl<const P: usize, const C: usize> Kept<P, C> {
    ghost use Rattle.std.specs.Prelude.{◌≡◌, ◌+◌, ◌<◌, ◌≤◌, ◌^◌, ◌==◌, length, filter, find, nat_lt, option_copied, option_map};
    ghost use Rattle.std.specs.List.{list_any};
    ghost use Rattle.turn_machine.specs.Relays.{seconds, is_permission, is_channel, is_channel_of};
    ghost use Rattle.turn_machine.specs.Rows.{clashes, with_permission_for, with_permissions, with_channel};
    ghost use Rattle.turn_machine.specs.Flows.{flow_on};
    ghost use Rattle.turn_relays.specs.Relayed.{new_grants, bound, relay_of};

    /// Makes one with no permissions and no channels.
    pub(crate) fn new(transaction_id: u128, address: Endpoint) -> Self
        requires permissions { P ≤ 65_535 }
        requires channels { C ≤ 65_535 }
        ensures { result ≡ new_grants transaction_id address }
    {
        Kept {
            transaction_id,
            address,
            permissions: ArrayVec::new(),
            channels: ArrayVec::new(),
        }
    }

    /// Whether there is a permission for an IP address.
    pub(crate) fn is_permitted(&self, now: u128, ip: Ip) -> bool
        ensures { result ≡ list_any (is_permission now ip) self.now.permissions }
    {
        self.permissions
            .iter()
            .any(|p| ip == p.ip && now < p.expires_at)
    }

    fn permission_for(&self, now: u128, ip: Ip) -> Option<&Permission>
        ensures { option_copied result ≡ find (is_permission now ip) self.now.permissions }
    {
        self.permissions
            .iter()
            .find(|p| ip == p.ip && now < p.expires_at)
    }

    fn channel_by_number(&self, now: u128, number: u16) -> Option<&Channel>
        ensures { option_copied result ≡ find (is_channel now number) self.now.channels }
    {
        self.channels
            .iter()
            .find(|c| c.number == number && now < c.expires_at)
    }

    fn channel_by_peer(&self, now: u128, peer: Endpoint) -> Option<&Channel>
        ensures { option_copied result ≡ find (is_channel_of now peer) self.now.channels }
    {
        self.channels
            .iter()
            .find(|c| c.peer == peer && now < c.expires_at)
    }

    /// The peer that a channel is bound to.
    pub(crate) fn peer_on(&self, now: u128, number: u16) -> Option<Endpoint>
        ensures { result ≡ option_map (λ c. c.peer) (find (is_channel now number) self.now.channels) }
    {
        match self.channel_by_number(now, number) {
            Some(channel) => Some(channel.peer),
            None => None,
        }
    }

    /// The flow on a channel of the relayed address with this entry.
    pub(crate) fn flow_on(&self, now: u128, entry: &Entry, channel: u16) -> Option<Flow>
        ensures { result ≡ flow_on now channel (relay_of entry.now self.now) }
    {
        let channel = self.channel_by_number(now, channel)?;
        let permission = self.permission_for(now, channel.peer.ip)?;
        let first = channel.expires_at.min(permission.expires_at);
        Some(Flow {
            number: entry.number,
            peer: channel.peer,
            expires_at: entry.deadline.min(first),
        })
    }

    /// The channel that is bound to a peer.
    pub(crate) fn channel_to(&self, now: u128, peer: Endpoint) -> Option<u16>
        ensures { result ≡ option_map (λ c. c.number) (find (is_channel_of now peer) self.now.channels) }
    {
        match self.channel_by_peer(now, peer) {
            Some(channel) => Some(channel.number),
            None => None,
        }
    }

    /// Whether the number is bound to another peer, or the peer to another number.
    pub(crate) fn clashes(&self, now: u128, number: u16, peer: Endpoint) -> bool
        ensures { result ≡ list_any (clashes now number peer) self.now.channels }
    {
        self.channels.iter().any(|c| {
            now < c.expires_at
                && (c.number == number && !(c.peer == peer)
                    || c.peer == peer && !(c.number == number))
        })
    }

    /// Whether there is no room for permissions for all peers of a family.
    pub(crate) fn lacks_permissions(&self, now: u128, family: u8, peers: &[Endpoint]) -> bool
        requires { now + seconds 300 < 2 ^ 128 }
        ensures { result ≡ nat_lt P (length (with_permissions now
            (filter (λ peer. peer.ip.family == family) peers.now) self.now.permissions)) }
    {
        let mut permissions = copy_of(&self.permissions);
        !put_all(&mut permissions, now, family, peers)
    }

    /// Inserts permissions for the peers of a family.
    pub(crate) fn permit(&mut self, now: u128, family: u8, peers: &[Endpoint])
        requires time { now + seconds 300 < 2 ^ 128 }
        requires room { length (with_permissions now
            (filter (λ peer. peer.ip.family == family) peers.now) self.old.permissions) ≤ P }
        ensures { self.new ≡ record self.old {
          permissions = with_permissions now
              (filter (λ peer. peer.ip.family == family) peers.now) self.old.permissions;
        } }
    {
        let mut permissions = copy_of(&self.permissions);
        put_all(&mut permissions, now, family, peers);
        self.permissions = permissions;
    }

    /// Whether there is no room for one more channel.
    pub(crate) fn lacks_channel(&self, now: u128, number: u16, peer: Endpoint) -> bool
        ensures { result ≡ nat_lt C (length (with_channel now number peer self.now.channels)) }
    {
        !has_room(&self.channels, now, number, peer)
    }

    /// Inserts a permission for the peer's IP address, which lasts so many seconds, and binds a channel to
    /// the peer.
    pub(crate) fn bind(&mut self, now: u128, number: u16, peer: Endpoint, permission_seconds: u32)
        requires time { now + seconds 600 < 2 ^ 128 }
        requires lasting { now + seconds permission_seconds < 2 ^ 128 }
        requires permissions { length
            (with_permission_for permission_seconds now peer.ip self.old.permissions) ≤ P }
        requires channels { length (with_channel now number peer self.old.channels) ≤ C }
        ensures { self.new ≡ bound permission_seconds now number peer self.old }
    {
        put_permission(&mut self.permissions, now, peer.ip, permission_seconds);
        put_channel(&mut self.channels, now, number, peer);
    }
}
