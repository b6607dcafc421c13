//! The peers of a client in one array, the newest last.

ghost use Rattle.std.specs.Prelude.{◌≡◌, ◌<◌, ◌≤◌, ◌∷◌, [], ℕ, IfOk, find, length, map, reverse, nat_lt, option_copied, option_map};
ghost use Rattle.std.specs.List.{list_any, position};
ghost use Rattle.turn_client_machine.specs.declared.peers.Peer.{Peer};
ghost use Rattle.turn_client_machine.specs.Clients as machine;
ghost use Rattle.turn_client_machine.specs.Responses as responses;
ghost use Rattle.turn_client_machine.specs.Steps as steps;
ghost use Rattle.turn_client_state.specs.Lookups.{test_of, changed_by, is_open};
ghost use Rattle.turn_client_state.specs.States.{setup_of, way_among};
ghost use Rattle.turn_client_state.specs.Waking as waking;

use crate::changes::{Change, change_each, make_change, new_peer, reopen_each};
use crate::data::Way;
use crate::lookups::{
    Sought, has_channel, is_binding, is_fit, is_permitted, is_single, is_together, passes,
};
use crate::settings::Settings;
use arrayvec::ArrayVec;
use std::alloc::{AllocError, Global};
use std::marker::Model;
use stun_endpoints::{Endpoint, Ip};
use turn_client_machine::Peer;

/// The peers of a client. Contracts see them as a list, the newest first.
#[derive(Drop)]
pub(crate) struct Peers {
    most: usize,
    items: Vec<Peer>,
}

impl Model for Peers {
    ghost use Rattle.std.specs.Prelude.{◌≤◌, reverse};
    ghost use Rattle.std.specs.Vec.{vec_capacity};
    ghost use Rattle.turn_client_machine.specs.Bounds.{AreNumbered};
    ghost use Rattle.turn_client_state.specs.Peers.{PeerList};

    ghost Value = { PeerList };

    ghost view = { λ peers. record { most = peers.most; list = reverse peers.items.items } };

    ghost invariant = { λ peers. record {
      room : peers.most ≤ vec_capacity peers.items;
      few : peers.most ≤ 4096;
      numbered : AreNumbered (reverse peers.items.items);
    } };
}

/// The newest peer that is sought.
fn found<'a>(peers: &'a [Peer], sought: &Sought) -> Option<&'a Peer>
    ensures { option_copied result ≡ find (test_of sought.now) (reverse peers.now) }
{
    peers.iter().rev().find(|peer| passes(sought, peer))
}

/// How many newer peers there are than the newest that is sought.
fn newer_than(peers: &[Peer], sought: &Sought) -> Option<usize>
    ensures { result ≡ position (test_of sought.now) (reverse peers.now) }
{
    peers.iter().rev().position(|peer| passes(sought, peer))
}

/// How many newer peers there are than the newest for which the server permits an IP address.
fn newer_than_permitted(clock: u64, ip: Ip, peers: &[Peer]) -> Option<usize>
    ensures { result ≡ position (machine.is_permitted clock ip) (reverse peers.now) }
{
    peers
        .iter()
        .rev()
        .position(|peer| is_permitted(clock, ip, peer))
}

/// The channel of a peer.
fn channel_to(clock: u64, address: Endpoint, peers: &[Peer]) -> Option<u16>
    ensures { result ≡ option_map (λ (p : Peer). p.number)
        (find (machine.has_channel clock address) (reverse peers.now)) }
{
    let found = peers
        .iter()
        .rev()
        .find(|peer| has_channel(clock, address, peer))?;
    Some(found.number)
}

/// How data is sent to a peer. The server permits the IP address of each peer that has a channel, so
/// one pass is enough.
fn way_to(clock: u64, address: Endpoint, peers: &[Peer]) -> Option<Way>
    ensures { result ≡ way_among clock address (reverse peers.now) }
{
    let newer = match newer_than_permitted(clock, address.ip, peers) {
        Some(newer) => newer,
        None => return None,
    };
    let older = &peers[..peers.len() - newer];
    match channel_to(clock, address, older) {
        Some(number) => Some(Way::Channel(number)),
        None => Some(Way::Indication),
    }
}

/// Whether the server permits an IP address.
fn permits(clock: u64, ip: Ip, peers: &[Peer]) -> bool
    ensures { result ≡ list_any (machine.is_permitted clock ip) (reverse peers.now) }
{
    peers.iter().rev().any(|peer| is_permitted(clock, ip, peer))
}

/// Whether some peer is sought.
fn has(peers: &[Peer], sought: &Sought) -> bool
    ensures { result ≡ list_any (test_of sought.now) (reverse peers.now) }
{
    peers.iter().rev().any(|peer| passes(sought, peer))
}

impl Peers {
    /// Makes an empty list with memory for `most` peers.
    ///
    /// # Errors
    ///
    /// Only if an allocation of memory failed.
    pub(crate) fn new(alloc: Global, most: usize) -> Result<Self, AllocError>
        requires { most ≤ 4096 }
        ensures { IfOk result (λ peers. peers ≡ record { most = most; list = [] }) }
    {
        let items = Vec::with_capacity(alloc, most)?;
        Ok(Peers { most, items })
    }

    /// Borrows the peers, the newest last.
    pub(crate) fn as_slice(&self) -> &[Peer]
        ensures { reverse result.now ≡ self.now.list }
    {
        &self.items
    }

    /// Whether there is room for one more.
    pub(crate) fn has_room(&self) -> bool
        ensures { result ≡ nat_lt (length self.now.list) self.now.most }
    {
        self.items.len() < self.most
    }

    /// Adds a peer, for which there is room. Its channel number is 0x4000 and its place.
    pub(crate) fn push(&mut self, clock: u64, wants: bool, address: Endpoint)
        requires { length self.old.list < self.old.most }
        ensures { self.new ≡ record self.old {
          list = steps.new_peer clock wants address self.old.list ∷ self.old.list;
        } }
    {
        let number = 0x4000 + self.items.len() as u16;
        let peer = new_peer(clock, number, wants, address);
        match self.items.push(peer) {
            Ok(()) => {}
            Err(_) => unreachable!(),
        }
    }

    pub(crate) fn find(&self, sought: &Sought) -> Option<&Peer>
        ensures { option_copied result ≡ find (test_of sought.now) self.now.list }
    {
        found(&self.items, sought)
    }

    pub(crate) fn any(&self, sought: &Sought) -> bool
        ensures { result ≡ list_any (test_of sought.now) self.now.list }
    {
        has(&self.items, sought)
    }

    /// Whether the server permits an IP address at a moment.
    pub(crate) fn permits(&self, clock: u64, ip: Ip) -> bool
        ensures { result ≡ list_any (machine.is_permitted clock ip) self.now.list }
    {
        permits(clock, ip, &self.items)
    }

    /// How data is sent to a peer at a moment.
    pub(crate) fn way(&self, clock: u64, address: Endpoint) -> Option<Way>
        ensures { result ≡ way_among clock address self.now.list }
    {
        way_to(clock, address, &self.items)
    }

    /// Changes the newest peer that is sought.
    pub(crate) fn change(&mut self, sought: &Sought, by: &Change)
        ensures { self.new ≡ record self.old {
          list = responses.changed_first (test_of sought.now) (changed_by by.now) self.old.list;
        } }
    {
        if let Some(newer) = newer_than(&self.items, sought) {
            let place = self.items.len() - 1 - newer;
            self.items[place] = make_change(by, self.items[place]);
        }
    }

    /// Changes each peer that is sought.
    pub(crate) fn change_all(&mut self, sought: &Sought, by: &Change)
        ensures { self.new ≡ record self.old {
          list = responses.changed_each (test_of sought.now) (changed_by by.now) self.old.list;
        } }
    {
        change_each(sought, by, &mut self.items);
    }

    /// Asks for all peers that aren't dropped from the start.
    pub(crate) fn reopen_all(&mut self, clock: u64)
        ensures { self.new ≡ record self.old {
          list = map {B = Peer} (responses.reopened clock) self.old.list;
        } }
    {
        reopen_each(clock, &mut self.items);
    }

    /// Whether a further request for a peer may be sent.
    pub(crate) fn is_free(&self) -> bool
        ensures { result ≡ steps.is_free self.now.list }
    {
        count_single(&self.items) < 8
    }

    /// Whether the request for a peer names others too.
    pub(crate) fn takes_along(&self, settings: &Settings, clock: u64, peer: &Peer) -> bool
        ensures { result ≡ steps.takes_along (setup_of settings.now) clock self.now.list peer.now }
    {
        is_fit(clock, peer)
            && 1 < count_fit(clock, &self.items)
            && 0 < settings.most_sends
            && 1 < settings.most_named.min(16)
            && !has_together(&self.items)
    }

    /// The next peer that is asked for together with others, at this moment.
    fn join(&mut self, clock: u64, turn: &Change) -> Option<Endpoint>
        ensures list { self.new ≡ record self.old {
          list = responses.changed_first (steps.is_fit clock) (changed_by turn.now) self.old.list;
        } }
        ensures address { result ≡ option_map (λ (p : Peer). p.address) (find (steps.is_fit clock) self.old.list) }
    {
        let sought = Sought::Fit(clock);
        let address = match self.find(&sought) {
            Some(peer) => Some(peer.address),
            None => None,
        };
        self.change(&sought, turn);
        address
    }

    /// The first `most` peers that may be asked for together, and their addresses.
    pub(crate) fn join_all(
        &mut self,
        settings: &Settings,
        clock: u64,
        fresh: u128,
        challenge: Option<u64>,
        most: usize,
    ) -> ArrayVec<Endpoint, 15>
        requires { most ≤ 15 }
        ensures list { self.new ≡ record self.old {
          list = steps.joined (setup_of settings.now) clock fresh challenge most self.old.list;
        } }
        ensures others { result.items
            ≡ steps.others_of (setup_of settings.now) clock fresh challenge most self.old.list }
    {
        let turn = Change::Turn(true, *settings, clock, fresh, challenge);
        let mut others = ArrayVec::new();
        for i in 0..most {
            if let Some(address) = self.join(clock, &turn) {
                others.push(address);
            }
        }
        others
    }

    /// Whether ChannelData with the peer's number is its data, at a moment.
    fn is_open(&self, clock: u64, peer: &Peer) -> bool
        ensures { result ≡ is_open clock self.now.list peer.now }
    {
        (clock as u128) < peer.channel_expires_at
            || is_binding(peer) && self.permits(clock, peer.address.ip)
    }

    /// The peer whose data a ChannelData message with this number is, at a moment. Its place is in
    /// the number.
    pub(crate) fn heard(&self, clock: u64, number: u16) -> Option<Endpoint>
        ensures { result ≡ option_map (λ (p : Peer). p.address)
            (find (machine.hears clock number self.now.list) self.now.list) }
    {
        let number = number as usize;
        let end = 0x4000 + self.items.len();
        if number < 0x4000 {
            return None;
        }
        if number >= end {
            return None;
        }
        let peer = &self.items[number - 0x4000];
        if self.is_open(clock, peer) {
            Some(peer.address)
        } else {
            None
        }
    }

    /// When a poll next does something for a peer.
    pub(crate) fn wake(&self) -> Option<u128>
        ensures { result ≡ waking.soonest (steps.is_free self.now.list) self.now.list }
    {
        soonest(self.is_free(), &self.items)
    }
}

/// How many requests for single peers are under way.
fn count_single(peers: &[Peer]) -> usize
    ensures count { result ≡ steps.counted steps.is_single (reverse peers.now) }
    ensures bound { result ≤ length peers.now }
{
    let mut count = 0;
    for i in 0..peers.len() {
        count += is_single(&peers[i]) as usize;
    }
    count
}

/// How many peers may be asked for together.
fn count_fit(clock: u64, peers: &[Peer]) -> usize
    ensures count { result ≡ steps.counted (steps.is_fit clock) (reverse peers.now) }
    ensures bound { result ≤ length peers.now }
{
    let mut count = 0;
    for i in 0..peers.len() {
        count += is_fit(clock, &peers[i]) as usize;
    }
    count
}

/// Whether a request for several peers is under way.
fn has_together(peers: &[Peer]) -> bool
    ensures { result ≡ list_any steps.is_together (reverse peers.now) }
{
    peers.iter().rev().any(|peer| is_together(peer))
}

/// When a poll next does something for a peer.
fn peer_wake(free: bool, peer: &Peer) -> Option<u128>
    ensures { result ≡ waking.peer_wake free peer.now }
{
    if peer.over {
        return None;
    }
    if free || is_single(peer) {
        Some(peer.task.due)
    } else {
        Some(peer.task.due.max(peer.task.deadline))
    }
}

/// The sooner of two moments.
pub(crate) fn sooner(one: Option<u128>, other: Option<u128>) -> Option<u128>
    ensures { result ≡ waking.sooner one other }
{
    match one {
        None => other,
        Some(n) => match other {
            None => Some(n),
            Some(m) => Some(n.min(m)),
        },
    }
}

fn soonest(free: bool, peers: &[Peer]) -> Option<u128>
    ensures { result ≡ waking.soonest free (reverse peers.now) }
{
    let mut wake = None;
    for i in 0..peers.len() {
        wake = sooner(peer_wake(free, &peers[i]), wake);
    }
    wake
}
