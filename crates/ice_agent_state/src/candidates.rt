//! Candidates of both sides.

ghost use Rattle.std.specs.Prelude.{◌≡◌, ◌≤◌, map, filter};
ghost use Rattle.std.specs.List.{list_any};
ghost use Rattle.std.specs.Vec.{vec_capacity};
ghost use Rattle.ice_machine.specs.declared.pairs.Pair.{Pair};
ghost use Rattle.ice_machine.specs.Events.{gathers, learns};
ghost use Rattle.ice_machine.specs.Agents.{is_at};
ghost use Rattle.ice_machine.specs.Pairs as machine;
ghost use Rattle.ice_machine.specs.Steps.{has_room, is_base};
ghost use Rattle.ice_machine.specs.Steps as steps;
ghost use Rattle.ice_agent_state.specs.Agents.{after, added};

use crate::agent::AgentState;
use crate::compact::CompactRemote;
use crate::lists::put_first;
use crate::polling;
use ice_machine::{Base, Pair, PairState, Remote};
use stun_endpoints::{Endpoint, Ip};

/// Why a candidate isn't added.
#[derive(Clone, Copy, Debug, PartialEq, Eq)]
pub enum AddError {
    /// There is no room for it.
    Full,
    /// The agent has it.
    InUse,
}

/// Whether an IPv6 address is one of fe80::/10.
fn is_link_local(ip: Ip) -> bool
    ensures { result ≡ machine.is_link_local ip }
{
    ip.family == 2 && ip.number >> 118 == 0x3FA
}

/// Whether a base and a candidate of the peer are paired (RFC 8445, section 6.1.2.2).
fn fits(base: Base, remote: Remote) -> bool
    ensures { result ≡ machine.fits base remote }
{
    let is_local = is_link_local(remote.address.ip);
    base.component == remote.component
        && base.family == remote.address.ip.family
        && (if base.link_local { is_local } else { !is_local })
}

/// The pair of a base and a candidate of the peer.
pub(crate) fn new_pair(base: Base, remote: Remote) -> Pair
    ensures { result ≡ machine.pair_of base remote }
{
    Pair {
        base: base.number,
        remote: remote.address,
        component: base.component,
        priority: base.priority,
        remote_priority: remote.priority,
        foundation: base.foundation,
        remote_foundation: remote.foundation,
        reflexive_priority: base.reflexive_priority,
        state: PairState::Frozen,
        triggered: false,
        heard: false,
        chosen: false,
        nominated: false,
        expires_at: 0,
        succeeded_at: 0,
        due: 0,
        tries: 0,
    }
}

/// Whether there is a pair of a base and a remote address, with a place to look at first.
fn has_pair(pairs: &[Pair], first: usize, base: u32, remote: Endpoint) -> bool
    ensures { result ≡ list_any (is_at base remote) pairs.now }
{
    if first < pairs.len() && polling::is_at(&pairs[first], base, remote) {
        return true;
    }
    pairs.iter().any(|p| base == p.base && remote == p.remote)
}

/// Inserts a pair, unless there is no room, or one of its base and remote address, of which `first` is a guess at the
/// place.
pub(crate) fn add_pair(most: u32, pair: Pair, first: usize, pairs: &mut Vec<Pair>)
    requires room { most ≤ vec_capacity pairs.old }
    ensures items { pairs.new.items ≡ machine.with_pair most pair pairs.old.items }
    ensures capacity { vec_capacity pairs.new ≡ vec_capacity pairs.old }
{
    if has_pair(pairs, first, pair.base, pair.remote) || pairs.len() >= most as usize {
        return;
    }
    put_first(pairs, pair);
}

/// Inserts the pairs of a base with the peer's candidates, those of the last first.
fn pair_base(most: u32, base: Base, remotes: &[CompactRemote], pairs: &mut Vec<Pair>)
    requires room { most ≤ vec_capacity pairs.old }
    ensures items { pairs.new.items ≡ machine.with_pairs most
        (map {B = Pair} (machine.pair_of base) (filter (machine.fits base) remotes.now))
        pairs.old.items }
    ensures capacity { vec_capacity pairs.new ≡ vec_capacity pairs.old }
{
    let mut at = remotes.len();
    while at > 0 {
        at -= 1;
        let remote = remotes[at].get();
        if fits(base, remote) {
            add_pair(most, new_pair(base, remote), 0, pairs);
        }
    }
}

/// Inserts the pairs of a candidate of the peer with the bases, those of the last first.
fn pair_remote(most: u32, remote: Remote, bases: &[Base], pairs: &mut Vec<Pair>)
    requires room { most ≤ vec_capacity pairs.old }
    ensures items { pairs.new.items ≡ machine.with_pairs most
        (map {B = Pair} (λ b. machine.pair_of b remote)
        (filter (λ b. machine.fits b remote) bases.now)) pairs.old.items }
    ensures capacity { vec_capacity pairs.new ≡ vec_capacity pairs.old }
{
    let mut at = bases.len();
    while at > 0 {
        at -= 1;
        let base = bases[at];
        if fits(base, remote) {
            add_pair(most, new_pair(base, remote), 0, pairs);
        }
    }
}

fn has_base(bases: &[Base], number: u32) -> bool
    ensures { result ≡ list_any (is_base number) bases.now }
{
    bases.iter().any(|b| b.number == number)
}

fn is_remote(component: u16, address: Endpoint, remote: Remote) -> bool
    ensures { result ≡ steps.is_remote component address remote }
{
    remote.component == component && address == remote.address
}

fn has_remote(remotes: &[CompactRemote], component: u16, address: Endpoint) -> bool
    ensures { result ≡ list_any (steps.is_remote component address) remotes.now }
{
    remotes
        .iter()
        .any(|r| is_remote(component, address, r.get()))
}

impl AgentState {
    /// Adds a base of this agent, and pairs it with the peer's candidates of its component and address
    /// family, link-local ones of IPv6 only with each other (RFC 8445, section 6.1.2.2). If there are
    /// `most_pairs` pairs, no further one is made.
    ///
    /// # Errors
    ///
    /// - [`AddError::Full`] if there are `most_candidates` bases;
    /// - [`AddError::InUse`] if there is a base of this number.
    pub fn add_base(&mut self, now: u64, base: Base) -> Result<(), AddError>
        ensures state { self.new ≡ after now 0 (gathers base) self.old }
        ensures result { result ≡ added (has_room self.old.setup self.old.state.bases)
            (list_any (is_base base.number) self.old.state.bases) }
    {
        self.advance(now);
        if self.bases.len() >= self.settings.most_candidates as usize {
            return Err(AddError::Full);
        }
        if has_base(&self.bases, base.number) {
            return Err(AddError::InUse);
        }
        put_first(&mut self.bases, base);
        pair_base(
            self.settings.most_pairs,
            base,
            &self.remotes,
            &mut self.pairs,
        );
        Ok(())
    }

    /// Adds a candidate of the peer, and pairs it with the bases of its component and address family, as
    /// [`AgentState::add_base`] does.
    ///
    /// # Errors
    ///
    /// - [`AddError::Full`] if there are `most_candidates` candidates of the peer;
    /// - [`AddError::InUse`] if there is one with this address and component.
    pub fn add_remote(&mut self, now: u64, remote: Remote) -> Result<(), AddError>
        ensures state { self.new ≡ after now 0 (learns remote) self.old }
        ensures result { result ≡ added (has_room self.old.setup self.old.state.remotes)
            (list_any (steps.is_remote remote.component remote.address) self.old.state.remotes) }
    {
        self.advance(now);
        if self.remotes.len() >= self.settings.most_candidates as usize {
            return Err(AddError::Full);
        }
        if has_remote(&self.remotes, remote.component, remote.address) {
            return Err(AddError::InUse);
        }
        put_first(&mut self.remotes, CompactRemote::new(remote));
        pair_remote(
            self.settings.most_pairs,
            remote,
            &self.bases,
            &mut self.pairs,
        );
        Ok(())
    }
}
