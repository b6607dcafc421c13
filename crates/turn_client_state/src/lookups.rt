//! Which peer is sought.

ghost use Rattle.std.specs.Prelude.{◌≡◌};
ghost use Rattle.turn_client_machine.specs.Clients as machine;
ghost use Rattle.turn_client_machine.specs.Responses as responses;
ghost use Rattle.turn_client_machine.specs.Steps as steps;
ghost use Rattle.turn_client_state.specs.Lookups.{test_of};

use crate::tasks::{awaits, is_due, is_expired};
use stun_endpoints::{Endpoint, Ip};
use turn_client_machine::{Kind, Peer};

/// Which peer is sought: the newest that passes.
#[derive(Clone, Copy)]
pub(crate) enum Sought {
    /// The one with this transport address.
    At(Endpoint),
    /// The one with this transport address, if it isn't dropped.
    Listed(Endpoint),
    /// One that was dropped, and whose number has rested at a moment.
    Rested(u64),
    /// One whose permission is for this IP address, and isn't given up.
    Covering(Ip),
    /// One whose request under way has this transaction ID.
    Awaiting(u128),
    /// One for which a poll at a moment does something. Whether a further request may be sent comes
    /// first.
    Next(bool, u64),
    /// One that may be asked for together with others at a moment.
    Fit(u64),
}

/// Whether a ChannelBind request for the peer is under way.
pub(crate) fn is_binding(peer: &Peer) -> bool
    ensures { result ≡ machine.is_binding peer.now }
{
    match &peer.task.pending {
        Some(pending) => is_bind(&pending.request.kind),
        None => false,
    }
}

fn is_bind(kind: &Kind) -> bool
    ensures { result ≡ machine.is_bind kind.now }
{
    match kind {
        Kind::Allocate | Kind::Refresh | Kind::Delete | Kind::Permit(_) => false,
        Kind::Bind { .. } => true,
    }
}

/// Whether a request for the peer is under way.
pub(crate) fn is_under_way(peer: &Peer) -> bool
    ensures { result ≡ steps.is_under_way peer.now }
{
    peer.task.pending.is_some()
}

/// Whether a request for this peer and others is under way.
pub(crate) fn is_together(peer: &Peer) -> bool
    ensures { result ≡ steps.is_together peer.now }
{
    is_under_way(peer) && peer.shared
}

/// Whether a request for this peer alone is under way.
pub(crate) fn is_single(peer: &Peer) -> bool
    ensures { result ≡ steps.is_single peer.now }
{
    is_under_way(peer) && !peer.shared
}

/// Whether the peer may be asked for together with others.
pub(crate) fn is_fit(clock: u64, peer: &Peer) -> bool
    ensures { result ≡ steps.is_fit clock peer.now }
{
    !is_under_way(peer)
        && !(peer.wants || peer.shared)
        && !is_expired(clock, &peer.task)
        && !peer.over
        && peer.task.due <= clock as u128 + 30_000_000_000
}

/// Whether another peer may take the place of a dropped one.
fn is_rested(clock: u64, peer: &Peer) -> bool
    ensures { result ≡ machine.is_rested clock peer.now }
{
    match peer.rests_until {
        Some(until) => peer.over && until <= clock as u128,
        None => false,
    }
}

/// Whether two IP addresses are the same. The numbers come first: those of other addresses differ.
#[inline(always)]
fn is_ip(one: Ip, other: Ip) -> bool
    ensures { result ≡ machine.is_ip one other }
{
    one.number == other.number && one.family == other.family
}

/// Whether the server permits an IP address for the peer.
#[inline(always)]
pub(crate) fn is_permitted(clock: u64, ip: Ip, peer: &Peer) -> bool
    ensures { result ≡ machine.is_permitted clock ip peer.now }
{
    is_ip(ip, peer.address.ip) && (clock as u128) < peer.expires_at
}

/// Whether the peer has a channel that lasts 20 seconds more.
#[inline(always)]
pub(crate) fn has_channel(clock: u64, address: Endpoint, peer: &Peer) -> bool
    ensures { result ≡ machine.has_channel clock address peer.now }
{
    is_ip(address.ip, peer.address.ip)
        && address.port == peer.address.port
        && (clock as u128) < peer.expires_at
        && clock as u128 + 20_000_000_000 < peer.channel_expires_at
}

fn is_next(free: bool, clock: u64, peer: &Peer) -> bool
    ensures { result ≡ steps.is_next free clock peer.now }
{
    (free || is_single(peer) || is_expired(clock, &peer.task))
        && !peer.over
        && is_due(clock, &peer.task)
}

/// Whether a peer is the sought one.
pub(crate) fn passes(sought: &Sought, peer: &Peer) -> bool
    ensures { result ≡ test_of sought.now peer.now }
{
    match sought {
        Sought::At(address) => *address == peer.address,
        Sought::Listed(address) => *address == peer.address && !peer.rests_until.is_some(),
        Sought::Rested(clock) => is_rested(*clock, peer),
        Sought::Covering(ip) => !peer.over && *ip == peer.address.ip,
        Sought::Awaiting(id) => awaits(*id, &peer.task),
        Sought::Next(free, clock) => is_next(*free, *clock, peer),
        Sought::Fit(clock) => is_fit(*clock, peer),
    }
}
