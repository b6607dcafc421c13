//! What has changed of a TURN client, and what to try after its end.

ghost use Rattle.std.specs.Prelude.{◌≡◌, Some, length, take};
ghost use Rattle.stun_types_c.specs.AllocationChanges.{FollowsAttempt, HoldsAll, HoldsAttempt, HoldsServer, IsChange, ReportsChange, ReportsIn, attempt_after, attempt_named, code_shown, end_code, end_named, end_number, following, standing_number, unchanged};
ghost use Rattle.stun_types_c.specs.AllocationHandles.{held_client};

use crate::address::Address;
use crate::allocation_core::AllocationCore;
use crate::allocation_handle::CAllocation;
use crate::allocation_settings::endpoint_in;
use crate::handle::{put, take};
use crate::turn_addresses::{NOWHERE, address_of};
use crate::turn_ending::shown_due;
use std::alloc::Global;
use stun_endpoints::Endpoint;
use turn_client::{Attempt, Change, End, Report, Standing, rest_after};

/// What has changed of a client.
#[repr(C)]
#[derive(Clone, Copy, Drop)]
pub struct CAllocationChange {
    /// When the allocation, or the permission of the peer's IP address, expires.
    pub until: u64,
    /// When the peer's channel expires.
    pub channel_until: u64,
    /// Which of the fields it is about.
    pub kind: u32,
    /// Why the client ended.
    pub why: u32,
    /// The relayed address.
    pub relayed: Address,
    /// The client's address, as the server sees it.
    pub mapped: Address,
    /// The peer.
    pub peer: Address,
    /// The alternate server.
    pub server: Address,
    /// The peer's channel number.
    pub channel: u16,
    /// The error code.
    pub code: u16,
    /// 1: a channel of the peer is wanted.
    pub wants: u16,
    /// 1: a response to the last request for the peer had a wrong integrity.
    pub violated: u16,
    /// For how many seconds the server is left alone.
    pub rest: u32,
    /// 0.
    pub reserved: u32,
}

/// A client at a server, and those before it.
#[repr(C)]
#[derive(Clone, Copy, Drop)]
pub struct CAttempt {
    /// The server.
    pub server: Address,
    /// The servers that were asked before, the newest first.
    pub before: [Address; 3],
    /// How many clients this server has already had.
    pub tries: u16,
    /// How many servers were asked before.
    pub servers: u16,
}

/// Nothing has changed.
const UNCHANGED: CAllocationChange = CAllocationChange {
    until: 0,
    channel_until: 0,
    kind: 0,
    why: 0,
    relayed: NOWHERE,
    mapped: NOWHERE,
    peer: NOWHERE,
    server: NOWHERE,
    channel: 0,
    code: 0,
    wants: 0,
    violated: 0,
    rest: 0,
    reserved: 0,
};

/// The number of what the server grants for a peer.
fn standing_number(standing: Standing) -> u32
    ensures { result ≡ standing_number standing }
{
    match standing {
        Standing::Asked => 3,
        Standing::Permitted => 4,
        Standing::Bound => 5,
        Standing::Over => 6,
    }
}

/// The error code of a peer that is over.
fn code_of(report: &Report) -> u16
    ensures { result ≡ code_shown report.now.standing report.now.code }
{
    match report.standing {
        Standing::Over => report.code,
        Standing::Asked | Standing::Permitted | Standing::Bound => 0,
    }
}

/// The number of a reason.
fn end_number(why: End) -> u32
    ensures { result ≡ end_number why }
{
    match why {
        End::Closed => 1,
        End::Silent => 2,
        End::Rejected(_) => 3,
        End::Moved(_) => 4,
        End::Useless => 5,
        End::IntegrityViolated => 6,
    }
}

/// The error code of a reason.
fn end_code(why: End) -> u16
    ensures { result ≡ end_code why }
{
    match why {
        End::Rejected(code) => code,
        End::Moved(_) => 300,
        End::Closed | End::Silent | End::Useless | End::IntegrityViolated => 0,
    }
}

/// The alternate server of a reason.
fn server_in_c(why: End) -> Address
    ensures { HoldsServer why result }
{
    match why {
        End::Moved(server) => address_of(server),
        End::Closed | End::Silent | End::Rejected(_) | End::Useless | End::IntegrityViolated => {
            NOWHERE
        }
    }
}

/// There is an allocation.
fn allocated(relayed: Endpoint, mapped: Endpoint, until: u128) -> CAllocationChange
    ensures { IsChange (Change.Allocated relayed mapped until) result }
{
    CAllocationChange {
        until: shown_due(until),
        kind: 1,
        relayed: address_of(relayed),
        mapped: address_of(mapped),
        ..UNCHANGED
    }
}

/// The allocation lasts longer.
fn refreshed(until: u128) -> CAllocationChange
    ensures { IsChange (Change.Refreshed until) result }
{
    CAllocationChange {
        until: shown_due(until),
        kind: 2,
        ..UNCHANGED
    }
}

/// Something else holds of a peer.
fn peer_changed(report: Report) -> CAllocationChange
    ensures { IsChange (Change.Peer report) result }
{
    CAllocationChange {
        until: shown_due(report.until),
        channel_until: shown_due(report.channel_until),
        kind: standing_number(report.standing),
        peer: address_of(report.address),
        channel: report.number,
        code: code_of(&report),
        wants: u16::from(report.wants),
        violated: u16::from(report.violated),
        ..UNCHANGED
    }
}

/// The allocation is being deleted.
fn closing() -> CAllocationChange
    ensures { IsChange Change.Closing result }
{
    CAllocationChange {
        kind: 7,
        ..UNCHANGED
    }
}

/// The client has ended.
fn ended(why: End) -> CAllocationChange
    ensures { IsChange (Change.Ended why) result }
{
    CAllocationChange {
        kind: 8,
        why: end_number(why),
        server: server_in_c(why),
        code: end_code(why),
        rest: rest_after(why),
        ..UNCHANGED
    }
}

/// A change, in C's form.
fn change_in_c(change: Change) -> CAllocationChange
    ensures { IsChange change result }
{
    match change {
        Change::Allocated {
            relayed,
            mapped,
            until,
        } => allocated(relayed, mapped, until),
        Change::Refreshed { until } => refreshed(until),
        Change::Peer(report) => peer_changed(report),
        Change::Closing => closing(),
        Change::Ended(why) => ended(why),
    }
}

/// The first change that isn't reported yet, if there is one.
fn next_of(core: &mut AllocationCore, change: &mut CAllocationChange) -> bool
    ensures { change.old ≡ unchanged
        → ReportsIn core.old result (record { core = Some core.new; change = change.new }) }
{
    match core.client.next_change(&mut core.changes) {
        Some(next) => {
            *change = change_in_c(next);
            true
        }
        None => false,
    }
}

/// What has changed of a client since the last call; false if nothing has.
#[unsafe(no_mangle)]
pub extern "C" fn stun_types_allocation_changes(
    alloc: Global,
    client: &mut CAllocation,
    change: &mut CAllocationChange,
) -> bool
    ensures { ReportsChange result
        (record { core = held_client client.old; change = unchanged })
        (record { core = held_client client.new; change = change.new }) }
{
    *change = UNCHANGED;
    let Some(mut core) = take(client, alloc) else {
        return false;
    };
    let result = next_of(&mut core, change);
    put(client, core);
    result
}

/// The end that a change reports, if it is one after which something is tried.
fn end_of(change: &CAllocationChange) -> Option<End>
    ensures { result ≡ end_named change.now }
{
    if change.kind != 8 {
        return None;
    }
    match change.why {
        3 => Some(End::Rejected(change.code)),
        4 => Some(End::Moved(endpoint_in(&change.server)?)),
        _ => None,
    }
}

/// The attempt at a server after those that the first addresses name.
fn after_those(server: Endpoint, tries: u8, count: u16, before: &[Address; 3]) -> Option<Attempt>
    ensures { result ≡ attempt_after server tries count before.now }
{
    let [first, second, third] = before;
    match count {
        0 => Attempt::resume(server, tries, &[]),
        1 => Attempt::resume(server, tries, &[endpoint_in(first)?]),
        2 => Attempt::resume(server, tries, &[endpoint_in(first)?, endpoint_in(second)?]),
        3 => Attempt::resume(
            server,
            tries,
            &[
                endpoint_in(first)?,
                endpoint_in(second)?,
                endpoint_in(third)?,
            ],
        ),
        _ => None,
    }
}

/// The attempt that C names.
fn attempt_of(named: &CAttempt) -> Option<Attempt>
    ensures { result ≡ attempt_named named.now }
{
    let server = endpoint_in(&named.server)?;
    if named.tries > 2 {
        return None;
    }
    after_those(server, named.tries as u8, named.servers, &named.before)
}

/// The servers before, in C's form.
fn before_in_c(servers: &[Endpoint]) -> [Address; 3]
    ensures { HoldsAll servers.now result }
{
    match servers {
        [] => [NOWHERE; 3],
        [first] => [address_of(*first), NOWHERE, NOWHERE],
        [first, second] => [address_of(*first), address_of(*second), NOWHERE],
        [first, second, third, ..] => [address_of(*first), address_of(*second), address_of(*third)],
    }
}

/// How many servers there are, of three at most.
fn count_of(servers: &[Endpoint]) -> u16
    ensures { result ≡ length (take 3 servers.now) }
{
    match servers {
        [] => 0,
        [_] => 1,
        [_, _] => 2,
        [_, _, _, ..] => 3,
    }
}

/// An attempt, in C's form.
fn attempt_in_c(attempt: &Attempt) -> CAttempt
    ensures { HoldsAttempt attempt.now result }
{
    let servers = attempt.before();
    CAttempt {
        server: address_of(attempt.server()),
        before: before_in_c(servers),
        tries: u16::from(attempt.tries()),
        servers: count_of(servers),
    }
}

/// The attempt that follows a client that has ended.
fn next_attempt(named: &CAttempt, ended: &CAllocationChange) -> Option<Attempt>
    ensures { result ≡ following named.now ended.now }
{
    let why = end_of(ended)?;
    let attempt = attempt_of(named)?;
    attempt.next(why)
}

/// The attempt that follows a client that has ended; false if there is none.
#[unsafe(no_mangle)]
pub extern "C" fn stun_types_allocation_attempt_next(
    attempt: &mut CAttempt,
    ended: &CAllocationChange,
) -> bool
    ensures { FollowsAttempt ended.now result attempt.old attempt.new }
{
    match next_attempt(attempt, ended) {
        Some(next) => {
            *attempt = attempt_in_c(&next);
            true
        }
        None => false,
    }
}
