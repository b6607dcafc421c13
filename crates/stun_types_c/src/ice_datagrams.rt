//! What an ICE agent receives, and what it sends.

ghost use Rattle.std.specs.Prelude.{◌≡◌, ℕ, List, Some, MatchOption};
ghost use Rattle.stun_types_c.specs.IceCalls.{HoldsRequest, HoldsRoute, IsPath, IsReceived, IsWritten, PollsAgent, PollsIn, ReceivesInC, RoutesData, RoutesIn, ShowsWake, TakesDatagram, WritesInC, no_path, no_received, no_request, received_in_c};
ghost use Rattle.stun_types_c.specs.IceHandles.{held_agent};

use crate::address::Address;
use crate::allocation_settings::endpoint_in;
use crate::call_result::{CResult, plain, write_result};
use crate::codes;
use crate::handle::{put, take};
use crate::ice_core::IceCore;
use crate::ice_handle::CIce;
use crate::reading::Id;
use crate::turn_addresses::{NOWHERE, address_of};
use ice_agent::{Received, Route, Sending};
use std::alloc::Global;
use stun_endpoints::Endpoint;
use stun_types::message::{StunWriteError, TransactionId};

/// What comes of a datagram.
#[repr(C)]
#[derive(Clone, Copy, Drop)]
pub struct CIceReceived {
    /// The length of the response.
    pub length: usize,
    /// 0 for nothing, 1 for a response, 2 for data of the peer.
    pub kind: u32,
    /// The component of the data.
    pub component: u16,
    /// 0.
    pub reserved: u16,
}

/// A request that is to be sent.
#[repr(C)]
#[derive(Clone, Copy, Drop)]
pub struct CIceRequest {
    /// Its length; 0: there is none.
    pub length: usize,
    /// The address to send it to.
    pub to: Address,
    /// The number of the base that it is sent from.
    pub base: u32,
}

/// The path of data.
#[repr(C)]
#[derive(Clone, Copy, Drop)]
pub struct CIcePath {
    /// The address to send it to.
    pub to: Address,
    /// The number of the base that it is sent from.
    pub base: u32,
}

/// Nothing comes of a datagram.
pub(crate) const NOTHING: CIceReceived = CIceReceived {
    length: 0,
    kind: 0,
    component: 0,
    reserved: 0,
};

/// Nothing is to be sent.
const NO_REQUEST: CIceRequest = CIceRequest {
    length: 0,
    to: NOWHERE,
    base: 0,
};

/// There is no path.
pub(crate) const NO_PATH: CIcePath = CIcePath {
    to: NOWHERE,
    base: 0,
};

/// What comes of a datagram, in C's form.
fn received_in_c(received: Received<'_>) -> CIceReceived
    ensures { result ≡ received_in_c received.entry }
{
    match received {
        Received::Nothing => NOTHING,
        Received::Response(length) => CIceReceived {
            length,
            kind: 1,
            ..NOTHING
        },
        Received::Data(component, _) => CIceReceived {
            kind: 2,
            component,
            ..NOTHING
        },
    }
}

/// What comes of a datagram that an agent has taken.
pub(crate) fn taken_in_c(
    taken: Result<Received<'_>, StunWriteError>,
    received: &mut CIceReceived,
) -> CResult
    ensures { IsReceived taken.entry result received.new }
{
    match taken {
        Ok(taken) => {
            *received = received_in_c(taken);
            plain(codes::OK)
        }
        Err(error) => {
            *received = NOTHING;
            write_result(error)
        }
    }
}

/// Takes a datagram.
fn receive(
    alloc: Global,
    core: &mut IceCore,
    now: u64,
    base: u32,
    from: Endpoint,
    datagram: &[u8],
    random: u64,
    out: &mut [u8],
    received: &mut CIceReceived,
) -> CResult
    ensures { ReceivesInC core.old now random base from datagram.now result out.old out.new received.new core.new }
{
    let taken = core
        .agent
        .on_datagram(alloc, now, base, from, datagram, random, out);
    taken_in_c(taken, received)
}

/// Takes a datagram that has arrived at a base, from an address.
#[unsafe(no_mangle)]
pub extern "C" fn stun_types_ice_datagram(
    alloc: Global,
    agent: &mut CIce,
    now: u64,
    base: u32,
    from: &Address,
    datagram: &[u8],
    random: u64,
    out: &mut [u8],
    received: &mut CIceReceived,
) -> CResult
    ensures { TakesDatagram now random base from.now datagram.now result
        (record { core = held_agent agent.old; slice = out.old; received = no_received })
        (record { core = held_agent agent.new; slice = out.new; received = received.new }) }
{
    *received = NOTHING;
    let Some(from) = endpoint_in(from) else {
        return plain(codes::BAD_ARGUMENT);
    };
    let Some(mut core) = take(agent, alloc) else {
        return plain(codes::BAD_ARGUMENT);
    };
    let result = receive(
        alloc, &mut core, now, base, from, datagram, random, out, received,
    );
    put(agent, core);
    result
}

/// The moment of the next poll that does something; the greatest number if there is none.
fn wake_of(core: &IceCore) -> u64
    ensures { ShowsWake core.now.agent.held result }
{
    core.agent.next_wake().unwrap_or(u64::MAX)
}

/// A request, in C's form.
fn request_in_c(sending: Option<Sending>) -> CIceRequest
    ensures { MatchOption sending (result ≡ no_request) (λ request. HoldsRequest request result) }
{
    match sending {
        Some(sending) => CIceRequest {
            length: sending.length,
            to: address_of(sending.to),
            base: sending.base,
        },
        None => NO_REQUEST,
    }
}

/// A request that is written.
fn written_in_c(
    written: Result<Option<Sending>, StunWriteError>,
    request: &mut CIceRequest,
) -> CResult
    ensures { IsWritten written result request.new }
{
    match written {
        Ok(sending) => {
            *request = request_in_c(sending);
            plain(codes::OK)
        }
        Err(error) => {
            *request = NO_REQUEST;
            write_result(error)
        }
    }
}

/// Writes the request that is to be sent now.
fn poll(
    alloc: Global,
    core: &mut IceCore,
    now: u64,
    id: TransactionId,
    out: &mut [u8],
    request: &mut CIceRequest,
) -> CResult
    ensures { WritesInC core.old core.new now id result out.old out.new request.new }
{
    let written = core.agent.poll(alloc, now, id, out);
    written_in_c(written, request)
}

/// Writes the request that is to be sent now, and finds the moment of the next poll.
fn poll_on(
    alloc: Global,
    core: &mut IceCore,
    now: u64,
    id: TransactionId,
    out: &mut [u8],
    request: &mut CIceRequest,
    wake: &mut u64,
) -> CResult
    ensures { PollsIn core.old now id result
        (record { core = Some core.old; slice = out.old; request = request.old; wake = wake.old })
        (record { core = Some core.new; slice = out.new; request = request.new; wake = wake.new }) }
{
    let result = poll(alloc, core, now, id, out, request);
    *wake = wake_of(core);
    result
}

/// Writes the request that is to be sent now, and reports the moment of the next poll.
#[unsafe(no_mangle)]
pub extern "C" fn stun_types_ice_poll(
    alloc: Global,
    agent: &mut CIce,
    now: u64,
    id: &Id,
    out: &mut [u8],
    request: &mut CIceRequest,
    wake: &mut u64,
) -> CResult
    ensures { PollsAgent now id.now result
        (record { core = held_agent agent.old; slice = out.old; request = no_request; wake = wake.old })
        (record { core = held_agent agent.new; slice = out.new; request = request.new; wake = wake.new }) }
{
    *request = NO_REQUEST;
    let Some(mut core) = take(agent, alloc) else {
        return plain(codes::BAD_ARGUMENT);
    };
    let id = TransactionId::from_bytes(&id.bytes);
    let result = poll_on(alloc, &mut core, now, id, out, request, wake);
    put(agent, core);
    result
}

/// A path, in C's form.
pub(crate) fn path_of(route: Route) -> CIcePath
    ensures { HoldsRoute route result }
{
    CIcePath {
        to: address_of(route.to),
        base: route.base,
    }
}

/// A path of data, if there is one, in C's form.
pub(crate) fn route_in_c(route: Option<Route>, path: &mut CIcePath) -> bool
    ensures { IsPath route result path.new }
{
    match route {
        Some(route) => {
            *path = path_of(route);
            true
        }
        None => {
            *path = NO_PATH;
            false
        }
    }
}

/// The path of data now, if there is one.
fn route(core: &mut IceCore, now: u64, component: u16, path: &mut CIcePath) -> bool
    ensures { RoutesIn core.old now component result path.new core.new }
{
    let found = core.agent.route(now, component);
    route_in_c(found, path)
}

/// The path of a component's data now; false if it must not be sent.
#[unsafe(no_mangle)]
pub extern "C" fn stun_types_ice_route(
    alloc: Global,
    agent: &mut CIce,
    now: u64,
    component: u16,
    path: &mut CIcePath,
) -> bool
    ensures { RoutesData now component result path.new (held_agent agent.old) (held_agent agent.new) }
{
    *path = NO_PATH;
    let Some(mut core) = take(agent, alloc) else {
        return false;
    };
    let result = route(&mut core, now, component, path);
    put(agent, core);
    result
}
