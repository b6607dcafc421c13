//! What a TURN server does for a client's datagram.

ghost use Rattle.std.specs.Prelude.{◌≡◌, ◌&&◌, not, false, length, Some, IfOk, IsOk, OnErr};
ghost use Rattle.turn_server.specs.Actions.{Acts};
ghost use Rattle.stun_types_c.specs.KeyHandles.{shared_key};
ghost use Rattle.stun_types_c.specs.TurnClients.{none_opened, of_kind, nothing, IsOpened, IsSent, IsInC, IsSameServer, ActsOn, asks_for_key, Takes, keys_in_c, TakesDatagram};
ghost use Rattle.stun_types_c.specs.TurnHandles.{held_turn};
ghost use Rattle.stun_types_c.specs.TurnServers.{setup_in, rules_in};
ghost use Rattle.stun_types_c.specs.Users.{keys_of};

use crate::address::Address;
use crate::authentication::{OneUser, key_in};
use crate::call_result::{CResult, plain, write_result};
use crate::codes;
use crate::handle::{put, take};
use crate::shared_key::SharedKey;
use crate::turn_addresses::{
    CFiveTuple, CTurnReady, NO_SOCKETS, NOWHERE, address_of, read_sockets, tuple_of,
};
use crate::turn_core::TurnCore;
use crate::turn_handle::CTurn;
use std::alloc::{AllocError, Global};
use stun_endpoints::{Endpoint, FiveTuple};
use turn_server::{Action, Opened, Response, Site, Sockets};

/// A socket that was ready and is a relayed address's from now on, or none.
#[repr(C)]
#[derive(Clone, Copy, Drop)]
pub struct COpened {
    /// The number of the socket.
    pub relay: u64,
    /// The relayed address, that of the ready socket.
    pub relayed: Address,
    /// 1: there is one.
    pub took: u32,
}

/// What C does for a client's datagram.
#[repr(C)]
#[derive(Clone, Copy, Drop)]
pub struct CTurnAction {
    /// The number of the socket that data goes from.
    pub relay: u64,
    /// The offset of the data in the datagram.
    pub at: usize,
    /// How many bytes are sent.
    pub length: usize,
    /// How many relayed addresses the call ended.
    pub ended: usize,
    /// The socket that it opened a relayed IPv4 address with.
    pub ipv4: COpened,
    /// That of IPv6.
    pub ipv6: COpened,
    /// The peer.
    pub peer: Address,
    /// 0: nothing; 1: a response; 2: data to a peer; 3: the user's keys are needed.
    pub kind: u32,
    /// The error code of the response, or 0.
    pub code: u32,
    /// 1: data goes with the DF bit.
    pub dont_fragment: u32,
    /// The token of the socket that the request reserved, or 0.
    pub reserved: u64,
    /// The token of the reserved socket that the request took, or 0.
    pub claimed: u64,
    /// 1: it reserved one.
    pub reserves: u32,
    /// 1: it took one.
    pub claims: u32,
}

/// A client's datagram, as C passes it.
#[repr(C)]
#[derive(Clone, Copy, Drop)]
pub struct CTurnDatagram<'a> {
    /// The datagram.
    pub bytes: &'a [u8],
    /// The client, the address of the server and the transport.
    pub from: CFiveTuple,
    /// The sockets that are ready.
    pub ready: CTurnReady,
    /// Not 0: the keys of its user were looked up.
    pub looked_up: u16,
    /// 0.
    pub reserved: u32,
    /// The RESERVATION-TOKEN of a request that reserves.
    pub token: u64,
}

/// No socket was taken.
const NONE_OPENED: COpened = COpened {
    relay: 0,
    relayed: NOWHERE,
    took: 0,
};

/// What C does if nothing else is due: nothing, or look for a key.
fn of_kind(kind: u32, ended: usize) -> CTurnAction
    ensures { result ≡ of_kind kind ended }
{
    CTurnAction {
        relay: 0,
        at: 0,
        length: 0,
        ended,
        ipv4: NONE_OPENED,
        ipv6: NONE_OPENED,
        peer: NOWHERE,
        kind,
        code: 0,
        dont_fragment: 0,
        reserved: 0,
        claimed: 0,
        reserves: 0,
        claims: 0,
    }
}

/// The socket that was taken, in C's form.
fn opened_in_c(opened: Option<Opened>) -> COpened
    ensures { IsOpened opened result }
{
    match opened {
        Some(Opened { number, relayed }) => COpened {
            relay: number,
            relayed: address_of(relayed),
            took: 1,
        },
        None => NONE_OPENED,
    }
}

/// Writes what C does for a response.
fn respond(response: &Response, ended: usize, out: &mut CTurnAction) -> CResult
    ensures { IsSent response.now ended result out.new }
{
    let (result, kind, length, code) = match response.written {
        Ok(length) => (plain(codes::OK), 1, length, response.code.unwrap_or(0)),
        Err(error) => (write_result(error), 0, 0, 0),
    };
    *out = CTurnAction {
        relay: 0,
        at: 0,
        length,
        ended,
        ipv4: opened_in_c(response.opened.ipv4),
        ipv6: opened_in_c(response.opened.ipv6),
        peer: NOWHERE,
        kind,
        code: u32::from(code),
        dont_fragment: 0,
        reserved: response.reserved.unwrap_or(0),
        claimed: response.claimed.unwrap_or(0),
        reserves: u32::from(response.reserved.is_some()),
        claims: u32::from(response.claimed.is_some()),
    };
    result
}

/// Writes what C does for an action of a call that ended some relayed addresses.
fn put_action(action: &Action, ended: usize, out: &mut CTurnAction) -> CResult
    ensures { IsInC action.now ended result out.new }
{
    match action {
        Action::Dropped => {
            *out = of_kind(0, ended);
            plain(codes::OK)
        }
        Action::Response(response) => respond(response, ended, out),
        Action::ToPeer {
            number,
            peer,
            dont_fragment,
            data,
        } => {
            *out = CTurnAction {
                relay: *number,
                at: data.at,
                length: data.length,
                ended,
                ipv4: NONE_OPENED,
                ipv6: NONE_OPENED,
                peer: address_of(*peer),
                kind: 2,
                code: 0,
                dont_fragment: u32::from(*dont_fragment),
                reserved: 0,
                claimed: 0,
                reserves: 0,
                claims: 0,
            };
            plain(codes::OK)
        }
    }
}

/// Takes a datagram: what `TurnServer` does for it.
fn take_datagram(
    alloc: Global,
    core: &mut TurnCore,
    now: u64,
    tuple: &FiveTuple,
    datagram: &[u8],
    sockets: &Sockets,
    keys: &OneUser<'_>,
    room: &mut [u8],
) -> Result<Action, AllocError>
    ensures acts { IfOk result (Acts core.old.access sockets.now (keys_of keys.now) (setup_in core.old)
        (rules_in core.old) tuple.now now datagram.now core.old.server core.new.server room.old room.new) }
    ensures same { IsSameServer core.old core.new }
    ensures memory { asks_for_key core.old now tuple.now.client datagram.now ≡ false → IsOk result }
    ensures err { OnErr result ((core.new ≡ core.old) × (room.new ≡ room.old)) }
{
    let site = Site {
        access: &core.access,
        sockets: *sockets,
    };
    let peers = core.rules.peers();
    core.server
        .on_client_datagram(alloc, now, tuple, datagram, &site, keys, &peers, room)
}

/// Takes a datagram, and writes the response, if one is due.
fn act(
    alloc: Global,
    core: &mut TurnCore,
    now: u64,
    tuple: &FiveTuple,
    datagram: &[u8],
    sockets: &Sockets,
    keys: &OneUser<'_>,
    room: &mut [u8],
    out: &mut CTurnAction,
) -> CResult
    ensures { ActsOn core.old now tuple.now datagram.now (keys_of keys.now) sockets.now result
        (record { core = Some core.old; slice = room.old; action = out.old })
        (record { core = Some core.new; slice = room.new; action = out.new }) }
{
    let action = match take_datagram(alloc, core, now, tuple, datagram, sockets, keys, room) {
        Ok(action) => action,
        Err(AllocError) => return plain(codes::OUT_OF_MEMORY),
    };
    let ended = core.server.ended().len();
    put_action(&action, ended, out)
}

/// Whether what comes of a datagram depends on a key.
fn asks_for_key(core: &TurnCore, now: u64, client: Endpoint, datagram: &[u8]) -> bool
    ensures { result ≡ asks_for_key core.now now client datagram.now }
{
    core.server.needs_key(now, client, datagram, &core.access)
}

/// Takes a datagram, if no key is needed that wasn't looked up.
fn take_known(
    alloc: Global,
    core: &mut TurnCore,
    now: u64,
    tuple: &FiveTuple,
    datagram: &[u8],
    sockets: &Sockets,
    looked_up: bool,
    keys: &OneUser<'_>,
    room: &mut [u8],
    out: &mut CTurnAction,
) -> CResult
    ensures { Takes (not looked_up && asks_for_key core.old now tuple.now.client datagram.now) core.old
        now tuple.now datagram.now (keys_of keys.now) sockets.now result
        (record { core = Some core.old; slice = room.old; action = out.old })
        (record { core = Some core.new; slice = room.new; action = out.new }) }
{
    if !looked_up && asks_for_key(core, now, tuple.client, datagram) {
        *out = of_kind(3, 0);
        return plain(codes::OK);
    }
    act(alloc, core, now, tuple, datagram, sockets, keys, room, out)
}

/// The keys that C looked up.
fn user_of<'k>(md5_key: &'k SharedKey, sha256_key: &'k SharedKey) -> OneUser<'k>
    ensures { keys_of result
        ≡ keys_in_c (shared_key md5_key.now) (shared_key sha256_key.now) }
{
    OneUser {
        md5: key_in(md5_key),
        sha256: key_in(sha256_key),
    }
}

/// Takes a client's datagram.
#[unsafe(no_mangle)]
pub extern "C" fn stun_types_turn_client(
    alloc: Global,
    server: &mut CTurn,
    now: u64,
    datagram: &CTurnDatagram<'_>,
    md5_key: &SharedKey,
    sha256_key: &SharedKey,
    room: &mut [u8],
    action: &mut CTurnAction,
) -> CResult
    ensures { TakesDatagram now datagram.now (shared_key md5_key.now) (shared_key sha256_key.now) result
        (record { core = held_turn server.old; slice = room.old; action = nothing })
        (record { core = held_turn server.new; slice = room.new; action = action.new }) }
{
    *action = of_kind(0, 0);
    if datagram.reserved != 0 {
        return plain(codes::BAD_ARGUMENT);
    }
    let Some(tuple) = tuple_of(&datagram.from) else {
        return plain(codes::BAD_ARGUMENT);
    };
    let mut sockets = NO_SOCKETS;
    if !read_sockets(&datagram.ready, datagram.token, &mut sockets) {
        return plain(codes::BAD_ARGUMENT);
    }
    let Some(mut core) = take(server, alloc) else {
        return plain(codes::BAD_ARGUMENT);
    };
    let keys = user_of(md5_key, sha256_key);
    let looked_up = datagram.looked_up != 0;
    let bytes = datagram.bytes;
    let result = take_known(
        alloc, &mut core, now, &tuple, bytes, &sockets, looked_up, &keys, room, action,
    );
    put(server, core);
    result
}
