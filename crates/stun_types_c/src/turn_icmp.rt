//! What a TURN server does for an ICMP packet.

ghost use Rattle.std.specs.Prelude.{◌≡◌, Some};
ghost use Rattle.turn_server.specs.Icmp.{Notifies as NotifiesBy};
ghost use Rattle.stun_types_c.specs.TurnClients.{IsSameServer};
ghost use Rattle.stun_types_c.specs.TurnHandles.{held_turn};
ghost use Rattle.stun_types_c.specs.TurnIcmp.{icmp_named, untold, nowhere_told, IsNotice, Notifies, NotifiesIn, TakesIcmp};
ghost use Rattle.stun_types_c.specs.TurnServers.{rules_in, setup_in};

use crate::address::{Address, endpoint_of};
use crate::call_result::{CResult, counted, plain};
use crate::codes;
use crate::handle::{put, take};
use crate::reading::Id;
use crate::turn_addresses::{CFiveTuple, NOWHERE, tuple_in_c};
use crate::turn_core::TurnCore;
use crate::turn_handle::CTurn;
use std::alloc::Global;
use stun_endpoints::Endpoint;
use stun_types::message::TransactionId;
use turn_attrs::IcmpError;
use turn_server::IcmpDelivery;

/// An ICMP packet about a datagram that a relayed address sent.
#[repr(C)]
#[derive(Clone, Copy, Drop)]
pub struct CIcmp {
    /// The MTU of the next hop, if the datagram was too large for it.
    pub data: u32,
    /// The type of the packet.
    pub icmp_type: u8,
    /// Its code.
    pub code: u8,
}

/// What C does with an ICMP packet.
#[repr(C)]
#[derive(Clone, Copy, Drop)]
pub struct CNotice {
    /// The client, the address that it sends to, and the transport.
    pub to: CFiveTuple,
    /// 1: the message goes there; 0: the packet is dropped.
    pub sends: u16,
    /// How many bytes the message has.
    pub length: usize,
    /// How many relayed addresses the call ended.
    pub ended: usize,
}

/// It is dropped.
fn untold(ended: usize) -> CNotice
    ensures { result ≡ untold ended }
{
    CNotice {
        to: CFiveTuple {
            client: NOWHERE,
            server: NOWHERE,
            stream: 0,
        },
        sends: 0,
        length: 0,
        ended,
    }
}

/// How many bytes a message has at most.
const MESSAGE: usize = 56;

/// What the packet says.
fn error_of(error: &CIcmp) -> IcmpError
    ensures { result ≡ icmp_named error.now }
{
    IcmpError {
        icmp_type: error.icmp_type,
        code: error.code,
        data: error.data,
    }
}

/// What C does for a message, or a packet that is dropped.
fn in_c(delivery: Option<IcmpDelivery>, ended: usize) -> CNotice
    ensures { IsNotice delivery ended result }
{
    match delivery {
        Some(delivery) => CNotice {
            to: tuple_in_c(&delivery.to),
            sends: 1,
            length: delivery.length,
            ended,
        },
        None => untold(ended),
    }
}

/// Takes a packet: what `TurnServer` does for it.
fn take_packet(
    core: &mut TurnCore,
    now: u64,
    relay: u64,
    peer: Endpoint,
    error: IcmpError,
    id: TransactionId,
    room: &mut [u8],
) -> Option<IcmpDelivery>
    ensures notifies { NotifiesBy (setup_in core.old) (rules_in core.old) now relay peer error id
        core.old.server core.new.server room.old room.new result }
    ensures same { IsSameServer core.old core.new }
{
    let peers = core.rules.peers();
    core.server
        .on_icmp(now, relay, peer, error, id, &peers, room)
}

/// Takes a packet, and writes the message.
fn notify(
    core: &mut TurnCore,
    now: u64,
    relay: u64,
    peer: Endpoint,
    error: IcmpError,
    id: TransactionId,
    room: &mut [u8],
    notice: &mut CNotice,
)
    ensures { Notifies core.old now relay id peer error core.new
        (record { slice = room.old; notice = notice.old })
        (record { slice = room.new; notice = notice.new }) }
{
    let to = take_packet(core, now, relay, peer, error, id, room);
    *notice = in_c(to, core.server.ended().len());
}

/// The same, if there is room for any message.
fn notify_in(
    core: &mut TurnCore,
    now: u64,
    relay: u64,
    peer: Endpoint,
    error: IcmpError,
    id: TransactionId,
    room: &mut [u8],
    notice: &mut CNotice,
) -> CResult
    ensures { NotifiesIn core.old now relay id peer error result
        (record {
          core = Some core.old;
          told = record { slice = room.old; notice = notice.old };
        })
        (record {
          core = Some core.new;
          told = record { slice = room.new; notice = notice.new };
        }) }
{
    if room.len() < MESSAGE {
        return counted(codes::TOO_SMALL, MESSAGE, room.len());
    }
    notify(core, now, relay, peer, error, id, room, notice);
    plain(codes::OK)
}

/// Takes an ICMP packet.
#[unsafe(no_mangle)]
pub extern "C" fn stun_types_turn_icmp(
    alloc: Global,
    server: &mut CTurn,
    now: u64,
    peer: &Address,
    relay: u64,
    error: &CIcmp,
    id: &Id,
    room: &mut [u8],
    notice: &mut CNotice,
) -> CResult
    ensures { TakesIcmp now peer.now relay error.now id.now result
        (record { core = held_turn server.old; told = record { slice = room.old; notice = nowhere_told } })
        (record { core = held_turn server.new; told = record { slice = room.new; notice = notice.new } }) }
{
    *notice = untold(0);
    let Some(peer) = endpoint_of(peer) else {
        return plain(codes::BAD_ARGUMENT);
    };
    let Some(mut core) = take(server, alloc) else {
        return plain(codes::BAD_ARGUMENT);
    };
    let error = error_of(error);
    let id = TransactionId::from_bytes(&id.bytes);
    let result = notify_in(&mut core, now, relay, peer, error, id, room, notice);
    put(server, core);
    result
}
