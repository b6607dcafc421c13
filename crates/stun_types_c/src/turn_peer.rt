//! What a TURN server does for a peer's datagram.

ghost use Rattle.std.specs.Prelude.{◌≡◌, Some};
ghost use Rattle.turn_server.specs.Delivering.{Receives as ReceivesBy};
ghost use Rattle.stun_types_c.specs.TurnClients.{IsSameServer};
ghost use Rattle.stun_types_c.specs.TurnHandles.{held_turn};
ghost use Rattle.stun_types_c.specs.TurnPeers.{dropped, nowhere_due, IsDelivery, Receives, ReceivesIn, TakesPeer};
ghost use Rattle.stun_types_c.specs.TurnServers.{rules_in, setup_in};

use crate::address::{Address, endpoint_of};
use crate::call_result::{CResult, counted, plain};
use crate::codes;
use crate::handle::{put, take};
use crate::reading::Id;
use crate::turn_addresses::{CFiveTuple, NOWHERE, tuple_in_c};
use crate::turn_core::TurnCore;
use crate::turn_handle::CTurn;
use std::alloc::Global;
use stun_endpoints::Endpoint;
use stun_types::message::TransactionId;
use turn_server::Delivery;

/// What C does with the data of a peer.
#[repr(C)]
#[derive(Clone, Copy, Drop)]
pub struct CDelivery {
    /// The client, the address that it sends to, and the transport.
    pub to: CFiveTuple,
    /// 1: it goes there; 0: it is dropped.
    pub sends: u16,
    /// How many bytes come before the data.
    pub head_length: u16,
    /// How many zeros follow it.
    pub padding: u16,
    /// How many relayed addresses the call ended.
    pub ended: usize,
}

/// It is dropped.
fn dropped(ended: usize) -> CDelivery
    ensures { result ≡ dropped ended }
{
    CDelivery {
        to: CFiveTuple {
            client: NOWHERE,
            server: NOWHERE,
            stream: 0,
        },
        sends: 0,
        head_length: 0,
        padding: 0,
        ended,
    }
}

/// How many bytes a head has at most.
const HEAD: usize = 48;

/// What C does for a delivery, or a datagram that is dropped.
fn in_c(delivery: Option<Delivery>, ended: usize) -> CDelivery
    ensures { IsDelivery delivery ended result }
{
    match delivery {
        Some(delivery) => CDelivery {
            to: tuple_in_c(&delivery.to),
            sends: 1,
            head_length: delivery.head_length,
            padding: delivery.padding,
            ended,
        },
        None => dropped(ended),
    }
}

/// Takes a peer's datagram: what `TurnServer` does for it.
fn take_datagram(
    core: &mut TurnCore,
    now: u64,
    relay: u64,
    peer: Endpoint,
    data_length: usize,
    id: TransactionId,
    head: &mut [u8],
) -> Option<Delivery>
    ensures receives { ReceivesBy (setup_in core.old) (rules_in core.old) now relay peer data_length id
        core.old.server core.new.server head.old head.new result }
    ensures same { IsSameServer core.old core.new }
{
    let peers = core.rules.peers();
    core.server
        .on_peer_datagram(now, relay, peer, data_length, id, &peers, head)
}

/// Takes a peer's datagram, and writes what comes before its data.
fn receive(
    core: &mut TurnCore,
    now: u64,
    relay: u64,
    peer: Endpoint,
    data_length: usize,
    id: TransactionId,
    head: &mut [u8],
    delivery: &mut CDelivery,
)
    ensures { Receives core.old now relay data_length id peer core.new
        (record { slice = head.old; delivery = delivery.old })
        (record { slice = head.new; delivery = delivery.new }) }
{
    let to = take_datagram(core, now, relay, peer, data_length, id, head);
    *delivery = in_c(to, core.server.ended().len());
}

/// The same, if there is room for any head.
fn receive_in(
    core: &mut TurnCore,
    now: u64,
    relay: u64,
    peer: Endpoint,
    data_length: usize,
    id: TransactionId,
    head: &mut [u8],
    delivery: &mut CDelivery,
) -> CResult
    ensures { ReceivesIn core.old now relay data_length id peer result
        (record {
          core = Some core.old;
          delivered = record { slice = head.old; delivery = delivery.old };
        })
        (record {
          core = Some core.new;
          delivered = record { slice = head.new; delivery = delivery.new };
        }) }
{
    if head.len() < HEAD {
        return counted(codes::TOO_SMALL, HEAD, head.len());
    }
    receive(core, now, relay, peer, data_length, id, head, delivery);
    plain(codes::OK)
}

/// Takes a peer's datagram.
#[unsafe(no_mangle)]
pub extern "C" fn stun_types_turn_peer(
    alloc: Global,
    server: &mut CTurn,
    now: u64,
    peer: &Address,
    relay: u64,
    data_length: usize,
    id: &Id,
    head: &mut [u8],
    delivery: &mut CDelivery,
) -> CResult
    ensures { TakesPeer now peer.now relay data_length id.now result
        (record { core = held_turn server.old; delivered = record { slice = head.old; delivery = nowhere_due } })
        (record { core = held_turn server.new; delivered = record { slice = head.new; delivery = delivery.new } }) }
{
    *delivery = dropped(0);
    let Some(peer) = endpoint_of(peer) else {
        return plain(codes::BAD_ARGUMENT);
    };
    let Some(mut core) = take(server, alloc) else {
        return plain(codes::BAD_ARGUMENT);
    };
    let id = TransactionId::from_bytes(&id.bytes);
    let result = receive_in(&mut core, now, relay, peer, data_length, id, head, delivery);
    put(server, core);
    result
}
