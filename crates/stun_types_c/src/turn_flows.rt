//! The flow on a channel of a client of a TURN server.

ghost use Rattle.std.specs.Prelude.{◌≡◌};
ghost use Rattle.stun_types_c.specs.TurnFlows.{IsFlow, FindsFlow, FindsFlowIn};
ghost use Rattle.stun_types_c.specs.TurnHandles.{held_turn};

use crate::address::{Address, address_of};
use crate::handle::{put, take};
use crate::turn_addresses::{CFiveTuple, NOWHERE, tuple_of};
use crate::turn_core::TurnCore;
use crate::turn_ending::shown_due;
use crate::turn_handle::CTurn;
use std::alloc::Global;
use turn_allocations::Flow;

/// What the data of a channel is relayed by, in both directions.
#[repr(C)]
#[derive(Clone, Copy, Drop)]
pub struct CFlow {
    /// The number of the socket of the relayed address.
    pub relay: u64,
    /// When it expires, in nanoseconds, at most the greatest number.
    pub expires_at: u64,
    /// The peer that the channel is bound to.
    pub peer: Address,
}

/// No flow.
const NO_FLOW: CFlow = CFlow {
    relay: 0,
    expires_at: 0,
    peer: NOWHERE,
};

/// A flow, if there is one, in C's form.
fn flow_in_c(flow: Option<Flow>, held: &mut CFlow) -> bool
    ensures { IsFlow flow result held.new }
{
    match flow {
        Some(flow) => {
            *held = CFlow {
                relay: flow.number,
                expires_at: shown_due(flow.expires_at),
                peer: address_of(flow.peer),
            };
            true
        }
        None => {
            *held = NO_FLOW;
            false
        }
    }
}

/// The flow on a channel of a client, if there is one.
fn find_flow(core: &TurnCore, client: &CFiveTuple, channel: u16, held: &mut CFlow) -> bool
    ensures { FindsFlowIn core.now client.now channel result held.new }
{
    let Some(client) = tuple_of(client) else {
        return flow_in_c(None, held);
    };
    let flow = core.server.flow(&client, channel);
    flow_in_c(flow, held)
}

/// The flow on a channel of a client; false if there is none.
#[unsafe(no_mangle)]
pub extern "C" fn stun_types_turn_flow(
    alloc: Global,
    server: &mut CTurn,
    client: &CFiveTuple,
    channel: u16,
    flow: &mut CFlow,
) -> bool
    ensures { FindsFlow client.now channel result flow.new (held_turn server.old) (held_turn server.new) }
{
    *flow = NO_FLOW;
    let Some(core) = take(server, alloc) else {
        return false;
    };
    let result = find_flow(&core, client, channel, flow);
    put(server, core);
    result
}
