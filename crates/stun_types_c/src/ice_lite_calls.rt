//! A lite ICE agent.

ghost use Rattle.std.specs.Prelude.{◌≡◌, ◌⊎◌, All, IfOk, List, MatchResult, None, Some, box_value, map, ℕ};
ghost use Rattle.std.specs.List.{list_any};
ghost use Rattle.ice_agent.specs.Lite.{begun};
ghost use Rattle.stun_types_c.specs.CResults.{plain};
ghost use Rattle.stun_types_c.specs.Codes.{OUT_OF_MEMORY};
ghost use Rattle.stun_types_c.specs.IceCalls.{no_received};
ghost use Rattle.stun_types_c.specs.IceLite.{IsLite, LiteRoutesIn, MakesLite, RoutesLite, TakesInC, TakesLite, base_named, is_free, is_reserved};
ghost use Rattle.stun_types_c.specs.IceLiteHandles.{held_lite};
ghost use Rattle.stun_types_c.specs.IceMaking.{login_answer};
ghost use Rattle.stun_types_c.specs.Versions.{no_key};

use crate::address::Address;
use crate::allocation_settings::endpoint_in;
use crate::call_result::{CResult, plain};
use crate::codes;
use crate::handle::{put, release_all, take};
use crate::ice_datagrams::{CIcePath, CIceReceived, NO_PATH, NOTHING, route_in_c, taken_in_c};
use crate::ice_lite_core::IceLiteCore;
use crate::ice_lite_handle::CIceLite;
use crate::ice_settings::login_of;
use crate::versions::NoKey;
use ice_agent::{AgentCredentials, LiteAgent, LiteBase};
use std::alloc::{AllocError, Global};
use stun_endpoints::Endpoint;

/// A socket of a lite agent.
#[repr(C)]
#[derive(Clone, Copy, Drop)]
pub struct CIceLiteBase {
    /// The caller's number for it.
    pub number: u32,
    /// The component.
    pub component: u16,
    /// 0.
    pub reserved: u16,
}

/// What a lite agent is made by, as C sets it.
#[repr(C)]
#[derive(Clone, Copy, Drop)]
pub struct CIceLiteSettings<'a> {
    /// The text of its username fragment.
    pub ufrag: &'a [u8],
    /// The text of its password.
    pub password: &'a [u8],
    /// Its bases.
    pub bases: &'a [CIceLiteBase],
    /// 0.
    pub reserved: u64,
}

/// A handle that holds no agent, as C declares it: the words of `CIceLite`.
#[unsafe(no_mangle)]
pub extern "C" fn stun_types_ice_lite_none() -> NoKey
    ensures { result ≡ no_key }
{
    NoKey { at: 0, held: 0 }
}

/// Ends the agents that the handles hold. Of a handle that holds none it does nothing.
#[unsafe(no_mangle)]
pub extern "C" fn stun_types_ice_lites_free(alloc: Global, agents: &mut [CIceLite])
    ensures { All (λ agent. held_lite agent ≡ None) agents.new }
{
    release_all(agents, alloc);
}

/// Whether what is reserved isn't 0 in a base.
fn is_any_reserved(bases: &[CIceLiteBase]) -> bool
    ensures { result ≡ list_any is_reserved bases.now }
{
    bases.iter().any(|base| base.reserved != 0)
}

/// Whether what is reserved is 0.
fn is_free(named: &CIceLiteSettings<'_>) -> bool
    ensures { result ≡ is_free named.now }
{
    named.reserved == 0 && !is_any_reserved(named.bases)
}

/// The bases that C names.
fn bases_of(alloc: Global, named: &[CIceLiteBase]) -> Result<Vec<LiteBase>, AllocError>
    ensures { IfOk result (λ bases. bases.items ≡ map base_named named.now) }
{
    named
        .iter()
        .map(|base| LiteBase {
            number: base.number,
            component: base.component,
        })
        .collect(alloc)
}

/// An agent on the heap.
fn core_of(
    alloc: Global,
    own: AgentCredentials,
    named: &[CIceLiteBase],
) -> Result<Box<IceLiteCore>, AllocError>
    ensures { IfOk result (λ boxed. (box_value boxed).agent ≡ begun own (map base_named named.now)) }
{
    let bases = bases_of(alloc, named)?;
    let agent = LiteAgent::new(alloc, own, &bases)?;
    Ok(Box::new(alloc, IceLiteCore { agent })?)
}

/// An agent by what C passes.
fn made_by(alloc: Global, named: &CIceLiteSettings<'_>) -> Result<Box<IceLiteCore>, CResult>
    ensures { MatchResult result
        (λ boxed. (login_answer named.now.ufrag.now named.now.password.now ≡ None)
        × IsLite named.now (box_value boxed))
        (λ answer. (login_answer named.now.ufrag.now named.now.password.now ≡ Some answer)
        ⊎ (answer ≡ plain OUT_OF_MEMORY)) }
{
    let own = login_of(alloc, named.ufrag, named.password)?;
    match core_of(alloc, own, named.bases) {
        Ok(core) => Ok(core),
        Err(AllocError) => Err(plain(codes::OUT_OF_MEMORY)),
    }
}

/// Makes a lite agent.
#[unsafe(no_mangle)]
pub extern "C" fn stun_types_ice_lite_new(
    alloc: Global,
    agent: &mut CIceLite,
    settings: &CIceLiteSettings<'_>,
) -> CResult
    ensures { MakesLite settings.now result (held_lite agent.old) (held_lite agent.new) }
{
    if !is_free(settings) {
        return plain(codes::BAD_ARGUMENT);
    }
    match made_by(alloc, settings) {
        Ok(core) => {
            put(agent, core);
            plain(codes::OK)
        }
        Err(answer) => answer,
    }
}

/// Takes a datagram.
fn receive(
    alloc: Global,
    core: &mut IceLiteCore,
    now: u64,
    base: u32,
    from: Endpoint,
    datagram: &[u8],
    out: &mut [u8],
    received: &mut CIceReceived,
) -> CResult
    ensures { TakesInC core.old now base from datagram.now result out.old out.new received.new core.new }
{
    let taken = core
        .agent
        .on_datagram(alloc, now, base, from, datagram, out);
    taken_in_c(taken, received)
}

/// Takes a datagram that has arrived at a base, from an address.
#[unsafe(no_mangle)]
pub extern "C" fn stun_types_ice_lite_datagram(
    alloc: Global,
    agent: &mut CIceLite,
    now: u64,
    base: u32,
    from: &Address,
    datagram: &[u8],
    out: &mut [u8],
    received: &mut CIceReceived,
) -> CResult
    ensures { TakesLite now base from.now datagram.now result
        (record { core = held_lite agent.old; slice = out.old; received = no_received })
        (record { core = held_lite agent.new; slice = out.new; received = received.new }) }
{
    *received = NOTHING;
    let Some(from) = endpoint_in(from) else {
        return plain(codes::BAD_ARGUMENT);
    };
    let Some(mut core) = take(agent, alloc) else {
        return plain(codes::BAD_ARGUMENT);
    };
    let result = receive(alloc, &mut core, now, base, from, datagram, out, received);
    put(agent, core);
    result
}

/// The path of data now, if there is one.
fn route(core: &mut IceLiteCore, now: u64, component: u16, path: &mut CIcePath) -> bool
    ensures { LiteRoutesIn core.old now component result path.new core.new }
{
    let found = core.agent.route(now, component);
    route_in_c(found, path)
}

/// The path of a component's data now; false if it must not be sent.
#[unsafe(no_mangle)]
pub extern "C" fn stun_types_ice_lite_route(
    alloc: Global,
    agent: &mut CIceLite,
    now: u64,
    component: u16,
    path: &mut CIcePath,
) -> bool
    ensures { RoutesLite now component result path.new (held_lite agent.old) (held_lite agent.new) }
{
    *path = NO_PATH;
    let Some(mut core) = take(agent, alloc) else {
        return false;
    };
    let result = route(&mut core, now, component, path);
    put(agent, core);
    result
}
