//! Making an ICE agent, and ending it.

ghost use Rattle.std.specs.Prelude.{◌≡◌, ◌⊎◌, ◌≤◌, ⊤, true, false, None, Some, All, IfOk, MatchOption, MatchResult, is_some, box_value, not};
ghost use Rattle.std.specs.Option.{option_map, option_or};
ghost use Rattle.stun_attributes.specs.Texts.{text_bytes};
ghost use Rattle.ice_attrs.specs.CheckUsernames.{ufrag_text};
ghost use Rattle.ice_agent.specs.Agents.{IsLogin, met};
ghost use Rattle.stun_types_c.specs.AllocationMaking.{number_named};
ghost use Rattle.stun_types_c.specs.CResults.{plain};
ghost use Rattle.stun_types_c.specs.Codes.{OUT_OF_MEMORY};
ghost use Rattle.stun_types_c.specs.IceHandles.{held_agent};
ghost use Rattle.stun_types_c.specs.IceMaking.{IsMadeBy, MakesAgent, MeetsBy, SetsPeer, agent_answer, agent_with, checked_named, is_fragment, login_answer, peer_result, role_named, settings_named, with_agent};
ghost use Rattle.stun_types_c.specs.Refusals.{text_answer};
ghost use Rattle.stun_types_c.specs.Versions.{no_key};

use crate::allocation_settings::{times_of, wait_of};
use crate::call_result::{CResult, plain, write_result};
use crate::codes;
use crate::handle::{put, release_all, take};
use crate::ice_core::IceCore;
use crate::ice_handle::CIce;
use crate::turn_settings::software_of;
use crate::values::text_in;
use crate::versions::NoKey;
use ice_agent::{Agent, AgentCredentials, Role, Settings};
use ice_attrs::Ufrag;
use std::alloc::{AllocError, Global};
use stun_types::attribute::Software;

/// What an ICE agent is made by, as C sets it.
#[repr(C)]
#[derive(Clone, Copy, Drop)]
pub struct CIceSettings<'a> {
    /// The text of its username fragment.
    pub ufrag: &'a [u8],
    /// The text of its password.
    pub password: &'a [u8],
    /// The text of the SOFTWARE of checks, or no bytes.
    pub software: &'a [u8],
    /// Its tiebreaker.
    pub tiebreaker: u64,
    /// The number of its role.
    pub role: u32,
    /// The most pairs; 0: 100.
    pub pairs: u32,
    /// The most bases, and the most candidates of the peer; 0: 32.
    pub candidates: u32,
    /// The most requests that a response is waited for; 0: 200.
    pub requests: u32,
    /// The time between two requests, in milliseconds; 0: 50.
    pub ta: u32,
    /// The wait after the first request of a check, in milliseconds; 0: 500.
    pub rto: u32,
    /// For how many milliseconds a controlling agent waits for better pairs; 0: 200.
    pub patience: u32,
    /// The most requests of a check; 0: 5.
    pub tries: u32,
    /// 0.
    pub reserved: u64,
}

/// What the numbers of C's settings mean.
#[derive(Clone, Copy)]
pub(crate) struct CheckedIce {
    pub(crate) settings: Settings,
    pub(crate) role: Role,
}

/// A handle that holds no agent, as C declares it: the words of `CIce`.
#[unsafe(no_mangle)]
pub extern "C" fn stun_types_ice_none() -> NoKey
    ensures { result ≡ no_key }
{
    NoKey { at: 0, held: 0 }
}

/// Ends the agents that the handles hold. Of a handle that holds none it does nothing.
#[unsafe(no_mangle)]
pub extern "C" fn stun_types_ices_free(alloc: Global, agents: &mut [CIce])
    ensures { All (λ agent. held_agent agent ≡ None) agents.new }
{
    release_all(agents, alloc);
}

/// The role of a number.
pub(crate) fn role_of(number: u32) -> Option<Role>
    ensures { result ≡ role_named number }
{
    match number {
        1 => Some(Role::Controlling),
        2 => Some(Role::Controlled),
        _ => None,
    }
}

/// The bound of a list; 0 is its default.
fn count_of(usual: u32, number: u32) -> Option<u32>
    ensures { result ≡ number_named 4096 usual number }
{
    if number == 0 {
        return Some(usual);
    }
    if number > 4096 {
        return None;
    }
    Some(number)
}

/// A number of requests of a check.
fn tries_of(number: u32) -> Option<u8>
    ensures value { result ≡ number_named 32 5 number }
{
    if number > 32 {
        return None;
    }
    times_of(5, number)
}

/// The settings of an agent, if each number is in its range.
fn settings_of(named: &CIceSettings<'_>) -> Option<Settings>
    ensures value { result ≡ settings_named named.now }
    ensures few { MatchOption result ⊤ (λ settings. settings.most_tries ≤ 32) }
{
    let most_pairs = count_of(100, named.pairs)?;
    let most_candidates = count_of(32, named.candidates)?;
    let most_requests = count_of(200, named.requests)?;
    let most_tries = tries_of(named.tries)?;
    Some(Settings {
        most_pairs,
        most_candidates,
        most_requests,
        ta: wait_of(named.ta, 50_000_000),
        rto: wait_of(named.rto, 500_000_000),
        most_tries,
        patience: wait_of(named.patience, 200_000_000),
    })
}

/// What the numbers mean, if each is in its range.
fn numbers_of(named: &CIceSettings<'_>) -> Option<CheckedIce>
    ensures value { result ≡ checked_named named.now }
    ensures few { MatchOption result ⊤ (λ checked. checked.settings.most_tries ≤ 32) }
{
    if named.reserved != 0 {
        return None;
    }
    let role = role_of(named.role)?;
    let settings = settings_of(named)?;
    Some(CheckedIce { settings, role })
}

/// The fragment of C's bytes.
fn ufrag_of(bytes: &[u8]) -> Option<Ufrag<'_>>
    ensures { MatchOption result (is_fragment bytes.now ≡ false)
        (λ ufrag. (is_fragment bytes.now ≡ true) × (ufrag_text ufrag ≡ bytes.now)) }
{
    match text_in(bytes) {
        Some(text) => Ufrag::new(text),
        None => None,
    }
}

/// The credentials of C's bytes.
pub(crate) fn login_of(
    alloc: Global,
    ufrag: &[u8],
    password: &[u8],
) -> Result<AgentCredentials, CResult>
    ensures { MatchResult result
        (λ login. (login_answer ufrag.now password.now ≡ None) × IsLogin ufrag.now password.now login)
        (λ answer. (login_answer ufrag.now password.now ≡ Some answer)
        ⊎ (answer ≡ plain OUT_OF_MEMORY)) }
{
    if password.is_empty() {
        return Err(plain(codes::BAD_ARGUMENT));
    }
    let Some(ufrag) = ufrag_of(ufrag) else {
        return Err(plain(codes::INVALID_DATA));
    };
    let Some(password) = text_in(password) else {
        return Err(plain(codes::INVALID_DATA));
    };
    match AgentCredentials::new(alloc, ufrag, password) {
        Ok(Some(login)) => Ok(login),
        Ok(None) => Err(plain(codes::INVALID_DATA)),
        Err(error) => Err(write_result(error)),
    }
}

/// An agent on the heap, with no candidates.
fn core_of(
    alloc: Global,
    checked: &CheckedIce,
    own: AgentCredentials,
    software: Option<Software>,
    tiebreaker: u64,
) -> Result<Box<IceCore>, AllocError>
    requires { checked.now.settings.most_tries ≤ 32 }
    ensures { IfOk result (λ boxed. (box_value boxed).agent
        ≡ agent_with checked.now tiebreaker own (option_map text_bytes software)) }
{
    let agent = Agent::new(
        alloc,
        checked.settings,
        own,
        software,
        checked.role,
        tiebreaker,
    )?;
    Ok(Box::new(alloc, IceCore { agent })?)
}

/// An agent by what C passes, whose numbers are in their ranges.
#[tactic(auto, using(crate::proofs::IceLemmas::made))]
fn made_by(
    alloc: Global,
    named: &CIceSettings<'_>,
    checked: &CheckedIce,
) -> Result<Box<IceCore>, CResult>
    requires { checked.now.settings.most_tries ≤ 32 }
    ensures { MatchResult result
        (λ boxed. (login_answer named.now.ufrag.now named.now.password.now ≡ None)
        × ((text_answer named.now.software.now ≡ None) × IsMadeBy named.now checked.now (box_value boxed)))
        (λ answer. (option_or (login_answer named.now.ufrag.now named.now.password.now)
        (text_answer named.now.software.now) ≡ Some answer)
        ⊎ (answer ≡ plain OUT_OF_MEMORY)) }
{
    let own = login_of(alloc, named.ufrag, named.password)?;
    let software = software_of(alloc, named.software)?;
    match core_of(alloc, checked, own, software, named.tiebreaker) {
        Ok(core) => Ok(core),
        Err(AllocError) => Err(plain(codes::OUT_OF_MEMORY)),
    }
}

/// Makes an agent with no candidates.
#[unsafe(no_mangle)]
pub extern "C" fn stun_types_ice_new(
    alloc: Global,
    agent: &mut CIce,
    settings: &CIceSettings<'_>,
) -> CResult
    ensures { MakesAgent settings.now result (held_agent agent.old) (held_agent agent.new) }
{
    let Some(checked) = numbers_of(settings) else {
        return plain(codes::BAD_ARGUMENT);
    };
    match made_by(alloc, settings, &checked) {
        Ok(core) => {
            put(agent, core);
            plain(codes::OK)
        }
        Err(answer) => answer,
    }
}

/// What setting the peer's credentials returns.
fn peer_result(is_first: bool) -> CResult
    ensures { result ≡ peer_result (not is_first) }
{
    if is_first {
        plain(codes::OK)
    } else {
        plain(codes::EXISTS)
    }
}

/// Sets the credentials of the peer.
fn set_peer(core: &mut IceCore, now: u64, peer: AgentCredentials) -> CResult
    ensures state { core.new ≡ with_agent (met now peer core.old.agent) core.old }
    ensures result { result ≡ peer_result (is_some core.old.agent.logins.peer) }
{
    peer_result(core.agent.set_peer(now, peer))
}

/// Sets the credentials of the peer, which C passes.
#[tactic(auto, using(crate::proofs::IceLemmas::meets))]
fn meet(alloc: Global, core: &mut IceCore, now: u64, ufrag: &[u8], password: &[u8]) -> CResult
    ensures { MeetsBy core.old now ufrag.now password.now result (Some core.old) (Some core.new) }
{
    match login_of(alloc, ufrag, password) {
        Ok(peer) => set_peer(core, now, peer),
        Err(answer) => answer,
    }
}

/// Sets the username fragment and the password of the peer.
#[unsafe(no_mangle)]
pub extern "C" fn stun_types_ice_set_peer(
    alloc: Global,
    agent: &mut CIce,
    now: u64,
    ufrag: &[u8],
    password: &[u8],
) -> CResult
    ensures { SetsPeer now ufrag.now password.now result
        (held_agent agent.old) (held_agent agent.new) }
{
    let Some(mut core) = take(agent, alloc) else {
        return plain(codes::BAD_ARGUMENT);
    };
    let result = meet(alloc, &mut core, now, ufrag, password);
    put(agent, core);
    result
}
