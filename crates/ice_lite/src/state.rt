//! The state in memory.

ghost use Rattle.std.specs.Prelude.{◌≡◌, ℕ, List, IfOk, false, find, map};
ghost use Rattle.std.specs.Option.{option_copied, option_map_or};
ghost use Rattle.stun_endpoints.specs.declared.endpoints.Endpoint as endpoints;
ghost use Rattle.ice_machine.specs.Events.{answers, arrives, checks, data_from, data_to, nothing, sends, strays};
ghost use Rattle.ice_lite.specs.Agents as agents;
ghost use Rattle.ice_lite.specs.Agents.{LiteCandidate};
ghost use Rattle.ice_lite.specs.Runs as runs;
ghost use Rattle.ice_lite.specs.Steps as steps;
ghost use Rattle.ice_lite.specs.Steps.{at, step};

use crate::candidates::{LiteBase, LiteCandidate, LitePair};
use ice_machine::{Answer, Check, Role};
use std::alloc::{AllocError, Global};
use std::marker::Model;
use stun_endpoints::Endpoint;

/// For how long a check shows that the peer is there.
const WAIT: u128 = 30_000_000_000;

/// The most bytes of an error response: its header; ERROR-CODE with a reason phrase of 20 bytes; FINGERPRINT.
const REFUSAL_SIZE: usize = 20 + (8 + 20) + 8;

fn is_live(now: u128, pair: &LitePair) -> bool
    ensures { result ≡ agents.is_live now pair.now }
{
    now < WAIT || now - WAIT < pair.heard_at
}

fn renewed(now: u128, check: &Check, pair: LitePair) -> LitePair
    ensures { result ≡ steps.renewed now check.now pair }
{
    if check.from == pair.remote {
        return LitePair {
            heard_at: now,
            ..pair
        };
    }
    pair
}

/// The pair that a check with USE-CANDIDATE selects, at a base of its component.
fn nominated(now: u128, check: &Check, candidate: LiteCandidate) -> LiteCandidate
    ensures { result ≡ steps.nominated now check.now candidate }
{
    let mut selected = None;
    if candidate.base.number == check.base {
        selected = Some(LitePair {
            remote: check.from,
            heard_at: now,
        });
    }
    LiteCandidate {
        selected,
        ..candidate
    }
}

/// A base of the component of a check without USE-CANDIDATE.
fn refreshed(now: u128, check: &Check, candidate: LiteCandidate) -> LiteCandidate
    ensures { result ≡ steps.refreshed now check.now candidate }
{
    match candidate.selected {
        Some(pair) if candidate.base.number == check.base => LiteCandidate {
            selected: Some(renewed(now, check, pair)),
            ..candidate
        },
        _ => candidate,
    }
}

fn heard(component: u16, now: u128, check: &Check, candidate: LiteCandidate) -> LiteCandidate
    ensures { result ≡ steps.heard component now check.now candidate }
{
    if candidate.base.component != component {
        return candidate;
    }
    if check.nominates {
        return nominated(now, check, candidate);
    }
    refreshed(now, check, candidate)
}

/// A check has come to a base of a component.
fn hear_all(component: u16, now: u128, check: &Check, candidates: &mut [LiteCandidate])
    ensures { candidates.new
        ≡ map {B = LiteCandidate} (steps.heard component now check.now) candidates.old }
{
    for i in 0..candidates.len() {
        candidates[i] = heard(component, now, check, candidates[i]);
    }
}

fn candidate_of(candidates: &[LiteCandidate], number: u32) -> Option<&LiteCandidate>
    ensures { option_copied result ≡ find (agents.is_candidate number) candidates.now }
{
    candidates.iter().find(|k| k.base.number == number)
}

/// The bases, none with a selected pair.
fn unselected(alloc: Global, bases: &[LiteBase]) -> Result<Vec<LiteCandidate>, AllocError>
    ensures { IfOk result (λ all. all.items ≡ map {B = LiteCandidate} runs.unselected bases.now) }
{
    let mut all = Vec::with_capacity(alloc, bases.len())?;
    for base in bases {
        all.push(LiteCandidate {
            base: *base,
            selected: None,
        })?;
    }
    Ok(all)
}

/// Whether data goes by the selected pair of a base now.
fn is_way(now: u128, component: u16, candidate: &LiteCandidate) -> bool
    ensures { result ≡ steps.is_way now component candidate.now }
{
    match &candidate.selected {
        Some(pair) => candidate.base.component == component && is_live(now, pair),
        None => false,
    }
}

/// Whether data comes on the selected pair of a base now.
fn is_source(now: u128, from: Endpoint, candidate: &LiteCandidate) -> bool
    ensures { result ≡ option_map_or (steps.comes now from) candidate.now.selected false }
{
    match &candidate.selected {
        Some(pair) => from == pair.remote && is_live(now, pair),
        None => false,
    }
}

fn way_of(now: u128, component: u16, candidates: &[LiteCandidate]) -> Option<&LiteCandidate>
    ensures { option_copied result ≡ find (steps.is_way now component) candidates.now }
{
    candidates.iter().find(|k| is_way(now, component, k))
}

/// The state of a lite agent (RFC 8445, section 2.5).
///
/// Moments are nanoseconds from a beginning of the caller's choice. A moment before the latest one counts as
/// that one. [`LiteState::new`] takes all memory; no other call allocates.
#[derive(Drop)]
pub struct LiteState {
    clock: u128,
    candidates: Vec<LiteCandidate>,
}

impl Model for LiteState {
    ghost use Rattle.ice_lite.specs.Agents.{State};

    ghost Value = { State };

    ghost view = { λ s. record { clock = s.clock; candidates = s.candidates.items } };
}

impl LiteState {
    /// Makes the state of an agent with these bases, in memory for them, whose clock is at 0.
    ///
    /// # Errors
    ///
    /// Only if an allocation of memory failed.
    pub fn new(alloc: Global, bases: &[LiteBase]) -> Result<Self, AllocError>
        ensures { IfOk result (λ state. state ≡ runs.begun bases.now) }
    {
        let candidates = unselected(alloc, bases)?;
        Ok(LiteState {
            clock: 0,
            candidates,
        })
    }

    fn advance(&mut self, now: u64)
        ensures { self.new ≡ at now self.old }
    {
        self.clock = self.clock.max(now as u128);
    }

    /// An authentic check has come. Returns what the response says; `None` if there is no base of its number.
    pub fn check(&mut self, now: u64, check: &Check) -> Option<Answer>
        ensures state { self.new ≡ (step self.old now (checks check.now)).state }
        ensures answer { (step self.old now (checks check.now)).output
            ≡ option_map_or (answers check.now.base check.now.from check.now.id) result nothing }
    {
        self.advance(now);
        let component = candidate_of(&self.candidates, check.base)?.base.component;
        match check.role {
            Role::Controlling => {
                hear_all(component, self.clock, check, &mut self.candidates);
                Some(Answer::Accepted)
            }
            Role::Controlled => Some(Answer::Refused(487)),
        }
    }

    /// A datagram that is no STUN message has come to a base, from an address. Returns the component whose data it
    /// is; if that is `None`, the datagram must be dropped.
    pub fn receive(&mut self, now: u64, base: u32, from: Endpoint) -> Option<u16>
        ensures state { (bytes : List ℕ) → self.new ≡ (step self.old now (arrives base from bytes)).state }
        ensures data { (bytes : List ℕ) → (step self.old now (arrives base from bytes)).output
            ≡ option_map_or (λ component. data_from component bytes) result nothing }
    {
        self.advance(now);
        let candidate = candidate_of(&self.candidates, base)?;
        if is_source(self.clock, from, candidate) {
            Some(candidate.base.component)
        } else {
            None
        }
    }

    /// A STUN message of `size` bytes that isn't authentic has come; `code` is that of the error response to it, if
    /// it gets one. Returns the response; `None` without a `code`, or if the response could be more than three
    /// times as long as the message.
    pub fn refuse(&mut self, now: u64, size: usize, code: Option<u16>) -> Option<Answer>
        ensures state { (base id : ℕ) (from : endpoints.Endpoint)
            → self.new ≡ (step self.old now (strays base from id size code)).state }
        ensures answer { (base id : ℕ) (from : endpoints.Endpoint)
            → (step self.old now (strays base from id size code)).output
            ≡ option_map_or (answers base from id) result nothing }
    {
        self.advance(now);
        let code = code?;
        if REFUSAL_SIZE <= size.saturating_mul(3) {
            Some(Answer::Refused(code))
        } else {
            None
        }
    }

    /// Returns the base that data of a component is sent from now, and the address that it is sent to. If it is
    /// `None`, data must not be sent.
    pub fn route(&mut self, now: u64, component: u16) -> Option<(u32, Endpoint)>
        ensures state { (bytes : List ℕ) → self.new ≡ (step self.old now (sends component bytes)).state }
        ensures data { (bytes : List ℕ) → (step self.old now (sends component bytes)).output
            ≡ option_map_or (λ way. data_to way.0 way.1 bytes) result nothing }
    {
        self.advance(now);
        let candidate = way_of(self.clock, component, &self.candidates)?;
        let pair = candidate.selected?;
        Some((candidate.base.number, pair.remote))
    }
}
