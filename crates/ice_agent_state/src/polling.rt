//! Requests.

ghost use Rattle.std.specs.Prelude.{◌≡◌, ◌+◌, ◌*◌, ◌<◌, ◌≤◌, ◌^◌, ◌∷◌, take, length, Some, IfOk, IfErr};
ghost use Rattle.std.specs.Vec.{vec_capacity};
ghost use Rattle.ice_machine.specs.Agents as state;
ghost use Rattle.ice_machine.specs.Checks as checks;
ghost use Rattle.ice_machine.specs.Events.{polls};
ghost use Rattle.ice_machine.specs.Steps.{changed_first, asks_on};
ghost use Rattle.ice_agent_state.specs.Agents.{setup_of, after, output_at, waited, IsSettled};
ghost use Rattle.ice_agent_state.specs.Outputs.{asked_with};

use crate::agent::AgentState;
use crate::choosing::{is_lost, is_succeeded};
use crate::lists::{keep, make_room};
use crate::settings::Settings;
use crate::settling::{WAIT, moment_of};
use ice_machine::{Pair, PairState, Request};
use std::alloc::AllocError;
use stun_endpoints::Endpoint;

/// Whether a pair is that of a base and a remote address.
pub(crate) fn is_at(pair: &Pair, base: u32, remote: Endpoint) -> bool
    ensures { result ≡ state.is_at base remote pair.now }
{
    base == pair.base && remote == pair.remote
}

/// Replaces the pair of a base and a remote address.
pub(crate) fn replace(pairs: &mut [Pair], base: u32, remote: Endpoint, pair: Pair)
    ensures { pairs.new ≡ changed_first (state.is_at base remote) (λ _. pair) pairs.old }
{
    for i in 0..pairs.len() {
        if is_at(&pairs[i], base, remote) {
            pairs[i] = pair;
            return;
        }
    }
}

/// The timeout after the first request of a check (RFC 8445, section 14.3).
fn rto_of(settings: &Settings) -> u128
    ensures value { result ≡ checks.rto_of (setup_of settings.now) }
    ensures bound { result < 2 ^ 64 }
{
    (settings.rto as u128).max(500_000_000)
}

/// The least time between two requests (RFC 8445, section 14.2).
fn pace_of(settings: &Settings) -> u128
    ensures value { result ≡ state.pace (setup_of settings.now) }
    ensures bound { result < 2 ^ 64 }
{
    (settings.ta as u128).max(5_000_000)
}

/// A timeout, doubled so many times.
fn doubled(timeout: u128, times: u8) -> u128
    requires timeout { timeout < 2 ^ 64 }
    requires times { times ≤ 32 }
    ensures value { result ≡ timeout * 2 ^ times }
    ensures bound { result < 2 ^ 97 }
{
    timeout * (1 << times)
}

/// The time until the next consent check (RFC 7675, section 5.1).
fn consent_wait(random: u128) -> u128
    ensures value { result ≡ checks.consent_wait random }
    ensures bound { result < 2 ^ 64 }
{
    (4_000 + random % 2_001) * 1_000_000
}

impl AgentState {
    /// The request on a pair.
    fn request_on(&self, id: u128, pair: &Pair) -> Request
        ensures { result ≡ checks.request_on self.now.setup self.now.state id pair.now }
    {
        Request {
            id,
            base: pair.base,
            to: pair.remote,
            role: self.role,
            tiebreaker: self.tiebreaker,
            nominates: self.is_nominating(pair),
            priority: pair.reflexive_priority,
            sent: self.clock,
        }
    }

    /// A pair after a request on it.
    fn asked(&self, id: u128, pair: Pair) -> Pair
        requires { pair.tries ≤ 32 }
        ensures { result ≡ checks.asked self.now.setup self.now.state id pair }
    {
        if is_lost(&pair) {
            return pair;
        }
        if is_succeeded(&pair) {
            let nominates = self.is_nominating(&pair);
            let wait = if nominates && !pair.nominated {
                rto_of(&self.settings)
            } else {
                consent_wait(id)
            };
            return Pair {
                triggered: false,
                chosen: pair.chosen || nominates,
                due: self.clock + wait,
                ..pair
            };
        }
        Pair {
            state: PairState::InProgress,
            triggered: false,
            due: self.clock + doubled(rto_of(&self.settings), pair.tries),
            tries: pair.tries + 1,
            ..pair
        }
    }

    /// Sends a request on the most urgent pair. Does nothing if there is no memory for it.
    fn ask(&mut self, id: u128, pair: Pair) -> Result<Request, AllocError>
        requires urgent { checks.most_urgent self.old.setup self.old.state ≡ Some pair }
        requires settled { IsSettled self.old }
        ensures state { IfOk result (λ _. self.new ≡ record self.old {
          state = (asks_on self.old.setup id self.old.state pair).state;
        }) }
        ensures request { IfOk result
            (λ request. request ≡ checks.request_on self.old.setup self.old.state id pair) }
        ensures nothing { IfErr result (λ _. self.new ≡ self.old) }
    {
        let request = self.request_on(id, &pair);
        let asked = self.asked(id, pair);
        let until = moment_of(self.loss_of(&asked)).min(self.clock + WAIT);
        make_room(self.settings.most_requests, &mut self.requests)?;
        self.quiet_until = self.quiet_until.min(until);
        replace(&mut self.pairs, pair.base, pair.remote, asked);
        keep(self.settings.most_requests, request, &mut self.requests);
        self.next_request_at = self.clock + pace_of(&self.settings);
        Ok(request)
    }

    /// Returns the request to send now, if there is one: a Binding request with the transaction ID `id`, a
    /// random number of 96 bits. Call it until it returns `None`.
    ///
    /// # Errors
    ///
    /// Only if a request is due, a response is waited for to more requests than ever before, and an allocation of memory
    /// failed. Then only time has passed: the request is still due.
    pub fn poll(&mut self, now: u64, id: u128) -> Result<Option<Request>, AllocError>
        ensures state { IfOk result (λ _. self.new ≡ after now id polls self.old) }
        ensures request { IfOk result
            (λ request. output_at now id polls self.old ≡ asked_with request) }
        ensures waited { IfErr result (λ _. self.new ≡ waited now self.old) }
    {
        self.advance(now);
        if !self.ready || self.clock < self.next_request_at {
            return Ok(None);
        }
        match self.most_urgent() {
            Some(pair) => Ok(Some(self.ask(id, pair)?)),
            None => Ok(None),
        }
    }
}
