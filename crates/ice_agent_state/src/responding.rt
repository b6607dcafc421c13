//! Responses of the peer (RFC 8445, section 7.2.5).

ghost use Rattle.std.specs.Prelude.{◌≡◌, ◌==◌, find, map, filter, not, Option, option_copied};
ghost use Rattle.ice_machine.specs.declared.pairs.Pair.{Pair};
ghost use Rattle.ice_machine.specs.Events.{responds, nothing};
ghost use Rattle.ice_machine.specs.Agents as state;
ghost use Rattle.ice_machine.specs.Steps as steps;
ghost use Rattle.ice_agent_state.specs.Agents.{after, output_at};
ghost use Rattle.ice_agent_state.specs.Changes.{changed_by, is_counted, steady_by};
ghost use Rattle.ice_machine.specs.Steps.{at};

use crate::agent::AgentState;
use crate::checking::{is_controlling, other, triggers};
use crate::choosing::{is_frozen, is_in_progress, is_kin, is_lost, is_succeeded};
use crate::polling::is_at;
use ice_machine::{Answer, Pair, PairState, Request, Role};
use stun_endpoints::Endpoint;

/// What a response changes of the pair of its request.
#[derive(Clone, Copy, Debug, PartialEq, Eq)]
pub(crate) enum Change {
    /// The pair succeeds: an agent of this role receives a success response to the request now.
    Succeed(Role, u64, Request),
    /// The pair fails, if it is in progress.
    Fail,
    /// The pair is checked again.
    Retry,
}

/// A pair after a response.
fn make_change(by: &Change, pair: Pair) -> Pair
    ensures { result ≡ changed_by by.now pair }
{
    match by {
        Change::Succeed(role, now, request) => succeed(*role, *now, request, pair),
        Change::Fail => fail(pair),
        Change::Retry => retry(pair),
    }
}

fn succeed(role: Role, now: u64, request: &Request, pair: Pair) -> Pair
    ensures { result ≡ steps.succeeds role now request.now pair }
{
    if is_lost(&pair) {
        return pair;
    }
    let now = now as u128;
    let nominated = pair.chosen && request.nominates && is_controlling(role);
    if is_succeeded(&pair) {
        return Pair {
            state: PairState::Succeeded,
            triggered: false,
            nominated: pair.nominated || nominated,
            expires_at: now + 30_000_000_000,
            tries: 0,
            ..pair
        };
    }
    Pair {
        state: PairState::Succeeded,
        triggered: false,
        nominated: pair.nominated || nominated,
        expires_at: now + 30_000_000_000,
        succeeded_at: now,
        due: now + 4_000_000_000,
        tries: 0,
        ..pair
    }
}

/// Until when time changes no pair once one is changed, by that before.
fn steady_until(by: &Change, until: u128) -> u128
    ensures { result ≡ steady_by by.now until }
{
    match by {
        Change::Succeed(_, now, _) => until.min(*now as u128 + 30_000_000_000),
        Change::Fail | Change::Retry => until,
    }
}

fn fail(pair: Pair) -> Pair
    ensures { result ≡ steps.fails pair }
{
    if is_in_progress(&pair) {
        return Pair {
            state: PairState::Failed,
            ..pair
        };
    }
    pair
}

fn retry(pair: Pair) -> Pair
    ensures { result ≡ steps.retried pair }
{
    if is_lost(&pair) {
        return pair;
    }
    if is_succeeded(&pair) {
        return Pair {
            triggered: true,
            ..pair
        };
    }
    triggers(pair)
}

/// Changes the pair of a base and a remote address.
fn change_first(base: u32, to: Endpoint, by: &Change, pairs: &mut [Pair])
    ensures { pairs.new ≡ steps.changed_first (state.is_at base to) (changed_by by.now) pairs.old }
{
    for i in 0..pairs.len() {
        if is_at(&pairs[i], base, to) {
            pairs[i] = make_change(by, pairs[i]);
            return;
        }
    }
}

fn find_there(pairs: &[Pair], base: u32, to: Endpoint) -> Option<&Pair>
    ensures { option_copied result ≡ find (state.is_at base to) pairs.now }
{
    pairs.iter().find(|p| base == p.base && to == p.remote)
}

fn copy_of(pair: Option<&Pair>) -> Option<Pair>
    ensures { result ≡ option_copied pair.entry }
{
    match pair {
        Some(pair) => Some(*pair),
        None => None,
    }
}

fn find_pair(pairs: &[Pair], base: u32, to: Endpoint) -> Option<Pair>
    ensures { result ≡ find (state.is_at base to) pairs.now }
{
    copy_of(find_there(pairs, base, to))
}

/// A pair once another one has succeeded: if it is frozen and of the same foundation, it waits.
fn thaw(kin: &Option<Pair>, pair: Pair) -> Pair
    ensures { result ≡ steps.thaws kin.now pair }
{
    match kin {
        None => pair,
        Some(kin) => {
            if is_kin(kin, &pair) && is_frozen(&pair) {
                Pair {
                    state: PairState::Waiting,
                    ..pair
                }
            } else {
                pair
            }
        }
    }
}

fn thaw_all(kin: &Option<Pair>, pairs: &mut [Pair])
    ensures { pairs.new ≡ map {B = Pair} (steps.thaws kin.now) pairs.old }
{
    for i in 0..pairs.len() {
        pairs[i] = thaw(kin, pairs[i]);
    }
}

fn find_request(requests: &[Request], id: u128) -> Option<&Request>
    ensures { option_copied result ≡ find (steps.is_request id) requests.now }
{
    requests.iter().find(|r| r.id == id)
}

/// Whether a response comes from the address that its request was sent to, at the base that it was sent from.
fn is_symmetric(request: &Request, base: u32, from: Endpoint) -> bool
    ensures { result ≡ steps.is_symmetric base from request.now }
{
    request.base == base && request.to == from
}

fn has_other_id(request: &Request, id: u128) -> bool
    ensures { result ≡ not (steps.is_request id request.now) }
{
    !(request.id == id)
}

/// Ends the waiting for a response.
fn end_waiting(requests: &mut Vec<Request>, id: u128)
    ensures { requests.new.items ≡ filter (λ r. not (steps.is_request id r)) requests.old.items }
{
    requests.retain_mut(|r| has_other_id(r, id));
}

impl AgentState {
    fn change_pair(&mut self, base: u32, to: Endpoint, by: &Change)
        ensures { self.new ≡ record self.old {
          state = steps.changed (changed_by by.now) base to self.old.state;
        } }
    {
        change_first(base, to, by, &mut self.pairs);
        self.quiet_until = steady_until(by, self.quiet_until);
    }

    fn thaw_kin(&mut self, base: u32, to: Endpoint)
        ensures { self.new ≡ record self.old { state = steps.thawed base to self.old.state } }
    {
        let kin = find_pair(&self.pairs, base, to);
        thaw_all(&kin, &mut self.pairs);
    }

    fn forget_request(&mut self, id: u128)
        ensures { self.new ≡ record self.old {
          state = steps.without_request id self.old.state;
        } }
    {
        end_waiting(&mut self.requests, id);
    }

    /// The pair of a request succeeds.
    fn succeed_on(&mut self, request: &Request)
        ensures { self.new ≡ record self.old {
          state = steps.thawed request.now.base request.now.to (steps.changed
              (steps.succeeds self.old.state.role self.old.state.clock request.now)
              request.now.base request.now.to self.old.state);
        } }
    {
        let by = Change::Succeed(self.role, self.clock as u64, *request);
        self.change_pair(request.base, request.to, &by);
        self.thaw_kin(request.base, request.to);
    }

    /// The role becomes the opposite of the request's, and its pair is checked again.
    fn yield_to(&mut self, fresh: u64, request: &Request)
        ensures { self.new ≡ record self.old {
          state = steps.yields fresh request.now self.old.state;
        } }
    {
        self.tiebreaker = fresh;
        self.take_role(other(request.role));
        self.change_pair(request.base, request.to, &Change::Retry);
    }

    fn take_answer(&mut self, fresh: u64, request: &Request, answer: Answer)
        ensures { self.new ≡ record self.old {
          state = steps.answered fresh request.now answer self.old.state;
        } }
    {
        match answer {
            Answer::Accepted => self.succeed_on(request),
            Answer::Refused(code) => {
                if code == 487 {
                    self.yield_to(fresh, request);
                } else {
                    self.change_pair(request.base, request.to, &Change::Fail);
                }
            }
        }
    }

    /// A response of the peer has arrived at a base, from an address: one that is authentic under the peer's
    /// password. `fresh` is a random number, which error 487 makes the tiebreaker (RFC 8445, section 7.2.5.1).
    /// Returns whether it counts: it has the transaction ID of a request that a response is waited for, and comes
    /// from the address that this was sent to, at the base that it was sent from (section 7.2.5.2.1).
    pub fn respond(
        &mut self,
        now: u64,
        fresh: u64,
        base: u32,
        from: Endpoint,
        id: u128,
        answer: Answer,
    ) -> bool
        ensures counts { result ≡ is_counted base from id
            (at self.old.setup now self.old.state).requests }
        ensures state { self.new ≡ after now fresh (responds base from id answer) self.old }
        ensures nothing { output_at now fresh (responds base from id answer) self.old ≡ nothing }
    {
        self.advance(now);
        let request = match find_request(&self.requests, id) {
            Some(request) => *request,
            None => return false,
        };
        self.forget_request(request.id);
        if is_symmetric(&request, base, from) {
            self.take_answer(fresh, &request, answer);
            true
        } else {
            self.change_pair(request.base, request.to, &Change::Fail);
            false
        }
    }
}
