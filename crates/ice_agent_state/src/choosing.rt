//! Which pair comes first (RFC 8445, sections 6.1.4.2 and 8.1.1).

ghost use Rattle.std.specs.Prelude.{◌≡◌, ◌+◌, ◌≤◌, ◌<◌, ◌^◌, nat_le};
ghost use Rattle.std.specs.List.{list_any};
ghost use Rattle.ice_machine.specs.Agents as state;
ghost use Rattle.ice_machine.specs.Checks as checks;
ghost use Rattle.ice_machine.specs.Pairs.{selected, selection_score};
ghost use Rattle.ice_agent_state.specs.Best.{better_scored, is_hoped_for_in, is_settled_of, is_long_valid_of, IsStanding};

use crate::agent::AgentState;
use ice_machine::{Pair, PairState, Role};

/// The priority of a pair (RFC 8445, section 6.1.2.3).
pub(crate) fn pair_priority(role: Role, pair: &Pair) -> u128
    ensures value { result ≡ state.pair_priority role pair.now }
    ensures bound { result < 2 ^ 66 }
{
    match role {
        Role::Controlling => candidates_priority(pair.priority, pair.remote_priority),
        Role::Controlled => candidates_priority(pair.remote_priority, pair.priority),
    }
}

fn candidates_priority(of_controlling: u32, of_controlled: u32) -> u128
    ensures value { result ≡ state.candidates_priority of_controlling of_controlled }
    ensures bound { result < 2 ^ 66 }
{
    let least = of_controlling.min(of_controlled) as u128;
    let greatest = of_controlling.max(of_controlled) as u128;
    let further = if of_controlled < of_controlling { 1 } else { 0 };
    4_294_967_296 * least + 2 * greatest + further
}

pub(crate) fn is_succeeded(pair: &Pair) -> bool
    ensures { result ≡ state.is_succeeded pair.now.state }
{
    match pair.state {
        PairState::Succeeded => true,
        PairState::Frozen
        | PairState::Waiting
        | PairState::InProgress
        | PairState::Failed
        | PairState::Lost => false,
    }
}

pub(crate) fn is_frozen(pair: &Pair) -> bool
    ensures { result ≡ state.is_frozen pair.now.state }
{
    match pair.state {
        PairState::Frozen => true,
        PairState::Waiting
        | PairState::InProgress
        | PairState::Succeeded
        | PairState::Failed
        | PairState::Lost => false,
    }
}

pub(crate) fn is_waiting(pair: &Pair) -> bool
    ensures { result ≡ state.is_waiting pair.now.state }
{
    match pair.state {
        PairState::Waiting => true,
        PairState::Frozen
        | PairState::InProgress
        | PairState::Succeeded
        | PairState::Failed
        | PairState::Lost => false,
    }
}

pub(crate) fn is_in_progress(pair: &Pair) -> bool
    ensures { result ≡ state.is_in_progress pair.now.state }
{
    match pair.state {
        PairState::InProgress => true,
        PairState::Frozen
        | PairState::Waiting
        | PairState::Succeeded
        | PairState::Failed
        | PairState::Lost => false,
    }
}

pub(crate) fn is_lost(pair: &Pair) -> bool
    ensures { result ≡ state.is_lost pair.now.state }
{
    match pair.state {
        PairState::Lost => true,
        PairState::Frozen
        | PairState::Waiting
        | PairState::InProgress
        | PairState::Succeeded
        | PairState::Failed => false,
    }
}

/// Whether two pairs have the same foundation (RFC 8445, section 6.1.2.6).
pub(crate) fn is_kin(one: &Pair, other: &Pair) -> bool
    ensures { result ≡ checks.is_kin one.now other.now }
{
    one.foundation == other.foundation && one.remote_foundation == other.remote_foundation
}

/// Whether a pair of a greater priority may still succeed.
fn is_hoped_for(role: Role, pair: &Pair, other: &Pair) -> bool
    ensures { result ≡ is_hoped_for_in role pair.now other.now }
{
    pair.component == other.component
        && (is_frozen(other) || is_waiting(other) || is_in_progress(other))
        && pair_priority(role, pair) < pair_priority(role, other)
}

/// Whether one of several may.
pub(crate) fn waits_for(role: Role, pair: &Pair, pairs: &[Pair]) -> bool
    ensures { result ≡ list_any (is_hoped_for_in role pair.now) pairs.now }
{
    pairs.iter().any(|q| is_hoped_for(role, pair, q))
}

/// Whether so much time has passed since a moment.
fn is_over(clock: u128, since: u128, wait: u64) -> bool
    ensures { result ≡ nat_le (since + wait) clock }
{
    let wait = wait as u128;
    wait <= clock && since <= clock - wait
}

fn is_settled(component: u16, pair: &Pair) -> bool
    ensures { result ≡ is_settled_of component pair.now }
{
    component == pair.component && (pair.chosen || pair.nominated)
}

/// Whether a pair of a component is picked or nominated.
fn has_settled(component: u16, pairs: &[Pair]) -> bool
    ensures { result ≡ list_any (is_settled_of component) pairs.now }
{
    pairs.iter().any(|q| is_settled(component, q))
}

fn is_long_valid(clock: u128, patience: u64, component: u16, pair: &Pair) -> bool
    ensures { result ≡ is_long_valid_of clock patience component pair.now }
{
    component == pair.component && is_succeeded(pair) && is_over(clock, pair.succeeded_at, patience)
}

/// Whether a pair of a component has been valid for so long.
fn has_long_valid(clock: u128, patience: u64, component: u16, pairs: &[Pair]) -> bool
    ensures { result ≡ list_any (is_long_valid_of clock patience component) pairs.now }
{
    pairs
        .iter()
        .any(|q| is_long_valid(clock, patience, component, q))
}

/// What decides whether a valid pair of a component is picked, besides better pairs: computed once for the
/// pairs of a component that follow each other.
#[derive(Clone, Copy)]
pub(crate) struct Standing {
    /// The component.
    pub number: u16,
    /// Whether one of its pairs is picked or nominated.
    pub is_settled: bool,
    /// Whether one of its pairs has been valid for the whole patience.
    pub is_over: bool,
}

impl AgentState {
    fn is_held(&self, pair: &Pair) -> bool
        ensures { result ≡ checks.is_held self.now.state.pairs pair.now }
    {
        self.pairs.iter().any(|q| is_kin(pair, q) && (is_waiting(q) || is_in_progress(q)))
    }

    pub(crate) fn is_fresh(&self, pair: &Pair) -> bool
        ensures { result ≡ checks.is_fresh self.now.state pair.now }
    {
        is_waiting(pair) || is_frozen(pair) && !self.is_held(pair)
    }

    pub(crate) fn is_named(&self, pair: &Pair) -> bool
        ensures { result ≡ list_any (checks.is_settled_in pair.now) self.now.state.pairs }
    {
        self.pairs.iter().any(|q| pair.component == q.component && (q.chosen || q.nominated))
    }

    fn standing_of(&self, component: u16) -> Standing
        ensures number { result.number ≡ component }
        ensures known { IsStanding self.now component result }
    {
        Standing {
            number: component,
            is_settled: has_settled(component, &self.pairs),
            is_over: has_long_valid(self.clock, self.settings.patience, component, &self.pairs),
        }
    }

    /// Takes up another component.
    fn turn_to(&self, component: u16, standing: &mut Standing)
        requires { IsStanding self.now standing.old.number standing.old }
        ensures number { standing.new.number ≡ component }
        ensures known { IsStanding self.now component standing.new }
    {
        if standing.number != component {
            *standing = self.standing_of(component);
        }
    }

    /// Whether a controlling agent picks a pair.
    fn is_choice(&self, pair: &Pair, standing: &mut Standing) -> bool
        requires { IsStanding self.now standing.old.number standing.old }
        ensures value { result ≡ checks.is_choice self.now.setup self.now.state pair.now }
        ensures known { IsStanding self.now standing.new.number standing.new }
    {
        match self.role {
            Role::Controlled => false,
            Role::Controlling => {
                if !is_succeeded(pair) {
                    return false;
                }
                self.turn_to(pair.component, standing);
                !standing.is_settled
                    && (standing.is_over || !waits_for(self.role, pair, &self.pairs))
            }
        }
    }

    /// Whether a request on a pair nominates it.
    pub(crate) fn is_nominating(&self, pair: &Pair) -> bool
        ensures { result ≡ checks.is_nominating self.now.setup self.now.state pair.now }
    {
        if !is_succeeded(pair) {
            return false;
        }
        match self.role {
            Role::Controlled => false,
            Role::Controlling => {
                if pair.chosen {
                    return true;
                }
                let mut standing = self.standing_of(pair.component);
                self.is_choice(pair, &mut standing)
            }
        }
    }

    /// How urgent a request on a pair is.
    fn urgency(&self, pair: &Pair, standing: &mut Standing) -> u128
        requires { IsStanding self.now standing.old.number standing.old }
        ensures value { result ≡ checks.urgency self.now.setup self.now.state pair.now }
        ensures bound { result ≤ 5 }
        ensures known { IsStanding self.now standing.new.number standing.new }
    {
        if is_lost(pair) {
            return 0;
        }
        if pair.triggered {
            return 5;
        }
        if self.is_choice(pair, standing) {
            return 4;
        }
        if is_succeeded(pair) && pair.due <= self.clock {
            return 3;
        }
        if self.is_fresh(pair) {
            return 2;
        }
        if is_in_progress(pair) && pair.due <= self.clock {
            return 1;
        }
        0
    }

    fn precedence(&self, urgency: u128, pair: &Pair) -> u128
        ensures value { result ≡ checks.precedence self.now.state urgency pair.now }
        ensures bound { result < 18_446_744_073_709_551_616 }
    {
        let rank = if urgency == 3 {
            self.clock.saturating_sub(pair.due)
        } else {
            pair_priority(self.role, pair)
        };
        rank.min(18_446_744_073_709_551_615)
    }

    fn score(&self, pair: &Pair, standing: &mut Standing) -> u128
        requires { IsStanding self.now standing.old.number standing.old }
        ensures value { result ≡ checks.score self.now.setup self.now.state pair.now }
        ensures known { IsStanding self.now standing.new.number standing.new }
    {
        let urgency = self.urgency(pair, standing);
        let precedence = if 0 < urgency {
            self.precedence(urgency, pair)
        } else {
            0
        };
        18_446_744_073_709_551_616 * urgency + precedence
    }

    /// The pair that the next request is sent on.
    pub(crate) fn most_urgent(&self) -> Option<Pair>
        ensures { result ≡ checks.most_urgent self.now.setup self.now.state }
    {
        let mut standing = self.standing_of(1);
        let mut best: Option<(Pair, u128)> = None;
        let mut at = self.pairs.len();
        while at > 0 {
            at -= 1;
            let pair = &self.pairs[at];
            let score = self.score(pair, &mut standing);
            if score == 0 {
                continue;
            }
            best = better(score, *pair, best);
        }
        match best {
            Some((pair, _)) => Some(pair),
            None => None,
        }
    }

    fn selection_score(&self, component: u16, pair: &Pair) -> u128
        ensures { result ≡ selection_score self.now.state.role component pair.now }
    {
        if pair.component == component && pair.nominated && is_succeeded(pair) {
            1 + pair_priority(self.role, pair)
        } else {
            0
        }
    }

    /// The selected pair of a component.
    pub(crate) fn selected(&self, component: u16) -> Option<Pair>
        ensures { result ≡ selected component self.now.state }
    {
        let mut best: Option<(Pair, u128)> = None;
        let mut at = self.pairs.len();
        while at > 0 {
            at -= 1;
            let pair = &self.pairs[at];
            let score = self.selection_score(component, pair);
            if score == 0 {
                continue;
            }
            best = better(score, *pair, best);
        }
        match best {
            Some((pair, _)) => Some(pair),
            None => None,
        }
    }
}

/// The one of the greater score, and of equal ones the first.
fn better(score: u128, pair: Pair, best: Option<(Pair, u128)>) -> Option<(Pair, u128)>
    ensures { result ≡ better_scored score pair best }
{
    match best {
        None => { if 0 < score { Some((pair, score)) } else { None } }
        Some((other, greatest)) => {
            if score < greatest {
                Some((other, greatest))
            } else {
                Some((pair, score))
            }
        }
    }
}
