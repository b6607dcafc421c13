//! When to poll next.

ghost use Rattle.std.specs.Prelude.{◌≡◌, ℕ, ◌+◌, ◌<◌, ◌^◌, nat_lt, nat_le};
ghost use Rattle.std.specs.List.{list_any};
ghost use Rattle.ice_machine.specs.Checks as checks;
ghost use Rattle.ice_machine.specs.Roles as roles;
ghost use Rattle.ice_agent_state.specs.Agents.{setup_of};
ghost use Rattle.ice_agent_state.specs.Waking as waking;
ghost use Rattle.ice_agent_state.specs.Waking.{HoldsFrom, IsNextWake, some_by, ends_by, is_due_by, is_choice_by, is_long_valid_by, asks_by};

use crate::agent::AgentState;
use crate::checking::is_controlling;
use crate::choosing::{is_in_progress, is_lost, is_succeeded, waits_for};
use crate::settings::Settings;
use ice_machine::{Pair, PairState};

/// The earlier one of two moments.
fn sooner(one: Option<u128>, other: Option<u128>) -> Option<u128>
    ensures { result ≡ waking.sooner one other }
{
    match one {
        None => other,
        Some(one) => match other {
            None => Some(one),
            Some(other) => Some(one.min(other)),
        },
    }
}

/// The moment at which a pair fails or is lost.
fn end_of(settings: &Settings, pair: &Pair) -> Option<u128>
    ensures { HoldsFrom (ends_by (setup_of settings.now) pair.now) result }
{
    match pair.state {
        PairState::InProgress => {
            if settings.most_tries <= pair.tries {
                Some(pair.due)
            } else {
                None
            }
        }
        PairState::Succeeded => Some(pair.expires_at),
        PairState::Frozen | PairState::Waiting | PairState::Failed | PairState::Lost => None,
    }
}

/// The moment of a request that is due then, and that isn't sent before the gate opens.
fn gated(ready: bool, gate: u128, due: Option<u128>) -> Option<u128>
    ensures { result ≡ waking.gated ready gate due }
{
    if !ready {
        return None;
    }
    match due {
        None => None,
        Some(due) => Some(gate.max(due)),
    }
}

/// A moment, if the caller's clock can show it.
fn in_width(moment: u128) -> Option<u64>
    ensures { result ≡ waking.in_width (nat_lt moment (2 ^ 64)) moment }
{
    if moment < 18_446_744_073_709_551_616 {
        Some(moment as u64)
    } else {
        None
    }
}

/// A moment that isn't before the clock, if the caller's clock can show it.
fn in_time(clock: u128, moment: Option<u128>) -> Option<u64>
    ensures { result ≡ waking.wake_of clock moment }
{
    match moment {
        None => None,
        Some(moment) => in_width(moment.max(clock)),
    }
}

impl AgentState {
    fn latest(&self) -> u128
        ensures value { result ≡ self.now.state.clock }
        ensures bound { result < 2 ^ 64 }
    {
        self.clock
    }

    fn is_controlling(&self) -> bool
        ensures { result ≡ roles.is_controlling self.now.state.role }
    {
        is_controlling(self.role)
    }

    fn waits_for_better(&self, pair: &Pair) -> bool
        ensures { result ≡ list_any (checks.is_hoped_for self.now.state pair.now)
            self.now.state.pairs }
    {
        waits_for(self.role, pair, &self.pairs)
    }

    /// When another pair of the component has been valid for the whole patience.
    fn patience_end(&self, pair: &Pair, other: &Pair) -> Option<u128>
        ensures { HoldsFrom (is_long_valid_by self.now.setup self.now.state pair.now other.now) result }
    {
        if pair.component != other.component || !is_succeeded(other) {
            return None;
        }
        other
            .succeeded_at
            .checked_add(self.settings.patience as u128)
    }

    /// When the first one has been: then an agent no longer waits for better pairs.
    fn first_patience_end(&self, pair: &Pair) -> Option<u128>
        ensures { HoldsFrom (some_by (is_long_valid_by self.now.setup self.now.state pair.now)
            self.now.state.pairs) result }
    {
        let mut first = None;
        let mut at = self.pairs.len();
        while at > 0 {
            at -= 1;
            let other = self.pairs[at];
            let end = self.patience_end(pair, &other);
            first = sooner(end, first);
        }
        first
    }

    /// When a pair becomes the one that a controlling agent picks.
    fn choice_of(&self, pair: &Pair) -> Option<u128>
        ensures { HoldsFrom (is_choice_by self.now.setup self.now.state pair.now) result }
    {
        if !self.is_controlling() || !is_succeeded(pair) || self.is_named(pair) {
            return None;
        }
        if self.waits_for_better(pair) {
            return self.first_patience_end(pair);
        }
        Some(0)
    }

    /// When a request on a pair is due.
    fn due_of(&self, pair: &Pair) -> Option<u128>
        ensures { HoldsFrom (is_due_by self.now.setup self.now.state pair.now) result }
    {
        if is_lost(pair) {
            return None;
        }
        if pair.triggered || self.is_fresh(pair) {
            return Some(0);
        }
        if is_succeeded(pair) {
            return sooner(Some(pair.due), self.choice_of(pair));
        }
        if is_in_progress(pair) {
            return Some(pair.due);
        }
        None
    }

    /// When the first request is due.
    fn first_due(&self) -> Option<u128>
        ensures { HoldsFrom (some_by (is_due_by self.now.setup self.now.state) self.now.state.pairs)
            result }
    {
        let mut first = None;
        let mut at = self.pairs.len();
        while at > 0 {
            at -= 1;
            let pair = self.pairs[at];
            let due = self.due_of(&pair);
            if let Some(0) = due {
                return due;
            }
            first = sooner(due, first);
        }
        first
    }

    /// When the first request is sent.
    fn first_request(&self) -> Option<u128>
        ensures { HoldsFrom (asks_by self.now.setup self.now.state) result }
    {
        let due = self.first_due();
        gated(self.ready, self.next_request_at, due)
    }

    /// When a pair fails or is lost.
    pub(crate) fn loss_of(&self, pair: &Pair) -> Option<u128>
        ensures { HoldsFrom (ends_by self.now.setup pair.now) result }
    {
        end_of(&self.settings, pair)
    }

    /// When the first pair does.
    pub(crate) fn first_loss(&self) -> Option<u128>
        ensures { HoldsFrom (some_by (ends_by self.now.setup) self.now.state.pairs) result }
    {
        let mut first = None;
        let mut at = self.pairs.len();
        while at > 0 {
            at -= 1;
            let pair = self.pairs[at];
            let loss = self.loss_of(&pair);
            first = sooner(loss, first);
        }
        first
    }

    /// Returns the next moment at which [`AgentState::poll`] does something by time alone: it returns a
    /// request, a check that no response came to fails, or a peer's consent expires. A poll before that moment
    /// does nothing. Returns `None` if there is no such moment: then nothing happens until the next other call.
    ///
    /// Poll until it returns `None`, and then sleep until this moment, or until a datagram arrives. After each
    /// other call the moment may be another one. It isn't before the latest moment of a call.
    ///
    /// When a request is no longer waited for is no such moment, since a late response doesn't count whether
    /// the agent was polled before or not.
    ///
    /// One pass over the pairs, and for a frozen pair, or a valid one of a controlling agent, up to three over the
    /// others.
    ///
    /// ```
    /// use ice_agent_state::{AgentState, Settings};
    /// use ice_machine::{Base, Remote, Role};
    /// use stun_endpoints::{Endpoint, Ip};
    ///
    /// let mut agent = AgentState::new(alloc, Settings::default(), Role::Controlling, 7)?;
    /// let base = Base {
    ///     number: 1,
    ///     component: 1,
    ///     family: 1,
    ///     link_local: false,
    ///     foundation: 1,
    ///     priority: 2_130_706_431,
    ///     reflexive_priority: 1_862_270_975,
    /// };
    /// let address = Endpoint { ip: Ip { family: 1, number: 0xC000_0201 }, port: 7 };
    /// let remote = Remote { address, component: 1, foundation: 1, priority: 2_130_706_431 };
    /// assert!(rt; agent.add_base(0, base).is_ok());
    /// assert!(rt; agent.add_remote(0, remote).is_ok());
    /// // Before the peer's credentials are known, no request is sent.
    /// assert_eq!(rt; agent.next_wake(), None);
    /// agent.set_peer(0);
    /// assert_eq!(rt; agent.next_wake(), Some(0));
    /// assert!(rt; agent.poll(0, 1)?.is_some());
    /// // No response comes: the second request follows after 500 ms.
    /// assert_eq!(rt; agent.next_wake(), Some(500_000_000));
    /// ```
    pub fn next_wake(&self) -> Option<u64>
        ensures { IsNextWake self.now result }
    {
        let loss = self.first_loss();
        let request = self.first_request();
        in_time(self.latest(), sooner(loss, request))
    }
}
