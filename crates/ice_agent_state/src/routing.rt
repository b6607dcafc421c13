//! The route of the user's data.

ghost use Rattle.std.specs.Prelude.{◌≡◌, ℕ, List};
ghost use Rattle.ice_machine.specs.Events.{sends};
ghost use Rattle.ice_agent_state.specs.Agents.{after, output_at};
ghost use Rattle.ice_agent_state.specs.Outputs.{data_by};
ghost use Rattle.ice_agent_state.specs.Statuses as statuses;

use crate::agent::AgentState;
use ice_machine::Pair;
use stun_endpoints::Endpoint;

/// The path of a datagram with data.
#[derive(Clone, Copy, Debug, PartialEq, Eq)]
pub struct Route {
    /// The number of the base to send it from.
    pub base: u32,
    /// The address to send it to.
    pub to: Endpoint,
}

/// The route of a pair.
pub(crate) fn route_of(pair: &Pair) -> Route
    ensures { result ≡ statuses.route_of pair.now }
{
    Route {
        base: pair.base,
        to: pair.remote,
    }
}

impl AgentState {
    /// Returns the route of a component's data now: that of its selected pair, if the peer still consents (RFC
    /// 7675, section 5.1). If it is `None`, data must not be sent.
    pub fn route(&mut self, now: u64, component: u16) -> Option<Route>
        ensures state { (bytes : List ℕ) → self.new ≡ after now 0 (sends component bytes) self.old }
        ensures data { (bytes : List ℕ)
            → output_at now 0 (sends component bytes) self.old ≡ data_by bytes result }
    {
        self.advance(now);
        let pair = self.selected(component)?;
        if pair.expires_at <= self.clock {
            return None;
        }
        Some(route_of(&pair))
    }
}
