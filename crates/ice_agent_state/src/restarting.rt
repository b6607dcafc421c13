//! What a session of two agents asks of both during a restart (RFC 8445, section 9).

ghost use Rattle.std.specs.Prelude.{◌≡◌};
ghost use Rattle.ice_agent_state.specs.Restarts as restarts;
ghost use Rattle.ice_agent_state.specs.Waking.{sooner};

use crate::agent::AgentState;
use crate::routing::Route;
use ice_machine::Base;

/// Returns the route of the newer agent, or if it has none, that of the older one.
pub fn first_route(newer: Option<Route>, older: Option<Route>) -> Option<Route>
    ensures { result ≡ restarts.route_by newer older }
{
    match newer {
        Some(route) => Some(route),
        None => older,
    }
}

/// Returns the earlier one of two moments, or the one that there is.
pub fn earlier(one: Option<u64>, other: Option<u64>) -> Option<u64>
    ensures { result ≡ sooner one other }
{
    match one {
        None => other,
        Some(one) => match other {
            None => Some(one),
            Some(other) => Some(one.min(other)),
        },
    }
}

/// Whether the newer agent has a selected pair, or the older one has none.
fn is_replaced_in(newer: &AgentState, older: &AgentState, base: &Base) -> bool
    ensures { result ≡ restarts.is_replaced_in newer.now older.now base.now }
{
    older.selected(base.component).is_none() || newer.selected(base.component).is_some()
}

/// Returns `true` if the newer agent has a selected pair of each component of which the older one has one: the
/// restart is over.
pub fn is_replaced(newer: &AgentState, older: &AgentState) -> bool
    ensures { result ≡ restarts.is_replaced newer.now older.now }
{
    older.bases.iter().all(|b| is_replaced_in(newer, older, b))
}
