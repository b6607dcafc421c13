//! The status of a component.

ghost use Rattle.std.specs.Prelude.{◌≡◌};
ghost use Rattle.std.specs.List.{list_any};
ghost use Rattle.ice_agent_state.specs.Statuses as statuses;

use crate::agent::AgentState;
use crate::choosing::{is_frozen, is_in_progress, is_lost, is_succeeded, is_waiting};
use crate::routing::{Route, route_of};
use ice_machine::Pair;

/// What a component has come to (RFC 8445, sections 6.1.2.1 and 8.1.2).
#[derive(Clone, Copy, Debug, PartialEq, Eq)]
pub enum Status {
    /// No pair is selected yet.
    Checking,
    /// A pair is selected: data goes by its route.
    Connected(Route),
    /// No pair is left that may be selected, and no candidates follow. A check of the peer may still make a
    /// failed pair a waiting one (section 7.3.1.4).
    Failed,
    /// The peer's consent for a nominated pair has expired (RFC 7675, section 5.1), and no pair is selected: a
    /// restart is needed (RFC 8445, section 9), unless the peer nominates another pair.
    Lost,
}

/// Whether a pair of the component was nominated and is lost.
fn is_forfeited(component: u16, pair: &Pair) -> bool
    ensures { result ≡ statuses.is_forfeited component pair.now }
{
    pair.component == component && pair.nominated && is_lost(pair)
}

/// Whether a pair of the component is valid or may still succeed.
fn may_be_selected(component: u16, pair: &Pair) -> bool
    ensures { result ≡ statuses.may_be_selected component pair.now }
{
    pair.component == component
        && (is_frozen(pair) || is_waiting(pair) || is_in_progress(pair) || is_succeeded(pair))
}

fn has_forfeited(component: u16, pairs: &[Pair]) -> bool
    ensures { result ≡ list_any (statuses.is_forfeited component) pairs.now }
{
    pairs.iter().any(|p| is_forfeited(component, p))
}

fn has_hope(component: u16, pairs: &[Pair]) -> bool
    ensures { result ≡ list_any (statuses.may_be_selected component) pairs.now }
{
    pairs.iter().any(|p| may_be_selected(component, p))
}

impl AgentState {
    /// The status of a component of which no pair is selected.
    fn unselected(&self, component: u16) -> Status
        ensures { result ≡ statuses.unselected component self.now.state }
    {
        if has_forfeited(component, &self.pairs) {
            return Status::Lost;
        }
        if self.ended && !has_hope(component, &self.pairs) {
            return Status::Failed;
        }
        Status::Checking
    }

    /// Returns the status of a component at the latest moment of a call.
    ///
    /// ```
    /// use ice_agent_state::{AgentState, Settings, Status};
    /// use ice_machine::Role;
    ///
    /// let mut agent = AgentState::new(alloc, Settings::default(), Role::Controlling, 7)?;
    /// assert_eq!(rt; agent.status(1), Status::Checking);
    /// // The component has no pair, and will have none.
    /// agent.end_candidates(0);
    /// assert_eq!(rt; agent.status(1), Status::Failed);
    /// ```
    pub fn status(&self, component: u16) -> Status
        ensures { result ≡ statuses.status_of component self.now.state }
    {
        match self.selected(component) {
            Some(pair) => Status::Connected(route_of(&pair)),
            None => self.unselected(component),
        }
    }
}
