//! Losses of the peer's consent (RFC 7675, section 5.1).

ghost use Rattle.std.specs.Prelude.{◌≡◌, ◌&&◌, not, find, option_copied};
ghost use Rattle.std.specs.List.{list_any};
ghost use Rattle.ice_agent_state.specs.Reports as reports;

use crate::agent::AgentState;
use crate::changes::{Change, Changes};
use crate::choosing::is_lost;
use crate::compact::CompactRoute;
use crate::lists::keep;
use crate::routing::{Route, route_of};
use crate::turns::is_route;
use ice_machine::Pair;

fn has_route(losses: &[CompactRoute], route: Route) -> bool
    ensures { result ≡ list_any (reports.is_route route) losses.now }
{
    losses.iter().any(|r| is_route(route, r.get()))
}

fn is_new_loss(losses: &[CompactRoute], pair: &Pair) -> bool
    ensures { result ≡ reports.is_new_loss losses.now pair.now }
{
    is_lost(pair) && !has_route(losses, route_of(pair))
}

fn find_loss<'a>(losses: &[CompactRoute], pairs: &'a [Pair]) -> Option<&'a Pair>
    ensures { option_copied result ≡ find (reports.is_new_loss losses.now) pairs.now }
{
    pairs.iter().find(|p| is_new_loss(losses, p))
}

/// The first loss that isn't reported yet.
fn loss_change(losses: &[CompactRoute], pairs: &[Pair]) -> Option<Change>
    ensures { result ≡ reports.loss_of (find (reports.is_new_loss losses.now) pairs.now) }
{
    match find_loss(losses, pairs) {
        Some(pair) => Some(Change::ConsentLost(pair.component, route_of(pair))),
        None => None,
    }
}

impl AgentState {
    pub(crate) fn new_loss(&self, losses: &[CompactRoute]) -> Option<Change>
        ensures { result ≡ reports.loss_of (find (reports.is_new_loss losses.now)
            self.now.state.pairs) }
    {
        loss_change(losses, &self.pairs)
    }
}

impl Changes {
    pub(crate) fn mark_loss(&mut self, route: Route)
        ensures { self.new ≡ reports.with_loss route self.old }
    {
        keep(self.most_losses, CompactRoute::new(route), &mut self.losses);
    }
}
