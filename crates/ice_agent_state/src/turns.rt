//! Changes of the components' statuses.

ghost use Rattle.std.specs.Prelude.{◌≡◌, not, filter, find, option_copied};
ghost use Rattle.std.specs.Vec.{vec_capacity};
ghost use Rattle.ice_agent_state.specs.Reports as reports;

use crate::agent::AgentState;
use crate::changes::{Change, Changes};
use crate::compact::CompactReport;
use crate::lists::keep;
use crate::routing::Route;
use crate::status::Status;
use ice_machine::Base;

/// The status that was reported of a component.
#[derive(Clone, Copy, Debug, PartialEq, Eq)]
pub(crate) struct Reported {
    pub(crate) component: u16,
    pub(crate) status: Status,
}

pub(crate) fn is_route(one: Route, other: Route) -> bool
    ensures { result ≡ reports.is_route one other }
{
    one.base == other.base && one.to == other.to
}

fn is_status(one: Status, other: Status) -> bool
    ensures { result ≡ reports.is_status one other }
{
    match one {
        Status::Checking => match other {
            Status::Checking => true,
            Status::Connected(_) | Status::Failed | Status::Lost => false,
        },
        Status::Connected(one) => match other {
            Status::Connected(other) => is_route(one, other),
            Status::Checking | Status::Failed | Status::Lost => false,
        },
        Status::Failed => match other {
            Status::Failed => true,
            Status::Checking | Status::Connected(_) | Status::Lost => false,
        },
        Status::Lost => match other {
            Status::Lost => true,
            Status::Checking | Status::Connected(_) | Status::Failed => false,
        },
    }
}

fn is_of_another(component: u16, reported: &CompactReport) -> bool
    ensures { result ≡ not (reports.is_of component reported.now) }
{
    !(reported.component() == component)
}

fn find_reported(component: u16, statuses: &[CompactReport]) -> Option<&CompactReport>
    ensures { option_copied result ≡ find (reports.is_of component) statuses.now }
{
    statuses.iter().find(|r| r.component() == component)
}

/// The status that was reported of a component.
fn status_reported(component: u16, statuses: &[CompactReport]) -> Status
    ensures { result ≡ reports.reported component statuses.now }
{
    match find_reported(component, statuses) {
        Some(reported) => reported.status(),
        None => Status::Checking,
    }
}

/// The change of a component's status.
fn turn(component: u16, before: Status, after: Status) -> Change
    ensures { result ≡ reports.turn component before after }
{
    match before {
        Status::Connected(_) => match after {
            Status::Connected(route) => Change::Selected(component, route),
            Status::Checking | Status::Failed | Status::Lost => Change::Status(component, after),
        },
        Status::Checking | Status::Failed | Status::Lost => Change::Status(component, after),
    }
}

fn find_turn<'a>(
    agent: &AgentState,
    statuses: &[CompactReport],
    bases: &'a [Base],
) -> Option<&'a Base>
    ensures { option_copied result
        ≡ find (reports.is_new_status statuses.now agent.now.state) bases.now }
{
    bases.iter().find(|b| agent.is_new_status(statuses, b))
}

/// Removes what was reported of a component.
fn remove_reported(component: u16, statuses: &mut Vec<CompactReport>)
    ensures items { statuses.new.items
        ≡ filter (λ x. not (reports.is_of component x)) statuses.old.items }
    ensures capacity { vec_capacity statuses.new ≡ vec_capacity statuses.old }
{
    statuses.retain_mut(|x| is_of_another(component, x));
}

impl AgentState {
    fn is_new_status(&self, statuses: &[CompactReport], base: &Base) -> bool
        ensures { result ≡ reports.is_new_status statuses.now self.now.state base.now }
    {
        !is_status(
            status_reported(base.component, statuses),
            self.status(base.component),
        )
    }

    /// The first status that isn't reported yet.
    pub(crate) fn status_change(&self, statuses: &[CompactReport]) -> Option<Change>
        ensures { result ≡ reports.turn_of statuses.now self.now.state
            (find (reports.is_new_status statuses.now self.now.state) self.now.state.bases) }
    {
        match find_turn(self, statuses, &self.bases) {
            Some(base) => Some(turn(
                base.component,
                status_reported(base.component, statuses),
                self.status(base.component),
            )),
            None => None,
        }
    }
}

impl Changes {
    pub(crate) fn mark_status(&mut self, component: u16, status: Status)
        ensures { self.new ≡ reports.with_status component status self.old }
    {
        remove_reported(component, &mut self.statuses);
        keep(
            self.most_statuses,
            CompactReport::new(Reported { component, status }),
            &mut self.statuses,
        );
    }
}
