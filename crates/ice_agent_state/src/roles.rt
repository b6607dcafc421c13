//! Changes of the agent's role.

ghost use Rattle.std.specs.Prelude.{◌≡◌, if◌then◌else◌, not};
ghost use Rattle.ice_agent_state.specs.Reports as reports;

use crate::agent::AgentState;
use crate::changes::{Change, Changes};
use crate::checking::is_controlling;
use ice_machine::Role;

fn is_role(one: Role, other: Role) -> bool
    ensures { result ≡ reports.is_role one other }
{
    if is_controlling(one) {
        is_controlling(other)
    } else {
        !is_controlling(other)
    }
}

impl AgentState {
    pub(crate) fn role_change(&self, role: Role) -> Option<Change>
        ensures { result ≡ (if reports.is_role role self.now.state.role then None
            else Some (Change.Role self.now.state.role)) }
    {
        if is_role(role, self.role) {
            return None;
        }
        Some(Change::Role(self.role))
    }
}

impl Changes {
    pub(crate) fn mark_role(&mut self, role: Role)
        ensures { self.new ≡ record self.old { role = role } }
    {
        self.role = role;
    }
}
