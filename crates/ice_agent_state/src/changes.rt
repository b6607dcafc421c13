//! What is reported to the user.

ghost use Rattle.std.specs.Prelude.{◌≡◌, ◌≤◌, length, IfOk};
ghost use Rattle.std.specs.Vec.{vec_capacity};
ghost use Rattle.ice_agent_state.specs.Reports as reports;

use crate::agent::AgentState;
use crate::compact::{CompactAddress, CompactReport, CompactRoute};
use crate::discoveries::found_change;
use crate::routing::Route;
use crate::settings::Settings;
use crate::status::Status;
use ice_machine::Role;
use std::alloc::{AllocError, Global};
use std::marker::Model;
use stun_endpoints::Endpoint;

/// What has changed.
#[derive(Clone, Copy, Debug, PartialEq, Eq)]
pub enum Change {
    /// The agent has this role now, after a role conflict (RFC 8445, sections 7.2.5.1 and 7.3.1.1).
    Role(Role),
    /// The peer's consent for a pair of the component has expired (RFC 7675, section 5.1): nothing is sent by
    /// its route any more.
    ConsentLost(u16, Route),
    /// The component has this status now.
    Status(u16, Status),
    /// The component, which stays connected, has another selected pair, of this route.
    Selected(u16, Route),
    /// A local peer-reflexive candidate (RFC 8445, section 7.2.5.3.1): the peer sees the base of this number at
    /// this address.
    Discovered(u32, Endpoint),
}

/// What was reported of an agent, so that each change is reported once. Each agent has a record of its own, also
/// the one of a restart.
///
/// [`Changes::new`] takes all memory; no other call allocates.
///
/// ```
/// use ice_agent_state::{AgentState, Change, Changes, Settings, Status};
/// use ice_machine::{Base, Role};
///
/// let settings = Settings::default();
/// let mut agent = AgentState::new(alloc, settings, Role::Controlling, 7)?;
/// let mut changes = Changes::new(alloc, &settings, Role::Controlling)?;
/// let base = Base {
///     number: 1,
///     component: 1,
///     family: 1,
///     link_local: false,
///     foundation: 1,
///     priority: 2_130_706_431,
///     reflexive_priority: 1_862_270_975,
/// };
/// assert!(rt; agent.add_base(0, base).is_ok());
/// assert_eq!(rt; changes.next(&agent), None);
///
/// // The peer has no candidate at all.
/// agent.end_candidates(0);
/// assert_eq!(rt; changes.next(&agent), Some(Change::Status(1, Status::Failed)));
/// assert_eq!(rt; changes.next(&agent), None);
/// ```
#[derive(Drop)]
pub struct Changes {
    pub(crate) role: Role,
    pub(crate) statuses: Vec<CompactReport>,
    pub(crate) losses: Vec<CompactRoute>,
    pub(crate) addresses: Vec<CompactAddress>,
    pub(crate) most_statuses: u32,
    pub(crate) most_losses: u32,
    pub(crate) most_addresses: u32,
}

impl Model for Changes {
    ghost use Rattle.std.specs.Prelude.{◌≤◌, length};
    ghost use Rattle.std.specs.Vec.{vec_capacity};
    ghost use Rattle.ice_agent_state.specs.Reports.{Reports};
    ghost use Rattle.ice_agent_state.specs.Kept.{addresses_of, founds_of};

    ghost Value = { Reports };

    ghost view = { λ c. record {
      role = c.role;
      statuses = c.statuses.items;
      losses = c.losses.items;
      addresses = addresses_of c.addresses.items;
      found = founds_of c.addresses.items;
      most_statuses = c.most_statuses;
      most_losses = c.most_losses;
      most_addresses = c.most_addresses;
    } };

    ghost invariant = { λ c. record {
      statuses : c.most_statuses ≤ vec_capacity c.statuses;
      losses : c.most_losses ≤ vec_capacity c.losses;
      addresses : c.most_addresses ≤ vec_capacity c.addresses;
      few_statuses : length c.statuses.items ≤ c.most_statuses;
      few_losses : length c.losses.items ≤ c.most_losses;
    } };
}

impl Changes {
    /// Makes the record of an agent with these settings and this role, of which nothing was reported.
    ///
    /// It has room for the statuses of `most_candidates` components, and for `most_pairs` lost pairs and
    /// `most_pairs` addresses.
    ///
    /// # Errors
    ///
    /// Only if an allocation of memory failed.
    pub fn new(alloc: Global, settings: &Settings, role: Role) -> Result<Self, AllocError>
        ensures { IfOk result (λ changes. changes ≡ reports.nothing_of settings.now role) }
    {
        let statuses = Vec::with_capacity(alloc, settings.most_candidates as usize)?;
        let losses = Vec::with_capacity(alloc, settings.most_pairs as usize)?;
        let addresses = Vec::with_capacity(alloc, settings.most_pairs as usize)?;
        Ok(Changes {
            role,
            statuses,
            losses,
            addresses,
            most_statuses: settings.most_candidates,
            most_losses: settings.most_pairs,
            most_addresses: settings.most_pairs,
        })
    }

    /// The first change that isn't reported yet.
    fn first(&self, agent: &AgentState) -> Option<Change>
        ensures { result ≡ reports.next_change self.now agent.now.state }
    {
        if let Some(change) = agent.role_change(self.role) {
            return Some(change);
        }
        if let Some(change) = agent.new_loss(&self.losses) {
            return Some(change);
        }
        if let Some(change) = agent.status_change(&self.statuses) {
            return Some(change);
        }
        found_change(&self.addresses)
    }

    /// Marks a change as reported.
    fn mark(&mut self, change: Change)
        ensures { self.new ≡ reports.marked change self.old }
    {
        match change {
            Change::Role(role) => self.mark_role(role),
            Change::ConsentLost(_, route) => self.mark_loss(route),
            Change::Status(component, status) => self.mark_status(component, status),
            Change::Selected(component, route) => {
                self.mark_status(component, Status::Connected(route))
            }
            Change::Discovered(_, _) => self.mark_found(),
        }
    }

    /// Returns a difference between what the agent is and what was reported of it, and marks it as reported.
    /// Returns `None` exactly if there is none. Call it after each other call until it does.
    ///
    /// The order is: the role, losses of consent, statuses and selected pairs, discovered candidates. Of changes
    /// that undo each other between two calls nothing is reported.
    pub fn next(&mut self, agent: &AgentState) -> Option<Change>
        ensures change { result ≡ reports.next_change self.old agent.now.state }
        ensures marked { self.new ≡ reports.marked_by result self.old }
    {
        let change = self.first(agent)?;
        self.mark(change);
        Some(change)
    }
}
