//! The agent.

ghost use Rattle.std.specs.Prelude.{◌≡◌, ◌≤◌, ℕ, List, None, IfOk, not, is_some};
ghost use Rattle.std.specs.List.{list_any};
ghost use Rattle.std.specs.Option.{option_map};
ghost use Rattle.stun_attributes.specs.Texts.{text_bytes};
ghost use Rattle.ice_machine.specs.Events.{ends, gathers, learns, sends};
ghost use Rattle.ice_machine.specs.Runs.{begun};
ghost use Rattle.ice_machine.specs.Steps.{has_room, is_base, is_remote};
ghost use Rattle.ice_agent_state.specs.Agents.{added, output_at, setup_of};
ghost use Rattle.ice_agent_state.specs.Outputs.{data_by};
ghost use Rattle.ice_agent_state.specs.Reports as reporting;
ghost use Rattle.ice_agent_state.specs.Statuses.{status_of};
ghost use Rattle.ice_agent_state.specs.Waking.{IsNextWake};
ghost use Rattle.ice_agent.specs.Agents.{met, passes};

use crate::credentials::AgentCredentials;
use ice_agent_state::{AddError, AgentState, Change, Changes, Route, Settings, Status};
use ice_machine::{Base, Pair, Remote, Role};
use std::alloc::{AllocError, Global};
use std::marker::Model;
use stun_endpoints::Endpoint;
use stun_types::attribute::Software;

/// An ICE agent without sockets and without a clock (RFC 8445).
///
/// Moments are nanoseconds from a beginning of the caller's choice. A moment before the latest one counts as
/// that one.
///
/// [`Agent::new`] takes all memory but that for many requests under way, which [`Agent::poll`] takes as it needs it. No
/// other call allocates.
///
/// An event loop passes each datagram of its bases to [`Agent::on_datagram`], and sends the response that it
/// writes, from the same base to where the datagram came from. At [`Agent::next_wake`], and after each call that
/// may make that sooner, it sends what [`Agent::poll`] writes until that returns `None`. Data goes by
/// [`Agent::route`].
///
/// # Examples
///
/// Two agents find each other:
///
/// ```
/// use ice_agent::{Agent, AgentCredentials, Base, Received, Remote, Role, Settings, Status};
/// use ice_attrs::Ufrag;
/// use std::alloc::Global;
/// use stun_endpoints::{Endpoint, Ip};
/// use stun_types::message::TransactionId;
///
/// // An agent with one base, for one component, which knows the fragment and the password of the peer, and
/// // where it is.
/// fn agent(
///     alloc: Global,
///     role: Role,
///     own: (&str, &str),
///     peer: (&str, &str),
///     address: Endpoint,
/// ) -> Option<Agent> {
///     let own = AgentCredentials::new(alloc, Ufrag::new(own.0)?, own.1).ok()??;
///     let peer = AgentCredentials::new(alloc, Ufrag::new(peer.0)?, peer.1).ok()??;
///     let mut agent = Agent::new(alloc, Settings::default(), own, None, role, 7).ok()?;
///     let base = Base {
///         number: 1,
///         component: 1,
///         family: 1,
///         link_local: false,
///         foundation: 1,
///         priority: 2_130_706_431,
///         reflexive_priority: 1_862_270_975,
///     };
///     let remote = Remote { address, component: 1, foundation: 1, priority: 2_130_706_431 };
///     agent.add_base(0, base).ok()?;
///     agent.add_remote(0, remote).ok()?;
///     agent.set_peer(0, peer);
///     Some(agent)
/// }
///
/// let left = Endpoint { ip: Ip { family: 1, number: 0xC000_0201 }, port: 7 };
/// let right = Endpoint { ip: Ip { family: 1, number: 0xC000_0202 }, port: 7 };
/// let (one, other) = (("evtj", "VOkJxbRl1RmTxUk/WvJxBt"), ("h6vY", "KPKLPQPlb6g8DVIXiyRPqZ"));
/// let mut caller = agent(alloc, Role::Controlling, one, other, right).ok_or("no caller")?;
/// let mut callee = agent(alloc, Role::Controlled, other, one, left).ok_or("no callee")?;
/// let (mut check, mut response) = ([0; 200], [0; 200]);
/// // The caller checks the pair, and the callee answers.
/// let sent = caller.poll(alloc, 0, TransactionId::from(1), &mut check)?.ok_or("no check")?;
/// assert!(rt; sent.base == 1 && sent.to == right);
/// let answer = callee.on_datagram(alloc, 0, 1, left, &check[..sent.length], 2, &mut response)?;
/// let Received::Response(length) = answer else { return Err("no response".into()) };
/// caller.on_datagram(alloc, 0, 1, right, &response[..length], 3, &mut check)?;
/// // It nominates the pair, 50 ms later.
/// let now = 50_000_000;
/// let sent = caller.poll(alloc, now, TransactionId::from(4), &mut check)?.ok_or("no check")?;
/// let answer = callee.on_datagram(alloc, now, 1, left, &check[..sent.length], 5, &mut response)?;
/// let Received::Response(length) = answer else { return Err("no response".into()) };
/// caller.on_datagram(alloc, now, 1, right, &response[..length], 6, &mut check)?;
/// assert!(rt; matches!(caller.status(1), Status::Connected(_)));
/// assert!(rt; caller.route(now, 1).is_some_and(|route| route.to == right));
/// ```
#[derive(Drop)]
pub struct Agent {
    pub(crate) state: AgentState,
    pub(crate) changes: Changes,
    pub(crate) own: AgentCredentials,
    pub(crate) peer: Option<AgentCredentials>,
    pub(crate) software: Option<Software>,
}

impl Model for Agent {
    ghost use Rattle.std.specs.Prelude.{◌≡◌, is_some};
    ghost use Rattle.std.specs.Option.{option_map};
    ghost use Rattle.stun_attributes.specs.Texts.{text_bytes};
    ghost use Rattle.ice_agent.specs.Agents.{Agent};

    ghost Value = { Agent };

    ghost view = { λ a. record {
      held = a.state;
      reports = a.changes;
      logins = record { own = a.own; peer = a.peer };
      software = option_map text_bytes a.software;
    } };

    ghost invariant = { λ a. a.state.state.ready ≡ is_some a.peer };
}

impl Agent {
    /// Makes an agent with no candidates, with its clock at 0.
    ///
    /// # Requires
    ///
    /// `settings.most_tries` is at most 32.
    ///
    /// # Errors
    ///
    /// Only if an allocation of memory failed.
    pub fn new(
        alloc: Global,
        settings: Settings,
        own: AgentCredentials,
        software: Option<Software>,
        role: Role,
        tiebreaker: u64,
    ) -> Result<Self, AllocError>
        requires { settings.most_tries ≤ 32 }
        ensures { IfOk result (λ agent. agent ≡ record {
          held = record {
            setup = setup_of settings;
            state = begun (record { role = role; tiebreaker = tiebreaker });
          };
          reports = reporting.nothing_of settings role;
          logins = record { own = own; peer = None };
          software = option_map text_bytes software;
        }) }
    {
        let state = AgentState::new(alloc, settings, role, tiebreaker)?;
        let changes = Changes::new(alloc, &settings, role)?;
        Ok(Agent {
            state,
            changes,
            own,
            peer: None,
            software,
        })
    }

    /// The credentials of the peer are known: checks are sent. Returns `false` if they were known before: they stay
    /// the same until ICE restarts (RFC 8445, section 9).
    pub fn set_peer(&mut self, now: u64, peer: AgentCredentials) -> bool
        ensures state { self.new ≡ met now peer self.old }
        ensures result { result ≡ not (is_some self.old.logins.peer) }
    {
        self.state.set_peer(now);
        if self.peer.is_some() {
            return false;
        }
        self.peer = Some(peer);
        true
    }

    /// Adds a base of this agent, and pairs it with the peer's candidates of its component and address family
    /// (RFC 8445, section 6.1.2.2).
    ///
    /// # Errors
    ///
    /// - [`AddError::Full`] if there are `most_candidates` bases;
    /// - [`AddError::InUse`] if there is a base of this number.
    pub fn add_base(&mut self, now: u64, base: Base) -> Result<(), AddError>
        ensures state { self.new ≡ passes now 0 (gathers base) self.old }
        ensures result { result ≡ added (has_room self.old.held.setup self.old.held.state.bases)
            (list_any (is_base base.number) self.old.held.state.bases) }
    {
        self.state.add_base(now, base)
    }

    /// Adds a candidate of the peer, and pairs it with the bases of its component and address family (RFC 8445,
    /// section 6.1.2.2).
    ///
    /// # Errors
    ///
    /// - [`AddError::Full`] if there are `most_candidates` candidates of the peer;
    /// - [`AddError::InUse`] if there is one with this address and component.
    pub fn add_remote(&mut self, now: u64, remote: Remote) -> Result<(), AddError>
        ensures state { self.new ≡ passes now 0 (learns remote) self.old }
        ensures result { result ≡ added (has_room self.old.held.setup self.old.held.state.remotes)
            (list_any (is_remote remote.component remote.address) self.old.held.state.remotes) }
    {
        self.state.add_remote(now, remote)
    }

    /// No more candidates follow, of this agent or of the peer (RFC 8838).
    pub fn end_candidates(&mut self, now: u64)
        ensures { self.new ≡ passes now 0 ends self.old }
    {
        self.state.end_candidates(now);
    }

    /// Returns the route of a component's data now: that of its selected pair, if the peer still consents (RFC
    /// 7675, section 5.1). If it is `None`, data must not be sent.
    pub fn route(&mut self, now: u64, component: u16) -> Option<Route>
        ensures state { (bytes : List ℕ) → self.new ≡ passes now 0 (sends component bytes) self.old }
        ensures data { (bytes : List ℕ)
            → output_at now 0 (sends component bytes) self.old.held ≡ data_by bytes result }
    {
        self.state.route(now, component)
    }

    /// Returns the next moment at which a poll does something by time alone: it sends a request, or a pair fails or
    /// is lost. `None` if there is none.
    pub fn next_wake(&self) -> Option<u64>
        ensures { IsNextWake self.now.held result }
    {
        self.state.next_wake()
    }

    /// Returns the status of a component at the latest moment of a call.
    pub fn status(&self, component: u16) -> Status
        ensures { result ≡ status_of component self.now.held.state }
    {
        self.state.status(component)
    }

    /// Returns the agent's role, which a role conflict may have changed (RFC 8445, section 7.3.1.1).
    pub fn role(&self) -> Role
        ensures { result ≡ self.now.held.state.role }
    {
        self.state.role()
    }

    /// Returns the pairs as they are at the latest moment of a call, the newest first.
    pub fn pairs(&self) -> &[Pair]
        ensures { result.now ≡ self.now.held.state.pairs }
    {
        self.state.pairs()
    }

    /// Notes an address of a local candidate, host, server-reflexive or relayed: it isn't reported as discovered
    /// ([`Change::Discovered`]).
    ///
    /// # Errors
    ///
    /// - [`AddError::Full`] if there are `most_pairs` addresses;
    /// - [`AddError::InUse`] if the address is known.
    pub fn add_address(&mut self, address: Endpoint) -> Result<(), AddError>
        ensures state { self.new
            ≡ record self.old { reports = reporting.with_address address self.old.reports } }
        ensures result { result ≡ added (reporting.has_place self.old.reports)
            (reporting.is_kept address self.old.reports) }
    {
        self.changes.add_address(address)
    }

    /// Returns the next change that isn't reported yet, and reports it. Call it after the other calls until it
    /// returns `None`.
    pub fn next_change(&mut self) -> Option<Change>
        ensures change { result ≡ reporting.next_change self.old.reports self.old.held.state }
        ensures marked { self.new
            ≡ record self.old { reports = reporting.marked_by result self.old.reports } }
    {
        self.changes.next(&self.state)
    }
}
