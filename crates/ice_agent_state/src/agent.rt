//! The agent.

ghost use Rattle.std.specs.Prelude.{◌≡◌, ◌≤◌, IfOk};
ghost use Rattle.ice_machine.specs.Events.{meets, ends};
ghost use Rattle.ice_machine.specs.Runs.{begun};
ghost use Rattle.ice_machine.specs.Steps.{at};
ghost use Rattle.ice_agent_state.specs.Agents.{setup_of, Held, after};

use crate::compact::CompactRemote;
use crate::lists::FIRST_ROOM;
use crate::settings::Settings;
use crate::settling::{drop_late, moment_of, settle_all, waited_until};
use ice_machine::{Base, Pair, Request, Role};
use std::alloc::{AllocError, Global};
use std::marker::Model;

/// An agent of one ICE session (RFC 8445, section 4).
///
/// Moments are nanoseconds from a beginning of the caller's choice. A moment before the latest one counts as
/// that one.
///
/// [`AgentState::new`] takes all memory but that for many requests under way: [`AgentState::poll`] takes it, when there
/// are more than ever before. No other call allocates.
///
/// ```
/// use ice_agent_state::{AddError, AgentState, Settings};
/// use ice_machine::{Base, Remote, Role};
/// use stun_endpoints::{Endpoint, Ip};
///
/// let mut agent = AgentState::new(alloc, Settings::default(), Role::Controlling, 7)?;
/// let base = Base {
///     number: 1,
///     component: 1,
///     family: 1,
///     link_local: false,
///     foundation: 1,
///     priority: 2_130_706_431,
///     reflexive_priority: 1_862_270_975,
/// };
/// let address = Endpoint {
///     ip: Ip { family: 1, number: 0xC000_0201 },
///     port: 7,
/// };
/// let remote = Remote { address, component: 1, foundation: 1, priority: 2_130_706_431 };
/// assert_eq!(rt; agent.add_base(0, base), Ok(()));
/// assert_eq!(rt; agent.add_base(0, base), Err(AddError::InUse));
/// assert_eq!(rt; agent.add_remote(0, remote), Ok(()));
/// assert!(rt; agent.poll(0, 1)?.is_none());
///
/// // The peer's credentials are known: a check is sent, and again after 500 ms and another second.
/// agent.set_peer(0);
/// assert!(rt; matches!(agent.poll(0, 1)?, Some(request) if request.to == address));
/// assert!(rt; agent.poll(499_999_999, 2)?.is_none());
/// assert!(rt; agent.poll(500_000_000, 2)?.is_some());
/// assert!(rt; agent.poll(1_499_999_999, 3)?.is_none());
/// assert!(rt; agent.poll(1_500_000_000, 3)?.is_some());
/// // No pair is selected yet.
/// assert_eq!(rt; agent.route(1_500_000_000, 1), None);
/// ```
#[derive(Drop)]
pub struct AgentState {
    pub(crate) settings: Settings,
    pub(crate) clock: u128,
    pub(crate) role: Role,
    pub(crate) tiebreaker: u64,
    /// Whether the peer's credentials are known.
    pub(crate) ready: bool,
    /// Whether no more candidates follow.
    pub(crate) ended: bool,
    pub(crate) bases: Vec<Base>,
    pub(crate) remotes: Vec<CompactRemote>,
    pub(crate) pairs: Vec<Pair>,
    pub(crate) requests: Vec<Request>,
    pub(crate) next_request_at: u128,
    /// Until when time changes no pair and no request.
    pub(crate) quiet_until: u128,
    /// The place of the pair that a check or data came from last, as a guess.
    pub(crate) latest: usize,
}

impl Model for AgentState {
    ghost use Rattle.std.specs.Prelude.{◌<◌, ◌≤◌, ◌^◌, length, max};
    ghost use Rattle.std.specs.List.{AllByRecursion};
    ghost use Rattle.std.specs.Vec.{vec_capacity};
    ghost use Rattle.ice_agent_state.specs.Agents.{Held, setup_of};
    ghost use Rattle.ice_machine.specs.Bounds.{AreDistinct};
    ghost use Rattle.ice_agent_state.specs.Tried.{IsTried};
    ghost use Rattle.ice_agent_state.specs.Quiet.{IsSteady, StaysAwaited};

    ghost Value = { Held };

    ghost view = { λ a. record {
      setup = setup_of a.settings;
      state = record {
        clock = a.clock;
        role = a.role;
        tiebreaker = a.tiebreaker;
        ready = a.ready;
        ended = a.ended;
        bases = a.bases.items;
        remotes = a.remotes.items;
        pairs = a.pairs.items;
        requests = a.requests.items;
        next_request_at = a.next_request_at;
      };
    } };

    ghost invariant = { λ a. record {
      early : a.clock < 2 ^ 64;
      bases : a.settings.most_candidates ≤ vec_capacity a.bases;
      remotes : a.settings.most_candidates ≤ vec_capacity a.remotes;
      pairs : a.settings.most_pairs ≤ vec_capacity a.pairs;
      few : length a.requests.items ≤ a.settings.most_requests;
      tries : a.settings.most_tries ≤ 32;
      distinct : AreDistinct a.pairs.items;
      tried : AllByRecursion (IsTried (max 1 a.settings.most_tries)) a.pairs.items;
      steady : AllByRecursion (IsSteady (setup_of a.settings) a.quiet_until) a.pairs.items;
      awaited : AllByRecursion (StaysAwaited a.quiet_until) a.requests.items;
    } };
}

impl AgentState {
    /// Makes an agent with no candidates, whose clock is at 0.
    ///
    /// # Requires
    ///
    /// `settings.most_tries` is at most 32.
    ///
    /// # Errors
    ///
    /// Only if an allocation of memory failed.
    pub fn new(
        alloc: Global,
        settings: Settings,
        role: Role,
        tiebreaker: u64,
    ) -> Result<Self, AllocError>
        requires { settings.most_tries ≤ 32 }
        ensures { IfOk result (λ agent. agent ≡ record {
          setup = setup_of settings;
          state = begun (record { role = role; tiebreaker = tiebreaker });
        }) }
    {
        let bases = Vec::with_capacity(alloc, settings.most_candidates as usize)?;
        let remotes = Vec::with_capacity(alloc, settings.most_candidates as usize)?;
        let pairs = Vec::with_capacity(alloc, settings.most_pairs as usize)?;
        let requests = Vec::with_capacity(alloc, FIRST_ROOM.min(settings.most_requests as usize))?;
        Ok(AgentState {
            settings,
            clock: 0,
            role,
            tiebreaker,
            ready: false,
            ended: false,
            bases,
            remotes,
            pairs,
            requests,
            next_request_at: 0,
            quiet_until: 0,
            latest: 0,
        })
    }

    /// Returns the agent's role, which a role conflict may have changed (RFC 8445, section 7.3.1.1).
    pub fn role(&self) -> Role
        ensures { result ≡ self.now.state.role }
    {
        self.role
    }

    /// Lets time pass until a moment, in each pair and each request.
    fn settle(&mut self, now: u64)
        ensures { self.new ≡ record self.old { state = at self.old.setup now self.old.state } }
    {
        self.quiet_until = 0;
        self.clock = self.clock.max(now as u128);
        settle_all(&self.settings, self.clock, &mut self.pairs);
        drop_late(&mut self.requests, self.clock);
    }

    /// Finds until when time changes nothing.
    fn look_ahead(&mut self)
        ensures { self.new ≡ self.old }
    {
        let loss = moment_of(self.first_loss());
        self.quiet_until = loss.min(waited_until(&self.requests));
    }

    /// Lets time pass until a moment. Goes through the pairs and the requests only if it changes one of them, or
    /// if it isn't known until when it changes none.
    pub(crate) fn advance(&mut self, now: u64)
        ensures { self.new ≡ record self.old { state = at self.old.setup now self.old.state } }
    {
        let clock = self.clock.max(now as u128);
        if clock < self.quiet_until {
            self.clock = clock;
            return;
        }
        self.settle(now);
        self.look_ahead();
    }

    /// The peer's username fragment and password are known: requests may be sent.
    pub fn set_peer(&mut self, now: u64)
        ensures { self.new ≡ after now 0 meets self.old }
    {
        self.advance(now);
        self.ready = true;
    }

    /// No more candidates follow, of this agent or of the peer (RFC 8838).
    pub fn end_candidates(&mut self, now: u64)
        ensures { self.new ≡ after now 0 ends self.old }
    {
        self.advance(now);
        self.ended = true;
    }
}
