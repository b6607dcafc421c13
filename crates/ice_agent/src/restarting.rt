//! Restarts (RFC 8445, section 9).

ghost use Rattle.std.specs.Prelude.{◌≡◌, ℕ, List, None, Some};
ghost use Rattle.ice_machine.specs.Events.{arrives, sends};
ghost use Rattle.ice_agent_state.specs.Outputs.{data_by, data_of};
ghost use Rattle.ice_agent_state.specs.Restarts.{IsSessionWake};
ghost use Rattle.ice_agent_state.specs.Restarts as states;
ghost use Rattle.ice_agent.specs.Agents.{passes};
ghost use Rattle.ice_agent.specs.Restarts as restarts;
ghost use Rattle.ice_agent.specs.Restarts.{IsOlderPolled, IsSessionPolled, ReturnsBy, SessionReceives};

use crate::agent::Agent;
use crate::receiving::Received;
use crate::sending::Sending;
use ice_agent_state::{Route, earlier, first_route, is_replaced};
use ice_checks::Judged;
use std::alloc::{AllocError, Global};
use stun_endpoints::Endpoint;
use stun_types::message::{StunWriteError, TransactionId};

/// The agents of a session that may be restarted (RFC 8445, section 9).
///
/// A restart adds a second agent over the same bases, with new credentials of both sides. The older one keeps its
/// pairs and the peer's consent, and carries data, until the newer one has selected its pairs.
///
/// Candidates, the peer's credentials, statuses and changes are those of each agent.
///
/// ```
/// use ice_agent::{Agent, AgentCredentials, Session, Settings};
/// use ice_attrs::Ufrag;
/// use stun_types::message::TransactionId;
///
/// let fragment = Ufrag::new("evtj").ok_or("no fragment")?;
/// let own = AgentCredentials::new(alloc, fragment, "VOkJxbRl1RmTxUk/WvJxBt")?.ok_or("no password")?;
/// let next = Ufrag::new("Xk3q").ok_or("no fragment")?;
/// let next = AgentCredentials::new(alloc, next, "0gRSJ6jrJxSRbhmqvTw3vA")?.ok_or("no password")?;
/// let settings = Settings::default();
/// let agent = Agent::new(alloc, settings, own, None, ice_agent::Role::Controlling, 7)?;
/// let session = Session::new(agent);
/// let role = session.newer.role();
/// let mut session = session.restart(Agent::new(alloc, settings, next, None, role, 8)?);
/// assert!(rt; session.older.is_some());
/// // The older agent has no selected pair, so nothing is lost with it.
/// assert!(rt; session.poll(alloc, 0, TransactionId::from(1), &mut [])?.is_none());
/// assert!(rt; session.older.is_none());
/// ```
#[derive(Drop)]
pub struct Session {
    /// The agent of the latest restart.
    pub newer: Agent,
    /// The agent that carries data since before the restart. [`Session::poll`] drops it once the newer one has a
    /// selected pair of each component of which this one has one.
    pub older: Option<Agent>,
}

/// Which agents take a datagram.
#[derive(Clone, Copy)]
pub(crate) enum Taker {
    /// The newer one.
    Newer,
    /// The older one.
    Older,
    /// Both.
    Both,
}

/// Whether a message is an agent's.
fn is_own(judged: &Judged) -> bool
    ensures { result ≡ restarts.is_own judged.now }
{
    match judged {
        Judged::Checks { .. } | Judged::Responds { .. } => true,
        Judged::Refused { signed_by, .. } => signed_by.is_some(),
        Judged::Strays { .. } | Judged::Arrives => false,
    }
}

/// Which agents take a datagram, by what it is for the newer one and for the older one.
fn taker_of(newer: &Judged, older: &Judged) -> Taker
    ensures { result ≡ restarts.taker newer.now older.now }
{
    match newer {
        Judged::Arrives => Taker::Both,
        _ => {
            if is_own(older) && !is_own(newer) {
                Taker::Older
            } else {
                Taker::Newer
            }
        }
    }
}

/// Data has arrived at both agents. Returns the component whose data it is.
fn arrive_at(
    newer: &mut Agent,
    older: &mut Agent,
    now: u64,
    base: u32,
    from: Endpoint,
) -> Option<u16>
    ensures newer { (bytes : List ℕ) → newer.new ≡ passes now 0 (arrives base from bytes) newer.old }
    ensures older { (bytes : List ℕ) → older.new ≡ passes now 0 (arrives base from bytes) older.old }
    ensures data { (bytes : List ℕ)
        → restarts.data_at now base from bytes newer.old older.old ≡ data_of bytes result }
{
    let shown = newer.arrive(now, base, from);
    let other = older.arrive(now, base, from);
    match shown {
        Some(component) => Some(component),
        None => other,
    }
}

/// Takes a datagram that has arrived during a restart.
fn take_either<'d>(
    newer: &mut Agent,
    older: &mut Agent,
    alloc: Global,
    now: u64,
    base: u32,
    from: Endpoint,
    datagram: &'d [u8],
    random: u64,
    out: &mut [u8],
) -> Result<Received<'d>, StunWriteError>
    ensures state { restarts.received_by now random base from datagram.now newer.old (Some older.old)
        ≡ record { newer = newer.new; older = Some older.new } }
    ensures result { ReturnsBy now random base from datagram.now newer.old (Some older.old)
        out.old out.new result }
{
    let for_newer = newer.judged(base, from, datagram);
    let for_older = older.judged(base, from, datagram);
    match taker_of(&for_newer, &for_older) {
        Taker::Newer => newer.take_judged(
            alloc, now, base, from, datagram, &for_newer, random, out,
        ),
        Taker::Older => older.take_judged(
            alloc, now, base, from, datagram, &for_older, random, out,
        ),
        Taker::Both => match arrive_at(newer, older, now, base, from) {
            Some(component) => Ok(Received::Data(component, datagram)),
            None => Ok(Received::Nothing),
        },
    }
}

/// Whether a restart is over.
fn is_over(newer: &Agent, older: &Agent) -> bool
    ensures { result ≡ states.is_replaced newer.now.held older.now.held }
{
    is_replaced(&newer.state, &older.state)
}

/// Polls the older agent.
fn poll_older(
    alloc: Global,
    now: u64,
    id: TransactionId,
    older: &mut Option<Agent>,
    out: &mut [u8],
) -> Result<Option<Sending>, StunWriteError>
    ensures { IsOlderPolled now id older.old older.new out.old out.new result }
{
    match older {
        Some(agent) => agent.poll(alloc, now, id, out),
        None => Ok(None),
    }
}

/// The route of the older agent's data.
fn route_older(now: u64, component: u16, older: &mut Option<Agent>) -> Option<Route>
    ensures state { (bytes : List ℕ)
        → older.new ≡ restarts.older_routed now component bytes older.old }
    ensures data { (bytes : List ℕ)
        → restarts.older_data now component bytes older.old ≡ data_by bytes result }
{
    match older {
        Some(agent) => agent.route(now, component),
        None => None,
    }
}

impl Session {
    /// Makes a session of one agent.
    pub fn new(agent: Agent) -> Self
        ensures { result ≡ record { newer = agent; older = None } }
    {
        Session {
            newer: agent,
            older: None,
        }
    }

    /// Restarts with a new agent, which the caller makes with the role of the agent before it (section 6.1.1). If
    /// the restart before isn't over, its agent is dropped, and data goes on by the pairs of the older one.
    pub fn restart(self, agent: Agent) -> Self
        ensures { result ≡ restarts.restarted agent self }
    {
        let Session { newer, older } = self;
        let older = older.unwrap_or(newer);
        Session {
            newer: agent,
            older: Some(older),
        }
    }

    /// Takes a datagram that has arrived at a base, from an address, as [`Agent::on_datagram`].
    ///
    /// During a restart a message is taken by the agent that it is for: a request by the one whose fragment its
    /// USERNAME begins with, and whose password it is signed by; a response by the one that waits for its
    /// transaction ID, if it is signed by that one's peer. One that is for both, or for neither, is taken by the
    /// newer agent, so that a request gets its error response. Data is passed to both: it is the peer's if either
    /// accepts it.
    ///
    /// # Errors
    ///
    /// As [`Agent::on_datagram`].
    pub fn on_datagram<'d>(
        &mut self,
        alloc: Global,
        now: u64,
        base: u32,
        from: Endpoint,
        datagram: &'d [u8],
        random: u64,
        out: &mut [u8],
    ) -> Result<Received<'d>, StunWriteError>
        ensures state { self.new
            ≡ restarts.session_received now random base from datagram.now self.old }
        ensures result { SessionReceives now random base from datagram.now self.old
            out.old out.new result }
    {
        match &mut self.older {
            Some(older) => take_either(
                &mut self.newer,
                older,
                alloc,
                now,
                base,
                from,
                datagram,
                random,
                out,
            ),
            None => self
                .newer
                .on_datagram(alloc, now, base, from, datagram, random, out),
        }
    }

    /// Drops the older agent if the restart is over.
    fn relieve(&mut self)
        ensures { self.new ≡ restarts.relieved self.old }
    {
        let ends = match &self.older {
            Some(older) => is_over(&self.newer, older),
            None => false,
        };
        if ends {
            self.older = None;
        }
    }

    /// Drops the older agent if the restart is over. Then writes the request that is to be sent now, as
    /// [`Agent::poll`] of the newer agent, and if that sends none, of the older one. Each of them keeps its own
    /// pace, so that two requests may be sent within one Ta.
    ///
    /// # Errors
    ///
    /// As [`Agent::poll`].
    pub fn poll(
        &mut self,
        alloc: Global,
        now: u64,
        id: TransactionId,
        out: &mut [u8],
    ) -> Result<Option<Sending>, StunWriteError>
        ensures { IsSessionPolled now id (restarts.relieved self.old) self.new out.old out.new result }
    {
        self.relieve();
        match self.newer.request(now, id) {
            Ok(Some(request)) => self.newer.write(alloc, &request, out),
            Ok(None) => poll_older(alloc, now, id, &mut self.older, out),
            Err(AllocError) => Err(StunWriteError::OutOfMemory),
        }
    }

    /// Returns the route of a component's data now: the newer agent's, or else the older one's, as
    /// [`Agent::route`]. If it is `None`, data must not be sent.
    pub fn route(&mut self, now: u64, component: u16) -> Option<Route>
        ensures newer { (bytes : List ℕ)
            → self.new.newer ≡ passes now 0 (sends component bytes) self.old.newer }
        ensures older { (bytes : List ℕ)
            → self.new.older ≡ restarts.older_routed now component bytes self.old.older }
        ensures data { (bytes : List ℕ)
            → restarts.session_data now component bytes self.old ≡ data_by bytes result }
    {
        let newer = self.newer.route(now, component);
        let older = route_older(now, component, &mut self.older);
        first_route(newer, older)
    }

    /// Returns the next moment at which [`Session::poll`] does something by time alone, as [`Agent::next_wake`].
    pub fn next_wake(&self) -> Option<u64>
        ensures { IsSessionWake self.now.newer.held (restarts.held_older self.now.older) result }
    {
        match &self.older {
            Some(older) => earlier(self.newer.next_wake(), older.next_wake()),
            None => self.newer.next_wake(),
        }
    }
}
