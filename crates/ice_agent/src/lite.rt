//! A lite agent.

ghost use Rattle.std.specs.Prelude.{◌≡◌, ℕ, List, IfOk, None, Some, length};
ghost use Rattle.stun_endpoints.specs.declared.endpoints.Endpoint as endpoints;
ghost use Rattle.ice_machine.specs.Events.{arrives, checks, sends, strays};
ghost use Rattle.ice_checks.specs.declared.judged.Judged.TheVariants.{Checks, Refused};
ghost use Rattle.ice_checks.specs.Judging.{code_of, event_of};
ghost use Rattle.ice_agent_state.specs.Outputs.{data_by, data_of};
ghost use Rattle.ice_agent.specs.Lite as lite;
ghost use Rattle.ice_agent.specs.Lite.{event_at, output_at, passes};
ghost use Rattle.ice_agent.specs.Receiving.{ReceivesWith};

use crate::credentials::AgentCredentials;
use crate::receiving::{Received, response_to};
use ice_agent_state::Route;
use ice_checks::{Judged, Refusal, Session, judge};
use ice_lite::{LiteBase, LiteState};
use ice_machine::{Check, Request};
use std::alloc::{AllocError, Global};
use std::marker::Model;
use stun_endpoints::Endpoint;
use stun_types::message::{IntegrityAlgorithm, StunWriteError};

/// A lite ICE agent without sockets and without a clock (RFC 8445, section 2.5): for a server with a public
/// address, whose peers are full agents.
///
/// It answers the peer's checks, and sends no request, so it has no timers. A check with USE-CANDIDATE selects its
/// pair for the component; the latest one counts. It is always controlled: a check with ICE-CONTROLLED gets 487
/// (Role Conflict). It needs no credentials of the peer.
///
/// Moments are nanoseconds from a beginning of the caller's choice. A moment before the latest one counts as that
/// one. [`LiteAgent::new`] takes all memory; no other call allocates.
///
/// A restart (section 9) is a second agent with new credentials. If both agents are lite, no check is ever sent
/// (section 6.1.1): this one then selects no pair.
///
/// # Examples
///
/// ```
/// use ice_agent::{AgentCredentials, LiteAgent, LiteBase, Received};
/// use ice_attrs::Ufrag;
/// use ice_checks::{Credentials, write_check};
/// use ice_machine::{Request, Role};
/// use stun_endpoints::{Endpoint, Ip};
/// use stun_types::message::{IntegrityKey, MessageWriteVec};
/// use stun_types::prelude::*;
///
/// let fragment = Ufrag::new("evtj").ok_or("no fragment")?;
/// let password = "VOkJxbRl1RmTxUk/WvJxBt";
/// let own = AgentCredentials::new(alloc, fragment, password)?.ok_or("no password")?;
/// let mut agent = LiteAgent::new(alloc, own, &[LiteBase { number: 1, component: 1 }])?;
/// // The peer nominates the pair.
/// let peer = Endpoint { ip: Ip { family: 1, number: 0xC000_0202 }, port: 7 };
/// let request = Request {
///     id: 7,
///     base: 1,
///     to: peer,
///     role: Role::Controlling,
///     tiebreaker: 5,
///     nominates: true,
///     priority: 1_862_270_975,
///     sent: 0,
/// };
/// let key = IntegrityKey::new(alloc, password.as_bytes(), None)?;
/// let mut check = MessageWriteVec::new(alloc);
/// let peer_fragment = Ufrag::new("h6vY").ok_or("no fragment")?;
/// write_check(&request, peer_fragment, &Credentials { fragment, key: &key }, None, &mut check)?;
/// let check = check.finish();
/// let mut response = [0; 100];
/// let answer = agent.on_datagram(alloc, 0, 1, peer, &check, &mut response)?;
/// assert!(rt; matches!(answer, Received::Response(_)));
/// // Data goes there for 30 seconds, and further after each further check.
/// assert!(rt; agent.route(29_999_999_999, 1).is_some_and(|route| route.to == peer));
/// assert!(rt; agent.route(30_000_000_000, 1).is_none());
/// ```
#[derive(Drop)]
pub struct LiteAgent {
    state: LiteState,
    own: AgentCredentials,
}

impl Model for LiteAgent {
    ghost use Rattle.ice_agent.specs.Lite.{LiteAgent};

    ghost Value = { LiteAgent };

    ghost view = { λ a. record { state = a.state; own = a.own } };
}

impl LiteAgent {
    /// Makes an agent that receives at these bases, its host candidates (RFC 8445, section 5.2), with its clock at 0.
    ///
    /// # Errors
    ///
    /// Only if an allocation of memory failed.
    pub fn new(alloc: Global, own: AgentCredentials, bases: &[LiteBase]) -> Result<Self, AllocError>
        ensures { IfOk result (λ agent. agent ≡ lite.begun own bases.now) }
    {
        let state = LiteState::new(alloc, bases)?;
        Ok(LiteAgent { state, own })
    }

    /// What a datagram is.
    fn judged(&self, base: u32, from: Endpoint, datagram: &[u8]) -> Judged
        ensures { result ≡ lite.judged self.now base from datagram.now }
    {
        let none: &[Request] = &[];
        let session = Session {
            own: self.own.lend(),
            peer: None,
        };
        judge(&session, &none, base, from, datagram)
    }

    /// Takes a check, and writes the response.
    fn take_check(
        &mut self,
        alloc: Global,
        now: u64,
        check: &Check,
        algorithm: IntegrityAlgorithm,
        out: &mut [u8],
    ) -> Result<Received<'static>, StunWriteError>
        ensures state { self.new ≡ passes now (checks check.now) self.old }
        ensures reply { (d : List ℕ) → ReceivesWith self.old.own d (Checks check.now algorithm)
            (output_at now (checks check.now) self.old) out.old out.new result }
    {
        match self.state.check(now, check) {
            Some(answer) => {
                let response = response_to(check.from, answer);
                self.own
                    .reply(alloc, check.id, &response, Some(algorithm), out)
            }
            None => Ok(Received::Nothing),
        }
    }

    /// Takes a request that isn't a check, and writes the error response.
    fn refuse(
        &mut self,
        alloc: Global,
        now: u64,
        id: u128,
        datagram: &[u8],
        refusal: Refusal,
        signed_by: Option<IntegrityAlgorithm>,
        out: &mut [u8],
    ) -> Result<Received<'static>, StunWriteError>
        ensures state { (base : ℕ) (from : endpoints.Endpoint) → let code = Some (code_of refusal) in
            self.new ≡ passes now (strays base from id (length datagram.now) code) self.old }
        ensures reply { (base : ℕ) (from : endpoints.Endpoint) → let code = Some (code_of refusal) in
            ReceivesWith self.old.own datagram.now (Refused id refusal signed_by)
            (output_at now (strays base from id (length datagram.now) code) self.old)
            out.old out.new result }
    {
        match self.state.refuse(now, datagram.len(), Some(refusal.code())) {
            Some(_) => self
                .own
                .reply(alloc, id, &refusal.response(datagram), signed_by, out),
            None => Ok(Received::Nothing),
        }
    }

    /// A datagram that is no message of the session has arrived. Returns the component whose data it is.
    fn arrive(&mut self, now: u64, base: u32, from: Endpoint) -> Option<u16>
        ensures state { (bytes : List ℕ) → self.new ≡ passes now (arrives base from bytes) self.old }
        ensures data { (bytes : List ℕ) → output_at now (arrives base from bytes) self.old
            ≡ data_of bytes result }
    {
        self.state.receive(now, base, from)
    }

    /// Lets time pass.
    fn stray(&mut self, now: u64, size: usize)
        ensures { (base id : ℕ) (from : endpoints.Endpoint)
            → self.new ≡ passes now (strays base from id size None) self.old }
    {
        self.state.refuse(now, size, None);
    }

    /// Takes a datagram that has arrived at a base, from an address, as [`Agent::on_datagram`](crate::Agent) does:
    /// the datagram is neither copied nor changed. [`judge`] says what it is, of a session whose peer is unknown.
    ///
    /// - A check of the peer is answered (RFC 8445, section 7.3), and so is a Binding request that isn't one, by
    ///   an error response of at most three times its length: [`Received::Response`]. Make room for it in `out`:
    ///   a success response to a check that is signed with SHA-1 has at most 88 bytes, and a 420 has 84, and four
    ///   for each two types that it lists. With SHA-256 each has twelve more.
    /// - Anything else that is no STUN message with a FINGERPRINT is the peer's data, if it came on the selected
    ///   pair, and the latest accepted check on that less than 30 seconds ago: [`Received::Data`].
    ///
    /// No memory is taken from `alloc`.
    ///
    /// # Errors
    ///
    /// `TooSmall { expected, actual }` if `out` has no room for the response: its length, and that of `out`, which
    /// stays as it was. The datagram counts as received, and the response as lost. `TooLarge` instead if a 420
    /// would list more types than a message has room for, which no datagram of UDP shows.
    pub fn on_datagram<'d>(
        &mut self,
        alloc: Global,
        now: u64,
        base: u32,
        from: Endpoint,
        datagram: &'d [u8],
        out: &mut [u8],
    ) -> Result<Received<'d>, StunWriteError>
        ensures state { self.new ≡ passes now (event_at self.old base from datagram.now) self.old }
        ensures result { ReceivesWith self.old.own datagram.now (lite.judged self.old base from datagram.now)
            (output_at now (event_at self.old base from datagram.now) self.old) out.old out.new result }
    {
        let judged = self.judged(base, from, datagram);
        self.take_judged(alloc, now, base, from, datagram, &judged, out)
    }

    /// Takes a datagram, by what it is.
    fn take_judged<'d>(
        &mut self,
        alloc: Global,
        now: u64,
        base: u32,
        from: Endpoint,
        datagram: &'d [u8],
        judged: &Judged,
        out: &mut [u8],
    ) -> Result<Received<'d>, StunWriteError>
        ensures state { self.new ≡ passes now (event_of base from datagram.now judged.now) self.old }
        ensures result { ReceivesWith self.old.own datagram.now judged.now
            (output_at now (event_of base from datagram.now judged.now) self.old) out.old out.new result }
    {
        match judged {
            Judged::Arrives => match self.arrive(now, base, from) {
                Some(component) => Ok(Received::Data(component, datagram)),
                None => Ok(Received::Nothing),
            },
            Judged::Refused {
                id,
                refusal,
                signed_by,
            } => self.refuse(alloc, now, *id, datagram, *refusal, *signed_by, out),
            Judged::Checks { check, algorithm } => {
                self.take_check(alloc, now, check, *algorithm, out)
            }
            Judged::Strays { .. } => {
                self.stray(now, datagram.len());
                Ok(Received::Nothing)
            }
            // (no response is waited for)
            Judged::Responds { .. } => {
                self.stray(now, datagram.len());
                Ok(Received::Nothing)
            }
        }
    }

    /// Returns the route of a component's data now: that of its selected pair, if the latest accepted check on it
    /// came less than 30 seconds ago. If it is `None`, data must not be sent.
    pub fn route(&mut self, now: u64, component: u16) -> Option<Route>
        ensures state { (bytes : List ℕ) → self.new ≡ passes now (sends component bytes) self.old }
        ensures data { (bytes : List ℕ)
            → output_at now (sends component bytes) self.old ≡ data_by bytes result }
    {
        let (base, to) = self.state.route(now, component)?;
        Some(Route { base, to })
    }
}
