//! The client.

ghost use Rattle.std.specs.Prelude.{◌≡◌, IfOk, reverse};
ghost use Rattle.stun_endpoints.specs.declared.endpoints.Endpoint.{Endpoint};
ghost use Rattle.turn_client_machine.specs.Events.{allocates, closes, strays};
ghost use Rattle.turn_client_machine.specs.Responses as responses;
ghost use Rattle.turn_client_machine.specs.Runs.{begun};
ghost use Rattle.turn_client_machine.specs.Steps.{at};
ghost use Rattle.turn_client_state.specs.States as states;
ghost use Rattle.turn_client_state.specs.States.{setup_of, after, status_of, request_with};

use crate::lookups::Sought;
use crate::peers::Peers;
use crate::phases::{is_active, is_allocated};
use crate::settings::Settings;
use crate::tasks::{awaits, begun_task};
use std::alloc::{AllocError, Global};
use std::marker::Model;
use stun_endpoints::Endpoint;
use turn_client_machine::{End, Peer, Pending, Phase, Request, Task};

/// The state of a TURN client: one allocation at one server, on one 5-tuple (RFC 8656, section 2).
///
/// Moments are nanoseconds from a beginning of the caller's choice. A moment before the latest one
/// counts as that one.
///
/// [`ClientState::new`] takes all memory; no other call allocates.
///
/// ```
/// use stun_endpoints::{Endpoint, Ip};
/// use turn_client_machine::{Answer, Kind, Phase};
/// use turn_client_state::{ClientState, Settings, Way};
///
/// let address = |number: u128| Endpoint { ip: Ip { family: 1, number }, port: 3478 };
/// let server = address(0xC000_0201);
/// let peer = address(0xC633_6401);
/// let mut client = ClientState::new(alloc, Settings::over_udp(server, 1))?;
/// client.allocate(0);
/// assert_eq!(rt; client.permit(0, peer), Ok(()));
///
/// // The server grants the allocation for 600 seconds; 1 is a random transaction ID.
/// assert!(rt; matches!(&client.poll(0, 1), Some(asking) if asking.request.kind == Kind::Allocate));
/// let opened = Answer::Opened { relayed: server, mapped: address(0xCB00_7101), lifetime: 600 };
/// client.on_response(1, server, 1, true, opened);
/// assert_eq!(rt; client.status().phase, Phase::Allocated);
///
/// // Data goes to the peer once its permission is granted.
/// assert_eq!(rt; client.send(2, peer), None);
/// assert!(rt; matches!(&client.poll(2, 2), Some(asking) if asking.request.kind == Kind::Permit(peer)));
/// client.on_response(3, server, 2, true, Answer::Done);
/// assert_eq!(rt; client.send(4, peer), Some(Way::Indication));
/// // The permission is renewed after four minutes.
/// assert_eq!(rt; client.next_wake(), Some(240_000_000_002));
/// ```
#[derive(Drop)]
pub struct ClientState {
    pub(crate) settings: Settings,
    pub(crate) clock: u64,
    pub(crate) phase: Phase,
    /// The challenge of the server that came last.
    pub(crate) challenge: Option<u64>,
    /// The task of the allocation itself.
    pub(crate) task: Task,
    /// Whether a response to its request under way had a wrong integrity.
    pub(crate) violated: bool,
    pub(crate) relayed: Endpoint,
    pub(crate) mapped: Endpoint,
    pub(crate) expires_at: u128,
    pub(crate) peers: Peers,
}

impl Model for ClientState {
    ghost use Rattle.std.specs.Prelude.{◌≡◌, min};
    ghost use Rattle.turn_client_state.specs.States.{Held};

    ghost Value = { Held };

    ghost view = { λ c. record {
      settings = c.settings;
      state = record {
        clock = c.clock;
        phase = c.phase;
        challenge = c.challenge;
        task = c.task;
        violated = c.violated;
        relayed = c.relayed;
        mapped = c.mapped;
        expires_at = c.expires_at;
        peers = c.peers.list;
      };
    } };

    ghost invariant = { λ c. record {
      most : c.peers.most ≡ min c.settings.most_peers 4096;
    } };
}

/// What a client has.
#[derive(Clone, Copy, Debug, PartialEq, Eq)]
pub struct Status {
    /// Its phase, and why it ended.
    pub phase: Phase,
    /// The relayed address, once it has been allocated; the server's address before.
    pub relayed: Endpoint,
    /// The client's address as the server sees it, once it has been allocated; the server's address
    /// before.
    pub mapped: Endpoint,
    /// When the allocation expires at the earliest, in nanoseconds of the caller's clock, once it
    /// has been allocated; 0 before.
    pub expires_at: u128,
}

fn request_in(pending: &Option<Pending>) -> Option<Request>
    ensures { result ≡ states.request_in pending.now }
{
    match pending {
        Some(pending) => Some(pending.request),
        None => None,
    }
}

impl ClientState {
    /// Makes a client that hasn't asked for anything, with its clock at 0.
    ///
    /// # Errors
    ///
    /// Only if an allocation of memory failed.
    pub fn new(alloc: Global, settings: Settings) -> Result<Self, AllocError>
        ensures { IfOk result (λ client. client ≡ record {
          settings = settings;
          state = begun (setup_of settings);
        }) }
    {
        let peers = Peers::new(alloc, (settings.most_peers as usize).min(4096))?;
        Ok(ClientState {
            settings,
            clock: 0,
            phase: Phase::Quiet,
            challenge: None,
            task: begun_task(0),
            violated: false,
            relayed: settings.server,
            mapped: settings.server,
            expires_at: 0,
            peers,
        })
    }

    /// Lets time pass until a moment.
    pub(crate) fn advance(&mut self, now: u64)
        ensures { self.new ≡ record self.old { state = at now self.old.state } }
    {
        self.clock = self.clock.max(now);
    }

    /// The client ends, for this reason.
    pub(crate) fn end(&mut self, why: End)
        ensures { self.new ≡ record self.old { state = responses.ends why self.old.state } }
    {
        self.phase = Phase::Ended(why);
    }

    /// The client deletes its allocation, and then ends for this reason.
    pub(crate) fn delete(&mut self, why: End)
        ensures { self.new ≡ record self.old { state = responses.deletes why self.old.state } }
    {
        self.phase = Phase::Closing(why);
        self.task = begun_task(self.clock);
        self.violated = false;
    }

    /// Asks for an allocation (RFC 8656, section 7.1), unless that was done before. The next polls
    /// send the requests.
    pub fn allocate(&mut self, now: u64)
        ensures { self.new ≡ after now 0 allocates self.old }
    {
        self.advance(now);
        match self.phase {
            Phase::Quiet => {
                self.phase = Phase::Asking;
                self.task = begun_task(self.clock);
                self.violated = false;
            }
            Phase::Asking | Phase::Allocated | Phase::Closing(_) | Phase::Ended(_) => {}
        }
    }

    /// Ends the client. If the server may have an allocation of it, that is deleted first, by a
    /// Refresh request with a lifetime of 0, which the next polls send (RFC 8656, section 8.1).
    pub fn close(&mut self, now: u64)
        ensures { self.new ≡ after now 0 closes self.old }
    {
        self.advance(now);
        match self.phase {
            Phase::Quiet => self.end(End::Closed),
            Phase::Asking => {
                if self.challenge.is_some() {
                    self.delete(End::Closed);
                } else {
                    self.end(End::Closed);
                }
            }
            Phase::Allocated => self.delete(End::Closed),
            Phase::Closing(_) | Phase::Ended(_) => {}
        }
    }

    /// Some other datagram has arrived, from any address: nothing changes but the clock.
    pub fn on_other(&mut self, now: u64)
        ensures { (from : Endpoint) → self.new ≡ after now 0 (strays from) self.old }
    {
        self.advance(now);
    }

    /// Returns the phase, the addresses and the end of the allocation.
    pub fn status(&self) -> Status
        ensures { result ≡ status_of self.now.state }
    {
        Status {
            phase: self.phase,
            relayed: self.relayed,
            mapped: self.mapped,
            expires_at: self.expires_at,
        }
    }

    /// Borrows the peers that the user has named, and those dropped whose place none has taken. A
    /// peer's place is its channel number less 0x4000.
    pub fn peers(&self) -> &[Peer]
        ensures { reverse result.now ≡ self.now.state.peers }
    {
        self.peers.as_slice()
    }

    /// Returns the request under way with this transaction ID, to which a response is waited for.
    pub fn pending(&self, id: u128) -> Option<Request>
        ensures { result ≡ request_with id self.now.state }
    {
        if is_active(self.phase) && awaits(id, &self.task) {
            return request_in(&self.task.pending);
        }
        if !is_allocated(self.phase) {
            return None;
        }
        match self.peers.find(&Sought::Awaiting(id)) {
            Some(peer) => request_in(&peer.task.pending),
            None => None,
        }
    }
}
