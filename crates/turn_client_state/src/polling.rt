//! Requests.

ghost use Rattle.std.specs.Prelude.{◌≡◌, ◌≤◌};
ghost use Rattle.turn_client_machine.specs.Events.{polls};
ghost use Rattle.turn_client_machine.specs.Steps as steps;
ghost use Rattle.turn_client_state.specs.States.{setup_of, after, output_at, asked_with, asking_with};

use crate::changes::{Change, request_of};
use crate::client::ClientState;
use crate::lookups::Sought;
use crate::phases::{is_active, is_allocated, kind_in, silent_in};
use crate::settings::Settings;
use crate::tasks::{is_due, is_expired, turn_request, turned};
use arrayvec::ArrayVec;
use stun_endpoints::Endpoint;
use turn_client_machine::Request;

/// A request to send.
#[derive(Debug, Drop)]
pub struct Asking {
    /// The request.
    pub request: Request,
    /// The further peers whose permission it asks for, if it is a CreatePermission request (RFC 8656,
    /// section 10.1).
    pub others: ArrayVec<Endpoint, 15>,
}

fn with_others(request: Option<Request>, others: ArrayVec<Endpoint, 15>) -> Option<Asking>
    ensures { asking_with result ≡ asked_with request others.items }
{
    match request {
        Some(request) => Some(Asking { request, others }),
        None => None,
    }
}

/// The most further peers that a request names.
fn most_others(settings: &Settings, along: bool) -> usize
    ensures value { result ≡ steps.most_others (setup_of settings.now) along }
    ensures bound { result ≤ 15 }
{
    if along {
        (settings.most_named.min(16) as usize).saturating_sub(1)
    } else {
        0
    }
}

impl ClientState {
    /// The turn of the allocation's own task.
    fn turn(&mut self, fresh: u128) -> Option<Asking>
        ensures state { self.new ≡ record self.old {
          state = (steps.turns (setup_of self.old.settings) fresh self.old.state).state;
        } }
        ensures request { (steps.turns (setup_of self.old.settings) fresh self.old.state).output
            ≡ asking_with result }
    {
        if is_expired(self.clock, &self.task) {
            self.end(silent_in(self.violated, self.phase));
            return None;
        }
        let kind = kind_in(self.phase);
        let (clock, challenge) = (self.clock, self.challenge);
        let request = turn_request(&self.settings, clock, fresh, kind, challenge, &self.task);
        self.task = turned(&self.settings, clock, fresh, kind, challenge, &self.task);
        with_others(request, ArrayVec::new())
    }

    /// The turn of a peer, and of those that its request takes along.
    fn turn_next(&mut self, fresh: u128, free: bool, along: bool) -> ArrayVec<Endpoint, 15>
        ensures state { self.new ≡ record self.old {
          state = record self.old.state {
            peers = steps.joined (setup_of self.old.settings) self.old.state.clock fresh
                self.old.state.challenge (steps.most_others (setup_of self.old.settings) along)
                (steps.turned_first (setup_of self.old.settings) fresh free along self.old.state);
          };
        } }
        ensures others { result.items
            ≡ steps.others_at (setup_of self.old.settings) fresh free along self.old.state }
    {
        let settings = self.settings;
        let (clock, challenge) = (self.clock, self.challenge);
        let turn = Change::Turn(along, settings, clock, fresh, challenge);
        self.peers.change(&Sought::Next(free, clock), &turn);
        let most = most_others(&settings, along);
        self.peers
            .join_all(&settings, clock, fresh, challenge, most)
    }

    /// The turn of a peer, if something is to be done for one.
    fn turn_peer(&mut self, fresh: u128) -> Option<Asking>
        ensures state { self.new ≡ record self.old {
          state = (steps.peers_polled (setup_of self.old.settings) fresh (steps.is_free self.old.state.peers)
              self.old.state).state;
        } }
        ensures request { (steps.peers_polled (setup_of self.old.settings) fresh
            (steps.is_free self.old.state.peers) self.old.state).output ≡ asking_with result }
    {
        let (clock, challenge) = (self.clock, self.challenge);
        let free = self.peers.is_free();
        let (request, along) = match self.peers.find(&Sought::Next(free, clock)) {
            Some(peer) => (
                request_of(&self.settings, clock, fresh, challenge, peer),
                self.peers.takes_along(&self.settings, clock, peer),
            ),
            None => return None,
        };
        let others = self.turn_next(fresh, free, along);
        with_others(request, others)
    }

    /// Returns the request to send now, if there is one. `fresh` is its transaction ID if it is a
    /// new one: a random number of 96 bits that no other call has.
    ///
    /// One call does one thing, which may be to give up a peer, or the allocation, and to return
    /// `None`. Call it until [`ClientState::next_wake`] is later than `now`.
    pub fn poll(&mut self, now: u64, fresh: u128) -> Option<Asking>
        ensures state { self.new ≡ after now fresh polls self.old }
        ensures request { output_at now fresh polls self.old ≡ asking_with result }
    {
        self.advance(now);
        if is_active(self.phase) && is_due(self.clock, &self.task) {
            return self.turn(fresh);
        }
        if is_allocated(self.phase) {
            return self.turn_peer(fresh);
        }
        None
    }
}
