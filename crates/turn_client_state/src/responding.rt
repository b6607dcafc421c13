//! Responses of the server (RFC 8656, sections 7.3, 7.4, 8.3, 10.3 and 12.3).

ghost use Rattle.std.specs.Prelude.{◌≡◌, if◌then◌else◌};
ghost use Rattle.turn_client_machine.specs.declared.requests.Answer.TheVariants.{Challenged};
ghost use Rattle.turn_client_machine.specs.Events.{responds};
ghost use Rattle.turn_client_machine.specs.Responses as responses;
ghost use Rattle.turn_client_state.specs.Lookups.{changed_by};
ghost use Rattle.turn_client_state.specs.States.{setup_of, after};

use crate::changes::Change;
use crate::client::ClientState;
use crate::lookups::Sought;
use crate::phases::{is_active, is_allocate, is_allocated, is_delete, reason_in};
use crate::tasks::{again_task, awaits, end_of, kept_task, may_retry};
use stun_endpoints::Endpoint;
use turn_client_machine::{Answer, End, Kind, Phase, Request};

/// Whether a lifetime in seconds can be kept up.
fn is_long(lifetime: u32) -> bool
    ensures { result ≡ responses.is_long lifetime }
{
    lifetime >= 80
}

impl ClientState {
    /// The server has allocated a relayed address.
    fn open(&mut self, request: &Request, relayed: Endpoint, mapped: Endpoint, lifetime: u32)
        ensures { self.new ≡ record self.old {
          state = responses.if_useful (responses.is_useful (setup_of self.old.settings) relayed lifetime)
              (responses.opened request.now relayed mapped lifetime self.old.state)
              self.old.state;
        } }
    {
        if !is_long(lifetime) || relayed.ip.family != self.settings.family {
            self.delete(End::Useless);
            return;
        }
        self.phase = Phase::Allocated;
        self.relayed = relayed;
        self.mapped = mapped;
        self.expires_at = end_of(request.since, lifetime);
        self.task = kept_task(request.since, lifetime);
        self.violated = false;
        self.peers.reopen_all(self.clock);
    }

    /// The server has refreshed the allocation, or deleted it.
    fn extend(&mut self, request: &Request, lifetime: u32)
        ensures { self.new ≡ record self.old {
          state = responses.extended_by request.now.kind request.now lifetime self.old.state;
        } }
    {
        match request.kind {
            Kind::Refresh => {
                if !is_long(lifetime) {
                    self.delete(End::Useless);
                    return;
                }
                self.expires_at = end_of(request.since, lifetime);
                self.task = kept_task(request.since, lifetime);
                self.violated = false;
            }
            Kind::Delete => self.end(reason_in(self.phase)),
            Kind::Allocate | Kind::Permit(_) | Kind::Bind { .. } => {}
        }
    }

    /// The server has challenged the request.
    fn take_challenge(&mut self, code: u16, challenge: u64, authentic: bool, request: &Request)
        ensures { self.new ≡ record self.old {
          state = responses.answered (setup_of self.old.settings) authentic (Challenged code challenge)
              self.old.state request.now;
        } }
    {
        if !may_retry(&self.settings, self.challenge, code, &self.task) {
            self.end(End::Rejected(code));
            return;
        }
        self.challenge = Some(challenge);
        self.task = again_task(self.clock, &self.task);
        self.violated = false;
    }

    /// The request to delete the allocation has failed, or another one, for this reason.
    fn fail(&mut self, request: &Request, why: End)
        ensures { self.new ≡ record self.old {
          state = responses.ends (if responses.is_delete request.now.kind
              then responses.reason_in self.old.state.phase else why) self.old.state;
        } }
    {
        if is_delete(request.kind) {
            self.end(reason_in(self.phase));
        } else {
            self.end(why);
        }
    }

    /// The response to the request for the allocation itself.
    fn take_answer(&mut self, authentic: bool, answer: Answer, request: &Request)
        ensures { self.new ≡ record self.old {
          state = responses.answered (setup_of self.old.settings) authentic answer self.old.state request.now;
        } }
    {
        match answer {
            Answer::Opened {
                relayed,
                mapped,
                lifetime,
            } => {
                if authentic && is_allocate(request.kind) {
                    self.open(request, relayed, mapped, lifetime);
                }
            }
            Answer::Extended { lifetime } => {
                if authentic {
                    self.extend(request, lifetime);
                }
            }
            Answer::Done => {}
            Answer::Refused(code) => {
                if authentic {
                    self.fail(request, End::Rejected(code));
                }
            }
            Answer::Challenged { code, challenge } => {
                self.take_challenge(code, challenge, authentic, request);
            }
            Answer::Redirected(server) => {
                if authentic && is_allocate(request.kind) {
                    self.end(End::Moved(server));
                }
            }
            Answer::Violated => {
                if self.settings.is_reliable {
                    self.fail(request, End::IntegrityViolated);
                } else {
                    self.violated = true;
                }
            }
        }
    }

    /// Changes each peer whose request under way has this transaction ID.
    fn change_peers(&mut self, id: u128, by: &Change)
        ensures { self.new ≡ record self.old {
          state = responses.with_peers id (changed_by by.now) self.old.state;
        } }
    {
        self.peers.change_all(&Sought::Awaiting(id), by);
    }

    /// The response to a request for peers.
    fn take_peer_answer(&mut self, id: u128, authentic: bool, answer: Answer)
        ensures { self.new ≡ record self.old {
          state = responses.answered_peer (setup_of self.old.settings) id authentic answer self.old.state;
        } }
    {
        match answer {
            Answer::Opened { .. } | Answer::Extended { .. } | Answer::Redirected(_) => {}
            Answer::Done => {
                if authentic {
                    self.change_peers(id, &Change::Grant);
                }
            }
            Answer::Refused(code) => {
                if authentic && code == 437 {
                    self.end(End::Rejected(437));
                } else if authentic {
                    let by = Change::TurnDown(self.clock, code);
                    self.change_peers(id, &by);
                }
            }
            Answer::Challenged { code, challenge } => {
                let by = Change::Challenge(self.settings, self.challenge, self.clock, code);
                self.challenge = Some(challenge);
                self.change_peers(id, &by);
            }
            Answer::Violated => {
                let by = Change::Violate(self.settings);
                self.change_peers(id, &by);
            }
        }
    }

    /// The response to a request, by its transaction ID.
    fn take_any_answer(&mut self, id: u128, authentic: bool, answer: Answer)
        ensures { self.new ≡ record self.old {
          state = responses.answered_any (setup_of self.old.settings) id authentic answer self.old.state;
        } }
    {
        if let Some(pending) = self.task.pending {
            if pending.request.id == id {
                self.take_answer(authentic, answer, &pending.request);
                return;
            }
        }
        if is_allocated(self.phase) && self.peers.any(&Sought::Awaiting(id)) {
            self.take_peer_answer(id, authentic, answer);
        }
    }

    /// A response has arrived from an address: one of the method of the request that
    /// [`ClientState::pending`] returns for its transaction ID.
    ///
    /// `authentic` says whether its integrity is right under the client's key. An answer that isn't
    /// authentic counts only if it is [`Answer::Challenged`], which servers send unsigned, or
    /// [`Answer::Violated`].
    pub fn on_response(
        &mut self,
        now: u64,
        from: Endpoint,
        id: u128,
        authentic: bool,
        answer: Answer,
    )
        ensures { self.new ≡ after now 0 (responds from id authentic answer) self.old }
    {
        self.advance(now);
        if from == self.settings.server && is_active(self.phase) {
            self.take_any_answer(id, authentic, answer);
        }
    }
}
