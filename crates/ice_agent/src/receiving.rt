//! What comes to the bases of an agent.

ghost use Rattle.std.specs.Prelude.{◌≡◌, ℕ, ◌%◌, ◌^◌, List, length, None, Some};
ghost use Rattle.std.specs.Option.{option_map};
ghost use Rattle.stun_endpoints.specs.declared.endpoints.Endpoint as endpoints;
ghost use Rattle.ice_machine.specs.Events.{arrives, checks, responds, strays};
ghost use Rattle.ice_agent_state.specs.Agents.{output_at};
ghost use Rattle.ice_agent_state.specs.Outputs.{answered_with, data_of, refused_with};
ghost use Rattle.ice_checks.specs.Judging.{code_of, event_of};
ghost use Rattle.ice_checks.specs.Views.{logins_of, response_of, signing_of};
ghost use Rattle.ice_checks.specs.Checks.{signature_refusal};
ghost use Rattle.stun_keys.specs.Keys.{key_algorithm};
ghost use Rattle.ice_checks.specs.declared.judged.Judged.TheVariants.{Checks, Refused, Responds};
ghost use Rattle.ice_agent.specs.Agents.{passes};
ghost use Rattle.ice_agent.specs.Receiving as receiving;
ghost use Rattle.ice_agent.specs.Receiving.{IsReplied, Receives, event_at, received, reply_to, received_as, check_response, signing_by, signing_with};

use crate::agent::Agent;
use crate::credentials::AgentCredentials;
use crate::writing::write_response;
use ice_checks::{CheckResponse, Credentials, Judged, Refusal, Session, Signature, judge};
use ice_machine::{Answer, Check};
use std::alloc::Global;
use stun_endpoints::Endpoint;
use stun_types::message::{IntegrityAlgorithm, StunWriteError, TransactionId};

/// What comes of a datagram.
#[derive(Clone, Copy, Debug, PartialEq, Eq)]
pub enum Received<'d> {
    /// Nothing is to be done.
    Nothing,
    /// A response of this length, at the start of the buffer: send it from the base that the datagram arrived at
    /// to the address that it came from.
    Response(usize),
    /// The peer's data, of this component: the datagram.
    Data(u16, &'d [u8]),
}

/// The response to a check.
pub(crate) fn response_to(from: Endpoint, answer: Answer) -> CheckResponse<'static>
    ensures { response_of result ≡ check_response from answer }
{
    match answer {
        Answer::Accepted => CheckResponse::Success { source: from },
        Answer::Refused(_) => CheckResponse::RoleConflict,
    }
}

/// What a response is signed by, with the key of an agent.
fn signature_by<'a>(
    own: &Credentials<'a>,
    signed_by: Option<IntegrityAlgorithm>,
) -> Option<Signature<'a>>
    requires { key_algorithm own.now.key.now ≡ None }
    ensures signing { option_map signing_of result
        ≡ option_map (λ a. record { key = own.now.key.now; algorithm = a }) signed_by }
    ensures serves { signature_refusal (option_map signing_of result) ≡ None }
{
    match signed_by {
        Some(algorithm) => Some(Signature {
            key: own.key,
            algorithm,
        }),
        None => None,
    }
}

impl AgentCredentials {
    /// Writes a response, signed by this key, at the start of a slice.
    pub(crate) fn reply(
        &self,
        alloc: Global,
        id: u128,
        response: &CheckResponse<'_>,
        signed_by: Option<IntegrityAlgorithm>,
        out: &mut [u8],
    ) -> Result<Received<'static>, StunWriteError>
        ensures { IsReplied (Some (record {
          id = id % 2 ^ 96;
          response = response_of response.now;
          signing = option_map (signing_with self.now) signed_by;
        })) out.old out.new result }
    {
        let signature = signature_by(&self.lend(), signed_by);
        let id = TransactionId::from(id);
        let length = write_response(alloc, id, response, signature, out)?;
        Ok(Received::Response(length))
    }
}

impl Agent {
    /// The credentials of both sides.
    fn session(&self) -> Session<'_>
        ensures { logins_of result ≡ self.now.logins }
    {
        Session {
            own: self.own.lend(),
            peer: match &self.peer {
                Some(peer) => Some(peer.lend()),
                None => None,
            },
        }
    }

    /// What a datagram is.
    pub(crate) fn judged(&self, base: u32, from: Endpoint, datagram: &[u8]) -> Judged
        ensures { result ≡ receiving.judged self.now base from datagram.now }
    {
        let requests = self.state.requests();
        judge(&self.session(), &requests, base, from, datagram)
    }

    /// Writes a response, signed by this agent's key, at the start of a slice.
    fn reply(
        &self,
        alloc: Global,
        id: u128,
        response: &CheckResponse<'_>,
        signed_by: Option<IntegrityAlgorithm>,
        out: &mut [u8],
    ) -> Result<Received<'static>, StunWriteError>
        ensures { IsReplied (Some (record {
          id = id % 2 ^ 96;
          response = response_of response.now;
          signing = option_map (signing_by self.now) signed_by;
        })) out.old out.new result }
    {
        self.own.reply(alloc, id, response, signed_by, out)
    }

    /// A datagram that is no message of the session has arrived. Returns the component whose data it is.
    pub(crate) fn arrive(&mut self, now: u64, base: u32, from: Endpoint) -> Option<u16>
        ensures state { (bytes : List ℕ) → self.new ≡ passes now 0 (arrives base from bytes) self.old }
        ensures data { (bytes : List ℕ)
            → output_at now 0 (arrives base from bytes) self.old.held ≡ data_of bytes result }
    {
        self.state.receive(now, base, from)
    }

    /// A message that isn't authentic has arrived. Returns the error response that it gets.
    fn stray(&mut self, now: u64, size: usize, code: Option<u16>) -> Option<Answer>
        ensures state { (base id : ℕ) (from : endpoints.Endpoint)
            → self.new ≡ passes now 0 (strays base from id size code) self.old }
        ensures answer { (base id : ℕ) (from : endpoints.Endpoint)
            → output_at now 0 (strays base from id size code) self.old.held
            ≡ refused_with base from id result }
    {
        self.state.refuse(now, size, code)
    }

    /// A check has arrived. Returns what the response says.
    fn answer(&mut self, now: u64, check: &Check) -> Option<Answer>
        ensures state { self.new ≡ passes now 0 (checks check.now) self.old }
        ensures answer { output_at now 0 (checks check.now) self.old.held
            ≡ answered_with check.now result }
    {
        self.state.check(now, check)
    }

    /// A response has arrived.
    fn respond(
        &mut self,
        now: u64,
        random: u64,
        base: u32,
        from: Endpoint,
        id: u128,
        answer: Answer,
        mapped: Option<Endpoint>,
    )
        ensures { (d : List ℕ) → self.new
            ≡ received_as (Responds id answer mapped) now random base from d self.old }
    {
        let counts = self.state.respond(now, random, base, from, id, answer);
        if let Some(mapped) = mapped {
            if counts {
                self.changes.add_mapped(base, mapped);
            }
        }
    }

    /// Takes a check, and writes the response.
    fn take_check(
        &mut self,
        alloc: Global,
        now: u64,
        check: &Check,
        algorithm: IntegrityAlgorithm,
        out: &mut [u8],
    ) -> Result<Received<'static>, StunWriteError>
        ensures state { self.new ≡ passes now 0 (checks check.now) self.old }
        ensures reply { (d : List ℕ) → Receives self.old d (Checks check.now algorithm)
            (output_at now 0 (checks check.now) self.old.held) out.old out.new result }
    {
        match self.answer(now, check) {
            Some(answer) => {
                let response = response_to(check.from, answer);
                self.reply(alloc, check.id, &response, Some(algorithm), out)
            }
            None => Ok(Received::Nothing),
        }
    }

    /// Takes a request that isn't a check, and writes the error response.
    fn refuse(
        &mut self,
        alloc: Global,
        now: u64,
        id: u128,
        datagram: &[u8],
        refusal: Refusal,
        signed_by: Option<IntegrityAlgorithm>,
        out: &mut [u8],
    ) -> Result<Received<'static>, StunWriteError>
        ensures state { (base : ℕ) (from : endpoints.Endpoint) → let code = Some (code_of refusal) in
            self.new ≡ passes now 0 (strays base from id (length datagram.now) code) self.old }
        ensures reply { (base : ℕ) (from : endpoints.Endpoint) → let code = Some (code_of refusal) in
            Receives self.old datagram.now (Refused id refusal signed_by)
            (output_at now 0 (strays base from id (length datagram.now) code) self.old.held)
            out.old out.new result }
    {
        match self.stray(now, datagram.len(), Some(refusal.code())) {
            Some(_) => self.reply(alloc, id, &refusal.response(datagram), signed_by, out),
            None => Ok(Received::Nothing),
        }
    }

    /// Takes a datagram, by what it is for this agent.
    pub(crate) fn take_judged<'d>(
        &mut self,
        alloc: Global,
        now: u64,
        base: u32,
        from: Endpoint,
        datagram: &'d [u8],
        judged: &Judged,
        random: u64,
        out: &mut [u8],
    ) -> Result<Received<'d>, StunWriteError>
        ensures state { self.new ≡ received_as judged.now now random base from datagram.now self.old }
        ensures result { Receives self.old datagram.now judged.now
            (output_at now random (event_of base from datagram.now judged.now) self.old.held)
            out.old out.new result }
    {
        match judged {
            Judged::Arrives => match self.arrive(now, base, from) {
                Some(component) => Ok(Received::Data(component, datagram)),
                None => Ok(Received::Nothing),
            },
            Judged::Strays { .. } => {
                self.stray(now, datagram.len(), None);
                Ok(Received::Nothing)
            }
            Judged::Refused {
                id,
                refusal,
                signed_by,
            } => self.refuse(alloc, now, *id, datagram, *refusal, *signed_by, out),
            Judged::Responds { id, answer, mapped } => {
                self.respond(now, random, base, from, *id, *answer, *mapped);
                Ok(Received::Nothing)
            }
            Judged::Checks { check, algorithm } => {
                self.take_check(alloc, now, check, *algorithm, out)
            }
        }
    }

    /// Takes a datagram that has arrived at a base, from an address. The datagram is neither copied nor changed.
    ///
    /// - A check of the peer is answered (RFC 8445, section 7.3), and so is a Binding request that isn't one, by
    ///   an error response of at most three times its length: [`Received::Response`]. Make room for it in `out`:
    ///   a success response to a check that is signed with SHA-1 has at most 88 bytes, and a 420 has 84, and four
    ///   for each two types that it lists. With SHA-256 each has twelve more.
    /// - A response to a check changes its pair (section 7.2.5). `random` is the next tiebreaker if it is a 487:
    ///   a random number that no other call has.
    /// - Anything else that is no STUN message with a FINGERPRINT is the peer's data, if a check of the peer came
    ///   from there before, or the pair is valid (section 12.2): [`Received::Data`].
    ///
    /// [`judge`] says what a datagram is. No memory is taken from `alloc`.
    ///
    /// # Errors
    ///
    /// `TooSmall { expected, actual }` if `out` has no room for the response: its length, and that of `out`, which
    /// stays as it was. The datagram counts as received, and the response as lost. `TooLarge` instead if a 420
    /// would list more types than a message has room for, which no datagram of UDP shows.
    pub fn on_datagram<'d>(
        &mut self,
        alloc: Global,
        now: u64,
        base: u32,
        from: Endpoint,
        datagram: &'d [u8],
        random: u64,
        out: &mut [u8],
    ) -> Result<Received<'d>, StunWriteError>
        ensures state { self.new ≡ received now random base from datagram.now self.old }
        ensures result { Receives self.old datagram.now (receiving.judged self.old base from datagram.now)
            (output_at now random (event_at self.old base from datagram.now) self.old.held)
            out.old out.new result }
    {
        let judged = self.judged(base, from, datagram);
        self.take_judged(alloc, now, base, from, datagram, &judged, random, out)
    }
}
