//! The requests that an agent sends.

ghost use Rattle.std.specs.Prelude.{◌≡◌, IfOk, IfErr, IfSome, is_some, true};
ghost use Rattle.ice_machine.specs.Events.{polls};
ghost use Rattle.ice_agent_state.specs.Agents.{output_at};
ghost use Rattle.ice_agent_state.specs.Outputs.{asked_with};
ghost use Rattle.ice_agent.specs.Agents.{passes};
ghost use Rattle.ice_agent.specs.Sending.{IsPolled, IsSent, waited};

use crate::agent::Agent;
use crate::writing::write_request;
use ice_machine::Request;
use std::alloc::{AllocError, Global};
use stun_endpoints::Endpoint;
use stun_types::message::{StunWriteError, TransactionId};

/// A request that is to be sent.
#[derive(Clone, Copy, Debug, PartialEq, Eq)]
pub struct Sending {
    /// The number of the base to send it from.
    pub base: u32,
    /// The address to send it to.
    pub to: Endpoint,
    /// Its length in bytes.
    pub length: usize,
}

impl Agent {
    /// The request that is to be sent now.
    pub(crate) fn request(
        &mut self,
        now: u64,
        id: TransactionId,
    ) -> Result<Option<Request>, AllocError>
        ensures state { IfOk result (λ _. self.new ≡ passes now id polls self.old) }
        ensures request { IfOk result
            (λ request. output_at now id polls self.old.held ≡ asked_with request) }
        ensures known { IfOk result
            (λ request. IfSome request (λ _. is_some self.new.logins.peer ≡ true)) }
        ensures waited { IfErr result (λ _. self.new ≡ waited now self.old) }
    {
        self.state.poll(now, id.value())
    }

    /// Writes a request at the start of a slice.
    pub(crate) fn write(
        &self,
        alloc: Global,
        request: &Request,
        out: &mut [u8],
    ) -> Result<Option<Sending>, StunWriteError>
        requires { is_some self.now.logins.peer ≡ true }
        ensures { IsSent self.now self.now.logins.peer request.now out.old out.new result }
    {
        match &self.peer {
            Some(peer) => {
                let software = self.software.as_ref();
                let length = write_request(
                    alloc,
                    request,
                    &self.own.lend(),
                    &peer.lend(),
                    software,
                    out,
                )?;
                Ok(Some(Sending {
                    base: request.base,
                    to: request.to,
                    length,
                }))
            }
            None => unreachable!(),
        }
    }

    /// Writes the request that is to be sent now, a Binding request (RFC 8445, section 7.1), at the start of `out`,
    /// and returns its length, the base that it is sent from, and the address that it is sent to; `None` if there is
    /// none. `id` is its transaction ID: a random number that no other call has. Call it until it returns `None` and
    /// [`Agent::next_wake`] is later than `now`.
    ///
    /// No memory is taken from `alloc`. The agent takes more from its own if a response is waited for to more requests
    /// than ever before.
    ///
    /// # Errors
    ///
    /// - `TooSmall { expected, actual }` if `out` has no room for the request: its length, and that of `out`, which
    ///   stays as it was. The request counts as sent, and lost. With fragments of at most 32 characters and without
    ///   a SOFTWARE none is longer than 148 bytes.
    /// - `OutOfMemory` if an allocation failed: then only time has passed, and the request is still due.
    pub fn poll(
        &mut self,
        alloc: Global,
        now: u64,
        id: TransactionId,
        out: &mut [u8],
    ) -> Result<Option<Sending>, StunWriteError>
        ensures { IsPolled now id self.old self.new out.old out.new result }
    {
        match self.request(now, id) {
            Ok(Some(request)) => self.write(alloc, &request, out),
            Ok(None) => Ok(None),
            Err(AllocError) => Err(StunWriteError::OutOfMemory),
        }
    }
}
