//! A client that asks a TURN server for an allocation, and refreshes it, each request in a transaction
//! (RFC 8656, sections 7.1, 7.3, 7.4 and 8.1). It keeps what the server asked for last, so a Refresh
//! has that nonce at once. The caller polls, sends and receives as in `agent.rt`, through a socket that
//! is connected to the server.

use crate::agent::{AgentError, transaction_of};
use crate::turn::{ALGORITHMS, allocate_request};
use std::alloc::Global;
use std::net::SocketAddr;
use std::time::Duration;
use stun_authentication::{Retry, answer_challenge, challenge_of, key_for};
use stun_transactions::{Protection, Received, ResponsePolicy, Retries, Schedule, Transaction};
use stun_types::message::{
    Message, MessageClass, MessageType, MessageWriteVec, StunWriteError, TransactionId,
};
use stun_types::prelude::*;
use turn_attrs::{Lifetime, XorRelayedAddress, methods};

/// An Allocate or a Refresh request under way.
#[derive(Drop)]
pub struct Allocate<'a> {
    pub request: Vec<u8>,
    pub transaction: Transaction,
    seconds: u32,
    login: (&'a str, &'a str),
    retries: Retries,
    /// The challenge that the last request answered.
    kept: Option<Retry<'static>>,
    /// The address of the allocation, if there is one.
    relayed: Option<SocketAddr>,
}

/// What a client does after it has received a datagram.
#[derive(Clone, Copy, Debug, PartialEq, Eq)]
pub enum AllocateStep {
    /// It polls: the datagram doesn't end the request, or the request has begun again.
    Poll,
    /// It uses the relayed address, and refreshes the allocation before these seconds have passed.
    Use { relayed: SocketAddr, seconds: u32 },
    /// It gives up. The code is that of the error response, if there is one.
    GiveUp(Option<u16>),
}

/// A Refresh request that answers a challenge.
fn refresh_request(
    alloc: Global,
    id: u128,
    seconds: u32,
    retry: &Retry<'_>,
    (name, password): (&str, &str),
) -> Result<Vec<u8>, StunWriteError> {
    let mtype = MessageType::from_class_method(MessageClass::Request, methods::REFRESH);
    let vector = MessageWriteVec::new(alloc);
    let mut request = Message::builder(mtype, TransactionId::from(id), vector)?;
    request.add_attribute(&Lifetime::new(seconds))?;
    answer_challenge(alloc, retry, name, password, true, &mut request)?;
    Ok(request.finish())
}

impl<'a> Allocate<'a> {
    /// Begins the first request, which isn't signed.
    pub fn begin(
        alloc: Global,
        login: (&'a str, &'a str),
        seconds: u32,
        id: u128,
        now: Duration,
    ) -> Result<Self, AgentError> {
        let request = allocate_request(alloc, id, seconds, None, login)?;
        let (schedule, usage) = (Schedule::new_default(), ResponsePolicy::default());
        let protection = Protection::FirstLongTerm;
        let transaction = transaction_of(&request, schedule, protection, usage, now)?;
        Ok(Allocate {
            request,
            transaction,
            seconds,
            login,
            retries: Retries::default(),
            kept: None,
            relayed: None,
        })
    }

    /// What a datagram means. If the request begins again, it has this ID.
    pub fn receive(
        &mut self,
        alloc: Global,
        datagram: &[u8],
        id: u128,
        now: Duration,
    ) -> Result<AllocateStep, AgentError> {
        match self.transaction.receive(datagram, &turn_attrs::KNOWN) {
            Received::NotForThis | Received::Discarded(_, _) => Ok(AllocateStep::Poll),
            Received::Failed(_) => Ok(AllocateStep::GiveUp(None)),
            Received::Success(response, _) => self.used(alloc, &response),
            Received::Error(response, code, _) => {
                if self.begin_again(alloc, &response, id, now)? {
                    Ok(AllocateStep::Poll)
                } else {
                    Ok(AllocateStep::GiveUp(Some(code)))
                }
            }
        }
    }

    /// Begins a Refresh request with the nonce that the server sent last. `false` if it has sent none.
    pub fn refresh(&mut self, alloc: Global, id: u128, now: Duration) -> Result<bool, AgentError> {
        let Some(retry) = &self.kept else {
            return Ok(false);
        };
        let (request, transaction) = self.answered(alloc, retry, id, now)?;
        self.request = request;
        self.transaction = transaction;
        self.retries = Retries::default();
        Ok(true)
    }

    /// The allocation that a success response reports. That to a Refresh has no address.
    fn used(&mut self, alloc: Global, response: &Message<'_>) -> Result<AllocateStep, AgentError> {
        let relayed = match self.relayed {
            Some(relayed) => relayed,
            None => {
                let relayed = response.attribute::<XorRelayedAddress>(alloc)?;
                relayed.addr(response.transaction_id())
            }
        };
        let lifetime = response.attribute::<Lifetime>(alloc)?;
        self.relayed = Some(relayed);
        Ok(AllocateStep::Use {
            relayed,
            seconds: lifetime.seconds(),
        })
    }

    /// The request that answers a challenge, and its transaction: a Refresh once there is an
    /// allocation.
    fn answered(
        &self,
        alloc: Global,
        retry: &Retry<'_>,
        id: u128,
        now: Duration,
    ) -> Result<(Vec<u8>, Transaction), AgentError> {
        let request = match self.relayed {
            Some(_) => refresh_request(alloc, id, self.seconds, retry, self.login)?,
            None => allocate_request(alloc, id, self.seconds, Some(retry), self.login)?,
        };
        let key = key_for(alloc, retry, self.login.0, self.login.1)?;
        let (schedule, usage) = (Schedule::new_default(), ResponsePolicy::default());
        let protection = Protection::LongTerm(key);
        let transaction = transaction_of(&request, schedule, protection, usage, now)?;
        Ok((request, transaction))
    }

    /// Begins a request that answers a 401 or 438. `false` if the response is neither, or must not be
    /// answered, or too many were.
    fn begin_again(
        &mut self,
        alloc: Global,
        response: &Message<'_>,
        id: u128,
        now: Duration,
    ) -> Result<bool, AgentError> {
        let (tried, had_algorithms) = match &self.kept {
            Some(Retry { challenge, .. }) => {
                (
                    Some(challenge.realm()),
                    challenge.password_algorithms().is_some(),
                )
            }
            None => (None, false),
        };
        let Ok(retry) = challenge_of(response, &ALGORITHMS, tried, had_algorithms) else {
            return Ok(false);
        };
        if !self.retries.take() {
            return Ok(false);
        }
        let (request, transaction) = self.answered(alloc, &retry, id, now)?;
        let kept = retry.into_owned(alloc)?;
        self.request = request;
        self.transaction = transaction;
        self.kept = Some(kept);
        Ok(true)
    }
}
