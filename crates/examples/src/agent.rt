//! The checks that an agent of ICE sends, each in a transaction (RFC 8445, sections 7.2.4, 7.2.5 and
//! 7.3.1.4). The caller has the sockets and the clock: it polls `transaction`, sends `request` whenever
//! that returns `Send`, and passes what it receives to `receive`.

use crate::ice::Agent;
use ice_attrs::{
    DEFAULT_TA, ROLE_CONFLICT, Role, Symmetry, TransportAddresses, check_rto, compare_addresses,
};
use std::alloc::{AllocError, Global};
use std::net::SocketAddr;
use std::time::Duration;
use stun_transactions::{
    BeginError, Protection, Received, ResponsePolicy, Schedule, ScheduleError, Transaction,
    response_address,
};
use stun_types::TransportType;
use stun_types::message::{IntegrityKey, Message, StunParseError, StunWriteError};
use thiserror::Error;

/// Why a request isn't sent, or its response isn't used.
#[derive(Debug, Drop, Error)]
pub enum AgentError {
    #[error(transparent)]
    Write(#[from] StunWriteError),
    #[error(transparent)]
    Read(#[from] StunParseError),
    #[error(transparent)]
    Begin(#[from] BeginError),
    #[error(transparent)]
    Memory(#[from(alloc)] AllocError),
}

/// The transaction of a request over UDP.
pub fn transaction_of(
    request: &[u8],
    schedule: Schedule,
    protection: Protection,
    usage: ResponsePolicy,
    now: Duration,
) -> Result<Transaction, AgentError> {
    let request = Message::from_bytes(request)?;
    let udp = TransportType::Udp;
    Ok(Transaction::new(&request, schedule, udp, protection, usage, now)?)
}

/// A check under way.
#[derive(Drop)]
pub struct Check {
    pub request: Vec<u8>,
    pub transaction: Transaction,
    addresses: TransportAddresses,
    role: Role,
}

/// What an agent does after it has received a datagram.
#[derive(Clone, Copy, Debug, PartialEq, Eq)]
pub enum CheckStep {
    /// It polls: the datagram doesn't end the check.
    Poll,
    /// The pair is valid, and the peer saw the check come from this address.
    UsePair(SocketAddr),
    /// It has taken the other role: it computes the priorities of the pairs again, and begins another
    /// check of this one.
    CheckAgain,
    /// The pair has failed.
    FailPair,
}

/// The schedule of a check, by how many checks are to be performed, wait, and are in progress.
pub fn schedule(checks: u32, waiting: u32, in_progress: u32) -> Result<Schedule, ScheduleError> {
    Schedule::new(check_rto(DEFAULT_TA, checks, waiting, in_progress), 7, 16)
}

impl Check {
    /// Begins a check that `ice::check` has written, from and to these addresses.
    pub fn begin(
        alloc: Global,
        agent: &Agent<'_>,
        request: Vec<u8>,
        addresses: TransportAddresses,
        schedule: Schedule,
        now: Duration,
    ) -> Result<Check, AgentError> {
        let key = IntegrityKey::new(alloc, agent.peer.1.as_bytes(), None)?;
        let usage = ResponsePolicy {
            min_hmac_length: 32,
            fingerprint: true,
        };
        let protection = Protection::ShortTerm(key);
        let transaction = transaction_of(&request, schedule, protection, usage, now)?;
        Ok(Check {
            request,
            transaction,
            addresses,
            role: agent.role,
        })
    }

    /// What a datagram with these addresses means. At 487 the agent takes the opposite of the role that
    /// the check showed, and this tiebreaker.
    pub fn receive(
        &mut self,
        alloc: Global,
        agent: &mut Agent<'_>,
        datagram: &[u8],
        addresses: &TransportAddresses,
        tiebreaker: u64,
    ) -> CheckStep {
        let received = self.transaction.receive(datagram, &ice_attrs::KNOWN);
        match (received, compare_addresses(&self.addresses, addresses)) {
            (Received::NotForThis | Received::Discarded(_, _), _) => CheckStep::Poll,
            (Received::Success(response, _), Symmetry::Symmetric) => {
                match response_address(alloc, &response) {
                    Ok(mapped) => CheckStep::UsePair(mapped),
                    Err(_) => CheckStep::FailPair,
                }
            }
            (Received::Error(_, ROLE_CONFLICT, _), Symmetry::Symmetric) => {
                agent.role = self.role.other();
                agent.tiebreaker = tiebreaker;
                CheckStep::CheckAgain
            }
            _ => CheckStep::FailPair,
        }
    }

    /// Sends the check no more, since a triggered check replaces it. A response still counts.
    pub fn replace(&mut self) {
        self.transaction.stop_sending();
    }
}
