//! Connectivity checks of ICE between two agents: a check, its answer, and error 487 if both have the
//! same role (RFC 8445, sections 7.1, 7.2 and 7.3).

use ice_attrs::{Role, RoleDecision, Ufrag, decide_role};
use ice_checks::{CheckResponse, Credentials, Judged, Session, Signature, judge, write_check};
use ice_machine::{Check, Request, Role as ShownRole};
use std::alloc::Global;
use std::net::SocketAddr;
use stun_endpoints::{Endpoint, Ip};
use stun_types::message::{
    IntegrityAlgorithm, IntegrityKey, Message, MessageWriteVec, StunWriteError, TransactionId,
};
use stun_types::prelude::*;

/// An agent in a session with a peer.
#[derive(Clone, Copy)]
pub struct Agent<'a> {
    /// Its own fragment and password, by which the peer signs its checks.
    pub own: (Ufrag<'a>, &'a str),
    /// Those of its peer.
    pub peer: (Ufrag<'a>, &'a str),
    /// Its role, and the tiebreaker of a conflict.
    pub role: Role,
    pub tiebreaker: u64,
}

/// The role in a check of an agent.
fn shown(role: Role) -> ShownRole {
    match role {
        Role::Controlling => ShownRole::Controlling,
        Role::Controlled => ShownRole::Controlled,
    }
}

/// The role of the agent that sent a check.
fn role_of(check: &Check) -> Role {
    match check.role {
        ShownRole::Controlling => Role::Controlling,
        ShownRole::Controlled => Role::Controlled,
    }
}

/// A check, which nominates its pair or doesn't.
pub fn check(
    alloc: Global,
    id: u128,
    agent: &Agent<'_>,
    priority: u32,
    nominates: bool,
) -> Result<Vec<u8>, StunWriteError> {
    // (its base and its destination aren't written)
    let to = Endpoint {
        ip: Ip {
            family: 1,
            number: 0,
        },
        port: 0,
    };
    let request = Request {
        id,
        base: 0,
        to,
        role: shown(agent.role),
        tiebreaker: agent.tiebreaker,
        nominates,
        priority,
        sent: 0,
    };
    let (own, (fragment, password)) = (agent.own.0, agent.peer);
    let key = &IntegrityKey::new(alloc, password.as_bytes(), None)?;
    let mut check = MessageWriteVec::new(alloc);
    write_check(
        &request,
        own,
        &Credentials { fragment, key },
        None,
        &mut check,
    )?;
    Ok(check.finish())
}

/// What a check asks for that gets a success response.
#[derive(Clone, Copy, Debug, PartialEq, Eq)]
pub struct CheckContents {
    /// The priority of the peer-reflexive candidate that the agent learns, if the check comes from an
    /// address that is none of its peer's candidates yet (section 7.3.1.3).
    pub priority: u32,
    /// Whether the check nominates its pair (section 7.3.1.5).
    pub nominates: bool,
}

/// What an agent answers to a check.
#[derive(Drop)]
pub struct CheckAnswer {
    /// The response, to be sent to where the check came from.
    pub response: Vec<u8>,
    /// What the check asks for, if the response is a success.
    pub accepted: Option<CheckContents>,
}

/// Decides about the role that a check shows. The agent switches to the other role if it has to.
fn decide(agent: &mut Agent<'_>, check: &Check) -> RoleDecision {
    let decision = decide_role(
        agent.role,
        agent.tiebreaker,
        role_of(check),
        check.tiebreaker,
    );
    if decision == RoleDecision::Switch {
        agent.role = agent.role.other();
    }
    decision
}

/// The bytes of a response.
fn written(
    alloc: Global,
    id: u128,
    response: &CheckResponse<'_>,
    signature: Option<Signature<'_>>,
) -> Result<Vec<u8>, StunWriteError> {
    let mut write = MessageWriteVec::new(alloc);
    response.write_into(TransactionId::from(id), signature, &mut write)?;
    Ok(write.finish())
}

/// The answer to a check of the peer.
fn answer_check(
    alloc: Global,
    agent: &mut Agent<'_>,
    check: &Check,
    key: &IntegrityKey,
    algorithm: IntegrityAlgorithm,
) -> Result<CheckAnswer, StunWriteError> {
    let signature = Some(Signature { key, algorithm });
    if decide(agent, check) == RoleDecision::Refuse {
        let response = written(alloc, check.id, &CheckResponse::RoleConflict, signature)?;
        return Ok(CheckAnswer {
            response,
            accepted: None,
        });
    }
    let success = CheckResponse::Success { source: check.from };
    Ok(CheckAnswer {
        response: written(alloc, check.id, &success, signature)?,
        accepted: Some(CheckContents {
            priority: check.priority,
            nominates: check.nominates,
        }),
    })
}

/// The answer to a check that came from `source`: a success response with that address, or an error
/// response, 420 for types that must be understood and aren't, 400 without PRIORITY, without a role, with
/// two roles or with a value of another length, 487 if the peer has to switch its role. `None` if the
/// message gets no answer.
pub fn answer(
    alloc: Global,
    agent: &mut Agent<'_>,
    message: &Message<'_>,
    source: SocketAddr,
) -> Result<Option<CheckAnswer>, StunWriteError> {
    // (an agent makes its keys once, and not for each datagram)
    let own_key = IntegrityKey::new(alloc, agent.own.1.as_bytes(), None)?;
    let peer_key = IntegrityKey::new(alloc, agent.peer.1.as_bytes(), None)?;
    let own = Credentials {
        fragment: agent.own.0,
        key: &own_key,
    };
    let peer = Some(Credentials {
        fragment: agent.peer.0,
        key: &peer_key,
    });
    let (session, no_checks): (_, &[Request]) = (Session { own, peer }, &[]);
    let datagram = message.as_bytes();
    match judge(&session, &no_checks, 0, Endpoint::from(source), datagram) {
        Judged::Checks { check, algorithm } => {
            Ok(Some(answer_check(alloc, agent, &check, &own_key, algorithm)?))
        }
        Judged::Refused {
            id,
            refusal,
            signed_by,
        } => {
            let signature = match signed_by {
                Some(algorithm) => Some(Signature {
                    key: &own_key,
                    algorithm,
                }),
                None => None,
            };
            Ok(Some(CheckAnswer {
                response: written(alloc, id, &refusal.response(datagram), signature)?,
                accepted: None,
            }))
        }
        Judged::Arrives | Judged::Strays { .. } | Judged::Responds { .. } => Ok(None),
    }
}
