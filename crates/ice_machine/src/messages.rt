//! Connectivity checks, and their responses (RFC 8445, section 7).

use crate::roles::Role;
use stun_endpoints::Endpoint;

/// A Binding request of this agent: each one is a transaction of its own.
#[derive(Clone, Copy, Debug, PartialEq, Eq)]
pub struct Request {
    /// The transaction ID.
    pub id: u128,
    /// The number of the base that it is sent from.
    pub base: u32,
    /// The address that it is sent to.
    pub to: Endpoint,
    /// The role that it shows, by ICE-CONTROLLING or ICE-CONTROLLED.
    pub role: Role,
    /// The tiebreaker in that attribute.
    pub tiebreaker: u64,
    /// Whether it has USE-CANDIDATE (section 7.1.2).
    pub nominates: bool,
    /// Its PRIORITY.
    pub priority: u32,
    /// When it is sent.
    pub sent: u128,
}

/// A Binding request of the peer: authentic under this agent's password, with a FINGERPRINT.
#[derive(Clone, Copy, Debug, PartialEq, Eq)]
pub struct Check {
    /// The number of the base that it arrives at.
    pub base: u32,
    /// The address that it comes from.
    pub from: Endpoint,
    /// The transaction ID.
    pub id: u128,
    /// The role that it shows, by ICE-CONTROLLING or ICE-CONTROLLED.
    pub role: Role,
    /// The tiebreaker in that attribute.
    pub tiebreaker: u64,
    /// Whether it has USE-CANDIDATE (section 7.1.2).
    pub nominates: bool,
    /// Its PRIORITY: that of the candidate which it discovers, if it comes from an unknown address
    /// (section 7.3.1.3).
    pub priority: u32,
}

/// What a response says of its request.
#[derive(Clone, Copy, Debug, PartialEq, Eq)]
pub enum Answer {
    /// A success response.
    Accepted,
    /// An error response with a code.
    Refused(u16),
}
