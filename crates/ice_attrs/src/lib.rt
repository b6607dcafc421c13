//! Attributes of ICE (RFC 8445, section 16.1), by which two agents check how they reach each other:
//! PRIORITY, USE-CANDIDATE, ICE-CONTROLLED and ICE-CONTROLLING; and what an agent computes for its
//! checks: priorities, pacing, usernames, which role it has after a conflict, and whether a response
//! comes back the way that its check went. It uses the public items of `stun_types` alone.
#![tactic(auto)]

pub mod attribute_types;
mod credentials;
mod formula;
mod kinds;
mod laws;
mod pacing;
mod roles;
mod symmetry;

pub use attribute_types::{KNOWN, known_type};
pub use credentials::{CheckUsername, Ufrag, is_password};
pub use formula::{pair_priority, priority};
pub use kinds::{
    IceControlled, IceControlledKind, IceControlling, IceControllingKind, Priority, PriorityKind,
    UseCandidate, UseCandidateKind,
};
pub use laws::{greater_tiebreaker_controls, one_split};
pub use pacing::{DEFAULT_TA, LEAST_RTO, LEAST_TA, agreed_ta, check_rto, gathering_rto};
pub use roles::{Role, RoleDecision, decide_role};
use stun_types::attribute::ErrorCode;
pub use symmetry::{Symmetry, TransportAddresses, compare_addresses};

/// 487: both agents have the same role (RFC 8445, section 16.2). Its reason is `Role Conflict`.
pub const ROLE_CONFLICT: u16 = ErrorCode::ROLE_CONFLICT;
