//! Candidate pairs (RFC 8445, section 6.1.2).

use stun_endpoints::Endpoint;

/// The state of a candidate pair: one of the five of RFC 8445, section 6.1.2.6, or [`PairState::Lost`].
#[derive(Clone, Copy, Debug, PartialEq, Eq)]
pub enum PairState {
    /// No check was sent, and none is until another pair of the same foundation has succeeded, or none
    /// is waiting or in progress.
    Frozen,
    /// A check is sent once no pair of a greater priority waits.
    Waiting,
    /// A check was sent, and its response is waited for.
    InProgress,
    /// A check was answered with success: the pair is valid.
    Succeeded,
    /// No check was answered, or one was answered by an error.
    Failed,
    /// The peer had consented to receive data, and the consent has expired (RFC 7675, section 5.1):
    /// nothing is sent any more.
    Lost,
}

/// A candidate pair. No two pairs of an agent have the same base and the same remote address.
#[derive(Clone, Copy, Debug, PartialEq, Eq)]
pub struct Pair {
    /// The number of the base that it sends from.
    pub base: u32,
    /// The address that it sends to.
    pub remote: Endpoint,
    /// The component of a data stream, as in [`Base`](crate::Base).
    pub component: u16,
    /// The priority of the local candidate.
    pub priority: u32,
    /// The priority of the remote candidate.
    pub remote_priority: u32,
    /// The foundation of the local candidate.
    pub foundation: u32,
    /// The foundation of the remote candidate.
    pub remote_foundation: u32,
    /// The PRIORITY of its checks, as in [`Base`](crate::Base).
    pub reflexive_priority: u32,
    /// Its state.
    pub state: PairState,
    /// Whether it is in the triggered-check queue (section 6.1.4.1).
    pub triggered: bool,
    /// Whether an authentic check of the peer arrived on it.
    pub heard: bool,
    /// Whether a controlling agent has picked it, and nominates it (section 8.1.1).
    pub chosen: bool,
    /// Its nominated flag: in the controlled role, the peer has nominated it (section 7.3.1.5); in the
    /// controlling role, a nominating check was answered with success (section 7.2.5.3.4).
    pub nominated: bool,
    /// When the peer's consent expires (RFC 7675, section 5.1), once the pair has succeeded: in
    /// nanoseconds of the caller's clock, as all moments.
    pub expires_at: u128,
    /// When it first succeeded.
    pub succeeded_at: u128,
    /// When its next request is due.
    pub due: u128,
    /// How many requests were sent since it was last waiting.
    pub tries: u8,
}
