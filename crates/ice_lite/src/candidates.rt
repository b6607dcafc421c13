//! The host candidates of a lite agent, and its selected pairs.

use stun_endpoints::Endpoint;

/// A socket of a lite agent: its host candidate, of a component (RFC 8445, section 5.2).
#[derive(Clone, Copy, Debug, PartialEq, Eq)]
pub struct LiteBase {
    /// The caller's number of the socket. Of two bases with the same number the first one counts.
    pub number: u32,
    /// The component of a data stream, by a number of the caller's choice: different components, also those of
    /// different data streams, have different numbers.
    pub component: u16,
}

/// The remote end of a selected pair.
#[derive(Clone, Copy, Debug, PartialEq, Eq)]
pub struct LitePair {
    /// The address of the peer.
    pub remote: Endpoint,
    /// When the latest accepted check came on the pair, in nanoseconds of the caller's clock.
    pub heard_at: u128,
}

/// A base, with the selected pair of its component, if that is a pair of this base.
#[derive(Clone, Copy, Debug, PartialEq, Eq)]
pub struct LiteCandidate {
    /// The base.
    pub base: LiteBase,
    /// The selected pair.
    pub selected: Option<LitePair>,
}
