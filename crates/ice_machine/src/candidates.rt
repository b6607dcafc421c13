//! Candidates: transport addresses at which an agent may be reached (RFC 8445, section 5.1).

use stun_endpoints::Endpoint;

/// What an agent sends from and receives at (RFC 8445, section 4): a socket of the caller, for a host
/// candidate, or an allocation at a TURN server, for a relayed one. A server-reflexive candidate is no
/// base: a check of it is sent from its base (section 6.1.2.4).
#[derive(Clone, Copy, Debug, PartialEq, Eq)]
pub struct Base {
    /// The caller's number of the socket or allocation.
    pub number: u32,
    /// The component of a data stream (section 4), by a number of the caller's choice: different
    /// components, also those of different data streams, have different numbers.
    pub component: u16,
    /// The address family: 1 for IPv4 and 2 for IPv6.
    pub family: u8,
    /// Whether its address is an IPv6 link-local one, which is paired with link-local addresses only
    /// (section 6.1.2.2).
    pub link_local: bool,
    /// The foundation of its candidate (section 5.1.1.3), by a number of the caller's choice.
    pub foundation: u32,
    /// The priority of its candidate (section 5.1.2).
    pub priority: u32,
    /// The priority that a peer-reflexive candidate has which a check from here discovers: the PRIORITY
    /// attribute of the checks (section 7.1.1).
    pub reflexive_priority: u32,
}

/// A candidate of the peer.
#[derive(Clone, Copy, Debug, PartialEq, Eq)]
pub struct Remote {
    /// Its transport address.
    pub address: Endpoint,
    /// The component of a data stream, by the number that [`Base::component`] has.
    pub component: u16,
    /// Its foundation (section 5.3), by a number of the caller's choice that isn't 0: that is the
    /// foundation of candidates that a check of the peer discovers (section 7.3.1.3).
    pub foundation: u32,
    /// Its priority.
    pub priority: u32,
}
