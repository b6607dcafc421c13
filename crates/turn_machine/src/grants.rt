//! What a relayed address grants to peers.

use stun_endpoints::{Endpoint, Ip};

/// A permission of a relayed address (RFC 8656, section 9): the peers of an IP address, whatever their
/// ports, and the client may exchange data.
#[derive(Clone, Copy, Debug, Default, PartialEq, Eq)]
pub struct Permission {
    /// The IP address of the peers.
    pub ip: Ip,
    /// When it expires, in nanoseconds of the caller's clock.
    pub expires_at: u128,
}

/// A channel of a relayed address (RFC 8656, section 12): a number that is bound to a peer.
#[derive(Clone, Copy, Debug, Default, PartialEq, Eq)]
pub struct Channel {
    /// The channel number.
    pub number: u16,
    /// The peer that the number is bound to.
    pub peer: Endpoint,
    /// When it expires, in nanoseconds of the caller's clock.
    pub expires_at: u128,
}
