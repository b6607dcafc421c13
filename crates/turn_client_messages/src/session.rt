//! What a client knows of its server.

use stun_endpoints::Endpoint;
use stun_types::TransportType;
use stun_types::attribute::PasswordAlgorithmValue;

/// What judging a datagram needs to know of the client and of its server.
#[derive(Clone, Copy, Debug)]
pub struct Session<'a> {
    /// The server. An alternate server is followed only if its address is of the same family (RFC
    /// 8489, section 10).
    pub server: Endpoint,
    /// The transport between client and server: a datagram is a datagram of UDP, or a whole message
    /// that was cut from a stream.
    pub transport: TransportType,
    /// The password algorithms that the client supports.
    pub algorithms: &'a [PasswordAlgorithmValue],
    /// Whether an earlier challenge of the server had a list of password algorithms
    /// ([`Challenge::password_algorithms`](stun_authentication::Challenge::password_algorithms)):
    /// one without it then counts as a bid-down (section 9.2.5).
    pub had_algorithms: bool,
}
