//! What a client asks of a TURN server, and its credentials.

ghost use Rattle.std.specs.Prelude.{◌≡◌};

use stun_authentication::Retry;
use stun_endpoints::Endpoint;
use stun_types::AddressFamily;
use stun_types::message::{IntegrityKey, Method};
use turn_attrs::{Channel, methods};

/// Which port the relayed address of an allocation is to have (RFC 8656, section 7.1).
#[derive(Clone, Copy, Debug, PartialEq, Eq)]
pub enum RelayedPort {
    /// Any port.
    Any,
    /// An even one, by EVEN-PORT (section 18.7). A server that has none refuses the request with
    /// 508.
    Even {
        /// Whether the server is to reserve the next-higher port, for 30 seconds or longer. Its
        /// response has the token of the reservation.
        reserves: bool,
    },
    /// The one that the server reserved under this token, by RESERVATION-TOKEN (section 18.10),
    /// whose eight bytes are a number here, big-endian. The request names no family then: the
    /// reserved address has that of the first one.
    Reserved(u64),
}

/// What a client asks of a TURN server.
#[derive(Clone, Copy, Debug)]
pub enum TurnRequest<'a> {
    /// Asks for an allocation with a relayed address for UDP (RFC 8656, section 7.1).
    Allocate {
        /// The lifetime in seconds; `None` leaves it to the server, whose default is 600.
        lifetime: Option<u32>,
        /// The family of the relayed address; `None` leaves it to the server, which gives IPv4.
        family: Option<AddressFamily>,
        /// The port of the relayed address.
        port: RelayedPort,
        /// Whether the client will ask for the DF bit, by DONT-FRAGMENT (section 18.9). A server
        /// that can't set it refuses the request with 420.
        dont_fragment: bool,
    },
    /// Keeps the allocation, or deletes it (section 8.1).
    Refresh {
        /// The lifetime from now on, in seconds: 0 deletes the allocation, and `None` leaves it to the
        /// server.
        lifetime: Option<u32>,
    },
    /// Permits the IP addresses of these peers, with any port, to send to the client for 300 seconds
    /// (sections 9 and 10.1). The server refuses a request without a peer, and one with a peer of
    /// whose family the client has no relayed address.
    CreatePermission {
        /// The peers.
        peers: &'a [Endpoint],
    },
    /// Binds a channel to a peer for 600 seconds, and permits its IP address (sections 12 and 12.1).
    ChannelBind {
        /// The channel.
        channel: Channel,
        /// The peer.
        peer: Endpoint,
    },
}

/// The credentials of a request that answers a challenge.
#[derive(Clone, Copy, Debug)]
pub struct Login<'a> {
    /// What the server asked for last, as [`challenge_of`](stun_authentication::challenge_of) reads it.
    pub retry: &'a Retry<'a>,
    /// The name of the user.
    pub name: &'a str,
    /// The key of the user, as [`key_for`](stun_authentication::key_for) makes it.
    pub key: &'a IntegrityKey,
}

impl TurnRequest<'_> {
    ghost use Rattle.turn_requests.specs.Requests.{request_method};

    /// Returns the method of the request and of its response.
    pub fn method(&self) -> Method
        ensures { result ≡ request_method self.now }
    {
        match self {
            TurnRequest::Allocate { .. } => methods::ALLOCATE,
            TurnRequest::Refresh { .. } => methods::REFRESH,
            TurnRequest::CreatePermission { .. } => methods::CREATE_PERMISSION,
            TurnRequest::ChannelBind { .. } => methods::CHANNEL_BIND,
        }
    }
}
