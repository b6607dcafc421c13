//! Requests of a client, and the responses to them (RFC 8656, sections 7, 8, 10 and 12).

use stun_endpoints::Endpoint;

/// What a request asks for.
#[derive(Clone, Copy, Debug, PartialEq, Eq)]
pub enum Kind {
    /// An Allocate request (section 7.1).
    Allocate,
    /// A Refresh request (section 8.1).
    Refresh,
    /// A Refresh request with a LIFETIME of 0, which deletes the allocation (section 8.1).
    Delete,
    /// A CreatePermission request for the IP address of a peer (section 10.1).
    Permit(Endpoint),
    /// A ChannelBind request (section 12.1).
    Bind {
        /// The channel number.
        number: u16,
        /// The peer.
        peer: Endpoint,
    },
}

/// A request of a client.
#[derive(Clone, Copy, Debug, PartialEq, Eq)]
pub struct Request {
    /// The transaction ID.
    pub id: u128,
    /// What it asks for.
    pub kind: Kind,
    /// The challenge of the server that it answers (realm, nonce and password algorithms), by a
    /// number of the caller's choice; `None` if it is unsigned.
    pub challenge: Option<u64>,
    /// When it was first sent, in nanoseconds of the caller's clock.
    pub since: u64,
}

/// The content of a response to a request, of the request's method.
#[derive(Clone, Copy, Debug, PartialEq, Eq)]
pub enum Answer {
    /// A success response to an Allocate request (section 7.3).
    Opened {
        /// The relayed address.
        relayed: Endpoint,
        /// The client's address, as the server sees it.
        mapped: Endpoint,
        /// The lifetime, in seconds.
        lifetime: u32,
    },
    /// A success response to a Refresh request (section 8.3).
    Extended {
        /// The lifetime, in seconds.
        lifetime: u32,
    },
    /// A success response to a CreatePermission or ChannelBind request (sections 10.3 and 12.3).
    Done,
    /// An error response with a code, other than those below.
    Refused(u16),
    /// An error response with code 401 or 438 and what a request has to answer.
    Challenged {
        /// The code.
        code: u16,
        /// The number of the challenge, by the caller's choice.
        challenge: u64,
    },
    /// An error response with code 300, and its alternate server (RFC 8489, section 10).
    Redirected(Endpoint),
    /// A response whose integrity is wrong, or missing though it is required (RFC 8489, section
    /// 9.2.5).
    Violated,
}
