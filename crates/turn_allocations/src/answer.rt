//! Answers to requests.

ghost use Rattle.std.specs.Prelude.{◌≡◌};
ghost use Rattle.turn_allocations.specs.Answers.{code_of};

use crate::families::Families;
use stun_endpoints::Endpoint;
use thiserror::Error;

/// Why a request is refused. `Display` writes the reason phrase of RFC 8489, section 14.8, or RFC 8656,
/// section 19.
#[derive(Clone, Copy, Debug, PartialEq, Eq, Error)]
pub enum Refusal {
    /// 400: the request is malformed, its channel number is out of range, or the number is bound to another
    /// peer or the peer to another number.
    #[error("Bad Request")]
    BadRequest,
    /// 403: the policy forbids the peer, or the address of the peer or of the client is one of Teredo or 6to4
    /// (RFC 8656, section 21.4).
    #[error("Forbidden")]
    Forbidden,
    /// 437: the client has no allocation, or, for Allocate, already has one.
    #[error("Allocation Mismatch")]
    AllocationMismatch,
    /// 440: the server doesn't relay the address family.
    #[error("Address Family not Supported")]
    AddressFamilyNotSupported,
    /// 441: the allocation belongs to another user.
    #[error("Wrong Credentials")]
    WrongCredentials,
    /// 442: the request asks for another transport than UDP between server and peers. The caller
    /// checks this: see [`Request::UnfitAllocate`](crate::Request::UnfitAllocate).
    #[error("Unsupported Transport Protocol")]
    UnsupportedTransportProtocol,
    /// 443: the client has no relayed address of the peer's family, or of the family of a Refresh request.
    #[error("Peer Address Family Mismatch")]
    PeerAddressFamilyMismatch,
    /// 486: the user has [`Limits::relays_per_user`](crate::Limits::relays_per_user) relayed addresses.
    #[error("Allocation Quota Reached")]
    AllocationQuotaReached,
    /// 508: there is no room for a relayed address, a permission or a channel, or no socket is ready, or a
    /// CreatePermission request has more than 64 peers.
    #[error("Insufficient Capacity")]
    InsufficientCapacity,
}

impl Refusal {
    /// Returns the error code of the response.
    pub fn code(self) -> u16
        ensures { result ≡ code_of self }
    {
        match self {
            Refusal::BadRequest => 400,
            Refusal::Forbidden => 403,
            Refusal::AllocationMismatch => 437,
            Refusal::AddressFamilyNotSupported => 440,
            Refusal::WrongCredentials => 441,
            Refusal::UnsupportedTransportProtocol => 442,
            Refusal::PeerAddressFamilyMismatch => 443,
            Refusal::AllocationQuotaReached => 486,
            Refusal::InsufficientCapacity => 508,
        }
    }
}

/// A relayed address of a client.
#[derive(Clone, Copy, Debug, PartialEq, Eq)]
pub struct Given {
    /// The number of its socket, which is never reused.
    pub number: u64,
    /// The relayed transport address, for XOR-RELAYED-ADDRESS.
    pub address: Endpoint,
}

/// The answer to a user's request.
#[derive(Clone, Copy, Debug, PartialEq, Eq)]
pub enum Answer {
    /// A success response to Allocate.
    Allocated {
        /// All relayed addresses that the client has now. A socket that was ready is in use if and only if
        /// the number for its family is not below what [`next_number`](crate::Allocations::next_number)
        /// returned before the call.
        given: Families<Option<Given>>,
        /// LIFETIME in seconds. For a retransmitted request it is the time until the first of the client's
        /// relayed addresses expires, rounded down.
        lifetime: u32,
        /// Why the client has no relayed address of a family that the request asks for: 440 or 508, the code
        /// of ADDRESS-ERROR-CODE (RFC 8656, section 18.12).
        missing: Families<Option<Refusal>>,
    },
    /// A success response to Refresh, with LIFETIME in seconds: 0 if the relayed addresses have ended.
    Refreshed(u32),
    /// A success response to CreatePermission or ChannelBind.
    Done,
    /// An error response.
    Refused(Refusal),
}
