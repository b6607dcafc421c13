//! The life of a client.

use stun_endpoints::Endpoint;

/// Why a client ended.
#[derive(Clone, Copy, Debug, PartialEq, Eq)]
pub enum End {
    /// The user closed it.
    Closed,
    /// No response came in time.
    Silent,
    /// The server rejected a request, with this error code. After 437 the user may try again from
    /// another local address (RFC 8656, section 7.4).
    Rejected(u16),
    /// The server named an alternate server, with error code 300 (RFC 8489, section 10).
    Moved(Endpoint),
    /// The server granted a lifetime of less than 80 seconds, or a relayed address of another
    /// family than the user asked for.
    Useless,
    /// Only responses with a wrong integrity came (RFC 8489, section 9.2.5).
    IntegrityViolated,
}

/// The phase of a client.
#[derive(Clone, Copy, Debug, PartialEq, Eq)]
pub enum Phase {
    /// The user hasn't asked for an allocation yet.
    Quiet,
    /// The server is asked for an allocation.
    Asking,
    /// There is an allocation.
    Allocated,
    /// The allocation is being deleted, and then the client ends for this reason.
    Closing(End),
    /// The client has ended. It sends nothing any more.
    Ended(End),
}
