//! The sockets that the caller has ready for Allocate requests.

use stun_endpoints::Endpoint;

/// The relayed transport addresses that the caller offers in one address family: each is that of a
/// socket that no allocation has. One socket with an even port may be all of them. `None`: no socket is
/// ready, and a request for one is refused with 508.
///
/// An address is what clients get as XOR-RELAYED-ADDRESS, the one that peers send to: not `0.0.0.0` or
/// `::`, and with a NAT the public one. That no other allocation has it, the server doesn't check.
#[derive(Clone, Copy, Debug, PartialEq, Eq)]
pub struct Ready {
    /// For a request without EVEN-PORT.
    pub any: Option<Endpoint>,
    /// For a request with EVEN-PORT, and without its R bit: an address with an even port (RFC 8656, section
    /// 18.7).
    pub even: Option<Endpoint>,
    /// For a request with EVEN-PORT and the R bit.
    pub pair: Option<Pair>,
}

/// The addresses of two sockets for a request that reserves the next higher port (RFC 8656, section 7.2).
/// Both have the same IP address. That no reservation has either, the server doesn't check.
#[derive(Clone, Copy, Debug, PartialEq, Eq)]
pub struct Pair {
    /// The relayed transport address, whose port is even.
    pub even: Endpoint,
    /// The address that is reserved, with the next higher port.
    pub next: Endpoint,
}

/// The sockets that are ready for Allocate requests, by address family, and a token. Which families the
/// server relays, `Limits::families` says.
#[derive(Clone, Copy, Debug, PartialEq, Eq)]
pub struct Sockets {
    /// IPv4, the family of a request that names none.
    pub ipv4: Ready,
    /// IPv6, the family of a request with REQUESTED-ADDRESS-FAMILY 2, and the other one of a request with
    /// ADDITIONAL-ADDRESS-FAMILY.
    pub ipv6: Ready,
    /// The RESERVATION-TOKEN if a pair is used: a random number that nobody can guess, new for each call. A
    /// request that reserves is refused with 508 if a reservation has it.
    /// Without a pair it isn't used.
    pub token: u64,
}
