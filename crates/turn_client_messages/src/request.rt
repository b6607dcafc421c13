//! A request of the machine, its credentials, and what is the same in all requests.

use stun_types::AddressFamily;
use stun_types::attribute::Software;
use turn_client_machine::Request;
use turn_requests::{Login, RelayedPort};

/// A request of the machine, and the credentials that sign it.
#[derive(Clone, Copy, Debug)]
pub struct ClientRequest<'a> {
    /// The request. Of its transaction ID the low 96 bits are written.
    pub request: Request,
    /// The credentials, for the challenge that the request answers; `None` if it answers none: then
    /// it isn't signed.
    pub login: Option<Login<'a>>,
}

/// What is the same in all requests of a client.
#[derive(Clone, Copy, Debug)]
pub struct RequestSettings<'a> {
    /// The lifetime of the allocation that Allocate and Refresh requests ask for, in seconds; `None`
    /// leaves it to the server.
    pub lifetime: Option<u32>,
    /// The family of the relayed address; `None` leaves it to the server, which gives IPv4.
    pub family: Option<AddressFamily>,
    /// The port of the relayed address. With a token Allocate requests name no family.
    pub port: RelayedPort,
    /// Whether Allocate requests have a DONT-FRAGMENT (RFC 8656, section 18.9).
    pub dont_fragment: bool,
    /// The name of the client's software (RFC 8489, section 14.14), if it says one.
    pub software: Option<&'a Software>,
    /// Whether requests have a FINGERPRINT.
    pub fingerprint: bool,
}
