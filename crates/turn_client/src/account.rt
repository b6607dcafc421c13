//! Who asks, and what is the same in all requests.

use stun_types::attribute::{PasswordAlgorithmValue, Software};
use stun_types::message::LongTermCredentials;
use turn_requests::RelayedPort;

/// The account of a client at its server, and what is the same in all its requests.
#[derive(Debug, Drop)]
pub struct Account {
    /// The name and the password of the user (RFC 8489, section 9.2).
    pub credentials: LongTermCredentials,
    /// The lifetime of the allocation that the client asks for, in seconds; `None` leaves it to the
    /// server, whose default is 600 (RFC 8656, section 7.2).
    pub lifetime: Option<u32>,
    /// Whether Allocate requests name the family of the relayed address also if it is IPv4. Servers
    /// give IPv4 anyway, and those of RFC 5766 don't understand the attribute.
    pub names_ipv4: bool,
    /// The port of the relayed address (RFC 8656, section 7.1). With [`RelayedPort::Even`] and
    /// `reserves`, [`TurnClient::on_datagram`](crate::TurnClient::on_datagram) returns the token of
    /// the reservation, by which another client of the same user asks for the next-higher port, at
    /// the same server, with [`RelayedPort::Reserved`]. The setting `family` of that one is the
    /// family of the first one's relayed address; its requests don't name it. A server that has no
    /// such port rejects the client with 508, and one that doesn't know the attributes with 420.
    pub port: RelayedPort,
    /// Whether Allocate requests have a DONT-FRAGMENT (section 18.9), which the server has to know
    /// before data is sent by [`TurnClient::send_whole`](crate::TurnClient::send_whole). A server that can't
    /// set the DF bit rejects the client with 420.
    pub dont_fragment: bool,
    /// The one password algorithm that the client supports (RFC 8489, section 18.5.1); `None` for
    /// SHA-256, which it prefers, and MD5.
    pub only_algorithm: Option<PasswordAlgorithmValue>,
    /// The name of the client's software (RFC 8489, section 14.14), if requests say one.
    pub software: Option<Software>,
    /// Whether requests have a FINGERPRINT.
    pub fingerprint: bool,
}
