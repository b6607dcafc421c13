//! How a server authenticates, and what its responses show of it.

ghost use Rattle.std.specs.Prelude.{◌≡◌};
ghost use Rattle.turn_server.specs.Access.{seconds_of};

use std::net::SocketAddr;
use stun_authentication::{NonceMaker, NoncesOf, Policy};
use stun_endpoints::Endpoint;
use stun_types::attribute::{PasswordAlgorithmValue, Realm, Software};

/// How a server authenticates, and what its responses show of it.
///
/// The nonces count the seconds of the clock that the server is called with. A 401 or a 438 has the
/// realm, a new nonce, and the password algorithms SHA-256 and MD5 if the nonces promise a list
/// ([`SecurityFeatures::password_algorithms`](stun_authentication::SecurityFeatures)).
#[derive(Debug, Drop)]
pub struct Access {
    /// Makes the nonces, and recognizes them.
    pub nonces: NonceMaker,
    /// The realm of the long-term credentials (RFC 8489, section 9.2).
    pub realm: Realm,
    /// Which requests are taken, and which integrity attributes count.
    pub policy: Policy,
    /// The SOFTWARE of the responses to users' requests, if they have one.
    pub software: Option<Software>,
    /// Another server, if there is one. An Allocate request that would be refused with 508 is refused with 300
    /// (Try Alternate), and gets the address of that server in an ALTERNATE-SERVER, if it is of the client's
    /// family, and the request has no RESERVATION-TOKEN (RFC 8489, section 10). The client uses the same
    /// credentials there, and the same transport. No ALTERNATE-DOMAIN is sent: over TLS or DTLS that server's
    /// certificate has to be for the same name.
    pub alternate: Option<Endpoint>,
}

/// The whole seconds of a time in nanoseconds.
pub(crate) fn seconds(now: u64) -> u64
    ensures { result ≡ seconds_of now }
{
    now / 1_000_000_000
}

/// The algorithms of a 401, the one that the server prefers first.
const OFFERED: [PasswordAlgorithmValue; 2] = [
    PasswordAlgorithmValue::SHA256,
    PasswordAlgorithmValue::MD5,
];

impl Access {
    ghost use Rattle.std.specs.Prelude.{◌≡◌, ◌≤◌, length};
    ghost use Rattle.stun_authentication.specs.Nonces.{minting_of, state_of};
    ghost use Rattle.turn_server.specs.Access.{offered, nonces_at};

    /// The password algorithms that are sent with each nonce.
    pub(crate) fn algorithms(&self) -> &[PasswordAlgorithmValue]
        ensures algorithms { result.now ≡ offered (minting_of self.now.nonces).features }
        ensures few { length result.now ≤ 2 }
    {
        if self.nonces.features().password_algorithms {
            &OFFERED
        } else {
            &[]
        }
    }

    /// The nonces of a client, at a time in nanoseconds.
    pub(crate) fn nonces_of(&self, now: u64, client: Endpoint) -> NoncesOf<'_>
        ensures { state_of result ≡ nonces_at client now self.now }
    {
        let client = SocketAddr::from(client);
        self.nonces.nonces(seconds(now), client, self.algorithms())
    }
}
