//! An IP address, a transport address, and the 5-tuple that identifies a client (RFC 8656, section 2).

ghost use Rattle.std.specs.Prelude.{◌≡◌, ◌++◌};
ghost use Rattle.std.proofs.Common.{rules};
ghost use Rattle.std.specs.Cmp.Rules.{comparing, hashing};
ghost use Rattle.std.specs.Hash as fed;
ghost use Rattle.stun_endpoints.specs.Endpoints.{small_parts};

use std::hash::{Hash, Hasher};

/// An IP address, as its family and its bytes as a number. `Ip::from` and `IpAddr::from` convert it.
#[derive(Clone, Copy, Debug, Default, PartialEq, Eq, Hash)]
pub struct Ip {
    /// The address family: 1 for IPv4 and 2 for IPv6.
    pub family: u8,
    /// The four or sixteen bytes as a number, big-endian.
    pub number: u128,
}

/// A transport address: an IP address and a port. `Endpoint::from` and `SocketAddr::from` convert it.
#[derive(Clone, Copy, Debug, Default, PartialEq, Eq, Hash)]
pub struct Endpoint {
    /// The IP address.
    pub ip: Ip,
    /// The port.
    pub port: u16,
}

/// The 5-tuple that identifies a client and its allocation (RFC 8656, section 2).
#[derive(Clone, Copy, Debug, Default, PartialEq, Eq)]
pub struct FiveTuple {
    /// The client's address, as the server sees it.
    pub client: Endpoint,
    /// The server's address, to which the client sends.
    pub server: Endpoint,
    /// The protocol between both, by a number of the caller's choice, such as 17 for UDP.
    pub transport: u8,
}

impl Ip {
    ghost use Rattle.std.specs.Prelude.{◌≡◌};
    ghost use Rattle.stun_endpoints.specs.Conversions.{is_address};

    /// Whether it is an address: of family 1 with a number of at most 32 bits, or of family 2.
    ///
    /// # Examples
    ///
    /// ```
    /// use stun_endpoints::Ip;
    ///
    /// assert!(rt; Ip { family: 1, number: 0xFFFF_FFFF }.is_address());
    /// assert!(rt; !Ip { family: 1, number: 0x1_0000_0000 }.is_address());
    /// assert!(rt; Ip { family: 2, number: 0x1_0000_0000 }.is_address());
    /// assert!(rt; !Ip::default().is_address());
    /// ```
    pub fn is_address(self) -> bool
        ensures { result ≡ is_address self }
    {
        match self.family {
            1 => self.number < 1 << 32,
            2 => true,
            _ => false,
        }
    }
}

impl FiveTuple {
    /// The families, ports and protocol as one number.
    fn small_parts(&self) -> u64
        ensures { result ≡ small_parts self.now }
    {
        let ports = self.client.port as u64 * 65_536 + self.server.port as u64;
        let families = self.client.ip.family as u64 * 256 + self.server.ip.family as u64;
        (families * 256 + self.transport as u64) * 4_294_967_296 + ports
    }
}

// Whole words, since a hasher takes these at once.
impl Hash for FiveTuple {
    ghost hash_input = { λ t. fed.u128 t.client.ip.number ++ fed.u128 t.server.ip.number
        ++ fed.u64 (small_parts t) };

    ghost respects_eq = { Prim.search (hashing, rules) };

    fn hash<H: Hasher>(&self, state: &mut H) {
        state.write_u128(self.client.ip.number);
        state.write_u128(self.server.ip.number);
        state.write_u64(self.small_parts());
    }
}
