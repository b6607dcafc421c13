//! What identifies a relayed address of a client.

ghost use Rattle.std.specs.Prelude.{◌≡◌, ◌<◌, ◌^◌, ◌++◌, ◌==◌, if◌then◌else◌};
ghost use Rattle.std.proofs.Common.{rules};
ghost use Rattle.std.specs.Cmp.Rules.{comparing, hashing};
ghost use Rattle.std.specs.Hash as fed;
ghost use Rattle.turn_slots.specs.Relays.{ports, ipv4_parts, small_parts};

use std::hash::{Hash, Hasher};
use stun_endpoints::FiveTuple;

/// A client and an address family. They identify a relayed address, since an allocation has at most one of
/// each family (RFC 8656, section 5).
#[derive(Clone, Copy, Debug, Default, PartialEq, Eq)]
pub struct RelayKey {
    /// The client.
    pub tuple: FiveTuple,
    /// The family of the relayed address: 1 for IPv4 and 2 for IPv6.
    pub family: u8,
}

impl RelayKey {
    /// The ports of the client and of the server as one number.
    fn ports(&self) -> u64
        ensures value { result ≡ ports self.now }
        ensures few { result < 2 ^ 32 }
    {
        self.tuple.client.port as u64 * 65_536 + self.tuple.server.port as u64
    }

    /// The low four bytes of the client's IP address, and the ports, as one number.
    fn ipv4_parts(&self) -> u64
        ensures { result ≡ ipv4_parts self.now }
    {
        let address = self.tuple.client.ip.number % 4_294_967_296;
        address as u64 * 4_294_967_296 + self.ports()
    }

    /// The family of the client, the protocol and the ports as one number.
    fn small_parts(&self) -> u64
        ensures { result ≡ small_parts self.now }
    {
        let kinds = self.tuple.client.ip.family as u64 * 256 + self.tuple.transport as u64;
        kinds * 4_294_967_296 + self.ports()
    }
}

// Whole words, since a hasher takes these at once: one for a client with an IPv4 address. The server's IP address
// is left out: a server has few. So is the family, so that a client's relayed addresses have one hash.
impl Hash for RelayKey {
    ghost hash_input = { λ key. if key.tuple.client.ip.family == 1 then fed.u64 (ipv4_parts key)
        else fed.u128 key.tuple.client.ip.number ++ fed.u64 (small_parts key) };

    ghost respects_eq = { Prim.search (hashing, rules) };

    fn hash<H: Hasher>(&self, state: &mut H) {
        if self.tuple.client.ip.family == 1 {
            state.write_u64(self.ipv4_parts());
            return;
        }
        state.write_u128(self.tuple.client.ip.number);
        state.write_u64(self.small_parts());
    }
}
