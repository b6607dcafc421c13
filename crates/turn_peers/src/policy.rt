//! Policies on peers.

ghost use Rattle.std.specs.Prelude.{◌≡◌, Bool};
ghost use Rattle.stun_endpoints.specs.declared.endpoints.Ip.{Ip};
ghost use Rattle.stun_endpoints.specs.declared.endpoints.Endpoint.{Endpoint};

use stun_endpoints::{Endpoint, Ip};

/// A policy that decides which peers clients may reach (RFC 8656, section 21).
pub trait PeerPolicy {
    ghost allows_address: { Self → Ip → Bool };

    ghost allows_port: { Self → Endpoint → Bool };

    /// Whether clients may exchange data with this IP address. If not, a CreatePermission or ChannelBind
    /// request that names it is refused with 403. An address denied later keeps the permissions that it has,
    /// and its data is dropped all the same.
    ///
    /// A Teredo or 6to4 address is refused whatever this returns (RFC 8656, section 21.4).
    fn allows_address(&self, ip: Ip) -> bool
        ensures { result ≡ allows_address self.now ip };

    /// Whether clients may send to the peer's port, if its IP address is allowed. The server's own port, for
    /// example, would be a loop (RFC 8656, section 21.1.7). If not, a ChannelBind request is refused with
    /// 403, and data to the port is dropped. It doesn't affect CreatePermission requests, whose ports are
    /// ignored, and data from the port.
    fn allows_port(&self, peer: Endpoint) -> bool
        ensures { result ≡ allows_port self.now peer };
}
