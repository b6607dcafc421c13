//! Addresses of tunnels to IPv6 (RFC 8656, section 21.4).

ghost use Rattle.std.specs.Prelude.{◌≡◌};
ghost use Rattle.turn_peers.specs.Tunnels.{is_tunnelled};

use stun_endpoints::Ip;

/// Whether an address is one of Teredo, 2001::/32, or of 6to4, 2002::/16.
///
/// A server refuses with 403 an Allocate request from a client with such an address, and a
/// CreatePermission or a ChannelBind request for such a peer, whatever its policy allows: what is
/// relayed could go back and forth between the server and the end of the tunnel (RFC 8656, section
/// 21.4).
///
/// # Examples
///
/// ```
/// use stun_endpoints::Ip;
/// use turn_peers::is_tunnelled;
///
/// assert!(rt; is_tunnelled(Ip { family: 2, number: 0x2002_C000_0201 << 80 }));
/// assert!(rt; !is_tunnelled(Ip { family: 2, number: 0x2001_0DB8 << 96 }));
/// assert!(rt; !is_tunnelled(Ip { family: 1, number: 0xC000_0201 }));
/// ```
pub fn is_tunnelled(ip: Ip) -> bool
    ensures { result ≡ is_tunnelled ip }
{
    ip.family == 2 && (ip.number >> 96 == 0x2001_0000 || ip.number >> 112 == 0x2002)
}
