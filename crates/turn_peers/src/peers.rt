//! What a server relays to by its caller's prefixes.

use crate::defaults::with_octet_of;
use crate::policy::PeerPolicy;
use crate::ranges::PeerRange;
use std::net::{IpAddr, SocketAddr};
use stun_endpoints::{Endpoint, Ip};

/// Which peers a server relays to: the caller's rules, and [`DENIED_BY_DEFAULT`] after them.
///
/// Of the ranges that contain a peer's address and port the one with the longest prefix decides. If one prefix is
/// in several lists, `denied` comes before `allowed`, and `allowed` before [`DENIED_BY_DEFAULT`]: `10.0.0.0/8`
/// in `allowed` opens what the default closes, and in both lists it is closed. A peer that no range contains is
/// allowed, so a range with some ports opens or closes these alone. A permission, which is of no port, is
/// refused if a range with all ports denies the address, and none with a longer prefix, whatever its ports,
/// allows it. A prefix contains addresses of its own family alone:
/// `::ffff:10.0.0.1` is an IPv6 address, and denied as one of `::ffff:0:0/96`. If IPv4 addresses are
/// translated in your network by an IPv6 prefix of its own (RFC 6052), deny that prefix.
///
/// # Examples
///
/// ```
/// use std::net::SocketAddr;
/// use turn_peers::{PeerRange, Peers, Prefix};
///
/// let office: Prefix = "10.1.0.0/16".parse()?;
/// let database: Prefix = "10.1.9.9/32".parse()?;
/// let database = PeerRange { prefix: database, first_port: 5432, last_port: 5432 };
/// let own: SocketAddr = "198.51.100.7:3478".parse()?;
/// let peers = Peers { denied: &[database], allowed: &[office.into()], listening: &[own] };
/// assert!(rt; peers.allows("10.1.2.3:5000".parse()?));
/// assert!(rt; !peers.allows("10.2.2.3:5000".parse()?));
/// assert!(rt; peers.allows("10.1.9.9:5000".parse()?));
/// assert!(rt; !peers.allows("10.1.9.9:5432".parse()?));
/// // Two clients of this server may be each other's peers. The server itself is nobody's.
/// assert!(rt; peers.allows("198.51.100.7:50000".parse()?));
/// assert!(rt; !peers.allows(own));
/// ```
#[derive(Clone, Copy, Debug)]
pub struct Peers<'a> {
    /// The peers that the caller denies.
    pub denied: &'a [PeerRange],
    /// The peers that the caller allows.
    pub allowed: &'a [PeerRange],
    /// The addresses and ports to which the server's clients send. Each is denied (RFC 8656, section
    /// 21.1.7); other ports of its IP address are not. A server that listens on `0.0.0.0` or `::`
    /// lists each address of its host, an IPv4 address as such and not mapped to IPv6. Add those of
    /// the host's other services that peers shouldn't reach.
    pub listening: &'a [SocketAddr],
}

impl Peers<'_> {
    ghost use Rattle.std.specs.Prelude.{◌≡◌};
    ghost use Rattle.stun_endpoints.specs.Conversions.{ip_of};
    ghost use Rattle.std.specs.Prelude.{Option};
    ghost use Rattle.turn_peers.specs.Peers.{allows, allows_ip, allows_peer, are_whole, allows_port_of, is_listening};

    /// Whether the server relays to this peer: the ranges allow its IP address and port, and the server doesn't
    /// listen there. Flow information and scope ID don't count.
    ///
    /// It looks once at each address, and at each range, of [`DENIED_BY_DEFAULT`] those with the first octet of
    /// the peer's address; twice if some range hasn't all ports; and again at `allowed` for a range that denies
    /// the peer. It takes no memory.
    ///
    /// # Examples
    ///
    /// ```
    /// use turn_peers::Peers;
    ///
    /// let peers = Peers { denied: &[], allowed: &[], listening: &["192.0.2.1:3478".parse()?] };
    /// assert!(rt; peers.allows("192.0.2.1:49152".parse()?));
    /// assert!(rt; !peers.allows("192.0.2.1:3478".parse()?));
    /// assert!(rt; !peers.allows("127.0.0.1:49152".parse()?));
    /// ```
    pub fn allows(&self, peer: SocketAddr) -> bool
        ensures { result ≡ allows self.now peer }
    {
        let endpoint = Endpoint::from(peer);
        self.allows_ip(peer.ip()) && !self.is_listening(endpoint) && self.allows_port_of(endpoint)
    }

    /// Whether the server relays to peers of this IP address: the test for a permission, which is of no
    /// port (RFC 8656, section 9).
    ///
    /// # Examples
    ///
    /// ```
    /// use turn_peers::{Peers, Prefix};
    ///
    /// let network: Prefix = "203.0.113.0/24".parse()?;
    /// let peers = Peers { denied: &[network.into()], allowed: &[], listening: &[] };
    /// assert!(rt; peers.allows_ip("192.0.2.1".parse()?));
    /// assert!(rt; !peers.allows_ip("203.0.113.9".parse()?));
    /// assert!(rt; !peers.allows_ip("fe80::1".parse()?));
    /// ```
    pub fn allows_ip(&self, ip: IpAddr) -> bool
        ensures { result ≡ allows_ip self.now (ip_of ip) }
    {
        self.allows_number(Ip::from(ip), None)
    }

    /// Whether the ranges allow a peer.
    fn allows_number(&self, ip: Ip, port: Option<u16>) -> bool
        ensures { result ≡ allows_peer self.now.denied.now self.now.allowed.now ip port }
    {
        is_open(self.denied, self.allowed, 1, ip, port)
            && is_open_by_default(self.allowed, ip, port)
    }

    /// Whether each range has all ports.
    fn are_whole(&self) -> bool
        ensures { result ≡ are_whole self.now.denied.now self.now.allowed.now }
    {
        all_whole(self.denied) && all_whole(self.allowed)
    }

    /// Whether a port of an address that is allowed is so too.
    fn allows_port_of(&self, peer: Endpoint) -> bool
        ensures { result ≡ allows_port_of self.now.denied.now self.now.allowed.now peer }
    {
        self.are_whole() || self.allows_number(peer.ip, Some(peer.port))
    }

    /// Whether the server listens at a transport address.
    fn is_listening(&self, peer: Endpoint) -> bool
        ensures { result ≡ is_listening self.now.listening.now peer }
    {
        self.listening.iter().any(|own| is_at(*own, peer))
    }
}

/// The rules as a policy. [`Peers::allows`] is `allows_address` and `allows_port` of the same address. An [`Ip`]
/// that [is no address](Ip::is_address) is denied.
///
/// # Examples
///
/// ```
/// use stun_endpoints::{Endpoint, Ip};
/// use turn_peers::{PeerPolicy, Peers};
///
/// let own = Ip { family: 1, number: 0xC633_6407 };
/// let peers = Peers { denied: &[], allowed: &[], listening: &["198.51.100.7:3478".parse()?] };
/// assert!(rt; peers.allows_address(own));
/// assert!(rt; peers.allows_port(Endpoint { ip: own, port: 50000 }));
/// assert!(rt; !peers.allows_port(Endpoint { ip: own, port: 3478 }));
/// // 169.254.169.254
/// assert!(rt; !peers.allows_address(Ip { family: 1, number: 0xA9FE_A9FE }));
/// ```
impl PeerPolicy for Peers<'_> {
    ghost use Rattle.turn_peers.specs.Peers.{is_peer_allowed, is_port_allowed};

    ghost allows_address = { is_peer_allowed };

    ghost allows_port = { is_port_allowed };

    fn allows_address(&self, ip: Ip) -> bool {
        ip.is_address() && self.allows_number(ip, None)
    }

    fn allows_port(&self, peer: Endpoint) -> bool {
        peer.ip.is_address() && !self.is_listening(peer) && self.allows_port_of(peer)
    }
}

ghost use Rattle.std.specs.Prelude.{◌≡◌};
ghost use Rattle.std.specs.List.{list_all};
ghost use Rattle.stun_endpoints.specs.Conversions.{endpoint_of};
ghost use Rattle.stun_endpoints.specs.Endpoints.{is_endpoint};
ghost use Rattle.turn_peers.specs.declared.defaults.TheConstants.{DENIED_BY_DEFAULT as denied_by_default};
ghost use Rattle.turn_peers.specs.Peers.{is_allowed_by, is_open};
ghost use Rattle.turn_peers.specs.Ranges.{has_all_ports};

/// Whether a socket address is this transport address. The port is compared first, since few have the same.
fn is_at(own: SocketAddr, peer: Endpoint) -> bool
    ensures { result ≡ is_endpoint (endpoint_of own) peer }
{
    own.port() == peer.port && Endpoint::from(own) == peer
}

/// Whether each of these ranges has all ports.
fn all_whole(ranges: &[PeerRange]) -> bool
    ensures { result ≡ list_all has_all_ports ranges.now }
{
    ranges.iter().all(|range| range.has_all_ports())
}

/// Whether one of these ranges allows a peer, and its prefix has at least this length.
fn is_allowed_by(allowed: &[PeerRange], least: u16, ip: Ip, port: Option<u16>) -> bool
    ensures { result ≡ is_allowed_by allowed.now least ip port }
{
    allowed.iter().any(|range| least <= range.prefix.length() as u16 && range.allows(ip, port))
}

/// Whether for each of `denied` that denies a peer there is one of `allowed` that allows it, and whose prefix is
/// longer by at least `more`.
fn is_open(denied: &[PeerRange], allowed: &[PeerRange], more: u8, ip: Ip, port: Option<u16>) -> bool
    ensures { result ≡ is_open denied.now allowed.now more ip port }
{
    denied.iter().all(|range| {
        !range.denies(ip, port)
            || is_allowed_by(
                allowed,
                range.prefix.length() as u16 + more as u16,
                ip,
                port,
            )
    })
}

/// Whether for each of [`DENIED_BY_DEFAULT`](crate::DENIED_BY_DEFAULT) that denies a peer there is one of `allowed`
/// that allows it, and whose prefix is as long.
fn is_open_by_default(allowed: &[PeerRange], ip: Ip, port: Option<u16>) -> bool
    ensures { result ≡ is_open denied_by_default allowed.now 0 ip port }
{
    is_open(with_octet_of(ip), allowed, 0, ip, port)
}
