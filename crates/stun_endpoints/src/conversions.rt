//! Addresses of the standard library as two numbers, and back.

ghost use Rattle.std.specs.Prelude.{◌≡◌, true};
ghost use Rattle.std.specs.Net.Addr.{ipv4_octets, ipv6_octets};
ghost use Rattle.stun_grammar.specs.Numbers.{number};
ghost use Rattle.stun_endpoints.specs.Endpoints.{Endpoint};
ghost use Rattle.stun_endpoints.specs.Conversions.{is_address, ip_of, ip_addr_of, endpoint_of, socket_of};

use crate::endpoints::{Endpoint, Ip};
use byteorder::{BigEndian, ByteOrder};
use std::net::{IpAddr, Ipv4Addr, Ipv6Addr, SocketAddr};

/// The bytes of an IPv4 address as a number.
fn ipv4_number(ip: Ipv4Addr) -> u128
    ensures { result ≡ number (ipv4_octets ip) }
{
    BigEndian::read_u32(&ip.octets()) as u128
}

/// The bytes of an IPv6 address as a number.
fn ipv6_number(ip: Ipv6Addr) -> u128
    ensures { result ≡ number (ipv6_octets ip) }
{
    u128::from_be_bytes(ip.octets())
}

/// Converts an IP address.
impl From<IpAddr> for Ip {
    ghost from_gives = { λ a made. made ≡ ip_of a };

    fn from(ip: IpAddr) -> Self {
        match ip {
            IpAddr::V4(ip) => Ip {
                family: 1,
                number: ipv4_number(ip),
            },
            IpAddr::V6(ip) => Ip {
                family: 2,
                number: ipv6_number(ip),
            },
        }
    }
}

/// Converts an IP address back: into one of IPv4 if its family is 1, and otherwise of IPv6. An IPv4
/// address has the low four bytes of the number.
impl From<Ip> for IpAddr {
    ghost from_gives = { λ ip a. a ≡ ip_addr_of ip };

    fn from(ip: Ip) -> Self {
        let bytes = ip.number.to_be_bytes();
        if ip.family == 1 {
            let [.., a, b, c, d] = bytes;
            return IpAddr::V4(Ipv4Addr::new(a, b, c, d));
        }
        IpAddr::V6(Ipv6Addr::from_octets(bytes))
    }
}

/// Converts a socket address: without flow info and scope ID, which may differ between two datagrams
/// of one client.
///
/// # Examples
///
/// ```
/// use std::net::SocketAddr;
/// use stun_endpoints::Endpoint;
///
/// let client = Endpoint::from("192.0.2.1:32853".parse::<SocketAddr>()?);
/// assert_eq!(rt; (client.ip.family, client.ip.number, client.port), (1, 0xC000_0201, 32853));
/// let client = Endpoint::from("[2001:db8::1]:3478".parse::<SocketAddr>()?);
/// assert_eq!(rt; (client.ip.family, client.port), (2, 3478));
/// ```
impl From<SocketAddr> for Endpoint {
    ghost from_gives = { λ a made. made ≡ endpoint_of a };

    fn from(addr: SocketAddr) -> Self {
        Endpoint {
            ip: Ip::from(addr.ip()),
            port: addr.port(),
        }
    }
}

/// Converts a transport address back, as its IP address is converted, with flow info and scope ID 0:
/// the inverse of `Endpoint::from` for every endpoint whose IP address [is one](Ip::is_address).
///
/// # Examples
///
/// ```
/// use std::net::SocketAddr;
/// use stun_endpoints::Endpoint;
///
/// let peer: SocketAddr = "192.0.2.1:32853".parse()?;
/// assert_eq!(rt; SocketAddr::from(Endpoint::from(peer)), peer);
/// let peer: SocketAddr = "[2001:db8::1]:3478".parse()?;
/// assert_eq!(rt; SocketAddr::from(Endpoint::from(peer)), peer);
/// ```
impl From<Endpoint> for SocketAddr {
    ghost from_gives = { λ endpoint a. a ≡ socket_of endpoint };

    fn from(endpoint: Endpoint) -> Self {
        SocketAddr::new(IpAddr::from(endpoint.ip), endpoint.port)
    }
}

/// The law of socket addresses: a transport address that is converted into one, and back, is the same.
/// The function does nothing: its contract is the law.
pub fn sockets_are_of_endpoints()
    ensures { (e : Endpoint) → is_address e.ip ≡ true → endpoint_of (socket_of e) ≡ e }
{}
