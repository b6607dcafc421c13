//! Whether a response to a check comes back the way that the check went (RFC 8445, section 7.2.5.2.1).

ghost use Rattle.std.specs.Prelude.{◌≡◌, ◌↔◌, IsTrue};
ghost use Rattle.ice_attrs.specs.Symmetry.{AreSame, AreSymmetric};

use std::net::SocketAddr;

/// The two transport addresses of a datagram that is a check, or the response to one. If a TURN
/// server relays it, the agent's own is the relayed address.
#[derive(Clone, Copy, Debug, PartialEq, Eq)]
pub struct TransportAddresses {
    /// The address that the datagram comes from.
    pub source: SocketAddr,
    /// The address that the datagram is sent to.
    pub destination: SocketAddr,
}

/// Whether the transport addresses of a check and of its response are symmetric (RFC 8445, section
/// 7.2.5.2.1).
#[derive(Clone, Copy, Debug, PartialEq, Eq)]
pub enum Symmetry {
    /// The response comes from where the check was sent to, and arrives where it was sent from.
    Symmetric,
    /// The response comes from elsewhere, or arrives elsewhere: the pair has failed, even if the
    /// response is authentic.
    NonSymmetric,
}

/// Whether two transport addresses have one IP address and one port.
fn is_same(one: SocketAddr, other: SocketAddr) -> bool
    ensures { IsTrue result ↔ AreSame one other }
{
    one.ip() == other.ip() && one.port() == other.port()
}

/// Compares the transport addresses of a check with those of its response (RFC 8445, section
/// 7.2.5.2.1).
///
/// Compare those of a response that is authentic, and do so before anything else is done with it.
/// One that isn't authentic is discarded, and fails no pair: otherwise whoever sees a check could
/// fail its pair without the password (section 19.2).
///
/// IP addresses and ports are compared. The flow information and the scope ID of an IPv6 address,
/// which `==` of `SocketAddr` compares too, are not: RFC 8445 names neither, and a candidate that
/// the peer signals has neither. If one socket serves link-local candidates on several links,
/// compare `scope_id` as well. An IPv4-mapped IPv6 address differs from the IPv4 address in it.
///
/// # Examples
///
/// ```
/// use ice_attrs::{Symmetry, TransportAddresses, compare_addresses};
/// use std::net::SocketAddr;
///
/// let own: SocketAddr = "10.0.1.1:8998".parse()?;
/// let peer: SocketAddr = "192.0.2.1:3478".parse()?;
/// let other: SocketAddr = "192.0.2.7:3478".parse()?;
/// let sent = TransportAddresses { source: own, destination: peer };
/// let received = TransportAddresses { source: peer, destination: own };
/// assert_eq!(rt; compare_addresses(&sent, &received), Symmetry::Symmetric);
/// let received = TransportAddresses { source: other, destination: own };
/// assert_eq!(rt; compare_addresses(&sent, &received), Symmetry::NonSymmetric);
/// ```
pub fn compare_addresses(request: &TransportAddresses, response: &TransportAddresses) -> Symmetry
    ensures { (result ≡ Symmetry.Symmetric) ↔ AreSymmetric request.now response.now }
{
    if is_same(response.source, request.destination)
        && is_same(response.destination, request.source)
    {
        Symmetry::Symmetric
    } else {
        Symmetry::NonSymmetric
    }
}
