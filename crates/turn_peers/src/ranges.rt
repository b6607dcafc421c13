//! Ranges of peers: a prefix of IP addresses, and ports.

ghost use Rattle.std.specs.Prelude.{◌≡◌};
ghost use Rattle.turn_peers.specs.Ranges.{all_ports, has_all_ports, denies, allows};

use crate::networks::Prefix;
use stun_endpoints::Ip;

/// Transport addresses: those whose IP address is one of a prefix, and whose port is one of a range.
///
/// # Examples
///
/// ```
/// use turn_peers::{PeerRange, Prefix};
///
/// let network: Prefix = "198.51.100.0/24".parse()?;
/// let services = PeerRange { prefix: network, first_port: 1, last_port: 1023 };
/// let all = PeerRange::from(network);
/// assert_eq!(rt; (all.first_port, all.last_port), (0, 65535));
/// assert!(rt; services != all);
/// ```
#[derive(Clone, Copy, Debug, PartialEq, Eq)]
pub struct PeerRange {
    /// The IP addresses.
    pub prefix: Prefix,
    /// The first port.
    pub first_port: u16,
    /// The last port. If it is below the first one, the range is empty.
    pub last_port: u16,
}

/// All ports of the addresses of a prefix.
impl From<Prefix> for PeerRange {
    fn from(prefix: Prefix) -> PeerRange
        ensures { result ≡ all_ports prefix }
    {
        PeerRange {
            prefix,
            first_port: 0,
            last_port: u16::MAX,
        }
    }
}

impl PeerRange {
    /// Whether the range has every port.
    pub(crate) fn has_all_ports(&self) -> bool
        ensures { result ≡ has_all_ports self.now }
    {
        self.first_port == 0 && self.last_port == u16::MAX
    }

    /// Whether the range denies a peer, if it is in a list of denied ones. `None` is a peer of any port: a range
    /// that lacks a port doesn't deny it.
    pub(crate) fn denies(&self, ip: Ip, port: Option<u16>) -> bool
        ensures { result ≡ denies ip port self.now }
    {
        match port {
            Some(port) => self.allows(ip, Some(port)),
            None => self.prefix.contains(ip) && self.has_all_ports(),
        }
    }

    /// Whether the range allows a peer, if it is in a list of allowed ones. `None` is a peer of any port.
    pub(crate) fn allows(&self, ip: Ip, port: Option<u16>) -> bool
        ensures { result ≡ allows ip port self.now }
    {
        match port {
            Some(port) => {
                self.first_port <= port && port <= self.last_port && self.prefix.contains(ip)
            }
            None => self.prefix.contains(ip),
        }
    }
}
