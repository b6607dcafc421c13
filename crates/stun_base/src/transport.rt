//! The transports that carry messages, and the families of addresses.

ghost use Rattle.std.specs.Prelude.{◌≡◌};
ghost use Rattle.stun_base.specs.Transports.{transport_name};

use std::fmt;
use std::net::{IpAddr, Ipv4Addr, Ipv6Addr, SocketAddr, SocketAddrV4, SocketAddrV6};
use std::str::FromStr;
use stun_text::{PrintText, TextSink};
use thiserror::Error;

/// The transport that carries a message.
#[derive(Clone, Copy, Debug, PartialEq, Eq)]
pub enum TransportType {
    /// The transport protocol UDP.
    Udp,
    /// The transport protocol TCP.
    Tcp,
}

impl TransportType {
    /// The name: `UDP` or `TCP`.
    fn name(self) -> &'static str
        ensures { result.now ≡ transport_name self }
    {
        match self {
            TransportType::Udp => "UDP",
            TransportType::Tcp => "TCP",
        }
    }
}

impl PrintText for TransportType {
    ghost use Rattle.stun_base.specs.Transports.{transport_name};

    ghost text = { transport_name };

    fn print<S: TextSink>(&self, sink: &mut S) -> Result<(), S::Error> {
        sink.put(self.name())
    }
}

/// `UDP` or `TCP`, in the width, with the fill and on the side that the format asks for, and cut to
/// its precision, as a text is.
impl fmt::Display for TransportType {
    ghost use Rattle.std.specs.Prelude.{Some};
    ghost use Rattle.std.specs.Fmt.{styled_text};
    ghost use Rattle.stun_base.specs.Transports.{transport_name};

    ghost output = { λ transport. Some (transport_name transport) };

    ghost styled_output = { λ transport options.
        Some (styled_text options (transport_name transport)) };

    fn fmt<W: fmt::Write>(&self, f: &mut fmt::Formatter<W>) -> fmt::Result {
        f.pad(self.name())
    }
}

/// The error of a text that is not the name of a transport.
#[derive(Debug, Drop, Error)]
pub enum ParseTransportTypeError {
    /// The text is neither `udp` nor `tcp`, in any case of its letters.
    #[error("Unknown transport value was provided")]
    UnknownTransport,
}

/// Reads the name `udp` or `tcp`, in any case of its letters.
///
/// # Errors
///
/// `UnknownTransport` for every other text.
///
/// # Examples
///
/// ```
/// use std::str::FromStr;
/// use stun_types::TransportType;
///
/// assert_eq!(rt; TransportType::from_str("Tcp").ok(), Some(TransportType::Tcp));
/// assert!(rt; TransportType::from_str("sctp").is_err());
/// ```
impl FromStr for TransportType {
    ghost use Rattle.stun_base.specs.Transports.{NamesTransport};

    type Err = ParseTransportTypeError;

    ghost from_str_gives = { NamesTransport };

    fn from_str(s: &str) -> Result<Self, Self::Err> {
        if s.eq_ignore_ascii_case("udp") {
            Ok(TransportType::Udp)
        } else if s.eq_ignore_ascii_case("tcp") {
            Ok(TransportType::Tcp)
        } else {
            Err(ParseTransportTypeError::UnknownTransport)
        }
    }
}

/// The family of an address: IPv4 or IPv6.
///
/// # Examples
///
/// ```
/// use std::net::{IpAddr, Ipv6Addr};
/// use stun_types::AddressFamily;
///
/// let ip = IpAddr::V6(Ipv6Addr::new(0, 0, 0, 0, 0, 0, 0, 1));
/// assert_eq!(rt; AddressFamily::from(&ip), AddressFamily::IPV6);
/// ```
#[derive(Clone, Copy, Debug, PartialEq, Eq)]
pub enum AddressFamily {
    /// The family of IPv4 addresses.
    IPV4,
    /// The family of IPv6 addresses.
    IPV6,
}

impl PrintText for AddressFamily {
    ghost use Rattle.stun_base.specs.Transports.{family_name};

    ghost text = { family_name };

    fn print<S: TextSink>(&self, sink: &mut S) -> Result<(), S::Error> {
        sink.put(match self {
            AddressFamily::IPV4 => "IPV4",
            AddressFamily::IPV6 => "IPV6",
        })
    }
}

/// `IPV4` or `IPV6`.
impl fmt::Display for AddressFamily {
    ghost use Rattle.std.specs.Prelude.{Some};
    ghost use Rattle.stun_base.specs.Transports.{family_name};

    ghost output = { λ family. Some (family_name family) };

    fn fmt<W: fmt::Write>(&self, f: &mut fmt::Formatter<W>) -> fmt::Result {
        self.print(f)
    }
}

impl From<&SocketAddr> for AddressFamily {
    ghost use Rattle.std.specs.Prelude.{◌≡◌};
    ghost use Rattle.std.specs.Net.Socket.{socket_ip};
    ghost use Rattle.stun_base.specs.Transports.{family_of};

    ghost from_gives = { λ addr family. family ≡ family_of (socket_ip addr.now) };

    fn from(addr: &SocketAddr) -> Self {
        match addr {
            SocketAddr::V4(_) => AddressFamily::IPV4,
            SocketAddr::V6(_) => AddressFamily::IPV6,
        }
    }
}

impl From<&SocketAddrV4> for AddressFamily {
    ghost use Rattle.std.specs.Prelude.{◌≡◌};
    ghost use Rattle.stun_base.specs.declared.transport.AddressFamily.TheVariants.{IPV4};

    ghost from_gives = { λ _ family. family ≡ IPV4 };

    fn from(_addr: &SocketAddrV4) -> Self {
        AddressFamily::IPV4
    }
}

impl From<&SocketAddrV6> for AddressFamily {
    ghost use Rattle.std.specs.Prelude.{◌≡◌};
    ghost use Rattle.stun_base.specs.declared.transport.AddressFamily.TheVariants.{IPV6};

    ghost from_gives = { λ _ family. family ≡ IPV6 };

    fn from(_addr: &SocketAddrV6) -> Self {
        AddressFamily::IPV6
    }
}

impl From<&IpAddr> for AddressFamily {
    ghost use Rattle.std.specs.Prelude.{◌≡◌};
    ghost use Rattle.stun_base.specs.Transports.{family_of};

    ghost from_gives = { λ ip family. family ≡ family_of ip.now };

    fn from(ip: &IpAddr) -> Self {
        match ip {
            IpAddr::V4(_) => AddressFamily::IPV4,
            IpAddr::V6(_) => AddressFamily::IPV6,
        }
    }
}

impl From<&Ipv4Addr> for AddressFamily {
    ghost use Rattle.std.specs.Prelude.{◌≡◌};
    ghost use Rattle.stun_base.specs.declared.transport.AddressFamily.TheVariants.{IPV4};

    ghost from_gives = { λ _ family. family ≡ IPV4 };

    fn from(_ip: &Ipv4Addr) -> Self {
        AddressFamily::IPV4
    }
}

impl From<&Ipv6Addr> for AddressFamily {
    ghost use Rattle.std.specs.Prelude.{◌≡◌};
    ghost use Rattle.stun_base.specs.declared.transport.AddressFamily.TheVariants.{IPV6};

    ghost from_gives = { λ _ family. family ≡ IPV6 };

    fn from(_ip: &Ipv6Addr) -> Self {
        AddressFamily::IPV6
    }
}
