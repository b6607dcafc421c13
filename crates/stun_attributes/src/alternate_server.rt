use crate::{AddressAttribute, AttributeKind};
use std::net::SocketAddr;
use stun_grammar::attribute_types;

/// ALTERNATE-SERVER (0x8023): the address of another server that the client is to try (RFC 8489,
/// section 14.15).
///
/// Its value has 8 bytes for IPv4 and 20 for IPv6: a zero, the family in a byte (1 for IPv4, 2 for
/// IPv6), the port in two bytes and the address in four or sixteen, big-endian, as
/// [`crate::MappedSocketAddr`] holds it.
///
/// # Examples
///
/// ```
/// use std::net::{IpAddr, Ipv4Addr, SocketAddr};
/// use stun_types::attribute::AlternateServer;
/// use stun_types::prelude::*;
///
/// let addr = SocketAddr::new(IpAddr::V4(Ipv4Addr::new(192, 0, 2, 7)), 3478);
/// let attribute = AlternateServer::new(addr);
/// assert_eq!(rt; attribute.server(), addr);
/// let raw = attribute.to_raw(alloc)?;
/// assert_eq!(rt; raw.value().as_bytes(), [0, 1, 0x0D, 0x96, 192, 0, 2, 7].as_slice());
/// let text = "32803(0x8023: ALTERNATE-SERVER): 192.0.2.7:3478";
/// assert_eq!(rt; format!(in alloc; "{attribute}")?.as_str(), text);
/// ```
pub type AlternateServer = AddressAttribute<AlternateServerKind>;

/// The kind of [`AlternateServer`]. Its name has the number of the type, as in each attribute of
/// RFC 8489 that is printed.
pub enum AlternateServerKind {}

impl AttributeKind for AlternateServerKind {
    ghost use Rattle.stun_grammar.specs.AttributeTypes.{ALTERNATE_SERVER};
    ghost use Rattle.stun_grammar.specs.Names.{attribute_type_text};

    ghost NUMBER = { ALTERNATE_SERVER };

    ghost NAME = { attribute_type_text ALTERNATE_SERVER };

    const NUMBER: u16 = attribute_types::ALTERNATE_SERVER;

    fn name() -> &'static str {
        "32803(0x8023: ALTERNATE-SERVER)"
    }
}

impl AlternateServer {
    ghost use Rattle.std.specs.Prelude.{◌≡◌};
    ghost use Rattle.stun_attributes.specs.Kinds.{addr_of};

    /// The address of the other server.
    pub fn server(&self) -> SocketAddr
        ensures { result ≡ addr_of self.now }
    {
        self.addr()
    }
}
