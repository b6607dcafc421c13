use crate::{AttributeKind, XorAddressAttribute};
use stun_grammar::attribute_types;

/// XOR-MAPPED-ADDRESS (0x0020): the address that a request came from, as the server saw it
/// (RFC 8489, section 14.2).
///
/// Its value has 8 bytes for IPv4 and 20 for IPv6: a zero, the family in a byte (1 for IPv4, 2 for
/// IPv6), the port in two bytes and the address in four or sixteen, big-endian, port and address
/// XORed as [`crate::XorSocketAddr`] says.
///
/// # Examples
///
/// ```
/// use std::net::{IpAddr, Ipv4Addr, SocketAddr};
/// use stun_types::attribute::XorMappedAddress;
/// use stun_types::message::TransactionId;
/// use stun_types::prelude::*;
///
/// // the address in the sample response of RFC 5769, section 2.2
/// let addr = SocketAddr::new(IpAddr::V4(Ipv4Addr::new(192, 0, 2, 1)), 32853);
/// let id = TransactionId::from(0xB7E7_A701_BC34_D686_FA87_DFAE);
/// let attribute = XorMappedAddress::new(addr, id);
/// let raw = attribute.to_raw(alloc)?;
/// let value = [0x00, 0x01, 0xA1, 0x47, 0xE1, 0x12, 0xA6, 0x43];
/// assert_eq!(rt; raw.value().as_bytes(), value.as_slice());
/// let text = "32(0x20: XOR-MAPPED-ADDRESS): 192.0.2.1:32853";
/// assert_eq!(rt; format!(in alloc; "{attribute}")?.as_str(), text);
/// ```
pub type XorMappedAddress = XorAddressAttribute<XorMappedAddressKind>;

/// The kind of [`XorMappedAddress`]. Its name has the number of the type, as in each attribute of
/// RFC 8489 that is printed.
pub enum XorMappedAddressKind {}

impl AttributeKind for XorMappedAddressKind {
    ghost use Rattle.stun_grammar.specs.AttributeTypes.{XOR_MAPPED_ADDRESS};
    ghost use Rattle.stun_grammar.specs.Names.{attribute_type_text};

    ghost NUMBER = { XOR_MAPPED_ADDRESS };

    ghost NAME = { attribute_type_text XOR_MAPPED_ADDRESS };

    const NUMBER: u16 = attribute_types::XOR_MAPPED_ADDRESS;

    fn name() -> &'static str {
        "32(0x20: XOR-MAPPED-ADDRESS)"
    }
}
