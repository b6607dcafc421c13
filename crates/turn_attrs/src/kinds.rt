//! Attributes whose values have a form of the library, and their numbers and names.

use crate::{Channel, IcmpError, Ipv6AddressFamily, attribute_types};
use stun_types::AddressFamily;
use stun_types::attribute::{
    AttributeKind, BytesAttribute, EmptyAttribute, PackedAttribute, ValueBytes, XorAddressAttribute,
};

/// CHANNEL-NUMBER: the channel that a peer is bound to (RFC 8656, section 18.1). The value is the
/// number of the channel in two bytes, big-endian, and two bytes that are written 0 and ignored.
///
/// # Examples
///
/// ```
/// use stun_types::prelude::*;
/// use turn_attrs::{Channel, ChannelNumber};
///
/// let channel = Channel::new(0x4000).ok_or("no channel")?;
/// let mut bytes = [0; 8];
/// assert_eq!(rt; ChannelNumber::new(channel).write_into(&mut bytes), Ok(8));
/// assert_eq!(rt; bytes, [0x00, 0x0C, 0x00, 0x04, 0x40, 0x00, 0x00, 0x00]);
/// ```
pub type ChannelNumber = PackedAttribute<ChannelNumberKind, Channel>;

/// The kind of [`ChannelNumber`].
pub enum ChannelNumberKind {}

impl AttributeKind for ChannelNumberKind {
    ghost use Rattle.std.specs.Prelude.{codes};
    ghost use Rattle.turn_attrs.specs.Turn.{CHANNEL_NUMBER};

    ghost NUMBER = { CHANNEL_NUMBER };

    ghost NAME = { codes "CHANNEL-NUMBER" };

    const NUMBER: u16 = attribute_types::CHANNEL_NUMBER;

    fn name() -> &'static str {
        "CHANNEL-NUMBER"
    }
}

/// CHANNEL-NUMBER as RFC 5766 has it, with a number up to 0x7FFF: [`ChannelNumber`] for a server that
/// serves clients of that RFC, [`ChannelRange::Rfc5766`](crate::ChannelRange::Rfc5766).
///
/// # Examples
///
/// ```
/// use stun_types::attribute::RawAttribute;
/// use stun_types::prelude::*;
/// use turn_attrs::{ChannelNumber, OldChannelNumber};
///
/// let raw = RawAttribute::from_bytes(b"\x00\x0C\x00\x04\x67\x80\x00\x00")?;
/// assert!(rt; ChannelNumber::from_raw_ref(alloc, &raw).is_err());
/// assert!(rt; OldChannelNumber::from_raw_ref(alloc, &raw).is_ok());
/// ```
pub type OldChannelNumber = PackedAttribute<OldChannelNumberKind, Channel>;

/// The kind of [`OldChannelNumber`].
pub enum OldChannelNumberKind {}

impl AttributeKind for OldChannelNumberKind {
    ghost use Rattle.std.specs.Prelude.{codes};
    ghost use Rattle.turn_attrs.specs.Turn.{CHANNEL_NUMBER};

    ghost NUMBER = { CHANNEL_NUMBER };

    ghost NAME = { codes "CHANNEL-NUMBER" };

    const NUMBER: u16 = attribute_types::CHANNEL_NUMBER;

    fn name() -> &'static str {
        "CHANNEL-NUMBER"
    }
}

/// XOR-PEER-ADDRESS: the address of a peer as the server sees it (RFC 8656, section 18.3). The
/// value is that of an XOR-MAPPED-ADDRESS, 8 bytes for IPv4 and 20 for IPv6.
///
/// # Examples
///
/// ```
/// use stun_types::attribute::RawAttribute;
/// use stun_types::message::TransactionId;
/// use stun_types::prelude::*;
/// use turn_attrs::XorPeerAddress;
///
/// // The address and the transaction ID of the example in section 20 of RFC 8656.
/// let raw = RawAttribute::from_bytes(b"\x00\x12\x00\x08\x00\x01\x5C\x74\xE1\x12\xA6\xD4")?;
/// let peer = XorPeerAddress::from_raw_ref(alloc, &raw)?;
/// let id = TransactionId::from(0x1278_E9AC_A271_1637_EF7D_3328);
/// assert_eq!(rt; peer.addr(id), "192.0.2.150:32102".parse()?);
/// ```
pub type XorPeerAddress = XorAddressAttribute<XorPeerAddressKind>;

/// The kind of [`XorPeerAddress`].
pub enum XorPeerAddressKind {}

impl AttributeKind for XorPeerAddressKind {
    ghost use Rattle.std.specs.Prelude.{codes};
    ghost use Rattle.turn_attrs.specs.Turn.{XOR_PEER_ADDRESS};

    ghost NUMBER = { XOR_PEER_ADDRESS };

    ghost NAME = { codes "XOR-PEER-ADDRESS" };

    const NUMBER: u16 = attribute_types::XOR_PEER_ADDRESS;

    fn name() -> &'static str {
        "XOR-PEER-ADDRESS"
    }
}

/// DATA: the data that a peer is sent, or has sent (RFC 8656, section 18.4). The value is any
/// bytes, at most 65535, which are borrowed or owned.
///
/// # Examples
///
/// ```
/// use stun_types::attribute::RawAttribute;
/// use stun_types::prelude::*;
/// use turn_attrs::PeerData;
///
/// let raw = RawAttribute::from_bytes(b"\x00\x13\x00\x05hello\x00\x00\x00")?;
/// assert_eq!(rt; PeerData::from_raw(alloc, raw)?.data(), b"hello".as_slice());
/// ```
pub type PeerData<'a> = BytesAttribute<DataKind, ValueBytes<'a>>;

/// The kind of [`PeerData`].
pub enum DataKind {}

impl AttributeKind for DataKind {
    ghost use Rattle.std.specs.Prelude.{codes};
    ghost use Rattle.turn_attrs.specs.Turn.{DATA};

    ghost NUMBER = { DATA };

    ghost NAME = { codes "DATA" };

    const NUMBER: u16 = attribute_types::DATA;

    fn name() -> &'static str {
        "DATA"
    }
}

/// XOR-RELAYED-ADDRESS: the address that the server has allocated (RFC 8656, section 18.5). The
/// value is that of an XOR-MAPPED-ADDRESS, 8 bytes for IPv4 and 20 for IPv6.
///
/// # Examples
///
/// ```
/// use stun_types::attribute::RawAttribute;
/// use stun_types::message::TransactionId;
/// use stun_types::prelude::*;
/// use turn_attrs::XorRelayedAddress;
///
/// // The address and the transaction ID of the example in section 20 of RFC 8656.
/// let raw = RawAttribute::from_bytes(b"\x00\x16\x00\x08\x00\x01\xE2\x42\xE1\x12\xA6\x4D")?;
/// let relayed = XorRelayedAddress::from_raw_ref(alloc, &raw)?;
/// let id = TransactionId::from(0xC271_E932_AD74_46A3_2C23_4492);
/// assert_eq!(rt; relayed.addr(id), "192.0.2.15:50000".parse()?);
/// ```
pub type XorRelayedAddress = XorAddressAttribute<XorRelayedAddressKind>;

/// The kind of [`XorRelayedAddress`].
pub enum XorRelayedAddressKind {}

impl AttributeKind for XorRelayedAddressKind {
    ghost use Rattle.std.specs.Prelude.{codes};
    ghost use Rattle.turn_attrs.specs.Turn.{XOR_RELAYED_ADDRESS};

    ghost NUMBER = { XOR_RELAYED_ADDRESS };

    ghost NAME = { codes "XOR-RELAYED-ADDRESS" };

    const NUMBER: u16 = attribute_types::XOR_RELAYED_ADDRESS;

    fn name() -> &'static str {
        "XOR-RELAYED-ADDRESS"
    }
}

/// REQUESTED-ADDRESS-FAMILY: the family of which the relayed address is to be (RFC 8656, section
/// 18.6). The value is a byte, 1 for IPv4 and 2 for IPv6, and three bytes that are written 0 and
/// ignored.
///
/// Reading refuses another family as `InvalidAttributeData`, and a malformed length by other
/// errors: a server answers the first with 440, Address Family Not Supported (RFC 8656, section
/// 7.2).
///
/// # Examples
///
/// ```
/// use stun_types::AddressFamily;
/// use stun_types::prelude::*;
/// use turn_attrs::RequestedAddressFamily;
///
/// let mut bytes = [0; 8];
/// assert_eq!(rt; RequestedAddressFamily::new(AddressFamily::IPV6).write_into(&mut bytes), Ok(8));
/// assert_eq!(rt; bytes, [0x00, 0x17, 0x00, 0x04, 0x02, 0x00, 0x00, 0x00]);
/// ```
pub type RequestedAddressFamily = PackedAttribute<RequestedAddressFamilyKind, AddressFamily>;

/// The kind of [`RequestedAddressFamily`].
pub enum RequestedAddressFamilyKind {}

impl AttributeKind for RequestedAddressFamilyKind {
    ghost use Rattle.std.specs.Prelude.{codes};
    ghost use Rattle.turn_attrs.specs.Turn.{REQUESTED_ADDRESS_FAMILY};

    ghost NUMBER = { REQUESTED_ADDRESS_FAMILY };

    ghost NAME = { codes "REQUESTED-ADDRESS-FAMILY" };

    const NUMBER: u16 = attribute_types::REQUESTED_ADDRESS_FAMILY;

    fn name() -> &'static str {
        "REQUESTED-ADDRESS-FAMILY"
    }
}

/// EVEN-PORT: the relayed port is to be even (RFC 8656, section 18.7), and if the value is true the
/// next-higher port is to be reserved too. It is one byte, whose highest bit is read; the others
/// are written 0 and ignored.
///
/// # Examples
///
/// ```
/// use stun_types::prelude::*;
/// use turn_attrs::EvenPort;
///
/// // The next-higher port is to be reserved too.
/// let mut bytes = [0; 8];
/// assert_eq!(rt; EvenPort::new(true).write_into(&mut bytes), Ok(8));
/// assert_eq!(rt; bytes, [0x00, 0x18, 0x00, 0x01, 0x80, 0x00, 0x00, 0x00]);
/// ```
pub type EvenPort = PackedAttribute<EvenPortKind, bool>;

/// The kind of [`EvenPort`].
pub enum EvenPortKind {}

impl AttributeKind for EvenPortKind {
    ghost use Rattle.std.specs.Prelude.{codes};
    ghost use Rattle.turn_attrs.specs.Turn.{EVEN_PORT};

    ghost NUMBER = { EVEN_PORT };

    ghost NAME = { codes "EVEN-PORT" };

    const NUMBER: u16 = attribute_types::EVEN_PORT;

    fn name() -> &'static str {
        "EVEN-PORT"
    }
}

/// REQUESTED-TRANSPORT: the protocol between the server and the peers (RFC 8656, section 18.8). The
/// value is its number in a byte, 17 for UDP and 6 for TCP (RFC 6062), and three bytes that are
/// written 0 and ignored.
///
/// # Examples
///
/// ```
/// use stun_types::prelude::*;
/// use turn_attrs::RequestedTransport;
///
/// // UDP between the server and the peers.
/// let mut bytes = [0; 8];
/// assert_eq!(rt; RequestedTransport::new(17).write_into(&mut bytes), Ok(8));
/// assert_eq!(rt; bytes, [0x00, 0x19, 0x00, 0x04, 0x11, 0x00, 0x00, 0x00]);
/// ```
pub type RequestedTransport = PackedAttribute<RequestedTransportKind, u8>;

/// The kind of [`RequestedTransport`].
pub enum RequestedTransportKind {}

impl AttributeKind for RequestedTransportKind {
    ghost use Rattle.std.specs.Prelude.{codes};
    ghost use Rattle.turn_attrs.specs.Turn.{REQUESTED_TRANSPORT};

    ghost NUMBER = { REQUESTED_TRANSPORT };

    ghost NAME = { codes "REQUESTED-TRANSPORT" };

    const NUMBER: u16 = attribute_types::REQUESTED_TRANSPORT;

    fn name() -> &'static str {
        "REQUESTED-TRANSPORT"
    }
}

/// DONT-FRAGMENT: packets to peers are not to be fragmented (RFC 8656, section 18.9). The value has
/// no bytes.
///
/// # Examples
///
/// ```
/// use stun_types::prelude::*;
/// use turn_attrs::DontFragment;
///
/// let mut bytes = [0; 4];
/// assert_eq!(rt; DontFragment::new().write_into(&mut bytes), Ok(4));
/// assert_eq!(rt; bytes, [0x00, 0x1A, 0x00, 0x00]);
/// ```
pub type DontFragment = EmptyAttribute<DontFragmentKind>;

/// The kind of [`DontFragment`].
pub enum DontFragmentKind {}

impl AttributeKind for DontFragmentKind {
    ghost use Rattle.std.specs.Prelude.{codes};
    ghost use Rattle.turn_attrs.specs.Turn.{DONT_FRAGMENT};

    ghost NUMBER = { DONT_FRAGMENT };

    ghost NAME = { codes "DONT-FRAGMENT" };

    const NUMBER: u16 = attribute_types::DONT_FRAGMENT;

    fn name() -> &'static str {
        "DONT-FRAGMENT"
    }
}

/// ADDITIONAL-ADDRESS-FAMILY: an IPv6 address is asked for beside one of IPv4 (RFC 8656, section
/// 18.11). The value is a byte, 2, and three bytes that are written 0 and ignored.
///
/// # Examples
///
/// ```
/// use stun_types::prelude::*;
/// use turn_attrs::{AdditionalAddressFamily, Ipv6AddressFamily};
///
/// let mut bytes = [0; 8];
/// assert_eq!(rt; AdditionalAddressFamily::new(Ipv6AddressFamily).write_into(&mut bytes), Ok(8));
/// assert_eq!(rt; bytes, [0x80, 0x00, 0x00, 0x04, 0x02, 0x00, 0x00, 0x00]);
/// ```
pub type AdditionalAddressFamily = PackedAttribute<AdditionalAddressFamilyKind, Ipv6AddressFamily>;

/// The kind of [`AdditionalAddressFamily`].
pub enum AdditionalAddressFamilyKind {}

impl AttributeKind for AdditionalAddressFamilyKind {
    ghost use Rattle.std.specs.Prelude.{codes};
    ghost use Rattle.turn_attrs.specs.Turn.{ADDITIONAL_ADDRESS_FAMILY};

    ghost NUMBER = { ADDITIONAL_ADDRESS_FAMILY };

    ghost NAME = { codes "ADDITIONAL-ADDRESS-FAMILY" };

    const NUMBER: u16 = attribute_types::ADDITIONAL_ADDRESS_FAMILY;

    fn name() -> &'static str {
        "ADDITIONAL-ADDRESS-FAMILY"
    }
}

/// ICMP: why a packet to a peer was dropped (RFC 8656, section 18.13). The value is two bytes that
/// are written 0 and ignored, the type and the code of the ICMP message in a byte each, and four
/// bytes of data.
///
/// # Examples
///
/// ```
/// use stun_types::attribute::RawAttribute;
/// use stun_types::prelude::*;
/// use turn_attrs::{Icmp, IcmpError};
///
/// // Over IPv4, 3 and 4: the packet has to be fragmented, and must not be. The next hop takes 1400
/// // bytes.
/// let raw = RawAttribute::from_bytes(b"\x80\x04\x00\x08\x00\x00\x03\x04\x00\x00\x05\x78")?;
/// let error = IcmpError { icmp_type: 3, code: 4, data: 1400 };
/// assert_eq!(rt; Icmp::from_raw_ref(alloc, &raw)?.value(), error);
/// ```
pub type Icmp = PackedAttribute<IcmpKind, IcmpError>;

/// The kind of [`Icmp`].
pub enum IcmpKind {}

impl AttributeKind for IcmpKind {
    ghost use Rattle.std.specs.Prelude.{codes};
    ghost use Rattle.turn_attrs.specs.Turn.{ICMP};

    ghost NUMBER = { ICMP };

    ghost NAME = { codes "ICMP" };

    const NUMBER: u16 = attribute_types::ICMP;

    fn name() -> &'static str {
        "ICMP"
    }
}
