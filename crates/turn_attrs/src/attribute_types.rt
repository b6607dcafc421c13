//! The attribute types of this crate: their numbers (RFC 8656, section 18; RFC 6062, section 6.2;
//! RFC 7635, section 12; RFC 8016, section 4), what the RFCs say of each, a list of them, and their
//! registration.

ghost use Rattle.std.specs.Prelude.{◌≡◌};
ghost use Rattle.std.specs.Option.{option_map};
ghost use Rattle.stun_types.specs.KnownTypes.{facts};
ghost use Rattle.turn_attrs.specs.Turn.{known_type};

use stun_types::attribute::{AttributeType, KnownType, ValueForm};

/// The type of CHANNEL-NUMBER (RFC 8656, section 18.1).
pub const CHANNEL_NUMBER: u16 = 0x000C;

/// The type of LIFETIME (RFC 8656, section 18.2).
pub const LIFETIME: u16 = 0x000D;

/// The type of XOR-PEER-ADDRESS (RFC 8656, section 18.3).
pub const XOR_PEER_ADDRESS: u16 = 0x0012;

/// The type of DATA (RFC 8656, section 18.4).
pub const DATA: u16 = 0x0013;

/// The type of XOR-RELAYED-ADDRESS (RFC 8656, section 18.5).
pub const XOR_RELAYED_ADDRESS: u16 = 0x0016;

/// The type of REQUESTED-ADDRESS-FAMILY (RFC 8656, section 18.6).
pub const REQUESTED_ADDRESS_FAMILY: u16 = 0x0017;

/// The type of EVEN-PORT (RFC 8656, section 18.7).
pub const EVEN_PORT: u16 = 0x0018;

/// The type of REQUESTED-TRANSPORT (RFC 8656, section 18.8).
pub const REQUESTED_TRANSPORT: u16 = 0x0019;

/// The type of DONT-FRAGMENT (RFC 8656, section 18.9).
pub const DONT_FRAGMENT: u16 = 0x001A;

/// The type of ACCESS-TOKEN (RFC 7635, section 6.2).
pub const ACCESS_TOKEN: u16 = 0x001B;

/// The type of RESERVATION-TOKEN (RFC 8656, section 18.10).
pub const RESERVATION_TOKEN: u16 = 0x0022;

/// The type of CONNECTION-ID (RFC 6062, section 6.2.1).
pub const CONNECTION_ID: u16 = 0x002A;

/// The type of ADDITIONAL-ADDRESS-FAMILY (RFC 8656, section 18.11).
pub const ADDITIONAL_ADDRESS_FAMILY: u16 = 0x8000;

/// The type of ADDRESS-ERROR-CODE (RFC 8656, section 18.12).
pub const ADDRESS_ERROR_CODE: u16 = 0x8001;

/// The type of ICMP (RFC 8656, section 18.13).
pub const ICMP: u16 = 0x8004;

/// The type of THIRD-PARTY-AUTHORIZATION (RFC 7635, section 6.1).
pub const THIRD_PARTY_AUTHORIZATION: u16 = 0x802E;

/// The type of MOBILITY-TICKET (RFC 8016, section 3.3).
pub const MOBILITY_TICKET: u16 = 0x8030;

/// The number of a channel (RFC 8656, section 12).
const CHANNEL: ValueForm = ValueForm::PaddedNumber {
    width: 2,
    least: 0x4000,
    greatest: 0x4FFF,
};

/// Seconds.
const SECONDS: ValueForm = ValueForm::Number {
    width: 4,
    least: 0,
    greatest: 0xFFFF_FFFF,
};

/// An address family: 1 for IPv4, 2 for IPv6.
const FAMILY: ValueForm = ValueForm::PaddedNumber {
    width: 1,
    least: 1,
    greatest: 2,
};

/// The address family of IPv6.
const FAMILY_IPV6: ValueForm = ValueForm::PaddedNumber {
    width: 1,
    least: 2,
    greatest: 2,
};

/// The number of a transport protocol.
const PROTOCOL: ValueForm = ValueForm::PaddedNumber {
    width: 1,
    least: 0,
    greatest: 0xFF,
};

/// Returns what an RFC says of an attribute type: its name, the form of its values, and which RFC
/// it is (8656, section 18; 6062, section 6.2; 7635, section 6; 8016, section 3.3); `None` for a
/// type that isn't one of TURN.
///
/// # Examples
///
/// ```
/// use turn_attrs::known_type;
///
/// let known = known_type(0x8030).ok_or("no type of TURN")?;
/// assert_eq!(rt; known.name, "MOBILITY-TICKET");
/// assert_eq!(rt; known.rfc, 8016);
/// ```
pub fn known_type(atype: u16) -> Option<KnownType>
    ensures { option_map facts result ≡ known_type atype }
{
    match atype {
        CHANNEL_NUMBER => Some(KnownType::new("CHANNEL-NUMBER", CHANNEL, 8656)),
        LIFETIME => Some(KnownType::new("LIFETIME", SECONDS, 8656)),
        XOR_PEER_ADDRESS => Some(KnownType::new("XOR-PEER-ADDRESS", ValueForm::XorAddress, 8656)),
        DATA => Some(KnownType::new("DATA", ValueForm::Other, 8656)),
        XOR_RELAYED_ADDRESS => Some(KnownType::new(
            "XOR-RELAYED-ADDRESS",
            ValueForm::XorAddress,
            8656,
        )),
        REQUESTED_ADDRESS_FAMILY => Some(KnownType::new("REQUESTED-ADDRESS-FAMILY", FAMILY, 8656)),
        EVEN_PORT => Some(KnownType::new("EVEN-PORT", ValueForm::Octets { width: 1 }, 8656)),
        REQUESTED_TRANSPORT => Some(KnownType::new("REQUESTED-TRANSPORT", PROTOCOL, 8656)),
        DONT_FRAGMENT => Some(KnownType::new("DONT-FRAGMENT", ValueForm::Other, 8656)),
        ACCESS_TOKEN => Some(KnownType::new("ACCESS-TOKEN", ValueForm::Other, 7635)),
        RESERVATION_TOKEN => Some(KnownType::new(
            "RESERVATION-TOKEN",
            ValueForm::Octets { width: 8 },
            8656,
        )),
        CONNECTION_ID => Some(KnownType::new(
            "CONNECTION-ID",
            ValueForm::Octets { width: 4 },
            6062,
        )),
        ADDITIONAL_ADDRESS_FAMILY => Some(KnownType::new(
            "ADDITIONAL-ADDRESS-FAMILY",
            FAMILY_IPV6,
            8656,
        )),
        ADDRESS_ERROR_CODE => Some(KnownType::new("ADDRESS-ERROR-CODE", ValueForm::Other, 8656)),
        ICMP => Some(KnownType::new("ICMP", ValueForm::Octets { width: 8 }, 8656)),
        THIRD_PARTY_AUTHORIZATION => Some(KnownType::new(
            "THIRD-PARTY-AUTHORIZATION",
            ValueForm::Other,
            7635,
        )),
        MOBILITY_TICKET => Some(KnownType::new("MOBILITY-TICKET", ValueForm::Other, 8016)),
        _ => None,
    }
}

/// The types of the attributes of TURN, for `Message::check_attribute_lists`, beside
/// `stun_types::attribute::KNOWN`.
///
/// # Examples
///
/// ```
/// use stun_types::attribute::KNOWN;
/// use stun_types::message::{Message, MessageWriteVec};
///
/// // An Allocate request with REQUESTED-TRANSPORT (UDP) and DONT-FRAGMENT.
/// let request = Message::from_bytes(
///     b"\x00\x03\x00\x0C\x21\x12\xA4\x42\xA5\x62\x50\xD3\xF1\x7A\xBE\x67\x94\x22\xDE\x85\
///       \x00\x19\x00\x04\x11\x00\x00\x00\x00\x1A\x00\x00",
/// )?;
/// let (known, reply) = ([&KNOWN[..], &turn_attrs::KNOWN], MessageWriteVec::new(alloc));
/// assert!(rt; Message::check_attribute_lists(alloc, &request, &known, &[], reply)?.is_none());
/// ```
pub const KNOWN: [AttributeType; 17] = [
    AttributeType(CHANNEL_NUMBER),
    AttributeType(LIFETIME),
    AttributeType(XOR_PEER_ADDRESS),
    AttributeType(DATA),
    AttributeType(XOR_RELAYED_ADDRESS),
    AttributeType(REQUESTED_ADDRESS_FAMILY),
    AttributeType(EVEN_PORT),
    AttributeType(REQUESTED_TRANSPORT),
    AttributeType(DONT_FRAGMENT),
    AttributeType(ACCESS_TOKEN),
    AttributeType(RESERVATION_TOKEN),
    AttributeType(CONNECTION_ID),
    AttributeType(ADDITIONAL_ADDRESS_FAMILY),
    AttributeType(ADDRESS_ERROR_CODE),
    AttributeType(ICMP),
    AttributeType(THIRD_PARTY_AUTHORIZATION),
    AttributeType(MOBILITY_TICKET),
];

/// Registers the attributes and methods of TURN in a `Registry`, by their names and the functions
/// that print them, so that a message shows them as what they are. Call it in the body of a
/// function that makes the registry itself and returns a `Result`; it returns from it with
/// `OutOfMemory` if an allocation fails.
///
/// # Examples
///
/// ```
/// use stun_types::prelude::*;
/// use stun_types::show::Registry;
/// use turn_attrs::{ChannelNumber, methods};
///
/// let mut registry = Registry::new(alloc);
/// turn_attrs::register!(registry);
/// assert_eq!(rt; registry.name(ChannelNumber::TYPE), "CHANNEL-NUMBER");
/// assert_eq!(rt; registry.method_name(methods::ALLOCATE), "ALLOCATE");
/// ```
#[macro_export]
macro_rules! register {
    ($registry:ident) => {{
        for atype in $crate::KNOWN {
            if let Some(known) = $crate::known_type(atype.value()) {
                $registry.add_name(atype, known.name)?;
            }
        }
        $registry.add_method_name($crate::methods::ALLOCATE, "ALLOCATE")?;
        $registry.add_method_name($crate::methods::REFRESH, "REFRESH")?;
        $registry.add_method_name($crate::methods::SEND, "SEND")?;
        $registry.add_method_name($crate::methods::DATA, "DATA")?;
        $registry.add_method_name($crate::methods::CREATE_PERMISSION, "CREATE_PERMISSION")?;
        $registry.add_method_name($crate::methods::CHANNEL_BIND, "CHANNEL_BIND")?;
        $registry.add_method_name($crate::methods::CONNECT, "CONNECT")?;
        $registry.add_method_name($crate::methods::CONNECTION_BIND, "CONNECTION_BIND")?;
        $registry.add_method_name($crate::methods::CONNECTION_ATTEMPT, "CONNECTION_ATTEMPT")?;
        stun_types::attribute_display!($registry, $crate::ChannelNumber)?;
        stun_types::attribute_display!($registry, $crate::Lifetime)?;
        stun_types::attribute_display!($registry, $crate::XorPeerAddress)?;
        stun_types::attribute_display!($registry, $crate::PeerData)?;
        stun_types::attribute_display!($registry, $crate::XorRelayedAddress)?;
        stun_types::attribute_display!($registry, $crate::RequestedAddressFamily)?;
        stun_types::attribute_display!($registry, $crate::EvenPort)?;
        stun_types::attribute_display!($registry, $crate::RequestedTransport)?;
        stun_types::attribute_display!($registry, $crate::DontFragment)?;
        stun_types::attribute_display!($registry, $crate::AccessToken)?;
        stun_types::attribute_display!($registry, $crate::ReservationToken)?;
        stun_types::attribute_display!($registry, $crate::ConnectionId)?;
        stun_types::attribute_display!($registry, $crate::AdditionalAddressFamily)?;
        stun_types::attribute_display!($registry, $crate::AddressErrorCode)?;
        stun_types::attribute_display!($registry, $crate::Icmp)?;
        stun_types::attribute_display!($registry, $crate::ThirdPartyAuthorization)?;
        stun_types::attribute_display!($registry, $crate::MobilityTicket)?;
    }};
}
