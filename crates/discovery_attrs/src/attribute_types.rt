//! The attribute types of this crate: their numbers (RFC 8489, section 18.3.1; RFC 5780, section
//! 9.1; RFC 7982, section 4), what the RFCs say of each, a list of them, and their registration.

ghost use Rattle.std.specs.Prelude.{◌≡◌};
ghost use Rattle.std.specs.Option.{option_map};
ghost use Rattle.stun_types.specs.KnownTypes.{facts};
ghost use Rattle.discovery_attrs.specs.Discovery.{known_type};

use stun_grammar::attribute_types;
use stun_types::attribute::{AttributeType, KnownType, ValueForm};

/// The type of MAPPED-ADDRESS (RFC 8489, section 14.1).
pub const MAPPED_ADDRESS: u16 = attribute_types::MAPPED_ADDRESS;

/// The type of CHANGE-REQUEST (RFC 5780, section 7.2).
pub const CHANGE_REQUEST: u16 = 0x0003;

/// The type of PADDING (RFC 5780, section 7.6).
pub const PADDING: u16 = 0x0026;

/// The type of RESPONSE-PORT (RFC 5780, section 7.5).
pub const RESPONSE_PORT: u16 = 0x0027;

/// The type of TRANSACTION_TRANSMIT_COUNTER (RFC 7982, section 3.1).
pub const TRANSACTION_TRANSMIT_COUNTER: u16 = 0x8025;

/// The type of RESPONSE-ORIGIN (RFC 5780, section 7.3).
pub const RESPONSE_ORIGIN: u16 = 0x802B;

/// The type of OTHER-ADDRESS (RFC 5780, section 7.4).
pub const OTHER_ADDRESS: u16 = 0x802C;

/// The number of a port.
const PORT: ValueForm = ValueForm::PaddedNumber {
    width: 2,
    least: 0,
    greatest: 0xFFFF,
};

/// Returns what an RFC says of an attribute type (RFC 5780, section 7; RFC 7982, section 3.1): its
/// name and the form of its values; `None` for a type of neither. MAPPED-ADDRESS is a type of RFC
/// 8489, for [`stun_types::attribute::known_type`].
///
/// # Examples
///
/// ```
/// use discovery_attrs::known_type;
///
/// let known = known_type(0x802B).ok_or("no type of NAT discovery")?;
/// assert_eq!(rt; known.name, "RESPONSE-ORIGIN");
/// assert_eq!(rt; known.rfc, 5780);
/// ```
pub fn known_type(atype: u16) -> Option<KnownType>
    ensures { option_map facts result ≡ known_type atype }
{
    match atype {
        CHANGE_REQUEST => Some(KnownType::new(
            "CHANGE-REQUEST",
            ValueForm::Octets { width: 4 },
            5780,
        )),
        PADDING => Some(KnownType::new("PADDING", ValueForm::Other, 5780)),
        RESPONSE_PORT => Some(KnownType::new("RESPONSE-PORT", PORT, 5780)),
        TRANSACTION_TRANSMIT_COUNTER => Some(KnownType::new(
            "TRANSACTION_TRANSMIT_COUNTER",
            ValueForm::Octets { width: 4 },
            7982,
        )),
        RESPONSE_ORIGIN => Some(KnownType::new("RESPONSE-ORIGIN", ValueForm::Address, 5780)),
        OTHER_ADDRESS => Some(KnownType::new("OTHER-ADDRESS", ValueForm::Address, 5780)),
        _ => None,
    }
}

/// The types of the attributes of NAT discovery, for `Message::check_attribute_lists`, beside
/// `stun_types::attribute::KNOWN`.
///
/// # Examples
///
/// ```
/// use stun_types::attribute::KNOWN;
/// use stun_types::message::{Message, MessageWriteVec};
///
/// // A request for a response from another IP address and another port.
/// let request = Message::from_bytes(
///     b"\x00\x01\x00\x08\x21\x12\xA4\x42\xB7\xE7\xA7\x01\xBC\x34\xD6\x86\xFA\x87\xDF\xAE\
///       \x00\x03\x00\x04\x00\x00\x00\x06",
/// )?;
/// let (known, reply) = ([&KNOWN[..], &discovery_attrs::KNOWN], MessageWriteVec::new(alloc));
/// assert!(rt; Message::check_attribute_lists(alloc, &request, &known, &[], reply)?.is_none());
/// ```
pub const KNOWN: [AttributeType; 7] = [
    AttributeType(MAPPED_ADDRESS),
    AttributeType(CHANGE_REQUEST),
    AttributeType(PADDING),
    AttributeType(RESPONSE_PORT),
    AttributeType(TRANSACTION_TRANSMIT_COUNTER),
    AttributeType(RESPONSE_ORIGIN),
    AttributeType(OTHER_ADDRESS),
];

/// Registers the attributes of NAT discovery in a `Registry`, by their names and the functions that
/// print them, so that a message shows them as what they are. Call it in the body of a function
/// that makes the registry itself and returns a `Result`; it returns from it with `OutOfMemory` if
/// an allocation fails.
///
/// # Examples
///
/// ```
/// use discovery_attrs::ResponseOrigin;
/// use stun_types::prelude::*;
/// use stun_types::show::Registry;
///
/// let mut registry = Registry::new(alloc);
/// discovery_attrs::register!(registry);
/// assert_eq!(rt; registry.name(ResponseOrigin::TYPE), "RESPONSE-ORIGIN");
/// ```
#[macro_export]
macro_rules! register {
    ($registry:ident) => {{
        for atype in $crate::KNOWN {
            if let Some(known) = $crate::known_type(atype.value()) {
                $registry.add_name(atype, known.name)?;
            }
        }
        stun_types::attribute_display!($registry, $crate::MappedAddress)?;
        stun_types::attribute_display!($registry, $crate::ChangeRequest)?;
        stun_types::attribute_display!($registry, $crate::Padding)?;
        stun_types::attribute_display!($registry, $crate::ResponsePort)?;
        stun_types::attribute_display!($registry, $crate::TransactionTransmitCounter)?;
        stun_types::attribute_display!($registry, $crate::ResponseOrigin)?;
        stun_types::attribute_display!($registry, $crate::OtherAddress)?;
    }};
}
