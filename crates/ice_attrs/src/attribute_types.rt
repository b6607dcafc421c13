//! The attribute types of this crate: their numbers (RFC 8445, section 20.1), what the RFC says of
//! each, a list of them, and their registration.

ghost use Rattle.std.specs.Prelude.{◌≡◌};
ghost use Rattle.std.specs.Option.{option_map};
ghost use Rattle.stun_types.specs.KnownTypes.{facts};
ghost use Rattle.ice_attrs.specs.Ice.{known_type};

use stun_types::attribute::{AttributeType, KnownType, ValueForm};

/// The type of PRIORITY (RFC 8445, section 16.1).
pub const PRIORITY: u16 = 0x0024;

/// The type of USE-CANDIDATE (RFC 8445, section 16.1).
pub const USE_CANDIDATE: u16 = 0x0025;

/// The type of ICE-CONTROLLED (RFC 8445, section 16.1).
pub const ICE_CONTROLLED: u16 = 0x8029;

/// The type of ICE-CONTROLLING (RFC 8445, section 16.1).
pub const ICE_CONTROLLING: u16 = 0x802A;

/// A number of 32 bits.
const NUMBER: ValueForm = ValueForm::Number {
    width: 4,
    least: 0,
    greatest: 0xFFFF_FFFF,
};

/// The tiebreaker of an agent.
const TIEBREAKER: ValueForm = ValueForm::Octets { width: 8 };

/// Returns what RFC 8445 says of an attribute type (section 16.1): its name and the form of its
/// values; `None` for a type that isn't one of ICE.
///
/// # Examples
///
/// ```
/// use ice_attrs::known_type;
///
/// let known = known_type(0x0024).ok_or("no type of ICE")?;
/// assert_eq!(rt; known.name, "PRIORITY");
/// assert_eq!(rt; known.rfc, 8445);
/// ```
pub fn known_type(atype: u16) -> Option<KnownType>
    ensures { option_map facts result ≡ known_type atype }
{
    match atype {
        PRIORITY => Some(KnownType::new("PRIORITY", NUMBER, 8445)),
        USE_CANDIDATE => Some(KnownType::new("USE-CANDIDATE", ValueForm::Other, 8445)),
        ICE_CONTROLLED => Some(KnownType::new("ICE-CONTROLLED", TIEBREAKER, 8445)),
        ICE_CONTROLLING => Some(KnownType::new("ICE-CONTROLLING", TIEBREAKER, 8445)),
        _ => None,
    }
}

/// The types of the attributes of ICE, for `Message::check_attribute_lists`, beside
/// `stun_types::attribute::KNOWN`.
///
/// # Examples
///
/// ```
/// use stun_types::attribute::KNOWN;
/// use stun_types::message::{Message, MessageWriteVec};
///
/// // A check with a PRIORITY.
/// let check = Message::from_bytes(
///     b"\x00\x01\x00\x08\x21\x12\xA4\x42\xB7\xE7\xA7\x01\xBC\x34\xD6\x86\xFA\x87\xDF\xAE\
///       \x00\x24\x00\x04\x6E\x00\x01\xFF",
/// )?;
/// let (known, reply) = ([&KNOWN[..], &ice_attrs::KNOWN], MessageWriteVec::new(alloc));
/// assert!(rt; Message::check_attribute_lists(alloc, &check, &known, &[], reply)?.is_none());
/// // An agent that didn't understand PRIORITY would answer with error 420.
/// let reply = MessageWriteVec::new(alloc);
/// assert!(rt; Message::check_attribute_types(alloc, &check, &KNOWN, &[], reply)?.is_some());
/// ```
pub const KNOWN: [AttributeType; 4] = [
    AttributeType(PRIORITY),
    AttributeType(USE_CANDIDATE),
    AttributeType(ICE_CONTROLLED),
    AttributeType(ICE_CONTROLLING),
];

/// Registers the attributes of ICE in a `Registry`, by their names and the functions that print
/// them, so that a message shows them as what they are. Call it in the body of a function that
/// makes the registry itself and returns a `Result`; it returns from it with `OutOfMemory` if an
/// allocation fails.
///
/// # Examples
///
/// ```
/// use ice_attrs::Priority;
/// use stun_types::prelude::*;
/// use stun_types::show::Registry;
///
/// let mut registry = Registry::new(alloc);
/// ice_attrs::register!(registry);
/// assert_eq!(rt; registry.name(Priority::TYPE), "PRIORITY");
/// ```
#[macro_export]
macro_rules! register {
    ($registry:ident) => {{
        for atype in $crate::KNOWN {
            if let Some(known) = $crate::known_type(atype.value()) {
                $registry.add_name(atype, known.name)?;
            }
        }
        stun_types::attribute_display!($registry, $crate::Priority)?;
        stun_types::attribute_display!($registry, $crate::UseCandidate)?;
        stun_types::attribute_display!($registry, $crate::IceControlled)?;
        stun_types::attribute_display!($registry, $crate::IceControlling)?;
    }};
}
