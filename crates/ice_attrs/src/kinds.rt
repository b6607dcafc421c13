//! The four attributes (RFC 8445, section 16.1).

use crate::attribute_types;
use stun_types::attribute::{AttributeKind, EmptyAttribute, NumberAttribute};

/// PRIORITY: the priority of the peer-reflexive candidate that a check may discover, as
/// [`crate::priority`] computes it (RFC 8445, section 16.1). The value is four bytes, big-endian.
///
/// # Examples
///
/// ```
/// use ice_attrs::Priority;
/// use stun_types::prelude::*;
///
/// // As in the request in section 2.1 of RFC 5769.
/// let mut bytes = [0; 8];
/// assert_eq!(rt; Priority::new(0x6E00_01FF).write_into(&mut bytes), Ok(8));
/// assert_eq!(rt; bytes, [0x00, 0x24, 0x00, 0x04, 0x6E, 0x00, 0x01, 0xFF]);
/// ```
pub type Priority = NumberAttribute<PriorityKind, u32>;

/// The kind of [`Priority`].
pub enum PriorityKind {}

impl AttributeKind for PriorityKind {
    ghost use Rattle.std.specs.Prelude.{codes};
    ghost use Rattle.ice_attrs.specs.Ice.{PRIORITY};

    ghost NUMBER = { PRIORITY };

    ghost NAME = { codes "PRIORITY" };

    const NUMBER: u16 = attribute_types::PRIORITY;

    fn name() -> &'static str {
        "PRIORITY"
    }
}

/// USE-CANDIDATE: the controlling agent nominates the pair that is checked (RFC 8445, section
/// 16.1). The value has no bytes.
///
/// # Examples
///
/// ```
/// use ice_attrs::UseCandidate;
/// use stun_types::prelude::*;
///
/// let mut bytes = [0; 4];
/// assert_eq!(rt; UseCandidate::new().write_into(&mut bytes), Ok(4));
/// assert_eq!(rt; bytes, [0x00, 0x25, 0x00, 0x00]);
/// ```
pub type UseCandidate = EmptyAttribute<UseCandidateKind>;

/// The kind of [`UseCandidate`].
pub enum UseCandidateKind {}

impl AttributeKind for UseCandidateKind {
    ghost use Rattle.std.specs.Prelude.{codes};
    ghost use Rattle.ice_attrs.specs.Ice.{USE_CANDIDATE};

    ghost NUMBER = { USE_CANDIDATE };

    ghost NAME = { codes "USE-CANDIDATE" };

    const NUMBER: u16 = attribute_types::USE_CANDIDATE;

    fn name() -> &'static str {
        "USE-CANDIDATE"
    }
}

/// ICE-CONTROLLED: the agent believes that it is in the controlled role (RFC 8445, section 16.1).
/// The value is its tiebreaker, eight bytes, big-endian.
///
/// # Examples
///
/// ```
/// use ice_attrs::IceControlled;
/// use stun_types::attribute::RawAttribute;
/// use stun_types::prelude::*;
///
/// // As in the request in section 2.1 of RFC 5769.
/// let raw = RawAttribute::from_bytes(b"\x80\x29\x00\x08\x93\x2F\xF9\xB1\x51\x26\x3B\x36")?;
/// assert_eq!(rt; IceControlled::from_raw_ref(alloc, &raw)?.value(), 0x932F_F9B1_5126_3B36);
/// ```
pub type IceControlled = NumberAttribute<IceControlledKind, u64>;

/// The kind of [`IceControlled`].
pub enum IceControlledKind {}

impl AttributeKind for IceControlledKind {
    ghost use Rattle.std.specs.Prelude.{codes};
    ghost use Rattle.ice_attrs.specs.Ice.{ICE_CONTROLLED};

    ghost NUMBER = { ICE_CONTROLLED };

    ghost NAME = { codes "ICE-CONTROLLED" };

    const NUMBER: u16 = attribute_types::ICE_CONTROLLED;

    fn name() -> &'static str {
        "ICE-CONTROLLED"
    }
}

/// ICE-CONTROLLING: the agent believes that it is in the controlling role (RFC 8445, section 16.1).
/// The value is its tiebreaker, eight bytes, big-endian.
///
/// # Examples
///
/// ```
/// use ice_attrs::IceControlling;
/// use rand::rngs::StdRng;
/// use rand::{Rng, make_rng};
/// use stun_types::prelude::*;
///
/// // The tiebreaker is random (RFC 8445, section 16.1).
/// let mut rng: StdRng = make_rng(&rt)?;
/// let tiebreaker = rng.next_u64();
/// let shown = IceControlling::new(tiebreaker);
/// assert!(rt; shown.value() == tiebreaker && shown.length() == 8);
/// ```
pub type IceControlling = NumberAttribute<IceControllingKind, u64>;

/// The kind of [`IceControlling`].
pub enum IceControllingKind {}

impl AttributeKind for IceControllingKind {
    ghost use Rattle.std.specs.Prelude.{codes};
    ghost use Rattle.ice_attrs.specs.Ice.{ICE_CONTROLLING};

    ghost NUMBER = { ICE_CONTROLLING };

    ghost NAME = { codes "ICE-CONTROLLING" };

    const NUMBER: u16 = attribute_types::ICE_CONTROLLING;

    fn name() -> &'static str {
        "ICE-CONTROLLING"
    }
}
