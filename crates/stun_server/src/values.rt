//! Values that replies have, whatever the request.

use stun_attributes::copy_to_start;
use stun_types::attribute::{EncodeValue, ErrorCode};
use stun_values::write_error;

/// The name of this library.
const NAME: &[u8] = b"stun-types";

/// The reason of an ERROR-CODE 420.
const REASON: &[u8] = b"Unknown Attributes";

/// The value of a SOFTWARE with the name of this library.
#[derive(Drop)]
pub(crate) struct OwnName;

impl EncodeValue for OwnName {
    ghost use Rattle.std.specs.Prelude.{codes};

    ghost bytes = { λ _. codes "stun-types" };

    fn value_length(&self) -> u16 {
        NAME.len() as u16
    }

    fn write_value(&self, dest: &mut [u8]) {
        copy_to_start(NAME, dest);
    }

    fn held_bytes(&self) -> Option<&[u8]> {
        None
    }
}

/// The value of an ERROR-CODE 420 (RFC 8489, section 14.8).
#[derive(Drop)]
pub(crate) struct UnknownAttribute;

impl EncodeValue for UnknownAttribute {
    ghost use Rattle.std.specs.Prelude.{codes};
    ghost use Rattle.stun_values.specs.ErrorValues.{error_value};

    ghost bytes = { λ _. error_value 420 (codes "Unknown Attributes") };

    fn value_length(&self) -> u16 {
        4 + REASON.len() as u16
    }

    fn write_value(&self, dest: &mut [u8]) {
        write_error(ErrorCode::UNKNOWN_ATTRIBUTE, REASON, dest);
    }

    fn held_bytes(&self) -> Option<&[u8]> {
        None
    }
}
