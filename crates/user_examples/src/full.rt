//! A list of types that can be full.

use stun_types::attribute::{AttributeType, UnknownAttributes};
use stun_types::message::StunWriteError;

/// Adds a type to a list, and returns whether the list was full. Only a full list and a failed
/// allocation keep a type out, which is proved.
pub fn is_full(unknown: &mut UnknownAttributes, atype: AttributeType) -> bool {
    if unknown.has_attribute(atype) {
        let Ok(()) = unknown.add_attribute(atype) else {
            unreachable!()
        };
        return false;
    }
    match unknown.add_attribute(atype) {
        Ok(()) | Err(StunWriteError::OutOfMemory) => false,
        Err(StunWriteError::TooLarge { .. }) => true,
        Err(_) => unreachable!(),
    }
}
