//! Adding raw attributes of a literal type: `add_attribute` requires an ordinary type, and the
//! prover finds it in the literal.

use stun_types::attribute::{AttributeType, RawAttribute};
use stun_types::message::StunWriteError;
use stun_types::prelude::*;

/// Adds this value under the type 0x0001. A value that is too long is refused by `?`.
///
/// # Errors
///
/// `TooLarge { expected: 65535, actual }` if the value is longer, and those of
/// [`MessageWriteExt::add_attribute`].
pub fn add_or_return<B: MessageWrite>(value: &[u8], message: &mut B) -> Result<(), StunWriteError> {
    message.add_attribute(&RawAttribute::new(AttributeType::new(1), value)?)
}

/// The same by a `match`.
///
/// # Errors
///
/// As for [`add_or_return`].
pub fn add_by_match<B: MessageWrite>(value: &[u8], message: &mut B) -> Result<(), StunWriteError> {
    match RawAttribute::new(AttributeType::new(1), value) {
        Ok(raw) => message.add_attribute(&raw),
        Err(error) => Err(StunWriteError::from(error)),
    }
}

/// The same by a `let else`, and whether the value was short enough.
///
/// # Errors
///
/// Those of [`MessageWriteExt::add_attribute`].
pub fn add_if_short<B: MessageWrite>(
    value: &[u8],
    message: &mut B,
) -> Result<bool, StunWriteError> {
    let Ok(raw) = RawAttribute::new(AttributeType::new(1), value) else {
        return Ok(false);
    };
    message.add_attribute(&raw)?;
    Ok(true)
}
