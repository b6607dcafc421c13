//! Bytes and attributes that are pushed, without the tests of an add.

use std::alloc::Global;
use stun_types::attribute::AttributeType;
use stun_types::message::{MessageWriteVec, StunWriteError};
use stun_types::prelude::*;

/// Pushes the bytes 00 20 00 00 and an empty attribute of the type 0x0003 to a message of 20 to
/// 1000 bytes whose writer has room for both, and returns whether it did.
///
/// # Errors
///
/// `OutOfMemory` if an allocation failed.
pub fn push_within_room<B: MessageWrite>(message: &mut B) -> Result<bool, StunWriteError> {
    let len = message.len();
    if len < 20 || len > 1000 {
        return Ok(false);
    }
    if let Some(most) = message.max_size()
        && most < len + 8
    {
        return Ok(false);
    }
    message.push_data(&[0x00, 0x20, 0x00, 0x00])?;
    message.push_value_unchecked(AttributeType(0x0003), &[])?;
    Ok(true)
}

/// A message of these twenty bytes, a header, and an attribute of the type 0x8028 with this value.
///
/// # Errors
///
/// `OutOfMemory` if an allocation failed.
pub fn pushed_message(
    alloc: Global,
    header: &[u8; 20],
    value: &[u8; 3],
) -> Result<MessageWriteVec, StunWriteError> {
    let mut message = MessageWriteVec::with_capacity(alloc, 20)?;
    message.push_data(header)?;
    message.push_value_unchecked(AttributeType(0x8028), value)?;
    Ok(message)
}
