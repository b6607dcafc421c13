//! Raw attributes that own their values.

ghost use Rattle.std.specs.Prelude.{◌≡◌, false};

use std::alloc::Global;
use stun_types::attribute::{AlternateServer, AttributeType, XorSocketAddr};
use stun_types::message::StunWriteError;
use stun_types::prelude::*;

/// Whether the raw attribute of an attribute that `to_raw` does not borrow has this value. It owns
/// its value already, so that no second allocation can fail, which is proved.
fn owns<A: AttributeWrite>(
    alloc: Global,
    attribute: &A,
    value: &[u8],
) -> Result<bool, StunWriteError>
    requires { A.to_raw_borrows attribute.now ≡ false }
{
    let raw = attribute.to_raw(alloc)?;
    let Ok(owned) = raw.into_owned(alloc) else {
        unreachable!()
    };
    Ok(owned.value().as_bytes() == value)
}

/// Whether the raw attribute of an ALTERNATE-SERVER owns this value.
///
/// # Errors
///
/// `OutOfMemory` if the allocation for the value failed.
pub fn owns_server(
    alloc: Global,
    server: &AlternateServer,
    value: &[u8],
) -> Result<bool, StunWriteError> {
    owns(alloc, server, value)
}

/// Whether the raw attribute of type 0x0012 of an address owns this value.
///
/// # Errors
///
/// As for [`owns_server`].
pub fn owns_address(
    alloc: Global,
    xored: &XorSocketAddr,
    value: &[u8],
) -> Result<bool, StunWriteError> {
    let raw = xored.to_raw(alloc, AttributeType(0x0012))?;
    let Ok(owned) = raw.into_owned(alloc) else {
        unreachable!()
    };
    Ok(owned.value().as_bytes() == value)
}
