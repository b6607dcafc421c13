//! An attribute whose value is borrowed.

ghost use Rattle.std.specs.Prelude.{◌≡◌, ◌≤◌, length};

use std::alloc::Global;
use stun_attributes::write_attribute;
use stun_types::attribute::{AttributeType, RawAttribute};
use stun_types::message::StunWriteError;
use stun_types::prelude::*;

/// The type of a [`Blob`].
const BLOB: AttributeType = AttributeType(0x8852);

/// An attribute of type 0x8852 whose value is any bytes of the caller's, at most 65535.
#[derive(Clone, Copy, Debug, PartialEq, Eq)]
pub struct Blob<'a> {
    bytes: &'a [u8],
    ghost short: { length bytes.now ≤ 65535 },
}

impl<'a> Blob<'a> {
    ghost use Rattle.std.specs.Prelude.{◌≡◌, ◌<◌, ◌≤◌, IsOk, IfOk, Err, length};

    /// An attribute with these bytes for its value.
    ///
    /// # Errors
    ///
    /// `TooLarge { expected: 65535, actual }` if there are more bytes than a length field can
    /// state.
    pub fn new(bytes: &'a [u8]) -> Result<Self, StunWriteError>
        ensures ok { length bytes.now ≤ 65535 → IsOk result }
        ensures value { IfOk result (λ blob. ⟦<Blob<'a> as Attribute>⟧.value blob ≡ bytes.now) }
        ensures large { 65535 < length bytes.now
            → result ≡ Err (StunWriteError.TooLarge 65535 (length bytes.now)) }
    {
        if bytes.len() > 65535 {
            return Err(StunWriteError::TooLarge {
                expected: 65535,
                actual: bytes.len(),
            });
        }
        Ok(Blob { bytes })
    }
}

impl Attribute for Blob<'_> {
    ghost atype = { λ _. 0x8852 };

    ghost value = { λ blob. blob.bytes.now };

    fn get_type(&self) -> AttributeType {
        BLOB
    }

    fn length(&self) -> u16 {
        self.bytes.len() as u16
    }
}

impl AttributeWrite for Blob<'_> {
    ghost use Rattle.std.specs.Prelude.{true};

    ghost to_raw_borrows = { λ _. true };

    fn write_into_unchecked(&self, dest: &mut [u8]) {
        write_attribute(BLOB, self.bytes, dest);
    }

    /// The value of the raw attribute is the one that is borrowed here. It takes no memory.
    fn to_raw(&self, _alloc: Global) -> Result<RawAttribute<'_>, StunWriteError> {
        Ok(RawAttribute::new(BLOB, self.bytes)?)
    }
}
