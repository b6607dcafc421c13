//! Secrets in memory: they are overwritten before that memory is freed, and no Debug text has them.
//!
//! What frees memory is a function of C that the compiler doesn't see into, so that it keeps what
//! is written before. Copies on the stack aren't reached.

ghost use Rattle.std.specs.Prelude.{◌≡◌, IfOk, replicate};
ghost use Rattle.std.specs.Box.{boxed_slice_items};
ghost use Rattle.std.specs.String.{string_bytes};
ghost use Rattle.std.specs.Vec.{vec_capacity};

use crate::keys::copied::copied;
use std::alloc::{AllocError, Global};
use std::boxed::BoxedSlice;
use std::fmt;

/// What stands for a secret in a Debug text.
const HIDDEN: &str = "[hidden]";

/// Writes zeros over all the memory of a vector, also after its bytes.
#[inline(never)]
fn overwrite(bytes: &mut Vec<u8>)
    ensures { bytes.new.items ≡ replicate (vec_capacity bytes.old) 0 }
{
    let room = bytes.capacity();
    bytes.clear();
    let _ = bytes.resize(room, 0);
}

/// A text that is overwritten before its memory is freed.
#[derive(PartialEq, Eq)]
pub struct SecretText {
    text: String,
}

impl SecretText {
    /// Of a text, whose memory it owns from then on.
    pub(crate) fn new(text: String) -> Self
        ensures { string_bytes result.text ≡ string_bytes text }
    {
        SecretText { text }
    }

    /// A copy, in memory that `alloc` gives.
    pub(crate) fn copied(&self, alloc: Global) -> Result<Self, AllocError>
        ensures { IfOk result (λ copy. string_bytes copy.text ≡ string_bytes self.now.text) }
    {
        let text = copied(alloc, &self.text)?;
        Ok(SecretText { text })
    }

    /// The text.
    pub(crate) fn as_str(&self) -> &str
        ensures { result.now ≡ string_bytes self.now.text }
    {
        self.text.as_str()
    }
}

impl Drop for SecretText {
    fn drop(self) {
        let SecretText { text } = self;
        overwrite(&mut text.into_bytes());
    }
}

impl fmt::Debug for SecretText {
    ghost use Rattle.std.specs.Prelude.{Some, codes};

    ghost debug_output = { λ _. Some (codes "[hidden]") };

    fn fmt<W: fmt::Write>(&self, f: &mut fmt::Formatter<W>) -> fmt::Result {
        f.write_str(HIDDEN)
    }
}

/// Bytes that are overwritten before their memory is freed.
pub struct SecretBytes {
    bytes: BoxedSlice<u8>,
}

impl SecretBytes {
    /// The bytes of a vector, whose memory it owns from then on.
    pub(crate) fn new(bytes: Vec<u8>) -> Self
        ensures { boxed_slice_items result.bytes ≡ bytes.items }
    {
        SecretBytes {
            bytes: bytes.into_boxed_slice(),
        }
    }

    /// A copy, in memory that `alloc` gives.
    pub(crate) fn copied(&self, alloc: Global) -> Result<Self, AllocError>
        ensures { IfOk result (λ copy. boxed_slice_items copy.bytes ≡ boxed_slice_items self.now.bytes) }
    {
        let bytes = self.as_bytes();
        let mut copy = Vec::with_capacity(alloc, bytes.len())?;
        copy.extend_from_slice(bytes)?;
        Ok(SecretBytes::new(copy))
    }

    /// The bytes.
    pub(crate) fn as_bytes(&self) -> &[u8]
        ensures { result.now ≡ boxed_slice_items self.now.bytes }
    {
        &self.bytes
    }
}

impl Drop for SecretBytes {
    fn drop(self) {
        let SecretBytes { bytes } = self;
        overwrite(&mut bytes.into_vec());
    }
}

impl fmt::Debug for SecretBytes {
    ghost use Rattle.std.specs.Prelude.{Some, codes};

    ghost debug_output = { λ _. Some (codes "[hidden]") };

    fn fmt<W: fmt::Write>(&self, f: &mut fmt::Formatter<W>) -> fmt::Result {
        f.write_str(HIDDEN)
    }
}
