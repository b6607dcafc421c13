//! A key in the hands of C, as the calls see it that only use it.
ghost use Rattle.std.specs.Prelude.{◌≡◌, is_some};
ghost use Rattle.stun_types_c.specs.KeyMemory.{is_held};

use crate::key_handle::HELD;
use crate::shared_place::SharedPlace;
use stun_types::message::IntegrityKey;

/// A key on the heap that several calls may read at once, or none: `const stun_types_key` of the
/// header, and the same 16 bytes as a [`KeyHandle`](crate::KeyHandle).
///
/// A call takes it by `&`: in C by a pointer that isn't null and is aligned. C has to keep this
/// right:
///
/// - The bytes are those that a call with the handle of the key left, or `{ NULL, 0 }`.
/// - From the beginning of the call to its end no other call takes the handle of the key, which would
///   replace or free it. Calls that use the key may run in as many threads as C likes.
#[repr(C)]
pub struct SharedKey {
    pub(crate) place: SharedPlace,
    held: u64,
    ghost tied: { is_held held ≡ is_some place.value },
}

impl SharedKey {
    ghost use Rattle.std.specs.Prelude.{◌≡◌};
    ghost use Rattle.std.specs.Option.{option_copied};
    ghost use Rattle.stun_types_c.specs.KeyHandles.{shared_key};

    /// The key, or `None`. Nothing is copied or written, and no memory is taken.
    pub fn key(&self) -> Option<&IntegrityKey>
        ensures { option_copied result ≡ shared_key self.now }
    {
        if self.held == HELD {
            Some(self.place.key())
        } else {
            None
        }
    }
}
