//! The place of a key that is shared for a while, in a form that C can store.
ghost use Rattle.std.specs.Prelude.{◌≡◌, ◌≢◌, Option, Some, None};
ghost use Rattle.stun_keys.specs.declared.keys.integrity_key.IntegrityKey.{IntegrityKey};

use std::marker::{Model, Send, Sync};
use stun_types::message::IntegrityKey;

/// The address of a key that others may read too, or no key. It doesn't own the key: `value` is
/// `None`, or it is the key at `at`, which is shared as long as the place exists.
///
/// A C function can't take a type that leads to a key, since what a key owns is shared in a form of
/// its own. So the address is that of a byte.
#[repr(C)]
pub(crate) struct SharedPlace {
    at: *const u8,
    pub(crate) ghost value: { Option IntegrityKey },
}

impl Model for SharedPlace {
    ghost use Rattle.stun_keys.specs.contracts.keys.integrity_key.IntegrityKey.{the_row};
    ghost use Rattle.stun_types_c.specs.KeyMemory.{shared_if_some};

    ghost also_owns = { λ place. shared_if_some the_row place.at place.value };
}

impl SharedPlace {
    /// The key at the address.
    pub(crate) fn key(&self) -> &IntegrityKey
        requires { self.now.value ≢ None }
        ensures { Some result.now ≡ self.now.value }
    {
        // `at` is the address of a key that is shared as long as this struct exists: its `also_owns`
        // states that, and the proof of this function makes the reference from it.
        unsafe { &*(self.at as *const IntegrityKey) }
    }
}

// Several threads may read a key at once. A pointer alone doesn't say so: it's stated here, and proved
// from what the struct states.
unsafe impl Send for SharedPlace {}

unsafe impl Sync for SharedPlace {}
