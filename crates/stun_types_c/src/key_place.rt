//! The place of a key on the heap, in a form that C can store.
ghost use Rattle.std.specs.Prelude.{◌≡◌, Option, None};
ghost use Rattle.stun_keys.specs.declared.keys.integrity_key.IntegrityKey.{IntegrityKey};

use crate::place::Place;
use std::alloc::Global;
use std::marker::{Model, Send};
use stun_types::message::IntegrityKey;

/// The address of a key, or no key. It owns the key: `value` is `None`, and it owns nothing, or it
/// is the key at `at`, which nothing else owns or frees.
///
/// A C function can't take a type with parameters, as [`Place`] is, nor one that leads to a key, since a
/// key may be written where it is shared. So there is a type for each, and the address is that of a byte.
/// A `Global` takes no bytes: the struct is one pointer.
///
/// It isn't `Drop`: the owner must call `into_place` if it holds a key, otherwise `end`.
#[repr(C)]
pub(crate) struct KeyPlace {
    at: *mut u8,
    alloc: Global,
    pub(crate) ghost value: { Option IntegrityKey },
}

impl Model for KeyPlace {
    ghost use Rattle.stun_keys.specs.contracts.keys.integrity_key.IntegrityKey.{the_row};
    ghost use Rattle.stun_types_c.specs.KeyMemory.{frees, owns_if_some};

    ghost also_owns = { λ place. owns_if_some (frees place.alloc) the_row place.at place.value };
}

impl KeyPlace {
    /// The same place for C.
    pub(crate) fn of(place: Place<IntegrityKey, Global>) -> KeyPlace
        ensures { result.value ≡ place.value }
    {
        let Place { at, alloc } = place;
        KeyPlace {
            at: at as *mut u8,
            alloc,
        }
    }

    /// The place again.
    pub(crate) fn into_place(self) -> Place<IntegrityKey, Global>
        ensures { result.value ≡ self.value }
    {
        let KeyPlace { at, alloc } = self;
        Place {
            at: at as *mut IntegrityKey,
            alloc,
        }
    }

    /// Ends the place of nothing.
    pub(crate) fn end(self)
        requires { self.value ≡ None }
    {
        let KeyPlace { at: _, alloc: _ } = self;
    }
}

// A key may go to another thread, and so may the right to free its memory. A pointer alone is no
// claim to that, so it's said here, and proved of what the struct owns.
unsafe impl Send for KeyPlace {}
