//! A key in the hands of C: `stun_types_key` of the header.
ghost use Rattle.std.specs.Prelude.{◌≡◌, Some, is_some, box_value};
ghost use Rattle.stun_types_c.specs.KeyMemory.{is_held};

use crate::handle::Handle;
use crate::key_place::KeyPlace;
use crate::place::Place;
use std::alloc::Global;
use stun_types::message::IntegrityKey;

/// What `held` is if a handle holds a key: the letters `stun_key`. No zero, and no filling of a
/// debugger or an allocator, is that, so a handle that was never begun holds no key.
pub(crate) const HELD: u64 = 0x7374_756E_5F6B_6579;

/// A key on the heap, or none: in C `struct { void *at; uint64_t held; }`, 16 bytes. It holds a key
/// only if `held` is [`HELD`]; `{ NULL, 0 }` holds none.
///
/// A handle owns its key. A call that makes or frees the key takes it by `&mut`: in C by a pointer
/// that isn't null, is aligned and that nothing else uses during the call. One that only uses the
/// key takes it as a [`SharedKey`](crate::SharedKey). No proof sees what C does between two calls,
/// so C has to keep this right:
///
/// - It begins a handle as `{ NULL, 0 }`, and from then on neither reads nor writes its fields.
/// - It copies no handle: the key of two would be freed twice. (It may move one to another place,
///   if it no longer uses the old one.)
/// - It leaves a handle on its thread, or orders by a lock or a join what one thread does with it
///   after another. While a call has the handle, no other call has it or shares its key.
/// - It ends a handle that holds a key by the call that frees it, or the key leaks and its bytes
///   stay in memory.
#[repr(C)]
pub struct KeyHandle {
    pub(crate) place: KeyPlace,
    held: u64,
    ghost tied: { is_held held ≡ is_some place.value },
}

impl Handle for KeyHandle {
    type Value = IntegrityKey;

    ghost held = { λ handle. handle.place.value };

    fn none(alloc: Global) -> KeyHandle {
        KeyHandle {
            place: KeyPlace::of(Place::none(alloc)),
            held: 0,
        }
    }

    fn of(key: Box<IntegrityKey>) -> KeyHandle
        ensures { result.place.value ≡ Some (box_value key) }
    {
        KeyHandle {
            place: KeyPlace::of(Place::of(key)),
            held: HELD,
        }
    }

    fn into_box(self) -> Option<Box<IntegrityKey>> {
        let KeyHandle { place, held } = self;
        if held == HELD {
            Some(place.into_place().into_box())
        } else {
            place.end();
            None
        }
    }
}

/// Frees the key that the handle holds, whose bytes are overwritten first.
impl Drop for KeyHandle {
    fn drop(self) {
        drop(self.into_box());
    }
}
