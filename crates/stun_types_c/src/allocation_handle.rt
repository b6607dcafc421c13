//! A TURN client in the hands of C: `stun_types_allocation` of the header.
ghost use Rattle.std.specs.Prelude.{◌≡◌, Some, is_some, box_value};
ghost use Rattle.stun_types_c.specs.AllocationMarks.{holds_allocation};

use crate::allocation_core::AllocationCore;
use crate::allocation_place::AllocationPlace;
use crate::handle::Handle;
use crate::place::Place;
use std::alloc::Global;

/// What `held` is if a handle holds a client: the letters `stunallo`.
const HELD: u64 = 0x7374_756E_616C_6C6F;

/// A TURN client on the heap, or none: in C `struct { void *at; uint64_t held; }`, 16 bytes. It holds a
/// client only if `held` is [`HELD`]; `{ NULL, 0 }` holds none.
///
/// C has to keep right what [`KeyHandle`](crate::KeyHandle) says of a key; each call has the handle
/// alone.
#[repr(C)]
pub struct CAllocation {
    pub(crate) place: AllocationPlace,
    held: u64,
    ghost tied: { holds_allocation held ≡ is_some place.value },
}

impl Handle for CAllocation {
    type Value = AllocationCore;

    ghost held = { λ handle. handle.place.value };

    fn none(alloc: Global) -> CAllocation {
        CAllocation {
            place: AllocationPlace::of(Place::none(alloc)),
            held: 0,
        }
    }

    fn of(core: Box<AllocationCore>) -> CAllocation
        ensures { result.place.value ≡ Some (box_value core) }
    {
        CAllocation {
            place: AllocationPlace::of(Place::of(core)),
            held: HELD,
        }
    }

    fn into_box(self) -> Option<Box<AllocationCore>> {
        let CAllocation { place, held } = self;
        if held == HELD {
            Some(place.into_place().into_box())
        } else {
            place.end();
            None
        }
    }
}

/// Frees the client that the handle holds; the bytes of its password and of its keys are overwritten first.
impl Drop for CAllocation {
    fn drop(self) {
        drop(self.into_box());
    }
}
