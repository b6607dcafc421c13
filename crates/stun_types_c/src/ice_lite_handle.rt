//! A lite ICE agent in the hands of C: `stun_types_ice_lite` of the header.
ghost use Rattle.std.specs.Prelude.{◌≡◌, Some, is_some, box_value};
ghost use Rattle.stun_types_c.specs.IceLiteMarks.{holds_lite};

use crate::handle::Handle;
use crate::ice_lite_core::IceLiteCore;
use crate::ice_lite_place::IceLitePlace;
use crate::place::Place;
use std::alloc::Global;

/// What `held` is if a handle holds an agent: the letters `stunlite`.
const HELD: u64 = 0x7374_756E_6C69_7465;

/// A lite ICE agent on the heap, or none: in C `struct { void *at; uint64_t held; }`, 16 bytes. It holds an
/// agent only if `held` is [`HELD`]; `{ NULL, 0 }` holds none.
///
/// C has to keep right what [`KeyHandle`](crate::KeyHandle) says of a key; no two calls may use a handle at
/// once.
#[repr(C)]
pub struct CIceLite {
    pub(crate) place: IceLitePlace,
    held: u64,
    ghost tied: { holds_lite held ≡ is_some place.value },
}

impl Handle for CIceLite {
    type Value = IceLiteCore;

    ghost held = { λ handle. handle.place.value };

    fn none(alloc: Global) -> CIceLite {
        CIceLite {
            place: IceLitePlace::of(Place::none(alloc)),
            held: 0,
        }
    }

    fn of(core: Box<IceLiteCore>) -> CIceLite
        ensures { result.place.value ≡ Some (box_value core) }
    {
        CIceLite {
            place: IceLitePlace::of(Place::of(core)),
            held: HELD,
        }
    }

    fn into_box(self) -> Option<Box<IceLiteCore>> {
        let CIceLite { place, held } = self;
        if held == HELD {
            Some(place.into_place().into_box())
        } else {
            place.end();
            None
        }
    }
}

/// Frees the agent that the handle holds; the bytes of its keys are overwritten first.
impl Drop for CIceLite {
    fn drop(self) {
        drop(self.into_box());
    }
}
