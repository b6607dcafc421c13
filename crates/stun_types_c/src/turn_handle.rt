//! A TURN server in the hands of C: `stun_types_turn` of the header.
ghost use Rattle.std.specs.Prelude.{◌≡◌, Some, is_some, box_value};
ghost use Rattle.stun_types_c.specs.TurnMarks.{holds_turn};

use crate::handle::Handle;
use crate::place::Place;
use crate::turn_core::TurnCore;
use crate::turn_place::TurnPlace;
use std::alloc::Global;

/// What `held` is if a handle holds a server: the letters `stunturn`.
const HELD: u64 = 0x7374_756E_7475_726E;

/// A TURN server on the heap, or none: in C `struct { void *at; uint64_t held; }`, 16 bytes. It holds a
/// server only if `held` is [`HELD`]; `{ NULL, 0 }` holds none.
///
/// C has to keep right what [`KeyHandle`](crate::KeyHandle) says of a key; each call has the handle
/// alone.
#[repr(C)]
pub struct CTurn {
    pub(crate) place: TurnPlace,
    held: u64,
    ghost tied: { holds_turn held ≡ is_some place.value },
}

impl Handle for CTurn {
    type Value = TurnCore;

    ghost held = { λ handle. handle.place.value };

    fn none(alloc: Global) -> CTurn {
        CTurn {
            place: TurnPlace::of(Place::none(alloc)),
            held: 0,
        }
    }

    fn of(core: Box<TurnCore>) -> CTurn
        ensures { result.place.value ≡ Some (box_value core) }
    {
        CTurn {
            place: TurnPlace::of(Place::of(core)),
            held: HELD,
        }
    }

    fn into_box(self) -> Option<Box<TurnCore>> {
        let CTurn { place, held } = self;
        if held == HELD {
            Some(place.into_place().into_box())
        } else {
            place.end();
            None
        }
    }
}

/// Frees the server that the handle holds; the bytes of its secret are overwritten first.
impl Drop for CTurn {
    fn drop(self) {
        drop(self.into_box());
    }
}
