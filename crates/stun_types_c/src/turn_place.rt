//! The place of a TURN server on the heap, in a form that C can store.
ghost use Rattle.std.specs.Prelude.{◌≡◌, Option, None};
ghost use Rattle.stun_types_c.specs.declared.turn_core.TurnCore.{TurnCore};

use crate::place::Place;
use crate::turn_core::TurnCore;
use std::alloc::Global;
use std::marker::{Model, Send};

/// The address of a server, or no server: as [`KeyPlace`](crate::key_place::KeyPlace) is that of a key.
#[repr(C)]
pub(crate) struct TurnPlace {
    at: *mut u8,
    alloc: Global,
    pub(crate) ghost value: { Option TurnCore },
}

impl Model for TurnPlace {
    ghost use Rattle.stun_types_c.specs.contracts.turn_core.TurnCore.{the_row};
    ghost use Rattle.stun_types_c.specs.KeyMemory.{frees, owns_if_some};

    ghost also_owns = { λ place. owns_if_some (frees place.alloc) the_row place.at place.value };
}

impl TurnPlace {
    /// The same place for C.
    pub(crate) fn of(place: Place<TurnCore, Global>) -> TurnPlace
        ensures { result.value ≡ place.value }
    {
        let Place { at, alloc } = place;
        TurnPlace {
            at: at as *mut u8,
            alloc,
        }
    }

    /// The place again.
    pub(crate) fn into_place(self) -> Place<TurnCore, Global>
        ensures { result.value ≡ self.value }
    {
        let TurnPlace { at, alloc } = self;
        Place {
            at: at as *mut TurnCore,
            alloc,
        }
    }

    /// Ends the place of nothing.
    pub(crate) fn end(self)
        requires { self.value ≡ None }
    {
        let TurnPlace { at: _, alloc: _ } = self;
    }
}

// As a key in its place: a server may go to another thread, and so may the right to free its memory.
unsafe impl Send for TurnPlace {}
