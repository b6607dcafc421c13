//! The place of a TURN client on the heap, in a form that C can store.
ghost use Rattle.std.specs.Prelude.{◌≡◌, Option, None};
ghost use Rattle.stun_types_c.specs.declared.allocation_core.AllocationCore.{AllocationCore};

use crate::allocation_core::AllocationCore;
use crate::place::Place;
use std::alloc::Global;
use std::marker::{Model, Send};

/// The address of a client, or no client: as [`KeyPlace`](crate::key_place::KeyPlace) is that of a key.
#[repr(C)]
pub(crate) struct AllocationPlace {
    at: *mut u8,
    alloc: Global,
    pub(crate) ghost value: { Option AllocationCore },
}

impl Model for AllocationPlace {
    ghost use Rattle.stun_types_c.specs.contracts.allocation_core.AllocationCore.{the_row};
    ghost use Rattle.stun_types_c.specs.KeyMemory.{frees, owns_if_some};

    ghost also_owns = { λ place. owns_if_some (frees place.alloc) the_row place.at place.value };
}

impl AllocationPlace {
    /// The same place for C.
    pub(crate) fn of(place: Place<AllocationCore, Global>) -> AllocationPlace
        ensures { result.value ≡ place.value }
    {
        let Place { at, alloc } = place;
        AllocationPlace {
            at: at as *mut u8,
            alloc,
        }
    }

    /// The place again.
    pub(crate) fn into_place(self) -> Place<AllocationCore, Global>
        ensures { result.value ≡ self.value }
    {
        let AllocationPlace { at, alloc } = self;
        Place {
            at: at as *mut AllocationCore,
            alloc,
        }
    }

    /// Ends the place of nothing.
    pub(crate) fn end(self)
        requires { self.value ≡ None }
    {
        let AllocationPlace { at: _, alloc: _ } = self;
    }
}

// As a key in its place: a client may go to another thread, and so may the right to free its memory.
unsafe impl Send for AllocationPlace {}
