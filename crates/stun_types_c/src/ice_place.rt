//! The place of an ICE agent on the heap, in a form that C can store.
ghost use Rattle.std.specs.Prelude.{◌≡◌, Option, None};
ghost use Rattle.stun_types_c.specs.declared.ice_core.IceCore.{IceCore};

use crate::ice_core::IceCore;
use crate::place::Place;
use std::alloc::Global;
use std::marker::{Model, Send};

/// The address of an agent, or no agent: as [`KeyPlace`](crate::key_place::KeyPlace) is that of a key.
#[repr(C)]
pub(crate) struct IcePlace {
    at: *mut u8,
    alloc: Global,
    pub(crate) ghost value: { Option IceCore },
}

impl Model for IcePlace {
    ghost use Rattle.stun_types_c.specs.contracts.ice_core.IceCore.{the_row};
    ghost use Rattle.stun_types_c.specs.KeyMemory.{frees, owns_if_some};

    ghost also_owns = { λ place. owns_if_some (frees place.alloc) the_row place.at place.value };
}

impl IcePlace {
    /// The same place for C.
    pub(crate) fn of(place: Place<IceCore, Global>) -> IcePlace
        ensures { result.value ≡ place.value }
    {
        let Place { at, alloc } = place;
        IcePlace {
            at: at as *mut u8,
            alloc,
        }
    }

    /// The place again.
    pub(crate) fn into_place(self) -> Place<IceCore, Global>
        ensures { result.value ≡ self.value }
    {
        let IcePlace { at, alloc } = self;
        Place {
            at: at as *mut IceCore,
            alloc,
        }
    }

    /// Ends the place of nothing.
    pub(crate) fn end(self)
        requires { self.value ≡ None }
    {
        let IcePlace { at: _, alloc: _ } = self;
    }
}

// As a key in its place: an agent may go to another thread, and so may the right to free its memory.
unsafe impl Send for IcePlace {}
