//! The place of a lite ICE agent on the heap, in a form that C can store.
ghost use Rattle.std.specs.Prelude.{◌≡◌, Option, None};
ghost use Rattle.stun_types_c.specs.declared.ice_lite_core.IceLiteCore.{IceLiteCore};

use crate::ice_lite_core::IceLiteCore;
use crate::place::Place;
use std::alloc::Global;
use std::marker::Model;

/// The address of an agent, or no agent: as [`KeyPlace`](crate::key_place::KeyPlace) is that of a key.
#[repr(C)]
pub(crate) struct IceLitePlace {
    at: *mut u8,
    alloc: Global,
    pub(crate) ghost value: { Option IceLiteCore },
}

impl Model for IceLitePlace {
    ghost use Rattle.stun_types_c.specs.contracts.ice_lite_core.IceLiteCore.{the_row};
    ghost use Rattle.stun_types_c.specs.KeyMemory.{frees, owns_if_some};

    ghost also_owns = { λ place. owns_if_some (frees place.alloc) the_row place.at place.value };
}

impl IceLitePlace {
    /// The same place for C.
    pub(crate) fn of(place: Place<IceLiteCore, Global>) -> IceLitePlace
        ensures { result.value ≡ place.value }
    {
        let Place { at, alloc } = place;
        IceLitePlace {
            at: at as *mut u8,
            alloc,
        }
    }

    /// The place again.
    pub(crate) fn into_place(self) -> Place<IceLiteCore, Global>
        ensures { result.value ≡ self.value }
    {
        let IceLitePlace { at, alloc } = self;
        Place {
            at: at as *mut IceLiteCore,
            alloc,
        }
    }

    /// Ends the place of nothing.
    pub(crate) fn end(self)
        requires { self.value ≡ None }
    {
        let IceLitePlace { at: _, alloc: _ } = self;
    }
}
