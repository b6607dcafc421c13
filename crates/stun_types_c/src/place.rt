//! The place of a value on the heap.
ghost use Rattle.std.specs.Prelude.{◌≡◌, ◌≢◌, Option, Some, None};

use std::alloc::Allocator;
use std::marker::Model;
use std::ptr::null_mut;

/// A box as its address and its allocator, or no box, with an allocator. It owns what the box owned: the
/// value, and the right to free its memory.
///
/// It isn't `Drop`, so it can't be dropped by mistake: it becomes a box again, or the place of a handle
/// of C.
pub(crate) struct Place<T, A: Allocator> {
    pub(crate) at: *mut T,
    pub(crate) alloc: A,
    pub(crate) ghost value: { Option T },
}

impl<T, A: Allocator> Model for Place<T, A> {
    ghost use Rattle.stun_types_c.specs.KeyMemory.{owns_if_some};

    ghost also_owns = { λ place. owns_if_some (A.dealloc_token place.alloc) T.row place.at place.value };
}

impl<T: Drop, A: Allocator> Place<T, A> {
    /// The place of nothing, at the address 0.
    pub(crate) fn none(alloc: A) -> Place<T, A>
        ensures { result.value ≡ None }
    {
        Place {
            at: null_mut(),
            alloc,
        }
    }

    /// The place of the value of a box.
    pub(crate) fn of(boxed: Box<T, A>) -> Place<T, A>
        ensures { result.value ≡ Some boxed.value }
    {
        let (at, alloc) = Box::into_raw_with_allocator(boxed);
        Place { at, alloc }
    }

    /// The value that is here, in a box.
    pub(crate) fn into_box(self) -> Box<T, A>
        requires { self.value ≢ None }
        ensures { Some result.value ≡ self.value }
    {
        let Place { at, alloc } = self;
        // `Box::from_raw` requires memory that holds a value and that the allocator may free. This
        // struct owns just that, as its `also_owns` states, and the proof of this function passes
        // it on.
        unsafe { Box::from_raw(alloc, at) }
    }
}
