//! What the handles of C have in common: each holds a value on the heap, or nothing.
ghost use Rattle.std.specs.Prelude.{◌≡◌, Option, Some, None, All, IfOk, IfErr, option_map, box_value};

use std::alloc::{AllocError, Global};
use std::mem::replace;

/// A handle in the hands of C, which owns what it holds.
pub(crate) trait Handle: Drop {
    /// The type of what it holds.
    type Value: Drop;

    /// The value that a handle holds.
    ghost held: { Self → Option Self.Value };

    /// A handle that holds nothing. It takes no memory.
    fn none(alloc: Global) -> Self
        ensures { held result ≡ None };

    /// A handle that holds this value. Nothing is copied.
    fn of(value: Box<Self::Value>) -> Self
        ensures { held result ≡ Some (box_value value) };

    /// The value that the handle holds, or `None`. Nothing is copied.
    fn into_box(self) -> Option<Box<Self::Value>>
        ensures { option_map box_value result ≡ held self };
}

/// Puts a value into a handle, in memory that `alloc` gives, and frees what the handle held before.
///
/// # Errors
///
/// `AllocError` if there is no memory. The handle is as it was, and the new value is dropped.
pub(crate) fn hold<H: Handle>(
    handle: &mut H,
    alloc: Global,
    value: H::Value,
) -> Result<(), AllocError>
    ensures holds { IfOk result (λ _. H.held handle.new ≡ Some value) }
    ensures unchanged { IfErr result (λ _. handle.new ≡ handle.old) }
{
    let boxed = Box::new(alloc, value)?;
    *handle = H::of(boxed);
    Ok(())
}

/// Takes the value out of a handle, which then holds nothing.
pub(crate) fn take<H: Handle>(handle: &mut H, alloc: Global) -> Option<Box<H::Value>>
    ensures taken { option_map box_value result ≡ H.held handle.old }
    ensures left { H.held handle.new ≡ None }
{
    replace(handle, H::none(alloc)).into_box()
}

/// Puts a value back into a handle, and frees what it held before.
pub(crate) fn put<H: Handle>(handle: &mut H, value: Box<H::Value>)
    ensures { H.held handle.new ≡ Some (box_value value) }
{
    *handle = H::of(value);
}

/// Frees what the handles hold; the bytes of keys are overwritten first. The handles then hold nothing.
pub(crate) fn release_all<H: Handle>(handles: &mut [H], alloc: Global)
    ensures { All (λ handle. H.held handle ≡ None) handles.new }
{
    for handle in handles.iter_mut() {
        *handle = H::none(alloc);
    }
}
