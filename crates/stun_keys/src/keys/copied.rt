ghost use Rattle.std.specs.Prelude.{◌≡◌, IfOk};
ghost use Rattle.std.specs.String.{string_bytes};

use std::alloc::{AllocError, Global};

/// A copy of a text, in memory that `alloc` gives.
pub(crate) fn copied(alloc: Global, text: &String) -> Result<String, AllocError>
    ensures { IfOk result (λ copy. string_bytes copy ≡ string_bytes text.now) }
{
    String::from_str(alloc, text.as_str())
}
