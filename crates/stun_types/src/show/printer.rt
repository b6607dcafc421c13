use crate::attribute::RawAttribute;
use std::alloc::Global;
use std::fmt;

/// A function that prints an attribute: it appends the text to an empty one, which grows in memory
/// from the allocator.
pub type AttributeDisplay = fn(Global, &RawAttribute<'_>, &mut String) -> fmt::Result;

/// A function that may be called on every raw attribute.
#[derive(Clone, Copy)]
pub(crate) struct Printer {
    imp: AttributeDisplay,
    ghost callable: { IsAlwaysCallable imp },
}

impl Printer {
    ghost use Rattle.std.specs.Prelude.{◌≡◌, MatchResult};
    ghost use Rattle.std.specs.String.{string_bytes};
    ghost use Rattle.stun_types.specs.Shown.{Gives};

    /// The printer that calls this function.
    pub(crate) fn new(imp: AttributeDisplay) -> Self
        requires { IsAlwaysCallable imp }
        ensures { result.imp ≡ imp }
    {
        Printer { imp }
    }

    /// The whole text of an attribute.
    ///
    /// # Errors
    ///
    /// `fmt::Error` if the function answers it.
    pub(crate) fn text(&self, alloc: Global, raw: &RawAttribute<'_>) -> Result<String, fmt::Error>
        ensures { MatchResult result
            (λ text. Gives (AttributeDisplay.post self.now.imp) raw.now
            (Ok tt) (string_bytes text))
            (λ e. (left : _)
            × Gives (AttributeDisplay.post self.now.imp) raw.now (Err e) left) }
    {
        let mut text = String::new(alloc);
        (self.imp)(alloc, raw, &mut text)?;
        Ok(text)
    }
}
