use super::printer::AttributeDisplay;
use super::registry::Registry;
use super::written::ShowTextError;
use crate::attribute::RawAttribute;
use std::fmt;

/// An attribute that prints by [`Registry::show`].
///
/// # Examples
///
/// ```
/// use stun_types::attribute::{AttributeType, RawAttribute};
/// use stun_types::show::{Registry, DisplayWith};
///
/// let registry = Registry::new(alloc);
/// let raw = RawAttribute::new(AttributeType(0x8022), b"my client")?;
/// let shown = DisplayWith { registry: &registry, raw: &raw };
/// let text = format!(in alloc; "{shown}")?;
/// assert_eq!(rt; text.as_str(), "32802(0x8022: SOFTWARE): 'my client'");
/// ```
#[derive(Clone, Copy)]
pub struct DisplayWith<'r, 'a> {
    /// The registry by which the attribute prints.
    pub registry: &'r Registry,
    /// The attribute that prints.
    pub raw: &'r RawAttribute<'a>,
}

impl DisplayWith<'_, '_> {
    ghost use Rattle.std.specs.Prelude.{MatchOption};
    ghost use Rattle.stun_attributes.specs.Raw.{raw_type};
    ghost use Rattle.stun_types.specs.Shown.{display_of, own_text, WritesBy, WritesText};

    /// Writes the text at the start of `to`, by [`Registry::write_text`].
    ///
    /// # Errors
    ///
    /// Those of [`Registry::write_text`].
    pub fn write_text(&self, to: &mut [u8]) -> Result<usize, ShowTextError>
        ensures { MatchOption (display_of self.now.registry.now (raw_type self.now.raw.now))
            (WritesText (own_text self.now.raw.now) to.old result to.new)
            (λ imp. WritesBy (AttributeDisplay.post imp) self.now.raw.now
            to.old result to.new) }
    {
        self.registry.write_text(self.raw, to)
    }
}

/// The text that [`Registry::show`] prints, for a plain `{}`: no width, no precision and no `{:#}`.
impl fmt::Display for DisplayWith<'_, '_> {
    ghost use Rattle.stun_types.specs.Shown.{shown_text};

    ghost output = { λ shown. shown_text shown.registry.now shown.raw.now };

    fn fmt<W: fmt::Write>(&self, f: &mut fmt::Formatter<W>) -> fmt::Result {
        self.registry.show(self.raw, f)
    }
}
