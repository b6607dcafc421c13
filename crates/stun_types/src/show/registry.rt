use super::own::own_or;
use super::printer::{AttributeDisplay, Printer};
use super::table::Table;
use super::written::{ShowTextError, answer, write_made};
use crate::attribute::{Attribute, AttributeType, RawAttribute};
use crate::message::{Method, StunWriteError};
use std::alloc::Global;
use std::fmt;
use stun_values::is_typed;

/// Names of attribute types and of methods, and functions that print attributes, for numbers that
/// the library has none for. Of what is registered for one number, the last counts.
///
/// # Examples
///
/// ```
/// use stun_types::attribute::AttributeType;
/// use stun_types::show::Registry;
///
/// let mut registry = Registry::new(alloc);
/// registry.add_name(AttributeType(0x8851), "MY-ATTRIBUTE")?;
/// assert_eq!(rt; registry.name(AttributeType(0x8851)), "MY-ATTRIBUTE");
/// assert_eq!(rt; registry.name(AttributeType(0x8022)), "SOFTWARE");
/// ```
#[derive(Drop)]
pub struct Registry {
    names: Table<&'static str>,
    method_names: Table<&'static str>,
    printers: Table<Printer>,
    alloc: Global,
}

impl Registry {
    ghost use Rattle.std.specs.Prelude.{◌≡◌, ℕ, None, OnOk, OnErr, IfErr, MatchOption};
    ghost use Rattle.std.specs.Option.{option_map};
    ghost use Rattle.std.specs.Fmt.{DisplaysOnOk};
    ghost use Rattle.stun_attributes.specs.Raw.{raw_type};
    ghost use Rattle.stun_types.specs.Shown.{displayed, display_of, own_text, ShowsBy, WritesBy, WritesText};
    ghost use Rattle.stun_types.specs.Registered.{registered_name, registered_method_name, registered_display, AddsName, AddsMethodName, AddsDisplay, IsUnchanged, name_of, method_name_of};

    /// A registry with no entry, which grows in memory from `alloc`.
    pub fn new(alloc: Global) -> Self
        ensures names { (type : ℕ) → registered_name result type ≡ None }
        ensures method_names { (method : ℕ) → registered_method_name result method ≡ None }
        ensures displays { (type : ℕ) → registered_display result type ≡ None }
    {
        Registry {
            names: Table::new(alloc),
            method_names: Table::new(alloc),
            printers: Table::new(alloc),
            alloc,
        }
    }

    /// Registers a name for an attribute type, instead of the one that was registered for it. A
    /// type that the library has a name for keeps that one, whatever is registered.
    ///
    /// # Errors
    ///
    /// `OutOfMemory` alone, and only for a type that no name was registered for. The registry is
    /// then as before.
    ///
    /// # Examples
    ///
    /// ```
    /// use stun_types::attribute::AttributeType;
    /// use stun_types::show::Registry;
    ///
    /// let mut registry = Registry::new(alloc);
    /// registry.add_name(AttributeType(0x8851), "FIRST")?;
    /// registry.add_name(AttributeType(0x8851), "SECOND")?;
    /// assert_eq!(rt; registry.name(AttributeType(0x8851)), "SECOND");
    /// assert_eq!(rt; registry.name(AttributeType(0x8852)), "unknown");
    /// ```
    pub fn add_name(
        &mut self,
        atype: AttributeType,
        name: &'static str,
    ) -> Result<(), StunWriteError>
        ensures added { OnOk result (AddsName atype.0 name.now self.old self.new) }
        ensures err { IfErr result (λ e. e ≡ StunWriteError.OutOfMemory) }
        ensures refused { OnErr result (IsUnchanged self.old self.new) }
        ensures first { OnErr result (registered_name self.old atype.0 ≡ None) }
    {
        self.names.set(atype.value(), name)
    }

    /// Registers a name for a method, instead of the one that was registered for it. A method that
    /// the library has a name for keeps that one, whatever is registered.
    ///
    /// # Errors
    ///
    /// `OutOfMemory` alone, and only for a method that no name was registered for. The registry is
    /// then as before.
    ///
    /// # Examples
    ///
    /// ```
    /// use stun_types::message::Method;
    /// use stun_types::show::Registry;
    ///
    /// let mut registry = Registry::new(alloc);
    /// registry.add_method_name(Method::new(0x003), "ALLOCATE")?;
    /// assert_eq!(rt; registry.method_name(Method::new(0x003)), "ALLOCATE");
    /// ```
    pub fn add_method_name(
        &mut self,
        method: Method,
        name: &'static str,
    ) -> Result<(), StunWriteError>
        ensures added { OnOk result (AddsMethodName method name.now self.old self.new) }
        ensures err { IfErr result (λ e. e ≡ StunWriteError.OutOfMemory) }
        ensures refused { OnErr result (IsUnchanged self.old self.new) }
        ensures first { OnErr result (registered_method_name self.old method ≡ None) }
    {
        self.method_names.set(method.value(), name)
    }

    /// Registers a function that prints the attributes of a type, instead of the one that was
    /// registered for it. An attribute of a type that the library has a typed attribute for is
    /// printed as that one, whatever is registered.
    ///
    /// # Requires
    ///
    /// `imp` may be called on every raw attribute: it has no `requires` of its own, as the
    /// functions that `attribute_display!` registers have none.
    ///
    /// # Errors
    ///
    /// `OutOfMemory` alone, and only for a type that no function was registered for. The registry
    /// is then as before.
    ///
    /// # Examples
    ///
    /// ```
    /// use std::alloc::Global;
    /// use std::fmt;
    /// use stun_types::attribute::{AttributeType, RawAttribute};
    /// use stun_types::show::{Registry, DisplayWith};
    ///
    /// fn print_count(_alloc: Global, raw: &RawAttribute<'_>, text: &mut String) -> fmt::Result {
    ///     let count = raw.value().as_bytes().len();
    ///     write!(text, "MINE: {count} bytes").map_err(|_| fmt::Error)
    /// }
    ///
    /// let mut registry = Registry::new(alloc);
    /// registry.add_display_impl(AttributeType(0x8851), print_count)?;
    /// let raw = RawAttribute::new(AttributeType(0x8851), &[4, 0])?;
    /// let shown = DisplayWith { registry: &registry, raw: &raw };
    /// assert_eq!(rt; format!(in alloc; "{shown}")?.as_str(), "MINE: 2 bytes");
    /// ```
    pub fn add_display_impl(
        &mut self,
        atype: AttributeType,
        imp: AttributeDisplay,
    ) -> Result<(), StunWriteError>
        requires { IsAlwaysCallable imp }
        ensures added { OnOk result (AddsDisplay atype.0 imp self.old self.new) }
        ensures err { IfErr result (λ e. e ≡ StunWriteError.OutOfMemory) }
        ensures refused { OnErr result (IsUnchanged self.old self.new) }
        ensures first { OnErr result (registered_display self.old atype.0 ≡ None) }
    {
        self.printers.set(atype.value(), Printer::new(imp))
    }

    /// The name of a type: the one that [`AttributeType::name`] returns, or if that is `unknown`
    /// the one that was registered last, if any.
    pub fn name(&self, atype: AttributeType) -> &'static str
        ensures { result.now ≡ name_of self.now atype.0 }
    {
        own_or(atype.name(), self.names.find(atype.value()))
    }

    /// The name of a method: the one that [`Method::name`] returns, or if that is `unknown` the
    /// one that was registered last, if any.
    pub fn method_name(&self, method: Method) -> &'static str
        ensures { result.now ≡ method_name_of self.now method }
    {
        own_or(method.name(), self.method_names.find(method.value()))
    }

    /// The function that prints the attributes of a type: none for a type that the library has a
    /// typed attribute for.
    fn printer_of(&self, atype: AttributeType) -> Option<Printer>
        ensures { option_map (λ printer. printer.imp) result ≡ display_of self.now atype.0 }
    {
        if is_typed(atype) {
            return None;
        }
        self.printers.find(atype.value())
    }

    /// Prints an attribute by the function that is registered for its type. An attribute of a type
    /// that the library has a typed attribute for, or that no function is registered for, prints as
    /// by its own `Display`.
    ///
    /// The function makes the text, in memory from the allocator of the registry, before any
    /// of it is written.
    ///
    /// # Errors
    ///
    /// `fmt::Error` if the function answers it, as if it finds no memory, with nothing
    /// written; and if the formatter refuses a part of the text.
    pub fn show<W: fmt::Write>(
        &self,
        raw: &RawAttribute<'_>,
        f: &mut fmt::Formatter<W>,
    ) -> fmt::Result
        ensures { MatchOption (display_of self.now (raw_type raw.now))
            (DisplaysOnOk W.write_str_gives f.old result (displayed raw.now) f.new)
            (λ imp. ShowsBy W.write_str_gives (AttributeDisplay.post imp) raw.now
            f.old result f.new) }
    {
        match self.printer_of(raw.get_type()) {
            None => write!(f, "{raw}"),
            Some(printer) => {
                let text = printer.text(self.alloc, raw)?;
                f.write_str(&text)
            }
        }
    }

    /// Writes the text that [`Registry::show`] prints of an attribute, in UTF-8, at the start of `to`,
    /// and returns how many bytes it has. The bytes of `to` after the text stay as they were.
    ///
    /// If a function is registered for the type, it makes the text first, in memory from the
    /// allocator of the registry. Otherwise no memory is taken. If the text was made and `to` has
    /// room, the call succeeds.
    ///
    /// # Errors
    ///
    /// - `Failed` if the function answers `fmt::Error`: `to` stays as it was;
    /// - `TooLong` with the length of the text if that is longer than `to`: a slice of that length
    ///   has room. `to` then holds the first bytes of the text, as many as it has room for, and a
    ///   character may be cut at its end.
    pub fn write_text(&self, raw: &RawAttribute<'_>, to: &mut [u8]) -> Result<usize, ShowTextError>
        ensures { MatchOption (display_of self.now (raw_type raw.now))
            (WritesText (own_text raw.now) to.old result to.new)
            (λ imp. WritesBy (AttributeDisplay.post imp) raw.now to.old result to.new) }
    {
        match self.printer_of(raw.get_type()) {
            None => answer(raw.write_text(to)),
            Some(printer) => match printer.text(self.alloc, raw) {
                Ok(text) => write_made(&text, to),
                Err(_) => Err(ShowTextError::Failed),
            },
        }
    }
}
