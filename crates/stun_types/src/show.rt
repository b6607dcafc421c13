//! Names of attribute types and methods, and functions that print attributes, which a user adds to
//! those of the library, and attributes printed by them; and how messages are printed.

mod display_with;
mod message_printer;
mod own;
mod printer;
mod reading;
mod registry;
mod table;
mod until_refused;
mod written;

pub use display_with::DisplayWith;
pub use message_printer::{MessagePrinter, print_message};
pub use printer::AttributeDisplay;
pub use reading::print_read;
pub use registry::Registry;
pub(crate) use until_refused::display;
pub use written::ShowTextError;

/// Registers a function that prints the attributes of a type of a user's own: it reads one, by
/// [`AttributeFromRaw::from_raw_ref`](crate::attribute::AttributeFromRaw::from_raw_ref), and prints
/// what was read, by its `Display` and a plain `{}`. If reading refuses it prints the text of a
/// malformed attribute, and if reading or printing finds no memory it returns `fmt::Error`.
///
/// It takes the registry and the Rust type, and returns what [`show::Registry::add_display_impl`]
/// does. Call it in the body of a function that makes the registry itself and does not return it.
///
/// # Examples
///
/// ```
/// use ice_attrs::Priority;
/// use stun_types::attribute::RawAttribute;
/// use stun_types::attribute_display;
/// use stun_types::prelude::*;
/// use stun_types::show::{Registry, DisplayWith};
///
/// let mut registry = Registry::new(alloc);
/// attribute_display!(registry, Priority)?;
/// let raw = RawAttribute::new(Priority::TYPE, &[0, 0, 0, 7])?;
/// let shown = DisplayWith { registry: &registry, raw: &raw };
/// assert_eq!(rt; format!(in alloc; "{shown}")?.as_str(), "PRIORITY: 7");
/// ```
///
/// [`show::Registry::add_display_impl`]: crate::show::Registry::add_display_impl
#[macro_export]
macro_rules! attribute_display {
    ($registry:expr, $attribute:ty) => {
        $registry.add_display_impl(
            <$attribute as $crate::attribute::AttributeStaticType>::TYPE,
            |alloc, raw, text| $crate::show::print_read::<$attribute>(alloc, raw, text),
        )
    };
}
