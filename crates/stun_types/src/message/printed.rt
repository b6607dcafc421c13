//! How the library itself prints a message.

use crate::attribute::RawAttribute;
use crate::message::Method;
use crate::show::MessagePrinter;
use crate::{PrintText, TextSink};

/// The names and texts that methods and attributes print by themselves.
pub(super) struct OwnPrinter;

impl MessagePrinter for OwnPrinter {
    ghost use Rattle.stun_grammar.specs.Names.{method_name};
    ghost use Rattle.stun_attributes.specs.PrintedAttributes.{attribute_text};

    ghost name = { λ _ method. method_name method };

    ghost text = { λ _ type value borrowed. attribute_text type value borrowed };

    fn method_name(&self, method: Method) -> &'static str {
        method.name()
    }

    fn print_attribute<S: TextSink>(
        &self,
        attribute: &RawAttribute<'_>,
        sink: &mut S,
    ) -> Result<(), S::Error> {
        attribute.print(sink)
    }
}
