//! How a message is printed: one walk over it, by the names and the texts that a printer has.

ghost use Rattle.std.specs.Prelude.{◌≡◌, ℕ, Bool, List, ◌++◌, OnOk};
ghost use Rattle.stun_grammar.specs.Showing.{shown};
ghost use Rattle.stun_base.specs.Data.{is_borrowed};
ghost use Rattle.stun_attributes.specs.Raw.{raw_type, raw_data, raw_value};
ghost use Rattle.stun_types.specs.Message.{message_bytes};
ghost use Rattle.stun_types.specs.PrintedMessages.{head_text, attributes_text, text_by};

use crate::attribute::RawAttribute;
use crate::message::{Message, MessageHeader, Method};
use crate::{PrintText, TextSink};
use stun_base::put_class_and_method;

/// The names of methods and the texts of attributes by which [`print_message`] prints a message.
///
/// In contracts `name` is the name of a method, and `text` the text of an attribute by its type, its
/// value and whether that is borrowed.
///
/// # Examples
///
/// ```
/// use stun_types::attribute::{Attribute, RawAttribute};
/// use stun_types::message::{Message, Method};
/// use stun_types::show::{MessagePrinter, print_message};
/// use stun_types::{PrintText, TextSink, TextSlice};
///
/// // Prints the types of attributes, and no values.
/// struct TypesAlone;
///
/// impl MessagePrinter for TypesAlone {
///     ghost use Rattle.stun_grammar.specs.Names.{method_name, attribute_type_text};
///
///     ghost name = { λ _ method. method_name method };
///
///     ghost text = { λ _ type _ _. attribute_type_text type };
///
///     fn method_name(&self, method: Method) -> &'static str {
///         method.name()
///     }
///
///     fn print_attribute<S: TextSink>(
///         &self,
///         attribute: &RawAttribute<'_>,
///         sink: &mut S,
///     ) -> Result<(), S::Error> {
///         attribute.get_type().print(sink)
///     }
/// }
///
/// let message = Message::from_bytes(
///     b"\x00\x01\x00\x08\x21\x12\xA4\x42\0\0\0\0\0\0\0\0\0\0\x73\x92\x80\x22\x00\x04STUN",
/// )?;
/// let mut text = [0; 128];
/// let mut sink = TextSlice::new(&mut text);
/// let Ok(()) = print_message(&TypesAlone, &message, &mut sink);
/// let length = sink.finish()?;
/// let printed = b"Message(class: Request, method: 1(0x1: BINDING), \
///     transaction: 0x7392, attributes: [32802(0x8022: SOFTWARE)])";
/// assert_eq!(rt; &text[..length], printed.as_slice());
/// ```
pub trait MessagePrinter {
    ghost name: { Self → ℕ → List ℕ };

    ghost text: { Self → ℕ → List ℕ → Bool → List ℕ };

    /// Returns the name of a method, which is printed after its number.
    fn method_name(&self, method: Method) -> &'static str
        ensures { result.now ≡ name self.now method };

    /// Prints an attribute.
    ///
    /// # Errors
    ///
    /// That of the sink.
    fn print_attribute<S: TextSink>(
        &self,
        attribute: &RawAttribute<'_>,
        sink: &mut S,
    ) -> Result<(), S::Error>
        ensures { OnOk result (S.wrote sink.old (text self.now (raw_type attribute.now)
            (raw_value attribute.now) (is_borrowed (raw_data attribute.now))) sink.new) };
}

/// Prints what precedes the attributes: the class, the method and the transaction ID.
fn print_head<P: MessagePrinter, S: TextSink>(
    printer: &P,
    header: &MessageHeader,
    sink: &mut S,
) -> Result<(), S::Error>
    ensures { OnOk result
        (S.wrote sink.old (head_text (P.name printer.now) header.now) sink.new) }
{
    let mtype = header.get_type();
    sink.put("Message(class: ")?;
    put_class_and_method(sink, mtype, printer.method_name(mtype.method()))?;
    sink.put(", transaction: ")?;
    header.transaction_id().print(sink)?;
    sink.put(", attributes: [")?;
    Ok(())
}

/// Prints a text and an attribute after it.
#[tactic(auto, using(stun_text::proofs::Joining::both, stun_text::proofs::Joining::spelled_so))]
fn print_led<P: MessagePrinter, S: TextSink>(
    printer: &P,
    lead: &str,
    attribute: &RawAttribute<'_>,
    sink: &mut S,
) -> Result<(), S::Error>
    ensures { OnOk result (S.wrote sink.old
        (lead.now ++ P.text printer.now (raw_type attribute.now) (raw_value attribute.now)
        (is_borrowed (raw_data attribute.now))) sink.new) }
{
    sink.put(lead)?;
    printer.print_attribute(attribute, sink)?;
    Ok(())
}

/// Prints the attributes that a message shows, with a comma and a space between them.
fn print_attributes<P: MessagePrinter, S: TextSink>(
    printer: &P,
    message: &Message<'_>,
    sink: &mut S,
) -> Result<(), S::Error>
    ensures { OnOk result (S.wrote sink.old
        (attributes_text (P.text printer.now) (shown (message_bytes message.now))) sink.new) }
{
    let mut lead = "";
    for (_offset, attribute) in message.iter_attributes() {
        print_led(printer, lead, &attribute, sink)?;
        lead = ", ";
    }
    Ok(())
}

/// Prints a message by a printer's names and texts: its class, its method by number and name, its
/// transaction ID, and the attributes that it shows, with a comma and a space between them.
///
/// It walks the attributes once, and takes no memory.
///
/// # Errors
///
/// That of the sink.
pub fn print_message<P: MessagePrinter, S: TextSink>(
    printer: &P,
    message: &Message<'_>,
    sink: &mut S,
) -> Result<(), S::Error>
    ensures { OnOk result (S.wrote sink.old
        (text_by (P.name printer.now) (P.text printer.now) (message_bytes message.now))
        sink.new) }
{
    print_head(printer, &message.header(), sink)?;
    print_attributes(printer, message, sink)?;
    sink.put("])")?;
    Ok(())
}
