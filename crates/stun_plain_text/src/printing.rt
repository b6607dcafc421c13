//! How a message is printed.

ghost use Rattle.std.specs.Prelude.{◌≡◌, OnOk, length};
ghost use Rattle.stun_text.specs.Slices.{laid_over, text_answer, SliceWrote};
ghost use Rattle.stun_types.specs.Message.{message_bytes};
ghost use Rattle.stun_plain_text.specs.PlainMessages.{plain_text};

use crate::escaping::Escaper;
use crate::names::method_name;
use crate::values::print_attribute;
use std::convert::Infallible;
use stun_types::attribute::RawAttribute;
use stun_types::message::{Message, Method};
use stun_types::show::{MessagePrinter, print_message};
use stun_types::{TextSink, TextSlice, TextTooLong};

/// The names of STUN, ICE, TURN and NAT discovery, and attributes with these.
struct PlainPrinter;

impl MessagePrinter for PlainPrinter {
    ghost use Rattle.stun_plain_text.specs.NamesOfAll.{method_name};
    ghost use Rattle.stun_plain_text.specs.PlainValues.{attribute_text};

    ghost name = { λ _ method. method_name method };

    ghost text = { λ _ type value _. attribute_text type value };

    fn method_name(&self, method: Method) -> &'static str {
        method_name(method)
    }

    fn print_attribute<S: TextSink>(
        &self,
        attribute: &RawAttribute<'_>,
        sink: &mut S,
    ) -> Result<(), S::Error> {
        print_attribute(attribute, sink)
    }
}

/// Prints a message in printable ASCII to a slice.
fn print_escaped(message: &Message<'_>, slice: &mut TextSlice<'_>) -> Result<(), Infallible>
    ensures { OnOk result
        (SliceWrote slice.old (plain_text (message_bytes message.now)) slice.new) }
{
    let mut escaper = Escaper { slice };
    print_message(&PlainPrinter, message, &mut escaper)
}

/// Writes the text of a message at the start of `to`, in printable ASCII, and returns its length in
/// bytes. The text has the class, the method, the transaction ID, and the attributes that the
/// message shows, with the names of STUN, ICE, TURN and NAT discovery. What is no printable
/// character of ASCII, in the texts of a message, is escaped: `\\x`, and two hexadecimal digits for
/// each byte, and so is the backslash. So the text has one line, and can't steer a terminal. The
/// bytes of `to` after the text stay as they were. It takes no memory.
///
/// # Errors
///
/// [`TextTooLong`], with the length of the text, if it is longer than `to`. `to` then holds the
/// first bytes of the text, as many as fit.
///
/// # Examples
///
/// ```
/// use stun_plain_text::write_plain_text;
/// use stun_types::message::Message;
///
/// // A request whose SOFTWARE has an escape, which would change the colour of a terminal.
/// let message = Message::from_bytes(
///     b"\x00\x01\x00\x0C\x21\x12\xA4\x42\x00\x00\x00\x00\x00\x00\x00\x00\x00\x00\x03\xE8\
///       \x80\x22\x00\x07a\x1B[31mb\x00",
/// )?;
/// let mut bytes = [0; 200];
/// let length = write_plain_text(&message, &mut bytes)?;
/// let text = std::str::from_utf8(&bytes[..length])?;
/// assert!(rt; text.ends_with("attributes: [32802(0x8022: SOFTWARE): 'a\\x1b[31mb'])"));
/// ```
#[tactic(auto, using(crate::proofs::EscapingLemmas::text_lies, crate::proofs::EscapingLemmas::text_counts))]
pub fn write_plain_text(message: &Message<'_>, to: &mut [u8]) -> Result<usize, TextTooLong>
    ensures answer { result
        ≡ text_answer (length (plain_text (message_bytes message.now))) (length to.old) }
    ensures text { to.new ≡ laid_over (plain_text (message_bytes message.now)) to.old }
{
    let mut slice = TextSlice::new(to);
    match print_escaped(message, &mut slice) {
        Ok(()) => slice.finish(),
        Err(never) => match never {},
    }
}
