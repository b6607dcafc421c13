//! The text of a message.

ghost use Rattle.std.specs.Prelude.{◌≡◌};
ghost use Rattle.stun_types_c.specs.Printing.{Prints};

use crate::call_result::{CResult, counted, parse_result, plain};
use crate::codes;
use stun_plain_text::write_plain_text;
use stun_types::message::Message;

/// Writes the text of a message at the start of a slice.
#[unsafe(no_mangle)]
pub extern "C" fn stun_types_print(bytes: &[u8], text: &mut [u8], written: &mut usize) -> CResult
    ensures { Prints bytes.now result text.old text.new written.old written.new }
{
    let message = match Message::from_bytes(bytes) {
        Ok(message) => message,
        Err(error) => return parse_result(error),
    };
    let room = text.len();
    match write_plain_text(&message, text) {
        Ok(length) => {
            *written = length;
            plain(codes::OK)
        }
        Err(reported) => {
            *written = room;
            counted(codes::TOO_SMALL, reported.length, room)
        }
    }
}
