//! Beginning the reply to a request.

ghost use Rattle.std.specs.Prelude.{◌≡◌, ◌≤◌, length, MatchResult};
ghost use Rattle.stun_base.specs.declared.message_class.MessageClass.{MessageClass};
ghost use Rattle.stun_types_c.specs.Replying.{reply_class, request_answer, BeginsReply};

use crate::call_result::{CResult, counted, parse_result, plain};
use crate::codes;
use stun_types::message::write::write_message_header;
use stun_types::message::{MessageClass, MessageHeader, MessageType};

/// The class of a reply, by its number.
fn reply_class(number: u32) -> Option<MessageClass>
    ensures { result ≡ reply_class number }
{
    match number {
        2 => Some(MessageClass::Success),
        3 => Some(MessageClass::Error),
        _ => None,
    }
}

/// Begins the reply to a request: writes the header of a response with the method and the
/// transaction ID of the request, at the start of a slice.
#[unsafe(no_mangle)]
pub extern "C" fn stun_types_begin_reply(
    room: &mut [u8],
    request: &[u8],
    class: u32,
    written: &mut usize,
) -> CResult
    ensures { BeginsReply request.now class result
        (record { slice = room.old; count = written.old })
        (record { slice = room.new; count = written.new }) }
{
    let header = match MessageHeader::from_bytes(request) {
        Ok(header) => header,
        Err(error) => return parse_result(error),
    };
    let mtype = header.get_type();
    if mtype.class() != MessageClass::Request {
        return plain(codes::NOT_A_REQUEST);
    }
    let Some(class) = reply_class(class) else {
        return plain(codes::BAD_ARGUMENT);
    };
    if room.len() < MessageHeader::LENGTH {
        return counted(codes::TOO_SMALL, MessageHeader::LENGTH, room.len());
    }
    let reply = MessageType::from_class_method(class, mtype.method());
    write_message_header(reply, header.transaction_id(), room);
    *written = MessageHeader::LENGTH;
    plain(codes::OK)
}
