//! Framing, parsing, and the header.

ghost use Rattle.std.specs.Prelude.{◌≡◌, ◌%◌, ◌^◌, MatchOption};
ghost use Rattle.stun_grammar.specs.Headers.{header_fault};
ghost use Rattle.stun_grammar.specs.Parsing.{parse_fault};
ghost use Rattle.stun_types_c.specs.CResults.{fault_result};
ghost use Rattle.stun_base.specs.MessageTypes.{type_of};
ghost use Rattle.stun_types_c.specs.Reading.{Frames, header_in_c, class_number, class_numbered};

use crate::call_result::{CResult, parse_result, plain};
use crate::codes;
use stun_base::number_at;
use stun_types::message::{
    Message, MessageClass, MessageHeader, MessageType, Method, message_length,
};

/// A transaction ID, as its bytes.
#[repr(C)]
#[derive(Clone, Copy, Drop)]
pub struct Id {
    /// The bytes, in the order of the message.
    pub bytes: [u8; 12],
}

/// The header of a message.
#[repr(C)]
#[derive(Clone, Copy, Drop)]
pub struct Header {
    /// The first two bytes.
    pub mtype: u16,
    /// The method, of 12 bits.
    pub method: u16,
    /// The number of the class.
    pub class: u16,
    /// The length field.
    pub length: u16,
    /// The transaction ID.
    pub id: Id,
}

/// How many bytes the message has that begins here; 0 if more bytes are needed.
#[unsafe(no_mangle)]
pub extern "C" fn stun_types_framed_length(bytes: &[u8], whole: &mut usize) -> CResult
    ensures { Frames bytes.now result whole.old whole.new }
{
    match message_length(bytes) {
        Ok(Some(length)) => {
            *whole = length;
            plain(codes::OK)
        }
        Ok(None) => {
            *whole = 0;
            plain(codes::OK)
        }
        Err(error) => parse_result(error),
    }
}

/// Whether the bytes are a message.
#[unsafe(no_mangle)]
pub extern "C" fn stun_types_parse(bytes: &[u8]) -> CResult
    ensures { result ≡ fault_result (parse_fault bytes.now) }
{
    match Message::from_bytes(bytes) {
        Ok(_) => plain(codes::OK),
        Err(error) => parse_result(error),
    }
}

/// The number of a class.
fn class_number(class: MessageClass) -> u16
    ensures { result ≡ class_number class }
{
    match class {
        MessageClass::Request => 0,
        MessageClass::Indication => 1,
        MessageClass::Success => 2,
        MessageClass::Error => 3,
    }
}

/// Reads the header, the first twenty bytes.
#[tactic(auto, using(stun_grammar::proofs::HeadersLemmas::header_there))]
#[unsafe(no_mangle)]
pub extern "C" fn stun_types_read_header(bytes: &[u8], header: &mut Header) -> CResult
    ensures answer { result ≡ fault_result (header_fault bytes.now) }
    ensures header { MatchOption (header_fault bytes.now) (header.new ≡ header_in_c bytes.now)
        (λ _. header.new ≡ header.old) }
{
    let read = match MessageHeader::from_bytes(bytes) {
        Ok(read) => read,
        Err(error) => return parse_result(error),
    };
    let mtype = read.get_type();
    let mut id = [0; 12];
    id.copy_from_slice(&bytes[8..20]);
    *header = Header {
        mtype: number_at(bytes, 0),
        method: mtype.method().value(),
        class: class_number(mtype.class()),
        length: read.data_length(),
        id: Id { bytes: id },
    };
    plain(codes::OK)
}

/// The class of a number, of which the low two bits count.
fn class_of(number: u32) -> MessageClass
    ensures { result ≡ class_numbered number }
{
    match number % 4 {
        0 => MessageClass::Request,
        1 => MessageClass::Indication,
        2 => MessageClass::Success,
        _ => MessageClass::Error,
    }
}

/// The number of a message type.
fn type_number(mtype: MessageType) -> u16
    ensures { result ≡ mtype }
{
    let mut bytes = [0; 2];
    mtype.write_into(&mut bytes);
    number_at(&bytes, 0)
}

/// The type of a message of a class and a method. Of the class the low two bits count, of the
/// method the low twelve.
#[unsafe(no_mangle)]
pub extern "C" fn stun_types_message_type(class: u32, method: u32) -> u16
    ensures { result ≡ type_of (class_numbered class) (method % 2 ^ 12) }
{
    let method = Method::new((method % 0x1000) as u16);
    type_number(MessageType::from_class_method(class_of(class), method))
}
