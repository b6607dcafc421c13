//! Writing the reply to a binding request at the start of a slice.

ghost use Rattle.std.specs.Prelude.{◌≡◌, ◌+◌, ◌^◌, ◌<◌, ◌≤◌, ◌++◌, [], length, take, drop};
ghost use Rattle.stun_grammar.specs.Adding.{appended, grown_length};
ghost use Rattle.stun_grammar.specs.AttributeTypes.{FINGERPRINT};
ghost use Rattle.stun_grammar.specs.Fingerprints.{fingerprint_value};
ghost use Rattle.stun_grammar.specs.Writing.{greatest_length};
ghost use Rattle.stun_base.specs.declared.message_class.MessageClass.TheVariants.{Success, Error as ErrorClass};
ghost use Rattle.stun_types.specs.Message.{message_bytes};
ghost use Rattle.stun_types.specs.Replies.{unknown_reply, unknown_types};
ghost use Rattle.stun_server.specs.Reply.{success_reply, response, unfinished_reply};
ghost use Rattle.stun_server.specs.InSlice.{overlaid};

use crate::unknown::ListedTypes;
use crate::values::{OwnName, UnknownAttribute};
use std::net::SocketAddr;
use stun_attributes::fingerprint_at;
use stun_grammar::attribute_types;
use stun_types::attribute::{AttributeType, EncodeValue, XorMappedAddress, pad_attribute_len};
use stun_types::message::write::{append_encoded, append_value, write_message_header};
use stun_types::message::{Message, MessageClass, MessageHeader, MessageType};

/// How many bytes a message of `len` bytes has with one more attribute of this value.
#[inline(always)]
fn grown_length<V: EncodeValue>(value: &V, len: usize) -> usize
    requires { len < 2 ^ 32 }
    ensures length { result ≡ grown_length len (length (V.bytes value.now)) }
    ensures bound { result ≤ len + 65540 }
{
    len + 4 + pad_attribute_len(value.value_length() as usize)
}

/// Adds an attribute after the first `len` bytes of a slice, which hold the reply so far, and
/// returns how many bytes the reply then has.
#[inline(always)]
fn append<V: EncodeValue>(atype: u16, value: &V, len: usize, slice: &mut [u8]) -> usize
    requires header { 20 ≤ len }
    requires room { grown_length len (length (V.bytes value.now)) ≤ length slice.old }
    requires fits { grown_length len (length (V.bytes value.now)) ≤ greatest_length }
    ensures length { result ≡ grown_length len (length (V.bytes value.now)) }
    ensures slice { slice.new ≡ appended (take len slice.old) atype (V.bytes value.now)
        ++ drop (grown_length len (length (V.bytes value.now))) slice.old }
{
    append_encoded(AttributeType(atype), value, len, slice);
    grown_length(value, len)
}

/// Writes the header of a response to a request at the start of a slice, and returns how many bytes
/// that is.
fn write_header(request: &Message<'_>, class: MessageClass, slice: &mut [u8]) -> usize
    requires { 20 ≤ length slice.old }
    ensures length { result ≡ 20 }
    ensures slice { slice.new
        ≡ overlaid (response class (message_bytes request.now) []) slice.old }
{
    let mtype = MessageType::from_class_method(class, request.method());
    write_message_header(mtype, request.transaction_id(), slice);
    MessageHeader::LENGTH
}

/// How many bytes the success response has.
#[inline(always)]
fn success_length(request: &Message<'_>, source: SocketAddr) -> usize
    ensures { let r = message_bytes request.now in
        result ≡ length (response Success r (success_reply source r)) }
{
    let mapped = XorMappedAddress::new(source, request.transaction_id());
    let len = grown_length(&mapped, MessageHeader::LENGTH);
    grown_length(&OwnName, len)
}

/// Writes the success response to a binding request: the address that it came from, and SOFTWARE
/// (RFC 8489, section 6.3.1.1). Returns how many bytes it has.
fn write_success(request: &Message<'_>, source: SocketAddr, slice: &mut [u8]) -> usize
    requires room { let r = message_bytes request.now in
        length (response Success r (success_reply source r)) ≤ length slice.old }
    ensures length { let r = message_bytes request.now in
        result ≡ length (response Success r (success_reply source r)) }
    ensures slice { let r = message_bytes request.now in
        slice.new ≡ overlaid (response Success r (success_reply source r)) slice.old }
{
    let mapped = XorMappedAddress::new(source, request.transaction_id());
    let len = write_header(request, MessageClass::Success, slice);
    let len = append(attribute_types::XOR_MAPPED_ADDRESS, &mapped, len, slice);
    append(attribute_types::SOFTWARE, &OwnName, len, slice)
}

/// How many bytes the error response 420 has.
#[inline(always)]
fn refusal_length(unknown: &ListedTypes<'_>) -> usize
    requires { 0 < length (unknown_types unknown.now.supported.now unknown.now.request.now) }
    ensures length { let r = unknown.now.request.now in
        let types = unknown_types unknown.now.supported.now r in
        result ≡ length (response ErrorClass r (unknown_reply types)) }
{
    // for the prover: there are at most 16384 types
    let _count = unknown.count();
    let len = grown_length(&OwnName, MessageHeader::LENGTH);
    let len = grown_length(&UnknownAttribute, len);
    grown_length(unknown, len)
}

/// Writes the error response 420 to a binding request that shows unknown types (RFC 8489, section
/// 6.3.1). Returns how many bytes it has.
fn write_refusal(request: &Message<'_>, unknown: &ListedTypes<'_>, slice: &mut [u8]) -> usize
    requires its { unknown.now.request.now ≡ message_bytes request.now }
    requires some { let types = unknown_types unknown.now.supported.now (message_bytes request.now) in
        0 < length types }
    requires few { let types = unknown_types unknown.now.supported.now (message_bytes request.now) in
        length types ≤ 16384 }
    requires room { let r = message_bytes request.now in
        let types = unknown_types unknown.now.supported.now r in
        length (response ErrorClass r (unknown_reply types)) ≤ length slice.old }
    ensures length { let r = message_bytes request.now in
        let types = unknown_types unknown.now.supported.now r in
        result ≡ length (response ErrorClass r (unknown_reply types)) }
    ensures slice { let r = message_bytes request.now in
        let types = unknown_types unknown.now.supported.now r in
        slice.new ≡ overlaid (response ErrorClass r (unknown_reply types)) slice.old }
{
    let len = write_header(request, MessageClass::Error, slice);
    let len = append(attribute_types::SOFTWARE, &OwnName, len, slice);
    let len = append(attribute_types::ERROR_CODE, &UnknownAttribute, len, slice);
    append(attribute_types::UNKNOWN_ATTRIBUTES, unknown, len, slice)
}

/// How many bytes the reply to a binding request has without its FINGERPRINT.
#[inline(always)]
pub(crate) fn unfinished_length(
    request: &Message<'_>,
    source: SocketAddr,
    unknown: &ListedTypes<'_>,
) -> usize
    requires its { unknown.now.request.now ≡ message_bytes request.now }
    ensures length { let r = message_bytes request.now in
        result ≡ length (unfinished_reply unknown.now.supported.now source r) }
    ensures bounds { 20 ≤ result × result ≤ 65547 }
{
    if unknown.count() == 0 {
        success_length(request, source)
    } else {
        refusal_length(unknown)
    }
}

/// Writes that reply, and returns how many bytes it has.
pub(crate) fn write_unfinished(
    request: &Message<'_>,
    source: SocketAddr,
    unknown: &ListedTypes<'_>,
    slice: &mut [u8],
) -> usize
    requires its { unknown.now.request.now ≡ message_bytes request.now }
    requires room { let r = message_bytes request.now in
        length (unfinished_reply unknown.now.supported.now source r) ≤ length slice.old }
    ensures length { let r = message_bytes request.now in
        result ≡ length (unfinished_reply unknown.now.supported.now source r) }
    ensures slice { let r = message_bytes request.now in
        slice.new ≡ overlaid (unfinished_reply unknown.now.supported.now source r) slice.old }
{
    if unknown.count() == 0 {
        write_success(request, source, slice)
    } else {
        write_refusal(request, unknown, slice)
    }
}

/// Adds a FINGERPRINT after the first `len` bytes of a slice, which hold the reply so far.
pub(crate) fn write_fingerprint(len: usize, slice: &mut [u8])
    requires header { 20 ≤ len }
    requires room { len + 8 ≤ length slice.old }
    requires fits { len ≤ 65547 }
    ensures { let text = take len slice.old in
        slice.new ≡ appended text FINGERPRINT (fingerprint_value text (length text))
        ++ drop (len + 8) slice.old }
{
    let value = fingerprint_at(&slice[..len], len);
    append_value(
        AttributeType(attribute_types::FINGERPRINT),
        &value,
        len,
        slice,
    );
}
