//! Writing a message step by step into a slice of the caller's.

ghost use Rattle.std.specs.Prelude.{◌≡◌, ◌<◌, ◌≤◌, ◌++◌, true, Some, None, length, take, drop, MatchResult, MatchOption};
ghost use Rattle.stun_grammar.specs.AttributeTypes.{FINGERPRINT};
ghost use Rattle.stun_grammar.specs.Fingerprints.{fingerprint_value};
ghost use Rattle.stun_grammar.specs.Headers.{is_header};
ghost use Rattle.stun_grammar.specs.Steps.{finger};
ghost use Rattle.stun_values.specs.Addresses.{address_value};
ghost use Rattle.stun_values.specs.ErrorValues.{making_fault};
ghost use Rattle.stun_values.specs.TextValues.{text_max};
ghost use Rattle.stun_types_c.specs.Codes.{OK};
ghost use Rattle.stun_types_c.specs.KeyHandles.{shared_key};
ghost use Rattle.stun_types_c.specs.CResults.{plain, write_result};
ghost use Rattle.stun_types_c.specs.Writing.{Begins, AppendsTo, AddsValue, AddsAddress, AddsXorAddress, AddsError, AddsTypes, Signs, any_answer, step_answer};

use crate::address::{Address, is_plain_type, is_xored_type, socket_of};
use crate::call_result::{CResult, add_result, counted, plain, write_result};
use crate::codes;
use crate::keys::algorithm_of;
use crate::new_values::{ErrorValue, TypeNumbers};
use crate::reading::Id;
use crate::shared_key::SharedKey;
use crate::values::text_in;
use std::net::SocketAddr;
use stun_grammar::attribute_types::{ERROR_CODE, UNKNOWN_ATTRIBUTES};
use stun_types::attribute::AttributeType;
use stun_types::message::write::write_message_header;
use stun_types::message::{MessageHeader, MessageType, ResumePoint, StunWriteError, TransactionId};
use stun_values::{address_length, check_error, check_type_count, write_address, xor_addr};

/// Begins a message: writes its header, with the length 0, at the start of a slice.
#[unsafe(no_mangle)]
pub extern "C" fn stun_types_begin(
    room: &mut [u8],
    mtype: u16,
    id: &Id,
    written: &mut usize,
) -> CResult
    ensures { Begins mtype id.now result
        (record { slice = room.old; count = written.old })
        (record { slice = room.new; count = written.new }) }
{
    let Ok(mtype) = MessageType::from_bytes(&mtype.to_be_bytes()) else {
        return plain(codes::BAD_ARGUMENT);
    };
    if room.len() < MessageHeader::LENGTH {
        return counted(codes::TOO_SMALL, MessageHeader::LENGTH, room.len());
    }
    write_message_header(mtype, TransactionId::from_bytes(&id.bytes), room);
    *written = MessageHeader::LENGTH;
    plain(codes::OK)
}

/// Stores how long the message is after an add; what the call returns.
pub(crate) fn store_length(added: Result<usize, CResult>, written: &mut usize) -> CResult
    ensures { MatchResult added
        (λ length. (result ≡ plain OK) × (written.new ≡ length))
        (λ answer. (result ≡ answer) × (written.new ≡ written.old)) }
{
    match added {
        Ok(length) => {
            *written = length;
            plain(codes::OK)
        }
        Err(answer) => answer,
    }
}

/// The header of a message.
#[tactic(auto, using(stun_grammar::proofs::HeadersLemmas::header_length))]
pub(crate) fn header_of(message: &[u8]) -> [u8; 20]
    requires { is_header message.now ≡ true }
    ensures { result ≡ take 20 message.now }
{
    let mut header = [0; 20];
    header.copy_from_slice(&message[..20]);
    header
}

/// Stores how long the message is at its end; or, if something was refused, writes its header as it
/// was. What the call returns.
pub(crate) fn store_end(
    added: Result<(), StunWriteError>,
    end: usize,
    header: &[u8; 20],
    room: &mut [u8],
    written: &mut usize,
) -> CResult
    requires { 20 ≤ length room.old }
    ensures { MatchResult added
        (λ _. (result ≡ plain OK) × (written.new ≡ end) × (room.new ≡ room.old))
        (λ e. (result ≡ write_result e) × (written.new ≡ written.old)
        × (room.new ≡ header.now ++ drop 20 room.old)) }
{
    match added {
        Ok(()) => {
            *written = end;
            plain(codes::OK)
        }
        Err(error) => {
            room[..20].copy_from_slice(header);
            write_result(error)
        }
    }
}

/// Adds an attribute with a value that isn't too long.
#[inline(always)]
pub(crate) fn add_short(room: &mut [u8], written: &mut usize, atype: u16, value: &[u8]) -> CResult
    requires { length value.now ≤ 65535 }
    ensures { AppendsTo (any_answer (length room.old) atype value.now) atype (λ _. value.now) result
        (record { slice = room.old; count = written.old })
        (record { slice = room.new; count = written.new }) }
{
    match ResumePoint::check(room, *written) {
        Ok(point) => {
            let added = point.add_value(room, AttributeType(atype), value);
            store_length(added.map_err(add_result), written)
        }
        Err(_) => plain(codes::BAD_ARGUMENT),
    }
}

/// Adds an attribute by its type and value.
#[unsafe(no_mangle)]
pub extern "C" fn stun_types_add(
    room: &mut [u8],
    written: &mut usize,
    atype: u16,
    value: &[u8],
) -> CResult
    ensures { AddsValue atype value.now result
        (record { slice = room.old; count = written.old })
        (record { slice = room.new; count = written.new }) }
{
    let Ok(point) = ResumePoint::check(room, *written) else {
        return plain(codes::BAD_ARGUMENT);
    };
    if value.len() > 65535 {
        return counted(codes::TOO_LARGE, 65535, value.len());
    }
    let added = point.add_value(room, AttributeType(atype), value);
    store_length(added.map_err(add_result), written)
}

/// Adds an attribute with this address for its value.
fn add_socket(room: &mut [u8], written: &mut usize, atype: u16, addr: SocketAddr) -> CResult
    ensures { AppendsTo (any_answer (length room.old) atype (address_value addr)) atype
        (λ _. address_value addr) result
        (record { slice = room.old; count = written.old })
        (record { slice = room.new; count = written.new }) }
{
    let mut value = [0; 20];
    let length = address_length(&addr) as usize;
    write_address(&addr, &mut value);
    add_short(room, written, atype, &value[..length])
}

/// Adds an address as it is.
#[unsafe(no_mangle)]
pub extern "C" fn stun_types_add_address(
    room: &mut [u8],
    written: &mut usize,
    atype: u16,
    address: &Address,
) -> CResult
    ensures { AddsAddress address.now atype result
        (record { slice = room.old; count = written.old })
        (record { slice = room.new; count = written.new }) }
{
    if is_xored_type(atype) {
        return plain(codes::BAD_ARGUMENT);
    }
    let Some(addr) = socket_of(address) else {
        return plain(codes::BAD_ARGUMENT);
    };
    add_socket(room, written, atype, addr)
}

/// Adds an address that is XORed with the message's transaction ID.
#[unsafe(no_mangle)]
pub extern "C" fn stun_types_add_xor_address(
    room: &mut [u8],
    written: &mut usize,
    atype: u16,
    address: &Address,
) -> CResult
    ensures { AddsXorAddress address.now atype result
        (record { slice = room.old; count = written.old })
        (record { slice = room.new; count = written.new }) }
{
    if is_plain_type(atype) {
        return plain(codes::BAD_ARGUMENT);
    }
    let (Some(addr), Ok(header)) = (socket_of(address), MessageHeader::from_bytes(room)) else {
        return plain(codes::BAD_ARGUMENT);
    };
    let xored = xor_addr(addr, header.transaction_id());
    add_socket(room, written, atype, xored)
}

/// Tests that an ERROR-CODE may be made of a code of C's and a reason, and returns the code.
fn check_code(code: u32, reason: &[u8]) -> Result<u16, StunWriteError>
    ensures { MatchResult result
        (λ checked. (checked ≡ code) × (making_fault code reason.now ≡ None) × (code ≤ 699)
        × (length reason.now ≤ text_max))
        (λ e. making_fault code reason.now ≡ Some e) }
{
    let narrow = u16::try_from(code).unwrap_or(u16::MAX);
    match check_error(narrow, reason) {
        Ok(()) => Ok(narrow),
        Err(StunWriteError::OutOfRange { value: _, min, max }) => {
            let value = code as usize;
            Err(StunWriteError::OutOfRange { value, min, max })
        }
        Err(error) => Err(error),
    }
}

/// Adds an ERROR-CODE.
#[unsafe(no_mangle)]
pub extern "C" fn stun_types_add_error(
    room: &mut [u8],
    written: &mut usize,
    code: u32,
    reason: &[u8],
) -> CResult
    ensures { AddsError code reason.now result
        (record { slice = room.old; count = written.old })
        (record { slice = room.new; count = written.new }) }
{
    let Ok(point) = ResumePoint::check(room, *written) else {
        return plain(codes::BAD_ARGUMENT);
    };
    let code = match check_code(code, reason) {
        Ok(code) => code,
        Err(error) => return write_result(error),
    };
    if text_in(reason).is_none() {
        return plain(codes::INVALID_DATA);
    }
    let value = ErrorValue { code, reason };
    let added = point.add_encoded(room, AttributeType(ERROR_CODE), &value);
    store_length(added.map_err(add_result), written)
}

/// Adds an UNKNOWN-ATTRIBUTES.
#[unsafe(no_mangle)]
pub extern "C" fn stun_types_add_unknown_types(
    room: &mut [u8],
    written: &mut usize,
    types: &[u16],
) -> CResult
    ensures { AddsTypes types.now result
        (record { slice = room.old; count = written.old })
        (record { slice = room.new; count = written.new }) }
{
    let Ok(point) = ResumePoint::check(room, *written) else {
        return plain(codes::BAD_ARGUMENT);
    };
    if let Err(error) = check_type_count(types.len()) {
        return write_result(error);
    }
    let value = TypeNumbers { types };
    let added = point.add_encoded(room, AttributeType(UNKNOWN_ATTRIBUTES), &value);
    store_length(added.map_err(add_result), written)
}

/// Signs what is written.
#[unsafe(no_mangle)]
pub extern "C" fn stun_types_add_integrity(
    room: &mut [u8],
    written: &mut usize,
    key: &SharedKey,
    algorithm: u32,
) -> CResult
    ensures { Signs (shared_key key.now) algorithm result
        (record { slice = room.old; count = written.old })
        (record { slice = room.new; count = written.new }) }
{
    let (Ok(point), Some(algorithm)) = (ResumePoint::check(room, *written), algorithm_of(algorithm))
    else {
        return plain(codes::BAD_ARGUMENT);
    };
    match key.key() {
        Some(key) if !key.serves(algorithm) => plain(codes::BAD_ARGUMENT),
        Some(key) => {
            let added = point.add_message_integrity_with_key(room, key, algorithm);
            store_length(added.map_err(write_result), written)
        }
        None => plain(codes::NO_KEY),
    }
}

/// Ends the message with a FINGERPRINT.
#[unsafe(no_mangle)]
pub extern "C" fn stun_types_add_fingerprint(room: &mut [u8], written: &mut usize) -> CResult
    ensures { AppendsTo (step_answer (length room.old) finger) FINGERPRINT
        (λ message. fingerprint_value message (length message)) result
        (record { slice = room.old; count = written.old })
        (record { slice = room.new; count = written.new }) }
{
    match ResumePoint::check(room, *written) {
        Ok(point) => store_length(point.add_fingerprint(room).map_err(write_result), written),
        Err(_) => plain(codes::BAD_ARGUMENT),
    }
}
