//! A client: requests that are signed or not, in memory or in a slice, and the address that a
//! response reports (RFC 8489, sections 6.2, 6.3.3 and 9.1).

use rand::Rng;
use std::alloc::Global;
use std::net::SocketAddr;
use stun_types::attribute::{KNOWN, Software, XorMappedAddress};
use stun_types::message::{
    BINDING, IntegrityAlgorithm, Message, MessageClass, MessageIntegrityCredentials, MessageType,
    MessageWriteMutSlice, MessageWriteVec, ShortTermCredentials, StunParseError, StunWriteError,
    TransactionId, UnknownTypes,
};
use stun_types::prelude::*;

/// A binding request with a FINGERPRINT, whose transaction ID `rng` draws. Nobody must be able to
/// predict what it draws (RFC 8489, section 5).
pub fn request<R: Rng>(alloc: Global, rng: &mut R) -> Result<Vec<u8>, StunWriteError> {
    let mut message = Message::builder_request(BINDING, rng, MessageWriteVec::new(alloc))?;
    message.add_fingerprint()?;
    Ok(message.finish())
}

/// The address from which the server saw the request come, as its response reports it. The result is
/// `None` for other messages, and for a response with an attribute that must be understood and isn't
/// (RFC 8489, section 6.3.3).
pub fn mapped_address(
    alloc: Global,
    request: &Message<'_>,
    bytes: &[u8],
) -> Result<Option<SocketAddr>, StunParseError> {
    let response = Message::from_bytes(bytes)?;
    if !response.answers(request) || !response.has_class(MessageClass::Success) {
        return Ok(None);
    }
    if UnknownTypes::new(bytes, &KNOWN).next().is_some() {
        return Ok(None);
    }
    let mapped = response.attribute::<XorMappedAddress>(alloc)?;
    Ok(Some(mapped.addr(response.transaction_id())))
}

/// A binding request that names what made it, is signed with a password and ends with a
/// FINGERPRINT.
pub fn signed_request(
    alloc: Global,
    id: u128,
    name: &str,
    password: &str,
) -> Result<Vec<u8>, StunWriteError> {
    let password = String::from_str(alloc, password)?;
    let credentials = MessageIntegrityCredentials::from(ShortTermCredentials::new(password));
    let mtype = MessageType::from_class_method(MessageClass::Request, BINDING);
    let id = TransactionId::from(id);
    let mut message = Message::builder(mtype, id, MessageWriteVec::new(alloc))?;
    message.add_attribute(&Software::new(alloc, name)?)?;
    message.add_message_integrity(alloc, &credentials, IntegrityAlgorithm::Sha1)?;
    message.add_fingerprint()?;
    Ok(message.finish())
}

/// Writes a binding request with a FINGERPRINT into a slice, and returns how many bytes it has. It
/// allocates nothing.
pub fn request_in(alloc: Global, id: u128, slice: &mut [u8]) -> Result<usize, StunWriteError> {
    if slice.len() < 20 {
        return Err(StunWriteError::TooSmall {
            expected: 20,
            actual: slice.len(),
        });
    }
    let mtype = MessageType::from_class_method(MessageClass::Request, BINDING);
    let write = MessageWriteMutSlice::new(alloc, slice);
    let mut message = Message::builder(mtype, TransactionId::from(id), write)?;
    message.add_fingerprint()?;
    Ok(message.finish())
}
