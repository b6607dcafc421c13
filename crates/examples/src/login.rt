//! A client that is asked for its credentials (RFC 8489, section 9.2.5).

use std::alloc::Global;
use stun_authentication::{Retry, answer_challenge};
use stun_types::message::{
    BINDING, Message, MessageClass, MessageType, MessageWriteVec, StunWriteError, TransactionId,
};
use stun_types::prelude::*;

/// The binding request that answers a challenge: with the user's name, or its hash, and what the
/// challenge asks for, signed.
pub fn login_request(
    alloc: Global,
    id: u128,
    retry: &Retry<'_>,
    name: &str,
    password: &str,
) -> Result<Vec<u8>, StunWriteError> {
    let mtype = MessageType::from_class_method(MessageClass::Request, BINDING);
    let vector = MessageWriteVec::new(alloc);
    let mut message = Message::builder(mtype, TransactionId::from(id), vector)?;
    answer_challenge(alloc, retry, name, password, true, &mut message)?;
    Ok(message.finish())
}
