//! Writes a binding request, reads it, and prints what it shows.
#![tactic(auto)]

use std::alloc::Global;
use std::io;
use stun_types::attribute::Software;
use stun_types::message::{
    BINDING, Message, MessageClass, MessageType, MessageWriteVec, StunWriteError, TransactionId,
};
use stun_types::prelude::*;

/// The bytes of a binding request that names what made it.
fn request(alloc: Global, id: u128) -> Result<Vec<u8>, StunWriteError> {
    let mtype = MessageType::from_class_method(MessageClass::Request, BINDING);
    let vector = MessageWriteVec::new(alloc);
    let mut message = Message::builder(mtype, TransactionId::from(id), vector)?;
    message.add_attribute(&Software::new(alloc, "my client")?)?;
    message.add_fingerprint()?;
    Ok(message.finish())
}

fn main(rt: HostRuntime) -> io::Result<()> {
    let bytes = match request(rt.alloc(), 0x7392) {
        Ok(bytes) => bytes,
        Err(e) => return println!(rt; "nothing was written: {e}"),
    };
    match Message::from_bytes(&bytes) {
        Ok(message) => println!(rt; "{} bytes: {message}", bytes.len()),
        Err(e) => println!(rt; "no message: {e}"),
    }
}
