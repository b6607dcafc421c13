//! The header of a message, while attributes are added to it.

ghost use Rattle.std.specs.Prelude.{◌≡◌, ◌≤◌, [], IfOk};
ghost use Rattle.stun_grammar.specs.Headers.{type_field, id_field};
ghost use Rattle.stun_grammar.specs.Adding.{Fits};

use std::alloc::Global;
use stun_types::attribute::Software;
use stun_types::message::{
    Message, MessageType, MessageWriteMutSlice, MessageWriteVec, StunWriteError, TransactionId,
};
use stun_types::prelude::*;

/// Begins a message of this type and transaction ID in any writer that is empty and has twenty
/// bytes ready, adds this SOFTWARE and a FINGERPRINT, and returns the type and the transaction ID
/// that the header then has: those given.
///
/// # Errors
///
/// Those of [`MessageWriteExt::add_attribute`] and [`MessageWriteExt::add_fingerprint`]; the header
/// stays.
pub fn header_behind_adds<B: MessageWrite>(
    mtype: MessageType,
    id: TransactionId,
    software: &Software,
    message: &mut B,
) -> Result<(MessageType, TransactionId), StunWriteError>
    requires empty { (B.state message.old).bytes ≡ [] }
    requires room { Fits (B.state message.old).greatest 20 }
    requires ready { 20 ≤ (B.state message.old).ready_bytes }
    ensures answer { IfOk result (λ read. (read.0 ≡ mtype) × (read.1 ≡ id)) }
    ensures kind { type_field (B.state message.new).bytes ≡ mtype }
    ensures id { id_field (B.state message.new).bytes ≡ id }
{
    Message::builder_into(mtype, id, message)?;
    message.add_attribute(software)?;
    message.add_fingerprint()?;
    Ok((message.get_type(), message.transaction_id()))
}

/// The type and the transaction ID that a header has.
type Headed = (MessageType, TransactionId);

/// The same in a vector with room for a header, which is returned too.
///
/// # Errors
///
/// Only `OutOfMemory`.
pub fn header_in_vector(
    alloc: Global,
    mtype: MessageType,
    id: TransactionId,
    software: &Software,
) -> Result<(Headed, MessageWriteVec), StunWriteError> {
    let mut message = MessageWriteVec::with_capacity(alloc, 20)?;
    let headed = header_behind_adds(mtype, id, software, &mut message)?;
    Ok((headed, message))
}

/// The same in forty bytes.
///
/// # Errors
///
/// As for [`header_behind_adds`].
pub fn header_in_forty(
    alloc: Global,
    mtype: MessageType,
    id: TransactionId,
    software: &Software,
    buf: &mut [u8; 40],
) -> Result<Headed, StunWriteError> {
    let mut message = MessageWriteMutSlice::new(alloc, buf);
    header_behind_adds(mtype, id, software, &mut message)
}
