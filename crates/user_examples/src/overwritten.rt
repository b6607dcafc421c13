//! Overwriting what a vector holds.

ghost use Rattle.std.specs.Prelude.{◌≡◌, length, replicate};

use stun_types::message::MessageWriteVec;
use stun_types::prelude::*;

/// Overwrites all bytes that are written into a vector. The attributes and the ready room stay as
/// they were, so the attributes bar what they blocked before.
pub fn overwrite(byte: u8, message: &mut MessageWriteVec)
    ensures bytes { (⟦<MessageWriteVec as MessageWrite>⟧.state message.new).bytes ≡ replicate
        (length (⟦<MessageWriteVec as MessageWrite>⟧.state message.old).bytes) byte }
    ensures types { (⟦<MessageWriteVec as MessageWrite>⟧.state message.new).types
        ≡ (⟦<MessageWriteVec as MessageWrite>⟧.state message.old).types }
    ensures ready_bytes { (⟦<MessageWriteVec as MessageWrite>⟧.state message.new).ready_bytes
        ≡ (⟦<MessageWriteVec as MessageWrite>⟧.state message.old).ready_bytes }
    ensures ready_types { (⟦<MessageWriteVec as MessageWrite>⟧.state message.new).ready_types
        ≡ (⟦<MessageWriteVec as MessageWrite>⟧.state message.old).ready_types }
{
    message.mut_data().fill(byte);
}
