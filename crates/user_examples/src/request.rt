//! Writing a request, and what is read from it.

ghost use Rattle.std.specs.Prelude.{◌≡◌, ◌^◌, ◌<◌, ◌≤◌, [], ◌∷◌, ◌++◌, None, Err, IfOk, IfErr, OnOk, length};
ghost use Rattle.stun_grammar.specs.Attributes.{canonical};
ghost use Rattle.stun_grammar.specs.Parsing.{parse_fault};
ghost use Rattle.stun_grammar.specs.Showing.{shown};
ghost use Rattle.stun_grammar.specs.Writing.{message_encoding};
ghost use Rattle.stun_attributes.specs.Texts.{text_bytes};
ghost use Rattle.stun_grammar.specs.Adding.{appended};
ghost use Rattle.stun_values.specs.TextValues.{text_max};

use crate::in_slice::add_software;
use std::alloc::Global;
use stun_base::binding_request;
use stun_grammar::written_is_read_back;
use stun_types::attribute::Software;
use stun_types::message::{Message, MessageWriteVec, StunWriteError, TransactionId};
use stun_types::message_grows;
use stun_types::prelude::*;

/// Adds a SOFTWARE to a message that is a header alone, in a writer without a bound.
fn add_first<B: MessageWrite>(software: &Software, message: &mut B) -> Result<(), StunWriteError>
    // the message is a header alone
    requires header { length (B.state message.old).bytes ≡ 20 }
    requires alone { (B.state message.old).types ≡ [] }
    requires unbounded { (B.state message.old).greatest ≡ None }
    ensures bytes { OnOk result ((B.state message.new).bytes
        ≡ appended (B.state message.old).bytes 0x8022 (text_bytes software.now)) }
    ensures err { IfErr result (λ e. e ≡ StunWriteError.OutOfMemory) }
    ensures short { length (text_bytes software.now) ≤ text_max }
{
    add_software(software, message)
}

/// Writes a binding request with this transaction ID and one SOFTWARE of this name.
fn write_request(alloc: Global, id: TransactionId, name: &str) -> Result<Vec<u8>, StunWriteError>
    ensures large { text_max < length name.now
        → result ≡ Err (StunWriteError.TooLarge text_max (length name.now)) }
    ensures err { length name.now ≤ text_max → IfErr result (λ e. e ≡ StunWriteError.OutOfMemory) }
    ensures encoding { IfOk result (λ message. message.items
        ≡ message_encoding 0x0001 id (canonical 0x8022 name.now ∷ [])) }
    ensures short { IfOk result (λ _. length name.now ≤ text_max) }
    ensures id_fits { IfOk result (λ _. id < 2 ^ 96) }
{
    // the law by which an encoding with one more attribute appended is an encoding
    message_grows();
    let software = Software::new(alloc, name)?;
    let mut message = Message::builder(binding_request(), id, MessageWriteVec::new(alloc))?;
    add_first(&software, &mut message)?;
    Ok(message.finish())
}

/// A binding request with this transaction ID and one SOFTWARE of this name, which has at most 763
/// bytes, in memory that `alloc` gives. It parses, and shows that one attribute.
///
/// # Errors
///
/// - `TooLarge { expected: 763, actual }` if the name is longer;
/// - else only `OutOfMemory`.
#[tactic(auto, using(crate::proofs::RequestsLemmas::one_attribute, crate::proofs::RequestsLemmas::one_placed))]
pub fn software_message(
    alloc: Global,
    id: TransactionId,
    name: &str,
) -> Result<Vec<u8>, StunWriteError>
    // the result, by how long the name is
    ensures large { text_max < length name.now
        → result ≡ Err (StunWriteError.TooLarge text_max (length name.now)) }
    ensures err { length name.now ≤ text_max → IfErr result (λ e. e ≡ StunWriteError.OutOfMemory) }
    // the message, and what is read from it
    ensures encoding { IfOk result (λ message. message.items
        ≡ message_encoding 0x0001 id (canonical 0x8022 name.now ∷ [])) }
    ensures parses { IfOk result (λ message. parse_fault message.items ≡ None) }
    ensures shows { IfOk result (λ message. shown message.items
        ≡ record { offset = 20; type = 0x8022; value = name.now } ∷ []) }
{
    // the law by which what is written parses, and shows what was written
    written_is_read_back();
    write_request(alloc, id, name)
}
