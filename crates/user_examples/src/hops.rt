//! An attribute of a user's own that is written, and read from what was written.

ghost use Rattle.std.specs.Prelude.{◌≡◌, None, IfOk, length};
ghost use Rattle.stun_grammar.specs.Adding.{add_refusal, IsAddAnswer};
ghost use Rattle.stun_grammar.specs.Steps.{add};
ghost use Rattle.stun_types.specs.Writers.{Adds, Allocates};
ghost use Rattle.stun_grammar.specs.Numbers.{be16};
ghost use Rattle.stun_grammar.specs.Parsing.{parse_fault};
ghost use Rattle.stun_attributes.specs.Kinds.{number_of};
ghost use Rattle.stun_types.specs.ReadingBack.{ShowsFirst};
ghost use Rattle.user_examples.specs.Hops.{HOPS};

use std::alloc::Global;
use stun_base::binding_request;
use stun_types::attribute::{AttributeKind, NumberAttribute};
use stun_types::message::{Message, MessageWriteVec, StunWriteError, TransactionId};
use stun_types::prelude::*;
use stun_types::{
    added_is_shown, number_attribute_is_read_back, number_is_read_back, typed_is_read_back,
};

/// An attribute of type 0x8854 that holds a number of 16 bits.
pub type Hops = NumberAttribute<HopsKind, u16>;

/// The kind of [`Hops`].
pub enum HopsKind {}

impl AttributeKind for HopsKind {
    ghost use Rattle.std.specs.Prelude.{codes};
    ghost use Rattle.user_examples.specs.Hops.{HOPS};

    ghost NUMBER = { HOPS };

    ghost NAME = { codes "HOPS" };

    const NUMBER: u16 = 0x8854;

    fn name() -> &'static str {
        "HOPS"
    }
}

/// Adds the attribute.
fn add_hops<B: MessageWrite>(hops: &Hops, message: &mut B) -> Result<(), StunWriteError>
    ensures answer { IsAddAnswer
        (add_refusal (add HOPS (be16 (number_of hops.now)))
        (B.state message.old).types (length (B.state message.old).bytes)
        (B.state message.old).greatest)
        (Allocates (B.state message.old) (length (be16 (number_of hops.now)))) result }
    ensures adds { Adds result (B.state message.old) (B.state message.new) HOPS
        (be16 (number_of hops.now)) }
{
    message.add_attribute(hops)
}

/// Writes a binding request with this transaction ID and this attribute into a vector.
fn write_hops(alloc: Global, id: TransactionId, hops: &Hops) -> Result<Vec<u8>, StunWriteError>
    ensures parses { IfOk result (λ bytes. parse_fault bytes.items ≡ None) }
    ensures shows { IfOk result (λ bytes. ShowsFirst HOPS (be16 (number_of hops.now)) bytes.items) }
{
    // the law by which what adds write parses, and shows each attribute
    added_is_shown();
    let mut message = Message::builder(binding_request(), id, MessageWriteVec::new(alloc))?;
    add_hops(hops, &mut message)?;
    Ok(message.finish())
}

/// Writes a binding request with this transaction ID and this number of hops, parses it, and reads
/// the number from it: it is the one that was given. The message is gone when the function returns.
///
/// # Errors
///
/// `OutOfMemory` alone.
pub fn hops_there_and_back(
    alloc: Global,
    id: TransactionId,
    hops: u16,
) -> Result<u16, StunWriteError>
    ensures { IfOk result (λ read. read ≡ hops) }
{
    // the laws by which a number is read back, then its attribute, then what adds wrote of it
    number_is_read_back();
    number_attribute_is_read_back::<HopsKind, u16>();
    typed_is_read_back::<Hops>();
    let bytes = write_hops(alloc, id, &Hops::new(hops))?;
    let message = Message::from_bytes(&bytes)?;
    let read: Hops = message.attribute(alloc)?;
    Ok(read.value())
}
