//! Adding attributes without taking memory.

ghost use Rattle.std.specs.Prelude.{◌≡◌, ℕ, ◌+◌, ◌<◌, ◌≤◌, ◌⊎◌, [], ◌∷◌, ◌++◌, None, IsOk, OnOk, length};
ghost use Rattle.stun_grammar.specs.Steps.{add};
ghost use Rattle.stun_grammar.specs.Adding.{add_refusal, IsAddAnswer};
ghost use Rattle.stun_types.specs.Writers.{Allocates, Adds};
ghost use Rattle.user_examples.specs.Room.{HasReady};

use std::alloc::Global;
use stun_base::binding_request;
use stun_types::attribute::{AttributeType, RawAttribute};
use stun_types::message::{Message, MessageWriteVec, StunWriteError, TransactionId};
use stun_types::prelude::*;

/// USE-CANDIDATE (0x0025), by which a controlling ICE agent nominates a candidate pair. Its value
/// is empty (RFC 8445, section 7.1.2).
#[derive(Clone, Copy, Debug, PartialEq, Eq)]
pub struct UseCandidate;

impl AttributeStaticType for UseCandidate {
    ghost use Rattle.std.specs.Prelude.{refl};

    ghost TYPE = { record { 0 = 0x0025 } };

    ghost has_that_type = { λ _. refl };

    const TYPE: AttributeType = AttributeType(0x0025);
}

impl Attribute for UseCandidate {
    ghost use Rattle.std.specs.Prelude.{[]};

    ghost atype = { λ _. 0x0025 };

    ghost value = { λ _. [] };

    fn get_type(&self) -> AttributeType {
        Self::TYPE
    }

    fn length(&self) -> u16 {
        0
    }
}

impl AttributeWrite for UseCandidate {
    ghost use Rattle.std.specs.Prelude.{true};

    ghost to_raw_borrows = { λ _. true };

    #[tactic(auto, unfolding(stun_grammar::specs::Attributes::encoding))]
    fn write_into_unchecked(&self, dest: &mut [u8]) {
        self.write_header_unchecked(dest);
    }

    fn to_raw(&self, _alloc: Global) -> Result<RawAttribute<'_>, StunWriteError> {
        Ok(RawAttribute::new(Self::TYPE, &[])?)
    }
}

/// Adds a USE-CANDIDATE.
fn add_use_candidate<B: MessageWrite>(message: &mut B) -> Result<(), StunWriteError>
    ensures answer { IsAddAnswer
        (add_refusal (add 0x0025 [])
        (B.state message.old).types (length (B.state message.old).bytes)
        (B.state message.old).greatest)
        (Allocates (B.state message.old) 0) result }
    ensures adds { Adds result (B.state message.old) (B.state message.new) 0x0025 [] }
{
    message.add_attribute(&UseCandidate)
}

/// Adds a USE-CANDIDATE for which there is room. It succeeds, and no attribute blocks the next one.
fn add_within_room<B: MessageWrite>(message: &mut B) -> Result<(), StunWriteError>
    requires room { HasReady (B.state message.old) 1 }
    requires short { length (B.state message.old).bytes ≤ 80 }
    ensures added { IsOk result }
    ensures length { length (B.state message.new).bytes ≡ length (B.state message.old).bytes + 4 }
    ensures room { (n : ℕ) → HasReady (B.state message.old) (n + 1)
        → HasReady (B.state message.new) n }
{
    add_use_candidate(message)
}

/// Begins a binding request and adds sixteen USE-CANDIDATE attributes. The writer is empty, without
/// a bound, and has 84 bytes and sixteen attributes ready; so this takes no memory, and succeeds.
#[tactic(auto, using(crate::proofs::AddsLemmas::nothing_before))]
pub fn nominate_sixteen<B: MessageWrite>(
    id: TransactionId,
    message: &mut B,
) -> Result<(), StunWriteError>
    requires empty { (B.state message.old).bytes ≡ [] }
    requires unbounded { (B.state message.old).greatest ≡ None }
    requires ready_bytes { 84 ≤ (B.state message.old).ready_bytes }
    requires ready_types { 16 ≤ (B.state message.old).ready_types }
    ensures added { IsOk result }
    ensures length { length (B.state message.new).bytes ≡ 84 }
{
    Message::builder_into(binding_request(), id, message)?;
    let mut left = 16u8;
    while left > 0 {
        add_within_room(message)?;
        left -= 1;
    }
    Ok(())
}

/// The same in a vector of 84 bytes: the only memory that this takes.
///
/// # Errors
///
/// `OutOfMemory` if the allocation of the vector failed.
pub fn nominate_in_vector(
    alloc: Global,
    id: TransactionId,
) -> Result<MessageWriteVec, StunWriteError> {
    let mut message = MessageWriteVec::with_capacity(alloc, 84)?;
    nominate_sixteen(id, &mut message)?;
    Ok(message)
}
