//! A message with one attribute, of any type of a user's own.

ghost use Rattle.std.specs.Prelude.{◌≡◌, None, IfOk};
ghost use Rattle.stun_grammar.specs.AttributeTypes.{IsOrdinary};
ghost use Rattle.stun_grammar.specs.Parsing.{parse_fault};
ghost use Rattle.stun_types.specs.ReadingBack.{ShowsFirst};

use std::alloc::Global;
use stun_base::binding_request;
use stun_types::added_is_shown;
use stun_types::message::{Message, MessageWriteVec, StunWriteError, TransactionId};
use stun_types::prelude::*;

/// Writes a binding request with this transaction ID and this attribute into a vector.
pub(crate) fn write_own(
    alloc: Global,
    id: TransactionId,
    attribute: &dyn AttributeWrite,
) -> Result<Vec<u8>, StunWriteError>
    requires { IsOrdinary (atype attribute.now) }
    ensures parses { IfOk result (λ bytes. parse_fault bytes.items ≡ None) }
    ensures shows { IfOk result
        (λ bytes. ShowsFirst (atype attribute.now) (value attribute.now) bytes.items) }
{
    // the law by which what adds write parses, and shows each attribute
    added_is_shown();
    let mut message = Message::builder(binding_request(), id, MessageWriteVec::new(alloc))?;
    message.add_attribute(attribute)?;
    Ok(message.finish())
}
