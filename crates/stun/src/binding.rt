//! The binding request.

ghost use Rattle.std.specs.Prelude.{◌≡◌, None, Some, IfOk, IfErr};
ghost use Rattle.stun_grammar.specs.Names.{BINDING};
ghost use Rattle.stun_base.specs.declared.message_class.MessageClass.TheVariants.{Request};
ghost use Rattle.stun_base.specs.MessageTypes.{type_of};
ghost use Rattle.stun.specs.Binding.{request_by, request};

use crate::query::{Login, Query};
use std::alloc::Global;
use stun_programs::RunError;
use stun_types::attribute::AttributeWrite;
use stun_types::message::{
    BINDING, IntegrityAlgorithm, Message, MessageClass, MessageType, MessageWriteVec, Step,
    TransactionId, write_steps,
};
use stun_types::prelude::*;

/// The message type of a binding request.
fn binding_request() -> MessageType
    ensures { result ≡ type_of Request BINDING }
{
    MessageType::from_class_method(MessageClass::Request, BINDING)
}

/// The binding request that nobody signs. The error says that an allocation failed.
#[tactic(auto, unfolding(stun_grammar::specs::Sending::body_from))]
fn unsigned(alloc: Global, id: TransactionId) -> Result<Vec<u8>, RunError>
    ensures ok { IfOk result (λ text. text.items ≡ request_by id None) }
    ensures err { IfErr result (λ e. e ≡ RunError.NoMemory) }
{
    match Message::builder(binding_request(), id, MessageWriteVec::new(alloc)) {
        Ok(write) => Ok(write.finish()),
        Err(_) => Err(RunError::NoMemory),
    }
}

/// The binding request that this login signs, by both algorithms, since it isn't known which ones
/// the server takes (RFC 8489, section 9.1.2). The error says that an allocation failed: a message
/// of one user name and two HMACs is refused nothing.
fn signed(alloc: Global, id: TransactionId, login: &Login) -> Result<Vec<u8>, RunError>
    ensures ok { IfOk result (λ text. text.items ≡ request_by id (Some login.now)) }
    ensures err { IfErr result (λ e. e ≡ RunError.NoMemory) }
{
    let mut verdicts = [Ok(()); 3];
    let steps: [Step<'_, &dyn AttributeWrite>; 3] = [
        Step::Add(&login.username),
        Step::SignKey(&login.key, IntegrityAlgorithm::Sha1),
        Step::SignKey(&login.key, IntegrityAlgorithm::Sha256),
    ];
    let vector = MessageWriteVec::new(alloc);
    let written = write_steps(alloc, binding_request(), id, &steps, &mut verdicts, vector);
    match (written, verdicts) {
        (Ok(write), [Ok(()), Ok(()), Ok(())]) => Ok(write.finish()),
        _ => Err(RunError::NoMemory),
    }
}

/// The binding request of a query. The error says that an allocation failed.
pub fn request(alloc: Global, query: &Query) -> Result<Vec<u8>, RunError>
    ensures ok { IfOk result (λ text. text.items ≡ request query.now) }
    ensures err { IfErr result (λ e. e ≡ RunError.NoMemory) }
{
    match &query.login {
        None => unsigned(alloc, query.id),
        Some(login) => signed(alloc, query.id, login),
    }
}
