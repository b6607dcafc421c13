//! Writing one message by a list of steps.

ghost use Rattle.std.specs.Prelude.{◌≡◌, ◌⊎◌, [], All, OnErr, length};
ghost use Rattle.stun_grammar.specs.Steps.{appended_by, IsEncodable, value_length};
ghost use Rattle.stun_grammar.specs.Adding.{Fits, add_refusal, IsAddAnswer};
ghost use Rattle.stun_types.specs.Writers.{Allocates, Adds, IsUnchanged};
ghost use Rattle.stun_types.specs.Runs.{plain, AddsOrdinary, MakesKey, Runs};

use crate::attribute::AttributeWrite;
use crate::message::{
    Hmac, IntegrityAlgorithm, IntegrityKey, Message, MessageIntegrityCredentials, MessageType,
    StunWriteError, TransactionId,
};
use crate::writing::protect::add_given_hmac;
use crate::writing::{MessageWrite, MessageWriteExt};
use std::alloc::Global;

/// One step of [`write_steps`]: an attribute that is added to the message, given, or computed over
/// what is written so far (a signature or a FINGERPRINT).
#[derive(Clone, Copy)]
pub enum Step<'s, O> {
    /// An attribute of an ordinary type, as [`MessageWriteExt::add_attribute`] adds it.
    Add(O),
    /// Signs the message so far: the integrity attribute of an algorithm, with the key that the
    /// credentials give for it, as [`MessageWriteExt::add_message_integrity`] adds it.
    Sign(&'s MessageIntegrityCredentials, IntegrityAlgorithm),
    /// Signs the message so far: the integrity attribute of an algorithm, with a key, as
    /// [`MessageWriteExt::add_message_integrity_with_key`] adds it.
    SignKey(&'s IntegrityKey, IntegrityAlgorithm),
    /// Signs the message so far with an HMAC that the caller computed over the bytes that the attribute
    /// covers. To get these, write the steps before it once, and ask
    /// [`NextIntegrity::text`](crate::message::NextIntegrity::text). With an HMAC over other bytes the
    /// message doesn't validate.
    SignHmac(&'s Hmac),
    /// Ends the message by a FINGERPRINT, as [`MessageWriteExt::add_fingerprint`] adds it.
    Fingerprint,
}

/// Adds the attribute of one step.
#[tactic(auto, using(stun_grammar::proofs::AddingLemmas::hmac_padded), unfolding(stun_grammar::specs::Steps::appended_by))]
fn take_step<B: MessageWrite>(
    alloc: Global,
    write: &mut B,
    step: &Step<'_, &dyn AttributeWrite>,
) -> Result<(), StunWriteError>
    requires ordinary { AddsOrdinary (λ o. atype o.now) step.now }
    ensures answer { let asked = plain (λ o. atype o.now) (λ o. value o.now) step.now in
        IsAddAnswer
        (add_refusal asked (B.state write.old).types (length (B.state write.old).bytes)
        (B.state write.old).greatest)
        (MakesKey step.now ⊎ Allocates (B.state write.old) (value_length asked)) result }
    ensures encodable { IsEncodable (plain (λ o. atype o.now) (λ o. value o.now) step.now) }
    ensures adds { let added = appended_by
        (plain (λ o. atype o.now) (λ o. value o.now) step.now) (B.state write.old).bytes in
        Adds result (B.state write.old) (B.state write.new) added.type added.value }
{
    match step {
        Step::Add(attribute) => write.add_attribute(*attribute),
        Step::Sign(credentials, algorithm) => {
            write.add_message_integrity(alloc, *credentials, *algorithm)
        }
        Step::SignKey(key, algorithm) => write.add_message_integrity_with_key(*key, *algorithm),
        Step::SignHmac(hmac) => add_given_hmac(write, *hmac),
        Step::Fingerprint => write.add_fingerprint(),
    }
}

/// Writes a message into a borrowed writer, step by step, as [`write_steps`] does.
///
/// # Requires
///
/// As for [`write_steps`].
///
/// # Errors
///
/// Only `OutOfMemory`, and only if fewer than twenty bytes are ready; nothing is written then,
/// and the verdicts stay as they were.
///
/// # Examples
///
/// ```
/// use stun_types::message::{
///     BINDING, MessageClass, MessageType, MessageWriteMutSlice, Step, TransactionId,
///     write_steps_into,
/// };
/// use stun_types::prelude::*;
///
/// let mut slice = [0; 64];
/// let mut write = MessageWriteMutSlice::new(alloc, &mut slice);
/// let mtype = MessageType::from_class_method(MessageClass::Request, BINDING);
/// let id = TransactionId::from(1000);
/// let mut verdicts = [Ok(())];
/// write_steps_into(alloc, mtype, id, &[Step::Fingerprint], &mut verdicts, &mut write)?;
/// assert_eq!(rt; write.finish(), 28);
/// ```
pub fn write_steps_into<B: MessageWrite>(
    alloc: Global,
    mtype: MessageType,
    id: TransactionId,
    steps: &[Step<'_, &dyn AttributeWrite>],
    verdicts: &mut [Result<(), StunWriteError>],
    write: &mut B,
) -> Result<(), StunWriteError>
    // a verdict for each step, an empty writer with room for a header, and ordinary attributes
    requires count { length verdicts.old ≡ length steps.now }
    requires empty { (B.state write.old).bytes ≡ [] }
    requires room { Fits (B.state write.old).greatest 20 }
    requires ordinary { All (AddsOrdinary (λ o. atype o.now)) steps.now }
    ensures runs { Runs (λ o. atype o.now) (λ o. value o.now) (λ _. B.state write.new) result
        (B.state write.old) mtype id steps.now verdicts.old verdicts.new }
    ensures same { OnErr result (IsUnchanged (B.state write.old) (B.state write.new)) }
{
    Message::builder_into(mtype, id, write)?;
    for i in 0..steps.len() {
        verdicts[i] = take_step(alloc, write, &steps[i]);
    }
    Ok(())
}

/// Writes a message of the type `mtype` with the transaction ID `id`: its header, and then the
/// attribute of each step in turn (RFC 8489, sections 5 and 14).
///
/// The result of each step is stored in `verdicts`, at the step's own index. A refused step adds
/// nothing, and the next one goes on from what is written. The keys of [`Step::Sign`] are made in
/// memory that `alloc` gives.
///
/// What is written is the message of the accepted steps. It parses, and shows their attributes in
/// order, a FINGERPRINT among them with the right value. It validates with the key of the last step
/// that signs, and with the key of each step that signs, made for the step's algorithm; the key of
/// [`Step::SignHmac`] is the one with which its HMAC was computed. And it may
/// be in the list of messages that were sent, from which the law `integrity_has_origin` says
/// who sent a message that validates.
///
/// # Requires
///
/// - `verdicts.len()` is `steps.len()`, which may be 0;
/// - nothing is written into `write`, and it takes at least twenty bytes: [`MessageWrite::len`] is
///   0, and [`MessageWrite::max_size`] is `None` or 20 or more;
/// - the attributes of [`Step::Add`] are of ordinary types, as [`MessageWriteExt::add_attribute`]
///   asks: `get_type().is_ending()` of each is `false`.
///
/// # Errors
///
/// Only `OutOfMemory`, and only if fewer than twenty bytes are ready; the writer is dropped
/// then, and the verdicts stay as they were.
///
/// Each verdict is the result of the step's method of [`MessageWriteExt`] after the accepted steps
/// before it. It is `OutOfMemory` only if nothing else refuses the step, and the step makes a
/// key or needs more room than the writer had ready at the start.
///
/// # Examples
///
/// ```
/// use stun_types::attribute::Software;
/// use stun_types::message::{
///     BINDING, IntegrityAlgorithm, IntegrityKey, MessageClass, MessageType, MessageWriteVec, Step,
///     StunWriteError, TransactionId, write_steps,
/// };
/// use stun_types::prelude::*;
///
/// let key = IntegrityKey::new(alloc, b"secret", None)?;
/// let software = Software::new(alloc, "my client")?;
/// let sign = Step::SignKey(&key, IntegrityAlgorithm::Sha1);
/// let steps = [Step::Add(&software as &dyn AttributeWrite), sign, Step::Fingerprint, sign];
/// let mut verdicts = [Ok(()); 4];
/// let mtype = MessageType::from_class_method(MessageClass::Request, BINDING);
/// let (id, write) = (TransactionId::from(1000), MessageWriteVec::new(alloc));
/// let message = write_steps(alloc, mtype, id, &steps, &mut verdicts, write)?;
/// assert_eq!(rt; message.finish().len(), 20 + 16 + 24 + 8);
/// assert_eq!(rt; verdicts[2], Ok(()));
/// assert!(rt; verdicts[3].is_err());
/// ```
pub fn write_steps<B: MessageWrite + Drop>(
    alloc: Global,
    mtype: MessageType,
    id: TransactionId,
    steps: &[Step<'_, &dyn AttributeWrite>],
    verdicts: &mut [Result<(), StunWriteError>],
    mut write: B,
) -> Result<B, StunWriteError>
    // a verdict for each step, an empty writer with room for a header, and ordinary attributes
    requires count { length verdicts.old ≡ length steps.now }
    requires empty { (B.state write).bytes ≡ [] }
    requires room { Fits (B.state write).greatest 20 }
    requires ordinary { All (AddsOrdinary (λ o. atype o.now)) steps.now }
    ensures { Runs (λ o. atype o.now) (λ o. value o.now) (λ w. B.state w) result
        (B.state write) mtype id steps.now verdicts.old verdicts.new }
{
    write_steps_into(alloc, mtype, id, steps, verdicts, &mut write)?;
    Ok(write)
}
