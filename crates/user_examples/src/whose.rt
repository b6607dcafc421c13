//! Who sent a message that validates.

ghost use Rattle.std.specs.Prelude.{◌≡◌, All, IfOk, IfErr, length};
ghost use Rattle.stun_keys.specs.Keys.{key_bytes, key_algorithm};
ghost use Rattle.stun_grammar.specs.Sending.{sent_encoding, IsEncodableSent};
ghost use Rattle.stun_types.specs.Runs.{AddsOrdinary, sent};
ghost use Rattle.user_examples.specs.Whose.{HasOrigin};

use std::alloc::Global;
use stun_types::attribute::Software;
use stun_types::message::{
    IntegrityAlgorithm, IntegrityKey, Message, MessageType, MessageWriteVec, Step, StunParseError,
    StunWriteError, TransactionId, ValidateError, write_steps,
};
use stun_types::prelude::*;

/// Writes a message by these steps into a vector, and returns its bytes.
fn write_own(
    alloc: Global,
    mtype: MessageType,
    id: TransactionId,
    steps: &[Step<'_, &dyn AttributeWrite>],
    verdicts: &mut [Result<(), StunWriteError>],
) -> Result<Vec<u8>, StunWriteError>
    requires count { length verdicts.old ≡ length steps.now }
    requires ordinary { All (AddsOrdinary (λ o. atype o.now)) steps.now }
    ensures encoding { IfOk result (λ bytes. bytes.items ≡ sent_encoding
        (sent (λ o. atype o.now) (λ o. value o.now) mtype id steps.now verdicts.new)) }
    ensures encodable { IfOk result (λ _. IsEncodableSent
        (sent (λ o. atype o.now) (λ o. value o.now) mtype id steps.now verdicts.new)) }
    ensures err { IfErr result (λ e. e ≡ StunWriteError.OutOfMemory) }
{
    let write = MessageWriteVec::new(alloc);
    let written = write_steps(alloc, mtype, id, steps, verdicts, write)?;
    Ok(written.finish())
}

/// Writes a message by these steps, whose results it stores in `verdicts`, parses it, and validates
/// it with this key; it returns the algorithm.
///
/// If the result is `Ok`, the list of messages that were sent may hold this one and any others
/// that steps wrote: either nobody signed the bytes that are covered, or the message type, the
/// transaction ID and the attributes shown through the one that was checked are those of a message
/// in that list, in which they were signed.
///
/// # Errors
///
/// `Parse(OutOfMemory)`, and those of [`Message::validate_integrity_with_key`].
pub fn validates_own(
    alloc: Global,
    mtype: MessageType,
    id: TransactionId,
    steps: &[Step<'_, &dyn AttributeWrite>],
    verdicts: &mut [Result<(), StunWriteError>],
    key: &IntegrityKey,
) -> Result<IntegrityAlgorithm, ValidateError>
    requires count { length verdicts.old ≡ length steps.now }
    requires ordinary { All (AddsOrdinary (λ o. atype o.now)) steps.now }
    ensures origin { IfOk result (λ algorithm. HasOrigin
        (sent (λ o. atype o.now) (λ o. value o.now) mtype id steps.now verdicts.new)
        (key_algorithm key.now) (key_bytes key.now) algorithm) }
{
    let bytes = match write_own(alloc, mtype, id, steps, verdicts) {
        Ok(bytes) => bytes,
        Err(StunWriteError::OutOfMemory) => {
            return Err(ValidateError::Parse(StunParseError::OutOfMemory));
        }
        Err(_) => unreachable!(),
    };
    let message = Message::from_bytes(&bytes)?;
    message.validate_integrity_with_key(key)
}

/// Writes a message with a SOFTWARE, signs it for SHA-256 with one key, adds a FINGERPRINT, and
/// validates the message with another key, as [`validates_own`] does.
///
/// # Errors
///
/// As for [`validates_own`].
pub fn signs_and_validates(
    alloc: Global,
    (mtype, id): (MessageType, TransactionId),
    software: &Software,
    signs: &IntegrityKey,
    validates: &IntegrityKey,
    verdicts: &mut [Result<(), StunWriteError>; 3],
) -> Result<IntegrityAlgorithm, ValidateError> {
    validates_own(
        alloc,
        mtype,
        id,
        &[
            Step::Add(software),
            Step::SignKey(signs, IntegrityAlgorithm::Sha256),
            Step::Fingerprint,
        ],
        verdicts,
        validates,
    )
}
