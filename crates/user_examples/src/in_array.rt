//! Writing a message into an array.

ghost use Rattle.std.specs.Prelude.{◌≡◌, ◌≤◌, [], All, IsOk, length};
ghost use Rattle.stun_types.specs.Runs.{AddsOrdinary, Writes};

use crate::{Blob, WriteFixed};
use std::alloc::Global;
use stun_base::binding_request;
use stun_types::message::{
    IntegrityAlgorithm, IntegrityKey, MessageType, Step, StunWriteError, TransactionId,
    write_steps_into,
};
use stun_types::prelude::*;

/// Writes a message by these steps, whose results it stores in `verdicts`, into an array of which
/// nothing is written and at least twenty bytes are ready. Only the keys of [`Step::Sign`] take
/// memory, which `alloc` gives.
///
/// # Errors
///
/// None.
pub fn steps_in_array<const N: usize>(
    alloc: Global,
    mtype: MessageType,
    id: TransactionId,
    steps: &[Step<'_, &dyn AttributeWrite>],
    verdicts: &mut [Result<(), StunWriteError>],
    write: &mut WriteFixed<N>,
) -> Result<(), StunWriteError>
    // the array is empty, and has room for a header
    requires empty { (⟦<WriteFixed<N> as MessageWrite>⟧.state write.old).bytes ≡ [] }
    requires ready { 20 ≤ (⟦<WriteFixed<N> as MessageWrite>⟧.state write.old).ready_bytes }
    requires count { length verdicts.old ≡ length steps.now }
    requires ordinary { All (AddsOrdinary (λ o. atype o.now)) steps.now }
    // the run never fails
    ensures ok { IsOk result }
    ensures writes { Writes (λ o. atype o.now) (λ o. value o.now)
        (⟦<WriteFixed<N> as MessageWrite>⟧.state write.old)
        (⟦<WriteFixed<N> as MessageWrite>⟧.state write.new) mtype id steps.now verdicts.new }
{
    write_steps_into(alloc, mtype, id, steps, verdicts, write)
}

/// Writes a binding request with a borrowed value into an array of 72 bytes, signs it for SHA-256
/// with this key, and adds a FINGERPRINT. The array is returned with the result of each step.
///
/// # Errors
///
/// None.
pub fn signed_in_array(
    alloc: Global,
    id: TransactionId,
    blob: &Blob<'_>,
    key: &IntegrityKey,
) -> Result<(WriteFixed<72>, [Result<(), StunWriteError>; 3]), StunWriteError> {
    let mut verdicts = [Ok(()); 3];
    let mut write = WriteFixed::<72>::new();
    steps_in_array(
        alloc,
        binding_request(),
        id,
        &[
            Step::Add(blob),
            Step::SignKey(key, IntegrityAlgorithm::Sha256),
            Step::Fingerprint,
        ],
        &mut verdicts,
        &mut write,
    )?;
    Ok((write, verdicts))
}
