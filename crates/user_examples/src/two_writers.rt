//! One message in a vector and in a slice.

ghost use Rattle.std.specs.Prelude.{◌≡◌, ◌≤◌, ◌++◌, All, IfOk, IsOk, length, drop};
ghost use Rattle.std.specs.List.{AllByRecursion};
ghost use Rattle.stun_types.specs.Runs.{AddsOrdinary};

use std::alloc::Global;
use stun_base::binding_request;
use stun_types::attribute::Software;
use stun_types::message::{
    MessageType, MessageWriteMutSlice, MessageWriteVec, Step, StunWriteError, TransactionId,
    write_steps, write_steps_into,
};
use stun_types::prelude::*;
use stun_types::writers_agree;

/// Writes a message by these steps into a vector and into `buf`, and returns the bytes of the one
/// and the number of bytes of the other. If both accept each step, they hold the same bytes.
///
/// # Errors
///
/// Only `OutOfMemory`.
pub fn in_both(
    alloc: Global,
    mtype: MessageType,
    id: TransactionId,
    steps: &[Step<'_, &dyn AttributeWrite>],
    verdicts: &mut [Result<(), StunWriteError>],
    others: &mut [Result<(), StunWriteError>],
    buf: &mut [u8],
) -> Result<(Vec<u8>, usize), StunWriteError>
    // a verdict for each step and each writer, room for a header, and ordinary attributes
    requires count { length verdicts.old ≡ length steps.now }
    requires others { length others.old ≡ length steps.now }
    requires room { 20 ≤ length buf.old }
    requires ordinary { All (AddsOrdinary (λ o. atype o.now)) steps.now }
    ensures same { AllByRecursion IsOk verdicts.new → AllByRecursion IsOk others.new
        → IfOk result (λ both. buf.new ≡ both.0.items ++ drop both.1 buf.old) }
{
    let vector = MessageWriteVec::new(alloc);
    let vector = write_steps(alloc, mtype, id, steps, verdicts, vector)?;
    let mut slice = MessageWriteMutSlice::new(alloc, buf);
    write_steps_into(alloc, mtype, id, steps, others, &mut slice)?;
    writers_agree::<&dyn AttributeWrite>();
    let bytes = vector.finish();
    let written = slice.finish();
    Ok((bytes, written))
}

/// Writes a binding request with a SOFTWARE as [`in_both`] does, the slice being forty bytes.
///
/// # Errors
///
/// Only `OutOfMemory`.
pub fn software_in_both(
    alloc: Global,
    id: TransactionId,
    software: &Software,
    verdicts: &mut [Result<(), StunWriteError>; 1],
    others: &mut [Result<(), StunWriteError>; 1],
    buf: &mut [u8; 40],
) -> Result<(Vec<u8>, usize), StunWriteError> {
    in_both(
        alloc,
        binding_request(),
        id,
        &[Step::Add(software)],
        verdicts,
        others,
        buf,
    )
}
