//! Adding to a message in a slice of the caller's.

ghost use Rattle.std.specs.Prelude.{◌≡◌, ◌++◌, Ok, Err, Some, None, OnOk, OnErr, IfOk, IfSome, MatchOption, length, take, drop};
ghost use Rattle.stun_grammar.specs.Numbers.{IsBytes};
ghost use Rattle.stun_grammar.specs.Parsing.{parse_fault};
ghost use Rattle.stun_grammar.specs.WriteErrors.{write_error};
ghost use Rattle.stun_grammar.specs.Steps.{add};
ghost use Rattle.stun_grammar.specs.Adding.{appended, grown_length, add_refusal};
ghost use Rattle.stun_attributes.specs.Texts.{text_bytes};
ghost use Rattle.stun_types.specs.Resuming.{message_types, resume_fault};

use crate::in_slice::add_software;
use std::alloc::Global;
use stun_types::attribute::Software;
use stun_types::message::{MessageWriteMutSlice, ResumePoint, StunWriteError};
use stun_types::prelude::*;
use stun_types::resumed_parses;

/// That each is a byte.
fn are_bytes(slice: &[u8])
    ensures { IsBytes slice.now }
{}

/// Adds this SOFTWARE to the message in the first `written` bytes of `buf`, and returns how long it
/// is then. The bytes after it stay as they were. It takes no memory.
///
/// # Errors
///
/// `buf` stays as it was:
///
/// - why no message can be resumed there, as an error of writing;
/// - the refusal of [`MessageWriteExt::add_attribute`], but for `OutOfMemory`.
pub fn software_behind(
    alloc: Global,
    software: &Software,
    buf: &mut [u8],
    written: usize,
) -> Result<usize, StunWriteError>
    // no message is there
    ensures refused { IfSome (resume_fault buf.old written) (λ e. result ≡ Err (write_error e)) }
    // one is, and the SOFTWARE is added or not
    ensures answer { resume_fault buf.old written ≡ None
        → MatchOption (add_refusal (add 0x8022 (text_bytes software.now))
        (message_types (take written buf.old)) written (Some (length buf.old)))
        (result ≡ Ok (grown_length written (length (text_bytes software.now))))
        (λ e. result ≡ Err e) }
    // what the slice holds then
    ensures added { OnOk result (buf.new
        ≡ appended (take written buf.old) 0x8022 (text_bytes software.now)
        ++ drop (grown_length written (length (text_bytes software.now))) buf.old) }
    // and that it is a message, whether or not it parsed before
    ensures parses { IfOk result (λ n. parse_fault (take n buf.new) ≡ None) }
    ensures same { OnErr result (buf.new ≡ buf.old) }
{
    let point = ResumePoint::check(buf, written)?;
    are_bytes(buf);
    resumed_parses();
    let mut message = MessageWriteMutSlice::resume_at(alloc, buf, point);
    let answer = add_software(software, &mut message);
    let written = message.finish();
    answer?;
    Ok(written)
}
