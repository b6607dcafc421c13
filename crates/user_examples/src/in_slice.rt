//! Writing a message into a slice of the caller's.

ghost use Rattle.std.specs.Prelude.{◌≡◌, ◌+◌, ◌^◌, ◌<◌, ◌≤◌, ◌⊎◌, [], ◌∷◌, ◌++◌, Ok, Err, OnOk, OnErr, length, drop};
ghost use Rattle.stun_grammar.specs.Attributes.{canonical, attribute_length};
ghost use Rattle.stun_grammar.specs.Writing.{message_encoding};
ghost use Rattle.stun_grammar.specs.Steps.{add};
ghost use Rattle.stun_values.specs.TextValues.{text_max};
ghost use Rattle.stun_attributes.specs.Texts.{text_bytes};
ghost use Rattle.stun_grammar.specs.Adding.{Fits, room_refusal, add_refusal, IsAddAnswer};
ghost use Rattle.stun_types.specs.Writers.{IsUnchanged, Gains, Allocates};
ghost use Rattle.user_examples.specs.InSlice.{WritesSoftware};

use std::alloc::Global;
use stun_base::binding_request;
use stun_types::attribute::Software;
use stun_types::message::{Message, MessageWriteMutSlice, StunWriteError, TransactionId};
use stun_types::prelude::*;

/// Adds a SOFTWARE.
pub(crate) fn add_software<B: MessageWrite>(
    software: &Software,
    message: &mut B,
) -> Result<(), StunWriteError>
    ensures answer { IsAddAnswer
        (add_refusal (add 0x8022 (text_bytes software.now))
        (B.state message.old).types (length (B.state message.old).bytes)
        (B.state message.old).greatest)
        (Allocates (B.state message.old) (length (text_bytes software.now))) result }
    ensures ok { OnOk result (Gains (B.state message.old) (B.state message.new) 0x8022
        (text_bytes software.now)) }
    ensures same { OnErr result (IsUnchanged (B.state message.old) (B.state message.new)) }
    ensures slice_name { (B.state message.new).slice_name ≡ (B.state message.old).slice_name }
    ensures short { length (text_bytes software.now) < 2 ^ 16 }
{
    message.add_attribute(software)
}

/// Writes a binding request with this transaction ID and this SOFTWARE to any writer that is empty
/// and has twenty bytes ready. If it has no room for the SOFTWARE, the header alone is written.
fn write_software<B: MessageWrite>(
    id: TransactionId,
    software: &Software,
    message: &mut B,
) -> Result<(), StunWriteError>
    // the writer is empty, and has twenty bytes ready
    requires empty { (B.state message.old).bytes ≡ [] }
    requires room { Fits (B.state message.old).greatest 20 }
    requires ready { 20 ≤ (B.state message.old).ready_bytes }
    // the header is always written, and the SOFTWARE if there is room
    ensures answer { IsAddAnswer
        (room_refusal 20 (B.state message.old).greatest
        (20 + attribute_length (length (text_bytes software.now))))
        ((B.state message.old).ready_bytes
        < 20 + attribute_length (length (text_bytes software.now))
        ⊎ (B.state message.old).ready_types < 1) result }
    ensures writes { WritesSoftware result (B.state message.old) (B.state message.new) id
        (text_bytes software.now) }
    ensures short { length (text_bytes software.now) ≤ text_max }
{
    Message::builder_into(binding_request(), id, message)?;
    add_software(software, message)
}

/// Writes a binding request with this transaction ID and this SOFTWARE at the start of `buf`, and
/// returns how many bytes it has. The bytes after them stay as they were. It takes no memory.
///
/// # Errors
///
/// - `TooSmall { expected: 20, actual }` if `buf` has no room for a header: it stays as it was;
/// - `TooSmall { expected, actual }` with the length of the message and that of `buf`, if `buf`
///   has no room for the SOFTWARE: the header alone is written, with the length 0.
#[tactic(auto, using(crate::proofs::InSlicesLemmas::surely_written, crate::proofs::InSlicesLemmas::surely_refused))]
pub fn software_in_slice(
    alloc: Global,
    id: TransactionId,
    software: &Software,
    buf: &mut [u8],
) -> Result<usize, StunWriteError>
    // the result, by how long the slice is
    ensures no_header { length buf.old < 20
        → result ≡ Err (StunWriteError.TooSmall 20 (length buf.old)) }
    ensures no_room { 20 ≤ length buf.old
        → length buf.old < 20 + attribute_length (length (text_bytes software.now))
        → result ≡ Err (StunWriteError.TooSmall
        (20 + attribute_length (length (text_bytes software.now))) (length buf.old)) }
    ensures written { 20 + attribute_length (length (text_bytes software.now)) ≤ length buf.old
        → result ≡ Ok (20 + attribute_length (length (text_bytes software.now))) }
    // what the slice holds then
    ensures encoding { OnOk result (buf.new
        ≡ message_encoding 0x0001 id (canonical 0x8022 (text_bytes software.now) ∷ [])
        ++ drop (20 + attribute_length (length (text_bytes software.now))) buf.old) }
    ensures untouched { length buf.old < 20 → buf.new ≡ buf.old }
    ensures header_alone { 20 ≤ length buf.old
        → OnErr result (buf.new ≡ message_encoding 0x0001 id [] ++ drop 20 buf.old) }
{
    if buf.len() < 20 {
        return Err(StunWriteError::TooSmall {
            expected: 20,
            actual: buf.len(),
        });
    }
    let mut message = MessageWriteMutSlice::new(alloc, buf);
    let answer = write_software(id, software, &mut message);
    let written = message.finish();
    answer?;
    Ok(written)
}
