//! An attribute whose value is part of the message that it is read from.

ghost use Rattle.std.specs.Prelude.{◌≡◌, ◌<◌, ◌^◌, None, Err, IfOk, IsOkAnd, MatchOption, length};
ghost use Rattle.stun_grammar.specs.Adding.{add_refusal, IsAddAnswer};
ghost use Rattle.stun_grammar.specs.Steps.{add};
ghost use Rattle.stun_types.specs.Writers.{Adds, Allocates};
ghost use Rattle.stun_grammar.specs.Parsing.{parse_fault};
ghost use Rattle.stun_attributes.specs.Kinds.{bytes_of};
ghost use Rattle.stun_types.specs.ReadingBack.{ShowsFirst};
ghost use Rattle.stun_types.specs.Message.{message_bytes};
ghost use Rattle.stun_types.specs.LookingUp.{nth};
ghost use Rattle.user_examples.specs.Noted.{NOTE, IsPart};

use std::alloc::Global;
use stun_base::binding_request;
use stun_types::attribute::{AttributeKind, BytesAttribute, ValueBytes};
use stun_types::message::{
    Message, MessageWriteVec, StunParseError, StunWriteError, TransactionId,
};
use stun_types::prelude::*;
use stun_types::{
    added_is_shown, bytes_are_read_back, found_has_its_type, found_is_there, shown_is_read_back,
};

/// An attribute of type 0x8853 whose value is any bytes, which are borrowed or owned.
pub type Note<'a> = BytesAttribute<NoteKind, ValueBytes<'a>>;

/// The kind of [`Note`].
pub enum NoteKind {}

impl AttributeKind for NoteKind {
    ghost use Rattle.std.specs.Prelude.{codes};
    ghost use Rattle.user_examples.specs.Noted.{NOTE};

    ghost NUMBER = { NOTE };

    ghost NAME = { codes "NOTE" };

    const NUMBER: u16 = 0x8853;

    fn name() -> &'static str {
        "NOTE"
    }
}

/// The first [`Note`] that a message shows. It allocates nothing: its bytes are those of the
/// message, which it borrows.
///
/// # Errors
///
/// `MissingAttribute(0x8853)` if the message shows none.
pub fn note_of<'a>(alloc: Global, message: &Message<'a>) -> Result<Note<'a>, StunParseError>
    ensures { MatchOption (nth (message_bytes message.now) NOTE 0)
        (result ≡ Err (StunParseError.MissingAttribute (record { 0 = NOTE })))
        (λ a. IsOkAnd result (IsPart (message_bytes message.now) a)) }
{
    // the laws by which what is found has its type, and its value is part of the message
    found_has_its_type();
    found_is_there(message.as_bytes());
    message.attribute(alloc)
}

/// Adds the note.
fn add_note<B: MessageWrite>(note: &Note<'_>, message: &mut B) -> Result<(), StunWriteError>
    ensures answer { IsAddAnswer
        (add_refusal (add NOTE (bytes_of note.now))
        (B.state message.old).types (length (B.state message.old).bytes)
        (B.state message.old).greatest)
        (Allocates (B.state message.old) (length (bytes_of note.now))) result }
    ensures adds { Adds result (B.state message.old) (B.state message.new) NOTE
        (bytes_of note.now) }
    ensures short { length (bytes_of note.now) < 2 ^ 16 }
{
    message.add_attribute(note)
}

/// Writes a binding request with this transaction ID and this note into a vector.
fn write_note(alloc: Global, id: TransactionId, note: &Note<'_>) -> Result<Vec<u8>, StunWriteError>
    ensures parses { IfOk result (λ bytes. parse_fault bytes.items ≡ None) }
    ensures shows { IfOk result (λ bytes. ShowsFirst NOTE (bytes_of note.now) bytes.items) }
{
    // the law by which what adds write parses, and shows each attribute
    added_is_shown();
    let mut message = Message::builder(binding_request(), id, MessageWriteVec::new(alloc))?;
    add_note(note, &mut message)?;
    Ok(message.finish())
}

/// Writes a binding request with this transaction ID and this note into `bytes`, instead of what is
/// there, and reads the note from them: it has the bytes of the one that was given, and borrows them
/// for as long as `bytes` is borrowed.
///
/// # Errors
///
/// `TooLarge` if the note is too long for a message, and `OutOfMemory`.
pub fn note_there_and_back<'b>(
    alloc: Global,
    id: TransactionId,
    note: &Note<'_>,
    bytes: &'b mut Vec<u8>,
) -> Result<Note<'b>, StunWriteError>
    ensures { IfOk result (λ read. bytes_of read ≡ bytes_of note.now) }
{
    // the laws by which bytes are read back, and then what adds wrote of them
    bytes_are_read_back::<NoteKind>();
    shown_is_read_back::<Note<'b>>();
    let written = write_note(alloc, id, note)?;
    *bytes = written;
    let message = Message::from_bytes(bytes)?;
    Ok(message.attribute(alloc)?)
}
