//! The attributes of an error response, made and added one after the other.

ghost use Rattle.std.specs.Prelude.{◌≡◌, ◌^◌, ◌<◌, ◌≤◌, length, [], true, All, map, OnOk, OnErr};
ghost use Rattle.stun_grammar.specs.Attributes.{canonical, attribute_length};
ghost use Rattle.stun_grammar.specs.AttributeTypes.{SOFTWARE, UNKNOWN_ATTRIBUTES, IsOrdinary};
ghost use Rattle.stun_grammar.specs.Headers.{is_header, type_field};
ghost use Rattle.stun_grammar.specs.Steps.{add};
ghost use Rattle.stun_grammar.specs.Adding.{Fits, add_refusal, IsAddAnswer};
ghost use Rattle.stun_base.specs.declared.message_class.MessageClass.TheVariants.{Request};
ghost use Rattle.stun_base.specs.MessageTypes.{class_of};
ghost use Rattle.stun_attributes.specs.Texts.{text_bytes};
ghost use Rattle.stun_values.specs.TypeLists.{types_encoding};
ghost use Rattle.stun_attributes.specs.ErrorCodes.{error_code, error_reason};
ghost use Rattle.stun_attributes.specs.Unknown.{listed};
ghost use Rattle.stun_types.specs.Writers.{IsUnchanged, Spends, KeepsHeader, Gains, Allocates};
ghost use Rattle.stun_types.specs.Message.{message_bytes};
ghost use Rattle.stun_types.specs.Replies.{error_attribute, Replies, attribute_of, IsMakeable, AddsMade};

use crate::attribute::{AttributeType, AttributeWrite, ErrorCode, Software, UnknownAttributes};
use crate::message::{Message, StunWriteError};
use crate::writing::{MessageWrite, MessageWriteExt};
use std::alloc::Global;

/// An attribute of a reply.
#[derive(Clone, Copy)]
pub(super) enum ReplyPart<'a> {
    /// A SOFTWARE with the name of this library.
    Software,
    /// An ERROR-CODE with a code from 300 to 699 and a reason of at most 763 bytes.
    Error(u16, &'a str),
    /// An UNKNOWN-ATTRIBUTES.
    Types(&'a [AttributeType]),
}

/// Adds an attribute that was just made.
#[tactic(auto, using(crate::proofs::RepliesLemmas::adds_made))]
fn add_made<B: MessageWrite>(
    attribute: &dyn AttributeWrite,
    write: &mut B,
) -> Result<(), StunWriteError>
    requires ordinary { IsOrdinary (atype attribute.now) }
    ensures { AddsMade result (B.state write.old) (B.state write.new)
        (canonical (atype attribute.now) (value attribute.now)) }
{
    write.add_attribute(attribute)
}

/// Adds a SOFTWARE.
fn push_software<B: MessageWrite>(attribute: &Software, write: &mut B) -> Result<(), StunWriteError>
    ensures answer { IsAddAnswer
        (add_refusal (add SOFTWARE (text_bytes attribute.now)) (B.state write.old).types
        (length (B.state write.old).bytes) (B.state write.old).greatest)
        (Allocates (B.state write.old) (length (text_bytes attribute.now))) result }
    ensures ok { OnOk result (Gains (B.state write.old) (B.state write.new) SOFTWARE
        (text_bytes attribute.now)) }
    ensures same { OnErr result (IsUnchanged (B.state write.old) (B.state write.new)) }
    ensures spends { Spends (B.state write.old) (B.state write.new)
        (attribute_length (length (text_bytes attribute.now))) 1 }
    ensures header { KeepsHeader (B.state write.old).bytes (B.state write.new).bytes }
    ensures fits { length (text_bytes attribute.now) < 2 ^ 16 }
{
    write.add_attribute(attribute)
}

/// Adds an ERROR-CODE.
fn push_error<B: MessageWrite>(attribute: &ErrorCode, write: &mut B) -> Result<(), StunWriteError>
    ensures { AddsMade result (B.state write.old) (B.state write.new)
        (error_attribute (error_code attribute.now) (error_reason attribute.now)) }
{
    add_made(attribute, write)
}

/// Adds an UNKNOWN-ATTRIBUTES.
fn push_types<B: MessageWrite>(
    attribute: &UnknownAttributes,
    write: &mut B,
) -> Result<(), StunWriteError>
    ensures { AddsMade result (B.state write.old) (B.state write.new)
        (canonical UNKNOWN_ATTRIBUTES (types_encoding (listed attribute.now))) }
{
    add_made(attribute, write)
}

/// Makes and adds an attribute of a reply.
fn add_part<B: MessageWrite>(
    alloc: Global,
    part: &ReplyPart<'_>,
    write: &mut B,
) -> Result<(), StunWriteError>
    requires making { IsMakeable part.now }
    ensures { AddsMade result (B.state write.old) (B.state write.new) (attribute_of part.now) }
{
    match part {
        ReplyPart::Software => push_software(&Software::new(alloc, "stun-types")?, write),
        ReplyPart::Error(code, reason) => push_error(&ErrorCode::new(alloc, *code, reason)?, write),
        ReplyPart::Types(types) => push_types(&UnknownAttributes::new(alloc, types)?, write),
    }
}

/// Writes an error response to a request, part by part, each made just before it is added.
pub(super) fn write_reply<B: MessageWrite>(
    alloc: Global,
    src: &Message<'_>,
    parts: &[ReplyPart<'_>],
    write: &mut B,
) -> Result<(), StunWriteError>
    requires request { class_of (type_field (message_bytes src.now)) ≡ Request }
    requires empty { (B.state write.old).bytes ≡ [] }
    requires room { Fits (B.state write.old).greatest 20 }
    requires making { All IsMakeable parts.now }
    ensures replies { Replies result (B.state write.old) (B.state write.new)
        (message_bytes src.now) (map attribute_of parts.now) }
    ensures header { 20 ≤ (B.state write.old).ready_bytes
        → is_header (B.state write.new).bytes ≡ true }
{
    Message::builder_error_into(src, write)?;
    for i in 0..parts.len() {
        add_part(alloc, &parts[i], write)?;
    }
    Ok(())
}
