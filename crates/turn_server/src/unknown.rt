//! The signed response to a request that shows types that aren't comprehended.

ghost use Rattle.std.specs.Prelude.{◌≡◌, [], IfOk, IfErr};
ghost use Rattle.stun_base.specs.MessageTypes.{class_of};
ghost use Rattle.stun_base.specs.declared.message_class.MessageClass.TheVariants.{Request, Error as ErrorClass};
ghost use Rattle.stun_attributes.specs.Unknown.{listed};
ghost use Rattle.stun_grammar.specs.Adding.{Fits};
ghost use Rattle.stun_grammar.specs.Headers.{type_field};
ghost use Rattle.stun_keys.specs.Keys.{key_algorithm, key_bytes};
ghost use Rattle.stun_types.specs.Message.{message_bytes};
ghost use Rattle.stun_types.specs.Replies.{unknown_types};
ghost use Rattle.stun_authentication.specs.Writing.{FailsFor};
ghost use Rattle.turn_server.specs.Answers.{unknown_attributes, unknown_text, list_fault, listing_refusal, unknown_refusal};
ghost use Rattle.turn_server.specs.Comprehended.{comprehended};
ghost use Rattle.turn_server.specs.Unfinished.{WritesUnfinished};

use crate::adding::add_unknown;
use crate::answers::error_of;
use crate::comprehended::comprehended_by;
use std::alloc::{AllocError, Global};
use stun_authentication::Accepted;
use stun_types::attribute::{
    AttributeStaticType, AttributeType, ErrorCode, Fingerprint, UnknownAttributes,
};
use stun_types::message::{Message, StunWriteError, UnknownTypes};
use stun_types::prelude::*;

/// The types that a request shows and that aren't comprehended.
fn unknown_types_of(
    alloc: Global,
    request: &Message<'_>,
    sets_df: bool,
) -> Result<Vec<AttributeType>, StunWriteError>
    ensures found { IfOk result (λ types. types.items
        ≡ unknown_types (comprehended sets_df) (message_bytes request.now)) }
    ensures err { IfErr result (λ e. e ≡ StunWriteError.OutOfMemory) }
{
    let mut types = Vec::new(alloc);
    for atype in UnknownTypes::new(request.as_bytes(), comprehended_by(sets_df)) {
        types.push(atype).map_err(AllocError::from)?;
    }
    Ok(types)
}

/// The UNKNOWN-ATTRIBUTES with the types that a request shows and that aren't comprehended.
fn list_of(
    alloc: Global,
    request: &Message<'_>,
    sets_df: bool,
) -> Result<UnknownAttributes, StunWriteError>
    ensures listed { IfOk result (λ list. listed list
        ≡ unknown_types (comprehended sets_df) (message_bytes request.now)) }
    ensures fault { FailsFor (list_fault sets_df (message_bytes request.now)) result }
{
    let types = unknown_types_of(alloc, request, sets_df)?;
    UnknownAttributes::new(alloc, &types)
}

/// Writes the 420, but for its end.
fn write_listed<B: MessageWrite + Drop>(
    alloc: Global,
    request: &Message<'_>,
    sets_df: bool,
    write: B,
) -> Result<B, StunWriteError>
    requires request { class_of (type_field (message_bytes request.now)) ≡ Request }
    requires empty { (B.state write).bytes ≡ [] }
    requires room { Fits (B.state write).greatest 20 }
    ensures { let r = message_bytes request.now in
        WritesUnfinished (λ w. B.state w) result (B.state write).greatest ErrorClass r
        (unknown_attributes sets_df r) (listing_refusal (B.state write).greatest sets_df r) }
{
    let error = error_of(alloc, ErrorCode::UNKNOWN_ATTRIBUTE)?;
    let list = list_of(alloc, request, sets_df)?;
    let mut write = Message::builder_error(request, write)?;
    add_unknown(&error, &list, &mut write)?;
    Ok(write)
}

/// Writes the response to a request that shows types below 0x8000 that aren't comprehended: an ERROR-CODE
/// 420 with its reason phrase, and an UNKNOWN-ATTRIBUTES that lists them, in order and as often as shown
/// (RFC 8489, section 6.3.1); then the integrity attribute by the user's key, and a FINGERPRINT if the
/// request has one. It has no SOFTWARE, as the 400, 401 and 438 have none.
///
/// # Errors
///
/// `OutOfMemory` if an allocation failed. Else the first of these that applies: `TooLarge` if more types
/// would be listed than an attribute has room for, which no message shows; `TooSmall` or `TooLarge` by
/// the first attribute that doesn't fit; and `IntegrityFailed` if the key was made for the other
/// algorithm.
pub(crate) fn write_unknown<B: MessageWrite + Drop>(
    alloc: Global,
    request: &Message<'_>,
    sets_df: bool,
    accepted: &Accepted<'_>,
    write: B,
) -> Result<B, StunWriteError>
    requires request { class_of (type_field (message_bytes request.now)) ≡ Request }
    requires empty { (B.state write).bytes ≡ [] }
    requires room { Fits (B.state write).greatest 20 }
    ensures text { let r = message_bytes request.now in
        IfOk result (λ w. (B.state w).bytes
        ≡ unknown_text sets_df r (key_bytes accepted.now.key) accepted.now.reply_algorithm) }
    ensures answer { let r = message_bytes request.now in
        FailsFor (unknown_refusal (B.state write).greatest sets_df r (key_algorithm accepted.now.key)
        accepted.now.reply_algorithm) result }
{
    let mut write = write_listed(alloc, request, sets_df, write)?;
    accepted.finish_reply(request.has_attribute(Fingerprint::TYPE), &mut write)?;
    Ok(write)
}
