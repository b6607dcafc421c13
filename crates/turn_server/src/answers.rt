//! The signed responses to requests for the allocations.

ghost use Rattle.std.specs.Prelude.{◌≡◌, ◌∷◌, ℕ, [], None, Contains, IfOk};
ghost use Rattle.std.specs.Option.{option_map};
ghost use Rattle.stun_base.specs.MessageTypes.{class_of};
ghost use Rattle.stun_base.specs.declared.message_class.MessageClass.TheVariants.{Request, Success, Error as ErrorClass};
ghost use Rattle.stun_attributes.specs.DefaultReasons.{default_reason};
ghost use Rattle.stun_attributes.specs.ErrorCodes.{IsError};
ghost use Rattle.stun_attributes.specs.Texts.{text_bytes};
ghost use Rattle.stun_grammar.specs.Adding.{Fits};
ghost use Rattle.stun_grammar.specs.Headers.{type_field};
ghost use Rattle.stun_keys.specs.Keys.{key_algorithm, key_bytes};
ghost use Rattle.stun_types.specs.Message.{message_bytes};
ghost use Rattle.stun_types.specs.Replies.{error_attribute};
ghost use Rattle.stun_authentication.specs.Writing.{FailsFor, no_room, sizes};
ghost use Rattle.turn_machine.specs.Events.{refused};
ghost use Rattle.turn_allocations.specs.Answers.{answer_of, code_of};
ghost use Rattle.turn_server.specs.Answers.{answer_class, software_attributes, answer_attributes, answer_text, code_fault, unfinished_refusal, answer_refusal, ANSWER_CODES};
ghost use Rattle.turn_server.specs.Unfinished.{WritesUnfinished};

use crate::adding::{add_refusal, add_success};
use std::alloc::Global;
use stun_authentication::Accepted;
use stun_endpoints::Endpoint;
use stun_types::attribute::{AttributeStaticType, ErrorCode, Fingerprint, Software};
use stun_types::message::{Message, StunWriteError};
use stun_types::prelude::*;
use turn_allocations::{Answer, Refusal};
use turn_reservations::Reply;

/// The ERROR-CODE of a code, with its reason phrase.
pub(crate) fn error_of(alloc: Global, code: u16) -> Result<ErrorCode, StunWriteError>
    ensures error { IfOk result (IsError code (default_reason code)) }
    ensures fault { FailsFor (code_fault (refused code)) result }
{
    ErrorCode::builder(code).build(alloc)
}

/// Writes a success response, but for its end.
fn write_success<B: MessageWrite + Drop>(
    request: &Message<'_>,
    client: Endpoint,
    software: Option<&Software>,
    reply: Reply,
    write: B,
) -> Result<B, StunWriteError>
    requires request { class_of (type_field (message_bytes request.now)) ≡ Request }
    requires success { answer_class (answer_of reply.answer) ≡ Success }
    requires empty { (B.state write).bytes ≡ [] }
    requires room { Fits (B.state write).greatest 20 }
    ensures { let r = message_bytes request.now in
        let attributes = answer_attributes (option_map (λ it. text_bytes it.now) software.entry)
        client r (answer_of reply.answer) reply.token in
        WritesUnfinished (λ w. B.state w) result (B.state write).greatest Success r attributes
        (no_room (B.state write).greatest 20 (sizes attributes)) }
{
    let mut write = Message::builder_success(request, write)?;
    add_success(request, reply, client, software, &mut write)?;
    Ok(write)
}

/// Writes an error response, but for its end.
fn write_error<B: MessageWrite + Drop>(
    alloc: Global,
    request: &Message<'_>,
    software: Option<&Software>,
    refusal: Refusal,
    write: B,
) -> Result<B, StunWriteError>
    requires request { class_of (type_field (message_bytes request.now)) ≡ Request }
    requires empty { (B.state write).bytes ≡ [] }
    requires room { Fits (B.state write).greatest 20 }
    ensures { let r = message_bytes request.now in
        let code = code_of refusal in
        let attributes = error_attribute code (default_reason code)
        ∷ software_attributes (option_map (λ it. text_bytes it.now) software.entry) in
        WritesUnfinished (λ w. B.state w) result (B.state write).greatest ErrorClass r attributes
        (unfinished_refusal (B.state write).greatest (refused code) attributes) }
{
    let error = error_of(alloc, refusal.code())?;
    let mut write = Message::builder_error(request, write)?;
    add_refusal(&error, software, &mut write)?;
    Ok(write)
}

/// Writes a response, but for its end.
fn write_unfinished<B: MessageWrite + Drop>(
    alloc: Global,
    request: &Message<'_>,
    client: Endpoint,
    software: Option<&Software>,
    reply: Reply,
    write: B,
) -> Result<B, StunWriteError>
    requires request { class_of (type_field (message_bytes request.now)) ≡ Request }
    requires empty { (B.state write).bytes ≡ [] }
    requires room { Fits (B.state write).greatest 20 }
    ensures { let r = message_bytes request.now in let answer = answer_of reply.answer in
        let attributes = answer_attributes (option_map (λ it. text_bytes it.now) software.entry)
        client r answer reply.token in
        WritesUnfinished (λ w. B.state w) result (B.state write).greatest (answer_class answer) r
        attributes (unfinished_refusal (B.state write).greatest answer attributes) }
{
    match reply.answer {
        Answer::Refused(refusal) => write_error(alloc, request, software, refusal, write),
        _ => write_success(request, client, software, reply, write),
    }
}

/// Writes the response to a request for the allocations (RFC 8656, sections 7.2, 8.2, 10.2 and 12.2): the
/// success response to Allocate with an XOR-RELAYED-ADDRESS for each relayed address, IPv4 first, LIFETIME, the
/// RESERVATION-TOKEN of the port that it reserved, XOR-MAPPED-ADDRESS, which is the address of the `client`,
/// and an ADDRESS-ERROR-CODE for each family that it gets no address of; to Refresh with LIFETIME; to another
/// request with none of these; or the error response with an ERROR-CODE and its reason phrase. A SOFTWARE
/// follows, if there is one, then the integrity attribute by the user's key, and a FINGERPRINT if the request
/// has one.
///
/// # Errors
///
/// `OutOfMemory` if an allocation failed. Else the first of these that applies: `OutOfRange` if the code
/// is none of an ERROR-CODE; `TooSmall` or `TooLarge` by the first attribute that doesn't fit; and
/// `IntegrityFailed` if the key was made for the other algorithm.
pub(crate) fn write_answer<B: MessageWrite + Drop>(
    alloc: Global,
    request: &Message<'_>,
    client: Endpoint,
    software: Option<&Software>,
    reply: Reply,
    accepted: &Accepted<'_>,
    write: B,
) -> Result<B, StunWriteError>
    requires request { class_of (type_field (message_bytes request.now)) ≡ Request }
    requires empty { (B.state write).bytes ≡ [] }
    requires room { Fits (B.state write).greatest 20 }
    ensures text { let r = message_bytes request.now in
        IfOk result (λ w. (B.state w).bytes
        ≡ answer_text (option_map (λ it. text_bytes it.now) software.entry) client r
        (answer_of reply.answer) reply.token (key_bytes accepted.now.key) accepted.now.reply_algorithm) }
    ensures answer { let r = message_bytes request.now in
        FailsFor (answer_refusal (B.state write).greatest
        (option_map (λ it. text_bytes it.now) software.entry) client r (answer_of reply.answer) reply.token
        (key_algorithm accepted.now.key) accepted.now.reply_algorithm) result }
{
    let mut write = write_unfinished(alloc, request, client, software, reply, write)?;
    accepted.finish_reply(request.has_attribute(Fingerprint::TYPE), &mut write)?;
    Ok(write)
}

/// The law of the codes of the answers to requests: an ERROR-CODE has each. The function does nothing: its
/// contract is the law.
pub fn codes_are_written()
    ensures { (code : ℕ) → Contains ANSWER_CODES code → code_fault (refused code) ≡ None }
{}
