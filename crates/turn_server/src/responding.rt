//! The responses to a client, each written at the start of a buffer.

ghost use Rattle.std.specs.Prelude.{◌≡◌, None, Some, length, true, if◌then◌else◌};
ghost use Rattle.stun_base.specs.MessageTypes.{class_of};
ghost use Rattle.stun_base.specs.declared.message_class.MessageClass.TheVariants.{Request};
ghost use Rattle.stun_grammar.specs.declared.integrity_algorithm.IntegrityAlgorithm.{IntegrityAlgorithm};
ghost use Rattle.stun_grammar.specs.Headers.{type_field};
ghost use Rattle.stun_keys.specs.Keys.{key_algorithm, key_bytes};
ghost use Rattle.stun_types.specs.Message.{message_bytes};
ghost use Rattle.stun_authentication.specs.Asking.{asked_in};
ghost use Rattle.stun_authentication.specs.Lookups.{UserKey};
ghost use Rattle.stun_authentication.specs.Refusing.{refusal_of, refusal_sizes};
ghost use Rattle.stun_authentication.specs.Writing.{no_room};
ghost use Rattle.stun_server.specs.InSlice.{written_in, slice_after};
ghost use Rattle.turn_allocations.specs.Answers.{answer_of};
ghost use Rattle.turn_server.specs.Access.{asked_by, software_in};
ghost use Rattle.turn_server.specs.Acting.{none_used, opened_in, opened_one, is_opened, used_by};
ghost use Rattle.turn_server.specs.Answers.{answer_text, answer_refusal, redirect_text, redirect_refusal, unknown_text, unknown_refusal};
ghost use Rattle.turn_server.specs.Reporting.{Signs};
ghost use Rattle.turn_server.specs.Responses.{IsWritten, IsResponse, binding_owed, refusal_owed, types_owed, own_owed, redirect_owed, answer_owed, answer_code};

use crate::access::{Access, seconds};
use crate::answers::write_answer;
use crate::comprehended::comprehended_by;
use crate::redirecting::{alternate_for, write_redirect};
use crate::serving::Served;
use crate::unknown::write_unknown;
use crate::{Opened, Response};
use std::alloc::Global;
use std::net::SocketAddr;
use stun_authentication::{
    Accepted, Challenge, ChallengeError, Refusal, nonces_are_texts, refuse_long_term,
};
use stun_endpoints::Endpoint;
use stun_server::Reply as BindingReply;
use stun_types::attribute::ErrorCode;
use stun_types::message::{Message, MessageWriteVec, StunWriteError};
use stun_types::prelude::*;
use turn_allocations::{Answer, Families, Given};
use turn_reservations::Reply;

/// No socket is used.
const NONE_OPENED: Families<Option<Opened>> = Families {
    ipv4: None,
    ipv6: None,
};

/// Copies a message to the start of a buffer, if that has room for it, and returns its length.
pub(crate) fn copied(message: &[u8], buffer: &mut [u8]) -> Result<usize, StunWriteError>
    ensures answer { result ≡ written_in message.now (length buffer.old) }
    ensures buffer { buffer.new ≡ slice_after (Some message.now) buffer.old }
{
    if buffer.len() < message.len() {
        return Err(StunWriteError::TooSmall {
            expected: message.len(),
            actual: buffer.len(),
        });
    }
    buffer[..message.len()].copy_from_slice(message);
    Ok(message.len())
}

/// The reply to a Binding request. What it shows of the types that are comprehended is ignored.
pub(crate) fn bind(
    request: &Message<'_>,
    client: Endpoint,
    sets_df: bool,
    buffer: &mut [u8],
) -> Response
    ensures { IsResponse (binding_owed sets_df client (message_bytes request.now)) none_used buffer.old
        buffer.new result }
{
    let types = comprehended_by(sets_df);
    let reply = BindingReply::supporting(*request, SocketAddr::from(client), types);
    Response {
        written: reply.write_into(buffer),
        code: reply.code(),
        opened: NONE_OPENED,
        reserved: None,
        claimed: None,
    }
}

/// The error if nothing can be asked for: a list is offered exactly if the nonce promises one, so only
/// an allocation fails.
fn out_of_memory(error: ChallengeError) -> StunWriteError
    requires { error ≡ ChallengeError.OutOfMemory }
    ensures { result ≡ StunWriteError.OutOfMemory }
{
    match error {
        ChallengeError::OutOfMemory => StunWriteError::OutOfMemory,
        _ => unreachable!(),
    }
}

/// Writes the response that refuses a request, and asks for this.
fn write_challenge(
    alloc: Global,
    request: &Message<'_>,
    refusal: Refusal,
    challenge: &Challenge<'_>,
    buffer: &mut [u8],
) -> Result<usize, StunWriteError>
    requires { class_of (type_field (message_bytes request.now)) ≡ Request }
    ensures { let r = message_bytes request.now in let asked = Some (asked_in challenge.now) in
        IsWritten true (no_room None 20 (refusal_sizes r refusal asked)) (refusal_of r refusal asked)
        buffer.old buffer.new result }
{
    let write = MessageWriteVec::new(alloc);
    let write = refuse_long_term(alloc, request, refusal, challenge, write)?;
    copied(&write.finish(), buffer)
}

/// Writes the response that refuses a request, with a new nonce for its client.
fn write_refusal(
    alloc: Global,
    access: &Access,
    now: u64,
    client: SocketAddr,
    request: &Message<'_>,
    refusal: Refusal,
    buffer: &mut [u8],
) -> Result<usize, StunWriteError>
    requires { class_of (type_field (message_bytes request.now)) ≡ Request }
    ensures { let r = message_bytes request.now in let asked = Some (asked_by access.now now client) in
        IsWritten true (no_room None 20 (refusal_sizes r refusal asked)) (refusal_of r refusal asked)
        buffer.old buffer.new result }
{
    nonces_are_texts();
    let nonce = access.nonces.make(alloc, seconds(now), &client)?;
    match Challenge::new(alloc, &access.realm, &nonce, access.algorithms()) {
        Ok(challenge) => write_challenge(alloc, request, refusal, &challenge, buffer),
        Err(error) => Err(out_of_memory(error)),
    }
}

/// The response that refuses a request.
pub(crate) fn refuse(
    alloc: Global,
    access: &Access,
    now: u64,
    client: Endpoint,
    request: &Message<'_>,
    refusal: Refusal,
    buffer: &mut [u8],
) -> Response
    requires { class_of (type_field (message_bytes request.now)) ≡ Request }
    ensures { IsResponse (refusal_owed access.now now client (message_bytes request.now) refusal) none_used
        buffer.old buffer.new result }
{
    let client = SocketAddr::from(client);
    Response {
        written: write_refusal(alloc, access, now, client, request, refusal, buffer),
        code: Some(refusal.code()),
        opened: NONE_OPENED,
        reserved: None,
        claimed: None,
    }
}

/// Writes the response to a request that shows types that aren't comprehended.
fn write_types(
    alloc: Global,
    request: &Message<'_>,
    sets_df: bool,
    accepted: &Accepted<'_>,
    buffer: &mut [u8],
) -> Result<usize, StunWriteError>
    requires { class_of (type_field (message_bytes request.now)) ≡ Request }
    ensures { let r = message_bytes request.now in
        IsWritten true
        (unknown_refusal None sets_df r (key_algorithm accepted.now.key) accepted.now.reply_algorithm)
        (unknown_text sets_df r (key_bytes accepted.now.key) accepted.now.reply_algorithm)
        buffer.old buffer.new result }
{
    let write = write_unknown(
        alloc,
        request,
        sets_df,
        accepted,
        MessageWriteVec::new(alloc),
    )?;
    copied(&write.finish(), buffer)
}

/// The response to a request that shows types that aren't comprehended.
pub(crate) fn refuse_types(
    alloc: Global,
    request: &Message<'_>,
    sets_df: bool,
    accepted: &Accepted<'_>,
    buffer: &mut [u8],
) -> Response
    requires { class_of (type_field (message_bytes request.now)) ≡ Request }
    ensures { (key : UserKey) (algorithm : IntegrityAlgorithm) → Signs key algorithm accepted.now
        → IsResponse (types_owed sets_df (message_bytes request.now) key algorithm) none_used
        buffer.old buffer.new result }
{
    Response {
        written: write_types(alloc, request, sets_df, accepted, buffer),
        code: Some(ErrorCode::UNKNOWN_ATTRIBUTE),
        opened: NONE_OPENED,
        reserved: None,
        claimed: None,
    }
}

/// Writes the response that sends a client to another server.
fn write_server(
    alloc: Global,
    access: &Access,
    server: Endpoint,
    request: &Message<'_>,
    accepted: &Accepted<'_>,
    buffer: &mut [u8],
) -> Result<usize, StunWriteError>
    requires { class_of (type_field (message_bytes request.now)) ≡ Request }
    ensures { let r = message_bytes request.now in
        IsWritten true
        (redirect_refusal None (software_in access.now) server r (key_algorithm accepted.now.key)
        accepted.now.reply_algorithm)
        (redirect_text (software_in access.now) server r (key_bytes accepted.now.key)
        accepted.now.reply_algorithm) buffer.old buffer.new result }
{
    let software = access.software.as_ref();
    let write = MessageWriteVec::new(alloc);
    let write = write_redirect(alloc, request, software, server, accepted, write)?;
    copied(&write.finish(), buffer)
}

/// The response that sends a client to another server.
fn redirect(
    alloc: Global,
    access: &Access,
    server: Endpoint,
    request: &Message<'_>,
    accepted: &Accepted<'_>,
    buffer: &mut [u8],
) -> Response
    requires { class_of (type_field (message_bytes request.now)) ≡ Request }
    ensures { (key : UserKey) (algorithm : IntegrityAlgorithm) → Signs key algorithm accepted.now
        → IsResponse (redirect_owed access.now server (message_bytes request.now) key algorithm) none_used
        buffer.old buffer.new result }
{
    Response {
        written: write_server(alloc, access, server, request, accepted, buffer),
        code: Some(ErrorCode::TRY_ALTERNATE),
        opened: NONE_OPENED,
        reserved: None,
        claimed: None,
    }
}

/// Writes the answer to a user's request.
fn write_reply(
    alloc: Global,
    access: &Access,
    client: Endpoint,
    request: &Message<'_>,
    reply: Reply,
    accepted: &Accepted<'_>,
    buffer: &mut [u8],
) -> Result<usize, StunWriteError>
    requires { class_of (type_field (message_bytes request.now)) ≡ Request }
    ensures { let r = message_bytes request.now in
        IsWritten true
        (answer_refusal None (software_in access.now) client r (answer_of reply.answer) reply.token
        (key_algorithm accepted.now.key) accepted.now.reply_algorithm)
        (answer_text (software_in access.now) client r (answer_of reply.answer) reply.token
        (key_bytes accepted.now.key) accepted.now.reply_algorithm) buffer.old buffer.new result }
{
    let software = access.software.as_ref();
    let write = MessageWriteVec::new(alloc);
    let write = write_answer(alloc, request, client, software, reply, accepted, write)?;
    copied(&write.finish(), buffer)
}

/// The code of an answer that is an error.
fn code_of(reply: Answer) -> Option<u16>
    ensures { result ≡ answer_code (answer_of reply) }
{
    match reply {
        Answer::Refused(refusal) => Some(refusal.code()),
        _ => None,
    }
}

/// The socket of a relayed address, if it is used from now on: its number is not below `next`.
fn opened_one(next: u64, given: Option<Given>) -> Option<Opened>
    ensures { result ≡ opened_one next given }
{
    match given {
        Some(Given { number, address }) if next <= number => Some(Opened {
            number,
            relayed: address,
        }),
        _ => None,
    }
}

/// The sockets that are used from now on, by an answer before which `next` was the next number.
fn opened_in(next: u64, reply: Answer) -> Families<Option<Opened>>
    ensures { result ≡ opened_in next (answer_of reply) }
{
    match reply {
        Answer::Allocated { given, .. } => Families {
            ipv4: opened_one(next, given.ipv4),
            ipv6: opened_one(next, given.ipv6),
        },
        _ => NONE_OPENED,
    }
}

/// Whether a socket is used from now on.
fn is_opened(opened: Families<Option<Opened>>) -> bool
    ensures { result ≡ is_opened opened }
{
    opened.ipv4.is_some() | opened.ipv6.is_some()
}

/// A token, if there is one and a socket is used from now on.
fn token_if(is_opened: bool, token: Option<u64>) -> Option<u64>
    ensures { result ≡ if is_opened then token else None }
{
    if is_opened { token } else { None }
}

/// What the server itself answers to a user's request, before which `next` was the next number of a socket.
fn answer_itself(
    alloc: Global,
    access: &Access,
    client: Endpoint,
    request: &Message<'_>,
    served: Served,
    next: u64,
    accepted: &Accepted<'_>,
    buffer: &mut [u8],
) -> Response
    requires { class_of (type_field (message_bytes request.now)) ≡ Request }
    ensures { (key : UserKey) (algorithm : IntegrityAlgorithm) → Signs key algorithm accepted.now
        → let answer = answer_of served.reply.answer in IsResponse
        (own_owed access.now client (message_bytes request.now) answer served.reply.token key algorithm)
        (used_by served.claim served.reply.token (opened_in next answer)) buffer.old buffer.new result }
{
    let reply = served.reply;
    let opened = opened_in(next, reply.answer);
    let is_opened = is_opened(opened);
    Response {
        written: write_reply(alloc, access, client, request, reply, accepted, buffer),
        code: code_of(reply.answer),
        opened,
        reserved: token_if(is_opened, reply.token),
        claimed: token_if(is_opened, served.claim),
    }
}

/// The answer to a user's request, before which `next` was the next number of a socket.
pub(crate) fn answer(
    alloc: Global,
    access: &Access,
    client: Endpoint,
    request: &Message<'_>,
    served: Served,
    next: u64,
    accepted: &Accepted<'_>,
    buffer: &mut [u8],
) -> Response
    requires { class_of (type_field (message_bytes request.now)) ≡ Request }
    ensures { (key : UserKey) (algorithm : IntegrityAlgorithm) → Signs key algorithm accepted.now
        → let answer = answer_of served.reply.answer in IsResponse
        (answer_owed access.now client (message_bytes request.now) answer served.reply.token key algorithm)
        (used_by served.claim served.reply.token (opened_in next answer)) buffer.old buffer.new result }
{
    match alternate_for(access, client, request, served.reply.answer) {
        Some(server) => redirect(alloc, access, server, request, accepted, buffer),
        None => answer_itself(
            alloc, access, client, request, served, next, accepted, buffer,
        ),
    }
}
