//! The signed response that sends a client to another server.

ghost use Rattle.std.specs.Prelude.{◌≡◌, [], IfOk};
ghost use Rattle.std.specs.Option.{option_map};
ghost use Rattle.stun_base.specs.MessageTypes.{class_of};
ghost use Rattle.stun_base.specs.declared.message_class.MessageClass.TheVariants.{Request, Error as ErrorClass};
ghost use Rattle.stun_attributes.specs.Texts.{text_bytes};
ghost use Rattle.stun_grammar.specs.Adding.{Fits};
ghost use Rattle.stun_grammar.specs.Headers.{type_field};
ghost use Rattle.stun_keys.specs.Keys.{key_algorithm, key_bytes};
ghost use Rattle.stun_types.specs.Message.{message_bytes};
ghost use Rattle.stun_authentication.specs.Writing.{FailsFor, no_room, sizes};
ghost use Rattle.turn_allocations.specs.Answers.{answer_of};
ghost use Rattle.turn_server.specs.Answers.{redirect_attributes, redirect_text, redirect_refusal};
ghost use Rattle.turn_server.specs.Responses.{alternate_for, is_for_any_server, within_reach};
ghost use Rattle.turn_server.specs.Unfinished.{WritesUnfinished};

use crate::Access;
use crate::adding::add_redirect;
use crate::answers::error_of;
use std::alloc::Global;
use stun_authentication::Accepted;
use stun_endpoints::Endpoint;
use stun_types::attribute::{AttributeStaticType, ErrorCode, Fingerprint, Software};
use stun_types::message::{Message, StunWriteError};
use stun_types::prelude::*;
use turn_allocations::{Answer, Refusal};
use turn_attrs::ReservationToken;
use turn_attrs::methods::ALLOCATE;

/// Whether a request is an Allocate request that names no reserved port.
fn is_for_any_server(request: &Message<'_>) -> bool
    ensures { result ≡ is_for_any_server (message_bytes request.now) }
{
    (request.method() == ALLOCATE) & !request.has_attribute(ReservationToken::TYPE)
}

/// A server, if its address is of the client's family.
fn within_reach(client: Endpoint, server: Endpoint) -> Option<Endpoint>
    ensures { result ≡ within_reach client server }
{
    if server.ip.family == client.ip.family {
        Some(server)
    } else {
        None
    }
}

/// The server that a client is sent to instead of getting this answer.
pub(crate) fn alternate_for(
    access: &Access,
    client: Endpoint,
    request: &Message<'_>,
    answer: Answer,
) -> Option<Endpoint>
    ensures { result ≡ alternate_for access.now client (message_bytes request.now) (answer_of answer) }
{
    match answer {
        Answer::Refused(Refusal::InsufficientCapacity) if is_for_any_server(request) => {
            within_reach(client, access.alternate?)
        }
        _ => None,
    }
}

/// Writes the 300, but for its end.
fn write_server<B: MessageWrite + Drop>(
    alloc: Global,
    request: &Message<'_>,
    software: Option<&Software>,
    server: Endpoint,
    write: B,
) -> Result<B, StunWriteError>
    requires request { class_of (type_field (message_bytes request.now)) ≡ Request }
    requires empty { (B.state write).bytes ≡ [] }
    requires room { Fits (B.state write).greatest 20 }
    ensures { let attributes = redirect_attributes (option_map (λ it. text_bytes it.now) software.entry) server in
        WritesUnfinished (λ w. B.state w) result (B.state write).greatest ErrorClass (message_bytes request.now)
        attributes (no_room (B.state write).greatest 20 (sizes attributes)) }
{
    let error = error_of(alloc, ErrorCode::TRY_ALTERNATE)?;
    let mut write = Message::builder_error(request, write)?;
    add_redirect(&error, server, software, &mut write)?;
    Ok(write)
}

/// Writes the response that sends a client to another server: an ERROR-CODE 300 with its reason phrase, and
/// an ALTERNATE-SERVER with the address of the `server` (RFC 8489, section 10). A SOFTWARE follows, if there
/// is one, then the integrity attribute by the user's key, and a FINGERPRINT if the request has one.
///
/// # Errors
///
/// `OutOfMemory` if an allocation failed. Else the first of these that applies: `TooSmall` or `TooLarge` by
/// the first attribute that doesn't fit; and `IntegrityFailed` if the key was made for the other algorithm.
pub(crate) fn write_redirect<B: MessageWrite + Drop>(
    alloc: Global,
    request: &Message<'_>,
    software: Option<&Software>,
    server: Endpoint,
    accepted: &Accepted<'_>,
    write: B,
) -> Result<B, StunWriteError>
    requires request { class_of (type_field (message_bytes request.now)) ≡ Request }
    requires empty { (B.state write).bytes ≡ [] }
    requires room { Fits (B.state write).greatest 20 }
    ensures text { IfOk result (λ w. (B.state w).bytes
        ≡ redirect_text (option_map (λ it. text_bytes it.now) software.entry) server (message_bytes request.now)
        (key_bytes accepted.now.key) accepted.now.reply_algorithm) }
    ensures answer { FailsFor (redirect_refusal (B.state write).greatest
        (option_map (λ it. text_bytes it.now) software.entry) server (message_bytes request.now)
        (key_algorithm accepted.now.key) accepted.now.reply_algorithm) result }
{
    let mut write = write_server(alloc, request, software, server, write)?;
    accepted.finish_reply(request.has_attribute(Fingerprint::TYPE), &mut write)?;
    Ok(write)
}
