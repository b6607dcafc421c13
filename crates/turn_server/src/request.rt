//! What a request of each method asks the allocations for (RFC 8656, sections 7.2, 8.2, 10.2 and 12.2).

ghost use Rattle.std.specs.Prelude.{◌≡◌, ℕ, MatchResult};
ghost use Rattle.stun_grammar.specs.Headers.{type_field};
ghost use Rattle.stun_base.specs.MessageTypes.{method_of};
ghost use Rattle.stun_types.specs.Message.{message_bytes};
ghost use Rattle.turn_machine.specs.Relays.{State};
ghost use Rattle.turn_machine.specs.Events.{refresh, unfit};
ghost use Rattle.turn_machine.specs.Reserving.{OuterState};
ghost use Rattle.stun_endpoints.specs.declared.endpoints.FiveTuple.{FiveTuple};
ghost use Rattle.turn_allocations.specs.Answers.{code_of};
ghost use Rattle.turn_allocations.specs.Requests.{asked, numbers_in};
ghost use Rattle.turn_allocations.specs.declared.answer.Answer.{Answer};
ghost use Rattle.turn_server.specs.Requests.{refresh_of, channel_of, bind_of, asks_table, any_but_permit};
ghost use Rattle.turn_server.specs.Wanted.{token_of, outer_of};
ghost use Rattle.turn_server.specs.Wishes.{wished, claim_in};

use crate::Sockets;
use crate::addresses::peer_of;
use crate::allocate::read_allocate;
use crate::values::{byte_in, number_in};
use crate::wish::Wish;
use byteorder::{BigEndian, ByteOrder};
use stun_authentication::attributes::value_of;
use stun_endpoints::Ip;
use stun_types::attribute::AttributeStaticType;
use stun_types::message::{Message, Method};
use turn_allocations::{Refusal, Request};
use turn_attrs::ChannelNumber;
use turn_attrs::attribute_types::{LIFETIME, REQUESTED_ADDRESS_FAMILY};
use turn_attrs::methods::{ALLOCATE, CHANNEL_BIND, CREATE_PERMISSION, REFRESH};

/// The address family and the lifetime of a Refresh request.
///
/// # Errors
///
/// `BadRequest` if either is malformed.
fn refresh_fields(request: &Message<'_>) -> Result<(Option<u8>, Option<u32>), Refusal>
    ensures { let d = message_bytes request.now in
        MatchResult result
        (λ fields. refresh_of d ≡ refresh fields.0 fields.1)
        (λ refusal. refresh_of d ≡ unfit (code_of refusal)) }
{
    let family = byte_in(request, REQUESTED_ADDRESS_FAMILY, 4)?;
    let lifetime = number_in(request, LIFETIME)?;
    Ok((family, lifetime))
}

/// What a Refresh request asks for.
fn read_refresh(request: &Message<'_>) -> Request<'static>
    ensures { (state : State) (answer : Answer)
        → asked state answer result ≡ refresh_of (message_bytes request.now) }
{
    match refresh_fields(request) {
        Ok((family, lifetime)) => Request::Refresh { family, lifetime },
        Err(refusal) => Request::Unfit(refusal),
    }
}

/// The number in a CHANNEL-NUMBER, if there is one, and it isn't malformed.
fn channel_of(request: &Message<'_>) -> Option<u16>
    ensures { result ≡ channel_of (message_bytes request.now) }
{
    let value = value_of(request, ChannelNumber::TYPE)?;
    if value.len() != 4 {
        return None;
    }
    Some(BigEndian::read_u16(value))
}

/// What a ChannelBind request asks for.
fn read_bind(request: &Message<'_>) -> Request<'static>
    ensures { (state : State) (answer : Answer)
        → asked state answer result ≡ bind_of (message_bytes request.now) }
{
    match (channel_of(request), peer_of(request)) {
        (Some(number), Some(peer)) => Request::ChannelBind { number, peer },
        _ => Request::Unfit(Refusal::BadRequest),
    }
}

/// Whether a request of a method asks the allocations for something.
pub(crate) fn asks_table(method: Method) -> bool
    ensures { result ≡ asks_table method }
{
    matches!(
        method,
        ALLOCATE | REFRESH | CREATE_PERMISSION | CHANNEL_BIND
    )
}

/// What a client's request asks for, of a method other than CreatePermission.
pub(crate) fn read_request(request: &Message<'_>, client: Ip, sockets: &Sockets) -> Wish
    ensures outer { let d = message_bytes request.now in
        (tuple : FiveTuple) (user : ℕ) (h : OuterState) (answer : Answer)
        → wished tuple user h answer result ≡ outer_of tuple user h (numbers_in answer)
        (any_but_permit client sockets.now (method_of (type_field d)) d) }
    ensures token { let d = message_bytes request.now in claim_in result
        ≡ token_of (any_but_permit client sockets.now (method_of (type_field d)) d) }
{
    match request.method() {
        ALLOCATE => read_allocate(request, client, sockets),
        REFRESH => Wish::Asks(read_refresh(request)),
        _ => Wish::Asks(read_bind(request)),
    }
}
