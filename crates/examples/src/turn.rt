//! An allocation of TURN: a client that logs in, its server, which stores no nonces (RFC 8656,
//! sections 7.1 to 7.4), and what the client receives over TCP (section 12.5).

ghost use Rattle.std.specs.Prelude.{◌≡◌};
ghost use Rattle.stun_base.specs.MessageTypes.{class_of};
ghost use Rattle.stun_base.specs.declared.message_class.MessageClass.TheVariants.{Request};
ghost use Rattle.stun_grammar.specs.Headers.{type_field};
ghost use Rattle.stun_types.specs.Message.{message_bytes};

use std::alloc::Global;
use std::net::SocketAddr;
use stun_authentication::{
    Accepted, Authentication, Challenge, ChallengeError, Logins, NonceMaker, Policy, Refusal,
    Retry, answer_challenge, authenticate_long_term, refuse_long_term,
};
use stun_types::attribute::{ErrorCode, KNOWN, PasswordAlgorithmValue, Realm, XorMappedAddress};
use stun_types::message::{
    LongTermCredentials, Message, MessageClass, MessageType, MessageWriteVec, StunWriteError,
    TransactionId,
};
use stun_types::prelude::*;
use turn_attrs::{
    ChannelData, Lifetime, RequestedTransport, XorRelayedAddress, allocation_lifetime, error_codes,
    methods,
};

/// The password algorithms of client and server, the one that both prefer first.
pub const ALGORITHMS: [PasswordAlgorithmValue; 2] = [
    PasswordAlgorithmValue::SHA256,
    PasswordAlgorithmValue::MD5,
];

/// The realm of the server.
const REALM: &str = "example.org";

/// The most seconds for which the server keeps an allocation.
const LIMIT: u32 = 3600;

/// The number of UDP.
const UDP: u8 = 17;

/// An Allocate request for UDP: the first one, or the one that answers a challenge.
pub fn allocate_request(
    alloc: Global,
    id: u128,
    seconds: u32,
    retry: Option<&Retry<'_>>,
    (name, password): (&str, &str),
) -> Result<Vec<u8>, StunWriteError> {
    let mtype = MessageType::from_class_method(MessageClass::Request, methods::ALLOCATE);
    let vector = MessageWriteVec::new(alloc);
    let mut request = Message::builder(mtype, TransactionId::from(id), vector)?;
    request.add_attribute(&RequestedTransport::new(UDP))?;
    request.add_attribute(&Lifetime::new(seconds))?;
    match retry {
        Some(retry) => {
            answer_challenge(alloc, retry, name, password, true, &mut request)?;
        }
        None => request.add_fingerprint()?,
    }
    Ok(request.finish())
}

/// A server that knows these users, and recognizes its nonces by their HMACs.
#[derive(Clone, Copy)]
pub struct Server<'a> {
    pub users: &'a [LongTermCredentials],
    pub nonces: &'a NonceMaker,
    /// The time in seconds.
    pub now: u64,
}

/// The error response to a request that isn't authenticated.
fn refused(
    alloc: Global,
    server: &Server<'_>,
    request: &Message<'_>,
    client: SocketAddr,
    refusal: Refusal,
) -> Result<Vec<u8>, StunWriteError>
    requires { class_of (type_field (message_bytes request.now)) ≡ Request }
{
    let nonce = server.nonces.make(alloc, server.now, &client)?;
    let realm = Realm::new(alloc, REALM)?;
    let challenge = match Challenge::new(alloc, &realm, &nonce, &ALGORITHMS) {
        Ok(challenge) => challenge,
        Err(ChallengeError::OutOfMemory) => return Err(StunWriteError::OutOfMemory),
        Err(_) => return Err(StunWriteError::IntegrityFailed),
    };
    let vector = MessageWriteVec::new(alloc);
    Ok(refuse_long_term(alloc, request, refusal, &challenge, vector)?.finish())
}

/// Why there is no allocation: no REQUESTED-TRANSPORT, or another one than UDP.
fn allocation_fault(alloc: Global, request: &Message<'_>) -> Option<u16> {
    match request.attribute::<RequestedTransport>(alloc) {
        Ok(transport) if transport.value() == UDP => None,
        Ok(_) => Some(error_codes::UNSUPPORTED_TRANSPORT_PROTOCOL),
        Err(_) => Some(ErrorCode::BAD_REQUEST),
    }
}

/// The response to a request whose attributes are understood, before it is signed.
fn allocation(
    alloc: Global,
    request: &Message<'_>,
    client: SocketAddr,
    relayed: SocketAddr,
) -> Result<MessageWriteVec, StunWriteError>
    requires { class_of (type_field (message_bytes request.now)) ≡ Request }
{
    let vector = MessageWriteVec::new(alloc);
    if let Some(code) = allocation_fault(alloc, request) {
        let mut reply = Message::builder_error(request, vector)?;
        let reason = error_codes::reason(code).unwrap_or("Bad Request");
        reply.add_attribute(&ErrorCode::new(alloc, code, reason)?)?;
        return Ok(reply);
    }
    let id = request.transaction_id();
    let mut reply = Message::builder_success(request, vector)?;
    reply.add_attribute(&XorRelayedAddress::new(relayed, id))?;
    let requested = request.attribute::<Lifetime>(alloc).ok();
    let seconds = allocation_lifetime(requested.map(|it| it.seconds()), LIMIT);
    reply.add_attribute(&Lifetime::new(seconds))?;
    reply.add_attribute(&XorMappedAddress::new(client, id))?;
    Ok(reply)
}

/// The response to a request that is authenticated, signed as the request is: 420 if it shows types
/// that must be understood and aren't.
fn allocated(
    alloc: Global,
    request: &Message<'_>,
    accepted: &Accepted<'_>,
    client: SocketAddr,
    relayed: SocketAddr,
) -> Result<Vec<u8>, StunWriteError>
    requires { class_of (type_field (message_bytes request.now)) ≡ Request }
{
    let vector = MessageWriteVec::new(alloc);
    // A server that handles all attributes of TURN has `turn_attrs::KNOWN` for `handled`.
    let handled = [RequestedTransport::TYPE, Lifetime::TYPE];
    let known = [&KNOWN[..], &handled];
    let unknown = Message::check_attribute_lists(alloc, request, &known, &[], vector)?;
    let mut reply = match unknown {
        Some(reply) => reply,
        None => allocation(alloc, request, client, relayed)?,
    };
    accepted.finish_reply(true, &mut reply)?;
    Ok(reply.finish())
}

/// The answer to an Allocate request of a client, for which `relayed` is kept. `None` if the message
/// gets none.
pub fn answer(
    alloc: Global,
    server: &Server<'_>,
    request: &Message<'_>,
    client: SocketAddr,
    relayed: SocketAddr,
) -> Result<Option<Vec<u8>>, StunWriteError> {
    if !request.has_class(MessageClass::Request) || !request.has_method(methods::ALLOCATE) {
        return Ok(None);
    }
    let nonces = server.nonces.nonces(server.now, client, &ALGORITHMS);
    let users = Logins::new(server.users);
    let policy = Policy::default();
    Ok(
        match authenticate_long_term(alloc, request, REALM, policy, &nonces, &users)? {
            Authentication::Accepted(accepted) => {
                Some(allocated(alloc, request, &accepted, client, relayed)?)
            }
            Authentication::Refused(refusal) => {
                Some(refused(alloc, server, request, client, refusal)?)
            }
            _ => None,
        },
    )
}

/// What a client receives from its server over TCP, one after the other.
pub enum Incoming<'a> {
    /// A response or an indication.
    Message(Message<'a>),
    /// What a peer sent, on a channel.
    Data(ChannelData<'a>),
}

/// What the bytes are that `MessageStream` cuts. `None` if they are neither.
pub fn received(bytes: &[u8]) -> Option<Incoming<'_>> {
    match ChannelData::from_bytes(bytes) {
        Ok(read) => Some(Incoming::Data(read)),
        Err(_) => match Message::from_bytes(bytes) {
            Ok(message) => Some(Incoming::Message(message)),
            Err(_) => None,
        },
    }
}
