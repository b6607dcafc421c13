//! The server: it reports to a user the address that a request came from (RFC 8489, sections 9.1.3,
//! 9.2.4 and 6.3.1).

ghost use Rattle.std.specs.Prelude.{◌≡◌};
ghost use Rattle.stun_base.specs.MessageTypes.{class_of};
ghost use Rattle.stun_base.specs.declared.message_class.MessageClass.TheVariants.{Request};
ghost use Rattle.stun_grammar.specs.Headers.{type_field};
ghost use Rattle.stun_types.specs.Message.{message_bytes};
ghost use Rattle.login_server.specs.Issued.{algorithms_of};

use std::alloc::Global;
use std::net::SocketAddr;
use stun_authentication::{
    Accepted, Authentication, Challenge, ChallengeError, Logins, NonceState, Nonces, Policy,
    Refusal, authenticate_long_term, authenticate_short_term, refuse_long_term, refuse_short_term,
    security_features,
};
use stun_types::attribute::{
    AttributeStaticType, Fingerprint, KNOWN, Nonce, PasswordAlgorithmValue, Realm, XorMappedAddress,
};
use stun_types::message::{
    BINDING, LongTermCredentials, Message, MessageClass, MessageWriteVec, StunWriteError,
};
use stun_types::prelude::*;

/// The realm of the users.
const REALM: &str = "example.org";

/// The password algorithms that the server sends with a nonce that promises them, the one that it
/// prefers first.
const ALGORITHMS: [PasswordAlgorithmValue; 2] = [
    PasswordAlgorithmValue::SHA256,
    PasswordAlgorithmValue::MD5,
];

/// The nonces of the moment: one that is valid, and the one before it. Those of a real server
/// differ from client to client, and can't be guessed.
#[derive(Clone, Copy)]
pub struct Issued<'a> {
    pub fresh: &'a str,
    pub stale: &'a str,
}

/// The algorithms that were sent with a nonce.
fn algorithms_of(nonce: &[u8]) -> &'static [PasswordAlgorithmValue]
    ensures { result.now ≡ algorithms_of nonce.now }
{
    match security_features(nonce) {
        Some(features) if features.password_algorithms => &ALGORITHMS,
        _ => &[],
    }
}

impl Nonces for Issued<'_> {
    ghost use Rattle.login_server.specs.Issued.{state_of};

    ghost state_of = { state_of };

    fn nonce(&self, nonce: &[u8]) -> NonceState<'_> {
        if nonce == self.fresh.as_bytes() {
            return NonceState::Valid(algorithms_of(nonce));
        }
        if nonce == self.stale.as_bytes() {
            return NonceState::Stale;
        }
        NonceState::Unknown
    }
}

/// What the server answers.
#[derive(Drop)]
pub enum AuthenticatedReply {
    /// The message is a user's. This is the reply to a request; an indication has none.
    Accepted(Option<Vec<u8>>),
    /// It is refused by this error response.
    Refused(Vec<u8>),
    /// Nothing is answered.
    Discarded,
}

/// The two users.
fn users(alloc: Global) -> Result<[LongTermCredentials; 2], StunWriteError> {
    let copy = |text| String::from_str(alloc, text);
    Ok([
        LongTermCredentials::new(copy("alice")?, copy("wonderland")?),
        LongTermCredentials::new(copy("bob")?, copy("builder")?),
    ])
}

/// The reply to a request that is a user's: signed, and with a FINGERPRINT at its end. If the
/// request shows types that must be understood and aren't, it is refused with 420.
fn reply(
    alloc: Global,
    request: &Message<'_>,
    accepted: &Accepted<'_>,
    source: SocketAddr,
) -> Result<Vec<u8>, StunWriteError>
    requires { class_of (type_field (message_bytes request.now)) ≡ Request }
{
    let vector = MessageWriteVec::new(alloc);
    let unknown = Message::check_attribute_types(alloc, request, &KNOWN, &[], vector)?;
    let mut reply = match unknown {
        Some(reply) => reply,
        None => success(alloc, request, source)?,
    };
    accepted.finish_reply(true, &mut reply)?;
    Ok(reply.finish())
}

/// The success response, which reports to the client its address.
fn success(
    alloc: Global,
    request: &Message<'_>,
    source: SocketAddr,
) -> Result<MessageWriteVec, StunWriteError>
    requires { class_of (type_field (message_bytes request.now)) ≡ Request }
{
    let mut reply = Message::builder_success(request, MessageWriteVec::new(alloc))?;
    reply.add_attribute(&XorMappedAddress::new(source, request.transaction_id()))?;
    Ok(reply)
}

/// The error response to a request, with what a client of long-term credentials is asked for.
fn refused(
    alloc: Global,
    issued: Issued<'_>,
    request: &Message<'_>,
    why: Refusal,
) -> Result<MessageWriteVec, StunWriteError>
    requires { class_of (type_field (message_bytes request.now)) ≡ Request }
{
    let algorithms = algorithms_of(issued.fresh.as_bytes());
    let (realm, nonce) = (Realm::new(alloc, REALM)?, Nonce::new(alloc, issued.fresh)?);
    match Challenge::new(alloc, &realm, &nonce, algorithms) {
        Ok(asked) => refuse_long_term(alloc, request, why, &asked, MessageWriteVec::new(alloc)),
        Err(ChallengeError::OutOfMemory) => Err(StunWriteError::OutOfMemory),
        Err(_) => unreachable!(),
    }
}

/// A response with a FINGERPRINT at its end. That of a request with a FINGERPRINT has one already.
fn printed(mut reply: MessageWriteVec) -> Result<Vec<u8>, StunWriteError> {
    if !reply.has_attribute(Fingerprint::TYPE) {
        reply.add_fingerprint()?;
    }
    Ok(reply.finish())
}

/// Answers a message by short-term credentials.
fn by_short_term(
    alloc: Global,
    policy: Policy,
    source: SocketAddr,
    message: &Message<'_>,
    logins: &Logins<'_>,
) -> Result<AuthenticatedReply, StunWriteError> {
    let is_request = message.has_class(MessageClass::Request);
    match authenticate_short_term(alloc, message, policy, logins)? {
        Authentication::Accepted(accepted) if is_request => {
            let reply = reply(alloc, message, &accepted, source)?;
            Ok(AuthenticatedReply::Accepted(Some(reply)))
        }
        Authentication::Refused(why) if is_request => {
            let reply = refuse_short_term(alloc, message, why, MessageWriteVec::new(alloc))?;
            Ok(AuthenticatedReply::Refused(printed(reply)?))
        }
        Authentication::Accepted(_) => Ok(AuthenticatedReply::Accepted(None)),
        _ => Ok(AuthenticatedReply::Discarded),
    }
}

/// Answers a message by long-term credentials.
fn by_long_term(
    alloc: Global,
    policy: Policy,
    issued: Issued<'_>,
    source: SocketAddr,
    message: &Message<'_>,
    logins: &Logins<'_>,
) -> Result<AuthenticatedReply, StunWriteError> {
    let is_request = message.has_class(MessageClass::Request);
    match authenticate_long_term(alloc, message, REALM, policy, &issued, logins)? {
        Authentication::Accepted(accepted) if is_request => {
            let reply = reply(alloc, message, &accepted, source)?;
            Ok(AuthenticatedReply::Accepted(Some(reply)))
        }
        Authentication::Refused(why) if is_request => {
            let reply = refused(alloc, issued, message, why)?;
            Ok(AuthenticatedReply::Refused(printed(reply)?))
        }
        _ => Ok(AuthenticatedReply::Discarded),
    }
}

/// Answers a datagram that came from `source`, by long-term credentials if there are nonces, and
/// else by short-term ones.
///
/// # Errors
///
/// `OutOfMemory` if an allocation failed, and `TooLarge` if a nonce is too long for its
/// attribute, or a reply for a message.
pub fn answer_to(
    alloc: Global,
    policy: Policy,
    issued: Option<Issued<'_>>,
    source: SocketAddr,
    datagram: &[u8],
) -> Result<AuthenticatedReply, StunWriteError> {
    let Ok(message) = Message::from_bytes(datagram) else {
        return Ok(AuthenticatedReply::Discarded);
    };
    if !message.has_method(BINDING) {
        return Ok(AuthenticatedReply::Discarded);
    }
    let users = users(alloc)?;
    let logins = Logins::new(&users);
    match issued {
        Some(issued) => by_long_term(alloc, policy, issued, source, &message, &logins),
        None => by_short_term(alloc, policy, source, &message, &logins),
    }
}
