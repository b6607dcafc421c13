//! What a datagram is that an agent receives.

ghost use Rattle.std.specs.Prelude.{◌≡◌, true};
ghost use Rattle.stun_base.specs.MessageTypes.{class_of};
ghost use Rattle.stun_base.specs.declared.message_class.MessageClass.TheVariants.{Request};
ghost use Rattle.stun_grammar.specs.Headers.{type_field};
ghost use Rattle.stun_authentication.specs.Policies.{is_fingerprinted};
ghost use Rattle.stun_transactions.specs.Outcomes.{outcome_of};
ghost use Rattle.stun_types.specs.Message.{message_bytes};
ghost use Rattle.ice_checks.specs.Judging.{accepted, answered, content, denied, judge, message_judged, pending, requested, responded, responded_by, success};
ghost use Rattle.ice_checks.specs.Views.{login_of, logins_of};

use crate::awaited::AwaitedChecks;
use crate::checking::authenticate;
use crate::judged::{Judged, Refusal};
use crate::reading::{is_understood, mapped_in, priority_in, role_in, understood};
use crate::session::{Credentials, Session};
use ice_attrs::UseCandidate;
use ice_machine::{Answer, Check};
use stun_authentication::Refusal as Denial;
use stun_endpoints::Endpoint;
use stun_transactions::Mechanism::ShortTerm;
use stun_transactions::{PendingRequest, Received, ResponsePolicy, Signed};
use stun_types::TransportType;
use stun_types::attribute::{AttributeStaticType, Fingerprint};
use stun_types::message::{BINDING, IntegrityAlgorithm, Message, MessageClass, TransactionId};

/// What a request is that is the peer's, and shows no type that the agent doesn't understand.
fn content(
    base: u32,
    from: Endpoint,
    message: &Message<'_>,
    algorithm: IntegrityAlgorithm,
) -> Judged
    ensures { result ≡ content base from (message_bytes message.now) algorithm }
{
    let id = message.transaction_id().value();
    let (Some(priority), Some((role, tiebreaker))) = (priority_in(message), role_in(message)) else {
        return Judged::Refused {
            id,
            refusal: Refusal::BadRequest,
            signed_by: Some(algorithm),
        };
    };
    let check = Check {
        base,
        from,
        id,
        role,
        tiebreaker,
        nominates: message.has_attribute(UseCandidate::TYPE),
        priority,
    };
    Judged::Checks { check, algorithm }
}

/// What a request is that is the peer's.
fn accepted(
    base: u32,
    from: Endpoint,
    message: &Message<'_>,
    algorithm: IntegrityAlgorithm,
) -> Judged
    ensures { result ≡ accepted base from (message_bytes message.now) algorithm }
{
    if !is_understood(message) {
        return Judged::Refused {
            id: message.transaction_id().value(),
            refusal: Refusal::UnknownTypes,
            signed_by: Some(algorithm),
        };
    }
    content(base, from, message, algorithm)
}

/// The refusal of a request that isn't authentic.
fn denied(denial: Denial) -> Refusal
    ensures { result ≡ denied denial }
{
    match denial {
        Denial::BadRequest => Refusal::BadRequest,
        Denial::Unauthenticated | Denial::StaleNonce => Refusal::Unauthenticated,
    }
}

/// What a Binding request is.
fn requested(session: &Session<'_>, base: u32, from: Endpoint, message: &Message<'_>) -> Judged
    requires request { class_of (type_field (message_bytes message.now)) ≡ Request }
    requires fingerprint { is_fingerprinted (message_bytes message.now) ≡ true }
    ensures { result ≡ requested (logins_of session.now) base from (message_bytes message.now) }
{
    match authenticate(session, message) {
        Ok(algorithm) => accepted(base, from, message, algorithm),
        Err(denial) => Judged::Refused {
            id: message.transaction_id().value(),
            refusal: denied(denial),
            signed_by: None,
        },
    }
}

/// A check that this agent has sent.
fn pending(id: TransactionId) -> PendingRequest
    ensures { result ≡ pending id }
{
    PendingRequest {
        transport: TransportType::Udp,
        method: BINDING,
        id,
        signed: Signed {
            sha1: true,
            sha256: false,
        },
        mechanism: Some(ShortTerm),
        usage: ResponsePolicy {
            min_hmac_length: 32,
            fingerprint: true,
        },
    }
}

/// What a success response is that is the peer's.
fn success(message: &Message<'_>) -> Judged
    ensures { result ≡ success (message_bytes message.now) }
{
    let id = message.transaction_id().value();
    match mapped_in(message) {
        Some(mapped) => Judged::Responds {
            id,
            answer: Answer::Accepted,
            mapped: Some(mapped),
        },
        None => Judged::Strays { id },
    }
}

/// What a response is, by what it is for its check.
fn answered(message: &Message<'_>, received: &Received<'_>) -> Judged
    ensures { result ≡ answered (message_bytes message.now) (outcome_of received.now) }
{
    let id = message.transaction_id().value();
    match received {
        Received::Success(_, _) => success(message),
        Received::Error(_, code, _) => Judged::Responds {
            id,
            answer: Answer::Refused(*code),
            mapped: None,
        },
        _ => Judged::Strays { id },
    }
}

/// What a response to a check to this peer is.
fn responded_by(peer: &Credentials<'_>, message: &Message<'_>) -> Judged
    ensures { result ≡ responded_by (login_of peer.now) (message_bytes message.now) }
{
    let pending = pending(message.transaction_id());
    let received = pending.judge(Some(peer.key), *message, understood());
    answered(message, &received)
}

/// What a Binding response is.
fn responded<W: AwaitedChecks>(session: &Session<'_>, awaited: &W, message: &Message<'_>) -> Judged
    ensures { result ≡ responded (logins_of session.now) (W.is_awaited awaited.now) (message_bytes message.now) }
{
    let id = message.transaction_id().value();
    if !awaited.awaits(id) {
        return Judged::Strays { id };
    }
    match &session.peer {
        Some(peer) => responded_by(peer, message),
        None => Judged::Strays { id },
    }
}

/// What a STUN message with a FINGERPRINT is.
fn judge_message<W: AwaitedChecks>(
    session: &Session<'_>,
    awaited: &W,
    base: u32,
    from: Endpoint,
    message: &Message<'_>,
) -> Judged
    requires { is_fingerprinted (message_bytes message.now) ≡ true }
    ensures { result
        ≡ message_judged (logins_of session.now) (W.is_awaited awaited.now) base from (message_bytes message.now) }
{
    let id = message.transaction_id().value();
    if !message.has_method(BINDING) {
        return Judged::Strays { id };
    }
    match message.class() {
        MessageClass::Request => requested(session, base, from, message),
        MessageClass::Indication => Judged::Strays { id },
        MessageClass::Success | MessageClass::Error => responded(session, awaited, message),
    }
}

/// Judges a datagram that an agent receives at the base with a number, from an address: returns the event of
/// `ice_machine` that it is. The first of these rows that applies:
///
/// 1. It is no STUN message, or shows no FINGERPRINT: [`Judged::Arrives`].
/// 2. It is an indication, or has another method than Binding: [`Judged::Strays`].
/// 3. It is a response to a check that a response is waited for; it shows no type below 0x8000 but those of
///    [`UNDERSTOOD`](crate::UNDERSTOOD); its MESSAGE-INTEGRITY is right under the peer's key; and it is a
///    success response with an XOR-MAPPED-ADDRESS, or an error response with a code: [`Judged::Responds`].
/// 4. It is another response: [`Judged::Strays`].
/// 5. It is a request without an integrity attribute or without USERNAME: [`Judged::Refused`] with 400.
/// 6. [`Session::is_named`] is `false` of its USERNAME, or its HMAC isn't right under this agent's key:
///    [`Judged::Refused`] with 401.
/// 7. It shows a type below 0x8000 that isn't one of those: [`Judged::Refused`] with 420, signed.
/// 8. It shows no PRIORITY, or not exactly one of ICE-CONTROLLING and ICE-CONTROLLED, or one of their values
///    has another length: [`Judged::Refused`] with 400, signed.
/// 9. Otherwise: [`Judged::Checks`].
///
/// It takes no memory, and computes at most one HMAC.
///
/// # Examples
///
/// ```
/// use ice_attrs::Ufrag;
/// use ice_checks::{Credentials, Judged, Session, judge};
/// use ice_machine::{Request, Role};
/// use stun_endpoints::{Endpoint, Ip};
/// use stun_types::message::IntegrityKey;
///
/// let key = IntegrityKey::new(alloc, b"VOkJxbRl1RmTxUk/WvJxBt", None)?;
/// let own = Credentials { fragment: Ufrag::new("evtj").ok_or("no fragment")?, key: &key };
/// let session = Session { own, peer: None };
/// let from = Endpoint { ip: Ip { family: 1, number: 0xC000_0201 }, port: 32853 };
/// let none: &[Request] = &[];
/// // The check of section 2.1 of RFC 5769.
/// let check = b"\x00\x01\x00\x58\x21\x12\xA4\x42\xB7\xE7\xA7\x01\xBC\x34\xD6\x86\xFA\x87\xDF\xAE\
///     \x80\x22\x00\x10STUN test client\x00\x24\x00\x04\x6E\x00\x01\xFF\
///     \x80\x29\x00\x08\x93\x2F\xF9\xB1\x51\x26\x3B\x36\x00\x06\x00\x09evtj:h6vY   \
///     \x00\x08\x00\x14\x9A\xEA\xA7\x0C\xBF\xD8\xCB\x56\x78\x1E\xF2\xB5\xB2\xD3\xF2\x49\
///     \xC1\xB5\x71\xA2\x80\x28\x00\x04\xE5\x7A\x3B\xCF";
/// let Judged::Checks { check, .. } = judge(&session, &none, 1, from, check) else {
///     return Err("no check".into());
/// };
/// assert!(rt; check.role == Role::Controlled && check.priority == 0x6E00_01FF && !check.nominates);
/// // Data of the user.
/// assert_eq!(rt; judge(&session, &none, 1, from, b"data"), Judged::Arrives);
/// ```
pub fn judge<W: AwaitedChecks>(
    session: &Session<'_>,
    awaited: &W,
    base: u32,
    from: Endpoint,
    datagram: &[u8],
) -> Judged
    ensures { result ≡ judge (logins_of session.now) (W.is_awaited awaited.now) base from datagram.now }
{
    match Message::from_bytes(datagram) {
        Ok(message) if message.has_attribute(Fingerprint::TYPE) => {
            judge_message(session, awaited, base, from, &message)
        }
        _ => Judged::Arrives,
    }
}
