//! What a server answers to a request that it authenticates.

ghost use Rattle.std.specs.Prelude.{◌≡◌};
ghost use Rattle.stun_base.specs.MessageTypes.{class_of};
ghost use Rattle.stun_grammar.specs.Headers.{type_field};
ghost use Rattle.stun_types.specs.Message.{message_bytes};
ghost use Rattle.stun_authentication.specs.Answers.{Tells, rejected, refusal_code};

use crate::Identity;
use stun_types::attribute::ErrorCode;
use stun_types::message::{IntegrityAlgorithm, IntegrityKey, Message, MessageClass};

/// A message that was authenticated: its user, the user's key, and the algorithm by which its reply is
/// signed.
#[derive(Debug, Drop)]
pub struct Accepted<'a> {
    /// The user whose key it is: the value of the USERNAME or the USERHASH, borrowed from the bytes of
    /// the message. [`Identity`] says how to keep it for longer.
    pub user: Identity<'a>,
    /// The key of the user, as the look-up returned it: the reply is signed with it.
    pub key: IntegrityKey,
    /// The algorithm whose HMAC in the message was right.
    pub algorithm: IntegrityAlgorithm,
    /// The algorithm that the reply is signed by.
    pub reply_algorithm: IntegrityAlgorithm,
}

/// Why a request is refused, as the code of the error response.
///
/// # Examples
///
/// ```
/// use stun_authentication::Refusal;
///
/// assert_eq!(rt; Refusal::StaleNonce.code(), 438);
/// assert_eq!(rt; Refusal::StaleNonce.reason(), "Stale Nonce");
/// ```
#[derive(Clone, Copy, Debug, PartialEq, Eq)]
pub enum Refusal {
    /// 400 (Bad Request): an attribute is missing, USERNAME and USERHASH are both there, or the
    /// password algorithm isn't one that was offered.
    BadRequest,
    /// 401 (Unauthenticated): the request isn't signed, or its user is unknown, or its HMAC is
    /// wrong.
    Unauthenticated,
    /// 438 (Stale Nonce): the nonce isn't valid.
    StaleNonce,
}

impl Refusal {
    ghost use Rattle.std.specs.Prelude.{◌≡◌};
    ghost use Rattle.stun_authentication.specs.Answers.{refusal_code, refusal_reason};

    /// Returns the code of the error response: 400, 401 or 438.
    pub fn code(self) -> u16
        ensures { result ≡ refusal_code self }
    {
        match self {
            Refusal::BadRequest => ErrorCode::BAD_REQUEST,
            Refusal::Unauthenticated => ErrorCode::UNAUTHORIZED,
            Refusal::StaleNonce => ErrorCode::STALE_NONCE,
        }
    }

    /// Returns the reason phrase of RFC 8489, section 14.8. That of 401 isn't
    /// `ErrorCode::default_reason_for_code(401)`, which is the one of RFC 5389.
    pub fn reason(self) -> &'static str
        ensures { result.now ≡ refusal_reason self }
    {
        match self {
            Refusal::BadRequest => "Bad Request",
            Refusal::Unauthenticated => "Unauthenticated",
            Refusal::StaleNonce => "Stale Nonce",
        }
    }
}

/// The result of authenticating a message at a server.
#[derive(Debug, Drop)]
pub enum Authentication<'a> {
    /// The message is authentic, and comes from this user.
    Accepted(Accepted<'a>),
    /// The request is refused by an error response, which isn't signed.
    Refused(Refusal),
    /// The message is dropped, and nothing is answered.
    Discarded,
    /// The message is one that the mechanism doesn't authenticate at a server: a response, and
    /// under long-term credentials an indication (RFC 8489, section 9.2). The usage decides about
    /// it: a TURN server checks a Send indication by the allocation of its source (RFC 8656,
    /// section 11.2).
    NotARequest,
}

/// How a message is rejected: a request by an error response, and any other silently.
pub(crate) fn rejected<'a>(message: &Message<'a>, refusal: Refusal) -> Authentication<'a>
    ensures { Tells (rejected (class_of (type_field (message_bytes message.now))) refusal) result }
{
    match message.class() {
        MessageClass::Request => Authentication::Refused(refusal),
        _ => Authentication::Discarded,
    }
}
