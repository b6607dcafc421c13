//! What a received message is for a transaction.

ghost use Rattle.std.specs.Prelude.{◌≡◌};
ghost use Rattle.stun_types.specs.Message.{message_bytes};
ghost use Rattle.stun_transactions.specs.Outcomes.{outcome_of, Holds};

use stun_types::attribute::AttributeType;
use stun_types::message::{IntegrityAlgorithm, Message};

/// Why a response was discarded, as if it had never been received.
#[derive(Clone, Copy, Debug, PartialEq, Eq)]
pub enum Discard {
    /// The response isn't authentic (RFC 8489, sections 9.1.4 and 9.2.5).
    NotAuthentic,
    /// The response is signed, but by no algorithm by which the request was signed, to a request
    /// that a short-term credential protects (RFC 8489, section 9.1.4).
    OtherAlgorithm,
    /// The nonce of the response promises PASSWORD-ALGORITHMS, and it shows none, to a request by
    /// the long-term mechanism: an attacker may have removed it. A 401 or a 438 is not discarded
    /// for this reason (RFC 8489, section 9.2.5).
    BidDown,
    /// The response is an error response with the code 400 and with no integrity attribute, to a
    /// request by the long-term mechanism (RFC 8489, section 9.2.5).
    UnsignedBadRequest,
    /// The response shows no FINGERPRINT, and the usage sends them (RFC 8489, sections 6.3 and 7).
    NoFingerprint,
}

/// The claim of a response that isn't taken. It isn't authentic: whoever can send the client a
/// message may have written it. It may explain to a person why an exchange doesn't go on; nothing
/// else follows from it, and a claimed 300 is never followed (RFC 8489, section 14.8).
#[derive(Clone, Copy, Debug, PartialEq, Eq)]
pub struct Claim {
    /// The code of the response, of 300 to 699, if it is an error response that has one.
    pub code: Option<u16>,
}

/// Why a response ended its transaction, though it wasn't taken.
#[derive(Clone, Copy, Debug, PartialEq, Eq)]
pub enum Failure {
    /// The response isn't authentic, and came over a reliable transport (RFC 8489, sections 9.1.4
    /// and 9.2.5).
    IntegrityViolated(Claim),
    /// The response shows an attribute of this type, which must be understood and isn't (RFC 8489,
    /// sections 6.3.3 and 6.3.4).
    UnknownAttribute(AttributeType),
    /// The response is an error response without an ERROR-CODE of 300 to 699 that can be read (RFC
    /// 8489, section 6.3.4).
    NoErrorCode,
}

/// The kinds of [`Received`], without the message.
#[derive(Clone, Copy, Debug, PartialEq, Eq)]
pub enum Outcome {
    /// The message isn't for the transaction, as [`Received::NotForThis`].
    NotForThis,
    /// The response is discarded, as [`Received::Discarded`].
    Discarded(Discard, Claim),
    /// The response ends the transaction, as [`Received::Failed`].
    Failed(Failure),
    /// The message is the success response, as [`Received::Success`].
    Success(Option<IntegrityAlgorithm>),
    /// The message is the error response, as [`Received::Error`].
    Error(u16, Option<IntegrityAlgorithm>),
}

/// The result of passing a received message to a transaction.
///
/// A response comes with the algorithm of the integrity attribute that authenticates it: later
/// requests to the same server are signed by this one (RFC 8489, sections 9.1.5 and 9.2.3.2). It is
/// `None` if no credential protects the request, and for a 401 or 438 under a long-term credential
/// that isn't authentic.
#[derive(Clone, Copy, Debug)]
pub enum Received<'m> {
    /// The bytes are no message, or no response to the request, or the request wasn't sent yet, or
    /// the transaction has ended.
    NotForThis,
    /// The response is discarded, and the transaction goes on.
    Discarded(Discard, Claim),
    /// The response ends the transaction, which has failed.
    Failed(Failure),
    /// The message is the success response; the algorithm is the one that authenticates it, if any
    /// does.
    Success(Message<'m>, Option<IntegrityAlgorithm>),
    /// The message is the error response; the code, of 300 to 699, is that of its ERROR-CODE, and
    /// the algorithm the one that authenticates it, if any does. A 300 (Try Alternate) that nothing
    /// authenticates must not be followed (RFC 8489, sections 10 and 14.8).
    Error(Message<'m>, u16, Option<IntegrityAlgorithm>),
}

/// An outcome with the message that has it.
pub(crate) fn with_message<'m>(outcome: Outcome, message: Message<'m>) -> Received<'m>
    ensures outcome { outcome_of result ≡ outcome }
    ensures message { Holds result (message_bytes message.entry) }
{
    match outcome {
        Outcome::NotForThis => Received::NotForThis,
        Outcome::Discarded(reason, claim) => Received::Discarded(reason, claim),
        Outcome::Failed(failure) => Received::Failed(failure),
        Outcome::Success(proof) => Received::Success(message, proof),
        Outcome::Error(code, proof) => Received::Error(message, code, proof),
    }
}
