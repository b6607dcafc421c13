//! What a message is for a transaction.

ghost use Rattle.std.specs.Prelude.{◌≡◌, ◌+◌, ◌<◌, option_copied};
ghost use Rattle.stun_base.specs.MessageTypes.{class_of};
ghost use Rattle.stun_grammar.specs.Headers.{type_field};
ghost use Rattle.stun_grammar.specs.ScannedOrder.{has};
ghost use Rattle.stun_types.specs.Message.{message_bytes};
ghost use Rattle.stun_transactions.specs.Responses.{own_types, first_unknown};
ghost use Rattle.stun_transactions.specs.Receiving.{judged, content, content_by_class, claim_of, discarded};

use crate::parts::PendingRequest;
use crate::received::{Claim, Discard, Failure, Outcome, Received, with_message};
use stun_authentication::{response_code, shown_code};
use stun_types::TransportType;
use stun_types::attribute::{AttributeType, KNOWN};
use stun_types::message::write::is_among;
use stun_types::message::{IntegrityAlgorithm, IntegrityKey, Message, MessageClass, UnknownTypes};
use stun_types::prelude::*;

/// Whether RFC 8489 defines this type, and it must be understood (section 18.3).
fn is_own(atype: AttributeType) -> bool
    ensures { result ≡ has atype.0 own_types }
{
    is_among(&KNOWN, atype)
}

/// The first type that a message shows, must be understood and isn't.
fn first_unknown(message: &Message<'_>, understood: &[AttributeType]) -> Option<AttributeType>
    ensures { result ≡ first_unknown understood.now (message_bytes message.now) }
{
    let mut unknown = UnknownTypes::new(message.as_bytes(), understood);
    'walk: while let Some(atype) = unknown.next() {
        if !is_own(atype) {
            return Some(atype);
        }
    }
    None
}

/// What a response that is taken is for its transaction, with the proof that it has.
fn content(
    proof: Option<IntegrityAlgorithm>,
    understood: &[AttributeType],
    message: &Message<'_>,
) -> Outcome
    ensures { result ≡ content proof understood.now (message_bytes message.now) }
{
    if let Some(atype) = first_unknown(message, understood) {
        return Outcome::Failed(Failure::UnknownAttribute(atype));
    }
    match message.class() {
        MessageClass::Error => match shown_code(message) {
            Some(code) => Outcome::Error(code, proof),
            None => Outcome::Failed(Failure::NoErrorCode),
        },
        _ => Outcome::Success(proof),
    }
}

/// What a response that isn't taken claims.
fn claim_of(message: &Message<'_>) -> Claim
    ensures { result ≡ claim_of (message_bytes message.now) }
{
    Claim {
        code: response_code(message),
    }
}

/// What a response that isn't taken is for its transaction.
fn discarded(transport: TransportType, claim: Claim, reason: Discard) -> Outcome
    ensures { result ≡ discarded transport claim reason }
{
    match (transport, reason) {
        (TransportType::Tcp, Discard::NotAuthentic) => {
            Outcome::Failed(Failure::IntegrityViolated(claim))
        }
        _ => Outcome::Discarded(reason, claim),
    }
}

/// What a message is for a request that awaits its response.
fn outcome(
    request: &PendingRequest,
    key: Option<&IntegrityKey>,
    understood: &[AttributeType],
    message: &Message<'_>,
) -> Outcome
    ensures { result ≡ judged request.now (option_copied key.entry) understood.now
        (message_bytes message.now) }
{
    if !request.is_answer(message) {
        return Outcome::NotForThis;
    }
    let proof = request.proof_of(key, message);
    match request.response_fault(proof.is_some(), message) {
        Some(reason) => discarded(request.transport, claim_of(message), reason),
        None => content(proof, understood, message),
    }
}

impl PendingRequest {
    ghost use Rattle.std.specs.Prelude.{◌≡◌, option_copied};
    ghost use Rattle.stun_types.specs.Message.{message_bytes};
    ghost use Rattle.stun_transactions.specs.Outcomes.{outcome_of, Holds};
    ghost use Rattle.stun_transactions.specs.Receiving.{answers, judged};

    /// Whether a message is a response with the method and the transaction ID of the request.
    fn is_answer(&self, message: &Message<'_>) -> bool
        ensures { result ≡ answers self.now (message_bytes message.now) }
    {
        message.is_response()
            && message.method() == self.method
            && message.transaction_id() == self.id
    }

    /// Returns what a received message is for the request: what
    /// [`Transaction::receive_message`](crate::Transaction::receive_message) of a transaction in
    /// progress returns. Nothing is changed, and no schedule is needed: the caller decides what
    /// ends the request.
    ///
    /// `key` is the key with which the request is protected, if it is. A response to a request that
    /// a credential protects is never taken without it, but for a 401 or 438 under a long-term
    /// credential. `understood` is as for [`Transaction::receive`](crate::Transaction::receive).
    ///
    /// # Examples
    ///
    /// ```
    /// use stun_transactions::{Discard, PendingRequest, Received, ResponsePolicy, Signed};
    /// use stun_types::TransportType;
    /// use stun_types::message::{BINDING, IntegrityKey, Message, TransactionId};
    /// use stun_transactions::Mechanism::ShortTerm;
    ///
    /// // The check of section 2.1 of RFC 5769, and its response of section 2.2.
    /// let request = PendingRequest {
    ///     transport: TransportType::Udp,
    ///     method: BINDING,
    ///     id: TransactionId::from(0xB7E7_A701_BC34_D686_FA87_DFAE),
    ///     signed: Signed { sha1: true, sha256: false },
    ///     mechanism: Some(ShortTerm),
    ///     usage: ResponsePolicy { fingerprint: true, ..ResponsePolicy::default() },
    /// };
    /// let response = Message::from_bytes(
    ///     b"\x01\x01\x00\x3C\x21\x12\xA4\x42\
    ///       \xB7\xE7\xA7\x01\xBC\x34\xD6\x86\xFA\x87\xDF\xAE\
    ///       \x80\x22\x00\x0Btest vector \
    ///       \x00\x20\x00\x08\x00\x01\xA1\x47\xE1\x12\xA6\x43\
    ///       \x00\x08\x00\x14\x2B\x91\xF5\x99\xFD\x9E\x90\xC3\x8C\x74\x89\xF9\
    ///       \x2A\xF9\xBA\x53\xF0\x6B\xE7\xD7\x80\x28\x00\x04\xC0\x7D\x4C\x96",
    /// )?;
    /// let key = IntegrityKey::new(alloc, b"VOkJxbRl1RmTxUk/WvJxBt", None)?;
    /// let taken = request.judge(Some(&key), response, &[]);
    /// assert!(rt; matches!(taken, Received::Success(_, Some(_))));
    /// // With the key of another user the response isn't authentic.
    /// let other = IntegrityKey::new(alloc, b"wonderland", None)?;
    /// let kept_out = request.judge(Some(&other), response, &[]);
    /// assert!(rt; matches!(kept_out, Received::Discarded(Discard::NotAuthentic, _)));
    /// ```
    pub fn judge<'m>(
        &self,
        key: Option<&IntegrityKey>,
        message: Message<'m>,
        understood: &[AttributeType],
    ) -> Received<'m>
        ensures outcome { outcome_of result ≡ judged self.now (option_copied key.entry)
            understood.now (message_bytes message.entry) }
        ensures message { Holds result (message_bytes message.entry) }
    {
        with_message(outcome(self, key, understood, &message), message)
    }
}
