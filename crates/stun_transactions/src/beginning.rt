//! How a transaction begins.

ghost use Rattle.std.specs.Prelude.{◌≡◌, None, Some, MatchResult};
ghost use Rattle.stun_base.specs.MessageTypes.{class_of};
ghost use Rattle.stun_grammar.specs.Headers.{type_field};
ghost use Rattle.stun_types.specs.Message.{message_bytes};
ghost use Rattle.stun_transactions.specs.Guards.{signed_by, signs};
ghost use Rattle.stun_transactions.specs.Beginning.{request_fault, misfit};

use crate::guard::{Signed, signed_by};
use crate::parts::{Mechanism, PartsError, TransactionParts};
use crate::plan::Plan;
use crate::response_policy::ResponsePolicy;
use crate::retransmission::RetransmissionState;
use std::time::Duration;
use stun_types::message::{Message, MessageClass};
use thiserror::Error;

/// Why a transaction doesn't begin.
///
/// # Examples
///
/// ```
/// use std::time::Duration;
/// use stun_transactions::{BeginError, Protection, Schedule, Transaction, ResponsePolicy};
/// use stun_types::TransportType;
/// use stun_types::message::{IntegrityKey, Message};
///
/// // As `Message::builder_request` wrote it, with an ID that it drew.
/// let request = Message::from_bytes(
///     b"\x00\x01\x00\x00\x21\x12\xA4\x42\xB7\xE7\xA7\x01\xBC\x34\xD6\x86\xFA\x87\xDF\xAE",
/// )?;
/// let (schedule, usage) = (Schedule::new_default(), ResponsePolicy::default());
/// let (udp, open, start) = (TransportType::Udp, Protection::Unprotected, Duration::ZERO);
/// let transaction = Transaction::new(&request, schedule, udp, open, usage, start)?;
/// assert!(rt; transaction.is_ready(start));
/// // This request isn't signed, so no credential protects it.
/// let key = IntegrityKey::new(alloc, b"VOkJxbRl1RmTxUk/WvJxBt", None)?;
/// let protection = Protection::ShortTerm(key);
/// let begun = Transaction::new(&request, schedule, udp, protection, usage, start);
/// assert_eq!(rt; begun.err(), Some(BeginError::NotSigned));
/// ```
#[derive(Clone, Copy, Debug, PartialEq, Eq, Error)]
pub enum BeginError {
    /// The message that is to be sent is no request.
    #[error("the message is no request")]
    NotARequest,
    /// A credential is to protect the request, but it shows no integrity attribute, or none that
    /// the key of a short-term credential works with.
    #[error("the request isn't signed")]
    NotSigned,
    /// No credential is to protect the request, but it shows an integrity attribute.
    #[error("the request is signed")]
    Signed,
    /// The key of a long-term credential was made for one integrity algorithm, and a response may be
    /// signed by either (RFC 8489, section 9.2.5); `IntegrityKey::for_both` makes it one for both.
    #[error("the long-term key is for one algorithm")]
    KeyForOneAlgorithm,
}

/// The error of a request that isn't that of a key.
pub(crate) fn misfit(error: PartsError) -> BeginError
    ensures { result ≡ misfit error }
{
    match error {
        PartsError::KeyForOneAlgorithm => BeginError::KeyForOneAlgorithm,
        _ => BeginError::NotSigned,
    }
}

/// Whether a credential protects a request by this mechanism, or by none.
fn signs(mechanism: Option<Mechanism>) -> bool
    ensures { result ≡ signs mechanism }
{
    matches!(mechanism, Some(Mechanism::ShortTerm | Mechanism::LongTerm))
}

/// Which integrity attributes a request shows, if it is one, and is signed exactly if a credential
/// protects it.
fn check_request(request: &Message<'_>, signs: bool) -> Result<Signed, BeginError>
    ensures { let r = message_bytes request.now in MatchResult result
        (λ signed. (request_fault signs r ≡ None) × (signed ≡ signed_by r))
        (λ e. request_fault signs r ≡ Some e) }
{
    let signed = signed_by(request);
    if !request.has_class(MessageClass::Request) {
        return Err(BeginError::NotARequest);
    }
    match (signs, signed.is_signed()) {
        (true, false) => Err(BeginError::NotSigned),
        (false, true) => Err(BeginError::Signed),
        (true, true) | (false, false) => Ok(signed),
    }
}

impl TransactionParts {
    ghost use Rattle.std.specs.Prelude.{◌≡◌, None, Some, MatchResult};
    ghost use Rattle.stun_types.specs.Message.{message_bytes};
    ghost use Rattle.stun_transactions.specs.Beginning.{request_fault, request_parts};
    ghost use Rattle.stun_transactions.specs.Guards.{signs};
    ghost use Rattle.stun_transactions.specs.Retransmissions.{begun};

    /// Returns the parts of a transaction that begins now, of a request that a credential mechanism
    /// protects, or none. [`Transaction::new`](crate::Transaction::new) begins one with its key.
    ///
    /// # Errors
    ///
    /// The first of these that applies: `NotARequest` if the message has another class; `NotSigned`
    /// if a credential is to protect it and it shows no integrity attribute, `Signed` if none is to
    /// and it shows one. [`TransactionParts::check_key`] tests the key.
    ///
    /// # Examples
    ///
    /// ```
    /// use std::time::Duration;
    /// use stun_transactions::{Action, Plan, ResponsePolicy, Schedule, TransactionParts};
    /// use stun_types::TransportType;
    /// use stun_types::message::Message;
    ///
    /// // As `Message::builder_request` wrote it, with an ID that it drew.
    /// let request = Message::from_bytes(
    ///     b"\x00\x01\x00\x00\x21\x12\xA4\x42\xB7\xE7\xA7\x01\xBC\x34\xD6\x86\xFA\x87\xDF\xAE",
    /// )?;
    /// let plan = Plan { schedule: Schedule::new_default(), transport: TransportType::Udp };
    /// let (usage, start) = (ResponsePolicy::default(), Duration::ZERO);
    /// let mut parts = TransactionParts::new(&request, plan, None, usage, start)?;
    /// assert_eq!(rt; parts.poll(start), Action::Send);
    /// ```
    pub fn new(
        request: &Message<'_>,
        plan: Plan,
        mechanism: Option<Mechanism>,
        usage: ResponsePolicy,
        now: Duration,
    ) -> Result<TransactionParts, BeginError>
        ensures { let r = message_bytes request.now in MatchResult result
            (λ parts. (request_fault (signs mechanism) r ≡ None)
            × (parts ≡ request_parts r plan mechanism usage (begun now)))
            (λ e. request_fault (signs mechanism) r ≡ Some e) }
    {
        let signed = check_request(request, signs(mechanism))?;
        Ok(TransactionParts {
            plan,
            method: request.method(),
            id: request.transaction_id(),
            signed,
            mechanism,
            usage,
            state: RetransmissionState::new(now),
        })
    }
}
