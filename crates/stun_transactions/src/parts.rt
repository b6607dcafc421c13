//! The parts of a transaction.

use crate::guard::Signed;
use crate::plan::Plan;
use crate::response_policy::ResponsePolicy;
use crate::retransmission::RetransmissionState;
use stun_types::TransportType;
use stun_types::message::{Method, TransactionId};
use thiserror::Error;

/// A mechanism by which credentials protect requests (RFC 8489, section 9).
#[derive(Clone, Copy, Debug, PartialEq, Eq)]
pub enum Mechanism {
    /// The request is protected by a short-term credential (section 9.1).
    ShortTerm,
    /// The request is the first of the long-term mechanism, which is sent without the credential
    /// (section 9.2.3.1).
    FirstLongTerm,
    /// The request is protected by a long-term credential (section 9.2).
    LongTerm,
}

/// Why parts and a key make no transaction.
#[derive(Clone, Copy, Debug, PartialEq, Eq, Error)]
pub enum PartsError {
    /// A credential protects the request and it shows no integrity attribute, or none that the key
    /// of a short-term credential works with; or none does and it shows one.
    #[error("the request is signed otherwise than it is protected")]
    SignedOtherwise,
    /// The request was sent more often than the schedule says.
    #[error("the request was sent too often")]
    SentTooOften,
    /// The request was last sent (`last`) after the latest moment of a call (`clock`).
    #[error("the request was sent after the latest moment")]
    SentTooLate,
    /// A credential protects the request, and there is no key.
    #[error("there is no key")]
    NoKey,
    /// No credential protects the request, and there is a key.
    #[error("there is no use for a key")]
    NoUseForKey,
    /// The key of a long-term credential was made for one algorithm; `IntegrityKey::for_both` makes
    /// it one for both (RFC 8489, section 9.2.5).
    #[error("the long-term key is for one algorithm")]
    KeyForOneAlgorithm,
}

/// A transaction without its key: what it was begun with, and how far it has come, for a caller
/// that stores it in its own representation.
#[derive(Clone, Copy, Debug, PartialEq, Eq)]
pub struct TransactionParts {
    /// The schedule and the transport by which the request is sent.
    pub plan: Plan,
    /// The method of the request.
    pub method: Method,
    /// The transaction ID of the request.
    pub id: TransactionId,
    /// The integrity attributes that the request shows.
    pub signed: Signed,
    /// The credential mechanism in use, if one is.
    pub mechanism: Option<Mechanism>,
    /// The requirements of the STUN usage on responses.
    pub usage: ResponsePolicy,
    /// How far the transaction has come.
    pub state: RetransmissionState,
}

/// A request that awaits its response: what [`PendingRequest::judge`] needs of it. It has no
/// schedule, for a caller that sends its requests by rules of its own.
#[derive(Clone, Copy, Debug, PartialEq, Eq)]
pub struct PendingRequest {
    /// The transport by which the request was sent.
    pub transport: TransportType,
    /// The method of the request.
    pub method: Method,
    /// The transaction ID of the request.
    pub id: TransactionId,
    /// The integrity attributes that the request shows.
    pub signed: Signed,
    /// The credential mechanism in use, if one is.
    pub mechanism: Option<Mechanism>,
    /// The requirements of the STUN usage on responses.
    pub usage: ResponsePolicy,
}

impl TransactionParts {
    ghost use Rattle.std.specs.Prelude.{◌≡◌};
    ghost use Rattle.stun_transactions.specs.Parts.{pending};

    /// Returns the request of the transaction, as [`PendingRequest::judge`] needs it.
    pub fn pending(&self) -> PendingRequest
        ensures { result ≡ pending self.now }
    {
        PendingRequest {
            transport: self.plan.transport,
            method: self.method,
            id: self.id,
            signed: self.signed,
            mechanism: self.mechanism,
            usage: self.usage,
        }
    }
}
