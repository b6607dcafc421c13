//! How a request is protected, and which responses that keeps out.

ghost use Rattle.std.specs.Prelude.{◌≡◌};
ghost use Rattle.stun_types.specs.Message.{message_bytes};
ghost use Rattle.stun_authentication.specs.Policies.{proved_at};
ghost use Rattle.stun_keys.specs.Keys.{key_algorithm};
ghost use Rattle.stun_transactions.specs.Guards.{signed_by, is_signed, is_signed_for, signs_by, have_common, validated, matched_by, short_term_fault, long_term_fault};

use crate::parts::{Mechanism, PendingRequest};
use crate::received::Discard;
use std::alloc::Global;
use stun_authentication::{has_least_length, is_bid_down, is_challenge, response_code};
use stun_types::attribute::{
    AttributeStaticType, ErrorCode, MessageIntegrity, MessageIntegritySha256,
};
use stun_types::message::{IntegrityAlgorithm, IntegrityKey, Message, StunWriteError};

/// The credential mechanism that protects a request, and its key (RFC 8489, section 9).
#[derive(Debug, Drop)]
pub enum Protection {
    /// The request isn't signed, and no response is validated.
    Unprotected,
    /// The request is the first one of a client that uses the long-term mechanism: it isn't signed
    /// (section 9.2.3.1), and no response is validated. A response is discarded whose nonce
    /// promises PASSWORD-ALGORITHMS and that shows none, and so is a 400 with no integrity
    /// attribute (section 9.2.5).
    FirstLongTerm,
    /// The request is signed by a short-term credential (section 9.1). A key that was made for one
    /// algorithm signs and validates by that algorithm's attribute alone, a key with no algorithm by
    /// either.
    ShortTerm(IntegrityKey),
    /// The request is signed by a long-term credential (section 9.2). A response validates by
    /// either attribute (section 9.2.5), so the key works with both algorithms, as
    /// [`IntegrityKey::for_both`] makes it.
    LongTerm(IntegrityKey),
}

/// The integrity attributes that a request shows.
#[derive(Clone, Copy, Debug, PartialEq, Eq)]
pub struct Signed {
    /// Whether the request shows a MESSAGE-INTEGRITY.
    pub sha1: bool,
    /// Whether the request shows a MESSAGE-INTEGRITY-SHA256.
    pub sha256: bool,
}

impl Signed {
    /// Whether there is one.
    pub(crate) fn is_signed(self) -> bool
        ensures { result ≡ is_signed self }
    {
        self.sha1 || self.sha256
    }

    /// Whether there is one that a key works with.
    pub(crate) fn is_signed_for(self, key: &IntegrityKey) -> bool
        ensures { result ≡ is_signed_for (key_algorithm key.now) self }
    {
        (self.sha1 && key.serves(IntegrityAlgorithm::Sha1))
            || (self.sha256 && key.serves(IntegrityAlgorithm::Sha256))
    }

    /// Whether there is that of an algorithm.
    fn signs_by(self, algorithm: IntegrityAlgorithm) -> bool
        ensures { result ≡ signs_by self algorithm }
    {
        match algorithm {
            IntegrityAlgorithm::Sha1 => self.sha1,
            IntegrityAlgorithm::Sha256 => self.sha256,
        }
    }

    /// Whether there is one that both show.
    fn have_common(self, other: Signed) -> bool
        ensures { result ≡ have_common self other }
    {
        (self.sha1 && other.sha1) || (self.sha256 && other.sha256)
    }

    /// An algorithm, if there is its attribute.
    fn matched_by(self, proof: Option<IntegrityAlgorithm>) -> Option<IntegrityAlgorithm>
        ensures { result ≡ matched_by self proof }
    {
        match proof {
            Some(algorithm) if self.signs_by(algorithm) => proof,
            _ => None,
        }
    }
}

/// Which integrity attributes a message shows.
pub(crate) fn signed_by(message: &Message<'_>) -> Signed
    ensures { result ≡ signed_by (message_bytes message.now) }
{
    Signed {
        sha1: message.has_attribute(MessageIntegrity::TYPE),
        sha256: message.has_attribute(MessageIntegritySha256::TYPE),
    }
}

/// The algorithm whose HMAC in a message is right under a key, and has enough bytes.
fn proved_by(
    key: &IntegrityKey,
    min_hmac_length: usize,
    message: &Message<'_>,
) -> Option<IntegrityAlgorithm>
    ensures { let d = message_bytes message.now in
        result ≡ proved_at min_hmac_length d (validated key.now d) }
{
    match message.validate_integrity_with_key(key) {
        Ok(algorithm) if has_least_length(min_hmac_length, algorithm, message) => Some(algorithm),
        _ => None,
    }
}

/// Why a response to a request that a short-term credential protects is discarded.
fn short_term_fault(authentic: bool, signed: Signed, message: &Message<'_>) -> Option<Discard>
    ensures { result ≡ short_term_fault authentic signed (message_bytes message.now) }
{
    if authentic {
        return None;
    }
    let shown = signed_by(message);
    if shown.is_signed() && !signed.have_common(shown) {
        Some(Discard::OtherAlgorithm)
    } else {
        Some(Discard::NotAuthentic)
    }
}

/// Why a response to a request by the long-term mechanism is discarded.
fn long_term_fault(authentic: bool, message: &Message<'_>) -> Option<Discard>
    ensures { result ≡ long_term_fault authentic (message_bytes message.now) }
{
    if is_challenge(message) {
        return None;
    }
    if is_bid_down(message) {
        return Some(Discard::BidDown);
    }
    if response_code(message) == Some(ErrorCode::BAD_REQUEST) && !signed_by(message).is_signed() {
        return Some(Discard::UnsignedBadRequest);
    }
    if authentic {
        None
    } else {
        Some(Discard::NotAuthentic)
    }
}

impl Protection {
    ghost use Rattle.std.specs.Prelude.{◌≡◌, true, IfErr, OnOk};
    ghost use Rattle.stun_transactions.specs.Guards.{mechanism_of, key_of, HasSameKey, has_prepared_key};

    /// By which mechanism the request is protected, if by one, and with which key.
    pub(crate) fn into_parts(self) -> (Option<Mechanism>, Option<IntegrityKey>)
        ensures mechanism { result.0 ≡ mechanism_of self }
        ensures key { result.1 ≡ key_of self }
    {
        match self {
            Protection::Unprotected => (None, None),
            Protection::FirstLongTerm => (Some(Mechanism::FirstLongTerm), None),
            Protection::ShortTerm(key) => (Some(Mechanism::ShortTerm), Some(key)),
            Protection::LongTerm(key) => (Some(Mechanism::LongTerm), Some(key)),
        }
    }

    /// Prepares the key, if there is one and it isn't prepared ([`IntegrityKey::prepare`]), with
    /// memory from `alloc`: its HMACs are then faster. Nothing else changes.
    ///
    /// # Errors
    ///
    /// `OutOfMemory` alone. The protection works as before.
    ///
    /// # Examples
    ///
    /// ```
    /// use stun_transactions::Protection;
    /// use stun_types::message::IntegrityKey;
    ///
    /// let key = IntegrityKey::new(alloc, b"VOkJxbRl1RmTxUk/WvJxBt", None)?;
    /// let mut protection = Protection::ShortTerm(key);
    /// assert_eq!(rt; protection.prepare(alloc), Ok(()));
    /// ```
    pub fn prepare(&mut self, alloc: Global) -> Result<(), StunWriteError>
        ensures mechanism { mechanism_of self.new ≡ mechanism_of self.old }
        ensures key { HasSameKey (key_of self.old) (key_of self.new) }
        ensures prepared { OnOk result (has_prepared_key (key_of self.new) ≡ true) }
        ensures err { IfErr result (λ e. e ≡ StunWriteError.OutOfMemory) }
    {
        match self {
            Protection::Unprotected | Protection::FirstLongTerm => Ok(()),
            Protection::ShortTerm(key) => key.prepare(alloc),
            Protection::LongTerm(key) => key.prepare(alloc),
        }
    }
}

impl PendingRequest {
    ghost use Rattle.std.specs.Prelude.{◌≡◌, option_copied};
    ghost use Rattle.stun_types.specs.Message.{message_bytes};
    ghost use Rattle.stun_transactions.specs.Guards.{proof_of, mechanism_fault, response_fault};

    /// The algorithm of the attribute that authenticates a response, if one does.
    pub(crate) fn proof_of(
        &self,
        key: Option<&IntegrityKey>,
        message: &Message<'_>,
    ) -> Option<IntegrityAlgorithm>
        ensures { result ≡ proof_of self.now.mechanism (option_copied key.entry) self.now.usage
            self.now.signed (message_bytes message.now) }
    {
        match (self.mechanism, key) {
            (Some(Mechanism::ShortTerm), Some(key)) => {
                let proof = proved_by(key, self.usage.min_hmac_length, message);
                self.signed.matched_by(proof)
            }
            (Some(Mechanism::LongTerm), Some(key)) => {
                proved_by(key, self.usage.min_hmac_length, message)
            }
            _ => None,
        }
    }

    /// Why a response is discarded, that is authentic or not.
    fn mechanism_fault(&self, authentic: bool, message: &Message<'_>) -> Option<Discard>
        ensures { result ≡ mechanism_fault self.now.mechanism authentic self.now.signed
            (message_bytes message.now) }
    {
        match self.mechanism {
            None => None,
            Some(Mechanism::FirstLongTerm) => long_term_fault(true, message),
            Some(Mechanism::ShortTerm) => short_term_fault(authentic, self.signed, message),
            Some(Mechanism::LongTerm) => long_term_fault(authentic, message),
        }
    }

    /// Why a response is discarded, that is authentic or not: by the usage, or by the mechanism.
    pub(crate) fn response_fault(&self, authentic: bool, message: &Message<'_>) -> Option<Discard>
        ensures { result ≡ response_fault self.now.mechanism authentic self.now.usage self.now.signed
            (message_bytes message.now) }
    {
        if self.usage.lacks_fingerprint(message) {
            return Some(Discard::NoFingerprint);
        }
        self.mechanism_fault(authentic, message)
    }
}
