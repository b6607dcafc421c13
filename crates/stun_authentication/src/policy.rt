//! Which messages a server takes, and which integrity attributes count for it.

ghost use Rattle.std.specs.Prelude.{◌≡◌};
ghost use Rattle.stun_types.specs.Message.{message_bytes};
ghost use Rattle.stun_keys.specs.Keys.{key_algorithm, key_bytes, IsKey};
ghost use Rattle.stun_authentication.specs.Policies.{has_least_length, common, shows_served, proved_at};
ghost use Rattle.stun_grammar.specs.Verdicts.{is_checked_type, verdict};

use stun_types::attribute::{
    AttributeStaticType, Fingerprint, MessageIntegrity, MessageIntegritySha256,
};
use stun_types::message::{IntegrityAlgorithm, IntegrityKey, Message};

/// The messages that a server takes, and the integrity attributes that count for it.
///
/// `Policy::default()` takes both algorithms, a MESSAGE-INTEGRITY-SHA256 of 32 bytes alone, and
/// messages without a FINGERPRINT.
///
/// # Examples
///
/// ```
/// use stun_authentication::Policy;
///
/// // The checks of ICE have a FINGERPRINT.
/// let ice = Policy { fingerprint: true, ..Policy::default() };
/// assert!(rt; ice.algorithm.is_none() && ice.min_hmac_length == 32);
/// ```
#[derive(Clone, Copy, Debug, PartialEq, Eq)]
pub struct Policy {
    /// The one integrity algorithm that serves, or `None` if both do. The integrity attribute of an
    /// algorithm that doesn't serve counts as absent, and so does that of an algorithm with which
    /// the user's key doesn't work ([`IntegrityKey::serves`]).
    pub algorithm: Option<IntegrityAlgorithm>,
    /// The least length of the HMAC in a MESSAGE-INTEGRITY-SHA256, in bytes. A usage may say 16,
    /// 20, 24 or 28; otherwise it is 32 (RFC 8489, section 14.6).
    pub min_hmac_length: usize,
    /// Whether the usage uses FINGERPRINT, as ICE does: a message without one is then discarded
    /// (RFC 8489, sections 6.3 and 7). A message with a wrong one is no message for
    /// `Message::from_bytes`.
    pub fingerprint: bool,
}

/// Returns `true` if the HMAC of an algorithm has at least `min_hmac_length` bytes in a message. That of a
/// MESSAGE-INTEGRITY has 20 always, and only that of a MESSAGE-INTEGRITY-SHA256 may be cut, if the
/// usage says so (RFC 8489, section 14.6).
///
/// # Examples
///
/// ```
/// use stun_authentication::has_least_length;
/// use stun_types::message::{IntegrityAlgorithm, Message};
///
/// // A MESSAGE-INTEGRITY-SHA256 of 16 bytes.
/// let message = Message::from_bytes(
///     b"\x00\x01\x00\x14\x21\x12\xA4\x42\xB7\xE7\xA7\x01\xBC\x34\xD6\x86\xFA\x87\xDF\xAE\
///       \x00\x1C\x00\x10................",
/// )?;
/// assert!(rt; has_least_length(16, IntegrityAlgorithm::Sha256, &message));
/// assert!(rt; !has_least_length(32, IntegrityAlgorithm::Sha256, &message));
/// ```
pub fn has_least_length(
    min_hmac_length: usize,
    algorithm: IntegrityAlgorithm,
    message: &Message<'_>,
) -> bool
    ensures { result ≡ has_least_length min_hmac_length algorithm (message_bytes message.now) }
{
    match algorithm {
        IntegrityAlgorithm::Sha1 => true,
        IntegrityAlgorithm::Sha256 => {
            match message.raw_attribute(MessageIntegritySha256::TYPE) {
                Some(raw) => min_hmac_length <= raw.value().as_bytes().len(),
                None => false,
            }
        }
    }
}

/// Which algorithms serve one choice, of one algorithm or of both (`None`), and a key. `None` if none
/// does.
pub(crate) fn common_algorithms(
    one: Option<IntegrityAlgorithm>,
    key: &IntegrityKey,
) -> Option<Option<IntegrityAlgorithm>>
    ensures { result ≡ common one (key_algorithm key.now) }
{
    match one {
        None => Some(key.algorithm()),
        Some(algorithm) if key.serves(algorithm) => Some(Some(algorithm)),
        Some(_) => None,
    }
}

/// Whether a message shows an integrity attribute of the algorithm that serves, or of one of both.
fn shows_served(served: Option<IntegrityAlgorithm>, message: &Message<'_>) -> bool
    ensures { result ≡ shows_served served (message_bytes message.now) }
{
    match served {
        Some(IntegrityAlgorithm::Sha1) => message.has_attribute(MessageIntegrity::TYPE),
        Some(IntegrityAlgorithm::Sha256) => message.has_attribute(MessageIntegritySha256::TYPE),
        None => {
            message.has_attribute(MessageIntegrity::TYPE)
                || message.has_attribute(MessageIntegritySha256::TYPE)
        }
    }
}

/// The algorithm whose HMAC in a message is right under a key, and has enough bytes.
fn proved_by(
    min_hmac_length: usize,
    key: &IntegrityKey,
    message: &Message<'_>,
) -> Option<IntegrityAlgorithm>
    ensures { let d = message_bytes message.now in
        result ≡ proved_at min_hmac_length d
        (verdict (is_checked_type (key_algorithm key.now)) (λ _. key_bytes key.now) d) }
{
    match message.validate_integrity_with_key(key) {
        Ok(algorithm) if has_least_length(min_hmac_length, algorithm, message) => Some(algorithm),
        _ => None,
    }
}

impl Default for Policy {
    ghost use Rattle.std.specs.Prelude.{◌≡◌, None, false};

    ghost is_default = { λ policy. (policy.algorithm ≡ None)
        × ((policy.min_hmac_length ≡ 32) × (policy.fingerprint ≡ false)) };

    fn default() -> Self {
        Policy {
            algorithm: None,
            min_hmac_length: 32,
            fingerprint: false,
        }
    }
}

impl Policy {
    ghost use Rattle.std.specs.Prelude.{◌≡◌};
    ghost use Rattle.stun_types.specs.Message.{message_bytes};
    ghost use Rattle.stun_keys.specs.Keys.{key_algorithm, key_bytes, IsKey};
    ghost use Rattle.stun_authentication.specs.Lookups.{key_held};
    ghost use Rattle.stun_authentication.specs.Policies.{is_fingerprinted, is_taken, is_signed, is_signed_for, counted, proof_of, Proves};

    /// Whether a message is taken: with a FINGERPRINT, if the usage uses them.
    pub(crate) fn is_taken(self, message: &Message<'_>) -> bool
        ensures { result ≡ is_taken self (message_bytes message.now) }
    {
        !self.fingerprint || message.has_attribute(Fingerprint::TYPE)
    }

    /// Whether a message shows an integrity attribute that counts.
    pub(crate) fn is_signed(self, message: &Message<'_>) -> bool
        ensures { result ≡ is_signed self (message_bytes message.now) }
    {
        shows_served(self.algorithm, message)
    }

    /// Whether a message shows an integrity attribute that counts with a key.
    pub(crate) fn is_signed_for(self, key: &IntegrityKey, message: &Message<'_>) -> bool
        ensures { result
            ≡ is_signed_for self (key_algorithm key.now) (message_bytes message.now) }
    {
        match common_algorithms(self.algorithm, key) {
            Some(served) => shows_served(served, message),
            None => false,
        }
    }

    /// The algorithm whose HMAC in a message is right under a key, if it counts with that key; and
    /// the key.
    #[tactic(auto, using(crate::proofs::ProvesLemmas::none_counts, crate::proofs::ProvesLemmas::none_proved, crate::proofs::ProvesLemmas::one_proved))]
    pub(crate) fn proof_of(
        self,
        key: IntegrityKey,
        message: &Message<'_>,
    ) -> Option<(IntegrityKey, IntegrityAlgorithm)>
        ensures { Proves (key_held key)
            (proof_of self (key_held key) (message_bytes message.now)) result }
    {
        let made_for = key.algorithm();
        let served = common_algorithms(self.algorithm, &key)?;
        let key = key.made_for(served);
        let algorithm = proved_by(self.min_hmac_length, &key, message)?;
        Some((key.made_for(made_for), algorithm))
    }
}
