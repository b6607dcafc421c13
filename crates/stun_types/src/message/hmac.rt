//! HMACs that a caller computes.

use stun_grammar::IntegrityAlgorithm;

/// An HMAC that the caller's own code computed (RFC 2104): by the processor's instructions, by a
/// validated module, or in hardware that keeps the key. The variant fixes its length.
///
/// [`IntegrityCheck::text`](crate::message::IntegrityCheck::text) and
/// [`NextIntegrity::text`](crate::message::NextIntegrity::text) return the bytes that it is computed
/// over. `{:?}` prints the HMAC: don't log it before its message has validated, since whoever sees the
/// HMAC of a forged message can complete it. Two HMACs aren't compared by `==`:
/// [`IntegrityCheck::finish`](crate::message::IntegrityCheck::finish) compares all bytes, even after a
/// difference.
#[derive(Debug, Clone, Copy)]
pub enum Hmac {
    /// An HMAC-SHA1: 20 bytes.
    Sha1([u8; 20]),
    /// An HMAC-SHA256: 32 bytes.
    Sha256([u8; 32]),
}

impl Hmac {
    ghost use Rattle.std.specs.Prelude.{◌≡◌, length};
    ghost use Rattle.stun_grammar.specs.Hmac.{digest_length};
    ghost use Rattle.stun_types.specs.GivenHmacs.{hmac_algorithm, hmac_bytes, given_for};

    /// The algorithm of the HMAC.
    pub fn algorithm(&self) -> IntegrityAlgorithm
        ensures { result ≡ hmac_algorithm self.now }
    {
        match self {
            Hmac::Sha1(_) => IntegrityAlgorithm::Sha1,
            Hmac::Sha256(_) => IntegrityAlgorithm::Sha256,
        }
    }

    /// The bytes of the HMAC if it is by this algorithm; none otherwise.
    pub(crate) fn given_for(&self, algorithm: IntegrityAlgorithm) -> &[u8]
        ensures { result.now ≡ given_for self.now algorithm }
    {
        match (self, algorithm) {
            (Hmac::Sha1(bytes), IntegrityAlgorithm::Sha1) => bytes,
            (Hmac::Sha256(bytes), IntegrityAlgorithm::Sha256) => bytes,
            _ => &[],
        }
    }

    /// The bytes of the HMAC: 20 or 32.
    pub fn as_bytes(&self) -> &[u8]
        ensures bytes { result.now ≡ hmac_bytes self.now }
        ensures size { length result.now ≡ digest_length (hmac_algorithm self.now) }
    {
        match self {
            Hmac::Sha1(bytes) => bytes,
            Hmac::Sha256(bytes) => bytes,
        }
    }
}
