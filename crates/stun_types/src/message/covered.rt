//! The bytes that an integrity attribute covers (RFC 8489, sections 14.5 and 14.6).

ghost use Rattle.std.specs.Prelude.{◌≡◌, ◌++◌, map};
ghost use Rattle.std.specs.List.{concat};

use crate::message::{Hmac, IntegrityAlgorithm, IntegrityKey};
use stun_attributes::beginning;
use stun_base::pad_attribute_len;

/// Two pieces that follow one another.
fn two_pieces<'a>(beginning: &'a [u8; 4], rest: &'a [u8]) -> [&'a [u8]; 2]
    ensures { concat (map (λ piece. piece.now) result) ≡ beginning.now ++ rest.now }
{
    [beginning, rest]
}

/// The bytes that an integrity attribute of a message covers: its HMAC is computed over them
/// (RFC 8489, sections 14.5 and 14.6).
///
/// They are in two pieces. The first one has four bytes: the message type, and a length field,
/// big-endian, that counts through the end of the attribute, whatever the message's own says. The second
/// one borrows the message from its fifth byte up to the attribute. Nothing else is copied.
#[derive(Debug, Clone, Copy, Drop)]
pub struct CoveredText<'a> {
    pub(crate) algorithm: IntegrityAlgorithm,
    pub(crate) beginning: [u8; 4],
    pub(crate) rest: &'a [u8],
}

impl<'a> CoveredText<'a> {
    ghost use Rattle.std.specs.Prelude.{◌≡◌, ◌≤◌, length, map, take};
    ghost use Rattle.std.specs.List.{concat};
    ghost use Rattle.stun_grammar.specs.Hmac.{hmac as hmac_under};
    ghost use Rattle.stun_grammar.specs.Verdicts.{covered_bytes};
    ghost use Rattle.stun_keys.specs.Keys.{key_bytes};
    ghost use Rattle.stun_types.specs.GivenHmacs.{hmac_algorithm, hmac_bytes, text_algorithm, text_bytes, IsHmacOf};

    /// The bytes that are covered by the integrity attribute of an algorithm whose header is at
    /// `offset` and whose value has `count` bytes.
    #[tactic(auto, using(crate::proofs::GivenHmacsLemmas::joined))]
    pub(crate) fn at(
        bytes: &'a [u8],
        offset: usize,
        algorithm: IntegrityAlgorithm,
        count: usize,
    ) -> CoveredText<'a>
        requires header { 20 ≤ offset }
        requires within { offset ≤ length bytes.now }
        requires short { count ≤ 65535 }
        ensures algorithm { text_algorithm result ≡ algorithm }
        ensures covers { text_bytes result ≡ covered_bytes bytes.now offset count }
    {
        let beginning = beginning(bytes, offset, 4 + pad_attribute_len(count));
        CoveredText {
            algorithm,
            beginning,
            rest: &bytes[4..offset],
        }
    }

    /// The algorithm of the attribute, by which the HMAC is computed.
    pub fn algorithm(&self) -> IntegrityAlgorithm
        ensures { result ≡ text_algorithm self.now }
    {
        self.algorithm
    }

    /// The covered bytes: two pieces, the second of which follows the first. Both borrow `self`.
    pub fn pieces(&self) -> [&[u8]; 2]
        ensures { concat (map (λ piece. piece.now) result) ≡ text_bytes self.now }
    {
        two_pieces(&self.beginning, self.rest)
    }

    /// The first four of the covered bytes, the first of the two pieces.
    pub fn beginning(&self) -> [u8; 4]
        ensures { result ≡ take 4 (text_bytes self.now) }
    {
        let [a, b, c, d] = self.beginning;
        [a, b, c, d]
    }

    /// How many bytes are covered: as many as the message has before the attribute.
    pub fn len(&self) -> usize
        ensures { result ≡ length (text_bytes self.now) }
    {
        4 + self.rest.len()
    }

    /// The HMAC over the covered bytes with a key, by this library's own digests, whatever algorithm
    /// the key was made for. It allocates nothing.
    pub fn hmac(&self, key: &IntegrityKey) -> Hmac
        ensures algorithm { hmac_algorithm result ≡ text_algorithm self.now }
        ensures bytes { hmac_bytes result
            ≡ hmac_under (text_algorithm self.now) (key_bytes key.now) (text_bytes self.now) }
        ensures given { IsHmacOf (λ _. key_bytes key.now) self.now result }
    {
        match self.algorithm {
            IntegrityAlgorithm::Sha1 => Hmac::Sha1(key.hmac_sha1(&self.pieces())),
            IntegrityAlgorithm::Sha256 => Hmac::Sha256(key.hmac_sha256(&self.pieces())),
        }
    }
}
