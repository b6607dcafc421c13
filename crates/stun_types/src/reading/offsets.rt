//! The offsets of the integrity attributes that a message shows.

use crate::message::IntegrityAlgorithm;
use crate::reading::endings::follows;
use stun_grammar::attribute_types::{FINGERPRINT, MESSAGE_INTEGRITY, MESSAGE_INTEGRITY_SHA256};

/// The places of the integrity attributes of a message: the offsets of their headers from the
/// start of the message, each only if that attribute is shown.
/// [`check_message`](crate::reading::check_message) finds them.
#[derive(Debug, Clone, Copy, Drop)]
pub struct IntegrityOffsets {
    integrity: Option<usize>,
    sha256: Option<usize>,
}

impl IntegrityOffsets {
    ghost use Rattle.std.specs.Prelude.{◌≡◌, ◌+◌, ℕ, List, [], ◌∷◌, ◌++◌, length, None, Some, MatchOption};
    ghost use Rattle.stun_grammar.specs.Attributes.{Attribute, encodings};
    ghost use Rattle.stun_grammar.specs.Verdicts.{type_of_algorithm, is_checked_type, last_shown};
    ghost use Rattle.stun_types.specs.Offsets.{OffsetsOf, IsIntegrityAt, HasScanned};

    /// Those of a message that shows neither.
    pub(crate) fn none() -> IntegrityOffsets
        ensures integrity { result.integrity ≡ None }
        ensures sha256 { result.sha256 ≡ None }
    {
        IntegrityOffsets {
            integrity: None,
            sha256: None,
        }
    }

    /// The offset of the integrity attribute of an algorithm.
    pub(crate) fn of(&self, algorithm: IntegrityAlgorithm) -> Option<usize>
        ensures { (d : List ℕ) → OffsetsOf self.now d
            → MatchOption result (last_shown (is_checked_type (Some algorithm)) d ≡ None)
            (λ offset. IsIntegrityAt (is_checked_type (Some algorithm)) d
            (type_of_algorithm algorithm) offset) }
    {
        match algorithm {
            IntegrityAlgorithm::Sha1 => self.integrity,
            IntegrityAlgorithm::Sha256 => self.sha256,
        }
    }

    /// Scans the next attribute, which has the type `atype` and its header at `offset`, after one
    /// of type `last`. If it is shown and is an integrity attribute, its offset is kept. Returns
    /// the `last` of the attribute after it: `atype`, or FINGERPRINT if this one isn't shown, since
    /// then no attribute after it is, as none is after a FINGERPRINT.
    pub(crate) fn scan(&mut self, last: u16, atype: u16, offset: usize) -> u16
        ensures { (taken : List Attribute) (a : Attribute) → HasScanned self.old last taken
            → atype ≡ a.type → offset ≡ 20 + length (encodings taken)
            → HasScanned self.new result (taken ++ a ∷ []) }
    {
        if !follows(last, atype) {
            return FINGERPRINT;
        }
        if atype == MESSAGE_INTEGRITY {
            self.integrity = Some(offset);
        } else if atype == MESSAGE_INTEGRITY_SHA256 {
            self.sha256 = Some(offset);
        }
        atype
    }
}
