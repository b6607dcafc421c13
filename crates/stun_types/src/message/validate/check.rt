//! The check of an integrity attribute, before its HMAC is computed.

ghost use Rattle.std.specs.Prelude.{◌≡◌, None, length};
ghost use Rattle.stun_grammar.specs.Verdicts.{hmac_fault};

use super::compare::compare_hmac;
use crate::message::{CoveredText, Hmac, IntegrityAlgorithm, ValidateError};
use crate::reading::IntegrityAt;

/// The check of an integrity attribute, for a caller who computes the HMAC: it holds the bytes that
/// the attribute covers, and the attribute's value, with which the HMAC is compared. It borrows the
/// message. [`Message::integrity_check`](crate::message::Message::integrity_check) makes it.
#[derive(Clone, Copy, Drop)]
pub struct IntegrityCheck<'a> {
    found: IntegrityAt<'a>,
    text: CoveredText<'a>,
    ghost lawful: { hmac_fault found.algorithm (length found.value.now) ≡ None },
}

impl<'a> IntegrityCheck<'a> {
    ghost use Rattle.std.specs.Prelude.{◌≡◌, ◌≤◌, ℕ, List, None, Option, length};
    ghost use Rattle.stun_grammar.specs.declared.integrity_algorithm.IntegrityAlgorithm.{IntegrityAlgorithm};
    ghost use Rattle.stun_grammar.specs.Verdicts.{hmac_fault, is_checked_type, verdict, verdict_by};
    ghost use Rattle.stun_types.specs.GivenHmacs.{given, checked_text, IsCheckOf, IsHmacOf};
    ghost use Rattle.stun_types.specs.Validating.{shown_integrity, IsChecked};

    /// The check of an integrity attribute that was read in `bytes`.
    pub(super) fn of(bytes: &'a [u8], found: IntegrityAt<'a>) -> IntegrityCheck<'a>
        requires header { 20 ≤ found.offset }
        requires within { found.offset ≤ length bytes.now }
        requires lawful { hmac_fault found.algorithm (length found.value.now) ≡ None }
        ensures { (made_for : Option IntegrityAlgorithm)
            → IsChecked made_for bytes.now (shown_integrity found.entry)
            → IsCheckOf made_for bytes.now result }
    {
        let text = CoveredText::at(bytes, found.offset, found.algorithm, found.value.len());
        IntegrityCheck { found, text }
    }

    /// The bytes that the attribute covers.
    pub fn text(&self) -> CoveredText<'a>
        ensures { result ≡ checked_text self.now }
    {
        self.text
    }

    /// Compares the attribute's value with the HMAC of the covered bytes, and returns the algorithm.
    /// All bytes of the value are compared, even after a difference.
    ///
    /// # Errors
    ///
    /// `IntegrityFailed` if the HMAC is by the other algorithm, or if the value is neither the whole
    /// HMAC nor, in a MESSAGE-INTEGRITY-SHA256, its first 16, 20, 24 or 28 bytes.
    pub fn finish(&self, hmac: &Hmac) -> Result<IntegrityAlgorithm, ValidateError>
        ensures verdict { (made_for : Option IntegrityAlgorithm) (d : List ℕ)
            → IsCheckOf made_for d self.now
            → result ≡ verdict_by (is_checked_type made_for) (given hmac.now) d }
        ensures keyed { (made_for : Option IntegrityAlgorithm) (d : List ℕ)
            (key : IntegrityAlgorithm → List ℕ) → IsCheckOf made_for d self.now
            → IsHmacOf key (checked_text self.now) hmac.now
            → result ≡ verdict (is_checked_type made_for) key d }
    {
        compare_hmac(self.found, hmac)
    }
}
