//! Comparing an integrity attribute with the HMAC of the bytes that it covers.

ghost use Rattle.std.specs.Cmp.Lexicographic.{pointwise};
ghost use Rattle.std.specs.Prelude.{◌≡◌, ℕ, List, None, length, take, nat_eq};
ghost use Rattle.stun_grammar.specs.Verdicts.{hmac_fault, verdict_on_by};
ghost use Rattle.stun_types.specs.GivenHmacs.{given, given_for};
ghost use Rattle.stun_types.specs.Validating.{shown_integrity};

use crate::message::{Hmac, IntegrityAlgorithm, ValidateError};
use crate::reading::IntegrityAt;
use stun_attributes::same_bytes;

/// Whether the value of an integrity attribute is a prefix of an HMAC of its algorithm. All bytes
/// of the value are compared, even after a difference.
fn is_right(value: &[u8], algorithm: IntegrityAlgorithm, hmac: &Hmac) -> bool
    ensures { result
        ≡ pointwise nat_eq value.now (take (length value.now) (given_for hmac.now algorithm)) }
{
    let digest = hmac.given_for(algorithm);
    same_bytes(value, &digest[..value.len().min(digest.len())])
}

/// Compares the value of an integrity attribute with an HMAC, and returns its algorithm.
pub(super) fn compare_hmac(
    found: IntegrityAt<'_>,
    hmac: &Hmac,
) -> Result<IntegrityAlgorithm, ValidateError>
    requires lawful { hmac_fault found.algorithm (length found.value.now) ≡ None }
    ensures { (d : List ℕ) → result ≡ verdict_on_by (given hmac.now) d
        (shown_integrity found.entry) }
{
    if !is_right(found.value, found.algorithm, hmac) {
        return Err(ValidateError::IntegrityFailed);
    }
    Ok(found.algorithm)
}
