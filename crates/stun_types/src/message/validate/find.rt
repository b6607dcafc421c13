//! Finding the integrity attribute that is checked.

ghost use Rattle.std.specs.Prelude.{◌≡◌, ◌≢◌, ℕ, List, Err, MatchResult};
ghost use Rattle.stun_grammar.specs.Numbers.{IsBytes};
ghost use Rattle.stun_grammar.specs.Verdicts.{is_checked_type, verdict_by};
ghost use Rattle.stun_grammar.specs.declared.integrity_algorithm.IntegrityAlgorithm.{IntegrityAlgorithm};
ghost use Rattle.stun_types.specs.Offsets.{OffsetsOf};
ghost use Rattle.stun_types.specs.Validating.{shown_integrity, IsChecked};

use crate::attribute::AttributeType;
use crate::message::{IntegrityAlgorithm, StunParseError, ValidateError};
use crate::reading::{IntegrityAt, IntegrityOffsets};
use stun_grammar::attribute_types::MESSAGE_INTEGRITY;
use stun_values::check_hmac_length;

/// The attribute that is checked. Its value has a lawful length.
pub(super) fn find_checked(
    bytes: &[u8],
    offsets: IntegrityOffsets,
    made_for: Option<IntegrityAlgorithm>,
) -> Result<IntegrityAt<'_>, ValidateError>
    requires { OffsetsOf offsets bytes.now }
    ensures verdict { MatchResult result
        (λ found. IsChecked made_for bytes.now (shown_integrity found))
        (λ e. (given : IntegrityAlgorithm → List ℕ → List ℕ)
        → verdict_by (is_checked_type made_for) given bytes.now ≡ Err e) }
    ensures memory { result ≢ Err (ValidateError.Parse StunParseError.OutOfMemory) }
    // each number in the slice is below 256, which the laws on what an HMAC authenticates require
    ensures bytes { IsBytes bytes.now }
{
    let Some(found) = IntegrityAt::last(bytes, offsets, made_for) else {
        return Err(ValidateError::Parse(StunParseError::MissingAttribute(AttributeType::new(
            MESSAGE_INTEGRITY,
        ))));
    };
    check_hmac_length(found.algorithm, found.value.len())?;
    Ok(found)
}
