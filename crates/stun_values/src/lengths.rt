//! The lengths of HMACs, and the lengths that the values of integrity attributes and of USERHASH
//! may have.

ghost use Rattle.std.specs.Prelude.{◌≡◌, ◌%◌, ◌≤◌, None, Some, MatchResult};
ghost use Rattle.stun_grammar.specs.Hmac.{digest_length};
ghost use Rattle.stun_grammar.specs.Lengths.{exact_fault};
ghost use Rattle.stun_grammar.specs.Verdicts.{hmac_fault};

use crate::check_range;
use stun_base::StunParseError;
use stun_grammar::IntegrityAlgorithm;

/// How many bytes the HMAC of an algorithm has: 20 or 32.
pub fn hmac_length(algorithm: IntegrityAlgorithm) -> usize
    ensures { result ≡ digest_length algorithm }
{
    match algorithm {
        IntegrityAlgorithm::Sha1 => 20,
        IntegrityAlgorithm::Sha256 => 32,
    }
}

/// Tests the length of a MESSAGE-INTEGRITY's value: 20.
///
/// # Errors
///
/// Those of [`check_hmac_length`] for `Sha1`.
#[tactic(auto, unfolding(stun_grammar::specs::Verdicts::hmac_fault))]
pub fn check_sha1_length(length: usize) -> Result<(), StunParseError>
    ensures { MatchResult result
        (λ _. (hmac_fault IntegrityAlgorithm.Sha1 length ≡ None) × (length ≡ 20))
        (λ e. hmac_fault IntegrityAlgorithm.Sha1 length ≡ Some e) }
{
    check_range(length, 20, 20)
}

/// Tests the length of a MESSAGE-INTEGRITY-SHA256's value: 16 to 32, a multiple of 4.
///
/// # Errors
///
/// Those of [`check_hmac_length`] for `Sha256`.
#[tactic(auto, unfolding(stun_grammar::specs::Verdicts::hmac_fault))]
pub fn check_sha256_length(length: usize) -> Result<(), StunParseError>
    ensures { MatchResult result
        (λ _. (hmac_fault IntegrityAlgorithm.Sha256 length ≡ None)
        × (16 ≤ length) × (length ≤ 32) × (length % 4 ≡ 0))
        (λ e. hmac_fault IntegrityAlgorithm.Sha256 length ≡ Some e) }
{
    check_range(length, 16, 32)?;
    if length % 4 != 0 {
        return Err(StunParseError::InvalidAttributeData);
    }
    Ok(())
}

/// Tests the length of the value of an algorithm's integrity attribute: 20 bytes in a
/// MESSAGE-INTEGRITY, and 16 to 32, a multiple of 4, in a MESSAGE-INTEGRITY-SHA256 (RFC 8489,
/// sections 14.5 and 14.6).
///
/// # Errors
///
/// `Truncated { expected, actual: length }` if there are fewer bytes, with `expected` 20 or 16,
/// and `TooLarge { expected, actual: length }` if there are more, with `expected` 20 or 32.
/// Otherwise `InvalidAttributeData` if the length is not a multiple of 4.
#[tactic(auto, unfolding(stun_grammar::specs::Verdicts::hmac_fault))]
pub fn check_hmac_length(algorithm: IntegrityAlgorithm, length: usize) -> Result<(), StunParseError>
    ensures { MatchResult result
        (λ _. (hmac_fault algorithm length ≡ None) × (length ≤ digest_length algorithm))
        (λ e. hmac_fault algorithm length ≡ Some e) }
{
    match algorithm {
        IntegrityAlgorithm::Sha1 => check_sha1_length(length),
        IntegrityAlgorithm::Sha256 => check_sha256_length(length),
    }
}

/// Tests the length of a USERHASH's value: 32 (RFC 8489, section 14.4).
///
/// # Errors
///
/// `Truncated { expected: 32, actual: length }` if there are fewer bytes, and
/// `TooLarge { expected: 32, actual: length }` if there are more.
pub fn check_hash_length(length: usize) -> Result<(), StunParseError>
    ensures { MatchResult result
        (λ _. (exact_fault 32 length ≡ None) × (length ≡ 32))
        (λ e. exact_fault 32 length ≡ Some e) }
{
    check_range(length, 32, 32)
}
