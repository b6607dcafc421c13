//! Laws of who sent a message. Each function does nothing: its contract is the law.

ghost use Rattle.std.specs.Prelude.{◌≡◌, List, length, take, ℕ, Option, Some, None, Ok, Err};
ghost use Rattle.std.specs.List.{AllByRecursion};
ghost use Rattle.stun_grammar.specs.declared.error.StunParseError.{StunParseError};
ghost use Rattle.stun_grammar.specs.declared.error.ValidateError.{ValidateError};
ghost use Rattle.stun_grammar.specs.declared.integrity_algorithm.IntegrityAlgorithm.{IntegrityAlgorithm};
ghost use Rattle.stun_grammar.specs.AttributeTypes.{MESSAGE_INTEGRITY, MESSAGE_INTEGRITY_SHA256};
ghost use Rattle.stun_grammar.specs.Hmac.{hmac};
ghost use Rattle.stun_grammar.specs.Numbers.{IsBytes};
ghost use Rattle.stun_grammar.specs.Sending.{Sent, IsEncodableSent};
ghost use Rattle.stun_grammar.specs.Verdicts.{is_checked_type, verdict};
ghost use Rattle.stun_types.specs.LookingUp.{nth};
ghost use Rattle.stun_exchanges.specs.Forging.{Claim, IsTrueOf, IsForgedOrSent};

use stun_types::walks_from_there;

/// A forgery is explicit. Whatever messages were sent, one that validates says what one of them
/// says; or its integrity attribute is the HMAC, of at least sixteen bytes, of bytes that nobody
/// signed with the key and the algorithm, and both are read off the message without the key. So
/// whoever makes such a message has broken HMAC.
pub fn forgery_is_explicit()
    ensures { (made_for : Option IntegrityAlgorithm) (key : IntegrityAlgorithm → List ℕ)
        (d : List ℕ) (a : IntegrityAlgorithm) (sent : List Sent)
        → IsBytes d → AllByRecursion IsEncodableSent sent
        → verdict (is_checked_type made_for) key d ≡ Ok a → IsForgedOrSent made_for sent key d a }
{}

/// The first sixteen bytes of an HMAC are enough for a claim to be true, the fewest that a value of
/// MESSAGE-INTEGRITY-SHA256 may have (RFC 8489, section 14.6).
pub fn sixteen_bytes_are_enough()
    ensures { (key : List ℕ) (claim : Claim) → length claim.value ≡ 16
        → claim.value ≡ take 16 (hmac claim.algorithm key claim.covered) → IsTrueOf key claim }
{}

/// With a key that was made for HMAC-SHA256 no message validates that shows no
/// MESSAGE-INTEGRITY-SHA256: one that is signed by both algorithms can't be cut down to its
/// MESSAGE-INTEGRITY.
pub fn sha256_is_not_cut_down()
    ensures { (key : IntegrityAlgorithm → List ℕ) (d : List ℕ)
        → nth d MESSAGE_INTEGRITY_SHA256 0 ≡ None
        → verdict (is_checked_type (Some IntegrityAlgorithm.Sha256)) key d
        ≡ Err (ValidateError.Parse (StunParseError.MissingAttribute
        (record { 0 = MESSAGE_INTEGRITY }))) }
{
    walks_from_there();
}
