//! Computing the attributes that protect a message, over the bytes written so far, and appending
//! them (RFC 8489, sections 14.5 to 14.7).

ghost use Rattle.std.specs.Prelude.{◌≡◌, None, Some, OnOk, MatchResult, length};
ghost use Rattle.stun_grammar.specs.Hmac.{hmac, digest_length};
ghost use Rattle.stun_grammar.specs.Verdicts.{type_of_algorithm};
ghost use Rattle.stun_grammar.specs.Fingerprints.{fingerprint_value};
ghost use Rattle.stun_grammar.specs.Adding.{grown_length, add_refusal, IsAddAnswer};
ghost use Rattle.stun_keys.specs.Keys.{key_bytes};
ghost use Rattle.stun_grammar.specs.AttributeTypes.{FINGERPRINT as FINGERPRINT_TYPE};
ghost use Rattle.stun_grammar.specs.Steps.{sign_given, integrity_value, value_length, IsEncodable};
ghost use Rattle.stun_types.specs.Writers.{HasRoomFor, Allocates, Adds};
ghost use Rattle.stun_types.specs.GivenHmacs.{hmac_algorithm, hmac_bytes, signing_refusal, IsNextText};

use crate::attribute::AttributeType;
use crate::message::{CoveredText, Hmac, IntegrityAlgorithm, IntegrityKey, StunWriteError};
use crate::reading::type_for;
use crate::writing::MessageWrite;
use crate::writing::refusals::{Addition, check_add};
use stun_attributes::fingerprint_at;
use stun_grammar::attribute_types::FINGERPRINT;
use stun_values::hmac_length;

/// Appends the integrity attribute of an algorithm: the HMAC of the message so far, 20 bytes in a
/// MESSAGE-INTEGRITY and 32 in a MESSAGE-INTEGRITY-SHA256.
#[tactic(auto, using(stun_grammar::proofs::AddingLemmas::appended_length, crate::proofs::KeptHeadersLemmas::pushed))]
pub(crate) fn push_integrity<W: MessageWrite>(
    write: &mut W,
    key: &IntegrityKey,
    algorithm: IntegrityAlgorithm,
) -> Result<(), StunWriteError>
    requires { HasRoomFor (W.state write.old) (digest_length algorithm) }
    ensures answer { IsAddAnswer None
        (Allocates (W.state write.old) (digest_length algorithm)) result }
    ensures adds { Adds result (W.state write.old) (W.state write.new) (type_of_algorithm algorithm)
        (integrity_value (W.state write.old).bytes (key_bytes key.now) algorithm) }
    ensures size { OnOk result (length (W.state write.new).bytes
        ≡ grown_length (length (W.state write.old).bytes) (digest_length algorithm)) }
{
    let bytes = write.data();
    let text = CoveredText::at(bytes, bytes.len(), algorithm, hmac_length(algorithm));
    let hmac = text.hmac(key);
    write.push_value_unchecked(AttributeType(type_for(algorithm)), hmac.as_bytes())
}

/// The bytes that the integrity attribute of an algorithm covers if it is added next; the error says
/// why it is refused.
#[tactic(auto, using(stun_grammar::proofs::AddingRefusedLemmas::signing_barred, stun_grammar::proofs::AddingLemmas::hmac_padded))]
pub(crate) fn next_integrity_text<W: MessageWrite>(
    write: &W,
    algorithm: IntegrityAlgorithm,
) -> Result<CoveredText<'_>, StunWriteError>
    ensures { MatchResult result
        (λ text. IsNextText (signing_refusal (W.state write.now) algorithm)
        (W.state write.now).bytes algorithm text)
        (λ e. signing_refusal (W.state write.now) algorithm ≡ Some e) }
{
    let count = hmac_length(algorithm);
    check_add(write, Addition::Integrity(algorithm), 4 + count)?;
    let bytes = write.data();
    Ok(CoveredText::at(bytes, bytes.len(), algorithm, count))
}

/// Adds the integrity attribute of an HMAC's algorithm, with that HMAC.
#[tactic(auto, using(stun_grammar::proofs::AddingLemmas::appended_length, crate::proofs::KeptHeadersLemmas::pushed, stun_grammar::proofs::AddingLemmas::hmac_padded, stun_grammar::proofs::AddingRefusedLemmas::given_barred))]
pub(crate) fn add_given_hmac<W: MessageWrite>(
    write: &mut W,
    hmac: &Hmac,
) -> Result<(), StunWriteError>
    ensures answer { let asked = sign_given (hmac_algorithm hmac.now) (hmac_bytes hmac.now) in
        IsAddAnswer
        (add_refusal asked (W.state write.old).types (length (W.state write.old).bytes)
        (W.state write.old).greatest)
        (Allocates (W.state write.old) (value_length asked)) result }
    ensures encodable { IsEncodable (sign_given (hmac_algorithm hmac.now) (hmac_bytes hmac.now)) }
    ensures adds { Adds result (W.state write.old) (W.state write.new)
        (type_of_algorithm (hmac_algorithm hmac.now)) (hmac_bytes hmac.now) }
{
    let algorithm = hmac.algorithm();
    let bytes = hmac.as_bytes();
    let added = 4 + hmac_length(algorithm);
    check_add(write, Addition::Integrity(algorithm), added)?;
    write.push_value_unchecked(AttributeType(type_for(algorithm)), bytes)
}

/// Appends a FINGERPRINT: the four bytes of the masked CRC-32 of the message so far.
#[tactic(auto, using(stun_grammar::proofs::AddingLemmas::appended_length, crate::proofs::KeptHeadersLemmas::pushed, stun_grammar::proofs::AddingLemmas::fingerprint_length))]
pub(crate) fn push_fingerprint<W: MessageWrite>(write: &mut W) -> Result<(), StunWriteError>
    requires { HasRoomFor (W.state write.old) 4 }
    ensures answer { IsAddAnswer None (Allocates (W.state write.old) 4) result }
    ensures adds { Adds result (W.state write.old) (W.state write.new) FINGERPRINT_TYPE
        (fingerprint_value (W.state write.old).bytes (length (W.state write.old).bytes)) }
{
    let bytes = write.data();
    let value = fingerprint_at(bytes, bytes.len());
    write.push_value_unchecked(AttributeType(FINGERPRINT), &value)
}
