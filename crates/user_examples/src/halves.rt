//! Signing and validating in two halves, between which a caller's own code computes the HMAC.

ghost use Rattle.std.specs.Prelude.{◌≡◌, None, length};
ghost use Rattle.stun_grammar.specs.Hmac.{digest_length};
ghost use Rattle.stun_grammar.specs.Verdicts.{type_of_algorithm, is_checked_type, verdict};
ghost use Rattle.stun_grammar.specs.Steps.{sign, integrity_value};
ghost use Rattle.stun_grammar.specs.Adding.{add_refusal, IsAddAnswer};
ghost use Rattle.stun_keys.specs.Keys.{key_bytes};
ghost use Rattle.stun_types.specs.Message.{message_bytes};
ghost use Rattle.stun_types.specs.Writers.{Allocates, Adds};

use stun_types::message::{
    IntegrityAlgorithm, IntegrityKey, Message, NextIntegrity, StunWriteError, ValidateError,
};
use stun_types::prelude::*;

/// Adds the integrity attribute of an algorithm with a key, by the two halves of [`NextIntegrity`]:
/// the contract is that of `add_message_integrity_with_key`. A caller whose own code computes HMACs
/// calls that code instead of `hmac`.
///
/// # Errors
///
/// As for `add_message_integrity_with_key`.
#[tactic(auto, using(stun_grammar::proofs::AddingRefusedLemmas::signing_barred))]
pub fn sign_in_halves<W: MessageWrite>(
    write: &mut W,
    key: &IntegrityKey,
    algorithm: IntegrityAlgorithm,
) -> Result<(), StunWriteError>
    ensures answer { IsAddAnswer
        (add_refusal (sign algorithm (key_bytes key.now)) (W.state write.old).types
        (length (W.state write.old).bytes) (W.state write.old).greatest)
        (Allocates (W.state write.old) (digest_length algorithm)) result }
    ensures adds { Adds result (W.state write.old) (W.state write.new)
        (type_of_algorithm algorithm)
        (integrity_value (W.state write.old).bytes (key_bytes key.now) algorithm) }
{
    let next = NextIntegrity::new(write, algorithm);
    let hmac = next.text()?.hmac(key);
    next.finish(&hmac)
}

/// Checks the last integrity attribute that a message shows, with a key, by the two halves of
/// `integrity_check`: the result is the same as with the key.
///
/// # Errors
///
/// As for `validate_integrity_with_key`.
#[tactic(auto, using(stun_grammar::proofs::VerdictsLemmas::verdict_keyed))]
pub fn validate_in_halves(
    message: &Message<'_>,
    key: &IntegrityKey,
) -> Result<IntegrityAlgorithm, ValidateError>
    ensures { result ≡ verdict (is_checked_type None) (λ _. key_bytes key.now)
        (message_bytes message.now) }
{
    let check = message.integrity_check(None)?;
    check.finish(&check.text().hmac(key))
}
