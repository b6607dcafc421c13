//! Whether a message is valid with the credentials that are given.

ghost use Rattle.std.specs.Prelude.{◌≡◌, IfOk};
ghost use Rattle.stun_types.specs.Message.{message_bytes};
ghost use Rattle.stun.specs.Shows.{Asks, by_algorithm, by_either, Validates};

use std::alloc::{AllocError, Global};
use stun_keys::keys::key_of_credentials;
use stun_types::attribute::{AttributeStaticType, PasswordAlgorithm, PasswordAlgorithmValue};
use stun_types::message::{
    IntegrityAlgorithm, Message, MessageIntegrityCredentials, StunParseError, ValidateError,
};
use stun_values::read_one;

/// What a validation answers.
pub type Validated = Result<IntegrityAlgorithm, ValidateError>;

/// The algorithm of the PASSWORD-ALGORITHM of a message, if it shows one that is known.
pub fn asked_algorithm(message: &Message<'_>) -> Option<PasswordAlgorithmValue>
    ensures { Asks (message_bytes message.now) result }
{
    let raw = message.raw_attribute(PasswordAlgorithm::TYPE)?;
    read_one(raw.value().as_bytes()).ok()
}

/// Validates a message with the key that credentials give by an algorithm. The key works with both
/// integrity attributes (RFC 8489, section 9.2.5), of which the last is checked, or the one of
/// `checked`.
fn validated_by(
    alloc: Global,
    message: &Message<'_>,
    credentials: &MessageIntegrityCredentials,
    checked: Option<IntegrityAlgorithm>,
    algorithm: PasswordAlgorithmValue,
) -> Result<Validated, AllocError>
    ensures { IfOk result
        (λ v. v ≡ by_algorithm credentials.now checked (message_bytes message.now) algorithm) }
{
    let key = key_of_credentials(alloc, credentials, algorithm.as_integrity())?;
    Ok(message.validate_integrity_with_key(&key.made_for(checked)))
}

/// Validates a message with the key by MD5, and, if that isn't valid, with the key by SHA-256.
fn validated_by_either(
    alloc: Global,
    message: &Message<'_>,
    credentials: &MessageIntegrityCredentials,
    checked: Option<IntegrityAlgorithm>,
) -> Result<Validated, AllocError>
    ensures { IfOk result (λ v. v ≡ by_either credentials.now checked (message_bytes message.now)) }
{
    let md5 = PasswordAlgorithmValue::MD5;
    let validated = validated_by(alloc, message, credentials, checked, md5)?;
    if validated.is_ok() {
        return Ok(validated);
    }
    let sha256 = PasswordAlgorithmValue::SHA256;
    validated_by(alloc, message, credentials, checked, sha256)
}

/// Validates a message by credentials: by the algorithm that it asks for, or, if it asks for none,
/// by either. The key of short-term credentials is the same by both. The last integrity attribute is
/// checked, or the one of `checked`.
pub fn validated(
    alloc: Global,
    message: &Message<'_>,
    credentials: &MessageIntegrityCredentials,
    checked: Option<IntegrityAlgorithm>,
) -> Result<Validated, AllocError>
    ensures { IfOk result (Validates credentials.now checked (message_bytes message.now)) }
{
    match asked_algorithm(message) {
        Some(asked) => validated_by(alloc, message, credentials, checked, asked),
        None => validated_by_either(alloc, message, credentials, checked),
    }
}

/// The words for what a validation of an integrity attribute answers.
pub fn verdict_words(checked: IntegrityAlgorithm, validated: Validated) -> &'static str {
    match (checked, validated) {
        (_, Ok(IntegrityAlgorithm::Sha1)) => "valid by MESSAGE-INTEGRITY",
        (_, Ok(IntegrityAlgorithm::Sha256)) => "valid by MESSAGE-INTEGRITY-SHA256",
        (_, Err(ValidateError::Parse(StunParseError::MissingAttribute(_)))) => {
            "MESSAGE-INTEGRITY and MESSAGE-INTEGRITY-SHA256 are missing"
        }
        (IntegrityAlgorithm::Sha1, Err(ValidateError::Parse(_))) => {
            "invalid by MESSAGE-INTEGRITY: its value has a wrong length"
        }
        (IntegrityAlgorithm::Sha256, Err(ValidateError::Parse(_))) => {
            "invalid by MESSAGE-INTEGRITY-SHA256: its value has a wrong length"
        }
        (IntegrityAlgorithm::Sha1, Err(ValidateError::IntegrityFailed)) => {
            "invalid by MESSAGE-INTEGRITY: another password, or the message was changed"
        }
        (IntegrityAlgorithm::Sha256, Err(ValidateError::IntegrityFailed)) => {
            "invalid by MESSAGE-INTEGRITY-SHA256: another password, or the message was changed"
        }
    }
}

/// The code in JSON of what a validation answers.
pub fn verdict_code(validated: Validated) -> &'static str {
    match validated {
        Ok(_) => "valid",
        Err(ValidateError::Parse(StunParseError::MissingAttribute(_))) => "missing",
        Err(ValidateError::Parse(_)) => "malformed",
        Err(ValidateError::IntegrityFailed) => "wrong_hmac",
    }
}
