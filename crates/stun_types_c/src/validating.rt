//! Validating messages.

ghost use Rattle.std.specs.Prelude.{◌≡◌, ◌⊎◌, Some, Ok, Err, IfOk, MatchOption};
ghost use Rattle.stun_keys.specs.Keys.{key_algorithm};
ghost use Rattle.stun_types.specs.Message.{message_bytes};
ghost use Rattle.stun_authentication.specs.Policies.{common};
ghost use Rattle.stun_types_c.specs.Codes.{BAD_ARGUMENT, OUT_OF_MEMORY};
ghost use Rattle.stun_types_c.specs.CResults.{plain};
ghost use Rattle.stun_types_c.specs.Credentials.{ValidatesShortTerm, ValidatesLongTerm};
ghost use Rattle.stun_types_c.specs.KeyHandles.{shared_key};
ghost use Rattle.stun_types_c.specs.Validating.{hmac_length, checked_in, verdict_of, policy_answer, policy_reported, TellsVerdict, ValidatesWith, ValidatesKey, ValidatesBy};

use crate::authentication::{CPolicy, policy_of};
use crate::call_result::{CResult, about, counted, parse_result, plain, validate_result};
use crate::codes;
use crate::keys::{long_term_of, number_of};
use crate::shared_key::SharedKey;
use std::alloc::{AllocError, Global};
use stun_authentication::{Policy, has_least_length};
use stun_grammar::attribute_types::FINGERPRINT;
use stun_keys::keys::{copy_key, key_of_bytes};
use stun_types::attribute::{
    AttributeStaticType, Fingerprint, MessageIntegrity, MessageIntegritySha256,
};
use stun_types::message::{
    IntegrityAlgorithm, IntegrityKey, Message, MessageIntegrityCredentials, ValidateError,
};

/// What was checked of a message that is valid.
#[repr(C)]
#[derive(Clone, Copy, Drop)]
pub struct Validated {
    /// The number of the algorithm; 0 if the message isn't valid.
    pub algorithm: u32,
    /// How many bytes its HMAC has.
    pub hmac_length: u32,
    /// 0.
    pub reserved: u64,
}

/// What a call leaves if the message isn't valid.
pub(crate) const NOT_VALIDATED: Validated = Validated {
    algorithm: 0,
    hmac_length: 0,
    reserved: 0,
};

/// How many bytes the HMAC of an algorithm has in a message; 0 if there is none.
fn hmac_length(message: &Message<'_>, algorithm: IntegrityAlgorithm) -> u16
    ensures { result ≡ hmac_length algorithm (message_bytes message.now) }
{
    let atype = match algorithm {
        IntegrityAlgorithm::Sha1 => MessageIntegrity::TYPE,
        IntegrityAlgorithm::Sha256 => MessageIntegritySha256::TYPE,
    };
    match message.raw_attribute(atype) {
        Some(raw) => raw.header().length(),
        None => 0,
    }
}

/// What was checked of a message.
fn checked_in(message: &Message<'_>, algorithm: IntegrityAlgorithm) -> Validated
    ensures { result ≡ checked_in (message_bytes message.now) algorithm }
{
    Validated {
        algorithm: number_of(algorithm),
        hmac_length: u32::from(hmac_length(message, algorithm)),
        reserved: 0,
    }
}

/// Reports a verdict on a message to C.
pub(crate) fn tell_verdict(
    message: &Message<'_>,
    verdict: Result<IntegrityAlgorithm, ValidateError>,
    validated: &mut Validated,
) -> CResult
    ensures { TellsVerdict (message_bytes message.now) verdict result validated.new }
{
    match verdict {
        Ok(algorithm) => {
            *validated = checked_in(message, algorithm);
            plain(codes::OK)
        }
        Err(error) => {
            *validated = NOT_VALIDATED;
            validate_result(error)
        }
    }
}

/// Whether a message is authentic under a key.
#[unsafe(no_mangle)]
pub extern "C" fn stun_types_validate(
    bytes: &[u8],
    key: &SharedKey,
    validated: &mut Validated,
) -> CResult
    ensures { ValidatesWith (shared_key key.now) bytes.now result validated.new }
{
    *validated = NOT_VALIDATED;
    let message = match Message::from_bytes(bytes) {
        Ok(message) => message,
        Err(error) => return parse_result(error),
    };
    match key.key() {
        Some(key) => tell_verdict(
            &message,
            message.validate_integrity_with_key(key),
            validated,
        ),
        None => plain(codes::NO_KEY),
    }
}

/// The verdict on a message of a copy of a key that is made for one algorithm.
fn verdict_for(
    alloc: Global,
    message: &Message<'_>,
    key: &IntegrityKey,
    algorithm: IntegrityAlgorithm,
) -> Result<Result<IntegrityAlgorithm, ValidateError>, AllocError>
    ensures { IfOk result (λ verdict.
        verdict ≡ verdict_of (Some algorithm) key.now (message_bytes message.now)) }
{
    let copy = copy_key(alloc, key)?.made_for(Some(algorithm));
    Ok(message.validate_integrity_with_key(&copy))
}

/// The verdict of a key on a message, of the attribute that counts: by the algorithm of a policy, or
/// by both.
fn verdict_by(
    alloc: Global,
    message: &Message<'_>,
    counted: Option<IntegrityAlgorithm>,
    key: &IntegrityKey,
) -> Result<Result<IntegrityAlgorithm, ValidateError>, CResult>
    ensures { MatchOption (common counted (key_algorithm key.now))
        (result ≡ Err (plain BAD_ARGUMENT))
        (λ checked. (result ≡ Ok (verdict_of checked key.now (message_bytes message.now)))
        ⊎ (result ≡ Err (plain OUT_OF_MEMORY))) }
{
    match (counted, key.algorithm()) {
        (None, _)
        | (Some(IntegrityAlgorithm::Sha1), Some(IntegrityAlgorithm::Sha1))
        | (Some(IntegrityAlgorithm::Sha256), Some(IntegrityAlgorithm::Sha256)) => {
            Ok(message.validate_integrity_with_key(key))
        }
        (Some(algorithm), None) => match verdict_for(alloc, message, key, algorithm) {
            Ok(verdict) => Ok(verdict),
            Err(AllocError) => Err(plain(codes::OUT_OF_MEMORY)),
        },
        (Some(_), Some(_)) => Err(plain(codes::BAD_ARGUMENT)),
    }
}

/// Reports a verdict on a message to C, if its HMAC has at least so many bytes.
fn tell_long_enough(
    message: &Message<'_>,
    min_hmac_length: usize,
    verdict: Result<IntegrityAlgorithm, ValidateError>,
    validated: &mut Validated,
) -> CResult
    ensures { let d = message_bytes message.now in
        (result ≡ policy_answer min_hmac_length d verdict)
        × (validated.new ≡ policy_reported min_hmac_length d verdict) }
{
    *validated = NOT_VALIDATED;
    match verdict {
        Ok(algorithm) => {
            if has_least_length(min_hmac_length, algorithm, message) {
                *validated = checked_in(message, algorithm);
                plain(codes::OK)
            } else {
                let length = hmac_length(message, algorithm);
                counted(codes::HMAC_TOO_SHORT, min_hmac_length, length as usize)
            }
        }
        Err(error) => validate_result(error),
    }
}

/// Whether a message is authentic under a key, by a policy.
fn validate_key(
    alloc: Global,
    message: &Message<'_>,
    policy: Policy,
    key: &IntegrityKey,
    validated: &mut Validated,
) -> CResult
    ensures { ValidatesKey policy key.now (message_bytes message.now) result validated.new }
{
    *validated = NOT_VALIDATED;
    if policy.fingerprint && !message.has_attribute(Fingerprint::TYPE) {
        return about(codes::MISSING_ATTRIBUTE, FINGERPRINT);
    }
    match verdict_by(alloc, message, policy.algorithm, key) {
        Ok(verdict) => tell_long_enough(message, policy.min_hmac_length, verdict, validated),
        Err(answer) => answer,
    }
}

/// Whether a message is authentic under a key, by a policy.
#[unsafe(no_mangle)]
pub extern "C" fn stun_types_validate_by_policy(
    alloc: Global,
    bytes: &[u8],
    policy: &CPolicy,
    key: &SharedKey,
    validated: &mut Validated,
) -> CResult
    ensures { ValidatesBy policy.now (shared_key key.now) bytes.now result validated.new }
{
    *validated = NOT_VALIDATED;
    let message = match Message::from_bytes(bytes) {
        Ok(message) => message,
        Err(error) => return parse_result(error),
    };
    let Some(policy) = policy_of(policy) else {
        return plain(codes::BAD_ARGUMENT);
    };
    match key.key() {
        Some(key) => validate_key(alloc, &message, policy, key, validated),
        None => plain(codes::NO_KEY),
    }
}

/// Whether a message is authentic under a password.
#[unsafe(no_mangle)]
pub extern "C" fn stun_types_validate_short_term(
    alloc: Global,
    bytes: &[u8],
    password: &[u8],
    validated: &mut Validated,
) -> CResult
    ensures { ValidatesShortTerm password.now bytes.now result validated.new }
{
    *validated = NOT_VALIDATED;
    let message = match Message::from_bytes(bytes) {
        Ok(message) => message,
        Err(error) => return parse_result(error),
    };
    if password.is_empty() {
        return plain(codes::BAD_ARGUMENT);
    }
    match key_of_bytes(alloc, password, None) {
        Ok(key) => tell_verdict(
            &message,
            message.validate_integrity_with_key(&key),
            validated,
        ),
        Err(AllocError) => plain(codes::OUT_OF_MEMORY),
    }
}

/// Whether a message is authentic under a long-term credential.
#[unsafe(no_mangle)]
pub extern "C" fn stun_types_validate_long_term(
    alloc: Global,
    bytes: &[u8],
    user: &[u8],
    realm: &[u8],
    password: &[u8],
    validated: &mut Validated,
) -> CResult
    ensures { ValidatesLongTerm user.now realm.now password.now bytes.now result validated.new }
{
    *validated = NOT_VALIDATED;
    let message = match Message::from_bytes(bytes) {
        Ok(message) => message,
        Err(error) => return parse_result(error),
    };
    if password.is_empty() {
        return plain(codes::BAD_ARGUMENT);
    }
    match long_term_of(alloc, user, realm, password) {
        Ok(long) => {
            let credentials = MessageIntegrityCredentials::from(long);
            tell_verdict(
                &message,
                message.validate_integrity(alloc, &credentials),
                validated,
            )
        }
        Err(answer) => answer,
    }
}
