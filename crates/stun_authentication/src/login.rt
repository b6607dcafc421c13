//! A client's next request: what it carries of a challenge (RFC 8489, section 9.2.5).

ghost use Rattle.std.specs.Prelude.{◌≡◌, ◌≤◌, ◌∷◌, [], None, Some, IfOk, IfErr, MatchResult, length};
ghost use Rattle.stun_keys.specs.Keys.{IsKey, key_algorithm, key_bytes};
ghost use Rattle.stun_values.specs.TextValues.{username_max};
ghost use Rattle.stun_authentication.specs.Asking.{asked_in};
ghost use Rattle.stun_authentication.specs.Challenges.{retry_of};
ghost use Rattle.stun_authentication.specs.Requests.{asked_identity, identity_attribute, algorithm_attributes, credentials, user_key, answering_attributes, login_steps, name_refusal, AnswersWith, AnswersFor};
ghost use Rattle.stun_authentication.specs.Writing.{Lengthens, Finishes};

use crate::attributes::add_bytes;
use crate::writing::{add_copies, sign_and_print};
use crate::{Challenge, Retry};
use std::alloc::Global;
use stun_keys::keys::key_of_texts;
use stun_types::attribute::{
    AttributeStaticType, PasswordAlgorithm, PasswordAlgorithms, Userhash, Username,
};
use stun_types::message::{IntegrityKey, StunWriteError};
use stun_types::prelude::*;
use stun_values::{USERNAME_MAX, write_algorithm};

/// Returns the key of a user in the realm of a challenge, by the password algorithm that it asks
/// for (RFC 8489, sections 9.2.2 and 18.5.1). It works with both integrity algorithms.
///
/// # Errors
///
/// `OutOfMemory` alone.
///
/// # Examples
///
/// ```
/// use stun_authentication::{challenge_of, key_for};
/// use stun_types::attribute::PasswordAlgorithmValue;
/// use stun_types::message::Message;
///
/// // The 401 of section 20 of RFC 8656, without SOFTWARE.
/// let response = Message::from_bytes(
///     b"\x01\x13\x00\x54\x21\x12\xA4\x42\xA5\x62\x50\xD3\xF1\x7A\xBE\x67\x94\x22\xDE\x85\
///       \x00\x09\x00\x10\x00\x00\x04\x01Unauthorized\x00\x14\x00\x0Bexample.com\x00\
///       \x00\x15\x00\x20obMatJos2gAAAadl7W7PeDU4hKE72jda\
///       \x80\x02\x00\x08\x00\x01\x00\x00\x00\x02\x00\x00",
/// )?;
/// let supported = [PasswordAlgorithmValue::SHA256];
/// let retry = challenge_of(&response, &supported, None, false)?;
/// // The SHA-256 of `George:example.com:secret`.
/// let key = key_for(alloc, &retry, "George", "secret")?;
/// assert!(rt; key.as_bytes().starts_with(&[0x9C, 0x61, 0x08, 0xE0, 0x37, 0x2F, 0x04, 0xB7]));
/// ```
pub fn key_for(
    alloc: Global,
    retry: &Retry<'_>,
    name: &str,
    password: &str,
) -> Result<IntegrityKey, StunWriteError>
    ensures key { IfOk result (IsKey None
        (user_key (retry_of retry.now)
        (record { name = name.now; password = password.now }))) }
    ensures err { IfErr result (λ e. e ≡ StunWriteError.OutOfMemory) }
{
    let algorithm = retry.algorithm.as_integrity();
    let key = key_of_texts(alloc, name, retry.challenge.realm(), password, algorithm)?;
    Ok(key.for_both())
}

/// Adds USERNAME, or USERHASH if the challenge asks for it.
fn add_identity<B: MessageWrite>(
    challenge: &Challenge<'_>,
    name: &str,
    write: &mut B,
) -> Result<(), StunWriteError>
    requires { length name.now ≤ username_max }
    ensures { Lengthens result (B.state write.old) (B.state write.new)
        (identity_attribute (asked_identity (asked_in challenge.now) name.now) ∷ []) }
{
    if challenge.is_anonymous() {
        let hash = Userhash::compute(name, challenge.realm());
        return add_bytes(Userhash::TYPE, &hash, write);
    }
    add_bytes(Username::TYPE, name.as_bytes(), write)
}

/// Adds PASSWORD-ALGORITHMS, as it came, and PASSWORD-ALGORITHM, if the challenge has a list.
fn add_algorithms<B: MessageWrite>(retry: &Retry<'_>, write: &mut B) -> Result<(), StunWriteError>
    ensures { let how = retry_of retry.now in
        Lengthens result (B.state write.old) (B.state write.new)
        (algorithm_attributes how.asked.list how.algorithm) }
{
    let Some(list) = retry.challenge.password_algorithms() else {
        return Ok(());
    };
    let mut one = [0u8; 4];
    write_algorithm(retry.algorithm, &mut one);
    add_bytes(PasswordAlgorithms::TYPE, list, write)?;
    add_bytes(PasswordAlgorithm::TYPE, &one, write)
}

/// Adds what a request carries of a challenge, before it is signed.
fn add_credentials<B: MessageWrite>(
    retry: &Retry<'_>,
    name: &str,
    write: &mut B,
) -> Result<(), StunWriteError>
    requires { length name.now ≤ username_max }
    ensures { Lengthens result (B.state write.old) (B.state write.new)
        (credentials (retry_of retry.now) name.now) }
{
    add_identity(&retry.challenge, name, write)?;
    add_copies(&retry.challenge, write)?;
    add_algorithms(retry, write)
}

/// Checks that a USERNAME has room for a name.
fn check_name(name: &str) -> Result<(), StunWriteError>
    ensures { MatchResult result (λ _. name_refusal name.now ≡ None)
        (λ e. name_refusal name.now ≡ Some e) }
{
    if name.len() > USERNAME_MAX as usize {
        return Err(StunWriteError::TooLarge {
            expected: USERNAME_MAX as usize,
            actual: name.len(),
        });
    }
    Ok(())
}

/// Adds what a request carries of a challenge, and finishes it with a key, whichever algorithm the
/// key was made for.
fn answer_by<B: MessageWrite>(
    retry: &Retry<'_>,
    name: &str,
    key: &IntegrityKey,
    fingerprint: bool,
    write: &mut B,
) -> Result<(), StunWriteError>
    requires { length name.now ≤ username_max }
    ensures { let how = retry_of retry.now in let key = key_bytes key.now in
        Finishes result (B.state write.old) (B.state write.new)
        (answering_attributes fingerprint how name.now key)
        (login_steps fingerprint how name.now key) }
{
    add_credentials(retry, name, write)?;
    sign_and_print(
        key,
        retry.challenge.integrity_algorithm(),
        fingerprint,
        write,
    )
}

/// Answers a challenge with a key that [`key_for`] made, as [`answer_challenge`] does: a client
/// that keeps the key writes each further request with it. It takes no memory but the writer's.
///
/// # Errors
///
/// The first of these that applies:
///
/// - `TooLarge { expected: 513, actual }` if the name has more than 513 bytes, which no USERNAME
///   has; nothing is written then;
/// - `IntegrityFailed` if the key was made for the algorithm by which the request isn't signed
///   ([`Challenge::integrity_algorithm`]); nothing is written then;
/// - that of the first attribute that isn't added, as `add_attribute`,
///   `add_message_integrity_with_key` and `add_fingerprint` fail: `TooSmall` or `TooLarge` if it
///   doesn't fit; `MessageIntegrityExists`, `FingerprintExists` or `AttributeExists` if the message
///   was signed or had a FINGERPRINT before; `OutOfMemory` if an allocation failed, which none does
///   within the writer's ready room. What was written before it stays.
///
/// # Examples
///
/// ```
/// use stun_authentication::{answer_challenge_with_key, challenge_of, key_for};
/// use stun_types::attribute::PasswordAlgorithmValue;
/// use stun_types::message::{BINDING, Message, MessageClass, MessageType, MessageWriteMutSlice};
/// use stun_types::message::TransactionId;
/// use stun_types::prelude::*;
///
/// // The 401 of section 20 of RFC 8656, without SOFTWARE.
/// let response = Message::from_bytes(
///     b"\x01\x13\x00\x54\x21\x12\xA4\x42\xA5\x62\x50\xD3\xF1\x7A\xBE\x67\x94\x22\xDE\x85\
///       \x00\x09\x00\x10\x00\x00\x04\x01Unauthorized\x00\x14\x00\x0Bexample.com\x00\
///       \x00\x15\x00\x20obMatJos2gAAAadl7W7PeDU4hKE72jda\
///       \x80\x02\x00\x08\x00\x01\x00\x00\x00\x02\x00\x00",
/// )?;
/// let supported = [PasswordAlgorithmValue::SHA256];
/// let retry = challenge_of(&response, &supported, None, false)?;
/// let key = key_for(alloc, &retry, "George", "secret")?;
/// // Two requests with the same key, each in a slice.
/// let mtype = MessageType::from_class_method(MessageClass::Request, BINDING);
/// for number in 1..3 {
///     let mut slice = [0; 256];
///     let write = MessageWriteMutSlice::new(alloc, &mut slice);
///     let mut request = Message::builder(mtype, TransactionId::from(number), write)?;
///     answer_challenge_with_key(&retry, "George", &key, true, &mut request)?;
///     let length = request.finish();
///     let request = Message::from_bytes(&slice[..length])?;
///     assert!(rt; request.validate_integrity_with_key(&key).is_ok());
/// }
/// ```
pub fn answer_challenge_with_key<B: MessageWrite>(
    retry: &Retry<'_>,
    name: &str,
    key: &IntegrityKey,
    fingerprint: bool,
    write: &mut B,
) -> Result<(), StunWriteError>
    ensures { AnswersWith (retry_of retry.now) name.now (key_algorithm key.now)
        (key_bytes key.now) fingerprint result (B.state write.old) (B.state write.new) }
{
    check_name(name)?;
    if !key.serves(retry.challenge.integrity_algorithm()) {
        return Err(StunWriteError::IntegrityFailed);
    }
    answer_by(retry, name, key, fingerprint, write)
}

/// Answers a challenge (RFC 8489, section 9.2.5): after the attributes that a request has already,
/// adds USERNAME, or USERHASH if the challenge asks for it, REALM and NONCE, and
/// PASSWORD-ALGORITHMS and PASSWORD-ALGORITHM if it has a list; signs all of it; and adds a
/// FINGERPRINT if `fingerprint` is `true`. Returns the key, which protects the transaction of the
/// request.
///
/// The request has a new transaction ID. Later requests to the server carry the same, until it asks
/// for other credentials or another nonce (section 9.2.3.2), so this call writes them too.
///
/// The name and the password are used as they are: no function applies the OpaqueString profile
/// (RFC 8265) to them. Only the key takes memory, and the writer.
///
/// # Errors
///
/// The first of these that applies:
///
/// - `TooLarge { expected: 513, actual }` if the name has more than 513 bytes, which no USERNAME
///   has; nothing is written then;
/// - `OutOfMemory` if the key couldn't be allocated; nothing is written then;
/// - that of the first attribute that isn't added, as for [`answer_challenge_with_key`]. What was
///   written before it stays.
///
/// # Examples
///
/// ```
/// use rand::make_rng;
/// use rand::rngs::StdRng;
/// use stun_authentication::{answer_challenge, challenge_of};
/// use stun_types::attribute::{PasswordAlgorithmValue, Username};
/// use stun_types::message::{IntegrityAlgorithm, Message, MessageWriteVec};
/// use stun_types::prelude::*;
/// use turn_attrs::{RequestedTransport, methods};
///
/// // The 401 of section 20 of RFC 8656, without SOFTWARE.
/// let response = Message::from_bytes(
///     b"\x01\x13\x00\x54\x21\x12\xA4\x42\xA5\x62\x50\xD3\xF1\x7A\xBE\x67\x94\x22\xDE\x85\
///       \x00\x09\x00\x10\x00\x00\x04\x01Unauthorized\x00\x14\x00\x0Bexample.com\x00\
///       \x00\x15\x00\x20obMatJos2gAAAadl7W7PeDU4hKE72jda\
///       \x80\x02\x00\x08\x00\x01\x00\x00\x00\x02\x00\x00",
/// )?;
/// let supported = [PasswordAlgorithmValue::SHA256];
/// let retry = challenge_of(&response, &supported, None, false)?;
/// let mut rng: StdRng = make_rng(&rt)?;
/// let vector = MessageWriteVec::new(alloc);
/// let mut request = Message::builder_request(methods::ALLOCATE, &mut rng, vector)?;
/// request.add_attribute(&RequestedTransport::new(17))?;
/// let key = answer_challenge(alloc, &retry, "George", "secret", true, &mut request)?;
/// let bytes = request.finish();
/// let request = Message::from_bytes(&bytes)?;
/// assert_eq!(rt; request.attribute::<Username>(alloc)?.username(), "George");
/// assert_eq!(rt; request.validate_integrity_with_key(&key), Ok(IntegrityAlgorithm::Sha256));
/// ```
pub fn answer_challenge<B: MessageWrite>(
    alloc: Global,
    retry: &Retry<'_>,
    name: &str,
    password: &str,
    fingerprint: bool,
    write: &mut B,
) -> Result<IntegrityKey, StunWriteError>
    ensures answer { AnswersFor (retry_of retry.now)
        (record { name = name.now; password = password.now }) fingerprint result
        (B.state write.old) (B.state write.new) }
    ensures key { IfOk result (IsKey None
        (user_key (retry_of retry.now)
        (record { name = name.now; password = password.now }))) }
{
    check_name(name)?;
    let key = key_for(alloc, retry, name, password)?;
    answer_by(retry, name, &key, fingerprint, write)?;
    Ok(key)
}
