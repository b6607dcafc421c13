//! A client's next request: what it carries of a challenge, and its key.

ghost use Rattle.std.specs.Prelude.{◌≡◌, ◌≤◌, true, length, Some, None, Ok, Err, MatchResult};
ghost use Rattle.stun_keys.specs.Keys.{key_algorithm, key_bytes, serves};
ghost use Rattle.stun_values.specs.TextValues.{username_max};
ghost use Rattle.stun_authentication.specs.Challenges.{retry_of, signing_algorithm};
ghost use Rattle.stun_authentication.specs.Requests.{login_steps};
ghost use Rattle.stun_types_c.specs.Answering.{challenge_in, HoldsAsked, HoldsFor, name_answer, AnswersRetry, AnswersChallenge};
ghost use Rattle.stun_types_c.specs.KeyHandles.{held_key, shared_key};
ghost use Rattle.stun_types_c.specs.Writing.{TakesIn};

use crate::call_result::{CResult, counted, parse_result, plain};
use crate::challenges::no_retry;
use crate::codes;
use crate::key_handle::KeyHandle;
use crate::keys::hold_made;
use crate::password_algorithms::algorithms_of;
use crate::shared_key::SharedKey;
use crate::values::text_in;
use crate::writing::{header_of, store_end};
use std::alloc::Global;
use stun_authentication::{Retry, answer_challenge_with_key, challenge_of, key_for};
use stun_types::message::{IntegrityKey, Message, MessageWriteMutSlice, ResumePoint};
use stun_types::prelude::*;
use stun_values::USERNAME_MAX;

/// The challenge in a response, for a client that supports the algorithms of these numbers.
fn challenge_in<'a>(response: &'a [u8], supported: &[u16]) -> Result<Retry<'a>, CResult>
    ensures { MatchResult result
        (λ retry. challenge_in supported.now response.now ≡ Ok (retry_of retry))
        (λ answer. challenge_in supported.now response.now ≡ Err answer) }
{
    let Some(supported) = algorithms_of(supported) else {
        return Err(plain(codes::BAD_ARGUMENT));
    };
    let message = match Message::from_bytes(response) {
        Ok(message) => message,
        Err(error) => return Err(parse_result(error)),
    };
    match challenge_of(&message, supported.as_slice(), None, false) {
        Ok(retry) => Ok(retry),
        Err(reason) => Err(no_retry(reason)),
    }
}

/// Puts the key that a challenge asks for into a handle.
fn hold_key(
    alloc: Global,
    key: &mut KeyHandle,
    retry: &Retry<'_>,
    user: &[u8],
    password: &[u8],
) -> CResult
    ensures { HoldsAsked (retry_of retry.now) user.now password.now result
        (held_key key.old) (held_key key.new) }
{
    let realm = text_in(retry.challenge.realm().as_bytes());
    match (text_in(user), realm, text_in(password)) {
        (Some(user), Some(_), Some(password)) => {
            hold_made(alloc, key, key_for(alloc, retry, user, password))
        }
        _ => plain(codes::INVALID_DATA),
    }
}

/// The key of a user in the realm of a challenge, by the password algorithm that it asks for.
#[unsafe(no_mangle)]
pub extern "C" fn stun_types_key_for(
    alloc: Global,
    key: &mut KeyHandle,
    response: &[u8],
    supported: &[u16],
    user: &[u8],
    password: &[u8],
) -> CResult
    ensures { HoldsFor supported.now response.now user.now password.now result
        (held_key key.old) (held_key key.new) }
{
    if password.is_empty() {
        return plain(codes::BAD_ARGUMENT);
    }
    match challenge_in(response, supported) {
        Ok(retry) => hold_key(alloc, key, &retry, user, password),
        Err(answer) => answer,
    }
}

/// A name that isn't too long for a USERNAME.
fn name_in(name: &[u8]) -> Result<&str, CResult>
    ensures { MatchResult result
        (λ text. (name_answer name.now ≡ None) × (text.now ≡ name.now)
        × (length text.now ≤ username_max))
        (λ answer. name_answer name.now ≡ Some answer) }
{
    let Some(text) = text_in(name) else {
        return Err(plain(codes::INVALID_DATA));
    };
    if name.len() > USERNAME_MAX as usize {
        return Err(counted(codes::TOO_LARGE, USERNAME_MAX as usize, name.len()));
    }
    Ok(text)
}

/// Adds what a request carries of a challenge, signs it, and adds a FINGERPRINT, if one is wanted.
fn add_answer(
    alloc: Global,
    room: &mut [u8],
    written: &mut usize,
    retry: &Retry<'_>,
    name: &str,
    key: &IntegrityKey,
    fingerprint: bool,
) -> CResult
    requires short { length name.now ≤ username_max }
    requires serving { serves (key_algorithm key.now) (signing_algorithm (retry_of retry.now))
        ≡ true }
    ensures { TakesIn (login_steps fingerprint (retry_of retry.now) name.now (key_bytes key.now)) result
        (record { slice = room.old; count = written.old })
        (record { slice = room.new; count = written.new }) }
{
    let Ok(point) = ResumePoint::check(room, *written) else {
        return plain(codes::BAD_ARGUMENT);
    };
    let mut write = MessageWriteMutSlice::resume_at(alloc, room, point);
    let header = header_of(write.data());
    let added = answer_challenge_with_key(retry, name, key, fingerprint, &mut write);
    let end = write.finish();
    store_end(added, end, &header, room, written)
}

/// Answers a challenge for a user, if the key serves.
fn answer(
    alloc: Global,
    room: &mut [u8],
    written: &mut usize,
    retry: &Retry<'_>,
    user: &[u8],
    key: &SharedKey,
    fingerprint: bool,
) -> CResult
    ensures { AnswersRetry (retry_of retry.now) user.now fingerprint (shared_key key.now) result
        (record { slice = room.old; count = written.old })
        (record { slice = room.new; count = written.new }) }
{
    let name = match name_in(user) {
        Ok(name) => name,
        Err(answer) => return answer,
    };
    match key.key() {
        Some(key) if !key.serves(retry.challenge.integrity_algorithm()) => {
            plain(codes::BAD_ARGUMENT)
        }
        Some(key) => add_answer(alloc, room, written, retry, name, key, fingerprint),
        None => plain(codes::NO_KEY),
    }
}

/// Answers a challenge: adds what it asks for, and signs the request.
#[unsafe(no_mangle)]
pub extern "C" fn stun_types_answer_challenge(
    alloc: Global,
    room: &mut [u8],
    written: &mut usize,
    response: &[u8],
    supported: &[u16],
    user: &[u8],
    key: &SharedKey,
    fingerprint: bool,
) -> CResult
    ensures { AnswersChallenge supported.now response.now user.now fingerprint
        (shared_key key.now) result
        (record { slice = room.old; count = written.old })
        (record { slice = room.new; count = written.new }) }
{
    match challenge_in(response, supported) {
        Ok(retry) => answer(alloc, room, written, &retry, user, key, fingerprint),
        Err(answer) => answer,
    }
}
