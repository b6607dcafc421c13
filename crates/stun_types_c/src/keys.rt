//! Making, copying and reading keys.

ghost use Rattle.std.specs.Prelude.{◌≡◌, true, None, Err, All, IsOkAnd, MatchResult};
ghost use Rattle.stun_keys.specs.Keys.{key_bytes, IsKey};
ghost use Rattle.std.specs.Str.{is_utf8};
ghost use Rattle.std.specs.String.{string_bytes};
ghost use Rattle.stun_types_c.specs.KeyHandles.{held_key, shared_key};
ghost use Rattle.stun_types_c.specs.Keys.{algorithm_named, number_of, made_for_named, made_for_number, HoldsPassword, HoldsNamed, HoldsMade, HoldsCopy, TellsKey};
ghost use Rattle.stun_types_c.specs.Credentials.{RefusesText, IsLongTerm, RefusesLongTerm, HoldsLongTerm, TellsUserhash};

use crate::call_result::{CResult, counted, plain, write_result};
use crate::codes;
use crate::handle::{hold, release_all};
use crate::key_handle::KeyHandle;
use crate::password_algorithms::password_of;
use crate::shared_key::SharedKey;
use crate::values::text_in;
use std::alloc::{AllocError, Global};
use stun_types::attribute::Userhash;
use stun_types::message::{
    IntegrityAlgorithm, IntegrityKey, LongTermKeyCredentials, StunWriteError,
};

/// The algorithm of a number, the type of its integrity attribute.
pub(crate) fn algorithm_of(number: u32) -> Option<IntegrityAlgorithm>
    ensures { result ≡ algorithm_named number }
{
    match number {
        0x0008 => Some(IntegrityAlgorithm::Sha1),
        0x001C => Some(IntegrityAlgorithm::Sha256),
        _ => None,
    }
}

/// The algorithm that a number of C's chooses, and by 0 none, which are both.
pub(crate) fn made_for_of(number: u32) -> Option<Option<IntegrityAlgorithm>>
    ensures { result ≡ made_for_named number }
{
    match number {
        0 => Some(None),
        number => match algorithm_of(number) {
            Some(algorithm) => Some(Some(algorithm)),
            None => None,
        },
    }
}

/// The number of an algorithm.
pub(crate) fn number_of(algorithm: IntegrityAlgorithm) -> u32
    ensures { result ≡ number_of algorithm }
{
    match algorithm {
        IntegrityAlgorithm::Sha1 => 0x0008,
        IntegrityAlgorithm::Sha256 => 0x001C,
    }
}

/// Puts a key that was made into a handle, prepared for the many calls that may use it.
pub(crate) fn hold_made(
    alloc: Global,
    key: &mut KeyHandle,
    made: Result<IntegrityKey, StunWriteError>,
) -> CResult
    ensures { HoldsMade made result (held_key key.old) (held_key key.new) }
{
    match made {
        Ok(mut made) => {
            if let Err(error) = made.prepare(alloc) {
                return write_result(error);
            }
            match hold(key, alloc, made) {
                Ok(()) => plain(codes::OK),
                Err(AllocError) => plain(codes::OUT_OF_MEMORY),
            }
        }
        Err(error) => write_result(error),
    }
}

/// A key that was made, for both algorithms.
fn for_both(made: Result<IntegrityKey, StunWriteError>) -> Result<IntegrityKey, StunWriteError>
    ensures { MatchResult made
        (λ key. IsOkAnd result (IsKey None (key_bytes key)))
        (λ e. result ≡ Err e) }
{
    match made {
        Ok(key) => Ok(key.for_both()),
        Err(error) => Err(error),
    }
}

/// The key of a short-term credential: the password.
#[unsafe(no_mangle)]
pub extern "C" fn stun_types_key_short_term(
    alloc: Global,
    key: &mut KeyHandle,
    password: &[u8],
) -> CResult
    ensures { HoldsPassword None password.now result (held_key key.old) (held_key key.new) }
{
    if password.is_empty() {
        return plain(codes::BAD_ARGUMENT);
    }
    hold_made(alloc, key, IntegrityKey::new(alloc, password, None))
}

/// The key with these bytes, made for an algorithm, or by 0 for both.
#[unsafe(no_mangle)]
pub extern "C" fn stun_types_key_from_bytes(
    alloc: Global,
    key: &mut KeyHandle,
    bytes: &[u8],
    algorithm: u32,
) -> CResult
    ensures { HoldsNamed algorithm bytes.now result (held_key key.old) (held_key key.new) }
{
    let Some(algorithm) = made_for_of(algorithm) else {
        return plain(codes::BAD_ARGUMENT);
    };
    if bytes.is_empty() {
        return plain(codes::BAD_ARGUMENT);
    }
    hold_made(alloc, key, IntegrityKey::new(alloc, bytes, algorithm))
}

/// The key that another handle holds, in a handle of its own.
#[unsafe(no_mangle)]
pub extern "C" fn stun_types_key_copy(
    alloc: Global,
    key: &mut KeyHandle,
    from: &SharedKey,
) -> CResult
    ensures { HoldsCopy (shared_key from.now) result (held_key key.old) (held_key key.new) }
{
    match from.key() {
        Some(from) => hold_made(alloc, key, from.clone(alloc)),
        None => plain(codes::NO_KEY),
    }
}

/// The number of the algorithm that a key was made for; 0 for a key that serves both.
fn made_for_number(made_for: Option<IntegrityAlgorithm>) -> u32
    ensures { result ≡ made_for_number made_for }
{
    match made_for {
        Some(algorithm) => number_of(algorithm),
        None => 0,
    }
}

/// The bytes of a key, and the algorithm that it was made for.
#[unsafe(no_mangle)]
pub extern "C" fn stun_types_key_bytes(
    key: &SharedKey,
    room: &mut [u8],
    written: &mut usize,
    algorithm: &mut u32,
) -> CResult
    ensures { TellsKey (shared_key key.now) result
        (record { slice = room.old; count = written.old; algorithm = algorithm.old })
        (record { slice = room.new; count = written.new; algorithm = algorithm.new }) }
{
    let Some(key) = key.key() else {
        return plain(codes::NO_KEY);
    };
    let bytes = key.as_bytes();
    let count = bytes.len();
    if room.len() < count {
        return counted(codes::TOO_SMALL, count, room.len());
    }
    room[..count].copy_from_slice(bytes);
    *written = count;
    *algorithm = made_for_number(key.algorithm());
    plain(codes::OK)
}

/// Overwrites the bytes of the keys, frees them, and leaves handles with no key. Of such a one it
/// does nothing.
#[unsafe(no_mangle)]
pub extern "C" fn stun_types_keys_free(alloc: Global, keys: &mut [KeyHandle])
    ensures { All (λ key. held_key key ≡ None) keys.new }
{
    release_all(keys, alloc);
}

/// A text of C's bytes, in memory that `alloc` gives.
pub(crate) fn text_of(alloc: Global, bytes: &[u8]) -> Result<String, CResult>
    ensures { MatchResult result
        (λ text. (is_utf8 bytes.now ≡ true) × (string_bytes text ≡ bytes.now))
        (RefusesText bytes.now) }
{
    let Some(text) = text_in(bytes) else {
        return Err(plain(codes::INVALID_DATA));
    };
    match String::from_str(alloc, text) {
        Ok(text) => Ok(text),
        Err(AllocError) => Err(plain(codes::OUT_OF_MEMORY)),
    }
}

/// The long-term credentials of C's bytes.
pub(crate) fn long_term_of(
    alloc: Global,
    user: &[u8],
    realm: &[u8],
    password: &[u8],
) -> Result<LongTermKeyCredentials, CResult>
    ensures { MatchResult result (IsLongTerm user.now realm.now password.now)
        (RefusesLongTerm user.now realm.now password.now) }
{
    let user = text_of(alloc, user)?;
    let realm = text_of(alloc, realm)?;
    let password = text_of(alloc, password)?;
    Ok(LongTermKeyCredentials::new(user, password, realm))
}

/// The key of a long-term credential by a password algorithm. It serves both integrity attributes.
#[unsafe(no_mangle)]
pub extern "C" fn stun_types_key_long_term(
    alloc: Global,
    key: &mut KeyHandle,
    user: &[u8],
    realm: &[u8],
    password: &[u8],
    algorithm: u32,
) -> CResult
    ensures { HoldsLongTerm algorithm user.now realm.now password.now result
        (held_key key.old) (held_key key.new) }
{
    let Some(algorithm) = password_of(algorithm) else {
        return plain(codes::BAD_ARGUMENT);
    };
    if password.is_empty() {
        return plain(codes::BAD_ARGUMENT);
    }
    match long_term_of(alloc, user, realm, password) {
        Ok(credentials) => {
            let made = credentials.make_key(alloc, algorithm.as_integrity());
            hold_made(alloc, key, for_both(made))
        }
        Err(answer) => answer,
    }
}

/// A user's hash.
#[repr(C)]
#[derive(Clone, Copy, Drop)]
pub struct Hash {
    /// The SHA-256 of `user:realm`.
    pub bytes: [u8; 32],
}

/// The hash by which a request names its user.
#[unsafe(no_mangle)]
pub extern "C" fn stun_types_userhash(user: &[u8], realm: &[u8], hash: &mut Hash) -> CResult
    ensures { TellsUserhash user.now realm.now result hash.old hash.new }
{
    let (Some(user), Some(realm)) = (text_in(user), text_in(realm)) else {
        return plain(codes::INVALID_DATA);
    };
    *hash = Hash {
        bytes: Userhash::compute(user, realm),
    };
    plain(codes::OK)
}
