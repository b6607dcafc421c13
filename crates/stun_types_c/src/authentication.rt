//! A server's checks by credentials (RFC 8489, sections 9.1.3 and 9.2.4).

ghost use Rattle.std.specs.Prelude.{◌≡◌, [], Some, None, IfOk};
ghost use Rattle.std.specs.Option.{option_map};
ghost use Rattle.stun_authentication.specs.Answers.{Decision, Tells};
ghost use Rattle.stun_keys.specs.Keys.{key_bytes};
ghost use Rattle.stun_authentication.specs.Lookups.{IsKeyOf};
ghost use Rattle.stun_authentication.specs.LongTerm.{long_term};
ghost use Rattle.stun_types.specs.Message.{message_bytes};
ghost use Rattle.stun_types_c.specs.KeyHandles.{shared_key};
ghost use Rattle.stun_types_c.specs.Users.{held_of, borrowed_of, keys_of, known_of, state_named};
ghost use Rattle.stun_types_c.specs.Authentication.{policy_named, nonce_named, password_used, number_used, used_in, in_c, by_short_term, by_long_term, undecided, TellsDecision, Authenticates};

use crate::call_result::{CResult, parse_result, plain};
use crate::codes;
use crate::keys::{algorithm_of, number_of};
use crate::password_algorithms::{AlgorithmList, algorithms_of};
use crate::shared_key::SharedKey;
use crate::usages::min_hmac_length_of;
use std::alloc::{AllocError, Global};
use stun_attributes::same_bytes;
use stun_authentication::{
    Authentication, Identity, LongTermKeys, NonceState, Nonces, Policy, ShortTermKeys,
    authenticate_long_term, authenticate_short_term,
};
use stun_keys::keys::copy_key;
use stun_types::attribute::PasswordAlgorithmValue;
use stun_types::message::{IntegrityKey, Message};

/// Which messages are taken, and which integrity attributes count.
#[repr(C)]
#[derive(Clone, Copy, Drop)]
pub struct CPolicy {
    /// The number of an algorithm, or 0 for both.
    pub algorithm: u32,
    /// How many bytes a MESSAGE-INTEGRITY-SHA256 has at least: 16, 20, 24, 28 or 32, and 0 for 32.
    pub min_hmac_length: u32,
    /// 0, unless the usage uses FINGERPRINT: a message without one is then discarded.
    pub fingerprint: u32,
    /// 0.
    pub reserved: u32,
}

/// What becomes of a message that a server authenticates.
#[repr(C)]
#[derive(Clone, Copy, Drop)]
pub struct CAuthenticated {
    /// 0: nothing is decided; 1: accepted; 2: refused; 3: discarded; 4: not authenticated.
    pub kind: u32,
    /// The code of the error response, if it is refused.
    pub error_code: u32,
    /// The algorithm whose HMAC was right, if it is accepted.
    pub algorithm: u32,
    /// The algorithm that the reply is signed by.
    pub reply_algorithm: u32,
    /// The password algorithm of the long-term key that accepted: 1 or 2; else 0.
    pub password_algorithm: u32,
    /// 0.
    pub reserved: u32,
}

/// What a call leaves that decides nothing.
const UNDECIDED: CAuthenticated = CAuthenticated {
    kind: 0,
    error_code: 0,
    algorithm: 0,
    reply_algorithm: 0,
    password_algorithm: 0,
    reserved: 0,
};

/// The key of the one user that a caller has looked up, by either password algorithm.
#[derive(Drop)]
pub(crate) struct OneUser<'a> {
    pub(crate) md5: Option<&'a IntegrityKey>,
    pub(crate) sha256: Option<&'a IntegrityKey>,
}

/// A copy of a key, if there is one.
fn copy_of(alloc: Global, key: Option<&IntegrityKey>) -> Result<Option<IntegrityKey>, AllocError>
    ensures { IfOk result (IsKeyOf (borrowed_of key.entry)) }
{
    match key {
        Some(key) => Ok(Some(copy_key(alloc, key)?)),
        None => Ok(None),
    }
}

impl ShortTermKeys for OneUser<'_> {
    ghost use Rattle.stun_types_c.specs.Users.{borrowed_of};

    ghost key_of = { λ user _. borrowed_of user.md5 };

    fn key(&self, alloc: Global, _username: &[u8]) -> Result<Option<IntegrityKey>, AllocError> {
        copy_of(alloc, self.md5)
    }
}

impl LongTermKeys for OneUser<'_> {
    ghost use Rattle.stun_types_c.specs.Users.{keys_of};

    ghost key_of = { keys_of };

    fn key(
        &self,
        alloc: Global,
        _user: Identity<'_>,
        _realm: &str,
        algorithm: PasswordAlgorithmValue,
    ) -> Result<Option<IntegrityKey>, AllocError> {
        match algorithm {
            PasswordAlgorithmValue::MD5 => copy_of(alloc, self.md5),
            PasswordAlgorithmValue::SHA256 => copy_of(alloc, self.sha256),
        }
    }
}

/// What a caller knows of a nonce.
#[derive(Clone, Copy)]
enum CNonceState {
    /// The server doesn't know it.
    Unknown,
    /// It is valid.
    Valid,
    /// It was valid once.
    Stale,
}

/// What a caller knows of the one nonce that a request shows.
#[derive(Drop)]
struct OneNonce {
    state: CNonceState,
    sent: AlgorithmList,
}

impl Nonces for OneNonce {
    ghost use Rattle.stun_types_c.specs.Users.{known_of};

    ghost state_of = { λ one _. known_of one };

    fn nonce(&self, _nonce: &[u8]) -> NonceState<'_> {
        match self.state {
            CNonceState::Valid => NonceState::Valid(self.sent.as_slice()),
            CNonceState::Stale => NonceState::Stale,
            CNonceState::Unknown => NonceState::Unknown,
        }
    }
}

/// The state of a nonce, by its number.
fn state_named(number: u32) -> Option<CNonceState>
    ensures { result ≡ state_named number }
{
    match number {
        0 => Some(CNonceState::Unknown),
        1 => Some(CNonceState::Valid),
        2 => Some(CNonceState::Stale),
        _ => None,
    }
}

/// What a caller knows of the nonce, by the number of its state, and the numbers of the password
/// algorithms that it was sent with.
fn nonce_of(state: u32, algorithms: &[u16]) -> Option<OneNonce>
    ensures { nonce_named state algorithms.now ≡ option_map known_of result }
{
    let sent = algorithms_of(algorithms)?;
    let state = state_named(state)?;
    Some(OneNonce { state, sent })
}

/// The policy of C's numbers.
pub(crate) fn policy_of(counted: &CPolicy) -> Option<Policy>
    ensures { result ≡ policy_named counted.now }
{
    if counted.reserved != 0 {
        return None;
    }
    let algorithm = match counted.algorithm {
        0 => None,
        number => Some(algorithm_of(number)?),
    };
    let min_hmac_length = min_hmac_length_of(counted.min_hmac_length)?;
    Some(Policy {
        algorithm,
        min_hmac_length,
        fingerprint: counted.fingerprint != 0,
    })
}

/// The password algorithm of a key that accepted, if the user has keys of both.
fn password_used(md5: Option<&IntegrityKey>, key: &IntegrityKey) -> u32
    ensures { result ≡ password_used (borrowed_of md5.entry) (key_bytes key.now) }
{
    match md5 {
        Some(made) if same_bytes(made.as_bytes(), key.as_bytes()) => 1,
        _ => 2,
    }
}

/// By which of a user's keys a message is accepted.
#[derive(Clone, Copy)]
enum KeyUsed<'a> {
    /// By the only one, the password.
    ShortTerm,
    /// By the one by MD5, which this is, or by that by SHA-256.
    LongTerm(Option<&'a IntegrityKey>),
}

/// The number of the password algorithm of a key that accepted.
fn number_used(used: KeyUsed<'_>, key: &IntegrityKey) -> u32
    ensures { result ≡ number_used (used_in used.entry) (key_bytes key.now) }
{
    match used {
        KeyUsed::ShortTerm => 0,
        KeyUsed::LongTerm(md5) => password_used(md5, key),
    }
}

/// An answer, as C's numbers.
fn in_c(answer: &Authentication<'_>, used: KeyUsed<'_>) -> CAuthenticated
    ensures { (decision : Decision) → Tells decision answer.now
        → result ≡ in_c (used_in used.entry) decision }
{
    match answer {
        Authentication::Accepted(accepted) => CAuthenticated {
            kind: 1,
            error_code: 0,
            algorithm: number_of(accepted.algorithm),
            reply_algorithm: number_of(accepted.reply_algorithm),
            password_algorithm: number_used(used, &accepted.key),
            reserved: 0,
        },
        Authentication::Refused(refusal) => CAuthenticated {
            kind: 2,
            error_code: u32::from(refusal.code()),
            ..UNDECIDED
        },
        Authentication::Discarded => CAuthenticated {
            kind: 3,
            ..UNDECIDED
        },
        Authentication::NotARequest => CAuthenticated {
            kind: 4,
            ..UNDECIDED
        },
    }
}

/// Writes an answer for C, or that nothing is decided, since an allocation failed.
fn tell(
    answer: Result<Authentication<'_>, AllocError>,
    used: KeyUsed<'_>,
    out: &mut CAuthenticated,
) -> CResult
    ensures { (decision : Decision) → IfOk answer.entry (Tells decision)
        → TellsDecision (used_in used.entry) decision result out.new }
{
    match answer {
        Ok(answer) => {
            *out = in_c(&answer, used);
            plain(codes::OK)
        }
        Err(AllocError) => {
            *out = UNDECIDED;
            plain(codes::OUT_OF_MEMORY)
        }
    }
}

/// The key that a handle holds, if it holds one.
pub(crate) fn key_in(key: &SharedKey) -> Option<&IntegrityKey>
    ensures { borrowed_of result ≡ held_of (shared_key key.now) }
{
    key.key()
}

/// Authenticates a message by short-term credentials.
#[unsafe(no_mangle)]
pub extern "C" fn stun_types_authenticate_short_term(
    alloc: Global,
    bytes: &[u8],
    policy: &CPolicy,
    key: &SharedKey,
    out: &mut CAuthenticated,
) -> CResult
    ensures { let decided = by_short_term policy.now (shared_key key.now) bytes.now in
        Authenticates None decided bytes.now result out.new }
{
    *out = UNDECIDED;
    let message = match Message::from_bytes(bytes) {
        Ok(message) => message,
        Err(error) => return parse_result(error),
    };
    let Some(policy) = policy_of(policy) else {
        return plain(codes::BAD_ARGUMENT);
    };
    let user = OneUser {
        md5: key_in(key),
        sha256: None,
    };
    let answer = authenticate_short_term(alloc, &message, policy, &user);
    tell(answer, KeyUsed::ShortTerm, out)
}

/// What becomes of a message by long-term credentials, whose keys are made with the realm already.
fn long_term_decision<'a>(
    alloc: Global,
    message: &Message<'a>,
    policy: Policy,
    nonce: &OneNonce,
    user: &OneUser<'_>,
) -> Result<Authentication<'a>, AllocError>
    ensures { IfOk result (Tells (long_term policy [] (λ _. known_of nonce.now)
        (keys_of user.now) (message_bytes message.now))) }
{
    authenticate_long_term(alloc, message, "", policy, nonce, user)
}

/// Authenticates a request by long-term credentials.
#[unsafe(no_mangle)]
pub extern "C" fn stun_types_authenticate_long_term(
    alloc: Global,
    bytes: &[u8],
    policy: &CPolicy,
    nonce_state: u32,
    algorithms: &[u16],
    md5_key: &SharedKey,
    sha256_key: &SharedKey,
    out: &mut CAuthenticated,
) -> CResult
    ensures { let nonce = nonce_named nonce_state algorithms.now in
        let decided = by_long_term policy.now nonce (shared_key md5_key.now)
        (shared_key sha256_key.now) bytes.now in
        Authenticates (Some (held_of (shared_key md5_key.now))) decided bytes.now result
        out.new }
{
    *out = UNDECIDED;
    let message = match Message::from_bytes(bytes) {
        Ok(message) => message,
        Err(error) => return parse_result(error),
    };
    let (Some(policy), Some(nonce)) = (policy_of(policy), nonce_of(nonce_state, algorithms)) else {
        return plain(codes::BAD_ARGUMENT);
    };
    let user = OneUser {
        md5: key_in(md5_key),
        sha256: key_in(sha256_key),
    };
    let answer = long_term_decision(alloc, &message, policy, &nonce, &user);
    tell(answer, KeyUsed::LongTerm(user.md5), out)
}
