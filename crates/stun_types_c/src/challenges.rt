//! A client's half of the long-term credential mechanism (RFC 8489, section 9.2.5).

ghost use Rattle.std.specs.Prelude.{◌≡◌, Some, None, MatchResult, take};
ghost use Rattle.std.specs.Option.{option_map};
ghost use Rattle.stun_authentication.specs.Challenges.{retry_of};
ghost use Rattle.stun_types_c.specs.Challenges.{retry_answer, value_at, in_c, tried_in, tried_answer, ReadsFor, ReadsChallenge};

use crate::attribute::first_shown;
use crate::call_result::{CResult, parse_result, plain};
use crate::codes;
use crate::keys::number_of;
use crate::password_algorithms::{AlgorithmList, algorithms_of};
use crate::values::text_in;
use stun_authentication::{NoRetry, Retry, challenge_of};
use stun_grammar::attribute_types::{NONCE, PASSWORD_ALGORITHMS, REALM};
use stun_types::attribute::PasswordAlgorithmValue;
use stun_types::message::Message;

/// What a 401 or a 438 asks the next request to carry.
#[repr(C)]
#[derive(Clone, Copy, Drop)]
pub struct CChallenge {
    /// The offset of the realm in the response.
    pub realm_at: usize,
    /// How many bytes it has.
    pub realm_length: usize,
    /// The offset of the nonce.
    pub nonce_at: usize,
    /// How many bytes it has.
    pub nonce_length: usize,
    /// The offset of the value of PASSWORD-ALGORITHMS, or 0.
    pub algorithms_at: usize,
    /// How many bytes it has.
    pub algorithms_length: usize,
    /// The number of the password algorithm of the key.
    pub password_algorithm: u32,
    /// 1 if the request names its user by USERHASH.
    pub anonymous: u32,
    /// The number of the algorithm by which the request is signed.
    pub integrity_algorithm: u32,
    /// 0.
    pub reserved: u32,
}

/// Why a request isn't sent again.
pub(crate) fn no_retry(reason: NoRetry) -> CResult
    ensures { result ≡ retry_answer reason }
{
    match reason {
        NoRetry::NotAChallenge => plain(codes::NOT_A_CHALLENGE),
        NoRetry::BidDown => plain(codes::BID_DOWN),
        NoRetry::Incomplete => plain(codes::INCOMPLETE),
        NoRetry::NoAlgorithm => plain(codes::NO_ALGORITHM),
        NoRetry::SameCredentials => plain(codes::SAME_CREDENTIALS),
    }
}

/// The offset of the value of the first attribute of a type; 0 if there is none.
pub(crate) fn value_at(response: &[u8], atype: u16) -> usize
    ensures { result ≡ value_at atype response.now }
{
    match first_shown(response, atype) {
        Some(attribute) => attribute.value_at,
        None => 0,
    }
}

/// What a response asks for, as C sees it.
fn in_c(response: &[u8], retry: &Retry<'_>) -> CChallenge
    ensures { result ≡ in_c response.now (retry_of retry.now) }
{
    let challenge = &retry.challenge;
    CChallenge {
        realm_at: value_at(response, REALM),
        realm_length: challenge.realm().len(),
        nonce_at: value_at(response, NONCE),
        nonce_length: challenge.nonce().len(),
        algorithms_at: value_at(response, PASSWORD_ALGORITHMS),
        algorithms_length: challenge.password_algorithms().map_or(0, |list| list.len()),
        password_algorithm: match retry.algorithm {
            PasswordAlgorithmValue::MD5 => 1,
            PasswordAlgorithmValue::SHA256 => 2,
        },
        anonymous: u32::from(challenge.is_anonymous()),
        integrity_algorithm: number_of(challenge.integrity_algorithm()),
        reserved: 0,
    }
}

/// The realm in which credentials were tried, if C passes one; an error if it isn't UTF-8.
fn tried_in(was_tried: bool, realm: &[u8]) -> Result<Option<&str>, CResult>
    ensures { let tried = tried_in was_tried realm.now in MatchResult result
        (λ reported. (tried_answer tried ≡ None) × (option_map (λ text. text.now) reported ≡ tried))
        (λ answer. tried_answer tried ≡ Some answer) }
{
    if !was_tried {
        return Ok(None);
    }
    match text_in(realm) {
        Some(text) => Ok(Some(text)),
        None => Err(plain(codes::INVALID_DATA)),
    }
}

/// What a response asks for.
fn asked_by(
    response: &[u8],
    supported: &AlgorithmList,
    tried: Option<&str>,
    had_algorithms: bool,
    asked: &mut CChallenge,
) -> CResult
    ensures { ReadsFor (take supported.now.count supported.now.all)
        (option_map (λ text. text.now) tried.entry) had_algorithms response.now result
        asked.old asked.new }
{
    let message = match Message::from_bytes(response) {
        Ok(message) => message,
        Err(error) => return parse_result(error),
    };
    match challenge_of(&message, supported.as_slice(), tried, had_algorithms) {
        Ok(retry) => {
            *asked = in_c(response, &retry);
            plain(codes::OK)
        }
        Err(reason) => no_retry(reason),
    }
}

/// What a 401 or a 438 asks the next request to carry.
#[unsafe(no_mangle)]
pub extern "C" fn stun_types_challenge_of(
    response: &[u8],
    supported: &[u16],
    was_tried: bool,
    tried: &[u8],
    had_algorithms: bool,
    asked: &mut CChallenge,
) -> CResult
    ensures { ReadsChallenge supported.now (tried_in was_tried tried.now) had_algorithms
        response.now result asked.old asked.new }
{
    let Some(supported) = algorithms_of(supported) else {
        return plain(codes::BAD_ARGUMENT);
    };
    match tried_in(was_tried, tried) {
        Ok(tried) => asked_by(response, &supported, tried, had_algorithms, asked),
        Err(answer) => answer,
    }
}
