//! A client's half of the long-term credential mechanism: whether a request is sent again with
//! credentials, and what an error response asks for (RFC 8489, section 9.2.5).

ghost use Rattle.std.specs.Prelude.{◌≡◌, ◌≤◌, Ok, Err, IfOk, IfSome, MatchResult, length};
ghost use Rattle.std.specs.Option.{option_map};
ghost use Rattle.stun_types.specs.Message.{message_bytes};
ghost use Rattle.stun_authentication.specs.Challenges.{retry_of, is_bid_down, text_of, selected, repeats, challenge_of};

use crate::Challenge;
use crate::algorithms::{first_listed, numbered};
use crate::attributes::value_of;
use crate::codes::{is_challenge, response_code};
use crate::cookie::security_features;
use std::alloc::{AllocError, Global};
use stun_types::attribute::{
    AttributeStaticType, AttributeType, ErrorCode, Nonce, PasswordAlgorithmValue,
    PasswordAlgorithms, Realm, read_text,
};
use stun_types::message::Message;
use stun_values::{NONCE_MAX, REALM_MAX};

/// How a request is sent again with credentials.
#[derive(Debug, Drop)]
pub struct Retry<'a> {
    /// What the request is asked to carry.
    pub challenge: Challenge<'a>,
    /// The password algorithm of the key, which the PASSWORD-ALGORITHM of the request names if there
    /// is a PASSWORD-ALGORITHMS: the first one on the list that is supported, and MD5 if there is no
    /// list.
    pub algorithm: PasswordAlgorithmValue,
}

/// Why a request isn't sent again with credentials.
#[derive(Clone, Copy, Debug, PartialEq, Eq)]
pub enum NoRetry {
    /// The message is no error response with the code 401 or 438.
    NotAChallenge,
    /// The response shows no PASSWORD-ALGORITHMS, and its nonce promises one, or the server sent
    /// one before. An attacker may have removed it, so that the client falls back to a weaker
    /// algorithm.
    BidDown,
    /// The response shows no REALM or no NONCE, or one that is no text.
    Incomplete,
    /// The client supports none of the algorithms on the list; or there is no list, and it doesn't
    /// support MD5.
    NoAlgorithm,
    /// The request that this 401 refuses had the same credentials, in the same realm.
    SameCredentials,
}

impl Retry<'_> {
    /// Copies what the challenge borrows into memory from `alloc`, as [`Challenge::into_owned`] does.
    ///
    /// # Errors
    ///
    /// Only if an allocation failed.
    pub fn into_owned(self, alloc: Global) -> Result<Retry<'static>, AllocError>
        ensures { IfOk result (λ owned. retry_of owned ≡ retry_of self.entry) }
    {
        let Retry {
            challenge,
            algorithm,
        } = self;
        Ok(Retry {
            challenge: challenge.into_owned(alloc)?,
            algorithm,
        })
    }
}

/// Returns `true` if the nonce of a response promises PASSWORD-ALGORITHMS, and the response shows
/// none: an attacker may have removed it (RFC 8489, sections 9.2.1 and 9.2.5). A client that uses
/// long-term credentials ignores such a response, and doesn't retry after such a 401 or 438.
///
/// # Examples
///
/// ```
/// use stun_authentication::is_bid_down;
/// use stun_types::message::Message;
///
/// // The 401 of section 20 of RFC 8656, after an attacker has removed PASSWORD-ALGORITHMS.
/// let response = Message::from_bytes(
///     b"\x01\x13\x00\x48\x21\x12\xA4\x42\xA5\x62\x50\xD3\xF1\x7A\xBE\x67\x94\x22\xDE\x85\
///       \x00\x09\x00\x10\x00\x00\x04\x01Unauthorized\x00\x14\x00\x0Bexample.com\x00\
///       \x00\x15\x00\x20obMatJos2gAAAadl7W7PeDU4hKE72jda",
/// )?;
/// assert!(rt; is_bid_down(&response));
/// ```
pub fn is_bid_down(response: &Message<'_>) -> bool
    ensures { result ≡ is_bid_down (message_bytes response.now) }
{
    match value_of(response, Nonce::TYPE) {
        Some(nonce) => {
            security_features(nonce).is_some_and(|features| features.password_algorithms)
                && !response.has_attribute(PasswordAlgorithms::TYPE)
        }
        None => false,
    }
}

/// The text in the first attribute of a type that a message shows.
fn text_of<'a>(message: &Message<'a>, atype: AttributeType, most: u16) -> Option<&'a str>
    ensures text { text_of most atype.0 (message_bytes message.now)
        ≡ option_map (λ text. text.now) result }
    ensures short { IfSome result (λ text. length text.now ≤ most) }
{
    read_text(value_of(message, atype)?, most).ok()
}

/// The algorithm of the key: the first one on the list that is supported, or MD5 without a list.
fn selected(
    supported: &[PasswordAlgorithmValue],
    list: Option<&[u8]>,
) -> Option<PasswordAlgorithmValue>
    ensures { result ≡ selected supported.now (option_map (λ value. value.now) list.entry) }
{
    match list {
        Some(list) => first_listed(supported, list),
        None => numbered(supported, 1),
    }
}

/// Whether a 401 refuses the credentials that were tried in a realm, and asks for them again.
fn repeats(response: &Message<'_>, tried: Option<&str>, realm: &str) -> bool
    ensures { result ≡ repeats (option_map (λ text. text.now) tried.entry) realm.now
        (message_bytes response.now) }
{
    if response_code(response) != Some(ErrorCode::UNAUTHORIZED) {
        return false;
    }
    match tried {
        Some(tried) => tried.as_bytes() == realm.as_bytes(),
        None => false,
    }
}

/// Returns what a 401 or a 438 asks the next request to carry, and the password algorithm that the
/// client selects; or why the request isn't sent again (RFC 8489, section 9.2.5). The challenge
/// borrows from the bytes of the response; [`Retry::into_owned`] copies them.
///
/// `supported` are the password algorithms that the client supports. Two more arguments say what
/// the client knows from earlier challenges; they are `None` and `false` for the first:
///
/// - `tried` is the realm in which the refused request had these credentials
///   ([`Challenge::realm`] of the challenge that it answered); `None` if it had none, or if the
///   user's name or password has changed since.
/// - `had_algorithms` is `true` if the server sent a list of password algorithms before
///   ([`Challenge::password_algorithms`] of an earlier challenge is `Some`). A client that knows that
///   the server was replaced, and that the new one sends no list, passes `false` too.
///
/// The request is sent again in a new transaction: [`answer_challenge`](crate::answer_challenge)
/// writes what it carries.
///
/// # Errors
///
/// The first of these that applies:
///
/// - `NotAChallenge` if the response is no error response with the code 401 or 438;
/// - `BidDown` if [`is_bid_down`] says so, or if the server sent a list before and this response has none;
/// - `Incomplete` if it shows no REALM or no NONCE, or one that is no text;
/// - `NoAlgorithm` if none of the algorithms on the list is supported, or if there is no list and
///   MD5 isn't;
/// - `SameCredentials` if it is a 401, and the credentials were tried in its realm.
///
/// # Examples
///
/// ```
/// use stun_authentication::{NoRetry, challenge_of};
/// use stun_types::attribute::PasswordAlgorithmValue;
/// use stun_types::message::Message;
///
/// // The 401 of section 20 of RFC 8656, without SOFTWARE.
/// let response = Message::from_bytes(
///     b"\x01\x13\x00\x54\x21\x12\xA4\x42\xA5\x62\x50\xD3\xF1\x7A\xBE\x67\x94\x22\xDE\x85\
///       \x00\x09\x00\x10\x00\x00\x04\x01Unauthorized\x00\x14\x00\x0Bexample.com\x00\
///       \x00\x15\x00\x20obMatJos2gAAAadl7W7PeDU4hKE72jda\
///       \x80\x02\x00\x08\x00\x01\x00\x00\x00\x02\x00\x00",
/// )?;
/// let supported = [PasswordAlgorithmValue::SHA256];
/// let retry = challenge_of(&response, &supported, None, false)?;
/// assert_eq!(rt; retry.challenge.realm(), "example.com");
/// assert_eq!(rt; retry.challenge.nonce(), "obMatJos2gAAAadl7W7PeDU4hKE72jda");
/// assert_eq!(rt; retry.algorithm, PasswordAlgorithmValue::SHA256);
/// // The same response to a request that had credentials of this realm refuses them.
/// let again = challenge_of(&response, &supported, Some("example.com"), false);
/// assert_eq!(rt; again.err(), Some(NoRetry::SameCredentials));
/// ```
pub fn challenge_of<'a>(
    response: &Message<'a>,
    supported: &[PasswordAlgorithmValue],
    tried: Option<&str>,
    had_algorithms: bool,
) -> Result<Retry<'a>, NoRetry>
    ensures { let retry = challenge_of supported.now (option_map (λ text. text.now) tried.entry)
        had_algorithms (message_bytes response.now) in
        MatchResult result (λ found. retry ≡ Ok (retry_of found)) (λ e. retry ≡ Err e) }
{
    if !is_challenge(response) {
        return Err(NoRetry::NotAChallenge);
    }
    let list = value_of(response, PasswordAlgorithms::TYPE);
    if is_bid_down(response) || (had_algorithms && list.is_none()) {
        return Err(NoRetry::BidDown);
    }
    let Some(realm) = text_of(response, Realm::TYPE, REALM_MAX) else {
        return Err(NoRetry::Incomplete);
    };
    let Some(nonce) = text_of(response, Nonce::TYPE, NONCE_MAX) else {
        return Err(NoRetry::Incomplete);
    };
    let Some(algorithm) = selected(supported, list) else {
        return Err(NoRetry::NoAlgorithm);
    };
    if repeats(response, tried, realm) {
        return Err(NoRetry::SameCredentials);
    }
    Ok(Retry {
        challenge: Challenge::of_response(realm, nonce, list),
        algorithm,
    })
}
