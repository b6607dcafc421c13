//! A server's checks by the long-term credential mechanism (RFC 8489, section 9.2.4).

ghost use Rattle.std.specs.Prelude.{◌≡◌, ◌||◌, true, false, Some, IfOk, IsOk, MatchOption, MatchResult};
ghost use Rattle.stun_grammar.specs.AttributeTypes.{NONCE};
ghost use Rattle.stun_types.specs.Message.{message_bytes};
ghost use Rattle.stun_authentication.specs.Answers.{discard, decided, Tells};
ghost use Rattle.stun_authentication.specs.Identities.{who, value_of, identity_of};
ghost use Rattle.stun_authentication.specs.Lookups.{key_held, known};
ghost use Rattle.stun_authentication.specs.LongTerm.{is_sent, chosen, reply_algorithm, lacks_credentials, has_two_names, shows_one_alone, shows_other_list, chooses_none_listed, by_key, needs_key, nonce_of, rows_of_message, IsAskedFor, long_term};

use crate::algorithms::{BOTH, first_listed, is_encoding_of, sole_named};
use crate::attributes::value_of;
use crate::cookie::security_features;
use crate::identity::identity_of;
use crate::{
    Accepted, Authentication, Identity, LongTermKeys, NonceState, Nonces, Policy, Refusal,
};
use std::alloc::{AllocError, Global};
use stun_types::attribute::{
    AttributeStaticType, Nonce, PasswordAlgorithm, PasswordAlgorithmValue, PasswordAlgorithms,
    Realm,
};
use stun_types::message::{IntegrityAlgorithm, IntegrityKey, Message, MessageClass};

/// Who a request says that it comes from, and its nonce. `None` if it shows neither USERNAME nor
/// USERHASH, or both, or no REALM, or no NONCE.
fn names_of<'a>(request: &Message<'a>) -> Option<(Identity<'a>, &'a [u8])>
    ensures { let d = message_bytes request.now in
        MatchOption result ((lacks_credentials d || has_two_names d) ≡ true)
        (λ found. ((lacks_credentials d || has_two_names d) ≡ false)
        × ((identity_of d ≡ Some (who found.0)) × (value_of d NONCE ≡ Some found.1.now))) }
{
    let user = identity_of(request)?;
    value_of(request, Realm::TYPE)?;
    Some((user, value_of(request, Nonce::TYPE)?))
}

/// Whether a list is the one that was sent with the nonce, as far as that is known.
fn is_sent(state: NonceState<'_>, list: &[u8]) -> bool
    ensures { result ≡ is_sent (known state.entry) list.now }
{
    match state {
        NonceState::Valid(sent) => is_encoding_of(list, sent),
        NonceState::Stale | NonceState::Unknown => true,
    }
}

/// The password algorithm that a request chooses, or `None` if it is processed as though with MD5.
///
/// # Errors
///
/// `BadRequest` if the nonce promises PASSWORD-ALGORITHMS, and the request shows only one of the
/// two attributes, a list that wasn't sent with the nonce, or an algorithm that isn't on it.
fn chosen(
    state: NonceState<'_>,
    nonce: &[u8],
    request: &Message<'_>,
) -> Result<Option<PasswordAlgorithmValue>, Refusal>
    requires { value_of (message_bytes request.now) NONCE ≡ Some nonce.now }
    ensures { let d = message_bytes request.now in
        let bad = shows_one_alone d
        || (shows_other_list (known state.entry) d || chooses_none_listed d) in
        MatchResult result (λ algorithm. (bad ≡ false) × (algorithm ≡ chosen d))
        (λ _. bad ≡ true) }
{
    if !security_features(nonce).is_some_and(|features| features.password_algorithms) {
        return Ok(None);
    }
    let one = value_of(request, PasswordAlgorithm::TYPE);
    let list = value_of(request, PasswordAlgorithms::TYPE);
    match (one, list) {
        (None, None) => Ok(None),
        (Some(one), Some(list)) if is_sent(state, list) => {
            let algorithm = sole_named(&BOTH, one).ok_or(Refusal::BadRequest)?;
            first_listed(&[algorithm], list).ok_or(Refusal::BadRequest)?;
            Ok(Some(algorithm))
        }
        _ => Err(Refusal::BadRequest),
    }
}

/// The checks that need the key: the HMAC, and then the nonce.
fn by_key<'a>(
    request: &Message<'a>,
    policy: Policy,
    state: NonceState<'_>,
    chosen: Option<PasswordAlgorithmValue>,
    user: Identity<'a>,
    key: IntegrityKey,
) -> Authentication<'a>
    requires { identity_of (message_bytes request.now) ≡ Some (who user) }
    ensures { Tells (by_key policy (known state.entry) chosen (Some (key_held key))
        (message_bytes request.now)) result }
{
    let Some((key, algorithm)) = policy.proof_of(key, request) else {
        return Authentication::Refused(Refusal::Unauthenticated);
    };
    match state {
        NonceState::Valid(_) => Authentication::Accepted(Accepted {
            user,
            key,
            algorithm,
            reply_algorithm: reply_algorithm(chosen),
        }),
        NonceState::Stale | NonceState::Unknown => Authentication::Refused(Refusal::StaleNonce),
    }
}

/// The algorithm that the reply is signed by.
fn reply_algorithm(chosen: Option<PasswordAlgorithmValue>) -> IntegrityAlgorithm
    ensures { result ≡ reply_algorithm chosen }
{
    match chosen {
        Some(_) => IntegrityAlgorithm::Sha256,
        None => IntegrityAlgorithm::Sha1,
    }
}

/// What a request asks the server's users for, if no check before that decides.
#[derive(Drop)]
struct Asked<'a, 'n> {
    user: Identity<'a>,
    state: NonceState<'n>,
    chosen: Option<PasswordAlgorithmValue>,
}

/// The checks before a key is looked up: for whose key the request asks, or what becomes of it without
/// one.
fn before_key<'a, 'n, N: Nonces>(
    request: &Message<'a>,
    policy: Policy,
    nonces: &'n N,
) -> Result<Asked<'a, 'n>, Authentication<'a>>
    ensures { let d = message_bytes request.now in let nonces = N.state_of nonces.now in
        MatchResult result (λ asked. (needs_key policy nonces d ≡ true)
        × IsAskedFor nonces d (who asked.user) (known asked.state) asked.chosen)
        (λ answer. (needs_key policy nonces d ≡ false)
        × Tells (decided (rows_of_message policy (nonce_of nonces d) d) discard) answer) }
{
    if !policy.is_taken(request) {
        return Err(Authentication::Discarded);
    }
    if !request.has_class(MessageClass::Request) {
        return Err(Authentication::NotARequest);
    }
    if !policy.is_signed(request) {
        return Err(Authentication::Refused(Refusal::Unauthenticated));
    }
    let Some((user, nonce)) = names_of(request) else {
        return Err(Authentication::Refused(Refusal::BadRequest));
    };
    let state = nonces.nonce(nonce);
    let Ok(chosen) = chosen(state, nonce, request) else {
        return Err(Authentication::Refused(Refusal::BadRequest));
    };
    Ok(Asked {
        user,
        state,
        chosen,
    })
}

/// Returns whether what becomes of a request depends on the key of its user: none of the checks of
/// [`authenticate_long_term`] decides that come before the key is looked up. A server whose look-up
/// takes time asks this first. It takes no memory.
///
/// # Examples
///
/// ```
/// use stun_authentication::{NonceMaker, Policy, SecurityFeatures, needs_key};
/// use stun_types::message::{IntegrityKey, Message};
///
/// let secret = IntegrityKey::new(alloc, &[7; 32], None)?;
/// let maker = NonceMaker::new(secret, SecurityFeatures::default(), 600)?;
/// let nonces = maker.nonces(1000, "192.0.2.1:32853".parse()?, &[]);
/// // A request that isn't signed is refused with 401, whoever sent it.
/// let request = Message::from_bytes(b"\x00\x01\x00\x00\x21\x12\xA4\x42abcdefghijkl")?;
/// assert!(rt; !needs_key(&request, Policy::default(), &nonces));
/// ```
pub fn needs_key<N: Nonces>(request: &Message<'_>, policy: Policy, nonces: &N) -> bool
    ensures { result ≡ needs_key policy (N.state_of nonces.now) (message_bytes request.now) }
{
    before_key(request, policy, nonces).is_ok()
}

/// Authenticates a request by long-term credentials, in the order of RFC 8489, section 9.2.4. The
/// first of these that applies:
///
/// - Without a FINGERPRINT it is discarded, if the usage uses them (section 6.3).
/// - What is no request is [`Authentication::NotARequest`]: the mechanism protects no indications
///   (section 9.2).
/// - Without an integrity attribute that counts (see [`Policy`]) it is refused with 401.
/// - Without REALM, without NONCE, with neither USERNAME nor USERHASH, or with both, it is refused
///   with 400.
/// - If the nonce promises PASSWORD-ALGORITHMS ([`security_features`]), and the request shows
///   PASSWORD-ALGORITHM or PASSWORD-ALGORITHMS, it must show both, the list must be the one that
///   was sent with the nonce, and the algorithm on that list: else it is refused with 400. A
///   PASSWORD-ALGORITHM names an algorithm by four bytes: neither MD5 nor SHA-256 has parameters, so
///   with more bytes it names none (`PasswordAlgorithm` reads the first four). It is processed with
///   that algorithm; in every other case as though with MD5.
/// - If `keys` has no key for the user, it is refused with 401.
/// - If its last integrity attribute that counts isn't the HMAC under the key, or has fewer
///   bytes than the policy asks for, it is refused with 401, as for an unknown user. If the key was
///   made for one algorithm, only that one's integrity attribute counts: without it, the request is
///   refused with 401, like an unsigned one.
/// - If the nonce isn't valid, it is refused with 438. It is looked at last: a wrong password
///   with a stale nonce is 401.
/// - Otherwise it is accepted, with the user and the key. The reply is signed by
///   MESSAGE-INTEGRITY-SHA256 alone, but by MESSAGE-INTEGRITY alone if the request was processed as
///   though with MD5.
///
/// The realm makes the key, and not the REALM of the request, which only has to be there. A 401 and
/// a 438 carry REALM and NONCE, and PASSWORD-ALGORITHMS if the nonce promises it; a 400 carries
/// none of these. None carries USERNAME, USERHASH or an integrity attribute.
/// [`refuse_long_term`](crate::refuse_long_term) writes them.
///
/// # Errors
///
/// Only if an allocation failed, while `keys` looked for the key: the third check and those before
/// it take no memory.
///
/// # Examples
///
/// ```
/// use rand::rngs::StdRng;
/// use rand::{Rng, make_rng};
/// use std::net::SocketAddr;
/// use stun_authentication::{
///     Authentication, Logins, NonceMaker, Policy, Refusal, SecurityFeatures,
///     authenticate_long_term,
/// };
/// use stun_types::message::{IntegrityKey, LongTermCredentials, Message};
///
/// // The request of section 2.4 of RFC 5769.
/// let request = Message::from_bytes(
///     b"\x00\x01\x00\x60\x21\x12\xA4\x42\x78\xAD\x34\x33\xC6\xAD\x72\xC0\x29\xDA\x41\x2E\
///       \x00\x06\x00\x12\xE3\x83\x9E\xE3\x83\x88\xE3\x83\xAA\xE3\x83\x83\xE3\x82\xAF\
///       \xE3\x82\xB9\x00\x00\x00\x15\x00\x1Cf//499k954d6OL34oL9FSTvy64sA\
///       \x00\x14\x00\x0Bexample.org\x00\x00\x08\x00\x14\xF6\x70\x24\x65\x6D\xD6\x4A\x3E\
///       \x02\xB8\xE0\x71\x2E\x85\xC9\xA2\x8C\xA8\x96\x66",
/// )?;
/// let name = String::from_str(alloc, "マトリックス")?;
/// let users = [LongTermCredentials::new(name, String::from_str(alloc, "TheMatrIX")?)];
/// let mut secret = [0; 32];
/// let mut rng: StdRng = make_rng(&rt)?;
/// rng.fill_bytes(&mut secret);
/// let secret = IntegrityKey::new(alloc, &secret, None)?;
/// let maker = NonceMaker::new(secret, SecurityFeatures::default(), 600)?;
/// let client: SocketAddr = "192.0.2.1:32853".parse()?;
/// let nonces = maker.nonces(1000, client, &[]);
/// let (policy, logins) = (Policy::default(), Logins::new(&users));
/// let answer =
///     authenticate_long_term(alloc, &request, "example.org", policy, &nonces, &logins)?;
/// // The password is right, and the nonce is none of this server's.
/// assert!(rt; matches!(answer, Authentication::Refused(Refusal::StaleNonce)));
/// ```
pub fn authenticate_long_term<'a, N: Nonces, K: LongTermKeys>(
    alloc: Global,
    request: &Message<'a>,
    realm: &str,
    policy: Policy,
    nonces: &N,
    keys: &K,
) -> Result<Authentication<'a>, AllocError>
    ensures decision { IfOk result (Tells (long_term policy realm.now (N.state_of nonces.now)
        (K.key_of keys.now) (message_bytes request.now))) }
    ensures memory { needs_key policy (N.state_of nonces.now) (message_bytes request.now) ≡ false
        → IsOk result }
{
    let Asked {
        user,
        state,
        chosen,
    } = match before_key(request, policy, nonces) {
        Ok(asked) => asked,
        Err(answer) => return Ok(answer),
    };
    let algorithm = chosen.unwrap_or(PasswordAlgorithmValue::MD5);
    match keys.key(alloc, user, realm, algorithm)? {
        Some(key) => Ok(by_key(request, policy, state, chosen, user, key)),
        None => Ok(Authentication::Refused(Refusal::Unauthenticated)),
    }
}
