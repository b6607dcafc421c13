//! A server's checks by the short-term credential mechanism (RFC 8489, section 9.1.3).

ghost use Rattle.std.specs.Prelude.{◌≡◌, ◌≢◌, false, Some, IfOk, IsOk};
ghost use Rattle.stun_grammar.specs.AttributeTypes.{USERNAME};
ghost use Rattle.stun_types.specs.Message.{message_bytes};
ghost use Rattle.stun_authentication.specs.Answers.{Tells};
ghost use Rattle.stun_authentication.specs.Identities.{value_of};
ghost use Rattle.stun_authentication.specs.Lookups.{key_held};
ghost use Rattle.stun_authentication.specs.ShortTerm.{by_key, needs_key, short_term};

use crate::answer::rejected;
use crate::attributes::value_of;
use crate::{Accepted, Authentication, Identity, Policy, Refusal, ShortTermKeys};
use std::alloc::{AllocError, Global};
use stun_types::attribute::{AttributeStaticType, Username};
use stun_types::message::{IntegrityKey, Message};

/// The checks that need the key: whether an integrity attribute counts with it, and the HMAC.
#[tactic(auto, using(crate::proofs::ProvesLemmas::short_accepted))]
fn by_key<'a>(
    message: &Message<'a>,
    policy: Policy,
    username: &'a [u8],
    key: IntegrityKey,
) -> Authentication<'a>
    requires { value_of (message_bytes message.now) USERNAME ≡ Some username.now }
    ensures { Tells (by_key policy (Some (key_held key)) (message_bytes message.now)) result }
{
    if !policy.is_signed_for(&key, message) {
        return rejected(message, Refusal::BadRequest);
    }
    match policy.proof_of(key, message) {
        Some((key, algorithm)) => Authentication::Accepted(Accepted {
            user: Identity::Name(username),
            key,
            algorithm,
            reply_algorithm: algorithm,
        }),
        None => rejected(message, Refusal::Unauthenticated),
    }
}

/// The checks, in their order.
#[tactic(auto, using(crate::proofs::ProvesLemmas::short_user))]
fn checked<'a, K: ShortTermKeys>(
    alloc: Global,
    message: &Message<'a>,
    policy: Policy,
    keys: &K,
) -> Result<Authentication<'a>, AllocError>
    ensures decision { IfOk result
        (Tells (short_term policy (K.key_of keys.now) (message_bytes message.now))) }
    ensures memory { needs_key policy (message_bytes message.now) ≡ false → IsOk result }
{
    if !policy.is_taken(message) {
        return Ok(Authentication::Discarded);
    }
    if message.is_response() {
        return Ok(Authentication::NotARequest);
    }
    if !policy.is_signed(message) {
        return Ok(rejected(message, Refusal::BadRequest));
    }
    let Some(username) = value_of(message, Username::TYPE) else {
        return Ok(rejected(message, Refusal::BadRequest));
    };
    match keys.key(alloc, username)? {
        Some(key) => Ok(by_key(message, policy, username, key)),
        None => Ok(rejected(message, Refusal::Unauthenticated)),
    }
}

/// Authenticates a request or an indication by short-term credentials, in the order of RFC 8489,
/// section 9.1.3. The first of these that applies:
///
/// - Without a FINGERPRINT it is discarded, if the usage uses them (section 6.3).
/// - A response is [`Authentication::NotARequest`]: it is the client's to check.
/// - Without an integrity attribute that counts (see [`Policy`]), or without USERNAME, it is
///   rejected as a bad request.
/// - If `keys` has no key for the USERNAME, it is rejected as unauthenticated.
/// - If the key was made for one algorithm, only that one's integrity attribute counts: without it,
///   the message is rejected as a bad request, like an unsigned one.
/// - If its last integrity attribute that counts isn't the HMAC under the key, or has fewer
///   bytes than the policy asks for, it is rejected as unauthenticated.
/// - Otherwise it is accepted, with the user, the key and the algorithm of that attribute: the reply
///   is signed by this key and algorithm, and by one integrity attribute alone. It has no USERNAME.
///
/// A request is rejected by an error response, 400 or 401, without USERNAME, MESSAGE-INTEGRITY and
/// MESSAGE-INTEGRITY-SHA256, as [`refuse_short_term`](crate::refuse_short_term) writes it; an
/// indication is discarded.
///
/// # Errors
///
/// Only if an allocation failed, while `keys` looked for the key.
///
/// # Examples
///
/// ```
/// use stun_authentication::{
///     Authentication, Identity, Logins, Policy, authenticate_short_term,
/// };
/// use stun_types::message::{IntegrityAlgorithm, LongTermCredentials, Message};
///
/// // The check of section 2.1 of RFC 5769.
/// let request = Message::from_bytes(
///     b"\x00\x01\x00\x58\x21\x12\xA4\x42\xB7\xE7\xA7\x01\xBC\x34\xD6\x86\xFA\x87\xDF\xAE\
///       \x80\x22\x00\x10STUN test client\x00\x24\x00\x04\x6E\x00\x01\xFF\
///       \x80\x29\x00\x08\x93\x2F\xF9\xB1\x51\x26\x3B\x36\x00\x06\x00\x09evtj:h6vY   \
///       \x00\x08\x00\x14\x9A\xEA\xA7\x0C\xBF\xD8\xCB\x56\x78\x1E\xF2\xB5\xB2\xD3\xF2\x49\
///       \xC1\xB5\x71\xA2\x80\x28\x00\x04\xE5\x7A\x3B\xCF",
/// )?;
/// let name = String::from_str(alloc, "evtj:h6vY")?;
/// let password = String::from_str(alloc, "VOkJxbRl1RmTxUk/WvJxBt")?;
/// let users = [LongTermCredentials::new(name, password)];
/// let policy = Policy { fingerprint: true, ..Policy::default() };
/// let answer = authenticate_short_term(alloc, &request, policy, &Logins::new(&users))?;
/// let Authentication::Accepted(accepted) = answer else {
///     return Err("the request is refused".into());
/// };
/// assert_eq!(rt; accepted.algorithm, IntegrityAlgorithm::Sha1);
/// assert!(rt; matches!(accepted.user, Identity::Name(name) if name == b"evtj:h6vY".as_slice()));
/// ```
pub fn authenticate_short_term<'a, K: ShortTermKeys>(
    alloc: Global,
    message: &Message<'a>,
    policy: Policy,
    keys: &K,
) -> Result<Authentication<'a>, AllocError>
    ensures decision { IfOk result
        (Tells (short_term policy (K.key_of keys.now) (message_bytes message.now))) }
    ensures memory { needs_key policy (message_bytes message.now) ≡ false → IsOk result }
    ensures no_nonce { IfOk result (λ answer. answer ≢ Authentication.Refused Refusal.StaleNonce) }
{
    checked(alloc, message, policy, keys)
}
