//! Whether a Binding request is the peer's (RFC 8489, section 9.1.3), by the key that the agent keeps.

ghost use Rattle.std.specs.Prelude.{◌≡◌, IsSome, Some, true};
ghost use Rattle.stun_base.specs.MessageTypes.{class_of};
ghost use Rattle.stun_base.specs.declared.message_class.MessageClass.TheVariants.{Request};
ghost use Rattle.stun_grammar.specs.Headers.{type_field};
ghost use Rattle.stun_grammar.specs.AttributeTypes.{USERNAME};
ghost use Rattle.stun_grammar.specs.Verdicts.{is_checked_type, verdict};
ghost use Rattle.stun_keys.specs.Keys.{key_algorithm, key_bytes};
ghost use Rattle.stun_types.specs.Message.{message_bytes};
ghost use Rattle.stun_authentication.specs.Identities.{value_of};
ghost use Rattle.stun_authentication.specs.Lookups.{key_held};
ghost use Rattle.stun_authentication.specs.Policies.{is_fingerprinted, is_signed, is_signed_for, proof_of, shows_served};
ghost use Rattle.stun_authentication.specs.ShortTerm.{by_key, short_term};
ghost use Rattle.ice_checks.specs.Authentic.{Decides};
ghost use Rattle.ice_checks.specs.Judging.{policy};
ghost use Rattle.ice_checks.specs.Sessions.{key_of};
ghost use Rattle.ice_checks.specs.Views.{logins_of};

use crate::session::Session;
use stun_authentication::attributes::value_of;
use stun_authentication::{Refusal, has_least_length};
use stun_types::attribute::{
    AttributeStaticType, MessageIntegrity, MessageIntegritySha256, Username,
};
use stun_types::message::{IntegrityAlgorithm, IntegrityKey, Message};

/// The length of a whole HMAC-SHA256, in bytes.
const WHOLE: usize = 32;

/// Whether a message shows an integrity attribute of an algorithm, or of one of both (`None`).
fn shows_served(served: Option<IntegrityAlgorithm>, message: &Message<'_>) -> bool
    ensures { result ≡ shows_served served (message_bytes message.now) }
{
    match served {
        Some(IntegrityAlgorithm::Sha1) => message.has_attribute(MessageIntegrity::TYPE),
        Some(IntegrityAlgorithm::Sha256) => message.has_attribute(MessageIntegritySha256::TYPE),
        None => {
            message.has_attribute(MessageIntegrity::TYPE)
                || message.has_attribute(MessageIntegritySha256::TYPE)
        }
    }
}

/// The algorithm whose HMAC in a message is right under a key, and whole.
fn proof_of(key: &IntegrityKey, message: &Message<'_>) -> Option<IntegrityAlgorithm>
    ensures { result ≡ proof_of policy (key_held key.now) (message_bytes message.now) }
{
    match message.validate_integrity_with_key(key) {
        Ok(algorithm) if has_least_length(WHOLE, algorithm, message) => Some(algorithm),
        _ => None,
    }
}

/// The checks that need the key.
fn authenticate_by_key(
    key: &IntegrityKey,
    message: &Message<'_>,
) -> Result<IntegrityAlgorithm, Refusal>
    requires request { class_of (type_field (message_bytes message.now)) ≡ Request }
    requires named { IsSome (value_of (message_bytes message.now) USERNAME) }
    ensures { Decides (by_key policy (Some (key_held key.now)) (message_bytes message.now)) result }
{
    if !shows_served(key.algorithm(), message) {
        return Err(Refusal::BadRequest);
    }
    match proof_of(key, message) {
        Some(algorithm) => Ok(algorithm),
        None => Err(Refusal::Unauthenticated),
    }
}

/// Authenticates a Binding request with a FINGERPRINT: the decision of
/// [`authenticate_short_term`](stun_authentication::authenticate_short_term) with this look-up, without
/// memory. Returns the algorithm of the HMAC that is right.
pub(crate) fn authenticate(
    session: &Session<'_>,
    message: &Message<'_>,
) -> Result<IntegrityAlgorithm, Refusal>
    requires request { class_of (type_field (message_bytes message.now)) ≡ Request }
    requires fingerprint { is_fingerprinted (message_bytes message.now) ≡ true }
    ensures { Decides (short_term policy (key_of (logins_of session.now)) (message_bytes message.now)) result }
{
    if !shows_served(None, message) {
        return Err(Refusal::BadRequest);
    }
    let Some(username) = value_of(message, Username::TYPE) else {
        return Err(Refusal::BadRequest);
    };
    if !session.is_named(username) {
        return Err(Refusal::Unauthenticated);
    }
    authenticate_by_key(session.own.key, message)
}
