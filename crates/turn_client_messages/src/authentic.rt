//! How a request is signed, and whether its response is authentic (RFC 8489, section 9.2.5).

ghost use Rattle.std.specs.Prelude.{◌≡◌, is_some, option_copied};
ghost use Rattle.std.specs.Option.{option_map};
ghost use Rattle.stun_types.specs.Message.{message_bytes};
ghost use Rattle.stun_authentication.specs.Policies.{proved_at};
ghost use Rattle.stun_transactions.specs.Guards.{validated};
ghost use Rattle.turn_client_messages.specs.Pending.{mechanism_of, signed_by, signed_with, key_of, turn_policy, pending, is_authentic, realm_tried};
ghost use Rattle.turn_client_messages.specs.Requests.{method_for};
ghost use Rattle.turn_client_messages.specs.Views.{asked_of};
ghost use Rattle.turn_requests.specs.Requests.{credentials_in};

use crate::ClientRequest;
use stun_authentication::has_least_length;
use stun_transactions::{Mechanism, PendingRequest, ResponsePolicy, Signed};
use stun_types::TransportType;
use stun_types::message::{IntegrityAlgorithm, IntegrityKey, Message, Method, TransactionId};
use turn_attrs::methods;
use turn_client_machine::Kind;
use turn_requests::Login;

/// The method of a request.
pub(crate) fn method_for(kind: Kind) -> Method
    ensures { result ≡ method_for kind }
{
    match kind {
        Kind::Allocate => methods::ALLOCATE,
        Kind::Refresh | Kind::Delete => methods::REFRESH,
        Kind::Permit(_) => methods::CREATE_PERMISSION,
        Kind::Bind { .. } => methods::CHANNEL_BIND,
    }
}

/// The integrity attribute of an algorithm.
fn signed_by(algorithm: IntegrityAlgorithm) -> Signed
    ensures { result ≡ signed_by algorithm }
{
    match algorithm {
        IntegrityAlgorithm::Sha1 => Signed {
            sha1: true,
            sha256: false,
        },
        IntegrityAlgorithm::Sha256 => Signed {
            sha1: false,
            sha256: true,
        },
    }
}

/// The integrity attributes of a request with these credentials.
fn signed_with(login: Option<Login<'_>>) -> Signed
    ensures { result ≡ signed_with (credentials_in login.entry) }
{
    match login {
        Some(login) => signed_by(login.retry.challenge.integrity_algorithm()),
        None => Signed {
            sha1: false,
            sha256: false,
        },
    }
}

/// The mechanism that protects a request with these credentials.
fn mechanism_of(login: Option<Login<'_>>) -> Mechanism
    ensures { result ≡ mechanism_of (credentials_in login.entry) }
{
    match login {
        Some(_) => Mechanism::LongTerm,
        None => Mechanism::FirstLongTerm,
    }
}

/// The key of these credentials.
pub(crate) fn key_of<'a>(login: Option<Login<'a>>) -> Option<&'a IntegrityKey>
    ensures { option_copied result ≡ key_of (credentials_in login.entry) }
{
    match login {
        Some(login) => Some(login.key),
        None => None,
    }
}

/// The realm in which these credentials were tried.
pub(crate) fn realm_tried<'a>(login: Option<Login<'a>>) -> Option<&'a str>
    ensures { option_map (λ text. text.now) result ≡ realm_tried (credentials_in login.entry) }
{
    match login {
        Some(login) => Some(login.retry.challenge.realm()),
        None => None,
    }
}

/// The request as judging its response needs it.
pub(crate) fn pending(request: &ClientRequest<'_>, transport: TransportType) -> PendingRequest
    ensures { result ≡ pending transport (asked_of request.now) }
{
    PendingRequest {
        transport,
        method: method_for(request.request.kind),
        id: TransactionId::from(request.request.id),
        signed: signed_with(request.login),
        mechanism: Some(mechanism_of(request.login)),
        usage: ResponsePolicy {
            min_hmac_length: 32,
            fingerprint: false,
        },
    }
}

/// Whether the HMAC in a message is right under a key, and whole.
fn is_proved(key: &IntegrityKey, message: &Message<'_>) -> bool
    ensures { let d = message_bytes message.now in
        result ≡ is_some (proved_at 32 d (validated key.now d)) }
{
    match message.validate_integrity_with_key(key) {
        Ok(algorithm) => has_least_length(32, algorithm, message),
        Err(_) => false,
    }
}

/// Whether an integrity attribute authenticates a response.
pub(crate) fn is_authentic(request: &ClientRequest<'_>, message: &Message<'_>) -> bool
    ensures { result ≡ is_authentic (asked_of request.now) (message_bytes message.now) }
{
    match request.login {
        Some(login) => is_proved(login.key, message),
        None => false,
    }
}
