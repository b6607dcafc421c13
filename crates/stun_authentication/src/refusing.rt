//! The error response to a request that is refused.

ghost use Rattle.std.specs.Prelude.{◌≡◌, ◌≢◌, [], None, Some, IfOk, MatchResult};
ghost use Rattle.std.specs.Option.{option_map};
ghost use Rattle.stun_base.specs.MessageTypes.{class_of};
ghost use Rattle.stun_base.specs.declared.message_class.MessageClass.TheVariants.{Request};
ghost use Rattle.stun_attributes.specs.ErrorCodes.{IsError};
ghost use Rattle.stun_grammar.specs.Adding.{Fits};
ghost use Rattle.stun_grammar.specs.Headers.{type_field};
ghost use Rattle.stun_types.specs.Message.{message_bytes};
ghost use Rattle.stun_authentication.specs.declared.answer.Refusal.TheVariants.{StaleNonce};
ghost use Rattle.stun_authentication.specs.Answers.{refusal_code, refusal_reason};
ghost use Rattle.stun_authentication.specs.Asking.{asked_in};
ghost use Rattle.stun_authentication.specs.Refusing.{asked_attributes, carried, refusal_of, refusal_sizes};
ghost use Rattle.stun_authentication.specs.Writing.{Lengthens, FailsFor, no_room};

use crate::attributes::{add_bytes, add_error};
use crate::writing::{add_copies, add_print};
use crate::{Challenge, Refusal};
use std::alloc::Global;
use stun_types::attribute::{AttributeStaticType, ErrorCode, Fingerprint, PasswordAlgorithms};
use stun_types::message::{Message, StunWriteError};
use stun_types::prelude::*;

/// Adds what a response asks for: REALM and NONCE, and PASSWORD-ALGORITHMS if there is a list.
fn add_asked<B: MessageWrite>(
    challenge: &Challenge<'_>,
    write: &mut B,
) -> Result<(), StunWriteError>
    ensures { Lengthens result (B.state write.old) (B.state write.new)
        (asked_attributes (asked_in challenge.now)) }
{
    add_copies(challenge, write)?;
    match challenge.password_algorithms() {
        Some(list) => add_bytes(PasswordAlgorithms::TYPE, list, write),
        None => Ok(()),
    }
}

/// Adds what a refusal carries beside its code.
fn add_carried<B: MessageWrite>(
    refusal: Refusal,
    challenge: Option<&Challenge<'_>>,
    write: &mut B,
) -> Result<(), StunWriteError>
    ensures { Lengthens result (B.state write.old) (B.state write.new)
        (carried refusal (option_map (λ one. asked_in one.now) challenge.entry)) }
{
    match (refusal, challenge) {
        (Refusal::Unauthenticated, Some(challenge)) => add_asked(challenge, write),
        (Refusal::StaleNonce, Some(challenge)) => add_asked(challenge, write),
        _ => Ok(()),
    }
}

/// The ERROR-CODE of a refusal.
fn error_of(alloc: Global, refusal: Refusal) -> Result<ErrorCode, StunWriteError>
    ensures { MatchResult result
        (IsError (refusal_code refusal) (refusal_reason refusal))
        (λ e. e ≡ StunWriteError.OutOfMemory) }
{
    ErrorCode::new(alloc, refusal.code(), refusal.reason())
}

/// Writes the error response to a request, with what it asks for, if it asks for something.
fn refuse<B: MessageWrite + Drop>(
    alloc: Global,
    request: &Message<'_>,
    refusal: Refusal,
    challenge: Option<&Challenge<'_>>,
    write: B,
) -> Result<B, StunWriteError>
    requires request { class_of (type_field (message_bytes request.now)) ≡ Request }
    requires empty { (B.state write).bytes ≡ [] }
    requires room { Fits (B.state write).greatest 20 }
    ensures text { let r = message_bytes request.now in
        IfOk result (λ w. (B.state w).bytes ≡ refusal_of r refusal (option_map (λ one. asked_in one.now) challenge.entry)) }
    ensures answer { let r = message_bytes request.now in
        FailsFor (no_room (B.state write).greatest 20
        (refusal_sizes r refusal (option_map (λ one. asked_in one.now) challenge.entry))) result }
{
    let error = error_of(alloc, refusal)?;
    let mut write = Message::builder_error(request, write)?;
    add_error(&error, &mut write)?;
    add_carried(refusal, challenge, &mut write)?;
    add_print(request.has_attribute(Fingerprint::TYPE), &mut write)?;
    Ok(write)
}

/// Writes the error response to a request that was refused under short-term credentials: its
/// ERROR-CODE, with the reason phrase of RFC 8489, and a FINGERPRINT if the request has one. It
/// isn't signed, and has no USERNAME (section 9.1.3). More attributes can be added only if there
/// is no FINGERPRINT.
///
/// # Requires
///
/// `request` is a request, and the writer is as for `Message::builder`. `refusal` isn't
/// `StaleNonce`, which [`authenticate_short_term`](crate::authenticate_short_term) never returns:
/// there are no nonces.
///
/// # Errors
///
/// `OutOfMemory` if an allocation failed. Else the first attribute that doesn't fit decides:
///
/// - `TooSmall { expected, actual }` if the message would be longer with it than the writer takes:
///   that length, and [`MessageWrite::max_size`];
/// - `TooLarge { expected: 65555, actual }` if it would be longer than a message may be.
///
/// # Examples
///
/// ```
/// use stun_authentication::{Refusal, refuse_short_term, response_code};
/// use stun_types::message::{Message, MessageWriteVec};
/// use stun_types::prelude::*;
///
/// // This request isn't signed.
/// let request = Message::from_bytes(
///     b"\x00\x01\x00\x00\x21\x12\xA4\x42\xB7\xE7\xA7\x01\xBC\x34\xD6\x86\xFA\x87\xDF\xAE",
/// )?;
/// let vector = MessageWriteVec::new(alloc);
/// let bytes = refuse_short_term(alloc, &request, Refusal::BadRequest, vector)?.finish();
/// let response = Message::from_bytes(&bytes)?;
/// assert!(rt; response.answers(&request) && response_code(&response) == Some(400));
/// ```
pub fn refuse_short_term<B: MessageWrite + Drop>(
    alloc: Global,
    request: &Message<'_>,
    refusal: Refusal,
    write: B,
) -> Result<B, StunWriteError>
    requires request { class_of (type_field (message_bytes request.now)) ≡ Request }
    requires no_nonce { refusal ≢ StaleNonce }
    requires empty { (B.state write).bytes ≡ [] }
    requires room { Fits (B.state write).greatest 20 }
    ensures text { let r = message_bytes request.now in
        IfOk result (λ w. (B.state w).bytes ≡ refusal_of r refusal None) }
    ensures answer { let r = message_bytes request.now in
        FailsFor (no_room (B.state write).greatest 20 (refusal_sizes r refusal None)) result }
{
    refuse(alloc, request, refusal, None, write)
}

/// Writes the error response to a request that was refused under long-term credentials: its
/// ERROR-CODE, with the reason phrase of RFC 8489; in a 401 or a 438 REALM, NONCE and
/// PASSWORD-ALGORITHMS, as `challenge` has them (section 9.2.4), and in a 400 none of these; and a
/// FINGERPRINT if the request has one. It isn't signed, and has no USERNAME and no USERHASH. More
/// attributes can be added only if there is no FINGERPRINT.
///
/// # Requires
///
/// `request` is a request, and the writer is as for `Message::builder`.
///
/// # Errors
///
/// As for [`refuse_short_term`].
///
/// # Examples
///
/// ```
/// use stun_authentication::{Challenge, Refusal, is_challenge, refuse_long_term};
/// use stun_types::attribute::{Nonce, PasswordAlgorithmValue, Realm};
/// use stun_types::message::{Message, MessageWriteVec};
/// use stun_types::prelude::*;
///
/// // An unsigned request, and what the server of section 20 of RFC 8656 asks for.
/// let request = Message::from_bytes(
///     b"\x00\x03\x00\x08\x21\x12\xA4\x42\xA5\x62\x50\xD3\xF1\x7A\xBE\x67\x94\x22\xDE\x85\
///       \x00\x19\x00\x04\x11\x00\x00\x00",
/// )?;
/// let nonce = Nonce::new(alloc, "obMatJos2gAAAadl7W7PeDU4hKE72jda")?;
/// let both = [PasswordAlgorithmValue::MD5, PasswordAlgorithmValue::SHA256];
/// let realm = Realm::new(alloc, "example.com")?;
/// let challenge = Challenge::new(alloc, &realm, &nonce, &both)?;
/// let (refusal, vector) = (Refusal::Unauthenticated, MessageWriteVec::new(alloc));
/// let bytes = refuse_long_term(alloc, &request, refusal, &challenge, vector)?.finish();
/// let response = Message::from_bytes(&bytes)?;
/// assert!(rt; response.answers(&request) && is_challenge(&response));
/// assert_eq!(rt; response.attribute::<Realm>(alloc)?.realm(), "example.com");
/// ```
pub fn refuse_long_term<B: MessageWrite + Drop>(
    alloc: Global,
    request: &Message<'_>,
    refusal: Refusal,
    challenge: &Challenge<'_>,
    write: B,
) -> Result<B, StunWriteError>
    requires request { class_of (type_field (message_bytes request.now)) ≡ Request }
    requires empty { (B.state write).bytes ≡ [] }
    requires room { Fits (B.state write).greatest 20 }
    ensures text { let r = message_bytes request.now in
        IfOk result (λ w. (B.state w).bytes ≡ refusal_of r refusal (Some (asked_in challenge.now))) }
    ensures answer { let r = message_bytes request.now in
        FailsFor (no_room (B.state write).greatest 20
        (refusal_sizes r refusal (Some (asked_in challenge.now)))) result }
{
    refuse(alloc, request, refusal, Some(challenge), write)
}
