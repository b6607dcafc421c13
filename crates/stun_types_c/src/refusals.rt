//! The error response to a request that a server refuses, and the security features that its nonces
//! promise.

ghost use Rattle.std.specs.Prelude.{◌≡◌, ◌⊎◌, ◌≤◌, Some, None, length, take, MatchResult};
ghost use Rattle.std.specs.Option.{option_map};
ghost use Rattle.stun_base.specs.MessageTypes.{class_of};
ghost use Rattle.stun_base.specs.declared.message_class.MessageClass.TheVariants.{Request};
ghost use Rattle.stun_grammar.specs.Headers.{type_field};
ghost use Rattle.stun_types.specs.Message.{message_bytes};
ghost use Rattle.stun_attributes.specs.Texts.{text_bytes};
ghost use Rattle.stun_authentication.specs.Cookies.{security_features};
ghost use Rattle.stun_authentication.specs.Asking.{asked_in};
ghost use Rattle.stun_types_c.specs.CResults.{plain};
ghost use Rattle.stun_types_c.specs.Codes.{OUT_OF_MEMORY};
ghost use Rattle.stun_types_c.specs.Refusals.{message_answer, short_term_refusal, long_term_refusal, algorithms_in, text_answer, texts_answer, list_answer, asked_of, Delivers, WritesRefusal, RefusesShortTerm, RefusesAsking, RefusesLongTerm, features_named, TellsCookie, TellsFeatures};

use crate::call_result::{CResult, counted, parse_result, plain, write_result};
use crate::codes;
use crate::password_algorithms::{AlgorithmList, algorithms_of};
use crate::values::text_in;
use std::alloc::Global;
use stun_authentication::{
    Challenge, ChallengeError, Refusal, SecurityFeatures, nonce_cookie, refuse_long_term,
    refuse_short_term, security_features,
};
use stun_types::attribute::{Nonce, PasswordAlgorithmValue, Realm};
use stun_types::message::{Message, MessageClass, MessageWriteVec};
use stun_types::prelude::*;

/// The beginning of a nonce that promises security features.
#[repr(C)]
#[derive(Clone, Copy, Drop)]
pub struct Cookie {
    /// The thirteen bytes.
    pub bytes: [u8; 13],
}

/// What a refusal under long-term credentials asks for.
#[repr(C)]
#[derive(Clone, Copy, Drop)]
pub struct CAsked<'a> {
    /// The text of the realm.
    pub realm: &'a [u8],
    /// The text of the nonce.
    pub nonce: &'a [u8],
    /// The numbers of the password algorithms, the preferred one first.
    pub algorithms: &'a [u16],
    /// 0.
    pub reserved: u64,
}

/// The request that C passes.
pub(crate) fn request_in(bytes: &[u8]) -> Result<Message<'_>, CResult>
    ensures { MatchResult result
        (λ message. (message_answer bytes.now ≡ None) × (message_bytes message ≡ bytes.now)
        × (class_of (type_field bytes.now) ≡ Request))
        (λ answer. message_answer bytes.now ≡ Some answer) }
{
    let message = match Message::from_bytes(bytes) {
        Ok(message) => message,
        Err(error) => return Err(parse_result(error)),
    };
    if message.class() != MessageClass::Request {
        return Err(plain(codes::NOT_A_REQUEST));
    }
    Ok(message)
}

/// The refusal of a code under short-term credentials.
fn short_term_refusal(code: u32) -> Option<Refusal>
    ensures { result ≡ short_term_refusal code }
{
    match code {
        400 => Some(Refusal::BadRequest),
        401 => Some(Refusal::Unauthenticated),
        _ => None,
    }
}

/// The refusal of a code under long-term credentials.
fn long_term_refusal(code: u32) -> Option<Refusal>
    ensures { result ≡ long_term_refusal code }
{
    match code {
        438 => Some(Refusal::StaleNonce),
        _ => short_term_refusal(code),
    }
}

/// Writes a message at the start of a slice, if that has room for it.
pub(crate) fn deliver(message: &[u8], room: &mut [u8], written: &mut usize) -> CResult
    ensures { Delivers message.now result
        (record { slice = room.old; count = written.old })
        (record { slice = room.new; count = written.new }) }
{
    if room.len() < message.len() {
        return counted(codes::TOO_SMALL, message.len(), room.len());
    }
    room[..message.len()].copy_from_slice(message);
    *written = message.len();
    plain(codes::OK)
}

/// Refuses a request by short-term credentials.
#[unsafe(no_mangle)]
pub extern "C" fn stun_types_refuse_short_term(
    alloc: Global,
    request: &[u8],
    code: u32,
    room: &mut [u8],
    written: &mut usize,
) -> CResult
    ensures { RefusesShortTerm request.now code result
        (record { slice = room.old; count = written.old })
        (record { slice = room.new; count = written.new }) }
{
    let message = match request_in(request) {
        Ok(message) => message,
        Err(answer) => return answer,
    };
    let Some(refusal) = short_term_refusal(code) else {
        return plain(codes::BAD_ARGUMENT);
    };
    match refuse_short_term(alloc, &message, refusal, MessageWriteVec::new(alloc)) {
        Ok(write) => deliver(&write.finish(), room, written),
        Err(error) => write_result(error),
    }
}

/// The REALM of C's bytes.
pub(crate) fn realm_of(alloc: Global, bytes: &[u8]) -> Result<Realm, CResult>
    ensures { MatchResult result
        (λ realm. (text_answer bytes.now ≡ None) × (text_bytes realm ≡ bytes.now))
        (λ answer. (text_answer bytes.now ≡ Some answer) ⊎ (answer ≡ plain OUT_OF_MEMORY)) }
{
    let Some(text) = text_in(bytes) else {
        return Err(plain(codes::INVALID_DATA));
    };
    match Realm::new(alloc, text) {
        Ok(realm) => Ok(realm),
        Err(error) => Err(write_result(error)),
    }
}

/// The NONCE of C's bytes.
fn nonce_of(alloc: Global, bytes: &[u8]) -> Result<Nonce, CResult>
    ensures { MatchResult result
        (λ nonce. (text_answer bytes.now ≡ None) × (text_bytes nonce ≡ bytes.now))
        (λ answer. (text_answer bytes.now ≡ Some answer) ⊎ (answer ≡ plain OUT_OF_MEMORY)) }
{
    let Some(text) = text_in(bytes) else {
        return Err(plain(codes::INVALID_DATA));
    };
    match Nonce::new(alloc, text) {
        Ok(nonce) => Ok(nonce),
        Err(error) => Err(write_result(error)),
    }
}

/// The REALM and the NONCE of C's bytes.
fn texts_of(alloc: Global, realm: &[u8], nonce: &[u8]) -> Result<(Realm, Nonce), CResult>
    ensures { MatchResult result
        (λ texts. (texts_answer realm.now nonce.now ≡ None)
        × (text_bytes texts.0 ≡ realm.now) × (text_bytes texts.1 ≡ nonce.now))
        (λ answer. (texts_answer realm.now nonce.now ≡ Some answer)
        ⊎ (answer ≡ plain OUT_OF_MEMORY)) }
{
    let realm = realm_of(alloc, realm)?;
    let nonce = nonce_of(alloc, nonce)?;
    Ok((realm, nonce))
}

/// What a realm, a nonce and algorithms ask for.
pub(crate) fn challenge_with<'a>(
    alloc: Global,
    realm: &'a Realm,
    nonce: &'a Nonce,
    algorithms: &[PasswordAlgorithmValue],
) -> Result<Challenge<'a>, CResult>
    requires { length algorithms.now ≤ 16 }
    ensures { let asked = asked_of (text_bytes realm.now) (text_bytes nonce.now) algorithms.now in
        MatchResult result
        (λ challenge. (list_answer asked ≡ None) × (asked_in challenge ≡ asked))
        (λ answer. (list_answer asked ≡ Some answer) ⊎ (answer ≡ plain OUT_OF_MEMORY)) }
{
    match Challenge::new(alloc, realm, nonce, algorithms) {
        Ok(challenge) => Ok(challenge),
        Err(ChallengeError::OutOfMemory) => Err(plain(codes::OUT_OF_MEMORY)),
        Err(_) => Err(plain(codes::BAD_ARGUMENT)),
    }
}

/// Writes the response that refuses a request by long-term credentials, with what it asks for.
pub(crate) fn write_refusal(
    alloc: Global,
    message: &Message<'_>,
    refusal: Refusal,
    challenge: &Challenge<'_>,
    room: &mut [u8],
    written: &mut usize,
) -> CResult
    requires { class_of (type_field (message_bytes message.now)) ≡ Request }
    ensures { WritesRefusal (message_bytes message.now) refusal (Some (asked_in challenge.now)) result
        (record { slice = room.old; count = written.old })
        (record { slice = room.new; count = written.new }) }
{
    match refuse_long_term(
        alloc,
        message,
        refusal,
        challenge,
        MessageWriteVec::new(alloc),
    ) {
        Ok(write) => deliver(&write.finish(), room, written),
        Err(error) => write_result(error),
    }
}

/// Refuses a request by long-term credentials, if its realm, nonce and algorithms ask for something.
fn refuse_asking(
    alloc: Global,
    message: &Message<'_>,
    refusal: Refusal,
    realm: &[u8],
    nonce: &[u8],
    algorithms: &AlgorithmList,
    room: &mut [u8],
    written: &mut usize,
) -> CResult
    requires { class_of (type_field (message_bytes message.now)) ≡ Request }
    ensures { RefusesAsking (message_bytes message.now) refusal
        (asked_of realm.now nonce.now (take algorithms.now.count algorithms.now.all)) result
        (record { slice = room.old; count = written.old })
        (record { slice = room.new; count = written.new }) }
{
    let (realm, nonce) = match texts_of(alloc, realm, nonce) {
        Ok(texts) => texts,
        Err(answer) => return answer,
    };
    match challenge_with(alloc, &realm, &nonce, algorithms.as_slice()) {
        Ok(challenge) => write_refusal(alloc, message, refusal, &challenge, room, written),
        Err(answer) => answer,
    }
}

/// The algorithms that a refusal names, if C passes one of this version.
fn algorithms_in(asked: &CAsked<'_>) -> Option<AlgorithmList>
    ensures { algorithms_in asked.now
        ≡ option_map (λ list. take list.count list.all) result }
{
    if asked.reserved != 0 {
        return None;
    }
    algorithms_of(asked.algorithms)
}

/// Refuses a request by long-term credentials.
#[unsafe(no_mangle)]
pub extern "C" fn stun_types_refuse_long_term(
    alloc: Global,
    request: &[u8],
    code: u32,
    asked: &CAsked<'_>,
    room: &mut [u8],
    written: &mut usize,
) -> CResult
    ensures { RefusesLongTerm request.now code asked.now result
        (record { slice = room.old; count = written.old })
        (record { slice = room.new; count = written.new }) }
{
    let message = match request_in(request) {
        Ok(message) => message,
        Err(answer) => return answer,
    };
    let Some(refusal) = long_term_refusal(code) else {
        return plain(codes::BAD_ARGUMENT);
    };
    match algorithms_in(asked) {
        Some(algorithms) => {
            refuse_asking(
                alloc,
                &message,
                refusal,
                asked.realm,
                asked.nonce,
                &algorithms,
                room,
                written,
            )
        }
        None => plain(codes::BAD_ARGUMENT),
    }
}

/// The features of a number.
pub(crate) fn features_of(number: u32) -> Option<SecurityFeatures>
    ensures { result ≡ features_named number }
{
    match number {
        0 => Some(SecurityFeatures {
            password_algorithms: false,
            username_anonymity: false,
        }),
        1 => Some(SecurityFeatures {
            password_algorithms: true,
            username_anonymity: false,
        }),
        2 => Some(SecurityFeatures {
            password_algorithms: false,
            username_anonymity: true,
        }),
        3 => Some(SecurityFeatures {
            password_algorithms: true,
            username_anonymity: true,
        }),
        _ => None,
    }
}

/// The beginning of the nonces of a server with these features.
#[unsafe(no_mangle)]
pub extern "C" fn stun_types_nonce_cookie(features: u32, cookie: &mut Cookie) -> CResult
    ensures { TellsCookie features result cookie.old cookie.new }
{
    let Some(features) = features_of(features) else {
        return plain(codes::BAD_ARGUMENT);
    };
    let mut bytes = [0; 13];
    bytes.copy_from_slice(nonce_cookie(features).as_bytes());
    *cookie = Cookie { bytes };
    plain(codes::OK)
}

/// The features that a nonce promises; false if it begins with no nonce cookie.
#[unsafe(no_mangle)]
pub extern "C" fn stun_types_security_features(nonce: &[u8], features: &mut u32) -> bool
    ensures { TellsFeatures (security_features nonce.now) result features.old features.new }
{
    match security_features(nonce) {
        Some(reported) => {
            *features = u32::from(reported.password_algorithms)
                + 2 * u32::from(reported.username_anonymity);
            true
        }
        None => false,
    }
}
