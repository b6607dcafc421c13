//! How a request is protected: by the credentials with which it was signed.

use crate::end::StunError;
use crate::validation::asked_algorithm;
use std::alloc::Global;
use stun_keys::keys::{key_of_bytes, key_of_texts};
use stun_transactions::Protection;
use stun_types::attribute::{
    AttributeStaticType, MessageIntegrity, MessageIntegritySha256, PasswordAlgorithmValue, Realm,
    Username,
};
use stun_types::message::{IntegrityKey, Message};
use stun_values::{TypedValue, read_value};

/// Whether a message shows an integrity attribute.
fn is_signed(message: &Message<'_>) -> bool {
    message.has_attribute(MessageIntegrity::TYPE)
        || message.has_attribute(MessageIntegritySha256::TYPE)
}

/// The text that the first attribute of a type has in a message, as a copy.
fn text_of<A: AttributeStaticType>(
    alloc: Global,
    message: &Message<'_>,
) -> Result<Option<String>, StunError> {
    let Some(raw) = message.raw_attribute(A::TYPE) else {
        return Ok(None);
    };
    match read_value(A::TYPE, raw.value().as_bytes()) {
        Some(Ok(TypedValue::Plain(text) | TypedValue::Quoted(text))) => {
            Ok(Some(String::from_str(alloc, text)?))
        }
        _ => Ok(None),
    }
}

/// The key of long-term credentials for a request: in its realm, of the user who is given or whom it
/// names, by the algorithm that it asks for.
fn long_term(
    alloc: Global,
    request: &Message<'_>,
    realm: &str,
    user: Option<&str>,
    password: &str,
) -> Result<IntegrityKey, StunError> {
    let asked = asked_algorithm(request).unwrap_or(PasswordAlgorithmValue::MD5);
    let algorithm = asked.as_integrity();
    if let Some(user) = user {
        return Ok(key_of_texts(alloc, user, realm, password, algorithm)?.for_both());
    }
    match text_of::<Username>(alloc, request)? {
        Some(user) => {
            Ok(key_of_texts(alloc, user.as_str(), realm, password, algorithm)?.for_both())
        }
        None => Err(StunError::Usage("the request doesn't name its user: name the user by --user")),
    }
}

/// Fails if a key didn't sign a request.
fn check_key(request: &Message<'_>, key: &IntegrityKey) -> Result<(), StunError> {
    match request.validate_integrity_with_key(key) {
        Ok(_) => Ok(()),
        Err(_) => Err(StunError::Usage(
            "the request isn't valid with this password: give the one that signed it",
        )),
    }
}

/// How a request is protected: by none if it isn't signed, by long-term credentials if it shows a
/// REALM, otherwise by short-term ones.
pub fn protection_of(
    alloc: Global,
    request: &Message<'_>,
    user: Option<&str>,
    password: Option<&str>,
) -> Result<Protection, StunError> {
    if !is_signed(request) {
        return Ok(Protection::Unprotected);
    }
    let Some(password) = password else {
        return Err(StunError::Usage(
            "the request is signed: give its password by --password-file or STUN_PASSWORD",
        ));
    };
    match text_of::<Realm>(alloc, request)? {
        Some(realm) => {
            let key = long_term(alloc, request, realm.as_str(), user, password)?;
            check_key(request, &key)?;
            Ok(Protection::LongTerm(key))
        }
        None => {
            let key = key_of_bytes(alloc, password.as_bytes(), None)?;
            check_key(request, &key)?;
            Ok(Protection::ShortTerm(key))
        }
    }
}
