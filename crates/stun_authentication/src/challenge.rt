//! What a server asks a client's next request to carry (RFC 8489, sections 9.2.4 and 9.2.5).

ghost use Rattle.std.specs.Prelude.{◌≡◌, ◌≤◌, ◌<◌, ◌^◌, IfOk, length};
ghost use Rattle.std.specs.Cow.{cow_str_bytes, cow_slice_items};
ghost use Rattle.std.specs.Option.{option_map_or};
ghost use Rattle.stun_values.specs.Algorithms.{algorithms_encoding};
ghost use Rattle.stun_values.specs.TextValues.{text_max};

use crate::security_features;
use std::alloc::{AllocError, Global};
use std::borrow::{CowSlice, CowStr};
use stun_types::attribute::{Nonce, PasswordAlgorithmValue, Realm};
use stun_types::message::IntegrityAlgorithm;
use stun_values::write_algorithms;
use thiserror::Error;

/// What a 401 or a 438 asks a client's next request to carry: a realm, a nonce, and the value of
/// PASSWORD-ALGORITHMS, if the server sends one. A server makes it by [`Challenge::new`], and a
/// client reads it by [`challenge_of`](crate::challenge_of). It borrows its texts and the value, or
/// owns them.
///
/// # Examples
///
/// ```
/// use stun_authentication::challenge_of;
/// use stun_types::attribute::PasswordAlgorithmValue;
/// use stun_types::message::{IntegrityAlgorithm, Message};
///
/// // The 401 of section 20 of RFC 8656, without SOFTWARE.
/// let response = Message::from_bytes(
///     b"\x01\x13\x00\x54\x21\x12\xA4\x42\xA5\x62\x50\xD3\xF1\x7A\xBE\x67\x94\x22\xDE\x85\
///       \x00\x09\x00\x10\x00\x00\x04\x01Unauthorized\x00\x14\x00\x0Bexample.com\x00\
///       \x00\x15\x00\x20obMatJos2gAAAadl7W7PeDU4hKE72jda\
///       \x80\x02\x00\x08\x00\x01\x00\x00\x00\x02\x00\x00",
/// )?;
/// let supported = [PasswordAlgorithmValue::SHA256];
/// let challenge = challenge_of(&response, &supported, None, false)?.challenge;
/// // MD5 and SHA-256, in the order of the server.
/// let list = b"\x00\x01\x00\x00\x00\x02\x00\x00".as_slice();
/// assert_eq!(rt; challenge.password_algorithms(), Some(list));
/// assert_eq!(rt; challenge.integrity_algorithm(), IntegrityAlgorithm::Sha256);
/// // The nonce doesn't promise that the server knows its users by USERHASH.
/// assert!(rt; !challenge.is_anonymous());
/// ```
#[derive(Debug, Drop)]
pub struct Challenge<'a> {
    realm: CowStr<'a, Global>,
    nonce: CowStr<'a, Global>,
    list: Option<CowSlice<'a, u8, Global>>,
    ghost realm_short: { length (cow_str_bytes realm) ≤ text_max },
    ghost nonce_short: { length (cow_str_bytes nonce) ≤ text_max },
    ghost list_short: { option_map_or (λ value. length (cow_slice_items value)) list 0 < 2 ^ 16 },
}

/// Why a server can't ask for this.
#[derive(Clone, Copy, Debug, PartialEq, Eq, Error)]
pub enum ChallengeError {
    /// The nonce promises PASSWORD-ALGORITHMS, and there are no algorithms: a client would take the
    /// response for the work of an attacker who removed it (RFC 8489, section 9.2.5).
    #[error("the nonce promises a list of password algorithms, and there is none")]
    NoList,
    /// The nonce doesn't promise the list that is sent with it: it begins with no nonce cookie, or
    /// with one whose bit is 0. The server would process the client's next request as though with
    /// MD5.
    #[error("the nonce doesn't promise the list of password algorithms")]
    NotPromised,
    /// No attribute has room for so many algorithms.
    #[error("there are more than 16383 password algorithms")]
    TooMany,
    /// An allocation failed.
    #[error("out of memory")]
    OutOfMemory,
}

/// An allocation that failed, so that `?` passes it on. `OutOfMemory` is made nowhere else.
impl From<AllocError> for ChallengeError {
    ghost use Rattle.std.specs.Prelude.{◌≡◌};
    ghost use Rattle.stun_authentication.specs.declared.challenge.ChallengeError.TheVariants.{OutOfMemory};

    ghost from_gives = { λ _ error. error ≡ OutOfMemory };

    fn from(_failed: AllocError) -> Self {
        ChallengeError::OutOfMemory
    }
}

/// The value of a PASSWORD-ALGORITHMS with these algorithms.
fn value_of_list(
    alloc: Global,
    algorithms: &[PasswordAlgorithmValue],
) -> Result<Vec<u8>, AllocError>
    requires { length algorithms.now ≤ 16383 }
    ensures value { IfOk result (λ value. value.items ≡ algorithms_encoding algorithms.now) }
    ensures short { IfOk result (λ value. length value.items < 2 ^ 16) }
{
    let mut value = vec![in alloc; 0; 4 * algorithms.len()]?;
    write_algorithms(algorithms, &mut value);
    Ok(value)
}

impl<'a> Challenge<'a> {
    ghost use Rattle.std.specs.Prelude.{◌≡◌, ◌≢◌, ◌≤◌, ◌<◌, ◌^◌, [], Some, None, Err, IfOk, MatchOption, MatchResult, length};
    ghost use Rattle.std.specs.Option.{option_map, option_map_or};
    ghost use Rattle.stun_attributes.specs.Texts.{text_bytes};
    ghost use Rattle.stun_values.specs.TextValues.{text_max};
    ghost use Rattle.stun_authentication.specs.Asking.{asked_for, asked_in, asks_userhash, listed, signing_by};
    ghost use Rattle.stun_authentication.specs.Refusing.{challenge_error};

    /// Checks that a nonce promises a list of algorithms exactly if there is one, and that an attribute
    /// has room for it.
    fn check_list(nonce: &str, algorithms: &[PasswordAlgorithmValue]) -> Result<(), ChallengeError>
        ensures { MatchResult result (λ _. challenge_error nonce.now algorithms.now ≡ None)
            (λ e. challenge_error nonce.now algorithms.now ≡ Some e) }
    {
        let promises = match security_features(nonce.as_bytes()) {
            Some(features) => features.password_algorithms,
            None => false,
        };
        if promises && algorithms.is_empty() {
            return Err(ChallengeError::NoList);
        }
        if !promises && !algorithms.is_empty() {
            return Err(ChallengeError::NotPromised);
        }
        if algorithms.len() > 16383 {
            return Err(ChallengeError::TooMany);
        }
        Ok(())
    }

    /// Returns what a server asks for: this realm, this nonce, which is valid and was sent to nobody
    /// else, and these algorithms, the one that the server prefers first; none if it knows MD5
    /// alone. [`nonce_cookie`](crate::nonce_cookie) makes the beginning of the nonce. The value of
    /// the list is in memory from `alloc`.
    ///
    /// # Errors
    ///
    /// The first of these that applies:
    ///
    /// - `NoList` if the nonce promises a list, and there are no algorithms; `NotPromised` if there
    ///   are some, and the nonce doesn't promise them;
    /// - `TooMany` if there are more than 16383 algorithms;
    /// - `OutOfMemory` if there are algorithms, and an allocation failed.
    ///
    /// # Examples
    ///
    /// ```
    /// use stun_authentication::{Challenge, ChallengeError};
    /// use stun_types::attribute::{Nonce, PasswordAlgorithmValue, Realm};
    ///
    /// // A nonce that promises PASSWORD-ALGORITHMS, and the list.
    /// let realm = Realm::new(alloc, "example.com")?;
    /// let nonce = Nonce::new(alloc, "obMatJos2gAAAadl7W7PeDU4hKE72jda")?;
    /// let both = [PasswordAlgorithmValue::MD5, PasswordAlgorithmValue::SHA256];
    /// assert!(rt; Challenge::new(alloc, &realm, &nonce, &both).is_ok());
    /// // The same nonce without the list.
    /// let refused = Challenge::new(alloc, &realm, &nonce, &[]).err();
    /// assert_eq!(rt; refused, Some(ChallengeError::NoList));
    /// ```
    pub fn new(
        alloc: Global,
        realm: &'a Realm,
        nonce: &'a Nonce,
        algorithms: &[PasswordAlgorithmValue],
    ) -> Result<Self, ChallengeError>
        ensures made { MatchOption (challenge_error (text_bytes nonce.now) algorithms.now)
            (MatchResult result
            (λ made. asked_in made
            ≡ asked_for (text_bytes realm.now) (text_bytes nonce.now) (listed algorithms.now))
            (λ e. e ≡ ChallengeError.OutOfMemory))
            (λ why. result ≡ Err why) }
        ensures free { algorithms.now ≡ [] → result ≢ Err ChallengeError.OutOfMemory }
    {
        Self::check_list(nonce.nonce(), algorithms)?;
        let list = if algorithms.is_empty() {
            None
        } else {
            Some(CowSlice::Owned(value_of_list(alloc, algorithms)?))
        };
        Ok(Challenge {
            realm: CowStr::Borrowed(realm.realm()),
            nonce: CowStr::Borrowed(nonce.nonce()),
            list,
        })
    }

    /// What is asked for by these, as a response has them.
    pub(crate) fn of_response(realm: &'a str, nonce: &'a str, list: Option<&'a [u8]>) -> Self
        requires realm { length realm.now ≤ text_max }
        requires nonce { length nonce.now ≤ text_max }
        requires list { option_map_or (λ value. length value.now) list 0 < 2 ^ 16 }
        ensures { asked_in result
            ≡ asked_for realm.now nonce.now (option_map (λ value. value.now) list.entry) }
    {
        let list = match list {
            Some(value) => Some(CowSlice::Borrowed(value)),
            None => None,
        };
        Challenge {
            realm: CowStr::Borrowed(realm),
            nonce: CowStr::Borrowed(nonce),
            list,
        }
    }

    /// Copies what the challenge borrows into memory from `alloc`, so that a client can keep it when
    /// the bytes of the response are gone.
    ///
    /// # Errors
    ///
    /// Only if an allocation failed.
    pub fn into_owned(self, alloc: Global) -> Result<Challenge<'static>, AllocError>
        ensures { IfOk result (λ owned. asked_in owned ≡ asked_in self.entry) }
    {
        let Challenge { realm, nonce, list } = self;
        let list = match list {
            Some(value) => Some(CowSlice::Owned(value.into_owned(alloc)?)),
            None => None,
        };
        Ok(Challenge {
            realm: CowStr::Owned(realm.into_owned(alloc)?),
            nonce: CowStr::Owned(nonce.into_owned(alloc)?),
            list,
        })
    }

    /// Returns the realm, which the REALM of the request copies. It shows the user which name and
    /// password are asked for.
    pub fn realm(&self) -> &str
        ensures realm { result.now ≡ (asked_in self.now).realm }
        ensures short { length result.now ≤ text_max }
    {
        self.realm.as_str()
    }

    /// Returns the nonce, which the NONCE of the request copies.
    pub fn nonce(&self) -> &str
        ensures nonce { result.now ≡ (asked_in self.now).nonce }
        ensures short { length result.now ≤ text_max }
    {
        self.nonce.as_str()
    }

    /// Returns the value of PASSWORD-ALGORITHMS, which the request copies if there is one: it then
    /// has a PASSWORD-ALGORITHM too.
    pub fn password_algorithms(&self) -> Option<&[u8]>
        ensures list { option_map (λ value. value.now) result ≡ (asked_in self.now).list }
        ensures short { option_map_or (λ value. length value.now) result 0 < 2 ^ 16 }
    {
        match &self.list {
            Some(value) => Some(value.as_slice()),
            None => None,
        }
    }

    /// Returns `true` if the request names its user by USERHASH, and not by USERNAME.
    pub fn is_anonymous(&self) -> bool
        ensures { result ≡ asks_userhash (asked_in self.now) }
    {
        security_features(self.nonce().as_bytes()).is_some_and(
            |features| features.username_anonymity,
        )
    }

    /// Returns the algorithm by which the request is signed: MESSAGE-INTEGRITY-SHA256 alone if
    /// there is a PASSWORD-ALGORITHMS, otherwise MESSAGE-INTEGRITY alone, for a server of RFC 5389.
    pub fn integrity_algorithm(&self) -> IntegrityAlgorithm
        ensures { result ≡ signing_by (asked_in self.now).list }
    {
        match self.list {
            Some(_) => IntegrityAlgorithm::Sha256,
            None => IntegrityAlgorithm::Sha1,
        }
    }
}
