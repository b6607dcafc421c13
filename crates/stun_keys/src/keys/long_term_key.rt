ghost use Rattle.std.specs.Prelude.{◌≡◌, true, Some, IfOk, IfErr};
ghost use Rattle.std.specs.String.{string_bytes};
ghost use Rattle.stun_keys.specs.Keys.{long_term_username, long_term_password, long_term_realm, SameLongTerm, IsKey, is_prepared, long_term_key};

use crate::keys::IntegrityKey;
use crate::keys::copied::copied;
use crate::keys::md5_key::md5_key;
use crate::keys::secret::SecretText;
use crate::keys::sha256_key::sha256_key;
use std::alloc::{AllocError, Global};
use stun_grammar::{IntegrityAlgorithm, StunWriteError};

/// A username and a password in a realm, which give a key (RFC 8489, section 9.2.2).
///
/// All three are used as they are: no function applies SASLprep (RFC 4013) or the OpaqueString
/// profile (RFC 8265) to them. A caller whose texts need it prepares them before.
///
/// The password's memory is overwritten before it is freed, and `{:?}` doesn't print it.
#[derive(Debug, PartialEq, Eq, Drop)]
pub struct LongTermKeyCredentials {
    username: String,
    password: SecretText,
    realm: String,
}

/// Makes the key that [`LongTermKeyCredentials::make_key`] makes of these three texts, copies none of
/// them, and fails only if an allocation does.
#[inline(never)]
pub fn key_of_texts(
    alloc: Global,
    username: &str,
    realm: &str,
    password: &str,
    algorithm: IntegrityAlgorithm,
) -> Result<IntegrityKey, AllocError>
    ensures { IfOk result (IsKey (Some algorithm)
        (long_term_key algorithm username.now realm.now password.now)) }
{
    match algorithm {
        IntegrityAlgorithm::Sha1 => {
            let bytes = md5_key(username, realm, password);
            IntegrityKey::of_bytes(alloc, &bytes, Some(IntegrityAlgorithm::Sha1))
        }
        IntegrityAlgorithm::Sha256 => {
            let bytes = sha256_key(username, realm, password);
            IntegrityKey::of_bytes(alloc, &bytes, Some(IntegrityAlgorithm::Sha256))
        }
    }
}

impl LongTermKeyCredentials {
    /// Credentials of a username, a password and a realm, which they own.
    ///
    /// # Examples
    ///
    /// ```
    /// use stun_types::message::LongTermKeyCredentials;
    ///
    /// let copy = |text| String::from_str(alloc, text);
    /// let credentials = LongTermKeyCredentials::new(copy("user")?, copy("pass")?, copy("realm")?);
    /// assert_eq!(rt; credentials.username(), "user");
    /// assert_eq!(rt; credentials.password(), "pass");
    /// assert_eq!(rt; credentials.realm(), "realm");
    /// ```
    pub fn new(username: String, password: String, realm: String) -> Self
        ensures username { long_term_username result ≡ string_bytes username }
        ensures password { long_term_password result ≡ string_bytes password }
        ensures realm { long_term_realm result ≡ string_bytes realm }
    {
        LongTermKeyCredentials::of_secret(username, SecretText::new(password), realm)
    }

    /// The credentials of a username, a password that is a secret already, and a realm.
    pub(super) fn of_secret(username: String, password: SecretText, realm: String) -> Self
        ensures username { long_term_username result ≡ string_bytes username }
        ensures password { long_term_password result ≡ string_bytes password.text }
        ensures realm { long_term_realm result ≡ string_bytes realm }
    {
        LongTermKeyCredentials {
            username,
            password,
            realm,
        }
    }

    /// Copies the credentials into memory that `alloc` gives.
    ///
    /// # Errors
    ///
    /// `OutOfMemory` alone.
    pub fn clone(&self, alloc: Global) -> Result<Self, StunWriteError>
        ensures same { IfOk result (λ copy. SameLongTerm copy self.now) }
        ensures err { IfErr result (λ e. e ≡ StunWriteError.OutOfMemory) }
    {
        let username = copied(alloc, &self.username)?;
        let password = self.password.copied(alloc)?;
        let realm = copied(alloc, &self.realm)?;
        Ok(LongTermKeyCredentials {
            username,
            password,
            realm,
        })
    }

    /// The username of the credentials.
    pub fn username(&self) -> &str
        ensures { result.now ≡ long_term_username self.now }
    {
        self.username.as_str()
    }

    /// The password of the credentials.
    pub fn password(&self) -> &str
        ensures { result.now ≡ long_term_password self.now }
    {
        self.password.as_str()
    }

    /// The realm of the credentials.
    pub fn realm(&self) -> &str
        ensures { result.now ≡ long_term_realm self.now }
    {
        self.realm.as_str()
    }

    /// Makes the key of the credentials for an algorithm, in memory from `alloc`: for `Sha1` the
    /// MD5 of `username:realm:password`, 16 bytes, and for `Sha256` its SHA-256, 32 bytes
    /// (RFC 8489, sections 9.2.2 and 18.5.1). The three texts are not copied.
    ///
    /// Two allocations: the key is prepared, as [`IntegrityKey::new`] makes one.
    ///
    /// # Errors
    ///
    /// `OutOfMemory` alone.
    ///
    /// # Examples
    ///
    /// ```
    /// use stun_types::message::{IntegrityAlgorithm, LongTermKeyCredentials};
    ///
    /// // the example of RFC 8489, section 9.2.2
    /// let copy = |text| String::from_str(alloc, text);
    /// let credentials = LongTermKeyCredentials::new(copy("user")?, copy("pass")?, copy("realm")?);
    /// let key = credentials.make_key(alloc, IntegrityAlgorithm::Sha1)?;
    /// assert_eq!(rt; key.as_bytes().len(), 16);
    /// assert_eq!(rt; &key.as_bytes()[..4], [0x84, 0x93, 0xFB, 0xC5].as_slice());
    /// ```
    pub fn make_key(
        &self,
        alloc: Global,
        algorithm: IntegrityAlgorithm,
    ) -> Result<IntegrityKey, StunWriteError>
        ensures ok { IfOk result (IsKey (Some algorithm)
            (long_term_key algorithm (long_term_username self.now) (long_term_realm self.now)
            (long_term_password self.now))) }
        ensures prepared { IfOk result (λ key. is_prepared key ≡ true) }
        ensures err { IfErr result (λ e. e ≡ StunWriteError.OutOfMemory) }
    {
        let (username, realm, password) = (self.username(), self.realm(), self.password());
        let mut key = key_of_texts(alloc, username, realm, password, algorithm)?;
        key.prepare_in(alloc)?;
        Ok(key)
    }
}
