ghost use Rattle.std.specs.Prelude.{◌≡◌, IfOk, IfErr};
ghost use Rattle.std.specs.String.{string_bytes};
ghost use Rattle.stun_keys.specs.Keys.{login_username, login_password, long_term_username, long_term_password, long_term_realm, SameLogin};

use crate::keys::LongTermKeyCredentials;
use crate::keys::copied::copied;
use crate::keys::secret::SecretText;
use std::alloc::Global;
use stun_grammar::StunWriteError;

/// Long-term credentials without a realm, which a server has yet to send: a username and a password
/// (RFC 8489, section 9.2).
///
/// Both are used as they are: no function applies SASLprep (RFC 4013) or the OpaqueString profile
/// (RFC 8265) to them. A caller whose texts need it prepares them before.
///
/// The password's memory is overwritten before it is freed, and `{:?}` doesn't print it.
#[derive(Debug, PartialEq, Eq, Drop)]
pub struct LongTermCredentials {
    username: String,
    password: SecretText,
}

impl LongTermCredentials {
    /// Credentials of a username and a password, which they own.
    ///
    /// # Examples
    ///
    /// ```
    /// use stun_types::message::LongTermCredentials;
    ///
    /// let copy = |text| String::from_str(alloc, text);
    /// let credentials = LongTermCredentials::new(copy("user")?, copy("pass")?);
    /// assert_eq!(rt; credentials.username(), "user");
    /// assert_eq!(rt; credentials.password(), "pass");
    /// ```
    pub fn new(username: String, password: String) -> Self
        ensures username { login_username result ≡ string_bytes username }
        ensures password { login_password result ≡ string_bytes password }
    {
        LongTermCredentials {
            username,
            password: SecretText::new(password),
        }
    }

    /// Copies the credentials into memory that `alloc` gives.
    ///
    /// # Errors
    ///
    /// `OutOfMemory` alone.
    pub fn clone(&self, alloc: Global) -> Result<Self, StunWriteError>
        ensures same { IfOk result (λ copy. SameLogin copy self.now) }
        ensures err { IfErr result (λ e. e ≡ StunWriteError.OutOfMemory) }
    {
        let username = copied(alloc, &self.username)?;
        let password = self.password.copied(alloc)?;
        Ok(LongTermCredentials { username, password })
    }

    /// The username of the credentials.
    pub fn username(&self) -> &str
        ensures { result.now ≡ login_username self.now }
    {
        self.username.as_str()
    }

    /// The password of the credentials.
    pub fn password(&self) -> &str
        ensures { result.now ≡ login_password self.now }
    {
        self.password.as_str()
    }

    /// Makes the credentials of a realm, which they own, from a username and a password. Username
    /// and password are copied into memory that `alloc` gives.
    ///
    /// # Errors
    ///
    /// `OutOfMemory` alone.
    ///
    /// # Examples
    ///
    /// ```
    /// use stun_types::message::LongTermCredentials;
    ///
    /// let copy = |text| String::from_str(alloc, text);
    /// let credentials = LongTermCredentials::new(copy("user")?, copy("pass")?);
    /// let in_realm = credentials.to_key(alloc, copy("realm")?)?;
    /// assert_eq!(rt; in_realm.username(), "user");
    /// assert_eq!(rt; in_realm.realm(), "realm");
    /// ```
    pub fn to_key(
        &self,
        alloc: Global,
        realm: String,
    ) -> Result<LongTermKeyCredentials, StunWriteError>
        ensures username { IfOk result (λ made. long_term_username made ≡ login_username self.now) }
        ensures password { IfOk result (λ made. long_term_password made ≡ login_password self.now) }
        ensures realm { IfOk result (λ made. long_term_realm made ≡ string_bytes realm) }
        ensures err { IfErr result (λ e. e ≡ StunWriteError.OutOfMemory) }
    {
        let username = copied(alloc, &self.username)?;
        let password = self.password.copied(alloc)?;
        Ok(LongTermKeyCredentials::of_secret(username, password, realm))
    }
}
