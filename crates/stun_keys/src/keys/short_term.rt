ghost use Rattle.std.specs.Prelude.{◌≡◌, true, None, IfOk, IfErr};
ghost use Rattle.std.specs.String.{string_bytes};
ghost use Rattle.stun_keys.specs.Keys.{short_term_password, IsKey, is_prepared};

use crate::keys::IntegrityKey;
use crate::keys::secret::SecretText;
use std::alloc::Global;
use stun_grammar::StunWriteError;

/// Short-term credentials: a password that is valid for a limited time (RFC 8489, section 9.1).
///
/// The password is used as it is: no function applies SASLprep (RFC 4013) or the OpaqueString
/// profile (RFC 8265) to it. A caller whose passwords need it prepares them before. An empty
/// password is taken, as RFC 2104 takes an empty key: everybody knows it, and that profile refuses
/// it (section 4.2), so test for it before.
///
/// The password's memory is overwritten before it is freed, and `{:?}` doesn't print it.
#[derive(Debug, PartialEq, Eq, Drop)]
pub struct ShortTermCredentials {
    password: SecretText,
}

impl ShortTermCredentials {
    /// Credentials of a password, which they own.
    ///
    /// # Examples
    ///
    /// ```
    /// use stun_types::message::ShortTermCredentials;
    ///
    /// let credentials = ShortTermCredentials::new(String::from_str(alloc, "pass")?);
    /// assert_eq!(rt; credentials.password(), "pass");
    /// ```
    pub fn new(password: String) -> Self
        ensures { short_term_password result ≡ string_bytes password }
    {
        let password = SecretText::new(password);
        ShortTermCredentials { password }
    }

    /// Copies the credentials into memory that `alloc` gives.
    ///
    /// # Errors
    ///
    /// `OutOfMemory` alone.
    pub fn clone(&self, alloc: Global) -> Result<Self, StunWriteError>
        ensures same { IfOk result
            (λ copy. short_term_password copy ≡ short_term_password self.now) }
        ensures err { IfErr result (λ e. e ≡ StunWriteError.OutOfMemory) }
    {
        let password = self.password.copied(alloc)?;
        Ok(ShortTermCredentials { password })
    }

    /// The password of the credentials.
    pub fn password(&self) -> &str
        ensures { result.now ≡ short_term_password self.now }
    {
        self.password.as_str()
    }

    /// Makes the key of the credentials, in memory from `alloc`: the bytes of the password. It has
    /// no algorithm, and so works with both (RFC 8489, section 9.1.1).
    ///
    /// Two allocations: the key is prepared, as [`IntegrityKey::new`] makes one.
    ///
    /// # Errors
    ///
    /// `OutOfMemory` alone.
    ///
    /// # Examples
    ///
    /// ```
    /// use stun_types::message::ShortTermCredentials;
    ///
    /// let password = String::from_str(alloc, "VOkJxbRl1RmTxUk/WvJxBt")?;
    /// let credentials = ShortTermCredentials::new(password);
    /// let key = credentials.make_key(alloc)?;
    /// assert_eq!(rt; key.as_bytes(), b"VOkJxbRl1RmTxUk/WvJxBt".as_slice());
    /// assert_eq!(rt; key.algorithm(), None);
    /// ```
    pub fn make_key(&self, alloc: Global) -> Result<IntegrityKey, StunWriteError>
        ensures ok { IfOk result (IsKey None (short_term_password self.now)) }
        ensures prepared { IfOk result (λ key. is_prepared key ≡ true) }
        ensures err { IfErr result (λ e. e ≡ StunWriteError.OutOfMemory) }
    {
        IntegrityKey::new(alloc, self.password().as_bytes(), None)
    }
}
