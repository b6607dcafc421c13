ghost use Rattle.std.specs.Prelude.{◌≡◌, true, IfOk, IfErr};
ghost use Rattle.stun_keys.specs.Keys.{SameCredentials, IsKey, is_prepared, credentials_key, credentials_algorithm};

use crate::keys::{IntegrityKey, LongTermKeyCredentials, ShortTermCredentials, key_of_texts};
use std::alloc::{AllocError, Global};
use stun_grammar::{IntegrityAlgorithm, StunWriteError};

/// The credentials with which a message is signed and validated (RFC 8489, section 9). Their texts
/// are used as they are: no function applies SASLprep (RFC 4013) or the OpaqueString profile
/// (RFC 8265) to them.
///
/// # Examples
///
/// ```
/// use stun_types::message::{
///     IntegrityAlgorithm, MessageIntegrityCredentials, ShortTermCredentials,
/// };
///
/// let password = String::from_str(alloc, "VOkJxbRl1RmTxUk/WvJxBt")?;
/// let credentials = MessageIntegrityCredentials::from(ShortTermCredentials::new(password));
/// let key = credentials.make_key(alloc, IntegrityAlgorithm::Sha1)?;
/// assert_eq!(rt; key.as_bytes(), b"VOkJxbRl1RmTxUk/WvJxBt".as_slice());
/// ```
#[derive(Debug, PartialEq, Eq, Drop)]
pub enum MessageIntegrityCredentials {
    /// Short-term credentials: a password.
    ShortTerm(ShortTermCredentials),
    /// Long-term credentials: a username and a password in a realm.
    LongTerm(LongTermKeyCredentials),
}

/// Makes the key that [`MessageIntegrityCredentials::make_key`] makes, and fails only if an
/// allocation does.
#[inline(always)]
pub fn key_of_credentials(
    alloc: Global,
    credentials: &MessageIntegrityCredentials,
    algorithm: IntegrityAlgorithm,
) -> Result<IntegrityKey, AllocError>
    ensures { IfOk result (IsKey (credentials_algorithm credentials.now algorithm)
        (credentials_key credentials.now algorithm)) }
{
    match credentials {
        MessageIntegrityCredentials::ShortTerm(short) => {
            IntegrityKey::of_bytes(alloc, short.password().as_bytes(), None)
        }
        MessageIntegrityCredentials::LongTerm(long) => {
            key_of_texts(
                alloc,
                long.username(),
                long.realm(),
                long.password(),
                algorithm,
            )
        }
    }
}

impl MessageIntegrityCredentials {
    /// Copies the credentials into memory that `alloc` gives.
    ///
    /// # Errors
    ///
    /// `OutOfMemory` alone.
    pub fn clone(&self, alloc: Global) -> Result<Self, StunWriteError>
        ensures same { IfOk result (λ copy. SameCredentials copy self.now) }
        ensures err { IfErr result (λ e. e ≡ StunWriteError.OutOfMemory) }
    {
        match self {
            MessageIntegrityCredentials::ShortTerm(short) => {
                Ok(MessageIntegrityCredentials::ShortTerm(short.clone(alloc)?))
            }
            MessageIntegrityCredentials::LongTerm(long) => {
                Ok(MessageIntegrityCredentials::LongTerm(long.clone(alloc)?))
            }
        }
    }

    /// Makes the key of the credentials for an algorithm, in memory from `alloc`, as
    /// [`ShortTermCredentials::make_key`] and [`LongTermKeyCredentials::make_key`] do.
    ///
    /// Two allocations: the key is prepared, as [`IntegrityKey::new`] makes one.
    ///
    /// # Errors
    ///
    /// `OutOfMemory` alone.
    ///
    /// # Examples
    ///
    /// ```
    /// use stun_types::message::{
    ///     IntegrityAlgorithm, LongTermKeyCredentials, MessageIntegrityCredentials,
    /// };
    ///
    /// let copy = |text| String::from_str(alloc, text);
    /// let credentials = LongTermKeyCredentials::new(copy("user")?, copy("pass")?, copy("realm")?);
    /// let credentials = MessageIntegrityCredentials::from(credentials);
    /// let key = credentials.make_key(alloc, IntegrityAlgorithm::Sha256)?;
    /// // the SHA-256 of `user:realm:pass`
    /// assert_eq!(rt; key.as_bytes().len(), 32);
    /// assert_eq!(rt; &key.as_bytes()[..4], [0x07, 0xE9, 0x34, 0x11].as_slice());
    /// ```
    pub fn make_key(
        &self,
        alloc: Global,
        algorithm: IntegrityAlgorithm,
    ) -> Result<IntegrityKey, StunWriteError>
        ensures ok { IfOk result (IsKey (credentials_algorithm self.now algorithm)
            (credentials_key self.now algorithm)) }
        ensures prepared { IfOk result (λ key. is_prepared key ≡ true) }
        ensures err { IfErr result (λ e. e ≡ StunWriteError.OutOfMemory) }
    {
        let mut key = key_of_credentials(alloc, self, algorithm)?;
        key.prepare_in(alloc)?;
        Ok(key)
    }
}

impl From<ShortTermCredentials> for MessageIntegrityCredentials {
    ghost use Rattle.stun_keys.specs.declared.keys.credentials.MessageIntegrityCredentials.TheVariants.{ShortTerm};

    ghost from_gives = { λ short made. made ≡ ShortTerm short };

    fn from(short: ShortTermCredentials) -> Self {
        MessageIntegrityCredentials::ShortTerm(short)
    }
}

impl From<LongTermKeyCredentials> for MessageIntegrityCredentials {
    ghost use Rattle.stun_keys.specs.declared.keys.credentials.MessageIntegrityCredentials.TheVariants.{LongTerm};

    ghost from_gives = { λ long made. made ≡ LongTerm long };

    fn from(long: LongTermKeyCredentials) -> Self {
        MessageIntegrityCredentials::LongTerm(long)
    }
}
