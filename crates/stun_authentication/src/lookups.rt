//! What a server keeps: the keys of its users, and what it knows of nonces. It implements these
//! traits, each of one method, over whatever it keeps them in.

ghost use Rattle.std.specs.Prelude.{◌≡◌, ℕ, List, Option, IfOk};
ghost use Rattle.stun_values.specs.declared.algorithm.PasswordAlgorithmValue.{PasswordAlgorithmValue};
ghost use Rattle.stun_authentication.specs.Identities.{Who, who};
ghost use Rattle.stun_authentication.specs.Lookups.{IsKeyOf, Known, UserKey, known};

use crate::Identity;
use std::alloc::{AllocError, Global};
use stun_types::attribute::PasswordAlgorithmValue;
use stun_types::message::IntegrityKey;

/// A look-up of the keys of short-term credentials by user name.
pub trait ShortTermKeys {
    ghost key_of: { Self → List ℕ → Option UserKey };

    /// Returns the key of a user, the password (RFC 8489, section 9.1.1), or `None` if there is no
    /// such user. `username` is the value of a USERNAME. A key that was made for one algorithm
    /// counts for that one alone: the integrity attribute of the other counts as absent.
    ///
    /// # Errors
    ///
    /// Only if an allocation failed.
    ///
    /// # Examples
    ///
    /// ```
    /// use stun_authentication::{Logins, ShortTermKeys};
    /// use stun_types::message::LongTermCredentials;
    ///
    /// let name = String::from_str(alloc, "evtj:h6vY")?;
    /// let password = String::from_str(alloc, "VOkJxbRl1RmTxUk/WvJxBt")?;
    /// let users = [LongTermCredentials::new(name, password)];
    /// let key = Logins::new(&users).key(alloc, b"evtj:h6vY")?.ok_or("no such user")?;
    /// assert_eq!(rt; key.as_bytes(), b"VOkJxbRl1RmTxUk/WvJxBt".as_slice());
    /// ```
    fn key(&self, alloc: Global, username: &[u8]) -> Result<Option<IntegrityKey>, AllocError>
        ensures { IfOk result (IsKeyOf (key_of self.now username.now)) };
}

/// A look-up of the keys of long-term credentials by user, realm and password algorithm.
pub trait LongTermKeys {
    ghost key_of: { Self → Who → List ℕ → PasswordAlgorithmValue → Option UserKey };

    /// Returns the key of a user in a realm, by an algorithm: the MD5 or the SHA-256 of
    /// `username:realm:password` (RFC 8489, sections 9.2.2 and 18.5.1); or `None` if there is no
    /// such user, or the server knows no users by USERHASH. The password
    /// algorithm isn't the algorithm of the HMAC: a key by either works with both integrity
    /// algorithms if [`IntegrityKey::for_both`] makes it so. A key that was made for one, as
    /// `make_key` makes it, counts for that one alone, and signs no reply by the other.
    ///
    /// # Errors
    ///
    /// Only if an allocation failed.
    ///
    /// # Examples
    ///
    /// ```
    /// use stun_authentication::{Identity, Logins, LongTermKeys};
    /// use stun_types::attribute::PasswordAlgorithmValue;
    /// use stun_types::message::LongTermCredentials;
    ///
    /// // The example in section 9.2.2 of RFC 8489: the MD5 of `user:realm:pass`.
    /// let (name, password) = (String::from_str(alloc, "user")?, String::from_str(alloc, "pass")?);
    /// let users = [LongTermCredentials::new(name, password)];
    /// let (user, algorithm) = (Identity::Name(b"user"), PasswordAlgorithmValue::MD5);
    /// let key = Logins::new(&users).key(alloc, user, "realm", algorithm)?.ok_or("no such user")?;
    /// let md5 = 0x8493_FBC5_3BA5_82FB_4C04_4C45_6BDC_40EB_u128;
    /// assert_eq!(rt; key.as_bytes(), md5.to_be_bytes().as_slice());
    /// ```
    fn key(
        &self,
        alloc: Global,
        user: Identity<'_>,
        realm: &str,
        algorithm: PasswordAlgorithmValue,
    ) -> Result<Option<IntegrityKey>, AllocError>
        ensures { IfOk result (IsKeyOf (key_of self.now (who user.entry) realm.now algorithm)) };
}

/// Whether a nonce is valid, and which password algorithms were sent with it.
#[derive(Clone, Copy, Debug)]
pub enum NonceState<'a> {
    /// The nonce is valid, and was sent with these algorithms in a PASSWORD-ALGORITHMS, in this
    /// order. No algorithms: it was sent without one.
    Valid(&'a [PasswordAlgorithmValue]),
    /// The nonce was valid once.
    Stale,
    /// The server didn't send the nonce, or doesn't know it any more.
    Unknown,
}

/// A look-up of the nonces of a server.
pub trait Nonces {
    ghost state_of: { Self → List ℕ → Known };

    /// Returns what the server knows of a nonce, the value of a NONCE. A nonce is bound to the
    /// address and port that it was sent to (RFC 8489, section 9.2.4): one that came from elsewhere
    /// is unknown.
    fn nonce(&self, nonce: &[u8]) -> NonceState<'_>
        ensures { known result ≡ state_of self.now nonce.now };
}
