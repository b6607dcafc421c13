//! The end of a reply to a message that is accepted.

ghost use Rattle.std.specs.Prelude.{◌∷◌};
ghost use Rattle.stun_grammar.specs.Steps.{sign};
ghost use Rattle.stun_keys.specs.Keys.{key_algorithm, key_bytes};
ghost use Rattle.stun_authentication.specs.Writing.{FinishesBy, finished, signed, print_steps};

use crate::Accepted;
use crate::writing::sign_and_print;
use stun_types::message::{IntegrityAlgorithm, IntegrityKey, StunWriteError};
use stun_types::prelude::*;

/// Finishes the reply to a request that was accepted, with the key and the algorithm of the
/// decision, as [`Accepted::finish_reply`] does: for a caller that has kept them apart.
///
/// # Errors
///
/// As for [`Accepted::finish_reply`].
///
/// # Examples
///
/// ```
/// use stun_authentication::finish_reply_with_key;
/// use stun_types::message::{IntegrityAlgorithm, IntegrityKey, Message, MessageWriteVec};
/// use stun_types::message::StunWriteError;
/// use stun_types::prelude::*;
///
/// let request = Message::from_bytes(
///     b"\x00\x01\x00\x00\x21\x12\xA4\x42\xB7\xE7\xA7\x01\xBC\x34\xD6\x86\xFA\x87\xDF\xAE",
/// )?;
/// // The key of a user who is known to use MESSAGE-INTEGRITY alone.
/// let (sha1, sha256) = (IntegrityAlgorithm::Sha1, IntegrityAlgorithm::Sha256);
/// let key = IntegrityKey::new(alloc, b"VOkJxbRl1RmTxUk/WvJxBt", Some(sha1))?;
/// let mut reply = Message::builder_success(&request, MessageWriteVec::new(alloc))?;
/// let refused = finish_reply_with_key(&key, sha256, true, &mut reply);
/// assert_eq!(rt; refused, Err(StunWriteError::IntegrityFailed));
/// finish_reply_with_key(&key, sha1, true, &mut reply)?;
/// let bytes = reply.finish();
/// let validated = Message::from_bytes(&bytes)?.validate_integrity_with_key(&key);
/// assert_eq!(rt; validated, Ok(sha1));
/// ```
pub fn finish_reply_with_key<B: MessageWrite>(
    key: &IntegrityKey,
    algorithm: IntegrityAlgorithm,
    fingerprint: bool,
    write: &mut B,
) -> Result<(), StunWriteError>
    ensures { let bytes = key_bytes key.now in
        FinishesBy (key_algorithm key.now) algorithm result (B.state write.old) (B.state write.new)
        (λ kind id before. finished fingerprint kind id (signed kind id before algorithm bytes))
        (sign algorithm bytes ∷ print_steps fingerprint) }
{
    if !key.serves(algorithm) {
        return Err(StunWriteError::IntegrityFailed);
    }
    sign_and_print(key, algorithm, fingerprint, write)
}

impl Accepted<'_> {
    /// Finishes the reply to a request that is accepted: signs it with the user's key, by the
    /// algorithm of RFC 8489, section 9.1.3 or 9.2.4 ([`Accepted::reply_algorithm`]), and adds a
    /// FINGERPRINT if `fingerprint` is `true`. A reply has one if its request has one (section 7).
    /// Nothing can be added after it.
    ///
    /// # Errors
    ///
    /// `IntegrityFailed` if the key was made for the other algorithm; nothing is written then.
    /// Else the first of the two that isn't added decides, as for `add_message_integrity_with_key`
    /// and `add_fingerprint`: `TooSmall` or `TooLarge` if it doesn't fit, `AttributeExists` or
    /// `FingerprintExists` if the message was signed or had a FINGERPRINT before, and `OutOfMemory`
    /// if an allocation failed, which none does within the writer's ready room. What was written
    /// before an error stays.
    ///
    /// # Examples
    ///
    /// ```
    /// use stun_authentication::{Accepted, Identity};
    /// use stun_types::message::{IntegrityAlgorithm, IntegrityKey, Message, MessageWriteVec};
    /// use stun_types::prelude::*;
    ///
    /// let request = Message::from_bytes(
    ///     b"\x00\x01\x00\x00\x21\x12\xA4\x42\xB7\xE7\xA7\x01\xBC\x34\xD6\x86\xFA\x87\xDF\xAE",
    /// )?;
    /// // As `authenticate_short_term` returns it for a request that MESSAGE-INTEGRITY signs.
    /// let key = IntegrityKey::new(alloc, b"VOkJxbRl1RmTxUk/WvJxBt", None)?;
    /// let (algorithm, reply_algorithm) = (IntegrityAlgorithm::Sha1, IntegrityAlgorithm::Sha1);
    /// let user = Identity::Name(b"evtj:h6vY");
    /// let accepted = Accepted { user, key, algorithm, reply_algorithm };
    /// let mut reply = Message::builder_success(&request, MessageWriteVec::new(alloc))?;
    /// accepted.finish_reply(true, &mut reply)?;
    /// let bytes = reply.finish();
    /// let reply = Message::from_bytes(&bytes)?;
    /// let validated = reply.validate_integrity_with_key(&accepted.key);
    /// assert_eq!(rt; validated, Ok(IntegrityAlgorithm::Sha1));
    /// ```
    pub fn finish_reply<B: MessageWrite>(
        &self,
        fingerprint: bool,
        write: &mut B,
    ) -> Result<(), StunWriteError>
        ensures { let a = self.now.reply_algorithm in let key = key_bytes self.now.key in
            FinishesBy (key_algorithm self.now.key) a result
            (B.state write.old) (B.state write.new)
            (λ kind id before. finished fingerprint kind id (signed kind id before a key))
            (sign a key ∷ print_steps fingerprint) }
    {
        finish_reply_with_key(&self.key, self.reply_algorithm, fingerprint, write)
    }
}
