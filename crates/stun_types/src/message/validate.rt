//! Checking the HMAC of a message (RFC 8489, sections 9.1.3, 9.2.4, 14.5 and 14.6).

ghost use Rattle.std.specs.Prelude.{◌≡◌, ◌≢◌, ◌↔◌, ℕ, List, None, Some, Ok, Err, IfOk, IfErr, MatchResult};
ghost use Rattle.stun_grammar.specs.declared.integrity_algorithm.IntegrityAlgorithm.{IntegrityAlgorithm};
ghost use Rattle.stun_grammar.specs.Verdicts.{is_checked_type, verdict, verdict_by, covered, GivesHmac};
ghost use Rattle.stun_grammar.specs.Numbers.{IsBytes};
ghost use Rattle.stun_grammar.specs.Carrying.{Carries, CarriesPrefix};
ghost use Rattle.stun_grammar.specs.Accepting.{IsAuthentic, IsAuthenticThrough};
ghost use Rattle.stun_keys.specs.Keys.{key_bytes, key_algorithm, credentials_key};
ghost use Rattle.stun_types.specs.Validating.{ShowsLawful};
ghost use Rattle.stun_types.specs.GivenHmacs.{given, IsCheckOf};
ghost use Rattle.stun_types.specs.Message.{message_bytes};

mod check;
mod compare;
mod find;

use super::Message;
use crate::message::{
    Hmac, IntegrityAlgorithm, IntegrityKey, MessageIntegrityCredentials, StunParseError,
    ValidateError,
};
pub use check::IntegrityCheck;
use find::find_checked;
use std::alloc::Global;
use stun_keys::keys::key_of_credentials;

/// Makes the key that the credentials give for an algorithm; the error says that an allocation
/// failed.
fn key_for(
    alloc: Global,
    credentials: &MessageIntegrityCredentials,
    algorithm: IntegrityAlgorithm,
) -> Result<IntegrityKey, ValidateError>
    ensures ok { IfOk result (λ key. key_bytes key ≡ credentials_key credentials.now algorithm) }
    ensures err { IfErr result (λ e. e ≡ ValidateError.Parse StunParseError.OutOfMemory) }
{
    Ok(key_of_credentials(alloc, credentials, algorithm)?)
}

impl<'a> Message<'a> {
    /// Checks the last integrity attribute that the message shows, MESSAGE-INTEGRITY or
    /// MESSAGE-INTEGRITY-SHA256, with the key that the credentials give for its algorithm, and
    /// returns that algorithm (RFC 8489, sections 9.1.3, 9.2.4, 14.5 and 14.6).
    ///
    /// The attribute's value must be the HMAC of the bytes that it covers, or in a
    /// MESSAGE-INTEGRITY-SHA256 the first 16, 20, 24 or 28 bytes of that. Covered is the message up
    /// to the attribute, with a length field that counts through the end of the attribute. The
    /// length field as received, and what follows the attribute, aren't covered.
    ///
    /// If the result is `Ok`, the covered bytes, the key and the algorithm determine the message
    /// type, the transaction ID and every attribute that is shown, except a FINGERPRINT. It isn't
    /// proved that only a holder of the key can make such an HMAC.
    ///
    /// The key is made in memory that `alloc` gives, once an attribute was found whose value has a
    /// length that its type may have. The message isn't copied.
    ///
    /// # Errors
    ///
    /// The first of these that applies:
    ///
    /// - `Parse(MissingAttribute(0x0008))` if no integrity attribute is shown;
    /// - `Parse(Truncated { expected, actual })` if the value has fewer than 20 bytes
    ///   (MESSAGE-INTEGRITY) or 16 (MESSAGE-INTEGRITY-SHA256),
    ///   `Parse(TooLarge { expected, actual })` if it has more than 20 or 32, and
    ///   `Parse(InvalidAttributeData)` if their number isn't a multiple of 4;
    /// - `Parse(OutOfMemory)` if an allocation failed while the key was made. An attribute was
    ///   found then, whose value has such a length, but nothing is known of its HMAC: the same call
    ///   may succeed later;
    /// - `IntegrityFailed` if the value isn't the HMAC.
    ///
    /// # Examples
    ///
    /// ```
    /// use stun_types::message::{
    ///     BINDING, IntegrityAlgorithm, Message, MessageClass, MessageIntegrityCredentials,
    ///     MessageType, MessageWriteVec, ShortTermCredentials, TransactionId,
    /// };
    /// use stun_types::prelude::*;
    ///
    /// let password = ShortTermCredentials::new(String::from_str(alloc, "secret")?);
    /// let credentials = MessageIntegrityCredentials::from(password);
    /// let mtype = MessageType::from_class_method(MessageClass::Request, BINDING);
    /// let write = MessageWriteVec::new(alloc);
    /// let mut request = Message::builder(mtype, TransactionId::from(1000), write)?;
    /// request.add_message_integrity(alloc, &credentials, IntegrityAlgorithm::Sha256)?;
    /// let mut bytes = request.finish();
    /// let validated = Message::from_bytes(&bytes)?.validate_integrity(alloc, &credentials);
    /// assert_eq!(rt; validated, Ok(IntegrityAlgorithm::Sha256));
    /// bytes[19] ^= 1; // another transaction ID
    /// assert!(rt; Message::from_bytes(&bytes)?.validate_integrity(alloc, &credentials).is_err());
    /// ```
    #[tactic(auto, using(stun_grammar::proofs::ParsingLemmas::parsed_frame, stun_grammar::proofs::VerdictsLemmas::verdict_keyed))]
    pub fn validate_integrity(
        &self,
        alloc: Global,
        credentials: &MessageIntegrityCredentials,
    ) -> Result<IntegrityAlgorithm, ValidateError>
        ensures verdict { result ≢ Err (ValidateError.Parse StunParseError.OutOfMemory)
            → result
            ≡ verdict (is_checked_type None) (credentials_key credentials.now)
            (message_bytes self.now) }
        ensures memory { result ≡ Err (ValidateError.Parse StunParseError.OutOfMemory)
            → ShowsLawful (message_bytes self.now) }
        ensures accepted { IfOk result
            (IsAuthentic (credentials_key credentials.now) (message_bytes self.now)) }
        // it is Ok, and the bytes c are covered, exactly if the message carries c and its HMAC
        ensures carried { (c : List ℕ) (a : IntegrityAlgorithm)
            → result ≢ Err (ValidateError.Parse StunParseError.OutOfMemory)
            → ((result ≡ Ok a) × (covered (is_checked_type None) (message_bytes self.now) ≡ Some c))
            ↔ Carries (message_bytes self.now) c (credentials_key credentials.now a) a }
    {
        let check = self.integrity_check(None)?;
        let text = check.text();
        let key = key_for(alloc, credentials, text.algorithm())?;
        check.finish(&text.hmac(&key))
    }

    /// Checks an integrity attribute with a key, as [`Message::validate_integrity`] does with
    /// credentials. If the key was made for an algorithm, only the integrity attribute of that
    /// algorithm is checked; else the last one that is shown. It takes no memory.
    ///
    /// If the result is `Ok`, the covered bytes, the key and the algorithm determine the message
    /// type, the transaction ID and the attributes that are shown up to and including the one that
    /// was checked. With a key that was made for an algorithm, more attributes may be shown than
    /// these.
    ///
    /// # Errors
    ///
    /// The first of these that applies:
    ///
    /// - `Parse(MissingAttribute(0x0008))` if no such attribute is shown. The number is 0x0008
    ///   for every key: with one that was made for `Sha256` it reports a missing
    ///   MESSAGE-INTEGRITY-SHA256 (0x001C), also if a MESSAGE-INTEGRITY (0x0008) is shown;
    /// - the errors of the value's length as for [`Message::validate_integrity`];
    /// - `IntegrityFailed` if the value isn't the HMAC.
    ///
    /// # Examples
    ///
    /// ```
    /// use stun_types::message::{
    ///     BINDING, IntegrityAlgorithm, IntegrityKey, Message, MessageClass, MessageType,
    ///     MessageWriteVec, TransactionId,
    /// };
    /// use stun_types::prelude::*;
    ///
    /// let key = IntegrityKey::new(alloc, b"secret", None)?;
    /// let mtype = MessageType::from_class_method(MessageClass::Request, BINDING);
    /// let write = MessageWriteVec::new(alloc);
    /// let mut request = Message::builder(mtype, TransactionId::from(1000), write)?;
    /// request.add_message_integrity_with_key(&key, IntegrityAlgorithm::Sha1)?;
    /// let bytes = request.finish();
    /// let request = Message::from_bytes(&bytes)?;
    /// assert_eq!(rt; request.validate_integrity_with_key(&key), Ok(IntegrityAlgorithm::Sha1));
    /// let for_sha256 = key.made_for(Some(IntegrityAlgorithm::Sha256));
    /// assert!(rt; request.validate_integrity_with_key(&for_sha256).is_err());
    /// ```
    #[tactic(auto, using(stun_grammar::proofs::ParsingLemmas::parsed_frame, stun_grammar::proofs::VerdictsLemmas::verdict_keyed))]
    pub fn validate_integrity_with_key(
        &self,
        key: &IntegrityKey,
    ) -> Result<IntegrityAlgorithm, ValidateError>
        ensures verdict { result
            ≡ verdict (is_checked_type (key_algorithm key.now)) (λ _. key_bytes key.now)
            (message_bytes self.now) }
        ensures accepted { IfOk result
            (IsAuthenticThrough (key_algorithm key.now) (λ _. key_bytes key.now)
            (message_bytes self.now)) }
        // it is Ok, and the bytes c are covered, exactly if the message carries c and its HMAC
        ensures carried { (c : List ℕ) (a : IntegrityAlgorithm) → key_algorithm key.now ≡ None
            → ((result ≡ Ok a) × (covered (is_checked_type None) (message_bytes self.now) ≡ Some c))
            ↔ Carries (message_bytes self.now) c (key_bytes key.now) a }
        // the same with a key that was made for an algorithm, whatever follows the HMAC
        ensures carried_own { (c : List ℕ) (a : IntegrityAlgorithm) → key_algorithm key.now ≡ Some a
            → ((result ≡ Ok a)
            × (covered (is_checked_type (Some a)) (message_bytes self.now) ≡ Some c))
            ↔ CarriesPrefix (message_bytes self.now) c (key_bytes key.now) a }
    {
        let check = self.integrity_check(key.algorithm())?;
        let text = check.text();
        check.finish(&text.hmac(key))
    }

    /// Finds the integrity attribute to check, that of the algorithm `made_for` or, with `None`, the
    /// last one that is shown, for a caller who computes the HMAC by the processor's instructions, by
    /// a validated module, or in hardware that keeps the key.
    ///
    /// [`IntegrityCheck::text`] returns the bytes that the attribute covers, and
    /// [`IntegrityCheck::finish`] compares their HMAC with the attribute's value. Both together do
    /// what [`Message::validate_integrity_with_key`] does with a key made for `made_for`. A
    /// MESSAGE-INTEGRITY-SHA256 of 16 bytes is accepted, as there:
    /// `stun_authentication::has_least_length` tests its length. It allocates nothing, and the message
    /// isn't copied.
    ///
    /// # Errors
    ///
    /// As for [`Message::validate_integrity_with_key`], except `IntegrityFailed`.
    ///
    /// # Examples
    ///
    /// ```
    /// use stun_types::message::{
    ///     BINDING, Hmac, IntegrityAlgorithm, IntegrityKey, Message, MessageClass, MessageType,
    ///     MessageWriteVec, TransactionId,
    /// };
    /// use stun_types::prelude::*;
    ///
    /// let key = IntegrityKey::new(alloc, b"secret", None)?;
    /// let mtype = MessageType::from_class_method(MessageClass::Request, BINDING);
    /// let write = MessageWriteVec::new(alloc);
    /// let mut request = Message::builder(mtype, TransactionId::from(1000), write)?;
    /// request.add_message_integrity_with_key(&key, IntegrityAlgorithm::Sha1)?;
    /// let bytes = request.finish();
    /// let request = Message::from_bytes(&bytes)?;
    /// let check = request.integrity_check(None)?;
    /// let text = check.text();
    /// assert_eq!(rt; text.algorithm(), IntegrityAlgorithm::Sha1);
    /// // The length field of the first piece counts the attribute, 24 bytes.
    /// assert_eq!(rt; text.pieces()[0], [0x00, 0x01, 0x00, 24].as_slice());
    /// // Here the caller's own code computes it.
    /// let hmac = Hmac::Sha1(key.hmac_sha1(&text.pieces()));
    /// assert_eq!(rt; check.finish(&hmac), Ok(IntegrityAlgorithm::Sha1));
    /// assert!(rt; check.finish(&Hmac::Sha1([0; 20])).is_err());
    /// ```
    #[tactic(auto, using(stun_grammar::proofs::ParsingLemmas::parsed_frame))]
    pub fn integrity_check(
        &self,
        made_for: Option<IntegrityAlgorithm>,
    ) -> Result<IntegrityCheck<'a>, ValidateError>
        ensures check { MatchResult result (λ check. IsCheckOf made_for (message_bytes self.now) check)
            (λ e. (given : IntegrityAlgorithm → List ℕ → List ℕ)
            → verdict_by (is_checked_type made_for) given (message_bytes self.now) ≡ Err e) }
        ensures memory { result ≢ Err (ValidateError.Parse StunParseError.OutOfMemory) }
        ensures bytes { IsBytes (message_bytes self.now) }
    {
        let found = find_checked(self.bytes, self.offsets, made_for)?;
        Ok(IntegrityCheck::of(self.bytes, found))
    }

    /// Checks an integrity attribute with an HMAC that the caller computed over the bytes that
    /// [`IntegrityCheck::text`] returned: the attribute of the algorithm `made_for` or, with `None`,
    /// the last one that is shown. Use it if you can't keep the [`IntegrityCheck`], for example while
    /// hardware computes the HMAC; the message must be the same.
    ///
    /// If the HMAC is that of the covered bytes under a key made for `made_for`, the result is that of
    /// [`Message::validate_integrity_with_key`] with that key, and `Ok` says the same of the message.
    ///
    /// # Errors
    ///
    /// As for [`Message::validate_integrity_with_key`]; `IntegrityFailed` also if the HMAC is by the
    /// other algorithm.
    ///
    /// # Examples
    ///
    /// ```
    /// use stun_types::message::{Hmac, IntegrityAlgorithm, Message};
    ///
    /// // The HMAC-SHA1 of the first twenty bytes with the key `pass` is their MESSAGE-INTEGRITY.
    /// let bytes = b"\x00\x01\x00\x18\x21\x12\xA4\x42\0\0\0\0\0\0\0\0\0\0\x03\xE8\x00\x08\x00\x14\
    ///     \x69\x9E\x82\x4C\x1E\xE3\xA6\x75\xDB\x9E\x32\x27\x7F\xAD\xA7\x0F\x25\x7E\x0C\x0D";
    /// let computed = [
    ///     0x69, 0x9E, 0x82, 0x4C, 0x1E, 0xE3, 0xA6, 0x75, 0xDB, 0x9E, 0x32, 0x27, 0x7F, 0xAD, 0xA7,
    ///     0x0F, 0x25, 0x7E, 0x0C, 0x0D,
    /// ];
    /// let request = Message::from_bytes(bytes)?;
    /// let verdict = request.validate_integrity_with_hmac(None, &Hmac::Sha1(computed));
    /// assert_eq!(rt; verdict, Ok(IntegrityAlgorithm::Sha1));
    /// ```
    #[tactic(auto, using(stun_grammar::proofs::VerdictsLemmas::verdict_keyed))]
    pub fn validate_integrity_with_hmac(
        &self,
        made_for: Option<IntegrityAlgorithm>,
        hmac: &Hmac,
    ) -> Result<IntegrityAlgorithm, ValidateError>
        ensures verdict { result ≡ verdict_by (is_checked_type made_for) (given hmac.now)
            (message_bytes self.now) }
        ensures keyed { (key : IntegrityAlgorithm → List ℕ)
            → GivesHmac (is_checked_type made_for) key (given hmac.now) (message_bytes self.now)
            → result ≡ verdict (is_checked_type made_for) key (message_bytes self.now) }
        ensures accepted { (key : IntegrityAlgorithm → List ℕ)
            → GivesHmac (is_checked_type made_for) key (given hmac.now) (message_bytes self.now)
            → IfOk result (IsAuthenticThrough made_for key (message_bytes self.now)) }
        // without an algorithm it is Ok, and the bytes c are covered, exactly if the message
        // carries c and its HMAC
        ensures carried { (key : IntegrityAlgorithm → List ℕ) (c : List ℕ) (a : IntegrityAlgorithm)
            → made_for ≡ None
            → GivesHmac (is_checked_type made_for) key (given hmac.now) (message_bytes self.now)
            → ((result ≡ Ok a) × (covered (is_checked_type None) (message_bytes self.now) ≡ Some c))
            ↔ Carries (message_bytes self.now) c (key a) a }
        // the same with an algorithm, whatever follows the HMAC
        ensures carried_own { (key : IntegrityAlgorithm → List ℕ) (c : List ℕ)
            (a : IntegrityAlgorithm) → made_for ≡ Some a
            → GivesHmac (is_checked_type made_for) key (given hmac.now) (message_bytes self.now)
            → ((result ≡ Ok a)
            × (covered (is_checked_type (Some a)) (message_bytes self.now) ≡ Some c))
            ↔ CarriesPrefix (message_bytes self.now) c (key a) a }
    {
        let check = self.integrity_check(made_for)?;
        check.finish(hmac)
    }
}
