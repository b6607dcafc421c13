//! Adding to a message in a slice, without a writer: for a caller that keeps the slice and
//! how many bytes of it are the message.

use crate::attribute::{AttributeType, EncodeValue};
use crate::message::{
    AddError, CoveredText, Hmac, IntegrityAlgorithm, IntegrityKey, StunWriteError,
};
use crate::reading::type_for;
use crate::writing::refusals::{Addition, barring, check_order, check_room, ending_types};
use crate::writing::{ResumePoint, append_encoded, append_value};
use stun_attributes::fingerprint_at;
use stun_base::pad_attribute_len;
use stun_grammar::attribute_types::FINGERPRINT;
use stun_values::hmac_length;

impl ResumePoint {
    ghost use Rattle.std.specs.Prelude.{◌≡◌, ◌+◌, ◌≤◌, [], length, take, OnOk, MatchResult, None, Some};
    ghost use Rattle.std.specs.Option.{option_or};
    ghost use Rattle.stun_grammar.specs.Adding.{order_refusal, room_refusal};
    ghost use Rattle.stun_grammar.specs.AttributeTypes.{FINGERPRINT as FINGERPRINT_TYPE};
    ghost use Rattle.stun_grammar.specs.Fingerprints.{fingerprint_value};
    ghost use Rattle.stun_grammar.specs.Steps.{finger, sign, integrity_value};
    ghost use Rattle.stun_grammar.specs.Verdicts.{type_of_algorithm};
    ghost use Rattle.stun_grammar.specs.Writing.{greatest_length};
    ghost use Rattle.stun_keys.specs.Keys.{key_bytes};
    ghost use Rattle.stun_types.specs.Additions.{step_of};
    ghost use Rattle.stun_types.specs.GivenHmacs.{hmac_algorithm, hmac_bytes, IsNextText};
    ghost use Rattle.stun_types.specs.Resuming.{message_types};
    ghost use Rattle.stun_types.specs.ResumePoints.{resumed_length, IsPointOf, any_in, step_in, AppendsIn};

    /// Checks that an attribute may be added that takes `added` bytes with its header and padding:
    /// the order first, and then the room.
    #[tactic(auto, using(crate::proofs::ResumedAddsLemmas::within, crate::proofs::ResumedAddsLemmas::size))]
    #[inline(always)]
    fn check_add(self, slice: &[u8], addition: Addition, added: usize) -> Result<(), StunWriteError>
        requires point { IsPointOf self slice.now }
        requires added { added ≤ 65540 }
        ensures answer { let message = take (resumed_length self) slice.now in MatchResult result
            (λ _. option_or (order_refusal (step_of addition) (message_types message))
            (room_refusal (length message) (Some (length slice.now)) (length message + added)) ≡ None)
            (λ e. option_or (order_refusal (step_of addition) (message_types message))
            (room_refusal (length message) (Some (length slice.now)) (length message + added))
            ≡ Some e) }
        ensures size { length (take (resumed_length self) slice.now) ≡ resumed_length self }
        ensures header { OnOk result (20 ≤ resumed_length self) }
        ensures room { OnOk result (resumed_length self + added ≤ length slice.now) }
        ensures fits { OnOk result (resumed_length self + added ≤ greatest_length) }
    {
        let ending = ending_types();
        let found = self
            .listed
            .first_of(&slice[..self.written], barring(addition, &ending));
        check_order(found, addition)?;
        check_room(self.written, Some(slice.len()), added)
    }

    /// Adds an attribute by its type and value to the message at the point, and returns the number
    /// of bytes that the message has then: the same as
    /// [`MessageWriteExt::add_value`](crate::writing::MessageWriteExt::add_value) by a writer that goes on
    /// here, without memory. What follows the message in `slice` stays as it was.
    ///
    /// # Requires
    ///
    /// `self` is what [`ResumePoint::check`] returned of `slice`, and `slice` is as it was then.
    /// `value.len()` is at most 65535.
    ///
    /// # Errors
    ///
    /// As for [`MessageWriteExt::add_any_attribute`](crate::writing::MessageWriteExt::add_any_attribute), but
    /// never `OutOfMemory`. `slice` then stays as it was.
    ///
    /// # Examples
    ///
    /// ```
    /// use stun_types::attribute::{AttributeType, Software};
    /// use stun_types::message::{Message, ResumePoint};
    ///
    /// let mut slice = [0; 64];
    /// slice[..20].copy_from_slice(b"\x00\x01\x00\x00\x21\x12\xA4\x42abcdefghijkl");
    /// let point = ResumePoint::check(&slice, 20)?;
    /// let written = point.add_value(&mut slice, AttributeType(0x8022), b"STUN")?;
    /// assert_eq!(rt; written, 28);
    /// let message = Message::from_bytes(&slice[..written])?;
    /// assert_eq!(rt; message.attribute::<Software>(alloc)?.software(), "STUN");
    /// ```
    #[tactic(auto, using(stun_grammar::proofs::AddingRefusedLemmas::ordinary_barred))]
    #[inline(always)]
    pub fn add_value(
        self,
        slice: &mut [u8],
        atype: AttributeType,
        value: &[u8],
    ) -> Result<usize, AddError>
        requires point { IsPointOf self slice.old }
        requires value { length value.now ≤ 65535 }
        ensures { AppendsIn
            (any_in (length slice.old) atype.0 value.now (take (resumed_length self) slice.old))
            atype.0 value.now result (resumed_length self) slice.old slice.new }
    {
        if atype.is_ending() {
            return Err(AddError::EndingType(atype));
        }
        let added = 4 + pad_attribute_len(value.len());
        self.check_add(slice, Addition::Ordinary, added)?;
        append_value(atype, value, self.written, slice);
        Ok(self.written + added)
    }

    /// Adds an attribute by its type and value to the message at the point, as
    /// [`ResumePoint::add_value`] does; the value is encoded straight into the message.
    ///
    /// # Requires
    ///
    /// `self` is what [`ResumePoint::check`] returned of `slice`, and `slice` is as it was then.
    ///
    /// # Errors
    ///
    /// As for [`ResumePoint::add_value`].
    ///
    /// # Examples
    ///
    /// ```
    /// use std::net::{IpAddr, Ipv4Addr, SocketAddr};
    /// use stun_types::attribute::{AttributeType, MappedSocketAddr};
    /// use stun_types::message::ResumePoint;
    ///
    /// let mut slice = [0; 64];
    /// slice[..20].copy_from_slice(b"\x00\x01\x00\x00\x21\x12\xA4\x42abcdefghijkl");
    /// let addr = SocketAddr::new(IpAddr::V4(Ipv4Addr::new(192, 0, 2, 7)), 3478);
    /// let value = MappedSocketAddr::new(addr);
    /// let point = ResumePoint::check(&slice, 20)?;
    /// assert_eq!(rt; point.add_encoded(&mut slice, AttributeType(0x0001), &value), Ok(32));
    /// assert_eq!(rt; &slice[20..32], [0, 1, 0, 8, 0, 1, 0x0D, 0x96, 192, 0, 2, 7].as_slice());
    /// ```
    #[tactic(auto, using(stun_grammar::proofs::AddingRefusedLemmas::ordinary_barred))]
    pub fn add_encoded<V: EncodeValue>(
        self,
        slice: &mut [u8],
        atype: AttributeType,
        value: &V,
    ) -> Result<usize, AddError>
        requires { IsPointOf self slice.old }
        ensures { AppendsIn
            (any_in (length slice.old) atype.0 (V.bytes value.now)
            (take (resumed_length self) slice.old))
            atype.0 (V.bytes value.now) result (resumed_length self) slice.old slice.new }
    {
        if atype.is_ending() {
            return Err(AddError::EndingType(atype));
        }
        let added = 4 + pad_attribute_len(value.value_length() as usize);
        self.check_add(slice, Addition::Ordinary, added)?;
        append_encoded(atype, value, self.written, slice);
        Ok(self.written + added)
    }

    /// Signs the message at the point, and returns the number of bytes that the message has then:
    /// the same as [`MessageWriteExt::add_message_integrity_with_key`] by a writer that goes on
    /// here, without memory. What follows the message in `slice` stays as it was.
    ///
    /// # Requires
    ///
    /// As for [`ResumePoint::add_value`].
    ///
    /// # Errors
    ///
    /// As for [`MessageWriteExt::add_message_integrity_with_key`], but never `OutOfMemory`. `slice`
    /// then stays as it was.
    ///
    /// # Examples
    ///
    /// ```
    /// use stun_types::message::{IntegrityAlgorithm, IntegrityKey, Message, ResumePoint};
    ///
    /// let key = IntegrityKey::new(alloc, b"secret", None)?;
    /// let mut slice = [0; 64];
    /// slice[..20].copy_from_slice(b"\x00\x01\x00\x00\x21\x12\xA4\x42abcdefghijkl");
    /// let (point, sha1) = (ResumePoint::check(&slice, 20)?, IntegrityAlgorithm::Sha1);
    /// let written = point.add_message_integrity_with_key(&mut slice, &key, sha1)?;
    /// assert_eq!(rt; written, 44);
    /// let message = Message::from_bytes(&slice[..written])?;
    /// assert_eq!(rt; message.validate_integrity_with_key(&key), Ok(sha1));
    /// ```
    ///
    /// [`MessageWriteExt::add_message_integrity_with_key`]: crate::writing::MessageWriteExt::add_message_integrity_with_key
    #[tactic(auto, using(stun_grammar::proofs::AddingRefusedLemmas::signing_barred, stun_grammar::proofs::AddingLemmas::hmac_padded))]
    pub fn add_message_integrity_with_key(
        self,
        slice: &mut [u8],
        key: &IntegrityKey,
        algorithm: IntegrityAlgorithm,
    ) -> Result<usize, StunWriteError>
        requires { IsPointOf self slice.old }
        ensures { AppendsIn
            (step_in (length slice.old) (sign algorithm (key_bytes key.now))
            (take (resumed_length self) slice.old)) (type_of_algorithm algorithm)
            (integrity_value (take (resumed_length self) slice.old) (key_bytes key.now) algorithm)
            result (resumed_length self) slice.old slice.new }
    {
        let added = 4 + hmac_length(algorithm);
        self.check_add(slice, Addition::Integrity(algorithm), added)?;
        let len = self.written;
        let text = CoveredText::at(&slice[..len], len, algorithm, hmac_length(algorithm));
        let hmac = text.hmac(key);
        append_value(
            AttributeType(type_for(algorithm)),
            hmac.as_bytes(),
            len,
            slice,
        );
        Ok(len + added)
    }

    /// The bytes that the integrity attribute of an algorithm would cover if it were added to the
    /// message at the point, for a caller who computes the HMAC. They borrow the slice. It allocates
    /// nothing.
    ///
    /// # Requires
    ///
    /// As for [`ResumePoint::add_value`].
    ///
    /// # Errors
    ///
    /// As for [`ResumePoint::add_message_integrity_with_key`].
    ///
    /// # Examples
    ///
    /// ```
    /// use stun_types::message::{Hmac, IntegrityAlgorithm, IntegrityKey, Message, ResumePoint};
    ///
    /// let key = IntegrityKey::new(alloc, b"secret", None)?;
    /// let mut slice = [0; 64];
    /// slice[..20].copy_from_slice(b"\x00\x01\x00\x00\x21\x12\xA4\x42abcdefghijkl");
    /// let point = ResumePoint::check(&slice, 20)?;
    /// let text = point.next_integrity_text(&slice, IntegrityAlgorithm::Sha256)?;
    /// // Here the caller's own code computes it.
    /// let hmac = Hmac::Sha256(key.hmac_sha256(&text.pieces()));
    /// let written = point.add_message_integrity_with_hmac(&mut slice, &hmac)?;
    /// let message = Message::from_bytes(&slice[..written])?;
    /// let verdict = message.validate_integrity_with_key(&key);
    /// assert_eq!(rt; verdict, Ok(IntegrityAlgorithm::Sha256));
    /// ```
    #[tactic(auto, using(stun_grammar::proofs::AddingRefusedLemmas::signing_barred, stun_grammar::proofs::AddingLemmas::hmac_padded))]
    pub fn next_integrity_text(
        self,
        slice: &[u8],
        algorithm: IntegrityAlgorithm,
    ) -> Result<CoveredText<'_>, StunWriteError>
        requires { IsPointOf self slice.now }
        ensures { MatchResult result
            (λ text. IsNextText (step_in (length slice.now) (sign algorithm [])
            (take (resumed_length self) slice.now)) (take (resumed_length self) slice.now)
            algorithm text)
            (λ e. step_in (length slice.now) (sign algorithm [])
            (take (resumed_length self) slice.now) ≡ Some e) }
    {
        let count = hmac_length(algorithm);
        self.check_add(slice, Addition::Integrity(algorithm), 4 + count)?;
        let len = self.written;
        Ok(CoveredText::at(&slice[..len], len, algorithm, count))
    }

    /// Signs the message at the point with an HMAC that the caller computed over the bytes that
    /// [`ResumePoint::next_integrity_text`] returned, as
    /// [`ResumePoint::add_message_integrity_with_key`] does with a key. With an HMAC over other bytes
    /// the message doesn't validate.
    ///
    /// # Requires
    ///
    /// As for [`ResumePoint::add_value`]: so nothing was added since the point was checked.
    ///
    /// # Errors
    ///
    /// As for [`ResumePoint::add_message_integrity_with_key`].
    #[tactic(auto, using(stun_grammar::proofs::AddingRefusedLemmas::signing_barred, stun_grammar::proofs::AddingLemmas::hmac_padded))]
    pub fn add_message_integrity_with_hmac(
        self,
        slice: &mut [u8],
        hmac: &Hmac,
    ) -> Result<usize, StunWriteError>
        requires { IsPointOf self slice.old }
        ensures { AppendsIn
            (step_in (length slice.old) (sign (hmac_algorithm hmac.now) [])
            (take (resumed_length self) slice.old)) (type_of_algorithm (hmac_algorithm hmac.now))
            (hmac_bytes hmac.now)
            result (resumed_length self) slice.old slice.new }
    {
        let algorithm = hmac.algorithm();
        let added = 4 + hmac_length(algorithm);
        self.check_add(slice, Addition::Integrity(algorithm), added)?;
        let len = self.written;
        append_value(
            AttributeType(type_for(algorithm)),
            hmac.as_bytes(),
            len,
            slice,
        );
        Ok(len + added)
    }

    /// Ends the message at the point by a FINGERPRINT, and returns the number of bytes that the
    /// message has then: the same as
    /// [`MessageWriteExt::add_fingerprint`](crate::writing::MessageWriteExt::add_fingerprint) by a writer
    /// that goes on here, without memory. What follows the message in `slice` stays as it was.
    ///
    /// # Requires
    ///
    /// As for [`ResumePoint::add_value`].
    ///
    /// # Errors
    ///
    /// As for [`MessageWriteExt::add_fingerprint`](crate::writing::MessageWriteExt::add_fingerprint), but
    /// never `OutOfMemory`. `slice` then stays as it was.
    ///
    /// # Examples
    ///
    /// ```
    /// use stun_types::message::{Message, ResumePoint};
    ///
    /// let mut slice = [0; 40];
    /// slice[..20].copy_from_slice(b"\x00\x01\x00\x00\x21\x12\xA4\x42abcdefghijkl");
    /// let written = ResumePoint::check(&slice, 20)?.add_fingerprint(&mut slice)?;
    /// assert_eq!(rt; written, 28);
    /// assert!(rt; Message::from_bytes(&slice[..written]).is_ok());
    /// ```
    pub fn add_fingerprint(self, slice: &mut [u8]) -> Result<usize, StunWriteError>
        requires { IsPointOf self slice.old }
        ensures { AppendsIn
            (step_in (length slice.old) finger (take (resumed_length self) slice.old))
            FINGERPRINT_TYPE (fingerprint_value (take (resumed_length self) slice.old)
            (length (take (resumed_length self) slice.old)))
            result (resumed_length self) slice.old slice.new }
    {
        self.check_add(slice, Addition::Fingerprint, 8)?;
        let len = self.written;
        let value = fingerprint_at(&slice[..len], len);
        append_value(AttributeType(FINGERPRINT), &value, len, slice);
        Ok(len + 8)
    }
}
