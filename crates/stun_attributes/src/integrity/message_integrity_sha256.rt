ghost use Rattle.std.specs.Prelude.{◌≡◌, ◌↔◌, ◌<◌, ◌≤◌, ◌%◌, IsTrue, length, take};

use crate::integrity::compare::same_bytes;
use crate::wire::{Attribute, BorrowValue, EncodeValue, ReadValue, TypedAttribute, copy_to_start};
use std::alloc::{AllocError, Global};
use std::fmt;
use stun_base::{StunParseError, StunWriteError};
use stun_grammar::{IntegrityAlgorithm, attribute_types};
use stun_keys::keys::IntegrityKey;
use stun_text::{PrintText, TextSink};
use stun_values::{check_sha256_length, print_hex};

/// Whether the bytes are a nonempty prefix of an HMAC.
fn is_prefix(prefix: &[u8], whole: &[u8; 32]) -> bool
    ensures { IsTrue result
        ↔ (0 < length prefix.now) × (prefix.now ≡ take (length prefix.now) whole.now) }
{
    if prefix.is_empty() || prefix.len() > whole.len() {
        return false;
    }
    same_bytes(prefix, &whole[..prefix.len()])
}

/// MESSAGE-INTEGRITY-SHA256 (0x001C): the HMAC-SHA256 of the message before it, or a prefix of it.
/// The value has 16 to 32 bytes, a multiple of 4 (RFC 8489, section 14.6).
///
/// The HMAC covers what that of [`MessageIntegrity`](crate::integrity::MessageIntegrity) covers; the length
/// field counts 4 bytes of header and those of the value, so for 32 bytes it is the attribute's
/// offset and 16.
///
/// Two attributes are equal if their values are.
#[derive(Debug, Drop)]
pub struct MessageIntegritySha256 {
    bytes: [u8; 32],
    count: usize,
    ghost least: { 16 ≤ count },
    ghost most: { count ≤ 32 },
    ghost four: { count % 4 ≡ 0 },
}

impl MessageIntegritySha256 {
    ghost use Rattle.std.specs.Prelude.{◌≡◌, ◌↔◌, ◌<◌, ◌≤◌, ◌%◌, IsTrue, true, Ok, length, map};
    ghost use Rattle.std.specs.List.{concat};
    ghost use Rattle.stun_grammar.specs.Hmac.{hmac};
    ghost use Rattle.stun_keys.specs.Keys.{key_bytes, key_algorithm, serves};
    ghost use Rattle.stun_attributes.specs.Integrity.{sha256_hmac, IsPrefixOf, MakesSha256};

    /// The attribute of these bytes, whose number is allowed.
    fn from_checked(hmac: &[u8]) -> Self
        requires least { 16 ≤ length hmac.now }
        requires most { length hmac.now ≤ 32 }
        requires four { length hmac.now % 4 ≡ 0 }
        ensures { sha256_hmac result ≡ hmac.now }
    {
        let count = hmac.len();
        let mut bytes = [0; 32];
        bytes[..count].copy_from_slice(hmac);
        MessageIntegritySha256 { bytes, count }
    }

    /// A MESSAGE-INTEGRITY-SHA256 with an HMAC, or a prefix of one. It takes no memory.
    ///
    /// # Errors
    ///
    /// `TooSmall { expected: 16, actual }` for fewer than 16 bytes, and
    /// `TooLarge { expected: 32, actual }` for more than 32. Otherwise `IntegrityFailed` if the
    /// number of bytes is not a multiple of 4.
    ///
    /// # Examples
    ///
    /// ```
    /// use stun_types::attribute::MessageIntegritySha256;
    /// use stun_types::message::StunWriteError;
    ///
    /// assert_eq!(rt; MessageIntegritySha256::new(&[0x5A; 16])?.hmac(), [0x5A; 16].as_slice());
    /// let refused = StunWriteError::TooSmall { expected: 16, actual: 12 };
    /// assert_eq!(rt; MessageIntegritySha256::new(&[0x5A; 12]), Err(refused));
    /// ```
    pub fn new(hmac: &[u8]) -> Result<Self, StunWriteError>
        ensures { MakesSha256 hmac.now result }
    {
        check_sha256_length(hmac.len())?;
        Ok(Self::from_checked(hmac))
    }

    /// The HMAC, or the prefix of one, that the MESSAGE-INTEGRITY-SHA256 holds.
    pub fn hmac(&self) -> &[u8]
        ensures bytes { result.now ≡ sha256_hmac self.now }
        ensures least { 16 ≤ length result.now }
        ensures most { length result.now ≤ 32 }
        ensures four { length result.now % 4 ≡ 0 }
    {
        &self.bytes[..self.count]
    }

    /// HMAC-SHA256 of the pieces, joined, under a key: all of its 32 bytes. The algorithm that the
    /// key was made for does not matter.
    ///
    /// It takes no memory, and always returns `Ok`.
    ///
    /// # Examples
    ///
    /// ```
    /// use stun_types::attribute::MessageIntegritySha256;
    /// use stun_types::message::IntegrityKey;
    ///
    /// // the second test case of RFC 4231
    /// let key = IntegrityKey::new(alloc, b"Jefe", None)?;
    /// let text = [b"what do ya want for nothing?".as_slice()];
    /// let hmac = MessageIntegritySha256::compute(&text, &key)?;
    /// assert_eq!(rt; &hmac[..4], [0x5B, 0xDC, 0xC1, 0x46].as_slice());
    /// ```
    pub fn compute(pieces: &[&[u8]], key: &IntegrityKey) -> Result<[u8; 32], StunWriteError>
        ensures { result ≡ Ok (hmac IntegrityAlgorithm.Sha256 (key_bytes key.now)
            (concat (map (λ piece. piece.now) pieces.now))) }
    {
        Ok(key.hmac_sha256(pieces))
    }

    /// Whether `expected` is the HMAC-SHA256 of the pieces, joined, or a nonempty prefix of it,
    /// under a key that was made for `Sha256` or has no algorithm. With a key that was made for
    /// `Sha1` the result is `false`.
    ///
    /// A prefix of any length will do, even a single byte: the lengths that the attribute may have
    /// are tested by [`MessageIntegritySha256::new`] and by reading. It takes no memory. All bytes
    /// of the prefix are compared, even after a difference; constant time is not claimed.
    ///
    /// # Examples
    ///
    /// ```
    /// use stun_types::attribute::MessageIntegritySha256;
    /// use stun_types::message::{IntegrityAlgorithm, IntegrityKey};
    ///
    /// let key = IntegrityKey::new(alloc, b"secret", None)?;
    /// let text = [b"some bytes".as_slice()];
    /// let hmac = MessageIntegritySha256::compute(&text, &key)?;
    /// assert!(rt; MessageIntegritySha256::verify(&text, &key, &hmac[..16]));
    /// let for_sha1 = key.made_for(Some(IntegrityAlgorithm::Sha1));
    /// assert!(rt; !MessageIntegritySha256::verify(&text, &for_sha1, &hmac));
    /// ```
    pub fn verify(pieces: &[&[u8]], key: &IntegrityKey, expected: &[u8]) -> bool
        ensures { IsTrue result
            ↔ (serves (key_algorithm key.now) IntegrityAlgorithm.Sha256 ≡ true)
            × IsPrefixOf expected.now (hmac IntegrityAlgorithm.Sha256 (key_bytes key.now)
            (concat (map (λ piece. piece.now) pieces.now))) }
    {
        key.serves(IntegrityAlgorithm::Sha256) && is_prefix(expected, &key.hmac_sha256(pieces))
    }
}

/// A copy takes no memory.
impl Clone for MessageIntegritySha256 {
    ghost use Rattle.std.specs.Prelude.{◌≡◌, ⊤};

    ghost is_clone = { λ attribute copy. copy ≡ attribute };

    ghost is_infallible = { λ _. ⊤ };

    fn clone(&self) -> Result<Self, AllocError> {
        Ok(MessageIntegritySha256 {
            bytes: self.bytes,
            count: self.count,
        })
    }
}

impl PartialEq for MessageIntegritySha256 {
    ghost use Rattle.std.specs.Prelude.{nat_eq};
    ghost use Rattle.std.specs.Cmp.{on_per, partial_equiv_from_equiv};
    ghost use Rattle.std.specs.Cmp.Lexicographic.{nat_list_eq_equiv, pointwise};
    ghost use Rattle.stun_attributes.specs.Integrity.{sha256_hmac};

    ghost eq = { λ a b. pointwise nat_eq (sha256_hmac a) (sha256_hmac b) };

    ghost laws = { on_per sha256_hmac (partial_equiv_from_equiv nat_list_eq_equiv) };

    fn eq(&self, other: &Self) -> bool {
        self.hmac() == other.hmac()
    }
}

impl Eq for MessageIntegritySha256 {
    ghost use Rattle.std.specs.Cmp.{on_equiv};
    ghost use Rattle.std.specs.Cmp.Lexicographic.{nat_list_eq_equiv};
    ghost use Rattle.stun_attributes.specs.Integrity.{sha256_hmac};

    ghost laws = { on_equiv sha256_hmac nat_list_eq_equiv };
}

impl TypedAttribute for MessageIntegritySha256 {
    ghost use Rattle.stun_grammar.specs.AttributeTypes.{MESSAGE_INTEGRITY_SHA256};

    ghost NUMBER = { MESSAGE_INTEGRITY_SHA256 };

    const NUMBER: u16 = attribute_types::MESSAGE_INTEGRITY_SHA256;
}

impl EncodeValue for MessageIntegritySha256 {
    ghost use Rattle.std.specs.Prelude.{true};
    ghost use Rattle.stun_attributes.specs.Integrity.{sha256_hmac};

    ghost bytes = { sha256_hmac };

    ghost is_held = { λ _. true };

    fn value_length(&self) -> u16 {
        self.hmac().len() as u16
    }

    fn write_value(&self, dest: &mut [u8]) {
        copy_to_start(self.hmac(), dest);
    }

    fn held_bytes(&self) -> Option<&[u8]> {
        Some(self.hmac())
    }
}

impl BorrowValue for MessageIntegritySha256 {
    fn value_bytes(&self) -> &[u8] {
        self.hmac()
    }
}

/// Reading takes no memory.
///
/// # Errors
///
/// `Truncated { expected: 16, actual }` if the value has fewer than 16 bytes, and
/// `TooLarge { expected: 32, actual }` if it has more than 32. Otherwise `InvalidAttributeData`
/// if its length is not a multiple of 4.
impl ReadValue for MessageIntegritySha256 {
    ghost use Rattle.stun_attributes.specs.Integrity.{ReadsIntegritySha256};

    ghost reads_value = { ReadsIntegritySha256 };

    fn read_value(_alloc: Global, value: &[u8]) -> Result<Self, StunParseError> {
        check_sha256_length(value.len())?;
        Ok(Self::from_checked(value))
    }
}

impl PrintText for MessageIntegritySha256 {
    ghost use Rattle.stun_grammar.specs.AttributeTypes.{MESSAGE_INTEGRITY_SHA256};
    ghost use Rattle.stun_grammar.specs.Names.{hex_text};
    ghost use Rattle.stun_attributes.specs.Integrity.{sha256_hmac};

    ghost text = { λ attribute. hex_text MESSAGE_INTEGRITY_SHA256 (sha256_hmac attribute) };

    fn print<S: TextSink>(&self, sink: &mut S) -> Result<(), S::Error> {
        print_hex(sink, self.get_type(), self.hmac())
    }
}

/// The type and the HMAC, or the prefix of it that the attribute holds, in hexadecimal, two digits
/// for each byte, in lower case: `28(0x1c: MESSAGE-INTEGRITY-SHA256): 0x00010203` and so on.
impl fmt::Display for MessageIntegritySha256 {
    ghost use Rattle.std.specs.Prelude.{Some};
    ghost use Rattle.stun_grammar.specs.AttributeTypes.{MESSAGE_INTEGRITY_SHA256};
    ghost use Rattle.stun_grammar.specs.Names.{hex_text};
    ghost use Rattle.stun_attributes.specs.Integrity.{sha256_hmac};

    ghost output = { λ attribute.
        Some (hex_text MESSAGE_INTEGRITY_SHA256 (sha256_hmac attribute)) };

    fn fmt<W: fmt::Write>(&self, f: &mut fmt::Formatter<W>) -> fmt::Result {
        self.print(f)
    }
}
