use crate::integrity::compare::same_bytes;
use crate::wire::{Attribute, BorrowValue, EncodeValue, ReadValue, TypedAttribute, copy_to_start};
use std::alloc::Global;
use std::fmt;
use stun_base::{StunParseError, StunWriteError};
use stun_grammar::{IntegrityAlgorithm, attribute_types};
use stun_keys::keys::IntegrityKey;
use stun_text::{PrintText, TextSink};
use stun_values::{check_sha1_length, print_hex};

/// MESSAGE-INTEGRITY (0x0008): the HMAC-SHA1 of the message before it, 20 bytes (RFC 8489, section
/// 14.5).
///
/// The HMAC covers the bytes from the start of the message's header up to the attribute's own
/// header, with a length field that counts as if the message ended with the attribute: the field's
/// value is the attribute's offset and 4 (the twenty bytes of the header are not counted, and the
/// attribute takes 24). What follows the attribute is not covered. [`MessageIntegrity::compute`]
/// and [`MessageIntegrity::verify`] take these bytes as they are given; `Message` and the writers
/// set the length field themselves.
#[derive(Debug, Clone, PartialEq, Eq, Drop)]
pub struct MessageIntegrity {
    hmac: [u8; 20],
}

impl MessageIntegrity {
    ghost use Rattle.std.specs.Prelude.{◌≡◌, ◌↔◌, IsTrue, true, Ok, map};
    ghost use Rattle.std.specs.List.{concat};
    ghost use Rattle.stun_grammar.specs.Hmac.{hmac};
    ghost use Rattle.stun_keys.specs.Keys.{key_bytes, key_algorithm, serves};
    ghost use Rattle.stun_attributes.specs.Integrity.{sha1_hmac};

    /// A MESSAGE-INTEGRITY with the HMAC `hmac`.
    ///
    /// # Examples
    ///
    /// ```
    /// use stun_types::attribute::MessageIntegrity;
    ///
    /// let attribute = MessageIntegrity::new([0x5A; 20]);
    /// assert_eq!(rt; attribute.hmac(), &[0x5A; 20]);
    /// ```
    pub fn new(hmac: [u8; 20]) -> Self
        ensures { sha1_hmac result ≡ hmac }
    {
        MessageIntegrity { hmac }
    }

    /// The HMAC that the MESSAGE-INTEGRITY holds.
    pub fn hmac(&self) -> &[u8; 20]
        ensures { result.now ≡ sha1_hmac self.now }
    {
        &self.hmac
    }

    /// HMAC-SHA1 of the pieces, joined, under a key. The algorithm that the key was made for does
    /// not matter.
    ///
    /// It takes no memory, and always returns `Ok`.
    ///
    /// # Examples
    ///
    /// ```
    /// use stun_types::attribute::MessageIntegrity;
    /// use stun_types::message::IntegrityKey;
    ///
    /// // the second test case of RFC 2202
    /// let key = IntegrityKey::new(alloc, b"Jefe", None)?;
    /// let text = [b"what do ya want ".as_slice(), b"for nothing?"];
    /// let hmac = MessageIntegrity::compute(&text, &key)?;
    /// assert_eq!(rt; &hmac[..4], [0xEF, 0xFC, 0xDF, 0x6A].as_slice());
    /// ```
    pub fn compute(pieces: &[&[u8]], key: &IntegrityKey) -> Result<[u8; 20], StunWriteError>
        ensures { result ≡ Ok (hmac IntegrityAlgorithm.Sha1 (key_bytes key.now)
            (concat (map (λ piece. piece.now) pieces.now))) }
    {
        Ok(key.hmac_sha1(pieces))
    }

    /// Whether `expected` is the HMAC-SHA1 of the pieces, joined, under a key that was made for
    /// `Sha1` or has no algorithm. With a key that was made for `Sha256` the result is `false`.
    ///
    /// It takes no memory. All 20 bytes are compared, even after a difference; constant time is not
    /// claimed.
    ///
    /// # Examples
    ///
    /// ```
    /// use stun_types::attribute::MessageIntegrity;
    /// use stun_types::message::IntegrityKey;
    ///
    /// let key = IntegrityKey::new(alloc, b"secret", None)?;
    /// let other = IntegrityKey::new(alloc, b"another", None)?;
    /// let text = [b"some bytes".as_slice()];
    /// let hmac = MessageIntegrity::compute(&text, &key)?;
    /// assert!(rt; MessageIntegrity::verify(&text, &key, &hmac));
    /// assert!(rt; !MessageIntegrity::verify(&text, &other, &hmac));
    /// ```
    pub fn verify(pieces: &[&[u8]], key: &IntegrityKey, expected: &[u8; 20]) -> bool
        ensures { IsTrue result
            ↔ (serves (key_algorithm key.now) IntegrityAlgorithm.Sha1 ≡ true)
            × (expected.now ≡ hmac IntegrityAlgorithm.Sha1 (key_bytes key.now)
            (concat (map (λ piece. piece.now) pieces.now))) }
    {
        key.serves(IntegrityAlgorithm::Sha1) && same_bytes(expected, &key.hmac_sha1(pieces))
    }
}

impl TypedAttribute for MessageIntegrity {
    ghost use Rattle.stun_grammar.specs.AttributeTypes.{MESSAGE_INTEGRITY};

    ghost NUMBER = { MESSAGE_INTEGRITY };

    const NUMBER: u16 = attribute_types::MESSAGE_INTEGRITY;
}

impl EncodeValue for MessageIntegrity {
    ghost use Rattle.std.specs.Prelude.{true};
    ghost use Rattle.stun_attributes.specs.Integrity.{sha1_hmac};

    ghost bytes = { sha1_hmac };

    ghost is_held = { λ _. true };

    fn value_length(&self) -> u16 {
        20
    }

    fn write_value(&self, dest: &mut [u8]) {
        copy_to_start(self.hmac(), dest);
    }

    fn held_bytes(&self) -> Option<&[u8]> {
        Some(self.hmac())
    }
}

impl BorrowValue for MessageIntegrity {
    fn value_bytes(&self) -> &[u8] {
        self.hmac()
    }
}

/// Reading takes no memory.
///
/// # Errors
///
/// `Truncated { expected: 20, actual }` if the value has fewer than 20 bytes, and
/// `TooLarge { expected: 20, actual }` if it has more.
impl ReadValue for MessageIntegrity {
    ghost use Rattle.stun_attributes.specs.Integrity.{ReadsIntegrity};

    ghost reads_value = { ReadsIntegrity };

    fn read_value(_alloc: Global, value: &[u8]) -> Result<Self, StunParseError> {
        check_sha1_length(value.len())?;
        let mut hmac = [0; 20];
        hmac.copy_from_slice(value);
        Ok(MessageIntegrity { hmac })
    }
}

impl PrintText for MessageIntegrity {
    ghost use Rattle.stun_grammar.specs.AttributeTypes.{MESSAGE_INTEGRITY};
    ghost use Rattle.stun_grammar.specs.Names.{hex_text};
    ghost use Rattle.stun_attributes.specs.Integrity.{sha1_hmac};

    ghost text = { λ attribute. hex_text MESSAGE_INTEGRITY (sha1_hmac attribute) };

    fn print<S: TextSink>(&self, sink: &mut S) -> Result<(), S::Error> {
        print_hex(sink, self.get_type(), self.hmac())
    }
}

/// The type and the HMAC in hexadecimal, two digits for each byte, in lower case:
/// `8(0x8: MESSAGE-INTEGRITY): 0x00010203` and so on.
impl fmt::Display for MessageIntegrity {
    ghost use Rattle.std.specs.Prelude.{Some};
    ghost use Rattle.stun_grammar.specs.AttributeTypes.{MESSAGE_INTEGRITY};
    ghost use Rattle.stun_grammar.specs.Names.{hex_text};
    ghost use Rattle.stun_attributes.specs.Integrity.{sha1_hmac};

    ghost output = { λ attribute. Some (hex_text MESSAGE_INTEGRITY (sha1_hmac attribute)) };

    fn fmt<W: fmt::Write>(&self, f: &mut fmt::Formatter<W>) -> fmt::Result {
        self.print(f)
    }
}
