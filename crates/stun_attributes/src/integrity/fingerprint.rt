use crate::wire::{Attribute, EncodeValue, ReadValue, TypedAttribute, copy_to_start};
use std::alloc::Global;
use std::fmt;
use stun_base::StunParseError;
use stun_grammar::attribute_types;
use stun_keys::digest::crc32;
use stun_text::{PrintText, TextSink};
use stun_values::{masked, print_hex, read_checksum};

/// FINGERPRINT: the CRC-32 of the message before it, in four bytes, big-endian (RFC 8489, section
/// 14.7). The value is the CRC-32 XORed with 53 54 55 4E; this type holds it without the XOR.
#[derive(Debug, Clone, PartialEq, Eq, Drop)]
pub struct Fingerprint {
    fingerprint: [u8; 4],
}

impl Fingerprint {
    ghost use Rattle.std.specs.Prelude.{◌≡◌, map};
    ghost use Rattle.std.specs.List.{concat};
    ghost use Rattle.stun_grammar.specs.Numbers.{be32};
    ghost use Rattle.stun_grammar.specs.Checksums.{crc};
    ghost use Rattle.stun_attributes.specs.Integrity.{checksum_bytes};

    /// A FINGERPRINT with the checksum `fingerprint`, not XORed.
    ///
    /// # Examples
    ///
    /// ```
    /// use stun_types::attribute::Fingerprint;
    /// use stun_types::prelude::*;
    ///
    /// let attribute = Fingerprint::new([0, 0, 0, 1]);
    /// assert_eq!(rt; attribute.to_raw(alloc)?.value().as_bytes(), b"STUO".as_slice());
    /// ```
    pub fn new(fingerprint: [u8; 4]) -> Self
        ensures { checksum_bytes result ≡ fingerprint }
    {
        Fingerprint { fingerprint }
    }

    /// The checksum that the FINGERPRINT holds, not XORed.
    ///
    /// # Examples
    ///
    /// ```
    /// use stun_types::attribute::{Fingerprint, RawAttribute};
    /// use stun_types::prelude::*;
    ///
    /// let raw = RawAttribute::new(Fingerprint::TYPE, b"STUO")?;
    /// assert_eq!(rt; Fingerprint::from_raw_ref(alloc, &raw)?.fingerprint(), &[0, 0, 0, 1]);
    /// ```
    pub fn fingerprint(&self) -> &[u8; 4]
        ensures { result.now ≡ checksum_bytes self.now }
    {
        &self.fingerprint
    }

    /// The CRC-32 of the pieces, joined, in four bytes, big-endian: what `new` takes, not XORed.
    ///
    /// It takes no memory. Only the joined bytes matter, not how they are cut.
    ///
    /// # Examples
    ///
    /// ```
    /// use stun_types::attribute::Fingerprint;
    ///
    /// let checksum = Fingerprint::compute(&[b"1234".as_slice(), b"56789"]);
    /// assert_eq!(rt; checksum, [0xCB, 0xF4, 0x39, 0x26]);
    /// ```
    pub fn compute(pieces: &[&[u8]]) -> [u8; 4]
        ensures { result ≡ be32 (crc (concat (map (λ piece. piece.now) pieces.now))) }
    {
        crc32(pieces).to_be_bytes()
    }
}

impl TypedAttribute for Fingerprint {
    ghost use Rattle.stun_grammar.specs.AttributeTypes.{FINGERPRINT};

    ghost NUMBER = { FINGERPRINT };

    const NUMBER: u16 = attribute_types::FINGERPRINT;
}

impl EncodeValue for Fingerprint {
    ghost use Rattle.stun_attributes.specs.Integrity.{checksum_bytes};
    ghost use Rattle.stun_values.specs.FingerprintValues.{masked_bytes};

    ghost bytes = { λ attribute. masked_bytes (checksum_bytes attribute) };

    fn value_length(&self) -> u16 {
        4
    }

    fn write_value(&self, dest: &mut [u8]) {
        copy_to_start(&masked(u32::from_be_bytes(self.fingerprint)), dest);
    }

    fn held_bytes(&self) -> Option<&[u8]> {
        None
    }
}

/// Reading takes no memory.
///
/// # Errors
///
/// `Truncated { expected: 4, actual }` if the value has fewer than four bytes, and
/// `TooLarge { expected: 4, actual }` if it has more.
impl ReadValue for Fingerprint {
    ghost use Rattle.stun_attributes.specs.Integrity.{ReadsFingerprint};

    ghost reads_value = { ReadsFingerprint };

    fn read_value(_alloc: Global, value: &[u8]) -> Result<Self, StunParseError> {
        let fingerprint = read_checksum(value)?;
        Ok(Fingerprint { fingerprint })
    }
}

impl PrintText for Fingerprint {
    ghost use Rattle.stun_grammar.specs.AttributeTypes.{FINGERPRINT};
    ghost use Rattle.stun_grammar.specs.Names.{hex_text};
    ghost use Rattle.stun_attributes.specs.Integrity.{checksum_bytes};

    ghost text = { λ attribute. hex_text FINGERPRINT (checksum_bytes attribute) };

    fn print<S: TextSink>(&self, sink: &mut S) -> Result<(), S::Error> {
        print_hex(sink, self.get_type(), self.fingerprint())
    }
}

/// The type and the checksum, not XORed, in hexadecimal:
/// `32808(0x8028: FINGERPRINT): 0x0102fffe`.
impl fmt::Display for Fingerprint {
    ghost use Rattle.std.specs.Prelude.{Some};
    ghost use Rattle.stun_grammar.specs.AttributeTypes.{FINGERPRINT};
    ghost use Rattle.stun_grammar.specs.Names.{hex_text};
    ghost use Rattle.stun_attributes.specs.Integrity.{checksum_bytes};

    ghost output = { λ attribute. Some (hex_text FINGERPRINT (checksum_bytes attribute)) };

    fn fmt<W: fmt::Write>(&self, f: &mut fmt::Formatter<W>) -> fmt::Result {
        self.print(f)
    }
}
