ghost use Rattle.std.specs.Prelude.{◌≡◌, ◌+◌, ◌-◌, ◌<◌, ◌≤◌, ◌++◌, ◌*◌, length, drop, MatchResult, slice_range};
ghost use Rattle.stun_grammar.specs.Numbers.{be16, number, padded_length};

use byteorder::{BigEndian, ByteOrder};
use stun_grammar::{AttributeType, StunParseError};

/// The header of an attribute: four bytes, the type and the length of the value in two bytes each,
/// big-endian (RFC 8489, section 14).
#[derive(Clone, Copy, Debug, PartialEq, Eq)]
pub struct AttributeHeader {
    /// The type of the attribute.
    pub atype: AttributeType,
    /// The number of bytes of the value, without its padding.
    pub length: u16,
}

impl AttributeHeader {
    /// Reads the header of an attribute from its first four bytes. What follows them is not looked
    /// at.
    ///
    /// # Errors
    ///
    /// `Truncated { expected: 4, actual }` if there are fewer than four bytes.
    ///
    /// # Examples
    ///
    /// ```
    /// use stun_types::attribute::{AttributeHeader, AttributeType};
    ///
    /// let header = AttributeHeader::from_bytes(b"\x80\x22\x00\x04STUN")?;
    /// assert_eq!(rt; header.get_type(), AttributeType(0x8022));
    /// assert_eq!(rt; header.length(), 4);
    /// ```
    pub fn from_bytes(bytes: &[u8]) -> Result<Self, StunParseError>
        ensures { MatchResult result
            (λ header. (4 ≤ length bytes.now) × (header ≡ record {
              atype = record { 0 = number (slice_range bytes.now 0 2) };
              length = number (slice_range bytes.now 2 4);
            }))
            (λ e. (length bytes.now < 4) × (e ≡ StunParseError.Truncated 4 (length bytes.now))) }
    {
        if bytes.len() < 4 {
            return Err(StunParseError::Truncated {
                expected: 4,
                actual: bytes.len(),
            });
        }
        Ok(AttributeHeader {
            atype: AttributeType(BigEndian::read_u16(bytes)),
            length: BigEndian::read_u16(&bytes[2..]),
        })
    }

    /// The header as its four bytes: the type and the length, big-endian.
    ///
    /// # Examples
    ///
    /// ```
    /// use stun_types::attribute::{AttributeHeader, AttributeType};
    ///
    /// let header = AttributeHeader { atype: AttributeType(0x8022), length: 4 };
    /// assert_eq!(rt; header.to_bytes(), [0x80, 0x22, 0x00, 0x04]);
    /// ```
    pub fn to_bytes(&self) -> [u8; 4]
        ensures { result ≡ be16 self.now.atype.0 ++ be16 self.now.length }
    {
        let mut bytes = [0; 4];
        BigEndian::write_u16(&mut bytes, self.atype.0);
        BigEndian::write_u16(&mut bytes[2..], self.length);
        bytes
    }

    /// Writes the four bytes of the header at the start of `dest`. The others keep their values.
    ///
    /// # Requires
    ///
    /// `dest.len()` is at least 4.
    ///
    /// # Examples
    ///
    /// ```
    /// use stun_types::attribute::{AttributeHeader, AttributeType};
    ///
    /// let mut bytes = [0xFF; 5];
    /// AttributeHeader { atype: AttributeType(0x8022), length: 4 }.write_into(&mut bytes);
    /// assert_eq!(rt; bytes, [0x80, 0x22, 0x00, 0x04, 0xFF]);
    /// ```
    pub fn write_into(&self, dest: &mut [u8])
        requires { 4 ≤ length dest.old }
        ensures { dest.new ≡ be16 self.now.atype.0 ++ be16 self.now.length ++ drop 4 dest.old }
    {
        BigEndian::write_u16(dest, self.atype.0);
        BigEndian::write_u16(&mut dest[2..], self.length);
    }

    /// The type of the attribute.
    pub fn get_type(&self) -> AttributeType
        ensures { result ≡ self.now.atype }
    {
        self.atype
    }

    /// The number of bytes of the value, without its padding.
    pub fn length(&self) -> u16
        ensures { result ≡ self.now.length }
    {
        self.length
    }
}

impl From<AttributeHeader> for [u8; 4] {
    ghost from_gives = { λ header bytes. bytes ≡ be16 header.atype.0 ++ be16 header.length };

    fn from(header: AttributeHeader) -> [u8; 4] {
        header.to_bytes()
    }
}

/// The number of bytes that a value of `len` bytes takes with its padding: the least multiple of 4
/// that is at least `len` (RFC 8489, section 14).
///
/// # Requires
///
/// `len` is at most `usize::MAX - 3`, as the length of every slice is.
///
/// # Examples
///
/// ```
/// use stun_types::attribute::pad_attribute_len;
///
/// assert_eq!(rt; pad_attribute_len(8), 8);
/// assert_eq!(rt; pad_attribute_len(9), 12);
/// ```
pub fn pad_attribute_len(len: usize) -> usize
    requires { len ≤ usize.MAX - 3 }
    ensures { result ≡ padded_length len }
{
    (len + 3) / 4 * 4
}
