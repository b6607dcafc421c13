ghost use Rattle.std.specs.Prelude.{◌≡◌, ◌+◌, ◌≤◌, ◌<◌, slice_range, ◌==◌, nat_lt, length, take, drop, slice_index, MatchResult, None, Some};
ghost use Rattle.std.specs.List.{list_all, zip};
ghost use Rattle.stun_grammar.specs.Numbers.{be32, number};
ghost use Rattle.stun_grammar.specs.Headers.{magic_cookie, is_header, begins, header_fault, id_field};
ghost use Rattle.stun_base.specs.MessageTypes.{header_of};

use crate::{MAGIC_COOKIE, MessageType, TransactionId};
use byteorder::{BigEndian, ByteOrder};
use std::marker::Model;
use stun_grammar::StunParseError;

/// The header of a message: twenty bytes. These are the type in two bytes, the number of bytes that
/// follow in two, the magic cookie in four and the transaction ID in twelve, all of them big-endian
/// (RFC 8489, section 5).
///
/// # Examples
///
/// ```
/// use stun_types::message::{BINDING, MessageHeader};
///
/// let mut bytes = [0; 20];
/// bytes[..8].copy_from_slice(&[0x00, 0x01, 0x00, 0x08, 0x21, 0x12, 0xA4, 0x42]);
/// bytes[19] = 7;
/// let header = MessageHeader::from_bytes(&bytes)?;
/// assert!(rt; header.get_type().has_method(BINDING));
/// assert_eq!(rt; header.data_length(), 8);
/// assert_eq!(rt; header.transaction_id().value(), 7);
/// ```
#[derive(Debug, Drop)]
pub struct MessageHeader {
    mtype: MessageType,
    transaction_id: TransactionId,
    length: u16,
}

impl Model for MessageHeader {
    ghost use Rattle.stun_base.specs.MessageTypes.{Header};

    ghost Value = { Header };

    ghost view = { λ h. record { type = h.mtype; length = h.length; id = h.transaction_id } };
}

/// The greatest length of a message, in bytes: a buffer of this length takes any message of a stream,
/// and any that is written.
///
/// It is a header and the greatest length field that is a multiple of 4, as it is of every message
/// (RFC 8489, section 5). A datagram may be up to three bytes longer and still parse: after an ending
/// attribute the bytes that follow another attribute aren't looked at.
pub const GREATEST_MESSAGE: usize = 65552;

/// Whether the first byte, if there is one, can be that of a header.
fn first_may_begin(bytes: &[u8]) -> bool
    ensures { result ≡ list_all (λ first. nat_lt first 64) (take 1 bytes.now) }
{
    bytes.iter().take(1).all(|first| *first < 64)
}

/// Whether the bytes from offset 4 on, as far as there are any, agree with the magic cookie.
fn cookie_may_follow(bytes: &[u8]) -> bool
    ensures { result
        ≡ list_all (λ pair. pair.0 == pair.1) (zip (drop 4 bytes.now) (be32 magic_cookie)) }
{
    let cookie = MAGIC_COOKIE.to_be_bytes();
    bytes
        .iter()
        .skip(4)
        .zip(cookie.iter())
        .all(|(byte, wanted)| *byte == *wanted)
}

/// Whether a header can begin with these bytes, fewer than twenty.
#[tactic(auto, unfolding(stun_grammar::specs::Headers::begins))]
fn may_begin(bytes: &[u8]) -> bool
    ensures { result ≡ begins bytes.now }
{
    first_may_begin(bytes) && cookie_may_follow(bytes)
}

/// Whether these bytes, twenty or more, begin with a header.
fn begins_with_header(bytes: &[u8]) -> bool
    requires { 20 ≤ length bytes.now }
    ensures { result ≡ is_header bytes.now }
{
    bytes[0] < 64 && BigEndian::read_u32(&bytes[4..8]) == MAGIC_COOKIE
}

/// The two bytes at offset `at` as a number, big-endian.
///
/// # Requires
///
/// `at + 2` is at most `bytes.len()`.
pub fn number_at(bytes: &[u8], at: usize) -> u16
    requires { at + 2 ≤ length bytes.now }
    ensures { result ≡ number (slice_range bytes.now at (at + 2)) }
{
    BigEndian::read_u16(&bytes[at..at + 2])
}

/// The transaction ID of a header: its last twelve bytes.
fn read_id(bytes: &[u8]) -> TransactionId
    requires { 20 ≤ length bytes.now }
    ensures { result ≡ id_field bytes.now }
{
    let mut id = [0; 12];
    id.copy_from_slice(&bytes[8..20]);
    TransactionId::from_bytes(&id)
}

/// Reads the header from bytes that are known to begin with one.
///
/// # Requires
///
/// There are at least twenty bytes, and the first is below 64: so it is if [`check_header`] is
/// `Ok`.
pub fn read_header(bytes: &[u8]) -> MessageHeader
    requires long { 20 ≤ length bytes.now }
    requires low { slice_index bytes.now 0 < 64 }
    ensures { result ≡ header_of bytes.now }
{
    MessageHeader {
        mtype: MessageType::of_number(number_at(bytes, 0)),
        transaction_id: read_id(bytes),
        length: number_at(bytes, 2),
    }
}

/// Why fewer than twenty bytes are refused.
#[cold]
#[inline(never)]
fn short_header(bytes: &[u8]) -> StunParseError
    requires { length bytes.now < 20 }
    ensures { header_fault bytes.now ≡ Some result }
{
    if !may_begin(bytes) {
        return StunParseError::NotStun;
    }
    StunParseError::Truncated {
        expected: MessageHeader::LENGTH,
        actual: bytes.len(),
    }
}

/// Checks that `bytes` begin with a header, which is not read. What follows it is not looked at.
///
/// # Errors
///
/// As for [`MessageHeader::from_bytes`].
pub fn check_header(bytes: &[u8]) -> Result<(), StunParseError>
    ensures { MatchResult result
        (λ _. header_fault bytes.now ≡ None)
        (λ e. header_fault bytes.now ≡ Some e) }
{
    if bytes.len() < MessageHeader::LENGTH {
        return Err(short_header(bytes));
    }
    if !begins_with_header(bytes) {
        return Err(StunParseError::NotStun);
    }
    Ok(())
}

impl MessageHeader {
    /// The number of bytes of a header: 20.
    pub const LENGTH: usize = 20;

    /// Reads the header of a message at the start of `bytes`. What follows it is not looked at.
    ///
    /// If a message comes in pieces, as over TCP, another protocol is noticed as soon as a byte
    /// differs.
    ///
    /// # Errors
    ///
    /// `NotStun` if no header can begin with these bytes, whatever follows: the first byte is 64
    /// or more, or the bytes from offset 4 to 8, as far as there are any, are not those of the
    /// magic cookie. Otherwise `Truncated { expected: 20, actual }` if there are fewer than
    /// twenty bytes.
    ///
    /// # Examples
    ///
    /// ```
    /// use stun_types::message::{MessageHeader, StunParseError};
    ///
    /// let incomplete = StunParseError::Truncated { expected: 20, actual: 5 };
    /// assert_eq!(rt; MessageHeader::from_bytes(&[0, 1, 0, 0, 0x21]).err(), Some(incomplete));
    /// let other = MessageHeader::from_bytes(&[0, 1, 0, 0, 0x22]).err();
    /// assert_eq!(rt; other, Some(StunParseError::NotStun));
    /// ```
    pub fn from_bytes(bytes: &[u8]) -> Result<Self, StunParseError>
        ensures { MatchResult result
            (λ header. (header_fault bytes.now ≡ None) × (header ≡ header_of bytes.now))
            (λ e. header_fault bytes.now ≡ Some e) }
    {
        check_header(bytes)?;
        Ok(read_header(bytes))
    }

    /// The number of bytes that follow the header, as its length field states it.
    pub fn data_length(&self) -> u16
        ensures { result ≡ self.now.length }
    {
        self.length
    }

    /// The transaction ID of the message.
    pub fn transaction_id(&self) -> TransactionId
        ensures { result ≡ self.now.id }
    {
        self.transaction_id
    }

    /// The type of the message: class and method.
    pub fn get_type(&self) -> MessageType
        ensures { result ≡ self.now.type }
    {
        self.mtype
    }
}
