//! ChannelData messages (RFC 8656, sections 12.4 and 12.5), which share a socket with STUN
//! messages.

ghost use Rattle.std.specs.Prelude.{◌≡◌, ◌≤◌, ◌<◌, ◌+◌, Some, None, MatchResult, MatchOption, length};
ghost use Rattle.stun_grammar.specs.Numbers.{padded_length};
ghost use Rattle.turn_attrs.specs.Channels.{begin_fault, begin_fault_in, channel_field, data_length};

use crate::{Channel, ChannelRange};
use byteorder::{BigEndian, ByteOrder};
use stun_types::attribute::{AttributeHeader, AttributeType, pad_attribute_len};
use stun_types::message::StunWriteError;
use thiserror::Error;

/// Why bytes are no ChannelData message.
#[derive(Clone, Copy, Debug, PartialEq, Eq, Error)]
pub enum ChannelDataError {
    /// The first byte is none of 0x40 to 0x4F, with which the number of a channel begins.
    #[error("The provided data is not a ChannelData message")]
    NotChannelData,
    /// The bytes end before the message does.
    #[error("Not enough data for a ChannelData message, expected {expected}, actual {actual}")]
    Truncated {
        /// How many bytes are needed.
        expected: usize,
        /// How many there are.
        actual: usize,
    },
    /// After the message more bytes follow than a padding has.
    #[error("Too much data for a ChannelData message, expected {expected}, actual {actual}")]
    TooLarge {
        /// How many bytes are allowed.
        expected: usize,
        /// How many there are.
        actual: usize,
    },
}

/// A ChannelData message: the number of a channel and the length of the data in two bytes each,
/// big-endian, and the data. Over TCP and TLS zeros follow up to a multiple of 4; over UDP they
/// may.
#[derive(Clone, Copy, Debug, PartialEq, Eq)]
pub struct ChannelData<'a> {
    channel: Channel,
    bytes: &'a [u8],
    ghost short: { length bytes.now ≤ 65535 },
}

/// The channel with whose number the bytes begin; a length follows it.
fn read_channel(bytes: &[u8], range: ChannelRange) -> Result<Channel, ChannelDataError>
    ensures { MatchResult result
        (λ channel. (begin_fault_in range bytes.now ≡ None) × (4 ≤ length bytes.now)
        × (channel ≡ channel_field bytes.now))
        (λ e. begin_fault_in range bytes.now ≡ Some e) }
{
    let is_channel = match bytes.first() {
        Some(first) => range.begins_with(*first),
        None => true,
    };
    if !is_channel {
        return Err(ChannelDataError::NotChannelData);
    }
    if bytes.len() < 4 {
        return Err(ChannelDataError::Truncated {
            expected: 4,
            actual: bytes.len(),
        });
    }
    Ok(Channel::from_bytes(bytes[0], bytes[1]))
}

/// Returns the length in bytes of the ChannelData message whose first bytes are `prefix` on a
/// stream: four bytes, its data, and zeros up to a multiple of 4; 4 to 65540 in all. `None` if
/// there are fewer than four bytes, and a ChannelData message may begin with them. It takes no
/// memory, and looks at the first four bytes alone.
///
/// # Errors
///
/// `NotChannelData` if the first byte is none of 0x40 to 0x4F.
///
/// # Examples
///
/// ```
/// use turn_attrs::{ChannelDataError, channel_data_length};
///
/// // Five bytes of data on the channel 0x4001: four bytes, the data, and three of padding.
/// assert_eq!(rt; channel_data_length(b"\x40\x01\x00\x05he"), Ok(Some(12)));
/// assert_eq!(rt; channel_data_length(b"\x40\x01"), Ok(None));
/// // A STUN message begins with 0 to 3.
/// assert_eq!(rt; channel_data_length(b"\x00"), Err(ChannelDataError::NotChannelData));
/// ```
pub fn channel_data_length(prefix: &[u8]) -> Result<Option<usize>, ChannelDataError>
    ensures { MatchResult result
        (λ reported. MatchOption reported
        ((begin_fault prefix.now ≡ Some (ChannelDataError.Truncated 4 (length prefix.now)))
        × (length prefix.now < 4))
        (λ framed. (begin_fault prefix.now ≡ None)
        × (framed ≡ padded_length (4 + data_length prefix.now))))
        (λ e. (begin_fault prefix.now ≡ Some e) × (e ≡ ChannelDataError.NotChannelData)) }
{
    channel_data_length_in(prefix, ChannelRange::Rfc8656)
}

/// Returns that length, as [`channel_data_length`], for channels with the numbers of a range.
///
/// # Errors
///
/// `NotChannelData` if no number of the range begins with the first byte.
///
/// # Examples
///
/// ```
/// use turn_attrs::{ChannelDataError, ChannelRange, channel_data_length_in};
///
/// let prefix = b"\x67\x80\x00\x05";
/// assert_eq!(rt; channel_data_length_in(prefix, ChannelRange::Rfc5766), Ok(Some(12)));
/// let other = Err(ChannelDataError::NotChannelData);
/// assert_eq!(rt; channel_data_length_in(prefix, ChannelRange::Rfc8656), other);
/// ```
pub fn channel_data_length_in(
    prefix: &[u8],
    range: ChannelRange,
) -> Result<Option<usize>, ChannelDataError>
    ensures { MatchResult result
        (λ reported. MatchOption reported
        ((begin_fault_in range prefix.now
        ≡ Some (ChannelDataError.Truncated 4 (length prefix.now)))
        × (length prefix.now < 4))
        (λ framed. (begin_fault_in range prefix.now ≡ None)
        × (framed ≡ padded_length (4 + data_length prefix.now))))
        (λ e. (begin_fault_in range prefix.now ≡ Some e)
        × (e ≡ ChannelDataError.NotChannelData)) }
{
    match read_channel(prefix, range) {
        Ok(_) => {
            let length = BigEndian::read_u16(&prefix[2..4]) as usize;
            Ok(Some(pad_attribute_len(4 + length)))
        }
        Err(ChannelDataError::NotChannelData) => Err(ChannelDataError::NotChannelData),
        Err(_) => Ok(None),
    }
}

impl<'a> ChannelData<'a> {
    ghost use Rattle.std.specs.Prelude.{◌≡◌, ◌≤◌, ◌<◌, ◌+◌, ◌++◌, Ok, Err, Some, None, IsOkAnd, MatchResult, length, take, drop};
    ghost use Rattle.stun_grammar.specs.Numbers.{padded_length};
    ghost use Rattle.turn_attrs.specs.ChannelMessages.{IsData, IsIn, prefix_fault, prefix_fault_in, channel_fault, channel_fault_in, message_bytes, padded_bytes, data_of};

    /// Makes the message of this data on this channel, and borrows the data.
    ///
    /// # Errors
    ///
    /// `TooLarge { expected: 65535, actual }` if there are more than 65535 bytes.
    ///
    /// # Examples
    ///
    /// ```
    /// use turn_attrs::{Channel, ChannelData};
    ///
    /// let channel = Channel::new(0x4001).ok_or("no channel")?;
    /// let message = ChannelData::new(channel, b"hello")?;
    /// assert!(rt; message.length() == 9 && message.padded_len() == 12);
    /// assert!(rt; ChannelData::new(channel, &[0; 65536]).is_err());
    /// ```
    pub fn new(channel: Channel, bytes: &'a [u8]) -> Result<Self, StunWriteError>
        ensures ok { length bytes.now ≤ 65535 → IsOkAnd result (IsData channel bytes.now) }
        ensures large { 65535 < length bytes.now
            → result ≡ Err (StunWriteError.TooLarge 65535 (length bytes.now)) }
    {
        if bytes.len() > 65535 {
            return Err(StunWriteError::TooLarge {
                expected: 65535,
                actual: bytes.len(),
            });
        }
        Ok(ChannelData { channel, bytes })
    }

    /// Reads the ChannelData message in a datagram, whose data it borrows. Up to three bytes may
    /// follow it, as padding, and are ignored. On a stream `stun_framing::MessageStream::carrying`
    /// cuts it, or the caller does, by [`channel_data_length`].
    ///
    /// # Errors
    ///
    /// The first of these that applies:
    ///
    /// - `NotChannelData` if the first byte is none of 0x40 to 0x4F;
    /// - `Truncated { expected: 4, actual }` if there are fewer than four bytes;
    /// - `Truncated { expected, actual }` if there are fewer than four bytes and the data;
    /// - `TooLarge { expected, actual }` if there are more than that, padded to a multiple of 4.
    ///
    /// # Examples
    ///
    /// ```
    /// use turn_attrs::{ChannelData, ChannelDataError};
    ///
    /// let message = ChannelData::from_bytes(b"\x40\x01\x00\x05hello")?;
    /// assert!(rt; message.channel().number() == 0x4001 && message.data() == b"hello".as_slice());
    /// let cut = ChannelDataError::Truncated { expected: 9, actual: 7 };
    /// assert_eq!(rt; ChannelData::from_bytes(b"\x40\x01\x00\x05hel").err(), Some(cut));
    /// ```
    pub fn from_bytes(bytes: &'a [u8]) -> Result<Self, ChannelDataError>
        ensures { MatchResult result
            (λ read. (channel_fault bytes.now ≡ None) × IsIn bytes.now read)
            (λ e. channel_fault bytes.now ≡ Some e) }
    {
        Self::from_bytes_in(bytes, ChannelRange::Rfc8656)
    }

    /// Reads the ChannelData message in a datagram, as [`ChannelData::from_bytes`], on a channel
    /// with a number of a range.
    ///
    /// # Errors
    ///
    /// As for [`ChannelData::from_bytes`]: `NotChannelData` if no number of the range begins with
    /// the first byte.
    ///
    /// # Examples
    ///
    /// ```
    /// use turn_attrs::{ChannelData, ChannelRange};
    ///
    /// let datagram = b"\x67\x80\x00\x05hello";
    /// let message = ChannelData::from_bytes_in(datagram, ChannelRange::Rfc5766)?;
    /// assert!(rt; message.channel().number() == 0x6780);
    /// assert!(rt; ChannelData::from_bytes(datagram).is_err());
    /// ```
    pub fn from_bytes_in(bytes: &'a [u8], range: ChannelRange) -> Result<Self, ChannelDataError>
        ensures { MatchResult result
            (λ read. (channel_fault_in range bytes.now ≡ None) × IsIn bytes.now read)
            (λ e. channel_fault_in range bytes.now ≡ Some e) }
    {
        match Self::from_prefix_in(bytes, range) {
            Ok(message) if bytes.len() > message.padded_len() => Err(ChannelDataError::TooLarge {
                expected: message.padded_len(),
                actual: bytes.len(),
            }),
            read => read,
        }
    }

    /// Reads the ChannelData message that begins a datagram, whose data it borrows, as a server does
    /// (RFC 8656, section 12.6). What follows it is ignored, however long it is.
    ///
    /// # Errors
    ///
    /// As for [`ChannelData::from_bytes`], but never `TooLarge`.
    ///
    /// # Examples
    ///
    /// ```
    /// use turn_attrs::ChannelData;
    ///
    /// let datagram = b"\x40\x01\x00\x05hello, and more";
    /// let message = ChannelData::from_prefix(datagram)?;
    /// assert!(rt; message.length() == 9 && message.data() == b"hello".as_slice());
    /// assert!(rt; ChannelData::from_bytes(datagram).is_err());
    /// ```
    pub fn from_prefix(bytes: &'a [u8]) -> Result<Self, ChannelDataError>
        ensures { MatchResult result
            (λ read. (prefix_fault bytes.now ≡ None) × IsIn bytes.now read)
            (λ e. prefix_fault bytes.now ≡ Some e) }
    {
        Self::from_prefix_in(bytes, ChannelRange::Rfc8656)
    }

    /// Reads the ChannelData message that begins a datagram, as [`ChannelData::from_prefix`], on a
    /// channel with a number of a range.
    ///
    /// # Errors
    ///
    /// As for [`ChannelData::from_prefix`]: `NotChannelData` if no number of the range begins with
    /// the first byte.
    ///
    /// # Examples
    ///
    /// ```
    /// use turn_attrs::{ChannelData, ChannelRange};
    ///
    /// let datagram = b"\x67\x80\x00\x05hello, and more";
    /// let message = ChannelData::from_prefix_in(datagram, ChannelRange::Rfc5766)?;
    /// assert!(rt; message.channel().number() == 0x6780 && message.length() == 9);
    /// ```
    pub fn from_prefix_in(bytes: &'a [u8], range: ChannelRange) -> Result<Self, ChannelDataError>
        ensures { MatchResult result
            (λ read. (prefix_fault_in range bytes.now ≡ None) × IsIn bytes.now read)
            (λ e. prefix_fault_in range bytes.now ≡ Some e) }
    {
        let channel = read_channel(bytes, range)?;
        let end = 4 + BigEndian::read_u16(&bytes[2..4]) as usize;
        if bytes.len() < end {
            return Err(ChannelDataError::Truncated {
                expected: end,
                actual: bytes.len(),
            });
        }
        let (_, behind) = bytes.split_at(4);
        let (bytes, _) = behind.split_at(end - 4);
        Ok(ChannelData { channel, bytes })
    }

    /// Returns the channel on which the data is.
    pub fn channel(&self) -> Channel
        ensures { result ≡ self.now.channel }
    {
        self.channel
    }

    /// Returns the data, for as long as it is borrowed.
    pub fn data(&self) -> &'a [u8]
        ensures bytes { result.now ≡ data_of self.now }
        ensures short { length result.now ≤ 65535 }
    {
        self.bytes
    }

    /// Returns the length of the message without padding, in bytes: four, and the data.
    pub fn length(&self) -> usize
        ensures { result ≡ 4 + length (data_of self.now) }
    {
        4 + self.bytes.len()
    }

    /// Returns the length of the message on a stream, in bytes: a multiple of 4, at most 65540.
    pub fn padded_len(&self) -> usize
        ensures { result ≡ padded_length (4 + length (data_of self.now)) }
    {
        pad_attribute_len(self.length())
    }

    /// Writes the message at the start of `dest`, without padding, and returns its length in bytes,
    /// [`ChannelData::length`]. What follows is unchanged.
    ///
    /// # Errors
    ///
    /// `TooSmall { expected, actual }` if `dest` has fewer bytes than that; they are unchanged
    /// then.
    ///
    /// # Examples
    ///
    /// ```
    /// use turn_attrs::{Channel, ChannelData};
    ///
    /// let channel = Channel::new(0x4001).ok_or("no channel")?;
    /// let mut datagram = [0; 1500];
    /// let length = ChannelData::new(channel, b"hello")?.write_into(&mut datagram)?;
    /// assert_eq!(rt; &datagram[..length], b"\x40\x01\x00\x05hello".as_slice());
    /// ```
    pub fn write_into(&self, dest: &mut [u8]) -> Result<usize, StunWriteError>
        ensures short { length dest.old < 4 + length (data_of self.now)
            → (result ≡ Err (StunWriteError.TooSmall (4 + length (data_of self.now))
            (length dest.old))) × (dest.new ≡ dest.old) }
        ensures ok { 4 + length (data_of self.now) ≤ length dest.old
            → (result ≡ Ok (4 + length (data_of self.now)))
            × (dest.new ≡ message_bytes self.now
            ++ drop (4 + length (data_of self.now)) dest.old) }
    {
        let length = self.length();
        check_room(dest, length)?;
        self.write_unpadded(dest);
        Ok(length)
    }

    /// Writes the message and its padding at the start of `dest`, as a stream has it, and returns
    /// their length in bytes, [`ChannelData::padded_len`]. What follows is unchanged.
    ///
    /// # Errors
    ///
    /// `TooSmall { expected, actual }` if `dest` has fewer bytes than that; they are unchanged
    /// then.
    ///
    /// # Examples
    ///
    /// ```
    /// use turn_attrs::{Channel, ChannelData};
    ///
    /// let channel = Channel::new(0x4001).ok_or("no channel")?;
    /// let mut bytes = [0xFF; 16];
    /// let length = ChannelData::new(channel, b"hello")?.write_padded_into(&mut bytes)?;
    /// assert_eq!(rt; &bytes[..length], b"\x40\x01\x00\x05hello\x00\x00\x00".as_slice());
    /// ```
    pub fn write_padded_into(&self, dest: &mut [u8]) -> Result<usize, StunWriteError>
        ensures short { length dest.old < padded_length (4 + length (data_of self.now))
            → (result ≡ Err (StunWriteError.TooSmall (padded_length (4 + length (data_of self.now)))
            (length dest.old))) × (dest.new ≡ dest.old) }
        ensures ok { padded_length (4 + length (data_of self.now)) ≤ length dest.old
            → (result ≡ Ok (padded_length (4 + length (data_of self.now))))
            × (dest.new ≡ padded_bytes self.now
            ++ drop (padded_length (4 + length (data_of self.now))) dest.old) }
    {
        let padded = self.padded_len();
        check_room(dest, padded)?;
        dest[self.length()..padded].fill(0);
        self.write_unpadded(dest);
        Ok(padded)
    }

    /// Writes the message at the start of `dest`, which is long enough. What follows is unchanged.
    fn write_unpadded(&self, dest: &mut [u8])
        requires { 4 + length (data_of self.now) ≤ length dest.old }
        ensures { dest.new ≡ message_bytes self.now
            ++ drop (4 + length (data_of self.now)) dest.old }
    {
        let header = AttributeHeader {
            atype: AttributeType(self.channel.number()),
            length: self.bytes.len() as u16,
        };
        header.write_into(dest);
        dest[4..4 + self.bytes.len()].copy_from_slice(self.bytes);
    }
}

/// Tests that there are as many bytes.
fn check_room(dest: &[u8], expected: usize) -> Result<(), StunWriteError>
    ensures { MatchResult result
        (λ _. expected ≤ length dest.now)
        (λ e. (length dest.now < expected)
        × (e ≡ StunWriteError.TooSmall expected (length dest.now))) }
{
    if dest.len() < expected {
        return Err(StunWriteError::TooSmall {
            expected,
            actual: dest.len(),
        });
    }
    Ok(())
}
