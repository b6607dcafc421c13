//! Channels of TURN (RFC 8656, section 12), and CHANNEL-NUMBER, which holds one.

use crate::{ChannelNumberKind, ChannelRange, OldChannelNumberKind};
use std::fmt;
use std::marker::Model;
use stun_types::attribute::PackedKind;
use stun_types::{PrintText, TextSink, put_hex};

/// The number of a channel: 0x4000 to 0x4FFF (RFC 8656, section 12), and to 0x7FFF if it was asked
/// for by [`ChannelRange::Rfc5766`].
#[derive(Clone, Copy, Debug, PartialEq, Eq)]
pub struct Channel(u16);

impl Model for Channel {
    ghost use Rattle.std.specs.Prelude.{ℕ, ◌≤◌};

    ghost Value = { ℕ };

    ghost view = { λ channel. channel.0 };

    ghost invariant = { λ channel. (0x4000 ≤ channel.0) × (channel.0 ≤ 0x7FFF) };

    ghost inverse = { λ number. record { 0 = number } };
}

impl Channel {
    ghost use Rattle.std.specs.Prelude.{◌≡◌, ◌≤◌, ◌+◌, ◌*◌};
    ghost use Rattle.turn_attrs.specs.Channels.{channel_of, channel_of_range};

    /// Returns the channel of this number; `None` if it is below 0x4000 or above 0x4FFF.
    ///
    /// # Examples
    ///
    /// ```
    /// use turn_attrs::Channel;
    ///
    /// assert!(rt; Channel::new(0x4FFF).is_some_and(|channel| channel.number() == 0x4FFF));
    /// assert!(rt; Channel::new(0x3FFF).is_none() && Channel::new(0x5000).is_none());
    /// ```
    pub fn new(number: u16) -> Option<Channel>
        ensures { result ≡ channel_of number }
    {
        Self::in_range(number, ChannelRange::Rfc8656)
    }

    /// Returns the channel of this number; `None` if it is below 0x4000, or above the greatest one
    /// of the range.
    ///
    /// # Examples
    ///
    /// ```
    /// use turn_attrs::{Channel, ChannelRange};
    ///
    /// assert!(rt; Channel::in_range(0x7FFF, ChannelRange::Rfc5766).is_some());
    /// assert!(rt; Channel::in_range(0x8000, ChannelRange::Rfc5766).is_none());
    /// assert!(rt; Channel::in_range(0x5000, ChannelRange::Rfc8656).is_none());
    /// ```
    pub fn in_range(number: u16, range: ChannelRange) -> Option<Channel>
        ensures { result ≡ channel_of_range range number }
    {
        if 0x4000 <= number && number <= range.greatest() {
            Some(Channel(number))
        } else {
            None
        }
    }

    /// The channel whose number has these bytes.
    pub(crate) fn from_bytes(high: u8, low: u8) -> Channel
        requires least { 0x40 ≤ high }
        requires greatest { high ≤ 0x7F }
        ensures { result ≡ 256 * high + low }
    {
        Channel(high as u16 * 256 + low as u16)
    }

    /// Returns the number of the channel, 0x4000 to 0x7FFF.
    pub fn number(&self) -> u16
        ensures number { result ≡ self.now }
        ensures least { 0x4000 ≤ result }
        ensures greatest { result ≤ 0x7FFF }
    {
        self.0
    }
}

impl PrintText for Channel {
    ghost use Rattle.turn_attrs.specs.Channels.{channel_text};

    ghost text = { channel_text };

    fn print<S: TextSink>(&self, sink: &mut S) -> Result<(), S::Error> {
        sink.put("0x")?;
        put_hex(sink, self.0 as u128)?;
        Ok(())
    }
}

/// The number in hexadecimal: `0x4001`.
impl fmt::Display for Channel {
    ghost use Rattle.std.specs.Prelude.{Some};
    ghost use Rattle.turn_attrs.specs.Channels.{channel_text};

    ghost output = { λ channel. Some (channel_text channel) };

    fn fmt<W: fmt::Write>(&self, f: &mut fmt::Formatter<W>) -> fmt::Result {
        self.print(f)
    }
}

impl PackedKind<Channel> for ChannelNumberKind {
    ghost use Rattle.turn_attrs.specs.Channels.{channel_in, channel_number};

    type Number = u32;

    ghost number_of = { channel_number };

    ghost fields_of = { channel_in };

    fn to_number(channel: &Channel) -> u32 {
        channel.number() as u32 * 0x1_0000
    }

    fn from_number(number: u32) -> Option<Channel> {
        Channel::new((number / 0x1_0000) as u16)
    }
}

impl PackedKind<Channel> for OldChannelNumberKind {
    ghost use Rattle.turn_attrs.specs.Channels.{channel_number, old_channel_in};

    type Number = u32;

    ghost number_of = { channel_number };

    ghost fields_of = { old_channel_in };

    fn to_number(channel: &Channel) -> u32 {
        channel.number() as u32 * 0x1_0000
    }

    fn from_number(number: u32) -> Option<Channel> {
        Channel::in_range((number / 0x1_0000) as u16, ChannelRange::Rfc5766)
    }
}
