//! Which numbers the channels of TURN have.

/// Which numbers channels have. A server takes those of RFC 5766 only for clients that still draw
/// them, such as `turnutils_uclient` of coturn 4.6.1.
#[derive(Clone, Copy, Debug, PartialEq, Eq)]
pub enum ChannelRange {
    /// 0x4000 to 0x4FFF (RFC 8656, section 12).
    Rfc8656,
    /// 0x4000 to 0x7FFF (RFC 5766, section 11, which RFC 8656 replaces).
    Rfc5766,
}

impl ChannelRange {
    ghost use Rattle.std.specs.Prelude.{◌≡◌};
    ghost use Rattle.stun_framing.specs.Channels.{greatest_channel, greatest_first, begins_number};

    /// Returns the greatest number of a channel: 0x4FFF, or 0x7FFF by RFC 5766.
    ///
    /// # Examples
    ///
    /// ```
    /// use stun_framing::ChannelRange;
    ///
    /// assert_eq!(rt; ChannelRange::Rfc8656.greatest(), 0x4FFF);
    /// assert_eq!(rt; ChannelRange::Rfc5766.greatest(), 0x7FFF);
    /// ```
    pub fn greatest(self) -> u16
        ensures { result ≡ greatest_channel self }
    {
        match self {
            ChannelRange::Rfc8656 => 0x4FFF,
            ChannelRange::Rfc5766 => 0x7FFF,
        }
    }

    /// The first byte of that.
    fn greatest_first(self) -> u8
        ensures { result ≡ greatest_first self }
    {
        match self {
            ChannelRange::Rfc8656 => 0x4F,
            ChannelRange::Rfc5766 => 0x7F,
        }
    }

    /// Returns whether the number of a channel begins with this byte: 0x40 to 0x4F, or to 0x7F by
    /// RFC 5766.
    ///
    /// # Examples
    ///
    /// ```
    /// use stun_framing::ChannelRange;
    ///
    /// assert!(rt; ChannelRange::Rfc8656.begins_with(0x4F));
    /// assert!(rt; !ChannelRange::Rfc8656.begins_with(0x50));
    /// assert!(rt; ChannelRange::Rfc5766.begins_with(0x7F));
    /// ```
    pub fn begins_with(self, first: u8) -> bool
        ensures { result ≡ begins_number self first }
    {
        0x40 <= first && first <= self.greatest_first()
    }
}
