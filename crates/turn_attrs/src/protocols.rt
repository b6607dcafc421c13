//! Of which protocol a packet is (RFC 7983, section 7, and RFC 9443, section 3).

ghost use Rattle.std.specs.Prelude.{◌≡◌, ◌≢◌, ◌≤◌, ◌<◌, ℕ, List, None, slice_index};
ghost use Rattle.stun_grammar.specs.Headers.{type_field};
ghost use Rattle.stun_grammar.specs.Numbers.{IsBytes};
ghost use Rattle.stun_grammar.specs.Parsing.{parse_fault};
ghost use Rattle.stun_base.specs.MessageTypes.{method_of};
ghost use Rattle.turn_attrs.specs.Protocols.{protocol, protocol_in};

use crate::ChannelRange;

/// A protocol that shares a port with STUN.
#[derive(Clone, Copy, Debug, PartialEq, Eq)]
pub enum Protocol {
    /// STUN, whose packets begin with 0 to 3 (RFC 8489).
    Stun,
    /// ZRTP, whose packets begin with 16 to 19 (RFC 6189).
    Zrtp,
    /// DTLS, whose packets begin with 20 to 63 (RFC 9147).
    Dtls,
    /// ChannelData of TURN, whose packets begin with 64 to 79, [`crate::ChannelData`].
    TurnChannel,
    /// QUIC, whose packets begin with 80 to 127 and 192 to 255 (RFC 9000).
    Quic,
    /// RTP or RTCP, whose packets begin with 128 to 191 (RFC 3550).
    Rtp,
}

/// Returns the protocol of a packet that begins with this byte: STUN 0 to 3, ZRTP 16 to 19, DTLS 20
/// to 63, a TURN channel 64 to 79, QUIC 80 to 127 and 192 to 255, RTP and RTCP 128 to 191. `None`
/// for 4 to 15: such a packet is to be dropped.
///
/// 64 to 79 is a TURN channel in what comes from a TURN server that the agent uses, and QUIC in
/// what comes from another host (RFC 9443, section 3).
///
/// # Examples
///
/// ```
/// use turn_attrs::{Protocol, protocol_of};
///
/// // A binding request begins with 0, a DTLS handshake with 22, and an RTP packet with 128.
/// assert_eq!(rt; protocol_of(0), Some(Protocol::Stun));
/// assert_eq!(rt; protocol_of(22), Some(Protocol::Dtls));
/// assert_eq!(rt; protocol_of(128), Some(Protocol::Rtp));
/// assert_eq!(rt; protocol_of(0x40), Some(Protocol::TurnChannel));
/// assert_eq!(rt; protocol_of(4), None);
/// ```
pub const fn protocol_of(first_byte: u8) -> Option<Protocol>
    ensures { result ≡ protocol first_byte }
{
    protocol_in(first_byte, ChannelRange::Rfc8656)
}

/// Returns the protocol of a packet that begins with this byte, on a port where channels have the
/// numbers of a range: as [`protocol_of`], and with [`ChannelRange::Rfc5766`] a TURN channel is 64
/// to 127, and QUIC 192 to 255 alone.
///
/// # Examples
///
/// ```
/// use turn_attrs::{ChannelRange, Protocol, protocol_in};
///
/// assert_eq!(rt; protocol_in(0x67, ChannelRange::Rfc5766), Some(Protocol::TurnChannel));
/// assert_eq!(rt; protocol_in(0x67, ChannelRange::Rfc8656), Some(Protocol::Quic));
/// ```
pub const fn protocol_in(first_byte: u8, range: ChannelRange) -> Option<Protocol>
    ensures { result ≡ protocol_in range first_byte }
{
    match first_byte {
        0..=3 => Some(Protocol::Stun),
        4..=15 => None,
        16..=19 => Some(Protocol::Zrtp),
        20..=63 => Some(Protocol::Dtls),
        64..=79 => Some(Protocol::TurnChannel),
        80..=127 => match range {
            ChannelRange::Rfc8656 => Some(Protocol::Quic),
            ChannelRange::Rfc5766 => Some(Protocol::TurnChannel),
        },
        128..=191 => Some(Protocol::Rtp),
        _ => Some(Protocol::Quic),
    }
}

/// A packet that begins with 64 or more is never read as STUN; and one that is, and begins with 4
/// to 63, has a method above 0xFF, which RFC 7983 (section 3) has nobody assign. Its contract is
/// the law.
pub fn stun_begins_low()
    ensures other { (bytes : List ℕ) → 64 ≤ slice_index bytes 0 → parse_fault bytes ≢ None }
    ensures reserved { (bytes : List ℕ) → IsBytes bytes → parse_fault bytes ≡ None
        → 4 ≤ slice_index bytes 0 → 0xFF < method_of (type_field bytes) }
{}
