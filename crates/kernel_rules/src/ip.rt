//! The headers of IPv4 and IPv6.

ghost use Rattle.std.specs.Prelude.{
  ◌≡◌,
  ◌==◌,
  ◌&&◌,
  ◌||◌,
  ◌+◌,
  ◌/◌,
  ◌^◌,
  ◌<◌,
  not,
};
ghost use Rattle.kernel_rules.specs.Checksums.{is_right};
ghost use Rattle.kernel_rules.specs.Headers.{
  ipv4_bytes,
  outgoing,
  outgoing_identification,
  outgoing_ipv4,
  outgoing_ipv6,
};

use crate::checksums::{halves, updated};

/// The header of IPv4 without options (RFC 791, section 3.1): its fields as numbers.
#[repr(C)]
#[derive(Clone, Copy, Drop)]
pub struct Ipv4 {
    /// The version, 4, and the header's length, 5 words of 32 bits.
    pub version: u8,
    /// DSCP and ECN.
    pub service: u8,
    /// The length of the packet in bytes.
    pub length: u16,
    /// What fragments of one packet share.
    pub identification: u16,
    /// Three bits of flags, the second of them DF, and the offset of a fragment.
    pub fragment: u16,
    /// How many hops it may still take.
    pub hops: u8,
    /// 17 for UDP.
    pub protocol: u8,
    /// The checksum of the header.
    pub checksum: u16,
    /// The address of the sender.
    pub source: u32,
    /// The address of the receiver.
    pub destination: u32,
}

/// The header of IPv6 without its addresses (RFC 8200, section 3): its fields as numbers.
#[repr(C)]
#[derive(Clone, Copy, Drop)]
pub struct Ipv6 {
    /// The version, 6, in four bits, the traffic class in eight, and the flow label in twenty.
    pub start: u32,
    /// The length in bytes of what follows the header.
    pub length: u16,
    /// 17 for UDP.
    pub next: u8,
    /// How many hops it may still take.
    pub hops: u8,
}

/// Whether a packet of IPv4 is plain: of version 4, without options, no fragment, with one datagram
/// of UDP that fills it, and it fills its frame. `frame` is the length in bytes of the frame from
/// the header of IP on, `datagram` the length that UDP's header says.
#[unsafe(no_mangle)]
pub extern "C" fn kernel_is_plain_ipv4(header: &Ipv4, frame: u32, datagram: u16) -> bool
    ensures { result ≡ (header.now.version == 69) && (header.now.protocol == 17)
        && ((header.now.fragment == 0) || (header.now.fragment == 16384)) && (header.now.length == frame)
        && (20 + datagram == header.now.length) }
{
    header.version == 0x45
        && header.protocol == 17
        && (header.fragment == 0 || header.fragment == 0x4000)
        && u32::from(header.length) == frame
        && 20 + u32::from(datagram) == u32::from(header.length)
}

/// The same of IPv6, where each datagram has a checksum (RFC 8200, section 8.1).
#[unsafe(no_mangle)]
pub extern "C" fn kernel_is_plain_ipv6(
    header: &Ipv6,
    frame: u32,
    datagram: u16,
    checksum: u16,
) -> bool
    ensures { result ≡ (header.now.start / 2 ^ 28 == 6) && (header.now.next == 17) && (40 + header.now.length == frame)
        && (datagram == header.now.length) && not (checksum == 0) }
{
    header.start / 0x1000_0000 == 6
        && header.next == 17
        && 40 + u32::from(header.length) == frame
        && datagram == header.length
        && checksum != 0
}

/// The length with which a packet or a datagram leaves: four bytes less to the peer, without the
/// header of ChannelData, and four more to the client. 65,535 stands for what would be longer,
/// which no flow takes.
#[inline]
pub(crate) fn outgoing(length: u16, to_peer: bool) -> u16
    ensures { result ≡ outgoing to_peer length }
{
    if to_peer {
        length.saturating_sub(4)
    } else {
        length.saturating_add(4)
    }
}

/// The identification with which a packet of IPv4 leaves: a new one where it may be fragmented on
/// its way, and otherwise 0 (RFC 6864).
#[inline]
fn outgoing_identification(fragment: u16, new: u16) -> u16
    ensures { result ≡ outgoing_identification fragment new }
{
    if fragment / 0x4000 % 2 == 0 { new } else { 0 }
}

/// The header of IPv4 with which a packet leaves, from one address to another. DSCP, ECN and DF
/// stay (RFC 8656, section 14), the packet has a hop less, and its identification is 0 if DF is set
/// and otherwise the one given (RFC 6864). A header whose checksum is wrong gets a wrong one.
#[unsafe(no_mangle)]
pub extern "C" fn kernel_ipv4(
    header: &Ipv4,
    to_peer: bool,
    identification: u16,
    source: u32,
    destination: u32,
    made: &mut Ipv4,
)
    ensures fields { made.new ≡ outgoing_ipv4 to_peer identification source destination made.new.checksum header.now }
    ensures checksum { 0 < header.now.version → is_right (ipv4_bytes made.new) ≡ is_right (ipv4_bytes header.now) }
{
    let length = outgoing(header.length, to_peer);
    let identification = outgoing_identification(header.fragment, identification);
    let hops = header.hops.saturating_sub(1);
    let before = u64::from(header.length)
        + u64::from(header.identification)
        + u64::from(header.hops) * 256
        + halves(header.source)
        + halves(header.destination);
    let after = u64::from(length)
        + u64::from(identification)
        + u64::from(hops) * 256
        + halves(source)
        + halves(destination);
    *made = Ipv4 {
        version: header.version,
        service: header.service,
        length,
        identification,
        fragment: header.fragment,
        hops,
        protocol: header.protocol,
        checksum: updated(header.checksum, before, after),
        source,
        destination,
    };
}

/// The header of IPv6 with which a packet leaves. The traffic class stays, the flow label is 0 (RFC
/// 8656, section 14), and the packet has a hop less.
#[unsafe(no_mangle)]
pub extern "C" fn kernel_ipv6(header: &Ipv6, to_peer: bool, made: &mut Ipv6)
    ensures { made.new ≡ outgoing_ipv6 to_peer header.now }
{
    *made = Ipv6 {
        start: header.start / 0x10_0000 * 0x10_0000,
        length: outgoing(header.length, to_peer),
        next: header.next,
        hops: header.hops.saturating_sub(1),
    };
}
