//! The prefixes that a TURN server denies unless its caller allows them.

ghost use Rattle.std.specs.Prelude.{◌≡◌, filter};
ghost use Rattle.turn_peers.specs.declared.defaults.TheConstants.{DENIED_BY_DEFAULT as denied_by_default};
ghost use Rattle.turn_peers.specs.Networks.{first_bits};
ghost use Rattle.turn_peers.specs.Ranges.{has_ip, has_octet};

use crate::networks::Prefix;
use crate::ranges::PeerRange;
use stun_endpoints::Ip;

/// A prefix of an IPv4 address, with all ports.
macro_rules! v4 {
    ($number:literal / $length:literal) => {
        PeerRange {
            prefix: Prefix {
                network: Ip {
                    family: 1,
                    number: $number,
                },
                length: $length,
            },
            first_port: 0,
            last_port: u16::MAX,
        }
    };
}

/// A prefix of an IPv6 address, with all ports.
macro_rules! v6 {
    ($number:literal / $length:literal) => {
        PeerRange {
            prefix: Prefix {
                network: Ip {
                    family: 2,
                    number: $number,
                },
                length: $length,
            },
            first_port: 0,
            last_port: u16::MAX,
        }
    };
}

/// The prefixes that are denied by default: what is in the server's own host or network, what is no
/// single host, and what holds an IPv4 address. Of the blocks in the special-purpose registry (RFC
/// 6890) they leave those for documentation and 100::/64.
pub const DENIED_BY_DEFAULT: [PeerRange; 25] = [
    // 0.0.0.0/8, this network (RFC 1122, section 3.2.1.3)
    v4!(0x0000_0000 / 8),
    // 10.0.0.0/8, private (RFC 1918, section 3)
    v4!(0x0A00_0000 / 8),
    // 100.64.0.0/10, shared by the customers of a carrier (RFC 6598, section 7)
    v4!(0x6440_0000 / 10),
    // 127.0.0.0/8, loopback (RFC 1122, section 3.2.1.3)
    v4!(0x7F00_0000 / 8),
    // 169.254.0.0/16, link-local (RFC 3927, section 2.1)
    v4!(0xA9FE_0000 / 16),
    // 172.16.0.0/12, private (RFC 1918, section 3)
    v4!(0xAC10_0000 / 12),
    // 192.0.0.0/24, assignments of the IETF (RFC 6890, section 2.1)
    v4!(0xC000_0000 / 24),
    // 192.88.99.0/24, relays of 6to4 (RFC 7526)
    v4!(0xC058_6300 / 24),
    // 192.168.0.0/16, private (RFC 1918, section 3)
    v4!(0xC0A8_0000 / 16),
    // 198.18.0.0/15, benchmarks (RFC 2544, appendix C.2.2)
    v4!(0xC612_0000 / 15),
    // 224.0.0.0/4, multicast (RFC 1112, section 4)
    v4!(0xE000_0000 / 4),
    // 240.0.0.0/4, reserved (RFC 1112, section 4), and 255.255.255.255, broadcast (RFC 919, section 7)
    v4!(0xF000_0000 / 4),
    // ::/96, unspecified, loopback and IPv4-compatible (RFC 4291, sections 2.5.2, 2.5.3 and 2.5.5.1)
    v6!(0x0 / 96),
    // ::ffff:0:0/96, IPv4-mapped (RFC 4291, section 2.5.5.2)
    v6!(0xFFFF_0000_0000 / 96),
    // ::ffff:0:0:0/96, IPv4-translated (RFC 2765, section 2.1)
    v6!(0xFFFF_0000_0000_0000 / 96),
    // 64:ff9b::/96, translated to IPv4 (RFC 6052, section 2.1)
    v6!(0x0064_FF9B_0000_0000_0000_0000_0000_0000 / 96),
    // 64:ff9b:1::/48, translated to IPv4 inside a network (RFC 8215)
    v6!(0x0064_FF9B_0001_0000_0000_0000_0000_0000 / 48),
    // 2001::/23, assignments of the IETF (RFC 2928)
    v6!(0x2001_0000_0000_0000_0000_0000_0000_0000 / 23),
    // 2001::/32, Teredo (RFC 8656, section 21.4; RFC 4380, section 2.6)
    v6!(0x2001_0000_0000_0000_0000_0000_0000_0000 / 32),
    // 2002::/16, 6to4 (RFC 8656, section 21.4; RFC 3056, section 2)
    v6!(0x2002_0000_0000_0000_0000_0000_0000_0000 / 16),
    // 5f00::/16, segment identifiers of SRv6 (RFC 9602)
    v6!(0x5F00_0000_0000_0000_0000_0000_0000_0000 / 16),
    // fc00::/7, unique local (RFC 4193, section 3.1)
    v6!(0xFC00_0000_0000_0000_0000_0000_0000_0000 / 7),
    // fe80::/10, link-local (RFC 4291, section 2.5.6)
    v6!(0xFE80_0000_0000_0000_0000_0000_0000_0000 / 10),
    // fec0::/10, site-local (RFC 3879, section 4)
    v6!(0xFEC0_0000_0000_0000_0000_0000_0000_0000 / 10),
    // ff00::/8, multicast (RFC 4291, section 2.7)
    v6!(0xFF00_0000_0000_0000_0000_0000_0000_0000 / 8),
];

/// Of [`DENIED_BY_DEFAULT`] the prefixes of IPv4 addresses with this first octet.
fn with_ipv4_octet(octet: u8) -> &'static [PeerRange]
    ensures { filter (has_octet 1 octet) result.now ≡ filter (has_octet 1 octet) denied_by_default }
{
    match octet {
        0 => &DENIED_BY_DEFAULT[..1],
        10 => &DENIED_BY_DEFAULT[1..2],
        100 => &DENIED_BY_DEFAULT[2..3],
        127 => &DENIED_BY_DEFAULT[3..4],
        169 => &DENIED_BY_DEFAULT[4..5],
        172 => &DENIED_BY_DEFAULT[5..6],
        192 => &DENIED_BY_DEFAULT[6..9],
        198 => &DENIED_BY_DEFAULT[9..10],
        224..=239 => &DENIED_BY_DEFAULT[10..11],
        240..=255 => &DENIED_BY_DEFAULT[11..12],
        _ => &[],
    }
}

/// Of [`DENIED_BY_DEFAULT`] the prefixes of IPv6 addresses with this first octet.
fn with_ipv6_octet(octet: u8) -> &'static [PeerRange]
    ensures { filter (has_octet 2 octet) result.now ≡ filter (has_octet 2 octet) denied_by_default }
{
    match octet {
        0x00 => &DENIED_BY_DEFAULT[12..17],
        0x20 => &DENIED_BY_DEFAULT[17..20],
        0x5F => &DENIED_BY_DEFAULT[20..21],
        0xFC..=0xFD => &DENIED_BY_DEFAULT[21..22],
        0xFE => &DENIED_BY_DEFAULT[22..24],
        0xFF => &DENIED_BY_DEFAULT[24..],
        _ => &[],
    }
}

/// Of [`DENIED_BY_DEFAULT`] the prefixes of addresses with the first octet of this one: no other one contains it.
pub(crate) fn with_octet_of(ip: Ip) -> &'static [PeerRange]
    ensures { filter (has_ip ip) result.now ≡ filter (has_ip ip) denied_by_default }
{
    match ip.family {
        1 if ip.number < 1 << 32 => with_ipv4_octet((ip.number >> 24) as u8),
        2 => with_ipv6_octet((ip.number >> 120) as u8),
        _ => &[],
    }
}
