//! An address as the bytes of a value, both ways (RFC 8489, section 14.1).

ghost use Rattle.std.specs.Prelude.{◌≡◌, ◌+◌, ◌^◌, ◌<◌, ◌≤◌, ◌++◌, [], ◌∷◌, Some, None, IfOk, MatchResult, length, drop};
ghost use Rattle.std.specs.Net.Addr.{ipv4_octets, ipv6_octets, ipv6_segments, segments_of};
ghost use Rattle.stun_grammar.specs.Numbers.{be16};
ghost use Rattle.stun_values.specs.Addresses.{family, octets, address_value, address_fault, address_in, Spells};

use crate::check_length;
use byteorder::{BigEndian, ByteOrder};
use std::net::{IpAddr, Ipv4Addr, Ipv6Addr, SocketAddr};
use stun_base::StunParseError;

/// The length of the value of this address: 8 or 20.
pub fn address_length(addr: &SocketAddr) -> u16
    ensures value { result ≡ length (address_value addr.now) }
    ensures bound { result ≤ 20 }
{
    match addr.ip() {
        IpAddr::V4(ip) => 4 + ip.octets().len() as u16,
        IpAddr::V6(ip) => 4 + ip.octets().len() as u16,
    }
}

/// Writes the bytes of an address at the start of `dest`, which has room for them.
fn write_octets(ip: IpAddr, dest: &mut [u8])
    requires { length (octets ip) ≤ length dest.old }
    ensures { dest.new ≡ octets ip ++ drop (length (octets ip)) dest.old }
{
    match ip {
        IpAddr::V4(ip) => {
            let bytes = ip.octets();
            dest[..bytes.len()].copy_from_slice(&bytes);
        }
        IpAddr::V6(ip) => {
            let bytes = ip.octets();
            dest[..bytes.len()].copy_from_slice(&bytes);
        }
    }
}

/// The number of the family of an address.
fn family_number(ip: IpAddr) -> u8
    ensures { result ≡ family ip }
{
    match ip {
        IpAddr::V4(_) => 1,
        IpAddr::V6(_) => 2,
    }
}

/// Writes the value of this address at the start of `dest`.
///
/// # Requires
///
/// `dest.len()` is at least [`address_length`] of it.
pub fn write_address(addr: &SocketAddr, dest: &mut [u8])
    requires { length (address_value addr.now) ≤ length dest.old }
    ensures { dest.new ≡ address_value addr.now ++ drop (length (address_value addr.now)) dest.old }
{
    dest[0] = 0;
    dest[1] = family_number(addr.ip());
    BigEndian::write_u16(&mut dest[2..], addr.port());
    write_octets(addr.ip(), &mut dest[4..]);
}

/// The IPv4 address of these four bytes.
pub(crate) fn ipv4_of(bytes: &[u8]) -> Ipv4Addr
    requires { length bytes.now ≡ 4 }
    ensures { ipv4_octets result ≡ bytes.now }
{
    let mut octets = [0; 4];
    octets.copy_from_slice(bytes);
    Ipv4Addr::from_octets(octets)
}

/// The IPv6 address of these sixteen bytes.
#[tactic(auto, using(crate::proofs::OctetsLemmas::octets_back))]
pub(crate) fn ipv6_of(bytes: &[u8]) -> Ipv6Addr
    requires { length bytes.now ≡ 16 }
    ensures octets { ipv6_octets result ≡ bytes.now }
    ensures segments { ipv6_segments result ≡ segments_of bytes.now }
{
    let mut octets = [0; 16];
    octets.copy_from_slice(bytes);
    Ipv6Addr::from_octets(octets)
}

/// Reads a value as an address: it has four bytes or more, its family is 1 or 2, and it has the
/// length of that family. The first byte is ignored, and an IPv6 address has flow info and scope ID
/// 0.
///
/// # Errors
///
/// The first of these that applies: `Truncated { expected: 4, actual }` if there are fewer than
/// four bytes; `InvalidAttributeData` if the family is neither 1 nor 2; `Truncated` and
/// `TooLarge { expected, actual }` if the value is shorter and longer than its family needs,
/// with `expected` 8 for IPv4 and 20 for IPv6.
#[tactic(auto, using(crate::proofs::OctetsLemmas::too_short, crate::proofs::OctetsLemmas::of_ipv4, crate::proofs::OctetsLemmas::of_ipv6, crate::proofs::OctetsLemmas::no_family, crate::proofs::OctetsLemmas::spells, crate::proofs::OctetsLemmas::holds_ipv4, crate::proofs::OctetsLemmas::holds_ipv6))]
#[inline(always)]
pub fn read_address(value: &[u8]) -> Result<SocketAddr, StunParseError>
    ensures spells { MatchResult result
        (λ addr. (address_fault value.now ≡ None) × Spells value.now addr)
        (λ e. address_fault value.now ≡ Some e) }
    ensures stands { IfOk result (λ addr. addr ≡ address_in value.now) }
{
    if value.len() < 4 {
        return Err(StunParseError::Truncated {
            expected: 4,
            actual: value.len(),
        });
    }
    let port = BigEndian::read_u16(&value[2..]);
    match value[1] {
        1 => {
            check_length(value, 8)?;
            let ip = ipv4_of(&value[4..]);
            Ok(SocketAddr::new(IpAddr::V4(ip), port))
        }
        2 => {
            check_length(value, 20)?;
            let ip = ipv6_of(&value[4..]);
            Ok(SocketAddr::new(IpAddr::V6(ip), port))
        }
        _ => Err(StunParseError::InvalidAttributeData),
    }
}
