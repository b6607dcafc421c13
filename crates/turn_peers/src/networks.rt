//! Prefixes of IP addresses (RFC 4632, section 3.1; RFC 4291, section 2.3).

ghost use Rattle.std.specs.Prelude.{◌≡◌, ◌≤◌, ◌/◌, ◌%◌, ◌^◌, ◌==◌, not};
ghost use Rattle.turn_peers.specs.Networks.{width};

use std::net::IpAddr;
use stun_endpoints::Ip;
use thiserror::Error;

/// One more than the greatest number of 64 bits: IPv4 addresses are compared faster as such.
const WORD: u128 = 1 << 64;

/// How many bits an address of this family has.
fn width(family: u8) -> u8
    ensures width { result ≡ width family }
    ensures most { result ≤ 128 }
{
    if family == 1 { 32 } else { 128 }
}

/// The bits of a number but for the last `dropped`.
fn without_last(number: u128, dropped: u8) -> u128
    requires { dropped ≤ 128 }
    ensures { result ≡ number / 2 ^ dropped }
{
    number.checked_shr(dropped as u32).unwrap_or(0)
}

/// Whether two numbers are equal but for the last `dropped` bits.
fn begin_alike(one: u128, other: u128, dropped: u8) -> bool
    requires { dropped ≤ 128 }
    ensures { result ≡ (one / 2 ^ dropped == other / 2 ^ dropped) }
{
    if one < WORD && other < WORD && dropped < 64 {
        return (one as u64) >> dropped == (other as u64) >> dropped;
    }
    without_last(one, dropped) == without_last(other, dropped)
}

/// Whether one of the last bits of a number is 1.
fn has_bits_in_last(number: u128, last: u8) -> bool
    requires { last ≤ 128 }
    ensures { result ≡ not (number % 2 ^ last == 0) }
{
    match 1u128.checked_shl(last as u32) {
        Some(power) => number % power != 0,
        None => number != 0,
    }
}

/// Why an address and a length, or a text, are no prefix.
#[derive(Clone, Copy, Debug, PartialEq, Eq, Error)]
pub enum PrefixError {
    /// There is no slash in the text.
    #[error("No slash in a prefix")]
    NoSlash,
    /// The text before the first slash is no IP address.
    #[error("No IP address before the slash of a prefix")]
    InvalidAddress,
    /// The text after the first slash is no decimal number of at most 255.
    #[error("No length after the slash of a prefix")]
    InvalidLength,
    /// The length is above that of the address.
    #[error("A prefix of {length} bits of an address of {greatest}")]
    TooLong {
        /// The length of the prefix, in bits.
        length: u8,
        /// That of an address of this family: 32 or 128.
        greatest: u8,
    },
    /// A bit of the address after the prefix is 1, as in `10.0.0.1/8`.
    #[error("A bit after the prefix is set")]
    BitsAfterPrefix,
}

/// A prefix: the IP addresses of one family that begin with the same bits. Its text is an address,
/// a slash and the number of these bits: `10.0.0.0/8`, `2001:db8::/32`.
#[derive(Clone, Copy, Debug, PartialEq, Eq)]
pub struct Prefix {
    pub(crate) network: Ip,
    pub(crate) length: u8,
}

impl Prefix {
    ghost use Rattle.std.specs.Prelude.{◌≡◌};
    ghost use Rattle.turn_peers.specs.Networks.{contains, prefix_of};

    /// Returns the prefix of the first `length` bits of an address.
    ///
    /// # Errors
    ///
    /// - `TooLong { length, greatest }` if the address has fewer bits: 32 or 128;
    /// - `BitsAfterPrefix` if a bit after the prefix is 1.
    ///
    /// # Examples
    ///
    /// ```
    /// use std::net::IpAddr;
    /// use turn_peers::{Prefix, PrefixError};
    ///
    /// let network: IpAddr = "172.16.0.0".parse()?;
    /// assert!(rt; Prefix::new(network, 12).is_ok());
    /// assert_eq!(rt; Prefix::new(network, 8), Err(PrefixError::BitsAfterPrefix));
    /// let error = PrefixError::TooLong { length: 33, greatest: 32 };
    /// assert_eq!(rt; Prefix::new(network, 33), Err(error));
    /// ```
    pub fn new(address: IpAddr, length: u8) -> Result<Prefix, PrefixError>
        ensures { result ≡ prefix_of address length }
    {
        let network = Ip::from(address);
        let greatest = width(network.family);
        if length > greatest {
            return Err(PrefixError::TooLong { length, greatest });
        }
        if has_bits_in_last(network.number, greatest - length) {
            return Err(PrefixError::BitsAfterPrefix);
        }
        Ok(Prefix { network, length })
    }

    /// Returns the number of bits with which each address of the prefix begins.
    pub fn length(&self) -> u8
        ensures { result ≡ self.now.length }
    {
        self.length
    }

    /// Whether the address is one of the prefix.
    pub(crate) fn contains(&self, ip: Ip) -> bool
        ensures { result ≡ contains ip self.now }
    {
        if self.network.family != ip.family {
            return false;
        }
        let dropped = width(self.network.family).saturating_sub(self.length);
        begin_alike(ip.number, self.network.number, dropped)
    }
}
