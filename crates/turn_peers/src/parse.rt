//! A prefix in its text form.

ghost use Rattle.std.specs.Prelude.{◌≡◌, ◌==◌, ℕ, slice_index, MatchResult};
ghost use Rattle.std.specs.declared.net.ip_addr.IpAddr.{IpAddr};
ghost use Rattle.std.specs.Net.Grammar.{IsIpText};
ghost use Rattle.turn_peers.specs.Texts.{IsLength, Spells, IsFault};

use crate::networks::{Prefix, PrefixError};
use std::net::IpAddr;
use std::str::FromStr;

/// The IP address that a text spells.
fn read_address(text: &str) -> Result<IpAddr, PrefixError>
    ensures { MatchResult result (IsIpText text.now)
        (λ e. (e ≡ PrefixError.InvalidAddress) × ((ip : IpAddr) → ¬ (IsIpText text.now ip))) }
{
    IpAddr::from_str(text).map_err(|_| PrefixError::InvalidAddress)
}

/// Whether a text begins with a plus, which `u8::from_str` skips.
fn has_plus(text: &[u8]) -> bool
    ensures { result ≡ (slice_index text.now 0 == 43) }
{
    matches!(text, [b'+', ..])
}

/// The length that a text spells.
fn read_length(text: &str) -> Result<u8, PrefixError>
    ensures { MatchResult result (IsLength text.now)
        (λ e. (e ≡ PrefixError.InvalidLength) × ((n : ℕ) → ¬ (IsLength text.now n))) }
{
    if has_plus(text.as_bytes()) {
        return Err(PrefixError::InvalidLength);
    }
    u8::from_str(text).map_err(|_| PrefixError::InvalidLength)
}

/// The address and the length that a text spells.
fn read_parts(text: &str) -> Result<(IpAddr, u8), PrefixError>
    ensures { MatchResult result (λ parts. Spells text.now parts.0 parts.1) (IsFault text.now) }
{
    let Some((address, length)) = text.split_once('/') else {
        return Err(PrefixError::NoSlash);
    };
    let address = read_address(address)?;
    let length = read_length(length)?;
    Ok((address, length))
}

/// Reads an address, a slash and a length in decimal digits: `10.0.0.0/8`, `2001:db8::/32`. The
/// address has the forms that `IpAddr` reads.
///
/// # Errors
///
/// The first of these that applies:
///
/// - `NoSlash` if the text has none;
/// - `InvalidAddress` if `IpAddr` doesn't read what is before the first slash;
/// - `InvalidLength` if what is after it is anything but digits of a number of at most 255;
/// - those of [`Prefix::new`].
///
/// # Examples
///
/// ```
/// use turn_peers::{Prefix, PrefixError};
///
/// let prefix: Prefix = "2001:db8::/32".parse()?;
/// assert!(rt; prefix.length() == 32);
/// assert_eq!(rt; "10.0.0.0".parse::<Prefix>(), Err(PrefixError::NoSlash));
/// assert_eq!(rt; "10.0.0/8".parse::<Prefix>(), Err(PrefixError::InvalidAddress));
/// assert_eq!(rt; "10.0.0.0/+8".parse::<Prefix>(), Err(PrefixError::InvalidLength));
/// assert_eq!(rt; "10.0.0.1/8".parse::<Prefix>(), Err(PrefixError::BitsAfterPrefix));
/// ```
impl FromStr for Prefix {
    ghost use Rattle.turn_peers.specs.Texts.{GivesPrefix};

    type Err = PrefixError;

    ghost from_str_gives = { GivesPrefix };

    fn from_str(text: &str) -> Result<Prefix, PrefixError> {
        let (address, length) = read_parts(text)?;
        Prefix::new(address, length)
    }
}
