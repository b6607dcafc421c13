//! The value of a FINGERPRINT (RFC 8489, section 14.7).

ghost use Rattle.std.specs.Prelude.{◌≡◌, None, Some, MatchResult, length};
ghost use Rattle.stun_grammar.specs.Fingerprints.{masked_checksum};
ghost use Rattle.stun_grammar.specs.Lengths.{exact_fault};
ghost use Rattle.stun_values.specs.FingerprintValues.{masked_bytes};

use crate::check_length;
use stun_base::StunParseError;

/// What a checksum is XORed with before it is sent: `STUN` in ASCII.
const MASK: u32 = 0x5354_554E;

/// A checksum as it is sent: XORed with 53 54 55 4E, in four bytes, big-endian.
pub fn masked(checksum: u32) -> [u8; 4]
    ensures { result ≡ masked_checksum checksum }
{
    (checksum ^ MASK).to_be_bytes()
}

/// Reads the value of a FINGERPRINT: the checksum that its four bytes stand for, not XORed.
///
/// # Errors
///
/// Those of [`check_length`] for four bytes.
pub fn read_checksum(value: &[u8]) -> Result<[u8; 4], StunParseError>
    ensures { MatchResult result
        (λ checksum. (exact_fault 4 (length value.now) ≡ None)
        × (checksum ≡ masked_bytes value.now))
        (λ e. exact_fault 4 (length value.now) ≡ Some e) }
{
    check_length(value, 4)?;
    let mut bytes = [0; 4];
    bytes.copy_from_slice(value);
    Ok(masked(u32::from_be_bytes(bytes)))
}
