//! What C says of a usage of STUN.

ghost use Rattle.std.specs.Prelude.{◌≡◌};
ghost use Rattle.stun_types_c.specs.Usages.{min_hmac_length_named};

/// How many bytes a MESSAGE-INTEGRITY-SHA256 has at least, by a number: 16, 20, 24, 28 or 32, and 0 for
/// 32 (RFC 8489, section 14.6).
pub(crate) fn min_hmac_length_of(number: u32) -> Option<usize>
    ensures { result ≡ min_hmac_length_named number }
{
    match number {
        0 => Some(32),
        16 | 20 | 24 | 28 | 32 => Some(number as usize),
        _ => None,
    }
}
