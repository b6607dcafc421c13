//! Bits in base64, six in each character, without padding (RFC 4648, section 4).

ghost use Rattle.std.specs.Prelude.{◌≡◌, ◌≤◌, ◌<◌, ◌^◌, length, slice_index, ◌%◌};
ghost use Rattle.stun_authentication.specs.Base64.{base64, six_bits, in_base64, of_base64};

/// The characters, in the order of the six bits that each encodes.
const BASE64: [u8; 64] = *b"ABCDEFGHIJKLMNOPQRSTUVWXYZabcdefghijklmnopqrstuvwxyz0123456789+/";

/// The six bits that a character encodes.
#[tactic(auto, unfolding(crate::specs::Base64::six_bits))]
pub(crate) fn six_bits(character: u8) -> Option<usize>
    ensures { result ≡ six_bits character }
{
    BASE64.iter().position(|known| *known == character)
}

/// The character of the last six bits of a number.
fn last_character(bits: u128) -> u8
    ensures { result ≡ slice_index base64 (bits % 64) }
{
    BASE64[(bits % 64) as usize]
}

/// Writes the last bits of a number, six in each character of `dest`.
pub(crate) fn write_bits(bits: u128, dest: &mut [u8])
    ensures { dest.new ≡ in_base64 (length dest.old) bits }
{
    let mut left = bits;
    for i in (0..dest.len()).rev() {
        dest[i] = last_character(left);
        left /= 64;
    }
}

/// The number whose bits the characters encode. One that is none of base64 counts as six zeros.
pub(crate) fn read_bits(characters: &[u8]) -> u64
    requires { length characters.now ≤ 10 }
    ensures value { result ≡ of_base64 characters.now }
    ensures bound { result < 64 ^ length characters.now }
{
    let mut bits = 0u64;
    for character in characters {
        bits = 64 * bits + six_bits(*character).unwrap_or(0) as u64;
    }
    bits
}
