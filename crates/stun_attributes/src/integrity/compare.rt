//! Comparing HMACs.

ghost use Rattle.std.specs.Cmp.Lexicographic.{pointwise};
ghost use Rattle.std.specs.Prelude.{◌≡◌, ◌*◌, length, nat_eq};

use byteorder::{ByteOrder, LittleEndian};

/// Whether two slices are equal, as `==` answers.
///
/// Slices of different lengths are unequal at once. Otherwise nothing ends the comparison early:
/// the bytes after a difference are compared too, also in the machine code, since what is tested
/// is one number, in which the differences of all bytes are gathered by a function of its own.
/// Constant time is not claimed: no contract speaks of time.
pub fn same_bytes(left: &[u8], right: &[u8]) -> bool
    ensures { result ≡ pointwise nat_eq left.now right.now }
{
    left.len() == right.len() && differences(left, right) == 0
}

/// A number that is 0 if two slices of one length are equal: the XORs of their words of four
/// bytes and of the bytes after the last whole word, gathered into one number.
///
/// It is not inlined: the compiler would see that its caller tests for 0 alone, and end early.
#[inline(never)]
fn differences(left: &[u8], right: &[u8]) -> u32
    requires { length left.now ≡ length right.now }
    ensures { nat_eq result 0 ≡ pointwise nat_eq left.now right.now }
{
    let words = left.len() / 4;
    let (left_words, left_rest) = left.split_at(4 * words);
    let (right_words, right_rest) = right.split_at(4 * words);
    let behind = u32::from(byte_differences(left_rest, right_rest));
    word_differences(left_words, right_words, words) | behind
}

/// The same number for two slices of `words` words.
fn word_differences(left: &[u8], right: &[u8], words: usize) -> u32
    requires left { length left.now ≡ 4 * words }
    requires right { length right.now ≡ 4 * words }
    ensures { nat_eq result 0 ≡ pointwise nat_eq left.now right.now }
{
    let mut difference = 0u32;
    for word in 0..words {
        let mine = LittleEndian::read_u32(&left[4 * word..]);
        difference |= mine ^ LittleEndian::read_u32(&right[4 * word..]);
    }
    difference
}

/// The same number, gathered byte by byte.
fn byte_differences(left: &[u8], right: &[u8]) -> u8
    requires { length left.now ≡ length right.now }
    ensures { nat_eq result 0 ≡ pointwise nat_eq left.now right.now }
{
    let mut difference = 0u8;
    for i in 0..left.len() {
        difference |= left[i] ^ right[i];
    }
    difference
}
