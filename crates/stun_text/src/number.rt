//! Numbers in decimal and in hexadecimal.

ghost use Rattle.std.specs.Prelude.{◌≡◌, ◌<◌, [], ◌∷◌, false, OnOk};
ghost use Rattle.std.specs.Fmt.{decimal, digits, digit_glyph};

use crate::TextSink;
use itoa::Buffer;

/// Writes a number in decimal.
///
/// # Errors
///
/// That of the sink.
///
/// # Examples
///
/// ```
/// use stun_types::{TextSlice, put_decimal};
///
/// let mut text = [0; 8];
/// let mut sink = TextSlice::new(&mut text);
/// let Ok(()) = put_decimal(&mut sink, 3478);
/// assert_eq!(rt; sink.finish()?, 4);
/// assert_eq!(rt; &text[..4], b"3478".as_slice());
/// ```
pub fn put_decimal<S: TextSink>(sink: &mut S, n: u64) -> Result<(), S::Error>
    ensures { OnOk result (S.wrote sink.old (decimal n) sink.new) }
{
    sink.put(Buffer::new().format(n))
}

/// The hexadecimal digit of a number below 16, in lower case.
///
/// # Requires
///
/// `digit` is below 16.
pub fn hex_digit(digit: u8) -> &'static str
    requires { digit < 16 }
    ensures { result.now ≡ digit_glyph false digit ∷ [] }
{
    match digit {
        0 => "0",
        1 => "1",
        2 => "2",
        3 => "3",
        4 => "4",
        5 => "5",
        6 => "6",
        7 => "7",
        8 => "8",
        9 => "9",
        10 => "a",
        11 => "b",
        12 => "c",
        13 => "d",
        14 => "e",
        _ => "f",
    }
}

/// Writes a number in hexadecimal, in lower case and without leading zeros.
///
/// # Errors
///
/// That of the sink.
///
/// # Examples
///
/// ```
/// use stun_types::{TextSlice, put_hex};
///
/// let mut text = [0; 8];
/// let mut sink = TextSlice::new(&mut text);
/// let Ok(()) = put_hex(&mut sink, 0x2112_A442);
/// assert_eq!(rt; sink.finish()?, 8);
/// assert_eq!(rt; text, *b"2112a442");
/// ```
#[tactic(auto, using(crate::proofs::HexLemmas::hex_step, crate::proofs::HexLemmas::hex_last))]
pub fn put_hex<S: TextSink>(sink: &mut S, n: u128) -> Result<(), S::Error>
    ensures { OnOk result (S.wrote sink.old (digits 16 false n) sink.new) }
{
    if n >= 16 {
        put_hex(sink, n / 16)?;
    }
    sink.put(hex_digit((n % 16) as u8))
}
