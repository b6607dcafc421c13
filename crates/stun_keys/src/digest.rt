//! CRC-32, as ISO-HDLC defines it, and HMAC, as RFC 2104 defines it. Both take their bytes in
//! pieces.

ghost use Rattle.std.specs.Prelude.{◌≡◌, ◌+◌, ◌*◌, ◌<◌, ◌≤◌, length, fold, map};
ghost use Rattle.std.specs.List.{concat};
ghost use Rattle.stun_grammar.specs.Checksums.{shifted_by, after_byte, crc};

mod crc_tables;
mod hash_function;
mod hmac;
mod prepared;

use crc_tables::TABLES;
pub(crate) use hmac::{KeyedHashers, push_blocks};
pub use hmac::{hmac_sha1, hmac_sha256};
pub(crate) use prepared::{BothHashers, Prepared};

/// What a byte becomes once it and that many bytes of zeros after it are shifted out.
fn shifted_out(byte: u8, zeros: usize) -> u32
    requires { zeros < 16 }
    ensures { result ≡ shifted_by (8 * (zeros + 1)) byte }
{
    TABLES[zeros][usize::from(byte)]
}

/// What four bytes become once they and that many bytes of zeros after them are shifted out.
fn four_shifted_out(four: &[u8], zeros: usize) -> u32
    requires four { length four.now ≡ 4 }
    requires few { zeros ≤ 12 }
    ensures { result ≡ shifted_by (8 * zeros) (fold after_byte 0 four.now) }
{
    shifted_out(four[0], zeros + 3)
        ^ shifted_out(four[1], zeros + 2)
        ^ shifted_out(four[2], zeros + 1)
        ^ shifted_out(four[3], zeros)
}

/// Four bytes, XORed with those of the register, its lowest first.
fn with_register(register: u32, four: &[u8]) -> [u8; 4]
    requires { length four.now ≡ 4 }
    ensures { fold after_byte 0 result ≡ fold after_byte register four.now }
{
    let [a, b, c, d] = register.to_le_bytes();
    [a ^ four[0], b ^ four[1], c ^ four[2], d ^ four[3]]
}

/// The register after one more byte.
fn after(register: u32, byte: u8) -> u32
    ensures { result ≡ after_byte register byte }
{
    let [lowest, ..] = register.to_le_bytes();
    shifted_out(lowest ^ byte, 0) ^ (register >> 8)
}

/// The register after sixteen more bytes, each of which is shifted out alone.
fn after_sixteen(register: u32, bytes: &[u8]) -> u32
    requires { length bytes.now ≡ 16 }
    ensures { result ≡ fold after_byte register bytes.now }
{
    let (first, rest) = bytes.split_at(4);
    let (second, rest) = rest.split_at(4);
    let (third, fourth) = rest.split_at(4);
    // These are looked up first, since they don't wait for the register.
    let behind = four_shifted_out(second, 8)
        ^ four_shifted_out(third, 4)
        ^ four_shifted_out(fourth, 0);
    four_shifted_out(&with_register(register, first), 12) ^ behind
}

/// The register after a few more bytes, of which four at a time are shifted out.
fn after_few(register: u32, bytes: &[u8]) -> u32
    ensures { result ≡ fold after_byte register bytes.now }
{
    let mut register = register;
    let mut rest = bytes;
    while rest.len() >= 4 {
        let (four, behind) = rest.split_at(4);
        register = four_shifted_out(&with_register(register, four), 0);
        rest = behind;
    }
    rest.iter()
        .fold(register, |register, byte| after(register, *byte))
}

/// The register after more bytes, of which sixteen at a time are shifted out.
fn after_all(register: u32, bytes: &[u8]) -> u32
    ensures { result ≡ fold after_byte register bytes.now }
{
    let mut register = register;
    let mut rest = bytes;
    while rest.len() >= 16 {
        let (sixteen, behind) = rest.split_at(16);
        register = after_sixteen(register, sixteen);
        rest = behind;
    }
    after_few(register, rest)
}

/// The CRC-32 of the pieces, joined: that of `123456789` is 0xCBF43926.
///
/// It takes no memory, and the pieces are not copied. Only the joined bytes matter, not how they
/// are cut.
#[tactic(auto, unfolding(stun_grammar::specs::Checksums::crc))]
pub fn crc32(pieces: &[&[u8]]) -> u32
    ensures { result ≡ crc (concat (map (λ piece. piece.now) pieces.now)) }
{
    let mut register: u32 = 0xFFFF_FFFF;
    for piece in pieces {
        register = after_all(register, piece);
    }
    register ^ 0xFFFF_FFFF
}
