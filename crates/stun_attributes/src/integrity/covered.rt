//! The bytes of a message that its HMACs and its FINGERPRINT cover (RFC 8489, sections 14.5 to
//! 14.7). They are passed to the digests in two pieces: the first four bytes, which have another
//! length field, and from there on the message itself.

ghost use Rattle.std.specs.Prelude.{◌≡◌, ℕ, ◌≤◌, ◌++◌, length, map, slice_range};
ghost use Rattle.std.specs.List.{concat};
ghost use Rattle.stun_grammar.specs.Numbers.{be16};
ghost use Rattle.stun_grammar.specs.Fingerprints.{ending_length_field, message_before, fingerprint_value};

use stun_keys::digest::crc32;
use stun_values::masked;

/// The first four bytes of a message with another length field: that of one that ends with an
/// attribute of `size` bytes at `offset`, which is the low sixteen bits of the number of bytes that
/// follow the header, big-endian.
pub fn beginning(bytes: &[u8], offset: usize, size: usize) -> [u8; 4]
    requires header { 20 ≤ offset }
    requires within { offset ≤ length bytes.now }
    requires short { size ≤ 65540 }
    ensures { result ≡ slice_range bytes.now 0 2 ++ be16 (ending_length_field offset size) }
{
    let counted = (offset + size - 20) % 65536;
    let [high, low] = (counted as u16).to_be_bytes();
    [bytes[0], bytes[1], high, low]
}

/// The message before `offset`, with its first four bytes as `beginning` has them, in two pieces.
fn pieces_before<'a>(bytes: &'a [u8], offset: usize, beginning: &'a [u8; 4]) -> [&'a [u8]; 2]
    requires header { 20 ≤ offset }
    requires within { offset ≤ length bytes.now }
    ensures { (size : ℕ)
        → beginning.now ≡ slice_range bytes.now 0 2 ++ be16 (ending_length_field offset size)
        → concat (map (λ piece. piece.now) result) ≡ message_before bytes.now offset size }
{
    [beginning, &bytes[4..offset]]
}

/// The value of a FINGERPRINT at `offset`: the CRC-32 of the message before it, with a length field
/// that counts the FINGERPRINT in, XORed with 53 54 55 4E; four bytes, big-endian.
#[tactic(auto, unfolding(stun_grammar::specs::Fingerprints::fingerprint_value))]
pub fn fingerprint_at(bytes: &[u8], offset: usize) -> [u8; 4]
    requires header { 20 ≤ offset }
    requires within { offset ≤ length bytes.now }
    ensures { result ≡ fingerprint_value bytes.now offset }
{
    let beginning = beginning(bytes, offset, 8);
    masked(crc32(&pieces_before(bytes, offset, &beginning)))
}
