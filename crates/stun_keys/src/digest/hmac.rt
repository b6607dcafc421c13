//! HMAC over SHA-1 and SHA-256 (RFC 2104).

ghost use Rattle.std.specs.Prelude.{◌≡◌, ℕ, ◌≤◌, List, [], ◌++◌, IfOk, IfErr, length, map};
ghost use Rattle.std.specs.List.{concat};
ghost use Rattle.stun_grammar.specs.Hmac.{hmac, digest_of, block_of_key, padded_with};
ghost use Rattle.stun_keys.specs.Blocks.{filled_up, blocks_over, AreKeyed};

use super::hash_function::HashFunction;
use sha1::Sha1;
use sha2::Sha256;
use std::alloc::AllocError;
use stun_grammar::IntegrityAlgorithm;

/// How many bytes a block of either digest has.
pub(crate) const BLOCK: usize = 64;

/// What each byte of the key's block is XORed with for the inner digest.
const INNER_PAD: u8 = 0x36;

/// What each byte of the key's block is XORed with for the outer digest.
const OUTER_PAD: u8 = 0x5C;

/// A key of at most one block, filled up with zeros.
fn in_block(key: &[u8]) -> [u8; 64]
    requires { length key.now ≤ 64 }
    ensures { result ≡ filled_up key.now }
{
    let mut block = [0u8; 64];
    block[..key.len()].copy_from_slice(key);
    block
}

/// A block with each byte XORed with a pad.
fn padded(block: &[u8; 64], pad: u8) -> [u8; 64]
    ensures { result ≡ padded_with pad block.now }
{
    let mut bytes = [0u8; 64];
    for i in 0..64 {
        bytes[i] = block[i] ^ pad;
    }
    bytes
}

/// The digest of a text.
fn digest<const N: usize, H: HashFunction<N>>(text: &[u8]) -> [u8; N]
    ensures { result ≡ digest_of H.algorithm text.now }
{
    let mut hasher = H::start();
    hasher.take(text);
    hasher.finish()
}

/// A key of any length as one block: a key longer than a block is digested first.
fn key_block<const N: usize, H: HashFunction<N>>(key: &[u8]) -> [u8; 64]
    requires { N ≤ 64 }
    ensures { result ≡ block_of_key (digest_of H.algorithm) key.now }
{
    if key.len() > BLOCK {
        in_block(&digest::<N, H>(key))
    } else {
        in_block(key)
    }
}

/// Appends the two blocks with which the HMACs of a key begin.
pub(crate) fn push_blocks<const N: usize, H: HashFunction<N>>(
    secret: &mut Vec<u8>,
    key: &[u8],
) -> Result<(), AllocError>
    requires { N ≤ 64 }
    ensures { IfOk result (λ _. secret.new.items
        ≡ secret.old.items ++ blocks_over (digest_of H.algorithm) key.now) }
{
    let block = key_block::<N, H>(key);
    secret.extend_from_slice(&padded(&block, INNER_PAD))?;
    secret.extend_from_slice(&padded(&block, OUTER_PAD))
}

/// A hasher that has taken in a block.
fn keyed<const N: usize, H: HashFunction<N>>(block: &[u8]) -> H
    ensures { H.holds result block.now }
{
    let mut hasher = H::start();
    hasher.take(block);
    hasher
}

/// The digest of what a hasher has taken in and the pieces after it, joined.
fn digest_after<const N: usize, H: HashFunction<N>>(keyed: &H, pieces: &[&[u8]]) -> [u8; N]
    ensures { (before : List ℕ) → H.holds keyed.now before
        → result ≡ digest_of H.algorithm (before ++ concat (map (λ piece. piece.now) pieces.now)) }
{
    let mut hasher = keyed.copy();
    for piece in pieces {
        hasher.take(piece);
    }
    hasher.finish()
}

/// The two hashers of an HMAC: each has taken in one of the key's two blocks.
#[derive(Drop)]
pub(crate) struct KeyedHashers<const N: usize, H: HashFunction<N>> {
    inner: H,
    outer: H,
}

impl<const N: usize, H: HashFunction<N>> KeyedHashers<N, H> {
    /// For the two blocks of a key, which follow one another.
    pub(crate) fn new(blocks: &[u8]) -> Self
        requires { length blocks.now ≡ 128 }
        ensures { (key : List ℕ) → blocks.now ≡ blocks_over (digest_of H.algorithm) key
            → AreKeyed H.holds (digest_of H.algorithm) key result.inner result.outer }
    {
        let (inner, outer) = blocks.split_at(BLOCK);
        KeyedHashers {
            inner: keyed(inner),
            outer: keyed(outer),
        }
    }

    /// Copies both hashers.
    pub(crate) fn copy(&self) -> Self
        ensures { result ≡ self.now }
    {
        KeyedHashers {
            inner: self.inner.copy(),
            outer: self.outer.copy(),
        }
    }

    /// Replaces both hashers by such that have taken in nothing.
    pub(crate) fn overwrite(&mut self)
        ensures inner { H.holds self.new.inner [] }
        ensures outer { H.holds self.new.outer [] }
    {
        self.inner = H::start();
        self.outer = H::start();
    }

    /// The HMAC of the pieces, joined, under the key whose blocks the hashers have taken in.
    #[tactic(auto, using(crate::proofs::BlocksLemmas::by_blocks))]
    pub(crate) fn hmac(&self, pieces: &[&[u8]]) -> [u8; N]
        ensures { (key : List ℕ)
            → AreKeyed H.holds (digest_of H.algorithm) key self.now.inner self.now.outer
            → result ≡ hmac H.algorithm key (concat (map (λ piece. piece.now) pieces.now)) }
    {
        let inner = digest_after(&self.inner, pieces);
        digest_after(&self.outer, &[&inner])
    }
}

/// The digest of a block and the pieces after it, joined.
fn digest_with<const N: usize, H: HashFunction<N>>(block: &[u8], pieces: &[&[u8]]) -> [u8; N]
    ensures { result
        ≡ digest_of H.algorithm (block.now ++ concat (map (λ piece. piece.now) pieces.now)) }
{
    let mut hasher = H::start();
    hasher.take(block);
    for piece in pieces {
        hasher.take(piece);
    }
    hasher.finish()
}

/// The HMAC of the pieces, joined, by the two blocks of a key, which follow one another.
#[tactic(auto, using(crate::proofs::BlocksLemmas::inner_block, crate::proofs::BlocksLemmas::outer_block, crate::proofs::BlocksLemmas::by_blocks))]
pub(crate) fn hmac_by<const N: usize, H: HashFunction<N>>(
    blocks: &[u8],
    pieces: &[&[u8]],
) -> [u8; N]
    requires { length blocks.now ≡ 128 }
    ensures { (key : List ℕ) → blocks.now ≡ blocks_over (digest_of H.algorithm) key
        → result ≡ hmac H.algorithm key (concat (map (λ piece. piece.now) pieces.now)) }
{
    let (inner_block, outer_block) = blocks.split_at(BLOCK);
    let inner = digest_with::<N, H>(inner_block, pieces);
    digest_with::<N, H>(outer_block, &[&inner])
}

/// The HMAC of the pieces, joined, under a key of any length.
fn hmac_under<const N: usize, H: HashFunction<N>>(key: &[u8], pieces: &[&[u8]]) -> [u8; N]
    requires { N ≤ 64 }
    ensures { result
        ≡ hmac H.algorithm key.now (concat (map (λ piece. piece.now) pieces.now)) }
{
    let block = key_block::<N, H>(key);
    let inner = digest_with::<N, H>(&padded(&block, INNER_PAD), pieces);
    digest_with::<N, H>(&padded(&block, OUTER_PAD), &[&inner])
}

/// HMAC-SHA1 of the pieces, joined, under a key of any length: 20 bytes.
///
/// It takes no memory, and the pieces are not copied. Only the joined bytes matter, not how they
/// are cut.
pub fn hmac_sha1(key: &[u8], pieces: &[&[u8]]) -> [u8; 20]
    ensures { result
        ≡ hmac IntegrityAlgorithm.Sha1 key.now (concat (map (λ piece. piece.now) pieces.now)) }
{
    hmac_under::<20, Sha1>(key, pieces)
}

/// HMAC-SHA256 of the pieces, joined, under a key of any length: 32 bytes.
///
/// It takes no memory, and the pieces are not copied. Only the joined bytes matter, not how they
/// are cut.
pub fn hmac_sha256(key: &[u8], pieces: &[&[u8]]) -> [u8; 32]
    ensures { result
        ≡ hmac IntegrityAlgorithm.Sha256 key.now (concat (map (λ piece. piece.now) pieces.now)) }
{
    hmac_under::<32, Sha256>(key, pieces)
}
