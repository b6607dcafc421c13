//! The hash functions that HMACs are made of.

ghost use Rattle.std.specs.Prelude.{◌≡◌, ℕ, List, [], ◌++◌};
ghost use Rattle.sha1.specs.Sha1.{Holds};
ghost use Rattle.sha2.specs.Hashers.{Holds256};
ghost use Rattle.stun_grammar.specs.declared.integrity_algorithm.IntegrityAlgorithm.{IntegrityAlgorithm};
ghost use Rattle.stun_grammar.specs.declared.integrity_algorithm.IntegrityAlgorithm.TheVariants as algorithms;
ghost use Rattle.stun_grammar.specs.Hmac.{digest_of};

use sha1::Sha1;
use sha2::{Digest, Sha256};

/// A hash function with digests of `N` bytes: a hasher, which takes a text piece by piece.
pub(crate) trait HashFunction<const N: usize>: Drop {
    // the algorithm whose HMACs are made of it
    ghost algorithm: { IntegrityAlgorithm };

    // the hasher has taken this text
    ghost holds: { Self → List ℕ → Type 0 };

    /// A hasher that has taken nothing.
    fn start() -> Self
        ensures { holds result [] };

    /// Takes more of the text.
    fn take(&mut self, more: &[u8])
        ensures { (text : List ℕ) → holds self.old text → holds self.new (text ++ more.now) };

    /// The digest of the text.
    fn finish(self) -> [u8; N]
        ensures { (text : List ℕ) → holds self text → result ≡ digest_of algorithm text };

    /// A hasher that has taken the same text.
    fn copy(&self) -> Self
        ensures { result ≡ self.now };
}

impl HashFunction<20> for Sha1 {
    ghost algorithm = { algorithms.Sha1 };

    ghost holds = { Holds };

    fn start() -> Sha1 {
        Sha1::new()
    }

    fn take(&mut self, more: &[u8]) {
        self.update(more);
    }

    fn finish(self) -> [u8; 20] {
        self.finalize()
    }

    fn copy(&self) -> Sha1 {
        self.clone().unwrap()
    }
}

impl HashFunction<32> for Sha256 {
    ghost algorithm = { algorithms.Sha256 };

    ghost holds = { Holds256 };

    fn start() -> Sha256 {
        Sha256::new()
    }

    fn take(&mut self, more: &[u8]) {
        self.update(more);
    }

    fn finish(self) -> [u8; 32] {
        self.finalize()
    }

    fn copy(&self) -> Sha256 {
        self.clone().unwrap()
    }
}
