//! What a key that makes many HMACs keeps for them.

ghost use Rattle.std.specs.Prelude.{◌≡◌, ℕ, List, Bool, true, None, IfOk, IfErr, IfSome, length, map, box_value};
ghost use Rattle.std.specs.List.{concat};
ghost use Rattle.sha1.specs.Sha1.{sha1};
ghost use Rattle.sha2.specs.Sha256.{sha256};
ghost use Rattle.stun_grammar.specs.declared.integrity_algorithm.IntegrityAlgorithm.TheVariants as algorithms;
ghost use Rattle.stun_grammar.specs.Hmac.{hmac};
ghost use Rattle.stun_keys.specs.Blocks.{blocks_over};
ghost use Rattle.stun_keys.specs.Prepared.{ArePrepared, IfPrepared, are_there, keeps};

use super::hmac::{KeyedHashers, hmac_by};
use sha1::Sha1;
use sha2::Sha256;
use std::alloc::{AllocError, Global};

/// The hashers of a key's HMACs, by each algorithm for which there are some: each has taken in one
/// of the key's two blocks, so that an HMAC compresses two blocks fewer.
#[derive(Drop)]
pub(crate) struct BothHashers {
    pub(crate) sha1: Option<KeyedHashers<20, Sha1>>,
    pub(crate) sha256: Option<KeyedHashers<32, Sha256>>,
}

impl BothHashers {
    /// Copies the hashers.
    fn copy(&self) -> Self
        ensures { result ≡ self.now }
    {
        BothHashers {
            sha1: self.sha1.as_ref().map(|keyed| keyed.copy()),
            sha256: self.sha256.as_ref().map(|keyed| keyed.copy()),
        }
    }

    /// Overwrites the hashers.
    fn overwrite(&mut self) {
        if let Some(keyed) = &mut self.sha1 {
            keyed.overwrite();
        }
        if let Some(keyed) = &mut self.sha256 {
            keyed.overwrite();
        }
    }
}

/// The hashers of a key that is prepared, or nothing. They are overwritten before their memory is
/// freed.
pub(crate) struct Prepared {
    both: Option<Box<BothHashers>>,
}

impl Prepared {
    /// Nothing.
    pub(crate) fn none() -> Self
        ensures { result.both ≡ None }
    {
        Prepared { both: None }
    }

    /// Keeps hashers, in memory from `alloc`.
    pub(crate) fn of(alloc: Global, hashers: BothHashers) -> Result<Self, AllocError>
        ensures ok { IfOk result (λ made. IfSome made.both (λ both. box_value both ≡ hashers)) }
        ensures there { (sha1 sha256 : Bool) → are_there hashers sha1 sha256 ≡ true
            → IfOk result (λ made. keeps made.both sha1 sha256 ≡ true) }
    {
        let both = Box::new(alloc, hashers)?;
        Ok(Prepared { both: Some(both) })
    }

    /// Copies what is kept, into memory from `alloc`.
    pub(crate) fn copied(&self, alloc: Global) -> Result<Self, AllocError>
        ensures right { (key : List ℕ) → IfPrepared key self.now.both
            → IfOk result (λ copy. IfPrepared key copy.both) }
        ensures there { (sha1 sha256 : Bool) → IfOk result
            (λ copy. keeps copy.both sha1 sha256 ≡ keeps self.now.both sha1 sha256) }
    {
        match &self.both {
            Some(both) => Ok(Prepared {
                both: Some(Box::new(alloc, both.copy())?),
            }),
            None => Ok(Prepared::none()),
        }
    }

    /// Whether there are hashers by both algorithms, as far as they are wanted.
    pub(crate) fn are_there(&self, sha1: bool, sha256: bool) -> bool
        ensures { result ≡ keeps self.now.both sha1 sha256 }
    {
        match &self.both {
            Some(both) => (both.sha1.is_some() || !sha1) && (both.sha256.is_some() || !sha256),
            None => false,
        }
    }

    /// The HMAC-SHA1 of the pieces, joined, under a key: by its hashers if there are any, else by
    /// its two blocks.
    pub(crate) fn hmac_sha1(&self, blocks: &[u8], pieces: &[&[u8]]) -> [u8; 20]
        requires { length blocks.now ≡ 128 }
        ensures { (key : List ℕ) → blocks.now ≡ blocks_over sha1 key
            → IfPrepared key self.now.both
            → result ≡ hmac algorithms.Sha1 key (concat (map (λ piece. piece.now) pieces.now)) }
    {
        match &self.both {
            Some(both) => match &both.sha1 {
                Some(keyed) => keyed.hmac(pieces),
                None => hmac_by::<20, Sha1>(blocks, pieces),
            },
            None => hmac_by::<20, Sha1>(blocks, pieces),
        }
    }

    /// The HMAC-SHA256 of the pieces, joined, likewise.
    pub(crate) fn hmac_sha256(&self, blocks: &[u8], pieces: &[&[u8]]) -> [u8; 32]
        requires { length blocks.now ≡ 128 }
        ensures { (key : List ℕ) → blocks.now ≡ blocks_over sha256 key
            → IfPrepared key self.now.both
            → result ≡ hmac algorithms.Sha256 key (concat (map (λ piece. piece.now) pieces.now)) }
    {
        match &self.both {
            Some(both) => match &both.sha256 {
                Some(keyed) => keyed.hmac(pieces),
                None => hmac_by::<32, Sha256>(blocks, pieces),
            },
            None => hmac_by::<32, Sha256>(blocks, pieces),
        }
    }
}

impl Drop for Prepared {
    fn drop(self) {
        let Prepared { mut both } = self;
        if let Some(both) = &mut both {
            both.overwrite();
        }
    }
}
