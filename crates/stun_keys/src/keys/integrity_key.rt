ghost use Rattle.std.specs.Prelude.{◌≡◌, ◌≤◌, ◌++◌, length, IfOk};
ghost use Rattle.std.specs.Box.{boxed_slice_items};
ghost use Rattle.stun_keys.specs.Blocks.{key_in, ready_blocks};
ghost use Rattle.stun_keys.specs.Prepared.{IfPrepared};

use crate::digest::{BothHashers, KeyedHashers, Prepared, push_blocks};
use crate::keys::secret::SecretBytes;
use sha1::Sha1;
use sha2::Sha256;
use std::alloc::{AllocError, Global};
use stun_grammar::{IntegrityAlgorithm, StunWriteError};

/// How many bytes the ready blocks take: two for each of the two digests.
const READY: usize = 256;

/// The key of an HMAC: any number of bytes, and the algorithm that it was made for, if it was made
/// for one. A key with no algorithm works with both.
///
/// After its bytes, in the same allocation, a key keeps the blocks with which its HMACs begin, 256
/// bytes: for each digest the key's block with the inner pad, and with the outer one (RFC 2104,
/// section 2). So a key that is longer than a block is digested once, when it is made. Computing an
/// HMAC neither allocates nor writes to the key, so threads may share it (it is `Sync`).
///
/// In a second allocation it keeps hashers that have taken in these blocks, so that an HMAC compresses
/// two blocks fewer, which is a third of the time of a short one: [`IntegrityKey::new`], each
/// `make_key` and [`IntegrityKey::clone`] make them.
///
/// All memory that a key owns is overwritten before it is freed, and `{:?}` prints none of it. What
/// a call copies to the stack isn't overwritten.
///
/// Two keys are equal if their bytes are equal, whatever they were made for.
#[derive(Drop)]
#[derive_where(Debug)]
pub struct IntegrityKey {
    algorithm: Option<IntegrityAlgorithm>,
    bytes: SecretBytes,
    #[derive_where(skip)]
    prepared: Prepared,
    ghost long: { 256 ≤ length (boxed_slice_items bytes.bytes) },
    ghost ready: { boxed_slice_items bytes.bytes
        ≡ key_in (boxed_slice_items bytes.bytes)
        ++ ready_blocks (key_in (boxed_slice_items bytes.bytes)) },
    ghost prepared_is: { ∥ IfPrepared (key_in (boxed_slice_items bytes.bytes)) prepared.both ∥₁ },
}

/// Appends a key's bytes and its ready blocks.
fn push_with_blocks(secret: &mut Vec<u8>, key: &[u8]) -> Result<(), AllocError>
    ensures { IfOk result
        (λ _. secret.new.items ≡ secret.old.items ++ (key.now ++ ready_blocks key.now)) }
{
    secret.extend_from_slice(key)?;
    push_blocks::<20, Sha1>(secret, key)?;
    push_blocks::<32, Sha256>(secret, key)
}

impl IntegrityKey {
    ghost use Rattle.std.specs.Prelude.{◌≡◌, ◌≤◌, true, None, IfOk, IfErr, OnOk, length, map};
    ghost use Rattle.std.specs.List.{concat};
    ghost use Rattle.sha1.specs.Sha1.{sha1};
    ghost use Rattle.sha2.specs.Sha256.{sha256};
    ghost use Rattle.stun_grammar.specs.Hmac.{hmac};
    ghost use Rattle.stun_keys.specs.Blocks.{blocks_over, ready_blocks};
    ghost use Rattle.stun_keys.specs.Prepared.{ArePrepared, are_there};
    ghost use Rattle.stun_keys.specs.Keys.{key_bytes, key_algorithm, serves, is_prepared, is_prepared_for, IsKey};

    /// The key that [`IntegrityKey::new`] makes; only an allocation fails.
    pub(crate) fn of_bytes(
        alloc: Global,
        bytes: &[u8],
        algorithm: Option<IntegrityAlgorithm>,
    ) -> Result<Self, AllocError>
        ensures { IfOk result (IsKey algorithm bytes.now) }
    {
        let mut secret = Vec::with_capacity(alloc, bytes.len() + READY)?;
        push_with_blocks(&mut secret, bytes)?;
        Ok(IntegrityKey {
            algorithm,
            bytes: SecretBytes::new(secret),
            prepared: Prepared::none(),
        })
    }

    /// Prepares the key as [`IntegrityKey::prepare`] does; only an allocation fails.
    pub(crate) fn prepare_in(&mut self, alloc: Global) -> Result<(), AllocError>
        ensures key { IsKey (key_algorithm self.old) (key_bytes self.old) self.new }
        ensures prepared { OnOk result (is_prepared self.new ≡ true) }
    {
        let sha1 = self.serves(IntegrityAlgorithm::Sha1);
        let sha256 = self.serves(IntegrityAlgorithm::Sha256);
        if self.prepared.are_there(sha1, sha256) {
            return Ok(());
        }
        self.prepared = Prepared::of(alloc, self.hashers(sha1, sha256))?;
        Ok(())
    }

    /// Copies the key with its blocks and what it keeps prepared; only an allocation fails.
    pub(crate) fn copied(&self, alloc: Global) -> Result<Self, AllocError>
        ensures same { IfOk result (IsKey (key_algorithm self.now) (key_bytes self.now)) }
        ensures prepared { IfOk result (λ copy. is_prepared copy ≡ is_prepared self.now) }
    {
        Ok(IntegrityKey {
            algorithm: self.algorithm,
            bytes: self.bytes.copied(alloc)?,
            prepared: self.prepared.copied(alloc)?,
        })
    }

    /// A key with the bytes `bytes`, made for an algorithm or with none. The bytes are copied, the
    /// blocks of its HMACs are made, and it is prepared for the algorithms that it serves, in two
    /// allocations by `alloc`.
    ///
    /// A server that keeps no passwords makes the keys of long-term credentials by it: for `Sha1`
    /// of the MD5 of `username:realm:password`, 16 bytes, and for `Sha256` of its SHA-256, 32 bytes
    /// (RFC 8489, sections 9.2.2 and 18.5.1). With an algorithm the key counts for that one alone,
    /// also if a server authenticates a request with it. How many bytes there are is not tested:
    /// everybody knows the empty key, so don't make one of an empty password.
    ///
    /// # Errors
    ///
    /// `OutOfMemory` alone.
    ///
    /// # Examples
    ///
    /// ```
    /// use stun_types::message::{IntegrityAlgorithm, IntegrityKey};
    ///
    /// let key = IntegrityKey::new(alloc, b"secret", Some(IntegrityAlgorithm::Sha256))?;
    /// assert_eq!(rt; key.as_bytes(), b"secret".as_slice());
    /// assert!(rt; !key.serves(IntegrityAlgorithm::Sha1));
    /// ```
    pub fn new(
        alloc: Global,
        bytes: &[u8],
        algorithm: Option<IntegrityAlgorithm>,
    ) -> Result<Self, StunWriteError>
        ensures ok { IfOk result (IsKey algorithm bytes.now) }
        ensures prepared { IfOk result (λ key. is_prepared key ≡ true) }
        ensures err { IfErr result (λ e. e ≡ StunWriteError.OutOfMemory) }
    {
        let mut key = Self::of_bytes(alloc, bytes, algorithm)?;
        key.prepare_in(alloc)?;
        Ok(key)
    }

    /// Prepares the key for the algorithms that it serves, in one allocation by `alloc`. A key that was
    /// made or cloned is prepared already, and nothing happens. After [`IntegrityKey::made_for`] or
    /// [`IntegrityKey::for_both`] it may serve an algorithm that it isn't prepared for: prepare it
    /// then.
    ///
    /// The key stays the same, and so does every HMAC.
    ///
    /// # Errors
    ///
    /// `OutOfMemory` alone. The key works as before.
    ///
    /// # Examples
    ///
    /// ```
    /// use stun_types::message::{IntegrityAlgorithm, IntegrityKey};
    ///
    /// let key = IntegrityKey::new(alloc, b"secret", Some(IntegrityAlgorithm::Sha1))?;
    /// let mut key = key.for_both();
    /// let hmac = key.hmac_sha256(&[b"some bytes".as_slice()]);
    /// key.prepare(alloc)?;
    /// assert_eq!(rt; key.hmac_sha256(&[b"some bytes".as_slice()]), hmac);
    /// ```
    pub fn prepare(&mut self, alloc: Global) -> Result<(), StunWriteError>
        ensures key { IsKey (key_algorithm self.old) (key_bytes self.old) self.new }
        ensures prepared { OnOk result (is_prepared self.new ≡ true) }
        ensures err { IfErr result (λ e. e ≡ StunWriteError.OutOfMemory) }
    {
        Ok(self.prepare_in(alloc)?)
    }

    /// The hashers of the key's HMACs, by the algorithms that are wanted.
    fn hashers(&self, sha1: bool, sha256: bool) -> BothHashers
        ensures right { ArePrepared (key_bytes self.now) result }
        ensures there { are_there result sha1 sha256 ≡ true }
    {
        let sha1_blocks = self.sha1_blocks();
        let sha256_blocks = self.sha256_blocks();
        BothHashers {
            sha1: sha1.then(|| KeyedHashers::new(sha1_blocks)),
            sha256: sha256.then(|| KeyedHashers::new(sha256_blocks)),
        }
    }

    /// Copies the key, in two allocations by `alloc`. The copy is prepared. Nothing is digested if the
    /// key is prepared.
    ///
    /// # Errors
    ///
    /// `OutOfMemory` alone.
    pub fn clone(&self, alloc: Global) -> Result<Self, StunWriteError>
        ensures same { IfOk result (IsKey (key_algorithm self.now) (key_bytes self.now)) }
        ensures prepared { IfOk result (λ key. is_prepared key ≡ true) }
        ensures err { IfErr result (λ e. e ≡ StunWriteError.OutOfMemory) }
    {
        let mut copy = self.copied(alloc)?;
        copy.prepare_in(alloc)?;
        Ok(copy)
    }

    /// The bytes of the key.
    pub fn as_bytes(&self) -> &[u8]
        ensures { result.now ≡ key_bytes self.now }
    {
        self.parts().0
    }

    /// The algorithm that the key was made for, or `None` for a key with no algorithm.
    pub fn algorithm(&self) -> Option<IntegrityAlgorithm>
        ensures { result ≡ key_algorithm self.now }
    {
        self.algorithm
    }

    /// Converts the key into one with no algorithm, which works with both. RFC 8489 ties a
    /// long-term key to a password algorithm and not to an HMAC (section 18.5.1): the MD5 of
    /// `username:realm:password` may be the key of an HMAC-SHA256 too. Nothing is
    /// copied, and what was prepared stays so.
    ///
    /// # Examples
    ///
    /// ```
    /// use stun_types::message::{IntegrityAlgorithm, IntegrityKey};
    ///
    /// let key = IntegrityKey::new(alloc, b"secret", Some(IntegrityAlgorithm::Sha1))?.for_both();
    /// assert_eq!(rt; key.algorithm(), None);
    /// assert!(rt; key.serves(IntegrityAlgorithm::Sha256));
    /// ```
    pub fn for_both(self) -> Self
        ensures key { IsKey None (key_bytes self) result }
        ensures prepared { is_prepared result ≡ is_prepared_for None self }
    {
        self.made_for(None)
    }

    /// Converts the key into one made for the algorithm `algorithm`, or with none: so a validation
    /// with it looks at the integrity attribute of that algorithm alone. Nothing is
    /// copied, and a key that is prepared for what it then works with stays prepared.
    ///
    /// # Examples
    ///
    /// ```
    /// use stun_types::message::{IntegrityAlgorithm, IntegrityKey};
    ///
    /// let key = IntegrityKey::new(alloc, b"secret", None)?;
    /// let key = key.made_for(Some(IntegrityAlgorithm::Sha256));
    /// assert_eq!(rt; key.algorithm(), Some(IntegrityAlgorithm::Sha256));
    /// ```
    pub fn made_for(self, algorithm: Option<IntegrityAlgorithm>) -> Self
        ensures key { IsKey algorithm (key_bytes self) result }
        ensures prepared { is_prepared result ≡ is_prepared_for algorithm self }
    {
        IntegrityKey {
            algorithm,
            bytes: self.bytes,
            prepared: self.prepared,
        }
    }

    /// Whether the key works with the algorithm `algorithm`: it was made for that one, or has none.
    pub fn serves(&self, algorithm: IntegrityAlgorithm) -> bool
        ensures { result ≡ serves (key_algorithm self.now) algorithm }
    {
        match (self.algorithm, algorithm) {
            (None, _) => true,
            (Some(IntegrityAlgorithm::Sha1), IntegrityAlgorithm::Sha1) => true,
            (Some(IntegrityAlgorithm::Sha256), IntegrityAlgorithm::Sha256) => true,
            (Some(_), _) => false,
        }
    }

    /// The bytes, and the ready blocks after them.
    fn parts(&self) -> (&[u8], &[u8])
        ensures key { result.0.now ≡ key_bytes self.now }
        ensures ready { result.1.now ≡ ready_blocks (key_bytes self.now) }
        ensures length { length result.1.now ≡ 256 }
    {
        let secret = self.bytes.as_bytes();
        secret.split_at(secret.len() - READY)
    }

    /// The two blocks with which an HMAC-SHA1 under the key begins.
    #[tactic(auto, using(crate::proofs::BlocksLemmas::of_sha1))]
    fn sha1_blocks(&self) -> &[u8]
        ensures blocks { result.now ≡ blocks_over sha1 (key_bytes self.now) }
        ensures length { length result.now ≡ 128 }
    {
        let (sha1, _) = self.parts().1.split_at(READY / 2);
        sha1
    }

    /// The two blocks with which an HMAC-SHA256 under the key begins.
    #[tactic(auto, using(crate::proofs::BlocksLemmas::of_sha256))]
    fn sha256_blocks(&self) -> &[u8]
        ensures blocks { result.now ≡ blocks_over sha256 (key_bytes self.now) }
        ensures length { length result.now ≡ 128 }
    {
        let (_, sha256) = self.parts().1.split_at(READY / 2);
        sha256
    }

    /// HMAC-SHA1 of the pieces, joined, under the key: 20 bytes (RFC 2104). The algorithm that the
    /// key was made for does not matter. It takes no memory.
    ///
    /// # Examples
    ///
    /// ```
    /// use stun_types::message::IntegrityKey;
    ///
    /// // the second test case of RFC 2202
    /// let key = IntegrityKey::new(alloc, b"Jefe", None)?;
    /// let hmac = key.hmac_sha1(&[b"what do ya want ".as_slice(), b"for nothing?"]);
    /// assert_eq!(rt; &hmac[..4], [0xEF, 0xFC, 0xDF, 0x6A].as_slice());
    /// ```
    pub fn hmac_sha1(&self, pieces: &[&[u8]]) -> [u8; 20]
        ensures { result ≡ hmac IntegrityAlgorithm.Sha1 (key_bytes self.now)
            (concat (map (λ piece. piece.now) pieces.now)) }
    {
        self.prepared.hmac_sha1(self.sha1_blocks(), pieces)
    }

    /// HMAC-SHA256 of the pieces, joined, under the key: 32 bytes (RFC 2104). The algorithm that
    /// the key was made for does not matter. It takes no memory.
    ///
    /// # Examples
    ///
    /// ```
    /// use stun_types::message::IntegrityKey;
    ///
    /// // the second test case of RFC 4231
    /// let key = IntegrityKey::new(alloc, b"Jefe", None)?;
    /// let hmac = key.hmac_sha256(&[b"what do ya want ".as_slice(), b"for nothing?"]);
    /// assert_eq!(rt; &hmac[..4], [0x5B, 0xDC, 0xC1, 0x46].as_slice());
    /// ```
    pub fn hmac_sha256(&self, pieces: &[&[u8]]) -> [u8; 32]
        ensures { result ≡ hmac IntegrityAlgorithm.Sha256 (key_bytes self.now)
            (concat (map (λ piece. piece.now) pieces.now)) }
    {
        self.prepared.hmac_sha256(self.sha256_blocks(), pieces)
    }
}

impl PartialEq for IntegrityKey {
    ghost use Rattle.std.specs.Prelude.{nat_eq};
    ghost use Rattle.std.specs.Cmp.{on_per, partial_equiv_from_equiv};
    ghost use Rattle.std.specs.Cmp.Lexicographic.{nat_list_eq_equiv, pointwise};
    ghost use Rattle.stun_keys.specs.Keys.{key_bytes};

    ghost eq = { λ a b. pointwise nat_eq (key_bytes a) (key_bytes b) };

    ghost laws = { on_per key_bytes (partial_equiv_from_equiv nat_list_eq_equiv) };

    fn eq(&self, other: &Self) -> bool {
        self.as_bytes() == other.as_bytes()
    }
}

impl Eq for IntegrityKey {
    ghost use Rattle.std.specs.Cmp.{on_equiv};
    ghost use Rattle.std.specs.Cmp.Lexicographic.{nat_list_eq_equiv};
    ghost use Rattle.stun_keys.specs.Keys.{key_bytes};

    ghost laws = { on_equiv key_bytes nat_list_eq_equiv };
}
