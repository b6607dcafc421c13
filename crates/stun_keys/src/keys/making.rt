//! Making and preparing keys by calls that fail only if an allocation does: the error of each says
//! so by its type, and the methods of the same purpose convert it.

ghost use Rattle.std.specs.Prelude.{◌≡◌, true, IfOk, OnOk};
ghost use Rattle.stun_keys.specs.Keys.{key_bytes, key_algorithm, is_prepared, IsKey};

use crate::keys::IntegrityKey;
use std::alloc::{AllocError, Global};
use stun_grammar::IntegrityAlgorithm;

/// Makes the key that [`IntegrityKey::new`] makes, in one allocation: it isn't prepared, which pays for
/// a key that makes one or two HMACs.
pub fn key_of_bytes(
    alloc: Global,
    bytes: &[u8],
    algorithm: Option<IntegrityAlgorithm>,
) -> Result<IntegrityKey, AllocError>
    ensures { IfOk result (IsKey algorithm bytes.now) }
{
    IntegrityKey::of_bytes(alloc, bytes, algorithm)
}

/// Prepares a key as [`IntegrityKey::prepare`] does.
pub fn prepare_key(alloc: Global, key: &mut IntegrityKey) -> Result<(), AllocError>
    ensures key { IsKey (key_algorithm key.old) (key_bytes key.old) key.new }
    ensures prepared { OnOk result (is_prepared key.new ≡ true) }
{
    key.prepare_in(alloc)
}

/// Copies a key with what it keeps prepared: nothing is digested. It takes one allocation, and a second
/// one if the key is prepared.
pub fn copy_key(alloc: Global, key: &IntegrityKey) -> Result<IntegrityKey, AllocError>
    ensures same { IfOk result (IsKey (key_algorithm key.now) (key_bytes key.now)) }
    ensures prepared { IfOk result (λ copy. is_prepared copy ≡ is_prepared key.now) }
{
    key.copied(alloc)
}
