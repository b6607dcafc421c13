//! Keyed hashes of keys and users.

ghost use Rattle.std.specs.Prelude.{◌≡◌, ◌%◌, ◌<◌};
ghost use Rattle.turn_slots.specs.Hashes.{secret_of, bucket};

use std::hash::{DefaultHasher, Hash, Hasher};

/// A hasher that has been fed the seed.
#[derive(Clone, Copy)]
pub(crate) struct Secret {
    begun: DefaultHasher,
}

impl Secret {
    /// Feeds a hasher the seed.
    pub(crate) fn new(seed: [u64; 2]) -> Self
        ensures { result ≡ secret_of seed }
    {
        let mut begun = DefaultHasher::new();
        seed[0].hash(&mut begun);
        seed[1].hash(&mut begun);
        Secret { begun }
    }

    /// Returns the bucket of a key: its keyed hash modulo the number of buckets.
    pub(crate) fn bucket<K: Hash>(&self, buckets: usize, key: &K) -> usize
        requires { 0 < buckets }
        ensures { result ≡ bucket self.now buckets (K.hash_input key.now) }
    {
        let mut hasher = self.begun;
        key.hash(&mut hasher);
        (hasher.finish() % buckets as u64) as usize
    }
}
