//! Threads may share a key.

use crate::keys::IntegrityKey;

/// Takes a value that threads may share.
fn share<T: Sync>(_value: &T) {}

/// A law: threads may share a key, since no call through `&self` writes. That it is proved at all
/// says so: it passes a key where a `Sync` type is wanted.
pub fn share_key(key: &IntegrityKey) {
    share(key);
}
