ghost use Rattle.std.specs.Prelude.{◌≡◌};
ghost use Rattle.sha2.specs.Sha256.{sha256};
ghost use Rattle.stun_keys.specs.Keys.{long_term_text};

use sha2::{Digest, Sha256};

/// The SHA-256 of `username:realm:password`; the three texts are not copied.
pub(crate) fn sha256_key(username: &str, realm: &str, password: &str) -> [u8; 32]
    ensures { result ≡ sha256 (long_term_text username.now realm.now password.now) }
{
    let mut hasher = Sha256::new();
    hasher.update(username.as_bytes());
    hasher.update(b":");
    hasher.update(realm.as_bytes());
    hasher.update(b":");
    hasher.update(password.as_bytes());
    hasher.finalize()
}
