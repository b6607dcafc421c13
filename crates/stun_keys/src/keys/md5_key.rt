ghost use Rattle.std.specs.Prelude.{◌≡◌};
ghost use Rattle.md5.specs.Md5.{md5};
ghost use Rattle.stun_keys.specs.Keys.{long_term_text};

use md5::{Digest, Md5};

/// The MD5 of `username:realm:password`; the three texts are not copied.
pub(crate) fn md5_key(username: &str, realm: &str, password: &str) -> [u8; 16]
    ensures { result ≡ md5 (long_term_text username.now realm.now password.now) }
{
    let mut hasher = Md5::new();
    hasher.update(username.as_bytes());
    hasher.update(b":");
    hasher.update(realm.as_bytes());
    hasher.update(b":");
    hasher.update(password.as_bytes());
    hasher.finalize()
}
