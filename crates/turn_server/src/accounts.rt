//! The number by which the allocations name a user.

ghost use Rattle.std.specs.Prelude.{◌≡◌, ◌==◌, length, replicate, if◌then◌else◌};
ghost use Rattle.stun_attributes.specs.Userhash.{user_hash};
ghost use Rattle.stun_authentication.specs.Identities.{who};
ghost use Rattle.turn_slots.specs.Users.{user_number};
ghost use Rattle.turn_server.specs.Accounts.{account_of};

use sha2::{Digest, Sha256};
use stun_authentication::Identity;
use turn_slots::{UserId, user_numbers_are_their_bytes};

/// The hash of a name and a realm.
fn hash_of_name(name: &[u8], realm: &str) -> [u8; 32]
    ensures { result ≡ user_hash name.now realm.now }
{
    let mut hasher = Sha256::new();
    hasher.update(name);
    hasher.update(b":".as_slice());
    hasher.update(realm.as_bytes());
    hasher.finalize()
}

/// A hash, or zeros if it hasn't 32 bytes.
fn whole_hash(hash: &[u8]) -> [u8; 32]
    ensures { result ≡ (if length hash.now == 32 then hash.now else replicate 32 0) }
{
    let mut bytes = [0; 32];
    if hash.len() == 32 {
        bytes.copy_from_slice(hash);
    }
    bytes
}

/// Returns the number by which the allocations name a user of a realm: its USERHASH, the SHA-256 of the
/// name, a colon and the realm (RFC 8489, section 14.4), so that a user has one number by name and by
/// USERHASH. A hash of another length than 32 bytes is nobody's: its number is 0.
///
/// # Examples
///
/// ```
/// use stun_authentication::Identity;
/// use stun_types::attribute::Userhash;
/// use turn_server::user_of;
///
/// let by_name = user_of(Identity::Name(b"alice"), "example.org");
/// let hash = Userhash::compute("alice", "example.org");
/// assert_eq!(rt; by_name, user_of(Identity::Hash(&hash), "example.org"));
/// assert!(rt; by_name != user_of(Identity::Name(b"bob"), "example.org"));
/// ```
pub fn user_of(user: Identity<'_>, realm: &str) -> UserId
    ensures { user_number result ≡ account_of realm.now (who user.entry) }
{
    user_numbers_are_their_bytes();
    match user {
        Identity::Name(name) => UserId::from(hash_of_name(name, realm)),
        Identity::Hash(hash) => UserId::from(whole_hash(hash)),
    }
}
