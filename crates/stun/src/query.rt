//! What is asked, and by whom.

use stun_types::attribute::Username;
use stun_types::message::{IntegrityKey, TransactionId};

/// A short-term credential: a user name, and the key that the password is (RFC 8489, section 9.1).
#[derive(Drop)]
pub struct Login {
    pub(crate) username: Username,
    pub(crate) key: IntegrityKey,
}

/// A binding request: its transaction ID, and the credential that signs it, if there is one.
#[derive(Drop)]
pub struct Query {
    pub(crate) id: TransactionId,
    pub(crate) login: Option<Login>,
}
