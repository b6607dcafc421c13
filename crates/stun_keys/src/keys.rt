//! Credentials, and the keys that they give for the integrity attributes (RFC 8489, section 9).
//!
//! Usernames, passwords and realms are used as they are: no function applies SASLprep (RFC 4013) or
//! the OpaqueString profile (RFC 8265) to them.

mod copied;
mod credentials;
mod integrity_key;
mod long_term;
mod long_term_key;
mod making;
mod md5_key;
mod secret;
mod sha256_key;
mod shared;
mod short_term;

pub use credentials::{MessageIntegrityCredentials, key_of_credentials};
pub use integrity_key::IntegrityKey;
pub use long_term::LongTermCredentials;
pub use long_term_key::{LongTermKeyCredentials, key_of_texts};
pub use making::{copy_key, key_of_bytes, prepare_key};
pub use shared::share_key;
pub use short_term::ShortTermCredentials;
