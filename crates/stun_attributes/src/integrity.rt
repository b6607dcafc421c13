//! The attributes that protect a message: MESSAGE-INTEGRITY, MESSAGE-INTEGRITY-SHA256 and
//! FINGERPRINT; and USERHASH. The rules of integrity are here, each in one place: which bytes of a
//! message an HMAC covers, and what a FINGERPRINT holds. Reading, validation and writing use them.
mod compare;
mod covered;
mod fingerprint;
mod laws;
mod message_integrity;
mod message_integrity_sha256;
mod userhash;

pub use compare::same_bytes;
pub use covered::{beginning, fingerprint_at};
pub use fingerprint::Fingerprint;
pub use laws::{
    fingerprint_is_read_back, integrity_is_read_back, integrity_sha256_is_read_back,
    integrity_types_are_read_back, userhash_is_read_back,
};
pub use message_integrity::MessageIntegrity;
pub use message_integrity_sha256::MessageIntegritySha256;
pub use userhash::Userhash;
