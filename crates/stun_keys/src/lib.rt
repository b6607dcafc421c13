//! The checksum of a FINGERPRINT, the HMACs of the integrity attributes, and their keys.
#![tactic(auto)]

pub mod digest;
pub mod keys;
