//! Bytes that are borrowed or owned.

pub use stun_base::{Data, DataOwned, DataSlice};
