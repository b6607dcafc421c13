//! Connectivity checks of ICE as bytes (RFC 8445, section 7): a check and its responses, and the event of
//! `ice_machine` that a received datagram is.
#![tactic(auto)]

mod adding;
mod awaited;
mod check;
mod checking;
mod finishing;
mod judged;
mod judging;
mod laws;
mod reading;
mod response;
mod session;
mod unknown;

pub use awaited::AwaitedChecks;
pub use check::write_check;
pub use finishing::Signature;
pub use judged::{Judged, Refusal};
pub use judging::judge;
pub use laws::{events_are_authentic, usernames_have_both_fragments};
pub use reading::UNDERSTOOD;
pub use response::CheckResponse;
pub use session::{Credentials, Session};
pub use unknown::UnknownList;

#[cfg(test)]
mod tests;
