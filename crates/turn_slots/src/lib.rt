//! The relayed addresses of a TURN server in memory (RFC 8656, section 6): found by client and family, by
//! number and by user, ended by deadline, each call at a cost that doesn't depend on how many there are.
//!
//! A relayed address is a transport address on the server by which it exchanges packets with peers for one
//! client (section 2). An allocation is what a client has at the server: one relayed address, or two, of
//! which one is IPv4 and one IPv6 (section 5). [`Slots`] has a slot for each relayed address. So an
//! allocation has one slot or two, each with its own number and deadline, and each counts for its user.
#![tactic(auto)]

mod deadlines;
mod ending;
mod finding;
mod groups;
mod hashing;
mod iter;
mod keys;
mod laws;
mod opening;
mod relay_key;
mod slots;
mod users;

pub use iter::Iter;
pub use laws::{lists_agree, numbers_grow, user_numbers_are_their_bytes};
pub use relay_key::RelayKey;
pub use slots::{Entry, Slots};
pub use users::UserId;
