//! The relayed addresses of a TURN server in memory, with all that the server keeps of each (RFC 8656,
//! sections 6, 9 and 12): whose it is, when it ends, its permissions and its channels.
//!
//! [`Relays`] has each in a slot of `turn_slots`, which finds it, and its permissions and channels beside
//! that slot. The contracts say what that is in the terms of `turn_machine`: a list of relayed addresses,
//! the newest first (`state_of` in `specs/Relayed.antt`). The caller decides who may open a relayed address,
//! and for how long.
#![tactic(auto)]

mod binding;
mod facts;
mod flows;
mod granting;
mod iter;
mod kept;
mod laws;
mod permitting;
mod relayed;
mod relays;

pub use flows::Flow;
pub use iter::Iter;
pub use laws::{list_follows_slots, lists_have_slots};
pub use relayed::{Relayed, users_are_numbers};
pub use relays::Relays;
