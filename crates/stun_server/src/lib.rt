//! A server without credentials: what it replies to a datagram (RFC 8489, section 12).
#![tactic(auto)]

mod binding;
mod laws;
mod unknown;
mod values;
mod writing;
mod written;

pub use binding::{reply, reply_into};
pub use laws::replies_are_small;
pub use written::Reply;
