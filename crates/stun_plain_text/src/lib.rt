//! The text of a message for a log or a terminal: in printable ASCII, in one line, with the names of
//! STUN, ICE, TURN and NAT discovery; and what the RFCs say of their attribute types.
#![tactic(auto)]

mod escaping;
mod names;
mod printing;
mod types;
mod values;

pub use names::{known_type, method_name, value_form};
pub use printing::write_plain_text;
