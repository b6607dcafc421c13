//! The allocations of a TURN server (RFC 8656), without bytes, sockets or a clock.
//!
//! [`Allocations`] answers authenticated requests, and returns where data and ICMP packets go. The caller
//! does the rest: it parses and authenticates messages, writes responses, opens and closes sockets, and
//! passes the time.
//!
//! Each call with `now` is one step of the state machine of `turn_machine`: that equation is its
//! contract. The laws of the machine state which requests it grants, which it refuses, and which data it
//! relays.
#![tactic(auto)]

mod allocating;
mod allocations;
mod answer;
mod binding;
mod client;
mod ended;
mod events;
mod families;
mod laws;
mod limits;
mod metering;
mod owning;
mod permitting;
mod refreshing;
mod relaying;
mod request;
mod serving;
mod sweeping;

pub use allocations::Allocations;
pub use answer::{Answer, Given, Refusal};
pub use families::Families;
pub use laws::{calls_are_a_run, meters_count};
pub use limits::Limits;
pub use metering::{Meter, Traffic};
pub use relaying::{ToClient, ToPeer};
pub use request::{Request, Want};
pub use turn_relays::{Flow, Iter, Relayed};
