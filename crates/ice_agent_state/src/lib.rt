//! The state of an ICE agent in memory (RFC 8445): the machine of `ice_machine`, with its lists in arrays. It
//! reads no bytes, and opens no sockets. Each call that changes it is one step of the machine: its contract says
//! that the new state and what it returns are those of `step` (`ice_machine/specs/Steps.antt`).
//!
//! - [`AgentState::next_wake`] is the moment to poll at (`specs/Waking.antt`).
//! - [`AgentState::status`] is the status of a component (`specs/Statuses.antt`).
//! - [`Changes`] reports each change once (`specs/Reports.antt`).
//! - [`is_replaced`] says whether a restart is over (`specs/Restarts.antt`).
//!
//! Which event a datagram is, the crate doesn't say.
#![tactic(auto)]

mod agent;
mod candidates;
mod changes;
mod checking;
mod choosing;
mod compact;
mod discoveries;
mod laws;
mod lists;
mod losses;
mod polling;
mod reading;
mod receiving;
mod responding;
mod restarting;
mod roles;
mod routing;
mod settings;
mod settling;
mod status;
mod turns;
mod waking;

pub use agent::AgentState;
pub use candidates::AddError;
pub use changes::{Change, Changes};
pub use laws::{reports_stay, statuses_are_routes};
pub use restarting::{earlier, first_route, is_replaced};
pub use routing::Route;
pub use settings::Settings;
pub use status::Status;
