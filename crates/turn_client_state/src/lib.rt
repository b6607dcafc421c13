//! A TURN client in memory (RFC 8656): the state of the machine `turn_client_machine`, with its
//! peers in one array. It reads no bytes, checks no integrity, and opens no sockets. Each call is
//! one step of the machine: its contract says that the new state and what it returns are those of
//! `step` (`turn_client_machine/specs/Steps.antt`).
#![tactic(auto)]

mod challenges;
mod changes;
mod client;
mod data;
mod lookups;
mod naming;
mod peers;
mod phases;
mod polling;
mod reports;
mod responding;
mod settings;
mod tasks;
mod waking;

pub use client::{ClientState, Status};
pub use data::Way;
pub use naming::NameError;
pub use polling::Asking;
pub use reports::{Change, Changes, Report, Standing};
pub use settings::Settings;
pub use waking::{polls_after_do_something, polls_before_do_nothing};
