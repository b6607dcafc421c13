//! The requests of a TURN client (RFC 8656): Allocate, Refresh, CreatePermission and ChannelBind, each
//! unsigned, or signed as the server's challenge asks (RFC 8489, section 9.2).
//!
//! A [`TurnRequest`] says what is asked for, and [`TurnRequest::write_into`] writes the message into
//! any writer of `stun_types`. A [`Login`] has the credentials.
#![tactic(auto)]

mod adding;
mod finishing;
mod request;
mod writing;

pub use request::{Login, RelayedPort, TurnRequest};
