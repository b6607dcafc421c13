//! Examples of what `stun_types` is used for, each a module of its own.
#![tactic(auto)]

pub mod agent;
pub mod allocation;
pub mod client;
pub mod client_loop;
pub mod ice;
pub mod login;
pub mod own;
pub mod printer;
pub mod stream;
pub mod turn;
