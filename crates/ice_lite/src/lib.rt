//! A lite ICE agent (RFC 8445, sections 2.5 and 7.3.2) as a machine, with its laws, and its state in memory. It
//! answers checks, takes the pair that the peer nominates, and sends no request: what a server with a public
//! address needs, whose peers are full agents.
//!
//! `step` (`specs/Steps.antt`) takes a state, a moment and an event of `ice_machine`, and returns the next state
//! and at most one output of `ice_machine`. [`LiteState`] has the state in memory: each call is one step.
//!
//! - It is controlled (section 6.1.1). A check with ICE-CONTROLLING is answered with success, and one with
//!   ICE-CONTROLLED with 487 (Role Conflict), whatever the tiebreakers are: a lite agent can't control.
//! - A check with USE-CANDIDATE selects its pair for the component, instead of the earlier one: the latest
//!   nomination counts.
//! - Data is sent to the selected pair, and taken from it, if the latest accepted check on it came less than 30
//!   seconds ago. RFC 7675, cited from memory, has lite agents answer consent checks, and sets them no such limit.
//! - If both agents are lite, no check is ever sent (section 6.1.1): this agent then selects no pair.
#![tactic(auto)]

mod candidates;
mod laws;
mod state;

pub use candidates::{LiteBase, LiteCandidate, LitePair};
pub use laws::{lite_agents_never_ask, nominated_pairs_carry_data};
pub use state::LiteState;
