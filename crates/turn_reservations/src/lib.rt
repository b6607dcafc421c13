//! Reserved ports of a TURN server: EVEN-PORT with its R bit, and RESERVATION-TOKEN (RFC 8656, sections 7.2,
//! 18.7 and 18.10).
//!
//! [`ReservingAllocations`] is [`Allocations`](turn_allocations::Allocations) with two more calls: an Allocate
//! request can reserve the next higher port, and a later one claims it by its token. Each call is one step of
//! the state machine of `turn_machine` with reservations, and its contract is that equation.
#![tactic(auto)]

mod allocations;
mod held;
mod laws;
mod requests;
mod reserving;

pub use allocations::ReservingAllocations;
pub use laws::reserving_calls_are_a_run;
pub use requests::{Claim, Family, Reply, Reserve};
