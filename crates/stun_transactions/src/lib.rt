//! A client's transaction over `stun_types`, without sockets and without a clock (RFC 8489,
//! sections 6.2, 6.3.3, 6.3.4, 9.1.4 and 9.2.5).
//!
//! A [`Transaction`] says when to send its request and when to give up ([`Transaction::poll`]), and
//! what a received message is for it ([`Transaction::receive`]). The caller passes the time, as a
//! `Duration` since a beginning of its choice. Only [`Transaction::prepare`] and
//! [`Protection::prepare`] allocate.
#![tactic(auto)]

mod beginning;
mod guard;
mod judge;
mod laws;
mod mapped;
mod parting;
mod parts;
mod plan;
mod received;
mod response_policy;
mod retransmission;
mod retries;
mod schedule;
mod slots;
mod transaction;
mod transactions;

pub use beginning::BeginError;
pub use guard::{Protection, Signed};
pub use laws::{
    accepted_is_authentic, ends_are_final, first_poll_sends, intervals_sum, judged_is_authentic,
    no_parts_are_refused, other_calls_stay, parts_are_the_whole, requests_are_spaced,
    stopping_sends_nothing,
};
pub use mapped::{mapped_address, response_address};
pub use parts::{Mechanism, PartsError, PendingRequest, TransactionParts};
pub use plan::Plan;
pub use received::{Claim, Discard, Failure, Received};
pub use response_policy::ResponsePolicy;
pub use retransmission::{Action, RetransmissionState, TransactionEnd};
pub use retries::Retries;
pub use schedule::{Schedule, ScheduleError};
pub use slots::{AddError, TransactionsAction};
pub use transaction::Transaction;
pub use transactions::Transactions;
