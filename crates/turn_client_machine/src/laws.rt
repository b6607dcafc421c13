//! The laws. Each function does nothing: its contract is the law.

mod asking;
mod bounds;
mod dropping;
mod lasting;
mod polling;
mod reaching;
mod serving;
mod sessions;
mod sharing;
mod warrants;

pub use asking::requests_are_identified;
pub use bounds::{attempts_are_few, client_is_bounded, peers_are_named};
pub use dropping::{numbers_rest, peers_are_dropped};
pub use lasting::{ends_for_a_reason, granted_lasts, kept_alive, peers_stay, violations_are_noted};
pub use polling::{polls_come_to_an_end, renewals_are_rare, turns_are_used, useless_is_deleted};
pub use reaching::{goes_on, stays_punctual, will_reach};
pub use serving::{data_crosses, fit_is_heard, server_agrees, server_keeps};
pub use sessions::{client_and_server_meet, premises_can_be_met};
pub use sharing::peers_share_requests;
pub use warrants::{data_is_warranted, strangers_change_nothing};
