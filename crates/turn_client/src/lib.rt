//! A TURN client (RFC 8656) without sockets and without a clock: datagrams come in and go out.
//!
//! [`TurnClient`] keeps one allocation at one server, on one 5-tuple: it asks for it, answers the
//! server's challenges, renews it, its permissions and its channels, and deletes it. It shows data only
//! from the server's address and from peers that the server permits at the user's wish
//! ([`data_is_warranted`]), and its requests go out at polls alone. After a 437 or a 300,
//! [`Attempt`] says what to try.
//!
//! Its state is that of `turn_client_machine`, which has the laws, in `turn_client_state`. What a
//! datagram is, and which bytes a request is, `turn_client_messages` says. Each contract has both:
//! `specs/Receiving.antt` what a datagram does, and `specs/Sending.antt` what is written.
//!
//! Allocations of both families are not part of it, nor a server without credentials: only signed
//! responses count, and challenges.
#![tactic(auto)]

mod account;
mod attempt;
mod client;
mod laws;
mod logins;
mod receiving;
mod sending;

pub use account::Account;
pub use attempt::{Attempt, rest_after};
pub use client::TurnClient;
pub use laws::{
    attempts_are_few, client_is_bounded, data_is_warranted, datagrams_are_warranted,
    ends_for_a_reason, fit_datagrams_are_taken, goes_on, granted_lasts, kept_alive, peers_stay,
    polls_come_to_an_end, polls_in_time, server_agrees, server_keeps, stays_punctual,
    strangers_change_nothing, will_reach,
};
pub use receiving::{PeerData, Received};
pub use turn_attrs::IcmpError;
pub use turn_client_machine::{End, Peer, Phase};
pub use turn_client_messages::PeerError;
pub use turn_client_state::{Change, Changes, NameError, Report, Settings, Standing, Status};
pub use turn_requests::RelayedPort;
