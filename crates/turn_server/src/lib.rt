//! A TURN server over `turn_allocations`, without sockets or a clock (RFC 8656): what it takes a client's
//! datagram for, what it keeps and what it does, and its responses.
#![tactic(auto)]

mod access;
mod accounts;
mod action;
mod adding;
mod addresses;
mod allocate;
mod answers;
mod comprehended;
mod datagrams;
mod delivering;
mod header_fields;
mod icmp;
mod indication;
mod judged;
mod judging;
mod laws;
mod peers;
mod redirecting;
mod request;
mod responding;
mod server;
mod serving;
mod site;
mod sockets;
mod unknown;
mod values;
mod wish;

pub use access::Access;
pub use accounts::user_of;
pub use action::{Action, Delivery, IcmpDelivery, Opened, Response, Span};
pub use answers::codes_are_written;
pub use comprehended::{COMPREHENDED, COMPREHENDED_WITH_DONT_FRAGMENT};
pub use header_fields::{IpVersion, ReceivedFields, RelayedData, SentFields, fields_to_send};
pub use laws::{
    clients_do_not_meet, datagrams_are_warranted, flows_last, judgments_are_so,
    permitted_datagrams_pass, requests_are_authentic, reservations_are_for_their_users,
    strangers_change_nothing,
};
pub use peers::PEERS;
pub use server::TurnServer;
pub use site::Site;
pub use sockets::{Pair, Ready, Sockets};
