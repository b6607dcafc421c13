//! The TURN client from bytes (RFC 8656), without state and without sockets: which event of the
//! machine (`turn_client_machine`) a datagram is, and which bytes its requests and its data are.
//!
//! - [`judge`] returns what a datagram from the server is. Before it, [`response_id`] returns the
//!   transaction ID by which the caller looks up the request that the datagram answers.
//! - [`ClientRequest::write_into`] writes a request, and [`write_head`] what is around the data for
//!   a peer.
//!
//! Nothing allocates but the writer, and [`Retry::into_owned`](stun_authentication::Retry::into_owned)
//! and [`key_for`](stun_authentication::key_for), which the caller calls after a challenge.
#![tactic(auto)]

mod authentic;
mod channels;
mod granting;
mod indication;
mod judged;
mod judging;
mod laws;
mod peer_errors;
mod refusing;
mod request;
mod responding;
mod sending;
mod session;
mod understood;
mod values;
mod whole;
mod writing;

pub use judged::Judged;
pub use judging::{judge, response_id};
pub use laws::{fit_responses_are_heard, judged_is_authentic, requests_are_found_by_id};
pub use peer_errors::{PeerError, peer_error, reservation_token};
pub use request::{ClientRequest, RequestSettings};
pub use sending::{Carrier, write_head};
pub use session::Session;
pub use understood::UNDERSTOOD;
