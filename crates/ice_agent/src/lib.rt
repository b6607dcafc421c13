//! An ICE agent (RFC 8445) without sockets and without a clock: datagrams come in and go out.
//!
//! [`Agent`] checks the pairs of its bases and of the peer's candidates, answers the peer's checks, nominates
//! as the controlling agent, keeps the peer's consent (RFC 7675), and says where data goes. Candidates may come
//! at any time (RFC 8838). It sends data only to an address from which the peer answered a check less than 30
//! seconds ago ([`datagrams_are_warranted`]). A [`Session`] restarts.
//!
//! Its state is that of `ice_machine`, which has the laws, in `ice_agent_state`. What a datagram is, and which
//! bytes checks and responses are, `ice_checks` says. Each contract has both: `specs/Receiving.antt` what a
//! datagram does, and `specs/Sending.antt` what is sent. `specs/Restarts.antt` says what two agents do during a restart.
//!
//! Gathering candidates, signalling, and the lines of SDP (`ice_candidates`) are the caller's. A relayed
//! candidate is a base: the caller passes what it sends and receives through its TURN client.
#![tactic(auto)]

mod agent;
mod credentials;
mod laws;
mod lite;
mod receiving;
mod restarting;
mod sending;
mod writing;

pub use agent::Agent;
pub use credentials::AgentCredentials;
pub use ice_agent_state::{AddError, Change, Route, Settings, Status};
pub use ice_lite::LiteBase;
pub use ice_machine::{Base, Pair, Remote, Role};
pub use laws::{datagrams_are_warranted, lite_datagrams_are_warranted};
pub use lite::LiteAgent;
pub use receiving::Received;
pub use restarting::Session;
pub use sending::Sending;
