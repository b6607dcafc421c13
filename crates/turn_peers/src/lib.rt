//! Which peers a TURN server relays to (RFC 8656, section 21).
//!
//! A server that relays to any address lets its clients reach services that only its own host or network
//! should reach. So it asks a [`PeerPolicy`] about each peer.
//!
//! [`Peers`] is such a policy. It denies the prefixes in [`DENIED_BY_DEFAULT`], prefixes of the caller's
//! choice, with all ports or some, and the addresses and ports on which the server listens, and allows all other
//! peers. The caller can also allow prefixes: of those that contain a peer, the longest decides. Whatever the policy
//! allows, a server doesn't relay to Teredo and 6to4 addresses: [`is_tunnelled`] (section 21.4).
//!
//! # Examples
//!
//! ```
//! use std::net::IpAddr;
//! use stun_endpoints::Ip;
//! use turn_peers::{PeerPolicy, Peers, Prefix, is_tunnelled};
//!
//! // Peers may also be in the office's network.
//! let office: [Prefix; 2] = ["10.1.0.0/16".parse()?, "2002::/16".parse()?];
//! let allowed = [office[0].into(), office[1].into()];
//! let own = ["198.51.100.7:3478".parse()?];
//! let peers = Peers { denied: &[], allowed: &allowed, listening: &own };
//! for (text, relays) in [
//!     ("192.0.2.1", true),
//!     ("10.1.2.3", true),
//!     ("169.254.169.254", false),
//!     ("2002:c000:201::1", false),
//! ] {
//!     let ip = Ip::from(text.parse::<IpAddr>()?);
//!     assert!(rt; (peers.allows_address(ip) && !is_tunnelled(ip)) == relays, "{text}");
//! }
//! ```
#![tactic(auto)]

mod defaults;
mod facts;
mod laws;
mod networks;
mod parse;
mod peers;
mod policy;
mod ranges;
mod tunnels;

pub use defaults::DENIED_BY_DEFAULT;
pub use facts::{longer_prefixes_overrule, ranges_are_of_their_ports, registry_is_held};
pub use laws::{longest_prefix_decides, ports_are_of_allowed_addresses};
pub use networks::{Prefix, PrefixError};
pub use peers::Peers;
pub use policy::PeerPolicy;
pub use ranges::PeerRange;
pub use tunnels::is_tunnelled;
