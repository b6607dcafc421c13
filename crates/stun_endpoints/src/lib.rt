//! Addresses as numbers, to keep and to compare: an IP address, a transport address, and the 5-tuple
//! that identifies a TURN client. They convert from and to the addresses of the standard library.
#![tactic(auto)]

mod conversions;
mod endpoints;

pub use conversions::sockets_are_of_endpoints;
pub use endpoints::{Endpoint, FiveTuple, Ip};
