//! What the handle of a TURN server holds.

use std::net::SocketAddr;
use turn_peers::{PeerRange, Peers};
use turn_server::{Access, TurnServer};

/// Which peers a server relays to.
#[derive(Drop)]
pub(crate) struct PeerRules {
    /// The peers that are denied.
    pub(crate) denied: Vec<PeerRange>,
    /// Those that are allowed.
    pub(crate) allowed: Vec<PeerRange>,
    /// The addresses that clients send to.
    pub(crate) listening: Vec<SocketAddr>,
}

/// A TURN server, with what C sets.
#[derive(Drop)]
pub struct TurnCore {
    /// The allocations.
    pub(crate) server: TurnServer<16, 16>,
    /// How it authenticates.
    pub(crate) access: Access,
    /// Which peers it relays to.
    pub(crate) rules: PeerRules,
}

impl PeerRules {
    ghost use Rattle.std.specs.Prelude.{◌≡◌};
    ghost use Rattle.turn_peers.specs.Peers.{is_peer_allowed, is_port_allowed};
    ghost use Rattle.stun_types_c.specs.TurnServers.{allows_peer, allows_port};

    /// The rules, as the table asks for them.
    pub(crate) fn peers(&self) -> Peers<'_>
        ensures addresses { is_peer_allowed result ≡ allows_peer self.now }
        ensures ports { is_port_allowed result ≡ allows_port self.now }
    {
        Peers {
            denied: &self.denied,
            allowed: &self.allowed,
            listening: &self.listening,
        }
    }
}
