//! Data to and from peers (RFC 8656, sections 11 and 12).

ghost use Rattle.std.specs.Prelude.{◌≡◌, ℕ, List, if◌then◌else◌};
ghost use Rattle.turn_client_machine.specs.Events.{sends, gives, gives_on, shows, nothing};
ghost use Rattle.turn_client_state.specs.States.{after, output_at, data_by, shown_by};

use crate::client::ClientState;
use crate::phases::is_allocated;
use stun_endpoints::Endpoint;

/// How data is sent to a peer.
#[derive(Clone, Copy, Debug, PartialEq, Eq)]
pub enum Way {
    /// In a ChannelData message with this channel number (RFC 8656, section 12.5).
    Channel(u16),
    /// In a Send indication to the peer (section 11.1).
    Indication,
}

impl ClientState {
    /// Returns how data is sent to a peer now, whatever the data is. If it is `None`, data must not
    /// be sent: the allocation or the peer's permission has not been granted, or has expired.
    pub fn send(&mut self, now: u64, peer: Endpoint) -> Option<Way>
        ensures state { (bytes : List ℕ) → self.new ≡ after now 0 (sends peer bytes) self.old }
        ensures data { (bytes : List ℕ)
            → output_at now 0 (sends peer bytes) self.old ≡ data_by peer bytes result }
    {
        self.advance(now);
        if !is_allocated(self.phase) || self.expires_at <= self.clock as u128 {
            return None;
        }
        self.peers.way(self.clock, peer)
    }

    /// A Data indication has arrived from an address, with data of a peer (RFC 8656, section 11.4).
    /// Returns whether the data is the peer's: if not, it must be dropped.
    pub fn on_data_indication(&mut self, now: u64, from: Endpoint, peer: Endpoint) -> bool
        ensures state { (bytes : List ℕ)
            → self.new ≡ after now 0 (gives from peer bytes) self.old }
        ensures shown { (bytes : List ℕ) → output_at now 0 (gives from peer bytes) self.old
            ≡ (if result then shows peer bytes else nothing) }
    {
        self.advance(now);
        from == self.settings.server
            && is_allocated(self.phase)
            && self.peers.permits(self.clock, peer.ip)
    }

    /// A ChannelData message has arrived from an address (RFC 8656, section 12.6). Returns the peer
    /// whose data it is: if it is `None`, the data must be dropped.
    pub fn on_channel_data(&mut self, now: u64, from: Endpoint, number: u16) -> Option<Endpoint>
        ensures state { (bytes : List ℕ)
            → self.new ≡ after now 0 (gives_on from number bytes) self.old }
        ensures shown { (bytes : List ℕ)
            → output_at now 0 (gives_on from number bytes) self.old ≡ shown_by bytes result }
    {
        self.advance(now);
        if from == self.settings.server && is_allocated(self.phase) {
            self.peers.heard(self.clock, number)
        } else {
            None
        }
    }
}
