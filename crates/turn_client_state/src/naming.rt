//! The peers that the user names.

ghost use Rattle.std.specs.Prelude.{◌≡◌, ◌||◌, max};
ghost use Rattle.std.specs.List.{list_any};
ghost use Rattle.turn_client_machine.specs.Clients.{is_peer};
ghost use Rattle.turn_client_machine.specs.Events.{permits, binds, drops};
ghost use Rattle.turn_client_machine.specs.Steps as steps;
ghost use Rattle.turn_client_state.specs.Naming.{named, named_anew};
ghost use Rattle.turn_client_state.specs.States.{setup_of, after};

use crate::changes::Change;
use crate::client::ClientState;
use crate::lookups::Sought;
use stun_endpoints::Endpoint;

/// Why a peer isn't named.
#[derive(Clone, Copy, Debug, PartialEq, Eq)]
pub enum NameError {
    /// There is no room for it.
    Full,
    /// Its address is of another family than the relayed address (RFC 8656, section 10.2).
    OtherFamily,
}

impl ClientState {
    /// Adds a peer.
    fn name(&mut self, wants: bool, address: Endpoint) -> Result<(), NameError>
        ensures state { self.new ≡ record self.old {
          state = record self.old.state {
            peers = steps.with_new (setup_of self.old.settings) self.old.state.clock wants address
                self.old.state.peers;
          };
        } }
        ensures result { result ≡ named_anew (setup_of self.old.settings) self.old.state.clock address
            self.old.state.peers }
    {
        if address.ip.family != self.settings.family {
            return Err(NameError::OtherFamily);
        }
        let rested = Sought::Rested(self.clock);
        if self.peers.any(&rested) {
            let replace = Change::Replace(self.clock, wants, address);
            self.peers.change(&rested, &replace);
            return Ok(());
        }
        if !self.peers.has_room() {
            return Err(NameError::Full);
        }
        self.peers.push(self.clock, wants, address);
        Ok(())
    }

    /// Asks for a permission for a peer's IP address (RFC 8656, section 9), unless the client keeps
    /// one up. Once there is an allocation, the next polls send the request. Data of any port of
    /// that address is let through then.
    ///
    /// # Errors
    ///
    /// - [`NameError::OtherFamily`] if the peer is new, and its address of another family than the
    ///   relayed address;
    /// - [`NameError::Full`] if the peer is new, and there is no room for it.
    pub fn permit(&mut self, now: u64, peer: Endpoint) -> Result<(), NameError>
        ensures state { self.new ≡ after now 0 (permits peer) self.old }
        ensures result { result ≡ named (setup_of self.old.settings) (max self.old.state.clock now)
            (list_any (steps.covers peer.ip) self.old.state.peers
            || list_any (is_peer peer) self.old.state.peers) peer self.old.state.peers }
    {
        self.advance(now);
        if self.peers.any(&Sought::Covering(peer.ip)) {
            return Ok(());
        }
        if self.peers.any(&Sought::At(peer)) {
            let restart = Change::Restart(self.clock);
            self.peers.change(&Sought::At(peer), &restart);
            return Ok(());
        }
        self.name(false, peer)
    }

    /// Asks for a channel to a peer (RFC 8656, section 12), which also permits its IP address. Once
    /// there is an allocation, the next polls send the request.
    ///
    /// # Errors
    ///
    /// - [`NameError::OtherFamily`] if the peer is new, and its address of another family than the
    ///   relayed address;
    /// - [`NameError::Full`] if the peer is new, and there is no room for it.
    pub fn bind(&mut self, now: u64, peer: Endpoint) -> Result<(), NameError>
        ensures state { self.new ≡ after now 0 (binds peer) self.old }
        ensures result { result ≡ named (setup_of self.old.settings) (max self.old.state.clock now)
            (list_any (is_peer peer) self.old.state.peers) peer self.old.state.peers }
    {
        self.advance(now);
        if self.peers.any(&Sought::At(peer)) {
            let want = Change::Want(self.clock);
            self.peers.change(&Sought::At(peer), &want);
            return Ok(());
        }
        self.name(true, peer)
    }
    /// Drops a peer, by its exact address: no request for its permission or its channel is sent any
    /// more, and no data of it is let through. Data of other peers of its IP address is, as long as
    /// the client has a permission by one of them; a peer that was only covered by the dropped one's
    /// permission has to be named again.
    ///
    /// The peer stays in [`ClientState::peers`], marked by [`Peer::rests_until`], and counts towards
    /// [`Settings::most_peers`] until another one takes its place: at once, or if a channel was
    /// wanted 900 seconds later, when the server has surely forgotten the channel (RFC 8656, section
    /// 12). If it is named again, it has the same number, and its channel is asked for again. If the
    /// client doesn't have the peer, nothing changes.
    ///
    /// [`Settings::most_peers`]: crate::Settings::most_peers
    pub fn drop_peer(&mut self, now: u64, peer: Endpoint)
        ensures { self.new ≡ after now 0 (drops peer) self.old }
    {
        self.advance(now);
        let drop = Change::Drop(self.clock);
        self.peers.change(&Sought::Listed(peer), &drop);
    }
}
