//! Datagrams that aren't authentic: data, and other STUN messages.

ghost use Rattle.std.specs.Prelude.{◌≡◌, ℕ, List, find};
ghost use Rattle.stun_endpoints.specs.declared.endpoints.Endpoint as endpoints;
ghost use Rattle.ice_machine.specs.Agents as state;
ghost use Rattle.ice_machine.specs.Events.{strays, arrives};
ghost use Rattle.ice_agent_state.specs.Agents.{after, output_at};
ghost use Rattle.ice_agent_state.specs.Outputs.{data_of, refused_with};
ghost use Rattle.ice_agent_state.specs.Places.{IsPlace};

use crate::agent::AgentState;
use crate::choosing::is_succeeded;
use crate::polling::is_at;
use ice_machine::{Answer, Pair};
use stun_endpoints::Endpoint;

/// The most bytes of an error response: its header; ERROR-CODE with a reason phrase of 20 bytes; FINGERPRINT.
const REFUSAL_SIZE: usize = 20 + (8 + 20) + 8;

/// The place of the pair of a base and a remote address, if there is one.
fn place_of(pairs: &[Pair], base: u32, remote: Endpoint) -> Option<usize>
    ensures { IsPlace (state.is_at base remote) pairs.now result }
{
    for i in 0..pairs.len() {
        if is_at(&pairs[i], base, remote) {
            return Some(i);
        }
    }
    None
}

/// The same, with a place to look at first.
pub(crate) fn place_from(pairs: &[Pair], first: usize, base: u32, remote: Endpoint) -> Option<usize>
    ensures { IsPlace (state.is_at base remote) pairs.now result }
{
    if first < pairs.len() && is_at(&pairs[first], base, remote) {
        return Some(first);
    }
    place_of(pairs, base, remote)
}

impl AgentState {
    /// The pair that data comes from. Looks at the one that it came from last before the others.
    fn find_source(&mut self, base: u32, from: Endpoint) -> Option<Pair>
        ensures state { self.new ≡ self.old }
        ensures pair { result ≡ find (state.is_at base from) self.old.state.pairs }
    {
        let place = place_from(&self.pairs, self.latest, base, from)?;
        self.latest = place;
        Some(self.pairs[place])
    }

    /// A datagram that is no STUN message has arrived at a base, from an address. Returns the component whose data
    /// it is (RFC 8445, section 12.2), if an authentic check of the peer has come from there, or the pair is valid.
    /// If it is `None`, the datagram must be dropped.
    pub fn receive(&mut self, now: u64, base: u32, from: Endpoint) -> Option<u16>
        ensures state { (bytes : List ℕ)
            → self.new ≡ after now 0 (arrives base from bytes) self.old }
        ensures data { (bytes : List ℕ)
            → output_at now 0 (arrives base from bytes) self.old ≡ data_of bytes result }
    {
        self.advance(now);
        let pair = self.find_source(base, from)?;
        if pair.heard || is_succeeded(&pair) {
            Some(pair.component)
        } else {
            None
        }
    }

    /// A STUN message of `size` bytes that isn't authentic has arrived; `code` is that of the error response to
    /// it, if it gets one. Returns the response to send to where it came from, from the base that it arrived at;
    /// `None` without a `code`, or if the response could be more than three times as long as the message.
    pub fn refuse(&mut self, now: u64, size: usize, code: Option<u16>) -> Option<Answer>
        ensures state { (base id : ℕ) (from : endpoints.Endpoint)
            → self.new ≡ after now 0 (strays base from id size code) self.old }
        ensures answer { (base id : ℕ) (from : endpoints.Endpoint)
            → output_at now 0 (strays base from id size code) self.old
            ≡ refused_with base from id result }
    {
        self.advance(now);
        let code = code?;
        if REFUSAL_SIZE <= size.saturating_mul(3) {
            Some(Answer::Refused(code))
        } else {
            None
        }
    }
}
