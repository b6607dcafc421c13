//! Which challenges are still answered.

ghost use Rattle.std.specs.Prelude.{◌≡◌, reverse};
ghost use Rattle.std.specs.List.{list_any};
ghost use Rattle.turn_client_state.specs.Challenges as challenges;

use crate::client::ClientState;
use turn_client_machine::{Peer, Task};

/// Whether a challenge has the number.
fn is_challenge(number: u64, challenge: Option<u64>) -> bool
    ensures { result ≡ challenges.is_challenge number challenge }
{
    match challenge {
        Some(other) => other == number,
        None => false,
    }
}

/// Whether a request under way answers the challenge with the number.
fn answers(number: u64, task: &Task) -> bool
    ensures { result ≡ challenges.answers number task.now }
{
    match &task.pending {
        Some(pending) => is_challenge(number, pending.request.challenge),
        None => false,
    }
}

/// Whether a request under way for a peer answers the challenge with the number.
fn is_answered(number: u64, peers: &[Peer]) -> bool
    ensures { result ≡ list_any (λ p. challenges.answers number p.task) (reverse peers.now) }
{
    peers.iter().rev().any(|peer| answers(number, &peer.task))
}

impl ClientState {
    /// Returns whether the newest challenge, or one that a request under way answers, has the number:
    /// the credentials for it are still needed.
    pub fn has_challenge(&self, number: u64) -> bool
        ensures { result ≡ challenges.has_challenge number self.now.state }
    {
        is_challenge(number, self.challenge)
            || answers(number, &self.task)
            || is_answered(number, self.peers())
    }
}
