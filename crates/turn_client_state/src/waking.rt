//! When to poll next.

ghost use Rattle.std.specs.Prelude.{◌≡◌, ℕ, true, false, max};
ghost use Rattle.turn_client_machine.specs.Clients.{Setup, State};
ghost use Rattle.turn_client_machine.specs.Events.{polls};
ghost use Rattle.turn_client_machine.specs.Steps.{at, keeps, step};
ghost use Rattle.turn_client_state.specs.Waking.{wake, is_before};

use crate::client::ClientState;
use crate::peers::sooner;
use crate::phases::{is_active, is_allocated};

impl ClientState {
    /// Returns the moment at which the next poll does something: sends a request, gives up a peer,
    /// or ends the client. A poll before it does nothing; what other calls do may make it sooner. It
    /// is `None` for a client that is quiet or has ended.
    pub fn next_wake(&self) -> Option<u128>
        ensures { result ≡ wake self.now.state }
    {
        if is_allocated(self.phase) {
            return sooner(Some(self.task.due), self.peers.wake());
        }
        if is_active(self.phase) {
            return Some(self.task.due);
        }
        None
    }
}

/// A poll before the moment that [`ClientState::next_wake`] returns sends nothing, and changes
/// nothing but the clock.
pub fn polls_before_do_nothing()
    ensures { (setup : Setup) (state : State) (now fresh : ℕ)
        → is_before (max state.clock now) (wake state) ≡ true
        → step setup state now fresh polls ≡ keeps (at now state) }
{}

/// A poll at that moment or later sends a request, or changes more than the clock.
pub fn polls_after_do_something()
    ensures { (setup : Setup) (state : State) (now fresh : ℕ)
        → is_before (max state.clock now) (wake state) ≡ false
        → step setup state now fresh polls ≡ keeps (at now state) → ⊥ }
{}
