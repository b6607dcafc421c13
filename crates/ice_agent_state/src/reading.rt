//! What a caller reads of an agent.

ghost use Rattle.std.specs.Prelude.{◌≡◌};

use crate::agent::AgentState;
use ice_machine::{Pair, Request};

impl AgentState {
    /// Returns the pairs as they are at the latest moment of a call, the newest first.
    pub fn pairs(&self) -> &[Pair]
        ensures { result.now ≡ self.now.state.pairs }
    {
        &self.pairs
    }

    /// Returns the requests that a response is waited for, the newest first, as they are at the latest moment of a
    /// call.
    pub fn requests(&self) -> &[Request]
        ensures { result.now ≡ self.now.state.requests }
    {
        &self.requests
    }
}
