//! What the handle of an ICE agent holds.

use ice_agent::Agent;

/// An ICE agent.
#[derive(Drop)]
pub struct IceCore {
    /// The agent.
    pub(crate) agent: Agent,
}
