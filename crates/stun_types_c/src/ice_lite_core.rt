//! What the handle of a lite ICE agent holds.

use ice_agent::LiteAgent;

/// A lite ICE agent.
#[derive(Drop)]
pub struct IceLiteCore {
    /// The agent.
    pub(crate) agent: LiteAgent,
}
