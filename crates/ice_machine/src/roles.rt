//! The roles of agents (RFC 8445, section 2.3).

/// The role of an agent (RFC 8445, section 6.1.1): the controlling agent nominates the pairs that both
/// use.
#[derive(Clone, Copy, Debug, PartialEq, Eq)]
pub enum Role {
    /// The agent nominates pairs.
    Controlling,
    /// The agent waits for the other one to nominate pairs.
    Controlled,
}
