//! What the handle of a TURN client holds.

use turn_client::{Changes, TurnClient};

/// A TURN client, and what was reported of it to C.
#[derive(Drop)]
pub struct AllocationCore {
    /// The client.
    pub(crate) client: TurnClient,
    /// What was reported.
    pub(crate) changes: Changes,
}
