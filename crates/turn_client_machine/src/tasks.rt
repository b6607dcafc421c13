//! What a client asks for again and again.

use crate::requests::Request;

/// A request that waits for its response.
#[derive(Clone, Copy, Debug, PartialEq, Eq)]
pub struct Pending {
    /// The request.
    pub request: Request,
    /// How often it was sent.
    pub sends: u8,
}

/// Something that the server must grant, and that is renewed before it expires: the allocation, a
/// permission or a channel. Moments are in nanoseconds of the caller's clock.
#[derive(Clone, Copy, Debug, PartialEq, Eq)]
pub struct Task {
    /// When there is next something to do.
    pub due: u128,
    /// When the client gives up, if the server hasn't granted it.
    pub deadline: u128,
    /// The request under way.
    pub pending: Option<Pending>,
    /// How often the server has asked for other credentials since it last granted this.
    pub retries: u8,
}
