//! What a call of a server takes beside the datagram.

use crate::{Access, Sockets};

/// How a server authenticates, and the sockets that it has ready: make one for each call, since
/// `sockets` changes.
#[derive(Clone, Copy, Debug)]
pub struct Site<'s> {
    /// How the server authenticates.
    pub access: &'s Access,
    /// The sockets that are ready for Allocate requests.
    pub sockets: Sockets,
}
