//! The peers of a client.

use crate::tasks::Task;
use stun_endpoints::Endpoint;

/// A peer that the user has named, or has dropped since. Moments are in nanoseconds of the caller's clock.
#[derive(Clone, Copy, Debug, PartialEq, Eq)]
pub struct Peer {
    /// Its transport address.
    pub address: Endpoint,
    /// Its channel number, from 0x4000 to 0x4FFF, which no other peer of the client has.
    pub number: u16,
    /// Whether a channel is wanted.
    pub wants: bool,
    /// Whether a channel has ever been wanted, so that the server may have bound the number to the
    /// address.
    pub wanted: bool,
    /// Whether nothing is asked for any more: the client has given it up, or the user has dropped
    /// it.
    pub over: bool,
    /// The error code that was the reason, or 0 if no response counted.
    pub code: u16,
    /// Whether a response to the request under way had a wrong integrity.
    pub violated: bool,
    /// Whether the latest request for it, of those since it was last granted, named other peers too.
    pub shared: bool,
    /// When the permission for its IP address expires at the earliest (RFC 8656, section 9), or 0
    /// if none was granted.
    pub expires_at: u128,
    /// When its channel expires at the earliest (section 12), or 0 if none was granted.
    pub channel_expires_at: u128,
    /// The renewal of its permission, or of its channel with the permission.
    pub task: Task,
    /// If the user has dropped it, from when on another peer may take its place and its number.
    pub rests_until: Option<u128>,
}
