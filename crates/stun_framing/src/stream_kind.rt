//! What a stream carries.

use crate::channel_range::ChannelRange;

/// The kinds of messages on a stream: STUN alone, or ChannelData of TURN too.
#[derive(Clone, Copy, Debug, PartialEq, Eq)]
pub enum StreamKind {
    /// The stream carries STUN messages alone (RFC 8489, section 6.2.2).
    Messages,
    /// The stream carries STUN messages, and ChannelData messages of TURN padded to a multiple of 4
    /// (RFC 8656, section 12.5), as between a TURN client and its server. Their channels have
    /// numbers of the range: [`ChannelRange::Rfc8656`], unless the client is of RFC 5766.
    ChannelDataToo(ChannelRange),
}
