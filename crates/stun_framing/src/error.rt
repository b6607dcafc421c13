//! Why a stream holds no further message.

use thiserror::Error;

/// Why no message begins with the bytes of a stream.
#[derive(Clone, Copy, Debug, PartialEq, Eq, Error)]
pub enum StreamFault {
    /// The two highest bits of the first byte aren't zero, or the magic cookie isn't at offset 4
    /// (RFC 8489, section 5); and no ChannelData message that the stream carries begins with the
    /// first byte.
    #[error("Not a STUN message")]
    NotStun,
    /// The length field has this value, which is no multiple of 4 (RFC 8489, section 5).
    #[error("Length field {0} is not a multiple of 4")]
    NotPadded(u16),
    /// The header states a message of this length in bytes, its own among them, and the buffer has
    /// fewer.
    #[error("Message of {0} bytes is longer than the buffer")]
    TooLong(usize),
}

/// The error that ends a stream: after its last message no message begins.
#[derive(Clone, Copy, Debug, PartialEq, Eq, Error)]
#[error("{fault}, at offset {offset} of the stream")]
pub struct StreamError {
    /// The offset in the stream at which no message begins, in bytes: the lengths of all messages
    /// that were yielded. `u64::MAX` if they are more.
    pub offset: u64,
    /// The reason why no message begins at this offset.
    pub fault: StreamFault,
}
