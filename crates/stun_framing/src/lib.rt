//! Messages out of a stream of bytes that comes in pieces of any size, as TCP and TLS carry them
//! (RFC 8489, section 6.2.2).
//!
//! A [`MessageStream`] is handed the pieces, and yields each message whole. It has no socket, and it
//! allocates nothing. [`push_raw`] does the same for a caller that keeps the buffer and two numbers,
//! and [`receive_raw`] for one that reads the bytes straight into it.
#![tactic(auto)]

mod channel_range;
mod error;
mod fault;
mod gather;
mod laws;
mod message_stream;
mod read_stream;
mod stored_stream;
mod stream_kind;

pub use channel_range::ChannelRange;
pub use error::{StreamError, StreamFault};
pub use laws::{
    calls_go_on, cuts_change_nothing, faults_are_right, messages_are_framed, one_cut,
    resuming_changes_nothing,
};
pub use message_stream::MessageStream;
pub use read_stream::{missing_raw, receive_raw};
pub use stored_stream::{Pushed, push_raw};
pub use stream_kind::StreamKind;
