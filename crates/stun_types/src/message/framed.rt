//! The attributes of bytes that were found to be a message before, for a caller that keeps the bytes
//! and no [`Message`](crate::message::Message).

pub use crate::reading::{check_frame, shown_at};
