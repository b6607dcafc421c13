//! Reading bytes: whether they are a message, which attributes they show, and where its
//! integrity attributes are (RFC 8489, sections 6.3, 14 and 14.5 to 14.7).
//! [`Message`](crate::message::Message) is built on these functions.
mod endings;
mod fingerprint;
mod frame;
mod integrity_at;
mod iterate;
mod laws;
mod offsets;
mod parse;
mod step;

pub(crate) use endings::type_number;
pub use frame::{check_frame, iter_framed, message_length};
pub(crate) use integrity_at::{IntegrityAt, integrity_raw, type_for};
pub use iterate::MessageAttributesIter;
pub use laws::{found_has_its_type, found_is_there, shown_is_found, walks_from_there};
pub use offsets::IntegrityOffsets;
pub use parse::check_message;
pub use step::shown_at;
