//! What a writer of your own is made of: each function writes to a borrowed slice.

pub use crate::writing::{
    append_attribute, append_encoded, append_value, first_among, is_among, write_message_header,
};
