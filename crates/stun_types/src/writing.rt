//! Writing messages (RFC 8489, sections 5 and 14): where to ([`MessageWrite`], with a vector and a
//! borrowed slice), how attributes are added ([`MessageWriteExt`]), and how a list of steps writes a
//! whole message ([`write_steps`]). `Message::builder` begins one.
mod adds;
mod among;
mod append;
mod header;
mod laws;
mod listed;
mod next_integrity;
mod protect;
mod readers;
mod refusals;
mod resume_point;
mod resumed;
mod slice;
mod steps;
mod types;
mod vec;
mod writer;

pub use adds::MessageWriteExt;
pub use among::{first_among, is_among};
pub use append::{append_attribute, append_encoded, append_value};
pub(crate) use header::header_bytes;
pub use header::write_message_header;
pub use laws::{appended_resumes, begun_resumes, resumed_parses, writers_agree};
pub use next_integrity::NextIntegrity;
pub use resume_point::ResumePoint;
pub use slice::MessageWriteMutSlice;
pub use steps::{Step, write_steps, write_steps_into};
pub use types::WrittenTypes;
pub use vec::MessageWriteVec;
pub use writer::MessageWrite;
