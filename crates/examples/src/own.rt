//! Attributes of one's own: a number, a text, two numbers, and a number with a text.

mod location;
mod session;
mod ticket;
mod version;

pub use location::Location;
pub use session::{Session, SessionKind};
pub use ticket::Ticket;
pub use version::Version;
