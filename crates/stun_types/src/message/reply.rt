//! Replies to a request (RFC 8489, sections 6.3.1, 14.8 and 14.13).

mod begin;
mod check;
mod errors;
mod parts;

pub use begin::response_answers;
