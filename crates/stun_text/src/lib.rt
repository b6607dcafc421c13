//! Text that is written piece by piece: into a formatter, which may refuse a piece, or into a
//! slice, which refuses none and counts the text. Nothing allocates.
#![tactic(auto)]

mod address;
mod basic;
mod list;
mod number;
mod printed;
mod sink;
mod slice;

pub use address::{put_ipv4, put_ipv6, put_socket, put_socket_v6};
pub use list::put_comma;
pub use number::{hex_digit, put_decimal, put_hex};
pub use printed::{PrintText, write_text};
pub use sink::TextSink;
pub use slice::{TextSlice, TextTooLong};
