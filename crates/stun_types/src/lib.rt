//! Reading and writing STUN messages (RFC 8489).
//!
//! [`message::Message::from_bytes`] parses a message, and [`message::Message::iter_attributes`]
//! iterates over its attributes; [`message::message_length`] returns where a message ends in a
//! longer buffer. Reading a message borrows its bytes, allocates nothing and walks the attributes
//! once; for a FINGERPRINT the bytes before it are read again. A message keeps the offsets of its
//! integrity attributes: [`message::Message::validate_integrity`] reads the one that it checks
//! at its offset, and then the bytes that the HMAC covers.
//! [`message::Message::builder`] begins a message, and [`message::MessageWriteExt::add_attribute`]
//! adds to it; [`message::write_steps`] writes a whole one by a list of steps. [`mod@attribute`] has
//! the attributes and the traits for your own, [`show`] prints messages with them, [`data`] has bytes
//! that are borrowed or owned, and [`prelude`] the traits. Two private modules do the work on bytes:
//! `reading`, on which `Message` is built, and `writing`.
//!
//! Values, attributes and messages print by `Display`, whose contract promises the text for a plain
//! `{}` alone (no width, no precision, no `{:#}`), and [`write_text`] writes the same text to a
//! slice, which succeeds exactly if the slice has room.
//!
//! # Examples
//!
//! A request, the response of the server, and the address that the client reads from it:
//!
//! ```
//! use rand::{make_rng, rngs::StdRng};
//! use std::net::{IpAddr, Ipv4Addr, SocketAddr};
//! use stun_types::attribute::XorMappedAddress;
//! use stun_types::message::{BINDING, Message, MessageWriteVec};
//! use stun_types::prelude::*;
//!
//! // the client sends a request
//! let mut rng: StdRng = make_rng(&rt)?;
//! let mut request = Message::builder_request(BINDING, &mut rng, MessageWriteVec::new(alloc))?;
//! request.add_fingerprint()?;
//! let sent = request.finish();
//!
//! // the server answers it with the address that it came from
//! let source = SocketAddr::new(IpAddr::V4(Ipv4Addr::new(192, 0, 2, 1)), 32853);
//! let request = Message::from_bytes(&sent)?;
//! let mut response = Message::builder_success(&request, MessageWriteVec::new(alloc))?;
//! response.add_attribute(&XorMappedAddress::new(source, request.transaction_id()))?;
//! let answer = response.finish();
//!
//! // the client reads that address
//! let response = Message::from_bytes(&answer)?;
//! assert!(rt; response.answers(&request));
//! let mapped = response.attribute::<XorMappedAddress>(alloc)?;
//! assert_eq!(rt; mapped.addr(response.transaction_id()), source);
//! ```
#![tactic(auto)]

pub mod attribute;
pub mod data;
mod laws;
pub mod message;
pub mod prelude;
mod reading;
mod reading_back;
pub mod show;
mod writing;

pub use laws::types_are_read;
pub use reading::{found_has_its_type, found_is_there, shown_is_found, walks_from_there};
pub use reading_back::{added_is_shown, shown_is_read_back, typed_is_read_back};
pub use stun_attributes::{
    address_attribute_is_read_back, attribute_types_are_read_back, bytes_are_read_back,
    empty_is_read_back, integrity_types_are_read_back, number_attribute_is_read_back,
    number_is_read_back, packed_attribute_is_read_back, text_is_read_back, xor_twice,
};
pub use stun_base::{
    AddressFamily, ParseTransportTypeError, TransportType, messages_have_a_greatest_length,
};
pub use stun_grammar::{
    fingerprint_has_length, hmac_has_length, length_is_stated, message_grows, step_has_length,
};
pub use stun_text::{
    PrintText, TextSink, TextSlice, TextTooLong, put_decimal, put_hex, write_text,
};
pub use writing::{appended_resumes, begun_resumes, resumed_parses, writers_agree};
