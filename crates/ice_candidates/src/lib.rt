//! The attributes of SDP by which an ICE agent describes itself and its candidates, as text (RFC
//! 8839, section 5): `candidate`, `ice-ufrag`, `ice-pwd`, `ice-options`, `ice-lite` and
//! `end-of-candidates` (RFC 8838).
//!
//! [`Candidate::from_line`] and [`Line::from_line`] read a line of SDP, or the text that WebRTC
//! signals, with or without `a=`, in one pass and without allocating. The quoted words of the
//! grammar are read in any case. A line that the grammar doesn't allow is rejected with the place of
//! the first word that isn't what the grammar allows there, and with what it allows. TCP candidates,
//! names of hosts, unknown transports, types and extensions are read and reported. A candidate is
//! written as text by [`write_text`](stun_text::write_text) and by `Display`.
//!
//! # The grammar
//!
//! `specs/Grammar.antt` says which lines describe a candidate, `specs/Texts.antt` what its text is,
//! and `specs/Reading.antt` at which word reading a line stops. The laws are the contracts of
//! [`lines_are_of_candidates`], [`candidates_are_read_back`] and [`lines_are_read_back`]. The
//! grammar of RFC 8839, and those of RFC 8866, RFC 3261 and RFC 6544 that it uses, are from memory.
//!
//! Choices that the grammar leaves:
//!
//! - A component is 1 to 256 and a priority 1 to 2^31 - 1 (RFC 8445, sections 5.1.2.1 and 5.1.2).
//! - A word that is no IP address is the name of a host if it has 4 to 255 letters, digits, `-` and
//!   `.`, with at least one letter. An address with a zone, as `fe80::1%eth0`, is rejected.
//! - `raddr` and `rport` are no names of extensions, so each comes at most once, in this order.
//! - A value of an extension may be empty, so two spaces after a name are allowed, and nowhere else.
//! - No white space but a single space separates words, and a line has no line ending.
#![tactic(auto)]

mod attributes;
mod candidate;
mod chars;
mod ending;
mod errors;
mod extensions;
mod fields;
mod laws;
mod line_reading;
mod lines;
mod reading;
mod words;
mod writing;

pub use candidate::{Address, Candidate, CandidateKind, Transport};
pub use errors::{LineError, Wanted};
pub use extensions::Extensions;
pub use laws::{candidates_are_read_back, lines_are_of_candidates, lines_are_read_back};
pub use lines::Line;
