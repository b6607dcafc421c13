//! The grammar of a STUN message (RFC 8489), and the laws that its definitions obey.
//!
//! `specs/` defines headers, attributes, chains of attributes, checksums and HMACs; what is shown
//! of a message, and why bytes are refused; how a message is encoded, and what adding an attribute
//! returns and writes; which bytes an integrity attribute covers, and what validation returns. The
//! functions of `laws`, `adding_laws` and `integrity_laws` do nothing: the contract of each is a
//! law that these definitions obey. The error types, `AttributeType` and `IntegrityAlgorithm` are
//! here because the definitions name them.
#![tactic(auto)]

mod adding_laws;
mod attribute_type;
pub mod attribute_types;
mod error;
mod integrity_algorithm;
mod integrity_laws;
mod laws;
mod numbered;

pub use adding_laws::{fingerprint_has_length, hmac_has_length, message_grows, step_has_length};
pub use attribute_type::{AttributeType, put_type_debug};
pub use error::{AddError, StunParseError, StunWriteError, ValidateError};
pub use integrity_algorithm::IntegrityAlgorithm;
pub use integrity_laws::{
    given_hmac_signs, integrity_has_origin, integrity_is_exact, integrity_is_exact_with_key,
    integrity_is_local, integrity_is_local_with_key, step_is_written, steps_are_read_back,
    verdict_is_by_hmacs,
};
pub use laws::{
    canonical_is_attribute, encoding_grows, encoding_is_read_back, incomplete_header,
    length_is_stated, one_any_order, one_chain, one_longest_prefix, one_order, one_spelling,
    prefix_of_chain, refusals_of_parsing, right_fingerprint, written_is_read_back,
};
pub use numbered::put_numbered;
