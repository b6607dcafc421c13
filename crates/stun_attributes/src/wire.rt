//! Attributes: the traits of attributes that are read and written, the raw attribute (a type and
//! the bytes of a value), the encoding of an attribute, the checks of types and lengths, and the
//! walk over the attributes of a message.
mod attribute;
mod borrowed;
mod check;
mod encoding;
mod numbers;
mod owned;
mod printed;
mod raw;
mod typed;
mod walk;

pub use attribute::{Attribute, AttributeFromRaw, AttributeStaticType, AttributeWrite};
pub use borrowed::{BorrowValue, borrowed_attribute};
pub use check::check_type;
pub use encoding::{EncodeValue, copy_to_start, to_owned_raw, write_attribute, write_encoded};
pub use owned::owned_attribute;
pub use printed::print_malformed;
pub use raw::RawAttribute;
pub use typed::{ReadValue, TypedAttribute};
pub use walk::attribute_at;
