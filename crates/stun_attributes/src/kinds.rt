//! Kinds of attributes: a number, no value, bytes, an address, and an address that is XORed. An
//! attribute is one of them with a number and a name.
mod address;
mod bytes;
mod empty;
mod kind;
mod laws;
mod number;
mod packed;
mod printed;
mod xored;

pub use address::AddressAttribute;
pub use bytes::{BytesAttribute, ValueBytes};
pub use empty::EmptyAttribute;
pub use kind::AttributeKind;
pub use laws::{
    address_attribute_is_read_back, bytes_are_read_back, empty_is_read_back,
    number_attribute_is_read_back, number_is_read_back, packed_attribute_is_read_back,
};
pub use number::NumberAttribute;
pub use packed::{PackedAttribute, PackedKind};
pub use xored::XorAddressAttribute;
