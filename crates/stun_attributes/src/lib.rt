//! The attributes of RFC 8489, and what an attribute is. Private modules hold the traits of attributes,
//! the raw attribute, and how attributes are encoded, checked and walked (`wire`); the forms that
//! several attributes share (`kinds`); and the attributes that protect a message, with USERHASH
//! (`integrity`). Beside them are the attributes whose value is a text, an address, an error code, a
//! list of attribute types, or one or more password algorithms. Every public name is at the root.
#![tactic(auto)]

mod alternate_domain;
mod alternate_server;
mod error_code;
mod integrity;
mod kinds;
mod laws;
mod mapped;
mod nonce;
mod password_algorithm;
mod password_algorithms;
mod realm;
mod software;
mod text;
mod unknown_attributes;
mod username;
mod wire;
mod xor_mapped_address;
mod xored;

pub use alternate_domain::AlternateDomain;
pub use alternate_server::{AlternateServer, AlternateServerKind};
pub use error_code::{ErrorCode, ErrorCodeBuilder};
pub use integrity::{
    Fingerprint, MessageIntegrity, MessageIntegritySha256, Userhash, beginning, fingerprint_at,
    fingerprint_is_read_back, integrity_is_read_back, integrity_sha256_is_read_back,
    integrity_types_are_read_back, same_bytes, userhash_is_read_back,
};
pub use kinds::{
    AddressAttribute, AttributeKind, BytesAttribute, EmptyAttribute, NumberAttribute,
    PackedAttribute, PackedKind, ValueBytes, XorAddressAttribute, address_attribute_is_read_back,
    bytes_are_read_back, empty_is_read_back, number_attribute_is_read_back, number_is_read_back,
    packed_attribute_is_read_back,
};
pub use laws::{
    algorithm_is_read_back, algorithms_are_read_back, attribute_types_are_read_back,
    error_is_read_back, text_is_read_back, types_are_read_back, xor_twice,
};
pub use mapped::MappedSocketAddr;
pub use nonce::Nonce;
pub use password_algorithm::PasswordAlgorithm;
pub use password_algorithms::PasswordAlgorithms;
pub use realm::Realm;
pub use software::Software;
pub use text::TextAttribute;
pub use unknown_attributes::UnknownAttributes;
pub use username::Username;
pub use wire::{
    Attribute, AttributeFromRaw, AttributeStaticType, AttributeWrite, BorrowValue, EncodeValue,
    RawAttribute, ReadValue, TypedAttribute, attribute_at, borrowed_attribute, check_type,
    copy_to_start, owned_attribute, print_malformed, to_owned_raw, write_attribute, write_encoded,
};
pub use xor_mapped_address::{XorMappedAddress, XorMappedAddressKind};
pub use xored::XorSocketAddr;
