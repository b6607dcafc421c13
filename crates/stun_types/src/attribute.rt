//! Attributes, each a type and a value, and the traits that read and write them.

mod known;
mod understood;

pub use crate::show::AttributeDisplay;
pub use known::{KnownType, ValueForm, known_type};
pub use stun_attributes::{
    AddressAttribute, AlternateDomain, AlternateServer, AlternateServerKind, Attribute,
    AttributeFromRaw, AttributeKind, AttributeStaticType, AttributeWrite, BorrowValue,
    BytesAttribute, EmptyAttribute, EncodeValue, ErrorCode, ErrorCodeBuilder, Fingerprint,
    MappedSocketAddr, MessageIntegrity, MessageIntegritySha256, Nonce, NumberAttribute,
    PackedAttribute, PackedKind, PasswordAlgorithm, PasswordAlgorithms, RawAttribute, ReadValue,
    Realm, Software, TextAttribute, TypedAttribute, UnknownAttributes, Userhash, Username,
    ValueBytes, XorAddressAttribute, XorMappedAddress, XorMappedAddressKind, XorSocketAddr,
};
pub use stun_base::{AttributeHeader, AttributeType, pad_attribute_len};
pub use stun_values::{PasswordAlgorithmValue, check_length, read_error, read_text};
pub use understood::KNOWN;
