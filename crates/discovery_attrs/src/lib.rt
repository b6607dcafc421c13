//! Attributes of NAT behaviour discovery (RFC 5780, section 7), MAPPED-ADDRESS (RFC 8489, section
//! 14.1) and TRANSACTION_TRANSMIT_COUNTER (RFC 7982), over the public items of `stun_types` alone.
#![tactic(auto)]

pub mod attribute_types;
mod change;
mod kinds;
mod laws;
mod response_port;
mod transmissions;

pub use attribute_types::{KNOWN, known_type};
pub use change::Change;
pub use kinds::{
    ChangeRequest, ChangeRequestKind, MappedAddress, MappedAddressKind, OtherAddress,
    OtherAddressKind, Padding, PaddingKind, ResponseOrigin, ResponseOriginKind,
    TransactionTransmitCounter, TransactionTransmitCounterKind,
};
pub use laws::{fields_are_held, response_port_is_read_back};
pub use response_port::ResponsePort;
pub use transmissions::Transmissions;
