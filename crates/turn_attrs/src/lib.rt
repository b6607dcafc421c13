//! Attributes, methods and error codes of TURN (RFC 8656), which relays packets between a client
//! and its peers, with those of its extensions: TCP (RFC 6062), third-party authorization (RFC
//! 7635) and mobility (RFC 8016); ChannelData messages; and which protocol a packet is of. They
//! use the public items of `stun_types` alone.
#![tactic(auto)]

mod address_error_code;
pub mod attribute_types;
mod channel_data;
mod channels;
pub mod error_codes;
mod family;
mod heads;
mod icmp;
mod kinds;
mod laws;
mod lifetime;
pub mod methods;
mod protocols;
mod third_party;
mod tokens;

pub use address_error_code::AddressErrorCode;
pub use attribute_types::{KNOWN, known_type};
pub use channel_data::{
    ChannelData, ChannelDataError, channel_data_length, channel_data_length_in,
};
pub use channels::Channel;
pub use family::Ipv6AddressFamily;
pub use heads::{Head, write_channel_head, write_data_head, write_send_head};
pub use icmp::IcmpError;
pub use kinds::{
    AdditionalAddressFamily, AdditionalAddressFamilyKind, ChannelNumber, ChannelNumberKind,
    DataKind, DontFragment, DontFragmentKind, EvenPort, EvenPortKind, Icmp, IcmpKind,
    OldChannelNumber, OldChannelNumberKind, PeerData, RequestedAddressFamily,
    RequestedAddressFamilyKind, RequestedTransport, RequestedTransportKind, XorPeerAddress,
    XorPeerAddressKind, XorRelayedAddress, XorRelayedAddressKind,
};
pub use laws::{address_error_is_read_back, channel_data_is_framed, fields_are_held};
pub use lifetime::Lifetime;
pub use protocols::{Protocol, protocol_in, protocol_of, stun_begins_low};
pub use stun_framing::ChannelRange;
pub use third_party::ThirdPartyAuthorization;
pub use tokens::{
    AccessToken, AccessTokenKind, ConnectionId, ConnectionIdKind, MobilityTicket,
    MobilityTicketKind, ReservationToken, ReservationTokenKind,
};
pub use turn_machine::{DEFAULT_LIFETIME, allocation_lifetime, refresh_lifetime};
