//! Attributes that name what a server holds: a reserved port, a connection, a token, a ticket.

use crate::attribute_types;
use stun_types::attribute::{AttributeKind, BytesAttribute, NumberAttribute, ValueBytes};

/// ACCESS-TOKEN: a token that another server has issued (RFC 7635, section 6.2). The value is any
/// bytes, at most 65535, which are borrowed or owned.
///
/// # Examples
///
/// ```
/// use stun_types::attribute::RawAttribute;
/// use stun_types::prelude::*;
/// use turn_attrs::AccessToken;
///
/// let raw = RawAttribute::from_bytes(b"\x00\x1B\x00\x05token\x00\x00\x00")?;
/// let token = AccessToken::from_raw(alloc, raw)?;
/// assert_eq!(rt; token.data(), b"token".as_slice());
/// ```
pub type AccessToken<'a> = BytesAttribute<AccessTokenKind, ValueBytes<'a>>;

/// The kind of [`AccessToken`].
pub enum AccessTokenKind {}

impl AttributeKind for AccessTokenKind {
    ghost use Rattle.std.specs.Prelude.{codes};
    ghost use Rattle.turn_attrs.specs.Turn.{ACCESS_TOKEN};

    ghost NUMBER = { ACCESS_TOKEN };

    ghost NAME = { codes "ACCESS-TOKEN" };

    const NUMBER: u16 = attribute_types::ACCESS_TOKEN;

    fn name() -> &'static str {
        "ACCESS-TOKEN"
    }
}

/// RESERVATION-TOKEN: the name of a port that is held in reserve (RFC 8656, section 18.10). The
/// value is eight bytes, here as one number, big-endian.
///
/// # Examples
///
/// ```
/// use stun_types::attribute::RawAttribute;
/// use stun_types::prelude::*;
/// use turn_attrs::ReservationToken;
///
/// // The client copies the token of the one response into another request.
/// let raw = RawAttribute::from_bytes(b"\x00\x22\x00\x08\x01\x02\x03\x04\x05\x06\x07\x08")?;
/// let token = ReservationToken::from_raw_ref(alloc, &raw)?;
/// assert_eq!(rt; token.value(), 0x0102_0304_0506_0708);
/// ```
pub type ReservationToken = NumberAttribute<ReservationTokenKind, u64>;

/// The kind of [`ReservationToken`].
pub enum ReservationTokenKind {}

impl AttributeKind for ReservationTokenKind {
    ghost use Rattle.std.specs.Prelude.{codes};
    ghost use Rattle.turn_attrs.specs.Turn.{RESERVATION_TOKEN};

    ghost NUMBER = { RESERVATION_TOKEN };

    ghost NAME = { codes "RESERVATION-TOKEN" };

    const NUMBER: u16 = attribute_types::RESERVATION_TOKEN;

    fn name() -> &'static str {
        "RESERVATION-TOKEN"
    }
}

/// CONNECTION-ID: the connection to a peer (RFC 6062, section 6.2.1). The value is four bytes,
/// big-endian.
///
/// # Examples
///
/// ```
/// use stun_types::attribute::RawAttribute;
/// use stun_types::prelude::*;
/// use turn_attrs::ConnectionId;
///
/// let raw = RawAttribute::from_bytes(b"\x00\x2A\x00\x04\x00\x00\x00\x07")?;
/// assert_eq!(rt; ConnectionId::from_raw_ref(alloc, &raw)?.value(), 7);
/// ```
pub type ConnectionId = NumberAttribute<ConnectionIdKind, u32>;

/// The kind of [`ConnectionId`].
pub enum ConnectionIdKind {}

impl AttributeKind for ConnectionIdKind {
    ghost use Rattle.std.specs.Prelude.{codes};
    ghost use Rattle.turn_attrs.specs.Turn.{CONNECTION_ID};

    ghost NUMBER = { CONNECTION_ID };

    ghost NAME = { codes "CONNECTION-ID" };

    const NUMBER: u16 = attribute_types::CONNECTION_ID;

    fn name() -> &'static str {
        "CONNECTION-ID"
    }
}

/// MOBILITY-TICKET: the ticket by which a client keeps its allocation if its address changes (RFC
/// 8016, section 3.3). The value is any bytes, at most 65535, which are borrowed or owned.
///
/// # Examples
///
/// ```
/// use stun_types::prelude::*;
/// use turn_attrs::MobilityTicket;
///
/// // The first Allocate request asks for a ticket by an empty one (RFC 8016, section 3.1.1).
/// let mut bytes = [0; 4];
/// assert_eq!(rt; MobilityTicket::new(b"")?.write_into(&mut bytes), Ok(4));
/// assert_eq!(rt; bytes, [0x80, 0x30, 0x00, 0x00]);
/// ```
pub type MobilityTicket<'a> = BytesAttribute<MobilityTicketKind, ValueBytes<'a>>;

/// The kind of [`MobilityTicket`].
pub enum MobilityTicketKind {}

impl AttributeKind for MobilityTicketKind {
    ghost use Rattle.std.specs.Prelude.{codes};
    ghost use Rattle.turn_attrs.specs.Turn.{MOBILITY_TICKET};

    ghost NUMBER = { MOBILITY_TICKET };

    ghost NAME = { codes "MOBILITY-TICKET" };

    const NUMBER: u16 = attribute_types::MOBILITY_TICKET;

    fn name() -> &'static str {
        "MOBILITY-TICKET"
    }
}
