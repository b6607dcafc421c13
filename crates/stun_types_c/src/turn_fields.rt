//! The IP header of a datagram that relays data, in C's form.

ghost use Rattle.std.specs.Prelude.{◌≡◌, ◌≤◌};
ghost use Rattle.turn_server.specs.HeaderFields.{fields_for};
ghost use Rattle.stun_types_c.specs.TurnFields.{transport_type_named, version_named, number_named, bit_named, received_named, relayed_named, unsent, number_in_c, bit_in_c, fields_in_c, Sets};

use crate::call_result::{CResult, plain};
use crate::codes;
use stun_types::TransportType;
use turn_server::{IpVersion, ReceivedFields, RelayedData, SentFields, fields_to_send};

/// Fields of an IP header; 0xFFFF: not known, or the system's default.
#[repr(C)]
#[derive(Clone, Copy, Drop)]
pub struct CIpFields {
    /// The Hop Limit, or over IPv4 the TTL.
    pub hop_limit: u16,
    /// The Differentiated Services Code Point.
    pub dscp: u16,
    /// Explicit Congestion Notification.
    pub ecn: u16,
    /// 1: the DF bit, or over IPv6 no Fragment header.
    pub dont_fragment: u16,
}

/// How data came that is relayed in a UDP datagram.
#[repr(C)]
#[derive(Clone, Copy, Drop)]
pub struct CRelayed {
    /// How many bytes the datagram carries.
    pub length: usize,
    /// 0: UDP brought the data; 1: a stream.
    pub stream: u16,
    /// The family of the packet that brought it, 4 or 6.
    pub from: u16,
    /// That of the datagram.
    pub to: u16,
    /// Not 0: a Send indication with DONT-FRAGMENT brought it.
    pub dont_fragment: u16,
    /// What is known of the packet that brought it.
    pub received: CIpFields,
}

/// What C sets in the header of the datagram.
#[repr(C)]
#[derive(Clone, Copy, Drop)]
pub struct CSentFields {
    /// The fields.
    pub fields: CIpFields,
    /// 1: the datagram is sent; 0: it isn't, since its Hop Limit is used up.
    pub sends: u16,
}

/// That a field isn't known, or has the system's default.
const UNSET: u16 = 0xFFFF;

/// What brought data.
fn transport_type_of(stream: u16) -> Option<TransportType>
    ensures { result ≡ transport_type_named stream }
{
    match stream {
        0 => Some(TransportType::Udp),
        1 => Some(TransportType::Tcp),
        _ => None,
    }
}

/// The version of IP of a family.
fn version_of(family: u16) -> Option<IpVersion>
    ensures { result ≡ version_named family }
{
    match family {
        4 => Some(IpVersion::Ipv4),
        6 => Some(IpVersion::Ipv6),
        _ => None,
    }
}

/// A field that is at most this number; `None` if it is greater.
fn number_of(field: u16, most: u8) -> Option<Option<u8>>
    ensures { result ≡ number_named most field }
{
    if field == UNSET {
        Some(None)
    } else if field <= u16::from(most) {
        Some(Some(field as u8))
    } else {
        None
    }
}

/// A field that is a bit.
fn bit_of(field: u16) -> Option<Option<bool>>
    ensures { result ≡ bit_named field }
{
    match field {
        0 => Some(Some(false)),
        1 => Some(Some(true)),
        UNSET => Some(None),
        _ => None,
    }
}

/// What C knows of a packet.
fn received_of(fields: &CIpFields) -> Option<ReceivedFields>
    ensures { result ≡ received_named fields.now }
{
    Some(ReceivedFields {
        hop_limit: number_of(fields.hop_limit, 255)?,
        dscp: number_of(fields.dscp, 63)?,
        ecn: number_of(fields.ecn, 3)?,
        dont_fragment: bit_of(fields.dont_fragment)?,
    })
}

/// How data came that C relays.
fn relayed_of(named: &CRelayed) -> Option<RelayedData>
    ensures { result ≡ relayed_named named.now }
{
    Some(RelayedData {
        over: transport_type_of(named.stream)?,
        from: version_of(named.from)?,
        to: version_of(named.to)?,
        dont_fragment: named.dont_fragment != 0,
        length: named.length,
    })
}

/// A field, in C's form.
fn number_in_c(field: Option<u8>) -> u16
    ensures { result ≡ number_in_c field }
{
    match field {
        Some(field) => u16::from(field),
        None => UNSET,
    }
}

/// A bit, in C's form.
fn bit_in_c(bit: Option<bool>) -> u16
    ensures { result ≡ bit_in_c bit }
{
    match bit {
        Some(bit) => u16::from(bit),
        None => UNSET,
    }
}

/// Nothing is sent.
const UNSENT: CSentFields = CSentFields {
    fields: CIpFields {
        hop_limit: 0,
        dscp: 0,
        ecn: 0,
        dont_fragment: 0,
    },
    sends: 0,
};

/// What C sets.
fn in_c(sent: Option<SentFields>) -> CSentFields
    ensures { result ≡ fields_in_c sent }
{
    match sent {
        Some(sent) => CSentFields {
            fields: CIpFields {
                hop_limit: number_in_c(sent.hop_limit),
                dscp: u16::from(sent.dscp),
                ecn: u16::from(sent.ecn),
                dont_fragment: bit_in_c(sent.dont_fragment),
            },
            sends: 1,
        },
        None => UNSENT,
    }
}

/// Says what the IP header of a datagram has that relays data.
#[unsafe(no_mangle)]
pub extern "C" fn stun_types_turn_fields(relayed: &CRelayed, sent: &mut CSentFields) -> CResult
    ensures { Sets relayed.now result sent.new }
{
    *sent = UNSENT;
    let Some(received) = received_of(&relayed.received) else {
        return plain(codes::BAD_ARGUMENT);
    };
    let Some(relayed) = relayed_of(relayed) else {
        return plain(codes::BAD_ARGUMENT);
    };
    *sent = in_c(fields_to_send(relayed, received));
    plain(codes::OK)
}
