//! The IP header of a datagram that relays data (RFC 8656, sections 13 to 15).

ghost use Rattle.std.specs.Prelude.{◌≡◌};
ghost use Rattle.turn_server.specs.HeaderFields.{hop_limit_for, ecn_for, dont_fragment_for, fields_for};

use stun_types::TransportType;

/// The version of IP of a packet.
#[derive(Clone, Copy, Debug, PartialEq, Eq)]
pub enum IpVersion {
    /// IPv4.
    Ipv4,
    /// IPv6.
    Ipv6,
}

/// How data came that is relayed in a UDP datagram.
#[derive(Clone, Copy, Debug, PartialEq, Eq)]
pub struct RelayedData {
    /// The transport that brought it: UDP from a client or a peer, or TCP from a client.
    pub over: TransportType,
    /// The version of IP that brought it.
    pub from: IpVersion,
    /// The version of IP of the datagram.
    pub to: IpVersion,
    /// Whether a Send indication with DONT-FRAGMENT brought it, as in
    /// [`Action::ToPeer`](crate::Action::ToPeer).
    pub dont_fragment: bool,
    /// How many bytes the datagram carries: the data, and what comes before and after it.
    pub length: usize,
}

/// What is known of the IP header of the packet that brought the data.
#[derive(Clone, Copy, Debug, Default, PartialEq, Eq)]
pub struct ReceivedFields {
    /// The Hop Limit, or over IPv4 the TTL.
    pub hop_limit: Option<u8>,
    /// The Differentiated Services Code Point, six bits as a number; over TCP that of the connection.
    pub dscp: Option<u8>,
    /// Explicit Congestion Notification, two bits as a number.
    pub ecn: Option<u8>,
    /// The DF bit; over IPv6, whether the packet had no Fragment header.
    pub dont_fragment: Option<bool>,
}

/// Fields of the IP header of a UDP datagram. `None` is the system's default for what it sends.
#[derive(Clone, Copy, Debug, PartialEq, Eq)]
pub struct SentFields {
    /// The Hop Limit, or over IPv4 the TTL.
    pub hop_limit: Option<u8>,
    /// The Differentiated Services Code Point.
    pub dscp: u8,
    /// Explicit Congestion Notification.
    pub ecn: u8,
    /// The DF bit; over IPv6, whether the datagram isn't to be fragmented.
    pub dont_fragment: Option<bool>,
}

/// The hop limit of the datagram; `None` if it reaches zero.
fn hop_limit(relayed: RelayedData, received: Option<u8>) -> Option<Option<u8>>
    ensures { result ≡ hop_limit_for relayed.over relayed.from relayed.to received }
{
    match (relayed.over, relayed.from, relayed.to) {
        (TransportType::Tcp, _, _) | (_, IpVersion::Ipv4, IpVersion::Ipv4) => Some(None),
        _ => match received {
            None => Some(None),
            Some(hops) if hops > 1 => Some(Some(hops - 1)),
            Some(_) => None,
        },
    }
}

/// The ECN of the datagram.
fn ecn(over: TransportType, received: Option<u8>) -> u8
    ensures { result ≡ ecn_for over received }
{
    match over {
        TransportType::Udp => received.unwrap_or(0),
        TransportType::Tcp => 0,
    }
}

/// How many bytes a UDP datagram carries in an IPv4 packet of 1260 bytes.
const SMALL: usize = 1260 - 20 - 8;

/// Whether the datagram isn't to be fragmented.
fn dont_fragment(relayed: RelayedData, received: Option<bool>) -> Option<bool>
    ensures { result ≡ dont_fragment_for relayed.over relayed.from relayed.to relayed.dont_fragment
        relayed.length received }
{
    match (relayed.over, relayed.from, relayed.to) {
        (TransportType::Tcp, _, _) => Some(relayed.dont_fragment),
        (_, IpVersion::Ipv4, IpVersion::Ipv4) => Some(
            relayed.dont_fragment || received == Some(true),
        ),
        (_, IpVersion::Ipv6, IpVersion::Ipv4) => Some(received? && relayed.length > SMALL),
        (_, _, IpVersion::Ipv6) => received,
    }
}

/// Returns the fields of the IP header of a UDP datagram that relays data, by what is known of the packet that
/// brought the data (RFC 8656, sections 13 to 15). `None` if the Hop Limit reaches zero: the program sends
/// nothing, and as a router may send an ICMP error to the sender.
///
/// The preferred behaviour decides each field, and the alternate one if it needs what isn't known:
///
/// | | UDP, IPv4 to IPv4 (14) | UDP, from or to IPv6 (13.1 to 13.3, 14) | TCP (15) |
/// |---|---|---|---|
/// | Hop Limit, TTL | the default | one less than received, or the default | the default |
/// | DSCP | as received, or 0 (Best Effort) | as received, or 0 | the connection's, or 0 |
/// | ECN | as received, or 0 (Not-ECT) | as received, or 0 | 0 |
/// | not fragmented | by DONT-FRAGMENT or as received | as received, or the default | by DONT-FRAGMENT |
///
/// From IPv6 to IPv4 a packet of at most 1260 bytes may be fragmented (RFC 7915, section 5.1).
///
/// Other calls don't use these fields: the program sets them at its socket, and leaves all others to the system.
/// To a client over TCP no datagram goes: the header is the connection's (section 16).
///
/// # Examples
///
/// ```
/// use stun_types::TransportType;
/// use turn_server::{IpVersion, ReceivedFields, RelayedData, SentFields, fields_to_send};
///
/// let relayed = RelayedData {
///     over: TransportType::Udp,
///     from: IpVersion::Ipv4,
///     to: IpVersion::Ipv6,
///     dont_fragment: false,
///     length: 172,
/// };
/// let received = ReceivedFields { hop_limit: Some(64), dscp: Some(46), ..ReceivedFields::default() };
/// let sent = SentFields { hop_limit: Some(63), dscp: 46, ecn: 0, dont_fragment: None };
/// assert_eq!(rt; fields_to_send(relayed, received), Some(sent));
/// let last = ReceivedFields { hop_limit: Some(1), ..received };
/// assert_eq!(rt; fields_to_send(relayed, last), None);
/// ```
pub fn fields_to_send(relayed: RelayedData, received: ReceivedFields) -> Option<SentFields>
    ensures { result ≡ fields_for relayed received }
{
    Some(SentFields {
        hop_limit: hop_limit(relayed, received.hop_limit)?,
        dscp: received.dscp.unwrap_or(0),
        ecn: ecn(relayed.over, received.ecn),
        dont_fragment: dont_fragment(relayed, received.dont_fragment),
    })
}
