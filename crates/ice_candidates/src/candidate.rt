//! A candidate.

use crate::chars::is_local;
use crate::errors::LineError;
use crate::extensions::Extensions;
use crate::fields::is_in_range;
use crate::reading::read_candidate;
use std::net::IpAddr;

/// The transport protocol of a candidate.
#[derive(Clone, Copy, Debug, PartialEq, Eq)]
pub enum Transport<'a> {
    /// UDP (RFC 8839, section 5.1).
    Udp,
    /// TCP (RFC 6544). Its extension `tcptype` is among those of the candidate.
    Tcp,
    /// Another token, as it is in the line.
    Other(&'a str),
}

/// The address of a candidate.
#[derive(Clone, Copy, Debug, PartialEq, Eq)]
pub enum Address<'a> {
    /// An IP address.
    Ip(IpAddr),
    /// A name of a host, such as the `.local` name of multicast DNS that a browser shows instead of
    /// an address.
    Name(&'a str),
}

impl Address<'_> {
    ghost use Rattle.std.specs.Prelude.{◌≡◌};
    ghost use Rattle.ice_candidates.specs.Views.{is_mdns, place};

    /// Returns `true` if it is a name that ends in `.local`, which multicast DNS resolves (RFC 6762).
    pub fn is_mdns(&self) -> bool
        ensures { result ≡ is_mdns (place self.now) }
    {
        match self {
            Address::Ip(_) => false,
            Address::Name(name) => is_local(name),
        }
    }
}

/// The type of a candidate (RFC 8445, section 5.1.1).
#[derive(Clone, Copy, Debug, PartialEq, Eq)]
pub enum CandidateKind<'a> {
    /// `host`.
    Host,
    /// `srflx`.
    ServerReflexive,
    /// `prflx`.
    PeerReflexive,
    /// `relay`.
    Relayed,
    /// Another token, as it is in the line.
    Other(&'a str),
}

/// A candidate of an agent, as an attribute of SDP describes it (RFC 8839, section 5.1). Its texts
/// are borrowed from the line.
///
/// # Examples
///
/// ```
/// use ice_candidates::{Address, Candidate, CandidateKind, Extensions, Transport};
/// use std::net::{IpAddr, Ipv4Addr};
///
/// let candidate = Candidate {
///     foundation: "2",
///     component: 1,
///     transport: Transport::Udp,
///     priority: 1_694_498_815,
///     address: Address::Ip(IpAddr::V4(Ipv4Addr::new(203, 0, 113, 7))),
///     port: 54_322,
///     kind: CandidateKind::ServerReflexive,
///     related_address: Some(Address::Ip(IpAddr::V4(Ipv4Addr::new(192, 0, 2, 1)))),
///     related_port: Some(40_000),
///     extensions: Extensions::none(),
/// };
/// let text =
///     "candidate:2 1 UDP 1694498815 203.0.113.7 54322 typ srflx raddr 192.0.2.1 rport 40000";
/// assert_eq!(rt; format!(in alloc; "{candidate}")?.as_str(), text);
/// ```
#[derive(Clone, Copy, Debug, PartialEq, Eq)]
pub struct Candidate<'a> {
    /// The foundation: 1 to 32 letters, digits, `+` and `/`.
    pub foundation: &'a str,
    /// The component: 1 to 256.
    pub component: u16,
    /// The transport protocol.
    pub transport: Transport<'a>,
    /// The priority: 1 to 2^31 - 1.
    pub priority: u32,
    /// The address.
    pub address: Address<'a>,
    /// The port.
    pub port: u16,
    /// The type.
    pub kind: CandidateKind<'a>,
    /// The related address: for a server-reflexive candidate its base, for example.
    pub related_address: Option<Address<'a>>,
    /// The related port.
    pub related_port: Option<u16>,
    /// What follows: names and values, in order.
    pub extensions: Extensions<'a>,
}

impl<'a> Candidate<'a> {
    ghost use Rattle.std.specs.Prelude.{◌≡◌, IfOk, IsOkAnd, IsTrue};
    ghost use Rattle.ice_candidates.specs.Candidates.{Fields};
    ghost use Rattle.ice_candidates.specs.Reading.{Gives, read_candidate};
    ghost use Rattle.ice_candidates.specs.Grammar.{IsLine};
    ghost use Rattle.ice_candidates.specs.Texts.{is_in_range as in_range};
    ghost use Rattle.ice_candidates.specs.Views.{fields};

    /// Returns `true` if each field is in its range, so that the text of the candidate is the line of
    /// an attribute, and is read back as this candidate: the foundation, the component and the
    /// priority as their fields say, a name that is the name of a host and no IP address, and other
    /// tokens that are tokens and don't name a known transport or type. It is `true` of each candidate
    /// that [`from_line`](Candidate::from_line) returns.
    pub fn is_in_range(&self) -> bool
        ensures { result ≡ in_range (fields self.now) }
    {
        is_in_range(self)
    }

    /// Reads a candidate from the line of its attribute, with or without `a=` before it, and without
    /// the end of the line. Nothing is copied.
    ///
    /// # Errors
    ///
    /// [`LineError`], with what is expected and the offset of the first word that isn't that:
    /// `Attribute` for another attribute or none, and then the field of the grammar.
    ///
    /// # Examples
    ///
    /// ```
    /// use ice_candidates::{Candidate, CandidateKind, Wanted};
    ///
    /// let line = "a=candidate:1 1 UDP 2130706431 192.0.2.1 40000 typ host generation 0";
    /// let candidate = Candidate::from_line(line)?;
    /// assert_eq!(rt; (candidate.priority, candidate.port), (2130706431, 40000));
    /// assert_eq!(rt; candidate.kind, CandidateKind::Host);
    /// assert_eq!(rt; candidate.extensions.get("generation"), Some("0"));
    /// let error = Candidate::from_line("candidate:1 1 UDP 0 192.0.2.1 40000 typ host").err();
    /// assert_eq!(rt; error.map(|e| (e.offset, e.wanted)), Some((18, Wanted::Priority)));
    /// ```
    pub fn from_line(line: &'a str) -> Result<Self, LineError>
        ensures exact { Gives fields result (read_candidate line.now) }
        ensures line { IfOk result (λ read. IsLine line.now (fields read)) }
        ensures only { (c : Fields) → IsLine line.now c → IsOkAnd result (λ read. fields read ≡ c) }
        ensures ranges { IfOk result (λ read. IsTrue (in_range (fields read))) }
    {
        read_candidate(line)
    }
}
