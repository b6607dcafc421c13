//! What a program does for a datagram.

use stun_endpoints::{Endpoint, FiveTuple};
use stun_types::message::StunWriteError;
use turn_allocations::Families;

/// What a program does for a client's datagram.
#[derive(Clone, Copy, Debug, PartialEq, Eq)]
pub enum Action {
    /// It sends nothing.
    Dropped,
    /// It sends a response, which is at the start of the buffer, to the client, from the address that
    /// the datagram came to.
    Response(Response),
    /// It sends data of the datagram to a peer, from the socket that it keeps by this number, with the DF
    /// bit if `dont_fragment` is set (RFC 8656, sections 14 and 15). For a client over UDP that holds from
    /// IPv4 to IPv4: if one of both addresses is of IPv6, the program ignores `dont_fragment` (section 13).
    /// [`fields_to_send`](crate::fields_to_send) has this rule, and those of other fields of the IP header.
    ToPeer {
        number: u64,
        peer: Endpoint,
        dont_fragment: bool,
        data: Span,
    },
}

/// A part of a datagram.
#[derive(Clone, Copy, Debug, PartialEq, Eq)]
pub struct Span {
    /// The offset of its first byte.
    pub at: usize,
    /// How many bytes it has.
    pub length: usize,
}

impl Span {
    ghost use Rattle.std.specs.Prelude.{◌≡◌, ◌+◌, ◌<◌, MatchOption, length, slice_range};

    /// Borrows the bytes of a datagram that the span covers. `None` if the datagram is shorter.
    pub fn of<'d>(&self, datagram: &'d [u8]) -> Option<&'d [u8]>
        ensures { MatchOption result (length datagram.now < self.now.at + self.now.length)
            (λ part. part.now ≡ slice_range datagram.now self.now.at (self.now.at + self.now.length)) }
    {
        datagram.get(self.at..self.at.checked_add(self.length)?)
    }
}

/// A response to a client.
#[derive(Clone, Copy, Debug, PartialEq, Eq)]
pub struct Response {
    /// How many bytes it has, or why it isn't in the buffer. The request has taken effect all the
    /// same: the client sends it again.
    pub written: Result<usize, StunWriteError>,
    /// The code of an error response; `None` of a success response.
    pub code: Option<u16>,
    /// For each address family the socket that the request opened a relayed address with, if it did.
    pub opened: Families<Option<Opened>>,
    /// The token of the socket that the request reserved, if it did. The program keeps the socket of
    /// [`Pair::next`](crate::Pair) in a map by this token until a response has the token in `claimed`, or
    /// `TurnServer::over` returns it, and has another pair ready for the next call.
    pub reserved: Option<u64>,
    /// The token of the reserved socket that the request claimed, if it did: the program takes the socket
    /// that it keeps by this token. It is the one in `opened`.
    pub claimed: Option<u64>,
}

/// A socket that was ready, or reserved, and is a relayed address's from now on. The program keeps it in a map by
/// `number`, which no other ever has, until `TurnServer::ended` returns it, and has another one ready for
/// the next call.
#[derive(Clone, Copy, Debug, PartialEq, Eq)]
pub struct Opened {
    /// The number by which [`Action::ToPeer`], `TurnServer::on_peer_datagram` and `TurnServer::ended`
    /// name the socket.
    pub number: u64,
    /// The socket's address, as it was offered.
    pub relayed: Endpoint,
}

/// Where data of a peer goes, with what comes before and after it: the head is at the end of the
/// buffer before the data, and zeros follow the data.
#[derive(Clone, Copy, Debug, PartialEq, Eq)]
pub struct Delivery {
    /// The client, the address that the message comes from, and the protocol.
    pub to: FiveTuple,
    /// How many bytes come before the data, at most 48.
    pub head_length: u16,
    /// How many zeros follow it, at most 3.
    pub padding: u16,
}

/// Where news of an ICMP packet goes: a Data indication, which is at the start of the buffer.
#[derive(Clone, Copy, Debug, PartialEq, Eq)]
pub struct IcmpDelivery {
    /// The client, the address that the message comes from, and the protocol.
    pub to: FiveTuple,
    /// How many bytes the message has, at most 56.
    pub length: usize,
}
