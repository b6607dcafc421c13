//! A TURN server.

ghost use Rattle.std.specs.Prelude.{◌≡◌, ◌<◌, ◌≤◌, ◌^◌, [], None, IfOk, MatchOption, length, map};
ghost use Rattle.std.specs.List.Sorted.{IsPermutation};
ghost use Rattle.turn_machine.specs.Relays.{Rules};
ghost use Rattle.turn_machine.specs.Events.{ends, ends_user, ticks, nothing};
ghost use Rattle.turn_machine.specs.Flows.{flow_of};
ghost use Rattle.turn_machine.specs.Reserving.{plain};
ghost use Rattle.turn_machine.specs.Runs.{initial_state};
ghost use Rattle.turn_slots.specs.Users.{user_number};
ghost use Rattle.turn_allocations.specs.Setups.{setup_of, with_limits};
ghost use Rattle.turn_reservations.specs.Calls.{IsNextDue, IsOuterStep};
ghost use Rattle.turn_relays.specs.Iterating.{relayed_left};
ghost use Rattle.turn_relays.specs.Shown.{relayed_of};
ghost use Rattle.turn_server.specs.Access.{nonces_at};
ghost use Rattle.turn_server.specs.ChannelMessages.{last_channel};
ghost use Rattle.turn_server.specs.Judging.{needs_key as asks_for_key};

use crate::Access;
use crate::judging::needs_key;
use std::alloc::{AllocError, Global};
use std::marker::Model;
use stun_endpoints::{Endpoint, FiveTuple};
use turn_allocations::{Flow, Iter, Limits};
use turn_reservations::ReservingAllocations;
use turn_slots::UserId;

/// A TURN server without sockets and without a clock (RFC 8656): its allocations, each relayed address with
/// at most `P` permissions and `C` channels.
///
/// Each call that changes something takes the caller's clock, a monotonic one: nanoseconds since a beginning
/// of its choice. A clock that steps back counts as stopped. Each such call first ends what has expired, even
/// for a datagram that is dropped: [`TurnServer::ended`] returns the numbers of the sockets that the last
/// call ended, which the caller closes.
///
/// No call but [`TurnServer::new`] takes memory that it keeps: a user's key is looked up, and a response
/// written, with memory that is given back.
///
/// DONT-FRAGMENT is comprehended with `Limits::dont_fragment`, and news of ICMP goes to clients with
/// `Limits::icmp`.
///
/// With EVEN-PORT and its R bit a client reserves the next higher port for 30 seconds (RFC 8656, section 7.2):
/// the caller keeps its socket in a map by the token that [`Response::reserved`](crate::Response) has, until a
/// response has the token in `claimed`, or [`TurnServer::over`] returns it. Only the user that reserved the port
/// gets it, once, from any 5-tuple. There are at most `limits.reservations` at a time, none if it is 0.
///
/// # Examples
///
/// From the first request to data both ways, with a socket that is bound to 203.0.113.1:50000.
///
/// ```
/// use std::alloc::Global;
/// use std::collections::BTreeMap;
/// use std::net::SocketAddr;
/// use stun_authentication::{Logins, NonceMaker, Policy, Retry, SecurityFeatures};
/// use stun_authentication::{answer_challenge, challenge_of};
/// use stun_endpoints::{Endpoint, FiveTuple};
/// use stun_types::attribute::{PasswordAlgorithmValue, Realm};
/// use stun_types::message::{IntegrityKey, LongTermCredentials, Message, MessageClass, MessageType};
/// use stun_types::message::{MessageWriteVec, Method, StunWriteError, TransactionId};
/// use stun_types::prelude::*;
/// use turn_attrs::{RequestedTransport, XorPeerAddress, methods};
/// use turn_server::{Access, Action, Ready, Site, Sockets, TurnServer};
/// use turn_peers::Peers;
/// use turn_allocations::Limits;
///
/// // A client's request with an attribute, which answers a challenge.
/// fn signed(
///     alloc: Global,
///     method: Method,
///     id: u128,
///     attribute: &dyn AttributeWrite,
///     retry: &Retry<'_>,
/// ) -> Result<Vec<u8>, StunWriteError> {
///     let mtype = MessageType::from_class_method(MessageClass::Request, method);
///     let vector = MessageWriteVec::new(alloc);
///     let mut request = Message::builder(mtype, TransactionId::from(id), vector)?;
///     request.add_attribute(attribute)?;
///     answer_challenge(alloc, retry, "alice", "wonderland", false, &mut request)?;
///     Ok(request.finish())
/// }
///
/// // (a program draws these two numbers, and the secret)
/// let mut server: TurnServer<16, 16> = TurnServer::new(alloc, Limits::default(), [1, 2])?;
/// let secret = IntegrityKey::new(alloc, &[7; 32], None)?;
/// let access = Access {
///     nonces: NonceMaker::new(secret, SecurityFeatures::default(), 600)?,
///     realm: Realm::new(alloc, "example.org")?,
///     policy: Policy::default(),
///     software: None,
///     alternate: None,
/// };
/// let relayed = Endpoint::from("203.0.113.1:50000".parse::<SocketAddr>()?);
/// let ready = Ready { any: Some(relayed), even: Some(relayed), pair: None };
/// let none = Ready { any: None, even: None, pair: None };
/// let sockets = Sockets { ipv4: ready, ipv6: none, token: 0 };
/// let site = Site { access: &access, sockets };
/// let (name, password) = (String::from_str(alloc, "alice")?, String::from_str(alloc, "wonderland")?);
/// let users = [LongTermCredentials::new(name, password)];
/// let keys = Logins::new(&users);
/// let own: SocketAddr = "203.0.113.1:3478".parse()?;
/// let peers = Peers { denied: &[], allowed: &[], listening: &[own] };
/// let client = Endpoint::from("192.0.2.1:32853".parse::<SocketAddr>()?);
/// let from = FiveTuple { client, server: Endpoint::from(own), transport: 17 };
/// let mut buffer = [0; 1500];
///
/// // An Allocate request that isn't signed, after a second: the response is a 401.
/// let request = b"\x00\x03\x00\x08\x21\x12\xA4\x42abcdefghijkl\x00\x19\x00\x04\x11\x00\x00\x00";
/// let now = 1_000_000_000;
/// let action =
///     server.on_client_datagram(alloc, now, &from, request, &site, &keys, &peers, &mut buffer)?;
/// let Action::Response(response) = action else {
///     return Err("no response")?;
/// };
/// assert_eq!(rt; response.code, Some(401));
///
/// // The client answers it, and has an allocation: the socket is kept by its number.
/// let refused = Message::from_bytes(&buffer[..response.written?])?;
/// let retry = challenge_of(&refused, &[PasswordAlgorithmValue::MD5], None, false)?;
/// let retry = retry.into_owned(alloc)?;
/// let request = signed(alloc, methods::ALLOCATE, 2, &RequestedTransport::new(17), &retry)?;
/// let action =
///     server.on_client_datagram(alloc, now, &from, &request, &site, &keys, &peers, &mut buffer)?;
/// let Action::Response(response) = action else {
///     return Err("no response")?;
/// };
/// let opened = response.opened.ipv4.ok_or("no allocation")?;
/// assert!(rt; response.code.is_none() && opened.relayed == relayed);
/// let mut sockets = BTreeMap::new(alloc);
/// assert!(rt; sockets.insert(opened.number, "the socket at 203.0.113.1:50000").is_ok());
///
/// // A CreatePermission request.
/// let peer: SocketAddr = "198.51.100.7:4000".parse()?;
/// let permitted = XorPeerAddress::new(peer, TransactionId::from(3));
/// let request = signed(alloc, methods::CREATE_PERMISSION, 3, &permitted, &retry)?;
/// let action =
///     server.on_client_datagram(alloc, now, &from, &request, &site, &keys, &peers, &mut buffer)?;
/// assert!(rt; matches!(action, Action::Response(response) if response.code.is_none()));
///
/// // A Send indication: its data goes to the peer, from that socket.
/// let sent = b"\x00\x16\x00\x18\x21\x12\xA4\x42abcdefghijkl\
///     \x00\x12\x00\x08\x00\x01\x2E\xB2\xE7\x21\xC0\x45\x00\x13\x00\x05hello\0\0\0";
/// let action =
///     server.on_client_datagram(alloc, now, &from, sent, &site, &keys, &peers, &mut buffer)?;
/// let Action::ToPeer { number, peer: to, data, .. } = action else {
///     return Err("no data")?;
/// };
/// assert!(rt; sockets.contains_key(&number) && SocketAddr::from(to) == peer);
/// assert_eq!(rt; data.of(sent), Some(b"hello".as_slice()));
///
/// // The peer answers `hi`, at that socket: the client gets it in a Data indication.
/// let mut buffer = [0; 48 + 1500];
/// buffer[48..50].copy_from_slice(b"hi");
/// let (before, _) = buffer.split_at_mut(48);
/// let id = TransactionId::from(4);
/// let delivery = server
///     .on_peer_datagram(now, number, Endpoint::from(peer), 2, id, &peers, before)
///     .ok_or("no client")?;
/// assert!(rt; delivery.to == from);
/// let indication = b"\x00\x17\x00\x14\x21\x12\xA4\x42\0\0\0\0\0\0\0\0\0\0\0\x04\
///     \x00\x12\x00\x08\x00\x01\x2E\xB2\xE7\x21\xC0\x45\x00\x13\x00\x02hi\0\0";
/// let end = 50 + usize::from(delivery.padding);
/// assert_eq!(rt; &buffer[48 - usize::from(delivery.head_length)..end], indication.as_slice());
/// ```
#[derive(Drop)]
pub struct TurnServer<const P: usize, const C: usize> {
    pub(crate) allocations: ReservingAllocations<P, C>,
}

impl<const P: usize, const C: usize> Model for TurnServer<P, C> {
    ghost use Rattle.turn_reservations.specs.Calls.{Reserving};

    ghost Value = { Reserving };

    ghost view = { λ server. server.allocations };
}

impl<const P: usize, const C: usize> TurnServer<P, C> {
    /// Makes a server with no allocation and the clock at 0. `seed` keys the hashes of clients and users: pass
    /// random numbers.
    ///
    /// It takes all memory that the server ever needs: for each of `limits.relays` 624 bytes, and 48 for each
    /// of its `P` permissions and 80 for each of its `C` channels; and 264 for each of `limits.reservations`.
    ///
    /// # Requires
    ///
    /// `limits.relays` is below 2^24, and `P` and `C` are at most 65,535.
    ///
    /// # Errors
    ///
    /// Only if an allocation of memory failed.
    pub fn new(alloc: Global, limits: Limits, seed: [u64; 2]) -> Result<Self, AllocError>
        requires relays { limits.relays < 2 ^ 24 }
        requires permissions { P ≤ 65_535 }
        requires channels { C ≤ 65_535 }
        ensures { IfOk result (λ server. server
            ≡ record {
              limits = limits;
              holding = record { state = initial_state; held = [] };
              ended = [];
              over = [];
            }) }
    {
        Ok(TurnServer {
            allocations: ReservingAllocations::new(alloc, limits, seed)?,
        })
    }

    /// Returns what the caller set last.
    pub fn limits(&self) -> Limits
        ensures { result ≡ self.now.limits }
    {
        self.allocations.limits()
    }

    /// Replaces the limits, but `relays` and `reservations`, for which the server has taken memory. What was
    /// granted stays: a user who now has more relayed addresses than `relays_per_user` gets no other one, and a
    /// lifetime counts until it is refreshed. The [laws](crate::datagrams_are_warranted) are about runs in
    /// which the limits stay.
    pub fn set_limits(&mut self, limits: Limits)
        ensures { self.new ≡ record self.old { limits = with_limits self.old.limits limits } }
    {
        self.allocations.set_limits(limits);
    }

    /// Returns how many relayed addresses there are, with those that have expired since the last call.
    pub fn len(&self) -> usize
        ensures { result ≡ length self.now.holding.state.relays }
    {
        self.allocations.allocations().len()
    }

    /// Returns when the next relayed address or reservation expires, in nanoseconds of the caller's clock: a
    /// poll before ends nothing. `None` if there is neither.
    pub fn next_due(&self) -> Option<u128>
        ensures { MatchOption result ((self.now.holding.state.relays ≡ []) × (self.now.holding.held ≡ []))
            (λ due. IsNextDue due self.now.holding) }
    {
        self.allocations.next_due()
    }

    /// Borrows the numbers of the sockets that the last call ended, in no particular order. The caller closes
    /// the sockets that it keeps under these numbers.
    pub fn ended(&self) -> &[u64]
        ensures { result.now ≡ self.now.ended }
    {
        self.allocations.ended()
    }

    /// Iterates over the relayed addresses, for a log or an operator: each with its number, client, family, user,
    /// address, and when it expires. Those that have expired since the last call are among them. It walks over
    /// the places of all `limits.relays`, in no particular order, and takes no memory. A
    /// [`Meter`](turn_allocations::Meter) counts what each relays.
    pub fn iter(&self) -> Iter<'_, P, C>
        ensures { IsPermutation (map relayed_of self.now.holding.state.relays) (relayed_left result) }
    {
        self.allocations.allocations().iter()
    }

    /// Borrows the tokens of the reservations that expired in the last call, the newest first. The caller
    /// closes the sockets that it keeps by these tokens.
    pub fn over(&self) -> &[u64]
        ensures { result.now ≡ self.now.over }
    {
        self.allocations.over()
    }

    /// Returns whether what [`TurnServer::on_client_datagram`] does for a datagram depends on the key of
    /// its user: it is a request for the allocations, and none of the checks decides that come before the key is
    /// looked up (`stun_authentication::needs_key`). A server whose look-up takes time asks this first. It
    /// takes no memory, and of anything but such a request it reads no more than the header.
    pub fn needs_key(&self, now: u64, client: Endpoint, datagram: &[u8], access: &Access) -> bool
        ensures { result ≡ asks_for_key (last_channel self.now.limits.old_channels)
            access.now.policy (nonces_at client now access.now) datagram.now }
    {
        let old_channels = self.allocations.limits().old_channels;
        needs_key(now, client, datagram, old_channels, access)
    }

    /// Returns the flow on a channel of a client: the socket and the peer between which, until it expires, a
    /// program can relay the data of the channel in both directions without asking the server for each
    /// datagram.
    ///
    /// [`flows_last`](crate::flows_last) states what the flow promises. Ask again once a request of this client
    /// was answered with success, or after [`TurnServer::end`] or [`TurnServer::end_user`]; no other call changes
    /// it before it expires. It doesn't depend on the policy: drop the flows to a peer that becomes forbidden.
    ///
    /// Returns `None` if, at the latest moment of any call, no relayed address of the client has the channel, or
    /// there is no permission for the IP address of the peer that it is bound to. The cost doesn't depend on how
    /// many allocations there are. It takes no memory, and ends nothing.
    pub fn flow(&self, client: &FiveTuple, channel: u16) -> Option<Flow>
        ensures { result ≡ flow_of self.now.holding.state client.now channel }
    {
        self.allocations.allocations().flow(client, channel)
    }

    /// Ends the relayed address with a number, for example that of a client whose connection is closed. Ends
    /// nothing more if no relayed address has it. Reservations stay.
    pub fn end(&mut self, now: u64, number: u64)
        ensures { (rules : Rules) → IsOuterStep (setup_of self.old.limits P C) rules self.old now
            (plain (ends number)) nothing None self.new }
    {
        self.allocations.end(now, number);
    }

    /// Ends all relayed addresses of a user ([`user_of`](crate::user_of)), for example of one who is revoked.
    /// Its reservations stay: with no credentials nobody claims them.
    pub fn end_user(&mut self, now: u64, user: UserId)
        ensures { (rules : Rules) → IsOuterStep (setup_of self.old.limits P C) rules self.old now
            (plain (ends_user (user_number user))) nothing None self.new }
    {
        self.allocations.end_user(now, user);
    }

    /// Ends what has expired.
    pub fn poll(&mut self, now: u64)
        ensures { (rules : Rules) → IsOuterStep (setup_of self.old.limits P C) rules self.old now (plain ticks)
            nothing None self.new }
    {
        self.allocations.poll(now);
    }
}
