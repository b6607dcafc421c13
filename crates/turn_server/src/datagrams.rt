//! What a TURN server does with the datagrams of clients and peers, and with ICMP.

ghost use Rattle.std.specs.Prelude.{◌≡◌, ℕ, Bool, List, Option, IfOk, IsOk, OnErr, length, false};
ghost use Rattle.stun_values.specs.declared.algorithm.PasswordAlgorithmValue.{PasswordAlgorithmValue};
ghost use Rattle.stun_authentication.specs.Identities.{Who};
ghost use Rattle.stun_authentication.specs.Lookups.{UserKey};
ghost use Rattle.stun_endpoints.specs.declared.endpoints.Endpoint.{Endpoint};
ghost use Rattle.turn_allocations.specs.Outputs.{sending};
ghost use Rattle.turn_allocations.specs.Setups.{rules_of, setup_of};
ghost use Rattle.turn_server.specs.declared.access.Access.{Access as AccessIs};
ghost use Rattle.turn_server.specs.Access.{nonces_at};
ghost use Rattle.turn_server.specs.Acting.{data_act};
ghost use Rattle.turn_server.specs.Actions.{Acts, Does, IsDone};
ghost use Rattle.turn_server.specs.ChannelMessages.{last_channel};
ghost use Rattle.turn_server.specs.Delivering.{Receives};
ghost use Rattle.turn_server.specs.Icmp.{Notifies};
ghost use Rattle.turn_server.specs.Judging.{Judged as TakenFor, needs_key as asks_for_key};
ghost use Rattle.turn_server.specs.Reporting.{Tells};
ghost use Rattle.turn_server.specs.Sites.{site_of};
ghost use Rattle.turn_server.specs.Spans.{StandsAt};

use crate::delivering::deliver;
use crate::icmp::notify;
use crate::judged::Judged;
use crate::judging::judge;
use crate::responding::{answer, bind, refuse, refuse_types};
use crate::serving::serve;
use crate::{Action, Delivery, IcmpDelivery, Site, Span, TurnServer};
use std::alloc::{AllocError, Global};
use stun_authentication::LongTermKeys;
use stun_endpoints::{Endpoint, FiveTuple};
use stun_types::message::TransactionId;
use turn_allocations::ToPeer;
use turn_attrs::IcmpError;
use turn_peers::PeerPolicy;

/// Data that goes to a peer, or is dropped.
fn relayed(to: Option<ToPeer>, span: Span) -> Action
    ensures { (sets_df : Bool) (access : AccessIs) (now : ℕ) (client : Endpoint) (bytes d slice : List ℕ)
        → StandsAt span bytes d
        → Does sets_df access now client d (data_act (sending to bytes)) slice slice result }
{
    match to {
        Some(
            ToPeer {
                number,
                peer,
                dont_fragment,
            },
        ) => Action::ToPeer {
            number,
            peer,
            dont_fragment,
            data: span,
        },
        None => Action::Dropped,
    }
}

impl<const P: usize, const C: usize> TurnServer<P, C> {
    /// Handles a client's datagram: reads it, updates the allocations, and returns what the program has to do.
    /// A response is written at the start of `buffer`. Nothing else is written there.
    ///
    /// `from` is the client, the address that its datagram came to, and the protocol between them: 17
    /// for UDP, and another number, such as 6 for TCP, for a stream. What a stream is cut into counts as
    /// datagrams (`stun_framing::MessageStream::carrying`). `keys` looks a user's key up, and `policy`
    /// says which peers clients may reach now.
    ///
    /// Whatever the datagram is, what has expired ends first.
    ///
    /// The first of these that applies:
    ///
    /// - A first byte of 0x40 to 0x4F, or to 0x7F with `old_channels`, begins a ChannelData message. Its
    ///   data goes to the peer that the channel is bound to. It is dropped if it is shorter than its
    ///   length field says (RFC 8656, section 12.6). What follows the data, such as padding, is ignored.
    /// - What doesn't parse as a message is dropped, and so is a response, an indication other than Send,
    ///   and a request of another method than Binding, Allocate, Refresh, CreatePermission and
    ///   ChannelBind (RFC 8489, section 6.3).
    /// - The data of a Send indication goes to the peer that it names, with the DF bit if the indication shows
    ///   DONT-FRAGMENT, whose value is ignored. It is dropped if it shows a type below 0x8000 that isn't
    ///   comprehended, if XOR-PEER-ADDRESS or DATA is missing, or if the address is malformed (RFC 8656,
    ///   section 11.2). [`COMPREHENDED`](crate::COMPREHENDED) are the types that are comprehended, or with
    ///   `Limits::dont_fragment`
    ///   [`COMPREHENDED_WITH_DONT_FRAGMENT`](crate::COMPREHENDED_WITH_DONT_FRAGMENT).
    /// - A Binding request gets a response that isn't signed, whatever credentials it shows
    ///   (`stun_server::Reply`): success with the client's address, or a 420 if it shows a type below 0x8000
    ///   that isn't comprehended. What it shows of the types that are, such as USERNAME, is ignored (RFC
    ///   8489, section 6.3).
    /// - A request whose long-term credentials aren't accepted is refused with 400, 401 or 438, or
    ///   discarded, as `stun_authentication::authenticate_long_term` says. The response isn't signed.
    /// - A request that shows a type below 0x8000 that isn't comprehended is refused with 420, which lists
    ///   these types. It is signed, and so are all that follow.
    /// - An Allocate request from a client that has an allocation is refused with 437, unless it is the
    ///   request that opened it, which is answered again.
    /// - Any other Allocate request is refused with the first of these that applies (RFC 8656, section
    ///   7.2): 403 if the client's own address is of Teredo or 6to4 (section 21.4); 400 if
    ///   REQUESTED-TRANSPORT is missing or malformed, and 442 if it isn't UDP; 400 if LIFETIME,
    ///   REQUESTED-ADDRESS-FAMILY, EVEN-PORT, RESERVATION-TOKEN or ADDITIONAL-ADDRESS-FAMILY has another
    ///   length than its type, if RESERVATION-TOKEN is beside one of the last four others, or
    ///   ADDITIONAL-ADDRESS-FAMILY beside REQUESTED-ADDRESS-FAMILY or an EVEN-PORT with R, or if
    ///   ADDITIONAL-ADDRESS-FAMILY isn't IPv6; 440 if REQUESTED-ADDRESS-FAMILY is neither IPv4 nor IPv6, or if
    ///   the server relays none of the families that it asks for: the one of REQUESTED-ADDRESS-FAMILY, both with
    ///   ADDITIONAL-ADDRESS-FAMILY, or IPv4; 486 if the user has as many relayed addresses as one may have;
    ///   508 if there is no room; 508 if there is a RESERVATION-TOKEN, and no reservation of the user has the
    ///   token; 508 if there is an EVEN-PORT with R, and no pair of sockets is ready, the user has as many
    ///   reservations as it may have relayed addresses, there are `limits.reservations`, or one of them has the
    ///   token of the `Sockets`; and 508 if no socket is ready for a family that the server relays, with an even
    ///   port if there is an EVEN-PORT. Else it gets each relayed address that it asks for and can have, and for
    ///   each other family an ADDRESS-ERROR-CODE with the reason. With R the next higher port is reserved, and
    ///   the response has its RESERVATION-TOKEN, also if it is answered again while the reservation lasts. With a
    ///   token the relayed address is the reserved one. A request without a RESERVATION-TOKEN is refused with 300
    ///   instead of 508 if [`Access::alternate`](crate::Access) is of the client's family: an ALTERNATE-SERVER
    ///   has its address. To send all new clients there, pass no sockets.
    /// - Any other request of a client without an allocation is refused with 437, and one to another
    ///   user's allocation with 441.
    /// - It is refused with 400 if LIFETIME or REQUESTED-ADDRESS-FAMILY of a Refresh request hasn't four
    ///   bytes; if a CreatePermission request has no XOR-PEER-ADDRESS, or a malformed one; and if
    ///   CHANNEL-NUMBER or XOR-PEER-ADDRESS of a ChannelBind request is missing or malformed. A
    ///   CreatePermission request that names more than [`PEERS`](crate::PEERS) peers is refused with 508.
    /// - All others are answered as `Allocations::request` says.
    ///
    /// # Errors
    ///
    /// Only if an allocation failed, while `keys` looked for the key ([`TurnServer::needs_key`]). Nothing has
    /// changed then, and `ended` returns what it returned before. Why a response can't be written,
    /// [`Response::written`](crate::Response) says: `TooSmall` if the buffer is shorter, `OutOfMemory` if an
    /// allocation failed, and `IntegrityFailed` if the key was made for another algorithm than the response
    /// has.
    pub fn on_client_datagram<K: LongTermKeys, A: PeerPolicy>(
        &mut self,
        alloc: Global,
        now: u64,
        from: &FiveTuple,
        datagram: &[u8],
        site: &Site<'_>,
        keys: &K,
        policy: &A,
        buffer: &mut [u8],
    ) -> Result<Action, AllocError>
        ensures acts { IfOk result (Acts site.now.access.now site.now.sockets (K.key_of keys.now)
            (setup_of self.old.limits P C)
            (rules_of (A.allows_address policy.now) (A.allows_port policy.now)) from.now now datagram.now
            self.old self.new buffer.old buffer.new) }
        ensures memory { asks_for_key (last_channel self.old.limits.old_channels)
            site.now.access.now.policy (nonces_at from.now.client now site.now.access.now)
            datagram.now ≡ false → IsOk result }
        ensures err { OnErr result ((self.new ≡ self.old) × (buffer.new ≡ buffer.old)) }
    {
        let limits = self.allocations.limits();
        let (old_channels, sets_df) = (limits.old_channels, limits.dont_fragment);
        let judged = judge(
            alloc,
            now,
            from.client,
            datagram,
            old_channels,
            sets_df,
            site,
            keys,
        )?;
        Ok(self.act(alloc, now, from, judged, sets_df, site, policy, buffer))
    }

    /// Handles a peer's datagram of `length` bytes, which came to the socket that is kept by this number:
    /// returns the client that it goes to, on a channel or in a Data indication (RFC 8656, sections 11.3 and
    /// 12.7). What comes before the data is written at the end of `before`, whose rest stays: 48 bytes always
    /// have room for it.
    ///
    /// A Data indication has the transaction ID `id`, which the program draws. `policy` says which peers
    /// clients may reach now.
    ///
    /// `None` if it is dropped: no relayed address has the number, there is no permission for the peer's IP
    /// address, that address is forbidden, the message is longer than the transport to the client takes,
    /// 65507 bytes over UDP to IPv4 and 65527 to IPv6, or `before` is too short.
    pub fn on_peer_datagram<A: PeerPolicy>(
        &mut self,
        now: u64,
        number: u64,
        peer: Endpoint,
        length: usize,
        id: TransactionId,
        policy: &A,
        before: &mut [u8],
    ) -> Option<Delivery>
        ensures { Receives (setup_of self.old.limits P C)
            (rules_of (A.allows_address policy.now) (A.allows_port policy.now)) now number peer length id
            self.old self.new before.old before.new result }
    {
        let to = self.allocations.on_peer_data(now, number, peer, policy)?;
        deliver(&to, id, peer, length, before)
    }

    /// Handles an ICMP packet about a datagram that the socket that is kept by this number sent to `peer`:
    /// returns the client that it goes to (RFC 8656, section 11.5). A Data indication with the peer's address
    /// and an ICMP attribute (section 18.13) is written at the start of `buffer`, whose rest stays: 56 bytes
    /// always have room for it. It has the type and the code of the packet; and its data, the MTU of the next
    /// hop, only if the datagram was too large: with type 3 and code 4 for an IPv4 peer, and type 2 for an
    /// IPv6 peer. Otherwise the data is 0.
    ///
    /// The address and the port of `peer` are those that the datagram went to, as the packet shows them, and
    /// not those that the packet came from. The port is 0 if the program doesn't know it. The program sees
    /// first that the packet has a UDP header in it. The indication has the transaction ID `id`, which the
    /// program draws. `policy` says which peers clients may reach now.
    ///
    /// `None` if it is dropped: the server has no `Limits::icmp`, the type isn't 3 or 11 for an IPv4 peer, or
    /// 1, 2 or 3 for an IPv6 peer, no relayed address has the number, there is no permission for the peer's IP
    /// address, that address is forbidden, or `buffer` is too short. Nothing is written then.
    pub fn on_icmp<A: PeerPolicy>(
        &mut self,
        now: u64,
        number: u64,
        peer: Endpoint,
        error: IcmpError,
        id: TransactionId,
        policy: &A,
        buffer: &mut [u8],
    ) -> Option<IcmpDelivery>
        ensures { Notifies (setup_of self.old.limits P C)
            (rules_of (A.allows_address policy.now) (A.allows_port policy.now)) now number peer error id
            self.old self.new buffer.old buffer.new result }
    {
        let to = self
            .allocations
            .on_icmp(now, number, peer, error.icmp_type, policy)?;
        notify(to, id, peer, error, buffer)
    }

    /// Does what a datagram that was judged asks for.
    fn act<A: PeerPolicy>(
        &mut self,
        alloc: Global,
        now: u64,
        from: &FiveTuple,
        judged: Judged<'_>,
        sets_df: bool,
        site: &Site<'_>,
        policy: &A,
        buffer: &mut [u8],
    ) -> Action
        requires { sets_df ≡ self.old.limits.dont_fragment }
        ensures { (keys : Who → List ℕ → PasswordAlgorithmValue → Option UserKey) (d : List ℕ)
            (taken_for : TakenFor)
            → Tells (site_of site.now.access.now site.now.sockets keys from.now.client now) d taken_for judged.entry
            → IsDone site.now.access.now (setup_of self.old.limits P C)
            (rules_of (A.allows_address policy.now) (A.allows_port policy.now)) from.now now d taken_for
            self.old self.new buffer.old buffer.new result }
    {
        let access = site.access;
        let client = from.client;
        match judged {
            Judged::Dropped => {
                self.allocations.poll(now);
                Action::Dropped
            }
            Judged::Binding(request) => {
                self.allocations.poll(now);
                Action::Response(bind(&request.message, client, sets_df, buffer))
            }
            Judged::Refused(request, refusal) => {
                self.allocations.poll(now);
                let request = &request.message;
                Action::Response(refuse(alloc, access, now, client, request, refusal, buffer))
            }
            Judged::Unknown(request, accepted) => {
                self.allocations.poll(now);
                let request = &request.message;
                Action::Response(refuse_types(alloc, request, sets_df, &accepted, buffer))
            }
            Judged::Sent {
                peer,
                dont_fragment,
                data,
            } => {
                relayed(
                    self.allocations
                        .on_send(now, from, peer, dont_fragment, policy),
                    data,
                )
            }
            Judged::SentOn { channel, data } => {
                relayed(
                    self.allocations.on_channel_data(now, from, channel, policy),
                    data,
                )
            }
            Judged::Asked {
                request,
                user,
                accepted,
            } => {
                let request = &request.message;
                let next = self.allocations.allocations().next_number();
                let allocations = &mut self.allocations;
                let served = serve(allocations, now, from, user, request, &site.sockets, policy);
                Action::Response(answer(
                    alloc, access, client, request, served, next, &accepted, buffer,
                ))
            }
        }
    }
}
