//! What happens to the allocations: requests, data, ICMP packets, ends, and the time that passes.

ghost use Rattle.std.specs.Prelude.{◌≡◌, ℕ, List};
ghost use Rattle.turn_slots.specs.Users.{user_number};
ghost use Rattle.turn_machine.specs.Relays.{Rules};
ghost use Rattle.turn_machine.specs.Events.{Icmp, asks, sends, sends_on, arrives, bounces, ends, ends_user, ticks, answers, nothing};
ghost use Rattle.turn_machine.specs.Times.{at};
ghost use Rattle.turn_allocations.specs.Answers.{answer_of};
ghost use Rattle.turn_allocations.specs.Outputs.{sending, receiving, bouncing};
ghost use Rattle.turn_allocations.specs.Requests.{asked};
ghost use Rattle.turn_allocations.specs.Setups.{rules_of, setup_of};
ghost use Rattle.turn_allocations.specs.Tables.{IsStep};

use crate::allocations::Allocations;
use crate::answer::Answer;
use crate::relaying::{ToClient, ToPeer, bounce, receive, send, send_on};
use crate::request::Request;
use crate::serving::serve;
use crate::sweeping::{end_number, end_users, sweep};
use stun_endpoints::{Endpoint, FiveTuple};
use turn_peers::PeerPolicy;
use turn_slots::UserId;

impl<const P: usize, const C: usize> Allocations<P, C> {
    /// Answers a request of an authenticated user (RFC 8656, sections 7.2, 8.2, 10.2 and 12.2).
    ///
    /// A request is refused with the first code that applies, and a refused request changes nothing.
    ///
    /// Allocate: 437 if the client has an allocation, unless this user opened it with this transaction ID;
    /// 440 if the server relays none of the families that the request asks for; 486 if the user has `relays_per_user`
    /// relayed addresses; 508 if the server has `relays` relayed addresses, or no socket is ready for a
    /// family that it relays, or numbers are used up, after at least 2^38 allocations. Otherwise the client
    /// gets each relayed address that it asks for and can have, for LIFETIME, but at least 600 seconds and at
    /// most `greatest_lifetime`, or 600 without LIFETIME. A retransmission, which has the
    /// user and the transaction ID of the first request, is answered with what the client has.
    ///
    /// All other requests: 437 if the client has no allocation, and 441 if it is another user's.
    ///
    /// Refresh: 443 if the client has no relayed address of the family that the request names. A lifetime of
    /// 0 ends the relayed address of that family, or all without a family; any other is bounded as for
    /// Allocate.
    ///
    /// CreatePermission: 508 if there are more than 64 peers; 443 if the client has no relayed address of a
    /// peer's family; 403 if a peer's IP address is forbidden; 508 if there is no room for all permissions.
    /// They last 300 seconds.
    ///
    /// ChannelBind: 400 if the channel number is out of range, or it is bound to another peer, or the peer to
    /// another number; 443 if the client has no relayed address of the peer's family; 403 if the peer's IP
    /// address or port is forbidden; 508 if there is no room for the permission or the channel. The channel
    /// lasts 600 seconds.
    ///
    /// The policy forbids an IP address or a port; Teredo and 6to4 addresses are always forbidden.
    pub fn request<A: PeerPolicy>(
        &mut self,
        now: u64,
        tuple: &FiveTuple,
        user: UserId,
        request: Request<'_>,
        policy: &A,
    ) -> Answer
        ensures { IsStep (setup_of self.old.limits P C)
            (rules_of (A.allows_address policy.now) (A.allows_port policy.now)) self.old now
            (asks tuple.now (user_number user) (asked (at now self.old.state) result request.entry))
            (answers tuple.now (answer_of result)) self.new }
    {
        sweep(&mut self.relays, &mut self.ended, now);
        serve(
            &mut self.relays,
            &mut self.ended,
            &self.limits,
            tuple,
            user,
            request,
            policy,
        )
    }

    /// Returns where the data of a Send indication goes (RFC 8656, section 11.2). `dont_fragment` is whether
    /// the indication has DONT-FRAGMENT.
    ///
    /// Returns `None` if the data is dropped: the client has no relayed address of the peer's family, or no
    /// permission for the peer's IP address, or the peer's IP address or port is forbidden, or the indication
    /// has DONT-FRAGMENT and the server can't set the DF bit.
    pub fn on_send<A: PeerPolicy>(
        &mut self,
        now: u64,
        tuple: &FiveTuple,
        peer: Endpoint,
        dont_fragment: bool,
        policy: &A,
    ) -> Option<ToPeer>
        ensures { (bytes : List ℕ) → IsStep (setup_of self.old.limits P C)
            (rules_of (A.allows_address policy.now) (A.allows_port policy.now)) self.old now
            (sends tuple.now peer dont_fragment bytes) (sending result bytes) self.new }
    {
        sweep(&mut self.relays, &mut self.ended, now);
        send(
            &self.relays,
            &self.limits,
            tuple,
            peer,
            dont_fragment,
            policy,
        )
    }

    /// Returns where the data of a ChannelData message goes (RFC 8656, section 12.6).
    ///
    /// Returns `None` if the data is dropped: the channel isn't bound, or the peer's IP address or port is
    /// forbidden. The client needs no permission, as section 12.6 requires none.
    pub fn on_channel_data<A: PeerPolicy>(
        &mut self,
        now: u64,
        tuple: &FiveTuple,
        channel: u16,
        policy: &A,
    ) -> Option<ToPeer>
        ensures { (bytes : List ℕ) → IsStep (setup_of self.old.limits P C)
            (rules_of (A.allows_address policy.now) (A.allows_port policy.now)) self.old now
            (sends_on tuple.now channel bytes) (sending result bytes) self.new }
    {
        sweep(&mut self.relays, &mut self.ended, now);
        send_on(&self.relays, tuple, channel, policy)
    }

    /// Returns where a peer's datagram goes (RFC 8656, sections 11.3 and 12.7). `number` is that of the
    /// socket that received it, and `peer` its source.
    ///
    /// Returns `None` if the datagram is dropped: no relayed address has the number, or there is no
    /// permission for the peer's IP address, or that address is forbidden. Its port is not checked.
    pub fn on_peer_data<A: PeerPolicy>(
        &mut self,
        now: u64,
        number: u64,
        peer: Endpoint,
        policy: &A,
    ) -> Option<ToClient>
        ensures { (bytes : List ℕ) → IsStep (setup_of self.old.limits P C)
            (rules_of (A.allows_address policy.now) (A.allows_port policy.now)) self.old now
            (arrives number peer bytes) (receiving result peer bytes) self.new }
    {
        sweep(&mut self.relays, &mut self.ended, now);
        receive(&self.relays, number, peer, policy)
    }

    /// Returns the 5-tuple of the client that an ICMP packet goes to, in a Data indication with an ICMP
    /// attribute (RFC 8656, section 11.5). The packet is about a datagram that the socket with this number
    /// sent to `peer`.
    ///
    /// Returns `None` if the packet is dropped: the server doesn't relay ICMP; or the type isn't 3 or 11 for
    /// an IPv4 peer, or 1, 2 or 3 for an IPv6 peer; or no relayed address has the number; or there is no
    /// permission for the peer's IP address, or that address is forbidden.
    pub fn on_icmp<A: PeerPolicy>(
        &mut self,
        now: u64,
        number: u64,
        peer: Endpoint,
        icmp_type: u8,
        policy: &A,
    ) -> Option<FiveTuple>
        ensures { (icmp : Icmp) → icmp.type_number ≡ icmp_type → IsStep (setup_of self.old.limits P C)
            (rules_of (A.allows_address policy.now) (A.allows_port policy.now)) self.old now
            (bounces number peer icmp) (bouncing result peer icmp) self.new }
    {
        sweep(&mut self.relays, &mut self.ended, now);
        bounce(&self.relays, &self.limits, number, peer, icmp_type, policy)
    }

    /// Ends the relayed address with a number, for example if the client's connection is closed, and those
    /// that have expired. An allocation with an address of each family has two numbers. A number that no
    /// relayed address has ends nothing.
    pub fn end(&mut self, now: u64, number: u64)
        ensures { (rules : Rules) → IsStep (setup_of self.old.limits P C) rules self.old now (ends number)
            nothing self.new }
    {
        sweep(&mut self.relays, &mut self.ended, now);
        end_number(&mut self.relays, &mut self.ended, number);
    }

    /// Ends all relayed addresses of a user, for example if the user is revoked, and those that have expired.
    pub fn end_user(&mut self, now: u64, user: UserId)
        ensures { (rules : Rules) → IsStep (setup_of self.old.limits P C) rules self.old now
            (ends_user (user_number user)) nothing self.new }
    {
        sweep(&mut self.relays, &mut self.ended, now);
        end_users(&mut self.relays, &mut self.ended, user);
    }

    /// Ends all relayed addresses that have expired. Call it at [`Allocations::next_due`] or later.
    pub fn poll(&mut self, now: u64)
        ensures { (rules : Rules) → IsStep (setup_of self.old.limits P C) rules self.old now ticks nothing
            self.new }
    {
        sweep(&mut self.relays, &mut self.ended, now);
    }
}
