//! The allocations of a server.

ghost use Rattle.std.specs.Prelude.{◌≡◌, ◌<◌, ◌≤◌, ◌^◌, [], length, count_by, IfOk, MatchOption, IfSome, find, map, true, ◌==◌, ◌||◌};
ghost use Rattle.std.specs.List.Sorted.{IsPermutation};
ghost use Rattle.std.specs.Option.{option_map};
ghost use Rattle.turn_slots.specs.Users.{user_number};
ghost use Rattle.turn_machine.specs.Relays.{is_of, is_users};
ghost use Rattle.turn_machine.specs.Flows.{flow_of};
ghost use Rattle.turn_machine.specs.Times.{at};
ghost use Rattle.turn_machine.specs.Runs.{initial_state};
ghost use Rattle.turn_relays.specs.Iterating.{relayed_left};
ghost use Rattle.turn_relays.specs.Shown.{relayed_of};
ghost use Rattle.turn_allocations.specs.Metering.{HavePlaces};
ghost use Rattle.turn_allocations.specs.Setups.{with_limits};
ghost use Rattle.turn_allocations.specs.Tables.{IsNextEnd};

use crate::client::client_of;
use crate::ended::Ended;
use crate::limits::Limits;
use crate::relaying::{flow_of, newest_family};
use std::alloc::{AllocError, Global};
use std::marker::Model;
use stun_endpoints::FiveTuple;
use turn_relays::{Flow, Iter, Relays, list_follows_slots, lists_have_slots};
use turn_slots::UserId;

/// The allocations of a TURN server (RFC 8656), each relayed address with at most `P` permissions and `C`
/// channels.
///
/// An allocation is identified by the client's 5-tuple, and has one relayed address, or one for IPv4 and one
/// for IPv6 (RFC 8656, section 6). Each relayed address has a number, which names its socket and is never
/// reused.
///
/// A call with `now`, in nanoseconds from a beginning of the caller's choice, advances the clock and first
/// ends what has expired. A clock that steps back counts as stopped. After the call, [`Allocations::ended`]
/// returns the numbers of the sockets that it ended, which the caller closes.
///
/// [`Allocations::new`] takes all memory; no other call allocates. Each relayed address that opens, is
/// refreshed or ends takes up to log2 of `limits.relays` steps. Apart from that, the cost of a call doesn't
/// depend on how many allocations there are; [`Allocations::iter`] alone walks over all slots. Permissions and
/// channels of a relayed address are searched one by one. CreatePermission does so for each peer, and copies
/// the permissions to the stack, 48 bytes for each of `P`, as ChannelBind does.
///
/// ```
/// use stun_endpoints::{Endpoint, FiveTuple, Ip};
/// use turn_allocations::{Allocations, Answer, Families, Limits, Request, Want};
/// use turn_peers::Peers;
/// use turn_slots::UserId;
///
/// let mut allocations = Allocations::<16, 16>::new(alloc, Limits::default(), [1, 2])?;
/// let peers = Peers { denied: &[], allowed: &[], listening: &[] };
/// let (tuple, user) = (FiveTuple::default(), UserId::from([1; 32]));
/// let peer = Endpoint { ip: Ip { family: 1, number: 0xC633_6407 }, port: 4000 };
///
/// let address = Endpoint { port: 50_000, ..Endpoint::default() };
/// let wants = Families { ipv4: Want::Ready(address), ipv6: Want::No };
/// let allocate = Request::Allocate { id: 7, lifetime: None, wants };
/// let answer = allocations.request(0, &tuple, user, allocate, &peers);
/// let Answer::Allocated { given, lifetime: 600, .. } = answer else {
///     return Err("no allocation")?;
/// };
/// let number = given.ipv4.ok_or("no relayed address")?.number;
///
/// let permit = Request::CreatePermission(&[peer]);
/// assert_eq!(rt; allocations.request(0, &tuple, user, permit, &peers), Answer::Done);
/// let to = allocations.on_send(0, &tuple, peer, false, &peers).ok_or("dropped")?;
/// assert!(rt; to.number == number && to.peer == peer);
///
/// allocations.poll(600_000_000_000);
/// assert_eq!(rt; allocations.ended(), [number].as_slice());
/// ```
#[derive(Drop)]
pub struct Allocations<const P: usize, const C: usize> {
    pub(crate) limits: Limits,
    pub(crate) relays: Relays<P, C>,
    pub(crate) ended: Ended,
}

impl<const P: usize, const C: usize> Model for Allocations<P, C> {
    ghost use Rattle.std.specs.Prelude.{◌≡◌, length};
    ghost use Rattle.turn_relays.specs.Relayed.{state_of};
    ghost use Rattle.turn_allocations.specs.Clients.{AreSound};
    ghost use Rattle.turn_allocations.specs.Tables.{Serving};

    ghost Value = { Serving };

    ghost view = { λ t. record {
      limits = t.limits;
      state = state_of t.relays;
      ended = t.ended.numbers;
    } };

    ghost invariant = { λ t. record {
      slots : length t.relays.slots ≡ t.limits.relays;
      room : t.ended.room ≡ t.limits.relays;
      sound : AreSound t.relays;
    } };
}

impl<const P: usize, const C: usize> Allocations<P, C> {
    /// Makes an empty table with the clock at 0. `seed` keys the hashes of clients and users: pass random
    /// numbers.
    ///
    /// It takes all memory that the table ever needs: for each of `limits.relays` 624 bytes, and 48 for each
    /// of `P` permissions and 80 for each of `C` channels, whether they are used or not.
    ///
    /// # Requires
    ///
    /// `limits.relays` is below 2^24, and `P` and `C` are at most 65,535.
    ///
    /// # Errors
    ///
    /// Only if an allocation of memory failed.
    pub fn new(alloc: Global, limits: Limits, seed: [u64; 2]) -> Result<Self, AllocError>
        requires relays { limits.relays < 2 ^ 24 }
        requires permissions { P ≤ 65_535 }
        requires channels { C ≤ 65_535 }
        ensures { IfOk result (λ made. made ≡ record { limits = limits; state = initial_state; ended = [] }) }
    {
        let relays = Relays::new(alloc, limits.relays, seed)?;
        let ended = Ended::new(alloc, limits.relays)?;
        Ok(Allocations {
            limits,
            relays,
            ended,
        })
    }

    /// Returns the limits that the caller passed last.
    pub fn limits(&self) -> Limits
        ensures { result ≡ self.now.limits }
    {
        self.limits
    }

    /// Replaces the limits, but `relays` and `reservations`, for which the table has taken memory. What was
    /// granted stays: a user who now has more relayed addresses than `relays_per_user` gets no other one, and a
    /// lifetime counts until it is refreshed.
    pub fn set_limits(&mut self, limits: Limits)
        ensures { self.new ≡ record self.old { limits = with_limits self.old.limits limits } }
    {
        self.limits = Limits {
            relays: self.limits.relays,
            reservations: self.limits.reservations,
            ..limits
        };
    }

    /// Returns a lower bound of the number of the next relayed address: it is above the numbers of all opened
    /// so far. So a relayed address in an answer is new, and uses the socket that was ready, if and only if
    /// its number is not below what this returned before the call.
    pub fn next_number(&self) -> u64
        ensures { result ≡ self.now.state.next }
    {
        self.relays.next_number()
    }

    /// Returns the number of relayed addresses, including those that have expired since the last call with
    /// `now`. An allocation with an address of each family counts as two.
    pub fn len(&self) -> usize
        ensures { result ≡ length self.now.state.relays }
    {
        self.relays.len()
    }

    /// Iterates over the relayed addresses, in the order of their slots. It yields each that
    /// [`Allocations::len`] counts exactly once, so also those that have expired since the last call with
    /// `now`: call [`Allocations::poll`] first to leave them out.
    ///
    /// A whole walk takes a step for each of `limits.relays` slots, however few are taken, and allocates
    /// nothing.
    ///
    /// ```
    /// use stun_endpoints::{Endpoint, FiveTuple};
    /// use turn_allocations::{Allocations, Families, Limits, Request, Want};
    /// use turn_peers::Peers;
    /// use turn_slots::UserId;
    ///
    /// let mut allocations = Allocations::<16, 16>::new(alloc, Limits::default(), [1, 2])?;
    /// let peers = Peers { denied: &[], allowed: &[], listening: &[] };
    /// let (tuple, user) = (FiveTuple::default(), UserId::from([1; 32]));
    /// let address = Endpoint { port: 50_000, ..Endpoint::default() };
    /// let wants = Families { ipv4: Want::Ready(address), ipv6: Want::No };
    /// let allocate = Request::Allocate { id: 7, lifetime: None, wants };
    /// allocations.request(0, &tuple, user, allocate, &peers);
    ///
    /// let relayed = allocations.iter().next().ok_or("no relayed address")?;
    /// assert_eq!(rt; (relayed.key.tuple, relayed.key.family), (tuple, 1));
    /// assert_eq!(rt; (relayed.user, relayed.address), (user, address));
    /// assert_eq!(rt; relayed.expires_at, 600_000_000_000);
    /// assert_eq!(rt; allocations.iter().count(), 1);
    /// ```
    pub fn iter(&self) -> Iter<'_, P, C>
        ensures { IsPermutation (map relayed_of self.now.state.relays) (relayed_left result) }
    {
        self.relays.iter()
    }

    /// Each relayed address has a place in a [`Meter`](crate::Meter) of `limits.relays`, and no other has the
    /// same: so the meter counts for each as long as it exists. The call does nothing: its contract is the law.
    pub fn numbers_have_places(&self)
        ensures { HavePlaces self.now.limits.relays self.now.state.relays }
    {
        self.relays.numbers_have_slots();
    }

    /// Returns the number of a user's relayed addresses, including those that have expired since the last
    /// call with `now`. An allocation with an address of each family counts as two.
    pub fn count_by_user(&self, user: UserId) -> usize
        ensures { result ≡ count_by (is_users (user_number user)) self.now.state.relays }
    {
        self.relays.count_by_user(user)
    }

    /// Returns when the next relayed address expires, in nanoseconds of the caller's clock, or `None` if
    /// there is none: until then [`Allocations::poll`] ends nothing.
    pub fn next_due(&self) -> Option<u128>
        ensures { MatchOption result (self.now.state.relays ≡ [])
            (λ due. IsNextEnd due self.now.state.relays) }
    {
        list_follows_slots();
        lists_have_slots();
        self.relays.next_due()
    }

    /// Borrows the numbers of the sockets that the last call with `now` ended, in no particular order. Close
    /// these sockets: the next such call clears the list.
    pub fn ended(&self) -> &[u64]
        ensures { result.now ≡ self.now.ended }
    {
        self.ended.numbers()
    }

    /// Returns the clock, in nanoseconds: the latest moment of any call.
    pub fn clock(&self) -> u128
        ensures clock { result ≡ self.now.state.clock }
        ensures early { result < 2 ^ 64 }
    {
        self.relays.clock()
    }

    /// Returns the address family, 1 for IPv4 and 2 for IPv6, of the newest relayed address that a client has
    /// at a moment. `None` if it has no allocation then. Ends nothing.
    pub fn family_of(&self, now: u64, tuple: &FiveTuple) -> Option<u8>
        ensures newest { result ≡ option_map (λ a. a.family)
            (find (is_of tuple.now) (at now self.now.state).relays) }
        ensures family { IfSome result (λ f. ((f == 1) || (f == 2)) ≡ true) }
    {
        let now = self.relays.clock().max(now as u128);
        newest_family(&client_of(&self.relays, tuple), now)
    }

    /// Returns the flow on a channel of a client: until it ends, the data of the channel can be relayed in both
    /// directions without a call for each datagram.
    ///
    /// `turn_machine::flows_are_right` states what the flow promises. Ask again once a request of the client has
    /// succeeded, or after [`Allocations::end`] or [`Allocations::end_user`]; no other call changes it before it
    /// ends. What the policy forbids is not part of it.
    ///
    /// Returns `None` if, at the latest moment of any call, no relayed address of the client has the channel, or
    /// there is no permission for the IP address of the peer that it is bound to. Ends nothing.
    ///
    /// ```
    /// use stun_endpoints::{Endpoint, FiveTuple, Ip};
    /// use turn_allocations::{Allocations, Answer, Families, Flow, Limits, Request, Want};
    /// use turn_peers::Peers;
    /// use turn_slots::UserId;
    ///
    /// let mut allocations = Allocations::<16, 16>::new(alloc, Limits::default(), [1, 2])?;
    /// let peers = Peers { denied: &[], allowed: &[], listening: &[] };
    /// let (tuple, user) = (FiveTuple::default(), UserId::from([1; 32]));
    /// let address = Endpoint { port: 50_000, ..Endpoint::default() };
    /// let wants = Families { ipv4: Want::Ready(address), ipv6: Want::No };
    /// let allocate = Request::Allocate { id: 7, lifetime: None, wants };
    /// let answer = allocations.request(0, &tuple, user, allocate, &peers);
    /// let Answer::Allocated { given, .. } = answer else {
    ///     return Err("no allocation")?;
    /// };
    /// let number = given.ipv4.ok_or("no relayed address")?.number;
    /// assert_eq!(rt; allocations.flow(&tuple, 0x4000), None);
    ///
    /// let peer = Endpoint { ip: Ip { family: 1, number: 0xC633_6407 }, port: 4000 };
    /// let bind = Request::ChannelBind { number: 0x4000, peer };
    /// assert_eq!(rt; allocations.request(1, &tuple, user, bind, &peers), Answer::Done);
    /// let flow = Flow { number, peer, expires_at: 300_000_000_001 };
    /// assert_eq!(rt; allocations.flow(&tuple, 0x4000), Some(flow));
    /// ```
    pub fn flow(&self, tuple: &FiveTuple, channel: u16) -> Option<Flow>
        ensures { result ≡ flow_of self.now.state tuple.now channel }
    {
        flow_of(&self.relays, &client_of(&self.relays, tuple), channel)
    }
}
