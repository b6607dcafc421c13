//! Allocations with reservations.

ghost use Rattle.std.specs.Prelude.{MatchOption, ◌≡◌, ◌<◌, ◌≤◌, ◌^◌, ℕ, List, [], IfOk, None, max};
ghost use Rattle.turn_slots.specs.Users.{user_number};
ghost use Rattle.turn_machine.specs.Relays.{Rules};
ghost use Rattle.turn_machine.specs.Events.{Icmp, asks, sends, sends_on, arrives, bounces, ends, ends_user, ticks, answers, nothing};
ghost use Rattle.turn_machine.specs.Times.{at};
ghost use Rattle.turn_machine.specs.Runs.{initial_state};
ghost use Rattle.turn_machine.specs.Reserving.{plain, held_at};
ghost use Rattle.turn_allocations.specs.Answers.{answer_of};
ghost use Rattle.turn_allocations.specs.Outputs.{sending, receiving, bouncing};
ghost use Rattle.turn_allocations.specs.Requests.{asked};
ghost use Rattle.turn_allocations.specs.Setups.{rules_of, setup_of, with_limits};
ghost use Rattle.turn_allocations.specs.Tables.{IsNextEnd};
ghost use Rattle.turn_machine.specs.Reserving.{OuterState};
ghost use Rattle.turn_reservations.specs.Calls.{over_at, IsNextOver, IsNextDue, IsOuterStep};

use crate::held::Held;
use std::alloc::{AllocError, Global};
use std::marker::Model;
use stun_endpoints::{Endpoint, FiveTuple};
use turn_allocations::{Allocations, Answer, Limits, Request, ToClient, ToPeer};
use turn_peers::PeerPolicy;
use turn_slots::UserId;

/// The allocations of a TURN server that reserves ports (RFC 8656, section 7.2).
///
/// A reservation is a socket that the caller has opened, for the port after that of a relayed address. It
/// lasts 30 seconds. An Allocate request of the same user, from any 5-tuple, claims it by its token, once.
/// There are at most `limits.reservations` at a time, and at most `limits.relays_per_user` of one user.
///
/// The caller keeps a reserved socket open until a claim succeeds, which makes it a relayed address, or its
/// token is among those that [`over`](Self::over) returns: then it closes the socket. In all else this is
/// [`Allocations`].
///
/// [`new`](Self::new) takes all memory; no other call allocates. The cost of a call grows with the number of
/// reservations, and not with that of the allocations.
///
/// ```
/// use stun_endpoints::{Endpoint, FiveTuple};
/// use turn_allocations::{Answer, Limits, Refusal};
/// use turn_peers::Peers;
/// use turn_reservations::{Claim, Family, ReservingAllocations, Reserve};
/// use turn_slots::UserId;
///
/// let mut server = ReservingAllocations::<16, 16>::new(alloc, Limits::default(), [1, 2])?;
/// let peers = Peers { denied: &[], allowed: &[], listening: &[] };
/// let (alice, bob) = (UserId::from([1; 32]), UserId::from([2; 32]));
/// let first = FiveTuple::default();
/// let second = FiveTuple { transport: 17, ..first };
/// let third = FiveTuple { transport: 6, ..first };
/// let even = Endpoint { port: 50_000, ..Endpoint::default() };
/// let odd = Endpoint { port: 50_001, ..even };
/// let refused = Answer::Refused(Refusal::InsufficientCapacity);
///
/// // The pair is opened, and the same request again gets the same token.
/// let reserve = Reserve {
///     id: 7,
///     lifetime: None,
///     family: Family::Ipv4,
///     address: Some(even),
///     next: Some(odd),
///     token: 99,
/// };
/// let reply = server.reserve(0, &first, alice, reserve, &peers);
/// assert_eq!(rt; reply.token, Some(99));
/// let again = server.reserve(0, &first, alice, Reserve { token: 98, ..reserve }, &peers);
/// assert_eq!(rt; again, reply);
///
/// // Only the user that reserved the port claims it.
/// let claim = Claim { id: 8, lifetime: None, token: 99 };
/// assert_eq!(rt; server.claim(0, &third, bob, claim, &peers), refused);
/// let Answer::Allocated { given, .. } = server.claim(0, &second, alice, claim, &peers) else {
///     return Err("no allocation")?;
/// };
/// assert_eq!(rt; given.ipv4.ok_or("no relayed address")?.address, odd);
/// assert_eq!(rt; server.claim(0, &third, alice, Claim { id: 9, ..claim }, &peers), refused);
///
/// // A request that is refused, since no socket is ready, reserves nothing.
/// let fourth = FiveTuple { transport: 1, ..first };
/// let unready = Reserve { id: 12, address: None, token: 96, ..reserve };
/// assert_eq!(rt; server.reserve(0, &fourth, alice, unready, &peers).token, None);
///
/// // A port that nobody claims is over after 30 seconds.
/// let reserve = Reserve { id: 10, token: 97, ..reserve };
/// assert_eq!(rt; server.reserve(0, &third, alice, reserve, &peers).token, Some(97));
///
/// // Until then no other port is reserved with its token.
/// assert_eq!(rt; server.reserve(0, &fourth, bob, reserve, &peers).answer, refused);
/// server.poll(29_999_999_999);
/// assert!(rt; server.over().is_empty());
/// let claim = Claim { id: 11, lifetime: None, token: 97 };
/// assert_eq!(rt; server.claim(30_000_000_000, &fourth, alice, claim, &peers), refused);
/// assert_eq!(rt; server.over(), [97].as_slice());
/// ```
#[derive(Drop)]
pub struct ReservingAllocations<const P: usize, const C: usize> {
    pub(crate) allocations: Allocations<P, C>,
    pub(crate) held: Held,
}

impl<const P: usize, const C: usize> Model for ReservingAllocations<P, C> {
    ghost use Rattle.std.specs.Prelude.{◌≡◌};
    ghost use Rattle.turn_reservations.specs.Calls.{Reserving};

    ghost Value = { Reserving };

    ghost view = { λ t. record {
      limits = t.allocations.limits;
      holding = record { state = t.allocations.state; held = t.held.held };
      ended = t.allocations.ended;
      over = t.held.over;
    } };

    ghost invariant = { λ t. record { places : t.held.places ≡ t.allocations.limits.reservations } };
}

/// The earlier of the moments at which a relayed address and a reservation expire.
fn soonest(end: Option<u128>, over: Option<u128>) -> Option<u128>
    ensures { (h : OuterState)
        → MatchOption end (h.state.relays ≡ []) (λ due. IsNextEnd due h.state.relays)
        → MatchOption over (h.held ≡ []) (λ due. IsNextOver due h.held)
        → MatchOption result ((h.state.relays ≡ []) × (h.held ≡ [])) (λ due. IsNextDue due h) }
{
    match (end, over) {
        (Some(end), Some(over)) if over < end => Some(over),
        (Some(end), _) => Some(end),
        (None, over) => over,
    }
}

impl<const P: usize, const C: usize> ReservingAllocations<P, C> {
    /// Makes one with no allocation, no reservation, and the clock at 0. `seed` keys the hashes of clients and
    /// users: pass random numbers.
    ///
    /// It takes the memory of [`Allocations::new`], and 264 bytes for each of `limits.reservations`.
    ///
    /// # Requires
    ///
    /// `limits.relays` is below 2^24, and `P` and `C` are at most 65,535.
    ///
    /// # Errors
    ///
    /// Only if an allocation of memory failed.
    pub fn new(alloc: Global, limits: Limits, seed: [u64; 2]) -> Result<Self, AllocError>
        requires relays { limits.relays < 2 ^ 24 }
        requires permissions { P ≤ 65_535 }
        requires channels { C ≤ 65_535 }
        ensures { IfOk result (λ made. made ≡ record {
          limits = limits;
          holding = record { state = initial_state; held = [] };
          ended = [];
          over = [];
        }) }
    {
        let allocations = Allocations::new(alloc, limits, seed)?;
        let held = Held::new(alloc, limits.reservations)?;
        Ok(ReservingAllocations { allocations, held })
    }

    /// Returns what the caller set last.
    pub fn limits(&self) -> Limits
        ensures { result ≡ self.now.limits }
    {
        self.allocations.limits()
    }

    /// Replaces the limits, but `relays` and `reservations`, for which memory was taken. What was granted stays.
    pub fn set_limits(&mut self, limits: Limits)
        ensures { self.new ≡ record self.old { limits = with_limits self.old.limits limits } }
    {
        self.allocations.set_limits(limits);
    }

    /// Borrows the allocations, to read more of them.
    pub fn allocations(&self) -> &Allocations<P, C>
        ensures { result.now ≡ record {
          limits = self.now.limits;
          state = self.now.holding.state;
          ended = self.now.ended;
        } }
    {
        &self.allocations
    }

    /// Returns when the next relayed address or reservation expires, in nanoseconds of the caller's clock: a poll
    /// before ends nothing. `None` if there is neither.
    pub fn next_due(&self) -> Option<u128>
        ensures { MatchOption result ((self.now.holding.state.relays ≡ []) × (self.now.holding.held ≡ []))
            (λ due. IsNextDue due self.now.holding) }
    {
        soonest(self.allocations.next_due(), self.held.next_over())
    }

    /// Borrows the numbers of the sockets that the last call ended, in no particular order. The caller
    /// closes them.
    pub fn ended(&self) -> &[u64]
        ensures { result.now ≡ self.now.ended }
    {
        self.allocations.ended()
    }

    /// Borrows the tokens of the reservations that expired in the last call, the newest first. The caller
    /// closes their sockets.
    pub fn over(&self) -> &[u64]
        ensures { result.now ≡ self.now.over }
    {
        self.held.over()
    }

    /// The clock at a moment.
    pub(crate) fn clock_at(&self, now: u64) -> u128
        ensures clock { result ≡ max self.now.holding.state.clock now }
        ensures early { result < 2 ^ 64 }
    {
        self.allocations.clock().max(now as u128)
    }

    /// Ends the reservations that have expired.
    pub(crate) fn sweep(&mut self, now: u64)
        ensures { self.new ≡ record self.old {
          holding = record {
            state = self.old.holding.state;
            held = held_at now self.old.holding;
          };
          over = over_at now self.old.holding;
        } }
    {
        let clock = self.clock_at(now);
        self.held.sweep(clock);
    }

    /// Answers any other request of an authenticated user, as [`Allocations::request`] does.
    pub fn request<A: PeerPolicy>(
        &mut self,
        now: u64,
        tuple: &FiveTuple,
        user: UserId,
        request: Request<'_>,
        policy: &A,
    ) -> Answer
        ensures { IsOuterStep (setup_of self.old.limits P C)
            (rules_of (A.allows_address policy.now) (A.allows_port policy.now)) self.old now
            (plain (asks tuple.now (user_number user)
            (asked (at now self.old.holding.state) result request.entry)))
            (answers tuple.now (answer_of result)) None self.new }
    {
        self.sweep(now);
        self.allocations.request(now, tuple, user, request, policy)
    }

    /// Returns the peer that the data of a Send indication goes to, as [`Allocations::on_send`] does.
    pub fn on_send<A: PeerPolicy>(
        &mut self,
        now: u64,
        tuple: &FiveTuple,
        peer: Endpoint,
        dont_fragment: bool,
        policy: &A,
    ) -> Option<ToPeer>
        ensures { (bytes : List ℕ) → IsOuterStep (setup_of self.old.limits P C)
            (rules_of (A.allows_address policy.now) (A.allows_port policy.now)) self.old now
            (plain (sends tuple.now peer dont_fragment bytes)) (sending result bytes) None self.new }
    {
        self.sweep(now);
        self.allocations
            .on_send(now, tuple, peer, dont_fragment, policy)
    }

    /// Returns the peer that the data of a ChannelData message goes to, as
    /// [`Allocations::on_channel_data`] does.
    pub fn on_channel_data<A: PeerPolicy>(
        &mut self,
        now: u64,
        tuple: &FiveTuple,
        channel: u16,
        policy: &A,
    ) -> Option<ToPeer>
        ensures { (bytes : List ℕ) → IsOuterStep (setup_of self.old.limits P C)
            (rules_of (A.allows_address policy.now) (A.allows_port policy.now)) self.old now
            (plain (sends_on tuple.now channel bytes)) (sending result bytes) None self.new }
    {
        self.sweep(now);
        self.allocations
            .on_channel_data(now, tuple, channel, policy)
    }

    /// Returns the client that a peer's datagram goes to, as [`Allocations::on_peer_data`] does.
    pub fn on_peer_data<A: PeerPolicy>(
        &mut self,
        now: u64,
        number: u64,
        peer: Endpoint,
        policy: &A,
    ) -> Option<ToClient>
        ensures { (bytes : List ℕ) → IsOuterStep (setup_of self.old.limits P C)
            (rules_of (A.allows_address policy.now) (A.allows_port policy.now)) self.old now
            (plain (arrives number peer bytes)) (receiving result peer bytes) None self.new }
    {
        self.sweep(now);
        self.allocations.on_peer_data(now, number, peer, policy)
    }

    /// Returns the client that an ICMP packet goes to, as [`Allocations::on_icmp`] does.
    pub fn on_icmp<A: PeerPolicy>(
        &mut self,
        now: u64,
        number: u64,
        peer: Endpoint,
        icmp_type: u8,
        policy: &A,
    ) -> Option<FiveTuple>
        ensures { (icmp : Icmp) → icmp.type_number ≡ icmp_type → IsOuterStep (setup_of self.old.limits P C)
            (rules_of (A.allows_address policy.now) (A.allows_port policy.now)) self.old now
            (plain (bounces number peer icmp)) (bouncing result peer icmp) None self.new }
    {
        self.sweep(now);
        self.allocations
            .on_icmp(now, number, peer, icmp_type, policy)
    }

    /// Ends the relayed address with a number, as [`Allocations::end`] does. Reservations stay.
    pub fn end(&mut self, now: u64, number: u64)
        ensures { (rules : Rules) → IsOuterStep (setup_of self.old.limits P C) rules self.old now
            (plain (ends number)) nothing None self.new }
    {
        self.sweep(now);
        self.allocations.end(now, number);
    }

    /// Ends all relayed addresses of a user, as [`Allocations::end_user`] does. Its reservations stay.
    pub fn end_user(&mut self, now: u64, user: UserId)
        ensures { (rules : Rules) → IsOuterStep (setup_of self.old.limits P C) rules self.old now
            (plain (ends_user (user_number user))) nothing None self.new }
    {
        self.sweep(now);
        self.allocations.end_user(now, user);
    }

    /// Ends the relayed addresses and the reservations that have expired.
    pub fn poll(&mut self, now: u64)
        ensures { (rules : Rules) → IsOuterStep (setup_of self.old.limits P C) rules self.old now
            (plain ticks) nothing None self.new }
    {
        self.sweep(now);
        self.allocations.poll(now);
    }
}
