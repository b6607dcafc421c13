//! Allocate requests that reserve a port or claim one (RFC 8656, sections 7.2, 18.7 and 18.10).

ghost use Rattle.std.specs.Prelude.{filter, not, is_some, ◌≡◌, ◌<◌, ◌^◌, ◌==◌, ℕ, Bool, [], IfSome, None, Some, length, find, ◌∷◌, true, ◌||◌, if◌then◌else◌};
ghost use Rattle.std.specs.Option.{option_map, option_map_or};
ghost use Rattle.stun_endpoints.specs.declared.endpoints.FiveTuple.{FiveTuple};
ghost use Rattle.turn_slots.specs.Users.{user_number};
ghost use Rattle.turn_machine.specs.Relays.{State, is_of};
ghost use Rattle.turn_machine.specs.Events.{answers};
ghost use Rattle.turn_machine.specs.Times.{at};
ghost use Rattle.turn_machine.specs.Reserving.{can_reserve, claimed_want, held_at, no_want, is_claim, is_reserved_by, is_success, is_token};
ghost use Rattle.turn_allocations.specs.declared.families.Families.{Families};
ghost use Rattle.turn_allocations.specs.Answers.{answer_of};
ghost use Rattle.turn_allocations.specs.Requests.{wants_of};
ghost use Rattle.turn_allocations.specs.Setups.{rules_of, setup_of};
ghost use Rattle.turn_reservations.specs.Calls.{IsOuterStep};
ghost use Rattle.turn_reservations.specs.Held.{family_number};
ghost use Rattle.turn_reservations.specs.Requests.{want_in, number_for, with_reserved, reserving, claiming};

use crate::allocations::ReservingAllocations;
use crate::held::{Held, Reserved};
use crate::requests::{Claim, Family, Reply, Reserve, family_of, wants_in};
use stun_endpoints::{Endpoint, FiveTuple};
use turn_allocations::{Answer, Families, Limits, Request, Want};
use turn_peers::PeerPolicy;
use turn_slots::UserId;

/// How long a reservation lasts, in nanoseconds.
const LASTING: u128 = 30_000_000_000;

/// The next port's address, if it can be reserved for a user, with the token.
fn place_for(held: &Held, limits: &Limits, user: UserId, reserve: &Reserve) -> Option<Endpoint>
    ensures place { (permissions channels : ℕ) → result
        ≡ if can_reserve (setup_of limits.now permissions channels) (user_number user) reserve.now.next
        reserve.now.token held.now.held then reserve.now.next else None }
    ensures room { IfSome result (λ _. length held.now.held < limits.now.reservations) }
{
    let has_place = held.count_of(user) < limits.relays_per_user as usize
        && held.len() < limits.reservations as usize;
    if has_place && !held.has_token(reserve.token) {
        reserve.next
    } else {
        None
    }
}

/// The family that a request with an unknown token asks for.
fn unready_family(family: Option<u8>, limits: &Limits) -> Family
    requires { IfSome family (λ f. ((f == 1) || (f == 2)) ≡ true) }
    ensures { (tuple : FiveTuple) (state : State) (permissions channels : ℕ)
        → family ≡ option_map (λ a. a.family) (find (is_of tuple) state.relays)
        → family_number result ≡ (no_want (setup_of limits.now permissions channels) tuple state).family }
{
    match family {
        Some(family) => family_of(family),
        None if limits.families.ipv4 => Family::Ipv4,
        None => Family::Ipv6,
    }
}

/// What a request that reserves asks for: its socket, if the next port can be reserved.
fn pair_wants(reserve: &Reserve, next: Option<Endpoint>) -> Families<Want>
    ensures { (is_open : Bool) (numbers : Families ℕ) → wants_of is_open numbers result
        ≡ want_in is_open numbers (family_number reserve.now.family)
        (if is_some next then reserve.now.address else None) ∷ [] }
{
    match next {
        Some(_) => wants_in(reserve.family, reserve.address),
        None => wants_in(reserve.family, None),
    }
}

/// What a request with a token asks for.
fn claimed_wants(
    held: &Held,
    limits: &Limits,
    user: UserId,
    token: u64,
    family: Option<u8>,
) -> Families<Want>
    requires { IfSome family (λ f. ((f == 1) || (f == 2)) ≡ true) }
    ensures { (tuple : FiveTuple) (state : State) (permissions channels : ℕ) (is_open : Bool)
        (numbers : Families ℕ) → family ≡ option_map (λ a. a.family) (find (is_of tuple) state.relays)
        → wants_of is_open numbers result
        ≡ claimed_want (setup_of limits.now permissions channels) tuple (user_number user) token
        (number_for is_open numbers (find (is_claim (user_number user) token) held.now.held)) state
        held.now.held ∷ [] }
{
    match held.claimed(user, token) {
        Some(reserved) => wants_in(reserved.family, Some(reserved.address)),
        None => wants_in(unready_family(family, limits), None),
    }
}

/// The address of what is reserved, if the request opens an allocation.
fn if_opening(is_opening: bool, next: Option<Endpoint>) -> Option<Endpoint>
    ensures { result ≡ if is_opening then next else None }
{
    if is_opening { next } else { None }
}

/// Reserves a port, if there is one.
fn keep(
    held: &mut Held,
    clock: u128,
    tuple: &FiveTuple,
    user: UserId,
    reserve: &Reserve,
    next: Option<Endpoint>,
)
    requires room { IfSome next (λ _. length held.old.held < held.old.places) }
    requires early { clock < 2 ^ 64 }
    ensures { held.new ≡ record held.old {
      held = with_reserved clock tuple.now (user_number user) reserve.now next held.old.held;
    } }
{
    if let Some(address) = next {
        held.insert(Reserved {
            token: reserve.token,
            user,
            tuple: *tuple,
            id: reserve.id,
            family: reserve.family,
            address,
            expires_at: clock + LASTING,
        });
    }
}

/// Uses up a token, if the request opened an allocation.
fn use_up(held: &mut Held, is_opening: bool, token: u64)
    ensures { held.new ≡ record held.old {
      held = if is_opening then filter (λ r. not (is_token token r)) held.old.held else held.old.held;
    } }
{
    if is_opening {
        held.remove(token);
    }
}

/// The token of a success response.
fn token_for(
    held: &Held,
    is_success: bool,
    tuple: &FiveTuple,
    user: UserId,
    id: u128,
) -> Option<u64>
    ensures { result ≡ if is_success
        then option_map_or (λ r. Some r.token) (find (is_reserved_by tuple.now (user_number user) id) held.now.held) None
        else None }
{
    if is_success {
        held.token_of(tuple, user, id)
    } else {
        None
    }
}

/// Whether an answer is a success response to Allocate.
fn is_success(answer: &Answer) -> bool
    ensures { (tuple : FiveTuple) → result ≡ is_success (answers tuple (answer_of answer.now)) }
{
    matches!(answer, Answer::Allocated { .. })
}

impl<const P: usize, const C: usize> ReservingAllocations<P, C> {
    /// Answers an Allocate request of an authenticated user that reserves the next higher port (RFC 8656,
    /// sections 7.2 and 18.7).
    ///
    /// If it opens an allocation, the port is reserved for 30 seconds: keep its socket open if the reply has
    /// the token that you passed. The same request again gets the first answer and the first token, and uses
    /// neither socket.
    ///
    /// Refuses as [`request`](Self::request) does, and with 508 if there is no socket for the next port, if
    /// the user has as many reservations as it may have relayed addresses, if there are
    /// `limits.reservations`, or if one of them has the token. A request that is refused changes nothing.
    pub fn reserve<A: PeerPolicy>(
        &mut self,
        now: u64,
        tuple: &FiveTuple,
        user: UserId,
        reserve: Reserve,
        policy: &A,
    ) -> Reply
        ensures { IsOuterStep (setup_of self.old.limits P C)
            (rules_of (A.allows_address policy.now) (A.allows_port policy.now)) self.old now
            (reserving (at now self.old.holding.state) result.answer tuple.now (user_number user) reserve)
            (answers tuple.now (answer_of result.answer)) result.token self.new }
    {
        self.sweep(now);
        let clock = self.clock_at(now);
        let limits = self.allocations.limits();
        let family = self.allocations.family_of(now, tuple);
        let next = place_for(&self.held, &limits, user, &reserve);
        let allocate = Request::Allocate {
            id: reserve.id,
            lifetime: reserve.lifetime,
            wants: pair_wants(&reserve, next),
        };
        let answer = self.allocations.request(now, tuple, user, allocate, policy);
        let is_success = is_success(&answer);
        let opened = if_opening(family.is_none() & is_success, next);
        keep(&mut self.held, clock, tuple, user, &reserve, opened);
        let token = token_for(&self.held, is_success, tuple, user, reserve.id);
        Reply { answer, token }
    }

    /// Answers an Allocate request of an authenticated user that claims a reserved port by its token (RFC
    /// 8656, sections 7.2 and 18.10).
    ///
    /// If it opens an allocation, the reserved socket is its relayed address, and the token is used up.
    ///
    /// Refuses as [`request`](Self::request) does, and with 508 if no reservation of the user has the token.
    /// A request that is refused leaves the token valid.
    pub fn claim<A: PeerPolicy>(
        &mut self,
        now: u64,
        tuple: &FiveTuple,
        user: UserId,
        claim: Claim,
        policy: &A,
    ) -> Answer
        ensures { IsOuterStep (setup_of self.old.limits P C)
            (rules_of (A.allows_address policy.now) (A.allows_port policy.now)) self.old now
            (claiming (at now self.old.holding.state) (held_at now self.old.holding) result tuple.now
            (user_number user) claim)
            (answers tuple.now (answer_of result)) None self.new }
    {
        self.sweep(now);
        let limits = self.allocations.limits();
        let family = self.allocations.family_of(now, tuple);
        let allocate = Request::Allocate {
            id: claim.id,
            lifetime: claim.lifetime,
            wants: claimed_wants(&self.held, &limits, user, claim.token, family),
        };
        let answer = self.allocations.request(now, tuple, user, allocate, policy);
        let is_opening = family.is_none() & is_success(&answer);
        use_up(&mut self.held, is_opening, claim.token);
        answer
    }
}
