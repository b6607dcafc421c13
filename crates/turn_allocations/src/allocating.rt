//! Allocate requests (RFC 8656, section 7.2).

ghost use Rattle.std.specs.Prelude.{◌≡◌, ◌+◌, ◌*◌, ◌<◌, ◌≤◌, ◌^◌, ◌&&◌, ◌||◌, ◌==◌, ℕ, Bool, [], ◌∷◌, Option, true, false, length, IfNone};
ghost use Rattle.std.specs.List.{list_any};
ghost use Rattle.std.specs.Option.{option_map};
ghost use Rattle.stun_endpoints.specs.declared.endpoints.FiveTuple.{FiveTuple};
ghost use Rattle.turn_slots.specs.Deadlines.{never};
ghost use Rattle.turn_slots.specs.Numbers.{rounds};
ghost use Rattle.turn_slots.specs.Users.{user_number};
ghost use Rattle.turn_machine.specs.Relays.{Setup, Rules, State, seconds, is_for, has_room, has_quota};
ghost use Rattle.turn_machine.specs.Events.{Offer, allocate};
ghost use Rattle.turn_machine.specs.Opening.{has_of, can_open, allocation_answer, missing_to};
ghost use Rattle.turn_machine.specs.Rows.{is_offered, is_ready, allocate_rows};
ghost use Rattle.turn_machine.specs.Times.{left_of};
ghost use Rattle.turn_relays.specs.Relayed.{Table, Each, state_of};
ghost use Rattle.turn_allocations.specs.Answers.{code_of, answer_of, missing_in};
ghost use Rattle.turn_allocations.specs.Clients.{AreSound, Owns, lifetime_max};
ghost use Rattle.turn_allocations.specs.Ending.{Numbers};
ghost use Rattle.turn_allocations.specs.Requests.{has_numbers, number_to, numbers_in, wants_in, wants_of, OpensOf, Grants};
ghost use Rattle.turn_allocations.specs.Serving.{Serves};
ghost use Rattle.turn_allocations.specs.Setups.{setup_of, supports};

use crate::answer::{Answer, Refusal};
use crate::client::{Client, client_of};
use crate::families::Families;
use crate::limits::Limits;
use crate::request::Want;
use stun_endpoints::FiveTuple;
use turn_machine::allocation_lifetime;
use turn_relays::{Relays, list_follows_slots, lists_have_slots};
use turn_slots::{RelayKey, UserId};

/// Nanoseconds of a second.
const SECOND: u128 = 1_000_000_000;

/// The client, the user and the transaction ID of an Allocate request.
#[derive(Clone, Copy)]
pub(crate) struct Asking {
    pub(crate) tuple: FiveTuple,
    pub(crate) user: UserId,
    pub(crate) id: u128,
}

impl Want {
    /// Whether the request asks for one.
    fn is_wanted(&self) -> bool
        ensures { (setup : Setup) (is_open : Bool) (family number : ℕ)
            → list_any (is_offered setup) (wants_in is_open family number self.now)
            ≡ (result && setup.has_family family) }
    {
        !matches!(self, Want::No)
    }

    /// Whether the request asks for one, and a socket is ready.
    fn is_ready(&self) -> bool
        ensures { (setup : Setup) (is_open : Bool) (family number : ℕ)
            → list_any (is_ready setup) (wants_in is_open family number self.now)
            ≡ (is_open && (result && setup.has_family family)) }
    {
        matches!(self, Want::Ready(_))
    }
}

/// Whether the server relays a family that a request asks for.
fn is_offered(limits: &Limits, wants: &Families<Want>) -> bool
    ensures { (permissions channels : ℕ) (is_open : Bool) (numbers : Families ℕ)
        → result ≡ list_any (is_offered (setup_of limits.now permissions channels))
        (wants_of is_open numbers wants.now) }
{
    (wants.ipv4.is_wanted() & limits.families.ipv4)
        | (wants.ipv6.is_wanted() & limits.families.ipv6)
}

/// Whether a socket is ready for a family that the server relays, and there are numbers.
fn is_ready(limits: &Limits, is_open: bool, wants: &Families<Want>) -> bool
    ensures any { (permissions channels : ℕ) (numbers : Families ℕ)
        → result ≡ list_any (is_ready (setup_of limits.now permissions channels))
        (wants_of is_open numbers wants.now) }
    ensures open { result ≡ true → is_open ≡ true }
{
    is_open
        & ((wants.ipv4.is_ready() & limits.families.ipv4)
            | (wants.ipv6.is_ready() & limits.families.ipv6))
}

/// The last value of the next number at which an Allocate request opens relayed addresses: numbers last for
/// 2^40 - 3 openings.
const LAST_NUMBER: u64 = 18_446_744_073_659_219_968;

/// Whether there are numbers for two more relayed addresses.
fn has_numbers<const P: usize, const C: usize>(relays: &Relays<P, C>) -> bool
    ensures numbers { result ≡ has_numbers (state_of relays.now) }
    ensures openings { result ≡ true → relays.now.openings + 2 ≤ rounds }
{
    relays.next_number() <= LAST_NUMBER
}

/// Whether a user may have one more relayed address.
fn has_quota<const P: usize, const C: usize>(
    relays: &Relays<P, C>,
    limits: &Limits,
    user: UserId,
) -> bool
    ensures { result ≡ has_quota (setup_of limits.now P C) (user_number user) (state_of relays.now) }
{
    relays.count_by_user(user) < limits.relays_per_user as usize
}

/// Whether there may be one more relayed address.
fn has_room<const P: usize, const C: usize>(relays: &Relays<P, C>, limits: &Limits) -> bool
    ensures room { result ≡ has_room (setup_of limits.now P C) (state_of relays.now) }
    ensures fewer { result ≡ true → length (state_of relays.now).relays < limits.now.relays }
{
    relays.len() < limits.relays as usize
}

/// Why an Allocate request is refused, or `None` if it gets a relayed address.
fn allocate_fault<const P: usize, const C: usize>(
    relays: &Relays<P, C>,
    limits: &Limits,
    client: &Client,
    user: UserId,
    wants: &Families<Want>,
) -> Option<Refusal>
    ensures rows { (tuple : FiveTuple) (numbers : Families ℕ) → Owns relays.now tuple client.now
        → option_map code_of result ≡ allocate_rows (setup_of limits.now P C) (state_of relays.now) tuple
        (user_number user) (wants_of (has_numbers (state_of relays.now)) numbers wants.now) }
    ensures numbers { IfNone result (has_numbers (state_of relays.now) ≡ true) }
    ensures openings { IfNone result (relays.now.openings + 2 ≤ rounds) }
{
    if !client.is_none() {
        return Some(Refusal::AllocationMismatch);
    }
    if !is_offered(limits, wants) {
        return Some(Refusal::AddressFamilyNotSupported);
    }
    if !has_quota(relays, limits, user) {
        return Some(Refusal::AllocationQuotaReached);
    }
    if !has_room(relays, limits) {
        return Some(Refusal::InsufficientCapacity);
    }
    if !is_ready(limits, has_numbers(relays), wants) {
        return Some(Refusal::InsufficientCapacity);
    }
    None
}

/// Whether the server relays a family.
fn supports(families: Families<bool>, family: u8) -> bool
    ensures { result ≡ supports families family }
{
    match family {
        1 => families.ipv4,
        2 => families.ipv6,
        _ => false,
    }
}

/// Whether a client that has no relayed address of a family can have one.
fn can_open<const P: usize, const C: usize>(
    relays: &Relays<P, C>,
    limits: &Limits,
    key: &RelayKey,
    user: UserId,
) -> bool
    ensures can { (ready : Option Offer) → result ≡ can_open (setup_of limits.now P C) key.now.tuple
        (user_number user) (record { family = key.now.family; ready = ready }) (state_of relays.now) }
    ensures fewer { result ≡ true → length (state_of relays.now).relays < limits.now.relays }
    ensures key { result ≡ true
        → Each relays.now (λ r. is_for key.now.tuple key.now.family r ≡ false) }
{
    list_follows_slots();
    lists_have_slots();
    let is_free = relays.find_by_key(key).is_none();
    supports(limits.families, key.family)
        & has_quota(relays, limits, user)
        & has_room(relays, limits)
        & is_free
}

/// Opens a relayed address of a family for a client, if it asks for one and can have it.
fn open<const P: usize, const C: usize>(
    relays: &mut Relays<P, C>,
    limits: &Limits,
    asking: &Asking,
    family: u8,
    want: Want,
    expires_at: u128,
)
    requires sound { AreSound relays.old }
    requires slots { length relays.old.slots ≡ limits.now.relays }
    requires openings { relays.old.openings < rounds }
    requires family { ((family == 1) || (family == 2)) ≡ true }
    requires expires_at { expires_at ≤ relays.old.clock + seconds lifetime_max }
    requires before_never { expires_at < never }
    ensures opens { OpensOf (setup_of limits.now P C) asking.now.tuple (user_number asking.now.user)
        asking.now.id expires_at family want relays.old relays.new }
    ensures sound { AreSound relays.new }
    ensures slow { relays.new.next ≤ relays.old.next + 2 ^ 25 }
{
    let Want::Ready(address) = want else {
        return;
    };
    let key = RelayKey {
        tuple: asking.tuple,
        family,
    };
    if !can_open(relays, limits, &key, asking.user) {
        return;
    }
    list_follows_slots();
    lists_have_slots();
    relays.numbers_are_below_next();
    relays.next_number();
    relays.open(key, asking.user, asking.id, address, expires_at);
    relays.next_number();
}

/// Why a client has no relayed address of a family that it asked for.
fn missing_asked(is_given: bool, is_supported: bool) -> Option<Refusal>
    ensures { (setup : Setup) (tuple : FiveTuple) (state : State) (family : ℕ) (ready : Option Offer)
        → has_of tuple family state ≡ is_given → setup.has_family family ≡ is_supported
        → missing_in family result
        ≡ missing_to setup tuple (record { family = family; ready = ready } ∷ []) state }
{
    if is_given {
        None
    } else if is_supported {
        Some(Refusal::InsufficientCapacity)
    } else {
        Some(Refusal::AddressFamilyNotSupported)
    }
}

/// Why a client has no relayed address of a family, if it asked for one.
fn missing(want: Want, is_given: bool, is_supported: bool) -> Option<Refusal>
    ensures { (setup : Setup) (tuple : FiveTuple) (state : State) (is_open : Bool) (family number : ℕ)
        → has_of tuple family state ≡ is_given → setup.has_family family ≡ is_supported
        → missing_in family result
        ≡ missing_to setup tuple (wants_in is_open family number want) state }
{
    match want {
        Want::No => None,
        _ => missing_asked(is_given, is_supported),
    }
}

/// The success response, with what the client now has.
fn answer(limits: &Limits, client: &Client, wants: &Families<Want>, lifetime: u32) -> Answer
    ensures answer { (t : Table) (tuple : FiveTuple) (permissions channels : ℕ) (is_open : Bool)
        (numbers : Families ℕ) → Owns t tuple client.now
        → answer_of result ≡ allocation_answer (setup_of limits.now permissions channels) tuple lifetime
        (wants_of is_open numbers wants.now) (state_of t) }
    ensures numbers { (t : Table) (tuple : FiveTuple) → Owns t tuple client.now
        → numbers_in result
        ≡ record { ipv4 = number_to tuple 1 (state_of t); ipv6 = number_to tuple 2 (state_of t) } }
{
    Answer::Allocated {
        given: client.given(),
        lifetime,
        missing: Families {
            ipv4: missing(
                wants.ipv4,
                client.of_family(1).is_some(),
                limits.families.ipv4,
            ),
            ipv6: missing(
                wants.ipv6,
                client.of_family(2).is_some(),
                limits.families.ipv6,
            ),
        },
    }
}

/// The whole seconds until the first of a client's relayed addresses expires. Each expires within 2^32 - 1
/// seconds, so `min` changes nothing.
fn left<const P: usize, const C: usize>(relays: &Relays<P, C>, client: &Client) -> u32
    requires { AreSound relays.now }
    ensures { (tuple : FiveTuple) → Owns relays.now tuple client.now
        → result ≡ left_of tuple (state_of relays.now) }
{
    match client.first_end() {
        Some(end) => (end.saturating_sub(relays.clock()) / SECOND).min(u32::MAX as u128) as u32,
        None => 0,
    }
}

/// Opens each relayed address that a request asks for and that the user can have, and answers with what the
/// client now has.
fn grant<const P: usize, const C: usize>(
    relays: &mut Relays<P, C>,
    limits: &Limits,
    asking: &Asking,
    lifetime: u32,
    wants: &Families<Want>,
) -> Answer
    requires sound { AreSound relays.old }
    requires slots { length relays.old.slots ≡ limits.now.relays }
    requires openings { relays.old.openings + 2 ≤ rounds }
    ensures grants { Grants (setup_of limits.now P C) asking.now.tuple (user_number asking.now.user)
        asking.now.id lifetime wants.now relays.old relays.new result }
    ensures sound { AreSound relays.new }
    ensures slow { relays.new.next ≤ relays.old.next + 2 ^ 26 }
{
    let expires_at = relays.clock() + SECOND * lifetime as u128;
    open(relays, limits, asking, 1, wants.ipv4, expires_at);
    open(relays, limits, asking, 2, wants.ipv6, expires_at);
    let client = client_of(relays, &asking.tuple);
    answer(limits, &client, wants, lifetime)
}

/// Answers an Allocate request of a client with these relayed addresses.
pub(crate) fn allocate<const P: usize, const C: usize>(
    relays: &mut Relays<P, C>,
    limits: &Limits,
    client: &Client,
    asking: &Asking,
    lifetime: Option<u32>,
    wants: &Families<Want>,
) -> Answer
    requires sound { AreSound relays.old }
    requires slots { length relays.old.slots ≡ limits.now.relays }
    ensures serves { (rules : Rules) (ended : Numbers) → Owns relays.old asking.now.tuple client.now
        → Serves (setup_of limits.now P C) rules asking.now.tuple (user_number asking.now.user)
        (allocate asking.now.id lifetime
        (wants_of (has_numbers (state_of relays.old)) (numbers_in result) wants.now))
        relays.old relays.new ended ended result }
    ensures sound { AreSound relays.new }
    ensures slots { length relays.new.slots ≡ length relays.old.slots }
    ensures slow { relays.new.next ≤ relays.old.next + 2 ^ 26 }
{
    if client.is_opened_by(asking.user, asking.id) {
        let lifetime = left(relays, client);
        return answer(limits, client, wants, lifetime);
    }
    if let Some(refusal) = allocate_fault(relays, limits, client, asking.user, wants) {
        return Answer::Refused(refusal);
    }
    let lifetime = allocation_lifetime(lifetime, limits.greatest_lifetime);
    grant(relays, limits, asking, lifetime, wants)
}
