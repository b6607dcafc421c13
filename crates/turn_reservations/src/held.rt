//! The reserved sockets.

ghost use Rattle.std.specs.Prelude.{◌≡◌, MatchOption, Some, None, [], min, ◌+◌, ◌≤◌, ◌++◌, not, map, length, filter, find, nat_lt, vec_len, vec_capacity, option_copied, ◌==◌};
ghost use Rattle.turn_slots.specs.Users.{user_number};
ghost use Rattle.turn_machine.specs.Reserving.{is_claim, is_token, is_reserved_by};
ghost use Rattle.std.specs.List.{fold, list_any};
ghost use Rattle.std.specs.Option.{option_map_or};
ghost use Rattle.turn_reservations.specs.Calls.{IsNextOver};
ghost use Rattle.turn_reservations.specs.Held.{reservation_of};

use crate::requests::Family;
use std::alloc::{AllocError, Global};
use std::marker::Model;
use stun_endpoints::{Endpoint, FiveTuple};
use turn_slots::UserId;

/// A reserved socket.
#[derive(Clone, Copy)]
pub(crate) struct Reserved {
    /// Its RESERVATION-TOKEN.
    pub(crate) token: u64,
    /// The user that reserved it.
    pub(crate) user: UserId,
    /// The client that reserved it.
    pub(crate) tuple: FiveTuple,
    /// The transaction ID of the request that reserved it.
    pub(crate) id: u128,
    /// Its family.
    pub(crate) family: Family,
    /// Its transport address.
    pub(crate) address: Endpoint,
    /// When it expires, in nanoseconds of the caller's clock.
    pub(crate) expires_at: u128,
}

/// The reserved sockets, as many as there are places, and the tokens of those that expired in the last call.
#[derive(Drop)]
pub(crate) struct Held {
    /// The newest first.
    reserved: Vec<Reserved>,
    over: Vec<u64>,
    places: u32,
}

impl Model for Held {
    ghost use Rattle.std.specs.Prelude.{◌≤◌, map, vec_len, vec_capacity};
    ghost use Rattle.turn_reservations.specs.Held.{Holding, reservation_of};

    ghost Value = { Holding };

    ghost view = { λ h. record {
      places = h.places;
      held = map reservation_of h.reserved.items;
      over = h.over.items;
    } };

    ghost invariant = { λ h. record {
      few : vec_len h.reserved ≤ h.places;
      room : h.places ≤ vec_capacity h.reserved;
      over_room : h.places ≤ vec_capacity h.over;
    } };
}

/// Appends the tokens of those that have expired.
fn report(reserved: &[Reserved], now: u128, over: &mut Vec<u64>)
    requires { vec_len over.old + length reserved.now ≤ vec_capacity over.old }
    ensures tokens { over.new.items ≡ over.old.items
        ++ map (λ r. r.token) (filter (λ r. not (nat_lt now r.expires_at)) reserved.now) }
    ensures capacity { vec_capacity over.new ≡ vec_capacity over.old }
{
    for one in reserved {
        if !(now < one.expires_at) {
            over.push_reserved(one.token);
        }
    }
}

/// Leaves what has not expired.
fn leave(reserved: &mut Vec<Reserved>, now: u128)
    ensures items { reserved.new.items ≡ filter (λ r. nat_lt now r.expires_at) reserved.old.items }
    ensures fewer { vec_len reserved.new ≤ vec_len reserved.old }
    ensures capacity { vec_capacity reserved.new ≡ vec_capacity reserved.old }
{
    reserved.retain(|one| now < one.expires_at);
}

/// Leaves those with other tokens.
fn leave_others(reserved: &mut Vec<Reserved>, token: u64)
    ensures items { reserved.new.items ≡ filter (λ r. not (r.token == token)) reserved.old.items }
    ensures fewer { vec_len reserved.new ≤ vec_len reserved.old }
    ensures capacity { vec_capacity reserved.new ≡ vec_capacity reserved.old }
{
    reserved.retain(|one| !(one.token == token));
}

/// The earlier of two moments.
fn sooner(due: Option<u128>, expires_at: u128) -> Option<u128>
    ensures { result ≡ Some (option_map_or (λ d. min d expires_at) due expires_at) }
{
    match due {
        Some(due) => Some(due.min(expires_at)),
        None => Some(expires_at),
    }
}

/// When the first of them expires.
fn first_of(reserved: &[Reserved]) -> Option<u128>
    ensures { result
        ≡ fold (λ due r. Some (option_map_or (λ d. min d r.expires_at) due r.expires_at)) None reserved.now }
{
    reserved
        .iter()
        .fold(None, |due, one| sooner(due, one.expires_at))
}

/// Whether one has a token.
fn has_token(reserved: &[Reserved], token: u64) -> bool
    ensures { result ≡ list_any (λ r. is_token token (reservation_of r)) reserved.now }
{
    reserved.iter().any(|one| one.token == token)
}

/// Finds a user's with a token.
fn find_claimed(reserved: &[Reserved], user: UserId, token: u64) -> Option<&Reserved>
    ensures { option_copied result
        ≡ find (λ r. is_claim (user_number user) token (reservation_of r)) reserved.now }
{
    reserved
        .iter()
        .find(|one| one.token == token && one.user.is_same(user))
}

/// Finds what a request reserved.
fn find_made<'a>(
    reserved: &'a [Reserved],
    tuple: &FiveTuple,
    user: UserId,
    id: u128,
) -> Option<&'a Reserved>
    ensures { option_copied result
        ≡ find (λ r. is_reserved_by tuple.now (user_number user) id (reservation_of r)) reserved.now }
{
    reserved.iter().find(|one| *tuple == one.tuple && one.user.is_same(user) && one.id == id)
}

impl Held {
    ghost use Rattle.std.specs.Prelude.{◌≡◌, MatchOption, ◌<◌, ◌≤◌, ◌∷◌, [], IfOk, not, map, length, filter, find, count_by, nat_lt, Some, None};
    ghost use Rattle.std.specs.List.{list_any};
    ghost use Rattle.std.specs.Option.{option_map, option_map_or};
    ghost use Rattle.turn_slots.specs.Users.{user_number};
    ghost use Rattle.turn_machine.specs.Reserving.{is_held, is_users_held, is_claim, is_token, is_reserved_by};
    ghost use Rattle.turn_reservations.specs.Calls.{IsNextOver};
    ghost use Rattle.turn_reservations.specs.Held.{reservation_of};

    /// Makes an empty list, with memory for `places` reservations and as many tokens.
    ///
    /// # Errors
    ///
    /// Only if an allocation of memory failed.
    pub(crate) fn new(alloc: Global, places: u32) -> Result<Self, AllocError>
        ensures { IfOk result (λ held. held ≡ record { places = places; held = []; over = [] }) }
    {
        let reserved = Vec::with_capacity(alloc, places as usize)?;
        let over = Vec::with_capacity(alloc, places as usize)?;
        Ok(Held {
            reserved,
            over,
            places,
        })
    }

    /// Borrows the tokens of those that expired in the last call.
    pub(crate) fn over(&self) -> &[u64]
        ensures { result.now ≡ self.now.over }
    {
        &self.over
    }

    /// When the next of them expires.
    pub(crate) fn next_over(&self) -> Option<u128>
        ensures { MatchOption result (self.now.held ≡ []) (λ due. IsNextOver due self.now.held) }
    {
        first_of(&self.reserved)
    }

    /// Removes what has expired, and keeps their tokens.
    pub(crate) fn sweep(&mut self, now: u128)
        ensures { self.new ≡ record self.old {
          held = filter (is_held now) self.old.held;
          over = map (λ r. r.token) (filter (λ r. not (is_held now r)) self.old.held);
        } }
    {
        self.over.clear();
        report(&self.reserved, now, &mut self.over);
        leave(&mut self.reserved, now);
    }

    /// Removes those with a token.
    pub(crate) fn remove(&mut self, token: u64)
        ensures { self.new ≡ record self.old {
          held = filter (λ r. not (is_token token r)) self.old.held;
        } }
    {
        leave_others(&mut self.reserved, token);
    }

    /// Inserts one, as the newest.
    pub(crate) fn insert(&mut self, one: Reserved)
        requires { length self.old.held < self.old.places }
        ensures { self.new ≡ record self.old { held = reservation_of one ∷ self.old.held } }
    {
        let _ = self.reserved.insert(0, one);
    }

    /// Returns how many there are.
    pub(crate) fn len(&self) -> usize
        ensures { result ≡ length self.now.held }
    {
        self.reserved.len()
    }

    /// Returns how many a user has.
    pub(crate) fn count_of(&self, user: UserId) -> usize
        ensures { result ≡ count_by (is_users_held (user_number user)) self.now.held }
    {
        self.reserved
            .iter()
            .filter(|one| one.user.is_same(user))
            .count()
    }

    /// Returns whether one has a token.
    pub(crate) fn has_token(&self, token: u64) -> bool
        ensures { result ≡ list_any (is_token token) self.now.held }
    {
        has_token(&self.reserved, token)
    }

    /// Returns a user's with a token.
    pub(crate) fn claimed(&self, user: UserId, token: u64) -> Option<Reserved>
        ensures { option_map reservation_of result
            ≡ find (is_claim (user_number user) token) self.now.held }
    {
        match find_claimed(&self.reserved, user, token) {
            Some(found) => Some(*found),
            None => None,
        }
    }

    /// Returns the token of what a request reserved.
    pub(crate) fn token_of(&self, tuple: &FiveTuple, user: UserId, id: u128) -> Option<u64>
        ensures { result ≡ option_map_or (λ r. Some r.token)
            (find (is_reserved_by tuple.now (user_number user) id) self.now.held) None }
    {
        match find_made(&self.reserved, tuple, user, id) {
            Some(found) => Some(found.token),
            None => None,
        }
    }
}
