//! How the relayed addresses of a TURN server end, and which sockets C closes.

ghost use Rattle.std.specs.Prelude.{◌≡◌};
ghost use Rattle.turn_machine.specs.Events.{ends, ends_user, ticks};
ghost use Rattle.turn_slots.specs.Users.{user_number, number_of};
ghost use Rattle.stun_types_c.specs.TurnEnding.{Ends, Polls, EndsOne, EndsUser, Lists, ListsEnded, ListsOver, shown_due, IsDue, IsNextDue, Counts};
ghost use Rattle.stun_types_c.specs.TurnHandles.{held_turn};

use crate::handle::{put, take};
use crate::keys::Hash;
use crate::turn_core::TurnCore;
use crate::turn_handle::CTurn;
use std::alloc::Global;
use turn_slots::{UserId, user_numbers_are_their_bytes};

/// Ends what has expired. Returns how many relayed addresses it ended.
fn poll(core: &mut TurnCore, now: u64) -> usize
    ensures { Ends ticks core.old now result core.new }
{
    core.server.poll(now);
    core.server.ended().len()
}

/// The same, and ends the relayed address with this number.
fn end(core: &mut TurnCore, now: u64, relay: u64) -> usize
    ensures { Ends (ends relay) core.old now result core.new }
{
    core.server.end(now, relay);
    core.server.ended().len()
}

/// The user with this USERHASH.
fn account_of(user: &Hash) -> UserId
    ensures { user_number result ≡ number_of user.now.bytes }
{
    user_numbers_are_their_bytes();
    UserId::from(user.bytes)
}

/// The same, and ends all relayed addresses of this user.
fn end_user(core: &mut TurnCore, now: u64, user: &Hash) -> usize
    ensures { Ends (ends_user (number_of user.now.bytes)) core.old now result core.new }
{
    core.server.end_user(now, account_of(user));
    core.server.ended().len()
}

/// Ends what has expired.
#[unsafe(no_mangle)]
pub extern "C" fn stun_types_turn_poll(alloc: Global, server: &mut CTurn, now: u64) -> usize
    ensures { Polls now result (held_turn server.old) (held_turn server.new) }
{
    let Some(mut core) = take(server, alloc) else {
        return 0;
    };
    let count = poll(&mut core, now);
    put(server, core);
    count
}

/// Ends a relayed address.
#[unsafe(no_mangle)]
pub extern "C" fn stun_types_turn_end(
    alloc: Global,
    server: &mut CTurn,
    now: u64,
    relay: u64,
) -> usize
    ensures { EndsOne now relay result (held_turn server.old) (held_turn server.new) }
{
    let Some(mut core) = take(server, alloc) else {
        return 0;
    };
    let count = end(&mut core, now, relay);
    put(server, core);
    count
}

/// Ends the relayed addresses of a user.
#[unsafe(no_mangle)]
pub extern "C" fn stun_types_turn_end_user(
    alloc: Global,
    server: &mut CTurn,
    now: u64,
    user: &Hash,
) -> usize
    ensures { EndsUser now user.now result (held_turn server.old) (held_turn server.new) }
{
    let Some(mut core) = take(server, alloc) else {
        return 0;
    };
    let count = end_user(&mut core, now, user);
    put(server, core);
    count
}

/// Copies as many of these numbers as there is room for, from one of them on. Returns how many.
fn copy_from(numbers: &[u64], first: usize, room: &mut [u64]) -> usize
    ensures { Lists numbers.now first room.old result room.new }
{
    let left = numbers.get(first..).unwrap_or(&[]);
    let count = left.len().min(room.len());
    room[..count].copy_from_slice(&left[..count]);
    count
}

/// The sockets of the relayed addresses that the last call ended.
#[unsafe(no_mangle)]
pub extern "C" fn stun_types_turn_ended(
    alloc: Global,
    server: &mut CTurn,
    numbers: &mut [u64],
    first: usize,
) -> usize
    ensures { ListsEnded first numbers.old result numbers.new (held_turn server.old) (held_turn server.new) }
{
    let Some(core) = take(server, alloc) else {
        return 0;
    };
    let count = copy_from(core.server.ended(), first, numbers);
    put(server, core);
    count
}

/// The tokens of the reserved sockets that expired in the last call.
#[unsafe(no_mangle)]
pub extern "C" fn stun_types_turn_over(
    alloc: Global,
    server: &mut CTurn,
    tokens: &mut [u64],
    first: usize,
) -> usize
    ensures { ListsOver first tokens.old result tokens.new (held_turn server.old) (held_turn server.new) }
{
    let Some(core) = take(server, alloc) else {
        return 0;
    };
    let count = copy_from(core.server.over(), first, tokens);
    put(server, core);
    count
}

/// A moment, at most the greatest number.
pub(crate) fn shown_due(due: u128) -> u64
    ensures { result ≡ shown_due due }
{
    u64::try_from(due).unwrap_or(u64::MAX)
}

/// When the next relayed address expires, at most the greatest number.
fn due_of(core: &TurnCore) -> u64
    ensures { IsDue core.now result }
{
    match core.server.next_due() {
        Some(due) => shown_due(due),
        None => u64::MAX,
    }
}

/// When the next relayed address expires.
#[unsafe(no_mangle)]
pub extern "C" fn stun_types_turn_next_due(alloc: Global, server: &mut CTurn) -> u64
    ensures { IsNextDue result (held_turn server.old) (held_turn server.new) }
{
    let Some(core) = take(server, alloc) else {
        return u64::MAX;
    };
    let due = due_of(&core);
    put(server, core);
    due
}

/// How many relayed addresses there are.
#[unsafe(no_mangle)]
pub extern "C" fn stun_types_turn_count(alloc: Global, server: &mut CTurn) -> usize
    ensures { Counts result (held_turn server.old) (held_turn server.new) }
{
    let Some(core) = take(server, alloc) else {
        return 0;
    };
    let count = core.server.len();
    put(server, core);
    count
}
