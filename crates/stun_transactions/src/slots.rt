//! Slots for transactions: each holds one, or is free.

ghost use Rattle.std.specs.Prelude.{◌≡◌, None, Some, true, is_some, option_map, option_copied, MatchResult};
ghost use Rattle.std.specs.List.{position};
ghost use Rattle.std.specs.Duration.{as_nanos};
ghost use Rattle.stun_types.specs.Message.{message_bytes};
ghost use Rattle.stun_transactions.specs.Slots.{id_of, has_id, is_free, place_of, held, changed, room_fault, IsAdded, has_turn, wake, sooner, soonest, PollsSlot, PollsSlots, addressee, Tells};
ghost use Rattle.stun_transactions.specs.Transactions.{after_receiving, ending, stopping};

use crate::beginning::BeginError;
use crate::received::Received;
use crate::retransmission::{Action, TransactionEnd};
use crate::transaction::Transaction;
use std::time::Duration;
use stun_types::attribute::AttributeType;
use stun_types::message::{Message, TransactionId};
use thiserror::Error;

/// What the caller of many transactions has to do, for one of them.
#[derive(Clone, Copy, Debug, PartialEq, Eq)]
pub enum TransactionsAction {
    /// Send the request with this ID now.
    Send(TransactionId),
    /// The transaction with this ID has ended, and is gone.
    Ended(TransactionId, TransactionEnd),
    /// Do nothing before this moment, unless a message is received.
    WaitUntil(Duration),
    /// Do nothing: there is no transaction.
    Idle,
}

/// Why a transaction isn't begun among others.
#[derive(Clone, Copy, Debug, PartialEq, Eq, Error)]
pub enum AddError {
    /// The transaction couldn't begin alone either, by this error.
    #[error("{0}")]
    Begin(BeginError),
    /// Another transaction has the same ID.
    #[error("there is a transaction with the same ID")]
    InUse,
    /// All `N` slots are taken by other transactions.
    #[error("there is no room for another transaction")]
    Full,
}

/// Whether a slot holds the transaction with this ID.
fn has_id(slot: &Option<Transaction>, id: TransactionId) -> bool
    ensures { result ≡ has_id id slot.now }
{
    match slot {
        Some(transaction) => transaction.id() == id,
        None => false,
    }
}

/// Whether a poll of the transaction in a slot has something to do now.
fn has_turn(slot: &Option<Transaction>, now: Duration) -> bool
    ensures { result ≡ has_turn now slot.now }
{
    match slot {
        Some(transaction) => transaction.is_ready(now),
        None => false,
    }
}

/// The place of the transaction with this ID.
fn place_of(slots: &[Option<Transaction>], id: TransactionId) -> Option<usize>
    ensures { result ≡ place_of id slots.now }
{
    slots.iter().position(|slot| has_id(slot, id))
}

/// The place of the first free slot.
fn free_place(slots: &[Option<Transaction>]) -> Option<usize>
    ensures { result ≡ position is_free slots.now }
{
    slots.iter().position(|slot| slot.is_none())
}

/// Puts a transaction into the first free slot.
pub(crate) fn add(
    slots: &mut [Option<Transaction>],
    transaction: Transaction,
) -> Result<(), AddError>
    ensures { MatchResult result
        (λ _. (room_fault (id_of transaction) slots.old ≡ None)
        × IsAdded transaction slots.old slots.new)
        (λ e. (room_fault (id_of transaction) slots.old ≡ Some e) × (slots.new ≡ slots.old)) }
{
    if place_of(slots, transaction.id()).is_some() {
        return Err(AddError::InUse);
    }
    let Some(place) = free_place(slots) else {
        return Err(AddError::Full);
    };
    slots[place] = Some(transaction);
    Ok(())
}

/// The place of the first slot in which something is to be done now.
fn next_turn(slots: &[Option<Transaction>], now: Duration) -> Option<usize>
    ensures { result ≡ position (has_turn now) slots.now }
{
    slots.iter().position(|slot| has_turn(slot, now))
}

/// The transaction with this ID.
pub(crate) fn held(slots: &[Option<Transaction>], id: TransactionId) -> Option<&Transaction>
    ensures { option_copied result ≡ held slots.now (place_of id slots.now) }
{
    let place = place_of(slots, id)?;
    slots[place].as_ref()
}

/// When the transaction in a slot is to be polled next.
fn wake(slot: &Option<Transaction>) -> Option<Duration>
    ensures { option_map as_nanos result ≡ wake slot.now }
{
    match slot {
        Some(transaction) => Some(transaction.next_wake().unwrap_or(Duration::ZERO)),
        None => None,
    }
}

/// The sooner of two moments.
fn sooner(a: Option<Duration>, b: Option<Duration>) -> Option<Duration>
    ensures { option_map as_nanos result ≡ sooner (option_map as_nanos a) (option_map as_nanos b) }
{
    match (a, b) {
        (Some(first), Some(second)) if second.as_nanos() < first.as_nanos() => b,
        (Some(_), _) => a,
        (None, _) => b,
    }
}

/// The soonest moment at which one of the transactions is to be polled.
pub(crate) fn soonest(slots: &[Option<Transaction>]) -> Option<Duration>
    ensures { option_map as_nanos result ≡ soonest slots.now }
{
    let mut moment = None;
    for slot in slots {
        moment = sooner(moment, wake(slot));
    }
    moment
}

/// Polls the transaction in a slot, which has something to do, and frees the slot after an end.
fn poll_slot(slot: &mut Option<Transaction>, now: Duration) -> TransactionsAction
    requires { has_turn now slot.old ≡ true }
    ensures { PollsSlot slot.old now result slot.new }
{
    let Some(transaction) = slot else {
        unreachable!()
    };
    let id = transaction.id();
    match transaction.poll(now) {
        Action::Send => TransactionsAction::Send(id),
        Action::Ended(end) => {
            *slot = None;
            TransactionsAction::Ended(id, end)
        }
        Action::WaitUntil(_) => unreachable!(),
    }
}

/// What is to be done now.
pub(crate) fn poll(slots: &mut [Option<Transaction>], now: Duration) -> TransactionsAction
    ensures { PollsSlots slots.old now result slots.new }
{
    if let Some(place) = next_turn(slots, now) {
        return poll_slot(&mut slots[place], now);
    }
    match soonest(slots) {
        Some(until) => TransactionsAction::WaitUntil(until),
        None => TransactionsAction::Idle,
    }
}

/// What a message is for the transaction in a slot, with its ID.
fn receive_at<'m>(
    slot: &mut Option<Transaction>,
    message: Message<'m>,
    understood: &[AttributeType],
) -> Option<(TransactionId, Received<'m>)>
    ensures reported { Tells slot.old understood.now (message_bytes message.entry) result }
    ensures slot { slot.new
        ≡ option_map (after_receiving understood.now (message_bytes message.entry)) slot.old }
{
    match slot {
        Some(transaction) => {
            let id = transaction.id();
            Some((id, transaction.receive_message(message, understood)))
        }
        None => None,
    }
}

/// What a message is for the transaction with this ID.
fn receive_for<'m>(
    slots: &mut [Option<Transaction>],
    id: TransactionId,
    message: Message<'m>,
    understood: &[AttributeType],
) -> Option<(TransactionId, Received<'m>)>
    ensures reported { Tells (held slots.old (place_of id slots.old)) understood.now
        (message_bytes message.entry) result }
    ensures slots { slots.new ≡ changed (after_receiving understood.now
        (message_bytes message.entry))
        (place_of id slots.old) slots.old }
{
    let Some(place) = place_of(slots, id) else {
        return None;
    };
    receive_at(&mut slots[place], message, understood)
}

/// What received bytes are for the transaction that they are for.
pub(crate) fn receive<'m>(
    slots: &mut [Option<Transaction>],
    bytes: &'m [u8],
    understood: &[AttributeType],
) -> Option<(TransactionId, Received<'m>)>
    ensures reported { Tells (held slots.old (addressee bytes.now slots.old)) understood.now bytes.now
        result }
    ensures slots { slots.new
        ≡ changed (after_receiving understood.now bytes.now)
        (addressee bytes.now slots.old) slots.old }
{
    match Message::from_bytes(bytes) {
        Ok(message) => receive_for(slots, message.transaction_id(), message, understood),
        Err(_) => None,
    }
}

/// Sends the request with this ID no more, unless its transaction has ended; returns whether there
/// is one.
pub(crate) fn stop_sending(slots: &mut [Option<Transaction>], id: TransactionId) -> bool
    ensures found { result ≡ is_some (place_of id slots.old) }
    ensures slots { slots.new ≡ changed stopping (place_of id slots.old) slots.old }
{
    let Some(place) = place_of(slots, id) else {
        return false;
    };
    if let Some(transaction) = &mut slots[place] {
        transaction.stop_sending();
    }
    true
}

/// Ends the transaction with this ID, unless it has ended, and returns whether there is one.
pub(crate) fn end_by(
    slots: &mut [Option<Transaction>],
    id: TransactionId,
    end: TransactionEnd,
) -> bool
    ensures found { result ≡ is_some (place_of id slots.old) }
    ensures slots { slots.new ≡ changed (ending end) (place_of id slots.old) slots.old }
{
    let Some(place) = place_of(slots, id) else {
        return false;
    };
    if let Some(transaction) = &mut slots[place] {
        transaction.end_by(end);
    }
    true
}
