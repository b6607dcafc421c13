//! Many transactions, in an array of C's.

ghost use Rattle.std.specs.Prelude.{◌≡◌};
ghost use Rattle.std.specs.List.{position};
ghost use Rattle.stun_transactions.specs.Slots.{sooner};
ghost use Rattle.stun_types_c.specs.ManyTransactions.{waits_for, addressee, WakesAt, SoonestOf, TakesTime, TellsNumber, TellsSoonest, TellsRoundTrip};

use crate::transactions::{CTransaction, millis, moment_of, parts_of};
use stun_types::message::{MessageHeader, TransactionId};

/// Whether the request with this ID was sent, and its transaction has not ended.
fn waits_for(kept: &CTransaction, id: TransactionId) -> bool
    ensures { result ≡ waits_for id kept.now }
{
    kept.sent > 0 && kept.end == 0 && TransactionId::from_bytes(&kept.id.bytes) == id
}

/// The place of the transaction with this ID that waits for a response.
fn place_of(kept: &[CTransaction], id: TransactionId) -> Option<usize>
    ensures { result ≡ position (waits_for id) kept.now }
{
    kept.iter().position(|one| waits_for(one, id))
}

/// The place of the transaction that a response is for.
fn addressee(bytes: &[u8], kept: &[CTransaction]) -> Option<usize>
    ensures { result ≡ addressee bytes.now kept.now }
{
    let Ok(header) = MessageHeader::from_bytes(bytes) else {
        return None;
    };
    if !header.get_type().is_response() {
        return None;
    }
    place_of(kept, header.transaction_id())
}

/// The place of the transaction that received bytes are for; false if there is none.
#[unsafe(no_mangle)]
pub extern "C" fn stun_types_transactions_find(
    kept: &[CTransaction],
    bytes: &[u8],
    place: &mut usize,
) -> bool
    ensures { TellsNumber (addressee bytes.now kept.now) result place.old place.new }
{
    match addressee(bytes, kept) {
        Some(at) => {
            *place = at;
            true
        }
        None => false,
    }
}

/// When the transaction that C keeps is to be polled.
fn wake(kept: &CTransaction) -> Option<u64>
    ensures { WakesAt kept.now result }
{
    let parts = parts_of(kept)?;
    match parts.next_wake() {
        Some(at) => Some(millis(at)),
        None => None,
    }
}

/// The sooner of two moments.
fn sooner(first: Option<u64>, later: Option<u64>) -> Option<u64>
    ensures { result ≡ sooner first later }
{
    match (first, later) {
        (Some(a), Some(b)) => Some(a.min(b)),
        (Some(_), None) => first,
        (None, _) => later,
    }
}

/// The soonest moment at which one of the transactions is to be polled.
fn soonest(kept: &[CTransaction]) -> Option<u64>
    ensures { SoonestOf kept.now result }
{
    let mut reported = None;
    let mut left = kept.len();
    'walk: while left > 0 {
        left -= 1;
        reported = sooner(wake(&kept[left]), reported);
    }
    reported
}

/// The soonest moment at which one of the transactions is to be polled; false if none is.
#[unsafe(no_mangle)]
pub extern "C" fn stun_types_transactions_next(kept: &[CTransaction], until: &mut u64) -> bool
    ensures { TellsSoonest kept.now result until.old until.new }
{
    match soonest(kept) {
        Some(moment) => {
            *until = moment;
            true
        }
        None => false,
    }
}

/// How long a response took, if that is known.
fn round_trip(kept: &CTransaction, now: u64) -> Option<u64>
    ensures { TakesTime now kept.now result }
{
    let parts = parts_of(kept)?;
    match parts.round_trip(moment_of(now)) {
        Some(time) => Some(millis(time)),
        None => None,
    }
}

/// How long a response took, in milliseconds; false if that isn't known.
#[unsafe(no_mangle)]
pub extern "C" fn stun_types_transaction_round_trip(
    kept: &CTransaction,
    now: u64,
    time: &mut u64,
) -> bool
    ensures { TellsRoundTrip now kept.now result time.old time.new }
{
    match round_trip(kept, now) {
        Some(reported) => {
            *time = reported;
            true
        }
        None => false,
    }
}
