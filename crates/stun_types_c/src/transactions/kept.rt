//! Which transaction C's numbers keep.

ghost use Rattle.std.specs.Prelude.{◌≡◌, Option, true, is_some, MatchOption};
ghost use Rattle.stun_types_c.specs.Transactions.{transport_numbered, mechanism_numbered, end_number, number_of_end, IsAt, millis_of, waits_fault, Schedules, usage_named, TellsParts, Keeps, KeepsNone, with_state};

use crate::transactions::{CSchedule, CTransaction};
use crate::usages::min_hmac_length_of;
use std::time::Duration;
use stun_transactions::{
    Mechanism, Plan, ResponsePolicy, RetransmissionState, Schedule, Signed, TransactionEnd,
    TransactionParts,
};
use stun_types::TransportType;
use stun_types::message::{Method, TransactionId};

/// The transport of a number.
pub(crate) fn transport_of(number: u32) -> Option<TransportType>
    ensures { result ≡ transport_numbered number }
{
    match number {
        1 => Some(TransportType::Udp),
        2 => Some(TransportType::Tcp),
        _ => None,
    }
}

/// The mechanism of a number, if it is the number of one or of none.
pub(crate) fn mechanism_of(number: u32) -> Option<Option<Mechanism>>
    ensures { result ≡ mechanism_numbered number }
{
    match number {
        1 => Some(Some(Mechanism::ShortTerm)),
        2 => Some(Some(Mechanism::LongTerm)),
        3 => Some(Some(Mechanism::FirstLongTerm)),
        4 => Some(None),
        _ => None,
    }
}

/// The end of a number, if it is the number of one or of none.
fn end_of(number: u8) -> Option<Option<TransactionEnd>>
    ensures { MatchOption result ((end : Option TransactionEnd) → ¬ (number ≡ number_of_end end))
        (λ end. number ≡ number_of_end end) }
{
    match number {
        0 => Some(None),
        1 => Some(Some(TransactionEnd::Answered)),
        2 => Some(Some(TransactionEnd::TimedOut)),
        3 => Some(Some(TransactionEnd::IntegrityViolated)),
        4 => Some(Some(TransactionEnd::Refused)),
        5 => Some(Some(TransactionEnd::Cancelled)),
        6 => Some(Some(TransactionEnd::TransportFailed)),
        _ => None,
    }
}

/// The number of an end.
pub(crate) fn end_number(end: TransactionEnd) -> u8
    ensures { result ≡ end_number end }
{
    match end {
        TransactionEnd::Answered => 1,
        TransactionEnd::TimedOut => 2,
        TransactionEnd::IntegrityViolated => 3,
        TransactionEnd::Refused => 4,
        TransactionEnd::Cancelled => 5,
        TransactionEnd::TransportFailed => 6,
    }
}

/// The schedule of C's numbers, if they are those of one.
pub(crate) fn schedule_of(waits: &CSchedule) -> Option<Schedule>
    ensures { MatchOption result (is_some (waits_fault waits.now) ≡ true) (Schedules waits.now) }
{
    if waits.reliable_wait == 0 {
        return None;
    }
    let schedule = Schedule::new(waits.rto, waits.requests, waits.last_wait).ok()?;
    Some(schedule.with_reliable_timeout(waits.reliable_wait))
}

/// What C says of responses, if its numbers say something.
pub(crate) fn usage_of(waits: &CSchedule) -> Option<ResponsePolicy>
    ensures { result ≡ usage_named waits.now }
{
    if waits.reserved != 0 {
        return None;
    }
    let min_hmac_length = min_hmac_length_of(waits.min_hmac_length)?;
    Some(ResponsePolicy {
        min_hmac_length,
        fingerprint: waits.fingerprint != 0,
    })
}

/// The moment that is so many milliseconds.
pub(crate) fn moment_of(millis: u64) -> Duration
    ensures { IsAt millis result }
{
    Duration::from_millis(millis)
}

/// Milliseconds of a moment; `u64::MAX` if they are more.
pub(crate) fn millis(moment: Duration) -> u64
    ensures { result ≡ millis_of moment }
{
    u64::try_from(moment.as_millis()).unwrap_or(u64::MAX)
}

/// The parts that C's numbers mean; `None` if one of them means nothing.
fn meant_parts(kept: &CTransaction) -> Option<TransactionParts>
    ensures { MatchOption result ((parts : TransactionParts) → ¬ TellsParts kept.now parts)
        (TellsParts kept.now) }
{
    if kept.signed_by > 3 || kept.violated > 1 || kept.stopped > 1 {
        return None;
    }
    if kept.reserved != 0 {
        return None;
    }
    if kept.method > 0xFFF {
        return None;
    }
    Some(TransactionParts {
        plan: Plan {
            schedule: schedule_of(&kept.schedule)?,
            transport: transport_of(u32::from(kept.transport))?,
        },
        method: Method::new(kept.method),
        id: TransactionId::from_bytes(&kept.id.bytes),
        signed: Signed {
            sha1: kept.signed_by % 2 == 1,
            sha256: kept.signed_by > 1,
        },
        mechanism: mechanism_of(u32::from(kept.protection))?,
        usage: usage_of(&kept.schedule)?,
        state: RetransmissionState {
            sent: kept.sent,
            last: moment_of(kept.last),
            clock: moment_of(kept.clock),
            violated: kept.violated == 1,
            stopped: kept.stopped == 1,
            end: end_of(kept.end)?,
        },
    })
}

/// The transaction that C keeps; `None` if its numbers are those of none.
#[tactic(auto, using(crate::proofs::KeptLemmas::unsound))]
pub(crate) fn parts_of(kept: &CTransaction) -> Option<TransactionParts>
    ensures { MatchOption result (KeepsNone kept.now) (Keeps kept.now) }
{
    let parts = meant_parts(kept)?;
    parts.check().ok()?;
    Some(parts)
}

/// Stores how far a transaction has come.
pub(crate) fn store(kept: &mut CTransaction, state: &RetransmissionState)
    ensures { kept.new ≡ with_state kept.old state.now }
{
    kept.sent = state.sent;
    kept.last = millis(state.last);
    kept.clock = millis(state.clock);
    kept.violated = u8::from(state.violated);
    kept.stopped = u8::from(state.stopped);
    kept.end = state.end.map_or(0, end_number);
}
