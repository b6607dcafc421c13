//! When C sends a request, and how its transaction ends.

ghost use Rattle.std.specs.Prelude.{◌≡◌};
ghost use Rattle.stun_types_c.specs.Transactions.{Ends, StopsKept, PollsKept};

use super::kept::{end_number, millis, moment_of, parts_of, store};
use super::{CAction, CTransaction};
use crate::call_result::{CResult, plain};
use crate::codes;
use stun_transactions::{Action, TransactionEnd};

/// What a call leaves that decides nothing.
const NOTHING_WANTED: CAction = CAction {
    kind: 0,
    end: 0,
    until: 0,
    reserved: 0,
};

/// What is to be done now.
#[unsafe(no_mangle)]
pub extern "C" fn stun_types_transaction_poll(
    kept: &mut CTransaction,
    now: u64,
    wanted: &mut CAction,
) -> CResult
    ensures { PollsKept now result
        (record { kept = kept.old; wanted = wanted.old })
        (record { kept = kept.new; wanted = wanted.new }) }
{
    *wanted = NOTHING_WANTED;
    let Some(mut parts) = parts_of(kept) else {
        return plain(codes::BAD_ARGUMENT);
    };
    let action = parts.poll(moment_of(now));
    store(kept, &parts.state);
    *wanted = match action {
        Action::Send => CAction {
            kind: 1,
            ..NOTHING_WANTED
        },
        Action::WaitUntil(until) => CAction {
            kind: 2,
            until: millis(until),
            ..NOTHING_WANTED
        },
        Action::Ended(end) => CAction {
            kind: 3,
            end: u32::from(end_number(end)),
            ..NOTHING_WANTED
        },
    };
    plain(codes::OK)
}

/// Stops sending the request of a transaction, unless it has ended.
#[unsafe(no_mangle)]
pub extern "C" fn stun_types_transaction_stop_sending(kept: &mut CTransaction) -> CResult
    ensures { StopsKept result kept.old kept.new }
{
    let Some(mut parts) = parts_of(kept) else {
        return plain(codes::BAD_ARGUMENT);
    };
    parts.stop_sending();
    store(kept, &parts.state);
    plain(codes::OK)
}

/// Ends a transaction, unless it has ended: the caller wants no response.
#[unsafe(no_mangle)]
pub extern "C" fn stun_types_transaction_cancel(kept: &mut CTransaction) -> CResult
    ensures { Ends TransactionEnd.Cancelled result kept.old kept.new }
{
    let Some(mut parts) = parts_of(kept) else {
        return plain(codes::BAD_ARGUMENT);
    };
    parts.cancel();
    store(kept, &parts.state);
    plain(codes::OK)
}

/// Ends a transaction, unless it has ended: the transport failed.
#[unsafe(no_mangle)]
pub extern "C" fn stun_types_transaction_fail(kept: &mut CTransaction) -> CResult
    ensures { Ends TransactionEnd.TransportFailed result kept.old kept.new }
{
    let Some(mut parts) = parts_of(kept) else {
        return plain(codes::BAD_ARGUMENT);
    };
    parts.fail();
    store(kept, &parts.state);
    plain(codes::OK)
}
