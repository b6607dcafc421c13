//! A transaction that begins.

ghost use Rattle.std.specs.Prelude.{◌≡◌, option_copied};
ghost use Rattle.stun_types_c.specs.KeyHandles.{shared_key};
ghost use Rattle.stun_types_c.specs.Transactions.{needed_key, key_answer, request_answer, BeginsKept};

use super::kept::{mechanism_of, moment_of, schedule_of, transport_of, usage_of};
use super::{CSchedule, CTransaction};
use crate::call_result::{CResult, parse_result, plain};
use crate::codes;
use crate::reading::Id;
use crate::shared_key::SharedKey;
use stun_transactions::{BeginError, Mechanism, PartsError, Plan, TransactionParts};
use stun_types::message::{IntegrityKey, Message};

/// The key that a handle holds, if a request is protected with a key.
pub(crate) fn needed_key(mechanism: Option<Mechanism>, key: &SharedKey) -> Option<&IntegrityKey>
    ensures { option_copied result ≡ needed_key mechanism (shared_key key.now) }
{
    match mechanism {
        Some(Mechanism::ShortTerm | Mechanism::LongTerm) => key.key(),
        Some(Mechanism::FirstLongTerm) | None => None,
    }
}

/// The answer if a key isn't that of a transaction.
pub(crate) fn key_answer(error: PartsError) -> CResult
    ensures { result ≡ key_answer error }
{
    match error {
        PartsError::NoKey => plain(codes::NO_KEY),
        PartsError::SignedOtherwise => plain(codes::NOT_SIGNED),
        _ => plain(codes::BAD_ARGUMENT),
    }
}

/// The answer if no transaction of a request begins.
fn request_answer(error: BeginError) -> CResult
    ensures { result ≡ request_answer error }
{
    match error {
        BeginError::NotARequest => plain(codes::NOT_A_REQUEST),
        BeginError::NotSigned => plain(codes::NOT_SIGNED),
        BeginError::Signed => plain(codes::SIGNED),
        BeginError::KeyForOneAlgorithm => plain(codes::BAD_ARGUMENT),
    }
}

/// What a call leaves that begins no transaction.
const NO_TRANSACTION: CTransaction = CTransaction {
    schedule: CSchedule {
        rto: 0,
        reliable_wait: 0,
        requests: 0,
        last_wait: 0,
        min_hmac_length: 0,
        fingerprint: 0,
        reserved: 0,
    },
    last: 0,
    clock: 0,
    id: Id { bytes: [0; 12] },
    sent: 0,
    method: 0,
    transport: 0,
    protection: 0,
    signed_by: 0,
    violated: 0,
    end: 0,
    stopped: 0,
    reserved: 0,
};

/// Begins the transaction of a request, or leaves that of none.
#[tactic(auto, using(stun_grammar::proofs::HeadersLemmas::header_there, stun_grammar::proofs::ParsingLemmas::parsed_header))]
#[unsafe(no_mangle)]
pub extern "C" fn stun_types_transaction_begin(
    kept: &mut CTransaction,
    request: &[u8],
    schedule: &CSchedule,
    transport: u32,
    protection: u32,
    key: &SharedKey,
    now: u64,
) -> CResult
    ensures { BeginsKept request.now schedule.now transport protection now
        (shared_key key.now) result kept.new }
{
    *kept = NO_TRANSACTION;
    let message = match Message::from_bytes(request) {
        Ok(message) => message,
        Err(error) => return parse_result(error),
    };
    let (Some(over), Some(usage)) = (transport_of(transport), usage_of(schedule)) else {
        return plain(codes::BAD_ARGUMENT);
    };
    let Some(mechanism) = mechanism_of(protection) else {
        return plain(codes::BAD_ARGUMENT);
    };
    let Some(waits) = schedule_of(schedule) else {
        return plain(codes::OUT_OF_RANGE);
    };
    let plan = Plan {
        schedule: waits,
        transport: over,
    };
    let moment = moment_of(now);
    let parts = match TransactionParts::new(&message, plan, mechanism, usage, moment) {
        Ok(parts) => parts,
        Err(error) => return request_answer(error),
    };
    if let Err(error) = parts.check_key(needed_key(mechanism, key)) {
        return key_answer(error);
    }
    let mut id = [0; 12];
    id.copy_from_slice(&request[8..20]);
    *kept = CTransaction {
        schedule: *schedule,
        last: now,
        clock: now,
        id: Id { bytes: id },
        sent: 0,
        method: parts.method.value(),
        transport: transport as u8,
        protection: protection as u8,
        signed_by: u8::from(parts.signed.sha1) + 2 * u8::from(parts.signed.sha256),
        violated: 0,
        end: 0,
        stopped: 0,
        reserved: 0,
    };
    plain(codes::OK)
}
