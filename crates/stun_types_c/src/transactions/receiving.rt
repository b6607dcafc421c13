//! What received bytes are for a transaction that C keeps.

ghost use Rattle.std.specs.Prelude.{◌≡◌, Some, MatchResult};
ghost use Rattle.stun_transactions.specs.Outcomes.{outcome_of, after};
ghost use Rattle.stun_transactions.specs.Parts.{at_state, whole_fault};
ghost use Rattle.stun_transactions.specs.Receiving.{received_outcome};
ghost use Rattle.stun_types_c.specs.KeyHandles.{shared_key};
ghost use Rattle.stun_types_c.specs.Transactions.{discard_kind, claim_number, proof_number, outcome_in_c, Copies, ReceivesKept};

use super::beginning::{key_answer, needed_key};
use super::kept::{parts_of, store};
use super::{CReceived, CTransaction};
use crate::call_result::{CResult, plain};
use crate::codes;
use crate::keys::number_of;
use crate::shared_key::SharedKey;
use std::alloc::{AllocError, Global};
use stun_keys::keys::copy_key;
use stun_transactions::{
    Claim, Discard, Failure, PartsError, Received, Transaction, TransactionParts,
};
use stun_types::attribute::AttributeType;
use stun_types::message::{IntegrityAlgorithm, IntegrityKey};

/// What a call leaves that decides nothing.
const NOTHING_RECEIVED: CReceived = CReceived {
    kind: 0,
    number: 0,
    algorithm: 0,
    reserved: 0,
};

/// The number of a reason to discard a response.
fn discard_kind(reason: Discard) -> u32
    ensures { result ≡ discard_kind reason }
{
    match reason {
        Discard::NotAuthentic => 1,
        Discard::BidDown => 2,
        Discard::UnsignedBadRequest => 3,
        Discard::OtherAlgorithm => 4,
        Discard::NoFingerprint => 5,
    }
}

/// The code that a response claims, or 0.
fn claim_number(claim: Claim) -> u32
    ensures { result ≡ claim_number claim }
{
    match claim.code {
        Some(code) => u32::from(code),
        None => 0,
    }
}

/// The number of an algorithm, or 0.
fn proof_number(proof: Option<IntegrityAlgorithm>) -> u32
    ensures { result ≡ proof_number proof }
{
    match proof {
        None => 0,
        Some(algorithm) => number_of(algorithm),
    }
}

/// What received bytes are, as C's numbers.
fn outcome_of(received: &Received<'_>) -> CReceived
    ensures { result ≡ outcome_in_c (outcome_of received.now) }
{
    let (kind, number, algorithm) = match received {
        Received::NotForThis => (0, 0, 0),
        Received::Discarded(reason, claim) => (discard_kind(*reason), claim_number(*claim), 0),
        Received::Failed(Failure::IntegrityViolated(claim)) => (6, claim_number(*claim), 0),
        Received::Failed(Failure::UnknownAttribute(atype)) => (7, u32::from(atype.0), 0),
        Received::Failed(Failure::NoErrorCode) => (8, 0, 0),
        Received::Success(_, proof) => (9, 0, proof_number(*proof)),
        Received::Error(_, code, proof) => (10, u32::from(*code), proof_number(*proof)),
    };
    CReceived {
        kind,
        number,
        algorithm,
        reserved: 0,
    }
}

/// The key of the transaction of these parts, or none: a copy of the one that a handle holds.
fn key_for(
    alloc: Global,
    parts: &TransactionParts,
    key: &SharedKey,
) -> Result<Option<IntegrityKey>, CResult>
    ensures { Copies parts.now (shared_key key.now) result }
{
    let needed = needed_key(parts.mechanism, key);
    if let Err(error) = parts.check_key(needed) {
        return Err(key_answer(error));
    }
    match needed {
        Some(key) => match copy_key(alloc, key) {
            Ok(copy) => Ok(Some(copy)),
            Err(AllocError) => Err(plain(codes::OUT_OF_MEMORY)),
        },
        None => Ok(None),
    }
}

/// Receives bytes for a transaction: how far it has come then, and what they are.
fn receive(
    parts: TransactionParts,
    key: Option<IntegrityKey>,
    bytes: &[u8],
    understood: &[AttributeType],
) -> Result<(TransactionParts, CReceived), PartsError>
    ensures { let outcome = received_outcome parts key understood.now bytes.now in
        MatchResult result
        (λ reported. (reported.0 ≡ at_state parts (after outcome parts.state))
        × (reported.1 ≡ outcome_in_c outcome))
        (λ e. whole_fault parts key ≡ Some e) }
{
    let mut transaction = Transaction::from_parts(parts, key)?;
    let outcome = outcome_of(&transaction.receive(bytes, understood));
    let (parts, _key) = transaction.into_parts();
    Ok((parts, outcome))
}

/// What received bytes are for a transaction.
#[unsafe(no_mangle)]
pub extern "C" fn stun_types_transaction_receive(
    alloc: Global,
    kept: &mut CTransaction,
    key: &SharedKey,
    bytes: &[u8],
    understood: &[AttributeType],
    received: &mut CReceived,
) -> CResult
    ensures { ReceivesKept (shared_key key.now) understood.now bytes.now result
        (record { kept = kept.old; reported = received.old })
        (record { kept = kept.new; reported = received.new }) }
{
    *received = NOTHING_RECEIVED;
    let Some(parts) = parts_of(kept) else {
        return plain(codes::BAD_ARGUMENT);
    };
    let copy = match key_for(alloc, &parts, key) {
        Ok(copy) => copy,
        Err(answer) => return answer,
    };
    match receive(parts, copy, bytes, understood) {
        Ok((parts, outcome)) => {
            store(kept, &parts.state);
            *received = outcome;
            plain(codes::OK)
        }
        Err(_) => plain(codes::BAD_ARGUMENT),
    }
}
