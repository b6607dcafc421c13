//! Nonces that a server makes and recognizes without keeping any.

ghost use Rattle.std.specs.Prelude.{◌≡◌, ◌⊎◌, None, Some, MatchResult};
ghost use Rattle.stun_keys.specs.Keys.{key_bytes};
ghost use Rattle.stun_authentication.specs.Nonces.{minting, minting_of};
ghost use Rattle.stun_authentication.specs.declared.nonces.Freshness.TheVariants.{Unknown};
ghost use Rattle.stun_types_c.specs.KeyHandles.{shared_key};
ghost use Rattle.stun_types_c.specs.StatelessNonces.{ByKey, ByMaker, Makes, Judges, secret_answer, state_number};
ghost use Rattle.stun_types_c.specs.CResults.{plain};
ghost use Rattle.stun_types_c.specs.Codes.{OUT_OF_MEMORY};

use crate::address::{Address, socket_of};
use crate::call_result::{CResult, plain, write_result};
use crate::codes;
use crate::refusals::{deliver, features_of};
use crate::shared_key::SharedKey;
use std::alloc::{AllocError, Global};
use std::net::SocketAddr;
use stun_authentication::{Freshness, NonceMaker, SECRET_MIN, SecurityFeatures};
use stun_keys::keys::copy_key;
use stun_types::message::IntegrityKey;

/// A maker of nonces with a copy of a secret.
pub(crate) fn maker_of(
    alloc: Global,
    secret: &IntegrityKey,
    features: SecurityFeatures,
    window: u64,
) -> Result<NonceMaker, CResult>
    ensures { MatchResult result
        (λ maker. (secret_answer (key_bytes secret.now) ≡ None)
        × (minting_of maker ≡ minting (key_bytes secret.now) features window))
        (λ answer. (secret_answer (key_bytes secret.now) ≡ Some answer)
        ⊎ ((secret_answer (key_bytes secret.now) ≡ None) × (answer ≡ plain OUT_OF_MEMORY))) }
{
    if secret.as_bytes().len() < SECRET_MIN {
        return Err(plain(codes::BAD_ARGUMENT));
    }
    let copy = match copy_key(alloc, secret) {
        Ok(copy) => copy,
        Err(AllocError) => return Err(plain(codes::OUT_OF_MEMORY)),
    };
    match NonceMaker::new(copy, features, window) {
        Ok(maker) => Ok(maker),
        Err(_) => Err(plain(codes::BAD_ARGUMENT)),
    }
}

/// Makes a nonce for a client by a secret.
fn make_by(
    alloc: Global,
    secret: &IntegrityKey,
    features: SecurityFeatures,
    window: u64,
    now: u64,
    client: SocketAddr,
    room: &mut [u8],
    written: &mut usize,
) -> CResult
    ensures { ByKey (Makes now) secret.now features window client result
        (record { slice = room.old; count = written.old })
        (record { slice = room.new; count = written.new }) }
{
    let maker = match maker_of(alloc, secret, features, window) {
        Ok(maker) => maker,
        Err(answer) => return answer,
    };
    match maker.make(alloc, now, &client) {
        Ok(nonce) => deliver(nonce.nonce().as_bytes(), room, written),
        Err(error) => write_result(error),
    }
}

/// Makes a nonce for a client.
#[unsafe(no_mangle)]
pub extern "C" fn stun_types_make_nonce(
    alloc: Global,
    secret: &SharedKey,
    features: u32,
    window: u64,
    now: u64,
    client: &Address,
    room: &mut [u8],
    written: &mut usize,
) -> CResult
    ensures { ByMaker (Makes now) (shared_key secret.now) features window client.now result
        (record { slice = room.old; count = written.old })
        (record { slice = room.new; count = written.new }) }
{
    let Some(features) = features_of(features) else {
        return plain(codes::BAD_ARGUMENT);
    };
    let Some(client) = socket_of(client) else {
        return plain(codes::BAD_ARGUMENT);
    };
    match secret.key() {
        Some(key) => make_by(alloc, key, features, window, now, client, room, written),
        None => plain(codes::NO_KEY),
    }
}

/// The number of what is known of a nonce.
fn state_number(state: Freshness) -> u32
    ensures { result ≡ state_number state }
{
    match state {
        Freshness::Fresh => 1,
        Freshness::Stale => 2,
        Freshness::Unknown => 0,
    }
}

/// What is known, by a secret, of a nonce that came from a client.
fn judge_by(
    alloc: Global,
    secret: &IntegrityKey,
    features: SecurityFeatures,
    window: u64,
    now: u64,
    client: SocketAddr,
    nonce: &[u8],
    state: &mut u32,
) -> CResult
    ensures { ByKey (Judges now nonce.now) secret.now features window client result
        state.old state.new }
{
    let maker = match maker_of(alloc, secret, features, window) {
        Ok(maker) => maker,
        Err(answer) => return answer,
    };
    *state = state_number(maker.freshness(now, &client, nonce));
    plain(codes::OK)
}

/// What is known of a nonce that came from a client.
#[unsafe(no_mangle)]
pub extern "C" fn stun_types_judge_nonce(
    alloc: Global,
    secret: &SharedKey,
    features: u32,
    window: u64,
    now: u64,
    client: &Address,
    nonce: &[u8],
    state: &mut u32,
) -> CResult
    ensures { ByMaker (Judges now nonce.now) (shared_key secret.now) features window client.now result
        (state_number Unknown) state.new }
{
    *state = state_number(Freshness::Unknown);
    let Some(features) = features_of(features) else {
        return plain(codes::BAD_ARGUMENT);
    };
    let Some(client) = socket_of(client) else {
        return plain(codes::BAD_ARGUMENT);
    };
    match secret.key() {
        Some(key) => judge_by(alloc, key, features, window, now, client, nonce, state),
        None => plain(codes::NO_KEY),
    }
}
