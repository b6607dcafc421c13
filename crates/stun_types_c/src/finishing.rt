//! The end of a reply to a message that was accepted.

ghost use Rattle.std.specs.Prelude.{◌≡◌, ◌∷◌, true};
ghost use Rattle.std.specs.Option.{option_copied};
ghost use Rattle.stun_grammar.specs.Steps.{sign};
ghost use Rattle.stun_keys.specs.Keys.{key_algorithm, key_bytes, serves};
ghost use Rattle.stun_authentication.specs.Writing.{print_steps};
ghost use Rattle.stun_types_c.specs.Finishing.{signing_named, key_named, FinishesReply};
ghost use Rattle.stun_types_c.specs.KeyHandles.{shared_key};
ghost use Rattle.stun_types_c.specs.Writing.{TakesIn};

use crate::authentication::CAuthenticated;
use crate::call_result::{CResult, plain};
use crate::codes;
use crate::keys::algorithm_of;
use crate::shared_key::SharedKey;
use crate::writing::{header_of, store_end};
use std::alloc::Global;
use stun_authentication::finish_reply_with_key;
use stun_types::message::{IntegrityAlgorithm, IntegrityKey, MessageWriteMutSlice, ResumePoint};
use stun_types::prelude::*;

/// The algorithm that signs the reply, if these are the numbers of an acceptance.
fn signing_named(reported: &CAuthenticated) -> Option<IntegrityAlgorithm>
    ensures { result ≡ signing_named reported.now }
{
    if reported.kind == 1 && reported.reserved == 0 {
        algorithm_of(reported.reply_algorithm)
    } else {
        None
    }
}

/// The key that accepted.
fn key_named<'a>(
    reported: &CAuthenticated,
    first: &'a SharedKey,
    sha256: &'a SharedKey,
) -> Option<&'a IntegrityKey>
    ensures { option_copied result
        ≡ key_named reported.now (shared_key first.now) (shared_key sha256.now) }
{
    if reported.password_algorithm == 2 {
        sha256.key()
    } else {
        first.key()
    }
}

/// Signs a reply, and adds a FINGERPRINT, if one is wanted.
fn add_ending(
    alloc: Global,
    room: &mut [u8],
    written: &mut usize,
    key: &IntegrityKey,
    algorithm: IntegrityAlgorithm,
    fingerprint: bool,
) -> CResult
    requires { serves (key_algorithm key.now) algorithm ≡ true }
    ensures { TakesIn (sign algorithm (key_bytes key.now) ∷ print_steps fingerprint) result
        (record { slice = room.old; count = written.old })
        (record { slice = room.new; count = written.new }) }
{
    let Ok(point) = ResumePoint::check(room, *written) else {
        return plain(codes::BAD_ARGUMENT);
    };
    let mut write = MessageWriteMutSlice::resume_at(alloc, room, point);
    let header = header_of(write.data());
    let added = finish_reply_with_key(key, algorithm, fingerprint, &mut write);
    let end = write.finish();
    store_end(added, end, &header, room, written)
}

/// Finishes the reply to a message that was accepted: signs it, and adds a FINGERPRINT, if one is
/// wanted.
#[unsafe(no_mangle)]
pub extern "C" fn stun_types_finish_reply(
    alloc: Global,
    room: &mut [u8],
    written: &mut usize,
    reported: &CAuthenticated,
    first: &SharedKey,
    sha256: &SharedKey,
    fingerprint: bool,
) -> CResult
    ensures { FinishesReply reported.now (shared_key first.now) (shared_key sha256.now) fingerprint result
        (record { slice = room.old; count = written.old })
        (record { slice = room.new; count = written.new }) }
{
    let Some(algorithm) = signing_named(reported) else {
        return plain(codes::BAD_ARGUMENT);
    };
    match key_named(reported, first, sha256) {
        Some(key) if !key.serves(algorithm) => plain(codes::BAD_ARGUMENT),
        Some(key) => add_ending(alloc, room, written, key, algorithm, fingerprint),
        None => plain(codes::NO_KEY),
    }
}
