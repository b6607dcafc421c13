//! The end of a check or a response: its integrity attribute, and FINGERPRINT.

ghost use Rattle.std.specs.Prelude.{◌≡◌, ◌∷◌, true, length};
ghost use Rattle.std.specs.Option.{option_map};
ghost use Rattle.stun_keys.specs.Keys.{key_algorithm, key_bytes};
ghost use Rattle.stun_grammar.specs.Steps.{sign};
ghost use Rattle.stun_authentication.specs.Writing.{FinishesBy, finished, no_room, print_steps, signed, step_sizes};
ghost use Rattle.ice_checks.specs.Checks.{Ends, end_refusal, end_steps, ended};
ghost use Rattle.ice_checks.specs.Views.{signing_of};

use stun_authentication::finish_reply_with_key;
use stun_types::message::{IntegrityAlgorithm, IntegrityKey, StunWriteError};
use stun_types::prelude::*;

/// What a response is signed by.
#[derive(Clone, Copy, Debug)]
pub struct Signature<'a> {
    /// The key of this agent's password.
    pub key: &'a IntegrityKey,
    /// The algorithm of the check (RFC 8489, section 9.1.3): that of [`Judged`](crate::Judged).
    pub algorithm: IntegrityAlgorithm,
}

/// Adds a FINGERPRINT.
fn print<B: MessageWrite>(write: &mut B) -> Result<(), StunWriteError>
    ensures { Ends result (B.state write.old) (B.state write.new) (finished true)
        (print_steps true) (no_room (B.state write.old).greatest (length (B.state write.old).bytes)
        (step_sizes (print_steps true))) }
{
    write.add_fingerprint()
}

/// Signs a message, and adds a FINGERPRINT.
fn sign_and_print<B: MessageWrite>(
    signature: &Signature<'_>,
    write: &mut B,
) -> Result<(), StunWriteError>
    ensures { let a = signature.now.algorithm in let key = key_bytes signature.now.key.now in
        FinishesBy (key_algorithm signature.now.key.now) a result (B.state write.old) (B.state write.new)
        (λ kind id before. finished true kind id (signed kind id before a key))
        (sign a key ∷ print_steps true) }
{
    finish_reply_with_key(signature.key, signature.algorithm, true, write)
}

/// Finishes a check or a response: signs it, if there is a signature, and adds a FINGERPRINT.
pub(crate) fn finish<B: MessageWrite>(
    signature: Option<Signature<'_>>,
    write: &mut B,
) -> Result<(), StunWriteError>
    ensures { Ends result (B.state write.old) (B.state write.new) (ended (option_map signing_of signature.entry))
        (end_steps (option_map signing_of signature.entry))
        (end_refusal (option_map signing_of signature.entry) (B.state write.old).greatest
        (length (B.state write.old).bytes)) }
{
    match signature {
        Some(signature) => sign_and_print(&signature, write),
        None => print(write),
    }
}
