//! REALM and NONCE, and the end of a message: the integrity attribute and the FINGERPRINT.

ghost use Rattle.std.specs.Prelude.{◌∷◌, []};
ghost use Rattle.stun_grammar.specs.Attributes.{canonical};
ghost use Rattle.stun_grammar.specs.AttributeTypes.{REALM, NONCE};
ghost use Rattle.stun_grammar.specs.Steps.{sign};
ghost use Rattle.stun_keys.specs.Keys.{key_bytes};
ghost use Rattle.stun_authentication.specs.Asking.{asked_in};
ghost use Rattle.stun_authentication.specs.Writing.{Lengthens, Finishes, finished, signed, print_steps};

use crate::Challenge;
use crate::attributes::add_bytes;
use stun_types::attribute::{AttributeStaticType, Nonce, Realm};
use stun_types::message::{IntegrityAlgorithm, IntegrityKey, StunWriteError};
use stun_types::prelude::*;

/// Adds REALM and NONCE, which a response and the next request have alike.
pub(crate) fn add_copies<B: MessageWrite>(
    challenge: &Challenge<'_>,
    write: &mut B,
) -> Result<(), StunWriteError>
    ensures { let asked = asked_in challenge.now in
        Lengthens result (B.state write.old) (B.state write.new)
        (canonical REALM asked.realm ∷ canonical NONCE asked.nonce ∷ []) }
{
    add_bytes(Realm::TYPE, challenge.realm().as_bytes(), write)?;
    add_bytes(Nonce::TYPE, challenge.nonce().as_bytes(), write)
}

/// Adds a FINGERPRINT, if one is wanted.
pub(crate) fn add_print<B: MessageWrite>(wanted: bool, write: &mut B) -> Result<(), StunWriteError>
    ensures { Finishes result (B.state write.old) (B.state write.new) (finished wanted)
        (print_steps wanted) }
{
    if wanted {
        return write.add_fingerprint();
    }
    Ok(())
}

/// Signs a message, whichever algorithm the key was made for, and adds a FINGERPRINT, if one is
/// wanted.
pub(crate) fn sign_and_print<B: MessageWrite>(
    key: &IntegrityKey,
    algorithm: IntegrityAlgorithm,
    fingerprint: bool,
    write: &mut B,
) -> Result<(), StunWriteError>
    ensures { let key = key_bytes key.now in
        Finishes result (B.state write.old) (B.state write.new)
        (λ kind id before. finished fingerprint kind id (signed kind id before algorithm key))
        (sign algorithm key ∷ print_steps fingerprint) }
{
    write.add_message_integrity_with_key(key, algorithm)?;
    if fingerprint {
        write.add_fingerprint()?;
    }
    Ok(())
}
