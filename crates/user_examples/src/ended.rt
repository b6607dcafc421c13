//! How long a message is once it is ended.

ghost use Rattle.std.specs.Prelude.{◌≡◌, ◌+◌, OnOk, length};

use stun_types::message::{IntegrityAlgorithm, IntegrityKey, StunWriteError};
use stun_types::prelude::*;
use stun_types::{fingerprint_has_length, hmac_has_length};

/// Ends a message by a MESSAGE-INTEGRITY and a FINGERPRINT: it is 32 bytes longer then.
///
/// # Errors
///
/// Those of [`MessageWriteExt::add_message_integrity_with_key`] and
/// [`MessageWriteExt::add_fingerprint`].
pub fn end_message<B: MessageWrite>(
    key: &IntegrityKey,
    message: &mut B,
) -> Result<(), StunWriteError>
    ensures { OnOk result
        (length (B.state message.new).bytes ≡ length (B.state message.old).bytes + 32) }
{
    // the laws by which the two attributes have 20 and four bytes
    hmac_has_length();
    fingerprint_has_length();
    message.add_message_integrity_with_key(key, IntegrityAlgorithm::Sha1)?;
    message.add_fingerprint()
}
