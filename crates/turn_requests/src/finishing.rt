//! The end of a request: its credentials, and a FINGERPRINT.

ghost use Rattle.std.specs.Prelude.{length};
ghost use Rattle.stun_keys.specs.Keys.{key_algorithm, key_bytes};
ghost use Rattle.stun_authentication.specs.Requests.{AnswersWith};
ghost use Rattle.stun_authentication.specs.Writing.{finished, no_room, step_sizes, print_steps};
ghost use Rattle.turn_requests.specs.Requests.{Ends, credentials_of, credentials_in, end_refusal, end_steps, ended};

use crate::request::Login;
use stun_authentication::answer_challenge_with_key;
use stun_types::message::StunWriteError;
use stun_types::prelude::*;

/// Adds a FINGERPRINT, if one is wanted.
fn add_print<B: MessageWrite>(wanted: bool, write: &mut B) -> Result<(), StunWriteError>
    ensures { Ends result (B.state write.old) (B.state write.new) (finished wanted)
        (print_steps wanted) (no_room (B.state write.old).greatest (length (B.state write.old).bytes)
        (step_sizes (print_steps wanted))) }
{
    if wanted {
        return write.add_fingerprint();
    }
    Ok(())
}

/// Adds what the challenge of a login asks for, signs the request, and adds a FINGERPRINT, if one is
/// wanted.
fn answer_by<B: MessageWrite>(
    login: &Login<'_>,
    fingerprint: bool,
    write: &mut B,
) -> Result<(), StunWriteError>
    ensures { let by = credentials_of login.now in AnswersWith by.retry by.name (key_algorithm by.key)
        (key_bytes by.key) fingerprint result (B.state write.old) (B.state write.new) }
{
    answer_challenge_with_key(login.retry, login.name, login.key, fingerprint, write)
}

/// Finishes a request: signs it by a login, if there is one, and adds a FINGERPRINT, if one is wanted.
pub(crate) fn finish_request<B: MessageWrite>(
    login: Option<Login<'_>>,
    fingerprint: bool,
    write: &mut B,
) -> Result<(), StunWriteError>
    ensures { let by = credentials_in login.entry in
        Ends result (B.state write.old) (B.state write.new) (ended by fingerprint) (end_steps by fingerprint)
        (end_refusal by fingerprint (B.state write.old).greatest (length (B.state write.old).bytes)) }
{
    match login {
        Some(login) => answer_by(&login, fingerprint, write),
        None => add_print(fingerprint, write),
    }
}
