//! Error responses (RFC 8656, sections 7.4, 8.3, 10.3 and 12.3; RFC 8489, sections 9.2.5 and 10).

ghost use Rattle.std.specs.Prelude.{◌≡◌};
ghost use Rattle.stun_grammar.specs.Headers.{id_field};
ghost use Rattle.stun_types.specs.Message.{message_bytes};
ghost use Rattle.turn_client_messages.specs.Judging.{other_error, by_challenge, error};
ghost use Rattle.turn_client_messages.specs.Pending.{realm_tried};
ghost use Rattle.stun_authentication.specs.Challenges.{challenge_of};
ghost use Rattle.turn_client_messages.specs.Reporting.{judged_of};
ghost use Rattle.turn_client_messages.specs.Views.{asked_of, dealing_of};

use crate::authentic::realm_tried;
use crate::values::alternate_in;
use crate::{ClientRequest, Judged, Session};
use stun_authentication::{challenge_of, is_challenge};
use stun_types::attribute::ErrorCode;
use stun_types::message::Message;
use turn_client_machine::Answer;

/// What an error response answers that is no challenge.
fn other_error(session: &Session<'_>, code: u16, message: &Message<'_>) -> Answer
    ensures { result ≡ other_error (dealing_of session.now) code (message_bytes message.now) }
{
    if code != ErrorCode::TRY_ALTERNATE {
        return Answer::Refused(code);
    }
    match alternate_in(message, session.server.ip.family) {
        Some(server) => Answer::Redirected(server),
        None => Answer::Refused(code),
    }
}

/// What a challenge to a request is.
fn judge_challenge<'d>(
    session: &Session<'_>,
    request: &ClientRequest<'_>,
    is_authentic: bool,
    code: u16,
    message: &Message<'d>,
) -> Judged<'d>
    ensures { let d = message_bytes message.now in
        judged_of result ≡ by_challenge (id_field d) is_authentic code
        (challenge_of session.now.algorithms.now (realm_tried (asked_of request.now).login)
        session.now.had_algorithms d) }
{
    let id = message.transaction_id().value();
    let tried = realm_tried(request.login);
    match challenge_of(message, session.algorithms, tried, session.had_algorithms) {
        Ok(retry) => Judged::Challenge {
            id,
            is_authentic,
            code,
            retry,
        },
        Err(_) => Judged::Response {
            id,
            is_authentic: true,
            answer: Answer::Refused(code),
        },
    }
}

/// What an error response to a request is.
pub(crate) fn judge_error<'d>(
    session: &Session<'_>,
    request: &ClientRequest<'_>,
    is_authentic: bool,
    code: u16,
    message: &Message<'d>,
) -> Judged<'d>
    ensures { judged_of result
        ≡ error (dealing_of session.now) (asked_of request.now) is_authentic code (message_bytes message.now) }
{
    if is_challenge(message) {
        return judge_challenge(session, request, is_authentic, code, message);
    }
    Judged::Response {
        id: message.transaction_id().value(),
        is_authentic,
        answer: other_error(session, code, message),
    }
}
