//! Responses, by what they are to the request that they answer (RFC 8489, sections 6.3 and 9.2.5).

ghost use Rattle.std.specs.Prelude.{◌≡◌, false, Some};
ghost use Rattle.std.specs.Option.{option_map};
ghost use Rattle.stun_grammar.specs.Headers.{id_field};
ghost use Rattle.stun_types.specs.Message.{message_bytes};
ghost use Rattle.turn_client_messages.specs.Judging.{response, discarded, failed, responded};
ghost use Rattle.turn_client_machine.specs.declared.requests.Answer.TheVariants.{Violated};
ghost use Rattle.turn_client_messages.specs.Reporting.{judged_of};
ghost use Rattle.turn_client_messages.specs.Views.{asked_of, dealing_of};

use crate::authentic::{is_authentic, key_of, pending};
use crate::granting::success;
use crate::refusing::judge_error;
use crate::{ClientRequest, Judged, Session, UNDERSTOOD};
use stun_transactions::{Discard, Failure, Received};
use stun_types::message::{Message, TransactionId};
use turn_client_machine::Answer;

/// What a response is whose integrity is wrong, or missing.
fn violation<'d>(id: TransactionId) -> Judged<'d>
    ensures { judged_of result ≡ response id false Violated }
{
    Judged::Response {
        id: id.value(),
        is_authentic: false,
        answer: Answer::Violated,
    }
}

/// What a response is that is discarded.
fn judge_discarded<'d>(id: TransactionId, reason: Discard) -> Judged<'d>
    ensures { judged_of result ≡ discarded id reason }
{
    match reason {
        Discard::NotAuthentic => violation(id),
        _ => Judged::Stray,
    }
}

/// What a response is that ends the transaction, though it isn't taken.
fn judge_failed<'d>(
    request: &ClientRequest<'_>,
    message: &Message<'d>,
    failure: Failure,
) -> Judged<'d>
    ensures { judged_of result ≡ failed (asked_of request.now) (message_bytes message.now) failure }
{
    match failure {
        Failure::IntegrityViolated(_) => violation(message.transaction_id()),
        _ => Judged::Response {
            id: message.transaction_id().value(),
            is_authentic: is_authentic(request, message),
            answer: Answer::Refused(0),
        },
    }
}

/// What a response is, if this request is waited for.
fn judge_answer<'d>(
    session: &Session<'_>,
    request: &ClientRequest<'_>,
    message: &Message<'d>,
) -> Judged<'d>
    ensures { judged_of result
        ≡ responded (dealing_of session.now) (Some (asked_of request.now)) (message_bytes message.now) }
{
    let pending = pending(request, session.transport);
    match pending.judge(key_of(request.login), *message, &UNDERSTOOD) {
        Received::NotForThis => Judged::Stray,
        Received::Discarded(reason, _) => judge_discarded(message.transaction_id(), reason),
        Received::Failed(failure) => judge_failed(request, message, failure),
        Received::Success(_, proof) => Judged::Response {
            id: message.transaction_id().value(),
            is_authentic: proof.is_some(),
            answer: success(request.request.kind, message),
        },
        Received::Error(_, code, proof) => {
            judge_error(session, request, proof.is_some(), code, message)
        }
    }
}

/// What a response is, if this request is waited for, or none is.
pub(crate) fn judge_response<'d>(
    session: &Session<'_>,
    request: Option<ClientRequest<'_>>,
    message: &Message<'d>,
) -> Judged<'d>
    ensures { judged_of result ≡ responded (dealing_of session.now) (option_map asked_of request.entry) (message_bytes message.now) }
{
    match request {
        Some(request) => judge_answer(session, &request, message),
        None => Judged::Stray,
    }
}
