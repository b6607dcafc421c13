//! Responses, as a server writes them and a client judges them.

ghost use Rattle.std.specs.Prelude.{◌≡◌, ◌≤◌, ℕ, true, List, length, Option, None, Some, IfSome, is_some};
ghost use Rattle.stun_grammar.specs.declared.integrity_algorithm.IntegrityAlgorithm.{IntegrityAlgorithm};
ghost use Rattle.stun_grammar.specs.ScannedOrder.{has};
ghost use Rattle.stun_values.specs.declared.algorithm.PasswordAlgorithmValue.{PasswordAlgorithmValue};
ghost use Rattle.stun_authentication.specs.declared.answer.Refusal.{Refusal};
ghost use Rattle.stun_authentication.specs.Answers.{refusal_code};
ghost use Rattle.stun_authentication.specs.Asking.{Asked as Challenged};
ghost use Rattle.stun_authentication.specs.Challenges.{retry_with};
ghost use Rattle.stun_authentication.specs.Cookies.{promises_algorithms};
ghost use Rattle.stun_authentication.specs.Refusing.{refusal_of};
ghost use Rattle.stun_endpoints.specs.declared.endpoints.Endpoint.{Endpoint};
ghost use Rattle.stun_exchanges.specs.Offers.{IsLawful, Retries, Takes, asks};
ghost use Rattle.stun_exchanges.specs.Premises.{WorksAs};
ghost use Rattle.turn_client_machine.specs.declared.requests.Answer.TheVariants.{Refused};
ghost use Rattle.turn_client_messages.specs.Judging.{challenge, judge, response};
ghost use Rattle.turn_client_messages.specs.Pending.{is_authentic, realm_tried};
ghost use Rattle.turn_client_messages.specs.Requests.{id_of};
ghost use Rattle.turn_client_messages.specs.Views.{Asked, Dealing};
ghost use Rattle.turn_machine.specs.Events.{Answer, refused};
ghost use Rattle.turn_requests.specs.Requests.{Credentials};
ghost use Rattle.turn_server.specs.Answers.{ANSWER_CODES, answer_text};
ghost use Rattle.turn_sessions.specs.Answers.{IsOf, IsSuccess, says};
ghost use Rattle.turn_sessions.specs.Sides.{Fits, IsTransport};

use stun_endpoints::sockets_are_of_endpoints;
use stun_exchanges::challenge_is_read;
use stun_types::shown_is_found;
use turn_client_messages::fit_responses_are_heard;

/// A success response that a server writes to a request, signed with the user's key, the client judges as
/// authentic, as that success: with the relayed address, the client's own address and the lifetime, exactly. A
/// signed error response it judges as authentic, with that code. Of a 401 or 438, which isn't signed, it reads the
/// challenge that the server made (RFC 8489, section 9.2.5).
pub fn responses_are_judged()
    ensures success { (dealing : Dealing) (r : Asked) (login : Credentials)
        (software : Option (List ℕ)) (client : Endpoint) (q : List ℕ) (answer : Answer) (key : List ℕ)
        (algorithm : IntegrityAlgorithm) → IsOf r q → r.login ≡ Some login
        → WorksAs key algorithm login.key → IsTransport client
        → IfSome software (λ name. length name ≤ 763) → IsSuccess r.request.kind answer
        → judge dealing (Some r) (answer_text software client q answer None key algorithm)
        ≡ response (id_of r.request) true (says client answer) }
    ensures refused { (dealing : Dealing) (r : Asked) (login : Credentials)
        (software : Option (List ℕ)) (client : Endpoint) (q : List ℕ) (code : ℕ) (key : List ℕ)
        (algorithm : IntegrityAlgorithm) → IsOf r q → r.login ≡ Some login
        → WorksAs key algorithm login.key → IfSome software (λ name. length name ≤ 763)
        → has code ANSWER_CODES ≡ true
        → judge dealing (Some r) (answer_text software client q (refused code) None key algorithm)
        ≡ response (id_of r.request) true (Refused code) }
    ensures challenged { (dealing : Dealing) (r : Asked) (q : List ℕ) (refusal : Refusal)
        (challenged : Challenged) (algorithm : PasswordAlgorithmValue) → IsOf r q
        → asks refusal ≡ true → IsLawful challenged
        → promises_algorithms challenged.nonce ≡ is_some challenged.list
        → Takes dealing.algorithms challenged algorithm
        → Retries (realm_tried r.login) dealing.had_algorithms refusal challenged
        → let d = refusal_of q refusal (Some challenged) in Fits d
        → judge dealing (Some r) d ≡ challenge (id_of r.request) (is_authentic r d)
        (refusal_code refusal) (retry_with challenged algorithm) }
{
    sockets_are_of_endpoints();
    shown_is_found();
    challenge_is_read();
    fit_responses_are_heard();
}
