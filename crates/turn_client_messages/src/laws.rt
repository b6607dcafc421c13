//! Laws of judging. Each function does nothing: its contract is the law.

ghost use Rattle.std.specs.Prelude.{◌≡◌, ℕ, List, true, None, Some};
ghost use Rattle.stun_grammar.specs.Numbers.{IsBytes};
ghost use Rattle.turn_client_messages.specs.Views.{Asked, Dealing};
ghost use Rattle.turn_client_messages.specs.Judging.{response, success, judge, response_id};
ghost use Rattle.turn_client_messages.specs.Origins.{IsFit, IsSo, id_in};
ghost use Rattle.turn_client_messages.specs.Requests.{id_of};

/// Whatever is judged to be a response to a request is one: it parses, and has the method and the
/// transaction ID of the request. If it counts as authentic, an integrity attribute of it validates
/// with the key of the request, by a whole HMAC, so that what it shows is authentic
/// (`integrity_has_origin` of `stun_grammar`); or it is a 401 or 438 that can't be answered, which
/// servers send unsigned.
#[tactic(auto, using(crate::proofs::OriginsLemmas::judged_so))]
pub fn judged_is_authentic()
    ensures { (dealing : Dealing) (r : Asked) (d : List ℕ) → IsBytes d
        → IsSo r d (judge dealing (Some r) d) }
{}

/// A datagram is judged without regard to a request, unless [`response_id`](crate::response_id)
/// returns the transaction ID of this request. Without one it is no response.
#[tactic(auto, using(crate::proofs::OriginsLemmas::alone))]
pub fn requests_are_found_by_id()
    ensures other { (dealing : Dealing) (r : Asked) (d : List ℕ)
        → (response_id d ≡ Some (id_of r.request) → ⊥)
        → judge dealing (Some r) d ≡ judge dealing None d }
    ensures none { (dealing : Dealing) (d : List ℕ) → id_in (judge dealing None d) ≡ None }
{}

/// A success response to a signed request is judged as what it grants, if it parses, its HMAC is
/// right and whole, it shows no type that isn't understood, and it has the list of password
/// algorithms that its nonce promises.
#[tactic(auto, using(crate::proofs::HeardLemmas::heard))]
pub fn fit_responses_are_heard()
    ensures { (dealing : Dealing) (r : Asked) (d : List ℕ) → IsFit r d
        → judge dealing (Some r) d ≡ response (id_of r.request) true (success r.request.kind d) }
{}
