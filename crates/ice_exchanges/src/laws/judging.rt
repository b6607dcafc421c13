//! Checks and their responses, as one agent writes them and the other judges them.

ghost use Rattle.std.specs.Prelude.{◌≡◌, ℕ, ◌^◌, ◌<◌, Bool, true, List, Option, Some, None};
ghost use Rattle.stun_grammar.specs.declared.integrity_algorithm.IntegrityAlgorithm.{IntegrityAlgorithm};
ghost use Rattle.stun_endpoints.specs.declared.endpoints.Endpoint.{Endpoint};
ghost use Rattle.ice_machine.specs.declared.messages.Request.{Request};
ghost use Rattle.ice_machine.specs.declared.messages.Answer.{Answer};
ghost use Rattle.ice_machine.specs.Exchanges.{delivered};
ghost use Rattle.ice_checks.specs.declared.judged.Judged.{Judged};
ghost use Rattle.ice_checks.specs.Checks.{check_text, response_text};
ghost use Rattle.ice_checks.specs.Judging.{judge};
ghost use Rattle.ice_checks.specs.Views.{Login, Logins, role_conflict, success};
ghost use Rattle.ice_exchanges.specs.Peers.{AreShort, IsInFields, IsTransport, Knows};

use stun_endpoints::sockets_are_of_endpoints;

/// A check that one agent writes is that check for the other one: with the request's transaction ID, role,
/// tiebreaker, PRIORITY and USE-CANDIDATE, at the base and from the address that it arrives at and comes from.
pub fn checks_are_judged()
    ensures { (one other : Logins) (peer : Login) (software : Option (List ℕ)) (r : Request)
        (is_awaited : ℕ → Bool) (base : ℕ) (from : Endpoint)
        → Knows one peer other → AreShort one peer software → IsInFields r
        → judge other is_awaited base from (check_text peer one.own.fragment software r)
        ≡ Judged.Checks (delivered r base from) IntegrityAlgorithm.Sha1 }
{}

/// A success response that the other agent writes to such a check is that for the one, as long as a response to
/// the check is waited for: with the address that the check came from.
pub fn successes_are_judged()
    ensures { (one other : Logins) (peer : Login) (is_awaited : ℕ → Bool) (base id : ℕ)
        (from source : Endpoint) → Knows one peer other → id < 2 ^ 96 → IsTransport source
        → is_awaited id ≡ true → judge one is_awaited base from (response_text id (success source)
        (Some (record { key = other.own.key; algorithm = IntegrityAlgorithm.Sha1 })))
        ≡ Judged.Responds id Answer.Accepted (Some source) }
{
    sockets_are_of_endpoints();
}

/// The same of error 487 (Role Conflict).
pub fn conflicts_are_judged()
    ensures { (one other : Logins) (peer : Login) (is_awaited : ℕ → Bool) (base id : ℕ)
        (from : Endpoint) → Knows one peer other → id < 2 ^ 96
        → is_awaited id ≡ true → judge one is_awaited base from (response_text id role_conflict
        (Some (record { key = other.own.key; algorithm = IntegrityAlgorithm.Sha1 })))
        ≡ Judged.Responds id (Answer.Refused 487) None }
{}
