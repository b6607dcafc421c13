//! Laws of datagrams. Each function does nothing: its contract is the law.

ghost use Rattle.std.specs.Prelude.{◌≡◌, ◌↔◌, ℕ, Bool, List, true};
ghost use Rattle.stun_grammar.specs.Numbers.{IsBytes};
ghost use Rattle.stun_endpoints.specs.declared.endpoints.Endpoint.{Endpoint};
ghost use Rattle.ice_checks.specs.Authentic.{IsAuthenticAs, IsAuthenticEvent};
ghost use Rattle.ice_checks.specs.Sessions.{IsUsernameOf, is_named};
ghost use Rattle.ice_checks.specs.Judging.{event_of, judge};
ghost use Rattle.ice_checks.specs.Views.{Logins};

use stun_authentication::accepted_is_authentic;
use stun_transactions::judged_is_authentic;

/// The datagrams that change an agent are the peer's. A check shows the USERNAME of the session, and is
/// authentic under this agent's key; a response is authentic under the peer's key. So the type, the
/// transaction ID and the attributes that are shown up to the integrity attribute are those of a message that
/// a holder of the key signed, or nobody signed the covered bytes (`stun_grammar::integrity_has_origin`). The
/// same holds of a request whose error response is signed.
pub fn events_are_authentic()
    ensures judged { (logins : Logins) (is_awaited : ℕ → Bool) (base : ℕ) (from : Endpoint) (d : List ℕ)
        → IsBytes d → IsAuthenticAs logins d (judge logins is_awaited base from d) }
    ensures event { (logins : Logins) (is_awaited : ℕ → Bool) (base : ℕ) (from : Endpoint) (d : List ℕ)
        → IsBytes d
        → IsAuthenticEvent logins d (event_of base from d (judge logins is_awaited base from d)) }
{
    accepted_is_authentic();
    judged_is_authentic();
}

/// The USERNAME of a check of the peer has this agent's fragment, a colon, and the peer's fragment, if that is
/// known; and every such text is one.
pub fn usernames_have_both_fragments()
    ensures { (logins : Logins) (username : List ℕ)
        → (is_named logins username ≡ true) ↔ IsUsernameOf logins username }
{}
