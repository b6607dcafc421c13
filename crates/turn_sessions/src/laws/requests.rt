//! Requests, as a client writes them and a server judges them.

ghost use Rattle.std.specs.Prelude.{◌≡◌, ℕ, Bool, List, None, Some};
ghost use Rattle.stun_authentication.specs.Challenges.{signing_algorithm};
ghost use Rattle.stun_authentication.specs.Lookups.{UserKey};
ghost use Rattle.stun_authentication.specs.Requests.{User, asked_identity};
ghost use Rattle.stun_authentication.specs.declared.answer.Refusal.TheVariants.{Unauthenticated};
ghost use Rattle.stun_exchanges.specs.Offers.{IsShort};
ghost use Rattle.stun_exchanges.specs.Premises.{IsPrinted};
ghost use Rattle.stun_endpoints.specs.declared.endpoints.Endpoint.{Endpoint};
ghost use Rattle.turn_client_messages.specs.Requests.{text_of};
ghost use Rattle.turn_client_messages.specs.Views.{Asked, Content};
ghost use Rattle.turn_requests.specs.Requests.{Credentials};
ghost use Rattle.turn_server.specs.Accounts.{account_of};
ghost use Rattle.turn_server.specs.Judging.{Site, asked, judge, refused};
ghost use Rattle.turn_sessions.specs.Answers.{IsOf};
ghost use Rattle.turn_sessions.specs.Requests.{wanted_by};
ghost use Rattle.turn_sessions.specs.Sides.{Admits, Fits, IsInFields, IsKnown, IsLogin, IsNamed};

use stun_endpoints::sockets_are_of_endpoints;
use stun_exchanges::login_is_accepted;
use stun_types::shown_is_found;

/// A request that a client writes to answer the server's challenge, the server judges to be that request of
/// that user, authenticated with the key that it has for the user: an allocation of that lifetime, family and
/// port, a refresh with that lifetime, the end of the allocation, permissions for those peers, or that channel to
/// that peer, and nothing else. Its answer is signed with the key, by the algorithm of the request.
///
/// A request without credentials is answered with a challenge (RFC 8489, section 9.2.4).
pub fn requests_are_read()
    ensures signed { (last_channel : ℕ) (sets_df : Bool) (site : Site) (content : Content) (others : List Endpoint) (r : Asked)
        (login : Credentials) (user : User) (key : UserKey)
        → r.login ≡ Some login → IsLogin login user → Admits site login user key content.fingerprint
        → IsInFields content → IsKnown sets_df content → IsNamed others r.request.kind
        → Fits (text_of content others r)
        → judge last_channel sets_df site (text_of content others r)
        ≡ asked (account_of site.realm (asked_identity login.retry.asked user.name))
        (wanted_by site content others r.request) key (signing_algorithm login.retry) }
    ensures unsigned { (last_channel : ℕ) (sets_df : Bool) (site : Site) (content : Content) (others : List Endpoint) (r : Asked)
        → r.login ≡ None → IsPrinted site.policy.fingerprint content.fingerprint
        → IsInFields content → IsNamed others r.request.kind → Fits (text_of content others r)
        → judge last_channel sets_df site (text_of content others r) ≡ refused Unauthenticated }
    // a response to it is one to the client's request
    ensures known { (content : Content) (others : List Endpoint) (r : Asked) (login : Credentials) (user : User)
        → r.login ≡ Some login → IsLogin login user → IsShort login.retry.asked user.name
        → IsInFields content → IsNamed others r.request.kind → Fits (text_of content others r)
        → IsOf r (text_of content others r) }
    ensures known_unsigned { (content : Content) (others : List Endpoint) (r : Asked) → r.login ≡ None → IsInFields content
        → IsNamed others r.request.kind → Fits (text_of content others r) → IsOf r (text_of content others r) }
{
    sockets_are_of_endpoints();
    shown_is_found();
    login_is_accepted();
}
