//! Requests that a server grants, in the bytes of both sides.

ghost use Rattle.std.specs.Prelude.{◌≡◌, ◌≤◌, ◌<◌, ◌^◌, ◌∷◌, [], ℕ, false, true, List, length, None, Some, is_some};
ghost use Rattle.stun_grammar.specs.Numbers.{IsBytes};
ghost use Rattle.stun_values.specs.declared.algorithm.PasswordAlgorithmValue.{PasswordAlgorithmValue};
ghost use Rattle.stun_authentication.specs.declared.answer.Refusal.TheVariants.{Unauthenticated};
ghost use Rattle.stun_authentication.specs.Asking.{Asked as Challenged};
ghost use Rattle.stun_authentication.specs.Challenges.{retry_with};
ghost use Rattle.stun_authentication.specs.Cookies.{promises_algorithms};
ghost use Rattle.stun_authentication.specs.Lookups.{UserKey};
ghost use Rattle.stun_authentication.specs.Refusing.{refusal_of};
ghost use Rattle.stun_exchanges.specs.Offers.{IsLawful, Retries, Takes};
ghost use Rattle.stun_exchanges.specs.Premises.{IsPrinted};
ghost use Rattle.stun_endpoints.specs.declared.endpoints.Endpoint.{Endpoint};
ghost use Rattle.turn_allocations.specs.Requests.{has_numbers, wants_of as wants_in};
ghost use Rattle.turn_client.specs.Clients.{Client, login_for};
ghost use Rattle.turn_client.specs.Receiving.{Receives, TakesChallenge, asked_by, had_algorithms};
ghost use Rattle.turn_client.specs.Sending.{request_text};
ghost use Rattle.turn_client_machine.specs.declared.requests.Answer.TheVariants.{Done, Extended, Opened};
ghost use Rattle.turn_client_machine.specs.declared.requests.Kind.TheVariants.{Allocate, Bind, Permit, Refresh};
ghost use Rattle.turn_client_machine.specs.declared.requests.Request.{Request};
ghost use Rattle.turn_client_messages.specs.Pending.{is_authentic};
ghost use Rattle.turn_client_state.specs.States.{request_with};
ghost use Rattle.turn_machine.specs.Events.{Offer, Want};
ghost use Rattle.turn_machine.specs.Granting.{CanBind, CanPermit, IsFit, IsOwn};
ghost use Rattle.turn_machine.specs.Times.{granted_for, refreshed_for};
ghost use Rattle.turn_peers.specs.Tunnels.{is_tunnelled};
ghost use Rattle.turn_requests.specs.Requests.{Credentials};
ghost use Rattle.turn_server.specs.Acting.{act, refuses};
ghost use Rattle.turn_sessions.specs.Hearing.{Host, IsAnswered, IsMet, account_at, sent_by, state_there};
ghost use Rattle.turn_sessions.specs.Requests.{is_plain, wants_of};
ghost use Rattle.turn_sessions.specs.Sides.{Fits, IsInFields, IsNamed, IsTransport};

use stun_endpoints::sockets_are_of_endpoints;
use stun_exchanges::{challenge_is_read, login_is_accepted};
use stun_types::shown_is_found;
use turn_client_messages::{fit_responses_are_heard, judged_is_authentic};

/// A signed request of a client that is fit at the server is granted, and from the bytes of the response the client
/// hears that success: the bytes of the request make the server respond, and while the client awaits a response, the
/// bytes of this one are the event that its laws assume (`turn_client::goes_on`). An Allocate request opens the
/// relayed address of the socket that the server has ready, for the lifetime that it grants, which a Refresh request
/// is granted again; and each peer of a CreatePermission request is permitted, and the channel of a ChannelBind
/// request bound.
///
/// It doesn't say that a datagram arrives. An Allocate request that comes again, with its allocation open, one that
/// reserves a port or asks for a reserved one, and one that the server refuses are not part of it.
pub fn fit_is_heard()
    ensures opened { (client : Client) (r : Request) (others : List Endpoint) (login : Credentials)
        (host : Host) (key : UserKey) (want : Want) (offer : Offer)
        → let sent = sent_by client r others login in IsMet sent host key → r.kind ≡ Allocate
        → is_tunnelled host.site.client ≡ false → is_plain client.content.port ≡ true
        → wants_in (has_numbers (state_there host)) host.numbers
        (wants_of host.site.sockets client.content) ≡ want ∷ []
        → IsFit host.setup host.tuple (account_at host sent) want offer (state_there host)
        → IsTransport offer.address
        → IsAnswered sent host key (Opened offer.address host.tuple.client
        (granted_for client.content.lifetime host.setup.greatest_lifetime)) }
    ensures refreshed { (client : Client) (r : Request) (others : List Endpoint) (login : Credentials)
        (host : Host) (key : UserKey) → let sent = sent_by client r others login in IsMet sent host key
        → r.kind ≡ Refresh → IsOwn host.tuple (account_at host sent) (state_there host)
        → IsAnswered sent host key
        (Extended (refreshed_for client.content.lifetime host.setup.greatest_lifetime)) }
    ensures permitted { (client : Client) (r : Request) (others : List Endpoint) (login : Credentials)
        (host : Host) (key : UserKey) (peer : Endpoint) → let sent = sent_by client r others login in
        IsMet sent host key → r.kind ≡ Permit peer → length (peer ∷ others) ≤ 64
        → CanPermit host.setup host.rules host.tuple (account_at host sent) (peer ∷ others)
        (state_there host)
        → IsAnswered sent host key Done }
    ensures bound { (client : Client) (r : Request) (others : List Endpoint) (login : Credentials)
        (host : Host) (key : UserKey) (number : ℕ) (peer : Endpoint)
        → let sent = sent_by client r others login in IsMet sent host key → r.kind ≡ Bind number peer
        → CanBind host.setup host.rules host.tuple (account_at host sent) number peer (state_there host)
        → IsAnswered sent host key Done }
{
    sockets_are_of_endpoints();
    shown_is_found();
    login_is_accepted();
    fit_responses_are_heard();
}

/// A request of a client that has no credentials yet, the server refuses with a challenge (RFC 8489, section 9.2.4);
/// and the client takes the challenge from the bytes of that response: it keeps the key that the challenge and the
/// user's password make, which signs its next requests (section 9.2.5).
///
/// It says nothing of the challenge but that it can be answered: the server made it for this client, and a later
/// request finds it valid, if `IsMet` says so.
pub fn challenge_is_heard()
    ensures refused { (client : Client) (r : Request) (others : List Endpoint) (host : Host)
        → login_for client r ≡ None → IsPrinted host.site.policy.fingerprint client.content.fingerprint
        → IsInFields client.content → IsNamed others r.kind → let q = request_text client r others in Fits q
        → act host.site host.setup host.rules host.tuple host.numbers host.held host.now q
        ≡ refuses Unauthenticated }
    ensures taken { (client : Client) (r : Request) (others : List Endpoint) (challenged : Challenged)
        (algorithm : PasswordAlgorithmValue) (now : ℕ) (next : Client)
        → r.id < 2 ^ 96 → login_for client r ≡ None → IsInFields client.content → IsNamed others r.kind
        → let q = request_text client r others in Fits q → request_with r.id client.held.state ≡ Some r
        → IsLawful challenged → promises_algorithms challenged.nonce ≡ is_some challenged.list
        → Takes client.algorithms challenged algorithm
        → Retries None (had_algorithms client.kept) Unauthenticated challenged
        → let d = refusal_of q Unauthenticated (Some challenged) in Fits d → IsBytes d
        → let server = client.held.settings.server in Receives client now server d next
        → TakesChallenge client now server r.id (is_authentic (asked_by client r) d) 401
        (retry_with challenged algorithm) next }
{
    shown_is_found();
    challenge_is_read();
    judged_is_authentic();
}
