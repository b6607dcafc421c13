//! What a datagram of who doesn't hold the user's key can change.

ghost use Rattle.std.specs.Prelude.{◌≡◌, ◌≤◌, ℕ, List, None, ◌∷◌, ◌++◌, false};
ghost use Rattle.stun_authentication.specs.Codes.{is_challenge};
ghost use Rattle.stun_grammar.specs.Numbers.{IsBytes};
ghost use Rattle.turn_client_machine.specs.Clients.{Endpoint, is_endpoint};
ghost use Rattle.turn_client_machine.specs.Events.{nothing};
ghost use Rattle.turn_client_state.specs.States.{output_at};
ghost use Rattle.turn_client.specs.Clients.{Client};
ghost use Rattle.turn_client.specs.Receiving.{Receives, awaited, event_at};
ghost use Rattle.turn_client.specs.Runs.{Moment, after_all, stepped};
ghost use Rattle.turn_client.specs.Strangers.{aged, IsUnsigned, unmarked};

use turn_client_messages::{judged_is_authentic, requests_are_found_by_id};

/// A datagram from another address than the server's shows nothing and changes nothing but the clock; so
/// does, to all that is kept, one that is no response to a request under way. From the server's address,
/// over UDP, a response whose HMAC doesn't validate under the key of its request changes nothing but a
/// mark, unless it is a 401 or 438, which servers send unsigned (RFC 8489, section 9.2.5): the mark decides
/// only for which reason the client ends if nothing else answers that request. What changes nothing but
/// the clock is forgotten: all that comes later is as if it hadn't come.
pub fn strangers_change_nothing()
    ensures elsewhere { (client : Client) (now : ℕ) (from : Endpoint) (d : List ℕ) (next : Client)
        → is_endpoint from client.held.settings.server ≡ false → Receives client now from d next
        → (next ≡ aged now client)
        × (output_at now 0 (event_at client from d) client.held ≡ nothing) }
    ensures unanswered { (client : Client) (now : ℕ) (from : Endpoint) (d : List ℕ) (next : Client)
        → awaited client d ≡ None → Receives client now from d next → next ≡ aged now client }
    ensures unsigned { (client : Client) (now : ℕ) (from : Endpoint) (d : List ℕ) (next : Client)
        → IsBytes d → client.held.settings.is_reliable ≡ false → is_challenge d ≡ false
        → IsUnsigned client d → Receives client now from d next
        → unmarked next ≡ unmarked (aged now client) }
    ensures forgotten { (client : Client) (later : List Moment) (next stranger : Moment)
        (earlier : List Moment) → let before = after_all client earlier in
        stepped before stranger.now stranger.fresh stranger.call ≡ aged stranger.now before
        → stranger.now ≤ next.now → after_all client (later ++ next ∷ stranger ∷ earlier)
        ≡ after_all client (later ++ next ∷ earlier) }
{
    turn_client_machine::strangers_change_nothing();
    judged_is_authentic();
    requests_are_found_by_id();
}
