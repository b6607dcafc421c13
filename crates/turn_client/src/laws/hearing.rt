//! What must be taken, and shown.

ghost use Rattle.std.specs.Prelude.{◌≡◌, ◌<◌, ◌^◌, ℕ, List, Some, true};
ghost use Rattle.std.specs.List.{list_any};
ghost use Rattle.stun_grammar.specs.Numbers.{IsBytes};
ghost use Rattle.turn_client_machine.specs.Clients.{Endpoint, is_allocated, is_endpoint, is_permitted};
ghost use Rattle.turn_client_machine.specs.declared.requests.Request.{Request};
ghost use Rattle.turn_client_machine.specs.Events.{responds, shows};
ghost use Rattle.turn_client_messages.specs.Judging.{peer_data, success};
ghost use Rattle.turn_client_messages.specs.Origins.{IsFit};
ghost use Rattle.turn_client_state.specs.States.{output_at, request_with};
ghost use Rattle.turn_client.specs.Clients.{Client, passes};
ghost use Rattle.turn_client.specs.Histories.{state_at};
ghost use Rattle.turn_client.specs.Receiving.{Receives, asked_by, event_at, judged};

use turn_client_messages::{fit_responses_are_heard, judged_is_authentic};

/// The converse of `data_is_warranted` and of `strangers_change_nothing`: a fit success response that comes
/// from the server's address, to a request under way, is taken as what it grants, exactly. It is fit if it
/// parses, has the method and the transaction ID of the request, validates with the request's key, and
/// shows nothing that isn't understood (`IsFit`). A Data indication from the server's address is shown
/// while the client has an allocation and a permission for the peer's IP address.
pub fn fit_datagrams_are_taken()
    ensures success { (client : Client) (now : ℕ) (from : Endpoint) (d : List ℕ) (r : Request)
        (next : Client) → is_endpoint from client.held.settings.server ≡ true → IsBytes d
        → request_with r.id client.held.state ≡ Some r → r.id < 2 ^ 96
        → IsFit (asked_by client r) d → Receives client now from d next
        → next ≡ passes now 0 (responds from r.id true (success r.kind d)) client }
    ensures data_shown { (client : Client) (now : ℕ) (from peer : Endpoint) (d bytes : List ℕ)
        → is_endpoint from client.held.settings.server ≡ true
        → judged client d ≡ peer_data peer bytes → is_allocated client.held.state.phase ≡ true
        → list_any (is_permitted (state_at client now).clock peer.ip) client.held.state.peers ≡ true
        → output_at now 0 (event_at client from d) client.held ≡ shows peer bytes }
{
    judged_is_authentic();
    fit_responses_are_heard();
}
