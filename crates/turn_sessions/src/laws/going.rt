//! A client that goes on at a server, in bytes.

ghost use Rattle.std.specs.Prelude.{◌≡◌, ◌<◌, ◌≤◌, ◌+◌, ◌∷◌, ℕ, List, true};
ghost use Rattle.std.specs.List.{AllByRecursion, list_any};
ghost use Rattle.stun_endpoints.specs.declared.endpoints.Endpoint.{Endpoint};
ghost use Rattle.turn_client.specs.Clients.{Client};
ghost use Rattle.turn_client.specs.Histories.{state_at};
ghost use Rattle.turn_client.specs.Rounds.{Round, all_rounds};
ghost use Rattle.turn_client.specs.Runs.{Moment, after_all};
ghost use Rattle.turn_client_machine.specs.Clients.{is_ip, is_peer, seconds};
ghost use Rattle.turn_client_machine.specs.Lasting.{IsInTime, IsOn};
ghost use Rattle.turn_client_machine.specs.Reach.{IsPunctual};
ghost use Rattle.turn_client_machine.specs.Rounds.{IsCalm};
ghost use Rattle.turn_sessions.specs.Going.{AreServedRounds};

use stun_endpoints::sockets_are_of_endpoints;
use stun_exchanges::login_is_accepted;
use stun_types::shown_is_found;
use turn_client_messages::fit_responses_are_heard;

/// A client at a server stays punctual for ever, for each of its peers: if each request that its polls write is fit
/// at the server when its bytes come there (`fit_is_heard`), if the bytes of the response come to the client at once,
/// and if it is polled until `TurnClient::next_wake` returns a later moment, and again at most `late` after that. By
/// `data_crosses` data then crosses in both directions. A Refresh request, a CreatePermission request for one peer or
/// for several, and a ChannelBind request may each be written.
///
/// It begins with an allocation, as `turn_client::goes_on` does; of a challenge in between, it says nothing. That the
/// server still has the allocation, and that the client awaits the response, are premises.
pub fn goes_on()
    ensures { (client : Client) (earlier : List Moment) (round : Round) (rounds : List Round)
        (lifetime late slack later : ℕ) (named peer : Endpoint)
        → 0 < client.held.settings.most_sends → 80 ≤ lifetime → late + slack < seconds 20
        → let before = (after_all client earlier).held.state in IsCalm before → IsInTime 0 before
        → is_ip peer.ip named.ip ≡ true → list_any (is_peer named) before.peers ≡ true
        → AllByRecursion (IsOn named) before.peers
        → AreServedRounds client lifetime late (round ∷ rounds) earlier
        → let after = after_all client (all_rounds client (round ∷ rounds) earlier) in
        later ≤ after.held.state.clock + late
        → IsPunctual late slack named peer (state_at after later) }
{
    sockets_are_of_endpoints();
    shown_is_found();
    login_is_accepted();
    fit_responses_are_heard();
    turn_client::goes_on();
}
