//! The limits of the state, and of the attempts.

ghost use Rattle.std.specs.Prelude.{◌≡◌, ◌<◌, ◌≤◌, ℕ, List, length, min, true};
ghost use Rattle.std.specs.List.{AllByRecursion, list_any};
ghost use Rattle.turn_client_machine.specs.Events.{permits, binds};
ghost use Rattle.turn_client_machine.specs.Clients.{Setup, State, Endpoint, Rejected};
ghost use Rattle.turn_client_machine.specs.Runs.{Timed, run};
ghost use Rattle.turn_client_machine.specs.Steps.{step};
ghost use Rattle.turn_client_machine.specs.Bounds.{IsWithin, AreNumbered, requests_at_once, has_named, has_wanted};
ghost use Rattle.turn_client_machine.specs.Attempts.{Attempt, AreNext, begun_attempt, rest_after};

/// After any events, the peers, the sendings of each request and the retries are within the
/// setup's limits, at most ten requests are under way at once, and no two peers have the same
/// channel number.
pub fn client_is_bounded()
    ensures kept { (setup : Setup) (events : List Timed) → IsWithin setup (run setup events) }
    ensures numbered { (setup : Setup) (events : List Timed)
        → AreNumbered (run setup events).peers }
    ensures at_once { (setup : Setup) (events : List Timed)
        → requests_at_once (run setup events) ≤ 10 }
{}

/// All peers are of the address family that the client asked for, since the server would answer
/// 443 to another. A peer of this family that the user asks for is kept up from then on, if there
/// is room.
pub fn peers_are_named()
    ensures family { (setup : Setup) (events : List Timed)
        → AllByRecursion (λ p. p.address.ip.family ≡ setup.family) (run setup events).peers }
    ensures permitted { (setup : Setup) (state : State) (now fresh : ℕ) (peer : Endpoint)
        → peer.ip.family ≡ setup.family → length state.peers < min setup.most_peers 4096
        → list_any (has_named peer.ip) (step setup state now fresh (permits peer)).state.peers
        ≡ true }
    ensures bound { (setup : Setup) (state : State) (now fresh : ℕ) (peer : Endpoint)
        → peer.ip.family ≡ setup.family → length state.peers < min setup.most_peers 4096
        → list_any (has_wanted peer) (step setup state now fresh (binds peer)).state.peers ≡ true }
{}

/// From one client to the next, after a 437 or a 300, there are at most three 5-tuples at each of
/// at most four servers, none of them asked twice. After a 437 the user leaves the server alone
/// for two minutes, and after a 486 or 508 for one.
pub fn attempts_are_few()
    ensures few { (first : Endpoint) (next : List Attempt) → AreNext (begun_attempt first) next
        → length next ≤ 11 }
    ensures rests { (rest_after (Rejected 437) ≡ 120) × (rest_after (Rejected 486) ≡ 60)
        × (rest_after (Rejected 508) ≡ 60) }
{}
