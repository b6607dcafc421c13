//! Polls that come to an end, and a client that goes on.

ghost use Rattle.std.specs.Prelude.{◌≡◌, ◌<◌, ◌≤◌, ◌+◌, ℕ, List, length, ◌∷◌, Some, true};
ghost use Rattle.std.specs.List.{AllByRecursion, list_any};
ghost use Rattle.turn_client_machine.specs.declared.phases.Phase.TheVariants.{Asking};
ghost use Rattle.turn_client_machine.specs.declared.requests.Answer.TheVariants.{Opened};
ghost use Rattle.turn_client_machine.specs.declared.requests.Kind.TheVariants.{Allocate};
ghost use Rattle.turn_client_machine.specs.declared.tasks.Pending.{Pending};
ghost use Rattle.turn_client_machine.specs.Clients.{Endpoint, is_ip, is_peer, seconds};
ghost use Rattle.turn_client_machine.specs.Events.{Event, responds};
ghost use Rattle.turn_client_machine.specs.Lasting.{IsInTime, IsOn};
ghost use Rattle.turn_client_machine.specs.Reach.{IsPunctual};
ghost use Rattle.turn_client_machine.specs.Rounds.{IsCalm};
ghost use Rattle.turn_client.specs.Clients.{Client, Kept};
ghost use Rattle.turn_client.specs.Histories.{state_at};
ghost use Rattle.turn_client.specs.Receiving.{event_at};
ghost use Rattle.turn_client.specs.Rounds.{AreNeeded, AreRounds, IsWish, Round, all_rounds};
ghost use Rattle.turn_client.specs.Runs.{Moment, after_all, calls, stepped, takes};

/// A client that is polled again for as long as [`TurnClient::next_wake`](crate::TurnClient::next_wake)
/// returns no later moment is soon done: there are at most as many such polls as peers, and one more, as
/// long as requests for fewer than eight single peers are under way. With eight, a ninth peer waits for a
/// response or a deadline. It doesn't say what the polls write.
pub fn polls_come_to_an_end()
    ensures { (client : Client) (now : ℕ) (polls : List Moment) → AreNeeded client now polls
        → length polls ≤ 1 + length client.held.state.peers }
{}

/// A client whose requests are granted at once stays punctual for ever, for each of its peers, if it is
/// polled until [`TurnClient::next_wake`](crate::TurnClient::next_wake) returns a later moment, and again
/// at most `late` after that. So by `will_reach` whatever its user sends to any of its peers is relayed,
/// and whatever such a peer sends is shown. A request may name several peers: its success grants them all.
///
/// It begins when an Allocate request is granted, and its premises hold again after each round and after
/// each wish of the user. That each response comes at once is a premise: if one is late or lost, see
/// `stays_punctual`. A datagram is the success response that the client hears (`event_at`): which bytes
/// are heard so, say the laws of `turn_sessions`.
pub fn goes_on()
    ensures opened { (client : Client) (now lifetime : ℕ) (d : List ℕ) (brought : List Kept) (q : Pending)
        (relayed mapped : Endpoint) → client.held.state.phase ≡ Asking
        → client.held.state.task.pending ≡ Some q → q.request.kind ≡ Allocate
        → let server = client.held.settings.server in
        event_at client server d ≡ responds server q.request.id true (Opened relayed mapped lifetime)
        → relayed.ip.family ≡ client.held.settings.family → 80 ≤ lifetime
        → (state_at client now).clock + seconds 60 ≤ q.request.since + seconds lifetime
        → let after = (stepped client now 0 (takes server d brought)).held.state in
        IsCalm after × IsInTime 0 after }
    ensures rests { (client : Client) (earlier : List Moment) (rounds : List Round) (lifetime late : ℕ)
        → 0 < client.held.settings.most_sends → 80 ≤ lifetime → late < seconds 20
        → let before = (after_all client earlier).held.state in IsCalm before → IsInTime 0 before
        → AreRounds client lifetime late rounds earlier
        → let after = (after_all client (all_rounds client rounds earlier)).held.state in
        IsCalm after × IsInTime 0 after }
    ensures wished { (client : Client) (now : ℕ) (event : Event) → now ≤ client.held.state.clock
        → IsWish event → IsCalm client.held.state → IsInTime 0 client.held.state
        → let after = (stepped client now 0 (calls event)).held.state in
        IsCalm after × IsInTime 0 after }
    ensures punctual { (client : Client) (earlier : List Moment) (round : Round) (rounds : List Round)
        (lifetime late slack later : ℕ) (named peer : Endpoint)
        → 0 < client.held.settings.most_sends → 80 ≤ lifetime → late + slack < seconds 20
        → let before = (after_all client earlier).held.state in IsCalm before → IsInTime 0 before
        → is_ip peer.ip named.ip ≡ true → list_any (is_peer named) before.peers ≡ true
        → AllByRecursion (IsOn named) before.peers
        → AreRounds client lifetime late (round ∷ rounds) earlier
        → let after = after_all client (all_rounds client (round ∷ rounds) earlier) in
        later ≤ after.held.state.clock + late
        → IsPunctual late slack named peer (state_at after later) }
{}
