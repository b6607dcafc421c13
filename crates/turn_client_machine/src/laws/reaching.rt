//! Data reaches the peer, and comes back.

ghost use Rattle.std.specs.Prelude.{◌≡◌, ◌<◌, ◌≤◌, ◌+◌, ℕ, List, ◌++◌, true, false, ◌&&◌, ◌∷◌};
ghost use Rattle.turn_client_machine.specs.Clients.{Setup, State, seconds, Endpoint, is_ip, is_peer, is_dropped, Request, is_allocated};
ghost use Rattle.turn_client_machine.specs.Runs.{Timed, run, history};
ghost use Rattle.turn_client_machine.specs.Steps.{at, step};
ghost use Rattle.turn_client_machine.specs.Events.{Event, drops, sends, shows, nothing};
ghost use Rattle.turn_client_machine.specs.Lasting.{IsInTime, IsOn, IsServed, IsServedFor};
ghost use Rattle.std.specs.List.{AllByRecursion, list_any};
ghost use Rattle.turn_client_machine.specs.Joined.{at_client};
ghost use Rattle.turn_client_machine.specs.Examples.{after, later, back};
ghost use Rattle.stun_endpoints.specs.declared.endpoints.FiveTuple.{FiveTuple};
ghost use Rattle.turn_machine.specs.Runs.{Timed as ServerTimed, run as s_run};
ghost use Rattle.turn_machine.specs.Events.{arrives as s_arrives};
ghost use Rattle.turn_machine.specs.Relays.{Setup as ServerSetup, Rules};
ghost use Rattle.turn_machine.specs.Works.{output_of as output_there};
ghost use Rattle.turn_machine.specs.Times.{at as s_at};
ghost use Rattle.turn_client_machine.specs.Rounds.{IsCalm, IsNaming, AreClose, rounds, rounds_events};
ghost use Rattle.turn_client_machine.specs.Reach.{happened_since, IsJoined, Arrives, IsSocket, IsRelayed, IsUsable, IsPunctual, IsSettled};
ghost use Rattle.turn_client_machine.specs.Responses.{opened};

/// Whatever the client sends, whenever it does, the server relays to the peer: exactly, and from
/// the relayed address that the client knows. A punctual client sends whatever its user sends to
/// a peer that the server has permitted; and what that peer sends to the relayed address is shown
/// as from that peer, exactly. The premises (`IsJoined`): requests of this user from this 5-tuple
/// are this client's, and no copy of an Allocate request was under way for 9 minutes; success
/// responses that the client accepts are the server's; the server's operator ends nothing of the
/// client's; and the server's clock gains less than 20 seconds in a lifetime. The rules in force
/// when the data arrives allow the peer.
pub fn will_reach()
    ensures sent { (setup : Setup) (events : List Timed) (server : ServerSetup)
        (since earlier : List ServerTimed) (rules : Rules) (tuple : FiveTuple)
        (user now fresh there : ℕ)
        (peer : Endpoint) (bytes : List ℕ)
        (j : IsJoined setup (history setup events) server since earlier tuple user)
        → (rules.allows_ip peer.ip && rules.allows_port peer) ≡ true
        → Arrives j.shown j.drift 0 (at now (run setup events)).clock
        (s_at there (s_run server (since ++ earlier))).clock
        → ((step setup (run setup events) now fresh (sends peer bytes)).output ≡ nothing → ⊥)
        → IsRelayed server since earlier rules tuple user (run setup events).relayed there peer
        bytes (step setup (run setup events) now fresh (sends peer bytes)).output }
    ensures punctual { (setup : Setup) (events : List Timed) (server : ServerSetup)
        (since earlier : List ServerTimed) (rules : Rules) (tuple : FiveTuple)
        (user now fresh there late slack : ℕ) (named peer : Endpoint) (bytes : List ℕ)
        (j : IsJoined setup (history setup events) server since earlier tuple user)
        → (rules.allows_ip peer.ip && rules.allows_port peer) ≡ true
        → Arrives j.shown j.drift slack (at now (run setup events)).clock
        (s_at there (s_run server (since ++ earlier))).clock
        → IsPunctual late slack named peer (at now (run setup events))
        → IsRelayed server since earlier rules tuple user (run setup events).relayed there peer
        bytes (step setup (run setup events) now fresh (sends peer bytes)).output }
    ensures back { (setup : Setup) (events more : List Timed) (server : ServerSetup)
        (since earlier : List ServerTimed) (rules : Rules) (tuple : FiveTuple)
        (user before now fresh there late slack relay : ℕ) (named peer : Endpoint) (bytes : List ℕ)
        (j : IsJoined setup (history setup events) server since earlier tuple user)
        → rules.allows_ip peer.ip ≡ true
        → Arrives j.shown j.drift slack (at before (run setup events)).clock
        (s_at there (s_run server (since ++ earlier))).clock
        → IsPunctual late slack named peer (at before (run setup events))
        → IsSocket tuple user relay (run setup events).relayed (happened_since server since earlier)
        → IsPunctual late 0 named peer (at now (run setup (more ++ events)))
        → IsSettled (history setup events) peer (at now (run setup (more ++ events)))
        → (step setup (run setup (more ++ events)) now fresh (at_client setup.server
        (output_there server (since ++ earlier) there rules (s_arrives relay peer bytes)))).output
        ≡ shows peer bytes }
{}

/// A client whose requests are granted at once stays punctual for ever, from the moment when its
/// allocation is opened, if each poll comes at most `late` after the one before, and there are as
/// many as tasks. So whatever its user sends to any of its peers, at any time, is relayed, and
/// whatever such a peer sends is shown as from it. `stays_punctual` covers added peers and lost
/// responses.
pub fn goes_on()
    ensures begun { (state : State) (r : Request) (relayed mapped : Endpoint) (lifetime : ℕ)
        → state.clock + seconds 60 ≤ r.since + seconds lifetime → 80 ≤ lifetime
        → IsCalm (opened r relayed mapped lifetime state)
        × IsInTime 0 (opened r relayed mapped lifetime state)
        × ((peer : Endpoint)
        → list_any (is_peer peer) (opened r relayed mapped lifetime state).peers
        ≡ list_any (is_peer peer) state.peers)
        × ((peer : Endpoint)
        → AllByRecursion (λ p. is_peer peer p ≡ true → is_dropped p ≡ false) state.peers
        → AllByRecursion (IsOn peer) (opened r relayed mapped lifetime state).peers) }
    ensures polled { (setup : Setup) (state : State) (lifetime fresh late slack now later : ℕ)
        (earlier : List ℕ) (named peer : Endpoint) → 0 < setup.most_sends → 80 ≤ lifetime
        → late + slack < seconds 20 → IsCalm state → IsInTime 0 state
        → is_ip peer.ip named.ip ≡ true → list_any (is_peer named) state.peers ≡ true
        → AllByRecursion (IsOn named) state.peers
        → AreClose setup lifetime fresh late (now ∷ earlier) state
        → later ≤ (rounds setup lifetime fresh (now ∷ earlier) state).clock + late
        → IsPunctual late slack named peer
        (at later (rounds setup lifetime fresh (now ∷ earlier) state)) }
    ensures reached { (setup : Setup) (events : List Timed) (server : ServerSetup)
        (since before : List ServerTimed) (rules : Rules) (tuple : FiveTuple)
        (user lifetime fresh late slack now later there other : ℕ) (earlier : List ℕ)
        (named peer : Endpoint) (bytes : List ℕ) → 0 < setup.most_sends → 80 ≤ lifetime
        → late + slack < seconds 20 → IsCalm (run setup events) → IsInTime 0 (run setup events)
        → is_ip peer.ip named.ip ≡ true → list_any (is_peer named) (run setup events).peers ≡ true
        → AllByRecursion (IsOn named) (run setup events).peers
        → AreClose setup lifetime fresh late (now ∷ earlier) (run setup events)
        → let more = rounds_events setup lifetime fresh (now ∷ earlier) events in
        later ≤ (run setup more).clock + late
        → (j : IsJoined setup (history setup more) server since before tuple user)
        → (rules.allows_ip peer.ip && rules.allows_port peer) ≡ true
        → Arrives j.shown j.drift slack (at later (run setup more)).clock
        (s_at there (s_run server (since ++ before))).clock
        → IsRelayed server since before rules tuple user (run setup more).relayed there peer bytes
        (step setup (run setup more) later other (sends peer bytes)).output }
    ensures shown { (setup : Setup) (events : List Timed) (server : ServerSetup)
        (since before : List ServerTimed) (rules : Rules) (tuple : FiveTuple)
        (user lifetime fresh late slack now later last there other relay : ℕ) (earlier : List ℕ)
        (named peer : Endpoint) (bytes : List ℕ) → 0 < setup.most_sends → 80 ≤ lifetime
        → late + slack < seconds 20 → IsCalm (run setup events) → IsInTime 0 (run setup events)
        → is_ip peer.ip named.ip ≡ true → list_any (is_peer named) (run setup events).peers ≡ true
        → AllByRecursion (IsOn named) (run setup events).peers
        → AreClose setup lifetime fresh late (now ∷ earlier) (run setup events)
        → let more = rounds_events setup lifetime fresh (now ∷ earlier) events in
        later ≤ (run setup more).clock + late → last ≤ (run setup more).clock + late
        → (j : IsJoined setup (history setup more) server since before tuple user)
        → rules.allows_ip peer.ip ≡ true
        → Arrives j.shown j.drift slack (at later (run setup more)).clock
        (s_at there (s_run server (since ++ before))).clock
        → IsSocket tuple user relay (run setup more).relayed (happened_since server since before)
        → IsSettled (history setup more) peer (at last (run setup more))
        → (step setup (run setup more) last other (at_client setup.server
        (output_there server (since ++ before) there rules (s_arrives relay peer bytes)))).output
        ≡ shows peer bytes }
{}

/// Peers may be added while a client goes on: the premises of `goes_on` hold after each round,
/// and still hold when the user then asks for a peer, or drops one. And if responses are late or lost, a client
/// that is polled in time stays punctual for a peer, as long as nothing comes that is a reason to
/// end the allocation or to give up the peer: one copy of each request is answered before its
/// deadline.
pub fn stays_punctual()
    ensures rests { (setup : Setup) (events : List Timed) (lifetime fresh late : ℕ)
        (moments : List ℕ) → 0 < setup.most_sends → 80 ≤ lifetime → late < seconds 20
        → IsCalm (run setup events) → IsInTime 0 (run setup events)
        → AreClose setup lifetime fresh late moments (run setup events)
        → let after = run setup (rounds_events setup lifetime fresh moments events) in
        IsCalm after × IsInTime 0 after }
    ensures named { (setup : Setup) (state : State) (now fresh : ℕ) (event : Event)
        → now ≤ state.clock → IsNaming event → IsCalm state → IsInTime 0 state
        → let after = (step setup state now fresh event).state in
        IsCalm after × IsInTime 0 after }
    ensures dropped { (setup : Setup) (state : State) (now fresh : ℕ) (peer : Endpoint)
        → now ≤ state.clock → IsCalm state → IsInTime 0 state
        → let after = (step setup state now fresh (drops peer)).state in
        IsCalm after × IsInTime 0 after }
    ensures served { (setup : Setup) (since earlier : List Timed) (now late slack : ℕ)
        (named peer : Endpoint) → late + slack < seconds 20 → is_ip peer.ip named.ip ≡ true
        → is_allocated (run setup earlier).phase ≡ true
        → list_any (is_peer named) (run setup earlier).peers ≡ true
        → AllByRecursion (IsUsable named) (run setup earlier).peers
        → IsServed setup since earlier → IsServedFor setup named since earlier
        → IsInTime late (at now (run setup (since ++ earlier)))
        → IsPunctual late slack named peer (at now (run setup (since ++ earlier))) }
{}
