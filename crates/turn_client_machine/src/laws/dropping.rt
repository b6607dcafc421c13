//! Peers that the user drops, and their channel numbers.

ghost use Rattle.std.specs.Prelude.{◌≡◌, ℕ, List, ◌++◌, ◌∷◌, true, not};
ghost use Rattle.std.specs.List.{AllByRecursion, list_any};
ghost use Rattle.turn_client_machine.specs.Clients.{Setup, State, Endpoint, Request, Bind, is_peer};
ghost use Rattle.turn_client_machine.specs.Bounds.{has_named, has_wanted};
ghost use Rattle.turn_client_machine.specs.Dropping.{IsGoneAt, IsUnnamed, is_shared, IsQuiet, Asked, has_number};
ghost use Rattle.turn_client_machine.specs.Events.{asks, permits, binds, drops, gives_on, shows};
ghost use Rattle.turn_client_machine.specs.Runs.{Timed, Happened, run, history, happening};
ghost use Rattle.turn_client_machine.specs.Steps.{at, has_room, step};

/// Once the user has dropped a peer, and until they ask for it again, no request is for it, no data
/// goes to it, and none is shown from it, except by the permission of another peer of its IP
/// address. It may be asked for again at any time. A new peer may take the place of one whose
/// number has rested.
pub fn peers_are_dropped()
    ensures gone { (setup : Setup) (since earlier : List Timed) (drop : Timed) (peer : Endpoint)
        → drop.event ≡ drops peer → AllByRecursion (IsUnnamed peer) since
        → AllByRecursion (IsGoneAt peer) (run setup (since ++ drop ∷ earlier)).peers }
    ensures quiet { (setup : Setup) (since earlier : List Timed) (drop next : Timed)
        (peer : Endpoint) → drop.event ≡ drops peer → AllByRecursion (IsUnnamed peer) since
        → let state = run setup (since ++ drop ∷ earlier) in
        let h = happening setup state next in
        IsQuiet peer (is_shared h.moment peer state.peers) h.event h.output }
    ensures again { (setup : Setup) (state : State) (now fresh : ℕ) (peer : Endpoint)
        → list_any (is_peer peer) state.peers ≡ true
        → (list_any (has_named peer.ip) (step setup state now fresh (permits peer)).state.peers
        ≡ true)
        × (list_any (has_wanted peer) (step setup state now fresh (binds peer)).state.peers
        ≡ true) }
    ensures room { (setup : Setup) (state : State) (now fresh : ℕ) (peer : Endpoint)
        → peer.ip.family ≡ setup.family → has_room setup (at now state).clock state.peers ≡ true
        → (list_any (has_named peer.ip) (step setup state now fresh (permits peer)).state.peers
        ≡ true)
        × (list_any (has_wanted peer) (step setup state now fresh (binds peer)).state.peers
        ≡ true) }
{}

/// For 900 seconds after a ChannelBind request its number is no other peer's: no request names
/// another peer with it, and no ChannelData with it is shown as another's. By then the server has
/// forgotten the channel (RFC 8656, section 12: a channel lasts for 10 minutes, and its number may
/// go to another peer 5 minutes later). A peer keeps its number until the user drops it.
pub fn numbers_rest()
    ensures requests { (setup : Setup) (earlier : List Timed) (next : Timed) (request : Request)
        (others : List Endpoint) (number : ℕ) (peer other : Endpoint) → let h = happening setup (run setup earlier) next in
        Happened (Asked number peer h.moment) (history setup earlier)
        → h.output ≡ asks request others → request.kind ≡ Bind number other → other ≡ peer }
    ensures data { (setup : Setup) (earlier : List Timed) (next : Timed) (number : ℕ)
        (peer from other : Endpoint) (bytes : List ℕ)
        → let h = happening setup (run setup earlier) next in
        Happened (Asked number peer h.moment) (history setup earlier)
        → h.event ≡ gives_on from number bytes → h.output ≡ shows other bytes → other ≡ peer }
    ensures kept { (setup : Setup) (since earlier : List Timed) (number : ℕ) (peer : Endpoint)
        → list_any (has_number number peer) (run setup earlier).peers ≡ true
        → AllByRecursion (λ timed. timed.event ≡ drops peer → ⊥) since
        → list_any (has_number number peer) (run setup (since ++ earlier)).peers ≡ true }
{}
