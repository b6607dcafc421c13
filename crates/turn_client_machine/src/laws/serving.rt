//! What the server grants, keeps and relays, by its own history and clock.

ghost use Rattle.std.specs.Prelude.{◌≡◌, ◌<◌, ◌≤◌, ℕ, List, true, false, Option, [], ◌∷◌};
ghost use Rattle.turn_client_machine.specs.Clients.{Setup, State, seconds, is_allocated, Endpoint, Ip, is_endpoint, is_permitted, Allocate, Refresh, Permit, Bind};
ghost use Rattle.turn_client_machine.specs.Runs.{Timed, run, history, Happening};
ghost use Rattle.turn_client_machine.specs.Steps.{at, step};
ghost use Rattle.turn_client_machine.specs.Events.{sends, send_to, shows, nothing, Opened, Extended, Done};
ghost use Rattle.turn_client_machine.specs.Warrants.{Confirmed, Lasts, IsPermitted, IsBound};
ghost use Rattle.turn_client_machine.specs.Lasting.{IsInTime};
ghost use Rattle.std.specs.List.{list_any};
ghost use Rattle.turn_client_machine.specs.Joined.{IsLinked, one_clock, ServerPermits, ServerBinds, ServerLasts, ServerKeeps, at_server, at_client, IsAgreed, Works, IsHeard, request_of};
ghost use Rattle.turn_client_machine.specs.Examples.{after, later, over, back};
ghost use Rattle.stun_endpoints.specs.declared.endpoints.FiveTuple.{FiveTuple};
ghost use Rattle.turn_machine.specs.Runs.{Timed as ServerTimed, run as s_run, history as s_history};
ghost use Rattle.turn_machine.specs.Events.{Offer, Want, asks as s_asks, to_peer, arrives as s_arrives};
ghost use Rattle.turn_machine.specs.Granting.{IsFit, IsOwn, CanPermit, CanBind};
ghost use Rattle.turn_machine.specs.Steps.{step as s_step};
ghost use Rattle.turn_machine.specs.Relays.{Setup as ServerSetup, Rules, State as ServerState};
ghost use Rattle.turn_machine.specs.Works.{output_of as output_there};
ghost use Rattle.turn_machine.specs.Times.{at as s_at, granted_for, refreshed_for};
ghost use Rattle.turn_client_machine.specs.Responses.{opened};

/// By the server's own history and clock, whatever else has come to it: no permission, channel or
/// lifetime on which the client sends or shows data has expired. The premise: each success that
/// the client accepts is one that the server gave.
pub fn server_agrees()
    ensures permission { (setup : Setup) (hs : List Happening) (server : ServerSetup)
        (there : List ServerTimed) (tuple : FiveTuple) (user : ℕ) (ip : Ip) (now : ℕ)
        → (s_run server there).clock ≤ now
        → IsLinked one_clock setup hs (s_history server there) tuple user
        → IsPermitted setup.server ip now hs
        → ServerPermits (s_history server there) tuple user ip now }
    ensures channel { (setup : Setup) (hs : List Happening) (server : ServerSetup)
        (there : List ServerTimed) (tuple : FiveTuple) (user number : ℕ) (peer : Endpoint) (now : ℕ)
        → (s_run server there).clock ≤ now
        → IsLinked one_clock setup hs (s_history server there) tuple user
        → IsBound setup.server number peer now hs
        → ServerBinds (s_history server there) tuple user number peer now }
    ensures lifetime { (setup : Setup) (hs : List Happening) (server : ServerSetup)
        (there : List ServerTimed) (tuple : FiveTuple) (user now : ℕ)
        → IsLinked one_clock setup hs (s_history server there) tuple user
        → Confirmed setup.server (Lasts now) hs
        → ServerLasts (s_history server there) tuple user now }
{}

/// By the server's own history and clock: if nothing has been due for 20 seconds or longer, the
/// allocation is live, and so is each granted permission of a peer that isn't over.
pub fn server_keeps()
    ensures { (setup : Setup) (events : List Timed) (now late : ℕ) (server : ServerSetup)
        (there : List ServerTimed) (tuple : FiveTuple) (user : ℕ) → late < seconds 20
        → is_allocated (run setup events).phase ≡ true → IsInTime late (at now (run setup events))
        → (s_run server there).clock ≤ (at now (run setup events)).clock
        → IsLinked one_clock setup (history setup events) (s_history server there) tuple user
        → ServerKeeps (s_history server there) tuple user (at now (run setup events)) }
{}

/// If the server relays as its law `what_is_permitted_works` says, a Send indication of the
/// client reaches the peer exactly, and a peer's data is shown as from that peer if the client
/// has the permission, and the channel if the server uses one.
pub fn data_crosses()
    ensures out { (setup : Setup) (state : State) (server : ServerSetup) (there : List ServerTimed)
        (rules : Rules) (tuple : FiveTuple) (peer : Endpoint) (now fresh later : ℕ)
        (bytes : List ℕ) (works : Works server there later rules tuple peer)
        → (step setup state now fresh (sends peer bytes)).output ≡ send_to peer bytes
        → output_there server there later rules
        (at_server tuple (step setup state now fresh (sends peer bytes)).output)
        ≡ to_peer works.number peer false bytes }
    ensures back { (setup : Setup) (state : State) (server : ServerSetup) (there : List ServerTimed)
        (rules : Rules) (tuple : FiveTuple) (peer : Endpoint) (now fresh later : ℕ)
        (bytes : List ℕ) (works : Works server there now rules tuple peer)
        → is_allocated state.phase ≡ true → is_endpoint peer setup.server ≡ false
        → list_any (is_permitted (at later state).clock peer.ip) state.peers ≡ true
        → IsAgreed setup state (at later state).clock peer
        (output_there server there now rules (s_arrives works.number peer bytes))
        → (step setup state later fresh (at_client setup.server
        (output_there server there now rules (s_arrives works.number peer bytes)))).output
        ≡ shows peer bytes }
{}

/// A fit request of the client is granted by the server, and the client's answer is the success
/// response that `turns_are_used` and `goes_on` assume, with the address of the server's socket.
pub fn fit_is_heard()
    ensures opened { (server : ServerSetup) (rules : Rules) (state : ServerState) (now : ℕ)
        (tuple : FiveTuple) (user id : ℕ) (wanted : Option ℕ) (want : Want) (offer : Offer)
        (mapped : Endpoint) → IsFit server tuple user want offer (s_at now state)
        → IsHeard mapped tuple
        (Opened offer.address mapped (granted_for wanted server.greatest_lifetime))
        (s_step server rules state now
        (s_asks tuple user (request_of wanted id want [] Allocate))).output }
    ensures refreshed { (server : ServerSetup) (rules : Rules) (state : ServerState) (now : ℕ)
        (tuple : FiveTuple) (user id : ℕ) (wanted : Option ℕ) (want : Want) (mapped : Endpoint)
        → IsOwn tuple user (s_at now state)
        → IsHeard mapped tuple (Extended (refreshed_for wanted server.greatest_lifetime))
        (s_step server rules state now
        (s_asks tuple user (request_of wanted id want [] Refresh))).output }
    ensures permitted { (server : ServerSetup) (rules : Rules) (state : ServerState) (now : ℕ)
        (tuple : FiveTuple) (user id : ℕ) (wanted : Option ℕ) (want : Want) (peer mapped : Endpoint)
        (others : List Endpoint)
        → CanPermit server rules tuple user (peer ∷ others) (s_at now state)
        → IsHeard mapped tuple Done (s_step server rules state now
        (s_asks tuple user (request_of wanted id want others (Permit peer)))).output }
    ensures bound { (server : ServerSetup) (rules : Rules) (state : ServerState) (now : ℕ)
        (tuple : FiveTuple) (user id number : ℕ) (wanted : Option ℕ) (want : Want)
        (peer mapped : Endpoint) → CanBind server rules tuple user number peer (s_at now state)
        → IsHeard mapped tuple Done (s_step server rules state now
        (s_asks tuple user (request_of wanted id want [] (Bind number peer)))).output }
{}
