//! Several peers in one CreatePermission request.

ghost use Rattle.std.specs.Prelude.{◌≡◌, ℕ, List, true, false, []};
ghost use Rattle.std.specs.List.{AllByRecursion, list_any};
ghost use Rattle.turn_machine.specs.Lists.{SomeOf};
ghost use Rattle.turn_client_machine.specs.Clients.{Setup, State, Endpoint, Request, Peer, Allocated};
ghost use Rattle.turn_client_machine.specs.Events.{responds, Done, Refused};
ghost use Rattle.turn_client_machine.specs.Identified.{AreDistinct, IsUnderWay};
ghost use Rattle.turn_client_machine.specs.Renewing.{is_renewed};
ghost use Rattle.turn_client_machine.specs.Runs.{Timed, run, happening};
ghost use Rattle.turn_client_machine.specs.Sharing.{NamesFew, SharesOne, IsWaiting, is_alone};
ghost use Rattle.turn_client_machine.specs.Steps.{step, others_at, takes_along};
ghost use Rattle.turn_client_machine.specs.Tasks.{awaits};

/// A CreatePermission request may name several peers (RFC 8656, section 10.1): never more than the setup
/// allows. One such request is under way at a time. Its success grants each of them a permission for the same time. Since an error doesn't say
/// which of them is the reason, each is then asked for alone.
pub fn peers_share_requests()
    ensures few { (setup : Setup) (earlier : List Timed) (timed : Timed)
        → NamesFew setup (happening setup (run setup earlier) timed).output }
    ensures one { (setup : Setup) (events : List Timed)
        → (id : ℕ) × AllByRecursion (SharesOne id) (run setup events).peers }
    ensures same { (setup : Setup) (events : List Timed) (r other : Request)
        → AreDistinct events → IsUnderWay (run setup events) r → IsUnderWay (run setup events) other
        → r.id ≡ other.id → r.since ≡ other.since }
    ensures granted { (setup : Setup) (state : State) (now fresh : ℕ) (r : Request)
        (address : Endpoint) → state.phase ≡ Allocated → awaits r.id state.task ≡ false
        → SomeOf (IsWaiting address r) state.peers
        → list_any (is_renewed r.since false address)
        (step setup state now fresh (responds setup.server r.id true Done)).state.peers ≡ true }
    ensures refused { (setup : Setup) (state : State) (now fresh code : ℕ) (r : Request)
        (p : Peer) → state.phase ≡ Allocated → awaits r.id state.task ≡ false
        → (code ≡ 437 → ⊥) → (code ≡ 401 → ⊥) → (code ≡ 438 → ⊥) → p.shared ≡ true
        → IsWaiting p.address r p → SomeOf (λ q. q ≡ p) state.peers
        → list_any (is_alone p.address)
        (step setup state now fresh (responds setup.server r.id true (Refused code))).state.peers
        ≡ true }
    ensures alone { (setup : Setup) (state : State) (fresh : ℕ) (p : Peer) → p.shared ≡ true
        → others_at setup fresh true (takes_along setup state.clock state.peers p) state ≡ [] }
{}
