//! How long an allocation and its peers last.

ghost use Rattle.std.specs.Prelude.{◌≡◌, ◌<◌, ◌⊎◌, ℕ, Bool, List, ◌++◌, find, Some, true, false};
ghost use Rattle.turn_client_machine.specs.Clients.{Setup, Peer, Pending, IntegrityViolated, Asking, Allocated, Ended, State, seconds, is_allocated, is_active, Endpoint};
ghost use Rattle.turn_client_machine.specs.Runs.{Timed, run};
ghost use Rattle.turn_client_machine.specs.Steps.{at, step};
ghost use Rattle.turn_client_machine.specs.Events.{Event, responds, Violated, polls};
ghost use Rattle.turn_client_machine.specs.Lasting.{IsInTime, IsAlive, IsReason, is_refusal, IsOn, IsOpen, IsServed, IsServedFor, is_lost};
ghost use Rattle.std.specs.List.{AllByRecursion, list_any};
ghost use Rattle.turn_client_machine.specs.Tasks.{awaits, is_due, is_expired};
ghost use Rattle.turn_client_machine.specs.Responses.{is_delete, awaits_of};

/// If nothing has been due for 20 seconds or longer, nothing that the server has granted has
/// expired.
pub fn granted_lasts()
    ensures { (setup : Setup) (events : List Timed) (now late : ℕ) → late < seconds 20
        → is_allocated (run setup events).phase ≡ true
        → IsInTime late (at now (run setup events)) → IsAlive (at now (run setup events)) }
{}

/// An allocation ends only if the user closes it, an authentic error comes, or a success that is
/// of no use, the server asks for credentials too often, a response over a reliable transport has
/// a wrong integrity, or a poll comes at or after the deadline.
pub fn ends_for_a_reason()
    ensures { (setup : Setup) (earlier : List Timed) (now fresh : ℕ) (event : Event)
        → is_allocated (run setup earlier).phase ≡ true
        → is_allocated (step setup (run setup earlier) now fresh event).state.phase ≡ false
        → IsReason setup (at now (run setup earlier)) event }
{}

/// While nothing comes that is a reason to end it, an allocation stays, and so does each peer; by
/// `granted_lasts` neither expires.
pub fn kept_alive()
    ensures allocation { (setup : Setup) (since earlier : List Timed)
        → is_allocated (run setup earlier).phase ≡ true → IsServed setup since earlier
        → is_allocated (run setup (since ++ earlier)).phase ≡ true }
    ensures peer { (setup : Setup) (since earlier : List Timed) (address : Endpoint)
        → AllByRecursion (IsOn address) (run setup earlier).peers
        → IsServedFor setup address since earlier
        → AllByRecursion (IsOn address) (run setup (since ++ earlier)).peers }
{}

/// A peer stays unless the user drops it, an authentic error response refuses its own request, the
/// server asks for credentials too often, a response over a reliable transport has a wrong integrity,
/// or a poll comes at or after its deadline. If its channel is refused, it stays with a permission.
pub fn peers_stay()
    ensures { (setup : Setup) (state : State) (now fresh : ℕ) (event : Event) (address : Endpoint)
        → is_refusal setup address (at now state) event ≡ false
        → (event ≡ polls → AllByRecursion (IsOpen address (at now state).clock) state.peers)
        → AllByRecursion (IsOn address) state.peers
        → AllByRecursion (IsOn address) (step setup state now fresh event).state.peers }
{}

/// Over a reliable transport, a response with a wrong integrity ends the allocation or the peer
/// at once, as `integrity_violated` (RFC 8489, section 9.2.5). Over an unreliable one it changes
/// nothing, but is noted: if nothing else answers the request by its deadline, the reason is
/// `integrity_violated`, not `silent`.
pub fn violations_are_noted()
    ensures reliable { (setup : Setup) (state : State) (now fresh : ℕ) (authentic : Bool)
        (q : Pending) → setup.is_reliable ≡ true → is_active state.phase ≡ true
        → state.task.pending ≡ Some q → is_delete q.request.kind ≡ false
        → (step setup state now fresh
        (responds setup.server q.request.id authentic Violated)).state.phase
        ≡ Ended IntegrityViolated }
    ensures peer { (setup : Setup) (state : State) (now fresh id : ℕ) (authentic : Bool) (p : Peer)
        → setup.is_reliable ≡ true → state.phase ≡ Allocated → awaits id state.task ≡ false
        → find (awaits_of id) state.peers ≡ Some p
        → list_any (is_lost p.address) (step setup state now fresh
        (responds setup.server id authentic Violated)).state.peers ≡ true }
    ensures unreliable { (setup : Setup) (state : State) (now fresh : ℕ) (authentic : Bool)
        (q : Pending) → setup.is_reliable ≡ false → is_active state.phase ≡ true
        → state.task.pending ≡ Some q
        → (step setup state now fresh (responds setup.server q.request.id authentic Violated)).state
        ≡ record (at now state) { violated = true } }
    ensures reported { (setup : Setup) (state : State) (now fresh : ℕ)
        → (state.phase ≡ Asking) ⊎ (state.phase ≡ Allocated) → state.violated ≡ true
        → is_due (at now state).clock state.task ≡ true
        → is_expired (at now state).clock state.task ≡ true
        → (step setup state now fresh polls).state.phase ≡ Ended IntegrityViolated }
{}
