//! What is kept, and for how long.

ghost use Rattle.std.specs.Prelude.{◌≡◌, ◌<◌, ◌≤◌, ◌+◌, ℕ, List, [], length, map, filter, not, nat_lt, max};
ghost use Rattle.std.specs.List.{AllByRecursion};
ghost use Rattle.turn_machine.specs.Lists.{times};
ghost use Rattle.stun_endpoints.specs.declared.endpoints.Endpoint.{Endpoint};
ghost use Rattle.turn_machine.specs.Relays.{Setup, Rules, State};
ghost use Rattle.turn_machine.specs.Events.{arrives, nothing};
ghost use Rattle.turn_machine.specs.Times.{at, over_at};
ghost use Rattle.turn_machine.specs.Steps.{step};
ghost use Rattle.turn_machine.specs.Runs.{Timed, run, history, happening};
ghost use Rattle.turn_machine.specs.Bounds.{IsWithin};
ghost use Rattle.turn_machine.specs.Numbers.{all_closed, kept_times, Gives, IsGiven};

/// After any events in any order, all that the state has is live, so what has ended takes no place. Each
/// number that a client was given is either that of a live relayed address or was reported as closed, once
/// and never both. A number is never given again, except to the client that has it and repeats its request,
/// and nothing reaches a client from a socket that was reported. Exactly what has expired leaves the state
/// as time passes, and exactly its numbers are reported. A server may skip numbers.
pub fn places_are_for_the_live()
    ensures live { (setup : Setup) (events : List Timed)
        → AllByRecursion (λ a. (run setup events).clock < a.expires_at) (run setup events).relays }
    ensures once { (setup : Setup) (events : List Timed) (number : ℕ)
        → kept_times number (run setup events)
        + times number (all_closed (history setup events)) ≤ 1 }
    ensures given { (setup : Setup) (events : List Timed) (number : ℕ)
        → IsGiven number (history setup events)
        → kept_times number (run setup events)
        + times number (all_closed (history setup events)) ≡ 1 }
    ensures due { (state : State) (now : ℕ)
        → AllByRecursion (λ a. max state.clock now < a.expires_at) state.relays
        → (over_at now state ≡ []) × ((at now state).relays ≡ state.relays) }
    ensures ended { (state : State) (now : ℕ)
        → let moment = max state.clock now in
        ((at now state).clock ≡ moment) × ((at now state).next ≡ state.next)
        × ((at now state).relays ≡ filter (λ a. nat_lt moment a.expires_at) state.relays)
        × (over_at now state
        ≡ map (λ a. a.number) (filter (λ a. not (nat_lt moment a.expires_at)) state.relays)) }
    ensures new { (setup : Setup) (events : List Timed) (timed : Timed) (number : ℕ)
        → IsGiven number (history setup events)
        → Gives number (happening setup (run setup events) timed).output
        → kept_times number (run setup events) ≡ 1 }
    ensures late { (setup : Setup) (events : List Timed) (now : ℕ) (rules : Rules) (number : ℕ)
        (peer : Endpoint) (bytes : List ℕ) → 1 ≤ times number (all_closed (history setup events))
        → (step setup rules (run setup events) now (arrives number peer bytes)).output ≡ nothing }
{}

/// After any events in any order, relayed addresses, permissions and channels are within the limits of the
/// setup.
pub fn table_is_bounded()
    ensures relays { (setup : Setup) (events : List Timed)
        → length (run setup events).relays ≤ setup.most_relays }
    ensures each { (setup : Setup) (events : List Timed)
        → AllByRecursion (IsWithin setup) (run setup events).relays }
{}
