//! The laws. Each function does nothing: its contract is the law.

ghost use Rattle.std.specs.Prelude.{◌≡◌, ℕ, List, find};
ghost use Rattle.std.specs.Option.{option_map_or};
ghost use Rattle.stun_endpoints.specs.declared.endpoints.Endpoint as endpoints;
ghost use Rattle.ice_machine.specs.declared.messages.Request.{Request};
ghost use Rattle.ice_machine.specs.Events.{arrives, asks, nothing, sends};
ghost use Rattle.ice_lite.specs.Agents.{LiteBase, State, is_base};
ghost use Rattle.ice_lite.specs.Past.{sent_by_past, taken_by_past};
ghost use Rattle.ice_lite.specs.Runs.{Timed, happening, history, run};
ghost use Rattle.ice_lite.specs.Steps.{at};

/// Whatever comes, in whatever order: a lite agent never sends a request.
pub fn lite_agents_never_ask()
    ensures { (state : State) (timed : Timed) (r : Request) → (happening state timed).output ≡ asks r → ⊥ }
{}

/// Whatever has come, in whatever order: the data of a component is sent from the base that the latest accepted
/// check with USE-CANDIDATE came to, to the address that it came from, **if less than 30 seconds ago an accepted
/// check came from there to that base**; otherwise it isn't sent. Data is taken from there alone, in that time. A
/// check is accepted if it is authentic and shows the controlling role.
pub fn nominated_pairs_carry_data()
    ensures sent { (bases : List LiteBase) (earlier : List Timed) (now component : ℕ) (bytes : List ℕ)
        → let s = run bases earlier in
        (happening s (record { now = now; event = sends component bytes })).output
        ≡ sent_by_past bases component (at now s).clock bytes (history bases earlier) }
    ensures taken { (bases : List LiteBase) (earlier : List Timed) (now base : ℕ) (from : endpoints.Endpoint)
        (bytes : List ℕ) → let s = run bases earlier in
        (happening s (record { now = now; event = arrives base from bytes })).output
        ≡ option_map_or (taken_by_past bases base from (at now s).clock bytes (history bases earlier))
        (find (is_base base) bases) nothing }
{}
