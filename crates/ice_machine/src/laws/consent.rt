//! The peer's consent (RFC 7675, section 5.1).

ghost use Rattle.std.specs.Prelude.{◌≡◌, ◌≤◌, ◌<◌, ◌+◌, ◌^◌, ℕ, List, Some, true};
ghost use Rattle.std.specs.List.{AllByRecursion};
ghost use Rattle.ice_machine.specs.Agents.{Setup, State, Pair, seconds};
ghost use Rattle.ice_machine.specs.Pairs.{selected};
ghost use Rattle.ice_machine.specs.Runs.{Begin, Timed, run, happening};
ghost use Rattle.ice_machine.specs.Meetings.{End, IsFit, OneAmong, after, disturbed, delay};
ghost use Rattle.ice_machine.specs.Lasting.{Watch, HasNominated, IsCourse, IsTimely, IsWayOrCalm, is_free, watched, IsConsentedWay, IsElsewhere};
ghost use Rattle.ice_machine.specs.Examples.{address};
ghost use Rattle.ice_machine.specs.Events.{Event, sends, data_to};
ghost use Rattle.ice_machine.specs.Steps.{at, step, is_open};
ghost use Rattle.ice_machine.specs.Bounds.{AreDistinct, is_over_at, Ends};
ghost use Rattle.stun_endpoints.specs.declared.endpoints.Endpoint.{Endpoint};
ghost use Rattle.ice_machine.specs.Fairness.{HasDue, HasAsked, HasKept, IsFairCourse, IsPunctual, IsFairExample, valid_pairs, ahead, turns, is_valid_at, polled_each_5_s, both_due};

/// The peer's consent expires 30 seconds after the last response (RFC 7675, section 5.1), and then for good:
/// from that base no data is sent to that address again, whatever arrives.
pub fn lost_consent_is_final()
    ensures ends { (setup : Setup) (state : State) (now : ℕ)
        → AllByRecursion (Ends setup now state) state.pairs }
    ensures kept { (setup : Setup) (state : State) (now fresh : ℕ) (event : Event) (base : ℕ)
        (to : Endpoint) → is_over_at base to state ≡ true
        → is_over_at base to (step setup state now fresh event).state ≡ true }
    ensures silent { (setup : Setup) (begin : Begin) (earlier : List Timed) (timed : Timed) (base : ℕ)
        (to : Endpoint) (bytes : List ℕ) → is_over_at base to (run setup begin earlier) ≡ true
        → (happening setup (run setup begin earlier) timed).output ≡ data_to base to bytes → ⊥ }
{}

/// An agent with a nominated pair keeps a selected pair, and its data goes there, in runs of any length and
/// whatever else arrives, with any other pairs, although datagrams are delayed and lost. The premises: polls
/// that no more urgent pair takes come often enough, and one of the requests on the pair is answered with
/// success soon enough after the first one, both within 20 seconds together. A poll at which a request may be
/// sent is such a poll unless, on another pair, a check is triggered or a nomination or a consent check is
/// due.
pub fn consent_lasts()
    ensures data { (setup : Setup) (e : End) (gap delay : ℕ) (s : State) (w : Watch) (events : List Timed)
        (now fresh : ℕ) (bytes : List ℕ) → gap + delay ≤ seconds 20 → HasNominated e gap w s
        → IsCourse setup e gap delay s w events → let after = disturbed setup s events in
        after.clock ≤ now → IsTimely gap delay now (watched setup e s w events)
        → (p : Pair) × (selected e.component (at setup now after) ≡ Some p)
        × ((step setup after now fresh (sends e.component bytes)).output ≡ data_to p.base p.remote bytes) }
    ensures free { (setup : Setup) (e : End) (s : State) → is_open s ≡ true
        → AllByRecursion (IsWayOrCalm setup e s) s.pairs → is_free setup e s ≡ true }
{}

/// No consent check starves: whatever else arrives, a valid pair that is due gets its request within as many
/// polls as valid pairs have been due for as long, itself included; so, in every run, within as many as there
/// is room for pairs. A poll counts if a request may be sent at it, no check is triggered, and no nomination
/// begins. Moments are less than 2^64. The examples: of two valid pairs whose peers answer, and of which one
/// is due at each poll, both stay valid.
pub fn consent_takes_turns()
    ensures served { (setup : Setup) (e : End) (due : ℕ) (s : State) (events : List Timed)
        → let last = (disturbed setup s events).clock in
        AreDistinct s.pairs → due ≤ s.clock → HasDue e due last s → last < s.clock + seconds 30
        → last < 2 ^ 64 → ahead due s.pairs ≤ turns setup s events
        → HasAsked setup e.base e.to s events }
    ensures bounded { (setup : Setup) (begin : Begin) (earlier events : List Timed) (e : End) (due : ℕ)
        → let s = run setup begin earlier in let last = (disturbed setup s events).clock in
        due ≤ s.clock → HasDue e due last s → last < s.clock + seconds 30 → last < 2 ^ 64
        → setup.most_pairs ≤ turns setup s events → HasAsked setup e.base e.to s events }
    ensures example { is_valid_at 1 (address 20) (polled_each_5_s 12 both_due) ≡ true }
    ensures example_too { is_valid_at 1 (address 21) (polled_each_5_s 12 both_due) ≡ true }
{}

/// Each valid pair whose peer answers keeps its consent, in runs of any length and whatever else arrives,
/// although datagrams are delayed and lost. The premises: there are at most n valid pairs; each gap has n
/// polls that count for `consent_takes_turns`; and one of the requests on the pair is answered with success
/// soon enough after the first one, both within 20 seconds together. So n times Ta plus the delay may be 20
/// seconds. The example is a run of two pairs that meets the premises.
pub fn consent_is_kept()
    ensures kept { (setup : Setup) (e : End) (n gap delay : ℕ) (s : State) (events : List Timed) (now : ℕ)
        → IsFit setup → gap + delay ≤ seconds 20 → AreDistinct s.pairs → HasKept e s
        → IsFairCourse setup e n gap delay s events → let after = disturbed setup s events in
        after.clock ≤ now → valid_pairs after.pairs ≤ n → IsPunctual setup e n gap delay s events now
        → OneAmong (IsConsentedWay e now) (IsElsewhere e) (at setup now after).pairs }
    ensures example { IsFairExample }
{}
