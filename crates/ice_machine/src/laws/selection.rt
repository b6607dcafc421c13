//! Roles, nomination, and the selected pair.

ghost use Rattle.std.specs.Prelude.{◌≡◌, ◌≤◌, ◌<◌, ◌+◌, ℕ, List, Some, false};
ghost use Rattle.ice_machine.specs.Agents.{Setup, State, Pair, seconds};
ghost use Rattle.ice_machine.specs.Pairs.{selected};
ghost use Rattle.ice_machine.specs.Runs.{Begin, Timed, run, history};
ghost use Rattle.ice_machine.specs.Roles.{other_role, Controlling};
ghost use Rattle.ice_machine.specs.Meetings.{End, IsFit, delay};
ghost use Rattle.ice_machine.specs.Lasting.{Watch, IsCourse, IsTimely, watched, HasUnnamed, HasNamed, IsNaming, IsBestValid};
ghost use Rattle.ice_machine.specs.Events.{Check, Answer, checks, polls};
ghost use Rattle.ice_machine.specs.Steps.{at, step};
ghost use Rattle.ice_machine.specs.Exchanges.{Side, checked_by, answered_with, IsExchange, IsCrossing, IsSteady};
ghost use Rattle.ice_machine.specs.Bounds.{AreDistinct, AreSingle};
ghost use Rattle.ice_machine.specs.Warrants.{IsSelected};

/// A pair is selected only if a check of this agent on it was answered with success, and if it is nominated:
/// in the controlled role by an authentic check with USE-CANDIDATE, and in the controlling role by a
/// nominating check of its own that was answered with success. A controlling agent has picked or nominated at
/// most one pair of a component (RFC 8445, section 8.1.1).
pub fn selection_is_agreed()
    ensures agreed { (setup : Setup) (begin : Begin) (events : List Timed) (component : ℕ) (p : Pair)
        → selected component (run setup begin events) ≡ Some p
        → IsSelected (run setup begin events).role (history setup begin events) p }
    ensures single { (setup : Setup) (begin : Begin) (events : List Timed)
        → (run setup begin events).role ≡ Controlling → AreSingle (run setup begin events).pairs }
{}

/// One check and its response leave two agents in opposite roles, whatever their roles were; so do two checks
/// that cross, if the tiebreakers differ. No check makes the agent of the greater tiebreaker controlled, or
/// that of the lesser one controlling. A check of the opposite role changes no role (RFC 8445, sections
/// 7.2.5.1 and 7.3.1.1).
pub fn roles_settle()
    ensures exchange { (one other : Side) (answer : Answer) → IsExchange one other answer
        → (answered_with one one.state answer).role ≡ other_role (checked_by other one).state.role }
    ensures crossing { (one other : Side) (one_answer other_answer : Answer)
        → IsCrossing one other one_answer other_answer
        → (answered_with one (checked_by one other).state other_answer).role
        ≡ other_role (answered_with other (checked_by other one).state one_answer).role }
    ensures steady { (setup : Setup) (state : State) (now fresh : ℕ) (c : Check)
        → IsSteady state (step setup state now fresh (checks c)).state c }
{}

/// A controlling agent nominates: once a pair is valid and no pair of its component is nominated, it sends a
/// nominating request on a pair of the component, at most a gap after `patience` is over, whatever else
/// arrives. The pair that it picks so has the greatest priority of the component's valid pairs at that moment,
/// unless the request is a triggered check (RFC 8445, section 8.1.1).
pub fn nominations_follow()
    ensures follows { (setup : Setup) (e : End) (gap delay since limit : ℕ) (s : State) (w : Watch)
        (events : List Timed) (now : ℕ) → IsFit setup → since + setup.patience ≤ limit
        → gap + delay ≤ seconds 20 → AreDistinct s.pairs → HasUnnamed e gap since limit w s
        → IsCourse setup e gap delay s w events → IsTimely gap delay now (watched setup e s w events)
        → limit + gap < now → HasNamed setup e s events }
    ensures best { (setup : Setup) (s : State) (e : End) (now fresh : ℕ) → AreDistinct s.pairs
        → (n : IsNaming setup e fresh (at setup now s) (step setup s now fresh polls).output)
        → n.pair.chosen ≡ false → n.pair.triggered ≡ false
        → IsBestValid (at setup now s) n.pair }
{}
