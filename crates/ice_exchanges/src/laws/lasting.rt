//! What an agent must do in the end, from any state, whatever else is called and comes. The premises are about the
//! events that the calls and datagrams are.

ghost use Rattle.std.specs.Prelude.{◌≡◌, ◌≤◌, ◌<◌, ◌+◌, ◌^◌, ℕ, List, Some};
ghost use Rattle.ice_machine.specs.declared.pairs.Pair.{Pair};
ghost use Rattle.ice_machine.specs.Agents.{seconds};
ghost use Rattle.ice_machine.specs.Bounds.{AreDistinct};
ghost use Rattle.ice_machine.specs.Events.{data_to, sends};
ghost use Rattle.ice_machine.specs.Fairness.{HasDue, HasKept, IsFairCourse, IsPunctual, ahead, turns, valid_pairs};
ghost use Rattle.ice_machine.specs.Lasting.{HasNamed, HasNominated, HasTriggered, HasUnnamed, IsConsentedWay, IsCourse, IsElsewhere, IsTimely, Watch, watched};
ghost use Rattle.ice_machine.specs.Meetings.{End, IsFit, OneAmong, disturbed};
ghost use Rattle.ice_machine.specs.Pairs.{selected};
ghost use Rattle.ice_machine.specs.Runs.{Begin};
ghost use Rattle.ice_machine.specs.Steps.{at};
ghost use Rattle.ice_agent_state.specs.Agents.{output_at};
ghost use Rattle.ice_agent.specs.Agents.{Agent};
ghost use Rattle.ice_agent.specs.Runs.{IsBegun, Moment, after_all, timed_all};
ghost use Rattle.ice_exchanges.specs.Silences.{requests_to};

use ice_agent::datagrams_are_warranted;

/// From any state, calls and datagrams leave an agent in the state in which the events that they are leave the
/// machine.
pub fn runs_are_the_machines()
    ensures { (agent : Agent) (moments : List Moment) → (after_all agent moments).held.state
        ≡ disturbed agent.held.setup agent.held.state (timed_all agent moments) }
{}

/// An agent with a nominated pair keeps a selected pair, and its data goes there, as `ice_machine::consent_lasts`
/// says: polls come often enough, and one of the requests on the pair is answered with success soon enough.
pub fn consent_lasts()
    ensures { (agent : Agent) (e : End) (gap delay : ℕ) (w : Watch) (moments : List Moment)
        (now fresh : ℕ) (bytes : List ℕ) → gap + delay ≤ seconds 20
        → HasNominated e gap w agent.held.state
        → IsCourse agent.held.setup e gap delay agent.held.state w (timed_all agent moments)
        → let after = (after_all agent moments).held in after.state.clock ≤ now
        → IsTimely gap delay now
        (watched agent.held.setup e agent.held.state w (timed_all agent moments))
        → (p : Pair) × (selected e.component (at after.setup now after.state) ≡ Some p)
        × (output_at now fresh (sends e.component bytes) after ≡ data_to p.base p.remote bytes) }
{
    ice_machine::consent_lasts();
}

/// No consent check starves: from any state, whatever is called and comes, a valid pair that is due gets its request
/// within as many polls as valid pairs have been due for as long, itself included; so, once an agent has begun,
/// within as many as there is room for pairs. `ice_machine::consent_takes_turns` says which polls count.
pub fn consent_takes_turns()
    ensures served { (agent : Agent) (e : End) (due : ℕ) (moments : List Moment)
        → let s = agent.held.state in let last = (after_all agent moments).held.state.clock in
        AreDistinct s.pairs → due ≤ s.clock → HasDue e due last s → last < s.clock + seconds 30
        → last < 2 ^ 64 → ahead due s.pairs ≤ turns agent.held.setup s (timed_all agent moments)
        → 1 ≤ requests_to e.base e.to agent moments }
    ensures bounded { (begin : Begin) (begun : Agent) (earlier moments : List Moment) (e : End) (due : ℕ)
        → IsBegun begin begun → let agent = after_all begun earlier in let s = agent.held.state in
        let last = (after_all agent moments).held.state.clock in
        due ≤ s.clock → HasDue e due last s → last < s.clock + seconds 30 → last < 2 ^ 64
        → agent.held.setup.most_pairs ≤ turns agent.held.setup s (timed_all agent moments)
        → 1 ≤ requests_to e.base e.to agent moments }
{
    datagrams_are_warranted();
    ice_machine::consent_takes_turns();
}

/// Each valid pair whose peer answers keeps its consent, as `ice_machine::consent_is_kept` says.
pub fn consent_is_kept()
    ensures { (agent : Agent) (e : End) (n gap delay : ℕ) (moments : List Moment) (now : ℕ)
        → IsFit agent.held.setup → gap + delay ≤ seconds 20 → AreDistinct agent.held.state.pairs
        → HasKept e agent.held.state
        → IsFairCourse agent.held.setup e n gap delay agent.held.state (timed_all agent moments)
        → let after = (after_all agent moments).held in after.state.clock ≤ now
        → valid_pairs after.state.pairs ≤ n
        → IsPunctual agent.held.setup e n gap delay agent.held.state (timed_all agent moments) now
        → OneAmong (IsConsentedWay e now) (IsElsewhere e) (at after.setup now after.state).pairs }
{
    ice_machine::consent_is_kept();
}

/// Once a check of the peer has triggered a check, its pair becomes valid soon, and stays so, as
/// `ice_machine::checks_are_followed` says.
pub fn checks_are_followed()
    ensures { (agent : Agent) (e : End) (gap delay limit : ℕ) (w : Watch) (moments : List Moment)
        (now : ℕ) → IsFit agent.held.setup → gap + delay ≤ seconds 20
        → HasTriggered e gap limit w agent.held.state
        → IsCourse agent.held.setup e gap delay agent.held.state w (timed_all agent moments)
        → let after = (after_all agent moments).held in after.state.clock ≤ now
        → IsTimely gap delay now
        (watched agent.held.setup e agent.held.state w (timed_all agent moments))
        → limit + delay < now
        → OneAmong (IsConsentedWay e now) (IsElsewhere e) (at after.setup now after.state).pairs }
{
    ice_machine::checks_are_followed();
}

/// A controlling agent nominates, as `ice_machine::nominations_follow` says.
pub fn nominations_follow()
    ensures { (agent : Agent) (e : End) (gap delay since limit : ℕ) (w : Watch) (moments : List Moment)
        (now : ℕ) → IsFit agent.held.setup → since + agent.held.setup.patience ≤ limit
        → gap + delay ≤ seconds 20 → AreDistinct agent.held.state.pairs
        → HasUnnamed e gap since limit w agent.held.state
        → IsCourse agent.held.setup e gap delay agent.held.state w (timed_all agent moments)
        → IsTimely gap delay now
        (watched agent.held.setup e agent.held.state w (timed_all agent moments))
        → limit + gap < now
        → HasNamed agent.held.setup e agent.held.state (timed_all agent moments) }
{
    ice_machine::nominations_follow();
}
