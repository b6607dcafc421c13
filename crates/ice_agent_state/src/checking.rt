//! Checks of the peer (RFC 8445, section 7.3.1).

ghost use Rattle.std.specs.Prelude.{◌≡◌, find, map, Some, option_copied};
ghost use Rattle.ice_machine.specs.declared.pairs.Pair.{Pair};
ghost use Rattle.ice_machine.specs.Roles.{other_role, role_decision};
ghost use Rattle.ice_machine.specs.Roles as roles;
ghost use Rattle.ice_machine.specs.Events.{checks};
ghost use Rattle.ice_machine.specs.declared.messages.Answer.TheVariants.{Accepted};
ghost use Rattle.ice_machine.specs.Agents as state;
ghost use Rattle.ice_machine.specs.Steps as steps;
ghost use Rattle.ice_machine.specs.Bounds.{AreDistinct};
ghost use Rattle.ice_agent_state.specs.Agents.{after, output_at};
ghost use Rattle.ice_agent_state.specs.Outputs.{answered_with, decision_of};

use crate::agent::AgentState;
use crate::candidates::{add_pair, new_pair};
use crate::choosing::{is_lost, is_succeeded};
use crate::receiving::place_from;
use ice_machine::{Answer, Base, Check, Pair, PairState, Remote, Role};

/// What an agent does about the role in a check.
#[derive(Clone, Copy, Debug, PartialEq, Eq)]
pub(crate) enum Decision {
    Keep,
    Switch,
    Refuse,
}

/// What an agent does about the role in a check, by both tiebreakers (RFC 8445, section 7.3.1.1).
fn decide(role: Role, tiebreaker: u64, shown: Role, contents: u64) -> Decision
    ensures { decision_of result ≡ role_decision role tiebreaker shown contents }
{
    match role {
        Role::Controlling => match shown {
            Role::Controlled => Decision::Keep,
            Role::Controlling => {
                if contents <= tiebreaker {
                    Decision::Refuse
                } else {
                    Decision::Switch
                }
            }
        },
        Role::Controlled => match shown {
            Role::Controlling => Decision::Keep,
            Role::Controlled => {
                if contents <= tiebreaker {
                    Decision::Switch
                } else {
                    Decision::Refuse
                }
            }
        },
    }
}

pub(crate) fn other(role: Role) -> Role
    ensures { result ≡ other_role role }
{
    match role {
        Role::Controlling => Role::Controlled,
        Role::Controlled => Role::Controlling,
    }
}

pub(crate) fn is_controlling(role: Role) -> bool
    ensures { result ≡ roles.is_controlling role }
{
    match role {
        Role::Controlling => true,
        Role::Controlled => false,
    }
}

/// The pairs without nominations.
fn end_nominations(pairs: &mut [Pair])
    ensures { pairs.new ≡ map {B = Pair} steps.unnominated pairs.old }
{
    for i in 0..pairs.len() {
        pairs[i] = Pair {
            chosen: false,
            nominated: false,
            ..pairs[i]
        };
    }
}

/// The candidate that a check comes from (RFC 8445, section 7.3.1.3).
fn discovered(base: &Base, check: &Check) -> Remote
    ensures { result ≡ steps.discovered base.now check.now }
{
    Remote {
        address: check.from,
        component: base.component,
        foundation: 0,
        priority: check.priority,
    }
}

/// A pair after a check on it, by the role of the agent (RFC 8445, sections 7.3.1.4 and 7.3.1.5).
fn heard(role: Role, check: &Check, pair: Pair) -> Pair
    ensures { result ≡ steps.heard role check.now pair }
{
    triggers(nominated_by(role, check, pair))
}

fn nominated_by(role: Role, check: &Check, pair: Pair) -> Pair
    ensures { result ≡ steps.nominated_by role check.now pair }
{
    if check.nominates && !is_controlling(role) && !is_lost(&pair) {
        return Pair {
            heard: true,
            nominated: true,
            ..pair
        };
    }
    Pair {
        heard: true,
        ..pair
    }
}

/// With a triggered check, unless the pair is valid or lost.
pub(crate) fn triggers(pair: Pair) -> Pair
    ensures { result ≡ steps.triggers pair }
{
    if is_succeeded(&pair) || is_lost(&pair) {
        return pair;
    }
    Pair {
        state: PairState::Waiting,
        triggered: true,
        tries: 0,
        ..pair
    }
}

/// Changes the pair of a check, with a place to look at first. Returns the place of the pair.
fn hear_on(role: Role, check: &Check, first: usize, pairs: &mut [Pair]) -> usize
    requires { AreDistinct pairs.old }
    ensures { pairs.new ≡ steps.changed_first (state.is_at check.now.base check.now.from)
        (steps.heard role check.now) pairs.old }
{
    match place_from(pairs, first, check.base, check.from) {
        Some(place) => {
            pairs[place] = heard(role, check, pairs[place]);
            place
        }
        None => first,
    }
}

fn find_base(bases: &[Base], number: u32) -> Option<&Base>
    ensures { option_copied result ≡ find (steps.is_base number) bases.now }
{
    bases.iter().find(|b| b.number == number)
}

impl AgentState {
    /// Takes a role. If it is another one, nominations end.
    pub(crate) fn take_role(&mut self, role: Role)
        ensures { self.new ≡ record self.old { state = steps.in_role role self.old.state } }
    {
        if is_controlling(role) == is_controlling(self.role) {
            return;
        }
        self.role = role;
        end_nominations(&mut self.pairs);
    }

    /// Accepts a check at a base.
    fn accept(&mut self, base: Base, check: &Check) -> Option<Answer>
        ensures state { self.new ≡ record self.old {
          state = steps.hears self.old.setup base check.now self.old.state;
        } }
        ensures answer { result ≡ Some Accepted }
    {
        let pair = new_pair(base, discovered(&base, check));
        add_pair(self.settings.most_pairs, pair, self.latest, &mut self.pairs);
        self.latest = hear_on(self.role, check, self.latest, &mut self.pairs);
        Some(Answer::Accepted)
    }

    /// A check of the peer has arrived: a Binding request that is authentic under this agent's password.
    /// Returns the response to send to where it came from, from the base that it arrived at. Returns `None`
    /// if there is no such base.
    pub fn check(&mut self, now: u64, check: &Check) -> Option<Answer>
        ensures state { self.new ≡ after now 0 (checks check.now) self.old }
        ensures answer { output_at now 0 (checks check.now) self.old ≡ answered_with check.now result }
    {
        self.advance(now);
        let base = match find_base(&self.bases, check.base) {
            Some(base) => *base,
            None => return None,
        };
        match decide(self.role, self.tiebreaker, check.role, check.tiebreaker) {
            Decision::Keep => self.accept(base, check),
            Decision::Switch => {
                self.take_role(other(self.role));
                self.accept(base, check)
            }
            Decision::Refuse => Some(Answer::Refused(487)),
        }
    }
}
