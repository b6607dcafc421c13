//! The roles of two agents, in the checks that pass between them.

ghost use Rattle.std.specs.Prelude.{◌≡◌, ℕ, List};
ghost use Rattle.stun_grammar.specs.declared.integrity_algorithm.IntegrityAlgorithm.{IntegrityAlgorithm};
ghost use Rattle.stun_endpoints.specs.declared.endpoints.Endpoint.{Endpoint};
ghost use Rattle.ice_machine.specs.declared.messages.Check.{Check};
ghost use Rattle.ice_machine.specs.Exchanges.{IsSteady};
ghost use Rattle.ice_machine.specs.declared.roles.Role.{Role};
ghost use Rattle.ice_machine.specs.Roles.{other_role, role_decision};
ghost use Rattle.ice_attrs.specs.Roles.{role_decision as attribute_decision};
ghost use Rattle.ice_checks.specs.declared.judged.Judged.{Judged};
ghost use Rattle.ice_agent.specs.Agents.{Agent};
ghost use Rattle.ice_agent.specs.Receiving.{Reply, judged, received};
ghost use Rattle.ice_exchanges.specs.Roles.{Side, IsCrossing, IsExchange, answered_with, checked_by, decision_as, shown_role};

use stun_endpoints::sockets_are_of_endpoints;

/// The bytes of one check and of its response leave two agents in opposite roles, whatever their roles were; so do
/// those of two checks that cross, if the tiebreakers differ. No check makes the agent of the greater tiebreaker
/// controlled, or that of the lesser one controlling. A check of the opposite role changes no role (RFC 8445,
/// sections 7.2.5.1 and 7.3.1.1).
pub fn roles_settle()
    ensures exchange { (one other : Side) (reply : Reply) → IsExchange one other reply
        → (answered_with one one.agent reply).held.state.role
        ≡ other_role (checked_by other one).held.state.role }
    ensures crossing { (one other : Side) (one_reply other_reply : Reply)
        → IsCrossing one other one_reply other_reply
        → (answered_with one (checked_by one other) other_reply).held.state.role
        ≡ other_role (answered_with other (checked_by other one) one_reply).held.state.role }
    ensures steady { (agent : Agent) (now fresh base : ℕ) (from : Endpoint) (d : List ℕ) (check : Check)
        (algorithm : IntegrityAlgorithm) → judged agent base from d ≡ Judged.Checks check algorithm
        → IsSteady agent.held.state (received now fresh base from d agent).held.state check }
{
    sockets_are_of_endpoints();
    ice_machine::roles_settle();
}

/// What an agent does about the role that a check shows is what `ice_attrs::decide_role` returns.
pub fn roles_are_decided_alike()
    ensures { (role shown : Role) (tiebreaker contents : ℕ)
        → attribute_decision (shown_role role) tiebreaker (shown_role shown) contents
        ≡ decision_as (role_decision role tiebreaker shown contents) }
{}
