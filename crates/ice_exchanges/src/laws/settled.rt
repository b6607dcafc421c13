//! What holds of an agent after all calls and datagrams.

ghost use Rattle.std.specs.Prelude.{◌≡◌, ◌≤◌, ◌+◌, ◌*◌, ◌++◌, ◌∷◌, ℕ, List, Some, true};
ghost use Rattle.stun_endpoints.specs.declared.endpoints.Endpoint.{Endpoint};
ghost use Rattle.ice_machine.specs.declared.pairs.Pair.{Pair};
ghost use Rattle.ice_machine.specs.Agents.{pace};
ghost use Rattle.ice_machine.specs.Bounds.{AreDistinct, AreSingle, IsWithin, is_over_at};
ghost use Rattle.ice_machine.specs.Events.{data_to};
ghost use Rattle.ice_machine.specs.Pairs.{selected};
ghost use Rattle.ice_machine.specs.declared.roles.Role.TheVariants.{Controlling};
ghost use Rattle.ice_machine.specs.Runs.{Begin};
ghost use Rattle.ice_agent.specs.Agents.{Agent};
ghost use Rattle.ice_agent.specs.Runs.{IsBegun, Moment, after_all};
ghost use Rattle.ice_exchanges.specs.Consents.{IsAgreed};
ghost use Rattle.ice_exchanges.specs.Datagrams.{AreCalls, output_of, requests_sent};

use ice_agent::datagrams_are_warranted;
use ice_checks::events_are_authentic;

/// A pair is selected only if a success response of the peer came to a check of this agent on it, and if it is
/// nominated: in the controlled role by a check of the peer with USE-CANDIDATE, and in the controlling role by a
/// success response of the peer to a nominating check. A controlling agent has picked or nominated at most one
/// pair of a component, so that no second one is nominated after the first (RFC 8445, section 8.1.1).
pub fn selection_is_agreed()
    ensures agreed { (begin : Begin) (agent : Agent) (moments : List Moment) (component : ℕ) (p : Pair)
        → IsBegun begin agent → AreCalls moments → let now = after_all agent moments in
        selected component now.held.state ≡ Some p → IsAgreed now.held.state.role agent moments p }
    ensures single { (begin : Begin) (agent : Agent) (moments : List Moment) → IsBegun begin agent
        → let now = after_all agent moments in
        now.held.state.role ≡ Controlling → AreSingle now.held.state.pairs }
{
    datagrams_are_warranted();
    events_are_authentic();
    ice_machine::selection_is_agreed();
}

/// Once the peer's consent has expired for a base and an address, no data is sent from that base to that address
/// again, whatever is called and comes (RFC 7675, section 5.1).
pub fn lost_consent_is_final()
    ensures { (begin : Begin) (agent : Agent) (earlier later : List Moment) (m : Moment) (base : ℕ)
        (to : Endpoint) (bytes : List ℕ) → IsBegun begin agent
        → is_over_at base to (after_all agent earlier).held.state ≡ true
        → output_of (after_all agent (later ++ earlier)) m ≡ data_to base to bytes → ⊥ }
{
    datagrams_are_warranted();
    ice_machine::lost_consent_is_final();
}

/// Whatever is called and comes: the lists stay within their bounds, and no two pairs have the same base and the
/// same remote address. Requests are at least Ta apart (RFC 8445, section 14.2): their number times Ta is at most
/// the time that has passed plus Ta.
pub fn agent_is_bounded()
    ensures kept { (begin : Begin) (agent : Agent) (moments : List Moment) → IsBegun begin agent
        → IsWithin agent.held.setup (after_all agent moments).held.state }
    ensures distinct { (begin : Begin) (agent : Agent) (moments : List Moment) → IsBegun begin agent
        → AreDistinct (after_all agent moments).held.state.pairs }
    ensures rate { (begin : Begin) (agent : Agent) (moments : List Moment) → IsBegun begin agent
        → requests_sent agent moments * pace agent.held.setup
        ≤ (after_all agent moments).held.state.clock + pace agent.held.setup }
{
    datagrams_are_warranted();
    ice_machine::agent_is_bounded();
}
