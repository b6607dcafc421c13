//! What an agent must not leave undone, in what its calls return.

ghost use Rattle.std.specs.Prelude.{◌≡◌, ◌<◌, ◌^◌, ℕ, List, Option, Some, Result, find, true, false};
ghost use Rattle.stun_grammar.specs.declared.error.StunWriteError.{StunWriteError};
ghost use Rattle.stun_grammar.specs.declared.integrity_algorithm.IntegrityAlgorithm.{IntegrityAlgorithm};
ghost use Rattle.stun_endpoints.specs.declared.endpoints.Endpoint.{Endpoint};
ghost use Rattle.ice_machine.specs.declared.messages.Request.{Request};
ghost use Rattle.ice_machine.specs.declared.pairs.Pair.{Pair};
ghost use Rattle.ice_machine.specs.Agents.{is_at, is_lost};
ghost use Rattle.ice_machine.specs.Events.{polls, sends};
ghost use Rattle.ice_machine.specs.Pairs.{selected};
ghost use Rattle.ice_machine.specs.Steps.{at, is_open, is_request};
ghost use Rattle.ice_machine.specs.Works.{IsValid};
ghost use Rattle.ice_agent_state.specs.declared.routing.Route.{Route};
ghost use Rattle.ice_agent_state.specs.Agents.{output_at};
ghost use Rattle.ice_agent_state.specs.Outputs.{data_by};
ghost use Rattle.ice_agent_state.specs.Statuses.{route_of};
ghost use Rattle.ice_checks.specs.Checks.{response_text};
ghost use Rattle.ice_checks.specs.Views.{Login, Logins, success};
ghost use Rattle.ice_agent.specs.declared.sending.Sending.{Sending};
ghost use Rattle.ice_agent.specs.Agents.{Agent};
ghost use Rattle.ice_agent.specs.Receiving.{received};
ghost use Rattle.ice_agent.specs.Sending.{Polls};
ghost use Rattle.ice_exchanges.specs.Peers.{IsTransport, Knows};
ghost use Rattle.ice_exchanges.specs.Works.{IsBusy};

use stun_endpoints::sockets_are_of_endpoints;

/// What an agent must not leave undone, from any state. The route of a component is that of its selected pair, if
/// there is one. When a request may be sent, a poll writes one, on the most urgent pair (of several valid pairs
/// that are due, on the one that has been due longest), unless none is due on any pair. The bytes of the peer's
/// success response to a request that is waited for make its pair valid, and the consent lasts for 30 seconds from
/// then on.
pub fn agent_works()
    ensures data { (agent : Agent) (now component : ℕ) (bytes : List ℕ) (p : Pair) (result : Option Route)
        → selected component (at agent.held.setup now agent.held.state) ≡ Some p
        → output_at now 0 (sends component bytes) agent.held ≡ data_by bytes result
        → result ≡ Some (route_of p) }
    ensures busy { (agent : Agent) (now id : ℕ) (old new : List ℕ)
        (result : Result (Option Sending) StunWriteError)
        → is_open (at agent.held.setup now agent.held.state) ≡ true
        → Polls agent (output_at now id polls agent.held) old new result
        → IsBusy agent now id old new result }
    ensures response { (agent : Agent) (peer : Login) (other : Logins) (now fresh : ℕ) (source : Endpoint)
        (r : Request) (p : Pair) → Knows agent.logins peer other → r.id < 2 ^ 96 → IsTransport source
        → let state = at agent.held.setup now agent.held.state in
        find (is_request r.id) state.requests ≡ Some r
        → find (is_at r.base r.to) state.pairs ≡ Some p → is_lost p.state ≡ false
        → let response = response_text r.id (success source)
        (Some (record { key = other.own.key; algorithm = IntegrityAlgorithm.Sha1 })) in
        IsValid r.base r.to (received now fresh r.base r.to response agent).held.state }
{
    sockets_are_of_endpoints();
    ice_machine::agent_works();
}
