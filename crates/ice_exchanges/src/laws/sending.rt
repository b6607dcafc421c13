//! What an agent sends, and to whom, in the datagrams that it receives and sends.

ghost use Rattle.std.specs.Prelude.{◌≡◌, ◌≤◌, ℕ, List, max};
ghost use Rattle.stun_grammar.specs.Numbers.{IsBytes};
ghost use Rattle.stun_endpoints.specs.declared.endpoints.Endpoint.{Endpoint};
ghost use Rattle.ice_machine.specs.Events.{data_to};
ghost use Rattle.ice_machine.specs.Runs.{Begin};
ghost use Rattle.ice_machine.specs.Steps.{at};
ghost use Rattle.ice_agent.specs.Agents.{Agent};
ghost use Rattle.ice_agent.specs.Receiving.{received};
ghost use Rattle.ice_agent.specs.Runs.{IsBegun, Moment, after_all};
ghost use Rattle.ice_exchanges.specs.Consents.{IsConsented};
ghost use Rattle.ice_exchanges.specs.Datagrams.{AreCalls, IsPeers, clock_at, output_of};
ghost use Rattle.ice_exchanges.specs.Silences.{IsSilent, requests_to};

use ice_agent::datagrams_are_warranted;
use ice_checks::events_are_authentic;

/// Data goes from a base to an address only if, less than 30 seconds ago, a datagram came from that address, at
/// that base: a success response with the transaction ID of a request that the agent had sent from that base to
/// that address less than 30 seconds before (RFC 7675, section 5.1), with a right HMAC under the peer's key. So a
/// holder of that key made it, or nobody signed its bytes (`stun_grammar::integrity_has_origin`). The agent may
/// have been called, and any datagrams may have come, in any order.
pub fn data_is_consented()
    ensures { (begin : Begin) (agent : Agent) (earlier : List Moment) (m : Moment) (base : ℕ)
        (to : Endpoint) (bytes : List ℕ) → IsBegun begin agent → AreCalls earlier
        → output_of (after_all agent earlier) m ≡ data_to base to bytes
        → IsConsented (clock_at (after_all agent earlier) m.now) base to agent earlier }
{
    datagrams_are_warranted();
    events_are_authentic();
}

/// An agent can't be made to flood a victim (RFC 8445, section 19.5.1): to an address that no datagram of the peer
/// has come from, each base sends at most `most_tries` requests, whoever signals the address and however often,
/// and whatever else comes.
pub fn silence_gets_little()
    ensures { (begin : Begin) (agent : Agent) (moments : List Moment) (base : ℕ) (to : Endpoint)
        → IsBegun begin agent → AreCalls moments → IsSilent base to agent moments
        → requests_to base to agent moments ≤ max 1 agent.held.setup.most_tries }
{
    datagrams_are_warranted();
    events_are_authentic();
    ice_machine::silence_gets_little();
}

/// A datagram that isn't the peer's changes the clock only.
pub fn strangers_change_nothing()
    ensures { (agent : Agent) (now fresh base : ℕ) (from : Endpoint) (d : List ℕ) → IsBytes d
        → (IsPeers agent.logins d → ⊥) → received now fresh base from d agent
        ≡ record agent { held = record agent.held { state = at agent.held.setup now agent.held.state } } }
{
    events_are_authentic();
}
