//! What holds of every agent, and of all that comes in whatever order. Each function does nothing: its contract is
//! the law.

ghost use Rattle.std.specs.Prelude.{◌≡◌, ℕ, List};
ghost use Rattle.ice_machine.specs.Runs.{Begin, history, run};
ghost use Rattle.ice_machine.specs.Steps.{at};
ghost use Rattle.ice_machine.specs.Warrants.{IsRight};
ghost use Rattle.ice_agent_state.specs.Agents.{output_at};
ghost use Rattle.stun_grammar.specs.Numbers.{IsBytes};
ghost use Rattle.stun_endpoints.specs.declared.endpoints.Endpoint.{Endpoint};
ghost use Rattle.ice_machine.specs.Events.{sends};
ghost use Rattle.ice_lite.specs.declared.candidates.LiteBase.{LiteBase};
ghost use Rattle.ice_lite.specs.Past.{sent_by_past};
ghost use Rattle.ice_lite.specs.Runs as machine;
ghost use Rattle.ice_lite.specs.Steps as steps;
ghost use Rattle.ice_checks.specs.Authentic.{IsAuthenticEvent};
ghost use Rattle.ice_checks.specs.Views.{Login};
ghost use Rattle.ice_agent.specs.Agents.{Agent};
ghost use Rattle.ice_agent.specs.Lite as lite;
ghost use Rattle.ice_agent.specs.Runs.{Call, IsBegun, Moment, after_all, event_in, fresh_in, timed_all};

use ice_checks::events_are_authentic;
use ice_lite::nominated_pairs_carry_data;
use ice_machine::sending_is_warranted;

/// Whatever is called and comes in whatever order: the state of an agent is that of the machine after the events
/// that the calls and datagrams are. Each output, a request, a response, data to the peer, or data of the peer that
/// is shown, is warranted by what came before, as `ice_machine` has it: data goes only to an address from which,
/// less than 30 seconds ago, an authentic success response came to a request that the agent had sent there less
/// than 30 seconds before that (RFC 7675, section 5.1).
pub fn datagrams_are_warranted()
    ensures state { (begin : Begin) (agent : Agent) (moments : List Moment) → IsBegun begin agent
        → (after_all agent moments).held.state
        ≡ run agent.held.setup begin (timed_all agent moments) }
    ensures right { (begin : Begin) (agent : Agent) (earlier : List Moment) (now fresh : ℕ) (call : Call)
        → IsBegun begin agent → let setup = agent.held.setup in
        let before = after_all agent earlier in
        IsRight (history setup begin (timed_all agent earlier)) (at setup now before.held.state).clock
        (event_in before call) (output_at now (fresh_in fresh call) (event_in before call) before.held) }
{
    sending_is_warranted();
}

/// Whatever is called and comes in whatever order: the state of a lite agent is that of the machine after the
/// events that the calls and datagrams are, and a check among them is authentic under the agent's own key: its
/// sender knows the password, or nobody signed its covered bytes. So data is sent only to where the peer has
/// nominated a pair, less than 30 seconds after the latest check from there, and in that time it is sent
/// (`ice_lite::nominated_pairs_carry_data`).
pub fn lite_datagrams_are_warranted()
    ensures state { (own : Login) (bases : List LiteBase) (moments : List lite.Moment)
        → let agent = lite.begun own bases in
        lite.after_all agent moments
        ≡ record { state = machine.run bases (lite.timed_all agent moments); own = own } }
    ensures authentic { (agent : lite.LiteAgent) (base : ℕ) (from : Endpoint) (d : List ℕ) → IsBytes d
        → IsAuthenticEvent (lite.logins agent.own) d (lite.event_at agent base from d) }
    ensures sent { (own : Login) (bases : List LiteBase) (earlier : List lite.Moment) (now component : ℕ)
        (bytes : List ℕ) → let agent = lite.begun own bases in let before = lite.after_all agent earlier in
        lite.output_at now (sends component bytes) before
        ≡ sent_by_past bases component (steps.at now before.state).clock bytes
        (machine.history bases (lite.timed_all agent earlier)) }
{
    events_are_authentic();
    nominated_pairs_carry_data();
}
