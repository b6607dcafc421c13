//! Data that reaches the other side, in the bytes that carry it.

ghost use Rattle.std.specs.Prelude.{◌≡◌, ◌++◌, ◌&&◌, ℕ, Bool, true, List, Option};
ghost use Rattle.stun_base.specs.declared.transport.TransportType.{TransportType};
ghost use Rattle.stun_endpoints.specs.declared.endpoints.Endpoint.{Endpoint};
ghost use Rattle.stun_endpoints.specs.declared.endpoints.FiveTuple.{FiveTuple};
ghost use Rattle.turn_allocations.specs.declared.families.Families.{Families};
ghost use Rattle.turn_client.specs.Clients.{Client};
ghost use Rattle.turn_client.specs.Histories.{past, state_at};
ghost use Rattle.turn_client.specs.Receiving.{event_at};
ghost use Rattle.turn_client.specs.Runs.{IsBegun, Moment as ClientMoment, after_all};
ghost use Rattle.turn_client_machine.specs.Events.{Output, sends, shows};
ghost use Rattle.turn_client_machine.specs.Joined.{at_client, at_server};
ghost use Rattle.turn_client_machine.specs.Reach.{Arrives, IsJoined, IsPunctual, IsSettled, IsSocket, happened_since};
ghost use Rattle.turn_client_messages.specs.Judging.{event_of as event_heard, judge as hears};
ghost use Rattle.turn_client_messages.specs.Views.{Asked, Dealing};
ghost use Rattle.turn_client_state.specs.States.{output_at, setup_of};
ghost use Rattle.turn_machine.specs.Events.{Output as ServerOutput};
ghost use Rattle.turn_machine.specs.Relays.{Rules, Setup};
ghost use Rattle.turn_machine.specs.Reserving.{OuterState, inner_run, plain};
ghost use Rattle.turn_machine.specs.Runs.{Timed, run};
ghost use Rattle.turn_machine.specs.Times.{at};
ghost use Rattle.turn_server.specs.Datagrams.{Moment, events_in};
ghost use Rattle.turn_server.specs.Judging.{Site, event_of, judge};
ghost use Rattle.turn_sessions.specs.Crossing.{Gives, IsBrought, IsCarriedOn, IsTo, Sends, brought_by};
ghost use Rattle.turn_sessions.specs.Sides.{IsTransported};

use stun_endpoints::sockets_are_of_endpoints;
use turn_client::will_reach;
use turn_server::datagrams_are_warranted;

/// The bytes by which a client sends data are the event at the server that the joined laws of both machines speak
/// of (`turn_client::will_reach`), and the bytes by which a server gives it a peer's data are that event at the
/// client.
///
/// So whatever was called and came: the bytes that a client writes to send data to a peer make the server send
/// exactly that data to that peer, from the client's relayed address. A punctual client sends whatever its user
/// sends to a peer that the server has permitted. And what such a peer sends to the relayed address, the client shows
/// as from that peer, exactly, once the datagram comes that the server writes for it, a Data indication or ChannelData.
/// The premises are those of `will_reach`, for a server that received these datagrams.
///
/// It doesn't say that a datagram arrives, nor that there was room to write it.
pub fn data_crosses()
    ensures sent { (last_channel : ℕ) (sets_df : Bool) (site : Site) (transport : TransportType)
        (tuple : FiveTuple) (h : OuterState) (numbers : Families ℕ) (output : Output) (d : List ℕ)
        → Sends transport output d
        → event_of tuple h numbers (judge last_channel sets_df site d) ≡ plain (at_server tuple output) }
    ensures given { (dealing : Dealing) (request : Option Asked) (from : Endpoint) (number protocol : ℕ)
        (output : ServerOutput) (d : List ℕ) → Gives output d → IsTo protocol output
        → IsTransported dealing.transport protocol
        → event_heard from number (hears dealing request d) ≡ at_client from output }
    ensures carried { (client : Client) (moments : List ClientMoment) (setup : Setup) (there : List Moment)
        (since earlier : List Timed) (rules : Rules) (site : Site) (tuple : FiveTuple)
        (numbers : Families ℕ) (user now arrival : ℕ) (peer : Endpoint) (bytes d : List ℕ)
        → IsBegun client → let after = after_all client moments in
        (j : IsJoined (setup_of client.held.settings) (past client moments) setup since earlier tuple user)
        → inner_run setup (events_in setup there) ≡ since ++ earlier
        → (rules.allows_ip peer.ip && rules.allows_port peer) ≡ true
        → Arrives j.shown j.drift 0 (state_at after now).clock
        (at arrival (run setup (since ++ earlier))).clock
        → Sends client.transport (output_at now 0 (sends peer bytes) after.held) d
        → IsCarriedOn setup rules there since earlier site tuple user numbers after.held.state.relayed
        arrival d peer bytes }
    ensures punctual { (client : Client) (moments : List ClientMoment) (setup : Setup)
        (there : List Moment) (since earlier : List Timed) (rules : Rules) (site : Site)
        (tuple : FiveTuple) (numbers : Families ℕ) (user now arrival late slack : ℕ)
        (named peer : Endpoint) (bytes d : List ℕ)
        → IsBegun client → let after = after_all client moments in
        (j : IsJoined (setup_of client.held.settings) (past client moments) setup since earlier tuple user)
        → inner_run setup (events_in setup there) ≡ since ++ earlier
        → (rules.allows_ip peer.ip && rules.allows_port peer) ≡ true
        → Arrives j.shown j.drift slack (state_at after now).clock
        (at arrival (run setup (since ++ earlier))).clock
        → IsPunctual late slack named peer (state_at after now)
        → Sends client.transport (output_at now 0 (sends peer bytes) after.held) d
        → IsCarriedOn setup rules there since earlier site tuple user numbers after.held.state.relayed
        arrival d peer bytes }
    ensures shown { (client : Client) (moments more : List ClientMoment) (setup : Setup)
        (there : List Moment) (since earlier : List Timed) (rules : Rules) (tuple : FiveTuple)
        (user sent now arrival late slack number protocol : ℕ) (named peer : Endpoint)
        (bytes d : List ℕ) → IsBegun client → let before = after_all client moments in
        (j : IsJoined (setup_of client.held.settings) (past client moments) setup since earlier tuple user)
        → inner_run setup (events_in setup there) ≡ since ++ earlier
        → rules.allows_ip peer.ip ≡ true
        → Arrives j.shown j.drift slack (state_at before sent).clock
        (at arrival (run setup (since ++ earlier))).clock
        → IsPunctual late slack named peer (state_at before sent)
        → IsSocket tuple user number before.held.state.relayed (happened_since setup since earlier)
        → let after = after_all client (more ++ moments) in
        IsPunctual late 0 named peer (state_at after now)
        → IsSettled (past client moments) peer (state_at after now)
        → IsTransported client.transport protocol
        → IsBrought protocol (brought_by setup rules there number arrival peer bytes) d
        → output_at now 0 (event_at after client.held.settings.server d) after.held ≡ shows peer bytes }
{
    sockets_are_of_endpoints();
    will_reach();
    datagrams_are_warranted();
}
