//! A client and a server: what the server grants, keeps and relays, by its own history and clock.
//!
//! The server is the machine of `turn_machine`, whose runs are those of `turn_server`
//! (`turn_server::datagrams_are_warranted`).

ghost use Rattle.std.specs.Prelude.{◌≡◌, ◌<◌, ◌≤◌, ◌+◌, ◌&&◌, ◌∷◌, ℕ, List, ◌++◌, true};
ghost use Rattle.std.specs.List.{AllByRecursion, list_any};
ghost use Rattle.stun_endpoints.specs.declared.endpoints.FiveTuple.{FiveTuple};
ghost use Rattle.turn_machine.specs.Events.{arrives as s_arrives};
ghost use Rattle.turn_machine.specs.Relays.{Setup as ServerSetup, Rules};
ghost use Rattle.turn_machine.specs.Runs.{Timed as ServerTimed, run as s_run, history as s_history};
ghost use Rattle.turn_machine.specs.Times.{at as s_at};
ghost use Rattle.turn_machine.specs.Works.{output_of as output_there};
ghost use Rattle.turn_client_machine.specs.Clients.{Endpoint, is_allocated, is_ip, is_peer, seconds};
ghost use Rattle.turn_client_machine.specs.Events.{sends, send_to, send_on, shows, nothing};
ghost use Rattle.turn_client_machine.specs.Joined.{IsLinked, one_clock, ServerBinds, ServerKeeps, ServerLasts, ServerPermits, at_client};
ghost use Rattle.turn_client_machine.specs.Lasting.{IsInTime, IsServed, IsServedFor};
ghost use Rattle.turn_client_machine.specs.Reach.{Arrives, happened_since, IsJoined, IsPunctual, IsRelayed, IsSettled, IsSocket, IsUsable};
ghost use Rattle.turn_client_state.specs.States.{output_at, setup_of};
ghost use Rattle.turn_client.specs.Clients.{Client};
ghost use Rattle.turn_client.specs.Histories.{past, state_at};
ghost use Rattle.turn_client.specs.Receiving.{event_at};
ghost use Rattle.turn_client.specs.Runs.{IsBegun, Moment, after_all, timed_all};

/// Whatever was called and came: when the client sends data to a peer, the server has granted a lifetime
/// and a permission for the peer's IP address that aren't over, and on a channel also that channel to this
/// very peer, by the server's own history and clock. The premise (`IsLinked`): each success response that
/// the client takes as authentic is one that the server gave to that request.
pub fn server_agrees()
    ensures sent { (client : Client) (moments : List Moment) (now : ℕ) (to peer : Endpoint)
        (more bytes : List ℕ) (server : ServerSetup) (there : List ServerTimed) (tuple : FiveTuple)
        (user : ℕ) → IsBegun client → let after = after_all client moments in
        (s_run server there).clock ≤ (state_at after now).clock
        → IsLinked one_clock (setup_of client.held.settings) (past client moments)
        (s_history server there) tuple user
        → output_at now 0 (sends to more) after.held ≡ send_to peer bytes
        → ServerLasts (s_history server there) tuple user (state_at after now).clock
        × ServerPermits (s_history server there) tuple user to.ip (state_at after now).clock }
    ensures sent_on { (client : Client) (moments : List Moment) (now number : ℕ) (to : Endpoint)
        (more bytes : List ℕ) (server : ServerSetup) (there : List ServerTimed) (tuple : FiveTuple)
        (user : ℕ) → IsBegun client → let after = after_all client moments in
        (s_run server there).clock ≤ (state_at after now).clock
        → IsLinked one_clock (setup_of client.held.settings) (past client moments)
        (s_history server there) tuple user
        → output_at now 0 (sends to more) after.held ≡ send_on number bytes
        → ServerLasts (s_history server there) tuple user (state_at after now).clock
        × ServerPermits (s_history server there) tuple user to.ip (state_at after now).clock
        × ServerBinds (s_history server there) tuple user number to (state_at after now).clock }
{
    turn_client_machine::data_is_warranted();
    turn_client_machine::server_agrees();
}

/// By the server's own history and clock: if nothing has been due for 20 seconds or longer, the
/// allocation is live, and so is each granted permission of a peer that isn't over.
pub fn server_keeps()
    ensures { (client : Client) (moments : List Moment) (now late : ℕ) (server : ServerSetup)
        (there : List ServerTimed) (tuple : FiveTuple) (user : ℕ) → IsBegun client
        → late < seconds 20 → let after = after_all client moments in
        is_allocated after.held.state.phase ≡ true → IsInTime late (state_at after now)
        → (s_run server there).clock ≤ (state_at after now).clock
        → IsLinked one_clock (setup_of client.held.settings) (past client moments)
        (s_history server there) tuple user
        → ServerKeeps (s_history server there) tuple user (state_at after now) }
{
    turn_client_machine::server_keeps();
}

/// Whatever was called and came: what the client sends, whenever it does, the server relays to the peer,
/// exactly, and from the relayed address that `TurnClient::status` returns. A punctual client
/// (`IsPunctual`) sends whatever its user sends to a peer that the server has permitted; and what that
/// peer sends to the relayed address is shown as from that peer, exactly, once the datagram comes that the
/// server makes of it. The premises (`IsJoined`):
/// requests of this user from this 5-tuple are this client's, and no copy of an Allocate request was
/// under way for 9 minutes; success responses that the client accepts are the server's; the server's
/// operator ends nothing of the client's; and the server's clock gains less than 20 seconds in a
/// lifetime. The rules in force when the data arrives allow the peer.
pub fn will_reach()
    ensures sent { (client : Client) (moments : List Moment) (server : ServerSetup)
        (since earlier : List ServerTimed) (rules : Rules) (tuple : FiveTuple)
        (user now there : ℕ) (peer : Endpoint) (bytes : List ℕ) → IsBegun client
        → let after = after_all client moments in
        (j : IsJoined (setup_of client.held.settings) (past client moments) server since earlier tuple
        user) → (rules.allows_ip peer.ip && rules.allows_port peer) ≡ true
        → Arrives j.shown j.drift 0 (state_at after now).clock
        (s_at there (s_run server (since ++ earlier))).clock
        → (output_at now 0 (sends peer bytes) after.held ≡ nothing → ⊥)
        → IsRelayed server since earlier rules tuple user after.held.state.relayed there peer bytes
        (output_at now 0 (sends peer bytes) after.held) }
    ensures punctual { (client : Client) (moments : List Moment) (server : ServerSetup)
        (since earlier : List ServerTimed) (rules : Rules) (tuple : FiveTuple)
        (user now there late slack : ℕ) (named peer : Endpoint) (bytes : List ℕ) → IsBegun client
        → let after = after_all client moments in
        (j : IsJoined (setup_of client.held.settings) (past client moments) server since earlier tuple
        user) → (rules.allows_ip peer.ip && rules.allows_port peer) ≡ true
        → Arrives j.shown j.drift slack (state_at after now).clock
        (s_at there (s_run server (since ++ earlier))).clock
        → IsPunctual late slack named peer (state_at after now)
        → IsRelayed server since earlier rules tuple user after.held.state.relayed there peer bytes
        (output_at now 0 (sends peer bytes) after.held) }
    ensures back { (client : Client) (more moments : List Moment) (server : ServerSetup)
        (since earlier : List ServerTimed) (rules : Rules) (tuple : FiveTuple)
        (user moment now there late slack relay : ℕ) (named peer from : Endpoint)
        (bytes d : List ℕ)
        → IsBegun client → let before = after_all client moments in
        let after = after_all client (more ++ moments) in
        (j : IsJoined (setup_of client.held.settings) (past client moments) server since earlier tuple
        user) → rules.allows_ip peer.ip ≡ true
        → Arrives j.shown j.drift slack (state_at before moment).clock
        (s_at there (s_run server (since ++ earlier))).clock
        → IsPunctual late slack named peer (state_at before moment)
        → IsSocket tuple user relay before.held.state.relayed (happened_since server since earlier)
        → IsPunctual late 0 named peer (state_at after now)
        → IsSettled (past client moments) peer (state_at after now)
        → event_at after from d ≡ at_client client.held.settings.server
        (output_there server (since ++ earlier) there rules (s_arrives relay peer bytes))
        → output_at now 0 (event_at after from d) after.held ≡ shows peer bytes }
{
    turn_client_machine::will_reach();
}

/// A client that is polled in time stays punctual for a peer that the server has permitted, as long as
/// nothing comes that is a reason to end the allocation or to give up the peer: responses may be late or
/// lost, if one copy of each request is answered before its deadline.
pub fn stays_punctual()
    ensures { (client : Client) (since earlier : List Moment) (now late slack : ℕ)
        (named peer : Endpoint) → IsBegun client → late + slack < seconds 20
        → is_ip peer.ip named.ip ≡ true → let before = after_all client earlier in
        is_allocated before.held.state.phase ≡ true
        → list_any (is_peer named) before.held.state.peers ≡ true
        → AllByRecursion (IsUsable named) before.held.state.peers
        → let setup = setup_of client.held.settings in
        IsServed setup (timed_all before since) (timed_all client earlier)
        → IsServedFor setup named (timed_all before since) (timed_all client earlier)
        → let after = after_all client (since ++ earlier) in IsInTime late (state_at after now)
        → IsPunctual late slack named peer (state_at after now) }
{
    turn_client_machine::stays_punctual();
}
