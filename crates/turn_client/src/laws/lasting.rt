//! How long an allocation and its peers last.

ghost use Rattle.std.specs.Prelude.{◌≡◌, ◌<◌, ◌≤◌, ◌+◌, ℕ, List, ◌++◌, Some, true, false};
ghost use Rattle.std.specs.List.{AllByRecursion};
ghost use Rattle.turn_client_machine.specs.Bounds.{AreNumbered, IsWithin, requests_at_once};
ghost use Rattle.turn_client_machine.specs.Clients.{Endpoint, is_allocated, seconds};
ghost use Rattle.turn_client_machine.specs.Lasting.{IsAlive, IsInTime, IsOn};
ghost use Rattle.turn_client_machine.specs.Steps.{is_free};
ghost use Rattle.turn_client_state.specs.States.{setup_of};
ghost use Rattle.turn_client_state.specs.Waking.{wake};
ghost use Rattle.turn_client.specs.Clients.{Client};
ghost use Rattle.turn_client.specs.Histories.{AreCalls, IsCall, state_at};
ghost use Rattle.turn_client.specs.Lasting.{IsEnd, IsServed, Spares};
ghost use Rattle.turn_client.specs.Runs.{Call, IsBegun, Moment, after_all, stepped};

use turn_client_messages::{judged_is_authentic, requests_are_found_by_id};

/// A client that is polled until nothing is due, at most `late` after each moment that
/// `TurnClient::next_wake` returns, is in time: nothing has been due for longer than `late`. Requests for
/// at most eight peers are under way then; a ninth makes others wait (RFC 8489, section 6.2).
pub fn polls_in_time()
    ensures { (client : Client) (late now moment : ℕ) → is_allocated client.held.state.phase ≡ true
        → is_free client.held.state.peers ≡ true → wake client.held.state ≡ Some moment
        → client.held.state.clock ≤ moment + late → now ≤ moment + late
        → IsInTime late (state_at client now) }
{}

/// Whatever was called and came: if nothing has been due for 20 seconds or longer, nothing that the
/// server has granted has expired (RFC 8656, sections 8, 9 and 12).
pub fn granted_lasts()
    ensures { (client : Client) (moments : List Moment) (now late : ℕ) → IsBegun client
        → late < seconds 20 → let after = after_all client moments in
        is_allocated after.held.state.phase ≡ true → IsInTime late (state_at after now)
        → IsAlive (state_at after now) }
{
    turn_client_machine::granted_lasts();
}

/// An allocation ends only if the user closes it, if a poll comes at or after its deadline, or by a
/// datagram from the server's address that is a response, with its method and transaction ID, to a
/// request under way: signed with the key of that request, or a 401 or 438, or over a reliable transport.
/// So over UDP nobody without the key ends it, except by a 401 or 438 from the server's address with a
/// transaction ID of 96 random bits.
pub fn ends_for_a_reason()
    ensures { (client : Client) (earlier : List Moment) (now fresh : ℕ) (call : Call)
        → IsBegun client → let before = after_all client earlier in
        IsCall before call → is_allocated before.held.state.phase ≡ true
        → is_allocated (stepped before now fresh call).held.state.phase ≡ false
        → IsEnd before now call }
{
    turn_client_machine::ends_for_a_reason();
    judged_is_authentic();
    requests_are_found_by_id();
}

/// Until then it stays, whatever else is called and comes.
pub fn kept_alive()
    ensures { (client : Client) (since earlier : List Moment) → IsBegun client
        → AreCalls client (since ++ earlier)
        → is_allocated (after_all client earlier).held.state.phase ≡ true
        → IsServed client since earlier
        → is_allocated (after_all client (since ++ earlier)).held.state.phase ≡ true }
{
    turn_client_machine::ends_for_a_reason();
    judged_is_authentic();
    requests_are_found_by_id();
}

/// A peer stays unless the user drops it, a poll comes at or after its deadline, or a datagram that may end an
/// allocation.
pub fn peers_stay()
    ensures { (client : Client) (now fresh : ℕ) (call : Call) (address : Endpoint)
        → IsCall client call → Spares client address now call
        → AllByRecursion (IsOn address) client.held.state.peers
        → AllByRecursion (IsOn address) (stepped client now fresh call).held.state.peers }
{
    turn_client_machine::peers_stay();
    judged_is_authentic();
    requests_are_found_by_id();
}

/// Whatever was called and came: the peers, the sendings of each request and the retries are within the
/// settings' limits, at most ten requests are under way at once, and no two peers have the same channel
/// number (RFC 8489, section 6.2; RFC 8656, section 12).
pub fn client_is_bounded()
    ensures kept { (client : Client) (moments : List Moment) → IsBegun client
        → IsWithin (setup_of client.held.settings) (after_all client moments).held.state }
    ensures numbered { (client : Client) (moments : List Moment) → IsBegun client
        → AreNumbered (after_all client moments).held.state.peers }
    ensures at_once { (client : Client) (moments : List Moment) → IsBegun client
        → requests_at_once (after_all client moments).held.state ≤ 10 }
{
    turn_client_machine::client_is_bounded();
}
