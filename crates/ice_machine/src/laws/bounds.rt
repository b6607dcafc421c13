//! How much the agent keeps, and how often it sends.

ghost use Rattle.std.specs.Prelude.{◌≤◌, ◌+◌, ◌*◌, List};
ghost use Rattle.ice_machine.specs.Agents.{Setup, milliseconds, pace};
ghost use Rattle.ice_machine.specs.Runs.{Begin, Timed, run, history};
ghost use Rattle.ice_machine.specs.Bounds.{IsWithin, AreDistinct, ArePaced, requests_sent};

/// Whatever arrives, in whatever order: the lists stay within their bounds; no two pairs have the same base
/// and the same remote address; any two requests are at least Ta apart, and Ta is at least 5 ms (RFC 8445,
/// section 14.2). So the number of requests times Ta is at most the time that has passed plus Ta. Everything
/// else that is sent is one datagram for one that arrived, or the user's.
pub fn agent_is_bounded()
    ensures kept { (setup : Setup) (begin : Begin) (events : List Timed)
        → IsWithin setup (run setup begin events) }
    ensures distinct { (setup : Setup) (begin : Begin) (events : List Timed)
        → AreDistinct (run setup begin events).pairs }
    ensures paced { (setup : Setup) (begin : Begin) (events : List Timed)
        → ArePaced (pace setup) (history setup begin events) }
    ensures least { (setup : Setup) → milliseconds 5 ≤ pace setup }
    ensures rate { (setup : Setup) (begin : Begin) (events : List Timed)
        → requests_sent (history setup begin events) * pace setup
        ≤ (run setup begin events).clock + pace setup }
{}
