//! Which request a response is to.

ghost use Rattle.std.specs.Prelude.{◌≡◌, List};
ghost use Rattle.turn_client_machine.specs.Clients.{Setup, Request};
ghost use Rattle.turn_client_machine.specs.Identified.{AreDistinct, AreOneRequest, IsUnderWay};
ghost use Rattle.turn_client_machine.specs.Runs.{Timed, run, history, Happened};
ghost use Rattle.turn_client_machine.specs.Warrants.{Asks};

/// A request that awaits its response was sent by an earlier poll. If no two polls have the same
/// random number, a transaction ID is that of one request alone, which may ask for several peers. So a
/// response with this ID and the key of this request answers no other.
pub fn requests_are_identified()
    ensures sent { (setup : Setup) (events : List Timed) (r : Request)
        → IsUnderWay (run setup events) r → Happened (Asks r) (history setup events) }
    ensures one { (setup : Setup) (events : List Timed) (r other : Request)
        → AreDistinct events → Happened (Asks r) (history setup events)
        → Happened (Asks other) (history setup events) → r.id ≡ other.id → AreOneRequest r other }
{}
