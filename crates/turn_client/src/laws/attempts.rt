//! How many clients follow one another.

ghost use Rattle.std.specs.Prelude.{◌≤◌, List, length};
ghost use Rattle.turn_client_machine.specs.Attempts.{begun_attempt};
ghost use Rattle.turn_client_machine.specs.Clients.{Endpoint};
ghost use Rattle.turn_client.specs.Attempts.{AreFollowed, Life};

/// At most eleven clients follow the first one, whatever the servers answer: if each client has ended, and
/// the next one is at the server of the attempt that [`Attempt::next`](crate::Attempt::next) returns for
/// that reason. It says nothing of a user who begins with [`Attempt::new`](crate::Attempt::new) again, nor
/// of how long to wait in between: see [`rest_after`](crate::rest_after).
pub fn attempts_are_few()
    ensures { (first : Endpoint) (lives : List Life) → AreFollowed (begun_attempt first) lives
        → length lives ≤ 11 }
{}
