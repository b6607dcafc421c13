//! The law of sequences of calls. The function does nothing: its contract is the law.

ghost use Rattle.turn_reservations.specs.Calls.{CallsAreARun};

use turn_machine::reservations_are_kept;

/// Calls in any order are a run of the state machine of `turn_machine` with reservations: they leave the state and
/// the reservations that the run leaves, and the next call returns the output and the token of the next step and
/// ends the same sockets. The state is that of a run of the machine, so the laws of `turn_machine` apply to every
/// server that uses [`ReservingAllocations`](crate::ReservingAllocations).
pub fn reserving_calls_are_a_run()
    ensures { CallsAreARun }
{
    reservations_are_kept();
}
