//! Laws of sequences of calls. The functions do nothing: their contracts are the laws.

ghost use Rattle.turn_allocations.specs.Calls.{CallsAreARun};
ghost use Rattle.turn_allocations.specs.Metering.{MetersCount};

/// Calls in any order are a run of the state machine of `turn_machine`: they leave the state that the run
/// leaves, and the next call returns the output of the next step and ends the same sockets. So the laws of
/// `turn_machine` apply to every server that uses [`Allocations`](crate::Allocations).
pub fn calls_are_a_run()
    ensures { CallsAreARun }
{}

/// A packet that a [`Meter`](crate::Meter) counts for a number adds to that number's traffic. It leaves the
/// traffic of each number in another slot, and clears that of each other number in the same slot. A number
/// whose slot is not below the capacity counts nothing.
///
/// So the traffic of a relayed address that hasn't ended is exactly that of all its packets: no packet of its
/// number was counted before it was opened, and since then none of another in its slot.
pub fn meters_count()
    ensures { MetersCount }
{}
