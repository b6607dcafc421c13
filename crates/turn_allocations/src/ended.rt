//! The numbers of the sockets that a call ends.

use std::alloc::{AllocError, Global};
use std::marker::Model;

/// A list of numbers with a fixed capacity.
#[derive(Drop)]
pub(crate) struct Ended {
    numbers: Vec<u64>,
    count: usize,
}

impl Model for Ended {
    ghost use Rattle.std.specs.Prelude.{◌≤◌, length, take};
    ghost use Rattle.turn_allocations.specs.Ending.{Numbers};

    ghost Value = { Numbers };

    ghost view = { λ e. record {
      room = length e.numbers.items;
      numbers = take e.count e.numbers.items;
    } };

    ghost invariant = { λ e. record { few : e.count ≤ length e.numbers.items } };
}

impl Ended {
    ghost use Rattle.std.specs.Prelude.{◌≡◌, ◌<◌, ◌++◌, ◌∷◌, [], IfOk, length};

    /// Makes an empty list with memory for `room` numbers.
    ///
    /// # Errors
    ///
    /// Only if an allocation of memory failed.
    pub(crate) fn new(alloc: Global, room: u32) -> Result<Self, AllocError>
        ensures { IfOk result (λ ended. ended ≡ record { room = room; numbers = [] }) }
    {
        let mut numbers = Vec::with_capacity(alloc, room as usize)?;
        for _ in 0..room {
            numbers.push(0)?;
        }
        Ok(Ended { numbers, count: 0 })
    }

    /// Removes all numbers.
    pub(crate) fn clear(&mut self)
        ensures { self.new ≡ record self.old { numbers = [] } }
    {
        self.count = 0;
    }

    /// Appends a number, for which there is room.
    pub(crate) fn push(&mut self, number: u64)
        requires { length self.old.numbers < self.old.room }
        ensures { self.new ≡ record self.old { numbers = self.old.numbers ++ number ∷ [] } }
    {
        self.numbers[self.count] = number;
        self.count += 1;
    }

    /// Borrows the numbers.
    pub(crate) fn numbers(&self) -> &[u64]
        ensures { result.now ≡ self.now.numbers }
    {
        &self.numbers[..self.count]
    }
}
