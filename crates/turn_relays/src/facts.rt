//! Invariants of the relayed addresses, for proofs about callers.

ghost use Rattle.std.specs.Prelude.{◌≡◌, ◌<◌};
ghost use Rattle.turn_slots.specs.Deadlines.{never};
ghost use Rattle.turn_relays.specs.Facts.{NumbersAreDistinct, NumbersHaveSlots, KeysAreDistinct};
ghost use Rattle.turn_relays.specs.Relayed.{Each};

use crate::relays::Relays;

impl<const P: usize, const C: usize> Relays<P, C> {
    /// No two relayed addresses have the same number. The call does nothing: its contract is the law.
    pub fn numbers_are_distinct(&self)
        ensures { NumbersAreDistinct self.now }
    {
        let _ = &self.clock;
    }

    /// The low 24 bits of each number are the slot of its relayed address. The call does nothing: its contract
    /// is the law.
    pub fn numbers_have_slots(&self)
        ensures { NumbersHaveSlots self.now }
    {
        let _ = &self.clock;
    }

    /// No client has two relayed addresses of one family (RFC 8656, section 7.2). The call does nothing: its
    /// contract is the law.
    pub fn keys_are_distinct(&self)
        ensures { KeysAreDistinct self.now }
    {
        let _ = &self.clock;
    }

    /// Each number is below what [`Relays::next_number`] returns, and so below that of the next relayed
    /// address. The call does nothing: its contract is the law.
    pub fn numbers_are_below_next(&self)
        ensures { Each self.now (λ r. r.number < self.now.next) }
    {
        let _ = &self.clock;
    }

    /// Each relayed address ends before `u128::MAX`, as [`Relays::set_end`] requires. The call does nothing:
    /// its contract is the law.
    pub fn ends_are_possible(&self)
        ensures { Each self.now (λ r. r.expires_at < never) }
    {
        let _ = &self.clock;
    }
}
