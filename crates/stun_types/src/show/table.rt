ghost use Rattle.std.specs.Prelude.{◌≡◌, ℕ, ◌==◌, None, IfErr, OnOk, OnErr};
ghost use Rattle.std.specs.List.{position};
ghost use Rattle.stun_types.specs.Table.{value_of, Sets};

use crate::message::StunWriteError;
use std::alloc::{AllocError, Global};

/// Values by number, at most one for each.
#[derive(Drop)]
pub(crate) struct Table<V: Copy + Drop> {
    entries: Vec<(u16, V)>,
}

impl<V: Copy + Drop> Table<V> {
    /// A table with no value, which grows in memory from `alloc`.
    pub(crate) fn new(alloc: Global) -> Self
        ensures { (number : ℕ) → value_of result.entries.items number ≡ None }
    {
        Table {
            entries: Vec::new(alloc),
        }
    }

    /// The place of the entry of this number.
    fn place(&self, number: u16) -> Option<usize>
        ensures { result ≡ position (λ entry. entry.0 == number) self.now.entries.items }
    {
        self.entries.iter().position(|entry| entry.0 == number)
    }

    /// The value of this number.
    pub(crate) fn find(&self, number: u16) -> Option<V>
        ensures { result ≡ value_of self.now.entries.items number }
    {
        self.entries
            .iter()
            .find(|entry| entry.0 == number)
            .map(|entry| entry.1)
    }

    /// Gives this number the value, instead of the one that it had, if any.
    ///
    /// # Errors
    ///
    /// `OutOfMemory` alone, and only for a number that had no value. The table is then as before.
    pub(crate) fn set(&mut self, number: u16, value: V) -> Result<(), StunWriteError>
        ensures set { OnOk result (Sets number value
            (value_of self.old.entries.items) (value_of self.new.entries.items)) }
        ensures refused { OnErr result (self.new.entries.items ≡ self.old.entries.items) }
        ensures err { IfErr result (λ e. e ≡ StunWriteError.OutOfMemory) }
        ensures first { OnErr result (value_of self.old.entries.items number ≡ None) }
    {
        match self.place(number) {
            Some(place) => self.entries[place] = (number, value),
            None => self
                .entries
                .push((number, value))
                .map_err(AllocError::from)?,
        }
        Ok(())
    }
}
