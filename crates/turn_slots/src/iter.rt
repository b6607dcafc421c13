//! Iterating over the allocations.

use crate::slots::Entry;

/// An iterator over the allocations, each with its slot, in the order of the slots.
///
/// After its first `None` it returns `None` forever.
#[derive(Drop)]
pub struct Iter<'a> {
    pub(crate) entries: &'a [Option<Entry>],
    pub(crate) slot: usize,
}

impl Iterator for Iter<'_> {
    ghost use Rattle.std.specs.Iterator.{YieldsFirst, item_count};
    ghost use Rattle.turn_slots.specs.Iterating.{taken_left};

    type Item = (usize, Entry);

    ghost next_gives = { YieldsFirst taken_left };

    ghost remaining = { item_count taken_left };

    fn next(&mut self) -> Option<(usize, Entry)> {
        'walk: while self.slot < self.entries.len() {
            let slot = self.slot;
            self.slot += 1;
            if let Some(entry) = self.entries[slot] {
                return Some((slot, entry));
            }
        }
        None
    }
}
