//! A random number generator of a user's own, which counts.

ghost use Rattle.std.specs.Prelude.{ℕ, ◌+◌, ◌%◌, ◌^◌};
ghost use Rattle.rand_core.specs.Steps.{stream_of, steps_u64_low};

use rand_core::utils::NextWord;
use rand_core::{Rng, utils};
use std::marker::Model;

/// A generator whose words are its number, and then each time 0x1010101010101010 more.
#[derive(Drop)]
pub struct Counting(pub u64);

impl Model for Counting {
    ghost Value = { ℕ };

    ghost view = { λ generator. generator.0 };
}

impl NextWord<u64> for Counting {
    ghost step = { λ word. (word, (word + 0x1010101010101010) % 2 ^ 64) };

    fn next_word(&mut self) -> u64 {
        let word = self.0;
        self.0 = word.wrapping_add(0x1010_1010_1010_1010);
        word
    }
}

impl Rng for Counting {
    ghost stream = { stream_of
        (steps_u64_low (λ word. (word, (word + 0x1010101010101010) % 2 ^ 64))) };

    fn next_u32(&mut self) -> u32 {
        (self.next_word() % (1 << 32)) as u32
    }

    fn next_u64(&mut self) -> u64 {
        self.next_word()
    }

    fn fill_bytes(&mut self, dst: &mut [u8]) {
        utils::fill_bytes_via_u64(self, dst)
    }
}
