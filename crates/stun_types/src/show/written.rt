//! A text that a registered function made, in a slice.

ghost use Rattle.std.specs.Prelude.{◌≡◌};
ghost use Rattle.stun_types.specs.Shown.{WritesText, written_answer};

use crate::{PrintText, TextSink, TextTooLong};
use stun_text::write_text;
use thiserror::Error;

/// Why [`Registry::write_text`](crate::show::Registry::write_text) doesn't write the whole text.
#[derive(Clone, Copy, Debug, PartialEq, Eq, Error)]
pub enum ShowTextError {
    /// The function that is registered for the type returned `fmt::Error`, as it does if it finds
    /// no memory. The slice is unchanged.
    #[error("The registered function failed")]
    Failed,
    /// The text has more bytes than the slice, which holds the first of them.
    #[error("{0}")]
    TooLong(TextTooLong),
}

/// A text that a registered function made.
#[derive(Drop)]
struct Made<'t>(&'t str);

impl PrintText for Made<'_> {
    ghost text = { λ made. made.0.now };

    fn print<S: TextSink>(&self, sink: &mut S) -> Result<(), S::Error> {
        sink.put(self.0)
    }
}

/// What [`write_text`] returned of a text.
pub(crate) fn answer(written: Result<usize, TextTooLong>) -> Result<usize, ShowTextError>
    ensures { result ≡ written_answer written }
{
    match written {
        Ok(length) => Ok(length),
        Err(too_long) => Err(ShowTextError::TooLong(too_long)),
    }
}

/// Writes a text at the start of a slice, as far as there is room.
pub(crate) fn write_made(text: &str, to: &mut [u8]) -> Result<usize, ShowTextError>
    ensures { WritesText text.now to.old result to.new }
{
    answer(write_text(&Made(text), to))
}
