//! What text is written to.

ghost use Rattle.std.specs.Prelude.{ℕ, List, [], ◌++◌, OnOk};

use std::fmt;

/// A destination of text, piece by piece: a formatter or a slice.
pub trait TextSink {
    /// The error of a refused piece; a type with no values if no piece is ever refused.
    type Error;

    ghost wrote: { Self → List ℕ → Self → Type 0 };

    /// Writes a piece of text.
    ///
    /// # Errors
    ///
    /// That of the sink.
    fn put(&mut self, text: &str) -> Result<(), Self::Error>
        ensures { OnOk result (wrote self.old text.now self.new) };

    ghost nothing: { (s : Self) → wrote s [] s };

    ghost joins: { (s m t : Self) (a b : List ℕ)
        → wrote s a m → wrote m b t → wrote s (a ++ b) t };
}

/// A formatter refuses what the writer after it refuses.
impl<W: fmt::Write> TextSink for fmt::Formatter<W> {
    ghost use Rattle.std.specs.Fmt.{IsPlainFormatter, HasWritten};
    ghost use Rattle.stun_text.specs.Writing.{has_written_nothing, has_written_both};

    type Error = fmt::Error;

    ghost wrote = { λ f text g. IsPlainFormatter f → HasWritten W.write_str_gives f text g };

    #[inline]
    fn put(&mut self, text: &str) -> Result<(), fmt::Error> {
        self.write_str(text)
    }

    ghost nothing = { has_written_nothing W.write_str_gives };

    ghost joins = { has_written_both W.write_str_gives };
}
