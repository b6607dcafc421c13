//! A slice that takes text.

ghost use Rattle.std.specs.Prelude.{◌≡◌, ◌++◌, ◌-◌, ◌+◌, ◌^◌, length, take, drop, min};
ghost use Rattle.stun_text.specs.Slices.{laid_over};

use crate::TextSink;
use std::convert::Infallible;
use thiserror::Error;

/// A text is longer than the slice that it was written to.
#[derive(Clone, Copy, Debug, PartialEq, Eq, Error)]
#[error("The text has {length} bytes")]
pub struct TextTooLong {
    /// The number of bytes of the text; `usize::MAX` if they are more than that.
    pub length: usize,
}

/// Lays a text over the start of a slice, as far as the slice reaches.
fn lay_over(to: &mut [u8], text: &[u8])
    ensures { to.new ≡ laid_over text.now to.old }
{
    let count = text.len().min(to.len());
    to[..count].copy_from_slice(&text[..count]);
}

/// A borrowed slice that takes text from its first byte on. It keeps as much of the text as it has
/// room for, and counts all of it, so it never refuses a piece.
///
/// In contracts `text_count` is how many bytes the text has so far, `lent_bytes` the bytes of the
/// slice, and `lent_name` says which slice it is.
///
/// # Examples
///
/// ```
/// use stun_types::{TextSink, TextSlice};
///
/// let mut text = [0; 4];
/// let mut sink = TextSlice::new(&mut text);
/// let (Ok(()), Ok(())) = (sink.put("one, "), sink.put("two"));
/// assert_eq!(rt; sink.finish().err().map(|error| error.length), Some(8));
/// assert_eq!(rt; text, *b"one,");
/// ```
#[derive(Drop)]
pub struct TextSlice<'a> {
    to: &'a mut [u8],
    length: usize,
}

impl<'a> TextSlice<'a> {
    ghost use Rattle.std.specs.Prelude.{◌≡◌, length};
    ghost use Rattle.stun_text.specs.Slices.{lent_bytes, lent_name, text_answer, text_count};

    /// A sink into the slice `to`, with no text yet.
    pub fn new(to: &'a mut [u8]) -> Self
        ensures bytes { lent_bytes result ≡ to.old }
        ensures count { text_count result ≡ 0 }
        ensures name { lent_name result ≡ to.entry.ghost_name }
    {
        TextSlice { to, length: 0 }
    }

    /// Returns the number of bytes of the text. The slice holds the text, followed by what was
    /// there before.
    ///
    /// # Errors
    ///
    /// [`TextTooLong`], with the length of the text, if it is longer than the slice. The slice then
    /// holds the first bytes of the text, as many as fit.
    pub fn finish(self) -> Result<usize, TextTooLong>
        ensures answer { result ≡ text_answer (text_count self.entry)
            (length (lent_bytes self.entry)) }
        ensures slice { self.exit.0.now ≡ lent_bytes self.entry }
    {
        let TextSlice { to, length } = self;
        if length <= to.len() {
            Ok(length)
        } else {
            Err(TextTooLong { length })
        }
    }
}

impl<'a> TextSink for TextSlice<'a> {
    ghost use Rattle.stun_text.specs.Slices.{SliceWrote};
    ghost use Rattle.stun_text.specs.SlicesLaws.{slice_nothing, slice_joins};

    type Error = Infallible;

    ghost wrote = { SliceWrote };

    fn put(&mut self, text: &str) -> Result<(), Infallible> {
        let start = self.length.min(self.to.len());
        lay_over(&mut self.to[start..], text.as_bytes());
        self.length = self.length.saturating_add(text.len());
        Ok(())
    }

    ghost nothing = { slice_nothing };

    ghost joins = { slice_joins };
}
