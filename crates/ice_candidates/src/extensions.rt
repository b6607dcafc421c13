//! The extensions of a candidate.

ghost use Rattle.std.specs.Prelude.{IsTrue, is_none};
ghost use Rattle.ice_candidates.specs.Words.{words_of};
ghost use Rattle.ice_candidates.specs.Reading.{extensions_fault};

use crate::attributes::line_error;
use crate::ending::extensions_of;
use crate::errors::LineError;
use crate::words::next_word;

/// The extensions of a candidate: names with their values, in the order of the line, from which
/// they are borrowed.
///
/// In contracts `pairs` are the names with their values.
#[derive(Clone, Copy, Debug, PartialEq, Eq)]
pub struct Extensions<'a> {
    pub(crate) rest: Option<&'a str>,
    ghost sound: { IsTrue (is_none (extensions_fault (words_of rest))) },
}

impl<'a> Extensions<'a> {
    ghost use Rattle.std.specs.Prelude.{◌≡◌, [], ◌∷◌, Ok, MatchOption, option_copied};
    ghost use Rattle.ice_candidates.specs.Words.{words};
    ghost use Rattle.ice_candidates.specs.Reading.{Gives, extensions_at, placed};
    ghost use Rattle.ice_candidates.specs.Views.{pairs, value_in};

    /// Returns no extensions.
    pub fn none() -> Self
        ensures { pairs result ≡ [] }
    {
        Extensions { rest: None }
    }

    /// Reads extensions from names and values with one space between each two, as they end the line
    /// of a candidate.
    ///
    /// # Errors
    ///
    /// `ExtensionName` and `ExtensionValue`, with the offset in the text.
    ///
    /// # Examples
    ///
    /// ```
    /// use ice_candidates::Extensions;
    ///
    /// let extensions = Extensions::from_text("generation 0 ufrag EsAw")?;
    /// assert_eq!(rt; extensions.get("ufrag"), Some("EsAw"));
    /// assert!(rt; Extensions::from_text("generation").is_err());
    /// ```
    pub fn from_text(text: &'a str) -> Result<Self, LineError>
        ensures { Gives pairs result (placed text.now (extensions_at (words text.now))) }
    {
        match extensions_of(Some(text)) {
            Ok(extensions) => Ok(extensions),
            Err(fault) => Err(line_error(text, fault)),
        }
    }

    /// Returns the name and the value of the first extension, and the others; `None` if there are
    /// none.
    pub fn split_first(&self) -> Option<(&'a str, &'a str, Extensions<'a>)>
        ensures { MatchOption result (pairs self.now ≡ [])
            (λ x. pairs self.now ≡ (x.0.now, x.1.now) ∷ pairs x.2) }
    {
        if self.rest.is_none() {
            return None;
        }
        let (name, after) = next_word(self.rest);
        let (value, others) = next_word(after);
        Some((name, value, Extensions { rest: others }))
    }

    /// Returns the value of the first extension of this name, in this case.
    pub fn get(&self, name: &str) -> Option<&'a str>
        ensures { option_copied result ≡ value_in name.now (pairs self.now) }
    {
        let mut left = *self;
        while let Some((found, value, others)) = left.split_first() {
            if found == name {
                return Some(value);
            }
            left = others;
        }
        None
    }
}
