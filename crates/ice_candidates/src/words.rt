//! The words of a line.

ghost use Rattle.std.specs.Prelude.{◌≡◌};
ghost use Rattle.ice_candidates.specs.Words.{words_of, first_word, other_words, size_of};

/// Returns the next word of a line, and what follows the space after it, if there is one.
pub fn next_word(rest: Option<&str>) -> (&str, Option<&str>)
    ensures word { result.0.now ≡ first_word (words_of rest.entry) }
    ensures others { words_of result.1 ≡ other_words (words_of rest.entry) }
{
    let Some(text) = rest else {
        return ("", None);
    };
    match text.split_once(' ') {
        Some((word, others)) => (word, Some(others)),
        None => (text, None),
    }
}

/// Returns how many bytes are left of a line.
pub fn bytes_left(rest: Option<&str>) -> usize
    ensures { result ≡ size_of (words_of rest.entry) }
{
    match rest {
        Some(text) => text.len(),
        None => 0,
    }
}
