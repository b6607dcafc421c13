//! Characters and texts of the grammar.

ghost use Rattle.std.specs.Prelude.{◌≡◌};
ghost use Rattle.std.specs.List.{list_all, list_any};
ghost use Rattle.std.specs.Char.{is_ascii_alphabetic};
ghost use Rattle.ice_candidates.specs.Chars as Chars;
ghost use Rattle.ice_candidates.specs.Candidates as Candidates;
ghost use Rattle.ice_candidates.specs.Fields as Fields;
ghost use Rattle.ice_candidates.specs.Views as Views;

/// A letter, a digit, `+` or `/`.
fn is_ice_char(byte: u8) -> bool
    ensures { result ≡ Chars.is_ice_char byte }
{
    byte.is_ascii_alphanumeric() || b"+/".contains(&byte)
}

/// A character of a token.
fn is_token_char(byte: u8) -> bool
    ensures { result ≡ Chars.is_token_char byte }
{
    byte.is_ascii_alphanumeric() || b"-.!%*_+`'~".contains(&byte)
}

/// A character of the name of a host.
fn is_name_char(byte: u8) -> bool
    ensures { result ≡ Chars.is_name_char byte }
{
    byte.is_ascii_alphanumeric() || b"-.".contains(&byte)
}

/// A character that is printed, other than the space.
fn is_visible(byte: u8) -> bool
    ensures { result ≡ Chars.is_visible byte }
{
    byte >= 0x21 && byte <= 0x7E
}

fn are_ice_chars(text: &str) -> bool
    ensures { result ≡ list_all Chars.is_ice_char text.now }
{
    text.as_bytes().iter().all(|byte| is_ice_char(*byte))
}

/// Returns `true` if a text has so many characters, all of them ice-chars.
pub fn is_ice_text(text: &str, least: usize, most: usize) -> bool
    ensures { result ≡ Chars.are Chars.is_ice_char least most text.now }
{
    text.len() >= least && text.len() <= most && are_ice_chars(text)
}

fn are_token_chars(text: &str) -> bool
    ensures { result ≡ list_all Chars.is_token_char text.now }
{
    text.as_bytes().iter().all(|byte| is_token_char(*byte))
}

/// Returns `true` if a text is a token.
pub fn is_token(text: &str) -> bool
    ensures { result ≡ Chars.is_token text.now }
{
    !text.is_empty() && are_token_chars(text)
}

/// Returns `true` if a text is the tag of an option.
pub fn is_option(text: &str) -> bool
    ensures { result ≡ Chars.is_option text.now }
{
    !text.is_empty() && are_ice_chars(text)
}

/// Returns `true` if all characters of a text are printed, and none is a space.
pub fn are_visible(text: &str) -> bool
    ensures { result ≡ list_all Chars.is_visible text.now }
{
    text.as_bytes().iter().all(|byte| is_visible(*byte))
}

fn has_letter(text: &str) -> bool
    ensures { result ≡ list_any is_ascii_alphabetic text.now }
{
    text.as_bytes()
        .iter()
        .any(|byte| byte.is_ascii_alphabetic())
}

fn are_name_chars(text: &str) -> bool
    ensures { result ≡ list_all Chars.is_name_char text.now }
{
    text.as_bytes().iter().all(|byte| is_name_char(*byte))
}

/// Returns `true` if a text is the name of a host.
pub fn is_name(text: &str) -> bool
    ensures { result ≡ Fields.is_name text.now }
{
    text.len() >= 4 && text.len() <= 255 && are_name_chars(text) && has_letter(text)
}

/// Returns `true` if a word is a quoted word of the grammar, in any case.
pub fn is_word(quoted: &str, word: &str) -> bool
    ensures { result ≡ Fields.is_word quoted.now word.now }
{
    word.eq_ignore_ascii_case(quoted)
}

/// Returns `true` if a name ends in `.local`, in any case, after another label.
pub fn is_local(name: &str) -> bool
    ensures { result ≡ Views.is_mdns (Candidates.name name.now) }
{
    let bytes = name.as_bytes();
    bytes.len() > 6 && bytes[bytes.len() - 6..].eq_ignore_ascii_case(b".local")
}
