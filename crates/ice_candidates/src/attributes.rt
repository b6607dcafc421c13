//! Attributes of SDP: their names and values.

ghost use Rattle.std.specs.Prelude.{◌≡◌, option_copied};
ghost use Rattle.ice_candidates.specs.Reading.{Gives, at_start, attribute_of, line_error, value_of, without_type};

use crate::chars::is_word;
use crate::errors::{LineError, Stop, Wanted};

/// Returns a line without the `a=` of SDP.
pub fn without_type(line: &str) -> &str
    ensures { result.now ≡ without_type line.now }
{
    match line.strip_prefix("a=") {
        Some(attribute) => attribute,
        None => line,
    }
}

/// Returns the name of an attribute, and its value if it has one.
pub fn attribute_of(line: &str) -> (&str, Option<&str>)
    ensures name { result.0.now ≡ (attribute_of line.now).0 }
    ensures value { option_copied result.1 ≡ (attribute_of line.now).1 }
{
    match line.split_once(':') {
        Some((name, value)) => (name, Some(value)),
        None => (line, None),
    }
}

/// What is expected, instead of a text.
pub fn at_start(wanted: Wanted, text: &str) -> Stop
    ensures { result ≡ at_start wanted text.now }
{
    Stop {
        left: text.len(),
        wanted,
    }
}

/// Returns the value of the attribute of this name.
pub fn value_of<'a>(name: &str, line: &'a str) -> Result<&'a str, Stop>
    ensures { Gives (λ x. x.now) result (value_of name.now line.now) }
{
    let (found, value) = attribute_of(line);
    match value {
        Some(value) if is_word(name, found) => Ok(value),
        _ => Err(at_start(Wanted::Attribute, line)),
    }
}

/// Returns the error of a line, with the offset of the first word that is left.
pub fn line_error(line: &str, fault: Stop) -> LineError
    ensures { result ≡ line_error line.now fault }
{
    LineError {
        offset: line.len().saturating_sub(fault.left),
        wanted: fault.wanted,
    }
}
