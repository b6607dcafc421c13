//! Reading the extensions of a candidate.

ghost use Rattle.std.specs.Prelude.{◌≡◌};
ghost use Rattle.ice_candidates.specs.Words.{words_of};
ghost use Rattle.ice_candidates.specs.Reading.{Gives, extensions_fault, extensions_at, stop};
ghost use Rattle.ice_candidates.specs.Views.{pairs};

use crate::chars::are_visible;
use crate::errors::{Stop, Wanted};
use crate::extensions::Extensions;
use crate::fields::is_extension_name;
use crate::words::{bytes_left, next_word};

/// What is expected, instead of the words that are left.
pub fn stop(wanted: Wanted, rest: Option<&str>) -> Stop
    ensures { result ≡ stop wanted (words_of rest.entry) }
{
    Stop {
        left: bytes_left(rest),
        wanted,
    }
}

/// Tests that what is left of a line is extensions, and returns why it isn't.
fn extensions_fault(rest: Option<&str>) -> Option<Stop>
    ensures { result ≡ extensions_fault (words_of rest.entry) }
{
    let mut left = rest;
    while left.is_some() {
        let (name, after) = next_word(left);
        if !is_extension_name(name) {
            return Some(stop(Wanted::ExtensionName, left));
        }
        let (value, others) = next_word(after);
        if after.is_none() || !are_visible(value) {
            return Some(stop(Wanted::ExtensionValue, after));
        }
        left = others;
    }
    None
}

/// Reads what is left of a line as extensions.
pub fn extensions_of(rest: Option<&str>) -> Result<Extensions<'_>, Stop>
    ensures { Gives pairs result (extensions_at (words_of rest.entry)) }
{
    match extensions_fault(rest) {
        None => Ok(Extensions { rest }),
        Some(fault) => Err(fault),
    }
}
