//! Reading an attribute of SDP.

ghost use Rattle.std.specs.Prelude.{◌≡◌};
ghost use Rattle.ice_candidates.specs.Words.{words_of};
ghost use Rattle.ice_candidates.specs.Reading.{Gives};
ghost use Rattle.ice_candidates.specs.Lines as Lines;
ghost use Rattle.ice_candidates.specs.Views as Views;
ghost use Rattle.ice_candidates.specs.LineViews.{attribute};

use crate::attributes::{at_start, attribute_of, line_error, without_type};
use crate::chars::{is_ice_text, is_option, is_word};
use crate::ending::stop;
use crate::errors::{LineError, Stop, Wanted};
use crate::lines::Line;
use crate::reading::candidate;
use crate::words::next_word;

/// Returns why words are no tags of options.
fn options_fault(rest: Option<&str>) -> Option<Stop>
    ensures { result ≡ Lines.options_fault (words_of rest.entry) }
{
    let mut left = rest;
    while left.is_some() {
        let (word, others) = next_word(left);
        if !is_option(word) {
            return Some(stop(Wanted::IceOption, left));
        }
        left = others;
    }
    None
}

/// Reads an attribute that has a value.
fn valued<'a>(fault: Stop, name: &str, value: &'a str) -> Result<Line<'a>, Stop>
    ensures { Gives attribute result (Lines.valued fault name.now value.now) }
{
    if is_word("candidate", name) {
        return match candidate(Some(value)) {
            Ok(candidate) => Ok(Line::Candidate(candidate)),
            Err(stop) => Err(stop),
        };
    }
    if is_word("ice-ufrag", name) {
        if is_ice_text(value, 4, 256) {
            return Ok(Line::UsernameFragment(value));
        }
        return Err(at_start(Wanted::UsernameFragment, value));
    }
    if is_word("ice-pwd", name) {
        if is_ice_text(value, 22, 256) {
            return Ok(Line::Password(value));
        }
        return Err(at_start(Wanted::Password, value));
    }
    if is_word("ice-options", name) {
        return match options_fault(Some(value)) {
            None => Ok(Line::Options(value)),
            Some(stop) => Err(stop),
        };
    }
    Err(fault)
}

/// Reads an attribute that has no value.
fn plain<'a>(fault: Stop, name: &str) -> Result<Line<'a>, Stop>
    ensures { Gives attribute result (Lines.plain fault name.now) }
{
    if is_word("ice-lite", name) {
        Ok(Line::Lite)
    } else if is_word("end-of-candidates", name) {
        Ok(Line::EndOfCandidates)
    } else {
        Err(fault)
    }
}

fn line_of(line: &str) -> Result<Line<'_>, Stop>
    ensures { Gives attribute result (Lines.line_of line.now) }
{
    let fault = at_start(Wanted::Attribute, line);
    let (name, value) = attribute_of(line);
    match value {
        Some(value) => valued(fault, name, value),
        None => plain(fault, name),
    }
}

/// Reads the line of an attribute.
pub fn read_line(line: &str) -> Result<Line<'_>, LineError>
    ensures { Gives attribute result (Lines.read_line line.now) }
{
    match line_of(without_type(line)) {
        Ok(read) => Ok(read),
        Err(fault) => Err(line_error(line, fault)),
    }
}
