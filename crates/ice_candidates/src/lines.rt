//! The attributes of SDP that describe an agent and its candidates.

use crate::candidate::Candidate;
use crate::errors::LineError;
use crate::line_reading::read_line;

/// An attribute of SDP that describes an agent or a candidate (RFC 8839, section 5). Its texts are
/// borrowed from the line.
#[derive(Clone, Copy, Debug, PartialEq, Eq)]
pub enum Line<'a> {
    /// `candidate`.
    Candidate(Candidate<'a>),
    /// `ice-ufrag`: 4 to 256 letters, digits, `+` and `/`.
    UsernameFragment(&'a str),
    /// `ice-pwd`: 22 to 256 letters, digits, `+` and `/`.
    Password(&'a str),
    /// `ice-options`: words of letters, digits, `+` and `/`, with one space between them.
    Options(&'a str),
    /// `ice-lite`.
    Lite,
    /// `end-of-candidates` (RFC 8838).
    EndOfCandidates,
}

impl<'a> Line<'a> {
    ghost use Rattle.ice_candidates.specs.Reading.{Gives};
    ghost use Rattle.ice_candidates.specs.Lines.{read_line};
    ghost use Rattle.ice_candidates.specs.LineViews.{attribute};

    /// Reads the line of an attribute, with or without `a=` before it, and without the end of the
    /// line. Nothing is copied.
    ///
    /// # Errors
    ///
    /// [`LineError`], with what is expected and the offset of the first word that isn't that:
    /// `Attribute` for another attribute, one without its value, or one with a value that it hasn't.
    ///
    /// # Examples
    ///
    /// ```
    /// use ice_candidates::Line;
    ///
    /// assert_eq!(rt; Line::from_line("a=ice-ufrag:EsAw")?, Line::UsernameFragment("EsAw"));
    /// assert_eq!(rt; Line::from_line("a=ice-options:trickle")?, Line::Options("trickle"));
    /// assert_eq!(rt; Line::from_line("a=end-of-candidates")?, Line::EndOfCandidates);
    /// assert!(rt; Line::from_line("a=ice-ufrag:Es").is_err());
    /// ```
    pub fn from_line(line: &'a str) -> Result<Self, LineError>
        ensures { Gives attribute result (read_line line.now) }
    {
        read_line(line)
    }
}
