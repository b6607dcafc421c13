//! Laws of lines and their candidates. A law is the contract of a function that does nothing.

ghost use Rattle.std.specs.Prelude.{◌≡◌, ℕ, List, Ok, IsTrue};
ghost use Rattle.ice_candidates.specs.Candidates.{Fields};
ghost use Rattle.ice_candidates.specs.Reading.{read_candidate};
ghost use Rattle.ice_candidates.specs.Grammar.{IsLine};
ghost use Rattle.ice_candidates.specs.Lines.{Attribute, read_line};
ghost use Rattle.ice_candidates.specs.LineTexts.{MayBeWritten, attribute_text};
ghost use Rattle.ice_candidates.specs.Texts.{AreOfTypes, candidate_text, is_in_range};

/// The law of reading: a line is read as a candidate exactly if it is a line of this candidate by
/// the grammar.
pub fn lines_are_of_candidates()
    ensures read { (line : List ℕ) (c : Fields) → IsLine line c → read_candidate line ≡ Ok c }
    ensures only { (line : List ℕ) (c : Fields) → read_candidate line ≡ Ok c → IsLine line c }
{}

/// The law of writing: the text of a candidate whose fields are in their ranges is a line of it, and is
/// read as this candidate.
pub fn candidates_are_read_back()
    ensures line { (c : Fields) → AreOfTypes c → IsTrue (is_in_range c) → IsLine (candidate_text c) c }
    ensures read { (c : Fields) → AreOfTypes c → IsTrue (is_in_range c)
        → read_candidate (candidate_text c) ≡ Ok c }
{}

/// The law of writing attributes: the text of one whose fields are in their ranges is read as this
/// attribute.
pub fn lines_are_read_back()
    ensures { (a : Attribute) → MayBeWritten a → read_line (attribute_text a) ≡ Ok a }
{}
