ghost use Rattle.std.specs.Prelude.{◌≡◌, ◌/◌, None, length};
ghost use Rattle.stun_values.specs.Algorithms.{fault_within, algorithms_encoding, algorithms_in};

use crate::{check_algorithms, print_algorithms_in};
use stun_base::StunParseError;
use stun_text::TextSink;

/// A value that is a list of password algorithms, in four bytes each, which it borrows.
#[derive(Clone, Copy)]
pub struct AlgorithmList<'a> {
    value: &'a [u8],
    ghost each: { fault_within (length value.now / 4) value.now ≡ None },
    ghost whole: { algorithms_encoding (algorithms_in value.now) ≡ value.now },
}

impl<'a> AlgorithmList<'a> {
    ghost use Rattle.std.specs.Prelude.{◌≡◌, Some, None, MatchResult, OnOk};
    ghost use Rattle.stun_values.specs.Algorithms.{algorithms_fault, algorithms_in, algorithms_text};
    ghost use Rattle.stun_values.specs.TypedValues.{list_bytes};

    /// Reads a value as a list of algorithms.
    ///
    /// # Errors
    ///
    /// Those of [`check_algorithms`].
    #[tactic(auto, using(crate::proofs::AlgorithmsLemmas::encoded))]
    pub fn read(value: &'a [u8]) -> Result<Self, StunParseError>
        ensures { MatchResult result
            (λ list. (algorithms_fault value.now ≡ None) × (list_bytes list ≡ value.now))
            (λ e. algorithms_fault value.now ≡ Some e) }
    {
        check_algorithms(value)?;
        Ok(AlgorithmList { value })
    }

    /// Prints a PASSWORD-ALGORITHMS of these algorithms, as [`print_algorithms_in`] does.
    ///
    /// # Errors
    ///
    /// That of the sink.
    pub fn print<S: TextSink>(&self, sink: &mut S) -> Result<(), S::Error>
        ensures { OnOk result (S.wrote sink.old
            (algorithms_text (algorithms_in (list_bytes self.now))) sink.new) }
    {
        print_algorithms_in(sink, self.value)
    }
}
