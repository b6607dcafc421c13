ghost use Rattle.std.specs.Prelude.{◌≡◌, ◌≤◌, ◌/◌, None, length};
ghost use Rattle.stun_values.specs.Algorithms.{algorithms_encoding, fault_within};

use crate::wire::{EncodeValue, ReadValue, TypedAttribute};
use std::alloc::{AllocError, Global};
use std::fmt;
use stun_base::{StunParseError, StunWriteError};
use stun_grammar::attribute_types;
use stun_text::{PrintText, TextSink};
use stun_values::{
    PasswordAlgorithmValue, check_algorithms, print_algorithms, read_algorithm, write_algorithms,
};

/// PASSWORD-ALGORITHMS: the algorithms that a server supports for passwords, the preferred one
/// first (RFC 8489, section 14.11).
///
/// Its value has four bytes for each, in order: the number in two bytes, big-endian, and two zeros.
///
/// # Examples
///
/// ```
/// use stun_types::attribute::{PasswordAlgorithmValue, PasswordAlgorithms};
///
/// let both = [PasswordAlgorithmValue::SHA256, PasswordAlgorithmValue::MD5];
/// let attribute = PasswordAlgorithms::new(alloc, &both)?;
/// assert_eq!(rt; attribute.algorithms(), both.as_slice());
/// let text = format!(in alloc; "{attribute}")?;
/// assert_eq!(rt; text.as_str(), "32770(0x8002: PASSWORD_ALGORITHMS): [SHA256, MD5]");
/// ```
#[derive(Debug, PartialEq, Eq, Drop)]
pub struct PasswordAlgorithms {
    algorithms: Vec<PasswordAlgorithmValue>,
    ghost few: { length algorithms.items ≤ 16383 },
}

impl PasswordAlgorithms {
    ghost use Rattle.std.specs.Prelude.{◌<◌, ◌*◌, ◌%◌, Err, IfOk, IfErr, MatchResult};
    ghost use Rattle.stun_attributes.specs.PasswordAlgorithms.{held_algorithms};

    /// A PASSWORD-ALGORITHMS with the list `algorithms`, which is copied into memory from `alloc`.
    /// An empty list is accepted, though reading refuses its value.
    ///
    /// # Errors
    ///
    /// `TooLarge { expected: 16383, actual }`, which counts algorithms and not bytes, if there are
    /// more than 16383 algorithms, and `OutOfMemory` if an allocation failed.
    pub fn new(alloc: Global, algorithms: &[PasswordAlgorithmValue]) -> Result<Self, StunWriteError>
        ensures ok { IfOk result (λ made. held_algorithms made ≡ algorithms.now) }
        ensures large { 16383 < length algorithms.now
            → result ≡ Err (StunWriteError.TooLarge 16383 (length algorithms.now)) }
        ensures err { length algorithms.now ≤ 16383
            → IfErr result (λ e. e ≡ StunWriteError.OutOfMemory) }
    {
        if algorithms.len() > 16383 {
            return Err(StunWriteError::TooLarge {
                expected: 16383,
                actual: algorithms.len(),
            });
        }
        let algorithms = Vec::from_slice(alloc, algorithms)?;
        Ok(PasswordAlgorithms { algorithms })
    }

    /// Copies the PASSWORD-ALGORITHMS: the list of the copy is in memory from `alloc`.
    ///
    /// # Errors
    ///
    /// `OutOfMemory` if an allocation failed.
    pub fn clone(&self, alloc: Global) -> Result<Self, StunWriteError>
        ensures same { IfOk result (λ copy. held_algorithms copy ≡ held_algorithms self.now) }
        ensures err { IfErr result (λ e. e ≡ StunWriteError.OutOfMemory) }
    {
        Self::new(alloc, self.algorithms())
    }

    /// The algorithms that the server supports, in order.
    pub fn algorithms(&self) -> &[PasswordAlgorithmValue]
        ensures algorithms { result.now ≡ held_algorithms self.now }
        ensures few { length result.now ≤ 16383 }
    {
        &self.algorithms
    }

    /// The algorithms in a value whose entries of four bytes are algorithms.
    fn list_of(alloc: Global, value: &[u8]) -> Result<Vec<PasswordAlgorithmValue>, StunParseError>
        requires entries { length value.now % 4 ≡ 0 }
        requires each { fault_within (length value.now / 4) value.now ≡ None }
        ensures { MatchResult result
            (λ list. (algorithms_encoding list.items ≡ value.now)
            × (length value.now ≡ 4 * length list.items))
            (λ e. e ≡ StunParseError.OutOfMemory) }
    {
        let mut list = Vec::new(alloc);
        for i in 0..value.len() / 4 {
            let algorithm = read_algorithm(&value[4 * i..])?;
            match list.push(algorithm) {
                Ok(()) => {}
                Err(refused) => return Err(StunParseError::from(AllocError::from(refused))),
            }
        }
        Ok(list)
    }
}

impl TypedAttribute for PasswordAlgorithms {
    ghost use Rattle.stun_grammar.specs.AttributeTypes.{PASSWORD_ALGORITHMS};

    ghost NUMBER = { PASSWORD_ALGORITHMS };

    const NUMBER: u16 = attribute_types::PASSWORD_ALGORITHMS;
}

impl EncodeValue for PasswordAlgorithms {
    ghost use Rattle.stun_attributes.specs.PasswordAlgorithms.{held_algorithms};

    ghost bytes = { λ attribute. algorithms_encoding (held_algorithms attribute) };

    #[tactic(auto, using(stun_values::proofs::ListsLemmas::length_of_entries))]
    fn value_length(&self) -> u16 {
        4 * self.algorithms().len() as u16
    }

    #[tactic(auto, using(stun_values::proofs::ListsLemmas::length_of_entries))]
    fn write_value(&self, dest: &mut [u8]) {
        write_algorithms(self.algorithms(), dest);
    }

    fn held_bytes(&self) -> Option<&[u8]> {
        None
    }
}

/// Reading reports the first of these: fewer than
/// four bytes as `Truncated { expected: 4, actual }`; a length that is no multiple of 4 as
/// `InvalidAttributeData`; the first entry that isn't an algorithm, as
/// `TooLarge { expected: 4, actual: 4 + p }` if it has parameters of p bytes, and as
/// `InvalidAttributeData` if it has another number; and a failed allocation as `OutOfMemory`, since
/// the list is kept in memory from `alloc`.
impl ReadValue for PasswordAlgorithms {
    ghost use Rattle.stun_attributes.specs.PasswordAlgorithms.{ReadsAlgorithms};

    ghost reads_value = { ReadsAlgorithms };

    fn read_value(alloc: Global, value: &[u8]) -> Result<Self, StunParseError> {
        check_algorithms(value)?;
        let algorithms = Self::list_of(alloc, value)?;
        Ok(PasswordAlgorithms { algorithms })
    }
}

impl PrintText for PasswordAlgorithms {
    ghost use Rattle.stun_values.specs.Algorithms.{algorithms_text};
    ghost use Rattle.stun_attributes.specs.PasswordAlgorithms.{held_algorithms};

    ghost text = { λ attribute. algorithms_text (held_algorithms attribute) };

    fn print<S: TextSink>(&self, sink: &mut S) -> Result<(), S::Error> {
        print_algorithms(sink, self.algorithms())
    }
}

/// The type and the algorithms: `32770(0x8002: PASSWORD_ALGORITHMS): [MD5, SHA256]`.
impl fmt::Display for PasswordAlgorithms {
    ghost use Rattle.std.specs.Prelude.{Some};
    ghost use Rattle.stun_values.specs.Algorithms.{algorithms_text};
    ghost use Rattle.stun_attributes.specs.PasswordAlgorithms.{held_algorithms};

    ghost output = { λ attribute. Some (algorithms_text (held_algorithms attribute)) };

    fn fmt<W: fmt::Write>(&self, f: &mut fmt::Formatter<W>) -> fmt::Result {
        self.print(f)
    }
}
