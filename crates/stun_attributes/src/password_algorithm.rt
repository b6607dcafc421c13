ghost use Rattle.std.specs.Prelude.{◌≡◌};
ghost use Rattle.stun_attributes.specs.PasswordAlgorithms.{held_algorithm};

use crate::wire::{EncodeValue, ReadValue, TypedAttribute};
use std::alloc::Global;
use std::fmt;
use stun_base::StunParseError;
use stun_grammar::attribute_types;
use stun_text::{PrintText, TextSink};
use stun_values::{PasswordAlgorithmValue, print_algorithm, read_one, write_algorithm};

/// PASSWORD-ALGORITHM: the algorithm that a client chose for its password (RFC 8489, section
/// 14.12).
///
/// Its value is the number of the algorithm in two bytes, big-endian, and two zeros. Reading
/// ignores what follows these four bytes; a server that authenticates a request refuses it.
///
/// # Examples
///
/// ```
/// use stun_types::attribute::{PasswordAlgorithm, PasswordAlgorithmValue};
/// use stun_types::prelude::*;
///
/// let attribute = PasswordAlgorithm::new(PasswordAlgorithmValue::SHA256);
/// assert_eq!(rt; attribute.algorithm(), PasswordAlgorithmValue::SHA256);
/// assert_eq!(rt; attribute.to_raw(alloc)?.value().as_bytes(), [0, 2, 0, 0].as_slice());
/// ```
#[derive(Debug, Clone, PartialEq, Eq, Drop)]
pub struct PasswordAlgorithm {
    algorithm: PasswordAlgorithmValue,
}

impl PasswordAlgorithm {
    /// A PASSWORD-ALGORITHM with the algorithm `algorithm`.
    pub fn new(algorithm: PasswordAlgorithmValue) -> Self
        ensures { held_algorithm result ≡ algorithm }
    {
        PasswordAlgorithm { algorithm }
    }

    /// The algorithm that the client chose.
    pub fn algorithm(&self) -> PasswordAlgorithmValue
        ensures { result ≡ held_algorithm self.now }
    {
        self.algorithm
    }
}

impl TypedAttribute for PasswordAlgorithm {
    ghost use Rattle.stun_grammar.specs.AttributeTypes.{PASSWORD_ALGORITHM};

    ghost NUMBER = { PASSWORD_ALGORITHM };

    const NUMBER: u16 = attribute_types::PASSWORD_ALGORITHM;
}

impl EncodeValue for PasswordAlgorithm {
    ghost use Rattle.stun_values.specs.Algorithms.{algorithm_encoding};

    ghost bytes = { λ attribute. algorithm_encoding (held_algorithm attribute) };

    fn value_length(&self) -> u16 {
        4
    }

    fn write_value(&self, dest: &mut [u8]) {
        write_algorithm(self.algorithm, dest);
    }

    fn held_bytes(&self) -> Option<&[u8]> {
        None
    }
}

/// No memory is allocated. Reading reports the first of these: fewer than four bytes as `Truncated
/// { expected: 4, actual }`; a length that is no multiple of 4 as `InvalidAttributeData`;
/// parameters of p bytes as `TooLarge { expected: 4, actual: 4 + p }`; another number as
/// `InvalidAttributeData`. What follows the first four bytes is ignored.
impl ReadValue for PasswordAlgorithm {
    ghost use Rattle.stun_attributes.specs.PasswordAlgorithms.{ReadsAlgorithm};

    ghost reads_value = { ReadsAlgorithm };

    fn read_value(_alloc: Global, value: &[u8]) -> Result<Self, StunParseError> {
        let algorithm = read_one(value)?;
        Ok(PasswordAlgorithm { algorithm })
    }
}

impl PrintText for PasswordAlgorithm {
    ghost use Rattle.stun_values.specs.Algorithms.{algorithm_text};

    ghost text = { λ attribute. algorithm_text (held_algorithm attribute) };

    fn print<S: TextSink>(&self, sink: &mut S) -> Result<(), S::Error> {
        print_algorithm(sink, self.algorithm())
    }
}

/// The type and the algorithm: `29(0x1d: PASSWORD-ALGORITHM): MD5`.
impl fmt::Display for PasswordAlgorithm {
    ghost use Rattle.std.specs.Prelude.{Some};
    ghost use Rattle.stun_values.specs.Algorithms.{algorithm_text};

    ghost output = { λ attribute. Some (algorithm_text (held_algorithm attribute)) };

    fn fmt<W: fmt::Write>(&self, f: &mut fmt::Formatter<W>) -> fmt::Result {
        self.print(f)
    }
}
