//! Password algorithms in four bytes each, read, written and printed (RFC 8489, section 14.11).

ghost use Rattle.std.specs.Prelude.{◌≡◌, ◌+◌, ◌*◌, ◌%◌, ◌/◌, ◌≤◌, ◌++◌, List, Some, None, MatchResult, OnOk, length, take, drop};
ghost use Rattle.stun_text.specs.Lists.{comma_before};
ghost use Rattle.stun_values.specs.Algorithms.{algorithm_name, algorithm_names, algorithm_encoding, algorithms_encoding, algorithm_fault, integrity_of, one_algorithm_fault, algorithms_fault, fault_within, algorithm_text, algorithms_text};

use crate::printed::put_type;
use byteorder::{BigEndian, ByteOrder};
use std::fmt;
use stun_base::{AttributeType, StunParseError, number_at};
use stun_grammar::{IntegrityAlgorithm, attribute_types};
use stun_text::{PrintText, TextSink, put_comma};

/// An algorithm by which a password is hashed (RFC 8489, section 18.5.1).
#[derive(Debug, Clone, Copy, PartialEq, Eq)]
pub enum PasswordAlgorithmValue {
    /// MD5, with the number 1.
    MD5,
    /// SHA-256, with the number 2.
    SHA256,
}

impl PasswordAlgorithmValue {
    /// The algorithm by which a message is signed if passwords are hashed by the password
    /// algorithm: SHA-1 for MD5, and SHA-256 for SHA-256.
    ///
    /// # Examples
    ///
    /// ```
    /// use stun_types::attribute::PasswordAlgorithmValue;
    /// use stun_types::message::IntegrityAlgorithm;
    ///
    /// assert_eq!(rt; PasswordAlgorithmValue::MD5.as_integrity(), IntegrityAlgorithm::Sha1);
    /// assert_eq!(rt; PasswordAlgorithmValue::SHA256.as_integrity(), IntegrityAlgorithm::Sha256);
    /// ```
    pub fn as_integrity(&self) -> IntegrityAlgorithm
        ensures { result ≡ integrity_of self.now }
    {
        match self {
            PasswordAlgorithmValue::MD5 => IntegrityAlgorithm::Sha1,
            PasswordAlgorithmValue::SHA256 => IntegrityAlgorithm::Sha256,
        }
    }

    /// The name: `MD5` or `SHA256`.
    fn name(&self) -> &'static str
        ensures { result.now ≡ algorithm_name self.now }
    {
        match self {
            PasswordAlgorithmValue::MD5 => "MD5",
            PasswordAlgorithmValue::SHA256 => "SHA256",
        }
    }
}

impl PrintText for PasswordAlgorithmValue {
    ghost use Rattle.stun_values.specs.Algorithms.{algorithm_name};

    ghost text = { algorithm_name };

    fn print<S: TextSink>(&self, sink: &mut S) -> Result<(), S::Error> {
        sink.put(self.name())
    }
}

/// `MD5` or `SHA256`.
impl fmt::Display for PasswordAlgorithmValue {
    ghost use Rattle.std.specs.Prelude.{Some};
    ghost use Rattle.stun_values.specs.Algorithms.{algorithm_name};

    ghost output = { λ algorithm. Some (algorithm_name algorithm) };

    fn fmt<W: fmt::Write>(&self, f: &mut fmt::Formatter<W>) -> fmt::Result {
        self.print(f)
    }
}

/// Writes the name of the algorithm at an index of a list, and what precedes it.
#[tactic(auto, using(stun_text::proofs::Joining::both, stun_text::proofs::Joining::spelled_so))]
fn put_name<S: TextSink>(
    sink: &mut S,
    index: usize,
    algorithm: PasswordAlgorithmValue,
) -> Result<(), S::Error>
    ensures { OnOk result
        (S.wrote sink.old (comma_before index ++ algorithm_name algorithm) sink.new) }
{
    put_comma(sink, index)?;
    sink.put(algorithm.name())?;
    Ok(())
}

/// Writes the names with a comma and a space between them.
fn put_names<S: TextSink>(
    sink: &mut S,
    algorithms: &[PasswordAlgorithmValue],
) -> Result<(), S::Error>
    ensures { OnOk result (S.wrote sink.old (algorithm_names algorithms.now) sink.new) }
{
    for i in 0..algorithms.len() {
        put_name(sink, i, algorithms[i])?;
    }
    Ok(())
}

/// Writes in the same way the names of the algorithms that a value is the encoding of.
fn put_names_in<S: TextSink>(sink: &mut S, value: &[u8]) -> Result<(), S::Error>
    requires { fault_within (length value.now / 4) value.now ≡ None }
    ensures { (algorithms : List PasswordAlgorithmValue)
        → algorithms_encoding algorithms ≡ value.now
        → OnOk result (S.wrote sink.old (algorithm_names algorithms) sink.new) }
{
    for i in 0..value.len() / 4 {
        let Ok(algorithm) = read_algorithm(&value[4 * i..]) else {
            unreachable!();
        };
        put_name(sink, i, algorithm)?;
    }
    Ok(())
}

/// Writes the four bytes of an algorithm at the start of `dest`: its number, and 0 for the length
/// of its parameters.
///
/// # Requires
///
/// `dest.len()` is at least 4.
pub fn write_algorithm(algorithm: PasswordAlgorithmValue, dest: &mut [u8])
    requires { 4 ≤ length dest.old }
    ensures { dest.new ≡ algorithm_encoding algorithm ++ drop 4 dest.old }
{
    let number = match algorithm {
        PasswordAlgorithmValue::MD5 => 1,
        PasswordAlgorithmValue::SHA256 => 2,
    };
    BigEndian::write_u16(dest, number);
    BigEndian::write_u16(&mut dest[2..], 0);
}

/// Writes four bytes for each algorithm at the start of `dest`, in order.
///
/// # Requires
///
/// `dest.len()` is at least `4 * algorithms.len()`.
pub fn write_algorithms(algorithms: &[PasswordAlgorithmValue], dest: &mut [u8])
    requires { 4 * length algorithms.now ≤ length dest.old }
    ensures { dest.new ≡ algorithms_encoding algorithms.now
        ++ drop (4 * length algorithms.now) dest.old }
{
    for i in 0..algorithms.len() {
        write_algorithm(algorithms[i], &mut dest[4 * i..]);
    }
}

/// Reads the algorithm at the start of four bytes or more: it has no parameters, and its number is
/// 1 or 2. What follows the four bytes is ignored.
///
/// # Requires
///
/// `value.len()` is at least 4.
///
/// # Errors
///
/// `TooLarge { expected: 4, actual: 4 + p }` if it has parameters of p bytes. Otherwise
/// `InvalidAttributeData` if it has another number.
#[tactic(auto, using(crate::proofs::AlgorithmsLemmas::spelled))]
pub fn read_algorithm(value: &[u8]) -> Result<PasswordAlgorithmValue, StunParseError>
    requires { 4 ≤ length value.now }
    ensures { MatchResult result
        (λ algorithm. (algorithm_fault value.now ≡ None)
        × (algorithm_encoding algorithm ≡ take 4 value.now))
        (λ e. algorithm_fault value.now ≡ Some e) }
{
    let parameters = number_at(value, 2) as usize;
    if parameters != 0 {
        return Err(StunParseError::TooLarge {
            expected: 4,
            actual: 4 + parameters,
        });
    }
    match number_at(value, 0) {
        1 => Ok(PasswordAlgorithmValue::MD5),
        2 => Ok(PasswordAlgorithmValue::SHA256),
        _ => Err(StunParseError::InvalidAttributeData),
    }
}

/// Checks that a value is made of entries of four bytes, and isn't empty.
fn check_entries(value: &[u8]) -> Result<(), StunParseError>
    ensures { MatchResult result
        (λ _. (4 ≤ length value.now) × (length value.now % 4 ≡ 0))
        (λ e. (one_algorithm_fault value.now ≡ Some e) × (algorithms_fault value.now ≡ Some e)) }
{
    if value.len() < 4 {
        return Err(StunParseError::Truncated {
            expected: 4,
            actual: value.len(),
        });
    }
    if value.len() % 4 != 0 {
        return Err(StunParseError::InvalidAttributeData);
    }
    Ok(())
}

/// Reads a value whose first four bytes are an algorithm. What follows them is ignored.
///
/// # Errors
///
/// The first of these that applies: `Truncated { expected: 4, actual }` if there are fewer than
/// four bytes; `InvalidAttributeData` if their number is no multiple of 4; and what
/// [`read_algorithm`] returns.
#[tactic(auto, using(crate::proofs::AlgorithmsLemmas::one_fault))]
pub fn read_one(value: &[u8]) -> Result<PasswordAlgorithmValue, StunParseError>
    ensures { MatchResult result
        (λ algorithm. (one_algorithm_fault value.now ≡ None)
        × (algorithm_encoding algorithm ≡ take 4 value.now))
        (λ e. one_algorithm_fault value.now ≡ Some e) }
{
    check_entries(value)?;
    read_algorithm(value)
}

/// Checks that each entry of a value is an algorithm.
fn check_each(value: &[u8]) -> Result<(), StunParseError>
    requires { length value.now % 4 ≡ 0 }
    ensures { MatchResult result
        (λ _. fault_within (length value.now / 4) value.now ≡ None)
        (λ e. fault_within (length value.now / 4) value.now ≡ Some e) }
{
    for i in 0..value.len() / 4 {
        read_algorithm(&value[4 * i..])?;
    }
    Ok(())
}

/// Checks that a value is a list of algorithms, each in four bytes, and that it isn't empty.
///
/// # Errors
///
/// The first of these that applies: `Truncated { expected: 4, actual }` if there are fewer than
/// four bytes; `InvalidAttributeData` if their number is no multiple of 4; and what
/// [`read_algorithm`] returns for the first entry that isn't an algorithm.
#[tactic(auto, using(crate::proofs::AlgorithmsLemmas::list_fault))]
pub fn check_algorithms(value: &[u8]) -> Result<(), StunParseError>
    ensures { MatchResult result
        (λ _. (algorithms_fault value.now ≡ None) × (length value.now % 4 ≡ 0)
        × (fault_within (length value.now / 4) value.now ≡ None))
        (λ e. algorithms_fault value.now ≡ Some e) }
{
    check_entries(value)?;
    check_each(value)
}

/// Prints a PASSWORD-ALGORITHM of this algorithm: the type, and after it the algorithm. It takes
/// no memory.
///
/// # Errors
///
/// That of the sink.
#[tactic(auto, using(stun_text::proofs::Joining::both, stun_text::proofs::Joining::spelled_so))]
pub fn print_algorithm<S: TextSink>(
    sink: &mut S,
    algorithm: PasswordAlgorithmValue,
) -> Result<(), S::Error>
    ensures { OnOk result (S.wrote sink.old (algorithm_text algorithm) sink.new) }
{
    put_type(sink, AttributeType(attribute_types::PASSWORD_ALGORITHM))?;
    sink.put(algorithm.name())?;
    Ok(())
}

/// Prints a PASSWORD-ALGORITHMS of these algorithms: the type, and after it the algorithms in
/// brackets, with a comma and a space between them. It takes no memory.
///
/// # Errors
///
/// That of the sink.
pub fn print_algorithms<S: TextSink>(
    sink: &mut S,
    algorithms: &[PasswordAlgorithmValue],
) -> Result<(), S::Error>
    ensures { OnOk result (S.wrote sink.old (algorithms_text algorithms.now) sink.new) }
{
    AttributeType(attribute_types::PASSWORD_ALGORITHMS).print(sink)?;
    sink.put(": [")?;
    put_names(sink, algorithms)?;
    sink.put("]")?;
    Ok(())
}

/// Prints in the same way the value of a PASSWORD-ALGORITHMS. It takes no memory.
///
/// # Requires
///
/// The value holds algorithms, four bytes for each: so it is if [`check_algorithms`] is `Ok`.
///
/// # Errors
///
/// That of the sink.
pub fn print_algorithms_in<S: TextSink>(sink: &mut S, value: &[u8]) -> Result<(), S::Error>
    requires { fault_within (length value.now / 4) value.now ≡ None }
    ensures { (algorithms : List PasswordAlgorithmValue)
        → algorithms_encoding algorithms ≡ value.now
        → OnOk result (S.wrote sink.old (algorithms_text algorithms) sink.new) }
{
    AttributeType(attribute_types::PASSWORD_ALGORITHMS).print(sink)?;
    sink.put(": [")?;
    put_names_in(sink, value)?;
    sink.put("]")?;
    Ok(())
}
