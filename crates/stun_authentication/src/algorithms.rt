//! Password algorithms in the values of attributes (RFC 8489, sections 14.11, 14.12 and 18.5.1).

ghost use Rattle.std.specs.Prelude.{◌≡◌, ◌≤◌, nat_eq, length, drop, None, MatchOption};
ghost use Rattle.std.specs.Cmp.Lexicographic.{pointwise};
ghost use Rattle.stun_attributes.specs.Raw.{raw_type, raw_value, Finds};
ghost use Rattle.stun_grammar.specs.Chains.{first_attribute};
ghost use Rattle.stun_values.specs.Algorithms.{algorithm_number, algorithms_encoding};
ghost use Rattle.stun_authentication.specs.Lists.{numbered, named_by, first_named, sole_named, first_listed};

use stun_attributes::attribute_at;
use stun_types::attribute::{Attribute, PasswordAlgorithmValue, RawAttribute};
use stun_values::write_algorithm;

/// Both algorithms.
pub(crate) const BOTH: [PasswordAlgorithmValue; 2] = [
    PasswordAlgorithmValue::MD5,
    PasswordAlgorithmValue::SHA256,
];

/// The number of an algorithm.
fn number_of(algorithm: PasswordAlgorithmValue) -> u16
    ensures { result ≡ algorithm_number algorithm }
{
    match algorithm {
        PasswordAlgorithmValue::MD5 => 1,
        PasswordAlgorithmValue::SHA256 => 2,
    }
}

/// The one of these algorithms that has a number.
pub(crate) fn numbered(
    wanted: &[PasswordAlgorithmValue],
    number: u16,
) -> Option<PasswordAlgorithmValue>
    ensures { result ≡ numbered wanted.now number }
{
    wanted
        .iter()
        .copied()
        .find(|algorithm| number_of(*algorithm) == number)
}

/// The one of these algorithms that an entry names: it has its number, and no parameters. An entry
/// is laid out as an attribute is: a number and the length of the parameters in two bytes each, the
/// parameters, and padding up to a multiple of four bytes.
fn named_by(
    wanted: &[PasswordAlgorithmValue],
    entry: &RawAttribute<'_>,
) -> Option<PasswordAlgorithmValue>
    ensures { result ≡ named_by wanted.now (raw_type entry.now) (raw_value entry.now) }
{
    if !entry.value().as_bytes().is_empty() {
        return None;
    }
    numbered(wanted, entry.get_type().value())
}

/// The entry at an offset of a value, and the offset after it. `None` if none is whole.
fn entry_at<'a>(value: &'a [u8], offset: usize) -> Option<(RawAttribute<'a>, usize)>
    requires { offset ≤ length value.now }
    ensures { MatchOption result (first_attribute (drop offset value.now) ≡ None)
        (λ found. (found.1 ≤ length value.now) × Finds found.0 found.1 offset value.now) }
{
    match attribute_at(value, offset) {
        Ok(found) => found,
        Err(_) => None,
    }
}

/// The one of these algorithms that the first entry of a value names.
fn first_named(wanted: &[PasswordAlgorithmValue], value: &[u8]) -> Option<PasswordAlgorithmValue>
    ensures { result ≡ first_named wanted.now value.now }
{
    let (entry, _behind) = entry_at(value, 0)?;
    named_by(wanted, &entry)
}

/// The one of these algorithms that a PASSWORD-ALGORITHM names: its value is one entry, four bytes
/// without parameters.
pub(crate) fn sole_named(
    wanted: &[PasswordAlgorithmValue],
    value: &[u8],
) -> Option<PasswordAlgorithmValue>
    ensures { result ≡ sole_named wanted.now value.now }
{
    if value.len() != 4 {
        return None;
    }
    first_named(wanted, value)
}

/// The first entry of a value that names one of these algorithms. Entries of other algorithms, and
/// what is cut off at the end, are passed over.
pub(crate) fn first_listed(
    wanted: &[PasswordAlgorithmValue],
    value: &[u8],
) -> Option<PasswordAlgorithmValue>
    ensures { result ≡ first_listed wanted.now value.now }
{
    let mut offset = 0;
    'walk: while let Some((entry, behind)) = entry_at(value, offset) {
        if let Some(algorithm) = named_by(wanted, &entry) {
            return Some(algorithm);
        }
        offset = behind;
    }
    None
}

/// Whether a value is the list of these algorithms: four bytes for each, in order.
pub(crate) fn is_encoding_of(value: &[u8], algorithms: &[PasswordAlgorithmValue]) -> bool
    ensures { result ≡ pointwise nat_eq value.now (algorithms_encoding algorithms.now) }
{
    if value.len() % 4 != 0 || value.len() / 4 != algorithms.len() {
        return false;
    }
    for i in 0..algorithms.len() {
        let mut entry = [0u8; 4];
        write_algorithm(algorithms[i], &mut entry);
        if &value[4 * i..4 * i + 4] != entry.as_slice() {
            return false;
        }
    }
    true
}
