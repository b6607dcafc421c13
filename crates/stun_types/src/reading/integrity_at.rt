//! Reading an integrity attribute at the offset that was kept for it.

ghost use Rattle.std.specs.Prelude.{◌≡◌, ◌≤◌, true, Some, length, is_some, IfSome};
ghost use Rattle.stun_grammar.specs.Chains.{first_attribute};
ghost use Rattle.stun_grammar.specs.Verdicts.{type_of_algorithm, is_checked_type, last_shown};
ghost use Rattle.stun_types.specs.Offsets.{OffsetsOf};
ghost use Rattle.stun_types.specs.LookingUp.{IsFound};

use crate::attribute::{AttributeType, RawAttribute};
use crate::message::IntegrityAlgorithm;
use crate::reading::IntegrityOffsets;
use stun_attributes::borrowed_attribute;
use stun_base::number_at;
use stun_grammar::attribute_types::{MESSAGE_INTEGRITY, MESSAGE_INTEGRITY_SHA256};

/// An integrity attribute that was read at an offset: that of its header, its algorithm, and its
/// value.
#[derive(Clone, Copy, Drop)]
pub(crate) struct IntegrityAt<'a> {
    pub(crate) offset: usize,
    pub(crate) algorithm: IntegrityAlgorithm,
    pub(crate) value: &'a [u8],
    ghost short: { length value.now ≤ 65535 },
}

/// The value of the attribute that `bytes` begin with. What follows it isn't read, and of its
/// header only the length is.
fn first_value(bytes: &[u8]) -> &[u8]
    requires { is_some (first_attribute bytes.now) ≡ true }
    ensures value { IfSome (first_attribute bytes.now) (λ a. result.now ≡ a.value) }
    ensures short { length result.now ≤ 65535 }
{
    let length = number_at(bytes, 2) as usize;
    &bytes[4..4 + length]
}

impl<'a> IntegrityAt<'a> {
    ghost use Rattle.std.specs.Prelude.{◌≡◌, MatchOption, None, Some};
    ghost use Rattle.stun_types.specs.Validating.{shown_integrity};

    /// The integrity attribute of an algorithm that is shown. It is read at its offset, and no other
    /// attribute is.
    pub(crate) fn of(
        bytes: &'a [u8],
        offsets: IntegrityOffsets,
        algorithm: IntegrityAlgorithm,
    ) -> Option<Self>
        requires { OffsetsOf offsets bytes.now }
        ensures { MatchOption result
            (last_shown (is_checked_type (Some algorithm)) bytes.now ≡ None)
            (λ found. last_shown (is_checked_type (Some algorithm)) bytes.now
            ≡ Some (shown_integrity found)) }
    {
        let offset = offsets.of(algorithm)?;
        let value = first_value(&bytes[offset..]);
        Some(IntegrityAt {
            offset,
            algorithm,
            value,
        })
    }

    /// The last integrity attribute that is shown or, with an algorithm, the one of that algorithm.
    /// If both are shown, MESSAGE-INTEGRITY-SHA256 is the last.
    pub(crate) fn last(
        bytes: &'a [u8],
        offsets: IntegrityOffsets,
        made_for: Option<IntegrityAlgorithm>,
    ) -> Option<Self>
        requires { OffsetsOf offsets bytes.now }
        ensures { MatchOption result (last_shown (is_checked_type made_for) bytes.now ≡ None)
            (λ found. last_shown (is_checked_type made_for) bytes.now
            ≡ Some (shown_integrity found)) }
    {
        if let Some(algorithm) = made_for {
            return Self::of(bytes, offsets, algorithm);
        }
        match Self::of(bytes, offsets, IntegrityAlgorithm::Sha256) {
            Some(found) => Some(found),
            None => Self::of(bytes, offsets, IntegrityAlgorithm::Sha1),
        }
    }
}

/// The type of the integrity attribute of an algorithm.
pub(crate) fn type_for(algorithm: IntegrityAlgorithm) -> u16
    ensures { result ≡ type_of_algorithm algorithm }
{
    match algorithm {
        IntegrityAlgorithm::Sha1 => MESSAGE_INTEGRITY,
        IntegrityAlgorithm::Sha256 => MESSAGE_INTEGRITY_SHA256,
    }
}

/// The integrity attribute of an algorithm that is shown, with the offset of its header.
pub(crate) fn integrity_raw<'a>(
    bytes: &'a [u8],
    offsets: IntegrityOffsets,
    algorithm: IntegrityAlgorithm,
) -> Option<(usize, RawAttribute<'a>)>
    requires { OffsetsOf offsets bytes.now }
    ensures { IsFound (last_shown (is_checked_type (Some algorithm)) bytes.now) result }
{
    let found = IntegrityAt::of(bytes, offsets, algorithm)?;
    let raw = borrowed_attribute(AttributeType::new(type_for(found.algorithm)), found.value);
    Some((found.offset, raw))
}
