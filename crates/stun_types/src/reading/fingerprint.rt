//! The FINGERPRINT of a message that is scanned.

ghost use Rattle.std.specs.Prelude.{◌≡◌, ◌≤◌, length, MatchResult, None, Some};
ghost use Rattle.stun_grammar.specs.AttributeTypes.{FINGERPRINT as FINGERPRINT_TYPE};
ghost use Rattle.stun_grammar.specs.Fingerprints.{fingerprint_fault};
ghost use Rattle.stun_attributes.specs.Raw.{raw_type, raw_value};

use crate::attribute::RawAttribute;
use crate::message::StunParseError;
use crate::reading::endings::type_number;
use byteorder::{BigEndian, ByteOrder};
use stun_attributes::fingerprint_at;
use stun_grammar::attribute_types::FINGERPRINT;
use stun_values::check_length;

/// Checks the value of a FINGERPRINT whose header is at `offset`: it has four bytes, and they are
/// right for the message before it.
fn check_fingerprint(bytes: &[u8], offset: usize, value: &[u8]) -> Result<(), StunParseError>
    requires header { 20 ≤ offset }
    requires within { offset ≤ length bytes.now }
    ensures { MatchResult result
        (λ _. fingerprint_fault bytes.now offset value.now ≡ None)
        (λ e. fingerprint_fault bytes.now offset value.now ≡ Some e) }
{
    check_length(value, 4)?;
    let found = BigEndian::read_u32(value);
    let right = BigEndian::read_u32(&fingerprint_at(bytes, offset));
    if found != right {
        return Err(StunParseError::FingerprintMismatch);
    }
    Ok(())
}

/// Checks an attribute that is scanned: a FINGERPRINT must be right, any other passes.
pub(crate) fn check_scanned(
    bytes: &[u8],
    offset: usize,
    attribute: &RawAttribute<'_>,
) -> Result<(), StunParseError>
    requires header { 20 ≤ offset }
    requires within { offset ≤ length bytes.now }
    ensures { MatchResult result
        (λ _. raw_type attribute.now ≡ FINGERPRINT_TYPE
        → fingerprint_fault bytes.now offset (raw_value attribute.now) ≡ None)
        (λ e. (raw_type attribute.now ≡ FINGERPRINT_TYPE)
        × (fingerprint_fault bytes.now offset (raw_value attribute.now) ≡ Some e)) }
{
    if type_number(attribute) != FINGERPRINT {
        return Ok(());
    }
    check_fingerprint(bytes, offset, attribute.value().as_bytes())
}
