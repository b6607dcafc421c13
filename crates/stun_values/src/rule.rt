//! Which rule goes with which type.

ghost use Rattle.std.specs.Prelude.{◌≡◌};
ghost use Rattle.stun_values.specs.Typed.{rule_of as the_rule, is_typed as has_rule};

use stun_base::AttributeType;
use stun_grammar::{IntegrityAlgorithm, attribute_types};

/// The most bytes of a USERNAME (RFC 8489, section 14.3).
pub const USERNAME_MAX: u16 = 513;

/// The most bytes of a REALM, a NONCE, a SOFTWARE, and the reason of an ERROR-CODE: those of 127
/// characters.
pub const TEXT_MAX: u16 = 763;

/// The most bytes of a REALM (RFC 8489, section 14.9).
pub const REALM_MAX: u16 = TEXT_MAX;

/// The most bytes of a NONCE (RFC 8489, section 14.10).
pub const NONCE_MAX: u16 = TEXT_MAX;

/// The most bytes of a SOFTWARE (RFC 8489, section 14.14).
pub const SOFTWARE_MAX: u16 = TEXT_MAX;

/// The most bytes of an ALTERNATE-DOMAIN: as many as a value may have.
pub const ALTERNATE_DOMAIN_MAX: u16 = 65535;

/// What the value of a typed attribute has to be.
#[derive(Clone, Copy, Debug, PartialEq, Eq)]
pub enum Rule {
    /// A text of at most that many bytes, which is printed as it is.
    Plain(u16),
    /// A text of at most that many bytes, which is printed in quotation marks.
    Quoted(u16),
    /// A code and a reason.
    ErrorCode,
    /// An HMAC by this algorithm.
    Hmac(IntegrityAlgorithm),
    /// A hash of 32 bytes.
    Hash,
    /// A checksum.
    Checksum,
    /// A password algorithm.
    Algorithm,
    /// A list of password algorithms.
    Algorithms,
    /// A list of attribute types.
    Types,
    /// An address.
    Address,
    /// An address that was XORed.
    XorAddress,
}

/// The rule of a type that this library has a typed attribute for. A new one is a line here.
#[tactic(auto, unfolding(crate::specs::Typed::rule_of))]
pub fn rule_of(atype: AttributeType) -> Option<Rule>
    ensures { result ≡ the_rule atype.0 }
{
    match atype.value() {
        attribute_types::USERNAME => Some(Rule::Quoted(USERNAME_MAX)),
        attribute_types::MESSAGE_INTEGRITY => Some(Rule::Hmac(IntegrityAlgorithm::Sha1)),
        attribute_types::ERROR_CODE => Some(Rule::ErrorCode),
        attribute_types::UNKNOWN_ATTRIBUTES => Some(Rule::Types),
        attribute_types::REALM => Some(Rule::Plain(REALM_MAX)),
        attribute_types::NONCE => Some(Rule::Plain(NONCE_MAX)),
        attribute_types::MESSAGE_INTEGRITY_SHA256 => Some(Rule::Hmac(IntegrityAlgorithm::Sha256)),
        attribute_types::PASSWORD_ALGORITHM => Some(Rule::Algorithm),
        attribute_types::USERHASH => Some(Rule::Hash),
        attribute_types::XOR_MAPPED_ADDRESS => Some(Rule::XorAddress),
        attribute_types::PASSWORD_ALGORITHMS => Some(Rule::Algorithms),
        attribute_types::ALTERNATE_DOMAIN => Some(Rule::Plain(ALTERNATE_DOMAIN_MAX)),
        attribute_types::SOFTWARE => Some(Rule::Quoted(SOFTWARE_MAX)),
        attribute_types::ALTERNATE_SERVER => Some(Rule::Address),
        attribute_types::FINGERPRINT => Some(Rule::Checksum),
        _ => None,
    }
}

/// Whether a type is one of the fifteen that this library has a typed attribute for.
pub fn is_typed(atype: AttributeType) -> bool
    ensures { result ≡ has_rule atype.0 }
{
    rule_of(atype).is_some()
}
