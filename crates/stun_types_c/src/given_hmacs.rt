//! HMACs that a program in C computes: the bytes that they cover, validating and signing with them.

ghost use Rattle.std.specs.Prelude.{◌≡◌, ◌≤◌, List, ℕ, Option, Some, length, take};
ghost use Rattle.stun_grammar.specs.Hmac.{hmac as hmac_under};
ghost use Rattle.stun_grammar.specs.Steps.{signed_bytes, integrity_value};
ghost use Rattle.stun_grammar.specs.Verdicts.{is_checked_type, covered as covered_in, GivesHmac};
ghost use Rattle.stun_grammar.specs.declared.integrity_algorithm.IntegrityAlgorithm.{IntegrityAlgorithm};
ghost use Rattle.stun_keys.specs.declared.keys.integrity_key.IntegrityKey.{IntegrityKey};
ghost use Rattle.stun_keys.specs.Keys.{key_algorithm, key_bytes};
ghost use Rattle.stun_types.specs.declared.message.hmac.Hmac.{Hmac};
ghost use Rattle.stun_types.specs.GivenHmacs.{given, hmac_algorithm, hmac_bytes, text_algorithm, text_bytes};
ghost use Rattle.stun_types_c.specs.Codes.{OK};
ghost use Rattle.stun_types_c.specs.CResults.{plain};
ghost use Rattle.stun_types_c.specs.GivenHmacs.{covered_by, hashed, hmac_named, is_same, ReportsCovered, ReportsNext, ValidatesGiven, AddsHmac, SignsGiven};
ghost use Rattle.stun_types_c.specs.Keys.{algorithm_named, made_for_named};
ghost use Rattle.stun_types_c.specs.Validating.{ValidatesWith};

use crate::call_result::{CResult, parse_result, plain, validate_result, write_result};
use crate::codes;
use crate::keys::{algorithm_of, made_for_of, number_of};
use crate::validating::{NOT_VALIDATED, Validated, tell_verdict};
use crate::writing::store_length;
use stun_attributes::beginning;
use stun_types::message::{CoveredText, Hmac, IntegrityAlgorithm, Message, ResumePoint};
use stun_values::hmac_length;

/// What the HMAC of an integrity attribute covers of a message.
#[repr(C)]
#[derive(Clone, Copy, Drop)]
pub struct CCovered {
    /// The number of the algorithm; 0 if nothing is covered.
    pub algorithm: u32,
    /// The first four bytes that are covered.
    pub first: [u8; 4],
    /// How many bytes are covered: from the fifth on they are those of the message.
    pub length: u64,
}

/// An HMAC that C's own code computed.
#[repr(C)]
#[derive(Clone, Copy, Drop)]
pub struct CHmac {
    /// The number of its algorithm.
    pub algorithm: u32,
    /// Its bytes: of an HMAC-SHA1 the first 20.
    pub bytes: [u8; 32],
}

/// What a call leaves if nothing is covered.
const NOT_COVERED: CCovered = CCovered {
    algorithm: 0,
    first: [0; 4],
    length: 0,
};

/// The HMAC that C gives, if its algorithm is one.
fn hmac_of(given: &CHmac) -> Option<Hmac>
    ensures { result ≡ hmac_named given.now }
{
    match algorithm_of(given.algorithm) {
        Some(IntegrityAlgorithm::Sha1) => {
            let mut bytes = [0; 20];
            bytes.copy_from_slice(&given.bytes[..20]);
            Some(Hmac::Sha1(bytes))
        }
        Some(IntegrityAlgorithm::Sha256) => Some(Hmac::Sha256(given.bytes)),
        None => None,
    }
}

/// The covered bytes as they are reported to C.
fn covered_by(text: &CoveredText<'_>) -> CCovered
    ensures { result ≡ covered_by (text_algorithm text.now) (text_bytes text.now) }
{
    CCovered {
        algorithm: number_of(text.algorithm()),
        first: text.beginning(),
        length: text.len() as u64,
    }
}

/// What an integrity attribute of a message covers.
#[unsafe(no_mangle)]
pub extern "C" fn stun_types_covered_text(
    bytes: &[u8],
    algorithm: u32,
    covered: &mut CCovered,
) -> CResult
    ensures reports { ReportsCovered algorithm bytes.now result covered.new }
    // the bytes that C then computes the HMAC of are those that are covered
    ensures covers { result ≡ plain OK → (made_for : Option IntegrityAlgorithm)
        → made_for_named algorithm ≡ Some made_for
        → covered_in (is_checked_type made_for) bytes.now ≡ Some (hashed covered.new bytes.now) }
{
    *covered = NOT_COVERED;
    let message = match Message::from_bytes(bytes) {
        Ok(message) => message,
        Err(error) => return parse_result(error),
    };
    let Some(made_for) = made_for_of(algorithm) else {
        return plain(codes::BAD_ARGUMENT);
    };
    match message.integrity_check(made_for) {
        Ok(check) => {
            *covered = covered_by(&check.text());
            plain(codes::OK)
        }
        Err(error) => validate_result(error),
    }
}

/// Whether a message is authentic by an HMAC of what its integrity attribute covers.
#[unsafe(no_mangle)]
pub extern "C" fn stun_types_validate_with_hmac(
    bytes: &[u8],
    algorithm: u32,
    hmac: &CHmac,
    validated: &mut Validated,
) -> CResult
    ensures given { ValidatesGiven algorithm hmac.now bytes.now result validated.new }
    // by the HMAC under a key, it is what `stun_types_validate` makes of that key
    ensures keyed { (key : IntegrityKey) (named : Hmac)
        → made_for_named algorithm ≡ Some (key_algorithm key) → hmac_named hmac.now ≡ Some named
        → GivesHmac (is_checked_type (key_algorithm key)) (λ _. key_bytes key) (given named)
        bytes.now
        → ValidatesWith (Some key) bytes.now result validated.new }
{
    *validated = NOT_VALIDATED;
    let message = match Message::from_bytes(bytes) {
        Ok(message) => message,
        Err(error) => return parse_result(error),
    };
    let (Some(made_for), Some(hmac)) = (made_for_of(algorithm), hmac_of(hmac)) else {
        return plain(codes::BAD_ARGUMENT);
    };
    let verdict = message.validate_integrity_with_hmac(made_for, &hmac);
    tell_verdict(&message, verdict, validated)
}

/// What the integrity attribute of an algorithm covers if it is added next.
#[unsafe(no_mangle)]
pub extern "C" fn stun_types_next_covered_text(
    room: &[u8],
    written: usize,
    algorithm: u32,
    covered: &mut CCovered,
) -> CResult
    ensures reports { ReportsNext algorithm room.now written result covered.new }
    // the bytes that C then computes the HMAC of are those that the attribute covers
    ensures covers { result ≡ plain OK → (named : IntegrityAlgorithm)
        → algorithm_named algorithm ≡ Some named
        → hashed covered.new room.now ≡ signed_bytes (take written room.now) named }
{
    *covered = NOT_COVERED;
    let (Ok(point), Some(algorithm)) = (ResumePoint::check(room, written), algorithm_of(algorithm))
    else {
        return plain(codes::BAD_ARGUMENT);
    };
    match point.next_integrity_text(room, algorithm) {
        Ok(text) => {
            *covered = covered_by(&text);
            plain(codes::OK)
        }
        Err(error) => write_result(error),
    }
}

/// What is reported of the bytes that an integrity attribute covers at the end of a message,
/// whether or not it may be added.
fn covered_at_end(message: &[u8], algorithm: IntegrityAlgorithm) -> CCovered
    requires { 20 ≤ length message.now }
    ensures { result ≡ covered_by algorithm (signed_bytes message.now algorithm) }
{
    CCovered {
        algorithm: number_of(algorithm),
        first: beginning(message, message.len(), 4 + hmac_length(algorithm)),
        length: message.len() as u64,
    }
}

/// Whether two reports are equal.
fn is_same(one: &CCovered, other: &CCovered) -> bool
    ensures { result ≡ is_same one.now other.now }
{
    one.algorithm == other.algorithm && one.first == other.first && one.length == other.length
}

/// Signs what is written with an HMAC of what `stun_types_next_covered_text` reported.
#[unsafe(no_mangle)]
pub extern "C" fn stun_types_add_hmac(
    room: &mut [u8],
    written: &mut usize,
    covered: &CCovered,
    hmac: &CHmac,
) -> CResult
    ensures adds { AddsHmac covered.now hmac.now result
        (record { slice = room.old; count = written.old })
        (record { slice = room.new; count = written.new }) }
    // with the HMAC under a key, it is what `stun_types_add_integrity` makes of that key
    ensures keyed { (key : List ℕ) (named : Hmac) → hmac_named hmac.now ≡ Some named
        → hmac_bytes named ≡ integrity_value (take written.old room.old) key (hmac_algorithm named)
        → SignsGiven covered.now key (hmac_algorithm named) result
        (record { slice = room.old; count = written.old })
        (record { slice = room.new; count = written.new }) }
{
    let (Ok(point), Some(hmac)) = (ResumePoint::check(room, *written), hmac_of(hmac)) else {
        return plain(codes::BAD_ARGUMENT);
    };
    let now = covered_at_end(&room[..*written], hmac.algorithm());
    if !is_same(covered, &now) {
        return plain(codes::BAD_ARGUMENT);
    }
    let added = point.add_message_integrity_with_hmac(room, &hmac);
    store_length(added.map_err(write_result), written)
}
