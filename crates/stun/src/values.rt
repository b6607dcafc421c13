//! Which values are not what their types ask for.

ghost use Rattle.std.specs.Prelude.{◌≡◌, ◌≤◌, ◌/◌, Some, None, MatchResult, length};
ghost use Rattle.stun_grammar.specs.Lengths.{exact_fault};
ghost use Rattle.stun_values.specs.Addresses.{address_fault};
ghost use Rattle.stun_values.specs.ErrorValues.{error_fault};
ghost use Rattle.stun_values.specs.TextValues.{text_fault};
ghost use Rattle.discovery_attrs.specs.Discovery.{response_port_fault};
ghost use Rattle.turn_attrs.specs.Turn.{address_error_fault};
ghost use Rattle.stun.specs.Values.{number_in, outside_fault, number_fault, form_fault, no_entries_fault, parameters_fault, parameters_within, one_fault, list_fault, known_form_fault, known_fault, fault_of};

use byteorder::{BigEndian, ByteOrder};
use discovery_attrs::attribute_types::RESPONSE_PORT;
use ice_attrs::attribute_types::USE_CANDIDATE;
use stun_base::number_at;
use stun_grammar::attribute_types::{PASSWORD_ALGORITHM, PASSWORD_ALGORITHMS};
use stun_plain_text::value_form;
use stun_types::attribute::{AttributeType, ValueForm};
use stun_types::message::StunParseError;
use stun_values::{check_length, read_address, read_error, read_text, read_value};
use turn_attrs::attribute_types::{ADDRESS_ERROR_CODE, DONT_FRAGMENT, THIRD_PARTY_AUTHORIZATION};

/// The number in the first octets of a value, 1 to 8 of them, if it has so many.
pub fn number_in(value: &[u8], width: usize) -> Option<u64>
    ensures { result ≡ number_in width value.now }
{
    if 1 <= width && width <= 8 && width <= value.len() {
        Some(BigEndian::read_uint(value, width))
    } else {
        None
    }
}

/// Why a value doesn't have `wanted` octets.
fn length_fault(value: &[u8], wanted: usize) -> Option<StunParseError>
    ensures { result ≡ exact_fault wanted (length value.now) }
{
    match check_length(value, wanted) {
        Ok(()) => None,
        Err(error) => Some(error),
    }
}

/// Why a value doesn't begin with a number of `width` octets from `least` to `greatest`.
fn outside_fault(value: &[u8], width: usize, least: u64, greatest: u64) -> Option<StunParseError>
    ensures { result ≡ outside_fault width least greatest value.now }
{
    let Some(number) = number_in(value, width) else {
        return Some(StunParseError::InvalidAttributeData);
    };
    if least <= number && number <= greatest {
        None
    } else {
        Some(StunParseError::InvalidAttributeData)
    }
}

/// Why a value doesn't have `count` octets that begin with such a number.
fn number_fault(
    value: &[u8],
    width: usize,
    count: usize,
    least: u64,
    greatest: u64,
) -> Option<StunParseError>
    ensures { result ≡ number_fault width count least greatest value.now }
{
    match check_length(value, count) {
        Ok(()) => outside_fault(value, width, least, greatest),
        Err(error) => Some(error),
    }
}

/// Why a value isn't an address.
fn address_fault(value: &[u8]) -> Option<StunParseError>
    ensures { result ≡ address_fault value.now }
{
    match read_address(value) {
        Ok(_) => None,
        Err(error) => Some(error),
    }
}

/// Why a value doesn't have a form.
fn form_fault(form: ValueForm, value: &[u8]) -> Option<StunParseError>
    ensures { result ≡ form_fault form value.now }
{
    match form {
        ValueForm::Number {
            width,
            least,
            greatest,
        } => number_fault(value, width, width, least, greatest),
        ValueForm::PaddedNumber {
            width,
            least,
            greatest,
        } => number_fault(value, width, 4, least, greatest),
        ValueForm::Octets { width } => length_fault(value, width),
        ValueForm::Address | ValueForm::XorAddress => address_fault(value),
        ValueForm::Other => None,
    }
}

/// Why a value doesn't have the form of the values of its type. A type that isn't known asks for
/// nothing.
fn known_form_fault(atype: u16, value: &[u8]) -> Option<StunParseError>
    ensures { result ≡ known_form_fault atype value.now }
{
    match value_form(atype) {
        Some(form) => form_fault(form, value),
        None => None,
    }
}

/// Why the library refuses a value of a type, or why it doesn't have the form of these values.
fn known_fault(atype: AttributeType, value: &[u8]) -> Option<StunParseError>
    ensures { result ≡ known_fault atype.0 value.now }
{
    match read_value(atype, value) {
        Some(Ok(_)) => None,
        Some(Err(error)) => Some(error),
        None => known_form_fault(atype.value(), value),
    }
}

/// Why a value isn't a RESPONSE-PORT: two octets, or four.
fn port_fault(value: &[u8]) -> Option<StunParseError>
    ensures { result ≡ response_port_fault value.now }
{
    if value.len() == 2 {
        return None;
    }
    length_fault(value, 4)
}

/// Why a value isn't an ERROR-CODE.
fn error_fault(value: &[u8]) -> Option<StunParseError>
    ensures { result ≡ error_fault value.now }
{
    match read_error(value) {
        Ok(_) => None,
        Err(error) => Some(error),
    }
}

/// Why a value isn't an ADDRESS-ERROR-CODE: an address family, then as an ERROR-CODE.
fn address_error_fault(value: &[u8]) -> Option<StunParseError>
    ensures { result ≡ address_error_fault value.now }
{
    if value.len() < 4 {
        return Some(StunParseError::Truncated {
            expected: 4,
            actual: value.len(),
        });
    }
    match value[0] {
        1 | 2 => error_fault(value),
        _ => Some(StunParseError::InvalidAttributeData),
    }
}

/// Why a value isn't a text.
fn text_fault(value: &[u8]) -> Option<StunParseError>
    ensures { result ≡ text_fault 65535 value.now }
{
    match read_text(value, 65535) {
        Ok(_) => None,
        Err(error) => Some(error),
    }
}

/// Checks that a value is made of entries of four octets, and isn't empty.
fn check_entries(value: &[u8]) -> Result<(), StunParseError>
    ensures { MatchResult result
        (λ _. (no_entries_fault value.now ≡ None) × (4 ≤ length value.now))
        (λ e. no_entries_fault value.now ≡ Some e) }
{
    if value.len() < 4 {
        return Err(StunParseError::Truncated {
            expected: 4,
            actual: value.len(),
        });
    }
    if value.len() % 4 != 0 {
        return Err(StunParseError::InvalidAttributeData);
    }
    Ok(())
}

/// Checks that the password algorithm at the start of a value has no parameters. It may be one that
/// isn't known (RFC 8489, section 14.11).
fn check_parameters(value: &[u8]) -> Result<(), StunParseError>
    requires { 4 ≤ length value.now }
    ensures { MatchResult result
        (λ _. parameters_fault value.now ≡ None) (λ e. parameters_fault value.now ≡ Some e) }
{
    let parameters = number_at(value, 2) as usize;
    if parameters != 0 {
        return Err(StunParseError::TooLarge {
            expected: 4,
            actual: 4 + parameters,
        });
    }
    Ok(())
}

/// Checks that no entry has parameters.
fn check_each(value: &[u8]) -> Result<(), StunParseError>
    ensures { MatchResult result
        (λ _. parameters_within (length value.now / 4) value.now ≡ None)
        (λ e. parameters_within (length value.now / 4) value.now ≡ Some e) }
{
    for i in 0..value.len() / 4 {
        check_parameters(&value[4 * i..])?;
    }
    Ok(())
}

/// Why an entry of a value is no password algorithm.
fn within_fault(value: &[u8]) -> Option<StunParseError>
    ensures { result ≡ parameters_within (length value.now / 4) value.now }
{
    match check_each(value) {
        Ok(()) => None,
        Err(error) => Some(error),
    }
}

/// Why the first entry of a value is no password algorithm.
fn first_fault(value: &[u8]) -> Option<StunParseError>
    requires { 4 ≤ length value.now }
    ensures { result ≡ parameters_fault value.now }
{
    match check_parameters(value) {
        Ok(()) => None,
        Err(error) => Some(error),
    }
}

/// Why a value isn't a PASSWORD-ALGORITHM: an entry, after which anything may follow.
fn one_fault(value: &[u8]) -> Option<StunParseError>
    ensures { result ≡ one_fault value.now }
{
    match check_entries(value) {
        Ok(()) => first_fault(value),
        Err(error) => Some(error),
    }
}

/// Why a value isn't a PASSWORD-ALGORITHMS: any number of entries, but not none.
fn list_fault(value: &[u8]) -> Option<StunParseError>
    ensures { result ≡ list_fault value.now }
{
    match check_entries(value) {
        Ok(()) => within_fault(value),
        Err(error) => Some(error),
    }
}

/// Why a value isn't what its type asks for: `docs/PROTOCOL.md` has the rules. `None` if it is.
#[tactic(auto, unfolding(crate::specs::Values::fault_of))]
pub fn fault_of(atype: AttributeType, value: &[u8]) -> Option<StunParseError>
    ensures { result ≡ fault_of atype.0 value.now }
{
    match atype.value() {
        PASSWORD_ALGORITHM => one_fault(value),
        PASSWORD_ALGORITHMS => list_fault(value),
        RESPONSE_PORT => port_fault(value),
        ADDRESS_ERROR_CODE => address_error_fault(value),
        THIRD_PARTY_AUTHORIZATION => text_fault(value),
        USE_CANDIDATE | DONT_FRAGMENT => length_fault(value, 0),
        _ => known_fault(atype, value),
    }
}
