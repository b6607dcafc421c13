//! What values are read as, and how they are printed.

ghost use Rattle.std.specs.Prelude.{◌≡◌, ℕ, Some, None, MatchOption, MatchResult, OnOk};
ghost use Rattle.stun_values.specs.Typed.{rule_fault, rule_text, value_fault, value_text};
ghost use Rattle.stun_values.specs.TypedValues.{typed_text};

use crate::{
    AlgorithmList, PasswordAlgorithmValue, Rule, check_hash_length, check_hmac_length, check_types,
    print_address, print_algorithm, print_error, print_hex, print_plain, print_quoted,
    print_types_in, print_xored, read_address, read_checksum, read_error, read_one, read_text,
    rule_of,
};
use std::net::SocketAddr;
use stun_base::{AttributeType, StunParseError};
use stun_text::TextSink;

/// What the value of a typed attribute was read as. It borrows the value.
#[derive(Clone, Copy)]
pub enum TypedValue<'a> {
    /// A text that is printed as it is.
    Plain(&'a str),
    /// A text that is printed in quotation marks.
    Quoted(&'a str),
    /// A code and a reason.
    ErrorCode(u16, &'a str),
    /// An HMAC or a hash.
    Bytes(&'a [u8]),
    /// A checksum, not XORed.
    Checksum([u8; 4]),
    /// A password algorithm.
    Algorithm(PasswordAlgorithmValue),
    /// A list of password algorithms.
    Algorithms(AlgorithmList<'a>),
    /// A list of attribute types, two bytes each.
    Types(&'a [u8]),
    /// An address.
    Address(SocketAddr),
    /// An address that was XORed, as it is written.
    XorAddress(SocketAddr),
}

impl Rule {
    /// Reads a value by this rule. It takes no memory.
    ///
    /// # Errors
    ///
    /// Those of the function that reads what the rule asks for.
    pub fn read<'a>(self, value: &'a [u8]) -> Result<TypedValue<'a>, StunParseError>
        ensures { MatchResult result
            (λ typed. (rule_fault self value.now ≡ None)
            × ((type : ℕ) → typed_text type typed ≡ rule_text self type value.now))
            (λ e. rule_fault self value.now ≡ Some e) }
    {
        match self {
            Rule::Plain(most) => Ok(TypedValue::Plain(read_text(value, most)?)),
            Rule::Quoted(most) => Ok(TypedValue::Quoted(read_text(value, most)?)),
            Rule::ErrorCode => {
                let (code, reason) = read_error(value)?;
                Ok(TypedValue::ErrorCode(code, reason))
            }
            Rule::Hmac(algorithm) => {
                check_hmac_length(algorithm, value.len())?;
                Ok(TypedValue::Bytes(value))
            }
            Rule::Hash => {
                check_hash_length(value.len())?;
                Ok(TypedValue::Bytes(value))
            }
            Rule::Checksum => Ok(TypedValue::Checksum(read_checksum(value)?)),
            Rule::Algorithm => Ok(TypedValue::Algorithm(read_one(value)?)),
            Rule::Algorithms => Ok(TypedValue::Algorithms(AlgorithmList::read(value)?)),
            Rule::Types => {
                check_types(value)?;
                Ok(TypedValue::Types(value))
            }
            Rule::Address => Ok(TypedValue::Address(read_address(value)?)),
            Rule::XorAddress => Ok(TypedValue::XorAddress(read_address(value)?)),
        }
    }
}

/// Reads the value of an attribute of this type; `None` if the type is not one of the fifteen.
/// It takes no memory.
///
/// # Errors
///
/// Those of reading the typed attribute, except `WrongAttributeImplementation` and `OutOfMemory`.
pub fn read_value<'a>(
    atype: AttributeType,
    value: &'a [u8],
) -> Option<Result<TypedValue<'a>, StunParseError>>
    ensures { MatchOption result
        (value_fault atype.0 value.now ≡ None)
        (λ read. MatchResult read
        (λ typed. (value_fault atype.0 value.now ≡ Some None)
        × (typed_text atype.0 typed ≡ value_text atype.0 value.now))
        (λ e. value_fault atype.0 value.now ≡ Some (Some e))) }
{
    match rule_of(atype) {
        Some(rule) => Some(rule.read(value)),
        None => None,
    }
}

impl TypedValue<'_> {
    /// Prints the value in an attribute of this type, as the typed attribute prints. It takes no
    /// memory.
    ///
    /// # Errors
    ///
    /// That of the sink.
    pub fn print<S: TextSink>(&self, sink: &mut S, atype: AttributeType) -> Result<(), S::Error>
        ensures { OnOk result (S.wrote sink.old (typed_text atype.0 self.now) sink.new) }
    {
        match self {
            TypedValue::Plain(text) => print_plain(sink, atype, text),
            TypedValue::Quoted(text) => print_quoted(sink, atype, text),
            TypedValue::ErrorCode(code, reason) => print_error(sink, *code, reason),
            TypedValue::Bytes(bytes) => print_hex(sink, atype, bytes),
            TypedValue::Checksum(checksum) => print_hex(sink, atype, checksum),
            TypedValue::Algorithm(algorithm) => print_algorithm(sink, *algorithm),
            TypedValue::Algorithms(list) => list.print(sink),
            TypedValue::Types(list) => print_types_in(sink, list),
            TypedValue::Address(addr) => print_address(sink, atype, *addr),
            TypedValue::XorAddress(addr) => print_xored(sink, atype, *addr),
        }
    }
}
