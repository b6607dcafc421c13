//! What a call returns.

ghost use Rattle.std.specs.Prelude.{◌≡◌};
ghost use Rattle.stun_types_c.specs.CResults.{plain, about, counted, parse_result, write_result, add_result, validate_result};

use crate::codes;
use stun_grammar::attribute_types::{FINGERPRINT, MESSAGE_INTEGRITY};
use stun_types::message::{AddError, StunParseError, StunWriteError, ValidateError};

/// What a call returns: `codes::OK`, or why it did nothing.
#[repr(C)]
#[derive(Clone, Copy, Drop)]
pub struct CResult {
    /// One of `codes`.
    pub code: u32,
    /// The type of the attribute that the code is about, or 0.
    pub atype: u32,
    /// How many bytes are needed or allowed, if the code says so; or 0.
    pub expected: u64,
    /// How many there are; or 0.
    pub actual: u64,
}

/// A code alone.
pub(crate) fn plain(code: u32) -> CResult
    ensures { result ≡ plain code }
{
    CResult {
        code,
        atype: 0,
        expected: 0,
        actual: 0,
    }
}

/// A code about an attribute of a type.
pub(crate) fn about(code: u32, atype: u16) -> CResult
    ensures { result ≡ about code atype }
{
    CResult {
        code,
        atype: u32::from(atype),
        expected: 0,
        actual: 0,
    }
}

/// A code with what is needed or allowed, and what there is.
pub(crate) fn counted(code: u32, expected: usize, actual: usize) -> CResult
    ensures { result ≡ counted code expected actual }
{
    CResult {
        code,
        atype: 0,
        expected: expected as u64,
        actual: actual as u64,
    }
}

/// Why bytes aren't read.
pub(crate) fn parse_result(error: StunParseError) -> CResult
    ensures { result ≡ parse_result error }
{
    match error {
        StunParseError::NotStun => plain(codes::NOT_STUN),
        StunParseError::Truncated { expected, actual } => {
            counted(codes::TRUNCATED, expected, actual)
        }
        StunParseError::TooLarge { expected, actual } => {
            counted(codes::TOO_LARGE, expected, actual)
        }
        StunParseError::MissingAttribute(atype) => about(codes::MISSING_ATTRIBUTE, atype.0),
        StunParseError::FingerprintMismatch => plain(codes::FINGERPRINT_MISMATCH),
        StunParseError::OutOfMemory => plain(codes::OUT_OF_MEMORY),
        StunParseError::AttributeAfterIntegrity(_)
        | StunParseError::AttributeAfterFingerprint(_)
        | StunParseError::DataMismatch
        | StunParseError::InvalidAttributeData
        | StunParseError::WrongAttributeImplementation => plain(codes::INVALID_DATA),
    }
}

/// Why an attribute or a message isn't made or written.
pub(crate) fn write_result(error: StunWriteError) -> CResult
    ensures { result ≡ write_result error }
{
    match error {
        StunWriteError::AttributeExists(atype) => about(codes::EXISTS, atype.0),
        StunWriteError::FingerprintExists => about(codes::EXISTS, FINGERPRINT),
        StunWriteError::MessageIntegrityExists => about(codes::EXISTS, MESSAGE_INTEGRITY),
        StunWriteError::TooLarge { expected, actual } => {
            counted(codes::TOO_LARGE, expected, actual)
        }
        StunWriteError::TooSmall { expected, actual } => {
            counted(codes::TOO_SMALL, expected, actual)
        }
        StunWriteError::IntegrityFailed => plain(codes::INVALID_DATA),
        StunWriteError::OutOfRange { value, min: _, max } => {
            counted(codes::OUT_OF_RANGE, max, value)
        }
        StunWriteError::OutOfMemory => plain(codes::OUT_OF_MEMORY),
    }
}

/// Why an attribute of any type isn't added.
pub(crate) fn add_result(error: AddError) -> CResult
    ensures { result ≡ add_result error }
{
    match error {
        AddError::EndingType(atype) => about(codes::ENDING_TYPE, atype.0),
        AddError::Write(error) => write_result(error),
    }
}

/// Why a message isn't valid.
pub(crate) fn validate_result(error: ValidateError) -> CResult
    ensures { result ≡ validate_result error }
{
    match error {
        ValidateError::Parse(error) => parse_result(error),
        ValidateError::IntegrityFailed => plain(codes::INTEGRITY_FAILED),
    }
}
