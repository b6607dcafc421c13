ghost use Rattle.std.specs.Prelude.{◌≡◌, ◌≤◌, length};
ghost use Rattle.std.specs.String.{string_bytes};
ghost use Rattle.stun_values.specs.TextValues.{text_max};

use crate::wire::{EncodeValue, ReadValue, TypedAttribute};
use std::alloc::Global;
use std::fmt;
use stun_base::{StunParseError, StunWriteError};
use stun_grammar::attribute_types;
use stun_text::{PrintText, TextSink};
use stun_values::{check_error, print_error, read_error, write_error};

/// ERROR-CODE: why a request failed, as a code of 300 to 699 and a reason of at most 763 bytes of
/// UTF-8 (RFC 8489, section 14.8).
///
/// Its value has two zeros, the class of the code (its hundreds) in a byte, its number (0 to 99) in
/// a byte, and the reason.
#[derive(Debug, PartialEq, Eq, Drop)]
pub struct ErrorCode {
    code: u16,
    reason: String,
    ghost least: { 300 ≤ code },
    ghost most: { code ≤ 699 },
    ghost short: { length (string_bytes reason) ≤ text_max },
}

/// The code and the reason of an [`ErrorCode`] that is to be made.
#[derive(Debug, Drop)]
pub struct ErrorCodeBuilder<'reason> {
    code: u16,
    reason: Option<&'reason str>,
}

impl<'reason> ErrorCodeBuilder<'reason> {
    ghost use Rattle.stun_attributes.specs.ErrorCodes.{builder_code, builder_reason, MakesError};

    /// Sets the reason of the ERROR-CODE.
    pub fn reason(self, reason: &'reason str) -> Self
        ensures code { builder_code result ≡ builder_code self.entry }
        ensures reason { builder_reason result ≡ reason.now }
    {
        ErrorCodeBuilder {
            code: self.code,
            reason: Some(reason),
        }
    }

    /// Makes the ERROR-CODE, with the default reason of the code if no reason was set. The reason
    /// is copied into memory from `alloc`.
    ///
    /// # Errors
    ///
    /// As [`ErrorCode::new`].
    ///
    /// # Examples
    ///
    /// ```
    /// use stun_types::attribute::ErrorCode;
    ///
    /// let error = ErrorCode::builder(ErrorCode::STALE_NONCE).build(alloc)?;
    /// assert_eq!(rt; error.reason(), "Stale Nonce");
    /// let error = ErrorCode::builder(ErrorCode::STALE_NONCE).reason("too old").build(alloc)?;
    /// assert_eq!(rt; error.reason(), "too old");
    /// ```
    pub fn build(self, alloc: Global) -> Result<ErrorCode, StunWriteError>
        ensures { MakesError (builder_code self.entry) (builder_reason self.entry) result }
    {
        match self.reason {
            Some(reason) => ErrorCode::new(alloc, self.code, reason),
            None => {
                let reason = ErrorCode::default_reason_for_code(self.code);
                ErrorCode::new(alloc, self.code, reason)
            }
        }
    }
}

impl ErrorCode {
    ghost use Rattle.std.specs.Prelude.{IfOk, IfErr};
    ghost use Rattle.stun_attributes.specs.DefaultReasons.{default_reason};
    ghost use Rattle.stun_attributes.specs.ErrorCodes.{error_code, error_reason, builder_code, builder_reason, IsError, MakesError};

    /// The client is to try another server.
    pub const TRY_ALTERNATE: u16 = 300;
    /// The request was malformed.
    pub const BAD_REQUEST: u16 = 400;
    /// The request lacks the right credentials.
    pub const UNAUTHORIZED: u16 = 401;
    /// The request is not allowed (RFC 8656).
    pub const FORBIDDEN: u16 = 403;
    /// The request has a comprehension-required attribute that the server did not understand.
    pub const UNKNOWN_ATTRIBUTE: u16 = 420;
    /// The five-tuple has an allocation already, or has none (RFC 8656).
    pub const ALLOCATION_MISMATCH: u16 = 437;
    /// The nonce is no longer valid.
    pub const STALE_NONCE: u16 = 438;
    /// The address family is not served (RFC 8656).
    pub const ADDRESS_FAMILY_NOT_SUPPORTED: u16 = 440;
    /// The credentials differ from those with which the allocation was made (RFC 8656).
    pub const WRONG_CREDENTIALS: u16 = 441;
    /// The transport is not served (RFC 8656).
    pub const UNSUPPORTED_TRANSPORT_PROTOCOL: u16 = 442;
    /// The peer's address has another family (RFC 8656).
    pub const PEER_ADDRESS_FAMILY_MISMATCH: u16 = 443;
    /// A connection to the peer exists already (RFC 6062).
    pub const CONNECTION_ALREADY_EXISTS: u16 = 446;
    /// A connection to the peer failed (RFC 6062).
    pub const CONNECTION_TIMEOUT_OR_FAILURE: u16 = 447;
    /// The user has no allocations left (RFC 8656).
    pub const ALLOCATION_QUOTA_REACHED: u16 = 486;
    /// Both agents are controlling, or both are controlled (RFC 8445).
    pub const ROLE_CONFLICT: u16 = 487;
    /// The server failed for a while.
    pub const SERVER_ERROR: u16 = 500;
    /// The server has no capacity left (RFC 8656).
    pub const INSUFFICIENT_CAPACITY: u16 = 508;

    /// A builder of an ERROR-CODE with the code `code`, so far without a reason.
    ///
    /// # Examples
    ///
    /// ```
    /// use stun_types::attribute::ErrorCode;
    ///
    /// let error = ErrorCode::builder(400).reason("No realm").build(alloc)?;
    /// assert_eq!(rt; error.code(), 400);
    /// assert_eq!(rt; error.reason(), "No realm");
    /// ```
    pub fn builder<'reason>(code: u16) -> ErrorCodeBuilder<'reason>
        ensures code { builder_code result ≡ code }
        ensures reason { builder_reason result ≡ default_reason code }
    {
        ErrorCodeBuilder { code, reason: None }
    }

    /// An ERROR-CODE with the code `code` and the reason `reason`, which is copied into memory from
    /// `alloc`.
    ///
    /// # Errors
    ///
    /// `OutOfRange { value, min: 300, max: 699 }` if the code is below 300 or above 699, then
    /// `TooLarge { expected: 763, actual }` if the reason has more than 763 bytes, and
    /// `OutOfMemory` if an allocation failed.
    ///
    /// # Examples
    ///
    /// ```
    /// use stun_types::attribute::ErrorCode;
    /// use stun_types::message::StunWriteError;
    ///
    /// let error = ErrorCode::new(alloc, 486, "Allocation Quota Reached")?;
    /// assert_eq!(rt; error.code(), 486);
    /// let refused = StunWriteError::OutOfRange { value: 700, min: 300, max: 699 };
    /// assert_eq!(rt; ErrorCode::new(alloc, 700, "").err(), Some(refused));
    /// ```
    pub fn new(alloc: Global, code: u16, reason: &str) -> Result<Self, StunWriteError>
        ensures { MakesError code reason.now result }
    {
        check_error(code, reason.as_bytes())?;
        let reason = String::from_str(alloc, reason)?;
        Ok(ErrorCode { code, reason })
    }

    /// Copies the ERROR-CODE: the reason of the copy is in memory from `alloc`.
    ///
    /// # Errors
    ///
    /// `OutOfMemory` if an allocation failed.
    pub fn clone(&self, alloc: Global) -> Result<Self, StunWriteError>
        ensures same { IfOk result (IsError (error_code self.now) (error_reason self.now)) }
        ensures err { IfErr result (λ e. e ≡ StunWriteError.OutOfMemory) }
    {
        let reason = String::from_str(alloc, self.reason())?;
        Ok(ErrorCode {
            code: self.code,
            reason,
        })
    }

    /// The code of the error, 300 to 699.
    ///
    /// # Examples
    ///
    /// ```
    /// use stun_types::attribute::ErrorCode;
    ///
    /// assert_eq!(rt; ErrorCode::new(alloc, 401, "Unauthorized")?.code(), 401);
    /// ```
    pub fn code(&self) -> u16
        ensures code { result ≡ error_code self.now }
        ensures least { 300 ≤ result }
        ensures most { result ≤ 699 }
    {
        self.code
    }

    /// The reason of the error: a text for people.
    ///
    /// # Examples
    ///
    /// ```
    /// use stun_types::attribute::ErrorCode;
    ///
    /// assert_eq!(rt; ErrorCode::new(alloc, 401, "Who is it?")?.reason(), "Who is it?");
    /// ```
    pub fn reason(&self) -> &str
        ensures reason { result.now ≡ error_reason self.now }
        ensures short { length result.now ≤ text_max }
    {
        self.reason.as_str()
    }

    /// The default reason of a code: that of this table, and `Unknown` for every other number.
    ///
    /// | Code | Reason |
    /// |---|---|
    /// | 300 | `Try Alternate` |
    /// | 400 | `Bad Request` |
    /// | 401 | `Unauthorized` |
    /// | 403 | `Forbidden` |
    /// | 420 | `Unknown Attribute` |
    /// | 437 | `Allocation Mismatch` |
    /// | 438 | `Stale Nonce` |
    /// | 440 | `Address Family Not Supported` |
    /// | 441 | `Wrong Credentials` |
    /// | 442 | `Unsupported Transport Protocol` |
    /// | 443 | `Peer Address Family Mismatch` |
    /// | 446 | `Connection Already Exists` |
    /// | 447 | `Connection Timeout or Failure` |
    /// | 486 | `Allocation Quota Reached` |
    /// | 487 | `Role Conflict` |
    /// | 500 | `Server Error` |
    /// | 508 | `Insufficient Capacity` |
    ///
    /// # Examples
    ///
    /// ```
    /// use stun_types::attribute::ErrorCode;
    ///
    /// assert_eq!(rt; ErrorCode::default_reason_for_code(487), "Role Conflict");
    /// assert_eq!(rt; ErrorCode::default_reason_for_code(699), "Unknown");
    /// ```
    pub fn default_reason_for_code(code: u16) -> &'static str
        ensures { result.now ≡ default_reason code }
    {
        match code {
            300 => "Try Alternate",
            400 => "Bad Request",
            401 => "Unauthorized",
            403 => "Forbidden",
            420 => "Unknown Attribute",
            437 => "Allocation Mismatch",
            438 => "Stale Nonce",
            440 => "Address Family Not Supported",
            441 => "Wrong Credentials",
            442 => "Unsupported Transport Protocol",
            443 => "Peer Address Family Mismatch",
            446 => "Connection Already Exists",
            447 => "Connection Timeout or Failure",
            486 => "Allocation Quota Reached",
            487 => "Role Conflict",
            500 => "Server Error",
            508 => "Insufficient Capacity",
            _ => "Unknown",
        }
    }
}

impl TypedAttribute for ErrorCode {
    ghost use Rattle.stun_grammar.specs.AttributeTypes.{ERROR_CODE};

    ghost NUMBER = { ERROR_CODE };

    const NUMBER: u16 = attribute_types::ERROR_CODE;
}

impl EncodeValue for ErrorCode {
    ghost use Rattle.stun_values.specs.ErrorValues.{error_value};
    ghost use Rattle.stun_attributes.specs.ErrorCodes.{error_code, error_reason};

    ghost bytes = { λ attribute. error_value (error_code attribute) (error_reason attribute) };

    fn value_length(&self) -> u16 {
        4 + self.reason().len() as u16
    }

    fn write_value(&self, dest: &mut [u8]) {
        write_error(self.code(), self.reason().as_bytes(), dest);
    }

    fn held_bytes(&self) -> Option<&[u8]> {
        None
    }
}

/// Reading reports the first of these: fewer than
/// four bytes as `Truncated { expected: 4, actual }`; more than 767 as
/// `TooLarge { expected: 767, actual }`; a class other than 3 to 6, a number above 99, or a reason
/// that isn't UTF-8 as `InvalidAttributeData`; and a failed allocation as `OutOfMemory`, since the
/// reason is kept in memory from `alloc`. The first two bytes and the high five bits of the third
/// are ignored.
impl ReadValue for ErrorCode {
    ghost use Rattle.stun_attributes.specs.ErrorCodes.{ReadsError};

    ghost reads_value = { ReadsError };

    fn read_value(alloc: Global, value: &[u8]) -> Result<Self, StunParseError> {
        let (code, reason) = read_error(value)?;
        let reason = String::from_str(alloc, reason)?;
        Ok(ErrorCode { code, reason })
    }
}

impl PrintText for ErrorCode {
    ghost use Rattle.stun_values.specs.ErrorValues.{error_text};
    ghost use Rattle.stun_attributes.specs.ErrorCodes.{error_code, error_reason};

    ghost text = { λ attribute. error_text (error_code attribute) (error_reason attribute) };

    fn print<S: TextSink>(&self, sink: &mut S) -> Result<(), S::Error> {
        print_error(sink, self.code(), self.reason())
    }
}

/// The type, the code and the reason: `9(0x9: ERROR-CODE): 420 'Unknown Attribute'`.
impl fmt::Display for ErrorCode {
    ghost use Rattle.std.specs.Prelude.{Some};
    ghost use Rattle.stun_values.specs.ErrorValues.{error_text};
    ghost use Rattle.stun_attributes.specs.ErrorCodes.{error_code, error_reason};

    ghost output = { λ attribute.
        Some (error_text (error_code attribute) (error_reason attribute)) };

    fn fmt<W: fmt::Write>(&self, f: &mut fmt::Formatter<W>) -> fmt::Result {
        self.print(f)
    }
}
