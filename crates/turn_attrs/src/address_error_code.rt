use crate::attribute_types;
use crate::family::{family_from_byte, family_to_byte};
use std::alloc::Global;
use std::fmt;
use stun_types::attribute::{EncodeValue, ErrorCode, ReadValue, TypedAttribute};
use stun_types::message::StunParseError;
use stun_types::{AddressFamily, PrintText, TextSink};

/// ADDRESS-ERROR-CODE: why the server did not allocate an address of a family (RFC 8656, section
/// 18.12). The value is the family in a byte, 1 for IPv4 and 2 for IPv6, and then that of an
/// [`ErrorCode`] from its second byte on: a zero, the class, the number, and the reason.
#[derive(Debug, PartialEq, Eq, Drop)]
pub struct AddressErrorCode {
    family: AddressFamily,
    error: ErrorCode,
}

impl AddressErrorCode {
    ghost use Rattle.std.specs.Prelude.{◌≡◌};
    ghost use Rattle.turn_attrs.specs.Turn.{failed_error, failed_family};

    /// Makes the attribute of this family, code and reason.
    ///
    /// # Examples
    ///
    /// ```
    /// use stun_types::AddressFamily;
    /// use stun_types::attribute::ErrorCode;
    /// use stun_types::prelude::*;
    /// use turn_attrs::{AddressErrorCode, error_codes};
    ///
    /// let code = error_codes::ADDRESS_FAMILY_NOT_SUPPORTED;
    /// let reason = error_codes::reason(code).ok_or("no reason")?;
    /// let error = ErrorCode::new(alloc, code, reason)?;
    /// let attribute = AddressErrorCode::new(AddressFamily::IPV6, error);
    /// let mut bytes = [0; 36];
    /// assert_eq!(rt; attribute.write_into(&mut bytes), Ok(36));
    /// assert_eq!(rt; &bytes, b"\x80\x01\x00\x20\x02\x00\x04\x28Address Family Not Supported");
    /// ```
    pub fn new(family: AddressFamily, error: ErrorCode) -> Self
        ensures family { failed_family result ≡ family }
        ensures error { failed_error result ≡ error }
    {
        AddressErrorCode { family, error }
    }

    /// Returns the family of which no address was allocated.
    pub fn family(&self) -> AddressFamily
        ensures { result ≡ failed_family self.now }
    {
        self.family
    }

    /// Returns the error code, with its reason.
    pub fn error(&self) -> &ErrorCode
        ensures { result.now ≡ failed_error self.now }
    {
        &self.error
    }
}

impl TypedAttribute for AddressErrorCode {
    ghost use Rattle.turn_attrs.specs.Turn.{ADDRESS_ERROR_CODE};

    ghost NUMBER = { ADDRESS_ERROR_CODE };

    const NUMBER: u16 = attribute_types::ADDRESS_ERROR_CODE;
}

impl EncodeValue for AddressErrorCode {
    ghost use Rattle.turn_attrs.specs.Turn.{address_error_value};

    ghost bytes = { address_error_value };

    fn value_length(&self) -> u16 {
        self.error.value_length()
    }

    fn write_value(&self, dest: &mut [u8]) {
        self.error.write_value(dest);
        dest[0] = family_to_byte(self.family);
    }

    fn held_bytes(&self) -> Option<&[u8]> {
        None
    }
}

/// Reading reports the first of these: fewer than four bytes as
/// `Truncated { expected: 4, actual }`; a family that is neither 1 nor 2 as `InvalidAttributeData`;
/// and then what reading an [`ErrorCode`] reports, which keeps the reason in memory from `alloc`.
impl ReadValue for AddressErrorCode {
    ghost use Rattle.turn_attrs.specs.Turn.{ReadsAddressError};

    ghost reads_value = { ReadsAddressError };

    fn read_value(alloc: Global, value: &[u8]) -> Result<Self, StunParseError> {
        if value.len() < 4 {
            return Err(StunParseError::Truncated {
                expected: 4,
                actual: value.len(),
            });
        }
        let Some(family) = family_from_byte(value[0]) else {
            return Err(StunParseError::InvalidAttributeData);
        };
        let error = ErrorCode::read_value(alloc, value)?;
        Ok(AddressErrorCode::new(family, error))
    }
}

impl PrintText for AddressErrorCode {
    ghost use Rattle.std.specs.Prelude.{codes, ◌++◌};
    ghost use Rattle.stun_base.specs.Transports.{family_name};
    ghost use Rattle.turn_attrs.specs.Turn.{address_error_text, failed_family};

    ghost text = { λ attribute. codes "ADDRESS-ERROR-CODE: "
        ++ family_name (failed_family attribute) ++ codes " " ++ address_error_text attribute };

    fn print<S: TextSink>(&self, sink: &mut S) -> Result<(), S::Error> {
        sink.put("ADDRESS-ERROR-CODE: ")?;
        self.family.print(sink)?;
        sink.put(" ")?;
        self.error.code().print(sink)?;
        sink.put(" '")?;
        sink.put(self.error.reason())?;
        sink.put("'")?;
        Ok(())
    }
}

/// The family, the code and the reason: `ADDRESS-ERROR-CODE: IPV6 440 'Address Family Not
/// Supported'`.
impl fmt::Display for AddressErrorCode {
    ghost use Rattle.std.specs.Prelude.{Some, codes, ◌++◌};
    ghost use Rattle.stun_base.specs.Transports.{family_name};
    ghost use Rattle.turn_attrs.specs.Turn.{address_error_text, failed_family};

    ghost output = { λ attribute. Some (codes "ADDRESS-ERROR-CODE: "
        ++ family_name (failed_family attribute) ++ codes " " ++ address_error_text attribute) };

    fn fmt<W: fmt::Write>(&self, f: &mut fmt::Formatter<W>) -> fmt::Result {
        self.print(f)
    }
}
