use crate::AttributeType;
use std::alloc::AllocError;
use thiserror::Error;

/// The error of bytes that are not a STUN message, or not the expected attribute.
///
/// `expected` and `actual` count bytes: `expected` is how many are needed (`Truncated`) or allowed
/// (`TooLarge`), and `actual` is how many there are. If the header of an attribute in a message
/// is cut off, both are 4 more than that.
///
/// # Examples
///
/// ```
/// use stun_types::message::{Message, StunParseError};
///
/// assert_eq!(rt; Message::from_bytes(b"GET / HTTP/1.1").err(), Some(StunParseError::NotStun));
/// let short = Message::from_bytes(&[0, 1, 0, 0]).err();
/// assert_eq!(rt; short, Some(StunParseError::Truncated { expected: 20, actual: 4 }));
/// ```
#[derive(Clone, Copy, Debug, PartialEq, Eq, Error)]
pub enum StunParseError {
    /// The bytes do not begin a STUN message, whatever bytes may follow them.
    #[error("The provided data is not a STUN message")]
    NotStun,
    /// Bytes are missing: there are fewer than are needed.
    #[error("Not enough data available to parse the packet, expected {expected}, actual {actual}")]
    Truncated {
        /// How many bytes are needed.
        expected: usize,
        /// How many there are.
        actual: usize,
    },
    /// The value has more bytes than are allowed.
    #[error("Too many bytes for this data, expected {expected}, actual {actual}")]
    TooLarge {
        /// How many bytes are allowed.
        expected: usize,
        /// How many there are.
        actual: usize,
    },
    /// The message shows no attribute of the type that was looked up.
    #[error("Missing attribute {0}")]
    MissingAttribute(AttributeType),
    /// An attribute follows an integrity attribute. No function of this library returns it.
    #[error("An attribute {0} was encountered after a message integrity attribute")]
    AttributeAfterIntegrity(AttributeType),
    /// An attribute follows a FINGERPRINT. No function of this library returns it.
    #[error("An attribute {0} was encountered after a fingerprint attribute")]
    AttributeAfterFingerprint(AttributeType),
    /// The value of a FINGERPRINT does not match the message before it.
    #[error("Fingerprint does not match")]
    FingerprintMismatch,
    /// The bytes are not those of the message. No function of this library returns it.
    #[error("The provided data does not match the message")]
    DataMismatch,
    /// The value is neither too short nor too long, but it is not valid for its type.
    #[error("The attribute contains invalid data")]
    InvalidAttributeData,
    /// The attribute is not of the type that was to be read.
    #[error("Cannot parse with this attribute")]
    WrongAttributeImplementation,
    /// An allocation failed while a value was read or a key was made.
    #[error("Out of memory")]
    OutOfMemory,
}

/// The error of an attribute or a message that is not made or not written.
///
/// `expected` and `actual` count bytes. For an UNKNOWN-ATTRIBUTES and a PASSWORD-ALGORITHMS, which
/// are made of a list, they count its entries.
#[derive(Clone, Copy, Debug, PartialEq, Eq, Error)]
pub enum StunWriteError {
    /// The message already has an attribute of the type that is given, which the new one may not
    /// follow.
    #[error("The attribute already exists in the message")]
    AttributeExists(AttributeType),
    /// The message already has a FINGERPRINT, which no attribute may follow.
    #[error("The message already contains a fingerprint attribute")]
    FingerprintExists,
    /// The message already has an integrity attribute, which no ordinary attribute may follow.
    #[error("The message already contains a message intregrity attribute")]
    MessageIntegrityExists,
    /// The message or the value would have more bytes than are allowed, or the list more entries.
    #[error("Too many bytes for this data, expected {expected}, actual {actual}")]
    TooLarge {
        /// How many bytes or entries are allowed.
        expected: usize,
        /// How many there would be.
        actual: usize,
    },
    /// There are fewer bytes than are needed.
    #[error("Not enough data available to parse the packet, expected {expected}, actual {actual}")]
    TooSmall {
        /// How many bytes are needed.
        expected: usize,
        /// How many there are.
        actual: usize,
    },
    /// The bytes cannot be the value of an integrity attribute, or the key was made for another
    /// algorithm than the one that signs. An error of reading that has no counterpart here is
    /// converted to this one.
    #[error("Failed to compute integrity")]
    IntegrityFailed,
    /// A number is below the least one allowed, or above the greatest.
    #[error("Out of range input provided")]
    OutOfRange {
        /// The number.
        value: usize,
        /// The least number allowed.
        min: usize,
        /// The greatest number allowed.
        max: usize,
    },
    /// An allocation failed while a value, a key or a message was made.
    #[error("Out of memory")]
    OutOfMemory,
}

/// An allocation that failed, so that `?` passes it on. `OutOfMemory` is made nowhere else.
impl From<AllocError> for StunParseError {
    ghost use Rattle.std.specs.Prelude.{◌≡◌};
    ghost use Rattle.stun_grammar.specs.declared.error.StunParseError.TheVariants.{OutOfMemory};

    ghost from_gives = { λ _ error. error ≡ OutOfMemory };

    fn from(_failed: AllocError) -> Self {
        StunParseError::OutOfMemory
    }
}

/// An allocation that failed, so that `?` passes it on. `OutOfMemory` is made nowhere else.
impl From<AllocError> for StunWriteError {
    ghost use Rattle.std.specs.Prelude.{◌≡◌};
    ghost use Rattle.stun_grammar.specs.declared.error.StunWriteError.TheVariants.{OutOfMemory};

    ghost from_gives = { λ _ error. error ≡ OutOfMemory };

    fn from(_failed: AllocError) -> Self {
        StunWriteError::OutOfMemory
    }
}

/// The error of writing that says the same, so that `?` passes on an error of reading.
///
/// `TooLarge` and `OutOfMemory` are kept with their fields, and `Truncated` becomes `TooSmall` with
/// the same fields. `AttributeAfterIntegrity` becomes `MessageIntegrityExists`, and
/// `AttributeAfterFingerprint` becomes `FingerprintExists`. The others say that the bytes are not
/// valid, and become `IntegrityFailed`.
///
/// # Examples
///
/// ```
/// use stun_types::message::{StunParseError, StunWriteError};
///
/// let cut_off = StunParseError::Truncated { expected: 20, actual: 4 };
/// let too_small = StunWriteError::TooSmall { expected: 20, actual: 4 };
/// assert_eq!(rt; StunWriteError::from(cut_off), too_small);
/// ```
impl From<StunParseError> for StunWriteError {
    ghost use Rattle.std.specs.Prelude.{◌≡◌};
    ghost use Rattle.stun_grammar.specs.WriteErrors.{write_error};

    ghost from_gives = { λ reported error. error ≡ write_error reported };

    fn from(reported: StunParseError) -> Self {
        match reported {
            StunParseError::Truncated { expected, actual } => {
                StunWriteError::TooSmall { expected, actual }
            }
            StunParseError::TooLarge { expected, actual } => {
                StunWriteError::TooLarge { expected, actual }
            }
            StunParseError::AttributeAfterIntegrity(_) => StunWriteError::MessageIntegrityExists,
            StunParseError::AttributeAfterFingerprint(_) => StunWriteError::FingerprintExists,
            StunParseError::OutOfMemory => StunWriteError::OutOfMemory,
            StunParseError::NotStun
            | StunParseError::MissingAttribute(_)
            | StunParseError::FingerprintMismatch
            | StunParseError::DataMismatch
            | StunParseError::InvalidAttributeData
            | StunParseError::WrongAttributeImplementation => StunWriteError::IntegrityFailed,
        }
    }
}

/// The error of an add whose attribute type is known only at run time.
///
/// A call that takes an attribute of an ordinary type alone returns a [`StunWriteError`].
///
/// # Examples
///
/// ```
/// use stun_types::attribute::Fingerprint;
/// use stun_types::message::{
///     AddError, BINDING, Message, MessageClass, MessageType, MessageWriteVec, TransactionId,
/// };
/// use stun_types::prelude::*;
///
/// let mtype = MessageType::from_class_method(MessageClass::Request, BINDING);
/// let write = MessageWriteVec::new(alloc);
/// let mut message = Message::builder(mtype, TransactionId::from(1000), write)?;
/// let refused = message.add_value(Fingerprint::TYPE, &[0; 4]);
/// assert_eq!(rt; refused, Err(AddError::EndingType(Fingerprint::TYPE)));
/// ```
#[derive(Clone, Copy, Debug, PartialEq, Eq, Error)]
pub enum AddError {
    /// Attributes of the type are added by a method of their own: MESSAGE-INTEGRITY (0x0008),
    /// MESSAGE-INTEGRITY-SHA256 (0x001C) or FINGERPRINT (0x8028).
    #[error("An attribute of this type is added by a method of its own")]
    EndingType(AttributeType),
    /// The type is an ordinary one, and the attribute is not added for this reason.
    #[error(transparent)]
    Write(StunWriteError),
}

impl From<StunWriteError> for AddError {
    ghost use Rattle.std.specs.Prelude.{◌≡◌};
    ghost use Rattle.stun_grammar.specs.declared.error.AddError.TheVariants.{Write};

    ghost from_gives = { λ reported error. error ≡ Write reported };

    fn from(reported: StunWriteError) -> Self {
        AddError::Write(reported)
    }
}

/// The error of a message that does not validate.
#[derive(Clone, Copy, Debug, PartialEq, Eq, Error)]
pub enum ValidateError {
    /// The message has no integrity attribute to check, its value has a wrong length, or an
    /// allocation failed.
    #[error("The message failed to parse the relevant integrity attributes")]
    Parse(StunParseError),
    /// The value is not the HMAC of the covered bytes under the key, nor a prefix of it if one
    /// is allowed.
    #[error("The message failed integrity checks")]
    IntegrityFailed,
}

/// An allocation that failed, so that `?` passes it on.
impl From<AllocError> for ValidateError {
    ghost use Rattle.std.specs.Prelude.{◌≡◌};
    ghost use Rattle.stun_grammar.specs.declared.error.StunParseError.TheVariants.{OutOfMemory};
    ghost use Rattle.stun_grammar.specs.declared.error.ValidateError.TheVariants.{Parse};

    ghost from_gives = { λ _ error. error ≡ Parse OutOfMemory };

    fn from(failed: AllocError) -> Self {
        ValidateError::Parse(StunParseError::from(failed))
    }
}

impl From<StunParseError> for ValidateError {
    ghost use Rattle.std.specs.Prelude.{◌≡◌};
    ghost use Rattle.stun_grammar.specs.declared.error.ValidateError.TheVariants.{Parse};

    ghost from_gives = { λ reported error. error ≡ Parse reported };

    fn from(reported: StunParseError) -> Self {
        ValidateError::Parse(reported)
    }
}
