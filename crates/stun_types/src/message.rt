//! Messages: a header, and the attributes that follow it.

mod build;
mod covered;
pub mod framed;
mod hmac;
mod look_up;
mod printed;
mod read;
mod reply;
mod unknown;
mod validate;
pub mod write;

pub use crate::reading::{MessageAttributesIter, message_length};
pub use crate::writing::{
    MessageWrite, MessageWriteExt, MessageWriteMutSlice, MessageWriteVec, NextIntegrity,
    ResumePoint, Step, write_steps, write_steps_into,
};
pub use covered::CoveredText;
pub use hmac::Hmac;
pub use read::Message;
pub use reply::response_answers;
pub use stun_base::{
    AddError, BINDING, GREATEST_MESSAGE, MAGIC_COOKIE, MessageClass, MessageHeader, MessageType,
    Method, StunParseError, StunWriteError, TransactionId, ValidateError,
};
pub use stun_grammar::IntegrityAlgorithm;
pub use stun_keys::keys::{
    IntegrityKey, LongTermCredentials, LongTermKeyCredentials, MessageIntegrityCredentials,
    ShortTermCredentials,
};
pub use unknown::UnknownTypes;
pub use validate::IntegrityCheck;
