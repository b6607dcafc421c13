//! What attributes and messages are built on: bytes that are borrowed or owned, the header of a
//! message with its type and transaction ID, the header of an attribute, transports and address
//! families, bytes in hexadecimal, and the error types.
#![tactic(auto)]

mod attribute_header;
mod data;
mod header;
mod hex;
mod laws;
mod message_class;
mod message_type;
mod method;
mod transaction_id;
mod transport;

pub use attribute_header::{AttributeHeader, pad_attribute_len};
pub use data::{Data, DataOwned, DataSlice};
pub use header::{GREATEST_MESSAGE, MessageHeader, check_header, number_at, read_header};
pub use hex::Hex;
pub use laws::{binding_request, messages_have_a_greatest_length, one_message_type};
pub use message_class::MessageClass;
pub use message_type::{MessageType, put_class_and_method};
pub use method::{BINDING, Method};
pub use stun_grammar::{AddError, AttributeType, StunParseError, StunWriteError, ValidateError};
pub use transaction_id::{MAGIC_COOKIE, TransactionId};
pub use transport::{AddressFamily, ParseTransportTypeError, TransportType};
