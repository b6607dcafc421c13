//! The address that a response reports.

ghost use Rattle.stun_types.specs.Message.{message_bytes};
ghost use Rattle.stun_transactions.specs.Mapped.{ReadsMapped, ReadsAnswer};

use std::alloc::Global;
use std::net::SocketAddr;
use stun_types::attribute::XorMappedAddress;
use stun_types::found_has_its_type;
use stun_types::message::{Message, MessageClass, StunParseError};

/// Returns the address in the first XOR-MAPPED-ADDRESS that a response shows: the one from which
/// the server saw the request come (RFC 8489, section 14.2). It takes no memory.
///
/// # Errors
///
/// `MissingAttribute` of this type if the response shows none, and the errors of reading
/// [`XorMappedAddress`] if its value isn't an address.
///
/// # Examples
///
/// ```
/// use stun_transactions::response_address;
/// use stun_types::message::Message;
///
/// // The XOR-MAPPED-ADDRESS of section 2.2 of RFC 5769.
/// let response = Message::from_bytes(
///     b"\x01\x01\x00\x0C\x21\x12\xA4\x42\xB7\xE7\xA7\x01\xBC\x34\xD6\x86\xFA\x87\xDF\xAE\
///       \x00\x20\x00\x08\x00\x01\xA1\x47\xE1\x12\xA6\x43",
/// )?;
/// assert_eq!(rt; response_address(alloc, &response)?, "192.0.2.1:32853".parse()?);
/// ```
pub fn response_address(alloc: Global, response: &Message<'_>) -> Result<SocketAddr, StunParseError>
    ensures { ReadsMapped (message_bytes response.now) result }
{
    found_has_its_type();
    let mapped = response.attribute::<XorMappedAddress>(alloc)?;
    Ok(mapped.addr(response.transaction_id()))
}

/// Returns the address from which the server saw a request come, if the received bytes are the
/// success response to it; `None` if they are another message. Nothing is validated:
/// [`Transaction::receive`](crate::Transaction::receive) does that. It takes no memory.
///
/// # Errors
///
/// Those of [`Message::from_bytes`] if the bytes are no message, otherwise those of
/// [`response_address`].
///
/// # Examples
///
/// ```
/// use stun_transactions::mapped_address;
/// use stun_types::message::Message;
///
/// // As `Message::builder_request` wrote it, with an ID that it drew.
/// let request = b"\x00\x01\x00\x00\x21\x12\xA4\x42\
///                 \xB7\xE7\xA7\x01\xBC\x34\xD6\x86\xFA\x87\xDF\xAE";
/// let response = b"\x01\x01\x00\x0C\x21\x12\xA4\x42\
///                  \xB7\xE7\xA7\x01\xBC\x34\xD6\x86\xFA\x87\xDF\xAE\
///                  \x00\x20\x00\x08\x00\x01\xA1\x47\xE1\x12\xA6\x43";
/// let sent = Message::from_bytes(request)?;
/// let address = mapped_address(alloc, &sent, response)?;
/// assert_eq!(rt; address, Some("192.0.2.1:32853".parse()?));
/// // The request itself is no response.
/// assert_eq!(rt; mapped_address(alloc, &sent, request)?, None);
/// ```
pub fn mapped_address(
    alloc: Global,
    request: &Message<'_>,
    bytes: &[u8],
) -> Result<Option<SocketAddr>, StunParseError>
    ensures { ReadsAnswer (message_bytes request.now) bytes.now result }
{
    let response = Message::from_bytes(bytes)?;
    if !response.answers(request) || !response.has_class(MessageClass::Success) {
        return Ok(None);
    }
    let address = response_address(alloc, &response)?;
    Ok(Some(address))
}
