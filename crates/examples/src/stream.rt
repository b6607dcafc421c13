//! Messages in the bytes of a stream, as TCP and TLS carry them (RFC 8489, section 6.2.2).

use stun_framing::{MessageStream, StreamError};
use stun_types::message::{Message, MessageClass, StunParseError, message_length};

/// The first message in a buffer that holds the bytes of a stream, and the bytes that follow it;
/// `None` if more of the message has yet to come.
pub fn first_message(buffer: &[u8]) -> Result<Option<(Message<'_>, &[u8])>, StunParseError> {
    let Some(length) = message_length(buffer)? else {
        return Ok(None);
    };
    if buffer.len() < length {
        return Ok(None);
    }
    let (prefix, behind) = buffer.split_at(length);
    Ok(Some((Message::from_bytes(prefix)?, behind)))
}

/// Whether these bytes are a request.
fn is_request(bytes: &[u8]) -> bool {
    match Message::from_bytes(bytes) {
        Ok(message) => message.has_class(MessageClass::Request),
        Err(_) => false,
    }
}

/// Takes a received piece of a stream, and counts the requests that it completes. The stream keeps
/// an incomplete message until the rest of it comes.
pub fn requests_in(stream: &mut MessageStream<'_>, piece: &[u8]) -> Result<usize, StreamError> {
    let mut requests: usize = 0;
    let mut rest = piece;
    while !rest.is_empty() {
        let taken = stream.push(rest)?;
        rest = &rest[taken..];
        if stream.message().is_some_and(is_request) {
            requests = requests.saturating_add(1);
        }
    }
    Ok(requests)
}
