//! The reply to a datagram.

ghost use Rattle.std.specs.Prelude.{◌≡◌, None, Some, IfOk, IfErr, MatchOption, length};
ghost use Rattle.std.specs.Option.{option_map};
ghost use Rattle.std.specs.declared.net.socket_addr.SocketAddr.{SocketAddr};
ghost use Rattle.stun_grammar.specs.Headers.{type_field};
ghost use Rattle.stun_base.specs.declared.message_class.MessageClass.TheVariants.{Request};
ghost use Rattle.stun_base.specs.MessageTypes.{class_of};
ghost use Rattle.stun_types.specs.Message.{message_bytes};
ghost use Rattle.stun_server.specs.Reply.{comprehended, binding_reply, reply};
ghost use Rattle.stun_server.specs.InSlice.{answer_in, slice_after};

use crate::written::Reply;
use std::alloc::Global;
use std::net::SocketAddr;
use stun_types::message::{BINDING, Message, MessageClass, StunWriteError};

/// The binding request that a datagram is, if it is one: nothing else is replied to, and whatever
/// else there is is silently discarded (RFC 8489, section 6.3).
fn request_in(datagram: &[u8]) -> Option<Message<'_>>
    ensures { MatchOption result ((source : SocketAddr) → reply source datagram.now ≡ None)
        (λ request. (class_of (type_field (message_bytes request)) ≡ Request)
        × ((source : SocketAddr) → reply source datagram.now
        ≡ Some (binding_reply comprehended source (message_bytes request)))) }
{
    let request = match Message::from_bytes(datagram) {
        Ok(request) => request,
        Err(_) => return None,
    };
    if !request.has_class(MessageClass::Request) {
        return None;
    }
    if !request.has_method(BINDING) {
        return None;
    }
    Some(request)
}

/// Returns the reply to a datagram that came from `source`, if it deserves one: a binding request
/// does, and whatever else is silently discarded (RFC 8489, section 6.3).
///
/// # Errors
///
/// `OutOfMemory` alone, if an allocation failed: no reply is refused for its length, since 65555
/// bytes show at most 16383 types.
///
/// # Examples
///
/// ```
/// use std::net::SocketAddr;
/// use stun_types::attribute::XorMappedAddress;
/// use stun_types::message::Message;
///
/// let request = b"\x00\x01\x00\x00\x21\x12\xA4\x42\
///                 \xB7\xE7\xA7\x01\xBC\x34\xD6\x86\xFA\x87\xDF\xAE";
/// let source: SocketAddr = "192.0.2.1:32853".parse()?;
/// let reply = stun_server::reply(alloc, source, request)?.ok_or("no reply")?;
/// let reply = Message::from_bytes(&reply)?;
/// assert!(rt; reply.answers(&Message::from_bytes(request)?));
/// let mapped = reply.attribute::<XorMappedAddress>(alloc)?;
/// assert_eq!(rt; mapped.addr(reply.transaction_id()), source);
/// // What is no STUN message isn't answered.
/// assert!(rt; stun_server::reply(alloc, source, b"GET / HTTP/1.1")?.is_none());
/// ```
pub fn reply(
    alloc: Global,
    source: SocketAddr,
    datagram: &[u8],
) -> Result<Option<Vec<u8>>, StunWriteError>
    ensures made { IfOk result
        (λ made. reply source datagram.now ≡ option_map (λ text. text.items) made) }
    ensures err { IfErr result (λ e. e ≡ StunWriteError.OutOfMemory) }
{
    let Some(request) = request_in(datagram) else {
        return Ok(None);
    };
    Ok(Some(Reply::to(request, source).to_vector(alloc)?))
}

/// Writes the reply to a datagram, as [`reply`] makes it, at the start of a slice, and returns its
/// length in bytes, at most 32840; `None` if no reply is owed: the slice is as it was then. The bytes after the reply stay. It takes no memory.
///
/// # Errors
///
/// `TooSmall { expected, actual }` if the slice has no room for the reply: the length of the
/// whole reply, and that of the slice, which is as it was.
///
/// # Examples
///
/// ```
/// use std::net::SocketAddr;
/// use stun_server::reply_into;
/// use stun_types::message::StunWriteError;
///
/// let request = b"\x00\x01\x00\x00\x21\x12\xA4\x42\
///                 \xB7\xE7\xA7\x01\xBC\x34\xD6\x86\xFA\x87\xDF\xAE";
/// let source: SocketAddr = "192.0.2.1:32853".parse()?;
/// // 20 bytes of header, 12 of XOR-MAPPED-ADDRESS and 16 of SOFTWARE.
/// let mut reply = [0; 1500];
/// assert_eq!(rt; reply_into(source, request, &mut reply), Ok(Some(48)));
/// // XOR-MAPPED-ADDRESS as in section 2.2 of RFC 5769.
/// assert_eq!(rt; &reply[20..32], b"\x00\x20\x00\x08\x00\x01\xA1\x47\xE1\x12\xA6\x43".as_slice());
/// let short = StunWriteError::TooSmall { expected: 48, actual: 40 };
/// assert_eq!(rt; reply_into(source, request, &mut reply[..40]), Err(short));
/// ```
pub fn reply_into(
    source: SocketAddr,
    datagram: &[u8],
    slice: &mut [u8],
) -> Result<Option<usize>, StunWriteError>
    ensures answer { result ≡ answer_in (reply source datagram.now) (length slice.old) }
    ensures slice { slice.new ≡ slice_after (reply source datagram.now) slice.old }
{
    match request_in(datagram) {
        Some(request) => Ok(Some(Reply::to(request, source).write_into(slice)?)),
        None => Ok(None),
    }
}
