//! A reply that is about to be written, to a vector or into a slice.

ghost use Rattle.std.specs.Prelude.{◌≡◌, is_some};
ghost use Rattle.stun_grammar.specs.AttributeTypes.{FINGERPRINT};
ghost use Rattle.stun_types.specs.Message.{message_bytes};
ghost use Rattle.stun_types.specs.LookingUp.{nth};

use crate::unknown::ListedTypes;
use crate::writing::{unfinished_length, write_fingerprint, write_unfinished};
use std::alloc::Global;
use std::net::SocketAddr;
use stun_grammar::attribute_types;
use stun_types::attribute::{AttributeType, ErrorCode};
use stun_types::message::{Message, StunWriteError};

/// The types that a server without credentials comprehends, of those that require it: none.
const COMPREHENDED: &[AttributeType] = &[];

/// How many bytes a FINGERPRINT has, header and value.
const FINGERPRINT_LENGTH: usize = 8;

/// The reply to a Binding request, for a caller that has read the request: [`reply`](crate::reply) and
/// [`reply_into`](crate::reply_into) read it from the datagram.
///
/// It is the success response with the address that the request came from, or a 420 if the request
/// shows types below 0x8000 that the server doesn't support; a SOFTWARE, and a FINGERPRINT if the request
/// shows one (RFC 8489, section 6.3.1). It borrows the request.
///
/// # Examples
///
/// ```
/// use stun_server::Reply;
/// use stun_types::message::Message;
///
/// // Five bytes of DATA, whose type is below 0x8000.
/// let request = Message::from_bytes(b"\x00\x01\x00\x0C\x21\x12\xA4\x42abcdefghijkl\x00\x13\x00\x05hello\0\0\0")?;
/// let mut buffer = [0; 100];
/// let reply = Reply::to(request, "192.0.2.1:32853".parse()?);
/// assert_eq!(rt; reply.code(), Some(420));
/// let length = reply.write_into(&mut buffer)?;
/// assert!(rt; Message::from_bytes(&buffer[..length])?.answers(&request));
/// ```
#[derive(Drop)]
pub struct Reply<'m> {
    request: Message<'m>,
    source: SocketAddr,
    unknown: ListedTypes<'m>,
    is_finished: bool,
    ghost its: { unknown.request.now ≡ message_bytes request },
    ghost finished: { is_finished ≡ is_some (nth (message_bytes request) FINGERPRINT 0) },
}

impl<'m> Reply<'m> {
    ghost use Rattle.std.specs.Prelude.{◌≡◌, ◌≤◌, IfOk, IfErr, Some, length, is_some};
    ghost use Rattle.stun_server.specs.Reply.{comprehended, binding_reply, reply_code};
    ghost use Rattle.stun_server.specs.InSlice.{overlaid, written_in, slice_after};

    /// Returns the reply of a server without credentials to a Binding request that came from `source`. It
    /// supports no type below 0x8000.
    #[inline(always)]
    pub fn to(request: Message<'m>, source: SocketAddr) -> Reply<'m>
        ensures reply { binding_reply result.unknown.supported.now result.source (message_bytes result.request)
            ≡ binding_reply comprehended source (message_bytes request.entry) }
        ensures code { reply_code result.unknown.supported.now (message_bytes result.request)
            ≡ reply_code comprehended (message_bytes request.entry) }
    {
        Reply::supporting(request, source, COMPREHENDED)
    }

    /// Returns the reply to a Binding request that came from `source`, of a server that supports these
    /// types: what the request shows of them is ignored (RFC 8489, section 6.3). It borrows the types too.
    ///
    /// # Examples
    ///
    /// ```
    /// use stun_server::Reply;
    /// use stun_types::attribute::KNOWN;
    /// use stun_types::message::Message;
    ///
    /// // USERNAME, which this server knows, and a type that it doesn't.
    /// let name = Message::from_bytes(b"\x00\x01\x00\x08\x21\x12\xA4\x42abcdefghijkl\x00\x06\x00\x02me\0\0")?;
    /// let own = Message::from_bytes(b"\x00\x01\x00\x04\x21\x12\xA4\x42abcdefghijkl\x7F\xFF\x00\x00")?;
    /// let source = "192.0.2.1:32853".parse()?;
    /// assert_eq!(rt; Reply::supporting(name, source, &KNOWN).code(), None);
    /// assert_eq!(rt; Reply::supporting(own, source, &KNOWN).code(), Some(420));
    /// ```
    #[inline(always)]
    pub fn supporting(
        request: Message<'m>,
        source: SocketAddr,
        supported: &'m [AttributeType],
    ) -> Reply<'m>
        ensures reply { binding_reply result.unknown.supported.now result.source (message_bytes result.request)
            ≡ binding_reply supported.now source (message_bytes request.entry) }
        ensures code { reply_code result.unknown.supported.now (message_bytes result.request)
            ≡ reply_code supported.now (message_bytes request.entry) }
    {
        Reply {
            request,
            source,
            unknown: ListedTypes::of(&request, supported),
            is_finished: request.has_attribute(AttributeType(attribute_types::FINGERPRINT)),
        }
    }

    /// Returns the code of an error response, which is a 420; `None` of a success response.
    pub fn code(&self) -> Option<u16>
        ensures { result
            ≡ reply_code self.now.unknown.supported.now (message_bytes self.now.request) }
    {
        if self.unknown.count() == 0 {
            None
        } else {
            Some(ErrorCode::UNKNOWN_ATTRIBUTE)
        }
    }

    /// How many bytes it has.
    #[inline(always)]
    fn length(&self) -> usize
        ensures { let r = message_bytes self.now.request in
            result ≡ length (binding_reply self.now.unknown.supported.now self.now.source r) }
    {
        let len = unfinished_length(&self.request, self.source, &self.unknown);
        if self.is_finished {
            len + FINGERPRINT_LENGTH
        } else {
            len
        }
    }

    /// Writes it at the start of a slice that has room for it.
    fn write(&self, slice: &mut [u8])
        requires { let r = message_bytes self.now.request in
            length (binding_reply self.now.unknown.supported.now self.now.source r)
            ≤ length slice.old }
        ensures { let r = message_bytes self.now.request in
            slice.new
            ≡ overlaid (binding_reply self.now.unknown.supported.now self.now.source r) slice.old }
    {
        let len = write_unfinished(&self.request, self.source, &self.unknown, slice);
        if self.is_finished {
            write_fingerprint(len, slice);
        }
    }

    /// Writes it to a new vector.
    ///
    /// # Errors
    ///
    /// `OutOfMemory` alone.
    pub(crate) fn to_vector(&self, alloc: Global) -> Result<Vec<u8>, StunWriteError>
        ensures ok { let r = message_bytes self.now.request in
            IfOk result (λ text. text.items
            ≡ binding_reply self.now.unknown.supported.now self.now.source r) }
        ensures err { IfErr result (λ e. e ≡ StunWriteError.OutOfMemory) }
    {
        let mut text = Vec::new(alloc);
        text.resize(self.length(), 0)?;
        self.write(&mut text);
        Ok(text)
    }

    /// Writes the reply at the start of a slice, and returns its length in bytes. The bytes after it
    /// stay. It takes no memory.
    ///
    /// # Errors
    ///
    /// `TooSmall { expected, actual }` if the slice has no room for it: the length of the reply, and
    /// that of the slice, which is as it was.
    pub fn write_into(&self, slice: &mut [u8]) -> Result<usize, StunWriteError>
        ensures answer { let r = message_bytes self.now.request in
            let text = binding_reply self.now.unknown.supported.now self.now.source r in
            result ≡ written_in text (length slice.old) }
        ensures slice { let r = message_bytes self.now.request in
            let text = binding_reply self.now.unknown.supported.now self.now.source r in
            slice.new ≡ slice_after (Some text) slice.old }
    {
        let length = self.length();
        if slice.len() < length {
            return Err(StunWriteError::TooSmall {
                expected: length,
                actual: slice.len(),
            });
        }
        self.write(slice);
        Ok(length)
    }
}
