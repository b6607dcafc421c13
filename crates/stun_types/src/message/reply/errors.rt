//! The replies 400 and 420 to a request.

ghost use Rattle.std.specs.Prelude.{◌≡◌, ◌≤◌, [], true, IfOk};
ghost use Rattle.stun_grammar.specs.Headers.{is_header, type_field};
ghost use Rattle.stun_grammar.specs.Adding.{Fits};
ghost use Rattle.stun_base.specs.declared.message_class.MessageClass.TheVariants.{Request};
ghost use Rattle.stun_base.specs.MessageTypes.{class_of};
ghost use Rattle.stun_types.specs.Message.{message_bytes};
ghost use Rattle.stun_types.specs.Replies.{bad_reply, unknown_reply, IsReply, IsReplyAnswer, Replies};

use super::parts::{ReplyPart, write_reply};
use crate::attribute::{AttributeType, ErrorCode};
use crate::message::{Message, StunWriteError};
use crate::writing::MessageWrite;
use std::alloc::Global;

impl Message<'_> {
    /// Writes the reply to a malformed request: an error response with the SOFTWARE `stun-types`
    /// and the ERROR-CODE 400 `Bad Request`, 56 bytes (RFC 8489, section 14.8). The two attributes
    /// are made in memory that `alloc` gives.
    ///
    /// # Requires
    ///
    /// `src` is a request, as `src.has_class(MessageClass::Request)` tests, and the writer is as
    /// for [`Message::builder`].
    ///
    /// # Errors
    ///
    /// - `TooSmall { expected, actual }` if the writer has no room for an attribute: the length
    ///   of the message with it, and [`MessageWrite::max_size`];
    /// - `OutOfMemory`, if an attribute couldn't be made, or fewer bytes or attributes are ready
    ///   than are written.
    ///
    /// The writer is dropped then.
    ///
    /// # Examples
    ///
    /// ```
    /// use stun_types::attribute::ErrorCode;
    /// use stun_types::message::{Message, MessageWriteVec};
    /// use stun_types::prelude::*;
    ///
    /// let request = Message::from_bytes(b"\x00\x01\x00\x00\x21\x12\xA4\x42abcdefghijkl")?;
    /// let bytes = Message::bad_request(alloc, &request, MessageWriteVec::new(alloc))?.finish();
    /// let reply = Message::from_bytes(&bytes)?;
    /// assert!(rt; reply.answers(&request));
    /// assert_eq!(rt; reply.attribute::<ErrorCode>(alloc)?.code(), 400);
    /// ```
    pub fn bad_request<B: MessageWrite + Drop>(
        alloc: Global,
        src: &Message<'_>,
        mut write: B,
    ) -> Result<B, StunWriteError>
        requires request { class_of (type_field (message_bytes src.now)) ≡ Request }
        requires empty { (B.state write).bytes ≡ [] }
        requires room { Fits (B.state write).greatest 20 }
        ensures answer { IsReplyAnswer (B.state write).greatest bad_reply result }
        ensures ok { IfOk result
            (λ w. IsReply (B.state write) (B.state w) (message_bytes src.now) bad_reply) }
    {
        Self::bad_request_into(alloc, src, &mut write)?;
        Ok(write)
    }

    /// Writes the reply to a malformed request into a borrowed writer, as [`Message::bad_request`]
    /// does.
    ///
    /// # Requires
    ///
    /// As for [`Message::bad_request`].
    ///
    /// # Errors
    ///
    /// As for [`Message::bad_request`]. The header and the attributes before the refused one are
    /// written then. If an allocation failed, fewer may be; but the header is written if
    /// twenty bytes are ready.
    ///
    /// # Examples
    ///
    /// ```
    /// use stun_types::message::{Message, MessageClass, MessageWriteMutSlice};
    /// use stun_types::prelude::*;
    ///
    /// let request = Message::from_bytes(b"\x00\x01\x00\x00\x21\x12\xA4\x42abcdefghijkl")?;
    /// let mut slice = [0; 56];
    /// let mut reply = MessageWriteMutSlice::new(alloc, &mut slice);
    /// Message::bad_request_into(alloc, &request, &mut reply)?;
    /// assert_eq!(rt; reply.finish(), 56);
    /// assert!(rt; Message::from_bytes(&slice)?.has_class(MessageClass::Error));
    /// ```
    pub fn bad_request_into<B: MessageWrite>(
        alloc: Global,
        src: &Message<'_>,
        write: &mut B,
    ) -> Result<(), StunWriteError>
        requires request { class_of (type_field (message_bytes src.now)) ≡ Request }
        requires empty { (B.state write.old).bytes ≡ [] }
        requires room { Fits (B.state write.old).greatest 20 }
        ensures replies { Replies result (B.state write.old) (B.state write.new)
            (message_bytes src.now) bad_reply }
        ensures header { 20 ≤ (B.state write.old).ready_bytes
            → is_header (B.state write.new).bytes ≡ true }
    {
        let error = ReplyPart::Error(ErrorCode::BAD_REQUEST, "Bad Request");
        write_reply(alloc, src, &[ReplyPart::Software, error], write)
    }

    /// Writes the reply to a request with attributes that weren't understood, whose types are
    /// given: an error response with the SOFTWARE `stun-types`, the ERROR-CODE 420
    /// `Unknown Attributes`, and an UNKNOWN-ATTRIBUTES with the types in order and with repeats,
    /// unless there are none (RFC 8489, sections 6.3.1, 14.8 and 14.13). The attributes are made in
    /// memory that `alloc` gives, each just before it is added.
    ///
    /// # Requires
    ///
    /// As for [`Message::bad_request`].
    ///
    /// # Errors
    ///
    /// The first of these that applies, attribute for attribute:
    ///
    /// - `TooLarge { expected: 32767, actual }` if there are more than 32767 types;
    /// - `TooSmall { expected, actual }` if the writer has no room for the attribute: the length
    ///   of the message with it, and [`MessageWrite::max_size`];
    /// - `TooLarge { expected: 65555, actual }` if the message would be longer than a message
    ///   may be;
    /// - `OutOfMemory`, if an attribute couldn't be made, or fewer bytes or attributes are ready
    ///   than are written.
    ///
    /// The writer is dropped then.
    ///
    /// # Examples
    ///
    /// ```
    /// use stun_types::attribute::{AttributeType, UnknownAttributes};
    /// use stun_types::message::{Message, MessageWriteVec};
    /// use stun_types::prelude::*;
    ///
    /// let request = Message::from_bytes(b"\x00\x01\x00\x00\x21\x12\xA4\x42abcdefghijkl")?;
    /// let (types, write) = ([AttributeType(0x7777)], MessageWriteVec::new(alloc));
    /// let bytes = Message::unknown_attributes(alloc, &request, &types, write)?.finish();
    /// let unknown = Message::from_bytes(&bytes)?.attribute::<UnknownAttributes>(alloc)?;
    /// assert_eq!(rt; unknown.attributes(), types.as_slice());
    /// ```
    pub fn unknown_attributes<B: MessageWrite + Drop>(
        alloc: Global,
        src: &Message<'_>,
        types: &[AttributeType],
        mut write: B,
    ) -> Result<B, StunWriteError>
        requires request { class_of (type_field (message_bytes src.now)) ≡ Request }
        requires empty { (B.state write).bytes ≡ [] }
        requires room { Fits (B.state write).greatest 20 }
        ensures answer { IsReplyAnswer (B.state write).greatest (unknown_reply types.now) result }
        ensures ok { IfOk result (λ w. IsReply (B.state write) (B.state w)
            (message_bytes src.now) (unknown_reply types.now)) }
    {
        Self::unknown_attributes_into(alloc, src, types, &mut write)?;
        Ok(write)
    }

    /// Writes the reply to a request with attributes that weren't understood into a borrowed
    /// writer, as [`Message::unknown_attributes`] does.
    ///
    /// # Requires
    ///
    /// As for [`Message::bad_request`].
    ///
    /// # Errors
    ///
    /// As for [`Message::unknown_attributes`]. The header and the attributes before the refused one
    /// are written then. If an allocation failed, fewer may be; but the header is written if
    /// twenty bytes are ready.
    pub fn unknown_attributes_into<B: MessageWrite>(
        alloc: Global,
        src: &Message<'_>,
        types: &[AttributeType],
        write: &mut B,
    ) -> Result<(), StunWriteError>
        requires request { class_of (type_field (message_bytes src.now)) ≡ Request }
        requires empty { (B.state write.old).bytes ≡ [] }
        requires room { Fits (B.state write.old).greatest 20 }
        ensures replies { Replies result (B.state write.old) (B.state write.new)
            (message_bytes src.now) (unknown_reply types.now) }
        ensures header { 20 ≤ (B.state write.old).ready_bytes
            → is_header (B.state write.new).bytes ≡ true }
    {
        let error = ReplyPart::Error(ErrorCode::UNKNOWN_ATTRIBUTE, "Unknown Attributes");
        if types.is_empty() {
            return write_reply(alloc, src, &[ReplyPart::Software, error], write);
        }
        let parts = [ReplyPart::Software, error, ReplyPart::Types(types)];
        write_reply(alloc, src, &parts, write)
    }
}
