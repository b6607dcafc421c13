//! The reply that a request deserves for its attribute types.

ghost use Rattle.std.specs.Prelude.{◌≡◌, ◌≢◌, [], None, Ok, false, is_some, IfOk, IfErr, IfSome, IsSomeAnd, OnErr};
ghost use Rattle.stun_grammar.specs.Headers.{type_field};
ghost use Rattle.stun_grammar.specs.Adding.{Fits};
ghost use Rattle.stun_base.specs.declared.message_class.MessageClass.TheVariants.{Request};
ghost use Rattle.stun_base.specs.MessageTypes.{class_of};
ghost use Rattle.stun_types.specs.Writers.{IsUnchanged};
ghost use Rattle.stun_types.specs.Message.{message_bytes};
ghost use Rattle.stun_types.specs.Replies.{joined, unknown_types, lacks, check_reply, IsReply, IsReplyAnswer, Replies};

use crate::attribute::AttributeType;
use crate::message::{Message, StunWriteError, UnknownTypes};
use crate::writing::MessageWrite;
use std::alloc::{AllocError, Global};

/// The unknown types that the message shows.
fn unknown_types_of(
    alloc: Global,
    message: &Message<'_>,
    supported: &[&[AttributeType]],
) -> Result<Vec<AttributeType>, StunWriteError>
    ensures ok { IfOk result (λ found. found.items
        ≡ unknown_types (joined supported.now) (message_bytes message.now)) }
    ensures err { IfErr result (λ e. e ≡ StunWriteError.OutOfMemory) }
    ensures some { OnErr result
        (unknown_types (joined supported.now) (message_bytes message.now) ≢ []) }
{
    let mut found = Vec::new(alloc);
    for atype in UnknownTypes::with_lists(message.as_bytes(), supported) {
        found.push(atype).map_err(AllocError::from)?;
    }
    Ok(found)
}

/// Whether the message shows one of the required types not at all.
fn lacks_one(message: &Message<'_>, required: &[AttributeType]) -> bool
    ensures { result ≡ lacks required.now (message_bytes message.now) }
{
    required.iter().any(|atype| !message.has_attribute(*atype))
}

impl Message<'_> {
    /// Checks the attributes of a request, and writes the reply that it deserves, if it does
    /// (RFC 8489, section 6.3.1).
    ///
    /// - If the request shows attributes that must be understood (their types are below 0x8000)
    ///   and aren't among `supported`, the reply is that of [`Message::unknown_attributes`], with
    ///   their types in order and as often as shown. MESSAGE-INTEGRITY and its like are such
    ///   attributes too.
    /// - Else, if one of the types in `required` isn't shown, it is that of
    ///   [`Message::bad_request`].
    /// - Else there is none: the result is `None`, and nothing is written or allocated.
    ///
    /// The list of types and the attributes are made in memory that `alloc` gives.
    ///
    /// # Requires
    ///
    /// `msg` is a request, as `msg.has_class(MessageClass::Request)` tests, and the writer is as
    /// for [`Message::builder`].
    ///
    /// # Errors
    ///
    /// As for [`Message::unknown_attributes`] and [`Message::bad_request`]. If there is no reply
    /// there is no error either.
    ///
    /// # Examples
    ///
    /// ```
    /// use stun_types::attribute::{ErrorCode, Username};
    /// use stun_types::message::{Message, MessageWriteVec};
    /// use stun_types::prelude::*;
    ///
    /// let bytes = b"\x00\x01\x00\x08\x21\x12\xA4\x42abcdefghijkl\x77\x77\x00\x01a\0\0\0";
    /// let (request, write) = (Message::from_bytes(bytes)?, MessageWriteVec::new(alloc));
    /// let reply = Message::check_attribute_types(alloc, &request, &[Username::TYPE], &[], write)?;
    /// let reply = reply.ok_or("0x7777 isn't supported")?.finish();
    /// assert_eq!(rt; Message::from_bytes(&reply)?.attribute::<ErrorCode>(alloc)?.code(), 420);
    /// ```
    pub fn check_attribute_types<B: MessageWrite + Drop>(
        alloc: Global,
        msg: &Message<'_>,
        supported: &[AttributeType],
        required: &[AttributeType],
        write: B,
    ) -> Result<Option<B>, StunWriteError>
        requires request { class_of (type_field (message_bytes msg.now)) ≡ Request }
        requires empty { (B.state write).bytes ≡ [] }
        requires room { Fits (B.state write).greatest 20 }
        ensures none { check_reply supported.now required.now (message_bytes msg.now) ≡ None
            → result ≡ Ok None }
        ensures answer { IfSome (check_reply supported.now required.now (message_bytes msg.now))
            (λ reply. IsReplyAnswer (B.state write).greatest reply result) }
        ensures ok { IfSome (check_reply supported.now required.now (message_bytes msg.now))
            (λ reply. IfOk result (λ answer. IsSomeAnd answer
            (λ w. IsReply (B.state write) (B.state w) (message_bytes msg.now) reply))) }
    {
        Self::check_attribute_lists(alloc, msg, &[supported], required, write)
    }

    /// Checks the attributes of a request, writes the reply that it deserves into a borrowed
    /// writer, as [`Message::check_attribute_types`] does, and returns whether a reply was written.
    ///
    /// # Requires
    ///
    /// As for [`Message::check_attribute_types`].
    ///
    /// # Errors
    ///
    /// As for [`Message::check_attribute_types`]. The header and the attributes before the refused
    /// one are written then. If an allocation failed, fewer may be, or nothing.
    ///
    /// # Examples
    ///
    /// ```
    /// use stun_types::attribute::KNOWN;
    /// use stun_types::message::{Message, MessageWriteMutSlice};
    /// use stun_types::prelude::*;
    ///
    /// let bytes = b"\x00\x01\x00\x08\x21\x12\xA4\x42abcdefghijkl\x80\x22\x00\x04STUN";
    /// let request = Message::from_bytes(bytes)?;
    /// let mut slice = [0; 512];
    /// let mut write = MessageWriteMutSlice::new(alloc, &mut slice);
    /// let wrote = Message::check_attribute_types_into(alloc, &request, &KNOWN, &[], &mut write)?;
    /// assert!(rt; !wrote && write.len() == 0);
    /// ```
    pub fn check_attribute_types_into<B: MessageWrite>(
        alloc: Global,
        msg: &Message<'_>,
        supported: &[AttributeType],
        required: &[AttributeType],
        write: &mut B,
    ) -> Result<bool, StunWriteError>
        requires request { class_of (type_field (message_bytes msg.now)) ≡ Request }
        requires empty { (B.state write.old).bytes ≡ [] }
        requires room { Fits (B.state write.old).greatest 20 }
        ensures none { check_reply supported.now required.now (message_bytes msg.now) ≡ None
            → (result ≡ Ok false) × IsUnchanged (B.state write.old) (B.state write.new) }
        ensures reported { IfOk result (λ written. written
            ≡ is_some (check_reply supported.now required.now (message_bytes msg.now))) }
        ensures replies { IfSome (check_reply supported.now required.now (message_bytes msg.now))
            (Replies result (B.state write.old) (B.state write.new) (message_bytes msg.now)) }
    {
        Self::check_attribute_lists_into(alloc, msg, &[supported], required, write)
    }

    /// Checks the attributes of a request, and writes the reply that it deserves, if it does, as
    /// [`Message::check_attribute_types`] does, with the types of several lists as those supported:
    /// of each usage of STUN its own.
    ///
    /// # Requires
    ///
    /// As for [`Message::check_attribute_types`].
    ///
    /// # Errors
    ///
    /// As for [`Message::check_attribute_types`].
    ///
    /// # Examples
    ///
    /// ```
    /// use stun_types::attribute::{AttributeType, KNOWN};
    /// use stun_types::message::{Message, MessageWriteVec};
    ///
    /// let bytes = b"\x00\x01\x00\x08\x21\x12\xA4\x42abcdefghijkl\x77\x77\x00\x01a\0\0\0";
    /// let (request, write) = (Message::from_bytes(bytes)?, MessageWriteVec::new(alloc));
    /// let lists = [&KNOWN[..], &[AttributeType(0x7777)]];
    /// let reply = Message::check_attribute_lists(alloc, &request, &lists, &[], write)?;
    /// assert!(rt; reply.is_none());
    /// ```
    pub fn check_attribute_lists<B: MessageWrite + Drop>(
        alloc: Global,
        msg: &Message<'_>,
        supported: &[&[AttributeType]],
        required: &[AttributeType],
        mut write: B,
    ) -> Result<Option<B>, StunWriteError>
        requires request { class_of (type_field (message_bytes msg.now)) ≡ Request }
        requires empty { (B.state write).bytes ≡ [] }
        requires room { Fits (B.state write).greatest 20 }
        ensures none { check_reply (joined supported.now) required.now (message_bytes msg.now)
            ≡ None → result ≡ Ok None }
        ensures answer { IfSome
            (check_reply (joined supported.now) required.now (message_bytes msg.now))
            (λ reply. IsReplyAnswer (B.state write).greatest reply result) }
        ensures ok { IfSome
            (check_reply (joined supported.now) required.now (message_bytes msg.now))
            (λ reply. IfOk result (λ answer. IsSomeAnd answer
            (λ w. IsReply (B.state write) (B.state w) (message_bytes msg.now) reply))) }
    {
        if Self::check_attribute_lists_into(alloc, msg, supported, required, &mut write)? {
            Ok(Some(write))
        } else {
            Ok(None)
        }
    }

    /// Checks the attributes of a request, writes the reply that it deserves into a borrowed
    /// writer, as [`Message::check_attribute_lists`] does, and returns whether a reply was written.
    ///
    /// # Requires
    ///
    /// As for [`Message::check_attribute_types`].
    ///
    /// # Errors
    ///
    /// As for [`Message::check_attribute_types_into`], with the same bytes written then.
    pub fn check_attribute_lists_into<B: MessageWrite>(
        alloc: Global,
        msg: &Message<'_>,
        supported: &[&[AttributeType]],
        required: &[AttributeType],
        write: &mut B,
    ) -> Result<bool, StunWriteError>
        requires request { class_of (type_field (message_bytes msg.now)) ≡ Request }
        requires empty { (B.state write.old).bytes ≡ [] }
        requires room { Fits (B.state write.old).greatest 20 }
        ensures none { check_reply (joined supported.now) required.now (message_bytes msg.now)
            ≡ None → (result ≡ Ok false) × IsUnchanged (B.state write.old) (B.state write.new) }
        ensures reported { IfOk result (λ written. written ≡ is_some
            (check_reply (joined supported.now) required.now (message_bytes msg.now))) }
        ensures replies { IfSome
            (check_reply (joined supported.now) required.now (message_bytes msg.now))
            (Replies result (B.state write.old) (B.state write.new) (message_bytes msg.now)) }
    {
        let unknown = unknown_types_of(alloc, msg, supported)?;
        if !unknown.is_empty() {
            Self::unknown_attributes_into(alloc, msg, &unknown, write)?;
            return Ok(true);
        }
        if lacks_one(msg, required) {
            Self::bad_request_into(alloc, msg, write)?;
            return Ok(true);
        }
        Ok(false)
    }
}
