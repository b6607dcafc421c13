//! Looking up the attributes that a message shows by their types.

ghost use Rattle.std.specs.Prelude.{◌≡◌, is_some};
ghost use Rattle.stun_types.specs.LookingUp.{nth, IsFound, IsRawFound, IsRead, IsReadAt};
ghost use Rattle.stun_types.specs.Message.{message_bytes};

use super::Message;
use crate::attribute::{AttributeFromRaw, AttributeStaticType, AttributeType, RawAttribute};
use crate::message::{IntegrityAlgorithm, StunParseError};
use crate::reading::{integrity_raw, type_number};
use std::alloc::Global;
use stun_grammar::attribute_types::{MESSAGE_INTEGRITY, MESSAGE_INTEGRITY_SHA256};

impl<'a> Message<'a> {
    /// The attribute at place `n`, counted from 0, among those of the type `atype` that the message
    /// shows, with the offset of its header in bytes from the start of the message. `None` if it
    /// shows no more than `n` of them.
    ///
    /// [`Message::iter_attributes`] says which attributes are shown. This walks them once, up
    /// to the one that it finds, and takes no memory; it reads MESSAGE-INTEGRITY and
    /// MESSAGE-INTEGRITY-SHA256 at place 0 at once, and no other attribute. The value borrows the
    /// bytes of the message for `'a`, and may outlive the message.
    ///
    /// # Examples
    ///
    /// ```
    /// use stun_types::attribute::AttributeType;
    /// use stun_types::message::Message;
    ///
    /// let bytes = b"\x00\x01\x00\x10\x21\x12\xA4\x42abcdefghijkl\
    ///     \x88\x51\x00\x01a\0\0\0\x88\x51\x00\x01b\0\0\0";
    /// let message = Message::from_bytes(bytes)?;
    /// let (offset, second) = message
    ///     .nth_raw_attribute_and_offset(AttributeType(0x8851), 1)
    ///     .ok_or("there is one")?;
    /// assert_eq!(rt; offset, 28);
    /// assert_eq!(rt; second.value().as_bytes(), b"b".as_slice());
    /// ```
    pub fn nth_raw_attribute_and_offset(
        &self,
        atype: AttributeType,
        n: usize,
    ) -> Option<(usize, RawAttribute<'a>)>
        ensures { IsFound (nth (message_bytes self.now) atype.0 n) result }
    {
        let wanted = atype.value();
        if n == 0 && wanted == MESSAGE_INTEGRITY {
            return integrity_raw(self.bytes, self.offsets, IntegrityAlgorithm::Sha1);
        }
        if n == 0 && wanted == MESSAGE_INTEGRITY_SHA256 {
            return integrity_raw(self.bytes, self.offsets, IntegrityAlgorithm::Sha256);
        }
        self.iter_attributes()
            .filter(|(_offset, attribute)| type_number(attribute) == wanted)
            .nth(n)
    }

    /// The attribute at place `n`, counted from 0, among those of the type `atype` that the message
    /// shows, as [`Message::nth_raw_attribute_and_offset`] finds it.
    ///
    /// # Examples
    ///
    /// ```
    /// use stun_types::attribute::AttributeType;
    /// use stun_types::message::Message;
    ///
    /// let bytes = b"\x00\x01\x00\x08\x21\x12\xA4\x42abcdefghijkl\x88\x51\x00\x01a\0\0\0";
    /// let message = Message::from_bytes(bytes)?;
    /// assert!(rt; message.nth_raw_attribute(AttributeType(0x8851), 0).is_some());
    /// assert!(rt; message.nth_raw_attribute(AttributeType(0x8851), 1).is_none());
    /// ```
    pub fn nth_raw_attribute(&self, atype: AttributeType, n: usize) -> Option<RawAttribute<'a>>
        ensures { IsRawFound (nth (message_bytes self.now) atype.0 n) result }
    {
        let (_offset, attribute) = self.nth_raw_attribute_and_offset(atype, n)?;
        Some(attribute)
    }

    /// The first attribute of the type `atype` that the message shows, with the offset of its
    /// header in bytes: [`Message::nth_raw_attribute_and_offset`] with 0.
    ///
    /// # Examples
    ///
    /// ```
    /// use stun_types::attribute::Username;
    /// use stun_types::message::Message;
    /// use stun_types::prelude::*;
    ///
    /// let bytes = b"\x00\x01\x00\x10\x21\x12\xA4\x42abcdefghijkl\
    ///     \x80\x22\x00\x04STUN\x00\x06\x00\x03bob\0";
    /// let found = Message::from_bytes(bytes)?.raw_attribute_and_offset(Username::TYPE);
    /// let (offset, attribute) = found.ok_or("there is one")?;
    /// assert_eq!(rt; offset, 28);
    /// assert_eq!(rt; attribute.value().as_bytes(), b"bob".as_slice());
    /// ```
    pub fn raw_attribute_and_offset(
        &self,
        atype: AttributeType,
    ) -> Option<(usize, RawAttribute<'a>)>
        ensures { IsFound (nth (message_bytes self.now) atype.0 0) result }
    {
        self.nth_raw_attribute_and_offset(atype, 0)
    }

    /// The first attribute of the type `atype` that the message shows:
    /// [`Message::nth_raw_attribute`] with 0.
    ///
    /// Each look-up walks the attributes anew, so one for each type of a message with n
    /// attributes takes some n² steps. If several types are wanted, one walk finds them all.
    ///
    /// # Examples
    ///
    /// ```
    /// use stun_types::message::Message;
    /// use stun_types::prelude::*;
    ///
    /// let bytes = b"\x00\x01\x00\x10\x21\x12\xA4\x42abcdefghijkl\
    ///     \x80\x22\x00\x04STUN\x00\x06\x00\x03bob\0";
    /// let message = Message::from_bytes(bytes)?;
    /// let (mut software, mut username) = (None, None);
    /// for (_offset, attribute) in message.iter_attributes() {
    ///     match attribute.get_type().value() {
    ///         0x8022 if software.is_none() => software = Some(attribute),
    ///         0x0006 if username.is_none() => username = Some(attribute),
    ///         _ => {}
    ///     }
    /// }
    /// assert!(rt; software.is_some() && username.is_some());
    /// ```
    pub fn raw_attribute(&self, atype: AttributeType) -> Option<RawAttribute<'a>>
        ensures { IsRawFound (nth (message_bytes self.now) atype.0 0) result }
    {
        self.nth_raw_attribute(atype, 0)
    }

    /// Whether the message shows an attribute of the type `atype`. It takes no memory.
    ///
    /// # Examples
    ///
    /// ```
    /// use stun_types::attribute::{Realm, Software};
    /// use stun_types::message::Message;
    /// use stun_types::prelude::*;
    ///
    /// let bytes = b"\x00\x01\x00\x08\x21\x12\xA4\x42abcdefghijkl\x80\x22\x00\x04STUN";
    /// let message = Message::from_bytes(bytes)?;
    /// assert!(rt; message.has_attribute(Software::TYPE) && !message.has_attribute(Realm::TYPE));
    /// ```
    pub fn has_attribute(&self, atype: AttributeType) -> bool
        ensures { result ≡ is_some (nth (message_bytes self.now) atype.0 0) }
    {
        self.raw_attribute(atype).is_some()
    }

    /// Reads the attribute at place `n`, counted from 0, among those of the type `A::TYPE` that the
    /// message shows, and returns it with the offset of its header in bytes from the start of the
    /// message.
    ///
    /// It walks the attributes once, up to the one that it finds. It takes memory from `alloc`
    /// only if `A::from_raw` does, and what that borrows is borrowed from the bytes of the
    /// message for `'a`: `A::from_raw` is given a value that is borrowed (`reads_borrowed` of
    /// [`AttributeFromRaw`]).
    ///
    /// # Errors
    ///
    /// `MissingAttribute(A::TYPE)` if the message shows no more than `n` attributes of the type.
    /// Otherwise the errors of `A::from_raw`: those of the value, and `OutOfMemory` if it needs
    /// memory, as for a text or a list, and an allocation failed.
    ///
    /// # Examples
    ///
    /// ```
    /// use stun_types::attribute::Software;
    /// use stun_types::message::Message;
    ///
    /// let bytes = b"\x00\x01\x00\x10\x21\x12\xA4\x42abcdefghijkl\
    ///     \x80\x22\x00\x04ABCD\x80\x22\x00\x04EFGH";
    /// let message = Message::from_bytes(bytes)?;
    /// let (offset, software) = message.nth_attribute_and_offset::<Software>(alloc, 1)?;
    /// assert_eq!(rt; (offset, software.software()), (28, "EFGH"));
    /// ```
    pub fn nth_attribute_and_offset<A: AttributeFromRaw<'a> + AttributeStaticType>(
        &self,
        alloc: Global,
        n: usize,
    ) -> Result<(usize, A), StunParseError>
        ensures reads { IsReadAt A.TYPE A.reads (nth (message_bytes self.now) A.TYPE.0 n) result }
        ensures borrowed { IsReadAt A.TYPE A.reads_borrowed (nth (message_bytes self.now) A.TYPE.0 n)
            result }
    {
        let Some((offset, raw)) = self.nth_raw_attribute_and_offset(A::TYPE, n) else {
            return Err(StunParseError::MissingAttribute(A::TYPE));
        };
        let attribute = A::from_raw(alloc, raw)?;
        Ok((offset, attribute))
    }

    /// Reads the attribute at place `n`, counted from 0, among those of the type `A::TYPE` that the
    /// message shows, as [`Message::nth_attribute_and_offset`] does.
    ///
    /// # Errors
    ///
    /// `MissingAttribute(A::TYPE)` if the message shows no more than `n` attributes of the type.
    /// Otherwise the errors of `A::from_raw`, `OutOfMemory` among them, as for
    /// [`Message::nth_attribute_and_offset`].
    ///
    /// # Examples
    ///
    /// ```
    /// use stun_types::attribute::Software;
    /// use stun_types::message::{Message, StunParseError};
    /// use stun_types::prelude::*;
    ///
    /// let bytes = b"\x00\x01\x00\x08\x21\x12\xA4\x42abcdefghijkl\x80\x22\x00\x04STUN";
    /// let message = Message::from_bytes(bytes)?;
    /// assert_eq!(rt; message.nth_attribute::<Software>(alloc, 0)?.software(), "STUN");
    /// let missing = StunParseError::MissingAttribute(Software::TYPE);
    /// assert_eq!(rt; message.nth_attribute::<Software>(alloc, 1), Err(missing));
    /// ```
    pub fn nth_attribute<A: AttributeFromRaw<'a> + AttributeStaticType>(
        &self,
        alloc: Global,
        n: usize,
    ) -> Result<A, StunParseError>
        ensures reads { IsRead A.TYPE A.reads (nth (message_bytes self.now) A.TYPE.0 n) result }
        ensures borrowed { IsRead A.TYPE A.reads_borrowed (nth (message_bytes self.now) A.TYPE.0 n)
            result }
    {
        let (_offset, attribute) = self.nth_attribute_and_offset(alloc, n)?;
        Ok(attribute)
    }

    /// Reads the first attribute of the type `A::TYPE` that the message shows, and returns it with
    /// the offset of its header in bytes: [`Message::nth_attribute_and_offset`] with 0.
    ///
    /// # Errors
    ///
    /// `MissingAttribute(A::TYPE)` if the message shows no attribute of the type. Otherwise the
    /// errors of `A::from_raw`, `OutOfMemory` among them, as for
    /// [`Message::nth_attribute_and_offset`].
    ///
    /// # Examples
    ///
    /// ```
    /// use stun_types::attribute::Username;
    /// use stun_types::message::Message;
    ///
    /// let bytes = b"\x00\x01\x00\x10\x21\x12\xA4\x42abcdefghijkl\
    ///     \x80\x22\x00\x04STUN\x00\x06\x00\x03bob\0";
    /// let message = Message::from_bytes(bytes)?;
    /// let (offset, username) = message.attribute_and_offset::<Username>(alloc)?;
    /// assert_eq!(rt; (offset, username.username()), (28, "bob"));
    /// ```
    pub fn attribute_and_offset<A: AttributeFromRaw<'a> + AttributeStaticType>(
        &self,
        alloc: Global,
    ) -> Result<(usize, A), StunParseError>
        ensures reads { IsReadAt A.TYPE A.reads (nth (message_bytes self.now) A.TYPE.0 0) result }
        ensures borrowed { IsReadAt A.TYPE A.reads_borrowed (nth (message_bytes self.now) A.TYPE.0 0)
            result }
    {
        self.nth_attribute_and_offset(alloc, 0)
    }

    /// Reads the first attribute of the type `A::TYPE` that the message shows:
    /// [`Message::nth_attribute`] with 0.
    ///
    /// # Errors
    ///
    /// `MissingAttribute(A::TYPE)` if the message shows no attribute of the type. Otherwise the
    /// errors of `A::from_raw`: those of the value, and `OutOfMemory` if it needs memory, as for
    /// a text or a list, and an allocation failed.
    ///
    /// # Examples
    ///
    /// ```
    /// use stun_types::attribute::{Software, Username};
    /// use stun_types::message::Message;
    ///
    /// let bytes = b"\x00\x01\x00\x10\x21\x12\xA4\x42abcdefghijkl\
    ///     \x80\x22\x00\x04STUN\x00\x06\x00\x03bob\0";
    /// let message = Message::from_bytes(bytes)?;
    /// assert_eq!(rt; message.attribute::<Software>(alloc)?.software(), "STUN");
    /// assert_eq!(rt; message.attribute::<Username>(alloc)?.username(), "bob");
    /// ```
    pub fn attribute<A: AttributeFromRaw<'a> + AttributeStaticType>(
        &self,
        alloc: Global,
    ) -> Result<A, StunParseError>
        ensures reads { IsRead A.TYPE A.reads (nth (message_bytes self.now) A.TYPE.0 0) result }
        ensures borrowed { IsRead A.TYPE A.reads_borrowed (nth (message_bytes self.now) A.TYPE.0 0)
            result }
    {
        self.nth_attribute(alloc, 0)
    }
}
