//! Adding attributes to a message that is being written, and reading its header.

ghost use Rattle.std.specs.Prelude.{◌≡◌, OnOk, ◌↔◌, true, IsTrue, None, ◌^◌, ◌<◌, ◌≤◌, length};
ghost use Rattle.stun_grammar.specs.Headers.{is_header, type_field, id_field};
ghost use Rattle.stun_grammar.specs.AttributeTypes.{FINGERPRINT, IsOrdinary};
ghost use Rattle.stun_grammar.specs.Hmac.{digest_length};
ghost use Rattle.stun_grammar.specs.Verdicts.{type_of_algorithm};
ghost use Rattle.stun_grammar.specs.Fingerprints.{fingerprint_value};
ghost use Rattle.stun_grammar.specs.Steps.{add, sign, finger, integrity_value};
ghost use Rattle.stun_grammar.specs.Adding.{grown_length, add_refusal, any_refusal, IsAddAnswer, IsAnyAnswer};
ghost use Rattle.stun_keys.specs.Keys.{key_bytes, credentials_key};
ghost use Rattle.stun_base.specs.MessageTypes.{class_of, method_of, is_response as responds};
ghost use Rattle.stun_types.specs.Writers.{Allocates, Adds};

mod every_writer;

use crate::attribute::{AttributeType, AttributeWrite};
use crate::message::{
    AddError, IntegrityAlgorithm, IntegrityKey, MessageClass, MessageIntegrityCredentials,
    MessageType, Method, StunWriteError, TransactionId,
};
use crate::writing::MessageWrite;
use std::alloc::Global;

/// Adds attributes to a message that is being written, and reads its header (RFC 8489, sections 5
/// and 14). Every [`MessageWrite`] has these methods.
///
/// The header may be read if the bytes written begin with one, as they do after
/// `Message::builder` and after every add that follows it: adding attributes changes neither the
/// message type nor the transaction ID.
///
/// # Examples
///
/// ```
/// use stun_types::attribute::Software;
/// use stun_types::message::{
///     BINDING, IntegrityAlgorithm, IntegrityKey, Message, MessageClass, MessageType,
///     MessageWriteVec, TransactionId,
/// };
/// use stun_types::prelude::*;
///
/// let key = IntegrityKey::new(alloc, b"secret", None)?;
/// let mtype = MessageType::from_class_method(MessageClass::Request, BINDING);
/// let write = MessageWriteVec::new(alloc);
/// let mut message = Message::builder(mtype, TransactionId::from(1000), write)?;
/// message.add_attribute(&Software::new(alloc, "my client")?)?;
/// message.add_message_integrity_with_key(&key, IntegrityAlgorithm::Sha256)?;
/// message.add_fingerprint()?;
/// assert_eq!(rt; message.finish().len(), 20 + 16 + 36 + 8);
/// ```
pub trait MessageWriteExt: MessageWrite {
    /// The type of the message that is being written: class and method.
    ///
    /// # Requires
    ///
    /// The bytes written begin with a header: `MessageHeader::from_bytes(message.data())` is `Ok`.
    ///
    /// # Examples
    ///
    /// ```
    /// use stun_types::message::{BINDING, Message, MessageClass, MessageType, MessageWriteVec};
    /// use stun_types::prelude::*;
    ///
    /// let request = Message::from_bytes(b"\x00\x01\x00\x00\x21\x12\xA4\x42abcdefghijkl")?;
    /// let response = Message::builder_success(&request, MessageWriteVec::new(alloc))?;
    /// let mtype = MessageType::from_class_method(MessageClass::Success, BINDING);
    /// assert_eq!(rt; response.get_type(), mtype);
    /// assert!(rt; response.has_class(response.class()) && response.is_response());
    /// assert!(rt; response.has_method(response.method()));
    /// assert_eq!(rt; response.transaction_id(), request.transaction_id());
    /// ```
    fn get_type(&self) -> MessageType
        requires { is_header (Self.state self.now).bytes ≡ true }
        ensures { result ≡ type_field (Self.state self.now).bytes };

    /// The class of the message that is being written.
    ///
    /// # Requires
    ///
    /// As for [`MessageWriteExt::get_type`].
    fn class(&self) -> MessageClass
        requires { is_header (Self.state self.now).bytes ≡ true }
        ensures { result ≡ class_of (type_field (Self.state self.now).bytes) };

    /// Whether the class of the message that is being written is `cls`.
    ///
    /// # Requires
    ///
    /// As for [`MessageWriteExt::get_type`].
    fn has_class(&self, cls: MessageClass) -> bool
        requires { is_header (Self.state self.now).bytes ≡ true }
        ensures { IsTrue result ↔ (class_of (type_field (Self.state self.now).bytes) ≡ cls) };

    /// Whether the message that is being written is a response: its class is success or error.
    ///
    /// # Requires
    ///
    /// As for [`MessageWriteExt::get_type`].
    fn is_response(&self) -> bool
        requires { is_header (Self.state self.now).bytes ≡ true }
        ensures { result ≡ responds (class_of (type_field (Self.state self.now).bytes)) };

    /// The method of the message that is being written.
    ///
    /// # Requires
    ///
    /// As for [`MessageWriteExt::get_type`].
    fn method(&self) -> Method
        requires { is_header (Self.state self.now).bytes ≡ true }
        ensures { result ≡ method_of (type_field (Self.state self.now).bytes) };

    /// Whether the method of the message that is being written is `method`.
    ///
    /// # Requires
    ///
    /// As for [`MessageWriteExt::get_type`].
    fn has_method(&self, method: Method) -> bool
        requires { is_header (Self.state self.now).bytes ≡ true }
        ensures { IsTrue result ↔ (method_of (type_field (Self.state self.now).bytes) ≡ method) };

    /// The transaction ID of the message that is being written.
    ///
    /// # Requires
    ///
    /// As for [`MessageWriteExt::get_type`].
    fn transaction_id(&self) -> TransactionId
        requires { is_header (Self.state self.now).bytes ≡ true }
        ensures { result ≡ id_field (Self.state self.now).bytes };

    /// Adds an attribute of an ordinary type: any type but MESSAGE-INTEGRITY (0x0008),
    /// MESSAGE-INTEGRITY-SHA256 (0x001C) and FINGERPRINT (0x8028), which have methods of their own.
    ///
    /// Its type, length, value and zero padding are written straight into the message, after what
    /// is there, and the length field of the header is set to count them (RFC 8489, sections 5
    /// and 14).
    ///
    /// # Requires
    ///
    /// `attribute.get_type().is_ending()` is `false`. An attribute whose Rust type fixes the type
    /// needs no test, and neither does a raw attribute that `RawAttribute::new` or `new_owned` makes
    /// of a literal type. One whose type is known only when the program runs is added by
    /// [`MessageWriteExt::add_any_attribute`], which tests it. A type and bytes are added by
    /// [`MessageWriteExt::add_ordinary_value`] and [`MessageWriteExt::add_value`], without a raw
    /// attribute.
    ///
    /// # Errors
    ///
    /// The first of these that applies; the bytes and the attributes then stay as they were:
    ///
    /// - `MessageIntegrityExists` or `FingerprintExists`, if an attribute of one of those three
    ///   types is written: the first of them decides which;
    /// - `TooSmall { expected: 20, actual }` if fewer than 20 bytes are written;
    /// - `TooSmall { expected, actual }` if the message would be longer than the writer takes:
    ///   its length with the attribute, and [`MessageWrite::max_size`];
    /// - `TooLarge { expected: 65555, actual }` if it would be longer than a message may be;
    /// - `OutOfMemory`, only if the attribute needs more than the writer's ready room: the bytes
    ///   and the attributes that it surely takes, of which [`MessageWrite`] says more.
    ///
    /// # Examples
    ///
    /// ```
    /// use stun_types::attribute::{Software, Username};
    /// use stun_types::message::{
    ///     BINDING, Message, MessageClass, MessageType, MessageWriteVec, StunWriteError,
    ///     TransactionId,
    /// };
    /// use stun_types::prelude::*;
    ///
    /// let mtype = MessageType::from_class_method(MessageClass::Request, BINDING);
    /// let write = MessageWriteVec::new(alloc);
    /// let mut message = Message::builder(mtype, TransactionId::from(1000), write)?;
    /// message.add_attribute(&Software::new(alloc, "STUN")?)?;
    /// assert_eq!(rt; &message.data()[20..], b"\x80\x22\x00\x04STUN".as_slice());
    /// message.add_fingerprint()?;
    /// let late = message.add_attribute(&Username::new(alloc, "bob")?);
    /// assert_eq!(rt; late, Err(StunWriteError::FingerprintExists));
    /// ```
    fn add_attribute(&mut self, attribute: &dyn AttributeWrite) -> Result<(), StunWriteError>
        requires ordinary { IsOrdinary (atype attribute.now) }
        ensures answer { IsAddAnswer
            (add_refusal (add (atype attribute.now) (value attribute.now))
            (Self.state self.old).types (length (Self.state self.old).bytes)
            (Self.state self.old).greatest)
            (Allocates (Self.state self.old) (length (value attribute.now))) result }
        ensures adds { Adds result (Self.state self.old) (Self.state self.new)
            (atype attribute.now) (value attribute.now) }
        ensures type_fits { atype attribute.now < 2 ^ 16 }
        ensures value_fits { length (value attribute.now) < 2 ^ 16 };

    /// Adds an attribute whose type is known only at run time, as [`MessageWriteExt::add_attribute`]
    /// does: one of an ending type is refused. A proxy adds the attributes of a message that it
    /// received so.
    ///
    /// # Examples
    ///
    /// ```
    /// use stun_types::message::{Message, MessageWriteVec};
    /// use stun_types::prelude::*;
    ///
    /// let bytes = b"\x00\x01\x00\x08\x21\x12\xA4\x42abcdefghijkl\x80\x22\x00\x04STUN";
    /// let received = Message::from_bytes(bytes)?;
    /// let (mtype, id) = (received.get_type(), received.transaction_id());
    /// let mut message = Message::builder(mtype, id, MessageWriteVec::new(alloc))?;
    /// for (_offset, attribute) in received.iter_attributes() {
    ///     if !attribute.get_type().is_ending() {
    ///         message.add_any_attribute(&attribute)?;
    ///     }
    /// }
    /// assert_eq!(rt; message.finish().as_slice(), bytes.as_slice());
    /// ```
    ///
    /// # Errors
    ///
    /// `EndingType` with the type if it is that of MESSAGE-INTEGRITY (0x0008),
    /// MESSAGE-INTEGRITY-SHA256 (0x001C) or FINGERPRINT (0x8028), otherwise `Write` with the error
    /// of [`MessageWriteExt::add_attribute`]; the bytes and the attributes then stay as they were.
    fn add_any_attribute(&mut self, attribute: &dyn AttributeWrite) -> Result<(), AddError>
        ensures answer { IsAnyAnswer
            (any_refusal (atype attribute.now) (value attribute.now)
            (Self.state self.old).types (length (Self.state self.old).bytes)
            (Self.state self.old).greatest)
            (Allocates (Self.state self.old) (length (value attribute.now))) result }
        ensures adds { Adds result (Self.state self.old) (Self.state self.new)
            (atype attribute.now) (value attribute.now) };

    /// Adds an attribute, of which a type and the bytes of a value are given, as
    /// [`MessageWriteExt::add_any_attribute`] does.
    ///
    /// # Examples
    ///
    /// ```
    /// use stun_types::attribute::AttributeType;
    /// use stun_types::message::{
    ///     BINDING, Message, MessageClass, MessageType, MessageWriteVec, TransactionId,
    /// };
    /// use stun_types::prelude::*;
    ///
    /// let mtype = MessageType::from_class_method(MessageClass::Request, BINDING);
    /// let write = MessageWriteVec::new(alloc);
    /// let mut message = Message::builder(mtype, TransactionId::from(1000), write)?;
    /// message.add_value(AttributeType(0x8022), b"my client")?;
    /// assert!(rt; message.add_value(AttributeType(0x8028), &[0; 4]).is_err());
    /// ```
    ///
    /// # Requires
    ///
    /// `value.len()` is at most 65535.
    ///
    /// # Errors
    ///
    /// As for [`MessageWriteExt::add_any_attribute`].
    fn add_value(&mut self, atype: AttributeType, value: &[u8]) -> Result<(), AddError>
        requires { length value.now ≤ 65535 }
        ensures answer { IsAnyAnswer
            (any_refusal atype.0 value.now (Self.state self.old).types
            (length (Self.state self.old).bytes) (Self.state self.old).greatest)
            (Allocates (Self.state self.old) (length value.now)) result }
        ensures adds { Adds result (Self.state self.old) (Self.state self.new) atype.0 value.now };

    /// Adds an attribute of an ordinary type, of which a type and the bytes of a value are given,
    /// as [`MessageWriteExt::add_attribute`] does.
    ///
    /// # Requires
    ///
    /// `atype.is_ending()` is `false`, and `value.len()` is at most 65535.
    ///
    /// # Errors
    ///
    /// As for [`MessageWriteExt::add_attribute`].
    fn add_ordinary_value(
        &mut self,
        atype: AttributeType,
        value: &[u8],
    ) -> Result<(), StunWriteError>
        requires ordinary { IsOrdinary atype.0 }
        requires value { length value.now ≤ 65535 }
        ensures answer { IsAddAnswer
            (add_refusal (add atype.0 value.now) (Self.state self.old).types
            (length (Self.state self.old).bytes) (Self.state self.old).greatest)
            (Allocates (Self.state self.old) (length value.now)) result }
        ensures adds { Adds result (Self.state self.old) (Self.state self.new) atype.0 value.now };

    /// Adds the integrity attribute of an algorithm, with the key that the credentials give for it:
    /// MESSAGE-INTEGRITY (0x0008) with the 20 bytes of the HMAC-SHA1, or MESSAGE-INTEGRITY-SHA256
    /// (0x001C) with the 32 bytes of the HMAC-SHA256. The HMAC covers the message before the
    /// attribute, with a length field that counts the attribute (RFC 8489, sections 14.5 and 14.6).
    ///
    /// The key is made in memory that `alloc` gives, after all other checks.
    ///
    /// # Errors
    ///
    /// The first of these that applies; the bytes and the attributes then stay as they were:
    ///
    /// - `AttributeExists` with the type of an integrity attribute, or `FingerprintExists`, by the
    ///   first written attribute that blocks the addition: for `Sha1` one of 0x0008, 0x001C and
    ///   0x8028, for `Sha256` one of 0x001C and 0x8028;
    /// - `TooSmall` and `TooLarge` as for [`MessageWriteExt::add_attribute`];
    /// - `OutOfMemory`, if the key couldn't be made, or the attribute needs more than the ready
    ///   room.
    ///
    /// # Examples
    ///
    /// ```
    /// use stun_types::message::{
    ///     BINDING, IntegrityAlgorithm, Message, MessageClass, MessageIntegrityCredentials,
    ///     MessageType, MessageWriteVec, ShortTermCredentials, TransactionId,
    /// };
    /// use stun_types::prelude::*;
    ///
    /// let password = ShortTermCredentials::new(String::from_str(alloc, "secret")?);
    /// let credentials = MessageIntegrityCredentials::from(password);
    /// let mtype = MessageType::from_class_method(MessageClass::Request, BINDING);
    /// let write = MessageWriteVec::new(alloc);
    /// let mut message = Message::builder(mtype, TransactionId::from(1000), write)?;
    /// message.add_message_integrity(alloc, &credentials, IntegrityAlgorithm::Sha1)?;
    /// assert_eq!(rt; &message.data()[20..24], [0, 8, 0, 20].as_slice());
    /// ```
    fn add_message_integrity(
        &mut self,
        alloc: Global,
        credentials: &MessageIntegrityCredentials,
        algorithm: IntegrityAlgorithm,
    ) -> Result<(), StunWriteError>
        ensures answer { IsAddAnswer
            (add_refusal (sign algorithm (credentials_key credentials.now algorithm))
            (Self.state self.old).types (length (Self.state self.old).bytes)
            (Self.state self.old).greatest)
            (Unit {0}) result }
        ensures adds { Adds result (Self.state self.old) (Self.state self.new)
            (type_of_algorithm algorithm)
            (integrity_value (Self.state self.old).bytes
            (credentials_key credentials.now algorithm) algorithm) };

    /// Adds the integrity attribute of an algorithm, with a key, whichever algorithm the key was
    /// made for, as [`MessageWriteExt::add_message_integrity`] does with credentials.
    ///
    /// # Errors
    ///
    /// As for [`MessageWriteExt::add_message_integrity`], but `OutOfMemory` only if the
    /// attribute needs more than the ready room.
    fn add_message_integrity_with_key(
        &mut self,
        key: &IntegrityKey,
        algorithm: IntegrityAlgorithm,
    ) -> Result<(), StunWriteError>
        ensures answer { IsAddAnswer
            (add_refusal (sign algorithm (key_bytes key.now))
            (Self.state self.old).types (length (Self.state self.old).bytes)
            (Self.state self.old).greatest)
            (Allocates (Self.state self.old) (digest_length algorithm)) result }
        ensures adds { Adds result (Self.state self.old) (Self.state self.new)
            (type_of_algorithm algorithm)
            (integrity_value (Self.state self.old).bytes (key_bytes key.now) algorithm) };

    /// Adds the integrity attribute of an algorithm, with a key, without the checks of
    /// [`MessageWriteExt::add_message_integrity_with_key`].
    ///
    /// # Requires
    ///
    /// That method would refuse nothing but for lack of memory:
    ///
    /// - no attribute that blocks the addition is written: for `Sha1` none of 0x0008, 0x001C and
    ///   0x8028, for `Sha256` none of 0x001C and 0x8028, as [`MessageWrite::has_any_attribute`]
    ///   tests;
    /// - [`MessageWrite::len`] is at least 20, and with 24 bytes more for `Sha1`, or 36 for
    ///   `Sha256`, at most 65555 and at most [`MessageWrite::max_size`].
    ///
    /// # Errors
    ///
    /// Only `OutOfMemory`, and only if the attribute needs more than the ready room; nothing
    /// changes then.
    fn add_message_integrity_with_key_unchecked(
        &mut self,
        key: &IntegrityKey,
        algorithm: IntegrityAlgorithm,
    ) -> Result<(), StunWriteError>
        requires { add_refusal (sign algorithm (key_bytes key.now))
            (Self.state self.old).types (length (Self.state self.old).bytes)
            (Self.state self.old).greatest ≡ None }
        ensures answer { IsAddAnswer None
            (Allocates (Self.state self.old) (digest_length algorithm)) result }
        ensures adds { Adds result (Self.state self.old) (Self.state self.new)
            (type_of_algorithm algorithm)
            (integrity_value (Self.state self.old).bytes (key_bytes key.now) algorithm) }
        ensures size { OnOk result (length (Self.state self.new).bytes
            ≡ grown_length (length (Self.state self.old).bytes) (digest_length algorithm)) };

    /// Adds a FINGERPRINT (0x8028). Its value has four bytes: the CRC-32 of the message before it,
    /// with a length field that counts the attribute, XORed with 0x5354554E
    /// (RFC 8489, section 14.7).
    ///
    /// # Errors
    ///
    /// The first of these that applies; the bytes and the attributes then stay as they were:
    ///
    /// - `AttributeExists(0x8028)` if a FINGERPRINT is written;
    /// - `TooSmall` and `TooLarge` as for [`MessageWriteExt::add_attribute`];
    /// - `OutOfMemory`, only if the attribute needs more than the ready room.
    ///
    /// # Examples
    ///
    /// ```
    /// use stun_types::message::{
    ///     BINDING, Message, MessageClass, MessageType, MessageWriteVec, TransactionId,
    /// };
    /// use stun_types::prelude::*;
    ///
    /// let mtype = MessageType::from_class_method(MessageClass::Request, BINDING);
    /// let write = MessageWriteVec::new(alloc);
    /// let mut message = Message::builder(mtype, TransactionId::from(1), write)?;
    /// message.add_fingerprint()?;
    /// // the CRC-32 of the header, with a length of 8, XORed with 0x5354554E
    /// assert_eq!(rt; &message.data()[24..], [0xC5, 0xAD, 0xC9, 0x60].as_slice());
    /// assert!(rt; message.add_fingerprint().is_err());
    /// ```
    fn add_fingerprint(&mut self) -> Result<(), StunWriteError>
        ensures answer { IsAddAnswer
            (add_refusal (finger)
            (Self.state self.old).types (length (Self.state self.old).bytes)
            (Self.state self.old).greatest)
            (Allocates (Self.state self.old) 4) result }
        ensures adds { Adds result (Self.state self.old) (Self.state self.new) FINGERPRINT
            (fingerprint_value (Self.state self.old).bytes
            (length (Self.state self.old).bytes)) };

    /// Adds a FINGERPRINT without the checks of [`MessageWriteExt::add_fingerprint`].
    ///
    /// # Requires
    ///
    /// No FINGERPRINT is written, as [`MessageWrite::has_attribute`] tests, and there is room for
    /// one: [`MessageWrite::len`] is at least 20, and with 8 bytes more at most 65555 and at most
    /// [`MessageWrite::max_size`].
    ///
    /// # Errors
    ///
    /// Only `OutOfMemory`, and only if the attribute needs more than the ready room; nothing
    /// changes then.
    fn add_fingerprint_unchecked(&mut self) -> Result<(), StunWriteError>
        requires { add_refusal finger
            (Self.state self.old).types (length (Self.state self.old).bytes)
            (Self.state self.old).greatest ≡ None }
        ensures answer { IsAddAnswer None (Allocates (Self.state self.old) 4) result }
        ensures adds { Adds result (Self.state self.old) (Self.state self.new) FINGERPRINT
            (fingerprint_value (Self.state self.old).bytes
            (length (Self.state self.old).bytes)) };
}
