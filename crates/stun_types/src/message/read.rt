//! Reading messages.

ghost use Rattle.std.specs.Prelude.{◌≡◌, None};
ghost use Rattle.stun_grammar.specs.Parsing.{parse_fault};
ghost use Rattle.stun_types.specs.Offsets.{OffsetsOf};

use super::printed::OwnPrinter;
use crate::message::{
    MessageClass, MessageHeader, MessageType, Method, StunParseError, TransactionId,
};
use crate::reading::{IntegrityOffsets, MessageAttributesIter, check_message, iter_framed};
use crate::show::{display, print_message};
use crate::{PrintText, TextSink, TextTooLong};
use std::fmt;
use stun_base::read_header;
use stun_text::write_text;

/// A message, borrowed from the bytes that [`Message::from_bytes`] parsed.
///
/// It is `Copy`. The attributes that it shows borrow the bytes for `'a`, and may outlive it. Beside
/// the bytes it keeps the offsets of MESSAGE-INTEGRITY and of MESSAGE-INTEGRITY-SHA256, each if
/// it shows that attribute.
#[derive(Clone, Copy)]
#[derive_where(Debug)]
pub struct Message<'a> {
    pub(super) bytes: &'a [u8],
    #[derive_where(skip)]
    pub(super) offsets: IntegrityOffsets,
    ghost parsed: { parse_fault bytes.now ≡ None },
    ghost keeps: { OffsetsOf offsets bytes.now },
}

impl<'a> Message<'a> {
    ghost use Rattle.std.specs.Prelude.{◌≡◌, ◌↔◌, ◌^◌, ◌<◌, IsTrue, MatchResult, None, Some, length};
    ghost use Rattle.stun_grammar.specs.Headers.{type_field, id_field};
    ghost use Rattle.stun_grammar.specs.Parsing.{parse_fault};
    ghost use Rattle.stun_grammar.specs.Showing.{shown};
    ghost use Rattle.stun_base.specs.MessageTypes.{class_of, method_of, header_of, is_response as responds};
    ghost use Rattle.stun_types.specs.Message.{message_bytes};
    ghost use Rattle.stun_types.specs.Iterating.{items_left, borrowed};

    /// Parses a message: a header of twenty bytes, and the attributes that follow it up to the end
    /// of `bytes` (RFC 8489, sections 5, 6.3 and 14). The message borrows `bytes`. Parsing takes no
    /// memory and copies nothing.
    ///
    /// `bytes` are the message and nothing else, so more than 65555 of them never parse. If
    /// there may be more, as in a buffer for the bytes of a stream (TCP or TLS) or in one that is
    /// longer than the datagram that was received into it, cut them first to the length that
    /// [`message_length`](crate::message::message_length) returns.
    ///
    /// The scan passes ordinary attributes, and then ending ones (MESSAGE-INTEGRITY,
    /// MESSAGE-INTEGRITY-SHA256 and FINGERPRINT), each at most once and in any order. It stops,
    /// without an error, at an ordinary attribute after an ending one and at an ending type that it
    /// has met before; the bytes from there on aren't looked at. A FINGERPRINT that is scanned must
    /// have the right value.
    ///
    /// # Errors
    ///
    /// The first of these that applies:
    ///
    /// - `NotStun` and `Truncated { expected: 20, actual }` as for [`MessageHeader::from_bytes`];
    /// - `Truncated { expected, actual }` if fewer bytes follow the header than its length field
    ///   states, and `TooLarge { expected, actual }` if more do: `expected` is 20 more than the
    ///   field, and `actual` the length of `bytes`;
    /// - for each attribute in turn, `Truncated` if its header, its value or its padding is cut
    ///   off: `expected` is the offset at which that would end and `actual` the length of `bytes`,
    ///   both plus 4 if the header is cut off;
    /// - for a FINGERPRINT, also `Truncated { expected: 4, actual }` or
    ///   `TooLarge { expected: 4, actual }` if its value doesn't have four bytes, and
    ///   `FingerprintMismatch` if the value isn't right.
    ///
    /// # Examples
    ///
    /// ```
    /// use stun_types::message::{BINDING, Message, MessageClass, StunParseError};
    ///
    /// let bytes = b"\x00\x01\x00\x08\x21\x12\xA4\x42abcdefghijkl\x80\x22\x00\x04STUN";
    /// let message = Message::from_bytes(bytes)?;
    /// assert!(rt; message.has_class(MessageClass::Request) && message.has_method(BINDING));
    /// assert_eq!(rt; message.transaction_id().to_bytes(), *b"abcdefghijkl");
    /// let cut_off = StunParseError::Truncated { expected: 28, actual: 24 };
    /// assert_eq!(rt; Message::from_bytes(&bytes[..24]).err(), Some(cut_off));
    /// ```
    #[inline(always)]
    pub fn from_bytes(bytes: &'a [u8]) -> Result<Message<'a>, StunParseError>
        ensures { MatchResult result
            (λ message. (parse_fault bytes.now ≡ None) × (message_bytes message ≡ bytes.now))
            (λ e. parse_fault bytes.now ≡ Some e) }
    {
        let offsets = check_message(bytes)?;
        Ok(Message { bytes, offsets })
    }

    /// The bytes that the message was parsed from. They parse: a function that is handed a message
    /// need not parse its bytes again.
    ///
    /// # Examples
    ///
    /// ```
    /// use stun_types::message::Message;
    ///
    /// let bytes = b"\x00\x01\x00\x00\x21\x12\xA4\x42abcdefghijkl";
    /// assert_eq!(rt; Message::from_bytes(bytes)?.as_bytes(), bytes.as_slice());
    /// ```
    pub fn as_bytes(&self) -> &'a [u8]
        ensures value { result.now ≡ message_bytes self.now }
        ensures accepted { parse_fault (message_bytes self.now) ≡ None }
    {
        self.bytes
    }

    /// The header of the message: type, length field and transaction ID, which the methods below
    /// return one by one.
    ///
    /// # Examples
    ///
    /// ```
    /// use stun_types::message::Message;
    ///
    /// let bytes = b"\x00\x01\x00\x08\x21\x12\xA4\x42abcdefghijkl\x80\x22\x00\x04STUN";
    /// let header = Message::from_bytes(bytes)?.header();
    /// assert_eq!(rt; header.data_length(), 8);
    /// ```
    pub fn header(&self) -> MessageHeader
        ensures { result ≡ header_of (message_bytes self.now) }
    {
        read_header(self.bytes)
    }

    /// The type of the message: class and method.
    ///
    /// # Examples
    ///
    /// ```
    /// use stun_types::message::{BINDING, Message, MessageClass, MessageType};
    ///
    /// let message = Message::from_bytes(b"\x01\x01\x00\x00\x21\x12\xA4\x42abcdefghijkl")?;
    /// let mtype = MessageType::from_class_method(MessageClass::Success, BINDING);
    /// assert_eq!(rt; message.get_type(), mtype);
    /// ```
    pub fn get_type(&self) -> MessageType
        ensures { result ≡ type_field (message_bytes self.now) }
    {
        self.header().get_type()
    }

    /// The class of the message.
    ///
    /// # Examples
    ///
    /// ```
    /// use stun_types::message::{Message, MessageClass};
    ///
    /// let message = Message::from_bytes(b"\x01\x11\x00\x00\x21\x12\xA4\x42abcdefghijkl")?;
    /// assert_eq!(rt; message.class(), MessageClass::Error);
    /// ```
    pub fn class(&self) -> MessageClass
        ensures { result ≡ class_of (type_field (message_bytes self.now)) }
    {
        self.get_type().class()
    }

    /// Whether the class of the message is `cls`.
    ///
    /// # Examples
    ///
    /// ```
    /// use stun_types::message::{Message, MessageClass};
    ///
    /// let message = Message::from_bytes(b"\x00\x11\x00\x00\x21\x12\xA4\x42abcdefghijkl")?;
    /// assert!(rt; message.has_class(MessageClass::Indication));
    /// assert!(rt; !message.has_class(MessageClass::Request));
    /// ```
    pub fn has_class(&self, cls: MessageClass) -> bool
        ensures { IsTrue result ↔ (class_of (type_field (message_bytes self.now)) ≡ cls) }
    {
        self.class() == cls
    }

    /// Whether the message is a response: its class is success or error.
    ///
    /// # Examples
    ///
    /// ```
    /// use stun_types::message::Message;
    ///
    /// let response = Message::from_bytes(b"\x01\x01\x00\x00\x21\x12\xA4\x42abcdefghijkl")?;
    /// let request = Message::from_bytes(b"\x00\x01\x00\x00\x21\x12\xA4\x42abcdefghijkl")?;
    /// assert!(rt; response.is_response() && !request.is_response());
    /// ```
    pub fn is_response(&self) -> bool
        ensures { result ≡ responds (class_of (type_field (message_bytes self.now))) }
    {
        self.class().is_response()
    }

    /// The method of the message.
    ///
    /// # Examples
    ///
    /// ```
    /// use stun_types::message::Message;
    ///
    /// // an Allocate request of TURN
    /// let message = Message::from_bytes(b"\x00\x03\x00\x00\x21\x12\xA4\x42abcdefghijkl")?;
    /// assert_eq!(rt; message.method().value(), 0x003);
    /// ```
    pub fn method(&self) -> Method
        ensures { result ≡ method_of (type_field (message_bytes self.now)) }
    {
        self.get_type().method()
    }

    /// Whether the method of the message is `method`.
    ///
    /// # Examples
    ///
    /// ```
    /// use stun_types::message::{BINDING, Message, Method};
    ///
    /// let message = Message::from_bytes(b"\x00\x01\x00\x00\x21\x12\xA4\x42abcdefghijkl")?;
    /// assert!(rt; message.has_method(BINDING) && !message.has_method(Method::new(0x003)));
    /// ```
    pub fn has_method(&self, method: Method) -> bool
        ensures { IsTrue result ↔ (method_of (type_field (message_bytes self.now)) ≡ method) }
    {
        self.method() == method
    }

    /// The transaction ID of the message.
    ///
    /// # Examples
    ///
    /// ```
    /// use stun_types::message::Message;
    ///
    /// let message = Message::from_bytes(b"\x00\x01\x00\x00\x21\x12\xA4\x42abcdefghijkl")?;
    /// assert_eq!(rt; message.transaction_id().to_bytes(), *b"abcdefghijkl");
    /// ```
    pub fn transaction_id(&self) -> TransactionId
        ensures { result ≡ id_field (message_bytes self.now) }
    {
        self.header().transaction_id()
    }

    /// Iterates over the attributes that the message shows, each with the offset of its header in
    /// bytes; [`MessageAttributesIter`] says which they are. It takes no memory, and the values
    /// borrow the bytes of the message.
    ///
    /// # Examples
    ///
    /// ```
    /// use stun_types::message::Message;
    /// use stun_types::prelude::*;
    ///
    /// let bytes = b"\x00\x01\x00\x10\x21\x12\xA4\x42abcdefghijkl\
    ///     \x80\x22\x00\x04STUN\x00\x06\x00\x03bob\0";
    /// let message = Message::from_bytes(bytes)?;
    /// let mut attributes = message.iter_attributes();
    /// let (offset, attribute) = attributes.next().ok_or("there are two")?;
    /// assert_eq!(rt; (offset, attribute.get_type().value()), (20, 0x8022));
    /// let (offset, attribute) = attributes.next().ok_or("there are two")?;
    /// assert_eq!(rt; (offset, attribute.get_type().value()), (28, 0x0006));
    /// assert!(rt; attributes.next().is_none());
    /// ```
    #[tactic(auto, using(stun_grammar::proofs::ParsingLemmas::parsed_frame))]
    pub fn iter_attributes(&self) -> MessageAttributesIter<'a>
        ensures items { items_left result ≡ borrowed (shown (message_bytes self.now)) }
        ensures bound { length (items_left result) < 2 ^ 64 }
    {
        iter_framed(self.bytes)
    }
}

impl PrintText for Message<'_> {
    ghost use Rattle.stun_types.specs.PrintedMessages.{message_text};
    ghost use Rattle.stun_types.specs.Message.{message_bytes};

    ghost text = { λ message. message_text (message_bytes message) };

    fn print<S: TextSink>(&self, sink: &mut S) -> Result<(), S::Error> {
        print_message(&OwnPrinter, self, sink)
    }
}

impl Message<'_> {
    ghost use Rattle.std.specs.Prelude.{◌≡◌, length};
    ghost use Rattle.stun_text.specs.Slices.{laid_over, text_answer};
    ghost use Rattle.stun_types.specs.PrintedMessages.{message_text};
    ghost use Rattle.stun_types.specs.Message.{message_bytes};

    /// Writes the text that the message prints, in UTF-8, at the start of `to`, and returns the
    /// number of its bytes. The bytes of `to` after the text stay as they were. It walks the
    /// attributes once, takes no memory, and if `to` has room it succeeds.
    ///
    /// # Errors
    ///
    /// [`TextTooLong`] if the text has more bytes than `to`, with the length of the text: a
    /// slice of that length has room. `to` then holds the first bytes of the text, as many as it
    /// has room for, and a character may be cut at its end.
    ///
    /// # Examples
    ///
    /// ```
    /// use stun_types::message::Message;
    ///
    /// let bytes = b"\x00\x01\x00\x00\x21\x12\xA4\x42\0\0\0\0\0\0\0\0\0\0\x73\x92";
    /// let mut text = [0; 128];
    /// let length = Message::from_bytes(bytes)?.write_text(&mut text)?;
    /// let printed = b"Message(class: Request, method: 1(0x1: BINDING), \
    ///     transaction: 0x7392, attributes: [])";
    /// assert_eq!(rt; &text[..length], printed.as_slice());
    /// ```
    pub fn write_text(&self, to: &mut [u8]) -> Result<usize, TextTooLong>
        ensures answer { result
            ≡ text_answer (length (message_text (message_bytes self.now))) (length to.old) }
        ensures text { to.new ≡ laid_over (message_text (message_bytes self.now)) to.old }
    {
        write_text(self, to)
    }
}

/// The class, the method, the transaction ID, and the attributes that the message shows, each as it
/// is printed by itself: `Message(class: Request, method: 1(0x1: BINDING), transaction: 0x7392,
/// attributes: [29(0x1d: PASSWORD-ALGORITHM): SHA256])`. It walks the attributes once, and
/// takes no memory. It fails only if the formatter refuses a piece of the text, after it took those
/// before; then nothing more is written. The contract promises this for a plain `{}` alone.
impl fmt::Display for Message<'_> {
    ghost use Rattle.std.specs.Prelude.{OnErr, Some};
    ghost use Rattle.std.specs.Fmt.{WritesOnOk};
    ghost use Rattle.stun_types.specs.PrintedMessages.{message_text};
    ghost use Rattle.stun_types.specs.Message.{message_bytes};
    ghost use Rattle.stun_types.specs.Formatters.{StopsAt};

    ghost output = { λ message. Some (message_text (message_bytes message)) };

    fn fmt<W: fmt::Write>(&self, f: &mut fmt::Formatter<W>) -> fmt::Result
        ensures writes { WritesOnOk W.write_str_gives f.old result
            (message_text (message_bytes self.now)) f.new }
        ensures stops { OnErr result (StopsAt W.write_str_gives f.old
            (message_text (message_bytes self.now)) f.new) }
    {
        display(self, f)
    }
}
