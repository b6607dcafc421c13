//! The type of a message: its class and its method (RFC 8489, section 5).

ghost use Rattle.std.specs.Prelude.{◌≡◌, ◌↔◌, ◌<◌, ◌≤◌, ◌++◌, ◌^◌, IsTrue, Result, Ok, Err, IfOk, IfErr, OnOk, length, drop, codes, slice_range};
ghost use Rattle.stun_grammar.specs.Numbers.{be16, number};
ghost use Rattle.stun_grammar.specs.Names.{numbered_text};
ghost use Rattle.stun_base.specs.MessageTypes.{type_of, class_of, method_of, class_name, is_response as responds};

use crate::{MessageClass, Method};
use byteorder::{BigEndian, ByteOrder};
use std::alloc::Global;
use std::fmt;
use std::marker::Model;
use stun_grammar::{StunParseError, StunWriteError, put_numbered};
use stun_text::{PrintText, TextSink};

/// The type of a message: the first two bytes of its header, big-endian (RFC 8489, section 5). The
/// two highest bits are zero, bits 4 and 8 are the class, and the other twelve the method.
///
/// It prints as its class and its method: `MessageType(class: Request, method: 1(0x1: BINDING)`.
#[derive(Clone, Copy, Debug, PartialEq, Eq)]
pub struct MessageType(u16);

impl Model for MessageType {
    ghost use Rattle.std.specs.Prelude.{ℕ, ◌<◌};

    ghost Value = { ℕ };

    ghost view = { λ mtype. mtype.0 };

    ghost invariant = { λ mtype. mtype.0 < 0x4000 };

    ghost inverse = { λ number. record { 0 = number } };
}

impl MessageType {
    /// The type with this number.
    pub(crate) fn of_number(number: u16) -> Self
        requires { number < 2 ^ 14 }
        ensures { result ≡ number }
    {
        MessageType(number)
    }

    /// The type of the messages of a class and a method. Of the method only the low twelve bits are
    /// kept.
    ///
    /// # Examples
    ///
    /// ```
    /// use stun_types::message::{BINDING, MessageClass, MessageType};
    ///
    /// let mtype = MessageType::from_class_method(MessageClass::Success, BINDING);
    /// assert_eq!(rt; mtype.to_bytes(alloc)?.as_slice(), [0x01, 0x01].as_slice());
    /// ```
    pub fn from_class_method(class: MessageClass, method: Method) -> Self
        ensures { result ≡ type_of class method }
    {
        let method = method.value();
        MessageType(
            class.to_bits() + method % 16 + method / 16 % 8 * 0x20 + method / 128 % 32 * 0x200,
        )
    }

    /// The class of the messages of the type.
    ///
    /// # Examples
    ///
    /// ```
    /// use stun_types::message::{MessageClass, MessageType};
    ///
    /// let mtype = MessageType::from_bytes(&[0x01, 0x11])?;
    /// assert_eq!(rt; mtype.class(), MessageClass::Error);
    /// ```
    pub fn class(self) -> MessageClass
        ensures { result ≡ class_of self }
    {
        match (self.0 / 0x100 % 2 == 1, self.0 / 0x10 % 2 == 1) {
            (false, false) => MessageClass::Request,
            (false, true) => MessageClass::Indication,
            (true, false) => MessageClass::Success,
            (true, true) => MessageClass::Error,
        }
    }

    /// Whether the class is `cls`.
    ///
    /// # Examples
    ///
    /// ```
    /// use stun_types::message::{BINDING, MessageClass, MessageType};
    ///
    /// let mtype = MessageType::from_class_method(MessageClass::Indication, BINDING);
    /// assert!(rt; mtype.has_class(MessageClass::Indication));
    /// ```
    pub fn has_class(self, cls: MessageClass) -> bool
        ensures { IsTrue result ↔ (class_of self ≡ cls) }
    {
        self.class() == cls
    }

    /// Whether messages of the type are responses: of the class success or error.
    ///
    /// # Examples
    ///
    /// ```
    /// use stun_types::message::{BINDING, MessageClass, MessageType};
    ///
    /// assert!(rt; MessageType::from_class_method(MessageClass::Error, BINDING).is_response());
    /// assert!(rt; !MessageType::from_class_method(MessageClass::Request, BINDING).is_response());
    /// ```
    pub fn is_response(self) -> bool
        ensures { result ≡ responds (class_of self) }
    {
        self.class().is_response()
    }

    /// The method of the messages of the type, below 0x1000.
    ///
    /// # Examples
    ///
    /// ```
    /// use stun_types::message::{MessageClass, MessageType, Method};
    ///
    /// let mtype = MessageType::from_class_method(MessageClass::Request, Method::new(0x003));
    /// assert_eq!(rt; mtype.method().value(), 3);
    /// ```
    pub fn method(self) -> Method
        ensures { result ≡ method_of self }
    {
        Method(self.0 % 16 + self.0 / 0x20 % 8 * 16 + self.0 / 0x200 % 32 * 128)
    }

    /// Whether the method is `method`.
    ///
    /// # Examples
    ///
    /// ```
    /// use stun_types::message::{BINDING, MessageType, Method};
    ///
    /// let mtype = MessageType::from_bytes(&[0x00, 0x01])?;
    /// assert!(rt; mtype.has_method(BINDING));
    /// assert!(rt; !mtype.has_method(Method::new(0x003)));
    /// ```
    pub fn has_method(self, method: Method) -> bool
        ensures { IsTrue result ↔ (method_of self ≡ method) }
    {
        self.method() == method
    }

    /// Writes the two bytes of the message type at the start of `dest`. The others keep their
    /// values.
    ///
    /// # Requires
    ///
    /// `dest.len()` is at least 2.
    ///
    /// # Examples
    ///
    /// ```
    /// use stun_types::message::{BINDING, MessageClass, MessageType};
    ///
    /// let mut bytes = [0xFF; 3];
    /// MessageType::from_class_method(MessageClass::Error, BINDING).write_into(&mut bytes);
    /// assert_eq!(rt; bytes, [0x01, 0x11, 0xFF]);
    /// ```
    pub fn write_into(&self, dest: &mut [u8])
        requires { 2 ≤ length dest.old }
        ensures written { dest.new ≡ be16 self.now ++ drop 2 dest.old }
        ensures bits { self.now < 2 ^ 14 }
    {
        BigEndian::write_u16(dest, self.0);
    }

    /// The message type as its two bytes, in memory that `alloc` gives.
    ///
    /// # Errors
    ///
    /// `OutOfMemory` alone.
    ///
    /// # Examples
    ///
    /// ```
    /// use stun_types::message::{BINDING, MessageClass, MessageType};
    ///
    /// let mtype = MessageType::from_class_method(MessageClass::Indication, BINDING);
    /// assert_eq!(rt; mtype.to_bytes(alloc)?.as_slice(), [0x00, 0x11].as_slice());
    /// ```
    pub fn to_bytes(self, alloc: Global) -> Result<Vec<u8>, StunWriteError>
        ensures ok { IfOk result (λ bytes. bytes.items ≡ be16 self) }
        ensures err { IfErr result (λ e. e ≡ StunWriteError.OutOfMemory) }
    {
        let bytes = self.0.to_be_bytes();
        Vec::from_slice(alloc, &bytes).map_err(StunWriteError::from)
    }

    /// Reads a message type from its first two bytes. What follows them is not looked at.
    ///
    /// # Errors
    ///
    /// `Truncated { expected: 2, actual }` if there are fewer than two bytes. Otherwise
    /// `NotStun` if one of the two highest bits is not zero.
    ///
    /// # Examples
    ///
    /// ```
    /// use stun_types::message::{MessageClass, MessageType, StunParseError};
    ///
    /// assert_eq!(rt; MessageType::from_bytes(&[0x00, 0x11])?.class(), MessageClass::Indication);
    /// assert_eq!(rt; MessageType::from_bytes(&[0x40, 0x01]).err(), Some(StunParseError::NotStun));
    /// ```
    pub fn from_bytes(bytes: &[u8]) -> Result<Self, StunParseError>
        ensures short { length bytes.now < 2
            → result ≡ Err (StunParseError.Truncated 2 (length bytes.now)) }
        ensures foreign { 2 ≤ length bytes.now → 2 ^ 14 ≤ number (slice_range bytes.now 0 2)
            → result ≡ Err StunParseError.NotStun }
        ensures ok { 2 ≤ length bytes.now → number (slice_range bytes.now 0 2) < 2 ^ 14
            → result ≡ Ok (number (slice_range bytes.now 0 2)) }
    {
        if bytes.len() < 2 {
            return Err(StunParseError::Truncated {
                expected: 2,
                actual: bytes.len(),
            });
        }
        let number = BigEndian::read_u16(bytes);
        if number >= 0x4000 {
            return Err(StunParseError::NotStun);
        }
        Ok(MessageType(number))
    }
}

/// Writes the name of the class of a message type, and its method, by its number and the name that is
/// given: `Request, method: 1(0x1: BINDING)`.
///
/// # Errors
///
/// That of the sink.
pub fn put_class_and_method<S: TextSink>(
    sink: &mut S,
    mtype: MessageType,
    method_name: &str,
) -> Result<(), S::Error>
    ensures { OnOk result (S.wrote sink.old
        (class_name (class_of mtype) ++ codes ", method: "
        ++ numbered_text (method_of mtype) method_name.now)
        sink.new) }
{
    sink.put(mtype.class().name())?;
    sink.put(", method: ")?;
    put_numbered(sink, mtype.method().value(), method_name)?;
    Ok(())
}

impl PrintText for MessageType {
    ghost use Rattle.stun_base.specs.MessageTypes.{message_type_text};

    ghost text = { message_type_text };

    fn print<S: TextSink>(&self, sink: &mut S) -> Result<(), S::Error> {
        sink.put("MessageType(class: ")?;
        put_class_and_method(sink, *self, self.method().name())?;
        Ok(())
    }
}

/// The class and the method, after a parenthesis that is not closed:
/// `MessageType(class: Request, method: 1(0x1: BINDING)`.
impl fmt::Display for MessageType {
    ghost use Rattle.std.specs.Prelude.{Some};
    ghost use Rattle.stun_base.specs.MessageTypes.{message_type_text};

    ghost output = { λ mtype. Some (message_type_text mtype) };

    fn fmt<W: fmt::Write>(&self, f: &mut fmt::Formatter<W>) -> fmt::Result {
        self.print(f)
    }
}
