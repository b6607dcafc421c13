//! The class of a message (RFC 8489, section 5).

ghost use Rattle.std.specs.Prelude.{◌≡◌};
ghost use Rattle.stun_base.specs.MessageTypes.{class_bits, class_name, is_response as responds};

use std::fmt;

/// The class of a message (RFC 8489, section 5).
#[derive(Clone, Copy, PartialEq, Eq)]
pub enum MessageClass {
    /// A request, which expects a response.
    Request,
    /// An indication, which expects no response.
    Indication,
    /// The response to a request that succeeded.
    Success,
    /// The response to a request that failed.
    Error,
}

impl MessageClass {
    /// Whether the class is that of a response: success or error.
    ///
    /// # Examples
    ///
    /// ```
    /// use stun_types::message::MessageClass;
    ///
    /// assert!(rt; MessageClass::Success.is_response() && MessageClass::Error.is_response());
    /// assert!(rt; !MessageClass::Indication.is_response());
    /// ```
    pub fn is_response(self) -> bool
        ensures { result ≡ responds self }
    {
        matches!(self, MessageClass::Success | MessageClass::Error)
    }

    /// The name of the class: `Request`, `Indication`, `Success` or `Error`.
    pub(crate) fn name(self) -> &'static str
        ensures { result.now ≡ class_name self }
    {
        match self {
            MessageClass::Request => "Request",
            MessageClass::Indication => "Indication",
            MessageClass::Success => "Success",
            MessageClass::Error => "Error",
        }
    }

    /// The two bits of the class, at bits 4 and 8.
    pub(crate) fn to_bits(self) -> u16
        ensures { result ≡ class_bits self }
    {
        match self {
            MessageClass::Request => 0x000,
            MessageClass::Indication => 0x010,
            MessageClass::Success => 0x100,
            MessageClass::Error => 0x110,
        }
    }
}

/// The name of the class: `Request`, `Indication`, `Success` or `Error`.
impl fmt::Debug for MessageClass {
    ghost use Rattle.std.specs.Prelude.{Some};
    ghost use Rattle.stun_base.specs.MessageTypes.{class_name};

    ghost debug_output = { λ class. Some (class_name class) };

    fn fmt<W: fmt::Write>(&self, f: &mut fmt::Formatter<W>) -> fmt::Result {
        f.write_str(self.name())
    }
}
