ghost use Rattle.std.specs.Prelude.{◌≡◌, ◌↔◌, ◌<◌, false, IsTrue, OnOk};
ghost use Rattle.stun_grammar.specs.AttributeTypes.{is_ending, IsOrdinary};
ghost use Rattle.stun_grammar.specs.Names.{attribute_name, attribute_type_debug};

use crate::{attribute_types, put_numbered};
use std::fmt;
use stun_text::{PrintText, TextSink, put_decimal};

/// The type of an attribute: 16 bits (RFC 8489, section 14).
///
/// It prints as its number and its name: `32(0x20: XOR-MAPPED-ADDRESS)`. The number is
/// [`AttributeType::value`]: `u16::from(atype)` returns it too, but only in a crate that lists
/// `stun_grammar`, where this type is declared, in `crates.txt`.
#[derive(Clone, Copy, Default, PartialEq, Eq, PartialOrd, Ord, Hash)]
#[repr(C)]
pub struct AttributeType(pub u16);

impl AttributeType {
    /// The attribute type with the number `val`.
    ///
    /// # Examples
    ///
    /// ```
    /// use stun_types::attribute::AttributeType;
    ///
    /// assert_eq!(rt; AttributeType::new(0x8022), AttributeType(0x8022));
    /// ```
    pub fn new(val: u16) -> Self
        ensures { result.0 ≡ val }
    {
        AttributeType(val)
    }

    /// The number of the attribute type.
    ///
    /// # Examples
    ///
    /// ```
    /// use stun_types::attribute::Software;
    /// use stun_types::prelude::*;
    ///
    /// assert_eq!(rt; Software::TYPE.value(), 0x8022);
    /// ```
    pub fn value(&self) -> u16
        ensures { result ≡ self.now.0 }
    {
        self.0
    }

    /// The name of the attribute type (RFC 8489, section 18.3), and `unknown` for a type that has
    /// none there. The name of 0x8002 is spelled `PASSWORD_ALGORITHMS`.
    ///
    /// # Examples
    ///
    /// ```
    /// use stun_types::attribute::AttributeType;
    ///
    /// assert_eq!(rt; AttributeType(0x0020).name(), "XOR-MAPPED-ADDRESS");
    /// assert_eq!(rt; AttributeType(0x7777).name(), "unknown");
    /// ```
    pub fn name(self) -> &'static str
        ensures { result.now ≡ attribute_name self.0 }
    {
        match self.0 {
            attribute_types::MAPPED_ADDRESS => "MAPPED-ADDRESS",
            attribute_types::USERNAME => "USERNAME",
            attribute_types::MESSAGE_INTEGRITY => "MESSAGE-INTEGRITY",
            attribute_types::ERROR_CODE => "ERROR-CODE",
            attribute_types::UNKNOWN_ATTRIBUTES => "UNKNOWN-ATTRIBUTES",
            attribute_types::REALM => "REALM",
            attribute_types::NONCE => "NONCE",
            attribute_types::MESSAGE_INTEGRITY_SHA256 => "MESSAGE-INTEGRITY-SHA256",
            attribute_types::PASSWORD_ALGORITHM => "PASSWORD-ALGORITHM",
            attribute_types::USERHASH => "USERHASH",
            attribute_types::XOR_MAPPED_ADDRESS => "XOR-MAPPED-ADDRESS",
            attribute_types::PASSWORD_ALGORITHMS => "PASSWORD_ALGORITHMS",
            attribute_types::ALTERNATE_DOMAIN => "ALTERNATE-DOMAIN",
            attribute_types::SOFTWARE => "SOFTWARE",
            attribute_types::ALTERNATE_SERVER => "ALTERNATE-SERVER",
            attribute_types::FINGERPRINT => "FINGERPRINT",
            _ => "unknown",
        }
    }

    /// Whether attributes of the type are comprehension-required: the number is below 0x8000
    /// (RFC 8489, section 14).
    ///
    /// # Examples
    ///
    /// ```
    /// use stun_types::attribute::AttributeType;
    ///
    /// assert!(rt; AttributeType(0x0006).comprehension_required()); // USERNAME
    /// assert!(rt; !AttributeType(0x8022).comprehension_required()); // SOFTWARE
    /// ```
    pub fn comprehension_required(self) -> bool
        ensures { IsTrue result ↔ (self.0 < 0x8000) }
    {
        self.0 < 0x8000
    }

    /// Whether the type is one of the three that end a message: MESSAGE-INTEGRITY (0x0008),
    /// MESSAGE-INTEGRITY-SHA256 (0x001C) and FINGERPRINT (0x8028). An attribute of another type is
    /// ordinary (RFC 8489, sections 14.5 to 14.7).
    ///
    /// # Examples
    ///
    /// ```
    /// use stun_types::attribute::{AttributeType, Fingerprint};
    /// use stun_types::prelude::*;
    ///
    /// assert!(rt; Fingerprint::TYPE.is_ending());
    /// assert!(rt; !AttributeType(0x0006).is_ending()); // USERNAME
    /// ```
    pub fn is_ending(self) -> bool
        ensures answer { result ≡ is_ending self.0 }
        ensures ordinary { result ≡ false → IsOrdinary self.0 }
    {
        attribute_types::is_ending(self.0)
    }
}

/// Writes a type as `{:?}` prints it, its number in decimal: `AttributeType(32)`.
///
/// # Errors
///
/// That of the sink.
pub fn put_type_debug<S: TextSink>(sink: &mut S, atype: AttributeType) -> Result<(), S::Error>
    ensures { OnOk result (S.wrote sink.old (attribute_type_debug atype.0) sink.new) }
{
    sink.put("AttributeType(")?;
    put_decimal(sink, atype.0 as u64)?;
    sink.put(")")?;
    Ok(())
}

impl From<u16> for AttributeType {
    ghost use Rattle.std.specs.Prelude.{◌≡◌};

    ghost from_gives = { λ value atype. atype.0 ≡ value };

    fn from(value: u16) -> Self {
        AttributeType(value)
    }
}

impl From<AttributeType> for u16 {
    ghost use Rattle.std.specs.Prelude.{◌≡◌};

    ghost from_gives = { λ atype value. value ≡ atype.0 };

    fn from(atype: AttributeType) -> Self {
        atype.0
    }
}

impl PrintText for AttributeType {
    ghost use Rattle.stun_grammar.specs.Names.{attribute_type_text};

    ghost text = { λ atype. attribute_type_text atype.0 };

    fn print<S: TextSink>(&self, sink: &mut S) -> Result<(), S::Error> {
        put_numbered(sink, self.0, self.name())
    }
}

impl fmt::Display for AttributeType {
    ghost use Rattle.std.specs.Prelude.{Some};
    ghost use Rattle.stun_grammar.specs.Names.{attribute_type_text};

    ghost output = { λ atype. Some (attribute_type_text atype.0) };

    fn fmt<W: fmt::Write>(&self, f: &mut fmt::Formatter<W>) -> fmt::Result {
        self.print(f)
    }
}

/// The number in decimal: `AttributeType(32)`.
impl fmt::Debug for AttributeType {
    ghost use Rattle.std.specs.Prelude.{Some};
    ghost use Rattle.stun_grammar.specs.Names.{attribute_type_debug};

    ghost debug_output = { λ atype. Some (attribute_type_debug atype.0) };

    fn fmt<W: fmt::Write>(&self, f: &mut fmt::Formatter<W>) -> fmt::Result {
        if f.alternate() {
            return f.debug_tuple("AttributeType").field(&self.0).finish();
        }
        put_type_debug(f, *self)
    }
}
