//! The method of a message (RFC 8489, section 5).

ghost use Rattle.std.specs.Prelude.{◌≡◌, ◌↔◌, ◌<◌, IsTrue};
ghost use Rattle.stun_grammar.specs.Names.{method_name};

use std::fmt;
use std::marker::Model;
use stun_grammar::put_numbered;
use stun_text::{PrintText, TextSink};

/// The method of a message: a number below 0xf000, of which a message carries the low twelve bits
/// (RFC 8489, section 5).
///
/// It prints as its number and its name: `1(0x1: BINDING)`.
#[derive(Clone, Copy, Debug, PartialEq, Eq, PartialOrd, Ord, Hash)]
pub struct Method(pub u16);

impl Model for Method {
    ghost use Rattle.std.specs.Prelude.{ℕ, ◌<◌};

    ghost Value = { ℕ };

    ghost view = { λ method. method.0 };

    ghost invariant = { λ method. method.0 < 0xf000 };

    ghost inverse = { λ number. record { 0 = number } };
}

/// The method of a binding request and its responses (RFC 8489, section 18.2).
pub const BINDING: Method = Method(0x0001);

impl Method {
    /// The method with the number `val`.
    ///
    /// # Requires
    ///
    /// `val` is below 0xf000, as [`Method::is_valid`] tests.
    ///
    /// # Examples
    ///
    /// ```
    /// use stun_types::message::{BINDING, Method};
    ///
    /// assert_eq!(rt; Method::new(0x001), BINDING);
    /// ```
    pub fn new(val: u16) -> Self
        requires { val < 0xf000 }
        ensures { result ≡ val }
    {
        Method(val)
    }

    /// Whether a method can have the number `val`: it is below 0xf000.
    ///
    /// # Examples
    ///
    /// ```
    /// use stun_types::message::Method;
    ///
    /// assert!(rt; Method::is_valid(0xEFFF));
    /// assert!(rt; !Method::is_valid(0xF000));
    /// ```
    pub fn is_valid(val: u16) -> bool
        ensures { IsTrue result ↔ (val < 0xf000) }
    {
        val < 0xf000
    }

    /// The number of the method.
    ///
    /// # Examples
    ///
    /// ```
    /// use stun_types::message::Method;
    ///
    /// assert_eq!(rt; Method::new(0x003).value(), 3);
    /// ```
    pub fn value(&self) -> u16
        ensures number { result ≡ self.now }
        ensures valid { result < 0xf000 }
    {
        self.0
    }

    /// The name of the method: `BINDING`, or `unknown` for every other method than that of a
    /// binding (RFC 8489, section 18.2).
    ///
    /// # Examples
    ///
    /// ```
    /// use stun_types::message::{BINDING, Method};
    ///
    /// assert_eq!(rt; BINDING.name(), "BINDING");
    /// assert_eq!(rt; Method::new(0x003).name(), "unknown");
    /// ```
    pub fn name(self) -> &'static str
        ensures { result.now ≡ method_name self }
    {
        match self {
            BINDING => "BINDING",
            _ => "unknown",
        }
    }
}

impl PrintText for Method {
    ghost use Rattle.stun_grammar.specs.Names.{method_text};

    ghost text = { method_text };

    fn print<S: TextSink>(&self, sink: &mut S) -> Result<(), S::Error> {
        put_numbered(sink, self.0, self.name())
    }
}

/// The number in decimal, and in parentheses the number in hexadecimal, in lower case and without
/// leading zeros, and the name: `1(0x1: BINDING)`, `2748(0xabc: unknown)`.
impl fmt::Display for Method {
    ghost use Rattle.std.specs.Prelude.{Some};
    ghost use Rattle.stun_grammar.specs.Names.{method_text};

    ghost output = { λ method. Some (method_text method) };

    fn fmt<W: fmt::Write>(&self, f: &mut fmt::Formatter<W>) -> fmt::Result {
        self.print(f)
    }
}
