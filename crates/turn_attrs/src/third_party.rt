use crate::attribute_types;
use std::alloc::Global;
use std::fmt;
use stun_types::attribute::{BorrowValue, EncodeValue, ReadValue, TextAttribute, TypedAttribute};
use stun_types::message::{StunParseError, StunWriteError};
use stun_types::{PrintText, TextSink};

/// THIRD-PARTY-AUTHORIZATION: the server takes tokens that another server issues, and has this name
/// there (RFC 7635, section 6.1). The value is the name in UTF-8, at most 65535 bytes.
#[derive(Debug, PartialEq, Eq, Drop)]
pub struct ThirdPartyAuthorization {
    name: TextAttribute<{ attribute_types::THIRD_PARTY_AUTHORIZATION }, 65535>,
}

impl ThirdPartyAuthorization {
    ghost use Rattle.std.specs.Prelude.{◌≡◌, ◌≤◌, ◌<◌, Err, IfOk, IfErr, length};
    ghost use Rattle.turn_attrs.specs.Turn.{server_name};

    /// Makes the attribute of this name, which is copied into memory from `alloc`.
    ///
    /// # Errors
    ///
    /// `TooLarge { expected: 65535, actual }` if the name has more than 65535 bytes, and
    /// `OutOfMemory` if an allocation failed.
    ///
    /// # Examples
    ///
    /// ```
    /// use stun_types::prelude::*;
    /// use turn_attrs::ThirdPartyAuthorization;
    ///
    /// let attribute = ThirdPartyAuthorization::new(alloc, "turn.example")?;
    /// let mut bytes = [0; 16];
    /// assert_eq!(rt; attribute.write_into(&mut bytes), Ok(16));
    /// assert_eq!(rt; &bytes, b"\x80\x2E\x00\x0Cturn.example");
    /// ```
    pub fn new(alloc: Global, name: &str) -> Result<Self, StunWriteError>
        ensures ok { IfOk result (λ made. server_name made ≡ name.now) }
        ensures large { 65535 < length name.now
            → result ≡ Err (StunWriteError.TooLarge 65535 (length name.now)) }
        ensures err { length name.now ≤ 65535 → IfErr result (λ e. e ≡ StunWriteError.OutOfMemory) }
    {
        let name = TextAttribute::new(alloc, name)?;
        Ok(ThirdPartyAuthorization { name })
    }

    /// Returns the name of the server, as the server that issues tokens knows it.
    pub fn server(&self) -> &str
        ensures { result.now ≡ server_name self.now }
    {
        self.name.text()
    }
}

impl TypedAttribute for ThirdPartyAuthorization {
    ghost use Rattle.turn_attrs.specs.Turn.{THIRD_PARTY_AUTHORIZATION};

    ghost NUMBER = { THIRD_PARTY_AUTHORIZATION };

    const NUMBER: u16 = attribute_types::THIRD_PARTY_AUTHORIZATION;
}

impl EncodeValue for ThirdPartyAuthorization {
    ghost use Rattle.std.specs.Prelude.{true};
    ghost use Rattle.turn_attrs.specs.Turn.{server_name};

    ghost bytes = { server_name };

    ghost is_held = { λ _. true };

    fn value_length(&self) -> u16 {
        self.name.value_length()
    }

    fn write_value(&self, dest: &mut [u8]) {
        self.name.write_value(dest);
    }

    fn held_bytes(&self) -> Option<&[u8]> {
        Some(self.server().as_bytes())
    }
}

impl BorrowValue for ThirdPartyAuthorization {
    fn value_bytes(&self) -> &[u8] {
        self.server().as_bytes()
    }
}

/// Reading refuses bytes that aren't UTF-8 as `InvalidAttributeData`, and answers `OutOfMemory`
/// if an allocation failed, since the name is kept in memory from `alloc`.
impl ReadValue for ThirdPartyAuthorization {
    ghost use Rattle.turn_attrs.specs.Turn.{ReadsServerName};

    ghost reads_value = { ReadsServerName };

    fn read_value(alloc: Global, value: &[u8]) -> Result<Self, StunParseError> {
        let name = TextAttribute::read_value(alloc, value)?;
        Ok(ThirdPartyAuthorization { name })
    }
}

impl PrintText for ThirdPartyAuthorization {
    ghost use Rattle.std.specs.Prelude.{codes, ◌++◌};
    ghost use Rattle.turn_attrs.specs.Turn.{server_name};

    ghost text = { λ attribute. codes "THIRD-PARTY-AUTHORIZATION: " ++ server_name attribute };

    fn print<S: TextSink>(&self, sink: &mut S) -> Result<(), S::Error> {
        sink.put("THIRD-PARTY-AUTHORIZATION: ")?;
        sink.put(self.server())?;
        Ok(())
    }
}

/// `THIRD-PARTY-AUTHORIZATION: turn1.example.com`.
impl fmt::Display for ThirdPartyAuthorization {
    ghost use Rattle.std.specs.Prelude.{Some, codes, ◌++◌};
    ghost use Rattle.turn_attrs.specs.Turn.{server_name};

    ghost output = { λ attribute.
        Some (codes "THIRD-PARTY-AUTHORIZATION: " ++ server_name attribute) };

    fn fmt<W: fmt::Write>(&self, f: &mut fmt::Formatter<W>) -> fmt::Result {
        self.print(f)
    }
}
