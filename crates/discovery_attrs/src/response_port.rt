use crate::attribute_types;
use byteorder::{BigEndian, ByteOrder};
use std::alloc::Global;
use std::fmt;
use stun_types::attribute::{EncodeValue, ReadValue, TypedAttribute, check_length};
use stun_types::message::StunParseError;
use stun_types::{PrintText, TextSink};

/// RESPONSE-PORT: the port that the response is to be sent to (RFC 5780, section 7.5). The value is
/// two bytes, big-endian, and two bytes of padding, which are written 0 and ignored.
#[derive(Clone, Copy, Debug, PartialEq, Eq)]
pub struct ResponsePort {
    port: u16,
}

impl ResponsePort {
    ghost use Rattle.std.specs.Prelude.{◌≡◌};
    ghost use Rattle.discovery_attrs.specs.Discovery.{port_of};

    /// Makes the attribute of this port.
    ///
    /// # Examples
    ///
    /// ```
    /// use discovery_attrs::ResponsePort;
    /// use stun_types::prelude::*;
    ///
    /// let mut bytes = [0; 8];
    /// assert_eq!(rt; ResponsePort::new(3478).write_into(&mut bytes), Ok(8));
    /// assert_eq!(rt; bytes, [0x00, 0x27, 0x00, 0x04, 0x0D, 0x96, 0x00, 0x00]);
    /// ```
    pub fn new(port: u16) -> Self
        ensures { port_of result ≡ port }
    {
        ResponsePort { port }
    }

    /// Returns the port that the response is to be sent to.
    pub fn port(&self) -> u16
        ensures { result ≡ port_of self.now }
    {
        self.port
    }
}

impl TypedAttribute for ResponsePort {
    ghost use Rattle.discovery_attrs.specs.Discovery.{RESPONSE_PORT};

    ghost NUMBER = { RESPONSE_PORT };

    const NUMBER: u16 = attribute_types::RESPONSE_PORT;
}

impl EncodeValue for ResponsePort {
    ghost use Rattle.discovery_attrs.specs.Discovery.{response_port_value};

    ghost bytes = { response_port_value };

    fn value_length(&self) -> u16 {
        4
    }

    fn write_value(&self, dest: &mut [u8]) {
        BigEndian::write_u16(dest, self.port);
        dest[2] = 0;
        dest[3] = 0;
    }

    fn held_bytes(&self) -> Option<&[u8]> {
        None
    }
}

/// Reading takes two bytes too, since some programs count the padding in the length of the value
/// and others don't. It refuses another length than 2 and 4, as `Truncated { expected: 4, actual }`
/// or `TooLarge { expected: 4, actual }`. It takes no memory.
impl ReadValue for ResponsePort {
    ghost use Rattle.discovery_attrs.specs.Discovery.{ReadsResponsePort};

    ghost reads_value = { ReadsResponsePort };

    fn read_value(_alloc: Global, value: &[u8]) -> Result<Self, StunParseError> {
        if value.len() != 2 {
            check_length(value, 4)?;
        }
        Ok(ResponsePort::new(BigEndian::read_u16(&value[..2])))
    }
}

impl PrintText for ResponsePort {
    ghost use Rattle.std.specs.Prelude.{codes, ◌++◌};
    ghost use Rattle.std.specs.Fmt.{decimal};
    ghost use Rattle.discovery_attrs.specs.Discovery.{port_of};

    ghost text = { λ attribute. codes "RESPONSE-PORT: " ++ decimal (port_of attribute) };

    fn print<S: TextSink>(&self, sink: &mut S) -> Result<(), S::Error> {
        sink.put("RESPONSE-PORT: ")?;
        self.port.print(sink)?;
        Ok(())
    }
}

/// `RESPONSE-PORT: 3479`.
impl fmt::Display for ResponsePort {
    ghost use Rattle.std.specs.Prelude.{Some, codes, ◌++◌};
    ghost use Rattle.std.specs.Fmt.{decimal};
    ghost use Rattle.discovery_attrs.specs.Discovery.{port_of};

    ghost output = { λ attribute. Some (codes "RESPONSE-PORT: " ++ decimal (port_of attribute)) };

    fn fmt<W: fmt::Write>(&self, f: &mut fmt::Formatter<W>) -> fmt::Result {
        self.print(f)
    }
}
