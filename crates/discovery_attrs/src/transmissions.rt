use crate::TransactionTransmitCounterKind;
use std::fmt;
use stun_types::attribute::PackedKind;
use stun_types::{PrintText, TextSink};

/// The numbers of times that a request and its response were sent.
#[derive(Clone, Copy, Debug, PartialEq, Eq)]
pub struct Transmissions {
    /// The number of times that the request was sent with this transaction ID, this time included.
    pub requests: u8,
    /// The number of times that a response was sent; 0 in a request.
    pub responses: u8,
}

impl PrintText for Transmissions {
    ghost use Rattle.discovery_attrs.specs.Discovery.{counts_text};

    ghost text = { counts_text };

    fn print<S: TextSink>(&self, sink: &mut S) -> Result<(), S::Error> {
        sink.put("requests ")?;
        self.requests.print(sink)?;
        sink.put(", responses ")?;
        self.responses.print(sink)?;
        Ok(())
    }
}

/// `requests 2, responses 1`.
impl fmt::Display for Transmissions {
    ghost use Rattle.std.specs.Prelude.{Some};
    ghost use Rattle.discovery_attrs.specs.Discovery.{counts_text};

    ghost output = { λ counts. Some (counts_text counts) };

    fn fmt<W: fmt::Write>(&self, f: &mut fmt::Formatter<W>) -> fmt::Result {
        self.print(f)
    }
}

impl PackedKind<Transmissions> for TransactionTransmitCounterKind {
    ghost use Rattle.discovery_attrs.specs.Discovery.{counts_number, counts_of};

    type Number = u32;

    ghost number_of = { counts_number };

    ghost fields_of = { counts_of };

    fn to_number(counts: &Transmissions) -> u32 {
        counts.requests as u32 * 256 + counts.responses as u32
    }

    fn from_number(number: u32) -> Option<Transmissions> {
        Some(Transmissions {
            requests: (number / 256 % 256) as u8,
            responses: (number % 256) as u8,
        })
    }
}
