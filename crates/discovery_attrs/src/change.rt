use crate::ChangeRequestKind;
use std::fmt;
use stun_types::attribute::PackedKind;
use stun_types::{PrintText, TextSink};

/// The parts of its address that a server is to change before it answers: the IP address, the port,
/// or both.
#[derive(Clone, Copy, Debug, PartialEq, Eq)]
pub struct Change {
    /// Whether the response is to come from another IP address.
    pub ip: bool,
    /// Whether the response is to come from another port.
    pub port: bool,
}

impl PrintText for Change {
    ghost use Rattle.discovery_attrs.specs.Discovery.{change_text};

    ghost text = { change_text };

    fn print<S: TextSink>(&self, sink: &mut S) -> Result<(), S::Error> {
        sink.put(match (self.ip, self.port) {
            (true, true) => "IP and port",
            (true, false) => "IP",
            (false, true) => "port",
            (false, false) => "nothing",
        })
    }
}

/// `IP and port`, `IP`, `port` or `nothing`.
impl fmt::Display for Change {
    ghost use Rattle.std.specs.Prelude.{Some};
    ghost use Rattle.discovery_attrs.specs.Discovery.{change_text};

    ghost output = { λ change. Some (change_text change) };

    fn fmt<W: fmt::Write>(&self, f: &mut fmt::Formatter<W>) -> fmt::Result {
        self.print(f)
    }
}

impl PackedKind<Change> for ChangeRequestKind {
    ghost use Rattle.discovery_attrs.specs.Discovery.{change_number, change_of};

    type Number = u32;

    ghost number_of = { change_number };

    ghost fields_of = { change_of };

    fn to_number(change: &Change) -> u32 {
        let ip = if change.ip { 4 } else { 0 };
        let port = if change.port { 2 } else { 0 };
        ip + port
    }

    fn from_number(number: u32) -> Option<Change> {
        Some(Change {
            ip: number / 4 % 2 == 1,
            port: number / 2 % 2 == 1,
        })
    }
}
