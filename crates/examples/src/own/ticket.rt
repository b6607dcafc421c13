ghost use Rattle.std.specs.Prelude.{◌≡◌, ◌≤◌, length};
ghost use Rattle.std.specs.String.{string_bytes};

use byteorder::{BigEndian, ByteOrder};
use std::alloc::Global;
use std::fmt;
use stun_types::attribute::{EncodeValue, ReadValue, TypedAttribute, read_text};
use stun_types::message::{StunParseError, StunWriteError};

/// The most bytes of a title.
const MOST: u16 = 128;

/// TICKET: the number of a ticket and its title. The value is four bytes, big-endian, and then the
/// title, at most 128 bytes of UTF-8.
#[derive(Debug, PartialEq, Eq, Drop)]
pub struct Ticket {
    number: u32,
    title: String,
    ghost short: { length (string_bytes title) ≤ 128 },
}

impl Ticket {
    ghost use Rattle.std.specs.Prelude.{◌<◌, Err, IfOk, IfErr};
    ghost use Rattle.examples.specs.Own.{ticket_number, ticket_title, IsTicket};

    /// A TICKET of this number and this title, which is copied into memory from `alloc`.
    ///
    /// # Errors
    ///
    /// `TooLarge { expected: 128, actual }` if the title has more than 128 bytes, and `OutOfMemory`
    /// if an allocation failed.
    pub fn new(alloc: Global, number: u32, title: &str) -> Result<Self, StunWriteError>
        ensures ok { IfOk result (IsTicket number title.now) }
        ensures large { 128 < length title.now
            → result ≡ Err (StunWriteError.TooLarge 128 (length title.now)) }
        ensures err { length title.now ≤ 128 → IfErr result (λ e. e ≡ StunWriteError.OutOfMemory) }
    {
        let (expected, actual) = (MOST as usize, title.len());
        if actual > expected {
            return Err(StunWriteError::TooLarge { expected, actual });
        }
        let title = String::from_str(alloc, title)?;
        Ok(Ticket { number, title })
    }

    /// The number of the ticket.
    pub fn number(&self) -> u32
        ensures { result ≡ ticket_number self.now }
    {
        self.number
    }

    /// The title of the ticket.
    pub fn title(&self) -> &str
        ensures title { result.now ≡ ticket_title self.now }
        ensures short { length result.now ≤ 128 }
    {
        self.title.as_str()
    }
}

impl TypedAttribute for Ticket {
    ghost use Rattle.examples.specs.Own.{TICKET};

    ghost NUMBER = { TICKET };

    const NUMBER: u16 = 0x8F03;
}

impl EncodeValue for Ticket {
    ghost use Rattle.examples.specs.Own.{ticket_value};

    ghost bytes = { ticket_value };

    fn value_length(&self) -> u16 {
        4 + self.title().len() as u16
    }

    fn write_value(&self, dest: &mut [u8]) {
        let title = self.title().as_bytes();
        let (start, rest) = dest.split_at_mut(4);
        start.copy_from_slice(&self.number.to_be_bytes());
        rest[..title.len()].copy_from_slice(title);
    }

    fn held_bytes(&self) -> Option<&[u8]> {
        None
    }
}

/// Reading refuses fewer than four bytes as `Truncated { expected: 4, actual }`, a title of more than
/// 128 bytes as `TooLarge { expected: 128, actual }`, one that isn't UTF-8 as `InvalidAttributeData`,
/// and a failed allocation as `OutOfMemory`.
impl ReadValue for Ticket {
    ghost use Rattle.examples.specs.Own.{ReadsTicket};

    ghost reads_value = { ReadsTicket };

    fn read_value(alloc: Global, value: &[u8]) -> Result<Self, StunParseError> {
        if value.len() < 4 {
            return Err(StunParseError::Truncated {
                expected: 4,
                actual: value.len(),
            });
        }
        let (number, title) = value.split_at(4);
        let title = String::from_str(alloc, read_text(title, MOST)?)?;
        let number = BigEndian::read_u32(number);
        Ok(Ticket { number, title })
    }
}

/// `TICKET: 7 Printer is on fire`.
impl fmt::Display for Ticket {
    ghost use Rattle.std.specs.Prelude.{Some, codes, ◌++◌};
    ghost use Rattle.std.specs.Fmt.{decimal};
    ghost use Rattle.examples.specs.Own.{ticket_number, ticket_title};

    ghost output = { λ ticket. Some (codes "TICKET: "
        ++ (decimal (ticket_number ticket) ++ (codes " " ++ ticket_title ticket))) };

    fn fmt<W: fmt::Write>(&self, f: &mut fmt::Formatter<W>) -> fmt::Result {
        let (number, title) = (self.number(), self.title());
        write!(f, "TICKET: {number} {title}")
    }
}
