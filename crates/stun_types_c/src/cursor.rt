//! How far a walk over the attributes of a message has come.

ghost use Rattle.std.specs.Prelude.{◌≡◌};
ghost use Rattle.stun_types_c.specs.Cursors.{id_begin, id_end};

use crate::attribute::Place;
use byteorder::{BigEndian, ByteOrder};
use stun_types::message::MessageHeader;

/// How far a walk over the attributes has come, and in which message.
#[repr(C)]
#[derive(Clone, Copy, Drop)]
pub struct Cursor {
    /// How many attributes it has yielded.
    pub index: usize,
    /// The offset of the header that follows the last of them, or 0.
    pub offset: usize,
    /// How many bytes the message has that it yielded the last one of.
    pub length: usize,
    /// The first eight bytes of that message's transaction ID, big-endian.
    pub id_begin: u64,
    /// The last four bytes of it.
    pub id_end: u32,
    /// The type of the last attribute.
    pub last: u16,
    /// 0.
    pub reserved: u16,
}

/// The transaction ID of a message as two numbers: of its first eight bytes, and of its last four.
fn id_of(bytes: &[u8]) -> (u64, u32)
    ensures begin { result.0 ≡ id_begin bytes.now }
    ensures end { result.1 ≡ id_end bytes.now }
{
    if bytes.len() < MessageHeader::LENGTH {
        return (0, 0);
    }
    let begin = BigEndian::read_u64(&bytes[8..16]);
    let end = BigEndian::read_u32(&bytes[16..20]);
    (begin, end)
}

impl Cursor {
    ghost use Rattle.std.specs.Prelude.{◌≡◌, ◌≤◌, length};
    ghost use Rattle.stun_types.specs.Iterating.{shown_behind};
    ghost use Rattle.stun_types_c.specs.Cursors.{continues, left};

    /// Whether it has come to a place in this message, by its length and its transaction ID.
    pub(crate) fn continues(&self, bytes: &[u8]) -> bool
        ensures { result ≡ continues self.now bytes.now }
    {
        let (begin, end) = id_of(bytes);
        MessageHeader::LENGTH <= self.offset
            && self.offset <= bytes.len()
            && self.length == bytes.len()
            && self.id_begin == begin
            && self.id_end == end
    }

    /// Comes to the place after one more attribute of this message.
    pub(crate) fn move_to(&mut self, next: Place, bytes: &[u8])
        requires zeroed { self.old.reserved ≡ 0 }
        requires behind { 20 ≤ next.offset }
        requires within { next.offset ≤ length bytes.now }
        ensures { left self.new bytes.now ≡ shown_behind next.last next.offset bytes.now }
    {
        let (begin, end) = id_of(bytes);
        self.index = self.index.saturating_add(1);
        self.offset = next.offset;
        self.length = bytes.len();
        self.id_begin = begin;
        self.id_end = end;
        self.last = next.last;
    }
}
