//! Iterating over the attributes of a message.

ghost use Rattle.std.specs.Prelude.{◌≡◌, ◌≤◌, length};
ghost use Rattle.stun_grammar.specs.Showing.{shown};

use crate::attribute::RawAttribute;
use crate::reading::endings::type_number;
use crate::reading::frame::{check_frame, iter_framed};
use crate::reading::step::shown_at;
use stun_grammar::attribute_types::FINGERPRINT;

/// An iterator over the attributes that a message shows, in order, each with the offset of its
/// header in bytes from the start of the message.
///
/// A message shows the longest prefix of its attributes that consists of ordinary ones, followed by
/// at most one MESSAGE-INTEGRITY, one MESSAGE-INTEGRITY-SHA256 and one FINGERPRINT, in that order
/// (RFC 8489, sections 14.5 to 14.7). The values borrow the bytes for `'a`. After its first `None`
/// the iterator returns `None` forever.
#[derive(Debug, Drop)]
pub struct MessageAttributesIter<'a> {
    pub(crate) bytes: &'a [u8],
    pub(crate) offset: usize,
    pub(crate) last: u16,
    ghost within: { offset ≤ length bytes.now },
}

impl<'a> MessageAttributesIter<'a> {
    ghost use Rattle.std.specs.Prelude.{◌≡◌, ◌^◌, ◌<◌};
    ghost use Rattle.stun_types.specs.Iterating.{items_left, borrowed};

    /// An iterator over the attributes that `bytes` show, whatever they are. They show none if they
    /// don't begin with a header, or if fewer or more bytes follow it than its length field states.
    /// A FINGERPRINT is shown whether or not its value is right.
    ///
    /// # Examples
    ///
    /// ```
    /// use stun_types::message::MessageAttributesIter;
    ///
    /// let bytes = b"\x00\x01\x00\x08\x21\x12\xA4\x42abcdefghijkl\x80\x22\x00\x04STUN";
    /// assert_eq!(rt; MessageAttributesIter::new(bytes).count(), 1);
    /// assert_eq!(rt; MessageAttributesIter::new(&bytes[..24]).count(), 0);
    /// ```
    pub fn new(bytes: &'a [u8]) -> MessageAttributesIter<'a>
        ensures items { items_left result ≡ borrowed (shown bytes.now) }
        ensures bound { length (items_left result) < 2 ^ 64 }
    {
        let Ok(()) = check_frame(bytes) else {
            return MessageAttributesIter {
                bytes,
                offset: bytes.len(),
                last: FINGERPRINT,
            };
        };
        iter_framed(bytes)
    }
}

impl<'a> Iterator for MessageAttributesIter<'a> {
    ghost use Rattle.std.specs.Iterator.{YieldsFirstBy, item_count};
    ghost use Rattle.stun_types.specs.Iterating.{items_left, item_view};

    type Item = (usize, RawAttribute<'a>);

    ghost next_gives = { YieldsFirstBy item_view items_left };

    ghost remaining = { item_count items_left };

    fn next(&mut self) -> Option<(usize, RawAttribute<'a>)> {
        let offset = self.offset;
        let (attribute, behind) = shown_at(self.bytes, offset, self.last)?;
        self.offset = behind;
        self.last = type_number(&attribute);
        Some((offset, attribute))
    }
}
