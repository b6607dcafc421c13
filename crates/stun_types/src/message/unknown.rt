//! The types that a message shows, that must be understood and aren't.

ghost use Rattle.std.specs.Prelude.{◌≡◌};
ghost use Rattle.std.specs.List.{list_any};
ghost use Rattle.stun_grammar.specs.ScannedOrder.{has};
ghost use Rattle.stun_grammar.specs.Adding.{numbers};
ghost use Rattle.stun_types.specs.Replies.{joined, is_unknown};
ghost use Rattle.stun_types.specs.UnknownTypes.{types_of};

use crate::attribute::AttributeType;
use crate::reading::MessageAttributesIter;
use crate::writing::is_among;

/// Whether one of the lists has the type.
fn any_has(lists: &[&[AttributeType]], atype: AttributeType) -> bool
    ensures { result ≡ list_any (λ types. has atype.0 (numbers types.now)) lists.now }
{
    lists.iter().any(|types| is_among(types, atype))
}

/// Whether the joined lists have the type.
fn joined_have(lists: &[&[AttributeType]], atype: AttributeType) -> bool
    ensures { result ≡ has atype.0 (numbers (joined lists.now)) }
{
    any_has(lists, atype)
}

/// The supported types: one list of them, or several.
#[derive(Clone, Copy)]
enum Supported<'s> {
    One(&'s [AttributeType]),
    Several(&'s [&'s [AttributeType]]),
}

impl Supported<'_> {
    /// Whether the type is supported.
    fn has(&self, atype: AttributeType) -> bool
        ensures { result ≡ has atype.0 (numbers (types_of self.now)) }
    {
        match self {
            Supported::One(types) => is_among(types, atype),
            Supported::Several(lists) => joined_have(lists, atype),
        }
    }
}

/// An iterator over the types of the attributes that a message shows, that must be understood (they
/// are below 0x8000) and aren't among those supported, in order and as often as shown (RFC 8489,
/// section 6.3.1). After its first `None` it returns `None` forever.
#[derive(Drop)]
pub struct UnknownTypes<'m, 's> {
    attributes: MessageAttributesIter<'m>,
    supported: Supported<'s>,
}

impl<'m, 's> UnknownTypes<'m, 's> {
    ghost use Rattle.std.specs.Prelude.{◌≡◌};
    ghost use Rattle.stun_types.specs.Replies.{joined, unknown_types};
    ghost use Rattle.stun_types.specs.UnknownTypes.{types_left};

    /// Returns an iterator over the unknown types of a message, of the bytes `bytes`: those that it
    /// shows, that must be understood, and that `supported` doesn't list. It takes no memory.
    ///
    /// # Examples
    ///
    /// ```
    /// use stun_types::attribute::{AttributeType, Username};
    /// use stun_types::message::UnknownTypes;
    /// use stun_types::prelude::*;
    ///
    /// let bytes = b"\x00\x01\x00\x08\x21\x12\xA4\x42abcdefghijkl\x77\x77\x00\x01a\0\0\0";
    /// let supported = [Username::TYPE];
    /// let mut unknown = UnknownTypes::new(bytes, &supported);
    /// assert_eq!(rt; unknown.next(), Some(AttributeType(0x7777)));
    /// ```
    pub fn new(bytes: &'m [u8], supported: &'s [AttributeType]) -> UnknownTypes<'m, 's>
        ensures { types_left result ≡ unknown_types supported.now bytes.now }
    {
        UnknownTypes {
            attributes: MessageAttributesIter::new(bytes),
            supported: Supported::One(supported),
        }
    }

    /// Returns an iterator over the unknown types of a message, as [`UnknownTypes::new`] does, with
    /// the types of several lists as those supported: of each usage of STUN its own.
    ///
    /// # Examples
    ///
    /// ```
    /// use stun_types::attribute::{AttributeType, KNOWN};
    /// use stun_types::message::UnknownTypes;
    ///
    /// let bytes = b"\x00\x01\x00\x08\x21\x12\xA4\x42abcdefghijkl\x77\x77\x00\x01a\0\0\0";
    /// let own = [AttributeType(0x7777)];
    /// assert_eq!(rt; UnknownTypes::with_lists(bytes, &[&KNOWN, &own]).next(), None);
    /// ```
    pub fn with_lists(bytes: &'m [u8], supported: &'s [&'s [AttributeType]]) -> UnknownTypes<'m, 's>
        ensures { types_left result ≡ unknown_types (joined supported.now) bytes.now }
    {
        UnknownTypes {
            attributes: MessageAttributesIter::new(bytes),
            supported: Supported::Several(supported),
        }
    }
}

/// Whether an attribute of this type must be understood, and isn't.
fn must_be_understood(supported: &Supported<'_>, atype: AttributeType) -> bool
    ensures { result ≡ is_unknown (types_of supported.now) atype }
{
    atype.comprehension_required() && !supported.has(atype)
}

impl Iterator for UnknownTypes<'_, '_> {
    ghost use Rattle.std.specs.Iterator.{YieldsFirst, item_count};
    ghost use Rattle.stun_types.specs.UnknownTypes.{types_left};

    type Item = AttributeType;

    ghost next_gives = { YieldsFirst types_left };

    ghost remaining = { item_count types_left };

    fn next(&mut self) -> Option<AttributeType> {
        'walk: while let Some((_offset, attribute)) = self.attributes.next() {
            let atype = attribute.header().get_type();
            if must_be_understood(&self.supported, atype) {
                return Some(atype);
            }
        }
        None
    }
}
