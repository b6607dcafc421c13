//! The attributes of a message that a writer resumes. They stay in place, and their
//! types are read there.

ghost use Rattle.std.specs.Prelude.{◌≡◌, ◌+◌, ◌-◌, ◌≤◌, ◌||◌, ◌&&◌, ◌++◌, not, ℕ, List, [], length, take, drop, MatchResult, MatchOption, None, Some};
ghost use Rattle.std.specs.List.{list_any};
ghost use Rattle.std.specs.Option.{option_map};
ghost use Rattle.stun_grammar.specs.AttributeTypes.{is_ending};
ghost use Rattle.stun_grammar.specs.Attributes.{encodings, types};
ghost use Rattle.stun_grammar.specs.Chains.{first_attribute, chain, rest, fault};
ghost use Rattle.stun_grammar.specs.ScannedOrder.{has};
ghost use Rattle.stun_grammar.specs.Adding.{appended, numbers, first_of};
ghost use Rattle.stun_attributes.specs.Raw.{Finds};
ghost use Rattle.stun_types.specs.Resuming.{message_types, whole_fault};
ghost use Rattle.stun_types.specs.Listing.{counted, listed_types};

use crate::attribute::{AttributeType, RawAttribute};
use crate::message::{MessageHeader, StunParseError};
use crate::reading::check_frame;
use crate::writing::is_among;
use crate::writing::types::all_end;
use stun_attributes::attribute_at;
use stun_grammar::attribute_types::is_ending;

/// The attributes that a message had when a writer resumed it: how many bytes after the
/// header hold them, and whether an ending one was among them.
#[derive(Debug, Clone, Copy, Drop)]
pub(crate) struct Listed {
    bytes: usize,
    ends: bool,
}

/// Checks that whole attributes follow the header, with nothing after them, and returns whether
/// an ending one is among them. It walks them once.
fn check_attributes(message: &[u8]) -> Result<bool, StunParseError>
    requires { 20 ≤ length message.now }
    ensures { MatchResult result
        (λ ends. (fault (20 + length (encodings (chain (drop 20 message.now))))
        (rest (drop 20 message.now)) ≡ None)
        × (ends ≡ list_any is_ending (message_types message.now)))
        (λ e. fault (20 + length (encodings (chain (drop 20 message.now))))
        (rest (drop 20 message.now)) ≡ Some e) }
{
    let mut ends = false;
    let mut offset = MessageHeader::LENGTH;
    'walk: while let Some((attribute, behind)) = attribute_at(message, offset)? {
        ends |= is_ending(attribute.header().get_type().0);
        offset = behind;
    }
    Ok(ends)
}

/// The attribute whose header is at `offset`, and the offset after it; `None` if no whole
/// attribute is there.
fn whole_attribute_at<'a>(bytes: &'a [u8], offset: usize) -> Option<(RawAttribute<'a>, usize)>
    requires { offset ≤ length bytes.now }
    ensures { MatchOption result (first_attribute (drop offset bytes.now) ≡ None)
        (λ x. (x.1 ≤ length bytes.now) × Finds x.0 x.1 offset bytes.now) }
{
    match attribute_at(bytes, offset) {
        Ok(found) => found,
        Err(_) => None,
    }
}

/// Whether an attribute of this type counts, and is one of those asked for.
fn is_found(ends: bool, asked: &[AttributeType], atype: AttributeType) -> bool
    ensures { result ≡ ((ends || not (is_ending atype.0)) && has atype.0 (numbers asked.now)) }
{
    (ends || !is_ending(atype.0)) && is_among(asked, atype)
}

/// The first type of the attributes that `attributes` hold that is one of those asked for. If
/// `ends` is false, ending ones don't count.
#[inline(never)]
fn find_listed(attributes: &[u8], ends: bool, asked: &[AttributeType]) -> Option<AttributeType>
    ensures { option_map (λ found. found.0) result
        ≡ first_of (numbers asked.now) (counted ends (types (chain attributes.now))) }
{
    let mut offset = 0;
    'walk: while let Some((attribute, behind)) = whole_attribute_at(attributes, offset) {
        let atype = attribute.header().get_type();
        if is_found(ends, asked, atype) {
            return Some(atype);
        }
        offset = behind;
    }
    None
}

impl Listed {
    /// No attributes.
    pub(crate) fn none() -> Listed
        ensures { (message : List ℕ) → listed_types result message ≡ [] }
    {
        Listed {
            bytes: 0,
            ends: false,
        }
    }

    /// Those of a whole message.
    ///
    /// # Errors
    ///
    /// Why the bytes are no whole message.
    pub(crate) fn check(message: &[u8]) -> Result<Listed, StunParseError>
        ensures { MatchResult result
            (λ listed. (whole_fault message.now ≡ None)
            × (listed_types listed message.now ≡ message_types message.now))
            (λ e. whole_fault message.now ≡ Some e) }
    {
        check_frame(message)?;
        let ends = check_attributes(message)?;
        Ok(Listed {
            bytes: message.len() - MessageHeader::LENGTH,
            ends,
        })
    }

    /// The bytes of a message that hold them.
    fn within(self, message: &[u8]) -> &[u8]
        ensures { result.now ≡ take self.bytes (drop 20 message.now) }
    {
        if message.len() < MessageHeader::LENGTH {
            return &[];
        }
        let behind = &message[MessageHeader::LENGTH..];
        &behind[..self.bytes.min(behind.len())]
    }

    /// Keeps them in place before more is written after the first `len` bytes of a message.
    pub(crate) fn keep(&mut self, len: usize)
        ensures more { (message more : List ℕ) → length message ≡ len
            → listed_types self.new (message ++ more) ≡ listed_types self.old message }
        ensures appended { (message : List ℕ) (atype : ℕ) (value : List ℕ)
            → length message ≡ len → 20 ≤ len
            → listed_types self.new (appended message atype value)
            ≡ listed_types self.old message }
    {
        self.bytes = self.bytes.min(len.saturating_sub(MessageHeader::LENGTH));
    }

    /// The first of their types, in a message, that is one of those asked for, or `None`.
    #[inline(always)]
    pub(crate) fn first_of(self, message: &[u8], asked: &[AttributeType]) -> Option<AttributeType>
        ensures { option_map (λ found. found.0) result
            ≡ first_of (numbers asked.now) (listed_types self message.now) }
    {
        if self.bytes == 0 {
            return None;
        }
        if !self.ends && all_end(asked) {
            return None;
        }
        find_listed(self.within(message), self.ends, asked)
    }

    /// Whether the type is one of them, in a message.
    pub(crate) fn has(self, message: &[u8], atype: AttributeType) -> bool
        ensures { result ≡ has atype.0 (listed_types self message.now) }
    {
        self.first_of(message, &[atype]).is_some()
    }
}
