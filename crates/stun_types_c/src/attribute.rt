//! Attributes, a walk over them, and a look-up.

ghost use Rattle.std.specs.Prelude.{◌≡◌, ◌≤◌, ◌<◌, [], false, length, drop, Some, None, MatchOption, slice_set};
ghost use Rattle.std.specs.Option.{option_map};
ghost use Rattle.stun_grammar.specs.Showing.{shown};
ghost use Rattle.stun_types.specs.Iterating.{shown_behind};
ghost use Rattle.stun_types.specs.LookingUp.{nth};
ghost use Rattle.stun_types_c.specs.Attributes.{in_c, first_of_type, TakesFirst, IsPlaceOf, Lists, Tells};
ghost use Rattle.stun_types_c.specs.Cursors.{left, Steps};

use crate::cursor::Cursor;
use stun_types::message::MessageHeader;
use stun_types::message::framed::{check_frame, shown_at};

/// An attribute that a message shows.
#[repr(C)]
#[derive(Clone, Copy, Drop)]
pub struct ShownAttribute {
    /// The offset of its value in the message.
    pub value_at: usize,
    /// Its type.
    pub atype: u16,
    /// The length of its value.
    pub length: u16,
}

/// Where what is left of a message's attributes begins.
#[derive(Clone, Copy)]
pub(crate) struct Place {
    /// The offset of the next attribute's header.
    pub(crate) offset: usize,
    /// The type of the attribute before it, or 0.
    pub(crate) last: u16,
}

/// The beginning of a message's attributes.
fn start(bytes: &[u8]) -> Option<Place>
    ensures { MatchOption result (shown bytes.now ≡ []) (IsPlaceOf (shown bytes.now) bytes.now) }
{
    match check_frame(bytes) {
        Ok(()) => Some(Place {
            offset: MessageHeader::LENGTH,
            last: 0,
        }),
        Err(_) => None,
    }
}

/// The first attribute that is left at a place, and the place after it; `None` if none is left.
fn step(bytes: &[u8], at: Place) -> Option<(ShownAttribute, Place)>
    requires { at.offset ≤ length bytes.now }
    ensures { MatchOption result (shown_behind at.last at.offset bytes.now ≡ [])
        (λ taken. TakesFirst at taken.0 taken.1 bytes.now) }
{
    let (raw, behind) = shown_at(bytes, at.offset, at.last)?;
    let header = raw.header();
    let last = header.get_type().value();
    let found = ShownAttribute {
        value_at: at.offset + 4,
        atype: last,
        length: header.length(),
    };
    let next = Place {
        offset: behind,
        last,
    };
    Some((found, next))
}

/// What is left of a message's attributes after as many more.
fn skip(bytes: &[u8], from: Place, count: usize) -> Option<Place>
    requires behind { 20 ≤ from.offset }
    requires within { from.offset ≤ length bytes.now }
    ensures { let skipped = drop count (shown_behind from.last from.offset bytes.now) in
        MatchOption result (skipped ≡ []) (IsPlaceOf skipped bytes.now) }
{
    let mut at = from;
    let mut more = count;
    while more > 0 {
        let (_, next) = step(bytes, at)?;
        at = next;
        more -= 1;
    }
    Some(at)
}

/// What a walk has yet to yield of a message: where it has come to, or, if it was on the way
/// through another one, what comes after as many attributes as it has yielded.
fn place_left(cursor: &Cursor, bytes: &[u8]) -> Option<Place>
    requires { cursor.now.reserved ≡ 0 }
    ensures { MatchOption result (left cursor.now bytes.now ≡ [])
        (IsPlaceOf (left cursor.now bytes.now) bytes.now) }
{
    if cursor.continues(bytes) {
        return Some(Place {
            offset: cursor.offset,
            last: cursor.last,
        });
    }
    let start = start(bytes)?;
    skip(bytes, start, cursor.index)
}

/// The next attribute that a message shows; false if there are no more, and from then on.
#[unsafe(no_mangle)]
pub extern "C" fn stun_types_next(
    bytes: &[u8],
    cursor: &mut Cursor,
    attribute: &mut ShownAttribute,
) -> bool
    ensures steps { Steps result (left cursor.old bytes.now) (left cursor.new bytes.now)
        attribute.new }
    ensures stays { result ≡ false → cursor.new ≡ cursor.old }
    ensures keeps { result ≡ false → attribute.new ≡ attribute.old }
{
    if cursor.reserved != 0 {
        return false;
    }
    let Some(at) = place_left(cursor, bytes) else {
        return false;
    };
    let Some((found, next)) = step(bytes, at) else {
        return false;
    };
    *attribute = found;
    cursor.move_to(next, bytes);
    true
}

/// Puts an attribute after as many others, if there is room for it.
fn put_after(count: usize, found: ShownAttribute, attributes: &mut [ShownAttribute])
    ensures { attributes.new ≡ slice_set attributes.old count found }
{
    if count < attributes.len() {
        attributes[count] = found;
    }
}

/// Lists the attributes that are left, as many as there is room for, and returns how many they are.
fn list_from(bytes: &[u8], from: Place, attributes: &mut [ShownAttribute]) -> usize
    requires { from.offset ≤ length bytes.now }
    ensures { Lists (shown_behind from.last from.offset bytes.now) result attributes.old
        attributes.new }
{
    let mut at = from;
    let mut count = 0;
    while let Some((found, next)) = step(bytes, at) {
        put_after(count, found, attributes);
        count += 1;
        at = next;
    }
    count
}

/// Lists the attributes that a message shows, as many as there is room for, and returns how many
/// they are.
#[unsafe(no_mangle)]
pub extern "C" fn stun_types_attributes(bytes: &[u8], attributes: &mut [ShownAttribute]) -> usize
    ensures { Lists (shown bytes.now) result attributes.old attributes.new }
{
    match start(bytes) {
        Some(at) => list_from(bytes, at, attributes),
        None => 0,
    }
}

/// The first attribute of a type that a walk has yet to yield.
fn find_from(bytes: &[u8], from: Place, atype: u16) -> Option<ShownAttribute>
    requires { from.offset ≤ length bytes.now }
    ensures { MatchOption (first_of_type atype (shown_behind from.last from.offset bytes.now))
        (result ≡ None) (λ a. result ≡ Some (in_c a)) }
{
    let mut at = from;
    while let Some((found, next)) = step(bytes, at) {
        if found.atype == atype {
            return Some(found);
        }
        at = next;
    }
    None
}

/// The first attribute of a type that a message shows, if there is one.
pub(crate) fn first_shown(bytes: &[u8], atype: u16) -> Option<ShownAttribute>
    ensures { option_map in_c (nth bytes.now atype 0) ≡ result }
{
    let at = start(bytes)?;
    find_from(bytes, at, atype)
}

/// The first attribute of a type that a message shows; false if there is none.
#[unsafe(no_mangle)]
pub extern "C" fn stun_types_find(bytes: &[u8], atype: u16, attribute: &mut ShownAttribute) -> bool
    ensures { Tells (nth bytes.now atype 0) result attribute.old attribute.new }
{
    match first_shown(bytes, atype) {
        Some(found) => {
            *attribute = found;
            true
        }
        None => false,
    }
}
