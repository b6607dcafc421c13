//! One step over the attributes that a message shows.

ghost use Rattle.std.specs.Prelude.{◌≡◌, ◌≤◌, [], length, MatchOption};
ghost use Rattle.stun_types.specs.Iterating.{shown_behind, ShowsFirst};

use crate::attribute::RawAttribute;
use crate::reading::endings::{follows, type_number};
use stun_attributes::attribute_at;

/// The attribute whose header is at `offset` in a message, if it is shown there after one of type
/// `last`, and the offset after its padding: one step of [`MessageAttributesIter`], for a caller
/// that keeps these two numbers itself. The attributes that `bytes` show begin at offset 20, with 0
/// for `last`, if as many bytes follow the header as its length field states. The value borrows
/// the bytes for `'a`.
///
/// # Requires
///
/// `offset` is at most `bytes.len()`.
#[inline(always)]
pub fn shown_at<'a>(bytes: &'a [u8], offset: usize, last: u16) -> Option<(RawAttribute<'a>, usize)>
    requires { offset ≤ length bytes.now }
    ensures { MatchOption result (shown_behind last offset bytes.now ≡ [])
        (λ found. ShowsFirst found.0 found.1 last offset bytes.now) }
{
    match attribute_at(bytes, offset) {
        Err(_) => None,
        Ok(None) => None,
        Ok(Some((attribute, behind))) => {
            if !follows(last, type_number(&attribute)) {
                return None;
            }
            Some((attribute, behind))
        }
    }
}
