ghost use Rattle.std.specs.Prelude.{◌≡◌, ◌≤◌, false, length};
ghost use Rattle.std.specs.Box.{boxed_slice_items};
ghost use Rattle.stun_base.specs.Data.{is_borrowed};
ghost use Rattle.stun_attributes.specs.Raw.{raw_data, IsRawOf};

use crate::wire::RawAttribute;
use std::boxed::BoxedSlice;
use stun_base::{AttributeHeader, AttributeType};

/// The raw attribute of this type and value, which it owns.
///
/// # Requires
///
/// `value.len()` is at most 65535, which [`RawAttribute::new_owned`] tests.
pub fn owned_attribute<'a>(atype: AttributeType, value: BoxedSlice<u8>) -> RawAttribute<'a>
    requires { length (boxed_slice_items value) ≤ 65535 }
    ensures raw { IsRawOf atype.0 (boxed_slice_items value) result }
    ensures owned { is_borrowed (raw_data result) ≡ false }
{
    let length = value.len() as u16;
    RawAttribute::owned(AttributeHeader { atype, length }, value)
}
