//! Lists of attribute types.

ghost use Rattle.std.specs.Prelude.{◌≡◌, length, slice_set};
ghost use Rattle.stun_text.specs.Slices.{laid_over};
ghost use Rattle.stun_values.specs.TypeLists.{types_in};
ghost use Rattle.stun_types_c.specs.TypeLists.{unknown_numbers, ReadsTypes};

use crate::attribute::ShownAttribute;
use crate::call_result::{CResult, plain};
use crate::codes;
use crate::values::value_in;
use stun_base::number_at;
use stun_types::attribute::AttributeType;
use stun_types::message::UnknownTypes;

/// The types in a value of an even number of bytes, as many as there is room for.
fn read_into(value: &[u8], types: &mut [u16])
    ensures { types.new ≡ laid_over (types_in value.now) types.old }
{
    for i in 0..types.len().min(value.len() / 2) {
        types[i] = number_at(value, 2 * i);
    }
}

/// The types in an UNKNOWN-ATTRIBUTES, as many as there is room for, and how many there are.
#[tactic(auto, using(crate::proofs::TypeListsLemmas::count_within))]
#[unsafe(no_mangle)]
pub extern "C" fn stun_types_read_types(
    bytes: &[u8],
    attribute: &ShownAttribute,
    types: &mut [u16],
    count: &mut usize,
) -> CResult
    ensures { ReadsTypes attribute.now bytes.now result types.old types.new count.old count.new }
{
    let Some(value) = value_in(bytes, attribute) else {
        return plain(codes::BAD_ARGUMENT);
    };
    if value.len() % 2 != 0 {
        return plain(codes::INVALID_DATA);
    }
    read_into(value, types);
    *count = value.len() / 2;
    plain(codes::OK)
}

/// Puts the number of a type after as many others, if there is room for it.
fn put_behind(count: usize, atype: AttributeType, types: &mut [u16])
    ensures { types.new ≡ slice_set types.old count atype.0 }
{
    if count < types.len() {
        types[count] = atype.0;
    }
}

/// The types of attributes that a message shows, that must be understood and are none of those
/// supported, as many as there is room for. Returns how many there are.
#[unsafe(no_mangle)]
pub extern "C" fn stun_types_unknown_types(
    bytes: &[u8],
    supported: &[AttributeType],
    types: &mut [u16],
) -> usize
    ensures count { result ≡ length (unknown_numbers supported.now bytes.now) }
    ensures types { types.new ≡ laid_over (unknown_numbers supported.now bytes.now) types.old }
{
    let mut count = 0;
    for atype in UnknownTypes::new(bytes, supported) {
        put_behind(count, atype, types);
        count += 1;
    }
    count
}
