//! Looking for types among those of the attributes written.

ghost use Rattle.std.specs.Prelude.{◌≡◌, ◌==◌, find};
ghost use Rattle.std.specs.List.{list_any};
ghost use Rattle.std.specs.Option.{option_map};
ghost use Rattle.stun_grammar.specs.ScannedOrder.{has};
ghost use Rattle.stun_grammar.specs.Adding.{numbers, first_of};

use crate::attribute::AttributeType;

/// Whether `atype` is in `types`.
fn any_is(types: &[AttributeType], atype: AttributeType) -> bool
    ensures { result ≡ list_any (λ a. a.0 == atype.0) types.now }
{
    types.iter().any(|a| a.0 == atype.0)
}

/// The first type in `written` that is also in `asked`.
fn find_any(written: &[AttributeType], asked: &[AttributeType]) -> Option<AttributeType>
    ensures { result ≡ find (λ type. list_any (λ a. a.0 == type.0) asked.now) written.now }
{
    written.iter().copied().find(|atype| any_is(asked, *atype))
}

/// Whether the type `atype` is one of the written ones.
///
/// # Examples
///
/// ```
/// use stun_types::attribute::AttributeType;
/// use stun_types::message::write::is_among;
///
/// let written = [AttributeType(0x8022), AttributeType(0x0006)];
/// assert!(rt; is_among(&written, AttributeType(0x0006)));
/// ```
pub fn is_among(written: &[AttributeType], atype: AttributeType) -> bool
    ensures { result ≡ has atype.0 (numbers written.now) }
{
    any_is(written, atype)
}

/// The first of the written types that is one of those asked for, or `None`.
///
/// # Examples
///
/// ```
/// use stun_types::attribute::AttributeType;
/// use stun_types::message::write::first_among;
///
/// let written = [AttributeType(0x8022), AttributeType(0x0006)];
/// let asked = [AttributeType(0x0006), AttributeType(0x8022)];
/// assert_eq!(rt; first_among(&written, &asked), Some(AttributeType(0x8022)));
/// ```
pub fn first_among(written: &[AttributeType], asked: &[AttributeType]) -> Option<AttributeType>
    ensures { option_map (λ found. found.0) result
        ≡ first_of (numbers asked.now) (numbers written.now) }
{
    find_any(written, asked)
}
