//! Raw attributes that borrow their value.

ghost use Rattle.std.specs.Prelude.{◌≡◌, ◌≤◌, length};
ghost use Rattle.stun_attributes.specs.Raw.{Borrows};

use crate::wire::{Attribute, RawAttribute};
use stun_base::{AttributeHeader, AttributeType};

/// The raw attribute of this type and value, which it borrows.
///
/// # Requires
///
/// `value.len()` is at most 65535, which [`RawAttribute::new`] tests.
pub fn borrowed_attribute<'a>(atype: AttributeType, value: &'a [u8]) -> RawAttribute<'a>
    requires { length value.now ≤ 65535 }
    ensures { Borrows atype.0 value.now result }
{
    let length = value.len() as u16;
    RawAttribute::borrowed(AttributeHeader { atype, length }, value)
}

/// An attribute that holds the encoding of its value, so that a raw attribute can borrow the value:
/// `RawAttribute::from(&attribute)` takes no memory.
///
/// # Examples
///
/// ```
/// use stun_types::attribute::{RawAttribute, Software};
///
/// let software = Software::new(alloc, "my client")?;
/// let raw = RawAttribute::from(&software);
/// assert_eq!(rt; raw.value().as_bytes(), b"my client".as_slice());
/// ```
pub trait BorrowValue: Attribute {
    /// The encoding of the value, borrowed from the attribute.
    fn value_bytes(&self) -> &[u8]
        ensures { result.now ≡ Self.value self.now };
}

impl<'a, A: BorrowValue> From<&'a A> for RawAttribute<'a> {
    ghost from_gives = { λ attribute raw. Borrows (A.atype attribute.now) (A.value attribute.now) raw };

    fn from(attribute: &'a A) -> Self {
        // For the prover: the value has at most 65535 bytes.
        let _length = attribute.length();
        borrowed_attribute(attribute.get_type(), attribute.value_bytes())
    }
}
