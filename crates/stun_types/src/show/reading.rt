//! A function that prints attributes by reading them.

ghost use Rattle.std.specs.Prelude.{OnOk};
ghost use Rattle.std.specs.String.{string_bytes};
ghost use Rattle.stun_types.specs.Shown.{AppendsRead};

use crate::attribute::{AttributeFromRaw, RawAttribute};
use crate::message::StunParseError;
use std::alloc::Global;
use std::fmt;
use std::fmt::Write;
use stun_attributes::print_malformed;

/// An attribute that prints as one whose value is not what its type asks for.
#[derive(Clone, Copy)]
struct Malformed<'r, 'a>(&'r RawAttribute<'a>);

impl fmt::Display for Malformed<'_, '_> {
    ghost use Rattle.std.specs.Prelude.{Some};
    ghost use Rattle.stun_types.specs.Shown.{malformed};

    ghost output = { λ shown. Some (malformed shown.0.now) };

    fn fmt<W: fmt::Write>(&self, f: &mut fmt::Formatter<W>) -> fmt::Result {
        print_malformed(self.0, f)
    }
}

/// Reads a raw attribute as an `A`, in memory from `alloc`, and appends the text that the `A`
/// prints to `text`. If reading refuses, it appends the text of a malformed attribute.
///
/// # Errors
///
/// `fmt::Error` if reading finds no memory, if the text finds none, or if the attribute
/// answers it.
///
/// # Examples
///
/// ```
/// use ice_attrs::Priority;
/// use stun_types::attribute::RawAttribute;
/// use stun_types::prelude::*;
/// use stun_types::show::print_read;
///
/// let raw = RawAttribute::new(Priority::TYPE, &[0, 0, 0, 7])?;
/// let mut text = String::new(alloc);
/// print_read::<Priority>(alloc, &raw, &mut text)?;
/// assert_eq!(rt; text.as_str(), "PRIORITY: 7");
/// ```
pub fn print_read<'a, A: AttributeFromRaw<'a> + fmt::Display + Drop>(
    alloc: Global,
    raw: &RawAttribute<'_>,
    text: &mut String,
) -> fmt::Result
    ensures { OnOk result (AppendsRead A.reads_ref A.output raw.now
        (string_bytes text.old) (string_bytes text.new)) }
{
    match A::from_raw_ref(alloc, raw) {
        Ok(attribute) => write!(text, "{attribute}").map_err(|_| fmt::Error),
        Err(StunParseError::OutOfMemory) => Err(fmt::Error),
        Err(_) => {
            let malformed = Malformed(raw);
            write!(text, "{malformed}").map_err(|_| fmt::Error)
        }
    }
}
