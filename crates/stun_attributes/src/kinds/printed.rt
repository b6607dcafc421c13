//! How an attribute that has a name is printed.

ghost use Rattle.std.specs.Prelude.{OnOk};
ghost use Rattle.stun_attributes.specs.Kinds.{named_text};

use stun_text::{PrintText, TextSink};

/// Writes the name of an attribute, a colon and a space, and its value.
pub(crate) fn put_named<S: TextSink, T: PrintText>(
    sink: &mut S,
    name: &str,
    value: &T,
) -> Result<(), S::Error>
    ensures { OnOk result (S.wrote sink.old (named_text name.now (T.text value.now)) sink.new) }
{
    sink.put(name)?;
    sink.put(": ")?;
    value.print(sink)?;
    Ok(())
}
