//! What is between the items of a list.

ghost use Rattle.std.specs.Prelude.{OnOk};
ghost use Rattle.stun_text.specs.Lists.{comma_before};

use crate::TextSink;

/// Writes what precedes the item at an index of a list: a comma and a space, and nothing
/// before the first.
///
/// # Errors
///
/// That of the sink.
pub fn put_comma<S: TextSink>(sink: &mut S, index: usize) -> Result<(), S::Error>
    ensures { OnOk result (S.wrote sink.old (comma_before index) sink.new) }
{
    if index == 0 {
        return Ok(());
    }
    sink.put(", ")
}
