//! Text to a formatter, until it refuses a piece.

ghost use Rattle.std.specs.Prelude.{OnErr};
ghost use Rattle.std.specs.Fmt.{WritesOnOk};
ghost use Rattle.stun_types.specs.Formatters.{Refused, StopsAt};

use crate::{PrintText, TextSink};
use std::convert::Infallible;
use std::fmt;

/// Writes a piece of text to a formatter.
#[tactic(auto, using(crate::specs::Formatters::refused))]
fn put_piece<W: fmt::Write>(f: &mut fmt::Formatter<W>, piece: &str) -> fmt::Result
    ensures writes { WritesOnOk W.write_str_gives f.old result piece.now f.new }
    ensures refused { OnErr result (Refused W.write_str_gives f.old piece.now f.new) }
{
    f.write_str(piece)
}

/// A formatter that takes text until it refuses a piece, and nothing after that.
struct UntilRefused<'f, W> {
    to: &'f mut fmt::Formatter<W>,
    refused: bool,
}

impl<W: fmt::Write> TextSink for UntilRefused<'_, W> {
    ghost use Rattle.stun_types.specs.Formatters.{Took};
    ghost use Rattle.stun_types.specs.FormattersLaws.{took_nothing, took_both};

    type Error = Infallible;

    ghost wrote = { Took W.write_str_gives };

    fn put(&mut self, text: &str) -> Result<(), Infallible> {
        if !self.refused {
            self.refused = put_piece(self.to, text).is_err();
        }
        Ok(())
    }

    ghost nothing = { took_nothing W.write_str_gives };

    ghost joins = { took_both W.write_str_gives };
}

/// Writes the text of a value to a formatter, until it refuses a piece.
///
/// # Errors
///
/// `fmt::Error` if the formatter refuses a piece.
pub(crate) fn display<T: PrintText, W: fmt::Write>(
    value: &T,
    f: &mut fmt::Formatter<W>,
) -> fmt::Result
    ensures writes { WritesOnOk W.write_str_gives f.old result (T.text value.now) f.new }
    ensures stops { OnErr result (StopsAt W.write_str_gives f.old (T.text value.now) f.new) }
{
    let mut sink = UntilRefused {
        to: f,
        refused: false,
    };
    let Ok(()) = value.print(&mut sink);
    let UntilRefused { to: _, refused } = sink;
    if refused { Err(fmt::Error) } else { Ok(()) }
}
