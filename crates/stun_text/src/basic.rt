//! The text of the numbers and of `bool`, as `Display` prints them.

use crate::{PrintText, TextSink, put_decimal};

impl PrintText for u8 {
    ghost use Rattle.std.specs.Fmt.{decimal};

    ghost text = { decimal };

    fn print<S: TextSink>(&self, sink: &mut S) -> Result<(), S::Error> {
        put_decimal(sink, *self as u64)
    }
}

impl PrintText for u16 {
    ghost use Rattle.std.specs.Fmt.{decimal};

    ghost text = { decimal };

    fn print<S: TextSink>(&self, sink: &mut S) -> Result<(), S::Error> {
        put_decimal(sink, *self as u64)
    }
}

impl PrintText for u32 {
    ghost use Rattle.std.specs.Fmt.{decimal};

    ghost text = { decimal };

    fn print<S: TextSink>(&self, sink: &mut S) -> Result<(), S::Error> {
        put_decimal(sink, *self as u64)
    }
}

impl PrintText for u64 {
    ghost use Rattle.std.specs.Fmt.{decimal};

    ghost text = { decimal };

    fn print<S: TextSink>(&self, sink: &mut S) -> Result<(), S::Error> {
        put_decimal(sink, *self as u64)
    }
}

impl PrintText for bool {
    ghost use Rattle.std.specs.Prelude.{codes, if◌then◌else◌};

    ghost text = { λ value. if value then codes "true" else codes "false" };

    fn print<S: TextSink>(&self, sink: &mut S) -> Result<(), S::Error> {
        sink.put(if *self { "true" } else { "false" })
    }
}
