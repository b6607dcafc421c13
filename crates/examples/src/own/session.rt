use stun_types::attribute::{AttributeKind, NumberAttribute};

/// SESSION: the number of a session. The value is eight bytes, big-endian.
pub type Session = NumberAttribute<SessionKind, u64>;

/// The kind of [`Session`].
pub enum SessionKind {}

impl AttributeKind for SessionKind {
    ghost use Rattle.std.specs.Prelude.{codes};
    ghost use Rattle.examples.specs.Own.{SESSION};

    ghost NUMBER = { SESSION };

    ghost NAME = { codes "SESSION" };

    const NUMBER: u16 = 0x8F01;

    fn name() -> &'static str {
        "SESSION"
    }
}
