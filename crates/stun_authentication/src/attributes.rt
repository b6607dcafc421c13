//! The value of an attribute of a message, and attributes that are added one after the other, for
//! this crate and for servers alongside it.

ghost use Rattle.std.specs.Prelude.{◌≡◌, ◌≤◌, ◌<◌, ◌^◌, ◌∷◌, [], length};
ghost use Rattle.std.specs.Option.{option_map, option_map_or};
ghost use Rattle.stun_grammar.specs.Attributes.{canonical};
ghost use Rattle.stun_grammar.specs.AttributeTypes.{IsOrdinary};
ghost use Rattle.stun_attributes.specs.ErrorCodes.{error_code, error_reason};
ghost use Rattle.stun_types.specs.Message.{message_bytes};
ghost use Rattle.stun_types.specs.Replies.{error_attribute};
ghost use Rattle.stun_authentication.specs.Identities.{value_of};
ghost use Rattle.stun_authentication.specs.Writing.{Lengthens};

use stun_types::attribute::{AttributeType, ErrorCode};
use stun_types::data::Data;
use stun_types::message::{Message, StunWriteError};
use stun_types::prelude::*;

/// The value of the first attribute of a type that a message shows, borrowed from its bytes.
pub fn value_of<'a>(message: &Message<'a>, atype: AttributeType) -> Option<&'a [u8]>
    ensures value { value_of (message_bytes message.now) atype.0
        ≡ option_map (λ value. value.now) result }
    ensures short { option_map_or (λ value. length value.now) result 0 < 2 ^ 16 }
{
    match message.raw_attribute(atype)?.into_value() {
        Data::Borrowed(value) => Some(value.take()),
        Data::Owned(_) => unreachable!(),
    }
}

/// Adds an attribute.
pub fn add_one<B: MessageWrite>(
    attribute: &dyn AttributeWrite,
    write: &mut B,
) -> Result<(), StunWriteError>
    requires { IsOrdinary (atype attribute.now) }
    ensures { Lengthens result (B.state write.old) (B.state write.new)
        (canonical (atype attribute.now) (value attribute.now) ∷ []) }
{
    write.add_attribute(attribute)
}

/// Adds an attribute of an ordinary type, by its type and its value.
pub fn add_bytes<B: MessageWrite>(
    atype: AttributeType,
    value: &[u8],
    write: &mut B,
) -> Result<(), StunWriteError>
    requires ordinary { IsOrdinary atype.0 }
    requires number { atype.0 < 2 ^ 16 }
    requires short { length value.now ≤ 65535 }
    ensures { Lengthens result (B.state write.old) (B.state write.new)
        (canonical atype.0 value.now ∷ []) }
{
    write.add_ordinary_value(atype, value)
}

/// Adds an ERROR-CODE.
pub fn add_error<B: MessageWrite>(
    attribute: &ErrorCode,
    write: &mut B,
) -> Result<(), StunWriteError>
    ensures { Lengthens result (B.state write.old) (B.state write.new)
        (error_attribute (error_code attribute.now) (error_reason attribute.now) ∷ []) }
{
    add_one(attribute, write)
}
