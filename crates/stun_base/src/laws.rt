//! Laws of messages and their types. The contract of each function is the law.

ghost use Rattle.std.specs.Prelude.{◌≡◌, ℕ, ◌%◌, ◌^◌, ◌<◌, ◌≤◌, List, length, None};
ghost use Rattle.stun_grammar.specs.Numbers.{IsBytes};
ghost use Rattle.stun_grammar.specs.Attributes.{Attribute};
ghost use Rattle.stun_grammar.specs.Writing.{message_encoding, IsWritable};
ghost use Rattle.stun_grammar.specs.Parsing.{parse_fault};
ghost use Rattle.stun_base.specs.declared.message_class.MessageClass.{MessageClass};
ghost use Rattle.stun_base.specs.MessageTypes.{type_of, class_of, method_of};

use crate::header::GREATEST_MESSAGE;
use crate::{BINDING, MessageClass, MessageType};

/// The type of a class and a method determines the class and the low twelve bits of the method, and
/// a type of fourteen bits is that of its class and its method.
pub fn one_message_type()
    ensures class { (class : MessageClass) (method : ℕ) → class_of (type_of class method) ≡ class }
    ensures method { (class : MessageClass) (method : ℕ)
        → method_of (type_of class method) ≡ method % 2 ^ 12 }
    ensures bits { (class : MessageClass) (method : ℕ) → type_of class method < 2 ^ 14 }
    ensures made { (type : ℕ) → type < 2 ^ 14 → type_of (class_of type) (method_of type) ≡ type }
{}

/// The type of a binding request is 0x0001 (RFC 8489, section 18.2).
pub fn binding_request() -> MessageType
    ensures { result ≡ 0x0001 }
{
    MessageType::from_class_method(MessageClass::Request, BINDING)
}

/// A message that may be written has at most [`GREATEST_MESSAGE`](crate::GREATEST_MESSAGE) bytes, and
/// so has one that parses, if the number of its bytes is a multiple of 4.
pub fn messages_have_a_greatest_length()
    ensures written { (type id : ℕ) (attributes : List Attribute)
        → IsWritable type id attributes
        → length (message_encoding type id attributes) ≤ GREATEST_MESSAGE }
    ensures parsed { (d : List ℕ) → IsBytes d → parse_fault d ≡ None → length d % 4 ≡ 0
        → length d ≤ GREATEST_MESSAGE }
{}
