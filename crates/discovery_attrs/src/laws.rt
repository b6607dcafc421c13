//! Laws of the attributes of discovery: what is written is read back. Each function does nothing:
//! its contract is the law.

ghost use Rattle.std.specs.Prelude.{◌≡◌, ◌<◌, ◌^◌, Some, Result, IsOkAnd};
ghost use Rattle.stun_grammar.specs.declared.error.StunParseError.{StunParseError};
ghost use Rattle.discovery_attrs.specs.declared.change.Change.{Change};
ghost use Rattle.discovery_attrs.specs.declared.response_port.ResponsePort.{ResponsePort};
ghost use Rattle.discovery_attrs.specs.declared.transmissions.Transmissions.{Transmissions};
ghost use Rattle.discovery_attrs.specs.Discovery.{change_number, change_of, counts_number, counts_of, port_of, response_port_value, ReadsResponsePort};

/// The number that encodes two flags, or two counts, holds them, so that they are read back
/// (`stun_attributes::packed_attribute_is_read_back`).
pub fn fields_are_held()
    ensures change { (change : Change) → change_of (change_number change) ≡ Some change }
    ensures counts { (counts : Transmissions) → counts.requests < 256 → counts.responses < 256
        → counts_of (counts_number counts) ≡ Some counts }
{}

/// A RESPONSE-PORT that is written is read back as the same value.
pub fn response_port_is_read_back()
    ensures { (attribute : ResponsePort) (result : Result ResponsePort StunParseError)
        → port_of attribute < 2 ^ 16
        → ReadsResponsePort (response_port_value attribute) result
        → IsOkAnd result (λ read. port_of read ≡ port_of attribute) }
{}
