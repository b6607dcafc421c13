//! How attributes are printed whose values are texts, bytes or addresses.

ghost use Rattle.std.specs.Prelude.{OnOk, codes, ◌++◌};
ghost use Rattle.stun_grammar.specs.Names.{attribute_type_text, hex_text, plain_text, quoted_text};
ghost use Rattle.std.specs.Net.Text.{socket_text};
ghost use Rattle.stun_values.specs.Addresses.{xored_text};

use crate::xored::write_xored;
use std::net::SocketAddr;
use stun_base::{AttributeType, Hex};
use stun_text::{PrintText, TextSink, put_socket};

/// Writes what precedes the value of an attribute of this type: the type, a colon and a space.
#[tactic(auto, using(stun_text::proofs::Joining::both, stun_text::proofs::Joining::spelled_so))]
pub(crate) fn put_type<S: TextSink>(sink: &mut S, atype: AttributeType) -> Result<(), S::Error>
    ensures { OnOk result
        (S.wrote sink.old (attribute_type_text atype.0 ++ codes ": ") sink.new) }
{
    atype.print(sink)?;
    sink.put(": ")?;
    Ok(())
}

/// Prints an attribute of this type whose value is shown as bytes: the type, `: 0x`, and two
/// hexadecimal digits for each byte, in lower case. It takes no memory.
///
/// # Errors
///
/// That of the sink.
pub fn print_hex<S: TextSink>(
    sink: &mut S,
    atype: AttributeType,
    bytes: &[u8],
) -> Result<(), S::Error>
    ensures { OnOk result (S.wrote sink.old (hex_text atype.0 bytes.now) sink.new) }
{
    atype.print(sink)?;
    sink.put(": 0x")?;
    Hex(bytes).print(sink)?;
    Ok(())
}

/// Prints an attribute of this type whose value is a text: the type, `: ` and the text. It takes no
/// memory.
///
/// # Errors
///
/// That of the sink.
#[tactic(auto, using(stun_text::proofs::Joining::both, stun_text::proofs::Joining::spelled_so))]
pub fn print_plain<S: TextSink>(
    sink: &mut S,
    atype: AttributeType,
    text: &str,
) -> Result<(), S::Error>
    ensures { OnOk result (S.wrote sink.old (plain_text atype.0 text.now) sink.new) }
{
    put_type(sink, atype)?;
    sink.put(text)?;
    Ok(())
}

/// Prints an attribute of this type whose value is a text: the type, `: `, and the text between `'`
/// and `'`, as it is. It takes no memory.
///
/// # Errors
///
/// That of the sink.
pub fn print_quoted<S: TextSink>(
    sink: &mut S,
    atype: AttributeType,
    text: &str,
) -> Result<(), S::Error>
    ensures { OnOk result (S.wrote sink.old (quoted_text atype.0 text.now) sink.new) }
{
    atype.print(sink)?;
    sink.put(": '")?;
    sink.put(text)?;
    sink.put("'")?;
    Ok(())
}

/// Prints an attribute of this type whose value is an address: the type, `: ` and the address. It
/// takes no memory.
///
/// # Errors
///
/// That of the sink.
#[tactic(auto, using(stun_text::proofs::Joining::both, stun_text::proofs::Joining::spelled_so))]
pub fn print_address<S: TextSink>(
    sink: &mut S,
    atype: AttributeType,
    addr: SocketAddr,
) -> Result<(), S::Error>
    ensures { OnOk result (S.wrote sink.old (plain_text atype.0 (socket_text addr)) sink.new) }
{
    put_type(sink, atype)?;
    put_socket(sink, addr)?;
    Ok(())
}

/// Prints an attribute of this type whose value is an address that was XORed: the type, `: `, and
/// what [`write_xored`] prints. It takes no memory.
///
/// # Errors
///
/// That of the sink.
#[tactic(auto, using(stun_text::proofs::Joining::both, stun_text::proofs::Joining::spelled_so))]
pub fn print_xored<S: TextSink>(
    sink: &mut S,
    atype: AttributeType,
    addr: SocketAddr,
) -> Result<(), S::Error>
    ensures { OnOk result (S.wrote sink.old (plain_text atype.0 (xored_text addr)) sink.new) }
{
    put_type(sink, atype)?;
    write_xored(sink, addr)?;
    Ok(())
}
