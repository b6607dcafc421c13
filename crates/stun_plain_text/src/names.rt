//! What the RFCs say of attribute types, and the names of methods.

ghost use Rattle.std.specs.Prelude.{◌≡◌};
ghost use Rattle.std.specs.Option.{option_map};
ghost use Rattle.stun_types.specs.KnownTypes.{facts};
ghost use Rattle.stun_plain_text.specs.NamesOfAll.{known_type, value_form, type_name, method_name};

use stun_types::attribute::{AttributeType, KnownType, ValueForm};
use stun_types::message::Method;

/// Returns what an RFC says of an attribute type: its name, the form of its values, and which RFC
/// it is; `None` for a type that neither STUN nor ICE, TURN and NAT discovery have.
///
/// # Examples
///
/// ```
/// use stun_plain_text::known_type;
///
/// assert_eq!(rt; known_type(0x0024).map(|known| known.name), Some("PRIORITY"));
/// assert_eq!(rt; known_type(0x7777), None);
/// ```
pub fn known_type(atype: u16) -> Option<KnownType>
    ensures { option_map facts result ≡ known_type atype }
{
    if let Some(known) = stun_types::attribute::known_type(atype) {
        return Some(known);
    }
    if let Some(known) = ice_attrs::known_type(atype) {
        return Some(known);
    }
    if let Some(known) = turn_attrs::known_type(atype) {
        return Some(known);
    }
    discovery_attrs::known_type(atype)
}

/// Returns the form of the values of an attribute type; `None` for a type that [`known_type`]
/// doesn't know.
pub fn value_form(atype: u16) -> Option<ValueForm>
    ensures { result ≡ value_form atype }
{
    Some(known_type(atype)?.form)
}

/// The name of a type, `unknown` of one that neither STUN nor ICE, TURN and NAT discovery have.
pub(crate) fn type_name(atype: AttributeType) -> &'static str
    ensures { result.now ≡ type_name atype.0 }
{
    match known_type(atype.value()) {
        Some(known) => known.name,
        None => "unknown",
    }
}

/// Returns the name of a method; `unknown` for one that neither STUN nor TURN has.
///
/// # Examples
///
/// ```
/// use stun_plain_text::method_name;
/// use stun_types::message::Method;
///
/// assert_eq!(rt; method_name(Method::new(0x003)), "ALLOCATE");
/// ```
pub fn method_name(method: Method) -> &'static str
    ensures { result.now ≡ method_name method }
{
    match method.value() {
        3 => "ALLOCATE",
        4 => "REFRESH",
        6 => "SEND",
        7 => "DATA",
        8 => "CREATE_PERMISSION",
        9 => "CHANNEL_BIND",
        10 => "CONNECT",
        11 => "CONNECTION_BIND",
        12 => "CONNECTION_ATTEMPT",
        _ => method.name(),
    }
}
