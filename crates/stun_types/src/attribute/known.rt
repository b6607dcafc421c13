//! What the RFCs say of attribute types.

ghost use Rattle.std.specs.Prelude.{◌≡◌};
ghost use Rattle.std.specs.Option.{option_map};
ghost use Rattle.stun_types.specs.KnownTypes.{facts, known_type, own_form};

use crate::attribute::AttributeType;
use stun_grammar::attribute_types::{
    ALTERNATE_DOMAIN, ALTERNATE_SERVER, ERROR_CODE, FINGERPRINT, MAPPED_ADDRESS, MESSAGE_INTEGRITY,
    MESSAGE_INTEGRITY_SHA256, NONCE, PASSWORD_ALGORITHM, PASSWORD_ALGORITHMS, REALM, SOFTWARE,
    UNKNOWN_ATTRIBUTES, USERHASH, USERNAME, XOR_MAPPED_ADDRESS,
};

/// The form of the values of an attribute type. Numbers are big-endian.
#[derive(Clone, Copy, Debug, PartialEq, Eq)]
pub enum ValueForm {
    /// A number of `width` bytes (1, 2, 4 or 8), from `least` to `greatest`.
    Number {
        width: usize,
        least: u64,
        greatest: u64,
    },
    /// Four bytes, of which the first `width` (1 or 2) are a number from `least` to `greatest`, and
    /// the others are written 0 and ignored.
    PaddedNumber {
        width: usize,
        least: u64,
        greatest: u64,
    },
    /// `width` bytes (1, 2, 4 or 8) that are bits, several numbers, or opaque.
    Octets {
        width: usize,
    },
    /// An address.
    Address,
    /// An address that is XORed with the transaction ID.
    XorAddress,
    /// None of these: a text, a list, an error, a hash, any bytes, or no bytes.
    Other,
}

/// What an RFC says of an attribute type.
///
/// # Examples
///
/// ```
/// use stun_types::attribute::{ValueForm, known_type};
///
/// let known = known_type(0x0020).ok_or("no type of RFC 8489")?;
/// assert_eq!(rt; known.name, "XOR-MAPPED-ADDRESS");
/// assert_eq!(rt; known.form, ValueForm::XorAddress);
/// assert_eq!(rt; known.rfc, 8489);
/// ```
#[derive(Clone, Copy, Debug, PartialEq, Eq)]
pub struct KnownType {
    /// The name of the type.
    pub name: &'static str,
    /// The form of its values.
    pub form: ValueForm,
    /// The number of the RFC that defines the attribute.
    pub rfc: u16,
}

impl KnownType {
    ghost use Rattle.std.specs.Prelude.{◌≡◌};
    ghost use Rattle.stun_types.specs.KnownTypes.{facts};

    /// Says of a type that it has the name `name` and values of the form `form`, by the RFC with
    /// the number `rfc`.
    pub fn new(name: &'static str, form: ValueForm, rfc: u16) -> Self
        ensures { facts result ≡ record { name = name.now; form = form; rfc = rfc } }
    {
        KnownType { name, form, rfc }
    }
}

/// The form of the values of a type of RFC 8489.
fn own_form(atype: u16) -> Option<ValueForm>
    ensures { result ≡ own_form atype }
{
    match atype {
        MAPPED_ADDRESS | ALTERNATE_SERVER => Some(ValueForm::Address),
        XOR_MAPPED_ADDRESS => Some(ValueForm::XorAddress),
        FINGERPRINT => Some(ValueForm::Octets { width: 4 }),
        USERNAME
        | MESSAGE_INTEGRITY
        | ERROR_CODE
        | UNKNOWN_ATTRIBUTES
        | REALM
        | NONCE
        | MESSAGE_INTEGRITY_SHA256
        | PASSWORD_ALGORITHM
        | USERHASH
        | PASSWORD_ALGORITHMS
        | ALTERNATE_DOMAIN
        | SOFTWARE => Some(ValueForm::Other),
        _ => None,
    }
}

/// Returns what RFC 8489 says of an attribute type (sections 14 and 18.3): its name, as
/// [`AttributeType::name`] spells it, and the form of its values; `None` for a type that RFC 8489
/// doesn't have. The crates of attributes have such a function each.
pub fn known_type(atype: u16) -> Option<KnownType>
    ensures { option_map facts result ≡ known_type atype }
{
    let form = own_form(atype)?;
    Some(KnownType::new(AttributeType(atype).name(), form, 8489))
}
