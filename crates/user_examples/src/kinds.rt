//! Attributes of a user's own, by the forms of the library, that are written and read back.

ghost use Rattle.std.specs.Prelude.{◌≡◌, None, IfOk};
ghost use Rattle.stun_grammar.specs.Parsing.{parse_fault};
ghost use Rattle.stun_attributes.specs.Kinds.{xored_of};
ghost use Rattle.stun_values.specs.Addresses.{IsInRange};
ghost use Rattle.stun_types.specs.ReadingBack.{ShowsFirst};
ghost use Rattle.user_examples.specs.Kinds.{QUIET, HOME};

use crate::there::write_own;
use std::alloc::Global;
use stun_types::attribute::{
    AttributeKind, EmptyAttribute, EncodeValue, PackedAttribute, PackedKind, XorAddressAttribute,
};
use stun_types::message::{Message, StunWriteError, TransactionId};
use stun_types::{
    address_attribute_is_read_back, empty_is_read_back, number_is_read_back,
    packed_attribute_is_read_back, typed_is_read_back,
};

/// An attribute of type 0x8855 without a value.
pub type Marker = EmptyAttribute<MarkerKind>;

/// The kind of [`Marker`].
pub enum MarkerKind {}

impl AttributeKind for MarkerKind {
    ghost use Rattle.std.specs.Prelude.{codes};
    ghost use Rattle.user_examples.specs.Kinds.{MARKER};

    ghost NUMBER = { MARKER };

    ghost NAME = { codes "MARKER" };

    const NUMBER: u16 = 0x8855;

    fn name() -> &'static str {
        "MARKER"
    }
}

/// An attribute of type 0x8856 that holds a flag, in one byte that is 1 or 0.
pub type Quiet = PackedAttribute<QuietKind, bool>;

/// The kind of [`Quiet`].
pub enum QuietKind {}

impl AttributeKind for QuietKind {
    ghost use Rattle.std.specs.Prelude.{codes};
    ghost use Rattle.user_examples.specs.Kinds.{QUIET};

    ghost NUMBER = { QUIET };

    ghost NAME = { codes "QUIET" };

    const NUMBER: u16 = 0x8856;

    fn name() -> &'static str {
        "QUIET"
    }
}

impl PackedKind<bool> for QuietKind {
    ghost use Rattle.user_examples.specs.Kinds.{flag_number, flag_of};

    type Number = u8;

    ghost number_of = { flag_number };

    ghost fields_of = { flag_of };

    fn to_number(value: &bool) -> u8 {
        if *value { 1 } else { 0 }
    }

    fn from_number(number: u8) -> Option<bool> {
        match number {
            0 => Some(false),
            1 => Some(true),
            _ => None,
        }
    }
}

/// An attribute of type 0x8857 that holds an address, XORed.
pub type Home = XorAddressAttribute<HomeKind>;

/// The kind of [`Home`].
pub enum HomeKind {}

impl AttributeKind for HomeKind {
    ghost use Rattle.std.specs.Prelude.{codes};
    ghost use Rattle.user_examples.specs.Kinds.{HOME};

    ghost NUMBER = { HOME };

    ghost NAME = { codes "HOME" };

    const NUMBER: u16 = 0x8857;

    fn name() -> &'static str {
        "HOME"
    }
}

/// Writes a binding request with this transaction ID and this attribute into a vector.
fn write_quiet(alloc: Global, id: TransactionId, quiet: &Quiet) -> Result<Vec<u8>, StunWriteError>
    ensures parses { IfOk result (λ bytes. parse_fault bytes.items ≡ None) }
    ensures shows { IfOk result (λ bytes. ShowsFirst QUIET
        (⟦<Quiet as EncodeValue>⟧.bytes quiet.now) bytes.items) }
{
    write_own(alloc, id, quiet)
}

/// Writes a binding request with this transaction ID and this attribute into a vector.
fn write_home(alloc: Global, id: TransactionId, home: &Home) -> Result<Vec<u8>, StunWriteError>
    ensures parses { IfOk result (λ bytes. parse_fault bytes.items ≡ None) }
    ensures shows { IfOk result (λ bytes. ShowsFirst HOME
        (⟦<Home as EncodeValue>⟧.bytes home.now) bytes.items) }
{
    write_own(alloc, id, home)
}

/// Writes a binding request with this transaction ID and a [`Marker`], parses it, and reads the
/// attribute from it. If the message is written, the attribute is there.
///
/// # Errors
///
/// `OutOfMemory` alone.
pub fn marker_there_and_back(alloc: Global, id: TransactionId) -> Result<Marker, StunWriteError> {
    // the laws by which no value is read back, and then what an add wrote of it
    empty_is_read_back::<MarkerKind>();
    typed_is_read_back::<Marker>();
    let bytes = write_own(alloc, id, &Marker::new())?;
    let message = Message::from_bytes(&bytes)?;
    let Ok(read) = message.attribute(alloc) else {
        unreachable!()
    };
    Ok(read)
}

/// The same of a [`Quiet`] with this flag: it is the one that was given.
///
/// # Errors
///
/// `OutOfMemory` alone.
pub fn quiet_there_and_back(
    alloc: Global,
    id: TransactionId,
    quiet: bool,
) -> Result<bool, StunWriteError>
    ensures { IfOk result (λ read. read ≡ quiet) }
{
    // the laws by which a number is read back, its fields, and then what an add wrote of them
    number_is_read_back();
    packed_attribute_is_read_back::<QuietKind, bool>();
    typed_is_read_back::<Quiet>();
    let bytes = write_quiet(alloc, id, &Quiet::new(quiet))?;
    let message = Message::from_bytes(&bytes)?;
    let Ok(read) = message.attribute::<Quiet>(alloc) else {
        unreachable!()
    };
    Ok(read.value())
}

/// The same of this [`Home`]: its address is the one that was given.
///
/// # Errors
///
/// `OutOfMemory` alone.
pub fn home_there_and_back(
    alloc: Global,
    id: TransactionId,
    home: &Home,
) -> Result<Home, StunWriteError>
    ensures { IfOk result (λ read. IsInRange (xored_of home.now) → IsInRange (xored_of read)
        → xored_of read ≡ xored_of home.now) }
{
    // the laws by which an address is read back, and then what an add wrote of it
    address_attribute_is_read_back::<HomeKind>();
    typed_is_read_back::<Home>();
    let bytes = write_home(alloc, id, home)?;
    let message = Message::from_bytes(&bytes)?;
    let read: Home = message.attribute(alloc)?;
    Ok(read)
}
