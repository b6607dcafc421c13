//! The values of the attributes that a request shows, each by the first one of its type.

ghost use Rattle.std.specs.Prelude.{◌≡◌, ◌≤◌, length, true, false, MatchResult};
ghost use Rattle.std.specs.Option.{option_map, option_map_or};
ghost use Rattle.stun_types.specs.Message.{message_bytes};
ghost use Rattle.stun_authentication.specs.Identities.{value_of};
ghost use Rattle.turn_allocations.specs.declared.answer.Refusal.TheVariants.{BadRequest};
ghost use Rattle.turn_server.specs.Values.{malformed, number_in, byte_in};

use byteorder::{BigEndian, ByteOrder};
use stun_authentication::attributes::value_of;
use stun_types::attribute::AttributeType;
use stun_types::message::Message;
use turn_allocations::Refusal;

/// The value of a type whose values have `width` bytes, if the message shows one.
///
/// # Errors
///
/// `BadRequest` if it has another length.
pub(crate) fn fixed_value<'d>(
    message: &Message<'d>,
    atype: u16,
    width: usize,
) -> Result<Option<&'d [u8]>, Refusal>
    ensures { let d = message_bytes message.now in
        MatchResult result
        (λ found. (malformed width atype d ≡ false)
        × ((value_of d atype ≡ option_map (λ value. value.now) found)
        × (option_map_or (λ value. length value.now) found width ≡ width)))
        (λ refusal. (malformed width atype d ≡ true) × (refusal ≡ BadRequest)) }
{
    match value_of(message, AttributeType(atype)) {
        None => Ok(None),
        Some(value) if value.len() == width => Ok(Some(value)),
        Some(_) => Err(Refusal::BadRequest),
    }
}

/// The value of a type as a number of four bytes, if the message shows one.
///
/// # Errors
///
/// `BadRequest` if it has another length.
pub(crate) fn number_in(message: &Message<'_>, atype: u16) -> Result<Option<u32>, Refusal>
    ensures { let d = message_bytes message.now in
        MatchResult result
        (λ found. (malformed 4 atype d ≡ false) × (found ≡ number_in atype d))
        (λ refusal. (malformed 4 atype d ≡ true) × (refusal ≡ BadRequest)) }
{
    match fixed_value(message, atype, 4)? {
        Some(value) => Ok(Some(BigEndian::read_u32(value))),
        None => Ok(None),
    }
}

/// The value of a type as a number of eight bytes, if the message shows one.
///
/// # Errors
///
/// `BadRequest` if it has another length.
pub(crate) fn long_in(message: &Message<'_>, atype: u16) -> Result<Option<u64>, Refusal>
    ensures { let d = message_bytes message.now in
        MatchResult result
        (λ found. (malformed 8 atype d ≡ false) × (found ≡ number_in atype d))
        (λ refusal. (malformed 8 atype d ≡ true) × (refusal ≡ BadRequest)) }
{
    match fixed_value(message, atype, 8)? {
        Some(value) => Ok(Some(BigEndian::read_u64(value))),
        None => Ok(None),
    }
}

/// The first byte of the value of a type whose values have `width` bytes, if the message shows one.
///
/// # Errors
///
/// `BadRequest` if it has another length.
pub(crate) fn byte_in(
    message: &Message<'_>,
    atype: u16,
    width: usize,
) -> Result<Option<u8>, Refusal>
    requires { 1 ≤ width }
    ensures { let d = message_bytes message.now in
        MatchResult result
        (λ found. (malformed width atype d ≡ false) × (found ≡ byte_in atype d))
        (λ refusal. (malformed width atype d ≡ true) × (refusal ≡ BadRequest)) }
{
    match fixed_value(message, atype, width)? {
        Some(value) => Ok(Some(value[0])),
        None => Ok(None),
    }
}
