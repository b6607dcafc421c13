//! The header that a message begins with.

ghost use Rattle.std.specs.Prelude.{◌≡◌, ◌^◌, ◌<◌, ◌≤◌, ◌++◌, [], length, drop};
ghost use Rattle.stun_grammar.specs.Writing.{message_encoding};

use crate::message::{MAGIC_COOKIE, MessageType, TransactionId};
use crate::writing::append::write_at;
use byteorder::{BigEndian, ByteOrder};

/// The header of a message without attributes: the type in two bytes, the length 0 in two, the
/// magic cookie in four and the transaction ID in twelve.
#[tactic(auto, unfolding(stun_grammar::specs::Writing::message_encoding))]
pub(crate) fn header_bytes(mtype: MessageType, transaction_id: TransactionId) -> [u8; 20]
    ensures encoding { result ≡ message_encoding mtype transaction_id [] }
    ensures type_fits { mtype < 2 ^ 14 }
    ensures id_fits { transaction_id < 2 ^ 96 }
{
    let mut header = [0; 20];
    mtype.write_into(&mut header);
    BigEndian::write_u32(&mut header[4..], MAGIC_COOKIE);
    header[8..].copy_from_slice(&transaction_id.to_bytes());
    header
}

/// Writes the header of a message without attributes at the start of `slice`: twenty bytes
/// (RFC 8489, section 5). What follows stays.
///
/// # Requires
///
/// `slice.len()` is at least 20.
///
/// # Examples
///
/// ```
/// use stun_types::message::write::write_message_header;
/// use stun_types::message::{BINDING, MessageClass, MessageType, TransactionId};
///
/// let mtype = MessageType::from_class_method(MessageClass::Request, BINDING);
/// let mut slice = [0xFF; 24];
/// write_message_header(mtype, TransactionId::from_bytes(b"abcdefghijkl"), &mut slice);
/// let header = b"\x00\x01\x00\x00\x21\x12\xA4\x42abcdefghijkl\xFF\xFF\xFF\xFF";
/// assert_eq!(rt; slice, *header);
/// ```
pub fn write_message_header(mtype: MessageType, transaction_id: TransactionId, slice: &mut [u8])
    requires { 20 ≤ length slice.old }
    ensures { slice.new ≡ message_encoding mtype transaction_id [] ++ drop 20 slice.old }
{
    write_at(slice, 0, &header_bytes(mtype, transaction_id));
}
