//! The header of a message, the length that it states, and the attributes after it.

ghost use Rattle.std.specs.Prelude.{◌≡◌, ◌+◌, ◌^◌, ◌<◌, ◌≤◌, length, IfOk, IfSome, MatchResult, MatchOption, None, Some};
ghost use Rattle.stun_grammar.specs.Headers.{Begins, length_field};
ghost use Rattle.stun_grammar.specs.Showing.{frame_fault, shown};
ghost use Rattle.stun_types.specs.Iterating.{items_left, borrowed};

use crate::message::{MessageHeader, StunParseError};
use crate::reading::MessageAttributesIter;
use stun_base::{check_header, number_at};
use stun_values::check_length;

/// The length of a message, as its header states it.
fn stated_length(bytes: &[u8]) -> usize
    requires { 20 ≤ length bytes.now }
    ensures stated { result ≡ 20 + length_field bytes.now }
    ensures bound { result ≤ 65555 }
{
    MessageHeader::LENGTH + number_at(bytes, 2) as usize
}

/// Checks that `bytes` begin with a header, and that as many bytes follow it as its length field
/// states. Nothing else of the header is read, and none of the bytes after it.
///
/// # Errors
///
/// As for [`check_message`](crate::reading::check_message), of the header and the length.
#[tactic(auto, using(stun_grammar::proofs::HeadersLemmas::frame_is))]
pub fn check_frame(bytes: &[u8]) -> Result<(), StunParseError>
    ensures { MatchResult result
        (λ _. frame_fault bytes.now ≡ None)
        (λ e. frame_fault bytes.now ≡ Some e) }
{
    check_header(bytes)?;
    check_length(bytes, stated_length(bytes))
}

/// The length of the message whose first bytes are `prefix`: its header and as many bytes as the
/// header states, 20 to 65555 in all, or `None` if `prefix` has fewer than twenty bytes that a
/// header may begin with. It takes no memory, and looks at the first twenty bytes alone.
///
/// A message is read from exactly that many bytes. If a buffer may hold more, as one that
/// collects the bytes of a stream (RFC 8489, section 6.2.2) or one that is longer than the datagram
/// in it, cut it to this length first: bytes of this length are never refused for their length.
///
/// # Errors
///
/// `NotStun` if no header begins with these bytes, whatever follows them.
///
/// # Examples
///
/// ```
/// use stun_types::message::message_length;
///
/// // a request without attributes, and the first two bytes of another message
/// let bytes = b"\x00\x01\x00\x00\x21\x12\xA4\x42abcdefghijkl\x00\x01";
/// assert_eq!(rt; message_length(bytes), Ok(Some(20)));
/// assert_eq!(rt; message_length(&bytes[20..]), Ok(None));
/// assert!(rt; message_length(b"GET / HTTP/1.1").is_err());
/// ```
pub fn message_length(prefix: &[u8]) -> Result<Option<usize>, StunParseError>
    ensures reported { MatchResult result
        (λ reported. Begins prefix.now × MatchOption reported (length prefix.now < 20)
        (λ whole. (20 ≤ length prefix.now) × (whole ≡ 20 + length_field prefix.now)))
        (λ e. (e ≡ StunParseError.NotStun) × ¬ Begins prefix.now) }
    ensures bound { IfOk result (λ reported. IfSome reported (λ whole. whole ≤ 65555)) }
{
    match check_header(prefix) {
        Ok(()) => Ok(Some(stated_length(prefix))),
        Err(refused) => match refused {
            StunParseError::NotStun => Err(refused),
            _ => Ok(None),
        },
    }
}

/// As [`MessageAttributesIter::new`], but without checking the header again: `bytes` begin with a
/// header, and as many bytes follow it as its length field states.
pub fn iter_framed<'a>(bytes: &'a [u8]) -> MessageAttributesIter<'a>
    requires { frame_fault bytes.now ≡ None }
    ensures items { items_left result ≡ borrowed (shown bytes.now) }
    ensures bound { length (items_left result) < 2 ^ 64 }
{
    MessageAttributesIter {
        bytes,
        offset: MessageHeader::LENGTH,
        last: 0,
    }
}
