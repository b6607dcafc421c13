//! Send indications (RFC 8656, section 11.2).

ghost use Rattle.std.specs.Prelude.{◌≡◌, None, Some, MatchOption, List, ℕ};
ghost use Rattle.stun_grammar.specs.Numbers.{IsBytes};
ghost use Rattle.stun_types.specs.Message.{message_bytes};
ghost use Rattle.stun_authentication.specs.Identities.{value_of};
ghost use Rattle.turn_attrs.specs.Turn.{DATA};
ghost use Rattle.turn_server.specs.Indications.{sent_by, keeps_whole};
ghost use Rattle.turn_server.specs.Spans.{StandsAt};

use crate::Span;
use crate::addresses::peer_of;
use crate::comprehended::is_comprehended;
use stun_endpoints::Endpoint;
use stun_types::attribute::AttributeType;
use stun_types::message::Message;
use turn_attrs::attribute_types::{DATA, DONT_FRAGMENT};

/// Each number in a slice is below 256. The function does nothing: its contract is the law.
fn are_bytes(bytes: &[u8])
    ensures { IsBytes bytes.now }
{}

/// The value of the first DATA that a message shows.
fn data_of(message: &Message<'_>) -> Option<Span>
    ensures { let d = message_bytes message.now in
        MatchOption result (value_of d DATA ≡ None)
        (λ span. (bytes : List ℕ) × ((value_of d DATA ≡ Some bytes) × StandsAt span bytes d)) }
{
    are_bytes(message.as_bytes());
    let (offset, attribute) = message.raw_attribute_and_offset(AttributeType(DATA))?;
    Some(Span {
        at: offset + 4,
        length: attribute.header().length() as usize,
    })
}

/// Whether the data of a Send indication goes with the DF bit: the server sets it, and the indication shows
/// DONT-FRAGMENT. Its value, which should have no bytes, is ignored.
pub(crate) fn keeps_whole(message: &Message<'_>, sets_df: bool) -> bool
    ensures { result ≡ keeps_whole sets_df (message_bytes message.now) }
{
    sets_df && message.has_attribute(AttributeType(DONT_FRAGMENT))
}

/// The peer of a Send indication, and the data that is to be sent to it. `None` if either is
/// missing, the peer's address is malformed, or something isn't comprehended.
pub(crate) fn read_send(message: &Message<'_>, sets_df: bool) -> Option<(Endpoint, Span)>
    ensures { let d = message_bytes message.now in
        MatchOption result (sent_by sets_df d ≡ None)
        (λ sent. (bytes : List ℕ)
        × ((sent_by sets_df d ≡ Some (sent.0, bytes)) × StandsAt sent.1 bytes d)) }
{
    if !is_comprehended(message, sets_df) {
        return None;
    }
    let peer = peer_of(message)?;
    Some((peer, data_of(message)?))
}
