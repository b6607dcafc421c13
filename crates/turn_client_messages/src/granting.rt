//! Success responses (RFC 8656, sections 7.3, 8.3, 10.3 and 12.3).

ghost use Rattle.std.specs.Prelude.{◌≡◌};
ghost use Rattle.stun_types.specs.Message.{message_bytes};
ghost use Rattle.turn_client_messages.specs.Judging.{opened_by, extended_by, granted_by, success};

use crate::values::{lifetime_in, xored_in};
use stun_grammar::attribute_types::XOR_MAPPED_ADDRESS;
use stun_types::message::Message;
use turn_attrs::attribute_types::XOR_RELAYED_ADDRESS;
use turn_client_machine::{Answer, Kind};

/// The relayed address, the mapped address and the lifetime, if all three are there.
fn opened_by(message: &Message<'_>) -> Option<Answer>
    ensures { result ≡ opened_by (message_bytes message.now) }
{
    let relayed = xored_in(message, XOR_RELAYED_ADDRESS)?;
    let mapped = xored_in(message, XOR_MAPPED_ADDRESS)?;
    let lifetime = lifetime_in(message)?;
    Some(Answer::Opened {
        relayed,
        mapped,
        lifetime,
    })
}

/// The lifetime, if it is there.
fn extended_by(message: &Message<'_>) -> Option<Answer>
    ensures { result ≡ extended_by (message_bytes message.now) }
{
    let lifetime = lifetime_in(message)?;
    Some(Answer::Extended { lifetime })
}

/// What a success response to a request of this kind grants. `None` if an attribute is missing.
fn granted_by(kind: Kind, message: &Message<'_>) -> Option<Answer>
    ensures { result ≡ granted_by kind (message_bytes message.now) }
{
    match kind {
        Kind::Allocate => opened_by(message),
        Kind::Refresh | Kind::Delete => extended_by(message),
        Kind::Permit(_) | Kind::Bind { .. } => Some(Answer::Done),
    }
}

/// What a success response to a request of this kind answers.
pub(crate) fn success(kind: Kind, message: &Message<'_>) -> Answer
    ensures { result ≡ success kind (message_bytes message.now) }
{
    match granted_by(kind, message) {
        Some(answer) => answer,
        None => Answer::Refused(0),
    }
}
