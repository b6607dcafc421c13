//! Data indications (RFC 8656, section 11.4).

ghost use Rattle.std.specs.Prelude.{◌≡◌};
ghost use Rattle.std.specs.Option.{option_map};
ghost use Rattle.stun_base.specs.MessageTypes.{method_of};
ghost use Rattle.stun_grammar.specs.Headers.{type_field};
ghost use Rattle.stun_types.specs.Message.{message_bytes};
ghost use Rattle.turn_client_messages.specs.Judging.{given_by, indicated};
ghost use Rattle.turn_client_messages.specs.Reporting.{judged_of};

use crate::Judged;
use crate::understood::is_understood;
use crate::values::xored_in;
use stun_authentication::attributes::value_of;
use stun_endpoints::Endpoint;
use stun_types::attribute::AttributeType;
use stun_types::message::Message;
use turn_attrs::attribute_types::{DATA, ICMP, XOR_PEER_ADDRESS};
use turn_attrs::methods;

/// The peer and its data. `None` if either is missing or malformed, an ICMP error is reported, or
/// something isn't understood.
fn given_by<'d>(message: &Message<'d>) -> Option<(Endpoint, &'d [u8])>
    ensures { option_map (λ given. (given.0, given.1.now)) result
        ≡ given_by (message_bytes message.now) }
{
    if !is_understood(message) || message.has_attribute(AttributeType(ICMP)) {
        return None;
    }
    let peer = xored_in(message, XOR_PEER_ADDRESS)?;
    Some((peer, value_of(message, AttributeType(DATA))?))
}

/// What an indication is.
pub(crate) fn judge_indication<'d>(message: &Message<'d>) -> Judged<'d>
    ensures { let d = message_bytes message.now in
        judged_of result ≡ indicated (method_of (type_field d)) d }
{
    if message.method() != methods::DATA {
        return Judged::Stray;
    }
    match given_by(message) {
        Some((peer, data)) => Judged::PeerData { peer, data },
        None => Judged::Stray,
    }
}
