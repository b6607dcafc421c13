//! The addresses of peers in attributes.

ghost use Rattle.std.specs.Prelude.{◌≡◌};
ghost use Rattle.stun_types.specs.Message.{message_bytes};
ghost use Rattle.turn_server.specs.Addresses.{peer_read, peer_of};

use stun_authentication::attributes::value_of;
use stun_endpoints::Endpoint;
use stun_types::attribute::AttributeStaticType;
use stun_types::message::{Message, TransactionId};
use stun_values::{read_address, xor_addr};
use turn_attrs::XorPeerAddress;

/// The peer in the value of an XOR-PEER-ADDRESS, in a message with this transaction ID (RFC 8656,
/// section 18.3). `None` if the value is malformed.
pub(crate) fn read_peer(value: &[u8], id: TransactionId) -> Option<Endpoint>
    ensures { result ≡ peer_read id value.now }
{
    let written = read_address(value).ok()?;
    Some(Endpoint::from(xor_addr(written, id)))
}

/// The peer that a message names first. `None` if it names none, or the value is malformed.
pub(crate) fn peer_of(message: &Message<'_>) -> Option<Endpoint>
    ensures { result ≡ peer_of (message_bytes message.now) }
{
    let value = value_of(message, XorPeerAddress::TYPE)?;
    read_peer(value, message.transaction_id())
}
