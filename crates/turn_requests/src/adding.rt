//! Adding the attributes of a request, before it is signed.

ghost use Rattle.std.specs.Prelude.{◌≡◌, ◌∷◌, ◌++◌, [], map};
ghost use Rattle.std.specs.Option.{option_map, option_to_list};
ghost use Rattle.stun_attributes.specs.Texts.{text_bytes};
ghost use Rattle.stun_authentication.specs.Writing.{Lengthens};
ghost use Rattle.stun_endpoints.specs.Conversions.{socket_of};
ghost use Rattle.stun_grammar.specs.Attributes.{canonical};
ghost use Rattle.stun_grammar.specs.Numbers.{be32, be64};
ghost use Rattle.stun_attributes.specs.Kinds.{fields_held, xored_of};
ghost use Rattle.stun_values.specs.Addresses.{address_value};
ghost use Rattle.turn_attrs.specs.Channels.{channel_number};
ghost use Rattle.turn_attrs.specs.Turn.{CHANNEL_NUMBER, LIFETIME, REQUESTED_ADDRESS_FAMILY, REQUESTED_TRANSPORT, XOR_PEER_ADDRESS, family_number, protocol_number, seconds_of};
ghost use Rattle.turn_requests.specs.Requests.{software_attributes, lifetime_attribute, transport_attribute, family_attribute, family_beside, port_attributes, whole_attributes, relay_attributes, channel_attribute, named_peer, allocate_attributes, content, request_attributes};
ghost use Rattle.turn_requests.specs.declared.request.RelayedPort.TheVariants.{Even, Reserved};

use crate::request::{RelayedPort, TurnRequest};
use std::net::SocketAddr;
use stun_authentication::attributes::{add_bytes, add_one};
use stun_endpoints::Endpoint;
use stun_types::AddressFamily;
use stun_types::attribute::{AttributeStaticType, AttributeType, Software};
use stun_types::message::{StunWriteError, TransactionId};
use stun_types::prelude::*;
use turn_attrs::attribute_types::{DONT_FRAGMENT, EVEN_PORT, RESERVATION_TOKEN};
use turn_attrs::{
    Channel, ChannelNumber, Lifetime, RequestedAddressFamily, RequestedTransport, XorPeerAddress,
};

/// The number of UDP.
const UDP: u8 = 17;

/// Adds a SOFTWARE, if there is one.
fn add_software<B: MessageWrite>(
    software: Option<&Software>,
    write: &mut B,
) -> Result<(), StunWriteError>
    ensures { Lengthens result (B.state write.old) (B.state write.new)
        (software_attributes (option_map (λ it. text_bytes it.now) software.entry)) }
{
    match software {
        Some(software) => add_bytes(Software::TYPE, software.text().as_bytes(), write),
        None => Ok(()),
    }
}

/// Adds a LIFETIME.
fn push_lifetime<B: MessageWrite>(attribute: &Lifetime, write: &mut B) -> Result<(), StunWriteError>
    ensures { Lengthens result (B.state write.old) (B.state write.new)
        (lifetime_attribute (seconds_of attribute.now) ∷ []) }
{
    add_one(attribute, write)
}

/// Adds a REQUESTED-TRANSPORT.
fn push_transport<B: MessageWrite>(
    attribute: &RequestedTransport,
    write: &mut B,
) -> Result<(), StunWriteError>
    ensures { Lengthens result (B.state write.old) (B.state write.new)
        (canonical REQUESTED_TRANSPORT (be32 (protocol_number (fields_held attribute.now))) ∷ []) }
{
    add_one(attribute, write)
}

/// Adds a REQUESTED-ADDRESS-FAMILY.
fn push_family<B: MessageWrite>(
    attribute: &RequestedAddressFamily,
    write: &mut B,
) -> Result<(), StunWriteError>
    ensures { Lengthens result (B.state write.old) (B.state write.new)
        (family_attribute (fields_held attribute.now) ∷ []) }
{
    add_one(attribute, write)
}

/// Adds a CHANNEL-NUMBER.
fn push_channel<B: MessageWrite>(
    attribute: &ChannelNumber,
    write: &mut B,
) -> Result<(), StunWriteError>
    ensures { Lengthens result (B.state write.old) (B.state write.new)
        (channel_attribute (fields_held attribute.now) ∷ []) }
{
    add_one(attribute, write)
}

/// Adds an XOR-PEER-ADDRESS.
fn push_peer<B: MessageWrite>(
    attribute: &XorPeerAddress,
    write: &mut B,
) -> Result<(), StunWriteError>
    ensures { Lengthens result (B.state write.old) (B.state write.new)
        (canonical XOR_PEER_ADDRESS (address_value (xored_of attribute.now)) ∷ []) }
{
    add_one(attribute, write)
}

/// Adds a LIFETIME with these seconds, if there are any.
fn add_lifetime<B: MessageWrite>(lifetime: Option<u32>, write: &mut B) -> Result<(), StunWriteError>
    ensures { Lengthens result (B.state write.old) (B.state write.new)
        (map lifetime_attribute (option_to_list lifetime)) }
{
    match lifetime {
        Some(seconds) => push_lifetime(&Lifetime::new(seconds), write),
        None => Ok(()),
    }
}

/// Adds the REQUESTED-TRANSPORT of UDP.
fn add_transport<B: MessageWrite>(write: &mut B) -> Result<(), StunWriteError>
    ensures { Lengthens result (B.state write.old) (B.state write.new)
        (transport_attribute ∷ []) }
{
    push_transport(&RequestedTransport::new(UDP), write)
}

/// Adds a REQUESTED-ADDRESS-FAMILY, if a family is asked for.
fn add_family<B: MessageWrite>(
    family: Option<AddressFamily>,
    write: &mut B,
) -> Result<(), StunWriteError>
    ensures { Lengthens result (B.state write.old) (B.state write.new)
        (map family_attribute (option_to_list family)) }
{
    match family {
        Some(family) => push_family(&RequestedAddressFamily::new(family), write),
        None => Ok(()),
    }
}

/// Adds the CHANNEL-NUMBER of a channel.
fn add_channel<B: MessageWrite>(channel: Channel, write: &mut B) -> Result<(), StunWriteError>
    ensures { Lengthens result (B.state write.old) (B.state write.new)
        (channel_attribute channel ∷ []) }
{
    push_channel(&ChannelNumber::new(channel), write)
}

/// Adds the XOR-PEER-ADDRESS of a peer.
fn add_peer<B: MessageWrite>(
    peer: Endpoint,
    id: TransactionId,
    write: &mut B,
) -> Result<(), StunWriteError>
    ensures { Lengthens result (B.state write.old) (B.state write.new) (named_peer id peer ∷ []) }
{
    push_peer(&XorPeerAddress::new(SocketAddr::from(peer), id), write)
}

/// Adds an XOR-PEER-ADDRESS for each peer.
fn add_peers<B: MessageWrite>(
    peers: &[Endpoint],
    id: TransactionId,
    write: &mut B,
) -> Result<(), StunWriteError>
    ensures { Lengthens result (B.state write.old) (B.state write.new)
        (map (named_peer id) peers.now) }
{
    for i in 0..peers.len() {
        add_peer(peers[i], id, write)?;
    }
    Ok(())
}

/// The family that goes with a port.
fn family_beside(port: RelayedPort, family: Option<AddressFamily>) -> Option<AddressFamily>
    ensures { result ≡ family_beside port family }
{
    match port {
        RelayedPort::Any | RelayedPort::Even { .. } => family,
        RelayedPort::Reserved(_) => None,
    }
}

/// Adds an EVEN-PORT.
fn add_even<B: MessageWrite>(reserves: bool, write: &mut B) -> Result<(), StunWriteError>
    ensures { Lengthens result (B.state write.old) (B.state write.new)
        (port_attributes (Even reserves)) }
{
    let value = [if reserves { 128 } else { 0 }];
    add_bytes(AttributeType(EVEN_PORT), &value, write)
}

/// Adds a RESERVATION-TOKEN.
fn add_token<B: MessageWrite>(token: u64, write: &mut B) -> Result<(), StunWriteError>
    ensures { Lengthens result (B.state write.old) (B.state write.new)
        (port_attributes (Reserved token)) }
{
    add_bytes(
        AttributeType(RESERVATION_TOKEN),
        &token.to_be_bytes(),
        write,
    )
}

/// Adds EVEN-PORT or RESERVATION-TOKEN, if the port is not to be any.
fn add_port<B: MessageWrite>(port: RelayedPort, write: &mut B) -> Result<(), StunWriteError>
    ensures { Lengthens result (B.state write.old) (B.state write.new) (port_attributes port) }
{
    match port {
        RelayedPort::Any => Ok(()),
        RelayedPort::Even { reserves } => add_even(reserves, write),
        RelayedPort::Reserved(token) => add_token(token, write),
    }
}

/// Adds a DONT-FRAGMENT, if it is asked for.
fn add_whole<B: MessageWrite>(dont_fragment: bool, write: &mut B) -> Result<(), StunWriteError>
    ensures { Lengthens result (B.state write.old) (B.state write.new)
        (whole_attributes dont_fragment) }
{
    if dont_fragment {
        return add_bytes(AttributeType(DONT_FRAGMENT), &[], write);
    }
    Ok(())
}

/// Adds what is asked of the port, and a DONT-FRAGMENT, if it is asked for.
fn add_wishes<B: MessageWrite>(
    port: RelayedPort,
    dont_fragment: bool,
    write: &mut B,
) -> Result<(), StunWriteError>
    ensures { Lengthens result (B.state write.old) (B.state write.new)
        (port_attributes port ++ whole_attributes dont_fragment) }
{
    add_port(port, write)?;
    add_whole(dont_fragment, write)
}

/// Adds what is asked of the relayed address.
fn add_relay<B: MessageWrite>(
    family: Option<AddressFamily>,
    port: RelayedPort,
    dont_fragment: bool,
    write: &mut B,
) -> Result<(), StunWriteError>
    ensures { Lengthens result (B.state write.old) (B.state write.new)
        (relay_attributes family port dont_fragment) }
{
    add_family(family_beside(port, family), write)?;
    add_wishes(port, dont_fragment, write)
}

/// Adds REQUESTED-TRANSPORT, and what is asked of the relayed address.
fn add_transported<B: MessageWrite>(
    family: Option<AddressFamily>,
    port: RelayedPort,
    dont_fragment: bool,
    write: &mut B,
) -> Result<(), StunWriteError>
    ensures { Lengthens result (B.state write.old) (B.state write.new)
        (transport_attribute ∷ relay_attributes family port dont_fragment) }
{
    add_transport(write)?;
    add_relay(family, port, dont_fragment, write)
}

/// Adds what an Allocate request asks for.
fn add_allocation<B: MessageWrite>(
    lifetime: Option<u32>,
    family: Option<AddressFamily>,
    port: RelayedPort,
    dont_fragment: bool,
    write: &mut B,
) -> Result<(), StunWriteError>
    ensures { Lengthens result (B.state write.old) (B.state write.new)
        (allocate_attributes lifetime family port dont_fragment) }
{
    add_lifetime(lifetime, write)?;
    add_transported(family, port, dont_fragment, write)
}

/// Adds what a ChannelBind request asks for.
fn add_binding<B: MessageWrite>(
    channel: Channel,
    peer: Endpoint,
    id: TransactionId,
    write: &mut B,
) -> Result<(), StunWriteError>
    ensures { Lengthens result (B.state write.old) (B.state write.new)
        (channel_attribute channel ∷ named_peer id peer ∷ []) }
{
    add_channel(channel, write)?;
    add_peer(peer, id, write)
}

/// Adds what a request asks for.
fn add_content<B: MessageWrite>(
    request: &TurnRequest<'_>,
    id: TransactionId,
    write: &mut B,
) -> Result<(), StunWriteError>
    ensures { Lengthens result (B.state write.old) (B.state write.new)
        (content id request.now) }
{
    match request {
        TurnRequest::Allocate {
            lifetime,
            family,
            port,
            dont_fragment,
        } => add_allocation(*lifetime, *family, *port, *dont_fragment, write),
        TurnRequest::Refresh { lifetime } => add_lifetime(*lifetime, write),
        TurnRequest::CreatePermission { peers } => add_peers(peers, id, write),
        TurnRequest::ChannelBind { channel, peer } => add_binding(*channel, *peer, id, write),
    }
}

/// Adds the attributes of a request, before it is signed.
pub(crate) fn add_request<B: MessageWrite>(
    request: &TurnRequest<'_>,
    id: TransactionId,
    software: Option<&Software>,
    write: &mut B,
) -> Result<(), StunWriteError>
    ensures { Lengthens result (B.state write.old) (B.state write.new)
        (request_attributes (option_map (λ it. text_bytes it.now) software.entry) id request.now) }
{
    add_software(software, write)?;
    add_content(request, id, write)
}
