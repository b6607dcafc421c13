//! Where data and ICMP go (RFC 8656, sections 9, 11.2, 11.3, 11.5, 12.6 and 12.7).

ghost use Rattle.std.specs.Prelude.{◌≡◌, ℕ, List, Option, false, not, ◌&&◌, ◌||◌, find, filter, option_and_then};
ghost use Rattle.std.specs.Option.{option_map, option_map_or};
ghost use Rattle.stun_endpoints.specs.declared.endpoints.FiveTuple.{FiveTuple};
ghost use Rattle.turn_machine.specs.Relays.{Relay, Setup, is_at, is_live, is_of, is_permitted};
ghost use Rattle.turn_machine.specs.Events.{Icmp, sends, sends_on, arrives, bounces};
ghost use Rattle.turn_machine.specs.Data.{allows, has_channel, is_passed, relayed};
ghost use Rattle.turn_machine.specs.Flows.{flow_on, flow_of};
ghost use Rattle.turn_relays.specs.Relayed.{Table, state_of, at_slot};
ghost use Rattle.turn_peers.specs.Policies.{is_peer};
ghost use Rattle.turn_allocations.specs.Clients.{AreSound, Owns};
ghost use Rattle.turn_allocations.specs.Outputs.{sending, receiving, bouncing, IsPlaced, AreNewestFirst, live_family, peer_by};
ghost use Rattle.turn_allocations.specs.Setups.{rules_of, setup_of};

use crate::client::{Client, Place, client_of};
use crate::limits::Limits;
use crate::permitting::allows_ip;
use stun_endpoints::{Endpoint, FiveTuple, Ip};
use turn_peers::PeerPolicy;
use turn_relays::{Flow, Relays, list_follows_slots, users_are_numbers};

/// The destination of a client's data: from a socket to a peer.
#[derive(Clone, Copy, Debug, PartialEq, Eq)]
pub struct ToPeer {
    /// The number of the socket that sends it.
    pub number: u64,
    /// The peer that it is sent to.
    pub peer: Endpoint,
    /// Whether to set the DF bit (RFC 8656, section 14): always `false` for ChannelData.
    pub dont_fragment: bool,
}

/// The destination of a peer's data: to a client, as ChannelData or in a Data indication.
#[derive(Clone, Copy, Debug, PartialEq, Eq)]
pub struct ToClient {
    /// The 5-tuple on which it is sent to the client.
    pub tuple: FiveTuple,
    /// The number of the channel that is bound to the peer's IP address and port, or `None` for a Data
    /// indication.
    pub channel: Option<u16>,
}

/// Whether a client may send to a peer.
fn allows<A: PeerPolicy>(policy: &A, peer: Endpoint) -> bool
    ensures { result
        ≡ allows (rules_of (A.allows_address policy.now) (A.allows_port policy.now)) peer }
{
    allows_ip(policy, peer.ip) && policy.allows_port(peer)
}

/// Whether data with DONT-FRAGMENT, or without, can go from the relayed address in a slot to a peer.
fn may_send<const P: usize, const C: usize, A: PeerPolicy>(
    relays: &Relays<P, C>,
    limits: &Limits,
    slot: usize,
    peer: Endpoint,
    dont_fragment: bool,
    policy: &A,
) -> bool
    ensures { result ≡ option_map_or (is_permitted relays.now.clock peer.ip) (at_slot relays.now slot) false
        && (allows (rules_of (A.allows_address policy.now) (A.allows_port policy.now)) peer
        && (not dont_fragment || limits.now.dont_fragment)) }
{
    relays.is_permitted(slot, peer.ip)
        && (allows(policy, peer) && (!dont_fragment || limits.dont_fragment))
}

/// The peer that the data of a Send indication goes to.
pub(crate) fn send<const P: usize, const C: usize, A: PeerPolicy>(
    relays: &Relays<P, C>,
    limits: &Limits,
    tuple: &FiveTuple,
    peer: Endpoint,
    dont_fragment: bool,
    policy: &A,
) -> Option<ToPeer>
    requires { AreSound relays.now }
    ensures { (bytes : List ℕ)
        → relayed (setup_of limits.now P C)
        (rules_of (A.allows_address policy.now) (A.allows_port policy.now))
        (state_of relays.now) (sends tuple.now peer dont_fragment bytes) ≡ sending result bytes }
{
    let client = client_of(relays, tuple);
    let place = client.of_family(peer.ip.family)?;
    if !may_send(relays, limits, place.slot, peer, dont_fragment, policy) {
        return None;
    }
    Some(ToPeer {
        number: place.relayed.number,
        peer,
        dont_fragment,
    })
}

/// The places of a client, the newest first.
fn newest_first(client: &Client) -> (&Option<Place>, &Option<Place>)
    ensures { (t : Table) (tuple : FiveTuple) → Owns t tuple client.now
        → AreNewestFirst t tuple result.0.now result.1.now }
{
    match (&client.ipv4, &client.ipv6) {
        (Some(one), Some(other)) if one.relayed.number < other.relayed.number => {
            (&client.ipv6, &client.ipv4)
        }
        _ => (&client.ipv4, &client.ipv6),
    }
}

/// The number of the relayed address in a place, and the peer that a channel of it is bound to.
fn peer_in<const P: usize, const C: usize>(
    relays: &Relays<P, C>,
    place: &Option<Place>,
    channel: u16,
) -> Option<(u64, Endpoint)>
    ensures { (o : Option Relay) → IsPlaced relays.now place.now o
        → result ≡ option_and_then (peer_by relays.now.clock channel) o }
{
    let Some(place) = place else {
        return None;
    };
    let peer = relays.peer_on(place.slot, channel)?;
    Some((place.relayed.number, peer))
}

/// The number of the newest relayed address of a client with a channel, and the peer that it is bound to.
fn peer_on<const P: usize, const C: usize>(
    relays: &Relays<P, C>,
    client: &Client,
    channel: u16,
) -> Option<(u64, Endpoint)>
    ensures { (tuple : FiveTuple) → Owns relays.now tuple client.now
        → result ≡ option_and_then (peer_by relays.now.clock channel)
        (find (has_channel relays.now.clock tuple channel) (state_of relays.now).relays) }
{
    let (first, second) = newest_first(client);
    match peer_in(relays, first, channel) {
        Some(found) => Some(found),
        None => peer_in(relays, second, channel),
    }
}

/// The flow on a channel of the relayed address in a place.
fn flow_in<const P: usize, const C: usize>(
    relays: &Relays<P, C>,
    place: &Option<Place>,
    channel: u16,
) -> Option<Flow>
    ensures { (o : Option Relay) → IsPlaced relays.now place.now o
        → result ≡ option_and_then (flow_on relays.now.clock channel) o }
{
    match place {
        Some(place) => relays.flow_on(place.slot, channel),
        None => None,
    }
}

/// The flow on a channel of the newest relayed address of a client with the channel.
pub(crate) fn flow_of<const P: usize, const C: usize>(
    relays: &Relays<P, C>,
    client: &Client,
    channel: u16,
) -> Option<Flow>
    ensures { (tuple : FiveTuple) → Owns relays.now tuple client.now
        → result ≡ flow_of (state_of relays.now) tuple channel }
{
    let (first, second) = newest_first(client);
    match peer_in(relays, first, channel) {
        Some(_) => flow_in(relays, first, channel),
        None => flow_in(relays, second, channel),
    }
}

/// The family of the relayed address in a place, unless it has expired.
fn live_family(place: &Option<Place>, now: u128) -> Option<u8>
    ensures { (t : Table) (o : Option Relay) → IsPlaced t place.now o
        → result ≡ option_and_then (live_family now) o }
{
    match place {
        Some(place) if now < place.relayed.expires_at => Some(place.relayed.key.family),
        _ => None,
    }
}

/// The family of the newest of a client's relayed addresses that have not expired.
pub(crate) fn newest_family(client: &Client, now: u128) -> Option<u8>
    ensures { (t : Table) (tuple : FiveTuple) → Owns t tuple client.now
        → result ≡ option_map (λ a. a.family)
        (find (is_of tuple) (filter (is_live now) (state_of t).relays)) }
{
    let (first, second) = newest_first(client);
    match live_family(first, now) {
        Some(family) => Some(family),
        None => live_family(second, now),
    }
}

/// The peer that the data of a ChannelData message goes to.
pub(crate) fn send_on<const P: usize, const C: usize, A: PeerPolicy>(
    relays: &Relays<P, C>,
    tuple: &FiveTuple,
    channel: u16,
    policy: &A,
) -> Option<ToPeer>
    requires { AreSound relays.now }
    ensures { (setup : Setup) (bytes : List ℕ)
        → relayed setup (rules_of (A.allows_address policy.now) (A.allows_port policy.now))
        (state_of relays.now) (sends_on tuple.now channel bytes) ≡ sending result bytes }
{
    let client = client_of(relays, tuple);
    let (number, peer) = peer_on(relays, &client, channel)?;
    if !allows(policy, peer) {
        return None;
    }
    Some(ToPeer {
        number,
        peer,
        dont_fragment: false,
    })
}

/// The relayed address with a number, and its slot.
fn at_number<const P: usize, const C: usize>(relays: &Relays<P, C>, number: u64) -> Option<Place>
    ensures { IsPlaced relays.now result (find (is_at number) (state_of relays.now).relays) }
{
    list_follows_slots();
    let slot = relays.find_by_number(number)?;
    let relayed = relays.get(slot)?;
    users_are_numbers(relayed.user);
    Some(Place { slot, relayed })
}

/// Whether data can come from an IP address to the relayed address in a slot.
fn may_receive<const P: usize, const C: usize, A: PeerPolicy>(
    relays: &Relays<P, C>,
    slot: usize,
    ip: Ip,
    policy: &A,
) -> bool
    ensures { result ≡ option_map_or (is_permitted relays.now.clock ip) (at_slot relays.now slot) false
        && is_peer (A.allows_address policy.now) ip }
{
    relays.is_permitted(slot, ip) && allows_ip(policy, ip)
}

/// The client that a peer's datagram goes to, by the number of the socket that it came to.
pub(crate) fn receive<const P: usize, const C: usize, A: PeerPolicy>(
    relays: &Relays<P, C>,
    number: u64,
    peer: Endpoint,
    policy: &A,
) -> Option<ToClient>
    ensures { (setup : Setup) (bytes : List ℕ)
        → relayed setup (rules_of (A.allows_address policy.now) (A.allows_port policy.now))
        (state_of relays.now) (arrives number peer bytes) ≡ receiving result peer bytes }
{
    let place = at_number(relays, number)?;
    if !may_receive(relays, place.slot, peer.ip, policy) {
        return None;
    }
    Some(ToClient {
        tuple: place.relayed.key.tuple,
        channel: relays.channel_to(place.slot, peer),
    })
}

/// Whether ICMP packets of a type, about a datagram to a peer of a family, are relayed (RFC 8656, section
/// 11.5).
fn is_passed(family: u8, icmp_type: u8) -> bool
    ensures { (icmp : Icmp) → icmp.type_number ≡ icmp_type → result ≡ is_passed family icmp }
{
    match family {
        1 => icmp_type == 3 || icmp_type == 11,
        _ => icmp_type == 1 || icmp_type == 2 || icmp_type == 3,
    }
}

/// Whether an ICMP packet of a type, about a datagram from the relayed address in a slot to a peer, is
/// relayed to the client.
fn may_bounce<const P: usize, const C: usize, A: PeerPolicy>(
    relays: &Relays<P, C>,
    limits: &Limits,
    slot: usize,
    peer: Endpoint,
    icmp_type: u8,
    policy: &A,
) -> bool
    ensures { (icmp : Icmp) → icmp.type_number ≡ icmp_type
        → result ≡ option_map_or (is_permitted relays.now.clock peer.ip) (at_slot relays.now slot) false
        && (is_peer (A.allows_address policy.now) peer.ip
        && (limits.now.icmp && is_passed peer.ip.family icmp)) }
{
    limits.icmp
        && is_passed(peer.ip.family, icmp_type)
        && may_receive(relays, slot, peer.ip, policy)
}

/// The client that an ICMP packet goes to, about a datagram to a peer from the socket with this number.
pub(crate) fn bounce<const P: usize, const C: usize, A: PeerPolicy>(
    relays: &Relays<P, C>,
    limits: &Limits,
    number: u64,
    peer: Endpoint,
    icmp_type: u8,
    policy: &A,
) -> Option<FiveTuple>
    ensures { (icmp : Icmp) → icmp.type_number ≡ icmp_type
        → relayed (setup_of limits.now P C)
        (rules_of (A.allows_address policy.now) (A.allows_port policy.now))
        (state_of relays.now) (bounces number peer icmp) ≡ bouncing result peer icmp }
{
    let place = at_number(relays, number)?;
    if !may_bounce(relays, limits, place.slot, peer, icmp_type, policy) {
        return None;
    }
    Some(place.relayed.key.tuple)
}
