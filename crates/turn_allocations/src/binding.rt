//! ChannelBind requests (RFC 8656, section 12.2).

ghost use Rattle.std.specs.Prelude.{◌≡◌, ℕ, None, false, [], ◌∷◌};
ghost use Rattle.std.specs.List.{list_any};
ghost use Rattle.std.specs.Option.{option_map};
ghost use Rattle.stun_endpoints.specs.declared.endpoints.FiveTuple.{FiveTuple};
ghost use Rattle.turn_slots.specs.Users.{user_number};
ghost use Rattle.turn_machine.specs.Relays.{bound_for};
ghost use Rattle.turn_machine.specs.Events.{bind};
ghost use Rattle.turn_machine.specs.Rows.{has_of_another, is_channel_number, clashes, is_bound_otherwise, bind_rows};
ghost use Rattle.turn_machine.specs.Data.{allows};
ghost use Rattle.turn_machine.specs.Steps.{binding};
ghost use Rattle.turn_relays.specs.Relayed.{state_of};
ghost use Rattle.turn_allocations.specs.Answers.{code_of};
ghost use Rattle.turn_allocations.specs.Clients.{AreSound, Owns, place_of};
ghost use Rattle.turn_allocations.specs.Ending.{Numbers};
ghost use Rattle.turn_allocations.specs.Granting.{any_at, lacks_room, lacks_channel, changed_in};
ghost use Rattle.turn_allocations.specs.Serving.{Serves};
ghost use Rattle.turn_allocations.specs.Setups.{rules_of, setup_of};

use crate::answer::{Answer, Refusal};
use crate::client::{Client, Place};
use crate::limits::Limits;
use crate::owning::owner_fault;
use crate::permitting::{allows_ip, lacks_permissions};
use stun_endpoints::Endpoint;
use turn_peers::PeerPolicy;
use turn_relays::{Relays, list_follows_slots, lists_have_slots};
use turn_slots::UserId;

/// Whether a number is in the range of channel numbers.
fn is_channel_number(limits: &Limits, number: u16) -> bool
    ensures { (permissions channels : ℕ)
        → result ≡ is_channel_number (setup_of limits.now permissions channels) number }
{
    let last = if limits.old_channels { 0x7FFF } else { 0x4FFF };
    0x4000 <= number && number <= last
}

/// How many seconds the permission of a ChannelBind request lasts.
fn bound_for(limits: &Limits) -> u32
    ensures { (permissions channels : ℕ) → result ≡ bound_for (setup_of limits.now permissions channels) }
{
    if limits.channel_permits { 600 } else { 300 }
}

/// Whether a client may send to a peer.
fn allows<A: PeerPolicy>(policy: &A, peer: Endpoint) -> bool
    ensures { result
        ≡ allows (rules_of (A.allows_address policy.now) (A.allows_port policy.now)) peer }
{
    allows_ip(policy, peer.ip) && policy.allows_port(peer)
}

/// Whether, in the relayed address in a place, the number is bound to another peer, or the peer to another
/// number.
fn clashes_in<const P: usize, const C: usize>(
    relays: &Relays<P, C>,
    place: Option<Place>,
    number: u16,
    peer: Endpoint,
) -> bool
    ensures { result
        ≡ any_at (λ r. list_any (clashes relays.now.clock number peer) r.channels) relays.now place }
{
    match place {
        Some(place) => relays.clashes(place.slot, number, peer),
        None => false,
    }
}

/// Whether, in one of the client's relayed addresses, the number is bound to another peer, or the peer to
/// another number.
fn clashes<const P: usize, const C: usize>(
    relays: &Relays<P, C>,
    client: &Client,
    number: u16,
    peer: Endpoint,
) -> bool
    ensures { (tuple : FiveTuple) → Owns relays.now tuple client.now
        → result ≡ list_any (is_bound_otherwise relays.now.clock tuple number peer)
        (state_of relays.now).relays }
{
    clashes_in(relays, client.ipv4, number, peer) | clashes_in(relays, client.ipv6, number, peer)
}

/// Why the client's user may not bind a number to a peer, or `None` if it may.
fn bind_fault<const P: usize, const C: usize, A: PeerPolicy>(
    relays: &Relays<P, C>,
    limits: &Limits,
    client: &Client,
    number: u16,
    peer: Endpoint,
    policy: &A,
) -> Option<Refusal>
    ensures rows { (tuple : FiveTuple) (user : ℕ) → Owns relays.now tuple client.now
        → has_of_another tuple user (state_of relays.now) ≡ false
        → option_map code_of result ≡ bind_rows (setup_of limits.now P C)
        (rules_of (A.allows_address policy.now) (A.allows_port policy.now))
        (state_of relays.now) tuple user number peer }
    ensures room { result ≡ None → any_at (lacks_room P relays.now.clock (peer ∷ [])) relays.now
        (place_of peer.ip.family client.now) ≡ false }
    ensures channel_room { result ≡ None → any_at (lacks_channel C relays.now.clock number peer) relays.now
        (place_of peer.ip.family client.now) ≡ false }
{
    list_follows_slots();
    lists_have_slots();
    if !is_channel_number(limits, number) {
        return Some(Refusal::BadRequest);
    }
    if clashes(relays, client, number, peer) {
        return Some(Refusal::BadRequest);
    }
    let Some(place) = client.of_family(peer.ip.family) else {
        return Some(Refusal::PeerAddressFamilyMismatch);
    };
    if !allows(policy, peer) {
        return Some(Refusal::Forbidden);
    }
    let peers = [peer];
    if lacks_permissions(relays, client, &peers) | relays.lacks_channel(place.slot, number, peer) {
        return Some(Refusal::InsufficientCapacity);
    }
    None
}

/// Binds a number to a peer in the relayed address in a place, with a permission that lasts `lifetime`
/// seconds, if there is one.
fn bind_in<const P: usize, const C: usize>(
    relays: &mut Relays<P, C>,
    place: Option<Place>,
    number: u16,
    peer: Endpoint,
    lifetime: u32,
)
    requires room { any_at (lacks_room P relays.old.clock (peer ∷ [])) relays.old place ≡ false }
    requires channel_room { any_at (lacks_channel C relays.old.clock number peer) relays.old place ≡ false }
    ensures binds { relays.new
        ≡ changed_in place (binding lifetime relays.old.clock number peer) relays.old }
    ensures sound { AreSound relays.old → AreSound relays.new }
{
    lists_have_slots();
    let Some(place) = place else {
        return;
    };
    relays.bind(place.slot, number, peer, lifetime);
}

/// Answers a ChannelBind request of a client with these relayed addresses.
pub(crate) fn bind<const P: usize, const C: usize, A: PeerPolicy>(
    relays: &mut Relays<P, C>,
    limits: &Limits,
    client: &Client,
    user: UserId,
    number: u16,
    peer: Endpoint,
    policy: &A,
) -> Answer
    requires sound { AreSound relays.old }
    ensures serves { (tuple : FiveTuple) (ended : Numbers) → Owns relays.old tuple client.now
        → Serves (setup_of limits.now P C)
        (rules_of (A.allows_address policy.now) (A.allows_port policy.now)) tuple
        (user_number user) (bind number peer) relays.old relays.new ended ended result }
    ensures sound { AreSound relays.new }
{
    list_follows_slots();
    lists_have_slots();
    if let Some(refusal) = owner_fault(client, user) {
        return Answer::Refused(refusal);
    }
    if let Some(refusal) = bind_fault(relays, limits, client, number, peer, policy) {
        return Answer::Refused(refusal);
    }
    let place = client.of_family(peer.ip.family);
    bind_in(relays, place, number, peer, bound_for(limits));
    Answer::Done
}
