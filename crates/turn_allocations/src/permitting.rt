//! CreatePermission requests (RFC 8656, sections 9 and 10.2).

ghost use Rattle.std.specs.Prelude.{◌≡◌, ℕ, None, false};
ghost use Rattle.std.specs.List.{list_any, list_all};
ghost use Rattle.std.specs.Option.{option_map};
ghost use Rattle.stun_endpoints.specs.declared.endpoints.FiveTuple.{FiveTuple};
ghost use Rattle.turn_slots.specs.Users.{user_number};
ghost use Rattle.turn_machine.specs.Relays.{Setup};
ghost use Rattle.turn_machine.specs.Events.{permit_request};
ghost use Rattle.turn_machine.specs.Rows.{has_of_another, have_families, lacks_permissions, permit_rows};
ghost use Rattle.turn_machine.specs.Steps.{permitting};
ghost use Rattle.turn_relays.specs.Relayed.{Table, state_of};
ghost use Rattle.turn_peers.specs.Policies.{is_peer};
ghost use Rattle.turn_allocations.specs.Answers.{code_of};
ghost use Rattle.turn_allocations.specs.Clients.{AreSound, Owns};
ghost use Rattle.turn_allocations.specs.Ending.{Numbers};
ghost use Rattle.turn_allocations.specs.Granting.{any_at, lacks_room, HaveRoom, changed_in};
ghost use Rattle.turn_allocations.specs.Serving.{Serves};
ghost use Rattle.turn_allocations.specs.Setups.{rules_of};

use crate::answer::{Answer, Refusal};
use crate::client::{Client, Place};
use crate::owning::owner_fault;
use stun_endpoints::{Endpoint, Ip};
use turn_peers::{PeerPolicy, is_tunnelled};
use turn_relays::{Relays, list_follows_slots, lists_have_slots};
use turn_slots::UserId;

/// The most peers of one request.
const PEERS_MAX: usize = 64;

/// Whether a client may exchange data with an IP address.
pub(crate) fn allows_ip<A: PeerPolicy>(policy: &A, ip: Ip) -> bool
    ensures { result ≡ is_peer (A.allows_address policy.now) ip }
{
    !is_tunnelled(ip) && policy.allows_address(ip)
}

/// Whether a client may exchange data with all of the peers.
fn are_allowed<A: PeerPolicy>(policy: &A, peers: &[Endpoint]) -> bool
    ensures { result ≡ list_all (λ peer. is_peer (A.allows_address policy.now) peer.ip) peers.now }
{
    peers.iter().all(|peer| allows_ip(policy, peer.ip))
}

/// Whether the client has a relayed address of each peer's family.
fn has_families(client: &Client, peers: &[Endpoint]) -> bool
    ensures { (t : Table) (tuple : FiveTuple) → Owns t tuple client.now
        → result ≡ have_families tuple peers.now (state_of t) }
{
    peers
        .iter()
        .all(|peer| client.of_family(peer.ip.family).is_some())
}

/// Whether the relayed address in a place, if there is one, has no room for permissions for peers.
fn lacks_permissions_in<const P: usize, const C: usize>(
    relays: &Relays<P, C>,
    place: Option<Place>,
    peers: &[Endpoint],
) -> bool
    ensures { result ≡ any_at (lacks_room P relays.now.clock peers.now) relays.now place }
{
    match place {
        Some(place) => relays.lacks_permissions(place.slot, peers),
        None => false,
    }
}

/// Whether one of the client's relayed addresses has no room for permissions for peers.
pub(crate) fn lacks_permissions<const P: usize, const C: usize>(
    relays: &Relays<P, C>,
    client: &Client,
    peers: &[Endpoint],
) -> bool
    ensures row { (setup : Setup) (tuple : FiveTuple) (user : ℕ) → setup.most_permissions ≡ P
        → Owns relays.now tuple client.now → has_of_another tuple user (state_of relays.now) ≡ false
        → result ≡ list_any (lacks_permissions setup relays.now.clock tuple user peers.now)
        (state_of relays.now).relays }
    ensures room { result ≡ false → HaveRoom P peers.now relays.now client.now }
{
    lacks_permissions_in(relays, client.ipv4, peers)
        | lacks_permissions_in(relays, client.ipv6, peers)
}

/// Why the client's user may not have permissions for peers, or `None` if it may.
fn permit_fault<const P: usize, const C: usize, A: PeerPolicy>(
    relays: &Relays<P, C>,
    client: &Client,
    peers: &[Endpoint],
    policy: &A,
) -> Option<Refusal>
    ensures rows { (setup : Setup) (tuple : FiveTuple) (user : ℕ) → setup.most_permissions ≡ P
        → Owns relays.now tuple client.now → has_of_another tuple user (state_of relays.now) ≡ false
        → option_map code_of result ≡ permit_rows setup
        (rules_of (A.allows_address policy.now) (A.allows_port policy.now))
        (state_of relays.now) tuple user peers.now }
    ensures room { result ≡ None → HaveRoom P peers.now relays.now client.now }
{
    if !has_families(client, peers) {
        return Some(Refusal::PeerAddressFamilyMismatch);
    }
    if !are_allowed(policy, peers) {
        return Some(Refusal::Forbidden);
    }
    if lacks_permissions(relays, client, peers) {
        return Some(Refusal::InsufficientCapacity);
    }
    None
}

/// Inserts permissions for peers in the relayed address in a place, if there is one.
fn permit_in<const P: usize, const C: usize>(
    relays: &mut Relays<P, C>,
    place: Option<Place>,
    peers: &[Endpoint],
)
    requires room { any_at (lacks_room P relays.old.clock peers.now) relays.old place ≡ false }
    ensures permits { relays.new ≡ changed_in place (permitting relays.old.clock peers.now) relays.old }
    ensures sound { AreSound relays.old → AreSound relays.new }
{
    lists_have_slots();
    let Some(place) = place else {
        return;
    };
    relays.permit(place.slot, peers);
}

/// Answers a CreatePermission request of a client with these relayed addresses.
pub(crate) fn permit<const P: usize, const C: usize, A: PeerPolicy>(
    relays: &mut Relays<P, C>,
    client: &Client,
    user: UserId,
    peers: &[Endpoint],
    policy: &A,
) -> Answer
    requires sound { AreSound relays.old }
    requires owns { (tuple : FiveTuple) × Owns relays.old tuple client.now }
    ensures serves { (setup : Setup) (tuple : FiveTuple) (ended : Numbers) → setup.most_permissions ≡ P
        → Owns relays.old tuple client.now
        → Serves setup (rules_of (A.allows_address policy.now) (A.allows_port policy.now)) tuple
        (user_number user) (permit_request peers.now) relays.old relays.new ended ended result }
    ensures sound { AreSound relays.new }
{
    list_follows_slots();
    lists_have_slots();
    if let Some(refusal) = owner_fault(client, user) {
        return Answer::Refused(refusal);
    }
    if peers.len() > PEERS_MAX {
        return Answer::Refused(Refusal::InsufficientCapacity);
    }
    if let Some(refusal) = permit_fault(relays, client, peers, policy) {
        return Answer::Refused(refusal);
    }
    permit_in(relays, client.ipv4, peers);
    permit_in(relays, client.ipv6, peers);
    Answer::Done
}
