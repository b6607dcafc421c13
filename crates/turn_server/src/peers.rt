//! The peers that a CreatePermission request names (RFC 8656, section 10.2).

ghost use Rattle.std.specs.Prelude.{◌≡◌, ◌<◌, true, length, MatchOption, MatchResult};
ghost use Rattle.stun_types.specs.Message.{message_bytes};
ghost use Rattle.turn_machine.specs.Events.{most_peers, permit_request, unfit};
ghost use Rattle.turn_allocations.specs.Answers.{code_of};
ghost use Rattle.turn_server.specs.Peers.{names_peers, peers_of};
ghost use Rattle.turn_server.specs.Requests.{permit_of};

use crate::addresses::read_peer;
use arrayvec::ArrayVec;
use stun_endpoints::Endpoint;
use stun_types::message::Message;
use stun_values::read_address;
use turn_allocations::Refusal;
use turn_attrs::attribute_types::XOR_PEER_ADDRESS;

/// The most peers that a CreatePermission request may name: one that names more is refused with 508.
pub const PEERS: usize = 64;

/// Whether a request names a peer, and none by a malformed value.
fn names_peers(request: &Message<'_>) -> bool
    ensures { result ≡ names_peers (message_bytes request.now) }
{
    let mut found = false;
    let mut attributes = request.iter_attributes();
    'walk: while let Some((_offset, attribute)) = attributes.next() {
        if attribute.header().get_type().value() == XOR_PEER_ADDRESS {
            if read_address(attribute.value().as_bytes()).is_err() {
                return false;
            }
            found = true;
        }
    }
    found
}

/// The peers that a request names, if it names none by a malformed value. `None` if there are more than
/// [`PEERS`].
fn collected(request: &Message<'_>) -> Option<ArrayVec<Endpoint, PEERS>>
    requires { names_peers (message_bytes request.now) ≡ true }
    ensures { let all = peers_of (message_bytes request.now) in
        MatchOption result (most_peers < length all) (λ peers. peers.items ≡ all) }
{
    let id = request.transaction_id();
    let mut peers = ArrayVec::new();
    let mut attributes = request.iter_attributes();
    'walk: while let Some((_offset, attribute)) = attributes.next() {
        if attribute.header().get_type().value() == XOR_PEER_ADDRESS {
            let Some(peer) = read_peer(attribute.value().as_bytes(), id) else {
                unreachable!();
            };
            if peers.try_push(peer).is_err() {
                return None;
            }
        }
    }
    Some(peers)
}

/// The peers that a CreatePermission request names, in order and as often as it names them.
///
/// # Errors
///
/// `BadRequest` if it names none, or one by a malformed value; `InsufficientCapacity` if it names more
/// than [`PEERS`].
#[tactic(auto, using(crate::proofs::AskingLemmas::many_refused))]
pub(crate) fn peers_of(request: &Message<'_>) -> Result<ArrayVec<Endpoint, PEERS>, Refusal>
    ensures { let d = message_bytes request.now in
        MatchResult result (λ peers. permit_of d ≡ permit_request peers.items)
        (λ refusal. permit_of d ≡ unfit (code_of refusal)) }
{
    if !names_peers(request) {
        return Err(Refusal::BadRequest);
    }
    collected(request).ok_or(Refusal::InsufficientCapacity)
}
