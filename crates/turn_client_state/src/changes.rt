//! What changes of a peer.

ghost use Rattle.std.specs.Prelude.{◌≡◌, List, [], map};
ghost use Rattle.stun_endpoints.specs.declared.endpoints.Endpoint.{Endpoint};
ghost use Rattle.turn_client_machine.specs.declared.peers.Peer.{Peer};
ghost use Rattle.turn_client_machine.specs.Responses as responses;
ghost use Rattle.turn_client_machine.specs.Steps as steps;
ghost use Rattle.turn_client_state.specs.Lookups.{test_of, changed_by};
ghost use Rattle.turn_client_state.specs.States.{setup_of, asked_with};

use crate::lookups::{Sought, passes};
use crate::settings::Settings;
use crate::tasks::{
    again_task, begun_task, end_of, is_expired, kept_task, may_retry, turn_request, turned,
};
use stun_endpoints::Endpoint;
use turn_client_machine::{Kind, Peer, Request, Task};

/// What changes of a peer.
#[derive(Clone, Copy)]
pub(crate) enum Change {
    /// Its permission is asked for from the start, at this moment.
    Restart(u64),
    /// Another peer takes its place at this moment, and wants a channel or a permission.
    Replace(u64, bool, Endpoint),
    /// The user drops it at this moment.
    Drop(u64),
    /// A channel is wanted, from this moment on.
    Want(u64),
    /// Its request is granted.
    Grant,
    /// Its request is refused at this moment, with this error code.
    TurnDown(u64, u16),
    /// Its request is challenged, after this challenge, at this moment, with this error code.
    Challenge(Settings, Option<u64>, u64, u16),
    /// The response to its request has a wrong integrity.
    Violate(Settings),
    /// It is polled at this moment, with a random number and the newest challenge. Whether its request
    /// names other peers too comes first.
    Turn(bool, Settings, u64, u128, Option<u64>),
}

fn restarted(clock: u64, peer: Peer) -> Peer
    ensures { result ≡ responses.restarted clock peer }
{
    Peer {
        over: false,
        shared: false,
        violated: false,
        expires_at: 0,
        channel_expires_at: 0,
        rests_until: None,
        task: begun_task(clock),
        ..peer
    }
}

/// A peer once there is an allocation.
fn reopened(clock: u64, peer: Peer) -> Peer
    ensures { result ≡ responses.reopened clock peer }
{
    Peer {
        over: peer.over && peer.rests_until.is_some(),
        rests_until: peer.rests_until,
        ..restarted(clock, peer)
    }
}

/// A peer, changed if it is sought.
fn changed_if(sought: &Sought, by: &Change, peer: Peer) -> Peer
    ensures { result ≡ responses.changed_if (test_of sought.now) (changed_by by.now) peer }
{
    if passes(sought, &peer) {
        make_change(by, peer)
    } else {
        peer
    }
}

/// All peers that are sought, changed.
pub(crate) fn change_each(sought: &Sought, by: &Change, peers: &mut [Peer])
    ensures { peers.new
        ≡ responses.changed_each (test_of sought.now) (changed_by by.now) peers.old }
{
    for i in 0..peers.len() {
        peers[i] = changed_if(sought, by, peers[i]);
    }
}

/// All peers once there is an allocation.
pub(crate) fn reopen_each(clock: u64, peers: &mut [Peer])
    ensures { peers.new ≡ map {B = Peer} (responses.reopened clock) peers.old }
{
    for i in 0..peers.len() {
        peers[i] = reopened(clock, peers[i]);
    }
}

/// A peer that is named, with this channel number.
pub(crate) fn new_peer(clock: u64, number: u16, wants: bool, address: Endpoint) -> Peer
    ensures { result ≡ record (steps.new_peer clock wants address []) { number = number } }
{
    Peer {
        address,
        number,
        wants,
        wanted: wants,
        over: false,
        code: 0,
        violated: false,
        shared: false,
        expires_at: 0,
        channel_expires_at: 0,
        task: begun_task(clock),
        rests_until: None,
    }
}

/// A peer that the user has dropped.
fn dropped(clock: u64, peer: Peer) -> Peer
    ensures { result ≡ steps.dropped clock peer }
{
    let clock = clock as u128;
    let rest = if peer.wanted { 900_000_000_000 } else { 0 };
    Peer {
        over: true,
        code: 0,
        violated: false,
        expires_at: 0,
        channel_expires_at: 0,
        task: Task {
            pending: None,
            ..peer.task
        },
        rests_until: Some(clock + rest),
        ..peer
    }
}

/// A peer for which a channel is wanted. The permission lasts meanwhile.
fn wanting(clock: u64, peer: Peer) -> Peer
    ensures { result ≡ steps.wanting clock peer }
{
    if peer.over {
        return Peer {
            wants: true,
            wanted: true,
            ..restarted(clock, peer)
        };
    }
    if peer.wants {
        return peer;
    }
    let clock = clock as u128;
    Peer {
        wants: true,
        wanted: true,
        violated: false,
        shared: false,
        task: Task {
            due: peer.task.deadline.min(clock),
            deadline: peer.task.deadline.min(clock + 40_000_000_000),
            pending: None,
            retries: 0,
        },
        ..peer
    }
}

fn granted_by(request: &Request, peer: Peer) -> Peer
    ensures { result ≡ responses.granted_by request.now request.now.kind peer }
{
    match request.kind {
        Kind::Allocate | Kind::Refresh | Kind::Delete => peer,
        Kind::Permit(_) => Peer {
            expires_at: end_of(request.since, 300),
            task: kept_task(request.since, 300),
            violated: false,
            shared: false,
            ..peer
        },
        Kind::Bind { .. } => Peer {
            expires_at: end_of(request.since, 300),
            channel_expires_at: end_of(request.since, 600),
            task: kept_task(request.since, 300),
            violated: false,
            shared: false,
            ..peer
        },
    }
}

fn granted(peer: Peer) -> Peer
    ensures { result ≡ responses.granted peer }
{
    match peer.task.pending {
        Some(pending) => granted_by(&pending.request, peer),
        None => peer,
    }
}

fn given_up(code: u16, peer: Peer) -> Peer
    ensures { result ≡ responses.given_up code peer }
{
    Peer {
        over: true,
        code,
        task: Task {
            pending: None,
            ..peer.task
        },
        ..peer
    }
}

/// Whether a permission for the peer alone is asked for after a refusal with a code.
fn asks_instead(code: u16, peer: &Peer) -> bool
    ensures { result ≡ responses.asks_instead code peer.now }
{
    (peer.wants || peer.shared) && code != 401 && code != 438
}

/// A peer whose request was refused: if that was for a channel, or named other peers too, a permission
/// for the peer alone is asked for instead, unless the server refuses the credentials.
fn turned_down(clock: u64, code: u16, peer: Peer) -> Peer
    ensures { result ≡ responses.turned_down clock code peer }
{
    if !asks_instead(code, &peer) {
        return given_up(code, peer);
    }
    Peer {
        wants: false,
        violated: false,
        task: Task {
            due: peer.task.deadline.min(clock as u128),
            pending: None,
            ..peer.task
        },
        ..peer
    }
}

fn challenged(settings: Settings, known: Option<u64>, clock: u64, code: u16, peer: Peer) -> Peer
    ensures { result ≡ responses.challenged (setup_of settings) known clock code peer }
{
    if !may_retry(&settings, known, code, &peer.task) {
        return given_up(code, peer);
    }
    Peer {
        task: again_task(clock, &peer.task),
        violated: false,
        shared: false,
        ..peer
    }
}

fn violated_by(settings: &Settings, peer: Peer) -> Peer
    ensures { result ≡ responses.violated_by (setup_of settings.now) peer }
{
    let noted = Peer {
        violated: true,
        ..peer
    };
    if settings.is_reliable {
        return given_up(0, noted);
    }
    noted
}

fn kind_of(peer: &Peer) -> Kind
    ensures { result ≡ steps.kind_of peer.now }
{
    if peer.wants {
        Kind::Bind {
            number: peer.number,
            peer: peer.address,
        }
    } else {
        Kind::Permit(peer.address)
    }
}

/// The task without a request that names other peers too.
fn own_task(peer: &Peer) -> Task
    ensures { result ≡ steps.own_task peer.now }
{
    if !peer.shared {
        return peer.task;
    }
    Task {
        pending: None,
        ..peer.task
    }
}

/// A peer after a poll.
fn turned_of(
    along: bool,
    settings: &Settings,
    clock: u64,
    fresh: u128,
    challenge: Option<u64>,
    peer: Peer,
) -> Peer
    ensures { result ≡ steps.turned_of along (setup_of settings.now) clock fresh challenge peer }
{
    if is_expired(clock, &peer.task) {
        return given_up(0, peer);
    }
    let kind = kind_of(&peer);
    Peer {
        task: turned(settings, clock, fresh, kind, challenge, &own_task(&peer)),
        shared: along,
        ..peer
    }
}

/// The request for a peer that a poll sends.
pub(crate) fn request_of(
    settings: &Settings,
    clock: u64,
    fresh: u128,
    challenge: Option<u64>,
    peer: &Peer,
) -> Option<Request>
    ensures { (others : List Endpoint) → asked_with result others
        ≡ steps.output_of (setup_of settings.now) clock fresh challenge others peer.now }
{
    if is_expired(clock, &peer.task) {
        return None;
    }
    let kind = kind_of(peer);
    turn_request(settings, clock, fresh, kind, challenge, &own_task(peer))
}

/// A peer after a change.
pub(crate) fn make_change(by: &Change, peer: Peer) -> Peer
    ensures { result ≡ changed_by by.now peer }
{
    match by {
        Change::Restart(clock) => restarted(*clock, peer),
        Change::Replace(clock, wants, address) => new_peer(*clock, peer.number, *wants, *address),
        Change::Drop(clock) => dropped(*clock, peer),
        Change::Want(clock) => wanting(*clock, peer),
        Change::Grant => granted(peer),
        Change::TurnDown(clock, code) => turned_down(*clock, *code, peer),
        Change::Challenge(settings, known, clock, code) => {
            challenged(*settings, *known, *clock, *code, peer)
        }
        Change::Violate(settings) => violated_by(settings, peer),
        Change::Turn(along, settings, clock, fresh, challenge) => {
            turned_of(*along, settings, *clock, *fresh, *challenge, peer)
        }
    }
}
