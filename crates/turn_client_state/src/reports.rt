//! What is reported to the user.

ghost use Rattle.std.specs.Prelude.{◌≡◌, true, IfOk, reverse, slice_set, ◌==◌, if◌then◌else◌};
ghost use Rattle.turn_client_state.specs.Reports as reports;

use crate::client::ClientState;
use crate::lookups::{has_channel, is_permitted};
use crate::settings::Settings;
use std::alloc::{AllocError, Global};
use std::marker::Model;
use stun_endpoints::Endpoint;
use turn_client_machine::{End, Peer, Phase};

/// What the server grants for a peer.
#[derive(Clone, Copy, Debug, PartialEq, Eq)]
pub enum Standing {
    /// Nothing: the client asks for it, or what was granted has expired.
    Asked,
    /// A permission for its IP address: data goes to it in Send indications (RFC 8656, section 11.1).
    Permitted,
    /// A channel too: data goes to it by the channel (section 12.5).
    Bound,
    /// The client has given the peer up.
    Over,
}

/// What holds of a peer. Moments are in nanoseconds of the caller's clock.
#[derive(Clone, Copy, Debug, PartialEq, Eq)]
pub struct Report {
    /// Its address.
    pub address: Endpoint,
    /// Its channel number, also if it has no channel.
    pub number: u16,
    /// What the server grants for it.
    pub standing: Standing,
    /// Whether a channel is wanted. It is false again after the server has refused one.
    pub wants: bool,
    /// When the permission for its IP address expires at the earliest, or 0 if none was granted.
    pub until: u128,
    /// When its channel expires at the earliest, or 0 if none was granted.
    pub channel_until: u128,
    /// The error code if it is over, or 0 if no response counted.
    pub code: u16,
    /// Whether a response to the last request for it had a wrong integrity.
    pub violated: bool,
}

/// What has changed. Moments are in nanoseconds of the caller's clock.
#[derive(Clone, Copy, Debug, PartialEq, Eq)]
pub enum Change {
    /// There is an allocation.
    Allocated {
        /// The relayed address.
        relayed: Endpoint,
        /// The client's address, as the server sees it.
        mapped: Endpoint,
        /// When the allocation expires at the earliest.
        until: u128,
    },
    /// The allocation lasts longer.
    Refreshed {
        /// When it expires at the earliest.
        until: u128,
    },
    /// Something else holds of a peer.
    Peer(Report),
    /// The allocation is being deleted.
    Closing,
    /// The client has ended.
    Ended(End),
}

/// What was reported of a client, so that each change is reported once.
///
/// [`Changes::new`] takes all memory; no other call allocates.
///
/// ```
/// use stun_endpoints::{Endpoint, Ip};
/// use turn_client_machine::End;
/// use turn_client_state::{Change, Changes, ClientState, Settings};
///
/// let server = Endpoint { ip: Ip { family: 1, number: 0xC000_0201 }, port: 3478 };
/// let settings = Settings::over_udp(server, 1);
/// let mut client = ClientState::new(alloc, settings)?;
/// let mut changes = Changes::new(alloc, &settings)?;
/// client.allocate(0);
/// assert_eq!(rt; changes.next(&client), None);
///
/// client.close(1);
/// assert_eq!(rt; changes.next(&client), Some(Change::Ended(End::Closed)));
/// assert_eq!(rt; changes.next(&client), None);
/// ```
#[derive(Drop)]
pub struct Changes {
    until: u128,
    closing: bool,
    ended: bool,
    peers: Vec<Report>,
}

impl Model for Changes {
    ghost use Rattle.turn_client_state.specs.Reports.{Reports};

    ghost Value = { Reports };

    ghost view = { λ c. record {
      until = c.until;
      closing = c.closing;
      ended = c.ended;
      peers = c.peers.items;
    } };
}

/// What the server grants for a peer.
fn standing_of(clock: u64, peer: &Peer) -> Standing
    ensures { result ≡ reports.standing_of clock peer.now }
{
    if peer.over {
        return Standing::Over;
    }
    if has_channel(clock, peer.address, peer) {
        return Standing::Bound;
    }
    if is_permitted(clock, peer.address.ip, peer) {
        return Standing::Permitted;
    }
    Standing::Asked
}

fn report_of(clock: u64, peer: &Peer) -> Report
    ensures { result ≡ reports.report_of clock peer.now }
{
    Report {
        address: peer.address,
        number: peer.number,
        standing: standing_of(clock, peer),
        wants: peer.wants,
        until: peer.expires_at,
        channel_until: peer.channel_expires_at,
        code: peer.code,
        violated: peer.violated,
    }
}

fn nothing_about(address: Endpoint) -> Report
    ensures { result ≡ reports.nothing_about address }
{
    Report {
        address,
        number: 0,
        standing: Standing::Asked,
        wants: false,
        until: 0,
        channel_until: 0,
        code: 0,
        violated: false,
    }
}

fn reported_of(peer: &Peer, report: &Report) -> Report
    ensures { result ≡ reports.reported_of peer.now report.now }
{
    if peer.address == report.address {
        *report
    } else {
        nothing_about(peer.address)
    }
}

fn is_standing(one: Standing, other: Standing) -> bool
    ensures { result ≡ reports.is_standing one other }
{
    match one {
        Standing::Asked => match other {
            Standing::Asked => true,
            Standing::Permitted | Standing::Bound | Standing::Over => false,
        },
        Standing::Permitted => match other {
            Standing::Permitted => true,
            Standing::Asked | Standing::Bound | Standing::Over => false,
        },
        Standing::Bound => match other {
            Standing::Bound => true,
            Standing::Asked | Standing::Permitted | Standing::Over => false,
        },
        Standing::Over => match other {
            Standing::Over => true,
            Standing::Asked | Standing::Permitted | Standing::Bound => false,
        },
    }
}

fn is_same(one: bool, other: bool) -> bool
    ensures { result ≡ reports.is_same one other }
{
    if one { other } else { !other }
}

fn is_reason(standing: Standing, one: &Report, other: &Report) -> bool
    ensures { result ≡ reports.is_reason standing one.now other.now }
{
    match standing {
        Standing::Over => one.code == other.code && is_same(one.violated, other.violated),
        Standing::Asked | Standing::Permitted | Standing::Bound => true,
    }
}

fn is_report(one: &Report, other: &Report) -> bool
    ensures { result ≡ reports.is_report one.now other.now }
{
    is_standing(one.standing, other.standing)
        && is_same(one.wants, other.wants)
        && one.until == other.until
        && one.channel_until == other.channel_until
        && is_reason(one.standing, one, other)
}

fn is_news(clock: u64, peer: &Peer, report: &Report) -> bool
    ensures { result ≡ reports.is_news clock (peer.now, report.now) }
{
    !(peer.rests_until.is_some() || is_report(&report_of(clock, peer), &reported_of(peer, report)))
}

/// The place of the first peer of which something else holds than was reported.
fn place_of_news(clock: u64, peers: &[Peer], before: &[Report]) -> Option<usize>
    ensures { result ≡ reports.place_of_news clock peers.now before.now }
{
    peers
        .iter()
        .zip(before.iter())
        .position(|(peer, report)| is_news(clock, peer, report))
}

/// Puts a report into its place, if there is one.
fn put_at(place: usize, report: Report, all: &mut [Report])
    ensures { all.new ≡ slice_set all.old place report }
{
    if place < all.len() {
        all[place] = report;
    }
}

/// The first change of a peer that isn't reported yet, which is marked as reported.
fn next_of_peers(clock: u64, peers: &[Peer], before: &mut [Report]) -> Option<Change>
    ensures change { result ≡ reports.change_at clock peers.now
        (reports.place_of_news clock peers.now before.old) }
    ensures marked { before.new ≡ reports.marked_at clock peers.now
        (reports.place_of_news clock peers.now before.old) before.old }
{
    let place = place_of_news(clock, peers, before)?;
    let peer = peers.get(place)?;
    let report = report_of(clock, peer);
    put_at(place, report, before);
    Some(Change::Peer(report))
}

/// A change that is reported once.
fn once(reported: bool, change: Change) -> Option<Change>
    ensures { result ≡ reports.once reported change }
{
    if reported { None } else { Some(change) }
}

impl ClientState {
    /// The peers, the oldest first.
    fn in_order(&self) -> &[Peer]
        ensures { result.now ≡ reverse self.now.state.peers }
    {
        self.peers.as_slice()
    }

    /// The change of an allocation whose end was reported as this one.
    fn allocation_change(&self, until: u128) -> Change
        ensures { result ≡ (if until == 0 then Change.Allocated self.now.state.relayed
            self.now.state.mapped self.now.state.expires_at
            else Change.Refreshed self.now.state.expires_at) }
    {
        if until == 0 {
            return Change::Allocated {
                relayed: self.relayed,
                mapped: self.mapped,
                until: self.expires_at,
            };
        }
        Change::Refreshed {
            until: self.expires_at,
        }
    }
}

impl Changes {
    /// Makes the record of a client with these settings, of which nothing was reported.
    ///
    /// # Errors
    ///
    /// Only if an allocation of memory failed.
    pub fn new(alloc: Global, settings: &Settings) -> Result<Self, AllocError>
        ensures { IfOk result (λ changes. changes ≡ reports.nothing_of settings.now) }
    {
        let nothing = nothing_about(settings.server);
        let most = (settings.most_peers as usize).min(4096);
        Ok(Changes {
            until: 0,
            closing: false,
            ended: false,
            peers: vec![in alloc; nothing; most]?,
        })
    }

    /// The change of a client that has an allocation.
    fn next_allocated(&mut self, client: &ClientState) -> Option<Change>
        ensures change { result ≡ reports.allocated_change client.now.state self.old }
        ensures marked { self.new ≡ reports.allocated_marked client.now.state self.old }
    {
        if self.until == client.expires_at {
            return next_of_peers(client.clock, client.in_order(), &mut self.peers);
        }
        let change = client.allocation_change(self.until);
        self.until = client.expires_at;
        Some(change)
    }

    /// The deletion, if it isn't reported yet.
    fn next_closing(&mut self) -> Option<Change>
        ensures change { result ≡ reports.once self.old.closing Change.Closing }
        ensures marked { self.new ≡ record self.old { closing = true } }
    {
        let change = once(self.closing, Change::Closing);
        self.closing = true;
        change
    }

    /// The end, if it isn't reported yet.
    fn next_end(&mut self, why: End) -> Option<Change>
        ensures change { result ≡ reports.once self.old.ended (Change.Ended why) }
        ensures marked { self.new ≡ record self.old { ended = true } }
    {
        let change = once(self.ended, Change::Ended(why));
        self.ended = true;
        change
    }

    /// Returns a difference between what holds of the client and what was reported of it, and marks it
    /// as reported. Returns `None` exactly if there is none. Call it after each other call until it does.
    ///
    /// The order is: the allocation, its peers in the order in which they were named, the deletion, the
    /// end. Of changes that undo each other between two calls nothing is reported, nor of peers that
    /// the user has dropped, and after the end nothing more.
    pub fn next(&mut self, client: &ClientState) -> Option<Change>
        ensures change { result ≡ reports.next_change self.old client.now.state }
        ensures marked { self.new ≡ reports.marked self.old client.now.state }
    {
        match client.phase {
            Phase::Allocated => self.next_allocated(client),
            Phase::Closing(_) => self.next_closing(),
            Phase::Ended(why) => self.next_end(why),
            Phase::Quiet | Phase::Asking => None,
        }
    }
}
