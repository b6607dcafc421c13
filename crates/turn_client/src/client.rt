//! The client.

ghost use Rattle.std.specs.Prelude.{◌≡◌, ◌||◌, [], IfOk, map, max, reverse};
ghost use Rattle.std.specs.List.{list_any};
ghost use Rattle.std.specs.Option.{option_map};
ghost use Rattle.stun_authentication.specs.Requests.{user_of};
ghost use Rattle.turn_client_machine.specs.Clients.{is_peer};
ghost use Rattle.turn_client_machine.specs.Events.{allocates, permits, binds, drops, closes};
ghost use Rattle.turn_client_machine.specs.Runs.{begun};
ghost use Rattle.turn_client_machine.specs.Steps.{covers};
ghost use Rattle.turn_client_messages.specs.Views.{content_of as content_in};
ghost use Rattle.turn_client_state.specs.Naming.{named};
ghost use Rattle.turn_client_state.specs.Reports.{next_change, marked};
ghost use Rattle.turn_client_state.specs.States.{setup_of, status_of};
ghost use Rattle.turn_client_state.specs.Waking.{wake};
ghost use Rattle.turn_client.specs.Clients.{algorithms_in, content_of, family_in, kept_with, passes, transport_of};
ghost use Rattle.turn_requests.specs.Requests.{credentials_in};

use crate::account::Account;
use crate::logins::{KeptLogin, login_with};
use std::alloc::{AllocError, Global};
use std::marker::Model;
use stun_endpoints::Endpoint;
use stun_types::{AddressFamily, TransportType};
use turn_client_machine::Peer;
use turn_client_messages::RequestSettings;
use turn_client_state::{Change, Changes, ClientState, NameError, Settings, Status};
use turn_requests::Login;

/// A TURN client without sockets and without a clock (RFC 8656): one allocation at one server, on one
/// 5-tuple, which is kept until it is closed or the server ends it.
///
/// Moments are nanoseconds from a beginning of the caller's choice. A moment before the latest one
/// counts as that one.
///
/// [`TurnClient::on_datagram`] allocates only for a challenge of the server, and [`TurnClient::poll`]
/// for the request that it writes. No other call but [`TurnClient::new`] allocates.
///
/// An event loop passes each datagram of its socket to [`TurnClient::on_datagram`], and after each call
/// sends what [`TurnClient::poll`] writes until that returns `None`, and again at
/// [`TurnClient::next_wake`].
///
/// # Examples
///
/// ```
/// use std::net::SocketAddr;
/// use stun_endpoints::Endpoint;
/// use stun_types::attribute::MessageIntegritySha256;
/// use stun_types::message::{LongTermCredentials, Message, TransactionId};
/// use stun_types::prelude::*;
/// use turn_client::{Account, RelayedPort, Settings, TurnClient};
///
/// let server = Endpoint::from("192.0.2.1:3478".parse::<SocketAddr>()?);
/// let name = String::from_str(alloc, "user")?;
/// let password = String::from_str(alloc, "secret")?;
/// let account = Account {
///     credentials: LongTermCredentials::new(name, password),
///     lifetime: None,
///     names_ipv4: false,
///     port: RelayedPort::Any,
///     dont_fragment: false,
///     only_algorithm: None,
///     software: None,
///     fingerprint: false,
/// };
/// let mut client = TurnClient::new(alloc, Settings::over_udp(server, 1), account)?;
/// client.allocate(0);
/// let mut out = [0; 1500];
/// let id = TransactionId::from(0xA562_50D3_F17A_BE67_9422_DE85);
/// // An Allocate request of 28 bytes goes to the server, without credentials.
/// assert_eq!(rt; client.poll(alloc, 0, id, &mut out)?, Some(28));
/// // A 401 comes 50 milliseconds later.
/// let challenge =
///     b"\x01\x13\x00\x54\x21\x12\xA4\x42\xA5\x62\x50\xD3\xF1\x7A\xBE\x67\x94\x22\xDE\x85\
///       \x00\x09\x00\x10\x00\x00\x04\x01Unauthorized\x00\x14\x00\x0Bexample.com\x00\
///       \x00\x15\x00\x20obMatJos2gAAAadl7W7PeDU4hKE72jda\
///       \x80\x02\x00\x08\x00\x01\x00\x00\x00\x02\x00\x00";
/// assert_eq!(rt; client.on_datagram(alloc, 50_000_000, server, challenge)?, None);
/// // The next request is signed.
/// let id = TransactionId::from(0x4821_99EE_AC1D_D9C3_35AE_0F46);
/// let length = client.poll(alloc, 50_000_000, id, &mut out)?.ok_or("no request")?;
/// let request = Message::from_bytes(&out[..length])?;
/// assert!(rt; request.has_attribute(MessageIntegritySha256::TYPE));
/// ```
#[derive(Drop)]
pub struct TurnClient {
    pub(crate) settings: Settings,
    pub(crate) state: ClientState,
    pub(crate) account: Account,
    pub(crate) logins: Vec<KeptLogin>,
}

impl Model for TurnClient {
    ghost use Rattle.std.specs.Prelude.{◌≡◌, map};
    ghost use Rattle.stun_authentication.specs.Requests.{user_of};
    ghost use Rattle.turn_client.specs.Clients.{Client, algorithms_in, content_of, kept_of, transport_of};

    ghost Value = { Client };

    ghost view = { λ c. record {
      held = c.state;
      transport = transport_of c.settings.is_reliable;
      algorithms = algorithms_in c.account.only_algorithm;
      content = content_of c.settings c.account;
      user = user_of c.account.credentials;
      kept = map kept_of c.logins.items;
    } };

    ghost invariant = { λ c. c.state.settings ≡ c.settings };
}

/// The transport to the server.
pub(crate) fn transport(settings: &Settings) -> TransportType
    ensures { result ≡ transport_of settings.now.is_reliable }
{
    if settings.is_reliable {
        TransportType::Tcp
    } else {
        TransportType::Udp
    }
}

/// The family that Allocate requests name.
fn family(family: u8, names_ipv4: bool) -> Option<AddressFamily>
    ensures { result ≡ family_in family names_ipv4 }
{
    if family == 2 {
        return Some(AddressFamily::IPV6);
    }
    if names_ipv4 {
        return Some(AddressFamily::IPV4);
    }
    None
}

/// What is the same in all requests.
pub(crate) fn content<'a>(settings: &Settings, account: &'a Account) -> RequestSettings<'a>
    ensures { content_in result ≡ content_of settings.now account.now }
{
    RequestSettings {
        lifetime: account.lifetime,
        family: family(settings.family, account.names_ipv4),
        port: account.port,
        dont_fragment: account.dont_fragment,
        software: account.software.as_ref(),
        fingerprint: account.fingerprint,
    }
}

impl TurnClient {
    /// Makes a client that hasn't asked for anything, with its clock at 0.
    ///
    /// # Errors
    ///
    /// Only if an allocation of memory failed.
    pub fn new(alloc: Global, settings: Settings, account: Account) -> Result<Self, AllocError>
        ensures { IfOk result (λ client. client ≡ record {
          held = record { settings = settings; state = begun (setup_of settings) };
          transport = transport_of settings.is_reliable;
          algorithms = algorithms_in account.only_algorithm;
          content = content_of settings account;
          user = user_of account.credentials;
          kept = [];
        }) }
    {
        let state = ClientState::new(alloc, settings)?;
        Ok(TurnClient {
            settings,
            state,
            account,
            logins: Vec::new(alloc),
        })
    }

    /// The credentials for a challenge.
    pub(crate) fn login(&self, number: u64) -> Option<Login<'_>>
        ensures { credentials_in result ≡ kept_with self.now number }
    {
        login_with(&self.account, &self.logins, number)
    }

    /// Asks for an allocation (RFC 8656, section 7.1), unless that was done before. The next polls write
    /// the requests.
    pub fn allocate(&mut self, now: u64)
        ensures { self.new ≡ passes now 0 allocates self.old }
    {
        self.state.allocate(now);
    }

    /// Asks for a permission for a peer's IP address (RFC 8656, section 9), unless the client keeps one
    /// up. Once there is an allocation, the next polls write the request. Data of any port of that
    /// address is shown then.
    ///
    /// # Errors
    ///
    /// - [`NameError::OtherFamily`] if the peer is new, and its address of another family than the
    ///   relayed address;
    /// - [`NameError::Full`] if the peer is new, and there is no room for it.
    pub fn permit(&mut self, now: u64, peer: Endpoint) -> Result<(), NameError>
        ensures state { self.new ≡ passes now 0 (permits peer) self.old }
        ensures result { result ≡ named (setup_of self.old.held.settings)
            (max self.old.held.state.clock now)
            (list_any (covers peer.ip) self.old.held.state.peers
            || list_any (is_peer peer) self.old.held.state.peers) peer self.old.held.state.peers }
    {
        self.state.permit(now, peer)
    }

    /// Asks for a channel to a peer (RFC 8656, section 12), which also permits its IP address. Once
    /// there is an allocation, the next polls write the request.
    ///
    /// # Errors
    ///
    /// Those of [`TurnClient::permit`].
    pub fn bind(&mut self, now: u64, peer: Endpoint) -> Result<(), NameError>
        ensures state { self.new ≡ passes now 0 (binds peer) self.old }
        ensures result { result ≡ named (setup_of self.old.held.settings)
            (max self.old.held.state.clock now)
            (list_any (is_peer peer) self.old.held.state.peers) peer self.old.held.state.peers }
    {
        self.state.bind(now, peer)
    }

    /// Drops a peer, by its exact address: no request for its permission or its channel is written any
    /// more, and no data of it is shown. Data of other peers of its IP address is, as long as the client
    /// has a permission by one of them; a peer that was only covered by the dropped one's permission has
    /// to be named again.
    ///
    /// The peer stays in [`TurnClient::peers`], with the moment at which its rest ends, and counts
    /// towards the most peers until another one takes its place and its channel number: at once, or if
    /// a channel was wanted 900 seconds later, when the server has surely forgotten the channel (RFC
    /// 8656, section 12). If it is named again, it has the same number, and its channel is asked for
    /// again. If the client doesn't have the peer, nothing changes.
    pub fn drop_peer(&mut self, now: u64, peer: Endpoint)
        ensures { self.new ≡ passes now 0 (drops peer) self.old }
    {
        self.state.drop_peer(now, peer);
    }

    /// Ends the client. If the server may have an allocation of it, that is deleted first, by a Refresh
    /// request with a lifetime of 0, which the next polls write (RFC 8656, section 8.1).
    pub fn close(&mut self, now: u64)
        ensures { self.new ≡ passes now 0 closes self.old }
    {
        self.state.close(now);
    }

    /// Returns the moment at which the next poll does something: writes a request, gives up a peer, or
    /// ends the client. A poll before it does nothing; what other calls do may make it sooner. It is
    /// `None` for a client that is quiet or has ended.
    pub fn next_wake(&self) -> Option<u128>
        ensures { result ≡ wake self.now.held.state }
    {
        self.state.next_wake()
    }

    /// Returns the phase, the addresses and the end of the allocation.
    pub fn status(&self) -> Status
        ensures { result ≡ status_of self.now.held.state }
    {
        self.state.status()
    }

    /// Returns a difference between what holds of the client and what was reported of it, and marks it
    /// as reported. Returns `None` exactly if there is none. Call it after each other call until it does.
    /// The changes are those of a [`Changes`] of this client alone.
    pub fn next_change(&self, changes: &mut Changes) -> Option<Change>
        ensures change { result ≡ next_change changes.old self.now.held.state }
        ensures marked { changes.new ≡ marked changes.old self.now.held.state }
    {
        changes.next(&self.state)
    }

    /// Borrows the peers that the user has named, and those dropped whose place none has taken. A peer's
    /// place is its channel number less 0x4000.
    pub fn peers(&self) -> &[Peer]
        ensures { reverse result.now ≡ self.now.held.state.peers }
    {
        self.state.peers()
    }
}
