//! Making a TURN client, and ending it.

ghost use Rattle.std.specs.Prelude.{◌≡◌, ◌⊎◌, ◌<◌, ◌^◌, [], None, Some, All, IfOk, MatchResult, is_some, box_value};
ghost use Rattle.stun_authentication.specs.Requests.{user_of};
ghost use Rattle.turn_client_machine.specs.Runs.{begun};
ghost use Rattle.turn_client_state.specs.Reports.{nothing_of};
ghost use Rattle.turn_client_state.specs.States.{setup_of};
ghost use Rattle.turn_client.specs.Clients.{algorithms_in, content_of, transport_of};
ghost use Rattle.stun_types_c.specs.AllocationHandles.{held_client};
ghost use Rattle.stun_types_c.specs.AllocationMaking.{MakesClient, account_answer, algorithm_named, checked_named, client_answer, content_named, counts_named, credentials_answer, endpoint_named, family_named, lifetime_named, made_of as client_made, number_named, port_named, port_numbered, settings_by, user_named, wait_named};
ghost use Rattle.stun_types_c.specs.CResults.{plain};
ghost use Rattle.stun_types_c.specs.Codes.{OUT_OF_MEMORY};
ghost use Rattle.stun_types_c.specs.Versions.{no_key};

use crate::address::{Address, socket_of};
use crate::allocation_core::AllocationCore;
use crate::allocation_handle::CAllocation;
use crate::call_result::{CResult, counted, plain};
use crate::codes;
use crate::handle::{put, release_all};
use crate::keys::text_of;
use crate::password_algorithms::password_of;
use crate::transactions::kept::transport_of;
use crate::turn_settings::software_of;
use crate::versions::NoKey;
use std::alloc::{AllocError, Global};
use stun_endpoints::Endpoint;
use stun_types::TransportType;
use stun_types::attribute::PasswordAlgorithmValue;
use stun_types::message::LongTermCredentials;
use turn_client::{Account, Changes, RelayedPort, Settings, TurnClient};

/// What a TURN client is made by, as C sets it.
#[repr(C)]
#[derive(Clone, Copy, Drop)]
pub struct CAllocationSettings<'a> {
    /// The address of the server.
    pub server: Address,
    /// The number of the transport to it.
    pub transport: u32,
    /// The text of the user's name.
    pub user: &'a [u8],
    /// The text of the password.
    pub password: &'a [u8],
    /// The text of the SOFTWARE of requests, or no bytes.
    pub software: &'a [u8],
    /// The lifetime that is asked for, in seconds; 0: none.
    pub lifetime: u32,
    /// The most peers; 0: 32.
    pub peers: u32,
    /// The wait after the first sending of a request, in milliseconds; 0: 500.
    pub rto: u32,
    /// The wait after the last one, in milliseconds; 0: 16 times the first, and 39,500 over TCP.
    pub last_wait: u32,
    /// How often a request is sent over UDP at most; 0: 7 times.
    pub sends: u32,
    /// How often the server may ask for other credentials; 0: 3 times.
    pub retries: u32,
    /// The number of the one password algorithm that the client supports; 0: it supports both.
    pub algorithm: u32,
    /// The family of the relayed address, 4 or 6; 0: IPv4, which requests don't name.
    pub family: u16,
    /// Not 0: requests have a FINGERPRINT.
    pub fingerprint: u16,
    /// The most peers that one CreatePermission request names; 0: 8.
    pub named: u32,
    /// The number of the port that is asked for: any, an even one, one with the next one reserved, or that of
    /// the token.
    pub port: u16,
    /// Not 0: Allocate requests have a DONT-FRAGMENT.
    pub dont_fragment: u16,
    /// The token of a reservation; 0 with another port.
    pub token: u64,
}

/// How many peers, peers of one request, sendings and retries there are at most.
#[derive(Clone, Copy)]
pub(crate) struct Counts {
    pub(crate) peers: u16,
    pub(crate) named: u8,
    pub(crate) sends: u8,
    pub(crate) retries: u8,
}

/// What the numbers of C's settings mean.
#[derive(Clone, Copy)]
pub(crate) struct Checked {
    pub(crate) settings: Settings,
    pub(crate) names_ipv4: bool,
    pub(crate) port: RelayedPort,
    pub(crate) only_algorithm: Option<PasswordAlgorithmValue>,
}

/// A handle that holds no client, as C declares it: the words of `CAllocation`.
#[unsafe(no_mangle)]
pub extern "C" fn stun_types_allocation_none() -> NoKey
    ensures { result ≡ no_key }
{
    NoKey { at: 0, held: 0 }
}

/// Ends the clients that the handles hold. Of a handle that holds none it does nothing.
#[unsafe(no_mangle)]
pub extern "C" fn stun_types_allocations_free(alloc: Global, clients: &mut [CAllocation])
    ensures { All (λ client. held_client client ≡ None) clients.new }
{
    release_all(clients, alloc);
}

/// The endpoint that C's form names.
pub(crate) fn endpoint_in(address: &Address) -> Option<Endpoint>
    ensures { result ≡ endpoint_named address.now }
{
    match socket_of(address) {
        Some(address) => Some(Endpoint::from(address)),
        None => None,
    }
}

/// The family of the relayed address, and whether requests name it although it is IPv4.
fn family_of(number: u16) -> Option<(u8, bool)>
    ensures { result ≡ family_named number }
{
    match number {
        0 => Some((1, false)),
        4 => Some((1, true)),
        6 => Some((2, false)),
        _ => None,
    }
}

/// A number of peers.
fn peers_of(number: u32) -> Option<u16>
    ensures { result ≡ number_named 4096 32 number }
{
    if number == 0 {
        return Some(32);
    }
    if number > 4096 {
        return None;
    }
    Some(number as u16)
}

/// A number of peers that one request names.
fn named_of(number: u32) -> Option<u8>
    ensures { result ≡ number_named 16 8 number }
{
    if number == 0 {
        return Some(8);
    }
    if number > 16 {
        return None;
    }
    Some(number as u8)
}

/// A number of times.
pub(crate) fn times_of(usual: u8, number: u32) -> Option<u8>
    ensures { result ≡ number_named 255 usual number }
{
    if number == 0 {
        return Some(usual);
    }
    if number > 255 {
        return None;
    }
    Some(number as u8)
}

/// The port of a number, without a token.
fn port_numbered(number: u16) -> Option<RelayedPort>
    ensures { result ≡ port_numbered number }
{
    match number {
        0 => Some(RelayedPort::Any),
        1 => Some(RelayedPort::Even { reserves: false }),
        2 => Some(RelayedPort::Even { reserves: true }),
        _ => None,
    }
}

/// The port that is asked for.
fn port_of(number: u16, token: u64) -> Option<RelayedPort>
    ensures { result ≡ port_named number token }
{
    if number == 3 {
        return Some(RelayedPort::Reserved(token));
    }
    if token != 0 {
        return None;
    }
    port_numbered(number)
}

fn counts_of(named: &CAllocationSettings<'_>) -> Option<Counts>
    ensures { result ≡ counts_named named.now }
{
    let peers = peers_of(named.peers)?;
    let most_named = named_of(named.named)?;
    let sends = times_of(7, named.sends)?;
    let retries = times_of(3, named.retries)?;
    Some(Counts {
        peers,
        named: most_named,
        sends,
        retries,
    })
}

/// A wait in nanoseconds.
pub(crate) fn wait_of(millis: u32, usual: u64) -> u64
    ensures { result ≡ wait_named millis usual }
{
    if millis == 0 {
        return usual;
    }
    millis as u64 * 1_000_000
}

/// The wait after the first sending over UDP.
fn rto_of(millis: u32) -> u64
    ensures value { result ≡ wait_named millis 500_000_000 }
    ensures few { result < 2 ^ 60 }
{
    if millis == 0 {
        return 500_000_000;
    }
    millis as u64 * 1_000_000
}

/// The one password algorithm, if there is one; an error if no algorithm has the number.
fn algorithm_of(number: u32) -> Option<Option<PasswordAlgorithmValue>>
    ensures { result ≡ algorithm_named number }
{
    if number == 0 {
        return Some(None);
    }
    match password_of(number) {
        Some(algorithm) => Some(Some(algorithm)),
        None => None,
    }
}

/// The settings, by what their numbers mean.
fn settings_by(
    named: &CAllocationSettings<'_>,
    transport: TransportType,
    server: Endpoint,
    family: u8,
    counts: &Counts,
) -> Settings
    ensures { result ≡ settings_by named.now transport server family counts.now }
{
    match transport {
        TransportType::Udp => {
            let rto = rto_of(named.rto);
            Settings {
                server,
                family,
                is_reliable: false,
                most_peers: counts.peers,
                most_named: counts.named,
                most_sends: counts.sends,
                most_retries: counts.retries,
                rto,
                last_wait: wait_of(named.last_wait, rto * 16),
            }
        }
        TransportType::Tcp => Settings {
            server,
            family,
            is_reliable: true,
            most_peers: counts.peers,
            most_named: counts.named,
            most_sends: 1,
            most_retries: counts.retries,
            rto: 500_000_000,
            last_wait: wait_of(named.last_wait, 39_500_000_000),
        },
    }
}

/// What the numbers mean, if each is in its range.
fn numbers_of(named: &CAllocationSettings<'_>) -> Option<Checked>
    ensures { result ≡ checked_named named.now }
{
    let server = endpoint_in(&named.server)?;
    let transport = transport_of(named.transport)?;
    let (family, names_ipv4) = family_of(named.family)?;
    let counts = counts_of(named)?;
    let port = port_of(named.port, named.token)?;
    let only_algorithm = algorithm_of(named.algorithm)?;
    Some(Checked {
        settings: settings_by(named, transport, server, family, &counts),
        names_ipv4,
        port,
        only_algorithm,
    })
}

/// How many bytes a user's name has at most (RFC 8489, section 14.3).
const USER: usize = 508;

/// The credentials of C's bytes.
fn credentials_of(
    alloc: Global,
    user: &[u8],
    password: &[u8],
) -> Result<LongTermCredentials, CResult>
    ensures { MatchResult result
        (λ made. (credentials_answer user.now password.now ≡ None)
        × (user_of made ≡ record { name = user.now; password = password.now }))
        (λ answer. (credentials_answer user.now password.now ≡ Some answer)
        ⊎ (answer ≡ plain OUT_OF_MEMORY)) }
{
    if password.is_empty() {
        return Err(plain(codes::BAD_ARGUMENT));
    }
    if user.len() > USER {
        return Err(counted(codes::TOO_LARGE, USER, user.len()));
    }
    let user = text_of(alloc, user)?;
    let password = text_of(alloc, password)?;
    Ok(LongTermCredentials::new(user, password))
}

/// The lifetime that is asked for.
fn lifetime_of(seconds: u32) -> Option<u32>
    ensures { result ≡ lifetime_named seconds }
{
    if seconds == 0 { None } else { Some(seconds) }
}

/// The account that C names.
fn account_of(
    alloc: Global,
    named: &CAllocationSettings<'_>,
    checked: &Checked,
) -> Result<Account, CResult>
    ensures { MatchResult result
        (λ account. (account_answer named.now ≡ None)
        × ((content_of checked.now.settings account ≡ content_named named.now checked.now)
        × ((user_of account.credentials ≡ user_named named.now)
        × (account.only_algorithm ≡ checked.now.only_algorithm))))
        (λ answer. (account_answer named.now ≡ Some answer)
        ⊎ (answer ≡ plain OUT_OF_MEMORY)) }
{
    let credentials = credentials_of(alloc, named.user, named.password)?;
    let software = software_of(alloc, named.software)?;
    Ok(Account {
        credentials,
        lifetime: lifetime_of(named.lifetime),
        names_ipv4: checked.names_ipv4,
        port: checked.port,
        dont_fragment: named.dont_fragment != 0,
        only_algorithm: checked.only_algorithm,
        software,
        fingerprint: named.fingerprint != 0,
    })
}

/// A client on the heap, of which nothing was reported.
fn core_of(
    alloc: Global,
    settings: Settings,
    account: Account,
) -> Result<Box<AllocationCore>, AllocError>
    ensures { IfOk result (λ boxed. box_value boxed ≡ record {
      client = record {
        held = record { settings = settings; state = begun (setup_of settings) };
        transport = transport_of settings.is_reliable;
        algorithms = algorithms_in account.only_algorithm;
        content = content_of settings account;
        user = user_of account.credentials;
        kept = [];
      };
      changes = nothing_of settings;
    }) }
{
    let changes = Changes::new(alloc, &settings)?;
    let client = TurnClient::new(alloc, settings, account)?;
    Ok(Box::new(alloc, AllocationCore { client, changes })?)
}

/// A client by what C passes, whose numbers are in their ranges.
fn made_by(
    alloc: Global,
    named: &CAllocationSettings<'_>,
    checked: &Checked,
) -> Result<Box<AllocationCore>, CResult>
    ensures { MatchResult result
        (λ boxed. (account_answer named.now ≡ None)
        × (box_value boxed ≡ client_made named.now checked.now))
        (λ answer. (account_answer named.now ≡ Some answer)
        ⊎ (answer ≡ plain OUT_OF_MEMORY)) }
{
    let account = account_of(alloc, named, checked)?;
    match core_of(alloc, checked.settings, account) {
        Ok(core) => Ok(core),
        Err(AllocError) => Err(plain(codes::OUT_OF_MEMORY)),
    }
}

/// Makes a client that hasn't asked for anything.
#[unsafe(no_mangle)]
pub extern "C" fn stun_types_allocation_new(
    alloc: Global,
    client: &mut CAllocation,
    settings: &CAllocationSettings<'_>,
) -> CResult
    ensures { MakesClient settings.now result (held_client client.old) (held_client client.new) }
{
    let Some(checked) = numbers_of(settings) else {
        return plain(codes::BAD_ARGUMENT);
    };
    match made_by(alloc, settings, &checked) {
        Ok(core) => {
            put(client, core);
            plain(codes::OK)
        }
        Err(answer) => answer,
    }
}
