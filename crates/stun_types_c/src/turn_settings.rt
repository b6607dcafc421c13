//! Making a TURN server, and ending it.

ghost use Rattle.std.specs.Prelude.{◌≡◌, ◌<◌, ◌≤◌, ◌^◌, ◌⊎◌, ◌==◌, true, false, length, drop, map, is_some, Some, None, [], All, IfOk, IsSomeAnd, MatchResult, MatchOption, box_value};
ghost use Rattle.std.specs.List.{list_all};
ghost use Rattle.std.specs.Option.{option_map, option_or};
ghost use Rattle.stun_attributes.specs.Texts.{text_bytes};
ghost use Rattle.stun_keys.specs.Keys.{key_bytes};
ghost use Rattle.stun_authentication.specs.Nonces.{minting, minting_of};
ghost use Rattle.turn_machine.specs.Runs.{initial_state};
ghost use Rattle.stun_types_c.specs.Addresses.{socket_named};
ghost use Rattle.stun_types_c.specs.CResults.{plain};
ghost use Rattle.stun_types_c.specs.Codes.{OUT_OF_MEMORY, BAD_ARGUMENT};
ghost use Rattle.stun_types_c.specs.KeyHandles.{shared_key};
ghost use Rattle.stun_types_c.specs.Refusals.{text_answer};
ghost use Rattle.stun_types_c.specs.TurnHandles.{held_turn};
ghost use Rattle.stun_types_c.specs.TurnMaking.{settings_named, limits_named, default_limits, is_whole, prefix_named, with_ports, range_named, all_named, key_answer, access_answer, rules_answer, making_answer, software_named, IsAccess, AreRules, IsMade, Makes};
ghost use Rattle.stun_types_c.specs.Versions.{no_key};

use crate::address::{Address, socket_of};
use crate::authentication::{CPolicy, policy_of};
use crate::call_result::{CResult, plain, write_result};
use crate::codes;
use crate::handle::{put, release_all};
use crate::refusals::{features_of, realm_of};
use crate::shared_key::SharedKey;
use crate::stateless_nonces::maker_of;
use crate::turn_core::{PeerRules, TurnCore};
use crate::turn_handle::CTurn;
use crate::values::text_in;
use crate::versions::NoKey;
use std::alloc::{AllocError, Global};
use std::net::SocketAddr;
use stun_authentication::{NonceMaker, Policy, SecurityFeatures};
use stun_types::attribute::Software;
use turn_allocations::{Families, Limits};
use turn_peers::{PeerRange, Prefix};
use turn_server::{Access, TurnServer};

/// The bounds of a TURN server, and what it can do, as C sets them.
#[repr(C)]
#[derive(Clone, Copy, Drop)]
pub struct CTurnLimits {
    /// The most relayed addresses.
    pub relays: u32,
    /// The most of one user.
    pub relays_per_user: u32,
    /// The most sockets that are reserved.
    pub reservations: u32,
    /// The greatest lifetime in seconds.
    pub greatest_lifetime: u32,
    /// Not 0: it relays IPv4.
    pub ipv4: u16,
    /// Not 0: it relays IPv6.
    pub ipv6: u16,
    /// Not 0: the program can set the DF bit.
    pub dont_fragment: u16,
    /// Not 0: ICMP packets are relayed.
    pub icmp: u16,
    /// Not 0: the permission of a ChannelBind lasts as long as the channel.
    pub channel_permits: u16,
    /// Not 0: channels of RFC 5766 are allowed too.
    pub old_channels: u16,
}

/// What a TURN server is made by, as C sets it.
#[repr(C)]
#[derive(Clone, Copy, Drop)]
pub struct CTurnSettings<'a> {
    /// For how many seconds a nonce is valid.
    pub window: u64,
    /// What keys the hashes of clients and users.
    pub seed: [u64; 2],
    /// Which requests are taken.
    pub policy: CPolicy,
    /// Its bounds, and what it can do.
    pub limits: CTurnLimits,
    /// The number of the features that a nonce promises.
    pub features: u32,
    /// The text of the realm of its users.
    pub realm: &'a [u8],
    /// The text of the SOFTWARE of responses, or no bytes.
    pub software: &'a [u8],
    /// The peers that are denied.
    pub denied: &'a [CPrefix],
    /// Those that are allowed.
    pub allowed: &'a [CPrefix],
    /// The addresses that clients send to.
    pub listening: &'a [Address],
    /// 0.
    pub reserved: u64,
}

/// A prefix of addresses, and ports.
#[repr(C)]
#[derive(Clone, Copy, Drop)]
pub struct CPrefix {
    /// An address of the prefix, whose other bits are 0.
    pub address: Address,
    /// How many bits the prefix has.
    pub length: u16,
    /// The first port.
    pub first_port: u16,
    /// The last port; 0: it has all ports.
    pub last_port: u16,
}

/// The limits that are recommended: those of `Limits::default`.
#[unsafe(no_mangle)]
pub extern "C" fn stun_types_turn_limits_default() -> CTurnLimits
    ensures { result ≡ default_limits }
{
    let limits = Limits::default();
    CTurnLimits {
        relays: limits.relays,
        relays_per_user: limits.relays_per_user,
        reservations: limits.reservations,
        greatest_lifetime: limits.greatest_lifetime,
        ipv4: u16::from(limits.families.ipv4),
        ipv6: u16::from(limits.families.ipv6),
        dont_fragment: u16::from(limits.dont_fragment),
        icmp: u16::from(limits.icmp),
        channel_permits: u16::from(limits.channel_permits),
        old_channels: u16::from(limits.old_channels),
    }
}

/// A handle that holds no server, as C declares it: the words of `CTurn`.
#[unsafe(no_mangle)]
pub extern "C" fn stun_types_turn_none() -> NoKey
    ensures { result ≡ no_key }
{
    NoKey { at: 0, held: 0 }
}

/// Ends the servers that the handles hold. Of a handle that holds none it does nothing.
#[unsafe(no_mangle)]
pub extern "C" fn stun_types_turns_free(alloc: Global, servers: &mut [CTurn])
    ensures { All (λ server. held_turn server ≡ None) servers.new }
{
    release_all(servers, alloc);
}

/// Whether all octets are 0.
fn are_zeros(octets: &[u8]) -> bool
    ensures { result ≡ list_all (λ octet. octet == 0) octets.now }
{
    octets.iter().all(|octet| *octet == 0)
}

/// Whether all octets but the first four are 0.
fn has_four(octets: &[u8]) -> bool
    requires { 4 ≤ length octets.now }
    ensures { result ≡ list_all (λ octet. octet == 0) (drop 4 octets.now) }
{
    are_zeros(&octets[4..])
}

/// Whether the octets after those of its family are 0.
fn is_whole(address: &Address) -> bool
    ensures { result ≡ is_whole address.now }
{
    address.family != 4 || has_four(&address.octets)
}

/// The prefix that C's form names.
fn prefix_of(named: &CPrefix) -> Option<Prefix>
    ensures { result ≡ prefix_named named.now }
{
    if named.length > 128 || !is_whole(&named.address) {
        return None;
    }
    let address = socket_of(&named.address)?;
    Prefix::new(address.ip(), named.length as u8).ok()
}

/// The ports of C's form, of a prefix.
fn with_ports(named: &CPrefix, prefix: Prefix) -> PeerRange
    ensures { result ≡ with_ports named.now prefix }
{
    if named.last_port == 0 {
        PeerRange::from(prefix)
    } else {
        PeerRange {
            prefix,
            first_port: named.first_port,
            last_port: named.last_port,
        }
    }
}

/// The peers that C's form names.
fn range_of(named: &CPrefix) -> Option<PeerRange>
    ensures { result ≡ range_named named.now }
{
    if named.first_port > named.last_port {
        return None;
    }
    Some(with_ports(named, prefix_of(named)?))
}

/// The peers that C's forms name.
fn ranges_of(alloc: Global, named: &[CPrefix]) -> Result<Vec<PeerRange>, CResult>
    ensures { MatchResult result
        (λ each. (all_named range_named named.now ≡ true)
        × (map range_named named.now ≡ map Some each.items))
        (λ answer. ((all_named range_named named.now ≡ false) × (answer ≡ plain BAD_ARGUMENT))
        ⊎ (answer ≡ plain OUT_OF_MEMORY)) }
{
    let mut ranges = Vec::new(alloc);
    for i in 0..named.len() {
        let Some(range) = range_of(&named[i]) else {
            return Err(plain(codes::BAD_ARGUMENT));
        };
        match ranges.push(range).map_err(AllocError::from) {
            Ok(()) => {}
            Err(AllocError) => return Err(plain(codes::OUT_OF_MEMORY)),
        }
    }
    Ok(ranges)
}

/// The addresses that C's forms name.
fn addresses_of(alloc: Global, named: &[Address]) -> Result<Vec<SocketAddr>, CResult>
    ensures { MatchResult result
        (λ each. (all_named socket_named named.now ≡ true)
        × (map socket_named named.now ≡ map Some each.items))
        (λ answer. ((all_named socket_named named.now ≡ false) × (answer ≡ plain BAD_ARGUMENT))
        ⊎ (answer ≡ plain OUT_OF_MEMORY)) }
{
    let mut addresses = Vec::new(alloc);
    for i in 0..named.len() {
        let Some(address) = socket_of(&named[i]) else {
            return Err(plain(codes::BAD_ARGUMENT));
        };
        match addresses.push(address).map_err(AllocError::from) {
            Ok(()) => {}
            Err(AllocError) => return Err(plain(codes::OUT_OF_MEMORY)),
        }
    }
    Ok(addresses)
}

/// The rules of what C passes.
pub(crate) fn rules_of(alloc: Global, settings: &CTurnSettings<'_>) -> Result<PeerRules, CResult>
    ensures { MatchResult result
        (λ rules. (rules_answer settings.now ≡ None) × AreRules settings.now rules)
        (λ answer. (rules_answer settings.now ≡ Some answer) ⊎ (answer ≡ plain OUT_OF_MEMORY)) }
{
    let denied = ranges_of(alloc, settings.denied)?;
    let allowed = ranges_of(alloc, settings.allowed)?;
    let listening = addresses_of(alloc, settings.listening)?;
    Ok(PeerRules {
        denied,
        allowed,
        listening,
    })
}

/// The SOFTWARE of C's bytes, or none of no bytes.
pub(crate) fn software_of(alloc: Global, bytes: &[u8]) -> Result<Option<Software>, CResult>
    ensures { MatchResult result
        (λ software. (text_answer bytes.now ≡ None)
        × (option_map text_bytes software ≡ software_named bytes.now))
        (λ answer. (text_answer bytes.now ≡ Some answer) ⊎ (answer ≡ plain OUT_OF_MEMORY)) }
{
    let Some(text) = text_in(bytes) else {
        return Err(plain(codes::INVALID_DATA));
    };
    if bytes.is_empty() {
        return Ok(None);
    }
    match Software::new(alloc, text) {
        Ok(software) => Ok(Some(software)),
        Err(error) => Err(write_result(error)),
    }
}

/// What makes the nonces, by the secret that C passes.
fn maker_with(
    alloc: Global,
    secret: &SharedKey,
    features: SecurityFeatures,
    window: u64,
) -> Result<NonceMaker, CResult>
    ensures { MatchResult result
        (λ maker. (key_answer (shared_key secret.now) ≡ None)
        × IsSomeAnd (shared_key secret.now)
        (λ key. minting_of maker ≡ minting (key_bytes key) features window))
        (λ answer. (key_answer (shared_key secret.now) ≡ Some answer)
        ⊎ ((key_answer (shared_key secret.now) ≡ None) × (answer ≡ plain OUT_OF_MEMORY))) }
{
    match secret.key() {
        Some(key) => maker_of(alloc, key, features, window),
        None => Err(plain(codes::NO_KEY)),
    }
}

/// How many relayed addresses a server has at most, and one more.
const MOST_RELAYS: u32 = 1 << 24;

/// The policy and the features of the settings, if their numbers are in range.
fn checked(settings: &CTurnSettings<'_>) -> Option<(Policy, SecurityFeatures)>
    ensures { result ≡ settings_named settings.now }
{
    if settings.reserved != 0 || settings.limits.relays >= MOST_RELAYS {
        return None;
    }
    let policy = policy_of(&settings.policy)?;
    let features = features_of(settings.features)?;
    Some((policy, features))
}

/// How a server authenticates by what C passes.
fn access_of(
    alloc: Global,
    settings: &CTurnSettings<'_>,
    secret: &SharedKey,
) -> Result<Access, CResult>
    ensures { let key = shared_key secret.now in
        MatchResult result
        (λ access. (access_answer settings.now key ≡ None) × IsAccess settings.now key access)
        (λ answer. (access_answer settings.now key ≡ Some answer)
        ⊎ (answer ≡ plain OUT_OF_MEMORY)) }
{
    let Some((policy, features)) = checked(settings) else {
        return Err(plain(codes::BAD_ARGUMENT));
    };
    let nonces = maker_with(alloc, secret, features, settings.window)?;
    let realm = realm_of(alloc, settings.realm)?;
    let software = software_of(alloc, settings.software)?;
    Ok(Access {
        nonces,
        realm,
        policy,
        software,
        alternate: None,
    })
}

/// The limits that C passes.
pub(crate) fn limits_of(named: &CTurnLimits) -> Limits
    ensures { result ≡ limits_named named.now }
{
    Limits {
        relays: named.relays,
        relays_per_user: named.relays_per_user,
        reservations: named.reservations,
        greatest_lifetime: named.greatest_lifetime,
        families: Families {
            ipv4: named.ipv4 != 0,
            ipv6: named.ipv6 != 0,
        },
        dont_fragment: named.dont_fragment != 0,
        icmp: named.icmp != 0,
        channel_permits: named.channel_permits != 0,
        old_channels: named.old_channels != 0,
    }
}

/// A server on the heap, with no allocation.
fn core_of(
    alloc: Global,
    settings: &CTurnSettings<'_>,
    access: Access,
    rules: PeerRules,
) -> Result<Box<TurnCore>, AllocError>
    requires { settings.now.limits.relays < 2 ^ 24 }
    ensures { IfOk result (λ boxed. box_value boxed ≡ record {
      server = record {
        limits = limits_named settings.now.limits;
        holding = record { state = initial_state; held = [] };
        ended = [];
        over = [];
      };
      access = access;
      rules = rules;
    }) }
{
    let server = TurnServer::new(alloc, limits_of(&settings.limits), settings.seed)?;
    let core = TurnCore {
        server,
        access,
        rules,
    };
    Ok(Box::new(alloc, core)?)
}

/// A server by what C passes.
fn made_of(
    alloc: Global,
    settings: &CTurnSettings<'_>,
    secret: &SharedKey,
) -> Result<Box<TurnCore>, CResult>
    ensures { let key = shared_key secret.now in
        MatchResult result
        (λ boxed. (making_answer settings.now key ≡ None)
        × IsMade settings.now key (box_value boxed))
        (λ why. (making_answer settings.now key ≡ Some why) ⊎ (why ≡ plain OUT_OF_MEMORY)) }
{
    let access = access_of(alloc, settings, secret)?;
    let rules = rules_of(alloc, settings)?;
    match core_of(alloc, settings, access, rules) {
        Ok(core) => Ok(core),
        Err(AllocError) => Err(plain(codes::OUT_OF_MEMORY)),
    }
}

/// Makes a server with no allocation.
#[unsafe(no_mangle)]
pub extern "C" fn stun_types_turn_new(
    alloc: Global,
    server: &mut CTurn,
    settings: &CTurnSettings<'_>,
    secret: &SharedKey,
) -> CResult
    ensures { Makes settings.now (shared_key secret.now) result (held_turn server.old)
        (held_turn server.new) }
{
    match made_of(alloc, settings, secret) {
        Ok(core) => {
            put(server, core);
            plain(codes::OK)
        }
        Err(answer) => answer,
    }
}
