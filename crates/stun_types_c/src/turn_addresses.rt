//! Where datagrams of TURN come from and go to, in C's form.

ghost use Rattle.std.specs.Prelude.{◌≡◌, true, false, None, Some};
ghost use Rattle.stun_types_c.specs.TurnAddresses.{transport_named, tuple_named, ready_named, family_named, sockets_named, HoldsTuple, pair_of};

pub(crate) use crate::address::address_of;
use crate::address::{Address, endpoint_of};
use stun_endpoints::{Endpoint, FiveTuple};
use turn_server::{Pair, Ready, Sockets};

/// A client, the address of the server that it sends to, and the transport between them.
#[repr(C)]
#[derive(Clone, Copy, Drop)]
pub struct CFiveTuple {
    /// The client.
    pub client: Address,
    /// The address of the server.
    pub server: Address,
    /// 0 for UDP, 1 for a stream.
    pub stream: u16,
}

/// The sockets that are ready for Allocate requests.
#[repr(C)]
#[derive(Clone, Copy, Drop)]
pub struct CTurnReady {
    /// For a request that asks for no port.
    pub any_ipv4: Address,
    /// With an even port.
    pub even_ipv4: Address,
    /// The same of IPv6.
    pub any_ipv6: Address,
    /// With an even port.
    pub even_ipv6: Address,
    /// The one to be reserved with `even_ipv4`, which has the next higher port.
    pub next_ipv4: Address,
    /// The one to be reserved with `even_ipv6`.
    pub next_ipv6: Address,
}

/// The protocol number of UDP.
pub(crate) const UDP: u8 = 17;

/// That of TCP.
const TCP: u8 = 6;

/// No address: its family is 0.
pub(crate) const NOWHERE: Address = Address {
    octets: [0; 16],
    port: 0,
    family: 0,
};

/// The protocol number of a transport.
fn transport_of(stream: u16) -> Option<u8>
    ensures { result ≡ transport_named stream }
{
    match stream {
        0 => Some(UDP),
        1 => Some(TCP),
        _ => None,
    }
}

/// A 5-tuple of C's.
pub(crate) fn tuple_of(named: &CFiveTuple) -> Option<FiveTuple>
    ensures { result ≡ tuple_named named.now }
{
    let client = endpoint_of(&named.client)?;
    let server = endpoint_of(&named.server)?;
    let transport = transport_of(named.stream)?;
    Some(FiveTuple {
        client,
        server,
        transport,
    })
}

/// A 5-tuple, in C's form.
pub(crate) fn tuple_in_c(tuple: &FiveTuple) -> CFiveTuple
    ensures { HoldsTuple tuple.now result }
{
    CFiveTuple {
        client: address_of(tuple.client),
        server: address_of(tuple.server),
        stream: u16::from(tuple.transport != UDP),
    }
}

/// Reads the address of a socket that is ready, if there is one; `false` if it isn't of this family.
fn read_ready(address: &Address, family: u16, socket: &mut Option<Endpoint>) -> bool
    ensures read { result ≡ true → ready_named family address.now ≡ Some socket.new }
    ensures wrong { result ≡ false → ready_named family address.now ≡ None }
{
    if address.family == 0 {
        *socket = None;
        return true;
    }
    if address.family != family {
        return false;
    }
    match endpoint_of(address) {
        Some(endpoint) => {
            *socket = Some(endpoint);
            true
        }
        None => false,
    }
}

/// The sockets of a request that reserves, if there are both.
fn pair_of(even: Option<Endpoint>, next: Option<Endpoint>) -> Option<Pair>
    ensures { result ≡ pair_of even next }
{
    match (even, next) {
        (Some(even), Some(next)) => Some(Pair { even, next }),
        _ => None,
    }
}

/// Reads the sockets of a family that are ready; `false` if one is of another family.
fn read_family(
    family: u16,
    any: &Address,
    even: &Address,
    next: &Address,
    ready: &mut Ready,
) -> bool
    ensures read { result ≡ true → family_named family any.now even.now next.now ≡ Some ready.new }
    ensures wrong { result ≡ false → family_named family any.now even.now next.now ≡ None }
{
    let mut reserved = None;
    if !read_ready(any, family, &mut ready.any) || !read_ready(even, family, &mut ready.even) {
        return false;
    }
    if !read_ready(next, family, &mut reserved) {
        return false;
    }
    ready.pair = pair_of(ready.even, reserved);
    true
}

/// No sockets of a family.
const NONE_READY: Ready = Ready {
    any: None,
    even: None,
    pair: None,
};

/// No sockets.
pub(crate) const NO_SOCKETS: Sockets = Sockets {
    ipv4: NONE_READY,
    ipv6: NONE_READY,
    token: 0,
};

/// Reads the sockets that C has ready; `false` if one has an address of another family.
pub(crate) fn read_sockets(ready: &CTurnReady, token: u64, sockets: &mut Sockets) -> bool
    ensures read { result ≡ true → sockets_named ready.now token ≡ Some sockets.new }
    ensures wrong { result ≡ false → sockets_named ready.now token ≡ None }
{
    sockets.token = token;
    read_family(
        4,
        &ready.any_ipv4,
        &ready.even_ipv4,
        &ready.next_ipv4,
        &mut sockets.ipv4,
    ) && read_family(
        6,
        &ready.any_ipv6,
        &ready.even_ipv6,
        &ready.next_ipv6,
        &mut sockets.ipv6,
    )
}
