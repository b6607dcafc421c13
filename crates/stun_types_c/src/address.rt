//! Addresses in attributes.

ghost use Rattle.std.specs.Prelude.{◌≡◌};
ghost use Rattle.std.specs.declared.net.ip_addr.IpAddr.TheVariants.{V4};
ghost use Rattle.stun_endpoints.specs.Conversions.{endpoint_of, socket_of};
ghost use Rattle.stun_values.specs.Addresses.{plain_socket};
ghost use Rattle.stun_types_c.specs.Addresses.{ipv4_named, ipv6_named, Holds, HoldsXored, Names, socket_named, endpoint_named, is_xored_type, is_plain_type, ReadsFrom, ReadsAddress, ReadsXorAddress};

use crate::attribute::ShownAttribute;
use crate::call_result::{CResult, parse_result, plain};
use crate::codes;
use crate::values::value_in;
use byteorder::{BigEndian, ByteOrder};
use std::net::{IpAddr, Ipv4Addr, Ipv6Addr, SocketAddr};
use stun_endpoints::{Endpoint, Ip};
use stun_plain_text::value_form;
use stun_types::attribute::ValueForm;
use stun_types::message::{MessageHeader, TransactionId};
use stun_values::{read_address, xor_addr};

/// A transport address.
#[repr(C)]
#[derive(Clone, Copy, Drop)]
pub struct Address {
    /// The first four for IPv4, all sixteen for IPv6, the most significant first.
    pub octets: [u8; 16],
    /// The port.
    pub port: u16,
    /// 4 or 6.
    pub family: u16,
}

/// An address in C's form. What follows the four bytes of an IPv4 address is zero.
pub(crate) fn in_c(addr: SocketAddr) -> Address
    ensures { Holds addr result }
{
    let mut octets = [0; 16];
    let family = match addr.ip() {
        IpAddr::V4(ip) => {
            octets[..4].copy_from_slice(&ip.octets());
            4
        }
        IpAddr::V6(ip) => {
            octets.copy_from_slice(&ip.octets());
            6
        }
    };
    Address {
        octets,
        port: addr.port(),
        family,
    }
}

/// The IPv4 address of the first four octets.
fn ipv4_of(octets: &[u8; 16]) -> IpAddr
    ensures { result ≡ ipv4_named octets.now }
{
    let mut first = [0; 4];
    first.copy_from_slice(&octets[..4]);
    IpAddr::V4(Ipv4Addr::from_octets(first))
}

/// The IPv6 address of all sixteen octets.
fn ipv6_of(octets: &[u8; 16]) -> IpAddr
    ensures { result ≡ ipv6_named octets.now }
{
    IpAddr::V6(Ipv6Addr::from_octets(*octets))
}

/// The address that C's form names; `None` if the family is neither 4 nor 6.
pub(crate) fn socket_of(address: &Address) -> Option<SocketAddr>
    ensures named { Names address.now result }
    ensures value { result ≡ socket_named address.now }
{
    match address.family {
        4 => Some(SocketAddr::new(ipv4_of(&address.octets), address.port)),
        6 => Some(SocketAddr::new(ipv6_of(&address.octets), address.port)),
        _ => None,
    }
}

/// The endpoint that C's form names if its family is 6.
#[inline(never)]
fn ipv6_endpoint(address: &Address) -> Endpoint
    ensures { result ≡ endpoint_of (plain_socket (ipv6_named address.now.octets) address.now.port) }
{
    Endpoint::from(SocketAddr::new(ipv6_of(&address.octets), address.port))
}

/// The endpoint that C's form names; `None` if the family is neither 4 nor 6.
#[inline(always)]
pub(crate) fn endpoint_of(address: &Address) -> Option<Endpoint>
    ensures { result ≡ endpoint_named address.now }
{
    match address.family {
        4 => Some(Endpoint {
            ip: Ip {
                family: 1,
                number: BigEndian::read_u32(&address.octets) as u128,
            },
            port: address.port,
        }),
        6 => Some(ipv6_endpoint(address)),
        _ => None,
    }
}

/// An IPv4 address in C's form.
fn ipv4_in_c(ip: [u8; 4], port: u16) -> Address
    ensures { Holds (plain_socket (V4 (record { octets = ip })) port) result }
{
    let [a, b, c, d] = ip;
    Address {
        octets: [a, b, c, d, 0, 0, 0, 0, 0, 0, 0, 0, 0, 0, 0, 0],
        port,
        family: 4,
    }
}

/// An endpoint in C's form.
#[inline(always)]
pub(crate) fn address_of(endpoint: Endpoint) -> Address
    ensures { Holds (socket_of endpoint) result }
{
    if endpoint.ip.family == 1 {
        let [.., a, b, c, d] = endpoint.ip.number.to_be_bytes();
        return ipv4_in_c([a, b, c, d], endpoint.port);
    }
    in_c(SocketAddr::from(endpoint))
}

/// Whether the addresses in attributes of this type are XORed with the transaction ID.
pub(crate) fn is_xored_type(atype: u16) -> bool
    ensures { result ≡ is_xored_type atype }
{
    matches!(value_form(atype), Some(ValueForm::XorAddress))
}

/// Whether they aren't. Of a type that the library doesn't know, neither is known.
pub(crate) fn is_plain_type(atype: u16) -> bool
    ensures { result ≡ is_plain_type atype }
{
    matches!(value_form(atype), Some(ValueForm::Address))
}

/// Reads the address in an attribute that isn't XORed.
#[unsafe(no_mangle)]
pub extern "C" fn stun_types_read_address(
    bytes: &[u8],
    attribute: &ShownAttribute,
    address: &mut Address,
) -> CResult
    ensures { ReadsAddress attribute.now bytes.now result address.old address.new }
{
    if is_xored_type(attribute.atype) {
        return plain(codes::BAD_ARGUMENT);
    }
    let Some(value) = value_in(bytes, attribute) else {
        return plain(codes::BAD_ARGUMENT);
    };
    match read_address(value) {
        Ok(addr) => {
            *address = in_c(addr);
            plain(codes::OK)
        }
        Err(error) => parse_result(error),
    }
}

/// Reads the address in a value that is XORed with this transaction ID.
fn read_xored(value: &[u8], transaction: TransactionId, address: &mut Address) -> CResult
    ensures { ReadsFrom (HoldsXored transaction) value.now result address.old address.new }
{
    match read_address(value) {
        Ok(addr) => {
            *address = in_c(xor_addr(addr, transaction));
            plain(codes::OK)
        }
        Err(error) => parse_result(error),
    }
}

/// Reads the address in an attribute that is XORed with the transaction ID.
#[unsafe(no_mangle)]
pub extern "C" fn stun_types_read_xor_address(
    bytes: &[u8],
    attribute: &ShownAttribute,
    address: &mut Address,
) -> CResult
    ensures { ReadsXorAddress attribute.now bytes.now result address.old address.new }
{
    if is_plain_type(attribute.atype) {
        return plain(codes::BAD_ARGUMENT);
    }
    let Some(value) = value_in(bytes, attribute) else {
        return plain(codes::BAD_ARGUMENT);
    };
    match MessageHeader::from_bytes(bytes) {
        Ok(header) => read_xored(value, header.transaction_id(), address),
        Err(error) => parse_result(error),
    }
}
