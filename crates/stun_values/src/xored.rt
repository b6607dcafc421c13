//! An address XORed with the magic cookie and a transaction ID (RFC 8489, section 14.2).

ghost use Rattle.std.specs.Prelude.{◌≡◌, ◌≤◌, ◌++◌, OnOk, codes, length};
ghost use Rattle.std.specs.Net.Text.{socket_v6_text};
ghost use Rattle.std.specs.Net.Socket.{socket_ip};
ghost use Rattle.stun_values.specs.Addresses.{octets, mask, xor_bytes, xored_text, IsXored};

use crate::socket_value::{ipv4_of, ipv6_of};
use byteorder::{BigEndian, ByteOrder};
use std::net::{IpAddr, SocketAddr, SocketAddrV6};
use stun_base::{MAGIC_COOKIE, TransactionId};
use stun_text::{TextSink, put_socket, put_socket_v6};

/// The magic cookie followed by the transaction ID, in sixteen bytes.
fn mask_of(transaction: TransactionId) -> [u8; 16]
    ensures { result ≡ mask transaction }
{
    let mut bytes = u128::from(transaction).to_be_bytes();
    BigEndian::write_u32(&mut bytes, MAGIC_COOKIE);
    bytes
}

/// XORs each byte with the byte of the mask at the same index.
fn xor_with(bytes: &mut [u8], mask: &[u8])
    requires { length bytes.old ≤ length mask.now }
    ensures { bytes.new ≡ xor_bytes bytes.old mask.now }
{
    for i in 0..bytes.len() {
        bytes[i] ^= mask[i];
    }
}

/// This address XORed with the cookie and this transaction ID: the port with the high half of the
/// cookie, an IPv4 address with the cookie, and an IPv6 address with the cookie followed by the
/// transaction ID. Flow info and scope ID of the result are 0.
#[tactic(auto, using(crate::proofs::XorLemmas::xor_cookie))]
#[inline(always)]
pub fn xor_addr(addr: SocketAddr, transaction: TransactionId) -> SocketAddr
    ensures xored { IsXored transaction addr result }
    ensures bound { length (octets (socket_ip addr)) ≤ 16 }
{
    let port = addr.port() ^ (MAGIC_COOKIE >> 16) as u16;
    match addr {
        SocketAddr::V4(addr) => {
            let mut bytes = addr.ip().octets();
            xor_with(&mut bytes, &MAGIC_COOKIE.to_be_bytes());
            SocketAddr::new(IpAddr::V4(ipv4_of(&bytes)), port)
        }
        SocketAddr::V6(addr) => {
            let mut bytes = addr.ip().octets();
            xor_with(&mut bytes, &mask_of(transaction));
            SocketAddr::new(IpAddr::V6(ipv6_of(&bytes)), port)
        }
    }
}

/// Writes `XOR(`, an IPv6 address and `)`.
fn put_under_xor<S: TextSink>(sink: &mut S, addr: SocketAddrV6) -> Result<(), S::Error>
    ensures { OnOk result
        (S.wrote sink.old (codes "XOR(" ++ socket_v6_text addr ++ codes ")") sink.new) }
{
    sink.put("XOR(")?;
    put_socket_v6(sink, addr)?;
    sink.put(")")?;
    Ok(())
}

/// Prints an address that was XORed: of IPv4 the address without the XOR, since its XOR takes no
/// transaction ID; of IPv6 `XOR(`, the address as it is, and `)`.
///
/// # Errors
///
/// That of the sink.
pub fn write_xored<S: TextSink>(sink: &mut S, addr: SocketAddr) -> Result<(), S::Error>
    ensures { OnOk result (S.wrote sink.old (xored_text addr) sink.new) }
{
    match addr {
        SocketAddr::V4(_) => {
            let plain = xor_addr(addr, TransactionId::from(0));
            put_socket(sink, plain)
        }
        SocketAddr::V6(addr) => put_under_xor(sink, addr),
    }
}
