//! Addresses, in the form of RFC 5952.

ghost use Rattle.std.specs.Prelude.{◌≡◌, ◌+◌, ◌≤◌, ◌++◌, length, codes, OnOk};
ghost use Rattle.std.specs.Net.Addr.{ipv4_octets, ipv6_segments};
ghost use Rattle.std.specs.Net.Text as Text;

use crate::{TextSink, put_decimal, put_hex};
use std::net::{Ipv4Addr, Ipv6Addr, SocketAddr, SocketAddrV4, SocketAddrV6};

/// Writes an IPv4 address: its four bytes in decimal, with dots between them.
///
/// # Errors
///
/// That of the sink.
pub fn put_ipv4<S: TextSink>(sink: &mut S, ip: Ipv4Addr) -> Result<(), S::Error>
    ensures { OnOk result (S.wrote sink.old (Text.ipv4_text (ipv4_octets ip)) sink.new) }
{
    let [a, b, c, d] = ip.octets();
    put_decimal(sink, a as u64)?;
    sink.put(".")?;
    put_decimal(sink, b as u64)?;
    sink.put(".")?;
    put_decimal(sink, c as u64)?;
    sink.put(".")?;
    put_decimal(sink, d as u64)?;
    Ok(())
}

/// Writes a group of an IPv6 address: its sixteen bits in hexadecimal, without leading zeros.
#[tactic(auto, using(crate::proofs::GroupsLemmas::group_is))]
fn put_group<S: TextSink>(sink: &mut S, group: u16) -> Result<(), S::Error>
    ensures { OnOk result (S.wrote sink.old (Text.hex group) sink.new) }
{
    put_hex(sink, group as u128)
}

/// Writes groups with a colon between them.
fn put_groups<S: TextSink>(sink: &mut S, groups: &[u16]) -> Result<(), S::Error>
    ensures { OnOk result (S.wrote sink.old (Text.groups_text groups.now) sink.new) }
{
    let Some((first, others)) = groups.split_first() else {
        return Ok(());
    };
    put_group(sink, *first)?;
    for group in others {
        sink.put(":")?;
        put_group(sink, *group)?;
    }
    Ok(())
}

/// The start of the longest run of zeros, the first of those of that length, and its length.
fn longest_zero_run(groups: &[u16]) -> (usize, usize)
    ensures run { result ≡ Text.longest_zero_run groups.now }
    ensures within { result.0 + result.1 ≤ length groups.now }
{
    let mut longest = (groups.len(), 0);
    let mut run = 0;
    for start in (0..groups.len()).rev() {
        if groups[start] == 0 {
            run += 1;
        } else {
            run = 0;
        }
        if run >= longest.1 {
            longest = (start, run);
        }
    }
    longest
}

/// Writes the eight groups of an IPv6 address, with `::` instead of the longest run of zeros,
/// if it is longer than one group (RFC 5952, section 4.2).
fn put_compressed<S: TextSink>(sink: &mut S, groups: &[u16]) -> Result<(), S::Error>
    ensures { OnOk result (S.wrote sink.old (Text.hex_groups_text groups.now) sink.new) }
{
    let (start, length) = longest_zero_run(groups);
    if length <= 1 {
        return put_groups(sink, groups);
    }
    put_groups(sink, &groups[..start])?;
    sink.put("::")?;
    put_groups(sink, &groups[start + length..])?;
    Ok(())
}

/// Writes the IPv6 address that an IPv4 address is mapped to.
fn put_mapped<S: TextSink>(sink: &mut S, ip: Ipv4Addr) -> Result<(), S::Error>
    ensures { OnOk result
        (S.wrote sink.old (codes "::ffff:" ++ Text.ipv4_text (ipv4_octets ip)) sink.new) }
{
    sink.put("::ffff:")?;
    put_ipv4(sink, ip)?;
    Ok(())
}

/// Writes an IPv6 address. One that is mapped from an IPv4 address ends in that address, in decimal
/// (RFC 5952, section 5).
///
/// # Errors
///
/// That of the sink.
pub fn put_ipv6<S: TextSink>(sink: &mut S, ip: Ipv6Addr) -> Result<(), S::Error>
    ensures { OnOk result (S.wrote sink.old (Text.ipv6_text (ipv6_segments ip)) sink.new) }
{
    match ip.to_ipv4_mapped() {
        Some(mapped) => put_mapped(sink, mapped),
        None => put_compressed(sink, &ip.segments()),
    }
}

/// Writes an IPv4 address, a colon and a port.
fn put_socket_v4<S: TextSink>(sink: &mut S, addr: SocketAddrV4) -> Result<(), S::Error>
    ensures { OnOk result (S.wrote sink.old (Text.socket_v4_text addr) sink.new) }
{
    put_ipv4(sink, *addr.ip())?;
    sink.put(":")?;
    put_decimal(sink, addr.port() as u64)?;
    Ok(())
}

/// Writes `%` and the scope ID of an IPv6 address, and nothing for 0.
fn put_scope<S: TextSink>(sink: &mut S, scope: u32) -> Result<(), S::Error>
    ensures { OnOk result (S.wrote sink.old (Text.scope_text scope) sink.new) }
{
    if scope == 0 {
        return Ok(());
    }
    sink.put("%")?;
    put_decimal(sink, scope as u64)?;
    Ok(())
}

/// Writes an IPv6 address in brackets, with its scope ID if it has one, a colon and a port.
///
/// # Errors
///
/// That of the sink.
pub fn put_socket_v6<S: TextSink>(sink: &mut S, addr: SocketAddrV6) -> Result<(), S::Error>
    ensures { OnOk result (S.wrote sink.old (Text.socket_v6_text addr) sink.new) }
{
    sink.put("[")?;
    put_ipv6(sink, *addr.ip())?;
    put_scope(sink, addr.scope_id())?;
    sink.put("]:")?;
    put_decimal(sink, addr.port() as u64)?;
    Ok(())
}

/// Writes an address and a port: `192.0.2.1:3478`, `[2001:db8::1]:3478`.
///
/// # Errors
///
/// That of the sink.
pub fn put_socket<S: TextSink>(sink: &mut S, addr: SocketAddr) -> Result<(), S::Error>
    ensures { OnOk result (S.wrote sink.old (Text.socket_text addr) sink.new) }
{
    match addr {
        SocketAddr::V4(addr) => put_socket_v4(sink, addr),
        SocketAddr::V6(addr) => put_socket_v6(sink, addr),
    }
}
