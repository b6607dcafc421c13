//! What a word is, as a field of a candidate.

ghost use Rattle.std.specs.Prelude.{◌≡◌, option_map, option_copied};
ghost use Rattle.std.specs.List.{list_all};
ghost use Rattle.std.specs.Char.{is_ascii_digit};
ghost use Rattle.ice_candidates.specs.Fields as Fields;
ghost use Rattle.ice_candidates.specs.Texts as Texts;
ghost use Rattle.ice_candidates.specs.Views as Views;

use crate::candidate::{Address, Candidate, CandidateKind, Transport};
use crate::chars::{is_ice_text, is_name, is_token, is_word};
use std::net::IpAddr;

pub fn foundation_of(word: &str) -> Option<&str>
    ensures { option_copied result ≡ Fields.foundation_of word.now }
{
    if is_ice_text(word, 1, 32) {
        Some(word)
    } else {
        None
    }
}

fn are_digits(word: &str) -> bool
    ensures { result ≡ list_all is_ascii_digit word.now }
{
    word.as_bytes().iter().all(|byte| byte.is_ascii_digit())
}

/// Returns the number of this range that digits write.
fn number_of(word: &str, least: u32, most: u32) -> Option<u32>
    ensures { result ≡ Fields.number_of least most word.now }
{
    if word.is_empty() || !are_digits(word) {
        return None;
    }
    let number: u32 = word.parse().ok()?;
    if number >= least && number <= most {
        Some(number)
    } else {
        None
    }
}

pub fn component_of(word: &str) -> Option<u16>
    ensures { result ≡ Fields.component_of word.now }
{
    if word.len() > 3 {
        return None;
    }
    match number_of(word, 1, 256) {
        Some(number) => Some(number as u16),
        None => None,
    }
}

pub fn priority_of(word: &str) -> Option<u32>
    ensures { result ≡ Fields.priority_of word.now }
{
    if word.len() > 10 {
        return None;
    }
    number_of(word, 1, 0x7FFF_FFFF)
}

pub fn port_of(word: &str) -> Option<u16>
    ensures { result ≡ Fields.port_of word.now }
{
    match number_of(word, 0, 65_535) {
        Some(number) => Some(number as u16),
        None => None,
    }
}

pub fn transport_of(word: &str) -> Option<Transport<'_>>
    ensures { option_map Views.protocol result ≡ Fields.protocol_of word.now }
{
    if is_word("udp", word) {
        Some(Transport::Udp)
    } else if is_word("tcp", word) {
        Some(Transport::Tcp)
    } else if is_token(word) {
        Some(Transport::Other(word))
    } else {
        None
    }
}

/// Returns the IP address that a text writes.
fn ip_of(text: &str) -> Option<IpAddr>
    ensures { result ≡ Fields.ip_of text.now }
{
    text.parse().ok()
}

pub fn address_of(word: &str) -> Option<Address<'_>>
    ensures { option_map Views.place result ≡ Fields.place_of word.now }
{
    match ip_of(word) {
        Some(ip) => Some(Address::Ip(ip)),
        None if is_name(word) => Some(Address::Name(word)),
        None => None,
    }
}

pub fn kind_of(word: &str) -> Option<CandidateKind<'_>>
    ensures { option_map Views.kind result ≡ Fields.kind_of word.now }
{
    if is_word("host", word) {
        Some(CandidateKind::Host)
    } else if is_word("srflx", word) {
        Some(CandidateKind::ServerReflexive)
    } else if is_word("prflx", word) {
        Some(CandidateKind::PeerReflexive)
    } else if is_word("relay", word) {
        Some(CandidateKind::Relayed)
    } else if is_token(word) {
        Some(CandidateKind::Other(word))
    } else {
        None
    }
}

/// Returns `true` if a word may be the name of an extension.
pub fn is_extension_name(word: &str) -> bool
    ensures { result ≡ Fields.is_extension_name word.now }
{
    is_token(word) && !is_word("raddr", word) && !is_word("rport", word)
}

fn is_transport(transport: &Transport<'_>) -> bool
    ensures { result ≡ Texts.is_protocol (Views.protocol transport.now) }
{
    match transport {
        Transport::Udp | Transport::Tcp => true,
        Transport::Other(token) => {
            is_token(token) && !is_word("udp", token) && !is_word("tcp", token)
        }
    }
}

fn is_address(address: &Address<'_>) -> bool
    ensures { result ≡ Texts.is_place (Views.place address.now) }
{
    match address {
        Address::Ip(_) => true,
        Address::Name(name) => is_name(name) && ip_of(name).is_none(),
    }
}

fn is_optional_address(address: &Option<Address<'_>>) -> bool
    ensures { result ≡ Texts.is_optional_place (option_map Views.place address.now) }
{
    match address {
        None => true,
        Some(address) => is_address(address),
    }
}

fn is_kind(kind: &CandidateKind<'_>) -> bool
    ensures { result ≡ Texts.is_kind (Views.kind kind.now) }
{
    match kind {
        CandidateKind::Other(token) => {
            is_token(token)
                && !is_word("host", token)
                && !is_word("srflx", token)
                && !is_word("prflx", token)
                && !is_word("relay", token)
        }
        _ => true,
    }
}

/// Returns `true` if each field of a candidate is in its range.
pub fn is_in_range(candidate: &Candidate<'_>) -> bool
    ensures { result ≡ Texts.is_in_range (Views.fields candidate.now) }
{
    is_ice_text(candidate.foundation, 1, 32)
        && candidate.component >= 1
        && candidate.component <= 256
        && candidate.priority >= 1
        && candidate.priority <= 0x7FFF_FFFF
        && is_transport(&candidate.transport)
        && is_kind(&candidate.kind)
        && is_address(&candidate.address)
        && is_optional_address(&candidate.related_address)
}
