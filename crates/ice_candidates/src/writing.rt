//! Writing a candidate.

ghost use Rattle.std.specs.Prelude.{◌≡◌, ◌++◌, codes, OnOk, option_map};
ghost use Rattle.std.specs.List.{flat_map, join_with_byte};
ghost use Rattle.ice_candidates.specs.LineTexts.{attribute_text};
ghost use Rattle.ice_candidates.specs.LineViews.{attribute};
ghost use Rattle.ice_candidates.specs.Texts as Texts;
ghost use Rattle.ice_candidates.specs.Views as Views;
ghost use Rattle.ice_candidates.specs.Words.{words};

use crate::candidate::{Address, Candidate, CandidateKind, Transport};
use crate::extensions::Extensions;
use crate::lines::Line;
use std::fmt;
use std::net::IpAddr;
use stun_text::{PrintText, TextSink, put_decimal, put_ipv4, put_ipv6};

impl<'a> Transport<'a> {
    ghost use Rattle.std.specs.Prelude.{◌≡◌};
    ghost use Rattle.ice_candidates.specs.Texts as Texts;
    ghost use Rattle.ice_candidates.specs.Views as Views;

    /// Returns the name of the transport: `UDP`, `TCP` or the token.
    pub fn name(&self) -> &'a str
        ensures { result.now ≡ Texts.protocol_text (Views.protocol self.now) }
    {
        match self {
            Transport::Udp => "UDP",
            Transport::Tcp => "TCP",
            Transport::Other(token) => token,
        }
    }
}

impl<'a> CandidateKind<'a> {
    ghost use Rattle.std.specs.Prelude.{◌≡◌};
    ghost use Rattle.ice_candidates.specs.Texts as Texts;
    ghost use Rattle.ice_candidates.specs.Views as Views;

    /// Returns the name of the type: `host`, `srflx`, `prflx`, `relay` or the token.
    pub fn name(&self) -> &'a str
        ensures { result.now ≡ Texts.kind_text (Views.kind self.now) }
    {
        match self {
            CandidateKind::Host => "host",
            CandidateKind::ServerReflexive => "srflx",
            CandidateKind::PeerReflexive => "prflx",
            CandidateKind::Relayed => "relay",
            CandidateKind::Other(token) => token,
        }
    }
}

fn put_address<S: TextSink>(sink: &mut S, address: &Address<'_>) -> Result<(), S::Error>
    ensures { OnOk result (S.wrote sink.old (Texts.place_text (Views.place address.now)) sink.new) }
{
    match address {
        Address::Ip(IpAddr::V4(ip)) => put_ipv4(sink, *ip),
        Address::Ip(IpAddr::V6(ip)) => put_ipv6(sink, *ip),
        Address::Name(name) => sink.put(name),
    }
}

fn put_related_address<S: TextSink>(
    sink: &mut S,
    address: &Option<Address<'_>>,
) -> Result<(), S::Error>
    ensures { OnOk result (S.wrote sink.old
        (Texts.related_address_text (option_map Views.place address.now)) sink.new) }
{
    let Some(address) = address else {
        return Ok(());
    };
    sink.put(" raddr ")?;
    put_address(sink, address)?;
    Ok(())
}

fn put_related_port<S: TextSink>(sink: &mut S, port: Option<u16>) -> Result<(), S::Error>
    ensures { OnOk result (S.wrote sink.old (Texts.related_port_text port) sink.new) }
{
    let Some(port) = port else {
        return Ok(());
    };
    sink.put(" rport ")?;
    put_decimal(sink, port as u64)?;
    Ok(())
}

fn put_extensions<S: TextSink>(sink: &mut S, extensions: &Extensions<'_>) -> Result<(), S::Error>
    ensures { OnOk result (S.wrote sink.old
        (flat_map Texts.extension_text (Views.pairs extensions.now)) sink.new) }
{
    let Some(text) = extensions.rest else {
        return Ok(());
    };
    sink.put(" ")?;
    sink.put(text)?;
    Ok(())
}

/// Writes the fields before the address.
fn put_front<S: TextSink>(sink: &mut S, candidate: &Candidate<'_>) -> Result<(), S::Error>
    ensures { OnOk result (S.wrote sink.old (Texts.front_text (Views.fields candidate.now)) sink.new) }
{
    sink.put("candidate:")?;
    sink.put(candidate.foundation)?;
    sink.put(" ")?;
    put_decimal(sink, candidate.component as u64)?;
    sink.put(" ")?;
    sink.put(candidate.transport.name())?;
    sink.put(" ")?;
    put_decimal(sink, candidate.priority as u64)?;
    Ok(())
}

fn put_candidate<S: TextSink>(sink: &mut S, candidate: &Candidate<'_>) -> Result<(), S::Error>
    ensures { OnOk result (S.wrote sink.old (Texts.candidate_text (Views.fields candidate.now)) sink.new) }
{
    put_front(sink, candidate)?;
    sink.put(" ")?;
    put_address(sink, &candidate.address)?;
    sink.put(" ")?;
    put_decimal(sink, candidate.port as u64)?;
    sink.put(" typ ")?;
    sink.put(candidate.kind.name())?;
    put_related_address(sink, &candidate.related_address)?;
    put_related_port(sink, candidate.related_port)?;
    put_extensions(sink, &candidate.extensions)?;
    Ok(())
}

impl PrintText for Candidate<'_> {
    ghost use Rattle.ice_candidates.specs.Texts as Texts;
    ghost use Rattle.ice_candidates.specs.Views as Views;

    ghost text = { λ c. Texts.candidate_text (Views.fields c) };

    fn print<S: TextSink>(&self, sink: &mut S) -> Result<(), S::Error> {
        put_candidate(sink, self)
    }
}

/// The line of the attribute, without `a=`.
impl fmt::Display for Candidate<'_> {
    ghost use Rattle.std.specs.Prelude.{Some};
    ghost use Rattle.ice_candidates.specs.Texts as Texts;
    ghost use Rattle.ice_candidates.specs.Views as Views;

    ghost output = { λ c. Some (Texts.candidate_text (Views.fields c)) };

    fn fmt<W: fmt::Write>(&self, f: &mut fmt::Formatter<W>) -> fmt::Result {
        self.print(f)
    }
}

fn put_line<S: TextSink>(sink: &mut S, line: &Line<'_>) -> Result<(), S::Error>
    ensures { OnOk result (S.wrote sink.old (attribute_text (attribute line.now)) sink.new) }
{
    match line {
        Line::Candidate(candidate) => put_candidate(sink, candidate),
        Line::UsernameFragment(text) => put_named(sink, "ice-ufrag:", text),
        Line::Password(text) => put_named(sink, "ice-pwd:", text),
        Line::Options(text) => put_options(sink, text),
        Line::Lite => sink.put("ice-lite"),
        Line::EndOfCandidates => sink.put("end-of-candidates"),
    }
}

/// Writes the name of an attribute, with its colon, and its value.
fn put_named<S: TextSink>(sink: &mut S, name: &str, value: &str) -> Result<(), S::Error>
    ensures { OnOk result (S.wrote sink.old (name.now ++ value.now) sink.new) }
{
    sink.put(name)?;
    sink.put(value)?;
    Ok(())
}

fn put_options<S: TextSink>(sink: &mut S, text: &str) -> Result<(), S::Error>
    ensures { OnOk result (S.wrote sink.old
        (codes "ice-options:" ++ join_with_byte 0x20 (words text.now)) sink.new) }
{
    put_named(sink, "ice-options:", text)?;
    Ok(())
}

impl PrintText for Line<'_> {
    ghost use Rattle.ice_candidates.specs.LineTexts.{attribute_text};
    ghost use Rattle.ice_candidates.specs.LineViews.{attribute};

    ghost text = { λ line. attribute_text (attribute line) };

    fn print<S: TextSink>(&self, sink: &mut S) -> Result<(), S::Error> {
        put_line(sink, self)
    }
}

/// The line of the attribute, without `a=`.
impl fmt::Display for Line<'_> {
    ghost use Rattle.std.specs.Prelude.{Some};
    ghost use Rattle.ice_candidates.specs.LineTexts.{attribute_text};
    ghost use Rattle.ice_candidates.specs.LineViews.{attribute};

    ghost output = { λ line. Some (attribute_text (attribute line)) };

    fn fmt<W: fmt::Write>(&self, f: &mut fmt::Formatter<W>) -> fmt::Result {
        self.print(f)
    }
}
