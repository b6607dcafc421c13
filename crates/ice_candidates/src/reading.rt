//! Reading a candidate.

ghost use Rattle.std.specs.Prelude.{◌≡◌, option_map};
ghost use Rattle.ice_candidates.specs.Words.{words_of};
ghost use Rattle.ice_candidates.specs.Fields as Fields;
ghost use Rattle.ice_candidates.specs.Reading.{Gives, field, candidate_at, kind_at, read_candidate, related_address_at, related_port_at};
ghost use Rattle.ice_candidates.specs.Views as Views;

use crate::attributes::{line_error, value_of, without_type};
use crate::candidate::{Address, Candidate, CandidateKind, Transport};
use crate::chars::is_word;
use crate::ending::{extensions_of, stop};
use crate::errors::{LineError, Stop, Wanted};
use crate::fields::{
    address_of, component_of, foundation_of, kind_of, port_of, priority_of, transport_of,
};
use crate::words::next_word;

fn foundation(rest: Option<&str>) -> Result<(&str, Option<&str>), Stop>
    ensures { Gives (λ x. (x.0.now, words_of x.1)) result
        (field Fields.foundation_of Wanted.Foundation (words_of rest.entry)) }
{
    let (word, others) = next_word(rest);
    match foundation_of(word) {
        Some(foundation) => Ok((foundation, others)),
        None => Err(stop(Wanted::Foundation, rest)),
    }
}

fn component(rest: Option<&str>) -> Result<(u16, Option<&str>), Stop>
    ensures { Gives (λ x. (x.0, words_of x.1)) result
        (field Fields.component_of Wanted.Component (words_of rest.entry)) }
{
    let (word, others) = next_word(rest);
    match component_of(word) {
        Some(component) => Ok((component, others)),
        None => Err(stop(Wanted::Component, rest)),
    }
}

fn transport(rest: Option<&str>) -> Result<(Transport<'_>, Option<&str>), Stop>
    ensures { Gives (λ x. (Views.protocol x.0, words_of x.1)) result
        (field Fields.protocol_of Wanted.Transport (words_of rest.entry)) }
{
    let (word, others) = next_word(rest);
    match transport_of(word) {
        Some(transport) => Ok((transport, others)),
        None => Err(stop(Wanted::Transport, rest)),
    }
}

fn priority(rest: Option<&str>) -> Result<(u32, Option<&str>), Stop>
    ensures { Gives (λ x. (x.0, words_of x.1)) result
        (field Fields.priority_of Wanted.Priority (words_of rest.entry)) }
{
    let (word, others) = next_word(rest);
    match priority_of(word) {
        Some(priority) => Ok((priority, others)),
        None => Err(stop(Wanted::Priority, rest)),
    }
}

fn address(wanted: Wanted, rest: Option<&str>) -> Result<(Address<'_>, Option<&str>), Stop>
    ensures { Gives (λ x. (Views.place x.0, words_of x.1)) result
        (field Fields.place_of wanted (words_of rest.entry)) }
{
    let (word, others) = next_word(rest);
    match address_of(word) {
        Some(address) => Ok((address, others)),
        None => Err(stop(wanted, rest)),
    }
}

fn port(wanted: Wanted, rest: Option<&str>) -> Result<(u16, Option<&str>), Stop>
    ensures { Gives (λ x. (x.0, words_of x.1)) result
        (field Fields.port_of wanted (words_of rest.entry)) }
{
    let (word, others) = next_word(rest);
    match port_of(word) {
        Some(port) => Ok((port, others)),
        None => Err(stop(wanted, rest)),
    }
}

fn kind(rest: Option<&str>) -> Result<(CandidateKind<'_>, Option<&str>), Stop>
    ensures { Gives (λ x. (Views.kind x.0, words_of x.1)) result (kind_at (words_of rest.entry)) }
{
    let (word, others) = next_word(rest);
    if !is_word("typ", word) {
        return Err(stop(Wanted::Typ, rest));
    }
    let (word, after) = next_word(others);
    match kind_of(word) {
        Some(kind) => Ok((kind, after)),
        None => Err(stop(Wanted::Kind, others)),
    }
}

fn related_address(rest: Option<&str>) -> Result<(Option<Address<'_>>, Option<&str>), Stop>
    ensures { Gives (λ x. (option_map Views.place x.0, words_of x.1)) result
        (related_address_at (words_of rest.entry)) }
{
    let (word, others) = next_word(rest);
    if !is_word("raddr", word) {
        return Ok((None, rest));
    }
    let (address, after) = address(Wanted::RelatedAddress, others)?;
    Ok((Some(address), after))
}

fn related_port(rest: Option<&str>) -> Result<(Option<u16>, Option<&str>), Stop>
    ensures { Gives (λ x. (x.0, words_of x.1)) result (related_port_at (words_of rest.entry)) }
{
    let (word, others) = next_word(rest);
    if !is_word("rport", word) {
        return Ok((None, rest));
    }
    let (port, after) = port(Wanted::RelatedPort, others)?;
    Ok((Some(port), after))
}

/// Reads a candidate, from its foundation on.
#[tactic(auto, unfolding(crate::specs::Reading::candidate_at))]
pub fn candidate(rest: Option<&str>) -> Result<Candidate<'_>, Stop>
    ensures { Gives Views.fields result (candidate_at (words_of rest.entry)) }
{
    let (foundation, rest) = foundation(rest)?;
    let (component, rest) = component(rest)?;
    let (transport, rest) = transport(rest)?;
    let (priority, rest) = priority(rest)?;
    let (address, rest) = address(Wanted::Address, rest)?;
    let (port, rest) = port(Wanted::Port, rest)?;
    let (kind, rest) = kind(rest)?;
    let (related_address, rest) = related_address(rest)?;
    let (related_port, rest) = related_port(rest)?;
    let extensions = extensions_of(rest)?;
    Ok(Candidate {
        foundation,
        component,
        transport,
        priority,
        address,
        port,
        kind,
        related_address,
        related_port,
        extensions,
    })
}

/// Reads the line of a candidate.
pub fn read_candidate(line: &str) -> Result<Candidate<'_>, LineError>
    ensures { Gives Views.fields result (read_candidate line.now) }
{
    match value_of("candidate", without_type(line)) {
        Ok(value) => match candidate(Some(value)) {
            Ok(candidate) => Ok(candidate),
            Err(fault) => Err(line_error(line, fault)),
        },
        Err(fault) => Err(line_error(line, fault)),
    }
}
