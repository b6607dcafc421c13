//! Local peer-reflexive candidates (RFC 8445, section 7.2.5.3.1).

ghost use Rattle.std.specs.Prelude.{◌≡◌, drop, find, option_copied};
ghost use Rattle.std.specs.List.{list_any};
ghost use Rattle.stun_endpoints.specs.Endpoints.{is_endpoint};
ghost use Rattle.ice_agent_state.specs.Agents.{added};
ghost use Rattle.ice_agent_state.specs.Kept.{Kept, addresses_of, founds_of, is_found, reported};
ghost use Rattle.ice_machine.specs.Steps.{changed_first};
ghost use Rattle.ice_agent_state.specs.Reports as reports;

use crate::candidates::AddError;
use crate::changes::{Change, Changes};
use crate::compact::CompactAddress;
use crate::lists::put_first;
use stun_endpoints::Endpoint;

/// A local peer-reflexive candidate that isn't reported yet.
#[derive(Clone, Copy, Debug, PartialEq, Eq)]
pub(crate) struct Found {
    pub(crate) base: u32,
    pub(crate) address: Endpoint,
}

fn find_found(addresses: &[CompactAddress]) -> Option<&CompactAddress>
    ensures { option_copied result ≡ find is_found addresses.now }
{
    addresses.iter().find(|k| k.is_found())
}

/// The newest one that isn't reported yet.
pub(crate) fn found_change(addresses: &[CompactAddress]) -> Option<Change>
    ensures { result ≡ reports.found_change (founds_of addresses.now) }
{
    match find_found(addresses) {
        None => None,
        Some(first) => Some(Change::Discovered(first.base(), first.address())),
    }
}

/// Marks the newest one that isn't reported yet as reported.
fn mark_first(addresses: &mut [CompactAddress])
    ensures { addresses.new ≡ changed_first is_found reported addresses.old }
{
    for i in 0..addresses.len() {
        if addresses[i].is_found() {
            addresses[i].mark();
            return;
        }
    }
}

fn is_among(addresses: &[CompactAddress], address: Endpoint) -> bool
    ensures { result ≡ list_any (λ (k : Kept). is_endpoint address k.address) addresses.now }
{
    addresses.iter().any(|k| address == k.address())
}

fn is_kept(addresses: &[CompactAddress], address: Endpoint) -> bool
    ensures { result ≡ list_any (is_endpoint address) (addresses_of addresses.now) }
{
    is_among(addresses, address)
}

impl Changes {
    /// Adds the address of a local candidate, such as those that the agent signals: a response that shows it
    /// discovers none.
    ///
    /// # Errors
    ///
    /// - [`AddError::Full`] if there is no room;
    /// - [`AddError::InUse`] if the address was added, or discovered.
    pub fn add_address(&mut self, address: Endpoint) -> Result<(), AddError>
        ensures state { self.new ≡ reports.with_address address self.old }
        ensures result { result ≡ added (reports.has_place self.old)
            (reports.is_kept address self.old) }
    {
        if self.addresses.len() >= self.most_addresses as usize {
            return Err(AddError::Full);
        }
        if is_kept(&self.addresses, address) {
            return Err(AddError::InUse);
        }
        put_first(&mut self.addresses, CompactAddress::known(address));
        Ok(())
    }

    /// A success response that counts ([`AgentState::respond`]), to a request from this base, has this mapped
    /// address. If it is no address of a local candidate, it is one of a peer-reflexive candidate (RFC 8445,
    /// section 7.2.5.3.1). If there is no room for it, it isn't reported.
    pub fn add_mapped(&mut self, base: u32, mapped: Endpoint)
        ensures { self.new ≡ reports.with_mapped base mapped self.old }
    {
        if self.addresses.len() >= self.most_addresses as usize
            || is_kept(&self.addresses, mapped)
        {
            return;
        }
        let found = Found {
            base,
            address: mapped,
        };
        put_first(&mut self.addresses, CompactAddress::found(found));
    }

    pub(crate) fn mark_found(&mut self)
        ensures { self.new ≡ record self.old { found = drop 1 self.old.found } }
    {
        mark_first(&mut self.addresses);
    }
}
