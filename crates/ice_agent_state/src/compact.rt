//! What an agent keeps, in less memory than the values take: a `u128` has its place at a multiple of 16 bytes.

ghost use Rattle.std.specs.Prelude.{◌≡◌, ◌/◌, ◌%◌, ◌^◌, true, false};
ghost use Rattle.ice_agent_state.specs.Kept.{Kept};

use crate::discoveries::Found;
use crate::routing::Route;
use crate::status::Status;
use crate::turns::Reported;
use ice_machine::Remote;
use std::marker::Model;
use stun_endpoints::{Endpoint, Ip};

/// A number of 128 bits, in two halves.
#[derive(Drop)]
struct Number {
    high: u64,
    low: u64,
}

impl Model for Number {
    ghost use Rattle.std.specs.Prelude.{ℕ, ◌+◌, ◌*◌, ◌^◌};

    ghost Value = { ℕ };

    ghost view = { λ n. n.high * 2 ^ 64 + n.low };
}

fn high_half(number: u128) -> u64
    ensures { result ≡ number / 2 ^ 64 }
{
    (number / 18_446_744_073_709_551_616) as u64
}

fn low_half(number: u128) -> u64
    ensures { result ≡ number % 2 ^ 64 }
{
    (number % 18_446_744_073_709_551_616) as u64
}

impl Number {
    fn new(number: u128) -> Self
        ensures { result ≡ number }
    {
        Number {
            high: high_half(number),
            low: low_half(number),
        }
    }

    fn value(&self) -> u128
        ensures { result ≡ self.now }
    {
        self.high as u128 * 18_446_744_073_709_551_616 + self.low as u128
    }
}

/// A route in 24 bytes.
#[derive(Drop)]
pub(crate) struct CompactRoute {
    number: Number,
    base: u32,
    port: u16,
    family: u8,
}

impl Model for CompactRoute {
    ghost use Rattle.ice_agent_state.specs.declared.routing.Route.{Route};

    ghost Value = { Route };

    ghost view = { λ r. record {
      base = r.base;
      to = record { ip = record { family = r.family; number = r.number }; port = r.port };
    } };
}

impl CompactRoute {
    pub(crate) fn new(route: Route) -> Self
        ensures { result ≡ route }
    {
        CompactRoute {
            number: Number::new(route.to.ip.number),
            base: route.base,
            port: route.to.port,
            family: route.to.ip.family,
        }
    }

    pub(crate) fn get(&self) -> Route
        ensures { result ≡ self.now }
    {
        Route {
            base: self.base,
            to: Endpoint {
                ip: Ip {
                    family: self.family,
                    number: self.number.value(),
                },
                port: self.port,
            },
        }
    }
}

/// A candidate of the peer in 32 bytes.
#[derive(Drop)]
pub(crate) struct CompactRemote {
    number: Number,
    foundation: u32,
    priority: u32,
    port: u16,
    component: u16,
    family: u8,
}

impl Model for CompactRemote {
    ghost use Rattle.ice_machine.specs.declared.candidates.Remote.{Remote};

    ghost Value = { Remote };

    ghost view = { λ r. record {
      address = record { ip = record { family = r.family; number = r.number }; port = r.port };
      component = r.component;
      foundation = r.foundation;
      priority = r.priority;
    } };
}

impl CompactRemote {
    pub(crate) fn new(remote: Remote) -> Self
        ensures { result ≡ remote }
    {
        CompactRemote {
            number: Number::new(remote.address.ip.number),
            foundation: remote.foundation,
            priority: remote.priority,
            port: remote.address.port,
            component: remote.component,
            family: remote.address.ip.family,
        }
    }

    pub(crate) fn get(&self) -> Remote
        ensures { result ≡ self.now }
    {
        Remote {
            address: Endpoint {
                ip: Ip {
                    family: self.family,
                    number: self.number.value(),
                },
                port: self.port,
            },
            component: self.component,
            foundation: self.foundation,
            priority: self.priority,
        }
    }
}

/// An address of a local candidate, and for one that a response showed, which isn't reported yet, the base: in 24
/// bytes.
#[derive(Drop)]
pub(crate) struct CompactAddress {
    number: Number,
    base: u32,
    port: u16,
    family: u8,
    is_found: bool,
}

impl Model for CompactAddress {
    ghost use Rattle.ice_agent_state.specs.Kept.{Kept};

    ghost Value = { Kept };

    ghost view = { λ k. record {
      address = record { ip = record { family = k.family; number = k.number }; port = k.port };
      base = k.base;
      is_found = k.is_found;
    } };
}

impl CompactAddress {
    fn new(address: Endpoint, base: u32, is_found: bool) -> Self
        ensures { result ≡ record { address = address; base = base; is_found = is_found } }
    {
        CompactAddress {
            number: Number::new(address.ip.number),
            base,
            port: address.port,
            family: address.ip.family,
            is_found,
        }
    }

    /// An address that the agent knows.
    pub(crate) fn known(address: Endpoint) -> Self
        ensures { result ≡ record { address = address; base = 0; is_found = false } }
    {
        CompactAddress::new(address, 0, false)
    }

    /// An address that a response showed.
    pub(crate) fn found(found: Found) -> Self
        ensures { result ≡ record { address = found.address; base = found.base; is_found = true } }
    {
        CompactAddress::new(found.address, found.base, true)
    }

    pub(crate) fn address(&self) -> Endpoint
        ensures { result ≡ self.now.address }
    {
        Endpoint {
            ip: Ip {
                family: self.family,
                number: self.number.value(),
            },
            port: self.port,
        }
    }

    pub(crate) fn base(&self) -> u32
        ensures { result ≡ self.now.base }
    {
        self.base
    }

    pub(crate) fn is_found(&self) -> bool
        ensures { result ≡ self.now.is_found }
    {
        self.is_found
    }

    /// It is reported now.
    pub(crate) fn mark(&mut self)
        ensures { self.new ≡ record self.old { is_found = false } }
    {
        self.is_found = false;
    }
}

/// What a status is, without its route.
#[derive(Clone, Copy, Debug, PartialEq, Eq)]
enum Kind {
    Checking,
    Connected,
    Failed,
    Lost,
}

/// A status that was reported of a component in 32 bytes.
#[derive(Drop)]
pub(crate) struct CompactReport {
    route: CompactRoute,
    component: u16,
    kind: Kind,
}

impl Model for CompactReport {
    ghost use Rattle.ice_agent_state.specs.declared.turns.Reported.{Reported};

    ghost Value = { Reported };

    ghost use Rattle.ice_agent_state.specs.Kept.{status_with};

    ghost view = { λ r. record { component = r.component; status = status_with r.kind r.route } };
}

/// What stands for a route if there is none.
const NO_ROUTE: Route = Route {
    base: 0,
    to: Endpoint {
        ip: Ip {
            family: 0,
            number: 0,
        },
        port: 0,
    },
};

impl CompactReport {
    pub(crate) fn new(reported: Reported) -> Self
        ensures { result ≡ reported }
    {
        let (kind, route) = match reported.status {
            Status::Checking => (Kind::Checking, NO_ROUTE),
            Status::Connected(route) => (Kind::Connected, route),
            Status::Failed => (Kind::Failed, NO_ROUTE),
            Status::Lost => (Kind::Lost, NO_ROUTE),
        };
        CompactReport {
            route: CompactRoute::new(route),
            component: reported.component,
            kind,
        }
    }

    pub(crate) fn component(&self) -> u16
        ensures { result ≡ self.now.component }
    {
        self.component
    }

    pub(crate) fn status(&self) -> Status
        ensures { result ≡ self.now.status }
    {
        match self.kind {
            Kind::Checking => Status::Checking,
            Kind::Connected => Status::Connected(self.route.get()),
            Kind::Failed => Status::Failed,
            Kind::Lost => Status::Lost,
        }
    }
}
