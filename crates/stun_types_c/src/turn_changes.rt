//! What C changes of a TURN server that runs.

ghost use Rattle.std.specs.Prelude.{◌≡◌, MatchOption, Ok, Err};
ghost use Rattle.stun_types_c.specs.CResults.{plain};
ghost use Rattle.stun_types_c.specs.Codes.{BAD_ARGUMENT};
ghost use Rattle.stun_types_c.specs.TurnChanges.{alternate_named, HasLimits, SetsRules, SetsAlternate, SetsLimits};
ghost use Rattle.stun_types_c.specs.TurnHandles.{held_turn};

use crate::address::{Address, socket_of};
use crate::call_result::{CResult, plain};
use crate::codes;
use crate::handle::{put, take};
use crate::turn_core::{PeerRules, TurnCore};
use crate::turn_handle::CTurn;
use crate::turn_settings::{CTurnLimits, CTurnSettings, limits_of, rules_of};
use std::alloc::Global;
use stun_endpoints::Endpoint;

/// Replaces the rules.
fn set_rules(core: &mut TurnCore, rules: PeerRules)
    ensures { core.new ≡ record core.old { rules = rules } }
{
    core.rules = rules;
}

/// Replaces which peers clients may reach. What was granted stays; data that the new rules don't allow is
/// dropped.
#[unsafe(no_mangle)]
pub extern "C" fn stun_types_turn_set_rules(
    alloc: Global,
    server: &mut CTurn,
    settings: &CTurnSettings<'_>,
) -> CResult
    ensures { SetsRules settings.now result (held_turn server.old) (held_turn server.new) }
{
    let rules = match rules_of(alloc, settings) {
        Ok(rules) => rules,
        Err(answer) => return answer,
    };
    let Some(mut core) = take(server, alloc) else {
        return plain(codes::BAD_ARGUMENT);
    };
    set_rules(&mut core, rules);
    put(server, core);
    plain(codes::OK)
}

/// The server that C names, if it names one. `Err` if the address has a family that isn't known.
fn alternate_of(named: &Address) -> Result<Option<Endpoint>, CResult>
    ensures { MatchOption (alternate_named named.now) (result ≡ Err (plain BAD_ARGUMENT)) (λ it. result ≡ Ok it) }
{
    if named.family == 0 {
        return Ok(None);
    }
    match socket_of(named) {
        Some(address) => Ok(Some(Endpoint::from(address))),
        None => Err(plain(codes::BAD_ARGUMENT)),
    }
}

/// Replaces the other server.
fn set_alternate(core: &mut TurnCore, alternate: Option<Endpoint>)
    ensures { core.new ≡ record core.old { access = record core.old.access { alternate = alternate } } }
{
    core.access.alternate = alternate;
}

/// Replaces the server to which clients are sent that can't be given a relayed address.
#[unsafe(no_mangle)]
pub extern "C" fn stun_types_turn_set_alternate(
    alloc: Global,
    server: &mut CTurn,
    alternate: &Address,
) -> CResult
    ensures { SetsAlternate alternate.now result (held_turn server.old) (held_turn server.new) }
{
    let alternate = match alternate_of(alternate) {
        Ok(alternate) => alternate,
        Err(answer) => return answer,
    };
    let Some(mut core) = take(server, alloc) else {
        return plain(codes::BAD_ARGUMENT);
    };
    set_alternate(&mut core, alternate);
    put(server, core);
    plain(codes::OK)
}

/// Replaces the limits.
fn set_limits(core: &mut TurnCore, limits: &CTurnLimits)
    ensures { HasLimits limits.now core.old core.new }
{
    core.server.set_limits(limits_of(limits));
}

/// Replaces the limits, but the room that there is.
#[unsafe(no_mangle)]
pub extern "C" fn stun_types_turn_set_limits(
    alloc: Global,
    server: &mut CTurn,
    limits: &CTurnLimits,
) -> CResult
    ensures { SetsLimits limits.now result (held_turn server.old) (held_turn server.new) }
{
    let Some(mut core) = take(server, alloc) else {
        return plain(codes::BAD_ARGUMENT);
    };
    set_limits(&mut core, limits);
    put(server, core);
    plain(codes::OK)
}
