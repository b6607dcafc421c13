//! What time does.

ghost use Rattle.std.specs.Prelude.{◌≡◌, ℕ, map, filter};
ghost use Rattle.std.specs.List.{AllByRecursion};
ghost use Rattle.ice_machine.specs.Agents.{seconds};
ghost use Rattle.ice_machine.specs.Steps.{settled, is_awaited};
ghost use Rattle.ice_machine.specs.declared.pairs.Pair.{Pair};
ghost use Rattle.ice_agent_state.specs.Agents.{setup_of};
ghost use Rattle.ice_agent_state.specs.Quiet.{StaysAwaited, capped};

use crate::settings::Settings;
use ice_machine::{Pair, PairState, Request};

/// A moment after the latest one that the caller's clock can show.
const NEVER: u128 = 18_446_744_073_709_551_616;

/// For how long a response to a request counts.
pub(crate) const WAIT: u128 = 30_000_000_000;

/// A pair at a moment: a check that no response came to has failed, and a pair whose consent has expired is
/// lost.
pub(crate) fn settle(settings: &Settings, now: u128, pair: Pair) -> Pair
    ensures { result ≡ settled (setup_of settings.now) now pair }
{
    match pair.state {
        PairState::InProgress => {
            if settings.most_tries <= pair.tries && pair.due <= now {
                Pair {
                    state: PairState::Failed,
                    ..pair
                }
            } else {
                pair
            }
        }
        PairState::Succeeded => {
            if pair.expires_at <= now {
                Pair {
                    state: PairState::Lost,
                    triggered: false,
                    chosen: false,
                    ..pair
                }
            } else {
                pair
            }
        }
        PairState::Frozen | PairState::Waiting | PairState::Failed | PairState::Lost => pair,
    }
}

/// All pairs at a moment.
pub(crate) fn settle_all(settings: &Settings, now: u128, pairs: &mut [Pair])
    ensures { pairs.new ≡ map {B = Pair} (settled (setup_of settings.now) now) pairs.old }
{
    for i in 0..pairs.len() {
        pairs[i] = settle(settings, now, pairs[i]);
    }
}

/// Whether a response to a request counts.
fn is_waited_for(now: u128, request: &Request) -> bool
    ensures { result ≡ is_awaited now request.now }
{
    now < WAIT || now - WAIT < request.sent
}

/// Removes the requests whose responses don't count any more.
pub(crate) fn drop_late(requests: &mut Vec<Request>, now: u128)
    ensures { requests.new.items ≡ filter (is_awaited now) requests.old.items }
{
    requests.retain_mut(|r| is_waited_for(now, r));
}

/// A moment; if the caller's clock can't show it, one after all that it can.
pub(crate) fn moment_of(moment: Option<u128>) -> u128
    ensures { result ≡ capped moment }
{
    match moment {
        Some(moment) => moment.min(NEVER),
        None => NEVER,
    }
}

/// Until when responses to all requests count.
pub(crate) fn waited_until(requests: &[Request]) -> u128
    ensures { AllByRecursion (StaysAwaited result) requests.now }
{
    let mut until = NEVER;
    let mut at = requests.len();
    while at > 0 {
        at -= 1;
        until = until.min(requests[at].sent.saturating_add(WAIT));
    }
    until
}
