//! Requests of authenticated users.

ghost use Rattle.std.specs.Prelude.{◌≡◌, ℕ, ◌+◌, ◌≤◌, ◌^◌, length};
ghost use Rattle.stun_endpoints.specs.declared.endpoints.FiveTuple.{FiveTuple};
ghost use Rattle.turn_slots.specs.Users.{user_number};
ghost use Rattle.turn_machine.specs.Relays.{Setup, Rules};
ghost use Rattle.turn_machine.specs.Events.{unfit_allocate, unfit};
ghost use Rattle.turn_relays.specs.Relayed.{Table, state_of};
ghost use Rattle.turn_allocations.specs.Answers.{code_of};
ghost use Rattle.turn_allocations.specs.Clients.{AreSound, Owns};
ghost use Rattle.turn_allocations.specs.Ending.{Numbers};
ghost use Rattle.turn_allocations.specs.Requests.{asked};
ghost use Rattle.turn_allocations.specs.Serving.{Serves};
ghost use Rattle.turn_allocations.specs.Setups.{rules_of, setup_of};

use crate::allocating::{Asking, allocate};
use crate::answer::{Answer, Refusal};
use crate::binding::bind;
use crate::client::{Client, client_of};
use crate::ended::Ended;
use crate::limits::Limits;
use crate::owning::owner_fault;
use crate::permitting::permit;
use crate::refreshing::refresh;
use crate::request::Request;
use stun_endpoints::FiveTuple;
use turn_peers::PeerPolicy;
use turn_relays::Relays;
use turn_slots::UserId;

/// Refuses an Allocate request that its bytes make unfit.
fn refuse_allocate(client: &Client, refusal: Refusal) -> Answer
    ensures { (setup : Setup) (rules : Rules) (t : Table) (tuple : FiveTuple) (user : ℕ) (ended : Numbers)
        → Owns t tuple client.now
        → Serves setup rules tuple user (unfit_allocate (code_of refusal)) t t ended ended result }
{
    if client.is_none() {
        Answer::Refused(refusal)
    } else {
        Answer::Refused(Refusal::AllocationMismatch)
    }
}

/// Refuses another request that its bytes make unfit.
fn refuse(client: &Client, user: UserId, refusal: Refusal) -> Answer
    ensures { (setup : Setup) (rules : Rules) (t : Table) (tuple : FiveTuple) (ended : Numbers)
        → Owns t tuple client.now
        → Serves setup rules tuple (user_number user) (unfit (code_of refusal)) t t ended ended result }
{
    match owner_fault(client, user) {
        Some(fault) => Answer::Refused(fault),
        None => Answer::Refused(refusal),
    }
}

/// Answers a request.
pub(crate) fn serve<const P: usize, const C: usize, A: PeerPolicy>(
    relays: &mut Relays<P, C>,
    ended: &mut Ended,
    limits: &Limits,
    tuple: &FiveTuple,
    user: UserId,
    request: Request<'_>,
    policy: &A,
) -> Answer
    requires room { length ended.old.numbers + length (state_of relays.old).relays ≤ ended.old.room }
    requires sound { AreSound relays.old }
    requires slots { length relays.old.slots ≡ limits.now.relays }
    ensures serves { Serves (setup_of limits.now P C)
        (rules_of (A.allows_address policy.now) (A.allows_port policy.now)) tuple.now (user_number user)
        (asked (state_of relays.old) result request.entry) relays.old relays.new ended.old ended.new result }
    ensures sound { AreSound relays.new }
    ensures slow { relays.new.next ≤ relays.old.next + 2 ^ 26 }
{
    let client = client_of(relays, tuple);
    match request {
        Request::Allocate {
            id,
            lifetime,
            wants,
        } => {
            let asking = Asking {
                tuple: *tuple,
                user,
                id,
            };
            allocate(relays, limits, &client, &asking, lifetime, &wants)
        }
        Request::UnfitAllocate(refusal) => refuse_allocate(&client, refusal),
        Request::Refresh { family, lifetime } => refresh(
            relays,
            ended,
            &client,
            user,
            family,
            lifetime,
            limits.greatest_lifetime,
        ),
        Request::CreatePermission(peers) => permit(relays, &client, user, peers, policy),
        Request::ChannelBind { number, peer } => {
            bind(relays, limits, &client, user, number, peer, policy)
        }
        Request::Unfit(refusal) => refuse(&client, user, refusal),
    }
}
