//! The answers to users' requests.

ghost use Rattle.std.specs.Prelude.{◌≡◌, None};
ghost use Rattle.stun_base.specs.MessageTypes.{method_of};
ghost use Rattle.stun_grammar.specs.Headers.{type_field};
ghost use Rattle.stun_types.specs.Message.{message_bytes};
ghost use Rattle.turn_slots.specs.Users.{user_number};
ghost use Rattle.turn_machine.specs.Events.{asks, answers};
ghost use Rattle.turn_machine.specs.Reserving.{plain};
ghost use Rattle.turn_allocations.specs.Answers.{answer_of};
ghost use Rattle.turn_allocations.specs.Requests.{numbers_in};
ghost use Rattle.turn_allocations.specs.Setups.{rules_of, setup_of};
ghost use Rattle.turn_reservations.specs.Calls.{IsOuterStep};
ghost use Rattle.turn_server.specs.Requests.{permit_of, request_of};
ghost use Rattle.turn_server.specs.Wanted.{outer_of, server_at, token_of};
ghost use Rattle.turn_server.specs.Wishes.{claim_in, wished};

use crate::Sockets;
use crate::peers::peers_of;
use crate::request::read_request;
use crate::wish::Wish;
use stun_endpoints::FiveTuple;
use stun_types::message::Message;
use turn_allocations::{Answer, Request};
use turn_attrs::methods::CREATE_PERMISSION;
use turn_peers::PeerPolicy;
use turn_reservations::{Reply, ReservingAllocations};
use turn_slots::UserId;

/// What comes of a user's request.
#[derive(Clone, Copy)]
pub(crate) struct Served {
    /// The response.
    pub(crate) reply: Reply,
    /// The token that the request claims.
    pub(crate) claim: Option<u64>,
}

/// Answers a CreatePermission request.
fn permit<A: PeerPolicy, const P: usize, const C: usize>(
    allocations: &mut ReservingAllocations<P, C>,
    now: u64,
    from: &FiveTuple,
    user: UserId,
    request: &Message<'_>,
    policy: &A,
) -> Answer
    ensures { IsOuterStep (setup_of allocations.old.limits P C)
        (rules_of (A.allows_address policy.now) (A.allows_port policy.now)) allocations.old now
        (plain (asks from.now (user_number user) (permit_of (message_bytes request.now))))
        (answers from.now (answer_of result)) None allocations.new }
{
    match peers_of(request) {
        Ok(peers) => {
            let request = Request::CreatePermission(&peers);
            allocations.request(now, from, user, request, policy)
        }
        Err(refusal) => {
            let request = Request::Unfit(refusal);
            allocations.request(now, from, user, request, policy)
        }
    }
}

/// Answers what was read of a request.
fn grant<A: PeerPolicy, const P: usize, const C: usize>(
    allocations: &mut ReservingAllocations<P, C>,
    now: u64,
    from: &FiveTuple,
    user: UserId,
    wish: Wish,
    policy: &A,
) -> Served
    ensures step { IsOuterStep (setup_of allocations.old.limits P C)
        (rules_of (A.allows_address policy.now) (A.allows_port policy.now)) allocations.old now
        (wished from.now (user_number user) (server_at now allocations.old.holding) result.reply.answer wish)
        (answers from.now (answer_of result.reply.answer)) result.reply.token allocations.new }
    ensures claim { result.claim ≡ claim_in wish }
{
    match wish {
        Wish::Reserves(reserve) => Served {
            reply: allocations.reserve(now, from, user, reserve, policy),
            claim: None,
        },
        Wish::Claims(claim) => Served {
            reply: Reply {
                answer: allocations.claim(now, from, user, claim, policy),
                token: None,
            },
            claim: Some(claim.token),
        },
        Wish::Asks(request) => Served {
            reply: Reply {
                answer: allocations.request(now, from, user, request, policy),
                token: None,
            },
            claim: None,
        },
    }
}

/// Answers a user's request.
pub(crate) fn serve<A: PeerPolicy, const P: usize, const C: usize>(
    allocations: &mut ReservingAllocations<P, C>,
    now: u64,
    from: &FiveTuple,
    user: UserId,
    request: &Message<'_>,
    sockets: &Sockets,
    policy: &A,
) -> Served
    ensures step { let d = message_bytes request.now in
        let wanted = request_of from.now.client.ip sockets.now (method_of (type_field d)) d in
        IsOuterStep (setup_of allocations.old.limits P C)
        (rules_of (A.allows_address policy.now) (A.allows_port policy.now)) allocations.old now
        (outer_of from.now (user_number user) (server_at now allocations.old.holding)
        (numbers_in result.reply.answer) wanted)
        (answers from.now (answer_of result.reply.answer)) result.reply.token allocations.new }
    ensures claim { let d = message_bytes request.now in
        result.claim ≡ token_of (request_of from.now.client.ip sockets.now (method_of (type_field d)) d) }
{
    if request.has_method(CREATE_PERMISSION) {
        return Served {
            reply: Reply {
                answer: permit(allocations, now, from, user, request, policy),
                token: None,
            },
            claim: None,
        };
    }
    let wish = read_request(request, from.client.ip, sockets);
    grant(allocations, now, from, user, wish, policy)
}
