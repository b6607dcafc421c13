//! The owner of an allocation (RFC 8656, section 5).

ghost use Rattle.std.specs.Prelude.{◌≡◌, ℕ, Option};
ghost use Rattle.std.specs.Option.{option_map};
ghost use Rattle.stun_endpoints.specs.declared.endpoints.FiveTuple.{FiveTuple};
ghost use Rattle.turn_slots.specs.Users.{user_number};
ghost use Rattle.turn_machine.specs.Rows.{own_rows};
ghost use Rattle.turn_relays.specs.Relayed.{Table, state_of};
ghost use Rattle.turn_allocations.specs.Answers.{code_of};
ghost use Rattle.turn_allocations.specs.Clients.{Owns};
ghost use Rattle.turn_allocations.specs.Serving.{or_else};

use crate::answer::Refusal;
use crate::client::Client;
use turn_slots::UserId;

/// Why a request other than Allocate is refused whatever it asks for: the client has no allocation, or it
/// belongs to another user.
pub(crate) fn owner_fault(client: &Client, user: UserId) -> Option<Refusal>
    ensures { (t : Table) (tuple : FiveTuple) (others : Option ℕ) → Owns t tuple client.now
        → own_rows tuple (user_number user) (state_of t) others
        ≡ or_else (option_map code_of result) others }
{
    if client.is_none() {
        return Some(Refusal::AllocationMismatch);
    }
    if client.is_anothers(user) {
        return Some(Refusal::WrongCredentials);
    }
    None
}
