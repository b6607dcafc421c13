//! Laws of what is reported to C, and of handles. Each function does nothing: its contract is the law.

ghost use Rattle.std.specs.Prelude.{◌≡◌, ℕ, ◌≤◌, Bool, List, slice_index, Option, Some, Ok, IfSome};
ghost use Rattle.stun_values.specs.declared.algorithm.PasswordAlgorithmValue.{PasswordAlgorithmValue};
ghost use Rattle.stun_types.specs.LookingUp.{nth};
ghost use Rattle.stun_authentication.specs.Challenges.{Retry, challenge_of};
ghost use Rattle.stun_types_c.specs.Attributes.{in_c};
ghost use Rattle.stun_types_c.specs.Challenges.{in_c as asked_in_c, StandsWhereReported};
ghost use Rattle.stun_types_c.specs.Values.{value_of};
ghost use Rattle.stun_types_c.specs.contracts.allocation_handle.CAllocation.{the_row as client_row};
ghost use Rattle.stun_types_c.specs.contracts.ice_handle.CIce.{the_row as agent_row};
ghost use Rattle.stun_types_c.specs.contracts.key_handle.KeyHandle.{the_row as key_row};
ghost use Rattle.stun_types_c.specs.contracts.shared_key.SharedKey.{the_row as shared_row};
ghost use Rattle.stun_types_c.specs.contracts.turn_handle.CTurn.{the_row as turn_row};
ghost use denote.Param.Send.{IsSend, IsSync};

/// The value of an attribute that is found is at the place that is reported to C.
pub fn found_value_stands_where_it_is_reported(bytes: &[u8])
    ensures { (type : ℕ) → IfSome (nth bytes.now type 0)
        (λ a. value_of (in_c a) bytes.now ≡ Some a.value) }
{}

/// So do the texts and the list that a challenge asks for.
pub fn asked_texts_stand_where_they_are_reported(response: &[u8])
    ensures { (supported : List PasswordAlgorithmValue) (tried : Option (List ℕ)) (had_algorithms : Bool) (retry : Retry)
        → challenge_of supported tried had_algorithms response.now ≡ Ok retry
        → StandsWhereReported response.now retry (asked_in_c response.now retry) }
{}

/// A law: the handle of a key may go to another thread, if a lock or a join orders what the two do with it.
pub fn handle_may_go_to_another_thread()
    ensures { IsSend key_row }
{}

/// A law: the key of a handle may be used by several threads at once, in calls that share it.
pub fn handle_may_be_shared()
    ensures sent { IsSend shared_row }
    ensures shared { IsSync shared_row }
{}

/// A law: the handle of a server may go to another thread, if a lock or a join orders what the two do with it.
pub fn server_may_go_to_another_thread()
    ensures { IsSend turn_row }
{}

/// A law: the handle of a client may go to another thread, if a lock or a join orders what the two do with it.
pub fn client_may_go_to_another_thread()
    ensures { IsSend client_row }
{}

/// A law: the handle of an agent may go to another thread, if a lock or a join orders what the two do with it.
pub fn agent_may_go_to_another_thread()
    ensures { IsSend agent_row }
{}
