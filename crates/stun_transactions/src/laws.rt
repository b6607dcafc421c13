//! Laws of sequences of calls. Each function does nothing: its contract is the law.

ghost use Rattle.std.specs.Prelude.{◌≡◌, ℕ, ◌+◌, ◌-◌, ◌<◌, List, [], Option, None, Some, true};
ghost use Rattle.std.specs.Duration.{as_nanos};
ghost use Rattle.stun_grammar.specs.declared.attribute_type.AttributeType.{AttributeType};
ghost use Rattle.stun_transactions.specs.declared.plan.Plan.{Plan};
ghost use Rattle.stun_transactions.specs.declared.retransmission.RetransmissionState.{RetransmissionState};
ghost use Rattle.stun_transactions.specs.declared.retransmission.TransactionEnd.{TransactionEnd};
ghost use Rattle.stun_transactions.specs.declared.received.Outcome.{Outcome};
ghost use Rattle.stun_transactions.specs.Rows.{moment, row_end, row_wait, row_rest};
ghost use Rattle.stun_transactions.specs.Retransmissions.{begun, ended_by, stopped_by, Polls};
ghost use Rattle.std.specs.declared.time.Duration.{Duration};
ghost use Rattle.stun_transactions.specs.declared.retransmission.Action.{Action};
ghost use Rattle.stun_transactions.specs.Outcomes.{after};
ghost use Rattle.stun_transactions.specs.Receiving.{judged, received_outcome};
ghost use Rattle.stun_grammar.specs.Numbers.{IsBytes};
ghost use Rattle.stun_grammar.specs.Parsing.{parse_fault};
ghost use Rattle.stun_transactions.specs.Taking.{is_taken, proof_in, IsRightResponse};
ghost use Rattle.stun_transactions.specs.declared.guard.Protection.{Protection};
ghost use Rattle.stun_transactions.specs.declared.response_policy.ResponsePolicy.{ResponsePolicy};
ghost use Rattle.stun_transactions.specs.declared.parts.TransactionParts.{TransactionParts};
ghost use Rattle.stun_transactions.specs.declared.transaction.Transaction.{Transaction};
ghost use Rattle.stun_keys.specs.declared.keys.integrity_key.IntegrityKey.{IntegrityKey};
ghost use Rattle.stun_transactions.specs.Beginning.{begin_fault};
ghost use Rattle.stun_transactions.specs.Guards.{HasSameKey};
ghost use Rattle.stun_transactions.specs.Parts.{at_state, parts_fault, pending, whole_fault};
ghost use Rattle.stun_transactions.specs.Transactions.{begun_with};
ghost use Rattle.stun_transactions.specs.Runs.{Call, IsRun, Stays, sends, IsSpaced, left_by};

/// The moments of the requests are those of the schedule if every poll is in time: request number
/// `k + 1` follows request number `k` after the wait that the schedule gives once `k + 1` requests
/// were sent, and so the end follows the last one.
pub fn intervals_sum()
    ensures next { (rto requests last_wait_factor k : ℕ) → k + 1 < requests
        → moment rto (k + 1) ≡ moment rto k + row_wait rto requests last_wait_factor (k + 1) }
    ensures end { (rto requests last_wait_factor : ℕ) → 0 < requests
        → row_end rto requests last_wait_factor
        ≡ moment rto (requests - 1) + row_wait rto requests last_wait_factor requests }
{}

/// The first poll of a transaction answers `Send`, if no time has passed since the transaction
/// began.
#[tactic(auto, using(crate::proofs::FirstPollLemmas::first_sends))]
pub fn first_poll_sends()
    ensures { (plan : Plan) (now : Duration) (action : Action) (state : RetransmissionState)
        → Polls plan (begun now) now action state → action ≡ Action.Send }
{}

/// A prepared key changes nothing about what a received message is for a transaction.
pub fn preparing_changes_nothing()
    ensures { (parts : TransactionParts) (key prepared : Option IntegrityKey)
        (understood : List AttributeType) (d : List ℕ) → HasSameKey key prepared
        → received_outcome parts prepared understood d ≡ received_outcome parts key understood d }
{}

/// No poll answers `Send` before the interval after the last such poll has passed, nor more often
/// than the plan allows, whatever calls are made, with whatever moments.
#[tactic(auto, using(crate::proofs::RunsLemmas::spaced))]
pub fn requests_are_spaced()
    ensures { (plan : Plan) (state : RetransmissionState) (calls : List Call)
        → IsRun plan state calls
        → IsSpaced plan state.sent (as_nanos state.last) (sends calls) }
{}

/// After the end of a transaction no call changes anything, no poll answers `Send`, and no message
/// is taken.
#[tactic(auto, using(crate::proofs::RunsLemmas::nothing_left, crate::proofs::RunsLemmas::nothing_sent))]
pub fn ends_are_final()
    ensures calls { (plan : Plan) (state : RetransmissionState) (calls : List Call)
        (end : TransactionEnd)
        → state.end ≡ Some end → IsRun plan state calls → left_by state calls ≡ state }
    ensures sends { (plan : Plan) (state : RetransmissionState) (calls : List Call)
        (end : TransactionEnd)
        → state.end ≡ Some end → IsRun plan state calls → sends calls ≡ [] }
    ensures messages { (parts : TransactionParts) (key : Option IntegrityKey)
        (understood : List AttributeType) (d : List ℕ) (end : TransactionEnd)
        → parts.state.end ≡ Some end
        → received_outcome parts key understood d ≡ Outcome.NotForThis }
{}

/// After `stop_sending` no poll answers `Send`. A response is taken as before, until the moment at
/// which the transaction would have timed out: the wait
/// that is left after request number `k`, counted from 0, ends there.
pub fn stopping_sends_nothing()
    ensures sends { (plan : Plan) (state : RetransmissionState) (calls : List Call)
        → state.stopped ≡ true → IsRun plan state calls → sends calls ≡ [] }
    ensures received { (parts : TransactionParts) (key : Option IntegrityKey)
        (understood : List AttributeType) (d : List ℕ)
        → received_outcome (at_state parts (stopped_by parts.state)) key understood d
        ≡ received_outcome parts key understood d }
    ensures end { (rto requests last_wait_factor k : ℕ) → k < requests
        → moment rto k + row_rest rto requests last_wait_factor (k + 1)
        ≡ row_end rto requests last_wait_factor }
{}

/// A received message, a cancel, a fail or a stop sends no request and doesn't move the next one.
#[tactic(auto, using(crate::proofs::RunsLemmas::receiving_stays))]
pub fn other_calls_stay()
    ensures receiving { (parts : TransactionParts) (key : Option IntegrityKey)
        (understood : List AttributeType) (d : List ℕ)
        → Stays parts.state (after (received_outcome parts key understood d) parts.state) }
    ensures ending { (end : TransactionEnd) (state : RetransmissionState) → Stays state
        (ended_by end state) }
    ensures stopping { (state : RetransmissionState) → Stays state (stopped_by state) }
{}

/// Whatever a transaction takes is a message and a response to its request, and shows a FINGERPRINT
/// if the usage sends them. If a credential protects the request, it is authentic by the algorithm
/// that is returned with it, with an HMAC that is long enough; only a 401 or 438 under a long-term
/// credential need not be. So a 300 that answers a protected request is taken only if it is
/// authentic.
#[tactic(auto, using(crate::proofs::TakingLemmas::right))]
pub fn accepted_is_authentic()
    ensures { (parts : TransactionParts) (key : Option IntegrityKey)
        (understood : List AttributeType) (d : List ℕ)
        → IsBytes d → is_taken (received_outcome parts key understood d) ≡ true
        → IsRightResponse parts key d (proof_in (received_outcome parts key understood d)) }
{}

/// What [`PendingRequest::judge`](crate::PendingRequest::judge) takes is authentic too, as
/// [`accepted_is_authentic`] says of a transaction with this request.
#[tactic(auto, using(crate::proofs::TakingLemmas::judged_right))]
pub fn judged_is_authentic()
    ensures { (parts : TransactionParts) (key : Option IntegrityKey)
        (understood : List AttributeType) (d : List ℕ) → let outcome = judged (pending parts) key
        understood d in
        IsBytes d → parse_fault d ≡ None → is_taken outcome ≡ true
        → IsRightResponse parts key d (proof_in outcome) }
{}

/// A transaction is determined by its parts and its key.
#[tactic(auto, using(crate::proofs::PartsLemmas::all_of_it))]
pub fn parts_are_the_whole()
    ensures { (one other : Transaction) → one.parts ≡ other.parts → one.key ≡ other.key
        → one ≡ other }
{}

/// No parts of a transaction are refused, neither when it begins nor after any call.
pub fn no_parts_are_refused()
    ensures begins { (r : List ℕ) (plan : Plan) (protection : Protection) (usage : ResponsePolicy)
        (now : Duration) → let begun = begun_with r plan protection usage now in
        begin_fault protection r ≡ None → whole_fault begun.parts begun.key ≡ None }
    ensures polls { (parts : TransactionParts) (now : Duration) (action : Action)
        (state : RetransmissionState)
        → parts_fault parts ≡ None → Polls parts.plan parts.state now action state
        → parts_fault (at_state parts state) ≡ None }
    ensures receives { (parts : TransactionParts) (outcome : Outcome) → parts_fault parts ≡ None
        → parts_fault (at_state parts (after outcome parts.state)) ≡ None }
    ensures ends { (parts : TransactionParts) (end : TransactionEnd) → parts_fault parts ≡ None
        → parts_fault (at_state parts (ended_by end parts.state)) ≡ None }
    ensures stops { (parts : TransactionParts) → parts_fault parts ≡ None
        → parts_fault (at_state parts (stopped_by parts.state)) ≡ None }
{}
