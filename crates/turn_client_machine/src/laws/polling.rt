//! What polls send, and when.

ghost use Rattle.std.specs.Prelude.{◌≡◌, ◌<◌, ◌≤◌, ◌⊎◌, ◌+◌, ℕ, Bool, true, false, find, Some, []};
ghost use Rattle.turn_client_machine.specs.Clients.{Setup, State, is_allocated, Endpoint, is_active, Peer, Pending, End, Asking, Allocated, Closing, Ended, Allocate, Refresh, Delete};
ghost use Rattle.turn_client_machine.specs.Steps.{at, step, counted, is_single, is_free, is_next, kind_of, others_at, takes_along};
ghost use Rattle.turn_client_machine.specs.Events.{responds, polls, asks, Opened, Extended, Done, Refused, Challenged};
ghost use Rattle.turn_client_machine.specs.Strangers.{is_unknown};
ghost use Rattle.turn_client_machine.specs.Lasting.{IsInTime};
ghost use Rattle.std.specs.List.{list_any};
ghost use Rattle.turn_client_machine.specs.Working.{dues};
ghost use Rattle.turn_client_machine.specs.Tasks.{awaits, is_due, is_expired, may_retry};
ghost use Rattle.turn_client_machine.specs.Responses.{awaits_of};
ghost use Rattle.turn_client_machine.specs.Renewing.{IsTurn, IsDeleting, Rests, IsGood, new_request, is_renewed, is_turn};

/// Each poll leaves fewer tasks due, unless none was, or requests for eight single peers are under
/// way. A
/// client that is polled until nothing is due is in time for as long as the next poll may come
/// late.
pub fn polls_come_to_an_end()
    ensures fewer { (setup : Setup) (state : State) (now fresh : ℕ)
        → (dues (step setup state now fresh polls).state < dues (at now state))
        ⊎ ((dues (at now state) ≡ 0) ⊎ (8 ≤ counted is_single state.peers)) }
    ensures in_time { (state : State) (late later : ℕ) → is_allocated state.phase ≡ true
        → dues state ≡ 0 → later ≤ state.clock + late → IsInTime late (at later state) }
{}

/// A poll at which a task is due with no request under way sends a new request with the newest
/// challenge. Its success counts from the moment of this poll on. After a 401 or 438 the task is
/// due again at once, with the new challenge.
pub fn turns_are_used()
    ensures allocate { (setup : Setup) (state : State) (now fresh later other lifetime : ℕ)
        (relayed mapped : Endpoint) → 0 < setup.most_sends → state.phase ≡ Asking
        → IsTurn (at now state).clock state.task → 80 ≤ lifetime → relayed.ip.family ≡ setup.family
        → ((step setup state now fresh polls).output
        ≡ asks (new_request (at now state) fresh Allocate) [])
        × IsGood (at now state).clock lifetime (step setup (step setup state now fresh polls).state
        later other (responds setup.server fresh true (Opened relayed mapped lifetime))).state }
    ensures refresh { (setup : Setup) (state : State) (now fresh later other lifetime : ℕ)
        → 0 < setup.most_sends → state.phase ≡ Allocated
        → IsTurn (at now state).clock state.task → 80 ≤ lifetime
        → ((step setup state now fresh polls).output
        ≡ asks (new_request (at now state) fresh Refresh) [])
        × IsGood (at now state).clock lifetime (step setup (step setup state now fresh polls).state
        later other (responds setup.server fresh true (Extended lifetime))).state }
    ensures peer { (setup : Setup) (state : State) (now fresh later other : ℕ) (p : Peer)
        → 0 < setup.most_sends → state.phase ≡ Allocated
        → is_due (at now state).clock state.task ≡ false
        → find (is_next (is_free state.peers) (at now state).clock) state.peers ≡ Some p
        → IsTurn (at now state).clock p.task → is_unknown fresh state ≡ true
        → ((step setup state now fresh polls).output
        ≡ asks (new_request (at now state) fresh (kind_of p)) (others_at setup fresh
        (is_free state.peers) (takes_along setup (at now state).clock state.peers p)
        (at now state)))
        × (list_any (is_renewed (at now state).clock p.wants p.address)
        (step setup (step setup state now fresh polls).state later other
        (responds setup.server fresh true Done)).state.peers ≡ true) }
    ensures again { (setup : Setup) (state : State) (now fresh id code challenge : ℕ)
        (authentic : Bool) (q : Pending) → is_active state.phase ≡ true
        → state.task.pending ≡ Some q → q.request.id ≡ id
        → may_retry setup state.challenge code state.task ≡ true
        → is_expired (at now state).clock state.task ≡ false
        → let after = (step setup state now fresh
        (responds setup.server id authentic (Challenged code challenge))).state in
        (after.challenge ≡ Some challenge) × (after.phase ≡ state.phase)
        × IsTurn (at now state).clock after.task }
    ensures again_peer { (setup : Setup) (state : State) (now fresh id code challenge : ℕ)
        (authentic : Bool) (p : Peer) → state.phase ≡ Allocated → awaits id state.task ≡ false
        → find (awaits_of id) state.peers ≡ Some p → p.over ≡ false
        → may_retry setup state.challenge code p.task ≡ true
        → is_expired (at now state).clock p.task ≡ false
        → let after = (step setup state now fresh
        (responds setup.server id authentic (Challenged code challenge))).state in
        (after.challenge ≡ Some challenge)
        × (list_any (is_turn (at now state).clock p.address) after.peers ≡ true) }
{}

/// A client that is granted a relayed address of another family than it asked for, or a lifetime
/// of less than 80 seconds, deletes the allocation, by a Refresh request with lifetime 0, and
/// then ends (RFC 8656, section 7.3). It does the same if its user closes it.
pub fn useless_is_deleted()
    ensures opened { (setup : Setup) (state : State) (now fresh lifetime : ℕ) (q : Pending)
        (relayed mapped : Endpoint) → is_active state.phase ≡ true → state.task.pending ≡ Some q
        → q.request.kind ≡ Allocate → (lifetime < 80) ⊎ (relayed.ip.family ≡ setup.family → ⊥)
        → IsDeleting (at now state).clock (step setup state now fresh
        (responds setup.server q.request.id true (Opened relayed mapped lifetime))).state }
    ensures refreshed { (setup : Setup) (state : State) (now fresh lifetime : ℕ) (q : Pending)
        → is_active state.phase ≡ true → state.task.pending ≡ Some q → q.request.kind ≡ Refresh
        → lifetime < 80 → IsDeleting (at now state).clock (step setup state now fresh
        (responds setup.server q.request.id true (Extended lifetime))).state }
    ensures deleted { (setup : Setup) (state : State) (now fresh later other lifetime code : ℕ)
        (why : End) → 0 < setup.most_sends → state.phase ≡ Closing why
        → IsTurn (at now state).clock state.task
        → ((step setup state now fresh polls).output
        ≡ asks (new_request (at now state) fresh Delete) [])
        × (((step setup (step setup state now fresh polls).state later other
        (responds setup.server fresh true (Extended lifetime))).state.phase ≡ Ended why)
        × ((step setup (step setup state now fresh polls).state later other
        (responds setup.server fresh true (Refused code))).state.phase ≡ Ended why)) }
{}

/// Whatever lifetime the server grants, the next Refresh request is due no sooner than 40 seconds
/// after the granted one was first sent, or the client deletes the allocation. Until it is due,
/// no poll changes the allocation's task.
pub fn renewals_are_rare()
    ensures opened { (setup : Setup) (state : State) (now fresh lifetime : ℕ) (q : Pending)
        (relayed mapped : Endpoint) → is_active state.phase ≡ true → state.task.pending ≡ Some q
        → q.request.kind ≡ Allocate → let after = (step setup state now fresh
        (responds setup.server q.request.id true (Opened relayed mapped lifetime))).state in
        IsDeleting after.clock after ⊎ Rests q.request after }
    ensures refreshed { (setup : Setup) (state : State) (now fresh lifetime : ℕ) (q : Pending)
        → is_active state.phase ≡ true → state.task.pending ≡ Some q → q.request.kind ≡ Refresh
        → let after = (step setup state now fresh
        (responds setup.server q.request.id true (Extended lifetime))).state in
        IsDeleting after.clock after ⊎ Rests q.request after }
    ensures waits { (setup : Setup) (state : State) (now fresh : ℕ)
        → is_due (at now state).clock state.task ≡ false
        → (step setup state now fresh polls).state.task ≡ state.task }
{}
