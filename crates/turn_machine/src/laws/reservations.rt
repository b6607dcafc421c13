//! Reserved ports.

ghost use Rattle.std.specs.Prelude.{◌≡◌, ◌≢◌, ◌<◌, ◌≤◌, ◌==◌, ℕ, List, [], ◌∷◌, length, map, filter, not, nat_lt, max, Option, None, Some, IsSomeAnd};
ghost use Rattle.stun_endpoints.specs.declared.endpoints.Endpoint.{Endpoint};
ghost use Rattle.stun_endpoints.specs.declared.endpoints.FiveTuple.{FiveTuple};
ghost use Rattle.std.specs.List.{AllByRecursion};
ghost use Rattle.turn_machine.specs.Relays.{Setup, Rules};
ghost use Rattle.turn_machine.specs.Events.{Event, Offer, Want, allocate, asks, refused, answers};
ghost use Rattle.turn_machine.specs.Times.{at};
ghost use Rattle.turn_machine.specs.Steps.{step};
ghost use Rattle.turn_machine.specs.Runs.{run, history};
ghost use Rattle.turn_machine.specs.Granting.{Has, IsFit};
ghost use Rattle.turn_machine.specs.Refusals.{IsAgain};
ghost use Rattle.turn_machine.specs.Examples.{outputs};
ghost use Rattle.turn_machine.specs.Reserving.{Reservation, OuterState, Outer, plain, reserves, claims, outer_step, OuterTimed, outer_run, inner_run, outer_outputs};
ghost use Rattle.turn_machine.specs.Reservations.{live_at, count_of, times_of, IsBelowQuota, held_for, made_by, IsReserved};

/// EVEN-PORT with its R bit, and RESERVATION-TOKEN. A run with reservations is a run of the machine, so the
/// other laws hold of it. A fit request reserves the caller's second socket for 30 seconds, if no reservation
/// has the token: no two ever have the same. The token serves the user that reserved, once; with any other
/// token nothing is opened. Only a request that opens an allocation reserves or uses up a reservation: a
/// refused request reserves nothing and leaves all tokens valid, and so do a request that comes again and all
/// other events. A request that comes again gets the token of the first response, as long as the reservation
/// is live: a response shows the token of what its own user reserved, from this client, and no other's. A user
/// never has more reservations than the quota, nor do all users together have more than the most that the
/// setup allows. The token of each reservation that expires is reported. It is left to the caller that tokens
/// can't be guessed.
pub fn reservations_are_kept()
    ensures state { (setup : Setup) (events : List OuterTimed)
        → (outer_run setup events).state ≡ run setup (inner_run setup events) }
    ensures outputs { (setup : Setup) (events : List OuterTimed)
        → outer_outputs setup events ≡ outputs (history setup (inner_run setup events)) }
    ensures few { (setup : Setup) (events : List OuterTimed) (user : ℕ)
        → count_of user (outer_run setup events).held ≤ setup.most_of_user }
    ensures bounded { (setup : Setup) (events : List OuterTimed)
        → length (outer_run setup events).held ≤ setup.most_reservations }
    ensures distinct { (setup : Setup) (events : List OuterTimed) (token : ℕ)
        → times_of token (outer_run setup events).held ≤ 1 }
    ensures reserved { (setup : Setup) (rules : Rules) (h : OuterState) (now : ℕ)
        (tuple : FiveTuple) (user id : ℕ) (lifetime : Option ℕ) (want : Want) (offer : Offer)
        (next : Endpoint) (token : ℕ) → let s = at now h.state in let held = live_at s.clock h.held in
        let done = outer_step setup rules h now
        (reserves tuple user id lifetime want (Some next) token) in
        IsFit setup tuple user want offer s → IsBelowQuota setup user held
        → length held < setup.most_reservations → AllByRecursion (λ x. x.token ≢ token) held
        → (r : Reservation) × IsReserved s.clock tuple user id want next token r
        × (done.holding.held ≡ r ∷ held) × (done.token ≡ Some token)
        × (done.step
        ≡ step setup rules h.state now (asks tuple user (allocate id lifetime (want ∷ [])))) }
    ensures claimed { (setup : Setup) (rules : Rules) (h : OuterState) (now : ℕ)
        (tuple : FiveTuple) (user id : ℕ) (lifetime : Option ℕ) (token number : ℕ) (r : Reservation)
        → let s = at now h.state in let held = live_at s.clock h.held in
        let offer : Offer = record { number = number; address = r.address } in
        let want : Want = record { family = r.family; ready = Some offer } in
        let done = outer_step setup rules h now (claims tuple user id lifetime token (Some number)) in
        held_for user token held ≡ Some r → IsFit setup tuple user want offer s
        → (done.step
        ≡ step setup rules h.state now (asks tuple user (allocate id lifetime (want ∷ []))))
        × (done.holding.held ≡ filter (λ x. not (x.token == token)) held) }
    ensures not_claimed { (setup : Setup) (rules : Rules) (h : OuterState) (now : ℕ)
        (tuple : FiveTuple) (user id : ℕ) (lifetime : Option ℕ) (token : ℕ)
        (number : Option ℕ)
        → let s = at now h.state in held_for user token (live_at s.clock h.held) ≡ None
        → (outer_step setup rules h now (claims tuple user id lifetime token number)).holding.state.relays
        ≡ s.relays }
    ensures refused { (setup : Setup) (rules : Rules) (h : OuterState) (now : ℕ) (outer : Outer)
        (tuple : FiveTuple) (code : ℕ) → let done = outer_step setup rules h now outer in
        done.step.output ≡ answers tuple (refused code)
        → (done.holding.held ≡ live_at (at now h.state).clock h.held) × (done.token ≡ None) }
    ensures again { (setup : Setup) (rules : Rules) (h : OuterState) (now : ℕ) (tuple : FiveTuple)
        (user id : ℕ) (lifetime : Option ℕ) (want : Want) (next : Option Endpoint) (token : ℕ)
        → let s = at now h.state in let held = live_at s.clock h.held in
        let done = outer_step setup rules h now (reserves tuple user id lifetime want next token) in
        IsAgain tuple user id s → (done.holding.held ≡ held)
        × ((r : Reservation) → made_by tuple user id held ≡ Some r → done.token ≡ Some r.token) }
    ensures shown { (setup : Setup) (rules : Rules) (h : OuterState) (now : ℕ) (tuple : FiveTuple)
        (user id : ℕ) (lifetime : Option ℕ) (want : Want) (next : Option Endpoint) (token shown : ℕ)
        → let done = outer_step setup rules h now (reserves tuple user id lifetime want next token) in
        done.token ≡ Some shown
        → IsSomeAnd (made_by tuple user id done.holding.held) (λ r. r.token ≡ shown) }
    ensures claimed_again { (setup : Setup) (rules : Rules) (h : OuterState) (now : ℕ)
        (tuple : FiveTuple) (user id : ℕ) (lifetime : Option ℕ) (token : ℕ)
        (number : Option ℕ)
        → let s = at now h.state in Has tuple s
        → (outer_step setup rules h now (claims tuple user id lifetime token number)).holding.held
        ≡ live_at s.clock h.held }
    ensures others { (setup : Setup) (rules : Rules) (h : OuterState) (now : ℕ) (event : Event)
        → let done = outer_step setup rules h now (plain event) in
        (done.holding.held ≡ live_at (at now h.state).clock h.held) × (done.token ≡ None)
        × (done.step ≡ step setup rules h.state now event) }
    ensures expired { (setup : Setup) (rules : Rules) (h : OuterState) (now : ℕ) (outer : Outer)
        → (outer_step setup rules h now outer).over
        ≡ map (λ r. r.token) (filter (λ r. not (nat_lt (max h.state.clock now) r.expires_at)) h.held) }
{}
