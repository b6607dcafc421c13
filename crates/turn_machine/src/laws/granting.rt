//! What requests get.

ghost use Rattle.std.specs.Prelude.{◌≡◌, ◌<◌, ◌≤◌, ◌⊎◌, ◌*◌, ◌+◌, ◌==◌, ℕ, List, [], ◌∷◌, length, count_by, max, min, Option, None, Some, true, false, if◌then◌else◌};
ghost use Rattle.stun_endpoints.specs.declared.endpoints.Endpoint.{Endpoint};
ghost use Rattle.stun_endpoints.specs.declared.endpoints.FiveTuple.{FiveTuple};
ghost use Rattle.turn_machine.specs.Relays.{seconds, Channel, Relay, Setup, bound_for, Rules, State};
ghost use Rattle.turn_machine.specs.Events.{Offer, Want, allocate, refresh, permit, bind, unfit, permit_request, asks, allocated, refused, answers};
ghost use Rattle.turn_machine.specs.Times.{at, granted_for, refreshed_for};
ghost use Rattle.turn_machine.specs.Steps.{step};
ghost use Rattle.turn_machine.specs.Runs.{Timed, run};
ghost use Rattle.turn_machine.specs.Granting.{IsFree, IsOwn, IsFit, IsOpened, given_of, IsCovered, CanPermit, CanBind, IsRefreshed, ArePermitted, IsBound, IsRepeated};
ghost use Rattle.turn_machine.specs.Refusals.{IsAgain, IsUnready, AllocateRefusals, RefreshRefusals, PermitRefusals, BindRefusals, UnfitRefusals, IsRoomByLive, IsChannelRoomByLive};
ghost use Rattle.turn_machine.specs.Quotas.{IsOneOf, AreBy};

/// In every state a fit request is granted exactly what it asks for. An Allocate request from a 5-tuple with
/// no allocation, by a user below its quota, with room and a socket, opens one relayed address and changes
/// nothing else; with ADDITIONAL-ADDRESS-FAMILY two, or the one that is possible with the reason for the
/// other: 440 if the server doesn't support the family, 508 if the caller has no socket for it or if quota
/// or room leave one place. A Refresh request sets the end, or ends what it is for and reports it.
/// CreatePermission permits each peer for 300 seconds; ChannelBind binds for 600 and permits for 300, or with
/// `channel_permits` for 600. Other clients' relayed addresses stay as they are. An Allocate request that
/// comes again is answered with all that the client has, and changes nothing.
pub fn fit_is_granted()
    ensures one { (setup : Setup) (rules : Rules) (state : State) (now : ℕ) (tuple : FiveTuple)
        (user id : ℕ) (lifetime : Option ℕ) (want : Want) (offer : Offer)
        → let s = at now state in let granted = granted_for lifetime setup.greatest_lifetime in
        let expires_at = s.clock + seconds granted in
        let done = step setup rules state now
        (asks tuple user (allocate id lifetime (want ∷ []))) in
        IsFit setup tuple user want offer s
        → (a : Relay) × IsOpened tuple user id expires_at want.family offer s done.state a
        × (done.output ≡ answers tuple (allocated (given_of a ∷ []) granted [])) }
    ensures both { (setup : Setup) (rules : Rules) (state : State) (now : ℕ) (tuple : FiveTuple)
        (user id : ℕ) (lifetime : Option ℕ) (want other : Want) (offer second : Offer)
        → let s = at now state in let granted = granted_for lifetime setup.greatest_lifetime in
        let expires_at = s.clock + seconds granted in
        let done = step setup rules state now
        (asks tuple user (allocate id lifetime (want ∷ other ∷ []))) in
        IsFit setup tuple user want offer s
        → (want.family == other.family) ≡ false → setup.has_family other.family ≡ true
        → other.ready ≡ Some second
        → count_by (λ a. a.user == user) s.relays + 1 < setup.most_of_user
        → length s.relays + 1 < setup.most_relays
        → (a : Relay) × (b : Relay) × (between : State)
        × IsOpened tuple user id expires_at want.family offer s between a
        × IsOpened tuple user id expires_at other.family second between done.state b
        × (done.output
        ≡ answers tuple (allocated (given_of b ∷ given_of a ∷ []) granted [])) }
    ensures one_of_two { (setup : Setup) (rules : Rules) (state : State) (now : ℕ)
        (tuple : FiveTuple) (user id : ℕ) (lifetime : Option ℕ) (want other : Want) (offer : Offer)
        → let s = at now state in let granted = granted_for lifetime setup.greatest_lifetime in
        let expires_at = s.clock + seconds granted in
        let done = step setup rules state now
        (asks tuple user (allocate id lifetime (want ∷ other ∷ []))) in
        let code = if setup.has_family other.family then 508 else 440 in
        IsFit setup tuple user want offer s → (want.family == other.family) ≡ false
        → (setup.has_family other.family ≡ false) ⊎ (other.ready ≡ None)
        ⊎ (setup.most_of_user ≤ count_by (λ a. a.user == user) s.relays + 1)
        ⊎ (setup.most_relays ≤ length s.relays + 1)
        → (a : Relay) × IsOpened tuple user id expires_at want.family offer s done.state a
        × (done.output ≡ answers tuple (allocated (given_of a ∷ []) granted
        (record { family = other.family; code = code } ∷ []))) }
    ensures second_of_two { (setup : Setup) (rules : Rules) (state : State) (now : ℕ)
        (tuple : FiveTuple) (user id : ℕ) (lifetime : Option ℕ) (want other : Want) (offer : Offer)
        → let s = at now state in let granted = granted_for lifetime setup.greatest_lifetime in
        let expires_at = s.clock + seconds granted in
        let done = step setup rules state now
        (asks tuple user (allocate id lifetime (want ∷ other ∷ []))) in
        let code = if setup.has_family want.family then 508 else 440 in
        IsFit setup tuple user other offer s → (other.family == want.family) ≡ false
        → (setup.has_family want.family ≡ false) ⊎ (want.ready ≡ None)
        → (a : Relay) × IsOpened tuple user id expires_at other.family offer s done.state a
        × (done.output ≡ answers tuple (allocated (given_of a ∷ []) granted
        (record { family = want.family; code = code } ∷ []))) }
    ensures refreshed { (setup : Setup) (rules : Rules) (state : State) (now : ℕ)
        (tuple : FiveTuple) (user : ℕ) (family lifetime : Option ℕ)
        → IsOwn tuple user (at now state)
        → IsCovered tuple family (at now state)
        → IsRefreshed tuple family (refreshed_for lifetime setup.greatest_lifetime) (at now state)
        (step setup rules state now (asks tuple user (refresh family lifetime))) }
    ensures permitted { (setup : Setup) (rules : Rules) (state : State) (now : ℕ)
        (tuple : FiveTuple) (user : ℕ) (peers : List Endpoint)
        → CanPermit setup rules tuple user peers (at now state)
        → ArePermitted tuple peers (at now state)
        (step setup rules state now (asks tuple user (permit peers))) }
    ensures bound { (setup : Setup) (rules : Rules) (state : State) (now : ℕ) (tuple : FiveTuple)
        (user number : ℕ) (peer : Endpoint)
        → CanBind setup rules tuple user number peer (at now state)
        → IsBound setup tuple number peer (at now state)
        (step setup rules state now (asks tuple user (bind number peer))) }
    ensures again { (setup : Setup) (rules : Rules) (events : List Timed) (now : ℕ)
        (tuple : FiveTuple) (user id : ℕ) (lifetime : Option ℕ) (wants : List Want)
        → let s = at now (run setup events) in IsAgain tuple user id s
        → IsRepeated setup tuple wants s (step setup rules (run setup events) now
        (asks tuple user (allocate id lifetime wants))) }
    ensures lifetimes { (setup : Setup) (wanted greatest : ℕ)
        → (seconds wanted ≡ wanted * 1_000_000_000)
        × (bound_for setup ≡ if setup.channel_permits then 600 else 300)
        × (granted_for None greatest ≡ 600) × (refreshed_for None greatest ≡ 600)
        × (granted_for (Some wanted) greatest ≡ max 600 (min wanted greatest))
        × (refreshed_for (Some 0) greatest ≡ 0)
        × (0 < wanted → refreshed_for (Some wanted) greatest ≡ max 600 (min wanted greatest)) }
{}

/// Each code is the response if and only if its reason holds, in terms of the request and the state, and no
/// other code is. What has expired, and what is asked for again, takes no room. A CreatePermission request
/// of more than 64 peers is unfit with 508. Which other requests are unfit by their bytes is left open.
pub fn refusals_are_exact()
    ensures allocates { (setup : Setup) (rules : Rules) (state : State) (now : ℕ)
        (tuple : FiveTuple) (user id : ℕ) (lifetime : Option ℕ) (wants : List Want)
        → AllocateRefusals setup rules state now tuple user id lifetime wants }
    ensures refreshes { (setup : Setup) (rules : Rules) (state : State) (now : ℕ)
        (tuple : FiveTuple) (user : ℕ) (family lifetime : Option ℕ)
        → RefreshRefusals setup rules state now tuple user family lifetime }
    ensures permits { (setup : Setup) (rules : Rules) (state : State) (now : ℕ) (tuple : FiveTuple)
        (user : ℕ) (peers : List Endpoint)
        → PermitRefusals setup rules state now tuple user peers }
    ensures binds { (setup : Setup) (rules : Rules) (state : State) (now : ℕ) (tuple : FiveTuple)
        (user number : ℕ) (peer : Endpoint)
        → BindRefusals setup rules state now tuple user number peer }
    ensures room { (now : ℕ) (peers : List Endpoint) (a : Relay) → IsRoomByLive now peers a }
    ensures channel_room { (now number : ℕ) (peer : Endpoint) (cs : List Channel)
        → IsChannelRoomByLive now number peer cs }
    ensures unfit { (setup : Setup) (rules : Rules) (state : State) (now : ℕ) (tuple : FiveTuple)
        (user code : ℕ) → UnfitRefusals setup rules state now tuple user code }
    ensures few_peers { (peers : List Endpoint) → length peers ≤ 64
        → permit_request peers ≡ permit peers }
    ensures many_peers { (peers : List Endpoint) → 64 < length peers
        → permit_request peers ≡ unfit 508 }
{}

/// No user ever has more relayed addresses than the quota. If the quotas of all users that ever asked fit
/// into the room, then whatever anybody does, a user finds as many free places as its quota leaves: a fit
/// Allocate request of a user below the quota is granted, and a 508 means that the caller had no socket for
/// any family that the server supports. Whether the caller has sockets is left open.
pub fn quotas_protect()
    ensures within { (setup : Setup) (events : List Timed) (user : ℕ)
        → count_by (λ a. a.user == user) (run setup events).relays ≤ setup.most_of_user }
    ensures places { (setup : Setup) (users : List ℕ) (events : List Timed) (now user more : ℕ)
        → AreBy users events → IsOneOf users user
        → length users * setup.most_of_user ≤ setup.most_relays
        → let s = at now (run setup events) in
        count_by (λ a. a.user == user) s.relays + more ≤ setup.most_of_user
        → length s.relays + more ≤ setup.most_relays }
    ensures granted { (setup : Setup) (users : List ℕ) (events : List Timed) (rules : Rules)
        (now : ℕ) (tuple : FiveTuple) (user id : ℕ) (lifetime : Option ℕ) (want : Want)
        (offer : Offer) → AreBy users events → IsOneOf users user
        → length users * setup.most_of_user ≤ setup.most_relays
        → let s = at now (run setup events) in
        let granted = granted_for lifetime setup.greatest_lifetime in
        let done = step setup rules (run setup events) now
        (asks tuple user (allocate id lifetime (want ∷ []))) in
        IsFree tuple s → count_by (λ a. a.user == user) s.relays < setup.most_of_user
        → setup.has_family want.family ≡ true → want.ready ≡ Some offer
        → (a : Relay) × IsOpened tuple user id (s.clock + seconds granted) want.family offer s
        done.state a
        × (done.output ≡ answers tuple (allocated (given_of a ∷ []) granted [])) }
    ensures unready { (setup : Setup) (users : List ℕ) (events : List Timed) (rules : Rules)
        (now : ℕ) (tuple : FiveTuple) (user id : ℕ) (lifetime : Option ℕ) (wants : List Want)
        → AreBy users events → IsOneOf users user
        → length users * setup.most_of_user ≤ setup.most_relays
        → (step setup rules (run setup events) now
        (asks tuple user (allocate id lifetime wants))).output ≡ answers tuple (refused 508)
        → IsUnready setup wants }
{}
