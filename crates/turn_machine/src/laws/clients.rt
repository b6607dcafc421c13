//! What one party does to another.

ghost use Rattle.std.specs.Prelude.{◌≡◌, ◌≤◌, ℕ, List, [], ◌++◌, true, false};
ghost use Rattle.stun_endpoints.specs.declared.endpoints.FiveTuple.{FiveTuple};
ghost use Rattle.turn_machine.specs.Relays.{Setup, Rules, State};
ghost use Rattle.turn_machine.specs.Events.{Event, ticks, nothing};
ghost use Rattle.turn_machine.specs.Times.{at, over_at};
ghost use Rattle.turn_machine.specs.Steps.{step};
ghost use Rattle.turn_machine.specs.Runs.{Timed, run, history, happening};
ghost use Rattle.turn_machine.specs.Strangers.{is_datagram, IsQuiet, IsForgotten};
ghost use Rattle.turn_machine.specs.Apart.{is_own, own, sights, comes_to};

/// A datagram that is no authentic request of a user changes the clock only, and if no relayed address matches
/// it, nothing is done. All that happens later is as if it hadn't come. Time alone ends what has expired,
/// reports it, and does nothing else.
pub fn strangers_get_little()
    ensures unchanged { (setup : Setup) (rules : Rules) (state : State) (now : ℕ) (event : Event)
        → is_datagram event ≡ true → (step setup rules state now event).state ≡ at now state }
    ensures quiet { (setup : Setup) (rules : Rules) (state : State) (now : ℕ) (event : Event)
        → is_datagram event ≡ true → IsQuiet setup rules state now event }
    ensures forgotten { (setup : Setup) (later : List Timed) (next stranger : Timed)
        (earlier : List Timed) → is_datagram stranger.event ≡ true → stranger.now ≤ next.now
        → IsForgotten setup later next stranger earlier }
    ensures time { (setup : Setup) (rules : Rules) (state : State) (now : ℕ)
        → step setup rules state now ticks
        ≡ record { state = at now state; output = nothing; closes = over_at now state ++ [] } }
{}

/// What a client observes (its responses, their moments, where its data and its peers' data go) is determined
/// by what the client does, by what arrives at the sockets that it was given, and by the responses to its
/// Allocate requests. So two runs in which these are the same look the same to it, whatever others do, and
/// at all other events nothing is sent to it. The responses to Allocate requests depend on others, by the
/// quota, the room and the caller's sockets: `fit_is_granted` and `refusals_are_exact` say how. The law says
/// nothing of reservations.
pub fn clients_are_apart()
    ensures alike { (setup : Setup) (tuple : FiveTuple) (one other : List Timed)
        → own tuple (history setup one) ≡ own tuple (history setup other)
        → sights tuple (history setup one) ≡ sights tuple (history setup other) }
    ensures others { (setup : Setup) (tuple : FiveTuple) (events : List Timed) (timed : Timed)
        → is_own tuple (history setup events) timed.event ≡ false
        → comes_to tuple (happening setup (run setup events) timed).output ≡ false }
{}
